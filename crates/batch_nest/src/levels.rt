//! A workspace and the marks of the inner batches that are open: the lines of a nest are done one after the other.
ghost use Rattle.std.specs.Prelude.{◌≡◌, [], ◌+◌, ◌<◌, ◌≤◌, length, max, OnOk, OnErr, IfErr};
ghost use Rattle.batch_core.specs.Back.{Grows, undo_all};
ghost use Rattle.batch_nest.specs.Nest.{IsBalanced, command_lines, begin_lines};
ghost use Rattle.batch_nest.specs.Applied.{OfBody, IsThrough, NestRefusedAtAnyEnd};

use crate::nest::NestLine;
use batch_core::{Refusal, Workspace};
use wic_base::OutOfMemory;
use wic_vec::TryVec;

/// A workspace, and for each inner batch that is open how many records there were at its start.
#[derive(Drop)]
pub struct Levels<T: Drop> {
    pub workspace: Workspace<T>,
    pub marks: TryVec<usize>,
}

/// How many lines of a kind there are.
#[derive(Clone, Copy)]
pub struct Counts {
    pub commands: usize,
    pub begins: usize,
}

/// The numbers of command lines and of `Begin` lines.
pub fn counts_of<T>(lines: &TryVec<NestLine<T>>) -> Counts
    ensures commands { result.commands ≡ command_lines lines.now.items }
    ensures begins { result.begins ≡ begin_lines lines.now.items }
{
    let mut commands: usize = 0;
    let mut begins: usize = 0;
    for line in lines.iter() {
        match line {
            NestLine::Command(_) => commands += 1,
            NestLine::Begin => begins += 1,
            NestLine::Commit | NestLine::Abort => {}
        }
    }
    Counts { commands, begins }
}

impl<T: Drop> Levels<T> {
    /// Forgets the records and all marks, and makes room for so many.
    pub fn begin(&mut self, counts: Counts) -> Result<(), OutOfMemory>
        ensures contents { self.new.workspace.contents ≡ self.old.workspace.contents }
        ensures records { self.new.workspace.records ≡ [] }
        ensures room { self.new.workspace.room ≡ self.old.workspace.room }
        ensures grows { Grows self.old.workspace.capacities self.new.workspace.capacities }
        ensures marks_grow { self.old.marks.capacity ≤ self.new.marks.capacity }
        ensures no_marks { OnOk result (self.new.marks.items ≡ []) }
        ensures record_room { OnOk result
            (counts.commands ≤ self.new.workspace.capacities.records) }
        ensures mark_room { OnOk result (counts.begins ≤ self.new.marks.capacity) }
        ensures refused_only_beyond { self.old.workspace.room ≤ self.old.marks.capacity
            → OnErr result (self.old.workspace.room < max counts.commands counts.begins) }
    {
        self.workspace.begin_records(counts.commands)?;
        self.marks.clear();
        self.marks.reserve(counts.begins)
    }

    /// Does the lines, up to the first command that isn't done. What those before it did stays, and can be undone.
    pub fn run(&mut self, lines: TryVec<NestLine<T>>) -> Result<(), Refusal>
        requires balanced { IsBalanced lines.items }
        requires fresh { self.old.workspace.records ≡ [] }
        requires no_marks { self.old.marks.items ≡ [] }
        requires record_room { command_lines lines.items ≤ self.old.workspace.capacities.records }
        requires mark_room { begin_lines lines.items ≤ self.old.marks.capacity }
        ensures through { OnOk result
            (OfBody lines.items (IsThrough self.old.workspace self.new.workspace)) }
        ensures refused { IfErr result (λ r. OfBody lines.items (λ body.
            NestRefusedAtAnyEnd self.old.workspace.room self.old.workspace.contents body
            r.cause r.at)) }
        ensures at_from_one { IfErr result (λ r. 1 ≤ r.at) }
        ensures at_within { IfErr result (λ r. r.at ≤ command_lines lines.items) }
        ensures back { undo_all self.new.workspace.records self.new.workspace.contents
            ≡ self.old.workspace.contents }
        ensures room { self.new.workspace.room ≡ self.old.workspace.room }
        ensures grows { Grows self.old.workspace.capacities self.new.workspace.capacities }
        ensures marks { self.new.marks.capacity ≡ self.old.marks.capacity }
    {
        let mut at: u64 = 0;
        for line in lines {
            // For the proof: the workspace is ready, and its contents are sound and within the capacities.
            let mark = self.workspace.mark();
            match line {
                NestLine::Command(command) => {
                    at += 1;
                    if let Err(cause) = self.workspace.step(command) {
                        return Err(Refusal { cause, at });
                    }
                }
                NestLine::Begin => self.marks.push_reserved(mark),
                NestLine::Commit => {
                    let _ = self.marks.pop();
                }
                NestLine::Abort => {
                    if let Some(start) = self.marks.pop() {
                        self.workspace.back_to(start);
                    }
                }
            }
        }
        Ok(())
    }
}
