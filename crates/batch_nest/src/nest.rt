//! Nests: the lines between a `begin` and its end, which may begin and end inner batches.
ghost use Rattle.std.specs.Prelude.{◌↔◌, IsTrue};
ghost use Rattle.batch_nest.specs.Nest.{IsBalanced};

use batch_core::{Command, End};
use wic_vec::TryVec;

/// One line of a nest.
#[derive(Debug, Drop, PartialEq, Eq)]
pub enum NestLine<T> {
    /// A command.
    Command(Command<T>),
    /// Begins an inner batch.
    Begin,
    /// Ends the innermost batch that is open: what it did stays.
    Commit,
    /// Ends the innermost batch that is open: what it did is undone.
    Abort,
}

/// A batch that holds batches: its lines, and how it ends.
#[derive(Drop)]
pub struct Nest<T> {
    pub lines: TryVec<NestLine<T>>,
    pub end: End,
}

impl<T> Nest<T> {
    /// Whether each `Commit` and `Abort` among the lines closes an earlier `Begin` and none stays open. It reads each line
    /// once at most, and allocates nothing.
    pub fn is_balanced(&self) -> bool
        ensures balanced { IsTrue result ↔ IsBalanced self.now.lines.items }
    {
        let mut depth: usize = 0;
        for line in self.lines.iter() {
            match line {
                NestLine::Command(_) => {}
                NestLine::Begin => depth += 1,
                NestLine::Commit | NestLine::Abort => {
                    if depth == 0 {
                        return false;
                    }
                    depth -= 1;
                }
            }
        }
        depth == 0
    }
}
