//! A workspace for nests.
ghost use Rattle.std.specs.Prelude.{◌≡◌, ◌<◌, ◌≤◌, ◌↔◌, [], ℕ, None, Err, max, length};
ghost use Rattle.std.specs.Prelude.{IsOk, IfErr, OnOk, OnErr};
ghost use Rattle.wic_slab.specs.Order.{max_capacity};
ghost use Rattle.wic_bitset.specs.Compound.{capacity_of};
ghost use Rattle.batch_core.specs.State.{no_contents};
ghost use Rattle.batch_core.specs.Back.{Grows, back};
ghost use Rattle.batch_core.specs.Batch.{first_bad};
ghost use Rattle.batch_core.specs.Workspace.{IsOom};
ghost use Rattle.batch_nest.specs.Nest.{IsBalanced, body_of, command_lines, nest_course};
ghost use Rattle.batch_core.specs.declared.command.End.{End};
ghost use Rattle.batch_nest.specs.Applied.{OfBody, FitsNest, IsNestApplied};

use crate::levels::{Levels, counts_of};
use crate::nest::Nest;
use batch_core::{Cause, Done, End, Record, Refusal, ReserveRefusal, Workspace};
use std::alloc::Global;
use std::marker::Model;
use wic_bitset::CompoundBitSet;
use wic_slab::{MAX_CAPACITY, Slab};
use wic_vec::TryVec;

/// A list, a set and a table that nests change, the records of what was done, and a room.
///
/// A contract sees what it sees of a `Workspace`: the contents, the records, the room, and the capacities. Besides there is
/// room for as many marks of inner batches as the room says.
#[derive(Drop)]
pub struct NestSpace<T: Drop> {
    levels: Levels<T>,
}

impl<T: Drop> Model for NestSpace<T> {
    ghost use Rattle.std.specs.Coded.{codes, coded_ℕ};
    ghost use Rattle.std.specs.Prelude.{◌≤◌};
    ghost use Rattle.std.specs.Ordering.{nat_cmp};
    ghost use Rattle.std.specs.FinMap.{code};
    ghost use Rattle.std.specs.FinSet.{code as set_code};
    ghost use Rattle.batch_core.specs.Workspace.{Workspace as Held};

    ghost Value = { Held T };

    ghost coded = { Prim.hlevel (codes, code {R = nat_cmp} coded_ℕ T.code, set_code {R = nat_cmp} coded_ℕ) };

    ghost view = { λ s. s.levels.workspace };

    ghost invariant = { λ s. s.levels.workspace.room ≤ s.levels.marks.capacity };
}

impl<T: Drop> NestSpace<T> {
    /// The empty workspace, of room 0. It allocates nothing.
    pub fn new(alloc: Global) -> NestSpace<T>
        ensures contents { result.contents ≡ no_contents }
        ensures records { result.records ≡ [] }
        ensures room { result.room ≡ 0 }
    {
        NestSpace {
            levels: Levels {
                workspace: Workspace::new(alloc),
                marks: TryVec::new(alloc),
            },
        }
    }

    /// The workspace, in place.
    pub(crate) fn held(&self) -> &Workspace<T>
        ensures held { result.now ≡ self.now }
    {
        &self.levels.workspace
    }

    /// The greatest reservation that was accepted, or 0.
    pub fn room(&self) -> u64
        ensures room { result ≡ self.now.room }
    {
        self.levels.workspace.room()
    }

    /// The records, in place: after a committed nest they show the replies of the commands that were kept, in order.
    pub fn replies(&self) -> &[Record<T>]
        ensures records { result.now ≡ self.now.records }
    {
        self.levels.workspace.replies()
    }

    /// The values of the list, in place.
    pub fn list(&self) -> &[T]
        ensures list { result.now ≡ self.now.contents.list }
    {
        self.levels.workspace.list()
    }

    /// The set.
    pub fn set(&self) -> &CompoundBitSet<u64>
        ensures members { result.now.members ≡ self.now.contents.set }
        ensures capacity { capacity_of 64 result.now ≡ self.now.capacities.set }
    {
        self.levels.workspace.set()
    }

    /// The table.
    pub fn table(&self) -> &Slab<T>
        ensures live { result.now.live ≡ self.now.contents.live }
        ensures order { result.now.order ≡ self.now.contents.order }
        ensures capacity { result.now.capacity ≡ self.now.capacities.table }
    {
        self.levels.workspace.table()
    }

    /// Makes the room at least `n`: from then on each nest that fits `n` is done without an allocation. If `n` is at most
    /// the room, nothing changes. `TooLarge` comes exactly if `n` is above 4294967294, and nothing changes then either,
    /// capacities too. After `Oom` the room stays, and capacities may have grown. Contents and records always stay.
    pub fn reserve(&mut self, n: u64) -> Result<(), ReserveRefusal>
        ensures room { OnOk result (self.new.room ≡ max self.old.room n) }
        ensures too_large { (result ≡ Err ReserveRefusal.TooLarge) ↔ (max_capacity < n) }
        ensures never_refused_within { n ≤ self.old.room → IsOk result }
        ensures unchanged_within { n ≤ self.old.room → self.new ≡ self.old }
        ensures too_large_leaves { max_capacity < n → self.new ≡ self.old }
        ensures refusal_leaves_room { OnErr result (self.new.room ≡ self.old.room) }
        ensures contents { self.new.contents ≡ self.old.contents }
        ensures records { self.new.records ≡ self.old.records }
        ensures grows { Grows self.old.capacities self.new.capacities }
    {
        // For the proof: the room is at most the limit.
        let _ = self.levels.workspace.mark();
        if n > MAX_CAPACITY as u64 {
            return Err(ReserveRefusal::TooLarge);
        }
        if n <= self.levels.workspace.room() {
            return Ok(());
        }
        self.levels.marks.clear();
        if let Err(oom) = self.levels.marks.reserve(n as usize) {
            return Err(ReserveRefusal::Oom(oom));
        }
        self.levels.workspace.reserve(n)
    }

    /// Does a nest whole, but for the inner batches that end in `Abort`, or leaves list, set, table and the order of all
    /// later ids as they were. An inner batch that ends in `Abort` leaves what there was at its own start, and no records.
    ///
    /// It returns what the plain machine says: a `Refusal` with the first bad command in the order of the lines, also if an
    /// inner batch or the nest ends in `Abort`; else `Aborted` or `Committed`. After `Committed` the records show the
    /// replies of the commands that were kept; otherwise they are empty. `at` counts the command lines from 1. Only a nest
    /// that doesn't fit the room may be refused with `Oom` instead: at command 0 only if it has more command lines or more
    /// `Begin` lines than the room, and at a later one only if that one or one before it passes the room and none of them is
    /// bad. What was done until then is undone without an allocation. Capacities that have grown stay.
    ///
    /// A caller that knows the lines has what the clauses say of the body that they lead to, `body_of`, which computes.
    ///
    /// It takes the time of the commands, and for each inner `Abort` that of the records that it undoes; a mark of 8 bytes per
    /// open batch, and no stack of the machine.
    pub fn apply(&mut self, nest: Nest<T>) -> Result<Done, Refusal>
        requires balanced { IsBalanced nest.lines.items }
        ensures applied { OfBody nest.lines.items (λ body.
            IsNestApplied self.old body nest.end result self.new) }
        ensures commit_leaves { nest.end ≡ End.Commit → OnOk result (self.new.contents
            ≡ (nest_course self.old.contents (body_of nest.lines.items)).after) }
        ensures commit_records { nest.end ≡ End.Commit → OnOk result (self.new.records
            ≡ (nest_course self.old.contents (body_of nest.lines.items)).records) }
        ensures refusal_leaves { OnErr result (self.new.contents ≡ self.old.contents) }
        ensures abort_leaves { nest.end ≡ End.Abort → self.new.contents ≡ self.old.contents }
        ensures at_from_one { IfErr result (λ r. ¬ IsOom r.cause → 1 ≤ r.at) }
        ensures at_within { IfErr result (λ r. r.at ≤ command_lines nest.lines.items) }
        ensures never_oom_within { OfBody nest.lines.items (λ body.
            FitsNest self.old.room self.old.contents body → IfErr result (λ r. ¬ IsOom r.cause)) }
        ensures never_refused_within { OfBody nest.lines.items (λ body.
            FitsNest self.old.room self.old.contents body
            → first_bad (nest_course self.old.contents body).stands ≡ None → IsOk result) }
        ensures applied_lines { IsNestApplied self.old (body_of nest.lines.items) nest.end
            result self.new }
        ensures never_oom_within_lines { FitsNest self.old.room self.old.contents
            (body_of nest.lines.items) → IfErr result (λ r. ¬ IsOom r.cause) }
        ensures never_refused_within_lines { FitsNest self.old.room self.old.contents
            (body_of nest.lines.items)
            → first_bad (nest_course self.old.contents (body_of nest.lines.items)).stands ≡ None
            → IsOk result }
        ensures back { back self.new.contents self.new.records 0 ≡ self.old.contents }
        ensures room { self.new.room ≡ self.old.room }
        ensures grows { Grows self.old.capacities self.new.capacities }
    {
        self.apply_body(nest)
    }

    // Does a nest: what is said of its body, whichever it is.
    fn apply_body(&mut self, nest: Nest<T>) -> Result<Done, Refusal>
        requires balanced { IsBalanced nest.lines.items }
        ensures applied { OfBody nest.lines.items (λ body.
            IsNestApplied self.old body nest.end result self.new) }
        ensures at_from_one { IfErr result (λ r. ¬ IsOom r.cause → 1 ≤ r.at) }
        ensures at_within { IfErr result (λ r. r.at ≤ command_lines nest.lines.items) }
        ensures never_oom_within { OfBody nest.lines.items (λ body.
            FitsNest self.old.room self.old.contents body → IfErr result (λ r. ¬ IsOom r.cause)) }
        ensures never_refused_within { OfBody nest.lines.items (λ body.
            FitsNest self.old.room self.old.contents body
            → first_bad (nest_course self.old.contents body).stands ≡ None → IsOk result) }
        ensures back { back self.new.contents self.new.records 0 ≡ self.old.contents }
        ensures room { self.new.room ≡ self.old.room }
        ensures grows { Grows self.old.capacities self.new.capacities }
    {
        let Nest { lines, end } = nest;
        if let Err(oom) = self.levels.begin(counts_of(&lines)) {
            return Err(Refusal {
                cause: Cause::Oom(oom),
                at: 0,
            });
        }
        if let Err(refusal) = self.levels.run(lines) {
            self.levels.workspace.back_to(0);
            return Err(refusal);
        }
        match end {
            End::Commit => Ok(Done::Committed),
            End::Abort => {
                self.levels.workspace.back_to(0);
                Ok(Done::Aborted)
            }
        }
    }
}
