//! A workspace: a list, a set and a table that change together or not at all.
ghost use Rattle.std.specs.Prelude.{◌≡◌, ◌<◌, ◌≤◌, ◌↔◌, [], ℕ, None, Err, max, length, take};
ghost use Rattle.std.specs.Prelude.{IsTrue, IsOk, IfErr, OnOk, OnErr};
ghost use Rattle.wic_slab.specs.Order.{max_capacity};
ghost use Rattle.wic_bitset.specs.Compound.{capacity_of};
ghost use Rattle.batch_core.specs.Applied.{RefusedAtAnyEnd, IsApplied};
ghost use Rattle.batch_core.specs.Course.{batch_course, course_of, places_of};
ghost use Rattle.batch_core.specs.Batch.{first_bad};
ghost use Rattle.batch_core.specs.Back.{Grows, IsWithin, back};
ghost use Rattle.batch_core.specs.Command.{cause_of};
ghost use Rattle.batch_core.specs.State.{no_contents, IsSound};
ghost use Rattle.batch_core.specs.Room.{Fits};
ghost use Rattle.batch_core.specs.Same.{HaveSameContents};
ghost use Rattle.batch_core.specs.Workspace.{IsOom, IsReady, IsDone, IsKept, IsCauseOf, KeepsWithin};
ghost use Rattle.batch_core.specs.declared.command.End.{End};

use crate::answer::{Done, Refusal, ReserveRefusal};
use crate::command::{Batch, Cause, Command, End};
use crate::record::Record;
use crate::store::Store;
use std::alloc::Global;
use std::marker::Model;
use std::mem;
use wic_base::{OutOfMemory, Undo};
use wic_bitset::CompoundBitSet;
use wic_slab::{MAX_CAPACITY, Slab};
use wic_vec::TryVec;

/// A list, a set and a table, the records of what was done to them, and a room.
///
/// A contract sees the contents, the records, the room, and the capacities of list, set, table and records. Whatever was
/// done since the records were last empty can be undone without an allocation: there is room for each value that
/// comes back. No call lowers a capacity, and none of the capacities is below the room.
#[derive(Drop)]
pub struct Workspace<T: Drop> {
    store: Store<T>,
    alloc: Global,
}

impl<T: Drop> Model for Workspace<T> {
    ghost use Rattle.std.specs.Coded.{codes, coded_ℕ};
    ghost use Rattle.std.specs.Ordering.{nat_cmp};
    ghost use Rattle.std.specs.FinMap.{code};
    ghost use Rattle.std.specs.FinSet.{code as set_code};
    ghost use Rattle.batch_core.specs.Workspace.{Workspace as Held, IsReady};

    ghost Value = { Held T };

    ghost coded = { Prim.hlevel (codes, code {R = nat_cmp} coded_ℕ T.code, set_code {R = nat_cmp} coded_ℕ) };

    ghost view = { λ w. w.store };

    ghost invariant = { λ w. IsReady w.store };
}

impl<T: Drop> Workspace<T> {
    /// The empty workspace, of room 0. It allocates nothing.
    pub fn new(alloc: Global) -> Workspace<T>
        ensures contents { result.contents ≡ no_contents }
        ensures records { result.records ≡ [] }
        ensures room { result.room ≡ 0 }
    {
        Workspace {
            store: Store::new(alloc),
            alloc,
        }
    }

    /// The greatest reservation that was accepted, or 0.
    pub fn room(&self) -> u64
        ensures room { result ≡ self.now.room }
    {
        self.store.room()
    }

    /// The number of records: what is done from here on can be undone by going back to it.
    ///
    /// Its contract also states the invariants of a workspace: the contents are within the capacities and a state of the
    /// plain machine, the records can be undone, and no capacity is below the room, which is at most 4294967294.
    pub fn mark(&self) -> usize
        ensures mark { result ≡ length self.now.records }
        ensures within { IsWithin self.now.capacities self.now.contents }
        ensures sound { IsSound self.now.contents }
        ensures ready { IsReady self.now }
        ensures limit { self.now.room ≤ max_capacity }
    {
        self.store.mark()
    }

    /// The records, in place: after a committed batch they show the replies of its commands, in order.
    pub fn replies(&self) -> &[Record<T>]
        ensures records { result.now ≡ self.now.records }
    {
        self.store.replies()
    }

    /// The values of the list, in place.
    pub fn list(&self) -> &[T]
        ensures list { result.now ≡ self.now.contents.list }
    {
        self.store.list()
    }

    /// The set.
    pub fn set(&self) -> &CompoundBitSet<u64>
        ensures members { result.now.members ≡ self.now.contents.set }
        ensures capacity { capacity_of 64 result.now ≡ self.now.capacities.set }
    {
        self.store.set()
    }

    /// The table.
    pub fn table(&self) -> &Slab<T>
        ensures live { result.now.live ≡ self.now.contents.live }
        ensures order { result.now.order ≡ self.now.contents.order }
        ensures capacity { result.now.capacity ≡ self.now.capacities.table }
    {
        self.store.table()
    }

    /// Does the command and adds the records that show its reply. A cause comes exactly when the plain machine says so,
    /// before any allocation: the workspace is then as before, capacities too. `Oom` comes only if the command would pass the
    /// capacity of list, set, table or records; contents and records stay then, and capacities may have grown. The value
    /// of a command that isn't done is dropped. A command that is admitted and keeps within the room is never refused.
    pub fn step(&mut self, command: Command<T>) -> Result<(), Cause>
        ensures done { OnOk result (IsDone self.old command self.new) }
        ensures admitted { OnOk result (cause_of self.old.contents command ≡ None) }
        ensures cause { IfErr result (λ cause. IsCauseOf self.old command cause) }
        ensures cause_leaves { IfErr result (λ cause. ¬ IsOom cause → self.new ≡ self.old) }
        ensures refusal_leaves { OnErr result (IsKept self.old self.new) }
        ensures never_refused_within { cause_of self.old.contents command ≡ None
            → KeepsWithin self.old command → IsOk result }
        ensures back { (mark : ℕ) → mark ≤ length self.old.records
            → back self.new.contents self.new.records mark
            ≡ back self.old.contents self.old.records mark }
        ensures room { self.new.room ≡ self.old.room }
        ensures grows { Grows self.old.capacities self.new.capacities }
    {
        // For the proof: the contents are sound and within the capacities.
        let _ = self.store.mark();
        if let Some(cause) = self.store.cause(&command) {
            return Err(cause);
        }
        if let Err(oom) = self.store.perform(command) {
            return Err(Cause::Oom(oom));
        }
        Ok(())
    }

    /// Undoes the records after the mark, the newest first, and drops them. It can't be refused and allocates nothing. The
    /// room and the capacities stay.
    pub fn back_to(&mut self, mark: usize)
        requires mark { mark ≤ length self.old.records }
        ensures contents { self.new.contents ≡ back self.old.contents self.old.records mark }
        ensures records { self.new.records ≡ take mark self.old.records }
        ensures room { self.new.room ≡ self.old.room }
        ensures capacities { self.new.capacities ≡ self.old.capacities }
    {
        self.store.back_to(mark);
    }

    /// Forgets the records, so that nothing before can be undone any more, and makes room for `n` of them. A refusal comes
    /// only if `n` is above the room; the records are empty then too. The contents stay.
    pub fn begin_records(&mut self, n: usize) -> Result<(), OutOfMemory>
        ensures contents { self.new.contents ≡ self.old.contents }
        ensures records { self.new.records ≡ [] }
        ensures capacity { OnOk result (n ≤ self.new.capacities.records) }
        ensures never_refused_within { n ≤ self.old.room → IsOk result }
        ensures refused_only_beyond { OnErr result (self.old.room < n) }
        ensures room { self.new.room ≡ self.old.room }
        ensures grows { Grows self.old.capacities self.new.capacities }
    {
        self.store.begin_records(n)
    }

    /// Makes the room at least `n`: from then on each batch that fits `n` is done without an allocation. If `n` is at most
    /// the room, nothing changes. `TooLarge` comes exactly if `n` is above 4294967294, and nothing changes then either,
    /// capacities too. After `Oom` the room stays, and capacities may have grown. Contents and records always stay.
    pub fn reserve(&mut self, n: u64) -> Result<(), ReserveRefusal>
        ensures room { OnOk result (self.new.room ≡ max self.old.room n) }
        ensures too_large { (result ≡ Err ReserveRefusal.TooLarge) ↔ (max_capacity < n) }
        ensures never_refused_within { n ≤ self.old.room → IsOk result }
        ensures unchanged_within { n ≤ self.old.room → self.new ≡ self.old }
        ensures too_large_leaves { max_capacity < n → self.new ≡ self.old }
        ensures refusal_leaves_room { OnErr result (self.new.room ≡ self.old.room) }
        ensures contents { self.new.contents ≡ self.old.contents }
        ensures records { self.new.records ≡ self.old.records }
        ensures grows { Grows self.old.capacities self.new.capacities }
    {
        // For the proof: the capacity of the table, and so the room, is at most the limit.
        let _ = self.store.mark();
        if n > MAX_CAPACITY as u64 {
            return Err(ReserveRefusal::TooLarge);
        }
        if n <= self.store.room() {
            return Ok(());
        }
        match self.store.reserve(n) {
            Ok(()) => Ok(()),
            Err(oom) => Err(ReserveRefusal::Oom(oom)),
        }
    }

    // Does the commands of a batch, up to the first one that isn't done. What those before it did stays, and can be
    // undone.
    fn run(&mut self, commands: TryVec<Command<T>>) -> Result<(), Refusal>
        requires fresh { self.old.records ≡ [] }
        requires room { length commands.items ≤ self.old.capacities.records }
        ensures not_bad { OnOk result
            (first_bad (batch_course self.old.contents commands.items).stands ≡ None) }
        ensures contents { OnOk result
            (self.new.contents ≡ (batch_course self.old.contents commands.items).after) }
        ensures records { OnOk result
            (self.new.records ≡ (batch_course self.old.contents commands.items).records) }
        ensures refused { IfErr result (λ r. RefusedAtAnyEnd self.old.room (length commands.items)
            self.old.contents (batch_course self.old.contents commands.items) r.cause r.at) }
        ensures at_from_one { IfErr result (λ r. 1 ≤ r.at) }
        ensures at_within { IfErr result (λ r. r.at ≤ length commands.items) }
        ensures never_oom_within { Fits self.old.room (length commands.items)
            (batch_course self.old.contents commands.items).stands
            → IfErr result (λ r. ¬ IsOom r.cause) }
        ensures never_refused_within { Fits self.old.room (length commands.items)
            (batch_course self.old.contents commands.items).stands
            → first_bad (batch_course self.old.contents commands.items).stands ≡ None
            → IsOk result }
        ensures back { back self.new.contents self.new.records 0 ≡ self.old.contents }
        ensures room { self.new.room ≡ self.old.room }
        ensures grows { Grows self.old.capacities self.new.capacities }
    {
        let mut at: u64 = 0;
        for command in commands {
            at += 1;
            // For the proof: the workspace is ready, and its contents are sound and within the capacities.
            let _ = self.mark();
            if let Err(cause) = self.step(command) {
                return Err(Refusal { cause, at });
            }
        }
        Ok(())
    }

    /// Does a batch whole, or leaves list, set, table and the order of all later ids as they were.
    ///
    /// It returns what the plain machine says: a `Refusal` with the first bad command, also if the batch ends in
    /// `Abort`; else `Aborted` or `Committed`. After `Committed` the records show the replies, and going back over all of
    /// them gives the contents before; otherwise they are empty. Only a batch that doesn't fit the room may
    /// be refused with `Oom` instead: at command 0 only if it has more commands than the room, and at a later one only
    /// if that one or one before it passes the room and none of them is bad. What was done until then is undone without an
    /// allocation. Capacities that have grown stay.
    pub fn apply(&mut self, batch: Batch<T>) -> Result<Done, Refusal>
        ensures applied { IsApplied self.old (places_of batch)
            (course_of self.old.contents batch) batch.end result self.new }
        ensures at_from_one { IfErr result (λ r. ¬ IsOom r.cause → 1 ≤ r.at) }
        ensures at_within { IfErr result (λ r. r.at ≤ length batch.commands.items) }
        ensures never_oom_within { Fits self.old.room (places_of batch)
            (course_of self.old.contents batch).stands
            → IfErr result (λ r. ¬ IsOom r.cause) }
        ensures never_refused_within { Fits self.old.room (places_of batch)
            (course_of self.old.contents batch).stands
            → first_bad (course_of self.old.contents batch).stands ≡ None → IsOk result }
        ensures refusal_leaves { OnErr result (self.new.contents ≡ self.old.contents) }
        ensures abort_leaves { batch.end ≡ End.Abort → self.new.contents ≡ self.old.contents }
        ensures back { back self.new.contents self.new.records 0 ≡ self.old.contents }
        ensures room { self.new.room ≡ self.old.room }
        ensures grows { Grows self.old.capacities self.new.capacities }
    {
        if let Err(oom) = self.begin_records(batch.commands.len()) {
            return Err(Refusal {
                cause: Cause::Oom(oom),
                at: 0,
            });
        }
        self.apply_begun(batch)
    }

    // Does a batch for whose records there is room, whole or not at all. It is done under guard, while an empty workspace
    // stands in this place.
    fn apply_begun(&mut self, batch: Batch<T>) -> Result<Done, Refusal>
        requires fresh { self.old.records ≡ [] }
        requires room { places_of batch ≤ self.old.capacities.records }
        ensures applied { IsApplied self.old (places_of batch)
            (course_of self.old.contents batch) batch.end result self.new }
        ensures at_from_one { IfErr result (λ r. 1 ≤ r.at) }
        ensures at_within { IfErr result (λ r. r.at ≤ length batch.commands.items) }
        ensures never_oom_within { Fits self.old.room (places_of batch)
            (course_of self.old.contents batch).stands
            → IfErr result (λ r. ¬ IsOom r.cause) }
        ensures never_refused_within { Fits self.old.room (places_of batch)
            (course_of self.old.contents batch).stands
            → first_bad (course_of self.old.contents batch).stands ≡ None → IsOk result }
        ensures refusal_leaves { OnErr result (self.new.contents ≡ self.old.contents) }
        ensures abort_leaves { batch.end ≡ End.Abort → self.new.contents ≡ self.old.contents }
        ensures back { back self.new.contents self.new.records 0 ≡ self.old.contents }
        ensures room { self.new.room ≡ self.old.room }
        ensures grows { Grows self.old.capacities self.new.capacities }
    {
        let Batch { commands, end } = batch;
        let held = self.taken_out();
        let mut guard = Undo::new(held, |workspace: Workspace<T>| workspace.taken_back());
        let given_up = match guard.get_mut().run(commands) {
            Err(refusal) => Err(refusal),
            Ok(()) => match end {
                End::Abort => Ok(Done::Aborted),
                End::Commit => {
                    self.take_in(Undo::commit(guard));
                    return Ok(Done::Committed);
                }
            },
        };
        self.take_in(Undo::roll_back(guard));
        given_up
    }

    // This workspace. An empty one, which allocates nothing, takes its place.
    fn taken_out(&mut self) -> Workspace<T>
        ensures held { result ≡ self.old }
    {
        let empty = Workspace::new(self.alloc);
        mem::replace(self, empty)
    }

    // The other workspace takes the place of this one, which is empty: there is nothing to drop.
    fn take_in(&mut self, other: Workspace<T>)
        ensures other { self.new ≡ other }
    {
        mem::forget(mem::replace(self, other));
    }

    /// Whether both workspaces have the same contents: equal lists, sets of the same members, and tables with the same live ids
    /// and equal values. The order of later ids, the records and the room aren't compared. It allocates nothing.
    pub fn same_contents(&self, other: &Workspace<T>) -> bool
    where
        T: Eq,
        ensures same { IsTrue result ↔ HaveSameContents T.eq self.now.contents other.now.contents }
    {
        self.store.same_contents(&other.store)
    }

    // The workspace with all records undone, the newest first.
    fn taken_back(mut self) -> Workspace<T>
        ensures contents { result.contents ≡ back self.contents self.records 0 }
        ensures records { result.records ≡ [] }
        ensures room { result.room ≡ self.room }
        ensures capacities { result.capacities ≡ self.capacities }
    {
        self.back_to(0);
        self
    }
}
