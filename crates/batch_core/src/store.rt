//! What a workspace holds: a list, a set, a table and records. Commands are done in place.
ghost use Rattle.std.specs.Prelude.{◌≡◌, ◌+◌, ◌<◌, ◌≤◌, ◌↔◌, [], ◌∷◌, ◌++◌, ℕ, length, take, true, None, Some};
ghost use Rattle.std.specs.Prelude.{IsTrue, IsOk, IsSome, IfSome, OnOk, OnErr};
ghost use Rattle.std.specs.FinMap.{contains_key, len};
ghost use Rattle.wic_slab.specs.Order.{max_capacity};
ghost use Rattle.batch_core.specs.Back.{Grows, IsWithin, CanUndo, CanGoBack, back};
ghost use Rattle.batch_core.specs.State.{no_contents, IsSound};
ghost use Rattle.batch_core.specs.Command.{cause_of, effect_of, unless};
ghost use Rattle.wic_base.specs.Sets.{AllBelow};
ghost use Rattle.wic_bitset.specs.Compound.{capacity_of};
ghost use Rattle.batch_core.specs.Same.{HaveSameContents};
ghost use Rattle.batch_core.specs.Store.{IsPrepared, DoesInPlace, MayDo, Undoes};
ghost use Rattle.batch_core.specs.Workspace.{IsDone, IsKept, HasRoom};

use crate::command::{Cause, Command};
use crate::record::Record;
use crate::same::same_pairs;
use std::alloc::Global;
use std::marker::Model;
use std::mem;
use wic_base::OutOfMemory;
use wic_bitset::{CompoundBitSet, MAX_NUMBER};
use wic_slab::{Id, MAX_CAPACITY, Slab};
use wic_vec::TryVec;

/// Values in a list and in a table, numbers in a set, the records of what was done, and the room.
#[derive(Drop)]
pub struct Store<T: Drop> {
    list: TryVec<T>,
    set: CompoundBitSet<u64>,
    table: Slab<T>,
    records: TryVec<Record<T>>,
    room: u64,
}

impl<T: Drop> Model for Store<T> {
    ghost use Rattle.std.specs.Coded.{codes, coded_ℕ};
    ghost use Rattle.std.specs.Ordering.{nat_cmp};
    ghost use Rattle.std.specs.FinMap.{code};
    ghost use Rattle.std.specs.FinSet.{code as set_code};
    ghost use Rattle.wic_base.specs.Sets.{AllBelow};
    ghost use Rattle.wic_bitset.specs.Compound.{capacity_of};
    ghost use Rattle.batch_core.specs.Workspace.{Workspace as Held};

    ghost Value = { Held T };

    ghost coded = { Prim.hlevel (codes, code {R = nat_cmp} coded_ℕ T.code, set_code {R = nat_cmp} coded_ℕ) };

    ghost view = { λ s. record {
      contents = record { list = s.list.items; set = s.set.members; live = s.table.live; order = s.table.order };
      records = s.records.items;
      room = s.room;
      capacities = record {
        list = s.list.capacity;
        set = capacity_of 64 s.set;
        table = s.table.capacity;
        records = s.records.capacity;
      };
    } };
}

impl<T: Drop> Store<T> {
    pub fn new(alloc: Global) -> Store<T>
        ensures contents { result.contents ≡ no_contents }
        ensures records { result.records ≡ [] }
        ensures room { result.room ≡ 0 }
    {
        Store {
            list: TryVec::new(alloc),
            set: CompoundBitSet::new(alloc),
            table: Slab::new(alloc),
            records: TryVec::new(alloc),
            room: 0,
        }
    }

    pub fn room(&self) -> u64
        ensures room { result ≡ self.now.room }
    {
        self.room
    }

    /// The number of records. Nothing is beyond the capacities, and the order belongs to the live ids.
    pub fn mark(&self) -> usize
        ensures mark { result ≡ length self.now.records }
        ensures within { IsWithin self.now.capacities self.now.contents }
        ensures records { result ≤ self.now.capacities.records }
        ensures sound { IsSound self.now.contents }
        ensures limit { self.now.capacities.table ≤ max_capacity }
    {
        // For the proof: the list is within its capacity, the set within its own, and the table is sound.
        let _ = self.list.len();
        let _ = self.set.capacity();
        let _ = self.table.len();
        self.records.len()
    }

    /// The records, in place.
    pub fn replies(&self) -> &[Record<T>]
        ensures records { result.now ≡ self.now.records }
    {
        self.records.as_slice()
    }

    /// The list, in place.
    pub fn list(&self) -> &[T]
        ensures list { result.now ≡ self.now.contents.list }
    {
        self.list.as_slice()
    }

    /// The set.
    pub fn set(&self) -> &CompoundBitSet<u64>
        ensures members { result.now.members ≡ self.now.contents.set }
        ensures capacity { capacity_of 64 result.now ≡ self.now.capacities.set }
    {
        &self.set
    }

    /// The table.
    pub fn table(&self) -> &Slab<T>
        ensures live { result.now.live ≡ self.now.contents.live }
        ensures order { result.now.order ≡ self.now.contents.order }
        ensures capacity { result.now.capacity ≡ self.now.capacities.table }
    {
        &self.table
    }

    /// The cause of the command, or `None` if it is admitted.
    pub fn cause(&self, command: &Command<T>) -> Option<Cause>
        ensures cause { result ≡ cause_of self.now.contents command.now }
    {
        match command {
            Command::Push(_) => None,
            Command::Pop => unless(!self.list.is_empty(), Cause::Empty),
            Command::Set(at, _) => unless((*at as usize) < self.list.len(), Cause::Position),
            Command::Alloc(_) => unless(self.table.len() < MAX_CAPACITY, Cause::Full),
            Command::Free(id) => unless(self.is_live(*id), Cause::Vacant),
            Command::Put(id, _) => unless(self.is_live(*id), Cause::Vacant),
            Command::Insert(number) => unless(*number <= MAX_NUMBER as u64, Cause::TooLarge),
            Command::Remove(_) => None,
            Command::Truncate(kept) => {
                unless(*kept as usize <= self.list.len(), Cause::Position)
            }
        }
    }

    fn is_live(&self, id: u64) -> bool
        ensures { result ≡ contains_key self.now.contents.live id }
    {
        // For the proof: the table is sound, so no id above the limit is live.
        let _ = self.table.len();
        match id_of(id) {
            Some(id) => self.table.contains(id),
            None => false,
        }
    }

    fn push(&mut self, value: T) -> Result<(), OutOfMemory>
        requires { IsPrepared self.old (Command.Push value) }
        ensures may_do { MayDo self.old (Command.Push value) result self.new }
        ensures refused_only_full { OnErr result
            (length self.old.contents.list ≡ self.old.capacities.list) }
    {
        self.list.push(value)?;
        self.records.push_reserved(Record::Pushed);
        Ok(())
    }

    fn pop(&mut self)
        requires { IsPrepared self.old Command.Pop }
        ensures { DoesInPlace self.old Command.Pop self.new }
    {
        match self.list.pop() {
            Some(value) => self.records.push_reserved(Record::Popped(value)),
            None => unreachable!(),
        }
    }

    fn replace(&mut self, at: u64, value: T)
        requires { IsPrepared self.old (Command.Set at value) }
        ensures { DoesInPlace self.old (Command.Set at value) self.new }
    {
        let old = mem::replace(&mut self.list[at as usize], value);
        self.records.push_reserved(Record::Replaced { at, old });
    }

    fn alloc(&mut self, value: T) -> Result<(), OutOfMemory>
        requires { IsPrepared self.old (Command.Alloc value) }
        ensures may_do { MayDo self.old (Command.Alloc value) result self.new }
        ensures never_refused_within { len (effect_of self.old.contents (Command.Alloc value)).live
            ≤ self.old.capacities.table
            → IsOk result }
    {
        // For the proof: the order belongs to the live ids, so the next id is a new one.
        let _ = self.table.len();
        let id = self.table.alloc(value)?;
        self.records
            .push_reserved(Record::Allocated { id: id.into_raw() });
        Ok(())
    }

    fn free(&mut self, id: u64)
        requires { IsPrepared self.old (Command.Free id) }
        ensures { DoesInPlace self.old (Command.Free id) self.new }
    {
        let id = self.live_id(id);
        let old = self.table.dealloc(id);
        self.records.push_reserved(Record::Freed {
            id: id.into_raw(),
            old,
        });
    }

    fn put(&mut self, id: u64, value: T)
        requires { IsPrepared self.old (Command.Put id value) }
        ensures { DoesInPlace self.old (Command.Put id value) self.new }
    {
        let id = self.live_id(id);
        let old = mem::replace(&mut self.table[id], value);
        self.records.push_reserved(Record::Put {
            id: id.into_raw(),
            old,
        });
    }

    fn insert(&mut self, number: u64) -> Result<(), OutOfMemory>
        requires { IsPrepared self.old (Command.Insert number) }
        ensures may_do { MayDo self.old (Command.Insert number) result self.new }
        ensures never_refused_within { AllBelow self.old.capacities.set
            (effect_of self.old.contents (Command.Insert number)).set
            → IsOk result }
    {
        let was_new = self.set.insert(number as usize)?;
        self.records
            .push_reserved(Record::Inserted { number, was_new });
        Ok(())
    }

    fn remove(&mut self, number: u64)
        requires { IsPrepared self.old (Command.Remove number) }
        ensures { DoesInPlace self.old (Command.Remove number) self.new }
    {
        let was_there = self.set.remove(number as usize);
        self.records
            .push_reserved(Record::Removed { number, was_there });
    }

    // Makes room for all records before it takes the first value out.
    fn truncate(&mut self, kept: u64) -> Result<(), OutOfMemory>
        requires admitted { cause_of self.old.contents (Command.Truncate kept) ≡ None }
        ensures may_do { MayDo self.old (Command.Truncate kept) result self.new }
        ensures never_refused_within { HasRoom self.old (Command.Truncate kept) → IsOk result }
    {
        // For the proof: the capacity is at most the greatest `usize`, so a number of records above that has no room.
        let _ = self.records.capacity();
        let removed = self.list.len() - kept as usize;
        match removed.checked_add(1) {
            Some(wanted) => self.records.reserve(wanted)?,
            None => return Err(OutOfMemory::new(usize::MAX)),
        }
        while self.list.len() > kept as usize {
            match self.list.pop() {
                Some(value) => self.records.push_reserved(Record::Cut(value)),
                None => unreachable!(),
            }
        }
        self.records.push_reserved(Record::Truncated {
            removed: removed as u64,
        });
        Ok(())
    }

    /// Does an admitted command. Contents and records stay if memory runs out.
    pub fn perform(&mut self, command: Command<T>) -> Result<(), OutOfMemory>
        requires admitted { cause_of self.old.contents command ≡ None }
        ensures ok { OnOk result (IsDone self.old command self.new) }
        ensures err { OnErr result (IsKept self.old self.new) }
        ensures room { self.new.room ≡ self.old.room }
        ensures grows { Grows self.old.capacities self.new.capacities }
        ensures never_refused_within { HasRoom self.old command → IsOk result }
    {
        if let Command::Truncate(kept) = command {
            return self.truncate(kept);
        }
        self.records.reserve(1)?;
        match command {
            Command::Push(value) => self.push(value)?,
            Command::Pop => self.pop(),
            Command::Set(at, value) => self.replace(at, value),
            Command::Alloc(value) => self.alloc(value)?,
            Command::Free(id) => self.free(id),
            Command::Put(id, value) => self.put(id, value),
            Command::Insert(number) => self.insert(number)?,
            Command::Remove(number) => self.remove(number),
            Command::Truncate(_) => unreachable!(),
        }
        Ok(())
    }

    /// Forgets the records, and makes room for so many.
    pub fn begin_records(&mut self, n: usize) -> Result<(), OutOfMemory>
        ensures contents { self.new.contents ≡ self.old.contents }
        ensures records { self.new.records ≡ [] }
        ensures room { self.new.room ≡ self.old.room }
        ensures grows { Grows self.old.capacities self.new.capacities }
        ensures capacity { OnOk result (n ≤ self.new.capacities.records) }
        ensures never_refused_within { n ≤ self.old.capacities.records → IsOk result }
    {
        self.records.clear();
        self.records.reserve(n)
    }

    /// Makes the room so large. Contents and records stay, and after a refusal so does the room.
    pub fn reserve(&mut self, n: u64) -> Result<(), OutOfMemory>
        requires { n ≤ max_capacity }
        ensures contents { self.new.contents ≡ self.old.contents }
        ensures records { self.new.records ≡ self.old.records }
        ensures room { OnOk result (self.new.room ≡ n) }
        ensures refusal_leaves_room { OnErr result (self.new.room ≡ self.old.room) }
        ensures grows { Grows self.old.capacities self.new.capacities }
        ensures list { OnOk result (n ≤ self.new.capacities.list) }
        ensures set { OnOk result (n ≤ self.new.capacities.set) }
        ensures table { OnOk result (n ≤ self.new.capacities.table) }
        ensures record_room { OnOk result (n ≤ self.new.capacities.records) }
    {
        let wanted = n as usize;
        self.list.reserve(wanted.saturating_sub(self.list.len()))?;
        self.set.ensure_capacity(wanted)?;
        self.table.reserve(wanted.saturating_sub(self.table.len()))?;
        self.records
            .reserve(wanted.saturating_sub(self.records.len()))?;
        self.room = n;
        Ok(())
    }

    /// Undoes the records after the mark, the newest first, and drops them. It allocates nothing.
    pub fn back_to(&mut self, mark: usize)
        requires mark { mark ≤ length self.old.records }
        requires can { CanGoBack self.old.capacities self.old.records self.old.contents }
        ensures contents { self.new.contents ≡ back self.old.contents self.old.records mark }
        ensures records { self.new.records ≡ take mark self.old.records }
        ensures can { CanGoBack self.new.capacities self.new.records self.new.contents }
        ensures room { self.new.room ≡ self.old.room }
        ensures capacities { self.new.capacities ≡ self.old.capacities }
    {
        while self.mark() > mark {
            match self.take_record() {
                Some(newest) => self.undo(newest),
                None => unreachable!(),
            }
        }
    }

    /// Whether list, set and live pairs of the table are equal.
    pub fn same_contents(&self, other: &Store<T>) -> bool
    where
        T: Eq,
        ensures same { IsTrue result ↔ HaveSameContents T.eq self.now.contents other.now.contents }
    {
        self.list.as_slice() == other.list.as_slice()
            && self.set == other.set
            && same_pairs(&self.table, &other.table)
    }

    // Takes the last record out, if there is one.
    fn take_record(&mut self) -> Option<Record<T>>
        ensures found { IsSome result ↔ (0 < length self.old.records) }
        ensures last { IfSome result (λ r. self.old.records ≡ self.new.records ++ r ∷ []) }
        ensures contents { self.new.contents ≡ self.old.contents }
        ensures room { self.new.room ≡ self.old.room }
        ensures capacities { self.new.capacities ≡ self.old.capacities }
    {
        self.records.pop()
    }

    // Undoes one record, which was taken out of the list of records.
    fn undo(&mut self, newest: Record<T>)
        requires can { CanUndo self.old.capacities newest self.old.contents }
        ensures { Undoes self.old newest self.new }
    {
        match newest {
            Record::Pushed => self.drop_last(),
            Record::Popped(value) => self.list.push_reserved(value),
            Record::Replaced { at, old } => self.list[at as usize] = old,
            Record::Allocated { id } => {
                let id = self.live_id(id as u64);
                let _ = self.table.dealloc(id);
            }
            Record::Freed { id: _, old } => match self.table.try_alloc(old) {
                Ok(_) => {}
                Err(_) => unreachable!(),
            },
            Record::Put { id, old } => {
                let id = self.live_id(id as u64);
                self.table[id] = old;
            }
            Record::Inserted { number, was_new } => {
                if was_new {
                    self.set.remove(number as usize);
                }
            }
            Record::Removed { number, was_there } => {
                if was_there {
                    self.put_back(number);
                }
            }
            Record::Cut(value) => self.list.push_reserved(value),
            Record::Truncated { removed: _ } => {}
        }
    }

    // Puts a number that was taken out back into the set: there is a word for it.
    fn put_back(&mut self, number: u64)
        requires { CanUndo self.old.capacities (Record.Removed number true) self.old.contents }
        ensures { Undoes self.old (Record.Removed number true) self.new }
    {
        match self.set.insert(number as usize) {
            Ok(_) => {}
            Err(_) => unreachable!(),
        }
    }

    fn drop_last(&mut self)
        ensures { Undoes self.old Record.Pushed self.new }
    {
        let wanted = self.list.len().saturating_sub(1);
        self.list.truncate(wanted);
    }

    // The id of this number, which is live.
    fn live_id(&self, id: u64) -> Id
        requires { contains_key self.now.contents.live id ≡ true }
        ensures { result ≡ id }
    {
        // For the proof: the table is sound, so no id above the limit is live.
        let _ = self.table.len();
        match id_of(id) {
            Some(id) => id,
            None => unreachable!(),
        }
    }
}

// No cause if the test holds, and else this one.
fn unless(test: bool, cause: Cause) -> Option<Cause>
    ensures { result ≡ unless test cause }
{
    if test { None } else { Some(cause) }
}

// The id of this number, if there is one.
fn id_of(id: u64) -> Option<Id>
    ensures some { IsSome result ↔ (id ≤ max_capacity) }
    ensures number { IfSome result (λ i. i ≡ id) }
{
    if id > u32::MAX as u64 {
        return None;
    }
    Id::try_from_raw(id as u32)
}
