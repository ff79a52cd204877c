//! Values under ids that the slab hands out.
ghost use Rattle.std.specs.Prelude.{◌≡◌, ◌+◌, ◌<◌, ◌≤◌, ◌==◌, ◌↔◌, ◌&&◌, if◌then◌else◌, Some, false, option_copied};
ghost use Rattle.std.specs.Prelude.{IsTrue, IsOk, IsErr, IsSome, IfOk, IfErr, OnOk, OnErr};
ghost use Rattle.std.specs.Option.{option_copied_mut};
ghost use Rattle.std.specs.Borrow.{Lends, sem};
ghost use Rattle.std.specs.FinMap.{empty, get, insert, remove, contains_key, len};
ghost use Rattle.wic_slab.specs.Order.{max_capacity, from_zero, next_id, take_next, give_back};
ghost use Rattle.wic_slab.specs.Slab.{IsLive, HasRoomFor, Reserves, IsSlab, Holds, GivesBack};

use crate::id::Id;
use std::alloc::Global;
use std::fmt;
use std::marker::Model;
use std::mem::{self, size_of};
use std::ops::{Index, IndexMut};
use wic_base::OutOfMemory;
use wic_vec::TryVec;

/// Values, each under an id that the slab picks.
///
/// A contract sees the live ids with their values, the hand-out order of further ids, and the capacity: how many
/// values fit without an allocation. Freed ids are reused last-in, first-out. A port of
/// `wasmtime_internal_core::slab::Slab`.
#[derive(Drop)]
pub struct Slab<T> {
    pub(crate) entries: TryVec<Entry<T>>,
    // The first entry of the list of vacant ones, or the number of entries if none is vacant.
    next: u32,
    // The first fresh id. It and the entries above it were never taken, or are as if they had not been.
    fresh: u32,
    // How many entries are occupied.
    len: u32,
}

#[derive(Drop)]
pub(crate) enum Entry<T> {
    Occupied(T),
    // The vacant entry after this one, or the number of entries if this is the last one.
    Vacant(u32),
}

impl<T> Model for Slab<T> {
    ghost use Rattle.std.specs.Prelude.{◌≤◌, min, length};
    ghost use Rattle.wic_slab.specs.Order.{max_capacity};
    ghost use Rattle.wic_slab.specs.Slab.{Slab as Held, slab_code};

    ghost Value = { Held T };

    ghost coded = { slab_code T.code };

    ghost use Rattle.wic_slab.specs.Entry.{live_of, order_of, IsSound};

    ghost view = { λ s. record {
      live = live_of s.entries.items;
      order = order_of s.entries.items s.next s.len s.fresh;
      capacity = min s.entries.capacity max_capacity;
    } };

    ghost invariant = { λ s.
        IsSound s.entries.items s.len s.next (order_of s.entries.items s.next s.len s.fresh)
        × (length s.entries.items ≤ s.entries.capacity) };
}

impl<T> Entry<T> {
    ghost use Rattle.wic_slab.specs.Entry.{value_of};
    ghost use Rattle.wic_slab.specs.contracts.slab.Entry.{the_row};

    // The value of an occupied entry.
    fn value_mut(&mut self) -> &mut T
        requires { IsSome (value_of self.old) }
        ensures* writes_back { sem 𝓛
            (Lends (the_row T.row) T.row self.entry result Entry.Occupied) }
        ensures value { value_of self.old ≡ Some result.now }
    {
        match self {
            Entry::Occupied(value) => value,
            Entry::Vacant(_) => unreachable!(),
        }
    }
}

// What the first growth makes room for.
const MIN_CAPACITY: usize = 16;

/// The greatest capacity of a slab, and so the greatest number of its values. A caller's proof knows this number, but not
/// that of `Slab::MAX_CAPACITY`, which is the same for every type of value.
pub const MAX_CAPACITY: usize = 4294967294;

impl<T> Slab<T> {
    ghost use Rattle.wic_slab.specs.Lends.{lends_get, lends_value};

    /// The greatest capacity, and so the greatest number of values. A port of `Slab::MAX_CAPACITY`.
    pub const MAX_CAPACITY: usize = MAX_CAPACITY;

    /// The empty slab, of capacity 0, whose ids start at 0. It allocates nothing.
    pub fn new(alloc: Global) -> Slab<T>
        ensures empty { result.live ≡ empty }
        ensures order { result.order ≡ from_zero }
        ensures capacity { result.capacity ≡ 0 }
    {
        Slab {
            entries: TryVec::new(alloc),
            next: 0,
            fresh: 0,
            len: 0,
        }
    }

    /// The empty slab with room for at least `capacity` values, which is at most `MAX_CAPACITY`. A capacity of 0 is never
    /// refused.
    pub fn with_capacity(alloc: Global, capacity: usize) -> Result<Slab<T>, OutOfMemory>
        requires { capacity ≤ max_capacity }
        ensures empty { IfOk result (λ s. s.live ≡ empty) }
        ensures order { IfOk result (λ s. s.order ≡ from_zero) }
        ensures capacity { IfOk result (λ s. capacity ≤ s.capacity) }
        ensures zero_never_refused { capacity ≡ 0 → IsOk result }
    {
        Ok(Slab {
            entries: TryVec::with_capacity(alloc, capacity)?,
            next: 0,
            fresh: 0,
            len: 0,
        })
    }

    /// Makes room for `additional` more values than are live: `len() + additional` is at most `MAX_CAPACITY`. The live ids,
    /// their values and the hand-out order stay. If the capacity is enough, nothing changes. A refusal comes only if it is
    /// too small, and leaves the slab as it was. It allocates at most once.
    pub fn reserve(&mut self, additional: usize) -> Result<(), OutOfMemory>
        requires { len self.old.live + additional ≤ max_capacity }
        ensures same_live { self.new.live ≡ self.old.live }
        ensures same_order { self.new.order ≡ self.old.order }
        ensures reserves { Reserves self.old self.new additional result }
    {
        let wanted = self.len() + additional;
        if wanted <= self.entries.capacity() {
            return Ok(());
        }
        self.entries.reserve(wanted - self.entries.len())
    }

    /// How many values fit without an allocation, the live ones among them. It is at most `MAX_CAPACITY`, even if the
    /// entries have more room.
    pub fn capacity(&self) -> usize
        ensures capacity { result ≡ self.now.capacity }
        ensures holds_all { len self.now.live ≤ result }
        ensures at_most { result ≤ max_capacity }
    {
        self.entries.capacity().min(MAX_CAPACITY)
    }

    /// The number of live ids.
    pub fn len(&self) -> usize
        ensures live { result ≡ len self.now.live }
        ensures within { result ≤ self.now.capacity }
        ensures sound { IsSlab self.now }
    {
        self.len as usize
    }

    /// Whether no id is live.
    pub fn is_empty(&self) -> bool
        ensures empty { result ≡ (len self.now.live == 0) }
    {
        self.len == 0
    }

    /// The id that the next allocation that succeeds returns. With `MAX_CAPACITY` live ids it is 4294967294, which
    /// is never handed out.
    pub fn next_id(&self) -> Id
        ensures next { result ≡ next_id self.now.order }
        ensures not_live { contains_key self.now.live result ≡ false }
        ensures at_limit { len self.now.live ≡ max_capacity → result ≡ max_capacity }
        ensures sound { IsSlab self.now }
    {
        Id::at(self.next)
    }

    /// Holds `value` under the next id and returns that id, or hands `value` back exactly when the live ids are as
    /// many as the capacity. It never allocates, and the capacity stays.
    pub fn try_alloc(&mut self, value: T) -> Result<Id, T>
        ensures full { IsErr result ↔ (len self.old.live ≡ self.old.capacity) }
        ensures holds { IfOk result (Holds self.old self.new value) }
        ensures handed_back { IfErr result (λ back. back ≡ value) }
        ensures refusal_leaves { OnErr result (self.new ≡ self.old) }
        ensures capacity_stays { self.new.capacity ≡ self.old.capacity }
    {
        if self.len() == self.capacity() {
            return Err(value);
        }
        Ok(self.take_next(value))
    }

    /// Holds `value` under the next id and returns that id. `len()` is below `MAX_CAPACITY`. A refusal comes only if the live
    /// ids are as many as the capacity, and so never after a `reserve` for it: then `value` is dropped and nothing else
    /// changes. When it allocates, it is for twice the values, and at least for 16 more, as far as `MAX_CAPACITY` allows.
    pub fn alloc(&mut self, value: T) -> Result<Id, OutOfMemory>
    where
        T: Drop,
        requires { len self.old.live < max_capacity }
        ensures holds { IfOk result (Holds self.old self.new value) }
        ensures refused_only_full { OnErr result (len self.old.live ≡ self.old.capacity) }
        ensures capacity_kept_below { len self.old.live < self.old.capacity
            → self.new.capacity ≡ self.old.capacity }
        ensures capacity_never_falls { self.old.capacity ≤ self.new.capacity }
        ensures refusal_leaves { OnErr result (self.new ≡ self.old) }
    {
        match self.try_alloc(value) {
            Ok(id) => Ok(id),
            Err(value) => {
                self.grow()?;
                Ok(self.take_next(value))
            }
        }
    }

    // Makes room for twice as many values, and at least for 16 more, as far as the limit allows.
    fn grow(&mut self) -> Result<(), OutOfMemory>
        requires { len self.old.live < max_capacity }
        ensures same_live { self.new.live ≡ self.old.live }
        ensures same_order { self.new.order ≡ self.old.order }
        ensures room { OnOk result (HasRoomFor self.new 1) }
        ensures capacity_never_falls { self.old.capacity ≤ self.new.capacity }
        ensures refusal_leaves { OnErr result (self.new ≡ self.old) }
    {
        let doubled = self.capacity().max(MIN_CAPACITY);
        self.reserve(doubled.min(MAX_CAPACITY - self.len()))
    }

    // An allocation when there is room.
    fn take_next(&mut self, value: T) -> Id
        requires { HasRoomFor self.old 1 }
        ensures holds { Holds self.old self.new value result }
        ensures capacity { self.new.capacity ≡ self.old.capacity }
    {
        let next = self.next;
        self.len += 1;
        self.fresh = self.fresh.max(next + 1);
        if next as usize == self.entries.len() {
            self.entries.push_reserved(Entry::Occupied(value));
            self.next = next + 1;
            return Id::at(next);
        }
        match mem::replace(&mut self.entries[next as usize], Entry::Occupied(value)) {
            Entry::Vacant(after) => self.next = after,
            Entry::Occupied(_) => unreachable!(),
        }
        Id::at(next)
    }

    /// The value held under `id`, or `None` exactly when `id` isn't live.
    pub fn get(&self, id: Id) -> Option<&T>
        ensures live { IsSome result ↔ IsLive self.now id }
        ensures value { option_copied result ≡ get self.now.live id }
    {
        match self.entries.get(id.place()) {
            Some(Entry::Occupied(value)) => Some(value),
            Some(Entry::Vacant(_)) => None,
            None => None,
        }
    }

    /// The value held under `id`, to be read and written, or `None` exactly when `id` isn't live. Writes through the
    /// reference change that value; all else stays, and at `None` all does.
    pub fn get_mut(&mut self, id: Id) -> Option<&mut T>
        ensures* writes_back { sem 𝓛 (lends_get T.row self.entry id result) }
        ensures live { IsSome result ↔ IsLive self.old id }
        ensures value { option_copied_mut result ≡ get self.old.live id }
    {
        if self.contains(id) {
            Some(self.value_mut(id))
        } else {
            None
        }
    }

    // A number that all live ids are below.
    pub(crate) fn first_fresh(&self) -> u32
        ensures fresh { result ≡ self.now.order.fresh }
        ensures sound { IsSlab self.now }
    {
        self.fresh
    }

    // The value of a live id.
    pub(crate) fn value_mut(&mut self, id: Id) -> &mut T
        requires { IsLive self.old id }
        ensures* writes_back { sem 𝓛 (lends_value T.row self.entry id result) }
        ensures value { get self.old.live id ≡ Some result.now }
    {
        self.entries[id.place()].value_mut()
    }

    /// Whether `id` is live.
    pub fn contains(&self, id: Id) -> bool
        ensures live { result ≡ contains_key self.now.live id }
    {
        self.get(id).is_some()
    }

    /// Takes out the value held under `id`, which is live (test with `contains`), and frees `id`: it is the id of the next
    /// allocation. The capacity stays.
    pub fn dealloc(&mut self, id: Id) -> T
        requires { IsLive self.old id }
        ensures value { get self.old.live id ≡ Some result }
        ensures gives_back { GivesBack self.old self.new id }
    {
        let place = id.into_raw();
        let vacant = Entry::Vacant(self.next);
        match mem::replace(&mut self.entries[place as usize], vacant) {
            Entry::Occupied(value) => {
                self.fresh = fresh_after(self.fresh, self.len, place);
                self.next = place;
                self.len -= 1;
                value
            }
            Entry::Vacant(_) => unreachable!(),
        }
    }
}

impl<T: Drop> Slab<T> {
    /// Drops all values. No id is live then, ids start at 0 again, and the capacity stays.
    pub fn clear(&mut self)
        ensures empty { self.new.live ≡ empty }
        ensures order { self.new.order ≡ from_zero }
        ensures capacity_stays { self.new.capacity ≡ self.old.capacity }
    {
        self.entries.clear();
        self.next = 0;
        self.fresh = 0;
        self.len = 0;
    }
}

/// The value held under a live id.
impl<T> Index<Id> for Slab<T> {
    type Output = T;

    ghost can_index = { IsLive };

    ghost index_gives = { λ s id value. get s.live id ≡ Some value };

    fn index(&self, id: Id) -> &T {
        self.get(id).unwrap()
    }
}

/// The value held under a live id, to be read and written. Writes through the reference change that value, and all
/// else stays.
impl<T> IndexMut<Id> for Slab<T> {
    ghost use Rattle.wic_slab.specs.Lends.{lends_value};

    fn index_mut(&mut self, id: Id) -> &mut T
        requires { IsLive self.old id }
        ensures* writes_back { sem 𝓛 (lends_value T.row self.entry id result) }
        ensures value { get self.old.live id ≡ Some result.now }
    {
        self.value_mut(id)
    }
}

/// The live ids, each with its value.
impl<T: fmt::Debug> fmt::Debug for Slab<T> {
    fn fmt<W: fmt::Write>(&self, f: &mut fmt::Formatter<W>) -> fmt::Result {
        f.debug_map().entries(self.iter()).finish()
    }
}

// An entry of a number of eight bytes takes no more than sixteen.
const _: () = prove!(size_of::<Entry<u64>>() <= 16);

// The first fresh id once `id` is freed while `live` ids are live. If they are as many as the first fresh id, no id
// below it is vacant.
fn fresh_after(fresh: u32, live: u32, id: u32) -> u32
    requires { id < fresh }
    ensures { result ≡ (if (live == fresh) && (id + 1 == fresh) then id else fresh) }
{
    if live == fresh && id + 1 == fresh {
        return id;
    }
    fresh
}
