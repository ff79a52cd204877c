//! A slab whose handles are never found again once their value was taken out.
ghost use Rattle.std.specs.Prelude.{◌≡◌, ◌+◌, ◌<◌, ◌≤◌, ◌==◌, ◌↔◌, Err, None, Some};
ghost use Rattle.std.specs.Prelude.{IsOk, IsSome, IfOk, IfSome, IfNone, OnOk, OnErr, OnSome, option_copied};
ghost use Rattle.std.specs.Prelude.{is_some};
ghost use Rattle.std.specs.Option.{option_copied_mut};
ghost use Rattle.std.specs.Borrow.{sem};
ghost use Rattle.std.specs.FinMap.{empty, len};
ghost use Rattle.wic_slab.specs.Order.{from_zero, max_capacity};
ghost use Rattle.gen_slab.specs.GenSlab.{Holds, IsGenState, KeepsGone, KeepsLive, KeepsOthers, TakesOut, WritesOnly};
ghost use Rattle.gen_slab.specs.GenSlab.{last_count, value_of};

use crate::id::GenerationalId;
use std::alloc::Global;
use std::marker::Model;
use std::mem::size_of;
use wic_base::OutOfMemory;
use wic_slab::Slab;

/// The last count of values taken out: at it nothing is handed out any more.
const LAST_COUNT: u64 = 4294967296;

/// A value with the generation of its handle. Contracts speak of it, and no call takes or returns one.
#[derive(Drop)]
pub struct Held<T> {
    pub generation: u32,
    pub value: T,
}

// An entry of a number of eight bytes takes no more than twenty-four.
const _: () = prove!(size_of::<Held<u64>>() <= 16);

/// Why a value wasn't held.
#[derive(Clone, Copy, Debug)]
pub enum GenRefusal {
    /// As many values were taken out as there are generations.
    Spent,
    /// Out of memory.
    Oom(OutOfMemory),
}

/// Values, each under a handle that the slab picks and that finds no other value ever after.
///
/// A contract sees the state, which is the live ids with their values and generations, the order of further ids and the count
/// of values that were taken out; and the capacity, how many values fit without an allocation.
#[derive(Drop)]
pub struct GenerationalSlab<T> {
    pub(crate) slab: Slab<Held<T>>,
    count: u64,
}

impl<T> Model for GenerationalSlab<T> {
    ghost use Rattle.gen_slab.specs.GenSlab.{GenSlab, IsCounted, gen_slab_code};

    ghost Value = { GenSlab T };

    ghost coded = { gen_slab_code T.code };

    ghost view = { λ s. record {
      state = record { live = s.slab.live; order = s.slab.order; count = s.count };
      capacity = s.slab.capacity;
    } };

    ghost invariant = { λ s. IsCounted (record { live = s.slab.live; order = s.slab.order; count = s.count }) };
}

impl<T> GenerationalSlab<T> {
    ghost use Rattle.gen_slab.specs.Lends.{lends_get, lends_value};

    /// The empty slab, of count 0. It allocates nothing.
    pub fn new(alloc: Global) -> GenerationalSlab<T>
        ensures live { result.state.live ≡ empty }
        ensures order { result.state.order ≡ from_zero }
        ensures count { result.state.count ≡ 0 }
        ensures capacity { result.capacity ≡ 0 }
    {
        GenerationalSlab::with_count(alloc, 0)
    }

    /// The empty slab, as if `count` values had been taken out, at most 4294967296. It allocates nothing.
    pub fn with_count(alloc: Global, count: u64) -> GenerationalSlab<T>
        requires { count ≤ last_count }
        ensures live { result.state.live ≡ empty }
        ensures order { result.state.order ≡ from_zero }
        ensures count { result.state.count ≡ count }
        ensures capacity { result.capacity ≡ 0 }
    {
        GenerationalSlab {
            slab: Slab::new(alloc),
            count,
        }
    }

    /// Holds `value` under the next id, with the count as its generation, and returns that handle, which differs from each live
    /// one. There must be fewer than 4294967294 values. Live handles keep their values. `Spent` comes exactly if the count is
    /// 4294967296, before any allocation; `Oom` only if as many values are held as the capacity. After a refusal all is as
    /// before, and `value` is dropped.
    pub fn alloc(&mut self, value: T) -> Result<GenerationalId, GenRefusal>
    where
        T: Drop,
        requires { len self.old.state.live < max_capacity }
        ensures holds { IfOk result (Holds self.old.state self.new.state value) }
        ensures spent { (result ≡ Err GenRefusal.Spent) ↔ (self.old.state.count ≡ last_count) }
        ensures refused_only_full { OnErr result
            (self.old.state.count < last_count → len self.old.state.live ≡ self.old.capacity) }
        ensures refusal_leaves { OnErr result (self.new ≡ self.old) }
        ensures capacity_never_falls { self.old.capacity ≤ self.new.capacity }
        ensures keeps { KeepsLive self.old.state self.new.state }
        ensures keeps_gone { KeepsGone self.old.state self.new.state }
        ensures sound { IsGenState self.new.state }
    {
        // For the proof: the state is sound.
        let _ = self.len();
        if self.count >= LAST_COUNT {
            return Err(GenRefusal::Spent);
        }
        let generation = self.count as u32;
        match self.slab.alloc(Held { generation, value }) {
            Ok(id) => Ok(GenerationalId { id, generation }),
            Err(oom) => return Err(GenRefusal::Oom(oom)),
        }
    }

    /// The value of a handle, or `None` exactly if it isn't live.
    pub fn get(&self, handle: GenerationalId) -> Option<&T>
        ensures value { option_copied result ≡ value_of self.now.state handle }
    {
        match self.slab.get(handle.id) {
            Some(held) => {
                if held.generation == handle.generation {
                    Some(&held.value)
                } else {
                    None
                }
            }
            None => None,
        }
    }

    /// The value of a handle, to be read and written, or `None` exactly if it isn't live. Writes through the reference change
    /// that value, and all else stays. `written` says that whatever is written the number of values stays and the other
    /// handles find what they found.
    pub fn get_mut(&mut self, handle: GenerationalId) -> Option<&mut T>
        ensures* writes_back { sem 𝓛 (lends_get T.row self.entry handle result) }
        ensures value { option_copied_mut result ≡ value_of self.old.state handle }
        ensures written { OnSome result (WritesOnly self.old.state handle) }
        ensures sound { IsGenState self.old.state }
    {
        // For the proof: the state is sound.
        let _ = self.len();
        if self.contains(handle) {
            Some(self.value_mut(handle))
        } else {
            None
        }
    }

    // The value of a live handle.
    fn value_mut(&mut self, handle: GenerationalId) -> &mut T
        requires { IsSome (value_of self.old.state handle) }
        ensures* writes_back { sem 𝓛 (lends_value T.row self.entry handle result) }
        ensures value { value_of self.old.state handle ≡ Some result.now }
    {
        &mut self.slab[handle.id].value
    }

    /// Whether the handle is live.
    pub fn contains(&self, handle: GenerationalId) -> bool
        ensures live { result ≡ is_some (value_of self.now.state handle) }
    {
        self.get(handle).is_some()
    }

    /// Takes out the value of a handle and frees its id; the count rises by one, but not beyond 4294967296. `None` comes
    /// exactly if the handle isn't live, and then nothing changes. A handle whose value was taken out is gone for good. The
    /// other handles find what they found.
    pub fn dealloc(&mut self, handle: GenerationalId) -> Option<T>
        ensures value { result ≡ value_of self.old.state handle }
        ensures takes_out { OnSome result (TakesOut self.old.state self.new.state handle) }
        ensures gone { value_of self.new.state handle ≡ None }
        ensures none_leaves { IfNone result (self.new ≡ self.old) }
        ensures capacity_stays { self.new.capacity ≡ self.old.capacity }
        ensures keeps { KeepsOthers handle self.old.state self.new.state }
        ensures keeps_gone { KeepsGone self.old.state self.new.state }
        ensures sound { IsGenState self.new.state }
    {
        // For the proof: the state is sound.
        let _ = self.len();
        if !self.contains(handle) {
            return None;
        }
        let Held {
            generation: _,
            value,
        } = self.slab.dealloc(handle.id);
        self.count = (self.count + 1).min(LAST_COUNT);
        Some(value)
    }

    /// The number of values. Its contract also states the invariant of a generational slab.
    pub fn len(&self) -> usize
        ensures live { result ≡ len self.now.state.live }
        ensures within { result ≤ self.now.capacity }
        ensures sound { IsGenState self.now.state }
    {
        // For the proof: the count is within its limit.
        let _ = self.count;
        self.slab.len()
    }

    /// Whether there is no value.
    pub fn is_empty(&self) -> bool
        ensures empty { result ≡ (len self.now.state.live == 0) }
    {
        self.slab.is_empty()
    }

    /// How many values fit without an allocation.
    pub fn capacity(&self) -> usize
        ensures capacity { result ≡ self.now.capacity }
        ensures at_most { result ≤ max_capacity }
    {
        self.slab.capacity()
    }

    /// How many values were taken out, at most 4294967296.
    pub fn count(&self) -> u64
        ensures count { result ≡ self.now.state.count }
        ensures at_most { result ≤ last_count }
    {
        self.count
    }
}
