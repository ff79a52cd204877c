//! A slice that is made item by item.
ghost use Rattle.std.specs.Prelude.{◌≡◌, ◌+◌, ◌<◌, ◌≤◌, ◌∷◌, [], ◌++◌, List, length, IsOk, IfOk, OnErr};
ghost use Rattle.std.specs.Iterator.{Yields, Drains};
ghost use Rattle.std.specs.Iterator.Runs.{SomeRun, WholeRun};
ghost use Rattle.wic_collect.specs.Iterates.{IsReady, BecomesOne};

use crate::collect::{Stop, pour};
use crate::errors::TooFewItems;
use crate::slice::BoxedSlice;
use std::alloc::Global;
use std::marker::Model;
use wic_base::OutOfMemory;
use wic_vec::TryVec;

/// A slice of a stated length that is made item by item.
///
/// A contract sees the items so far, and the stated length as `capacity`. A port of
/// `wasmtime_internal_core::alloc::BoxedSliceBuilder`.
#[derive(Drop)]
pub struct BoxedSliceBuilder<T> {
    items: TryVec<T>,
    len: usize,
}

impl<T> Model for BoxedSliceBuilder<T> {
    ghost use Rattle.std.specs.Prelude.{◌≡◌, ◌≤◌, length};
    ghost use Rattle.wic_vec.specs.TryVec.{TryVec as Sequence, try_vec_code};

    ghost Value = { Sequence T };

    ghost coded = { try_vec_code T.code };

    ghost view = { λ b. record { items = b.items.items; capacity = b.len } };

    ghost invariant = { λ b. (length b.items.items ≤ b.len) × (b.items.capacity ≡ b.len) };
}

impl<T> BoxedSliceBuilder<T> {
    /// Returns a builder of a slice of `len` items, with no item yet. A length of 0 is never refused. It is the only
    /// allocation of the builder.
    pub fn new(alloc: Global, len: usize) -> Result<BoxedSliceBuilder<T>, OutOfMemory>
        ensures empty { IfOk result (λ b. b.items ≡ []) }
        ensures capacity { IfOk result (λ b. b.capacity ≡ len) }
        ensures zero_never_refused { len ≡ 0 → IsOk result }
    {
        let items = TryVec::with_capacity(alloc, len)?;
        Ok(BoxedSliceBuilder { items, len })
    }

    /// Returns how many items there are so far.
    pub fn init_len(&self) -> usize
        ensures length { result ≡ length self.now.items }
        ensures within { result ≤ self.now.capacity }
    {
        self.items.len()
    }

    /// Returns how many items the slice is to have.
    pub fn capacity(&self) -> usize
        ensures capacity { result ≡ self.now.capacity }
        ensures holds_all { length self.now.items ≤ result }
    {
        self.len
    }

    /// Puts `value` behind the items so far. It allocates nothing.
    ///
    /// A port of `BoxedSliceBuilder::push`, which returns out of memory if there is no place.
    pub fn push(&mut self, value: T)
        requires { length self.old.items < self.old.capacity }
        ensures last { self.new.items ≡ self.old.items ++ value ∷ [] }
        ensures capacity_stays { self.new.capacity ≡ self.old.capacity }
    {
        self.items.push_reserved(value);
    }

    /// Makes the stated length the number of items so far. It is never refused.
    pub fn shrink_to_fit(&mut self) -> Result<(), OutOfMemory>
        ensures same_items { self.new.items ≡ self.old.items }
        ensures capacity { self.new.capacity ≡ length self.new.items }
        ensures never_refused { IsOk result }
    {
        self.items.shrink_to_fit()?;
        self.len = self.items.len();
        Ok(())
    }

    /// Returns the slice of the items, which are as many as was stated. Constant time; it allocates nothing.
    ///
    /// A port of `BoxedSliceBuilder::finish`, which panics if there are fewer.
    pub fn finish(self) -> BoxedSlice<T>
        requires { length self.items ≡ self.capacity }
        ensures items { result ≡ self.items }
    {
        BoxedSlice::of(self.items)
    }
}

/// Fills the builder up with the first items of `iter`, and returns the slice. No more items are read than the builder has
/// places left: a full one asks nothing of `iter`. `TooFewItems` comes exactly if the items end before; all items are then
/// dropped. It allocates nothing.
///
/// A port of `wasmtime_internal_core::alloc::boxed_slice_write_iter`.
pub fn boxed_slice_write_iter<T: Drop, I: IntoIterator<Item = T>>(
    builder: BoxedSliceBuilder<T>,
    iter: I,
) -> Result<BoxedSlice<T>, TooFewItems>
    requires ready { length builder.items < builder.capacity
        → IsReady I.into_iter_gives I.IntoIter.can_next iter }
    ensures items { IfOk result (λ s. (length s ≡ builder.capacity)
        × BecomesOne I.into_iter_gives iter (λ it. (more : List T) × (t : I.IntoIter)
        × Yields I.IntoIter.next_gives it more t × (s ≡ builder.items ++ more))) }
    ensures too_few { OnErr result (BecomesOne I.into_iter_gives iter
        (λ it. (more : List T) × Drains I.IntoIter.next_gives it more
        × (length builder.items + length more < builder.capacity))) }
    ensures runs { IfOk result (λ s. BecomesOne I.into_iter_gives iter
        (λ it. SomeRun I.IntoIter.next_gives it (λ p. (s ≡ builder.items ++ p.items)
        × (length builder.items + p.len ≡ builder.capacity)))) }
    ensures too_few_run { OnErr result (BecomesOne I.into_iter_gives iter
        (λ it. WholeRun I.IntoIter.next_gives it
        (λ p. length builder.items + p.len < builder.capacity))) }
{
    let BoxedSliceBuilder { mut items, len } = builder;
    match pour::<T, OutOfMemory, T, I::IntoIter>(&mut items, Some(len), &mut iter.into_iter()) {
        Stop::Full => Ok(BoxedSlice::of(items)),
        Stop::Ended => Err(TooFewItems),
        Stop::Error(_) | Stop::Refused(_) => unreachable!(),
    }
}
