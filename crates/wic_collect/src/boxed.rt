//! Boxed slices of the items of an iterator.
ghost use Rattle.std.specs.Prelude.{◌≡◌, ◌<◌, ◌∷◌, [], ◌++◌, List, Ok, Err, map, length, IsOk, IfOk, IfErr};
ghost use Rattle.std.specs.Iterator.{Yields, Drains};
ghost use Rattle.std.specs.Iterator.Runs.{SomeRun, WholeRun};
ghost use Rattle.wic_collect.specs.Collected.{AreValues, EndWithError};
ghost use Rattle.wic_collect.specs.Errors.{OnTooFewItems, OnIterError};
ghost use Rattle.wic_collect.specs.Iterates.{IsReady, BecomesOne};

use crate::builder::{BoxedSliceBuilder, boxed_slice_write_iter};
use crate::collect::{Stop, pour};
use crate::errors::{BoxedSliceFromFallibleIterError, TooFewItemsOrOom};
use crate::from_iter::TryFromIterator;
use crate::slice::{BoxedSlice, into_boxed_slice};
use std::alloc::Global;
use wic_base::OutOfMemory;
use wic_vec::TryVec;

/// Returns the slice of all items of `iter`, in order. If it is out of memory, the items that were read are dropped.
/// Amortised constant time for each item.
///
/// A port of `wasmtime_internal_core::alloc::new_boxed_slice_from_iter`.
pub fn new_boxed_slice_from_iter<T: Drop, I: IntoIterator<Item = T>>(
    alloc: Global,
    iter: I,
) -> Result<BoxedSlice<T>, OutOfMemory>
    requires ready { IsReady I.into_iter_gives I.IntoIter.can_next iter }
    ensures items { IfOk result (λ s. BecomesOne I.into_iter_gives iter
        (λ it. Drains I.IntoIter.next_gives it s)) }
    ensures runs { IfOk result (λ s. BecomesOne I.into_iter_gives iter
        (λ it. WholeRun I.IntoIter.next_gives it (λ p. s ≡ p.items))) }
{
    TryFromIterator::<T, OutOfMemory>::try_from_iter(alloc, iter.into_iter())
}

/// Returns the slice of the first `len` items of `iter`, in order. No more items are read: a length of 0 asks nothing of
/// `iter`, and is never refused. `TooFewItems` comes exactly if the items end before; the items that were read are then
/// dropped. Out of memory comes before any item is read. There is one allocation.
///
/// A port of `wasmtime_internal_core::alloc::new_boxed_slice_from_iter_with_len`.
pub fn new_boxed_slice_from_iter_with_len<T: Drop, I: IntoIterator<Item = T> + Drop>(
    alloc: Global,
    len: usize,
    iter: I,
) -> Result<BoxedSlice<T>, TooFewItemsOrOom>
    requires ready { 0 < len → IsReady I.into_iter_gives I.IntoIter.can_next iter }
    ensures items { IfOk result (λ s. (length s ≡ len) × BecomesOne I.into_iter_gives iter
        (λ it. (t : I.IntoIter) × Yields I.IntoIter.next_gives it s t)) }
    ensures too_few { IfErr result (OnTooFewItems (BecomesOne I.into_iter_gives iter
        (λ it. (items : List T) × Drains I.IntoIter.next_gives it items × (length items < len)))) }
    ensures runs { IfOk result (λ s. BecomesOne I.into_iter_gives iter
        (λ it. SomeRun I.IntoIter.next_gives it (λ p. (s ≡ p.items) × (p.len ≡ len)))) }
    ensures too_few_run { IfErr result (OnTooFewItems (BecomesOne I.into_iter_gives iter
        (λ it. WholeRun I.IntoIter.next_gives it (λ p. p.len < len)))) }
    ensures zero_never_refused { len ≡ 0 → IsOk result }
{
    let builder = BoxedSliceBuilder::new(alloc, len)?;
    match boxed_slice_write_iter(builder, iter) {
        Ok(slice) => Ok(slice),
        Err(few) => Err(TooFewItemsOrOom::TooFewItems(few)),
    }
}

/// Returns the slice of the values of all items of `iter`, in order. The first item that is an `Err` is returned as
/// `IterError`, and no more items are read. After an error the values that were read are dropped. Amortised constant time
/// for each item.
///
/// A port of `wasmtime_internal_core::alloc::new_boxed_slice_from_fallible_iter`.
pub fn new_boxed_slice_from_fallible_iter<T: Drop, E: Drop, I: IntoIterator<Item = Result<T, E>>>(
    alloc: Global,
    iter: I,
) -> Result<BoxedSlice<T>, BoxedSliceFromFallibleIterError<E>>
    requires ready { IsReady I.into_iter_gives I.IntoIter.can_next iter }
    ensures items { IfOk result (λ s. BecomesOne I.into_iter_gives iter
        (λ it. Drains I.IntoIter.next_gives it (map Ok s))) }
    ensures first_error { IfErr result (OnIterError (λ e. BecomesOne I.into_iter_gives iter
        (λ it. (values : List T) × (t : I.IntoIter)
        × Yields I.IntoIter.next_gives it (map Ok values ++ Err e ∷ []) t))) }
    ensures runs { IfOk result (λ s. BecomesOne I.into_iter_gives iter
        (λ it. WholeRun I.IntoIter.next_gives it (λ p. AreValues p.items s))) }
    ensures first_error_run { IfErr result (OnIterError (λ e. BecomesOne I.into_iter_gives iter
        (λ it. SomeRun I.IntoIter.next_gives it (λ p. EndWithError p.items e)))) }
{
    let mut items = TryVec::new(alloc);
    match pour::<T, E, Result<T, E>, I::IntoIter>(&mut items, None, &mut iter.into_iter()) {
        Stop::Ended => match into_boxed_slice(items) {
            Ok(slice) => Ok(slice),
            Err(oom) => Err(BoxedSliceFromFallibleIterError::Oom(oom)),
        },
        Stop::Error(error) => Err(BoxedSliceFromFallibleIterError::IterError(error)),
        Stop::Refused(oom) => Err(BoxedSliceFromFallibleIterError::Oom(oom)),
        Stop::Full => unreachable!(),
    }
}
