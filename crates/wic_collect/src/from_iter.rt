//! Collections made of the items of an iterator.
ghost use Rattle.std.specs.Prelude.{⊤, ◌≡◌, List, MatchResult};
ghost use Rattle.std.specs.Iterator.{Yields, Drains};
ghost use Rattle.std.specs.Iterator.Runs.{SomeRun, WholeRun};
ghost use Rattle.wic_collect.specs.Collected.{AreValues, EndInError};
ghost use Rattle.wic_collect.specs.Ranges.{RangesGiveTheirNumbers};

use crate::collect::{Stop, pour};
use crate::slice::{BoxedSlice, into_boxed_slice};
use std::alloc::Global;
use wic_base::OutOfMemory;
use wic_vec::TryVec;

/// A collection that can be made of items. It may be out of memory, or an item may be an error.
///
/// A port of `wasmtime_internal_core::alloc::TryFromIterator`.
pub trait TryFromIterator<T, E> {
    // It was made of these items.
    ghost has: { Self → List T → Type 0 };
    // After these items, of which the last one may be an error, this error may be returned.
    ghost fails: { List T → E → Type 0 };

    /// Returns a collection of all items of `iter`, in order. After an error the items that were read are dropped.
    fn try_from_iter<I: Iterator<Item = T>>(alloc: Global, iter: I) -> Result<Self, E>
        requires ready { I.can_next iter }
        ensures items { MatchResult result
            (λ made. (items : List T) × Drains I.next_gives iter items × has made items)
            (λ e. (items : List T) × (t : I) × Yields I.next_gives iter items t × fails items e) }
        ensures runs { MatchResult result
            (λ made. WholeRun I.next_gives iter (λ p. has made p.items))
            (λ e. SomeRun I.next_gives iter (λ p. fails p.items e)) };
}

/// All items. It may be out of memory after any of them.
impl<T: Drop> TryFromIterator<T, OutOfMemory> for TryVec<T> {
    ghost has = { λ v items. v.items ≡ items };

    ghost fails = { λ _ _. ⊤ };

    fn try_from_iter<I: Iterator<Item = T>>(
        alloc: Global,
        mut iter: I,
    ) -> Result<TryVec<T>, OutOfMemory> {
        let mut items = TryVec::new(alloc);
        match pour::<T, OutOfMemory, T, I>(&mut items, None, &mut iter) {
            Stop::Ended => Ok(items),
            Stop::Refused(oom) => Err(oom),
            Stop::Full | Stop::Error(_) => unreachable!(),
        }
    }
}

/// The values of all items. The first `Err` is returned, and no more items are read.
impl<T: Drop, E: From<OutOfMemory> + Drop> TryFromIterator<Result<T, E>, E> for TryVec<T> {
    ghost has = { λ v items. AreValues items v.items };

    ghost fails = { λ items e. EndInError items E.from_gives e };

    fn try_from_iter<I: Iterator<Item = Result<T, E>>>(
        alloc: Global,
        mut iter: I,
    ) -> Result<TryVec<T>, E> {
        let mut items = TryVec::new(alloc);
        match pour::<T, E, Result<T, E>, I>(&mut items, None, &mut iter) {
            Stop::Ended => Ok(items),
            Stop::Error(error) => Err(error),
            Stop::Refused(oom) => Err(E::from(oom)),
            Stop::Full => unreachable!(),
        }
    }
}

/// All items. It may be out of memory after any of them.
impl<T: Drop> TryFromIterator<T, OutOfMemory> for BoxedSlice<T> {
    ghost has = { λ s items. s ≡ items };

    ghost fails = { λ _ _. ⊤ };

    fn try_from_iter<I: Iterator<Item = T>>(
        alloc: Global,
        iter: I,
    ) -> Result<BoxedSlice<T>, OutOfMemory> {
        let items: TryVec<T> = TryFromIterator::<T, OutOfMemory>::try_from_iter(alloc, iter)?;
        into_boxed_slice(items)
    }
}

/// The values of all items. The first `Err` is returned, and no more items are read.
impl<T: Drop, E: From<OutOfMemory> + Drop> TryFromIterator<Result<T, E>, E> for BoxedSlice<T> {
    ghost has = { λ s items. AreValues items s };

    ghost fails = { λ items e. EndInError items E.from_gives e };

    fn try_from_iter<I: Iterator<Item = Result<T, E>>>(
        alloc: Global,
        iter: I,
    ) -> Result<BoxedSlice<T>, E> {
        let items: TryVec<T> = TryFromIterator::<Result<T, E>, E>::try_from_iter(alloc, iter)?;
        match into_boxed_slice(items) {
            Ok(slice) => Ok(slice),
            Err(oom) => Err(E::from(oom)),
        }
    }
}

/// Returns a collection of all items of `iter`, in order, as `B::try_from_iter` makes it. Of items that are results it has
/// the values: the first `Err` is returned, and no more items are read. Amortised constant time for each item.
///
/// The clause `ranges` is for callers that collect from a range, as `0..n`.
///
/// A port of `TryCollect::try_collect`.
#[tactic(auto, using(crate::proofs::RangeFacts::range_whole))]
pub fn try_collect<B: TryFromIterator<T, E>, T, E, I: Iterator<Item = T>>(
    alloc: Global,
    iter: I,
) -> Result<B, E>
    requires ready { I.can_next iter }
    ensures items { MatchResult result
        (λ made. (items : List T) × Drains I.next_gives iter items × B.has made items)
        (λ e. (items : List T) × (t : I) × Yields I.next_gives iter items t × B.fails items e) }
    ensures runs { MatchResult result (λ made. WholeRun I.next_gives iter (λ p. B.has made p.items))
        (λ e. SomeRun I.next_gives iter (λ p. B.fails p.items e)) }
    ensures ranges { RangesGiveTheirNumbers }
{
    B::try_from_iter(alloc, iter)
}
