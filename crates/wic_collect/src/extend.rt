//! Items put at the end of a collection.
ghost use Rattle.std.specs.Prelude.{◌≡◌, ◌+◌, ◌≤◌, ◌∷◌, [], ◌++◌, ℕ, List, length, take, MatchResult};
ghost use Rattle.std.specs.Prelude.{OnOk, OnErr};
ghost use Rattle.std.specs.Iterator.{Yields, Drains};
ghost use Rattle.std.specs.Iterator.Runs.{SomeRun, WholeRun};
ghost use Rattle.wic_vec.specs.TryVec.{HasRoomFor};
ghost use Rattle.wic_collect.specs.Iterates.{IsReady, BecomesOne};

use crate::collect::{Stop, pour};
use wic_base::OutOfMemory;
use wic_vec::TryVec;

/// A collection that items can be put into.
///
/// A port of `wasmtime_internal_core::alloc::TryExtend`.
pub trait TryExtend<T> {
    // Items put into the first one make it the second one.
    ghost extends: { Self → List T → Self → Type 0 };
    // So many more items fit without an allocation.
    ghost has_room: { Self → ℕ → Type 0 };
    // The second one has at least the capacity of the first.
    ghost keeps_room: { Self → Self → Type 0 };

    /// Puts the items of `iter` at the end, in order. The capacity never falls. It is refused only if there was no room
    /// for all items that were read, so items that fit are never refused. A refusal leaves the items before the last one
    /// that was read at the end, and no more are read.
    fn try_extend<I: IntoIterator<Item = T>>(&mut self, iter: I) -> Result<(), OutOfMemory>
        requires ready { IsReady I.into_iter_gives I.IntoIter.can_next iter }
        ensures items { BecomesOne I.into_iter_gives iter (λ it. (items : List T)
            × extends self.old items self.new
            × MatchResult result (λ _. Drains I.IntoIter.next_gives it items)
            (λ _. (x : T) × (t : I.IntoIter) × Yields I.IntoIter.next_gives it (items ++ x ∷ []) t
            × ¬ (has_room self.old (length (items ++ x ∷ []))))) }
        ensures runs { OnOk result (BecomesOne I.into_iter_gives iter
            (λ it. WholeRun I.IntoIter.next_gives it (λ p. extends self.old p.items self.new))) }
        ensures refused_beyond_room { OnErr result (BecomesOne I.into_iter_gives iter
            (λ it. SomeRun I.IntoIter.next_gives it (λ p. (n : ℕ) × (p.len ≡ n + 1)
            × extends self.old (take n p.items) self.new × ¬ (has_room self.old p.len)))) }
        ensures room_never_falls { keeps_room self.old self.new };
}

/// The items follow the elements. Amortised constant time for each item.
impl<T: Drop> TryExtend<T> for TryVec<T> {
    ghost extends = { λ v items w. w.items ≡ v.items ++ items };

    ghost has_room = { HasRoomFor };

    ghost keeps_room = { λ v w. v.capacity ≤ w.capacity };

    fn try_extend<I: IntoIterator<Item = T>>(&mut self, iter: I) -> Result<(), OutOfMemory> {
        match pour::<T, OutOfMemory, T, I::IntoIter>(self, None, &mut iter.into_iter()) {
            Stop::Ended => Ok(()),
            Stop::Refused(oom) => Err(oom),
            Stop::Full | Stop::Error(_) => unreachable!(),
        }
    }
}
