//! A part of a vector that is taken out.
ghost use Rattle.std.specs.Prelude.{◌≡◌, ◌≤◌, ◌++◌, length, take, drop, reverse, slice_range, Some, IfSome};
ghost use Rattle.std.specs.List.{remove_range};
ghost use Rattle.std.specs.Iterator.{item_count, UpTo};
ghost use Rattle.std.specs.Iterator.SizeHint.{IsWithinCount};
ghost use Rattle.std.specs.Iterator.Runs.{YieldsInOrder};

use super::TryVec;
use std::iter::FusedIterator;

/// Gives the elements of a part of a vector by value, in order, and takes them out of it. Those that aren't taken
/// are dropped with it.
pub struct Drain<'a, T: Drop> {
    // The first `keep` elements stay. Those behind them are still to come, starting from the last.
    vec: &'a mut TryVec<T>,
    keep: usize,
}

impl<T: Drop> TryVec<T> {
    ghost use Rattle.wic_vec.specs.Drain.{drain_items, drain_kept, drain_capacity, drain_lender, DrainSteps, DrainKeepsAlong};

    /// Takes out the elements from place `lo` to below place `hi`, and gives them in order. Once the `Drain` is dropped,
    /// at its end or before, the vector has the others, and the capacity that it had. The range is two numbers, as a
    /// contract has to say that they are in order and within the length.
    pub fn drain(&mut self, lo: usize, hi: usize) -> Drain<'_, T>
        requires order { lo ≤ hi }
        requires within { hi ≤ length self.old.items }
        ensures rest { drain_items result ≡ slice_range self.old.items lo hi }
        ensures in_order { YieldsInOrder (DrainSteps {T = T}) drain_items }
        ensures same_reference { drain_lender result ≡ self.entry.ghost_name }
        ensures kept { drain_kept result ≡ remove_range self.old.items lo hi }
        ensures capacity { drain_capacity result ≡ self.old.capacity }
        ensures stays { DrainKeepsAlong result }
    {
        let keep = self.len() - (hi - lo);
        turn_to_end(self.as_mut_slice(), lo, hi);
        Drain { vec: self, keep }
    }
}

// Moves the elements from `lo` to below `hi` behind the others, in reverse order.
fn turn_to_end<T>(items: &mut [T], lo: usize, hi: usize)
    requires order { lo ≤ hi }
    requires within { hi ≤ length items.old }
    ensures turned { items.new
        ≡ remove_range items.old lo hi ++ reverse (slice_range items.old lo hi) }
{
    turn_front_to_end(&mut items[lo..], hi - lo);
}

// Moves the first `count` elements behind the others, in reverse order.
fn turn_front_to_end<T>(items: &mut [T], count: usize)
    requires within { count ≤ length items.old }
    ensures turned { items.new ≡ drop count items.old ++ reverse (take count items.old) }
{
    let others = items.len() - count;
    items.reverse();
    items[..others].reverse();
}

impl<'a, T: Drop> Drop for Drain<'a, T> {
    ghost use Rattle.wic_vec.specs.Drain.{drain_kept, drain_capacity};

    fn drop(self)
        ensures items { self.exit.0.now.items ≡ drain_kept self.entry }
        ensures capacity { self.exit.0.now.capacity ≡ drain_capacity self.entry }
    {
        let Drain { vec, keep } = self;
        vec.truncate(keep);
    }
}

impl<'a, T: Drop> Iterator for Drain<'a, T> {
    ghost use Rattle.wic_vec.specs.Drain.{drain_items, DrainSteps};

    type Item = T;

    ghost next_gives = { DrainSteps };

    ghost remaining = { item_count drain_items };

    fn next(&mut self) -> Option<T> {
        if self.vec.len() <= self.keep {
            return None;
        }
        self.vec.pop()
    }

    fn size_hint(&self) -> (usize, Option<usize>)
        ensures lower { IsWithinCount result.0 (item_count drain_items self.now) }
        ensures upper { IfSome result.1 (UpTo (item_count drain_items self.now)) }
        ensures exact { result
            ≡ (length (drain_items self.now), Some (length (drain_items self.now))) }
    {
        let count = self.len();
        (count, Some(count))
    }
}

impl<'a, T: Drop> ExactSizeIterator for Drain<'a, T> {
    fn len(&self) -> usize {
        self.vec.len().saturating_sub(self.keep)
    }
}

impl<'a, T: Drop> FusedIterator for Drain<'a, T> {}
