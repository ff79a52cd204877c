//! A walk over the members of a set.
ghost use Rattle.std.specs.Prelude.{◌≡◌, ◌≤◌, length, IfSome, Some};
ghost use Rattle.std.specs.Iterator.{YieldsFirst, YieldsLast, item_count, at_most, UpTo};
ghost use Rattle.std.specs.Iterator.SizeHint.{IsWithinCount};

use crate::set::ScalarBitSet;
use crate::storage::ScalarBitSetStorage;
use std::iter::FusedIterator;
use std::marker::Model;

/// A walk over the members of a set, ascending, seen as the list of those that are left. `size_hint` is exact.
#[derive(Drop)]
pub struct Iter<T: ScalarBitSetStorage> {
    // What is left.
    pub(crate) bitset: ScalarBitSet<T>,
}

impl<T: ScalarBitSetStorage> Model for Iter<T> {
    ghost use Rattle.std.specs.Prelude.{ℕ, List};
    ghost use Rattle.wic_scalar.specs.Scalar.{members_of};

    ghost Value = { List ℕ };

    ghost view = { λ it. members_of T.width (T.number it.bitset.0) };
}

impl<T: ScalarBitSetStorage> Iterator for Iter<T> {
    type Item = u8;

    ghost next_gives = { YieldsFirst (λ rest. rest) };

    ghost remaining = { item_count (λ rest. rest) };

    #[inline]
    #[tactic(auto, using(crate::proofs::MemberFacts::front_step))]
    fn next(&mut self) -> Option<u8> {
        self.bitset.pop_min()
    }

    #[inline]
    fn size_hint(&self) -> (usize, Option<usize>)
        ensures lower { IsWithinCount result.0 (at_most (length self.now)) }
        ensures upper { IfSome result.1 (UpTo (at_most (length self.now))) }
        ensures exact { (result.0 ≡ length self.now) × (result.1 ≡ Some (length self.now)) }
    {
        let count = self.len();
        (count, Some(count))
    }
}

impl<T: ScalarBitSetStorage> DoubleEndedIterator for Iter<T> {
    ghost next_back_gives = { YieldsLast (λ rest. rest) };

    #[inline]
    #[tactic(auto, using(crate::proofs::MemberFacts::back_step))]
    fn next_back(&mut self) -> Option<u8> {
        self.bitset.pop_max()
    }
}

impl<T: ScalarBitSetStorage> ExactSizeIterator for Iter<T> {
    #[inline]
    #[tactic(auto, using(crate::proofs::CallFacts::as_many_listed))]
    fn len(&self) -> usize
        ensures value { result ≡ length self.now }
        ensures within { result ≤ T.width }
    {
        usize::from(self.bitset.len())
    }
}

/// It stays at its end.
impl<T: ScalarBitSetStorage> FusedIterator for Iter<T> {}
