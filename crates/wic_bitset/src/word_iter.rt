//! A walk over the members in one word of a set.
ghost use Rattle.std.specs.Prelude.{◌≡◌, ◌+◌, ◌≤◌, [], length, map};
ghost use Rattle.std.specs.Iterator.{YieldsFirst, item_count};
ghost use Rattle.wic_bitset.specs.Words.{greatest_start};
ghost use Rattle.wic_scalar.specs.Scalar.{members_of};

use std::marker::Model;
use wic_scalar::scalar::Iter;
use wic_scalar::{ScalarBitSet, ScalarBitSetStorage};

/// A walk over the members in one word, ascending, seen as the list of those that are left.
#[derive(Drop)]
pub struct WordIter<T: ScalarBitSetStorage> {
    // The number for which place 0 of the word stands.
    start: usize,
    // The places that are left.
    places: Iter<T>,
}

impl<T: ScalarBitSetStorage> Model for WordIter<T> {
    ghost use Rattle.std.specs.Prelude.{ℕ, List, ◌+◌, ◌≤◌, map};
    ghost use Rattle.wic_bitset.specs.Words.{greatest_start};

    ghost Value = { List ℕ };

    ghost view = { λ it. map (λ j. it.start + j) it.places };

    ghost invariant = { λ it. it.start ≤ greatest_start };
}

impl<T: ScalarBitSetStorage> WordIter<T> {
    /// Over the members in `word`, whose place 0 stands for `start`.
    #[inline]
    pub fn new(start: usize, word: ScalarBitSet<T>) -> WordIter<T>
        requires { start ≤ greatest_start }
        ensures { result ≡ map (λ j. start + j) (members_of T.width (T.number word.0)) }
    {
        WordIter {
            start,
            places: word.iter(),
        }
    }

    /// Over no members.
    #[inline]
    pub fn none() -> WordIter<T>
        ensures { result ≡ [] }
    {
        WordIter::new(0, ScalarBitSet::new())
    }

    /// The number of members that are left, by a population count.
    #[inline]
    pub fn count_left(&self) -> usize
        ensures count { result ≡ length self.now }
        ensures few { result ≤ 255 }
    {
        self.places.len()
    }
}

impl<T: ScalarBitSetStorage> Iterator for WordIter<T> {
    type Item = usize;

    ghost next_gives = { YieldsFirst (λ rest. rest) };

    ghost remaining = { item_count (λ rest. rest) };

    #[inline]
    fn next(&mut self) -> Option<usize> {
        match self.places.next() {
            Some(place) => Some(self.start + usize::from(place)),
            None => None,
        }
    }
}
