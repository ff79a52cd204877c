//! A walk over the members of a compound set.
ghost use Rattle.std.specs.Prelude.{◌≡◌, ◌<◌};
ghost use Rattle.std.specs.Prelude.{All};
ghost use Rattle.std.specs.List.{flat_map};
ghost use Rattle.std.specs.Iterator.{YieldsFirst, item_count};
ghost use Rattle.wic_bitset.specs.Rising.{word_members};

use crate::levels::UpperLevels;
use crate::store::Store;
use crate::walk::Walk;
use crate::word_iter::WordIter;
use std::iter::FusedIterator;
use std::marker::Model;
use wic_scalar::ScalarBitSetStorage;

/// A walk over the members of a set, ascending, seen as the list of those that are left. It stays at its end, where the original
/// moves on.
#[derive(Drop)]
pub struct Iter<'a, T: ScalarBitSetStorage> {
    words: &'a Store<T>,
    // The numbers of the words that have a member and are not yet read, a word of the summary at a time.
    filled: Walk<'a, u128, UpperLevels>,
    // What is left of the word that was read last.
    word: WordIter<T>,
}

impl<'a, T: ScalarBitSetStorage> Model for Iter<'a, T> {
    ghost use Rattle.std.specs.Prelude.{ℕ, List, ◌<◌, ◌++◌, All};
    ghost use Rattle.std.specs.List.{flat_map};
    ghost use Rattle.wic_bitset.specs.Rising.{word_members};

    ghost Value = { List ℕ };

    ghost view = { λ it. it.word ++ flat_map (word_members T.width it.words.now.members) it.filled };

    ghost invariant = { λ it. All (λ k. k < it.words.now.count) it.filled };
}

impl<'a, T: ScalarBitSetStorage> Iter<'a, T> {
    // Over the members in the words that `filled` gives.
    pub(crate) fn new(words: &'a Store<T>, filled: Walk<'a, u128, UpperLevels>) -> Iter<'a, T>
        requires { All (λ k. k < words.now.count) filled }
        ensures { result ≡ flat_map (word_members T.width words.now.members) filled.entry }
    {
        Iter {
            words,
            filled,
            word: WordIter::none(),
        }
    }
}

impl<'a, T: ScalarBitSetStorage> Iterator for Iter<'a, T> {
    type Item = usize;

    ghost next_gives = { YieldsFirst (λ rest. rest) };

    ghost remaining = { item_count (λ rest. rest) };

    #[inline]
    fn next(&mut self) -> Option<usize> {
        loop {
            if let Some(i) = self.word.next() {
                return Some(i);
            }
            match self.filled.next() {
                Some(k) => self.word = self.words.iter_word(k),
                None => return None,
            }
        }
    }
}

/// It stays at its end.
impl<'a, T: ScalarBitSetStorage> FusedIterator for Iter<'a, T> {}
