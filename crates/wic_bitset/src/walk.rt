//! A walk over the members of a set in words with its marks.
ghost use Rattle.std.specs.Prelude.{◌≡◌};
ghost use Rattle.std.specs.Iterator.{YieldsFirst, item_count};
ghost use Rattle.wic_bitset.specs.Rising.{rising};
ghost use Rattle.wic_bitset.specs.Summary.{Summarizes};

use crate::number_set::NumberSet;
use crate::store::Store;
use crate::word_iter::WordIter;
use std::marker::Model;
use wic_scalar::ScalarBitSetStorage;

/// A walk over the members in `words`, ascending, seen as the list of those that are left. It asks `marks` for the next word that
/// has a member, and so passes over empty words unread.
#[derive(Drop)]
pub struct Walk<'a, T: ScalarBitSetStorage, S: NumberSet> {
    words: &'a Store<T>,
    // The numbers of the words that have a member.
    marks: &'a S,
    // What is left of the word that was read last.
    left: WordIter<T>,
    // The words from this one on are not yet read.
    next: usize,
}

impl<'a, T: ScalarBitSetStorage, S: NumberSet> Model for Walk<'a, T, S> {
    ghost use Rattle.std.specs.Prelude.{ℕ, List, ◌*◌, ◌≤◌, ◌++◌};
    ghost use Rattle.wic_bitset.specs.Rising.{members_between};
    ghost use Rattle.wic_bitset.specs.Summary.{Summarizes};

    ghost Value = { List ℕ };

    ghost view = { λ it. it.left
        ++ members_between it.words.now.members (it.next * T.width) (it.words.now.count * T.width) };

    ghost invariant = { λ it. (it.next ≤ it.words.now.count)
        × Summarizes T.width it.words.now (S.members it.marks.now) (S.end it.marks.now) };
}

impl<'a, T: ScalarBitSetStorage, S: NumberSet> Walk<'a, T, S> {
    /// Over the members in `words`, whose marks are `marks`.
    #[inline]
    pub fn new(words: &'a Store<T>, marks: &'a S) -> Walk<'a, T, S>
        requires { Summarizes T.width words.now (S.members marks.now) (S.end marks.now) }
        ensures { result ≡ rising words.now.members }
    {
        Walk {
            words,
            marks,
            left: WordIter::none(),
            next: 0,
        }
    }
}

impl<'a, T: ScalarBitSetStorage, S: NumberSet> Iterator for Walk<'a, T, S> {
    type Item = usize;

    ghost next_gives = { YieldsFirst (λ rest. rest) };

    ghost remaining = { item_count (λ rest. rest) };

    #[inline]
    fn next(&mut self) -> Option<usize> {
        if let Some(i) = self.left.next() {
            return Some(i);
        }
        let k = self.marks.least_from(self.next)?;
        self.left = self.words.iter_word(k);
        self.next = k + 1;
        self.left.next()
    }
}
