//! A set in words with its marks, the set of the numbers of the words that have a member: one level of a summary over the next.
ghost use Rattle.std.specs.Prelude.{◌≡◌, ◌+◌, ◌*◌, ◌<◌, ℕ, true};
ghost use Rattle.std.specs.FinSet as fin_set;
ghost use Rattle.wic_bitset.specs.Rising.{rising, word_members};
ghost use Rattle.wic_bitset.specs.Summary.{filled_words};

use crate::marked::{
    clear_marked, greatest_marked, greatest_up_to_word, insert_into, least_marked_from,
    remove_from, same_marked,
};
use crate::number_set::NumberSet;
use crate::plain::{grow_words, reserve_words};
use crate::store::Store;
use crate::walk::Walk;
use crate::word_iter::WordIter;
use std::alloc::Global;
use std::marker::Model;
use std::sync::ledger::Ledger;
use wic_base::{OutOfMemory, Steps};
use wic_scalar::ScalarBitSetStorage;

/// A set in words with its marks.
#[derive(Drop)]
pub struct Summarized<T: ScalarBitSetStorage, S: NumberSet> {
    words: Store<T>,
    // The numbers of the words that have a member.
    marks: S,
}

impl<T: ScalarBitSetStorage, S: NumberSet> Model for Summarized<T, S> {
    ghost use Rattle.std.specs.Prelude.{min};
    ghost use Rattle.wic_bitset.specs.Words.{Words, words_code};
    ghost use Rattle.wic_bitset.specs.Summary.{Summarizes};

    ghost Value = { Words };

    ghost coded = { words_code };

    ghost view = { λ s. record {
      members = s.words.members;
      count = s.words.count;
      room = min s.words.room (S.room s.marks);
    } };

    ghost invariant = { λ s. Summarizes T.width s.words (S.members s.marks) (S.end s.marks) };
}

impl<T: ScalarBitSetStorage, S: NumberSet> Summarized<T, S> {
    /// The numbers of the words that have a member, as a set.
    #[inline]
    pub fn marks(&self) -> &S
        ensures { S.members result.now ≡ filled_words T.width self.now.members }
    {
        &self.marks
    }

    /// A walk over the members.
    #[inline]
    pub fn iter(&self) -> Walk<'_, T, S>
        ensures { result ≡ rising self.now.members }
    {
        Walk::new(&self.words, &self.marks)
    }

    /// A walk over the members in word `k`: one read.
    #[inline]
    pub fn read<L: Ledger>(&self, k: usize, steps: &mut Steps<L>) -> WordIter<T>
        requires { k < self.now.count }
        ensures members { result ≡ word_members T.width self.now.members k }
        ensures looks { steps.new ≡ steps.old + 1 }
    {
        self.words.read(k, steps)
    }
}

impl<T: ScalarBitSetStorage, S: NumberSet> NumberSet for Summarized<T, S> {
    ghost members = { λ s. s.members };

    ghost end = { λ s. s.count * T.width };

    ghost room = { λ s. s.room * T.width };

    fn new(alloc: Global) -> Summarized<T, S> {
        Summarized {
            words: Store::new(alloc),
            marks: S::new(alloc),
        }
    }

    fn try_clone(&self, alloc: Global) -> Result<Summarized<T, S>, OutOfMemory> {
        let words = self.words.try_clone(alloc)?;
        let marks = self.marks.try_clone(alloc)?;
        Ok(Summarized { words, marks })
    }

    #[inline]
    fn insert(&mut self, i: usize) {
        insert_into(&mut self.words, &mut self.marks, i);
    }

    #[inline]
    fn remove(&mut self, i: usize) {
        remove_from(&mut self.words, &mut self.marks, i);
    }

    fn clear(&mut self) {
        clear_marked(&mut self.words, &mut self.marks);
    }

    fn greatest(&self) -> Option<usize> {
        greatest_marked(&self.words, &self.marks)
    }

    fn greatest_up_to(&self, i: usize) -> Option<usize> {
        greatest_up_to_word(&self.words, &self.marks, i / T::width() as usize)
    }

    // Out of line, so that a step of a walk within a word is short.
    #[inline(never)]
    fn least_from(&self, i: usize) -> Option<usize> {
        least_marked_from(&self.words, &self.marks, i)
    }

    fn is_same(&self, other: &Summarized<T, S>) -> bool {
        same_marked(&self.words, &self.marks, &other.words, &other.marks)
    }

    fn reserve(&mut self, n: usize) -> Result<(), OutOfMemory> {
        let count = n.div_ceil(T::width() as usize);
        self.marks.reserve(count)?;
        reserve_words(&mut self.words, count)
    }

    fn grow(&mut self, n: usize) {
        let count = n.div_ceil(T::width() as usize);
        self.marks.grow(count);
        grow_words(&mut self.words, count)
    }
}
