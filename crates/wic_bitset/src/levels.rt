//! The summary of a set: four levels of words and marks, as one type.
ghost use Rattle.std.specs.Prelude.{◌≡◌, ◌+◌, ◌*◌, ◌<◌, ℕ};
ghost use Rattle.wic_bitset.specs.Rising.{rising, word_members};
ghost use Rattle.wic_bitset.specs.Summary.{filled_words, summary_width};

use crate::number_set::NumberSet;
use crate::store::Store;
use crate::summarized::Summarized;
use crate::walk::Walk;
use crate::word_iter::WordIter;
use std::alloc::Global;
use std::marker::Model;
use std::sync::ledger::Ledger;
use wic_base::{OutOfMemory, Steps};

/// The levels of a summary from the third on.
pub type TopLevels = Summarized<u128, Store<u128>>;

/// The levels of a summary from the second on.
pub type UpperLevels = Summarized<u128, TopLevels>;

/// The summary of a set, in four levels. Each has the numbers of the words of the one below that have a member; the last is plain.
///
/// All levels are in words of 128 digits, whatever the words of the set are, so the last has at most four words. It is a type with a
/// name of its own so that proofs about sets see no levels.
#[derive(Drop)]
pub struct Levels {
    first: Summarized<u128, UpperLevels>,
}

impl Model for Levels {
    ghost use Rattle.wic_bitset.specs.Words.{Words, words_code};

    ghost Value = { Words };

    ghost coded = { words_code };

    ghost view = { λ s. s.first };
}

impl Levels {
    /// A walk over the members.
    #[inline]
    pub fn iter(&self) -> Walk<'_, u128, UpperLevels>
        ensures { result ≡ rising self.now.members }
    {
        self.first.iter()
    }

    /// A walk over the numbers of the words of the first level that have a member.
    #[inline]
    pub fn blocks(&self) -> Walk<'_, u128, TopLevels>
        ensures { result ≡ rising (filled_words summary_width self.now.members) }
    {
        self.first.marks().iter()
    }

    /// A walk over the members in word `k` of the first level: one read.
    #[inline]
    pub fn read<L: Ledger>(&self, k: usize, steps: &mut Steps<L>) -> WordIter<u128>
        requires { k < self.now.count }
        ensures members { result ≡ word_members summary_width self.now.members k }
        ensures looks { steps.new ≡ steps.old + 1 }
    {
        self.first.read(k, steps)
    }
}

impl NumberSet for Levels {
    ghost members = { λ s. s.members };

    ghost end = { λ s. s.count * summary_width };

    ghost room = { λ s. s.room * summary_width };

    fn new(alloc: Global) -> Levels {
        Levels {
            first: NumberSet::new(alloc),
        }
    }

    fn try_clone(&self, alloc: Global) -> Result<Levels, OutOfMemory> {
        let first = self.first.try_clone(alloc)?;
        Ok(Levels { first })
    }

    #[inline]
    fn insert(&mut self, i: usize) {
        self.first.insert(i);
    }

    #[inline]
    fn remove(&mut self, i: usize) {
        self.first.remove(i);
    }

    fn clear(&mut self) {
        self.first.clear();
    }

    fn greatest(&self) -> Option<usize> {
        self.first.greatest()
    }

    fn greatest_up_to(&self, i: usize) -> Option<usize> {
        self.first.greatest_up_to(i)
    }

    fn least_from(&self, i: usize) -> Option<usize> {
        self.first.least_from(i)
    }

    fn is_same(&self, other: &Levels) -> bool {
        self.first.is_same(&other.first)
    }

    fn reserve(&mut self, n: usize) -> Result<(), OutOfMemory> {
        self.first.reserve(n)
    }

    fn grow(&mut self, n: usize) {
        self.first.grow(n);
    }
}
