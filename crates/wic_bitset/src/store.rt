//! The plain set in words, over the scalar sets' contracts. A set has one of these for its members, and one for each level of its
//! summary.
ghost use Rattle.std.specs.Prelude.{◌≡◌, ◌+◌, ◌*◌, ◌<◌, ◌≤◌, ◌↔◌, ◌++◌, ℕ, not, true, length, map};
ghost use Rattle.std.specs.Prelude.{IsTrue, IsOk, OnOk, OnErr, IfOk};
ghost use Rattle.std.specs.FinSet as fin_set;
ghost use Rattle.wic_bitset.specs.Combination.{CombinesToNone, CombinesWord, TellsChange};
ghost use Rattle.wic_bitset.specs.Greatest.{IsMax};
ghost use Rattle.wic_bitset.specs.Rising.{word_members};
ghost use Rattle.wic_bitset.specs.Words.{most_words, greatest_start, AreFirstWords, EmptiesWord, EndsBefore, IsMaxOfWord};
ghost use Rattle.wic_bitset.specs.Words.{IsWordEmpty, IsWordOf, SameWord, SameWordsBelow};

use crate::combination::Combination;
use crate::word_iter::WordIter;
use std::alloc::Global;
use std::marker::Model;
use std::sync::ledger::Ledger;
use wic_base::{OutOfMemory, Steps};
use wic_scalar::{ScalarBitSet, ScalarBitSetStorage};
use wic_vec::TryVec;

/// A set of numbers in words: place `j` of word `k` stands for the number `k * width + j`.
///
/// A contract sees its members, the count of its words, and its room: how many words it may have with no request for
/// memory.
#[derive(Drop)]
pub struct Store<T: ScalarBitSetStorage> {
    words: TryVec<ScalarBitSet<T>>,
}

impl<T: ScalarBitSetStorage> Model for Store<T> {
    ghost use Rattle.std.specs.Prelude.{◌≤◌, length, map};
    ghost use Rattle.wic_bitset.specs.Words.{Words, words_code, set_of_words, most_words};

    ghost Value = { Words };

    ghost coded = { words_code };

    ghost view = { λ c. record {
      members = set_of_words T.width (map (λ s. T.number s.0) c.words.items);
      count = length c.words.items;
      room = c.words.capacity;
    } };

    ghost invariant = { λ c. length c.words.items ≤ most_words };
}

impl<T: ScalarBitSetStorage> Store<T> {
    /// No words.
    pub fn new(alloc: Global) -> Store<T>
        ensures members { result.members ≡ fin_set.empty }
        ensures count { result.count ≡ 0 }
    {
        Store {
            words: TryVec::new(alloc),
        }
    }

    /// The same words.
    pub fn try_clone(&self, alloc: Global) -> Result<Store<T>, OutOfMemory>
        ensures members { IfOk result (λ copy. copy.members ≡ self.now.members) }
        ensures count { IfOk result (λ copy. copy.count ≡ self.now.count) }
    {
        let mut words = TryVec::new(alloc);
        words.extend_from_slice(self.words.as_slice())?;
        Ok(Store { words })
    }

    /// Asks for the room of `n` words.
    pub fn reserve(&mut self, n: usize) -> Result<(), OutOfMemory>
        requires { self.old.count ≤ n }
        ensures members { self.new.members ≡ self.old.members }
        ensures count { self.new.count ≡ self.old.count }
        ensures room { OnOk result (n ≤ self.new.room) }
        ensures room_never_falls { self.old.room ≤ self.new.room }
        ensures never_refused_within { n ≤ self.old.room → IsOk result }
        ensures refusal_leaves { OnErr result (self.new ≡ self.old) }
    {
        self.words.reserve(n - self.words.len())
    }

    /// Makes it `n` words, for which there is room: the new ones are empty.
    pub fn grow(&mut self, n: usize)
        requires grows { self.old.count ≤ n }
        requires room { n ≤ self.old.room }
        requires few { n ≤ most_words }
        ensures members { self.new.members ≡ self.old.members }
        ensures count { self.new.count ≡ n }
        ensures room { self.new.room ≡ self.old.room }
    {
        while self.words.len() < n {
            self.words.push_reserved(ScalarBitSet::new());
        }
    }

    /// Empties word `k`.
    pub fn clear_word(&mut self, k: usize)
        requires { k < self.old.count }
        ensures members { EmptiesWord T.width k self.old.members self.new.members }
        ensures count { self.new.count ≡ self.old.count }
        ensures room { self.new.room ≡ self.old.room }
    {
        self.words[k] = ScalarBitSet::new();
    }

    /// Empties the first `end` words, which have all members.
    pub fn clear_within(&mut self, end: usize)
        requires within { end ≤ self.old.count }
        requires none_after { EndsBefore T.width self.old.members end }
        ensures members { self.new.members ≡ fin_set.empty }
        ensures count { self.new.count ≡ self.old.count }
        ensures room { self.new.room ≡ self.old.room }
    {
        for k in 0..end {
            self.clear_word(k);
        }
    }

    /// The number of words.
    #[inline]
    pub fn count(&self) -> usize
        ensures count { result ≡ self.now.count }
        ensures within { result ≤ most_words }
        ensures room { result ≤ self.now.room }
        ensures holds_all { EndsBefore T.width self.now.members result }
    {
        self.words.len()
    }

    /// The capacity: each member is below it.
    #[inline]
    pub fn capacity(&self) -> usize
        ensures capacity { result ≡ self.now.count * T.width }
        ensures holds_all { (i : ℕ) → fin_set.contains self.now.members i ≡ true → i < result }
    {
        self.words.len() * T::width() as usize
    }

    /// Whether `i` is a member: any number.
    #[inline]
    pub fn contains(&self, i: usize) -> bool
        ensures { result ≡ fin_set.contains self.now.members i }
    {
        let width = T::width() as usize;
        match self.words.get(i / width) {
            Some(word) => word.contains((i % width) as u8),
            None => false,
        }
    }

    /// Puts `i`, for which there is a word, in, and returns whether it is new.
    #[inline]
    pub fn insert(&mut self, i: usize) -> bool
        requires { i < self.old.count * T.width }
        ensures new { result ≡ not (fin_set.contains self.old.members i) }
        ensures members { self.new.members ≡ fin_set.insert self.old.members i }
        ensures count { self.new.count ≡ self.old.count }
        ensures room { self.new.room ≡ self.old.room }
    {
        let width = T::width() as usize;
        self.words[i / width].insert((i % width) as u8)
    }

    /// Takes `i`, any number, out, and returns whether it was there.
    #[inline]
    pub fn remove(&mut self, i: usize) -> bool
        ensures present { result ≡ fin_set.contains self.old.members i }
        ensures members { self.new.members ≡ fin_set.remove self.old.members i }
        ensures count { self.new.count ≡ self.old.count }
        ensures room { self.new.room ≡ self.old.room }
    {
        let width = T::width() as usize;
        let word = i / width;
        if word < self.words.len() {
            self.words[word].remove((i % width) as u8)
        } else {
            false
        }
    }

    /// Whether no member stands in word `k`: any number.
    #[inline]
    pub fn is_word_empty(&self, k: usize) -> bool
        ensures { IsTrue result ↔ IsWordEmpty T.width self.now.members k }
    {
        match self.words.get(k) {
            Some(word) => word.is_empty(),
            None => true,
        }
    }

    /// Makes of word `k` what `how` makes of it and of that of `other`, and returns whether a member came or went. A word that
    /// `other` hasn't is empty.
    pub fn combine_word(&mut self, other: &Store<T>, how: Combination, k: usize) -> bool
        requires { k < self.old.count }
        ensures members { CombinesWord T.width how k
            self.old.members other.now.members self.new.members }
        ensures changed { TellsChange result self.old.members self.new.members }
        ensures count { self.new.count ≡ self.old.count }
        ensures room { self.new.room ≡ self.old.room }
    {
        let old = self.words[k];
        let new = how.of_words(old, other.word_or_empty(k));
        self.words[k] = new;
        let same = new == old;
        !same
    }

    /// Whether word `k` has the same members here and in `other`. A word that isn't there is empty.
    pub fn has_same_word(&self, other: &Store<T>, k: usize) -> bool
        ensures { IsTrue result ↔ SameWord T.width k self.now.members other.now.members }
    {
        self.word_or_empty(k) == other.word_or_empty(k)
    }

    /// Whether each of the first `end` words has the same members here and in `other`.
    pub fn has_same_words(&self, other: &Store<T>, end: usize) -> bool
        ensures { IsTrue result ↔ SameWordsBelow T.width end self.now.members other.now.members }
    {
        for k in 0..end {
            if !self.has_same_word(other, k) {
                return false;
            }
        }
        true
    }

    /// Whether what `how` makes of word `k` and of that of `other` has no member. A word that isn't there is empty.
    pub fn combines_to_none(&self, other: &Store<T>, how: Combination, k: usize) -> bool
        ensures { IsTrue result ↔ CombinesToNone T.width how k self.now.members other.now.members }
    {
        how.of_words(self.word_or_empty(k), other.word_or_empty(k))
            .is_empty()
    }

    /// The greatest member in word `k`, or `None` if it is empty.
    #[inline]
    pub fn max_of_word(&self, k: usize) -> Option<usize>
        requires { k < self.now.count }
        ensures { IsMaxOfWord T.width self.now.members k result }
    {
        let start = self.start(k);
        match self.word(k).max() {
            Some(place) => Some(start + place as usize),
            None => None,
        }
    }

    /// The greatest member, if only the first `end` words have members. It reads the last of these words first, and no word below
    /// that of the result.
    pub fn max_within(&self, end: usize) -> Option<usize>
        requires within { end ≤ self.now.count }
        requires none_after { EndsBefore T.width self.now.members end }
        ensures { IsMax self.now.members result }
    {
        let mut k = end;
        while k > 0 {
            k -= 1;
            if let Some(max) = self.max_of_word(k) {
                return Some(max);
            }
        }
        None
    }

    /// The first `n` words.
    pub fn first_words(&self, n: usize) -> &[ScalarBitSet<T>]
        requires { n ≤ self.now.count }
        ensures count { length result.now ≡ n }
        ensures words { AreFirstWords T.width self.now.members
            (map (λ s. T.number s.0) result.now) }
    {
        let words = self.words.as_slice();
        &words[..n]
    }

    /// A walk over the members in word `k`.
    #[inline]
    pub fn iter_word(&self, k: usize) -> WordIter<T>
        requires { k < self.now.count }
        ensures members { result ≡ word_members T.width self.now.members k }
    {
        WordIter::new(self.start(k), self.word(k))
    }

    /// A walk over the members in word `k`: one read. A walk that counts has no other way to a word.
    pub fn read<L: Ledger>(&self, k: usize, steps: &mut Steps<L>) -> WordIter<T>
        requires { k < self.now.count }
        ensures members { result ≡ word_members T.width self.now.members k }
        ensures looks { steps.new ≡ steps.old + 1 }
    {
        steps.tick();
        self.iter_word(k)
    }

    /// Word `k`.
    #[inline]
    pub fn word(&self, k: usize) -> ScalarBitSet<T>
        requires { k < self.now.count }
        ensures { IsWordOf T.width self.now.members k (T.number result.0) }
    {
        self.words[k]
    }

    // Word `k`, or an empty one if there is none.
    fn word_or_empty(&self, k: usize) -> ScalarBitSet<T>
        ensures { IsWordOf T.width self.now.members k (T.number result.0) }
    {
        match self.words.get(k) {
            Some(word) => *word,
            None => ScalarBitSet::new(),
        }
    }

    /// The first number of word `k`.
    #[inline]
    pub fn start(&self, k: usize) -> usize
        requires { k < self.now.count }
        ensures start { result ≡ k * T.width }
        ensures small { result ≤ greatest_start }
    {
        // For the proof alone: the invariant, by which there are few enough words for the product.
        let _ = &self.words;
        k * T::width() as usize
    }
}
