//! The compound set.
ghost use Rattle.std.specs.Prelude.{◌≡◌, ◌+◌, ◌*◌, ◌/◌, ◌<◌, ◌≤◌, ◌↔◌, ◌++◌, ℕ, not, true, length, map};
ghost use Rattle.std.specs.Prelude.{IsTrue, IsOk, OnOk, OnErr, IsNone, IfSome, IfNone, IfOk, Some, None, All};
ghost use Rattle.std.specs.List.{last_or};
ghost use Rattle.std.specs.List.Sorted.{IsStrictlyIncreasing};
ghost use Rattle.std.specs.FinSet as fin_set;
ghost use Rattle.std.specs.Int.{div_ceil};
ghost use Rattle.std.specs.Ordering.{nat_cmp};
ghost use Rattle.wic_bitset.specs.Compound.{capacity_of, max_capacity, max_number};
ghost use Rattle.wic_bitset.specs.Greatest.{IsMax};
ghost use Rattle.wic_base.specs.Sets.{IsGreatest};
ghost use Rattle.wic_bitset.specs.Growth.{count_after, count_for};
ghost use Rattle.wic_bitset.specs.Rising.{rising, word_members};
ghost use Rattle.wic_bitset.specs.Room.{MakesRoomFor};
ghost use Rattle.wic_bitset.specs.Summary.{block_members, block_words, filled_words, summary_width, Summarizes};
ghost use Rattle.wic_bitset.specs.Words.{AreWords, EndsBefore, IsWordEmpty};

mod pairs;

use crate::growth::grown_count;
use crate::iter::Iter;
use crate::iter_scalars::IterScalars;
use crate::levels::{Levels, TopLevels, UpperLevels};
use crate::marked::{clear_marked, greatest_up_to_word, insert_into, remove_from};
use crate::number_set::NumberSet;
use crate::store::Store;
use crate::walk::Walk;
use std::alloc::Global;
use std::marker::Model;
use std::sync::ledger::Ledger;
use wic_base::{OutOfMemory, Steps};
use wic_scalar::ScalarBitSetStorage;
use wic_vec::TryVec;

/// The greatest number that a set can have.
pub const MAX_NUMBER: usize = 4294967295;

/// As many numbers as a set can have, and the greatest capacity that can be asked for.
pub const MAX_CAPACITY: usize = 4294967296;

/// A set of numbers, each at most `MAX_NUMBER`, in words of `T`.
///
/// A contract sees its `members`, a finite set, and the number of its `words`; the capacity is the words times the
/// width of `T`.
pub struct CompoundBitSet<T: ScalarBitSetStorage = usize> {
    words: Store<T>,
    // The numbers of the words that have a member.
    summary: Levels,
    // The greatest member.
    max: Option<usize>,
}

// By hand, so that a caller's proof sees one call where a set ends, and no levels.
impl<T: ScalarBitSetStorage> Drop for CompoundBitSet<T> {
    fn drop(self) {
        let CompoundBitSet {
            words: _,
            summary: _,
            max: _,
        } = self;
    }
}

impl<T: ScalarBitSetStorage> Model for CompoundBitSet<T> {
    ghost use Rattle.std.specs.Prelude.{◌*◌};
    ghost use Rattle.wic_bitset.specs.Compound.{Compound, compound_code};
    ghost use Rattle.wic_bitset.specs.Greatest.{IsMax};
    ghost use Rattle.wic_bitset.specs.Summary.{summary_width, Summarizes};

    ghost Value = { Compound };

    ghost coded = { compound_code };

    ghost view = { λ s. record { members = s.words.members; words = s.words.count } };

    ghost invariant = { λ s. Summarizes T.width s.words s.summary.members (s.summary.count * summary_width)
        × IsMax s.words.members s.max };
}

impl<T: ScalarBitSetStorage> CompoundBitSet<T> {
    /// The empty set, with no words. It allocates nothing.
    pub fn new(alloc: Global) -> CompoundBitSet<T>
        ensures members { result.members ≡ fin_set.empty }
        ensures words { result.words ≡ 0 }
    {
        CompoundBitSet {
            words: Store::new(alloc),
            summary: NumberSet::new(alloc),
            max: None,
        }
    }

    /// The empty set with room for the numbers below `capacity`, at most `MAX_CAPACITY`. A capacity of 0 is never refused.
    pub fn with_capacity(alloc: Global, capacity: usize) -> Result<CompoundBitSet<T>, OutOfMemory>
        requires within { capacity ≤ max_capacity }
        ensures members { IfOk result (λ set. set.members ≡ fin_set.empty) }
        ensures words { IfOk result (λ set. set.words ≡ count_for T.width 0 capacity) }
        ensures capacity { IfOk result (λ set. capacity ≤ capacity_of T.width set) }
        ensures zero_never_refused { capacity ≡ 0 → IsOk result }
    {
        CompoundBitSet::try_with_capacity(alloc, capacity)
    }

    /// The empty set with room for the numbers below `capacity`, as `with_capacity`.
    pub fn try_with_capacity(
        alloc: Global,
        capacity: usize,
    ) -> Result<CompoundBitSet<T>, OutOfMemory>
        requires within { capacity ≤ max_capacity }
        ensures members { IfOk result (λ set. set.members ≡ fin_set.empty) }
        ensures words { IfOk result (λ set. set.words ≡ count_for T.width 0 capacity) }
        ensures capacity { IfOk result (λ set. capacity ≤ capacity_of T.width set) }
        ensures zero_never_refused { capacity ≡ 0 → IsOk result }
    {
        let mut set = CompoundBitSet::new(alloc);
        set.try_ensure_capacity(capacity)?;
        Ok(set)
    }

    /// A copy with the same members and as many words. A refusal leaves nothing.
    pub fn try_clone(&self, alloc: Global) -> Result<CompoundBitSet<T>, OutOfMemory>
        ensures same { IfOk result (λ copy. copy ≡ self.now) }
    {
        let words = self.words.try_clone(alloc)?;
        let summary = self.summary.try_clone(alloc)?;
        let max = self.max;
        Ok(CompoundBitSet {
            words,
            summary,
            max,
        })
    }

    /// Makes room for the numbers below `n`, as `try_ensure_capacity` does.
    pub fn ensure_capacity(&mut self, n: usize) -> Result<(), OutOfMemory>
        requires within { n ≤ max_capacity }
        ensures room { MakesRoomFor (λ s. s.members) (capacity_of T.width) n
            self.old self.new result }
        ensures words { OnOk result (self.new.words ≡ count_for T.width self.old.words n) }
    {
        self.try_ensure_capacity(n)
    }

    /// Makes room for the numbers below `n`, at most `MAX_CAPACITY`. If there is room, it does nothing; else the count of words grows
    /// by the rule of growth for the word of `n - 1`. It is refused only if `n` is above the capacity, and then the set is as
    /// before, where the original loses the members.
    pub fn try_ensure_capacity(&mut self, n: usize) -> Result<(), OutOfMemory>
        requires within { n ≤ max_capacity }
        ensures room { MakesRoomFor (λ s. s.members) (capacity_of T.width) n
            self.old self.new result }
        ensures words { OnOk result (self.new.words ≡ count_for T.width self.old.words n) }
    {
        if n == 0 {
            return Ok(());
        }
        self.make_room_for(n - 1)
    }

    /// Puts `i`, at most `MAX_NUMBER`, in, and returns whether it is new. If `i` is at the capacity or above, the count of words
    /// grows first, by the rule of growth for the word of `i`. It is refused only then, and the set is as before.
    pub fn insert(&mut self, i: usize) -> Result<bool, OutOfMemory>
        requires number { i ≤ max_number }
        ensures new { IfOk result (λ is_new. is_new ≡ not (fin_set.contains self.old.members i)) }
        ensures members { OnOk result (self.new.members ≡ fin_set.insert self.old.members i) }
        ensures words { OnOk result (self.new.words ≡ count_after self.old.words (i / T.width)) }
        ensures never_refused_below { i < capacity_of T.width self.old → IsOk result }
        ensures words_kept_below { i < capacity_of T.width self.old
            → self.new.words ≡ self.old.words }
        ensures refused_only_beyond { OnErr result (capacity_of T.width self.old ≤ i) }
        ensures capacity_never_falls { capacity_of T.width self.old ≤ capacity_of T.width self.new }
        ensures refusal_leaves { OnErr result (self.new ≡ self.old) }
    {
        self.make_room_for(i)?;
        Ok(self.insert_below(i))
    }

    /// Takes `i` out, and returns whether it was there: `i` may be any number. It takes a few steps, and a few more per level of the
    /// summary if a word becomes empty, or if `i` is the maximum and the next one is searched for.
    pub fn remove(&mut self, i: usize) -> bool
        ensures present { result ≡ fin_set.contains self.old.members i }
        ensures members { self.new.members ≡ fin_set.remove self.old.members i }
        ensures words { self.new.words ≡ self.old.words }
        ensures below { IsTrue result → i < capacity_of T.width self.old }
        ensures number { IsTrue result → i ≤ max_number }
    {
        let was_present = remove_from(&mut self.words, &mut self.summary, i);
        if self.max == Some(i) {
            self.max = greatest_up_to_word(&self.words, &self.summary, i / T::width() as usize);
        }
        was_present
    }

    /// Takes the greatest member out and returns it, or `None` if there is none. It costs what `remove` does.
    pub fn pop(&mut self) -> Option<usize>
        ensures none { IsNone result ↔ (self.old.members ≡ fin_set.empty) }
        ensures none_leaves { IfNone result (self.new ≡ self.old) }
        ensures member { IfSome result (λ x. fin_set.contains self.old.members x ≡ true) }
        ensures greatest { IfSome result (λ x. (i : ℕ)
            → fin_set.contains self.old.members i ≡ true → i ≤ x) }
        ensures members { IfSome result (λ x.
            self.new.members ≡ fin_set.remove self.old.members x) }
        ensures words { self.new.words ≡ self.old.words }
        ensures below { IfSome result (λ x. x < capacity_of T.width self.old) }
        ensures number { IfSome result (λ x. x ≤ max_number) }
    {
        let max = self.max?;
        self.remove(max);
        Some(max)
    }

    /// Takes every member out. The words stay. It writes each word that has a member once, and each such word of each level of the
    /// summary.
    pub fn clear(&mut self)
        ensures members { self.new.members ≡ fin_set.empty }
        ensures words { self.new.words ≡ self.old.words }
    {
        if self.is_empty() {
            return;
        }
        clear_marked(&mut self.words, &mut self.summary);
        self.max = None;
    }

    /// Whether `i` is a member: `i` may be any number.
    pub fn contains(&self, i: usize) -> bool
        ensures member { result ≡ fin_set.contains self.now.members i }
        ensures below { IsTrue result → i < capacity_of T.width self.now }
        ensures number { IsTrue result → i ≤ max_number }
    {
        self.words.contains(i)
    }

    /// The greatest member, or `None` if there is none. It is the last item of a walk.
    pub fn max(&self) -> Option<usize>
        ensures none { IsNone result ↔ (self.now.members ≡ fin_set.empty) }
        ensures member { IfSome result (λ x. fin_set.contains self.now.members x ≡ true) }
        ensures greatest { IfSome result (λ x. (i : ℕ)
            → fin_set.contains self.now.members i ≡ true → i ≤ x) }
        ensures below { IfSome result (λ x. x < capacity_of T.width self.now) }
        ensures number { IfSome result (λ x. x ≤ max_number) }
        ensures last { result ≡ last_or None (rising self.now.members) }
    {
        self.max
    }

    /// The number of members. It counts each word that has a member by one instruction.
    pub fn len(&self) -> usize
        ensures len { result ≡ fin_set.len self.now.members }
        ensures few { result ≤ max_capacity }
    {
        let mut count = 0;
        for k in self.filled() {
            count += self.words.iter_word(k).count_left();
        }
        count
    }

    /// Whether there is no member.
    pub fn is_empty(&self) -> bool
        ensures empty { IsTrue result ↔ (self.now.members ≡ fin_set.empty) }
    {
        self.max.is_none()
    }

    /// The capacity: an `insert` of a number below it is never refused. Each member is below it.
    pub fn capacity(&self) -> usize
        ensures capacity { result ≡ capacity_of T.width self.now }
        ensures holds_all { (i : ℕ) → fin_set.contains self.now.members i ≡ true → i < result }
        ensures numbers { (i : ℕ) → fin_set.contains self.now.members i ≡ true → i ≤ max_number }
    {
        self.words.capacity()
    }

    /// The members, each once, ascending. A walk reads each word that has a member once, and a few words of the summary for each.
    pub fn iter(&self) -> Iter<'_, T>
        ensures members { result ≡ rising self.now.members }
        ensures each { fin_set.from_list result ≡ self.now.members }
        ensures once { IsStrictlyIncreasing result }
        ensures few { length result ≤ max_capacity }
        ensures below { All (λ i. i < capacity_of T.width self.now) result }
        ensures numbers { All (λ i. i ≤ max_number) result }
    {
        Iter::new(&self.words, self.filled())
    }

    /// The words from word 0 to that of the maximum, and none if there is no member: place `j` of word `k` stands for the
    /// number `k * width + j`.
    pub fn iter_scalars(&self) -> IterScalars<'_, T>
        ensures words { AreWords T.width self.now.members (map (λ s. T.number s.0) result) }
    {
        IterScalars::new(self.words.first_words(self.words_in_use()))
    }

    /// The members, ascending, as a vector. It reads each summary word and each word that has a member at most once, and counts
    /// these reads in `steps`, also if it is refused. It finds the summary words by the levels above them, whose reads, a few for
    /// each, it doesn't count.
    pub fn members<L: Ledger>(
        &self,
        alloc: Global,
        steps: &mut Steps<L>,
    ) -> Result<TryVec<usize>, OutOfMemory>
        ensures members { IfOk result (λ list. list.items ≡ rising self.now.members) }
        ensures looks { steps.new ≤ steps.old + div_ceil self.now.words T.width
            + fin_set.len (filled_words T.width self.now.members) }
    {
        let mut list = TryVec::new(alloc);
        for s in self.blocks() {
            self.push_block(s, &mut list, steps)?;
        }
        Ok(list)
    }

    // Asks for the word of `i`: the count of words becomes what the rule of growth says. It reserves the room of all levels of the
    // summary first, then that of the words, and changes none until it has all.
    fn make_room_for(&mut self, i: usize) -> Result<(), OutOfMemory>
        requires number { i ≤ max_number }
        ensures members { self.new.members ≡ self.old.members }
        ensures words { OnOk result (self.new.words ≡ count_after self.old.words (i / T.width)) }
        ensures room { OnOk result (i + 1 ≤ capacity_of T.width self.new) }
        ensures unchanged_below { i < capacity_of T.width self.old → self.new ≡ self.old }
        ensures refused_only_beyond { OnErr result (capacity_of T.width self.old ≤ i) }
        ensures refusal_leaves { OnErr result (self.new ≡ self.old) }
    {
        let word = i / T::width() as usize;
        let count = self.words.count();
        if word < count {
            return Ok(());
        }
        let grown = grown_count(count, word);
        self.summary.reserve(grown)?;
        self.words.reserve(grown)?;
        self.summary.grow(grown);
        self.words.grow(grown);
        Ok(())
    }

    // Puts `i`, which is below the capacity, in, and returns whether it is new.
    fn insert_below(&mut self, i: usize) -> bool
        requires within { i < capacity_of T.width self.old }
        requires number { i ≤ max_number }
        ensures new { result ≡ not (fin_set.contains self.old.members i) }
        ensures members { self.new.members ≡ fin_set.insert self.old.members i }
        ensures words { self.new.words ≡ self.old.words }
    {
        self.max = Some(greatest_with(self.max, i));
        insert_into(&mut self.words, &mut self.summary, i)
    }

    // A walk over the numbers of the words that have a member.
    fn filled(&self) -> Walk<'_, u128, UpperLevels>
        ensures { result ≡ rising (filled_words T.width self.now.members) }
    {
        self.summary.iter()
    }

    // A walk over the numbers of the summary words that have a member.
    fn blocks(&self) -> Walk<'_, u128, TopLevels>
        ensures blocks { result
            ≡ rising (filled_words summary_width (filled_words T.width self.now.members)) }
        ensures few { length result ≤ div_ceil self.now.words summary_width }
        ensures within { All (λ b. b < div_ceil self.now.words summary_width) result }
    {
        self.summary.blocks()
    }

    // The number of words up to that of the maximum.
    fn words_in_use(&self) -> usize
        ensures within { result ≤ self.now.words }
        ensures reach { EndsBefore T.width self.now.members result }
        ensures last { (k : ℕ) → k + 1 ≡ result → IsWordEmpty T.width self.now.members k → ⊥ }
    {
        match self.max {
            Some(max) => max / T::width() as usize + 1,
            None => 0,
        }
    }

    // Puts the members of all words of summary word `s` at the end of `list`: one read, and one per word.
    fn push_block<L: Ledger>(
        &self,
        s: usize,
        list: &mut TryVec<usize>,
        steps: &mut Steps<L>,
    ) -> Result<(), OutOfMemory>
        requires { s < div_ceil self.now.words summary_width }
        ensures members { OnOk result
            (list.new.items ≡ list.old.items ++ block_members T.width summary_width self.now.members s) }
        ensures looks { steps.new
            ≤ steps.old + 1 + length (block_words T.width summary_width self.now.members s) }
    {
        for k in self.summary.read(s, steps) {
            self.push_word(k, list, steps)?;
        }
        Ok(())
    }

    // Puts the members of word `k` at the end of `list`: one read.
    fn push_word<L: Ledger>(
        &self,
        k: usize,
        list: &mut TryVec<usize>,
        steps: &mut Steps<L>,
    ) -> Result<(), OutOfMemory>
        requires { k < self.now.words }
        ensures members { OnOk result
            (list.new.items ≡ list.old.items ++ word_members T.width self.now.members k) }
        ensures looks { steps.new ≡ steps.old + 1 }
    {
        for i in self.words.read(k, steps) {
            list.push(i)?;
        }
        Ok(())
    }
}

// The maximum once `i` is put into a set whose maximum is `max`.
fn greatest_with(max: Option<usize>, i: usize) -> usize
    ensures { (s : fin_set.FinSet nat_cmp) → IsMax s max → IsGreatest (fin_set.insert s i) result }
{
    match max {
        Some(max) => max.max(i),
        None => i,
    }
}

/// The members, ascending.
impl<'a, T: ScalarBitSetStorage> IntoIterator for &'a CompoundBitSet<T> {
    type Item = usize;

    type IntoIter = Iter<'a, T>;

    ghost into_iter_gives = { λ s it. it ≡ rising s.now.members };

    fn into_iter(self) -> Iter<'a, T> {
        self.iter()
    }
}
