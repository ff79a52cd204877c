//! Calls on two sets, a word at a time, and only words that have a member.
ghost use Rattle.std.specs.Prelude.{◌≡◌, ℕ, ◌/◌, ◌<◌, ◌≤◌, ◌↔◌, true, false, IsTrue, IsOk, OnOk, OnErr, IfOk};
ghost use Rattle.std.specs.FinSet as fin_set;
ghost use Rattle.wic_bitset.specs.Combination.{combined, HasWordsFor, TellsChange};
ghost use Rattle.wic_base.specs.Sets.{AllBelow, HasFrom, HasMore};
ghost use Rattle.wic_bitset.specs.Compound.{capacity_of};
ghost use Rattle.wic_base.specs.Sets.{IsGreatest};
ghost use Rattle.wic_bitset.specs.Growth.{count_after};

use super::CompoundBitSet;
use crate::combination::Combination;
use crate::marked::{combine_marked, greatest_marked, keeps_none_marked, same_marked};
use wic_base::OutOfMemory;
use wic_scalar::ScalarBitSetStorage;

impl<T: ScalarBitSetStorage> CompoundBitSet<T> {
    /// Puts the members of `other` in, and returns whether one of them is new. If the maximum of `other` is at the capacity or
    /// above, the count of words grows first, by the rule of growth for its word. It is refused only then, and the set is as
    /// before. It visits each word of `other` that has a member, with a few steps per level of the summary for it.
    pub fn union_with(&mut self, other: &CompoundBitSet<T>) -> Result<bool, OutOfMemory>
        ensures members { OnOk result
            (self.new.members ≡ fin_set.union self.old.members other.now.members) }
        ensures added { IfOk result (λ added.
            IsTrue added ↔ HasMore self.old.members self.new.members) }
        ensures as_before { IfOk result (λ added.
            (added ≡ false) ↔ (self.new.members ≡ self.old.members)) }
        ensures words { OnOk result ((x : ℕ) → IsGreatest other.now.members x
            → self.new.words ≡ count_after self.old.words (x / T.width)) }
        ensures never_refused_within { AllBelow (capacity_of T.width self.old) other.now.members
            → IsOk result }
        ensures words_kept_within { AllBelow (capacity_of T.width self.old) other.now.members
            → self.new.words ≡ self.old.words }
        ensures refused_only_beyond { OnErr result
            (HasFrom (capacity_of T.width self.old) other.now.members) }
        ensures capacity_never_falls { capacity_of T.width self.old ≤ capacity_of T.width self.new }
        ensures refusal_leaves { OnErr result (self.new ≡ self.old) }
    {
        if let Some(max) = other.max {
            self.make_room_for(max)?;
        }
        Ok(self.combine(other, Combination::Union))
    }

    /// Takes the members out that `other` hasn't, and returns whether there was one. It visits each word of this set that
    /// has a member, with a few steps per level of the summary for it.
    pub fn intersect_with(&mut self, other: &CompoundBitSet<T>) -> bool
        ensures members { self.new.members
            ≡ fin_set.intersection self.old.members other.now.members }
        ensures dropped { IsTrue result ↔ HasMore self.new.members self.old.members }
        ensures as_before { (result ≡ false) ↔ (self.new.members ≡ self.old.members) }
        ensures words { self.new.words ≡ self.old.words }
    {
        self.combine(other, Combination::Intersection)
    }

    /// Takes the members out that `other` has, and returns whether there was one. It visits each word of this set that has
    /// a member, with a few steps per level of the summary for it.
    pub fn subtract(&mut self, other: &CompoundBitSet<T>) -> bool
        ensures members { self.new.members ≡ fin_set.difference self.old.members other.now.members }
        ensures dropped { IsTrue result ↔ HasMore self.new.members self.old.members }
        ensures as_before { (result ≡ false) ↔ (self.new.members ≡ self.old.members) }
        ensures words { self.new.words ≡ self.old.words }
    {
        self.combine(other, Combination::Difference)
    }

    /// Whether `other` has all members. It visits each word of this set that has a member, up to that of the first member that
    /// `other` lacks, with a few steps per level of the summary for it.
    pub fn is_subset(&self, other: &CompoundBitSet<T>) -> bool
        ensures { result ≡ fin_set.is_subset self.now.members other.now.members }
    {
        keeps_none_marked(
            &self.words,
            &self.summary,
            &other.words,
            Combination::Difference,
        )
    }

    /// Whether the two have no member in common. It visits each word of this set that has a member, up to that of the first
    /// member that both have, with a few steps per level of the summary for it.
    pub fn is_disjoint(&self, other: &CompoundBitSet<T>) -> bool
        ensures { IsTrue result
            ↔ (fin_set.intersection self.now.members other.now.members ≡ fin_set.empty) }
    {
        keeps_none_marked(
            &self.words,
            &self.summary,
            &other.words,
            Combination::Intersection,
        )
    }

    // Whether the two have the same members. It compares the levels of the summaries first, and then each word that has
    // a member.
    pub(crate) fn has_same_members(&self, other: &CompoundBitSet<T>) -> bool
        ensures { IsTrue result ↔ (self.now.members ≡ other.now.members) }
    {
        same_marked(&self.words, &self.summary, &other.words, &other.summary)
    }

    // Becomes what `how` makes of it and `other`, and returns whether a member came or went.
    fn combine(&mut self, other: &CompoundBitSet<T>, how: Combination) -> bool
        requires { HasWordsFor T.width how other.now.members self.old.words }
        ensures members { (i : ℕ) → fin_set.contains self.new.members i
            ≡ combined how (fin_set.contains self.old.members i)
            (fin_set.contains other.now.members i) }
        ensures changed { TellsChange result self.old.members self.new.members }
        ensures words { self.new.words ≡ self.old.words }
    {
        let changed = combine_marked(
            &mut self.words,
            &mut self.summary,
            &other.words,
            &other.summary,
            how,
        );
        if changed {
            self.max = greatest_marked(&self.words, &self.summary);
        }
        changed
    }
}
