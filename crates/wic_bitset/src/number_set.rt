//! Sets of numbers below an end, which have room for an end further on.
ghost use Rattle.std.specs.Prelude.{◌≡◌, ◌↔◌, ◌<◌, ◌≤◌, ℕ, IsTrue, IsOk, OnOk, IfOk};
ghost use Rattle.std.specs.FinSet as fin_set;
ghost use Rattle.std.specs.Ordering.{nat_cmp};
ghost use Rattle.wic_bitset.specs.From.{IsMinFrom};
ghost use Rattle.wic_bitset.specs.Greatest.{IsMax, IsNoneAbove};
ghost use Rattle.wic_bitset.specs.Words.{most_words};
ghost use Rattle.wic_bitset.specs.Compound.{max_number};

use std::alloc::Global;
use wic_base::OutOfMemory;

/// A set of numbers below an end, which has room for an end further on.
///
/// What a set needs of its summary: `Store` is one, which scans its words, and `Summarized` is one over any other.
pub trait NumberSet: Drop {
    /// The members.
    ghost members: { Self → fin_set.FinSet nat_cmp };

    /// Each number below it may be put in.
    ghost end: { Self → ℕ };

    /// How far the end can be put with no request for memory.
    ghost room: { Self → ℕ };

    /// No members, and the end 0. It allocates nothing.
    fn new(alloc: Global) -> Self
        ensures members { members result ≡ fin_set.empty }
        ensures end { end result ≡ 0 };

    /// The same members and the same end.
    fn try_clone(&self, alloc: Global) -> Result<Self, OutOfMemory>
        ensures members { IfOk result (λ copy. members copy ≡ members self.now) }
        ensures end { IfOk result (λ copy. end copy ≡ end self.now) };

    /// Puts `i` in.
    fn insert(&mut self, i: usize)
        requires within { i < end self.old }
        requires number { i ≤ max_number }
        ensures members { members self.new ≡ fin_set.insert (members self.old) i }
        ensures end { end self.new ≡ end self.old }
        ensures room { room self.new ≡ room self.old };

    /// Takes `i`, any number, out.
    fn remove(&mut self, i: usize)
        ensures members { members self.new ≡ fin_set.remove (members self.old) i }
        ensures end { end self.new ≡ end self.old }
        ensures room { room self.new ≡ room self.old };

    /// Takes every member out.
    fn clear(&mut self)
        ensures members { members self.new ≡ fin_set.empty }
        ensures end { end self.new ≡ end self.old }
        ensures room { room self.new ≡ room self.old };

    /// The greatest member, or `None` if there is none.
    fn greatest(&self) -> Option<usize>
        ensures { IsMax (members self.now) result };

    /// The same, where no member is above `i`: it looks near `i` first.
    fn greatest_up_to(&self, i: usize) -> Option<usize>
        requires within { i < end self.now }
        requires none_above { IsNoneAbove (members self.now) i }
        ensures { IsMax (members self.now) result };

    /// The least member from `i` on, or `None` if there is none: `i` may be any number.
    fn least_from(&self, i: usize) -> Option<usize>
        ensures { IsMinFrom (members self.now) i result };

    /// Whether the two have the same members.
    fn is_same(&self, other: &Self) -> bool
        ensures { IsTrue result ↔ (members self.now ≡ members other.now) };

    /// Asks for the room of the end `n`. After a refusal there may be more room than before.
    fn reserve(&mut self, n: usize) -> Result<(), OutOfMemory>
        requires few { n ≤ most_words }
        ensures members { members self.new ≡ members self.old }
        ensures end { end self.new ≡ end self.old }
        ensures enough { OnOk result (n ≤ room self.new) }
        ensures never_falls { room self.old ≤ room self.new }
        ensures never_refused_within { n ≤ room self.old → IsOk result };

    /// Puts the end to `n` or further on, for which there is room.
    fn grow(&mut self, n: usize)
        requires within { n ≤ room self.old }
        requires few { n ≤ most_words }
        ensures members { members self.new ≡ members self.old }
        ensures end { n ≤ end self.new }
        ensures never_falls { end self.old ≤ end self.new }
        ensures room { room self.new ≡ room self.old };
}
