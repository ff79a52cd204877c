//! A set of small numbers in one integer.
ghost use Rattle.std.specs.Prelude.{◌≡◌, ◌==◌, ◌↔◌, ◌+◌, ◌-◌, ◌<◌, ◌≤◌, nat_eq, true};
ghost use Rattle.std.specs.Prelude.{not, if◌then◌else◌, IsTrue, IsNone, IfNone, IfSome, None, All};
ghost use Rattle.std.specs.List.{last_or, range_with_len, slice_get};
ghost use Rattle.std.specs.List.Sorted.{IsStrictlyIncreasing};
ghost use Rattle.std.specs.Cmp.{on_equiv, on_per, partial_equiv_from_equiv};
ghost use Rattle.std.specs.Cmp.Lexicographic.{pointwise, nat_list_eq_equiv};
ghost use Rattle.std.specs.Ordering.{on};
ghost use Rattle.std.specs.FinSet as fin_set;
ghost use Rattle.wic_base.specs.Sets.{IsGreatest, IsLeast};
ghost use Rattle.wic_scalar.specs.Scalar.{members_of, set_of};

use crate::iter::Iter;
use crate::storage::ScalarBitSetStorage;

/// A set of numbers below the width of `T`: the places of the digits 1 of an integer in base two.
/// A clause sees it as the finite set `set_of`, and a walk as the ascending list of its members, `members_of`.
/// Each call takes a few instructions.
#[derive(Clone, Copy)]
pub struct ScalarBitSet<T>(pub T);

impl<T: ScalarBitSetStorage> ScalarBitSet<T> {
    /// The empty set.
    #[inline]
    pub fn new() -> Self
        ensures { set_of T.width (T.number result.0) ≡ fin_set.empty }
    {
        Self(T::zero())
    }

    /// The numbers from `lo` to below `hi`: none if the two are equal, at the full width too, where the original overflows a shift.
    #[inline]
    pub fn from_range(lo: u8, hi: u8) -> Self
        requires ordered { lo ≤ hi }
        requires within { hi ≤ T.width }
        ensures set { set_of T.width (T.number result.0)
            ≡ fin_set.from_list (range_with_len lo (hi - lo)) }
        ensures count { fin_set.len (set_of T.width (T.number result.0)) ≡ hi - lo }
    {
        Self(T::below(hi).bit_and(T::below(lo).bit_not()))
    }

    /// The width of `T`: each member is below it.
    #[inline]
    pub fn capacity() -> u8
        ensures width { result ≡ T.width }
        ensures positive { 0 < result }
    {
        T::width()
    }

    /// The number of members.
    #[inline]
    pub fn len(&self) -> u8
        ensures count { result ≡ fin_set.len (set_of T.width (T.number self.now.0)) }
        ensures within { result ≤ T.width }
    {
        self.0.count_ones()
    }

    /// Whether there is no member.
    #[inline]
    pub fn is_empty(&self) -> bool
        ensures { IsTrue result ↔ (set_of T.width (T.number self.now.0) ≡ fin_set.empty) }
    {
        self.0.is_equal(T::zero())
    }

    /// Whether `i` is a member. `i` must be below `capacity()`.
    #[inline]
    pub fn contains(&self, i: u8) -> bool
        requires { i < T.width }
        ensures { result ≡ fin_set.contains (set_of T.width (T.number self.now.0)) i }
    {
        !self.0.bit_and(T::bit(i)).is_equal(T::zero())
    }

    /// Puts `i` in, and returns whether it is new. `i` must be below `capacity()`.
    #[inline]
    pub fn insert(&mut self, i: u8) -> bool
        requires { i < T.width }
        ensures new { result ≡ not (fin_set.contains (set_of T.width (T.number self.old.0)) i) }
        ensures set { set_of T.width (T.number self.new.0)
            ≡ fin_set.insert (set_of T.width (T.number self.old.0)) i }
        ensures count { fin_set.len (set_of T.width (T.number self.new.0))
            ≡ fin_set.len (set_of T.width (T.number self.old.0)) + (if result then 1 else 0) }
    {
        if self.contains(i) {
            return false;
        }
        self.0 = self.0.bit_or(T::bit(i));
        true
    }

    /// Takes `i` out, and returns whether it was there. `i` must be below `capacity()`.
    #[inline]
    pub fn remove(&mut self, i: u8) -> bool
        requires { i < T.width }
        ensures present { result ≡ fin_set.contains (set_of T.width (T.number self.old.0)) i }
        ensures set { set_of T.width (T.number self.new.0)
            ≡ fin_set.remove (set_of T.width (T.number self.old.0)) i }
        ensures count { fin_set.len (set_of T.width (T.number self.new.0))
            + (if result then 1 else 0) ≡ fin_set.len (set_of T.width (T.number self.old.0)) }
    {
        if !self.contains(i) {
            return false;
        }
        self.take_out(i);
        true
    }

    // Takes `i` out, and doesn't look whether it was there.
    #[inline]
    fn take_out(&mut self, i: u8)
        requires { i < T.width }
        ensures { set_of T.width (T.number self.new.0)
            ≡ fin_set.remove (set_of T.width (T.number self.old.0)) i }
    {
        self.0 = self.0.bit_and(T::bit(i).bit_not());
    }

    /// Takes every member out.
    #[inline]
    pub fn clear(&mut self)
        ensures { set_of T.width (T.number self.new.0) ≡ fin_set.empty }
    {
        self.0 = T::zero();
    }

    /// Takes the least member out and returns it, or `None` if there is none.
    #[inline]
    #[tactic(auto, using(crate::proofs::MemberFacts::least_taken_out))]
    pub fn pop_min(&mut self) -> Option<u8>
        ensures none { IsNone result ↔ (set_of T.width (T.number self.old.0) ≡ fin_set.empty) }
        ensures stays { IfNone result (self.new ≡ self.old) }
        ensures within { IfSome result (λ x. x < T.width) }
        ensures least { IfSome result (IsLeast (set_of T.width (T.number self.old.0))) }
        ensures set { IfSome result (λ x. set_of T.width (T.number self.new.0)
            ≡ fin_set.remove (set_of T.width (T.number self.old.0)) x) }
    {
        match self.min() {
            Some(least) => {
                self.0 = self.0.without_lowest();
                Some(least)
            }
            None => None,
        }
    }

    /// Takes the greatest member out and returns it, or `None` if there is none.
    #[inline]
    pub fn pop_max(&mut self) -> Option<u8>
        ensures none { IsNone result ↔ (set_of T.width (T.number self.old.0) ≡ fin_set.empty) }
        ensures stays { IfNone result (self.new ≡ self.old) }
        ensures within { IfSome result (λ x. x < T.width) }
        ensures greatest { IfSome result (IsGreatest (set_of T.width (T.number self.old.0))) }
        ensures set { IfSome result (λ x. set_of T.width (T.number self.new.0)
            ≡ fin_set.remove (set_of T.width (T.number self.old.0)) x) }
    {
        match self.max() {
            Some(most) => {
                self.take_out(most);
                Some(most)
            }
            None => None,
        }
    }

    /// The least member, or `None` if there is none. It is the first item of a walk.
    #[inline]
    pub fn min(&self) -> Option<u8>
        ensures none { IsNone result ↔ (set_of T.width (T.number self.now.0) ≡ fin_set.empty) }
        ensures within { IfSome result (λ x. x < T.width) }
        ensures least { IfSome result (IsLeast (set_of T.width (T.number self.now.0))) }
        ensures first { result ≡ slice_get (members_of T.width (T.number self.now.0)) 0 }
    {
        if self.is_empty() {
            None
        } else {
            Some(self.0.trailing_zeros())
        }
    }

    /// The greatest member, or `None` if there is none. It is the last item of a walk.
    #[inline]
    pub fn max(&self) -> Option<u8>
        ensures none { IsNone result ↔ (set_of T.width (T.number self.now.0) ≡ fin_set.empty) }
        ensures within { IfSome result (λ x. x < T.width) }
        ensures greatest { IfSome result (IsGreatest (set_of T.width (T.number self.now.0))) }
        ensures last { result ≡ last_or None (members_of T.width (T.number self.now.0)) }
    {
        if self.is_empty() {
            None
        } else {
            Some(Self::capacity() - self.0.leading_zeros() - 1)
        }
    }

    /// The members, each once, ascending, from either end.
    #[inline]
    pub fn iter(self) -> Iter<T>
        ensures members { result ≡ members_of T.width (T.number self.0) }
        ensures within { All (λ k. k < T.width) result }
        ensures rising { IsStrictlyIncreasing result }
    {
        Iter { bitset: self }
    }
}

/// The empty set.
impl<T: ScalarBitSetStorage> Default for ScalarBitSet<T> {
    ghost is_default = { λ s. set_of T.width (T.number s.0) ≡ fin_set.empty };

    #[inline]
    fn default() -> Self {
        Self::new()
    }
}

/// Two sets are equal exactly if they have the same members.
impl<T: ScalarBitSetStorage> PartialEq for ScalarBitSet<T> {
    ghost eq = { on (λ s. members_of T.width (T.number s.0)) (pointwise nat_eq) };

    ghost laws = { on_per (λ s. members_of T.width (T.number s.0)) (partial_equiv_from_equiv nat_list_eq_equiv) };

    #[inline]
    fn eq(&self, other: &Self) -> bool
        ensures value { result ≡ pointwise nat_eq (members_of T.width (T.number self.now.0))
            (members_of T.width (T.number other.now.0)) }
        ensures members { IsTrue result
            ↔ (set_of T.width (T.number self.now.0) ≡ set_of T.width (T.number other.now.0)) }
    {
        self.0.is_equal(other.0)
    }
}

impl<T: ScalarBitSetStorage> Eq for ScalarBitSet<T> {
    ghost laws = { on_equiv (λ s. members_of T.width (T.number s.0)) nat_list_eq_equiv };
}

/// The places of the digits 1 of an integer.
impl<T: ScalarBitSetStorage> From<T> for ScalarBitSet<T> {
    ghost from_gives = { λ bits s. s.0 ≡ bits };

    #[inline]
    fn from(bits: T) -> Self {
        Self(bits)
    }
}

/// The members, ascending.
impl<T: ScalarBitSetStorage> IntoIterator for ScalarBitSet<T> {
    type Item = u8;

    type IntoIter = Iter<T>;

    ghost into_iter_gives = { λ s it. it ≡ members_of T.width (T.number s.0) };

    #[inline]
    fn into_iter(self) -> Iter<T> {
        self.iter()
    }
}

/// The members, ascending.
impl<'a, T: ScalarBitSetStorage> IntoIterator for &'a ScalarBitSet<T> {
    type Item = u8;

    type IntoIter = Iter<T>;

    ghost into_iter_gives = { λ s it. it ≡ members_of T.width (T.number s.now.0) };

    #[inline]
    fn into_iter(self) -> Iter<T> {
        self.iter()
    }
}
