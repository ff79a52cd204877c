//! Slices that are borrowed until they have to be owned: their elements, and comparisons by them.
ghost use Rattle.std.specs.Prelude.{◌≡◌};
ghost use Rattle.std.specs.Cmp.{on_equiv, on_total, on_po, on_per};
ghost use Rattle.std.specs.Cmp.Lexicographic.{pointwise, slice_cmp, slice_partial_cmp, lists_per, lists_equiv, lists_po};
ghost use Rattle.std.specs.Cmp.Lexicographic.{lists_total, lists_agrees, lists_ties};
ghost use Rattle.std.specs.Hash as fed;
ghost use Rattle.std.specs.Hash.{on_Alike, items_Alike};
ghost use Rattle.wic_collect.specs.Cow.{cow_items};

use super::TryCowOf;
use std::cmp::Ordering;
use std::hash::{Hash, Hasher};
use wic_vec::TryVec;

impl<'a, T> TryCowOf<&'a [T], TryVec<T>> {
    /// The elements in place, be they borrowed or owned.
    ///
    /// A port of `TryCow::deref` to a slice.
    pub fn as_slice(&self) -> &[T]
        ensures content { result.now ≡ cow_items self.now }
    {
        match self {
            TryCowOf::Borrowed(items) => items,
            TryCowOf::Owned(items) => items.as_slice(),
        }
    }
}

impl<'a, T: PartialEq> PartialEq for TryCowOf<&'a [T], TryVec<T>> {
    ghost eq = { λ c d. pointwise T.eq (cow_items c) (cow_items d) };

    ghost laws = { on_per cow_items (lists_per T.laws) };

    fn eq(&self, other: &Self) -> bool {
        self.as_slice() == other.as_slice()
    }
}

impl<'a, T: Eq> Eq for TryCowOf<&'a [T], TryVec<T>> {
    ghost laws = { on_equiv cow_items (lists_equiv T.Eq.laws) };
}

impl<'a, T: PartialOrd> PartialOrd for TryCowOf<&'a [T], TryVec<T>> {
    ghost partial_cmp = { λ c d. slice_partial_cmp T.partial_cmp (cow_items c) (cow_items d) };

    ghost laws = { on_po cow_items (lists_po T.PartialOrd.laws) };

    fn partial_cmp(&self, other: &Self) -> Option<Ordering> {
        self.as_slice().partial_cmp(&other.as_slice())
    }
}

impl<'a, T: Ord> Ord for TryCowOf<&'a [T], TryVec<T>> {
    ghost cmp = { λ c d. slice_cmp T.cmp (cow_items c) (cow_items d) };

    ghost total = { on_total cow_items (lists_total T.total) };

    ghost matches_partial_cmp = { λ c d.
        lists_agrees T.matches_partial_cmp (cow_items c) (cow_items d) };

    ghost matches_eq = { λ c d. lists_ties T.cmp T.matches_eq (cow_items c) (cow_items d) };

    fn cmp(&self, other: &Self) -> Ordering {
        self.as_slice().cmp(&other.as_slice())
    }
}

impl<'a, T: Hash> Hash for TryCowOf<&'a [T], TryVec<T>> {
    ghost hash_input = { λ c. fed.slice T.hash_input (cow_items c) };

    ghost respects_eq = { (on_Alike cow_items (items_Alike (record { fed = T.respects_eq }))).fed };

    fn hash<H: Hasher>(&self, state: &mut H) {
        self.as_slice().hash(state);
    }
}
