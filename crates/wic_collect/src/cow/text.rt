//! Texts that are borrowed until they have to be owned: their characters, and comparisons by them.
ghost use Rattle.std.specs.Prelude.{◌≡◌, refl, Some, nat_eq};
ghost use Rattle.std.specs.Ordering.{nat_cmp};
ghost use Rattle.std.specs.Cmp.{on_equiv, on_total, on_po, on_per, partial_equiv_from_equiv};
ghost use Rattle.std.specs.Cmp.Lexicographic.{pointwise, slice_cmp, nat_list_eq_equiv, nat_list_cmp_total, texts_ties, texts_po};
ghost use Rattle.std.specs.Hash as fed;
ghost use Rattle.wic_collect.specs.Cow.{cow_bytes};

use super::TryCowOf;
use std::cmp::Ordering;
use std::hash::{Hash, Hasher};
use wic_vec::TryString;

impl<'a> TryCowOf<&'a str, TryString> {
    /// The text in place, be it borrowed or owned.
    ///
    /// A port of `TryCow::deref` to a text.
    pub fn as_str(&self) -> &str
        ensures content { result.now ≡ cow_bytes self.now }
    {
        match self {
            TryCowOf::Borrowed(text) => text,
            TryCowOf::Owned(text) => text.as_str(),
        }
    }
}

impl<'a> PartialEq for TryCowOf<&'a str, TryString> {
    ghost eq = { λ c d. pointwise nat_eq (cow_bytes c) (cow_bytes d) };

    ghost laws = { on_per cow_bytes (partial_equiv_from_equiv nat_list_eq_equiv) };

    fn eq(&self, other: &Self) -> bool {
        self.as_str() == other.as_str()
    }
}

impl<'a> Eq for TryCowOf<&'a str, TryString> {
    ghost laws = { on_equiv cow_bytes nat_list_eq_equiv };
}

impl<'a> PartialOrd for TryCowOf<&'a str, TryString> {
    ghost partial_cmp = { λ c d. Some (slice_cmp nat_cmp (cow_bytes c) (cow_bytes d)) };

    ghost laws = { on_po cow_bytes texts_po };

    fn partial_cmp(&self, other: &Self) -> Option<Ordering> {
        Some(self.cmp(other))
    }
}

impl<'a> Ord for TryCowOf<&'a str, TryString> {
    ghost cmp = { λ c d. slice_cmp nat_cmp (cow_bytes c) (cow_bytes d) };

    ghost total = { on_total cow_bytes nat_list_cmp_total };

    ghost matches_partial_cmp = { λ c d. refl };

    ghost matches_eq = { λ c d. texts_ties (cow_bytes c) (cow_bytes d) };

    fn cmp(&self, other: &Self) -> Ordering {
        self.as_str().cmp(other.as_str())
    }
}

impl<'a> Hash for TryCowOf<&'a str, TryString> {
    ghost use Rattle.std.specs.Cmp.Rules.{hashing};
    ghost use Rattle.std.proofs.Common.{rules};

    ghost hash_input = { λ c. fed.str (cow_bytes c) };

    ghost respects_eq = { Prim.search (hashing, rules) };

    fn hash<H: Hasher>(&self, state: &mut H) {
        self.as_str().hash(state);
    }
}
