//! Values that are borrowed until they have to be owned: their content, and comparisons by it.
ghost use Rattle.std.specs.Prelude.{◌≡◌};
ghost use Rattle.std.specs.Cmp.{on_equiv, on_total, on_po, on_per};
ghost use Rattle.wic_collect.specs.Cow.{cow_value};

use super::TryCowOf;
use std::cmp::Ordering;
use std::hash::{Hash, Hasher};

impl<'a, B> TryCowOf<&'a B, B> {
    /// The value in place, be it borrowed or owned.
    ///
    /// A port of `TryCow::deref`.
    pub fn get(&self) -> &B
        ensures content { result.now ≡ cow_value self.now }
    {
        match self {
            TryCowOf::Borrowed(value) => value,
            TryCowOf::Owned(value) => value,
        }
    }
}

impl<'a, B: PartialEq> PartialEq for TryCowOf<&'a B, B> {
    ghost eq = { λ c d. B.eq (cow_value c) (cow_value d) };

    ghost laws = { on_per cow_value B.laws };

    fn eq(&self, other: &Self) -> bool {
        *self.get() == *other.get()
    }
}

impl<'a, B: Eq> Eq for TryCowOf<&'a B, B> {
    ghost laws = { on_equiv cow_value B.Eq.laws };
}

impl<'a, B: PartialOrd> PartialOrd for TryCowOf<&'a B, B> {
    ghost partial_cmp = { λ c d. B.partial_cmp (cow_value c) (cow_value d) };

    ghost laws = { on_po cow_value B.PartialOrd.laws };

    fn partial_cmp(&self, other: &Self) -> Option<Ordering> {
        self.get().partial_cmp(other.get())
    }
}

impl<'a, B: Ord> Ord for TryCowOf<&'a B, B> {
    ghost cmp = { λ c d. B.cmp (cow_value c) (cow_value d) };

    ghost total = { on_total cow_value B.total };

    ghost matches_partial_cmp = { λ c d. B.matches_partial_cmp (cow_value c) (cow_value d) };

    ghost matches_eq = { λ c d. B.matches_eq (cow_value c) (cow_value d) };

    fn cmp(&self, other: &Self) -> Ordering {
        self.get().cmp(other.get())
    }
}

impl<'a, B: Hash> Hash for TryCowOf<&'a B, B> {
    ghost hash_input = { λ c. B.hash_input (cow_value c) };

    ghost respects_eq = { λ c d. B.respects_eq (cow_value c) (cow_value d) };

    fn hash<H: Hasher>(&self, state: &mut H) {
        self.get().hash(state);
    }
}
