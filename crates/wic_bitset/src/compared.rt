//! Equality and hash of sets, which go by the members, and their debug text.
ghost use Rattle.std.specs.Prelude.{◌≡◌, ◌==◌, ◌↔◌, ℕ, nat_eq, IsTrue};
ghost use Rattle.std.specs.Cmp.{on_equiv, on_per, partial_equiv_from_equiv, unsigned_Decides};
ghost use Rattle.std.specs.Cmp.Lexicographic.{pointwise, nat_list_eq_equiv};
ghost use Rattle.std.specs.Hash as fed;
ghost use Rattle.std.specs.Hash.{on_Alike, items_Alike, same_Alike};
ghost use Rattle.wic_bitset.specs.Rising.{rising};

use crate::set::CompoundBitSet;
use std::fmt;
use std::hash::{Hash, Hasher};
use wic_scalar::ScalarBitSetStorage;

/// Two sets are equal exactly if they have the same members, whatever room they have. It compares the levels of the summary
/// first, from the last on, and then each word that has a member. The original compares all words, also those beyond.
impl<T: ScalarBitSetStorage> PartialEq for CompoundBitSet<T> {
    ghost eq = { λ s t. pointwise nat_eq (rising s.members) (rising t.members) };

    ghost laws = { on_per (λ s. rising s.members) (partial_equiv_from_equiv nat_list_eq_equiv) };

    fn eq(&self, other: &CompoundBitSet<T>) -> bool
        ensures value { result
            ≡ pointwise nat_eq (rising self.now.members) (rising other.now.members) }
        ensures members { IsTrue result ↔ (self.now.members ≡ other.now.members) }
    {
        self.has_same_members(other)
    }
}

impl<T: ScalarBitSetStorage> Eq for CompoundBitSet<T> {
    ghost laws = { on_equiv (λ s. rising s.members) nat_list_eq_equiv };
}

/// The number of members, and then each of them, ascending, each as a `usize`: sets that are equal hash alike. It reads the words
/// that have a member twice, and visits each member.
impl<T: ScalarBitSetStorage> Hash for CompoundBitSet<T> {
    ghost hash_input = { λ s. fed.slice fed.usize (rising s.members) };

    ghost respects_eq = { (on_Alike (λ s. rising s.members) (items_Alike (same_Alike {E = nat_eq} fed.usize unsigned_Decides))).fed };

    fn hash<H: Hasher>(&self, state: &mut H) {
        state.write_usize(self.len());
        for x in self {
            x.hash(state);
        }
    }
}

/// The members in braces after the type's name, as in `CompoundBitSet {444, 555}`.
///
/// A port of `impl Debug for CompoundBitSet`.
impl<T: ScalarBitSetStorage> fmt::Debug for CompoundBitSet<T> {
    fn fmt<W: fmt::Write>(&self, f: &mut fmt::Formatter<W>) -> fmt::Result {
        f.write_str("CompoundBitSet ")?;
        f.debug_set().entries(self.iter()).finish()
    }
}
