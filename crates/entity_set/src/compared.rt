//! Equality and hash of sets, which go by the keys.
ghost use Rattle.std.specs.Prelude.{◌≡◌, ◌↔◌, nat_eq, IsTrue};
ghost use Rattle.std.specs.Cmp.{on_equiv, on_per, partial_equiv_from_equiv, unsigned_Decides};
ghost use Rattle.std.specs.Cmp.Lexicographic.{pointwise, nat_list_eq_equiv};
ghost use Rattle.std.specs.Hash as fed;
ghost use Rattle.std.specs.Hash.{on_Alike, items_Alike, same_Alike};
ghost use Rattle.wic_bitset.specs.Rising.{rising};

use crate::entity::EntityRef;
use crate::set::EntitySet;
use std::hash::{Hash, Hasher};

/// Two sets are equal exactly if they have the same keys, whatever room they have. It compares which words have a key, and then
/// each of these words.
impl<K: EntityRef> PartialEq for EntitySet<K> {
    ghost eq = { λ s t. pointwise nat_eq (rising s.members) (rising t.members) };

    ghost laws = { on_per (λ s. rising s.members) (partial_equiv_from_equiv nat_list_eq_equiv) };

    fn eq(&self, other: &EntitySet<K>) -> bool
        ensures value { result
            ≡ pointwise nat_eq (rising self.now.members) (rising other.now.members) }
        ensures members { IsTrue result ↔ (self.now.members ≡ other.now.members) }
    {
        self.bits == other.bits
    }
}

impl<K: EntityRef> Eq for EntitySet<K> {
    ghost laws = { on_equiv (λ s. rising s.members) nat_list_eq_equiv };
}

/// The number of keys, and then the number of each, ascending: sets that are equal hash alike. It reads the words that have a key
/// twice, and visits each key.
impl<K: EntityRef> Hash for EntitySet<K> {
    ghost hash_input = { λ s. fed.slice fed.usize (rising s.members) };

    ghost respects_eq = { (on_Alike (λ s. rising s.members)
        (items_Alike (same_Alike {E = nat_eq} fed.usize unsigned_Decides))).fed };

    fn hash<H: Hasher>(&self, state: &mut H) {
        self.bits.hash(state);
    }
}
