//! Comparisons, hashes and printed forms of texts, which are those of their characters.
ghost use Rattle.std.specs.Prelude.{refl, Some, nat_eq};
ghost use Rattle.std.specs.Ordering.{nat_cmp};
ghost use Rattle.std.specs.Cmp.{on_equiv, on_total, on_po, on_per, partial_equiv_from_equiv};
ghost use Rattle.std.specs.Cmp.Lexicographic.{pointwise, slice_cmp, nat_list_eq_equiv, nat_list_cmp_total, texts_ties, texts_po};
ghost use Rattle.std.specs.Hash as fed;

use super::TryString;
use std::cmp::Ordering;
use std::fmt;
use std::hash::{Hash, Hasher};

impl PartialEq for TryString {
    ghost eq = { λ a b. pointwise nat_eq a.bytes b.bytes };

    ghost laws = { on_per (λ s. s.bytes) (partial_equiv_from_equiv nat_list_eq_equiv) };

    fn eq(&self, other: &TryString) -> bool {
        self.as_str() == other.as_str()
    }
}

impl Eq for TryString {
    ghost laws = { on_equiv (λ s. s.bytes) nat_list_eq_equiv };
}

impl PartialOrd for TryString {
    ghost partial_cmp = { λ a b. Some (slice_cmp nat_cmp a.bytes b.bytes) };

    ghost laws = { on_po (λ s. s.bytes) texts_po };

    fn partial_cmp(&self, other: &TryString) -> Option<Ordering> {
        Some(self.cmp(other))
    }
}

impl Ord for TryString {
    ghost cmp = { λ a b. slice_cmp nat_cmp a.bytes b.bytes };

    ghost total = { on_total (λ s. s.bytes) nat_list_cmp_total };

    ghost matches_partial_cmp = { λ a b. refl };

    ghost matches_eq = { λ a b. texts_ties a.bytes b.bytes };

    fn cmp(&self, other: &TryString) -> Ordering {
        self.as_str().cmp(other.as_str())
    }
}

impl Hash for TryString {
    ghost use Rattle.std.specs.Cmp.Rules.{hashing};
    ghost use Rattle.std.proofs.Common.{rules};

    ghost hash_input = { λ s. fed.str s.bytes };

    ghost respects_eq = { Prim.search (hashing, rules) };

    fn hash<H: Hasher>(&self, state: &mut H) {
        self.as_str().hash(state);
    }
}

/// Prints the text.
impl fmt::Display for TryString {
    ghost use Rattle.std.specs.Fmt.{styled_text};

    ghost output = { λ s. Some s.bytes };

    ghost styled_output = { λ s style. Some (styled_text style s.bytes) };

    fn fmt<W: fmt::Write>(&self, f: &mut fmt::Formatter<W>) -> fmt::Result {
        f.pad(self.as_str())
    }
}

/// Prints the text between quotation marks, as a text literal.
impl fmt::Debug for TryString {
    ghost use Rattle.std.specs.Fmt.{debug_str};

    ghost debug_output = { λ s. debug_str s.bytes };

    fn fmt<W: fmt::Write>(&self, f: &mut fmt::Formatter<W>) -> fmt::Result {
        fmt::Debug::fmt(&self.as_str(), f)
    }
}
