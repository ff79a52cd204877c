//! Laws of the definitions that the contracts of `CompoundBitSet` cite. A call has no effect at run time.
ghost use Rattle.std.specs.Prelude.{◌+◌, ◌*◌, ◌^◌, ◌≤◌, ℕ, List};
ghost use Rattle.std.specs.Ordering.{nat_cmp};
ghost use Rattle.std.specs.FinSet.{FinSet};
ghost use Rattle.wic_base.specs.Sets.{ListsMembers};
ghost use Rattle.wic_bitset.specs.Rising.{rising};
ghost use Rattle.wic_bitset.specs.Growth.{count_after_all, growths, highest, sum_before};

/// For every list of asks, from no words, at least one of which is a growth: there are at most twice as many words as
/// the highest word asked by a growth, and 4; the words double with each growth; and the counts before each growth
/// sum to at most the words, so that no more words are ever copied than there are. The clauses `words` of the calls tie it to them.
pub fn law_growth()
    ensures bounded { (asks : List ℕ)
        → 1 ≤ growths 0 asks → count_after_all 0 asks ≤ 2 * highest 0 asks + 4 }
    ensures doubled { (asks : List ℕ)
        → 1 ≤ growths 0 asks → 2 ^ (growths 0 asks + 1) ≤ count_after_all 0 asks }
    ensures copied { (asks : List ℕ)
        → 1 ≤ growths 0 asks → sum_before 0 asks ≤ count_after_all 0 asks }
{}

/// The ascending list of `members`, `iter` and `into_iter` has each member of the set once and nothing else, and as many items as
/// the set has members.
pub fn law_members()
    ensures { (s : FinSet nat_cmp) → ListsMembers (rising s) s }
{}
