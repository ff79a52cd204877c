//! A law of the definitions that the contracts of `EntitySet` cite. A call has no effect at run time.
ghost use Rattle.std.specs.Ordering.{nat_cmp};
ghost use Rattle.std.specs.FinSet.{FinSet};
ghost use Rattle.wic_base.specs.Sets.{ListsMembers};
ghost use Rattle.wic_bitset.specs.Rising.{rising};

use wic_bitset::law_members;

/// The ascending list of `keys` and `into_iter` has the number of each key of the set once and nothing else, and as many items as
/// the set has keys.
pub fn law_keys()
    ensures { (s : FinSet nat_cmp) → ListsMembers (rising s) s }
{
    law_members();
}
