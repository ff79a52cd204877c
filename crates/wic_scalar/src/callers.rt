//! Callers of scalar sets, proved from the contracts alone.
ghost use Rattle.std.specs.Prelude.{◌≡◌, ◌-◌, ◌↔◌, ◌<◌, ◌≤◌, IsNone, IsTrue, IfSome};
ghost use Rattle.std.specs.FinSet as fin_set;
ghost use Rattle.wic_base.specs.Sets.{IsLeast};
ghost use Rattle.wic_scalar.specs.Scalar.{set_of};

use crate::{ScalarBitSet, ScalarBitSetStorage, law_members};

// Takes the least number that isn't used yet, if there is one.
pub fn take_least<T: ScalarBitSetStorage>(free: &mut ScalarBitSet<T>) -> Option<u8>
    ensures none { IsNone result ↔ (set_of T.width (T.number free.old.0) ≡ fin_set.empty) }
    ensures least { IfSome result (IsLeast (set_of T.width (T.number free.old.0))) }
    ensures taken { IfSome result (λ x. set_of T.width (T.number free.new.0)
        ≡ fin_set.remove (set_of T.width (T.number free.old.0)) x) }
    ensures within { IfSome result (λ x. x < T.width) }
{
    free.pop_min()
}

// A walk gives as many members as the set has.
pub fn walked_count<T: ScalarBitSetStorage>(set: ScalarBitSet<T>) -> usize
    ensures { result ≡ fin_set.len (set_of T.width (T.number set.0)) }
{
    law_members();
    set.iter().len()
}

// The first item of a walk is the least member.
pub fn starts_at_the_least<T: ScalarBitSetStorage>(set: ScalarBitSet<T>) -> bool
    ensures { IsTrue result }
{
    set.iter().next() == set.min()
}

// The number of places in a range.
pub fn taken_in_range(lo: u8, hi: u8) -> u8
    requires ordered { lo ≤ hi }
    requires within { hi ≤ 64 }
    ensures { result ≡ hi - lo }
{
    ScalarBitSet::<u64>::from_range(lo, hi).len()
}
