//! Callers of a set, proved from its contracts alone.
ghost use Rattle.std.specs.Prelude.{◌≡◌, ◌+◌, ◌<◌, ◌≤◌, false, IfOk, IfSome};
ghost use Rattle.std.specs.FinSet as fin_set;
ghost use Rattle.wic_bitset.specs.Compound.{capacity_of, max_number};

use crate::{CompoundBitSet, law_members};
use std::alloc::Global;
use std::sync::ledger::Ledger;
use wic_base::{OutOfMemory, Steps};
use wic_scalar::ScalarBitSetStorage;
use wic_vec::TryVec;

// Puts one number in the place of another. Below the capacity nothing is allocated, so nothing is refused.
pub fn give_way<T: ScalarBitSetStorage>(set: &mut CompoundBitSet<T>, from: usize, to: usize)
    requires within { to < capacity_of T.width set.old }
    requires number { to ≤ max_number }
    ensures members { set.new.members ≡ fin_set.insert (fin_set.remove set.old.members from) to }
    ensures words { set.new.words ≡ set.old.words }
{
    set.remove(from);
    set.insert(to).unwrap();
}

// Takes a member out for a while: afterwards the set is as before.
pub fn leave_for_a_while<T: ScalarBitSetStorage>(set: &mut CompoundBitSet<T>, i: usize)
    ensures { set.new ≡ set.old }
{
    if set.contains(i) {
        set.remove(i);
        set.insert(i).unwrap();
    }
}

// Puts the greatest member of one set into another: each member is a number that a set can hold.
pub fn put_greatest<S: ScalarBitSetStorage, T: ScalarBitSetStorage>(
    from: &CompoundBitSet<S>,
    to: &mut CompoundBitSet<T>,
) -> Result<Option<usize>, OutOfMemory>
    ensures { IfOk result (λ put. IfSome put (λ x.
        to.new.members ≡ fin_set.insert to.old.members x)) }
{
    match from.max() {
        Some(greatest) => {
            to.insert(greatest)?;
            Ok(Some(greatest))
        },
        None => Ok(None),
    }
}

// Takes out what isn't allowed, and returns whether there was anything: if not, the set is as before.
pub fn restrict<T: ScalarBitSetStorage>(
    set: &mut CompoundBitSet<T>,
    allowed: &CompoundBitSet<T>,
) -> bool
    ensures { result ≡ false → set.new.members ≡ set.old.members }
{
    set.intersect_with(allowed)
}

// A walk gives as many members as the set has.
pub fn walked_count<T: ScalarBitSetStorage>(set: &CompoundBitSet<T>) -> usize
    ensures { result ≡ fin_set.len set.now.members }
{
    law_members();
    set.iter().count()
}

// Two members far apart, in 156251 words. `members` promises one read for each of the 2 words that have a member, and one for each of the
// 2442 words that a summary in the set's own storage would have. There are fewer reads: the summary is in wider words.
pub fn far_apart<L: Ledger>(
    alloc: Global,
    steps: &mut Steps<L>,
) -> Result<TryVec<usize>, OutOfMemory>
    ensures { steps.new ≤ steps.old + 2444 }
{
    let mut set = CompoundBitSet::new(alloc);
    list_far_apart(alloc, &mut set, steps)
}

// The same in a new set that is lent.
fn list_far_apart<L: Ledger>(
    alloc: Global,
    set: &mut CompoundBitSet<u64>,
    steps: &mut Steps<L>,
) -> Result<TryVec<usize>, OutOfMemory>
    requires empty { set.old.members ≡ fin_set.empty }
    requires words { set.old.words ≡ 0 }
    ensures { steps.new ≤ steps.old + 2444 }
{
    set.insert(0)?;
    set.insert(10000000)?;
    set.members(alloc, steps)
}

// A set that was emptied: the one word of its summary is read, and no other.
pub fn emptied<L: Ledger>(alloc: Global, steps: &mut Steps<L>) -> Result<TryVec<usize>, OutOfMemory>
    ensures { steps.new ≤ steps.old + 1 }
{
    let mut set = CompoundBitSet::new(alloc);
    list_emptied(alloc, &mut set, steps)
}

// The same in a new set that is lent.
fn list_emptied<L: Ledger>(
    alloc: Global,
    set: &mut CompoundBitSet<u64>,
    steps: &mut Steps<L>,
) -> Result<TryVec<usize>, OutOfMemory>
    requires empty { set.old.members ≡ fin_set.empty }
    requires words { set.old.words ≡ 0 }
    ensures { steps.new ≤ steps.old + 1 }
{
    set.insert(64)?;
    set.remove(64);
    set.members(alloc, steps)
}
