//! Callers of a set, proved from its contracts alone.
ghost use Rattle.std.specs.Prelude.{◌≡◌, ℕ, ◌<◌, length, slice_index, false, IfOk, OnOk};
ghost use Rattle.std.specs.FinSet as fin_set;
ghost use Rattle.std.specs.Ordering.{nat_cmp};
ghost use Rattle.wic_base.specs.Sets.{AllBelow};
ghost use Rattle.entity_set.specs.Follows.{IsFollowed};
ghost use Rattle.wic_bitset.specs.Compound.{max_capacity};

use crate::{EntityRef, EntitySet, law_keys};
use std::alloc::Global;
use wic_base::OutOfMemory;
use wic_bitset::{CompoundBitSet, MAX_CAPACITY};

// A block of a compiler.
#[derive(Clone, Copy, Debug, PartialEq, Eq)]
pub struct Block(pub u32);

impl EntityRef for Block {
    ghost limit = { max_capacity };

    ghost number = { λ b. b.0 };

    fn limit() -> usize {
        MAX_CAPACITY
    }

    fn new(index: usize) -> Block {
        Block(index as u32)
    }

    fn index(self) -> usize {
        self.0 as usize
    }
}

// Follows the jumps of blocks: block `b` jumps to block `jumps[b]`. In the end the worklist is empty. Each block that was on it
// is done, and so is the block that each newly done block jumps to.
pub fn follow(
    work: &mut EntitySet<Block>,
    done: &mut EntitySet<Block>,
    jumps: &[u32],
) -> Result<(), OutOfMemory>
    requires blocks { AllBelow (length jumps.now) work.old.members }
    requires done { AllBelow (length jumps.now) done.old.members }
    requires jumps { (b : ℕ)
        → b < length jumps.now → slice_index jumps.now b < length jumps.now }
    ensures none_left { OnOk result (work.new.members ≡ fin_set.empty) }
    ensures followed { OnOk result (IsFollowed (slice_index jumps.now)
        work.old.members done.old.members done.new.members) }
{
    while let Some(b) = work.pop() {
        if done.insert(b)? {
            work.insert(Block(jumps[b.index()]))?;
        }
    }
    Ok(())
}

// Takes the greatest key out for a while: it was below the capacity, so putting it back is never refused, and the set is as before.
pub fn leave_for_a_while<K: EntityRef>(set: &mut EntitySet<K>)
    ensures { set.new ≡ set.old }
{
    if let Some(key) = set.pop() {
        set.insert(key).unwrap();
    }
}

// Moves the greatest key into a set of plain numbers, which can hold the number of every key.
pub fn move_greatest<K: EntityRef>(
    from: &mut EntitySet<K>,
    to: &mut CompoundBitSet<usize>,
) -> Result<bool, OutOfMemory>
    ensures { from.new.capacity ≡ from.old.capacity }
{
    match from.pop() {
        Some(key) => to.insert(key.index()),
        None => Ok(false),
    }
}

// Adds what is found, and returns whether anything is new: if not, the members are as before.
pub fn absorb<K: EntityRef>(
    known: &mut EntitySet<K>,
    found: &EntitySet<K>,
) -> Result<bool, OutOfMemory>
    ensures { IfOk result (λ added.
        added ≡ false → known.new.members ≡ known.old.members) }
{
    known.union_with(found)
}

// Takes out what isn't allowed, and returns whether there was anything: if not, the members are as before.
pub fn restrict<K: EntityRef>(set: &mut EntitySet<K>, allowed: &EntitySet<K>) -> bool
    ensures { result ≡ false → set.new.members ≡ set.old.members }
{
    set.intersect_with(allowed)
}

// A walk gives as many keys as the set has.
pub fn walked_count<K: EntityRef>(set: &EntitySet<K>) -> usize
    ensures { result ≡ fin_set.len set.now.members }
{
    law_keys();
    set.keys().count()
}

// Makes three sets of its own, and returns whether the block of the first is in one of the two others. Each `?` ends three sets.
pub fn is_one_of(
    alloc: Global,
    sought: Block,
    left: Block,
    right: Block,
) -> Result<bool, OutOfMemory>
    ensures found { IfOk result (λ found. found ≡ fin_set.is_subset {R = nat_cmp}
        (fin_set.insert fin_set.empty sought.0)
        (fin_set.union (fin_set.insert fin_set.empty left.0) (fin_set.insert fin_set.empty right.0))) }
{
    let mut blocks = EntitySet::new(alloc);
    let mut either = EntitySet::new(alloc);
    let mut more = EntitySet::new(alloc);
    blocks.insert(sought)?;
    either.insert(left)?;
    more.insert(right)?;
    either.union_with(&more)?;
    Ok(blocks.is_subset(&either))
}
