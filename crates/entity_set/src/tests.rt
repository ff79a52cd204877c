//! The worked examples, and the algebra beside sorted lists. A set is lent to what tests it, so that few ways out of a function end
//! one: that is quick to prove.
ghost use Rattle.std.specs.Prelude.{◌≡◌};
ghost use Rattle.std.specs.FinSet as fin_set;

use crate::EntitySet;
use crate::callers::{
    Block, absorb, follow, leave_for_a_while, move_greatest, restrict, walked_count,
};
use std::alloc::{AllocError, Global};
use std::hash::{DefaultHasher, Hash, Hasher};
use std::process::Abort;
use std::test::Fail;
use wic_base::OutOfMemory;
use wic_bitset::CompoundBitSet;

// Puts the blocks of these numbers in.
fn put(set: &mut EntitySet<Block>, numbers: &[u32]) -> Result<(), OutOfMemory> {
    for number in numbers {
        set.insert(Block(*number))?;
    }
    Ok(())
}

// Whether the keys of a set have just these numbers, which ascend.
fn has_just(set: &EntitySet<Block>, numbers: &[u32]) -> bool {
    let mut numbers = numbers.iter();
    for block in set {
        if numbers.next() != Some(&block.0) {
            return false;
        }
    }
    numbers.next().is_none()
}

fn hash_of(set: &EntitySet<Block>) -> u64 {
    let mut hasher = DefaultHasher::new();
    set.hash(&mut hasher);
    hasher.finish()
}

// Puts three keys in, and asks for room: 4 words of 64 numbers at first, then 11 for the number 700, then twice as many.
fn keys_come(rt: &impl Abort, set: &mut EntitySet<Block>) -> Result<(), Fail> {
    assert_eq!(rt; set.capacity(), 256);
    for number in [5, 1, 700] {
        assert!(rt; set.insert(Block(number))?);
    }
    assert_eq!(rt; set.capacity(), 704);
    set.ensure_capacity(1000)?;
    assert_eq!(rt; set.capacity(), 1408);
    assert!(rt; has_just(set, &[1, 5, 700]));
    Ok(())
}

// Takes the greatest key out of a set: it was equal to its copy until then.
fn copy_stays(
    rt: &impl Abort,
    set: &mut EntitySet<Block>,
    copy: &EntitySet<Block>,
) -> Result<(), Fail> {
    assert!(rt; *copy == *set);
    assert_eq!(rt; hash_of(copy), hash_of(set));
    assert_eq!(rt; set.pop(), Some(Block(700)));
    assert!(rt; *copy != *set);
    Ok(())
}

fn set_is_copied(rt: &impl Abort, alloc: Global, set: &mut EntitySet<Block>) -> Result<(), Fail> {
    let copy = set.try_clone(alloc)?;
    copy_stays(rt, set, &copy)
}

// Puts keys in, copies the set, and takes the keys out.
fn keys_come_and_go(
    rt: &impl Abort,
    alloc: Global,
    set: &mut EntitySet<Block>,
) -> Result<(), Fail> {
    keys_come(rt, set)?;
    set_is_copied(rt, alloc, set)?;
    assert!(rt; !set.remove(Block(700)));
    assert_eq!(rt; set.len(), 2);
    set.clear();
    assert!(rt; set.is_empty());
    Ok(())
}

#[test]
fn keys_are_put_in_and_walked_by_ascending_number(rt: HostRuntime) -> Result<(), Fail> {
    let alloc = rt.alloc();
    let mut set = EntitySet::with_capacity(alloc, 8)?;
    keys_come_and_go(&rt, alloc, &mut set)
}

// Joins two new sets, and takes from the one what a third set lacks and what a fourth has. All but the first are `other`.
fn sets_are_joined(
    rt: &impl Abort,
    set: &mut EntitySet<Block>,
    other: &mut EntitySet<Block>,
) -> Result<(), Fail> {
    put(set, &[1, 5])?;
    put(other, &[5, 9])?;
    assert!(rt; set.union_with(other)?);
    assert!(rt; !set.union_with(other)?);
    put(other, &[10])?;
    assert!(rt; set.intersect_with(other));
    assert!(rt; has_just(set, &[5, 9]));
    other.clear();
    put(other, &[9])?;
    assert!(rt; set.subtract(other));
    assert!(rt; has_just(set, &[5]));
    Ok(())
}

#[test]
fn sets_are_joined_met_and_parted(rt: HostRuntime) -> Result<(), Fail> {
    let alloc = rt.alloc();
    let mut set = EntitySet::new(alloc);
    let mut other = EntitySet::new(alloc);
    sets_are_joined(&rt, &mut set, &mut other)
}

// Follows the jumps from block 2 with two new sets.
fn jumps_are_followed(
    rt: &impl Abort,
    work: &mut EntitySet<Block>,
    done: &mut EntitySet<Block>,
) -> Result<(), Fail>
    requires work { work.old.members ≡ fin_set.empty }
    requires done { done.old.members ≡ fin_set.empty }
{
    let jumps = [2, 0, 3, 0, 1];
    work.insert(Block(2))?;
    follow(work, done, &jumps)?;
    assert!(rt; work.is_empty());
    assert!(rt; has_just(done, &[0, 2, 3]));
    Ok(())
}

#[test]
fn a_worklist_is_followed_until_it_is_empty(rt: HostRuntime) -> Result<(), Fail> {
    let alloc = rt.alloc();
    let mut work = EntitySet::new(alloc);
    let mut done = EntitySet::new(alloc);
    jumps_are_followed(&rt, &mut work, &mut done)
}

// Takes keys out of one new set, and puts their numbers into another.
fn greatest_key_leaves(
    rt: &impl Abort,
    set: &mut EntitySet<Block>,
    numbers: &mut CompoundBitSet<usize>,
) -> Result<(), Fail> {
    put(set, &[1, 700])?;
    leave_for_a_while(set);
    assert!(rt; has_just(set, &[1, 700]));
    assert!(rt; move_greatest(set, numbers)?);
    assert!(rt; has_just(set, &[1]));
    assert!(rt; numbers.contains(700));
    assert!(rt; move_greatest(set, numbers)?);
    assert!(rt; !move_greatest(set, numbers)?);
    Ok(())
}

#[test]
fn the_greatest_key_leaves_for_a_while_and_for_good(rt: HostRuntime) -> Result<(), Fail> {
    let alloc = rt.alloc();
    let mut set = EntitySet::new(alloc);
    let mut numbers = CompoundBitSet::new(alloc);
    greatest_key_leaves(&rt, &mut set, &mut numbers)
}

// Joins a new set to another one, and restricts that to the first.
fn set_is_joined_and_restricted(
    rt: &impl Abort,
    known: &mut EntitySet<Block>,
    found: &mut EntitySet<Block>,
) -> Result<(), Fail> {
    put(known, &[1])?;
    put(found, &[2, 3])?;
    assert!(rt; absorb(known, found)?);
    assert!(rt; !absorb(known, found)?);
    assert_eq!(rt; walked_count(known), 3);
    assert!(rt; restrict(known, found));
    assert!(rt; !restrict(known, found));
    assert_eq!(rt; walked_count(known), 2);
    Ok(())
}

#[test]
fn a_set_is_joined_and_restricted_until_nothing_changes(rt: HostRuntime) -> Result<(), Fail> {
    let alloc = rt.alloc();
    let mut known = EntitySet::new(alloc);
    let mut found = EntitySet::new(alloc);
    set_is_joined_and_restricted(&rt, &mut known, &mut found)
}

// The next number of a plain generator of random numbers.
fn random(seed: u64) -> u64 {
    seed.wrapping_mul(6364136223846793005)
        .wrapping_add(1442695040888963407)
}

// Some numbers below 300, ascending, more or fewer of them by the first draw.
fn random_numbers(alloc: Global, seed: &mut u64) -> Result<Vec<u32>, AllocError> {
    let mut numbers = Vec::new(alloc);
    *seed = random(*seed);
    let share = *seed >> 61;
    for number in 0..300 {
        *seed = random(*seed);
        if *seed >> 61 < share {
            numbers.push(number)?;
        }
    }
    Ok(numbers)
}

// Those of `numbers` that `other` has, or that it lacks.
fn those(alloc: Global, numbers: &[u32], other: &[u32], has: bool) -> Result<Vec<u32>, AllocError> {
    let mut kept = Vec::new(alloc);
    for number in numbers {
        if other.binary_search(number).is_ok() == has {
            kept.push(*number)?;
        }
    }
    Ok(kept)
}

// Two ascending lists, and what is in either, in both, and in the first alone.
#[derive(Drop)]
struct Pair<'a> {
    left: &'a [u32],
    right: &'a [u32],
    either: &'a [u32],
    both: &'a [u32],
    left_alone: &'a [u32],
}

// What two sets have in common.
fn meets(
    rt: &impl Abort,
    set: &mut EntitySet<Block>,
    other: &EntitySet<Block>,
    pair: &Pair<'_>,
) -> Result<(), Fail> {
    put(set, pair.left)?;
    assert_eq!(rt; set.is_disjoint(other), pair.both.is_empty());
    assert_eq!(rt;
        set.intersect_with(other),
        pair.both.len() < pair.left.len()
    );
    assert!(rt; has_just(set, pair.both));
    Ok(())
}

// What the first set has alone.
fn parts(
    rt: &impl Abort,
    set: &mut EntitySet<Block>,
    other: &EntitySet<Block>,
    pair: &Pair<'_>,
) -> Result<(), Fail> {
    put(set, pair.left)?;
    assert_eq!(rt; set.is_subset(other), pair.left_alone.is_empty());
    assert_eq!(rt;
        set.subtract(other),
        pair.left_alone.len() < pair.left.len()
    );
    assert!(rt; has_just(set, pair.left_alone));
    Ok(())
}

// The union of two sets.
fn joins(
    rt: &impl Abort,
    set: &mut EntitySet<Block>,
    other: &EntitySet<Block>,
    pair: &Pair<'_>,
) -> Result<(), Fail> {
    put(set, pair.left)?;
    assert_eq!(rt; set.union_with(other)?, pair.either.len() > pair.left.len());
    assert!(rt; has_just(set, pair.either));
    Ok(())
}

// All of a pair with two new sets. The union is the last, since it alone makes room.
fn two_sets_are_tried(
    rt: &impl Abort,
    set: &mut EntitySet<Block>,
    other: &mut EntitySet<Block>,
    pair: &Pair<'_>,
) -> Result<(), Fail> {
    put(other, pair.right)?;
    meets(rt, set, other, pair)?;
    set.clear();
    parts(rt, set, other, pair)?;
    set.clear();
    joins(rt, set, other, pair)
}

fn pair_is_tried(rt: &impl Abort, alloc: Global, pair: &Pair<'_>) -> Result<(), Fail> {
    let mut set = EntitySet::new(alloc);
    let mut other = EntitySet::new(alloc);
    two_sets_are_tried(rt, &mut set, &mut other, pair)
}

// What is in either of two ascending lists, ascending.
fn either_of(alloc: Global, left: &[u32], right: &[u32]) -> Result<Vec<u32>, AllocError> {
    let mut either = those(alloc, right, left, false)?;
    for number in left {
        either.push(*number)?;
    }
    either.sort()?;
    Ok(either)
}

fn lists_are_tried(
    rt: &impl Abort,
    alloc: Global,
    left: &[u32],
    right: &[u32],
) -> Result<(), Fail> {
    let either = either_of(alloc, left, right)?;
    let both = those(alloc, left, right, true)?;
    let left_alone = those(alloc, left, right, false)?;
    let pair = Pair {
        left,
        right,
        either: &either,
        both: &both,
        left_alone: &left_alone,
    };
    pair_is_tried(rt, alloc, &pair)
}

#[test]
fn the_algebra_of_random_sets_is_that_of_sorted_lists(rt: HostRuntime) -> Result<(), Fail> {
    let alloc = rt.alloc();
    let mut seed = 1;
    for _ in 0..2000 {
        let left = random_numbers(alloc, &mut seed)?;
        let right = random_numbers(alloc, &mut seed)?;
        lists_are_tried(&rt, alloc, &left, &right)?;
    }
    Ok(())
}
