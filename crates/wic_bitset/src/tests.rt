//! Calls at concrete storages, and printed text. A set is lent to what tests it, so that few ways out of a function end one: that
//! is quick to prove.
ghost use Rattle.std.specs.Prelude.{◌≡◌, ◌<◌};

use crate::CompoundBitSet;
use crate::callers::{
    emptied, far_apart, give_way, leave_for_a_while, put_greatest, restrict, walked_count,
};
use std::alloc::Global;
use std::hash::{DefaultHasher, Hash, Hasher};
use std::marker::Brand;
use std::process::Abort;
use std::sync::ledger::{Blank, Ledger};
use std::test::Fail;
use wic_base::{OutOfMemory, Steps};
use wic_scalar::ScalarBitSetStorage;
use wic_vec::TryVec;

// Puts these numbers in, in this order.
fn put<T: ScalarBitSetStorage>(
    set: &mut CompoundBitSet<T>,
    numbers: &[u32],
) -> Result<(), OutOfMemory> {
    for number in numbers {
        set.insert(*number as usize)?;
    }
    Ok(())
}

// Whether the set has just these members, in order.
fn has_just<T: ScalarBitSetStorage>(set: &CompoundBitSet<T>, members: &[usize]) -> bool {
    set.iter().eq(members.iter().copied())
}

// The capacity of a set with room for `n`, made by either call.
fn room_for(alloc: Global, n: u32) -> Result<(usize, usize), OutOfMemory> {
    let one = CompoundBitSet::<u32>::with_capacity(alloc, n as usize)?.capacity();
    let other = CompoundBitSet::<u32>::try_with_capacity(alloc, n as usize)?.capacity();
    Ok((one, other))
}

// Asks for room for each of these numbers: the capacity is then the one beside it.
fn room_is(
    rt: &impl Abort,
    set: &mut CompoundBitSet<u64>,
    asks: &[(u32, usize)],
) -> Result<(), Fail> {
    for (number, capacity) in asks {
        set.ensure_capacity(*number as usize)?;
        assert_eq!(rt; set.capacity(), *capacity);
    }
    Ok(())
}

#[test]
fn room_grows_by_the_rule(rt: HostRuntime) -> Result<(), Fail> {
    let alloc = rt.alloc();
    assert_eq!(rt; room_for(alloc, 0)?, (0, 0));
    assert_eq!(rt; room_for(alloc, 4096)?, (4096, 4096));
    let mut set = CompoundBitSet::new(alloc);
    room_is(&rt, &mut set, &[(1001, 1024), (1024, 1024), (1025, 2048)])
}

// Puts each of these numbers into a set with no room: whether it is new, and the capacity then, stand beside it.
fn room_comes(
    rt: &impl Abort,
    set: &mut CompoundBitSet<u64>,
    inserts: &[(u32, bool, usize)],
) -> Result<(), Fail> {
    assert_eq!(rt; set.capacity(), 0);
    for (number, is_new, capacity) in inserts {
        assert_eq!(rt; set.insert(*number as usize)?, *is_new);
        assert_eq!(rt; set.capacity(), *capacity);
    }
    Ok(())
}

// The same for a new set.
fn room_comes_to_a_new_set(
    rt: &impl Abort,
    alloc: Global,
    inserts: &[(u32, bool, usize)],
) -> Result<(), Fail> {
    let mut set = CompoundBitSet::new(alloc);
    room_comes(rt, &mut set, inserts)
}

#[test]
fn a_new_set_has_no_room_and_grows_as_numbers_come(rt: HostRuntime) -> Result<(), Fail> {
    let alloc = rt.alloc();
    room_comes_to_a_new_set(&rt, alloc, &[(999, true, 1024), (1024, true, 2048)])?;
    room_comes_to_a_new_set(
        &rt,
        alloc,
        &[(0, true, 256), (0, false, 256), (256, true, 512)],
    )
}

// Puts these numbers in and takes all out: `max` and `pop` both give these, one after the other.
fn come_out(
    rt: &impl Abort,
    set: &mut CompoundBitSet<u64>,
    numbers: &[u32],
    members: &[Option<usize>],
) -> Result<(), Fail> {
    put(set, numbers)?;
    for member in members {
        assert_eq!(rt; set.max(), *member);
        assert_eq!(rt; set.pop(), *member);
    }
    Ok(())
}

#[test]
fn the_greatest_is_taken_out_first(rt: HostRuntime) -> Result<(), Fail> {
    let mut set = CompoundBitSet::new(rt.alloc());
    come_out(
        &rt,
        &mut set,
        &[111, 222, 333, 444, 555],
        &[Some(555), Some(444), Some(333), Some(222), Some(111), None],
    )
}

fn text_of(alloc: Global, set: &CompoundBitSet<u64>) -> Result<String, Fail> {
    Ok(format!(in alloc; "{set:?}")?)
}

// Takes one number out of four: the debug text has the other three.
fn rest_is_printed(
    rt: &impl Abort,
    alloc: Global,
    set: &mut CompoundBitSet<u64>,
) -> Result<(), Fail> {
    put(set, &[444, 555, 666, 777])?;
    assert!(rt; set.remove(777));
    assert_eq!(rt;
        text_of(alloc, set)?.as_str(),
        "CompoundBitSet {444, 555, 666}"
    );
    Ok(())
}

#[test]
fn a_member_is_taken_out_and_the_rest_is_printed(rt: HostRuntime) -> Result<(), Fail> {
    let alloc = rt.alloc();
    let mut set = CompoundBitSet::new(alloc);
    rest_is_printed(&rt, alloc, &mut set)
}

// Asks a new set for the greatest number there is: it isn't taken out and not there, and no room comes.
fn greatest_number_is_asked_for(
    rt: &impl Abort,
    set: &mut CompoundBitSet<u64>,
) -> Result<(), Fail> {
    assert!(rt; !set.remove(18446744073709551615));
    assert!(rt; !set.contains(18446744073709551615));
    assert_eq!(rt; set.capacity(), 0);
    Ok(())
}

// Clears a set of these numbers twice: it is empty, and the capacity is this one.
fn cleared_set_keeps_its_room(
    rt: &impl Abort,
    set: &mut CompoundBitSet<usize>,
    numbers: &[u32],
    capacity: usize,
) -> Result<(), Fail> {
    put(set, numbers)?;
    for _ in 0..2 {
        set.clear();
        assert!(rt; set.is_empty());
        assert!(rt; has_just(set, &[]));
        assert_eq!(rt; set.capacity(), capacity);
    }
    Ok(())
}

// Clears a new set before and after these numbers are put in.
fn sets_are_cleared(rt: &impl Abort, set: &mut CompoundBitSet<usize>) -> Result<(), Fail> {
    cleared_set_keeps_its_room(rt, set, &[], 0)?;
    cleared_set_keeps_its_room(rt, set, &[444, 666, 555], 896)
}

fn greatest_number_of_a_new_set(rt: &impl Abort, alloc: Global) -> Result<(), Fail> {
    let mut set = CompoundBitSet::new(alloc);
    greatest_number_is_asked_for(rt, &mut set)
}

#[test]
fn any_number_may_be_asked_for_and_a_cleared_set_keeps_its_room(
    rt: HostRuntime,
) -> Result<(), Fail> {
    let alloc = rt.alloc();
    greatest_number_of_a_new_set(&rt, alloc)?;
    let mut set = CompoundBitSet::new(alloc);
    sets_are_cleared(&rt, &mut set)
}

// The first items of a walk.
fn first_items(set: &CompoundBitSet<u128>) -> [Option<usize>; 4] {
    let mut walk = set.iter();
    [walk.next(), walk.next(), walk.next(), walk.next()]
}

// Walks over the one number 1.
fn walk_stays(rt: &impl Abort, set: &mut CompoundBitSet<u128>) -> Result<(), Fail> {
    put(set, &[1])?;
    assert!(rt; first_items(set) == [Some(1), None, None, None]);
    Ok(())
}

#[test]
fn a_walk_stays_at_its_end(rt: HostRuntime) -> Result<(), Fail> {
    let mut set = CompoundBitSet::new(rt.alloc());
    walk_stays(&rt, &mut set)
}

// Takes the greatest member out of the copy of a set: they were equal, and the set still has it.
fn copy_is_changed(
    rt: &impl Abort,
    set: &CompoundBitSet<u64>,
    copy: &mut CompoundBitSet<u64>,
) -> Result<(), Fail> {
    assert!(rt; *copy == *set);
    copy.pop();
    assert_eq!(rt; set.max(), Some(4096));
    assert_eq!(rt; copy.max(), Some(789));
    Ok(())
}

// Copies a set.
fn set_is_copied(
    rt: &impl Abort,
    alloc: Global,
    set: &mut CompoundBitSet<u64>,
) -> Result<(), Fail> {
    put(set, &[0, 4096, 123, 456, 789])?;
    let mut copy = set.try_clone(alloc)?;
    copy_is_changed(rt, set, &mut copy)
}

#[test]
fn a_copy_goes_its_own_way(rt: HostRuntime) -> Result<(), Fail> {
    let alloc = rt.alloc();
    let mut set = CompoundBitSet::new(alloc);
    set_is_copied(&rt, alloc, &mut set)
}

// Lists of members, the last of a set whose members stand in different words of the last level.
#[derive(Drop)]
struct Lists {
    five: TryVec<usize>,
    two: TryVec<usize>,
    none: TryVec<usize>,
    far: TryVec<usize>,
}

// The lists of two new sets and of two callers.
fn list_all<L: Ledger>(
    alloc: Global,
    near: &mut CompoundBitSet<u64>,
    far: &mut CompoundBitSet<u8>,
    steps: &mut Steps<L>,
) -> Result<Lists, OutOfMemory> {
    put(near, &[0, 4096, 123, 456, 789])?;
    put(far, &[100000, 0, 40000])?;
    let five = near.members(alloc, steps)?;
    let two = far_apart(alloc, steps)?;
    let none = emptied(alloc, steps)?;
    let far = far.members(alloc, steps)?;
    Ok(Lists {
        five,
        two,
        none,
        far,
    })
}

// The same, counted in a new ledger.
fn counted<L: Ledger>(alloc: Global, blank: Blank) -> Result<Lists, OutOfMemory>
    requires name { blank.name ≡ L.name }
    requires parts { blank.parts ≡ L.parts }
    requires some { 0 < L.parts }
{
    let mut steps = Steps::<L>::new(blank);
    let mut near = CompoundBitSet::new(alloc);
    let mut far = CompoundBitSet::new(alloc);
    list_all(alloc, &mut near, &mut far, &mut steps)
}

#[test]
fn members_are_listed(rt: HostRuntime) -> Result<(), Fail> {
    let lists = counted::<Brand>(rt.alloc(), Blank::new(1))?;
    assert_eq!(rt; lists.five.as_slice(), [0, 123, 456, 789, 4096].as_slice());
    assert_eq!(rt; lists.two.as_slice(), [0, 10000000].as_slice());
    assert!(rt; lists.none.is_empty());
    assert_eq!(rt; lists.far.as_slice(), [0, 40000, 100000].as_slice());
    Ok(())
}

// Puts numbers in whose members are these, walks over them, takes all out and puts them in again; then it clears the set and puts 7 in.
fn levels_are_gone_through<T: ScalarBitSetStorage>(
    rt: &impl Abort,
    set: &mut CompoundBitSet<T>,
    numbers: &[u32],
    members: &[usize],
) -> Result<(), Fail> {
    put(set, numbers)?;
    assert!(rt; has_just(set, members));
    for member in members.iter().rev() {
        assert_eq!(rt; set.pop(), Some(*member));
    }
    assert_eq!(rt; set.pop(), None);
    put(set, numbers)?;
    set.clear();
    set.insert(7)?;
    assert!(rt; has_just(set, &[7]));
    Ok(())
}

// The same for two widths of words.
fn two_widths_are_gone_through(
    rt: &impl Abort,
    wide: &mut CompoundBitSet<u64>,
    narrow: &mut CompoundBitSet<u8>,
) -> Result<(), Fail> {
    levels_are_gone_through(
        rt,
        wide,
        &[20000000, 0, 63, 300000, 64],
        &[0, 63, 64, 300000, 20000000],
    )?;
    levels_are_gone_through(rt, narrow, &[100000, 8, 0, 40000], &[0, 8, 40000, 100000])
}

#[test]
fn members_far_apart_are_walked_popped_and_cleared(rt: HostRuntime) -> Result<(), Fail> {
    let alloc = rt.alloc();
    let mut wide = CompoundBitSet::new(alloc);
    let mut narrow = CompoundBitSet::new(alloc);
    two_widths_are_gone_through(&rt, &mut wide, &mut narrow)
}

// The words of a set, up to that of the greatest member.
fn words_of(alloc: Global, set: &CompoundBitSet<u32>) -> Result<Vec<u32>, Fail> {
    let mut words = Vec::new(alloc);
    for scalar in set.iter_scalars() {
        words.push(scalar.0)?;
    }
    Ok(words)
}

// Puts one number after the other into a new set, and takes its words each time.
fn words_come(rt: &impl Abort, alloc: Global, set: &mut CompoundBitSet<u32>) -> Result<(), Fail> {
    assert!(rt; words_of(alloc, set)?.is_empty());
    set.insert(0)?;
    assert_eq!(rt; words_of(alloc, set)?.as_slice(), [1].as_slice());
    set.insert(1)?;
    assert_eq!(rt; words_of(alloc, set)?.as_slice(), [3].as_slice());
    set.insert(32)?;
    assert_eq!(rt; words_of(alloc, set)?.as_slice(), [3, 1].as_slice());
    Ok(())
}

#[test]
fn words_come_up_to_that_of_the_greatest(rt: HostRuntime) -> Result<(), Fail> {
    let alloc = rt.alloc();
    let mut set = CompoundBitSet::new(alloc);
    words_come(&rt, alloc, &mut set)
}

// Two sets, and what is in either, in both, and in the first alone.
struct Pair<'a> {
    left: &'a [u32],
    right: &'a [u32],
    either: &'a [usize],
    both: &'a [usize],
    left_alone: &'a [usize],
}

const PAIRS: [Pair<'static>; 5] = [
    Pair {
        left: &[],
        right: &[],
        either: &[],
        both: &[],
        left_alone: &[],
    },
    Pair {
        left: &[1, 5],
        right: &[5, 9],
        either: &[1, 5, 9],
        both: &[5],
        left_alone: &[1],
    },
    Pair {
        left: &[7],
        right: &[700],
        either: &[7, 700],
        both: &[],
        left_alone: &[7],
    },
    Pair {
        left: &[3, 70, 5000],
        right: &[70, 5000],
        either: &[3, 70, 5000],
        both: &[70, 5000],
        left_alone: &[3],
    },
    Pair {
        left: &[15, 16, 4096],
        right: &[15, 17],
        either: &[15, 16, 17, 4096],
        both: &[15],
        left_alone: &[16, 4096],
    },
];

// What both have.
fn meets(
    rt: &impl Abort,
    set: &mut CompoundBitSet<u16>,
    other: &CompoundBitSet<u16>,
    pair: &Pair<'_>,
) -> Result<(), Fail> {
    put(set, pair.left)?;
    assert_eq!(rt; set.is_disjoint(other), pair.both.is_empty());
    assert_eq!(rt;
        set.intersect_with(other),
        pair.both.len() < pair.left.len()
    );
    assert!(rt; has_just(set, pair.both));
    Ok(())
}

// What the first set has alone.
fn parts(
    rt: &impl Abort,
    set: &mut CompoundBitSet<u16>,
    other: &CompoundBitSet<u16>,
    pair: &Pair<'_>,
) -> Result<(), Fail> {
    put(set, pair.left)?;
    assert_eq!(rt; set.is_subset(other), pair.left_alone.is_empty());
    assert_eq!(rt;
        set.subtract(other),
        pair.left_alone.len() < pair.left.len()
    );
    assert!(rt; has_just(set, pair.left_alone));
    Ok(())
}

// What either has.
fn joins(
    rt: &impl Abort,
    set: &mut CompoundBitSet<u16>,
    other: &CompoundBitSet<u16>,
    pair: &Pair<'_>,
) -> Result<(), Fail> {
    put(set, pair.left)?;
    assert_eq!(rt; set.union_with(other)?, pair.either.len() > pair.left.len());
    assert!(rt; has_just(set, pair.either));
    Ok(())
}

// All of a pair with two new sets. The union is the last, since it alone makes room.
fn two_sets_are_tried(
    rt: &impl Abort,
    set: &mut CompoundBitSet<u16>,
    other: &mut CompoundBitSet<u16>,
    pair: &Pair<'_>,
) -> Result<(), Fail> {
    put(other, pair.right)?;
    meets(rt, set, other, pair)?;
    set.clear();
    parts(rt, set, other, pair)?;
    set.clear();
    joins(rt, set, other, pair)
}

fn pair_is_tried(rt: &impl Abort, alloc: Global, pair: &Pair<'_>) -> Result<(), Fail> {
    let mut set = CompoundBitSet::new(alloc);
    let mut other = CompoundBitSet::new(alloc);
    two_sets_are_tried(rt, &mut set, &mut other, pair)
}

#[test]
fn two_sets_are_joined_and_parted_by_words(rt: HostRuntime) -> Result<(), Fail> {
    for pair in &PAIRS {
        pair_is_tried(&rt, rt.alloc(), pair)?;
    }
    Ok(())
}

fn hash_of<T: ScalarBitSetStorage>(set: &CompoundBitSet<T>) -> u64 {
    let mut hasher = DefaultHasher::new();
    set.hash(&mut hasher);
    hasher.finish()
}

// Whether a set of these numbers and one that also held `more` are equal before and after `more` goes, and whether their hashes
// are equal then. The two sets are new.
fn compare<T: ScalarBitSetStorage>(
    left: &mut CompoundBitSet<T>,
    right: &mut CompoundBitSet<T>,
    numbers: &[u32],
    more: u32,
) -> Result<(bool, bool, bool), OutOfMemory> {
    put(left, numbers)?;
    put(right, numbers)?;
    right.insert(more as usize)?;
    let before = *left == *right;
    right.remove(more as usize);
    Ok((before, *left == *right, hash_of(left) == hash_of(right)))
}

fn compared<T: ScalarBitSetStorage>(
    alloc: Global,
    numbers: &[u32],
    more: u32,
) -> Result<(bool, bool, bool), OutOfMemory> {
    let mut left = CompoundBitSet::<T>::new(alloc);
    let mut right = CompoundBitSet::<T>::new(alloc);
    compare(&mut left, &mut right, numbers, more)
}

#[test]
fn sets_are_equal_by_their_members_whatever_room_they_have(rt: HostRuntime) -> Result<(), Fail> {
    let expected = (false, true, true);
    assert_eq!(rt; compared::<u64>(rt.alloc(), &[3, 700], 100000)?, expected);
    assert_eq!(rt; compared::<u8>(rt.alloc(), &[700, 3], 100000)?, expected);
    assert_eq!(rt; compared::<u64>(rt.alloc(), &[1], 2)?, expected);
    assert_eq!(rt; compared::<u16>(rt.alloc(), &[5, 5000], 300)?, expected);
    assert_eq!(rt; compared::<u64>(rt.alloc(), &[], 64)?, expected);
    Ok(())
}

// What callers leave of the set of 3 and 60 and of another one. Both are new.
fn callers_call(
    rt: &impl Abort,
    set: &mut CompoundBitSet<u16>,
    other: &mut CompoundBitSet<u16>,
) -> Result<(), Fail> {
    put(set, &[3, 60])?;
    assert_eq!(rt; put_greatest(set, other)?, Some(60));
    assert!(rt; !restrict(other, set));
    leave_for_a_while(set, 60);
    assert!(rt; set.capacity() > 8);
    give_way(set, 3, 8);
    assert!(rt; has_just(set, &[8, 60]));
    assert_eq!(rt; walked_count(set), 2);
    Ok(())
}

#[test]
fn callers_need_no_memory_below_the_capacity(rt: HostRuntime) -> Result<(), Fail> {
    let alloc = rt.alloc();
    let mut set = CompoundBitSet::new(alloc);
    let mut other = CompoundBitSet::new(alloc);
    callers_call(&rt, &mut set, &mut other)
}

// The next number of a plain generator of random numbers.
fn random(seed: u64) -> u64 {
    seed.wrapping_mul(6364136223846793005)
        .wrapping_add(1442695040888963407)
}

// Whether the set and a sorted list of its members say the same of `number` as it is put into both.
fn same_insert(
    set: &mut CompoundBitSet<u16>,
    list: &mut Vec<usize>,
    number: u32,
) -> Result<bool, Fail> {
    let is_new = set.insert(number as usize)?;
    match list.binary_search(&(number as usize)) {
        Ok(_) => Ok(!is_new),
        Err(place) => {
            list.insert(place, number as usize)?;
            Ok(is_new)
        },
    }
}

// Whether they say the same of `number` as it is taken out of both.
fn same_remove(set: &mut CompoundBitSet<u16>, list: &mut Vec<usize>, number: u32) -> bool {
    let was_present = set.remove(number as usize);
    match list.binary_search(&(number as usize)) {
        Ok(place) => {
            list.remove(place);
            was_present
        },
        Err(_) => !was_present,
    }
}

// Whether they say the same of one random call, and of a number and the greatest member after it.
fn same_call(
    seed: u64,
    set: &mut CompoundBitSet<u16>,
    list: &mut Vec<usize>,
) -> Result<bool, Fail> {
    let number = (seed >> 33) as u32 % 3000;
    let same = match seed >> 61 {
        0 => set.pop() == list.pop(),
        1..=3 => same_remove(set, list, number),
        _ => same_insert(set, list, number)?,
    };
    let has = list.binary_search(&(number as usize)).is_ok();
    Ok(same && set.contains(number as usize) == has && set.max() == list.last().copied())
}

// Does 5000 such calls: all of them, and the lists after each 500, say the same.
fn calls_say_the_same(
    rt: &impl Abort,
    set: &mut CompoundBitSet<u16>,
    list: &mut Vec<usize>,
) -> Result<(), Fail> {
    let mut seed = 1;
    for call in 0..5000 {
        seed = random(seed);
        assert!(rt; same_call(seed, set, list)?);
        if call % 500 == 499 {
            assert!(rt; has_just(set, list.as_slice()));
            assert_eq!(rt; set.len(), list.len());
        }
    }
    assert!(rt; list.len() > 100);
    Ok(())
}

#[test]
fn random_calls_do_what_a_sorted_list_does(rt: HostRuntime) -> Result<(), Fail> {
    let alloc = rt.alloc();
    let mut list = Vec::new(alloc);
    let mut set = CompoundBitSet::new(alloc);
    calls_say_the_same(&rt, &mut set, &mut list)
}
