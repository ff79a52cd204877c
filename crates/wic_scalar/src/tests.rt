//! The worked examples, and each call over every set of `u16` against a plain list of bits.
ghost use Rattle.std.specs.Prelude.{◌<◌, ◌≤◌};

use crate::callers::{starts_at_the_least, take_least, taken_in_range, walked_count};
use crate::{ScalarBitSet, ScalarBitSetStorage};
use std::alloc::{AllocError, Global};
use std::process::Abort;
use std::test::Fail;

// The set of these places.
fn set_of_places<T: ScalarBitSetStorage>(places: &[u8]) -> ScalarBitSet<T> {
    let mut set = ScalarBitSet::new();
    for place in places {
        if *place < ScalarBitSet::<T>::capacity() {
            set.insert(*place);
        }
    }
    set
}

// What a walk gives.
fn walked<T: ScalarBitSetStorage>(
    alloc: Global,
    set: ScalarBitSet<T>,
) -> Result<Vec<u8>, AllocError> {
    let mut members = Vec::new(alloc);
    for member in set {
        members.push(member)?;
    }
    Ok(members)
}

// The digits of a number, lowest first.
fn bits_of(number: u16) -> [bool; 16] {
    let mut bits = [false; 16];
    let mut rest = number;
    for i in 0..16 {
        bits[i] = rest % 2 == 1;
        rest /= 2;
    }
    bits
}

// The places of the digits that are 1.
fn places_of(alloc: Global, bits: &[bool; 16]) -> Result<Vec<u8>, AllocError> {
    let mut places = Vec::new(alloc);
    for i in 0..16u8 {
        if bits[i as usize] {
            places.push(i)?;
        }
    }
    Ok(places)
}

#[test]
fn a_range_has_the_numbers_from_its_start_to_below_its_end(rt: HostRuntime) -> Result<(), Fail> {
    assert!(rt; ScalarBitSet::<u64>::from_range(64, 64).is_empty());
    assert_eq!(rt; ScalarBitSet::<u128>::from_range(0, 128).len(), 128);
    let few = walked(rt.alloc(), ScalarBitSet::<u64>::from_range(3, 6))?;
    assert_eq!(rt; few.as_slice(), [3, 4, 5].as_slice());
    assert_eq!(rt; taken_in_range(3, 6), 3);
    assert!(rt; ScalarBitSet::<u8>::from_range(0, 0).is_empty());
    assert!(rt; ScalarBitSet::<u8>::from_range(8, 8).is_empty());
    assert!(rt; ScalarBitSet::<u128>::from_range(128, 128).is_empty());
    Ok(())
}

#[test]
fn pops_come_from_either_end(rt: HostRuntime) {
    let start: ScalarBitSet<u64> = set_of_places(&[0, 24, 13, 36]);
    let mut rising = start;
    for expected in [Some(0), Some(13), Some(24), Some(36), None] {
        assert_eq!(rt; take_least(&mut rising), expected);
    }
    let mut falling = start;
    for expected in [Some(36), Some(24)] {
        assert_eq!(rt; falling.pop_max(), expected);
    }
}

#[test]
fn a_walk_rises_and_gives_one_from_the_back(rt: HostRuntime) -> Result<(), Fail> {
    let set: ScalarBitSet<u64> = set_of_places(&[19, 3, 63, 0]);
    let members = walked(rt.alloc(), set)?;
    assert_eq!(rt; members.as_slice(), [0, 3, 19, 63].as_slice());
    let mut walk = set.iter();
    assert_eq!(rt; walk.next_back(), Some(63));
    assert_eq!(rt; walk.len(), 3);
    assert_eq!(rt; walk.size_hint(), (3, Some(3)));
    assert_eq!(rt; walked_count(set), 4);
    assert!(rt; starts_at_the_least(set));
    Ok(())
}

// The lowest and the highest place, popped one by one.
fn pops_its_edges<T: ScalarBitSetStorage>(rt: &impl Abort, last: u8) {
    let mut set: ScalarBitSet<T> = set_of_places(&[0, last]);
    assert_eq!(rt; set.pop_min(), Some(0));
    assert_eq!(rt; set.pop_min(), Some(last));
    assert_eq!(rt; set.pop_min(), None);
    assert!(rt; ScalarBitSet(T::zero().without_lowest()).is_empty());
}

// A storage at its edges, through its bound: `last` is its highest place.
fn holds_its_edges<T: ScalarBitSetStorage>(rt: &impl Abort, last: u8)
    requires { last < 255 }
{
    assert_eq!(rt; ScalarBitSet::<T>::capacity(), last + 1);
    let mut set: ScalarBitSet<T> = Default::default();
    assert!(rt; set.is_empty());
    assert_eq!(rt; set.max(), None);
    assert!(rt; set.insert(last));
    assert!(rt; !set.insert(last));
    assert_eq!(rt; set.max(), Some(last));
    assert!(rt; set.insert(0));
    assert_eq!(rt; set.min(), Some(0));
    assert_eq!(rt; set.len(), 2);
    assert!(rt; set.contains(last));
    assert!(rt; set.remove(0));
    assert!(rt; !set.remove(0));
    assert_eq!(rt; set.min(), Some(last));
    assert!(rt; set == ScalarBitSet::from_range(last, last + 1));
    set.clear();
    assert!(rt; set == ScalarBitSet::from_range(last + 1, last + 1));
    assert!(rt; set != ScalarBitSet::from_range(0, last + 1));
    assert_eq!(rt; ScalarBitSet::<T>::from_range(0, last + 1).len(), last + 1);
    pops_its_edges::<T>(rt, last);
}

#[test]
fn each_storage_holds_its_edges(rt: HostRuntime) {
    holds_its_edges::<u8>(&rt, 7);
    holds_its_edges::<u16>(&rt, 15);
    holds_its_edges::<u32>(&rt, 31);
    holds_its_edges::<u64>(&rt, 63);
    holds_its_edges::<u128>(&rt, 127);
    holds_its_edges::<usize>(&rt, 63);
}

// The set as a whole, against its places.
fn matches_whole(rt: &impl Abort, set: ScalarBitSet<u16>, places: &[u8], members: &[u8]) {
    assert_eq!(rt; members, places);
    assert_eq!(rt; set.len() as usize, places.len());
    assert_eq!(rt; set.is_empty(), places.is_empty());
    assert_eq!(rt; set.min(), places.first().copied());
    assert_eq!(rt; set.max(), places.last().copied());
    assert!(rt; set == ScalarBitSet::from(set.0));
    assert!(rt; set != ScalarBitSet(set.0 ^ 1));
    let mut cleared = set;
    cleared.clear();
    assert_eq!(rt; cleared.0, 0);
}

// The members from either end, one by one.
fn matches_ends(rt: &impl Abort, set: ScalarBitSet<u16>, places: &[u8]) {
    let mut rising = set;
    for place in places {
        assert_eq!(rt; rising.pop_min(), Some(*place));
    }
    assert_eq!(rt; rising.pop_min(), None);
    let mut falling = set;
    let mut back = set.iter();
    for place in places.iter().rev() {
        assert_eq!(rt; falling.pop_max(), Some(*place));
        assert_eq!(rt; back.next_back(), Some(*place));
    }
    assert_eq!(rt; falling.pop_max(), None);
    assert_eq!(rt; back.next_back(), None);
    assert_eq!(rt; back.next(), None);
}

// The calls at one place: what they return and leave.
fn matches_place(rt: &impl Abort, set: ScalarBitSet<u16>, bits: &[bool; 16], place: u8)
    requires { place < 16 }
{
    let at = place as usize;
    assert_eq!(rt; set.contains(place), bits[at]);
    let mut with = *bits;
    with[at] = true;
    let mut inserted = set;
    assert_eq!(rt; inserted.insert(place), !bits[at]);
    assert!(rt; bits_of(inserted.0) == with);
    let mut without = *bits;
    without[at] = false;
    let mut removed = set;
    assert_eq!(rt; removed.remove(place), bits[at]);
    assert!(rt; bits_of(removed.0) == without);
}

#[test]
fn every_set_of_sixteen_places_is_its_list_of_bits(rt: HostRuntime) -> Result<(), Fail> {
    for number in 0..=u16::MAX {
        let set = ScalarBitSet::from(number);
        let bits = bits_of(number);
        let places = places_of(rt.alloc(), &bits)?;
        let members = walked(rt.alloc(), set)?;
        matches_whole(&rt, set, &places, &members);
        matches_ends(&rt, set, &places);
        for place in 0..16 {
            matches_place(&rt, set, &bits, place);
        }
    }
    Ok(())
}

#[test]
fn every_range_of_sixteen_places_is_its_list_of_bits(rt: HostRuntime) {
    for hi in 0..=16 {
        for lo in 0..=hi {
            let bits = bits_of(ScalarBitSet::<u16>::from_range(lo, hi).0);
            for i in 0..16 {
                assert_eq!(rt; bits[i as usize], lo <= i && i < hi);
            }
        }
    }
}
