ghost use Rattle.std.specs.Prelude.{◌≡◌, ◌<◌, ◌≤◌, length, reverse, slice_index, slice_range, slice_set, EachIndex, IfOk};
ghost use Rattle.std.specs.List.{All, remove_range};

use super::*;
use crate::TryClone;
use crate::callers::{
    counted, fill_up, keep_all, keep_fewer, keep_none, overwrite, push_two, write_everywhere,
};
use std::alloc::AllocError;
use std::cmp::Ordering;
use std::hash::{DefaultHasher, Hash, Hasher};
use std::test::Fail;

// A vector of these numbers.
fn of(alloc: Global, numbers: &[u32]) -> Result<TryVec<u32>, OutOfMemory>
    ensures items { IfOk result (λ v. v.items ≡ numbers.now) }
{
    let mut v = TryVec::with_capacity(alloc, numbers.len())?;
    v.extend_from_slice(numbers)?;
    Ok(v)
}

// What the contracts tell a caller: each of these writes, or takes out, and its contract says what stands then.
fn write_at(v: &mut TryVec<u32>, place: usize, number: u32)
    requires { place < length v.old.items }
    ensures items { v.new.items ≡ slice_set v.old.items place number }
    ensures capacity { v.new.capacity ≡ v.old.capacity }
{
    v[place] = number;
}

fn write_if_there(v: &mut TryVec<u32>, place: usize, number: u32)
    ensures items { v.new.items ≡ slice_set v.old.items place number }
    ensures capacity { v.new.capacity ≡ v.old.capacity }
{
    if let Some(there) = v.get_mut(place) {
        *there = number;
    }
}

fn turn_round(v: &mut TryVec<u32>)
    ensures items { v.new.items ≡ reverse v.old.items }
    ensures capacity { v.new.capacity ≡ v.old.capacity }
{
    v.as_mut_slice().reverse();
}

fn write_one_by_one(v: &mut TryVec<u32>, number: u32)
    ensures length { length v.new.items ≡ length v.old.items }
    ensures capacity { v.new.capacity ≡ v.old.capacity }
{
    for there in &mut *v {
        *there = number;
    }
}

fn take_out(v: &mut TryVec<u32>, lo: usize, hi: usize)
    requires order { lo ≤ hi }
    requires within { hi ≤ length v.old.items }
    ensures items { v.new.items ≡ remove_range v.old.items lo hi }
    ensures capacity { v.new.capacity ≡ v.old.capacity }
{
    let mut part = v.drain(lo, hi);
    part.next();
}

fn greatest(v: &TryVec<u32>) -> u32
    ensures within { All (λ number. number ≤ result) v.now.items }
{
    v.iter().copied().max().unwrap_or(0)
}

fn gather(alloc: Global, v: TryVec<u32>) -> Result<Vec<u32>, AllocError>
    ensures items { IfOk result (λ w. w.items ≡ v.items) }
{
    v.into_iter().collect(alloc)
}

fn gather_part(
    alloc: Global,
    v: &mut TryVec<u32>,
    lo: usize,
    hi: usize,
) -> Result<Vec<u32>, AllocError>
    requires order { lo ≤ hi }
    requires within { hi ≤ length v.old.items }
    ensures items { IfOk result (λ w. w.items ≡ slice_range v.old.items lo hi) }
    ensures left { v.new.items ≡ remove_range v.old.items lo hi }
    ensures capacity { v.new.capacity ≡ v.old.capacity }
{
    let mut part = Vec::new(alloc);
    for number in v.drain(lo, hi) {
        part.push(number)?;
    }
    Ok(part)
}

fn gather_copies(alloc: Global, v: &TryVec<u32>) -> Result<Vec<u32>, AllocError>
    ensures items { IfOk result (λ w. w.items ≡ v.now.items) }
{
    v.into_iter().copied().collect(alloc)
}

#[test]
fn drain_gives_a_part_and_leaves_the_others(rt: HostRuntime) -> Result<(), Fail> {
    let mut v = of(rt.alloc(), &[10, 20, 30, 40])?;
    let room = v.capacity();
    for (lo, hi, given, left) in [
        (1, 3, [20, 30].as_slice(), [10, 40].as_slice()),
        (0, 0, [].as_slice(), [10, 40].as_slice()),
        (0, 2, [10, 40].as_slice(), [].as_slice()),
    ] {
        assert!(rt; lo <= hi && hi <= v.len());
        let part = gather_part(rt.alloc(), &mut v, lo, hi)?;
        assert_eq!(rt; part.as_slice(), given, "from {lo} to below {hi}");
        assert_eq!(rt; v.as_slice(), left, "after {lo} to below {hi}");
        assert_eq!(rt; v.capacity(), room);
    }
    Ok(())
}

#[test]
fn drain_dropped_early_leaves_the_others(rt: HostRuntime) -> Result<(), Fail> {
    let mut v = of(rt.alloc(), &[10, 20, 30, 40])?;
    let mut part = v.drain(1, 3);
    assert_eq!(rt; part.len(), 2);
    assert_eq!(rt; part.next(), Some(20));
    assert_eq!(rt; part.size_hint(), (1, Some(1)));
    drop(part);
    assert_eq!(rt; v.as_slice(), [10, 40].as_slice());
    take_out(&mut v, 0, 1);
    assert_eq!(rt; v.as_slice(), [40].as_slice());
    Ok(())
}

#[test]
fn cut_short_and_popped(rt: HostRuntime) -> Result<(), Fail> {
    let mut v = of(rt.alloc(), &[1, 2])?;
    let room = v.capacity();
    v.truncate(5);
    assert_eq!(rt; v.as_slice(), [1, 2].as_slice());
    assert_eq!(rt; v.get(2), None);
    assert_eq!(rt; v.pop(), Some(2));
    assert_eq!(rt; v.pop(), Some(1));
    assert_eq!(rt; v.pop(), None);
    assert_eq!(rt; v.capacity(), room);
    let mut v = of(rt.alloc(), &[1, 2, 3])?;
    v.truncate(1);
    assert_eq!(rt; v.as_slice(), [1].as_slice());
    v.clear();
    assert!(rt; v.is_empty());
    Ok(())
}

#[test]
fn writes_are_seen(rt: HostRuntime) -> Result<(), Fail> {
    let mut v = of(rt.alloc(), &[1, 2, 3])?;
    write_if_there(&mut v, 0, 10);
    write_if_there(&mut v, 3, 40);
    assert_eq!(rt; v.as_slice(), [10, 2, 3].as_slice());
    write_at(&mut v, 1, 20);
    assert_eq!(rt; v.as_slice(), [10, 20, 3].as_slice());
    turn_round(&mut v);
    assert_eq!(rt; v.as_slice(), [3, 20, 10].as_slice());
    assert_eq!(rt; greatest(&v), 20);
    for number in &mut v {
        *number += 1;
    }
    assert_eq!(rt; v.get(0), Some(&4));
    assert_eq!(rt; v[2], 11);
    write_one_by_one(&mut v, 7);
    assert_eq!(rt; v.as_slice(), [7, 7, 7].as_slice());
    write_everywhere(&mut v, 8);
    assert_eq!(rt; v.as_slice(), [8, 8, 8].as_slice());
    Ok(())
}

#[test]
fn walks_in_order(rt: HostRuntime) -> Result<(), Fail> {
    let v = of(rt.alloc(), &[3, 1, 2])?;
    let mut read = of(rt.alloc(), &[])?;
    for number in &v {
        read.push(*number)?;
    }
    for number in v.iter().rev() {
        read.push(*number)?;
    }
    assert_eq!(rt; read.as_slice(), [3, 1, 2, 2, 1, 3].as_slice());
    assert_eq!(rt;
        gather_copies(rt.alloc(), &v)?.as_slice(),
        [3, 1, 2].as_slice()
    );
    assert_eq!(rt; gather(rt.alloc(), v)?.as_slice(), [3, 1, 2].as_slice());
    Ok(())
}

// The room of the block after so many numbers were put in and room for so many more was asked for, exactly.
fn exact_block(alloc: Global, len: u32, more: usize) -> Result<usize, OutOfMemory> {
    let mut v = TryVec::with_capacity(alloc, len as usize)?;
    for number in 0..len {
        v.push(number)?;
    }
    v.reserve_exact(more)?;
    Ok(v.into_vec().capacity())
}

#[test]
fn exact_room_is_no_more_than_was_asked_for(rt: HostRuntime) -> Result<(), Fail> {
    for (len, more, room) in [(1, 9, 10), (16, 1, 17), (100, 3, 103), (4, 0, 4)] {
        assert_eq!(rt;
            exact_block(rt.alloc(), len, more)?,
            room,
            "{len} and {more}"
        );
    }
    Ok(())
}

// The room of the block after a shrink, with so many numbers in it and room for 100.
fn shrunk_block(alloc: Global, len: u32) -> Result<usize, OutOfMemory> {
    let mut v = TryVec::with_capacity(alloc, 100)?;
    for number in 0..len {
        v.push(number)?;
    }
    v.shrink_to_fit()?;
    Ok(v.into_vec().capacity())
}

#[test]
fn a_shrink_gives_back_all_room_but_that_of_the_elements(rt: HostRuntime) -> Result<(), Fail> {
    for len in [0, 1, 3, 64] {
        assert_eq!(rt; shrunk_block(rt.alloc(), len)?, len as usize);
    }
    Ok(())
}

// A call that makes a vector longer by one number, or makes room for one.
#[derive(Clone, Copy, Debug)]
enum Growth {
    Push,
    Reserve,
    Extend,
    Resize,
    ResizeWith,
}

fn grow_by_one(v: &mut TryVec<u32>, call: Growth) -> Result<(), OutOfMemory> {
    let longer = v.len().saturating_add(1);
    match call {
        Growth::Push => v.push(7),
        Growth::Reserve => {
            v.reserve(1)?;
            v.push(7)
        }
        Growth::Extend => v.extend_from_slice(&[7]),
        Growth::Resize => v.resize(longer, 7),
        Growth::ResizeWith => v.resize_with(longer, || 7),
    }
}

// How often the capacity changes in a thousand such calls.
fn growths(alloc: Global, call: Growth) -> Result<u32, OutOfMemory> {
    let mut v = TryVec::new(alloc);
    let mut changes = 0u32;
    for _ in 0..1000 {
        let before = v.capacity();
        grow_by_one(&mut v, call)?;
        if v.capacity() != before {
            changes = changes.saturating_add(1);
        }
    }
    Ok(changes)
}

#[test]
fn a_thousand_small_growths_take_few_allocations(rt: HostRuntime) -> Result<(), Fail> {
    for call in [
        Growth::Push,
        Growth::Reserve,
        Growth::Extend,
        Growth::Resize,
        Growth::ResizeWith,
    ] {
        assert!(rt; growths(rt.alloc(), call)? <= 12, "{call:?}");
    }
    Ok(())
}

#[test]
fn the_block_of_a_copy_is_as_large_as_its_elements(rt: HostRuntime) -> Result<(), Fail> {
    let alloc = rt.alloc();
    let mut roomy = TryVec::with_capacity(alloc, 100)?;
    for number in [1, 2, 3] {
        roomy.push(number)?;
    }
    for copy in [
        TryVec::from_clones(alloc, roomy.as_slice())?,
        TryVec::from_elem(alloc, 7u32, 3)?,
        roomy.try_clone(alloc)?,
    ] {
        assert_eq!(rt; copy.into_vec().capacity(), 3);
    }
    Ok(())
}

#[test]
fn pushes_within_the_room_are_kept_in_order(rt: HostRuntime) -> Result<(), Fail> {
    let mut v = TryVec::<u32>::with_capacity(rt.alloc(), 3)?;
    for number in [1, 2, 3] {
        v.push(number)?;
        assert!(rt; v.capacity() >= 3);
    }
    assert_eq!(rt; v.pop(), Some(3));
    assert_eq!(rt; v.as_slice(), [1, 2].as_slice());
    v.reserve(10)?;
    assert!(rt; v.capacity() >= 12);
    Ok(())
}

#[test]
fn vectors_are_filled_with_copies(rt: HostRuntime) -> Result<(), Fail> {
    let alloc = rt.alloc();
    for (len, items) in [(3, [7, 7, 7].as_slice()), (1, [7].as_slice())] {
        assert!(rt; len >= 1);
        assert_eq!(rt; TryVec::from_elem(alloc, 7u32, len)?.as_slice(), items);
    }
    let mut v = of(alloc, &[1, 2, 3])?;
    for (len, value, items) in [
        (5, 9, [1, 2, 3, 9, 9].as_slice()),
        (5, 4, [1, 2, 3, 9, 9].as_slice()),
        (2, 9, [1, 2].as_slice()),
    ] {
        v.resize(len, value)?;
        assert_eq!(rt; v.as_slice(), items, "a length of {len}");
    }
    assert_eq!(rt; TryVec::from_clones(alloc, v.as_slice())?, v);
    Ok(())
}

#[test]
fn a_closure_fills_each_new_place_once(rt: HostRuntime) -> Result<(), Fail> {
    let mut v = of(rt.alloc(), &[1])?;
    let mut next = 10u32;
    v.resize_with(4, || {
        let answer = next;
        next = next.wrapping_add(1);
        answer
    })?;
    assert_eq!(rt; v.as_slice(), [1, 10, 11, 12].as_slice());
    assert_eq!(rt; next, 13);
    let mut calls = 0u32;
    v.resize_with(0, || {
        calls = calls.wrapping_add(1);
        calls
    })?;
    assert!(rt; v.is_empty());
    assert_eq!(rt; calls, 0);
    Ok(())
}

#[test]
fn closures_tell_what_stays(rt: HostRuntime) -> Result<(), Fail> {
    let alloc = rt.alloc();
    let mut v = of(alloc, &[1, 2, 3, 4, 5, 6])?;
    v.retain(|number| *number % 2 == 0);
    assert_eq!(rt; v.as_slice(), [2, 4, 6].as_slice());
    let mut v = of(alloc, &[1, 2, 3])?;
    v.retain_mut(|number| {
        *number = number.wrapping_add(10);
        *number % 2 == 1
    });
    assert_eq!(rt; v.as_slice(), [11, 13].as_slice());
    let mut v = of(alloc, &[5, 6, 7, 8])?;
    let mut calls = 0u32;
    v.retain(|_| {
        calls = calls.wrapping_add(1);
        calls == 1 || calls == 3
    });
    assert_eq!(rt; v.as_slice(), [5, 7].as_slice());
    assert_eq!(rt; calls, 4);
    Ok(())
}

#[test]
fn callers_of_closures_have_what_they_prove(rt: HostRuntime) -> Result<(), Fail> {
    let mut v = of(rt.alloc(), &[1, 2, 3])?;
    keep_all(&mut v);
    keep_fewer(&mut v, 2);
    push_two(&mut v, 5, 6)?;
    assert_eq!(rt; v.as_slice(), [1, 2, 5, 6].as_slice());
    overwrite(&mut v, 9);
    fill_up(&mut v, 6, 4)?;
    assert_eq!(rt; v.as_slice(), [9, 9, 9, 9, 4, 4].as_slice());
    keep_none(&mut v);
    counted(&mut v, 2)?;
    assert_eq!(rt; v.as_slice(), [7, 7].as_slice());
    Ok(())
}

#[test]
fn room_is_made_and_given_back(rt: HostRuntime) -> Result<(), Fail> {
    let mut v = TryVec::<u8>::new(rt.alloc());
    v.reserve(10)?;
    assert!(rt; v.capacity() >= 10);
    v.reserve_exact(20)?;
    assert!(rt; v.capacity() >= 20);
    v.shrink_to_fit()?;
    assert!(rt; v.is_empty());
    let v = TryVec::from_vec(v.into_vec());
    assert!(rt; v.is_empty());
    Ok(())
}

#[test]
fn items_of_no_size_are_counted(rt: HostRuntime) -> Result<(), Fail> {
    let mut v = TryVec::<()>::new(rt.alloc());
    for _ in 0..100000 {
        v.push(())?;
    }
    assert_eq!(rt; v.len(), 100000);
    Ok(())
}

#[test]
fn vectors_compare_and_hash_as_lists(rt: HostRuntime) -> Result<(), Fail> {
    let alloc = rt.alloc();
    let one_two = of(alloc, &[1, 2])?;
    assert!(rt; one_two < of(alloc, &[1, 3])? && one_two > of(alloc, &[1])?);
    assert!(rt; one_two != of(alloc, &[2, 1])? && one_two == of(alloc, &[1, 2])?);
    assert_eq!(rt;
        one_two.partial_cmp(&of(alloc, &[1, 2, 0])?),
        Some(Ordering::Less)
    );
    let three = of(alloc, &[1, 2, 3])?;
    let text = format!(in alloc; "{three:?}")?;
    assert_eq!(rt; text.as_str(), "[1, 2, 3]");
    let (mut left, mut right) = (DefaultHasher::new(), DefaultHasher::new());
    one_two.hash(&mut left);
    of(alloc, &[1, 2])?.into_vec().hash(&mut right);
    assert_eq!(rt; left.finish(), right.finish());
    Ok(())
}
