use crate::callers::{hold_for_a_while, take_for_a_while};
use crate::{Id, MAX_CAPACITY, Slab};
use std::alloc::Global;
use std::process::Abort;
use std::test::Fail;

// Allocates, where the slab is small.
fn put(rt: &impl Abort, slab: &mut Slab<u64>, value: u64) -> Result<u32, Fail> {
    assert!(rt; slab.len() < MAX_CAPACITY);
    Ok(slab.alloc(value)?.into_raw())
}

// Takes a live id's value out.
fn take(rt: &impl Abort, slab: &mut Slab<u64>, number: u32) -> Result<u64, Fail> {
    let id = id_of(number)?;
    assert!(rt; slab.contains(id), "{number} is live");
    Ok(slab.dealloc(id))
}

fn id_of(number: u32) -> Result<Id, Fail> {
    Ok(Id::try_from_raw(number).ok_or("no id has this number")?)
}

// Ids 0, 1 and 2 with the values 10, 11 and 12.
fn three(rt: &impl Abort, alloc: Global) -> Result<Slab<u64>, Fail> {
    let mut slab = Slab::new(alloc);
    for number in 0..3 {
        assert_eq!(rt; put(rt, &mut slab, 10 + number as u64)?, number);
    }
    Ok(slab)
}

#[test]
fn ids_given_back_come_again_the_last_one_first(rt: HostRuntime) -> Result<(), Fail> {
    let mut slab = three(&rt, rt.alloc())?;
    assert_eq!(rt; take(&rt, &mut slab, 1)?, 11);
    assert_eq!(rt; take(&rt, &mut slab, 0)?, 10);
    assert_eq!(rt; put(&rt, &mut slab, 20)?, 0);
    assert_eq!(rt; put(&rt, &mut slab, 21)?, 1);
    assert_eq!(rt; put(&rt, &mut slab, 22)?, 3);
    Ok(())
}

#[test]
fn room_is_asked_for_beyond_the_live_values_alone(rt: HostRuntime) -> Result<(), Fail> {
    let mut slab = Slab::with_capacity(rt.alloc(), 4)?;
    assert!(rt; slab.capacity() >= 4);
    assert!(rt; slab.is_empty());
    for number in 0..4 {
        assert_eq!(rt; slab.try_alloc(number as u64).map(Id::into_raw), Ok(number));
    }
    assert!(rt; slab.len() < 100);
    slab.reserve(2)?;
    assert!(rt; slab.capacity() >= 6);
    for number in 0..4 {
        assert_eq!(rt; slab.get(id_of(number)?).copied(), Some(number as u64));
    }
    let capacity = slab.capacity();
    for number in 0..4 {
        assert_eq!(rt; take(&rt, &mut slab, number)?, number as u64);
    }
    assert!(rt; slab.is_empty() && capacity < 1000);
    slab.reserve(capacity)?;
    assert_eq!(rt; slab.capacity(), capacity);
    Ok(())
}

#[test]
fn a_full_slab_hands_the_value_back(rt: HostRuntime) -> Result<(), Fail> {
    let mut slab = Slab::new(rt.alloc());
    assert_eq!(rt; slab.try_alloc(9), Err(9));
    assert_eq!(rt; slab.capacity(), 0);
    assert_eq!(rt; slab.next_id().into_raw(), 0);
    assert_eq!(rt; put(&rt, &mut slab, 9)?, 0);
    assert_eq!(rt; slab.next_id().into_raw(), 1);
    assert!(rt; slab.capacity() >= 16);
    Ok(())
}

#[test]
fn a_dead_id_finds_nothing(rt: HostRuntime) -> Result<(), Fail> {
    let mut slab = three(&rt, rt.alloc())?;
    take(&rt, &mut slab, 1)?;
    let dead = id_of(1)?;
    assert_eq!(rt; slab.get(dead), None);
    assert!(rt; !slab.contains(dead));
    assert_eq!(rt; slab.next_id(), dead);
    assert_eq!(rt; slab.len(), 2);
    let mut pairs: Vec<(u32, u64)> = Vec::new(rt.alloc());
    for (id, value) in &slab {
        pairs.push((id.into_raw(), *value))?;
    }
    assert_eq!(rt; pairs.as_slice(), [(0, 10), (2, 12)].as_slice());
    let empty: Slab<u64> = Slab::new(rt.alloc());
    let greatest = id_of(4294967294)?;
    assert!(rt; !empty.contains(greatest));
    assert_eq!(rt; empty.get(greatest), None);
    Ok(())
}

#[test]
fn draining_and_clearing_start_over(rt: HostRuntime) -> Result<(), Fail> {
    let mut slab = three(&rt, rt.alloc())?;
    take(&rt, &mut slab, 1)?;
    let capacity = slab.capacity();
    {
        let mut pairs = slab.drain();
        assert_eq!(rt;
            pairs.next().map(|(id, value)| (id.into_raw(), value)),
            Some((0, 10))
        );
        assert_eq!(rt;
            pairs.next().map(|(id, value)| (id.into_raw(), value)),
            Some((2, 12))
        );
        assert!(rt; pairs.next().is_none());
    }
    assert_eq!(rt; put(&rt, &mut slab, 13)?, 0);
    assert_eq!(rt; put(&rt, &mut slab, 14)?, 1);
    {
        let mut pairs = slab.drain();
        assert!(rt; pairs.next().is_some());
    }
    assert!(rt; slab.is_empty());
    assert_eq!(rt; slab.next_id().into_raw(), 0);
    assert_eq!(rt; put(&rt, &mut slab, 15)?, 0);
    slab.clear();
    assert_eq!(rt; (slab.len(), slab.next_id().into_raw()), (0, 0));
    assert_eq!(rt; slab.capacity(), capacity);
    Ok(())
}

#[test]
fn values_are_written_in_place(rt: HostRuntime) -> Result<(), Fail> {
    let mut slab = three(&rt, rt.alloc())?;
    let id = id_of(2)?;
    assert!(rt; slab.contains(id));
    slab[id] = 17;
    if let Some(value) = slab.get_mut(id) {
        *value = value.saturating_add(1);
    }
    assert_eq!(rt; slab.get(id).copied(), Some(18));
    take(&rt, &mut slab, 1)?;
    if let Some(value) = slab.get_mut(id_of(1)?) {
        *value = 0;
    }
    let mut sum = 0u64;
    for (_, value) in &slab {
        sum = sum.saturating_add(*value);
    }
    assert_eq!(rt; sum, 28);
    Ok(())
}

#[test]
fn a_walk_writes_each_value(rt: HostRuntime) -> Result<(), Fail> {
    let mut slab = three(&rt, rt.alloc())?;
    take(&rt, &mut slab, 0)?;
    let mut walk = slab.iter_mut();
    let mut ids = 0u64;
    while let Some(id) = walk.next_id() {
        ids = ids.saturating_mul(10).saturating_add(id.into_raw() as u64);
        let value = walk.value_mut(id);
        *value = value.saturating_add(10);
    }
    assert_eq!(rt; ids, 12);
    assert_eq!(rt; take(&rt, &mut slab, 1)?, 21);
    assert_eq!(rt; take(&rt, &mut slab, 2)?, 22);
    Ok(())
}

#[test]
fn what_is_undone_leaves_no_trace(rt: HostRuntime) -> Result<(), Fail> {
    let mut slab = three(&rt, rt.alloc())?;
    assert!(rt; slab.len() < MAX_CAPACITY);
    hold_for_a_while(&mut slab, 13)?;
    let id = id_of(1)?;
    assert!(rt; slab.contains(id));
    take_for_a_while(&mut slab, id)?;
    assert_eq!(rt;
        (slab.get(id).copied(), slab.next_id().into_raw()),
        (Some(11), 3)
    );
    Ok(())
}

#[test]
fn the_greatest_id(rt: HostRuntime) {
    assert_eq!(rt;
        Id::try_from_raw(4294967294).map(Id::into_raw),
        Some(4294967294)
    );
    assert!(rt; Id::try_from_raw(4294967295).is_none());
    assert_eq!(rt;
        (Slab::<u64>::MAX_CAPACITY, MAX_CAPACITY),
        (4294967294, 4294967294)
    );
}

#[test]
fn debug_texts(rt: HostRuntime) -> Result<(), Fail> {
    let id = id_of(3)?;
    assert_eq!(rt; format!(in rt.alloc(); "{id:?}")?.as_str(), "Id(3)");
    let mut slab = Slab::new(rt.alloc());
    for value in [7, 8, 9] {
        put(&rt, &mut slab, value)?;
    }
    let text = format!(in rt.alloc(); "{slab:?}")?;
    assert_eq!(rt; text.as_str(), "{Id(0): 7, Id(1): 8, Id(2): 9}");
    Ok(())
}
