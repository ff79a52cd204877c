//! The worked examples, and the resource table. Functions with no contract tell plain values, which a test compares.
use crate::callers::{
    Resource, close_and_go_on, exchange, open, open_among_others, open_and_close_twice,
};
use crate::{GenRefusal, GenerationalId, GenerationalSlab};
use std::alloc::Global;
use std::test::Fail;

// The id and the generation of a handle.
fn numbers(handle: GenerationalId) -> (u32, u32) {
    (handle.id().into_raw(), handle.generation())
}

// The handles of two values, the first of which is taken out before the second one is held.
fn one_after_the_other(alloc: Global) -> Result<((u32, u32), (u32, u32)), GenRefusal> {
    let mut slab = GenerationalSlab::new(alloc);
    let first = slab.alloc('a')?;
    let _ = slab.dealloc(first);
    let second = slab.alloc('b')?;
    Ok((numbers(first), numbers(second)))
}

// What the first of these two handles finds, what taking out its value gives, and what a walk gives.
fn found_by_the_stale(
    alloc: Global,
) -> Result<(Option<char>, Option<char>, Vec<((u32, u32), char)>), Fail> {
    let mut slab = GenerationalSlab::new(alloc);
    let mut walked = Vec::new(alloc);
    if let Ok(first) = slab.alloc('a') {
        let _ = slab.dealloc(first);
        let _ = slab.alloc('b');
        for (handle, value) in slab.iter() {
            walked.push((numbers(handle), *value))?;
        }
        return Ok((slab.get(first).copied(), slab.dealloc(first), walked));
    }
    Ok((None, None, walked))
}

#[test]
fn a_stale_handle_finds_nothing(rt: HostRuntime) -> Result<(), Fail> {
    let alloc = rt.alloc();
    assert_eq!(rt; one_after_the_other(alloc).ok(), Some(((0, 0), (0, 1))));
    let (found, taken, walked) = found_by_the_stale(alloc)?;
    assert_eq!(rt; (found, taken), (None, None));
    assert_eq!(rt; walked.as_slice(), [((0, 1), 'b')].as_slice());
    Ok(())
}

#[test]
fn at_the_last_count_nothing_is_held_any_more(rt: HostRuntime) -> Result<(), Fail> {
    let mut slab = GenerationalSlab::with_count(rt.alloc(), 4294967295);
    match slab.alloc(7) {
        Ok(handle) => {
            assert_eq!(rt; handle.generation(), 4294967295);
            assert_eq!(rt; slab.dealloc(handle), Some(7));
        }
        Err(_) => assert!(rt; false),
    }
    assert_eq!(rt; slab.count(), 4294967296);
    assert!(rt; matches!(&slab.alloc(8), Err(GenRefusal::Spent)));
    Ok(())
}

// What a port finds after another resource was opened and closed, and it was exchanged for a timer; and how many are open.
fn opened_and_exchanged(alloc: Global) -> Result<(bool, Option<Resource>, usize), GenRefusal> {
    let mut table = GenerationalSlab::new(alloc);
    let port = open(&mut table, Resource::Port(80))?;
    let again = open_and_close_twice(&mut table, Resource::File(3))?;
    let _ = exchange(&mut table, port, Resource::Timer { ticks: 5 });
    Ok((again, table.get(port).copied(), table.len()))
}

// What a handle finds after calls on others, and how many resources are open then.
fn kept_over_calls(alloc: Global) -> Result<(Option<Resource>, usize), GenRefusal> {
    let mut table = GenerationalSlab::new(alloc);
    let port = open(&mut table, Resource::Port(80))?;
    let timer = open(&mut table, Resource::Timer { ticks: 9 })?;
    let found = open_among_others(&mut table, Resource::File(3), port, timer)?;
    Ok((found, table.len()))
}

// Whether a closed handle finds something after calls on others, and how many resources are open then.
fn closed_over_calls(alloc: Global) -> Result<(bool, usize), GenRefusal> {
    let mut table = GenerationalSlab::new(alloc);
    let port = open(&mut table, Resource::Port(80))?;
    let timer = open(&mut table, Resource::Timer { ticks: 9 })?;
    let found = close_and_go_on(&mut table, port, Resource::File(4), timer)?;
    Ok((found, table.len()))
}

#[test]
fn resources_are_found_until_they_are_closed(rt: HostRuntime) -> Result<(), Fail> {
    let alloc = rt.alloc();
    let exchanged = Some(Resource::Timer { ticks: 5 });
    assert_eq!(rt;
        opened_and_exchanged(alloc).ok(),
        Some((false, exchanged, 1))
    );
    assert_eq!(rt;
        kept_over_calls(alloc).ok(),
        Some((Some(Resource::File(3)), 3))
    );
    assert_eq!(rt; closed_over_calls(alloc).ok(), Some((false, 1)));
    Ok(())
}
