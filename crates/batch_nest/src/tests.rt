//! Worked examples of nests. A space is lent to what tests it, so that few ways out of a function end one: that is quick to prove.
use crate::{Nest, NestLine, NestSpace};
use batch_core::{Cause, Command, Done, End, Record, Refusal, ReserveRefusal};
use std::alloc::Global;
use std::process::Abort;
use std::test::Fail;
use wic_base::OutOfMemory;
use wic_vec::TryVec;

fn nest(lines: Vec<NestLine<u64>>, end: End) -> Nest<u64> {
    Nest {
        lines: TryVec::from_vec(lines),
        end,
    }
}

// What the nest came to, or `None` if its lines aren't balanced.
fn applied(space: &mut NestSpace<u64>, nest: Nest<u64>) -> Option<Result<Done, Refusal>> {
    if !nest.is_balanced() {
        return None;
    }
    Some(space.apply(nest))
}

fn is_committed(space: &mut NestSpace<u64>, lines: Vec<NestLine<u64>>) -> bool {
    matches!(
        &applied(space, nest(lines, End::Commit)),
        Some(Ok(Done::Committed))
    )
}

fn is_empty(space: &NestSpace<u64>) -> bool {
    space.list().is_empty()
        && space.set().is_empty()
        && space.table().is_empty()
        && space.table().next_id().into_raw() == 0
        && space.replies().is_empty()
}

// Does these lines: the outer part stays, and nothing of the inner one.
fn inner_part_is_given_up(
    rt: &impl Abort,
    space: &mut NestSpace<u64>,
    lines: Vec<NestLine<u64>>,
) -> Result<(), Fail> {
    assert!(rt; is_committed(space, lines));
    assert_eq!(rt; space.list(), [1, 3].as_slice());
    assert!(rt; space.table().is_empty());
    assert_eq!(rt; space.table().next_id().into_raw(), 0);
    assert_eq!(rt;
        space.replies(),
        [Record::Pushed, Record::Pushed].as_slice()
    );
    Ok(())
}

#[test]
fn an_inner_abort_gives_up_the_inner_part_alone(rt: HostRuntime) -> Result<(), Fail> {
    let alloc = rt.alloc();
    let lines = vec![in alloc;
        NestLine::Command(Command::Push(1)),
        NestLine::Begin,
        NestLine::Command(Command::Push(2)),
        NestLine::Command(Command::Alloc(5)),
        NestLine::Abort,
        NestLine::Command(Command::Push(3)),
    ]?;
    let mut space = NestSpace::new(alloc);
    inner_part_is_given_up(&rt, &mut space, lines)
}

// Does these lines: the third command is bad, and nothing stays.
fn third_command_is_refused(
    rt: &impl Abort,
    space: &mut NestSpace<u64>,
    lines: Vec<NestLine<u64>>,
) -> Result<(), Fail> {
    assert!(rt;
        matches!(
            &applied(space, nest(lines, End::Commit)),
            Some(Err(Refusal {
                cause: Cause::Empty,
                at: 3
            }))
        )
    );
    assert!(rt; is_empty(space));
    Ok(())
}

#[test]
fn a_bad_command_in_an_aborted_part_refuses_the_whole(rt: HostRuntime) -> Result<(), Fail> {
    let alloc = rt.alloc();
    let lines = vec![in alloc;
        NestLine::Command(Command::Push(1)),
        NestLine::Begin,
        NestLine::Command(Command::Pop),
        NestLine::Command(Command::Pop),
        NestLine::Abort,
    ]?;
    let mut space = NestSpace::new(alloc);
    third_command_is_refused(&rt, &mut space, lines)
}

// Does these lines and aborts: nothing stays.
fn all_is_given_up(
    rt: &impl Abort,
    space: &mut NestSpace<u64>,
    lines: Vec<NestLine<u64>>,
) -> Result<(), Fail> {
    assert!(rt;
        matches!(
            &applied(space, nest(lines, End::Abort)),
            Some(Ok(Done::Aborted))
        )
    );
    assert!(rt; is_empty(space));
    Ok(())
}

#[test]
fn an_outer_abort_gives_up_committed_parts(rt: HostRuntime) -> Result<(), Fail> {
    let alloc = rt.alloc();
    let lines = vec![in alloc;
        NestLine::Begin,
        NestLine::Command(Command::Push(1)),
        NestLine::Command(Command::Insert(9)),
        NestLine::Commit,
    ]?;
    let mut space = NestSpace::new(alloc);
    all_is_given_up(&rt, &mut space, lines)
}

// Does these lines: the first push and the last one stay.
fn first_and_last_stay(
    rt: &impl Abort,
    space: &mut NestSpace<u64>,
    lines: Vec<NestLine<u64>>,
) -> Result<(), Fail> {
    assert!(rt; is_committed(space, lines));
    assert_eq!(rt; space.list(), [1, 4].as_slice());
    Ok(())
}

#[test]
fn an_abort_goes_back_over_a_committed_part(rt: HostRuntime) -> Result<(), Fail> {
    let alloc = rt.alloc();
    let lines = vec![in alloc;
        NestLine::Command(Command::Push(1)),
        NestLine::Begin,
        NestLine::Command(Command::Push(2)),
        NestLine::Begin,
        NestLine::Command(Command::Push(3)),
        NestLine::Commit,
        NestLine::Abort,
        NestLine::Begin,
        NestLine::Commit,
        NestLine::Command(Command::Push(4)),
    ]?;
    let mut space = NestSpace::new(alloc);
    first_and_last_stay(&rt, &mut space, lines)
}

// Does these lines: the values that were cut off are back before the last push.
fn four_values_stay(
    rt: &impl Abort,
    space: &mut NestSpace<u64>,
    lines: Vec<NestLine<u64>>,
) -> Result<(), Fail> {
    assert!(rt; is_committed(space, lines));
    assert_eq!(rt; space.list(), [1, 2, 3, 4].as_slice());
    assert_eq!(rt; space.replies().len(), 4);
    Ok(())
}

#[test]
fn values_come_back_after_a_truncate(rt: HostRuntime) -> Result<(), Fail> {
    let alloc = rt.alloc();
    let lines = vec![in alloc;
        NestLine::Command(Command::Push(1)),
        NestLine::Command(Command::Push(2)),
        NestLine::Command(Command::Push(3)),
        NestLine::Begin,
        NestLine::Command(Command::Truncate(1)),
        NestLine::Abort,
        NestLine::Command(Command::Push(4)),
    ]?;
    let mut space = NestSpace::new(alloc);
    four_values_stay(&rt, &mut space, lines)
}

// Does these lines: the last id is the one after the first two.
fn three_ids_stay(
    rt: &impl Abort,
    space: &mut NestSpace<u64>,
    lines: Vec<NestLine<u64>>,
) -> Result<(), Fail> {
    assert!(rt; is_committed(space, lines));
    assert_eq!(rt; space.replies().len(), 3);
    assert_eq!(rt; space.replies()[2], Record::Allocated { id: 2 });
    assert_eq!(rt; space.table().len(), 3);
    assert_eq!(rt; space.table().next_id().into_raw(), 3);
    Ok(())
}

#[test]
fn ids_come_in_order_after_two_aborts(rt: HostRuntime) -> Result<(), Fail> {
    let alloc = rt.alloc();
    let lines = vec![in alloc;
        NestLine::Command(Command::Alloc(10)),
        NestLine::Command(Command::Alloc(11)),
        NestLine::Begin,
        NestLine::Command(Command::Free(0)),
        NestLine::Command(Command::Free(1)),
        NestLine::Abort,
        NestLine::Begin,
        NestLine::Command(Command::Alloc(12)),
        NestLine::Abort,
        NestLine::Command(Command::Alloc(13)),
    ]?;
    let mut space = NestSpace::new(alloc);
    three_ids_stay(&rt, &mut space, lines)
}

// Tries these lines: only the last ones are balanced.
fn only_the_last_is_done(
    rt: &impl Abort,
    space: &mut NestSpace<u64>,
    closed_first: Vec<NestLine<u64>>,
    left_open: Vec<NestLine<u64>>,
    empty_inside: Vec<NestLine<u64>>,
) -> Result<(), Fail> {
    assert!(rt; applied(space, nest(closed_first, End::Commit)).is_none());
    assert!(rt; applied(space, nest(left_open, End::Commit)).is_none());
    assert!(rt; is_committed(space, empty_inside));
    assert!(rt; is_empty(space));
    Ok(())
}

#[test]
fn only_closed_lines_are_balanced(rt: HostRuntime) -> Result<(), Fail> {
    let alloc = rt.alloc();
    let closed_first = vec![in alloc; NestLine::Commit, NestLine::Begin]?;
    let left_open = vec![in alloc; NestLine::Begin, NestLine::Begin, NestLine::Abort]?;
    let empty_inside = vec![in alloc;
        NestLine::Begin,
        NestLine::Abort,
        NestLine::Begin,
        NestLine::Commit,
    ]?;
    let mut space = NestSpace::new(alloc);
    only_the_last_is_done(&rt, &mut space, closed_first, left_open, empty_inside)
}

// So many parts, each inside the one before, with a push in the innermost one.
fn deep(alloc: Global, depth: usize) -> Result<TryVec<NestLine<u64>>, OutOfMemory> {
    let mut lines = TryVec::new(alloc);
    for _ in 0..depth {
        lines.push(NestLine::Begin)?;
    }
    lines.push(NestLine::Command(Command::Push(7)))?;
    for _ in 0..depth {
        lines.push(NestLine::Commit)?;
    }
    Ok(lines)
}

// Does these lines: they push 7.
fn seven_is_pushed(
    rt: &impl Abort,
    space: &mut NestSpace<u64>,
    lines: TryVec<NestLine<u64>>,
) -> Result<(), Fail> {
    let end = End::Commit;
    assert!(rt;
        matches!(
            &applied(space, Nest { lines, end }),
            Some(Ok(Done::Committed))
        )
    );
    assert_eq!(rt; space.list(), [7].as_slice());
    Ok(())
}

#[test]
fn a_depth_of_a_hundred_thousand_takes_no_stack(rt: HostRuntime) -> Result<(), Fail> {
    let alloc = rt.alloc();
    let lines = deep(alloc, 100000)?;
    let mut space = NestSpace::new(alloc);
    seven_is_pushed(&rt, &mut space, lines)
}

// Reserves in this empty space: the room is the greatest number that was accepted.
fn room_is_the_greatest(rt: &impl Abort, space: &mut NestSpace<u64>) -> Result<(), Fail> {
    assert_eq!(rt; space.room(), 0);
    assert!(rt; space.reserve(8).is_ok());
    assert!(rt; space.reserve(4).is_ok());
    assert!(rt; matches!(&space.reserve(4294967295), Err(ReserveRefusal::TooLarge)));
    assert_eq!(rt; space.room(), 8);
    Ok(())
}

#[test]
fn room_is_accepted_and_never_lowered(rt: HostRuntime) -> Result<(), Fail> {
    let mut space = NestSpace::new(rt.alloc());
    room_is_the_greatest(&rt, &mut space)
}
