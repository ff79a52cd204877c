//! Whole scripts of nests over devices in memory, and the bytes of their replies.
use crate::{NestItem, Nests, nest_parse, nest_top};
use batch_script::{MemSink, MemSource, Program, RunError, Status};
use std::alloc::Global;
use std::test::Fail;
use wic_base::OutOfMemory;
use wic_vec::{TryString, TryVec};

// A status, and what the sink holds then.
#[derive(Drop)]
struct Answer {
    status: Status,
    sink: MemSink,
}

fn run_nests(alloc: Global, words: &[&str], input: &[u8]) -> Result<Answer, OutOfMemory> {
    let mut bytes = TryVec::new(alloc);
    bytes.extend_from_slice(input)?;
    let mut given = TryVec::new(alloc);
    for word in words {
        given.push(TryString::try_from_str(alloc, word)?)?;
    }
    let mut source = MemSource::new(bytes, 4096, TryVec::new(alloc));
    let mut sink = MemSink::new(alloc, 4096, 4096, TryVec::new(alloc))?;
    let status = nest_top(alloc, &given, &mut source, &mut sink);
    Ok(Answer { status, sink })
}

#[test]
fn scripts_of_nests_are_answered_by_the_text_of_their_run(rt: HostRuntime) -> Result<(), Fail> {
    for (input, text) in [
        // An inner abort gives up the inner part alone, its id too.
        (
            "begin\npush 1\nbegin\npush 2\nalloc 5\nabort\npush 3\ncommit\nshow\n",
            "ok\nok\ncommitted\nlist 1 3\nset\ntable\nnext 0\n",
        ),
        // A bad command refuses the whole nest, though it stands in a part that is aborted.
        (
            "begin\nbegin\npop\nabort\ncommit\n",
            "refused: command 1: list is empty\n",
        ),
        // The outer abort gives up what an inner commit kept.
        (
            "begin\nbegin\npush 1\ncommit\nabort\nshow\n",
            "aborted\nlist\nset\ntable\nnext 0\n",
        ),
        // What an aborted part freed is there again.
        (
            "begin\nalloc 1\nbegin\nfree 0\nabort\ncommit\nshow\n",
            "id 0\ncommitted\nlist\nset\ntable 0=1\nnext 1\n",
        ),
        (
            "reserve 3\nbegin\npush 1\nbegin\npush 2\nabort\npush 3\ncommit\n",
            "reserved\nok\nok\ncommitted\n",
        ),
        // An empty inner batch, and values that an aborted part cut off.
        ("begin\nbegin\ncommit\ncommit\n", "committed\n"),
        (
            "begin\npush 1\npush 2\nbegin\ntruncate 0\nabort\ncommit\nshow\n",
            "ok\nok\ncommitted\nlist 1 2\nset\ntable\nnext 0\n",
        ),
        // Ids after two inner aborts.
        (
            "begin\nbegin\nalloc 1\nalloc 2\nabort\nbegin\nalloc 3\nabort\nalloc 4\ncommit\nshow\n",
            "id 0\ncommitted\nlist\nset\ntable 0=4\nnext 1\n",
        ),
    ] {
        let answer = run_nests(rt.alloc(), &[], input.as_bytes())?;
        assert_eq!(rt; answer.status, Status::Done, "at {input:?}");
        assert_eq!(rt; answer.sink.bytes(), text.as_bytes(), "at {input:?}");
    }
    Ok(())
}

#[test]
fn the_line_of_a_fault_is_told(rt: HostRuntime) -> Result<(), Fail> {
    for (input, text) in [
        // Two begins and one end: the fault is behind the last line.
        ("begin\nbegin\ncommit\n", "error: syntax at line 4\n"),
        ("commit\n", "error: syntax at line 1\n"),
        // Neither a show nor a reservation stands in a batch.
        ("begin\nbegin\nshow\n", "error: syntax at line 3\n"),
        ("begin\nreserve 1\ncommit\n", "error: syntax at line 2\n"),
        // A number of 2^64.
        (
            "begin\npush 18446744073709551616\ncommit\n",
            "error: syntax at line 2\n",
        ),
        // One end more than there are begins.
        ("begin\nabort\nabort\n", "error: syntax at line 3\n"),
    ] {
        let answer = run_nests(rt.alloc(), &[], input.as_bytes())?;
        assert_eq!(rt; answer.status, Status::Syntax, "at {input:?}");
        assert_eq!(rt; answer.sink.bytes(), text.as_bytes(), "at {input:?}");
    }
    Ok(())
}

#[test]
fn any_word_asks_for_the_usage(rt: HostRuntime) -> Result<(), Fail> {
    let answer = run_nests(rt.alloc(), &["gen"], b"show\n")?;
    assert_eq!(rt; answer.status, Status::Usage);
    assert_eq!(rt; answer.sink.bytes(), b"usage: nest\n".as_slice());
    assert_eq!(rt; Nests::usage(), "usage: nest\n");
    Ok(())
}

#[test]
fn a_depth_of_100000_takes_no_stack(rt: HostRuntime) -> Result<(), Fail> {
    let alloc = rt.alloc();
    let mut input = TryString::new(alloc);
    for _ in 0..100000 {
        input.push_str("begin\n")?;
    }
    input.push_str("push 7\n")?;
    for _ in 0..100000 {
        input.push_str("commit\n")?;
    }
    let answer = run_nests(alloc, &[], input.as_str().as_bytes())?;
    assert_eq!(rt; answer.status, Status::Done);
    assert_eq!(rt; answer.sink.bytes(), b"ok\ncommitted\n".as_slice());
    Ok(())
}

#[test]
fn the_items_of_a_script_are_told_apart(rt: HostRuntime) -> Result<(), Fail> {
    let alloc = rt.alloc();
    let script = match nest_parse(alloc, b"reserve 2\nshow\nbegin\nbegin\nabort\nabort\n") {
        Ok(script) => script,
        Err(RunError::Oom) => return Err(Fail::from(OutOfMemory::new(0))),
        Err(RunError::Syntax { .. }) => panic!(rt; "a script"),
    };
    let items = script.items.as_slice();
    assert!(rt;
        items.len() == 3
            && matches!(&items[0], NestItem::Reserve(2))
            && matches!(&items[1], NestItem::Show)
    );
    assert!(rt;
        matches!(&items[2], NestItem::Nest(nest) if nest.is_balanced() && nest.lines.len() == 2)
    );
    Ok(())
}
