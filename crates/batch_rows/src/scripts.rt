//! Scripts and their replies, and inputs that are no script.
use crate::program::run_program;
use batch_core::{Batch, Command, End};
use batch_script::{Item, RunError, Script, Status, parse, run};
use std::test::Fail;

#[test]
fn scripts_are_answered_by_the_text_of_their_run(rt: HostRuntime) -> Result<(), Fail> {
    for (input, text) in [
        ("", ""),
        ("begin\npush 7\ncommit\n", "ok\ncommitted\n"),
        ("begin\npush 7\ncommit", "ok\ncommitted\n"),
        ("begin\ncommit\n", "committed\n"),
        ("begin\nabort\n", "aborted\n"),
        ("show", "list\nset\ntable\nnext 0\n"),
        (
            "begin\npush 7\npop\npop\ncommit\nshow\n",
            "refused: command 3: list is empty\nlist\nset\ntable\nnext 0\n",
        ),
        ("begin\npop\nabort\n", "refused: command 1: list is empty\n"),
        (
            "begin\nalloc 1\nalloc 2\nabort\nbegin\nalloc 5\ncommit\n",
            "aborted\nid 0\ncommitted\n",
        ),
        (
            "begin\ninsert 4294967296\ncommit\nbegin\nremove 18446744073709551615\ncommit\n",
            "refused: command 1: number is too large\nabsent\ncommitted\n",
        ),
        (
            "reserve 4294967295\n",
            "refused: reserve: number is too large\n",
        ),
        (
            "begin\nfree 18446744073709551615\ncommit\nbegin\nset 0 1\ncommit\n",
            "refused: command 1: id is not live\nrefused: command 1: position is not below the length\n",
        ),
    ] {
        let answer = run_program(rt.alloc(), &[], input.as_bytes())?;
        assert_eq!(rt; answer.status, Status::Done, "at {input:?}");
        assert_eq!(rt; answer.sink.bytes(), text.as_bytes(), "at {input:?}");
    }
    Ok(())
}

#[test]
fn what_a_batch_did_is_shown_or_gone(rt: HostRuntime) -> Result<(), Fail> {
    for (input, text) in [
        // Ids come again in the order of before, whatever a batch that was given up took.
        (
            "begin\nalloc 10\nalloc 11\nalloc 12\nfree 1\nfree 0\ncommit\nbegin\nalloc 1\n\
             alloc 2\nfree 2\nabort\nshow\nbegin\nalloc 20\nalloc 21\nalloc 22\ncommit\n",
            "id 0\nid 1\nid 2\nfreed 11\nfreed 10\ncommitted\naborted\nlist\nset\n\
             table 2=12\nnext 0\nid 0\nid 1\nid 3\ncommitted\n",
        ),
        // A room that was accepted, and a batch of each kind of command that is aborted.
        (
            "reserve 8\nbegin\npush 1\npush 2\npush 3\npush 4\npush 5\npush 6\npush 7\n\
             push 8\ncommit\nbegin\npop\nset 0 9\ninsert 7\ninsert 7\nremove 7\nabort\nshow\n",
            "reserved\nok\nok\nok\nok\nok\nok\nok\nok\ncommitted\naborted\n\
             list 1 2 3 4 5 6 7 8\nset\ntable\nnext 0\n",
        ),
        // Each line of a reply.
        (
            "begin\npush 5\npush 6\nset 1 8\npop\nalloc 30\nput 0 31\ninsert 9\ninsert 9\n\
             insert 2\nremove 9\nremove 9\ncommit\nshow\n",
            "ok\nok\nwas 6\npopped 8\nid 0\nwas 30\nnew\npresent\nnew\nremoved\nabsent\n\
             committed\nlist 5\nset 2\ntable 0=31\nnext 1\n",
        ),
        // The list is cut short, and what was cut off comes back.
        (
            "begin\npush 1\npush 2\npush 3\ntruncate 1\ntruncate 1\ncommit\nbegin\ntruncate 2\nabort\nshow\n",
            "ok\nok\nok\ncut 2\ncut 0\ncommitted\n\
             refused: command 1: position is not below the length\nlist 1\nset\ntable\n\
             next 0\n",
        ),
        // A set is shown by its members, however far apart they are.
        (
            "begin\ninsert 10000000\ninsert 0\ncommit\nshow\n",
            "new\nnew\ncommitted\nlist\nset 0 10000000\ntable\nnext 0\n",
        ),
        (
            "reserve 5\nbegin\npush 1\npush 2\ncommit\nbegin\npush 3\ntruncate 0\nabort\nshow\n",
            "reserved\nok\nok\ncommitted\naborted\nlist 1 2\nset\ntable\nnext 0\n",
        ),
    ] {
        let answer = run_program(rt.alloc(), &[], input.as_bytes())?;
        assert_eq!(rt; answer.status, Status::Done, "at {input:?}");
        assert_eq!(rt; answer.sink.bytes(), text.as_bytes(), "at {input:?}");
    }
    Ok(())
}

#[test]
fn what_is_no_script_is_refused_at_its_line(rt: HostRuntime) -> Result<(), Fail> {
    for (input, line) in [
        (b"\n".as_slice(), 1),
        (b"commit\n".as_slice(), 1),
        (b"push 7\n".as_slice(), 1),
        (b"begin\r\ncommit\r\n".as_slice(), 1),
        (b" begin\ncommit\n".as_slice(), 1),
        (b"begin \ncommit\n".as_slice(), 1),
        (b"BEGIN\ncommit\n".as_slice(), 1),
        (b" show".as_slice(), 1),
        (b"show ".as_slice(), 1),
        (b"show\r".as_slice(), 1),
        (b"reserve\n".as_slice(), 1),
        (b"reserve 8 9\n".as_slice(), 1),
        (b"show\n\xff\n".as_slice(), 2),
        (b"\0\n".as_slice(), 1),
        (b"begin\n\xff\ncommit\n".as_slice(), 2),
        (b"begin\n\ncommit\n".as_slice(), 2),
        (b"begin\npush\ncommit\n".as_slice(), 2),
        (b"begin\npush \ncommit\n".as_slice(), 2),
        (b"begin\npush  7\ncommit\n".as_slice(), 2),
        (b"begin\npush 7 \ncommit\n".as_slice(), 2),
        (b"begin\npush 07\ncommit\n".as_slice(), 2),
        (b"begin\npush 00\ncommit\n".as_slice(), 2),
        (b"begin\npush +7\ncommit\n".as_slice(), 2),
        (b"begin\npush -7\ncommit\n".as_slice(), 2),
        (b"begin\npush 7x\ncommit\n".as_slice(), 2),
        (b"begin\npush 18446744073709551616\ncommit\n".as_slice(), 2),
        (b"begin\nshow\ncommit\n".as_slice(), 2),
        (b"begin\nreserve 8\ncommit\n".as_slice(), 2),
        (b"begin\npop 1\ncommit\n".as_slice(), 2),
        (b"begin\nset 1\ncommit\n".as_slice(), 2),
        (b"begin\nset 1 2 3\ncommit\n".as_slice(), 2),
        (b"begin\nset  1 2\ncommit\n".as_slice(), 2),
        (b"begin\nbegin\n".as_slice(), 2),
        (b"begin\npush 1\n".as_slice(), 3),
        (b"begin\npush 1\n\ncommit\n".as_slice(), 3),
        (b"begin\npush 1\ncommit\n\n".as_slice(), 4),
    ] {
        match run(rt.alloc(), input) {
            Ok(_) => assert!(rt; false, "accepted {input:?}"),
            Err(refusal) => assert_eq!(rt; refusal, RunError::Syntax { line }, "at {input:?}"),
        }
    }
    Ok(())
}

#[test]
fn a_fault_of_the_script_is_one_line(rt: HostRuntime) -> Result<(), Fail> {
    let answer = run_program(rt.alloc(), &[], b"begin\npush 1\n")?;
    assert_eq!(rt; answer.status, Status::Syntax);
    assert_eq!(rt;
        answer.sink.bytes(),
        b"error: syntax at line 3\n".as_slice()
    );
    assert_eq!(rt; answer.status.code(), 1);
    Ok(())
}

/// Whether the script is one item, and that a batch of the one command `push 7` that is committed.
fn is_one_push(script: &Script) -> bool {
    match script.items.as_slice() {
        [Item::Batch(Batch { commands, end })] => {
            commands.as_slice() == [Command::Push(7)].as_slice() && *end == End::Commit
        }
        _ => false,
    }
}

#[test]
fn a_script_is_read_as_its_items(rt: HostRuntime) -> Result<(), Fail> {
    let alloc = rt.alloc();
    assert!(rt; is_one_push(&parse(alloc, b"begin\npush 7\ncommit\n")?));
    let shown = parse(alloc, b"show")?;
    assert!(rt; matches!(shown.items.as_slice(), [Item::Show]));
    let reserved = parse(alloc, b"reserve 3\nshow\n")?;
    assert!(rt; matches!(reserved.items.as_slice(), [Item::Reserve(3), Item::Show]));
    assert!(rt; matches!(parse(alloc, b"commit"), Err(RunError::Syntax { line: 1 })));
    Ok(())
}
