//! The parts of the program that stand on their own.
use crate::program::vector_of;
use batch_core::{Command, Record};
use batch_script::{
    Failed, MemSink, MemSource, ReadEnd, parse_command, push_reply, read_input, write_text,
};
use std::test::Fail;
use wic_vec::{TryString, TryVec};

#[test]
fn a_line_is_a_command_or_none(rt: HostRuntime) -> Result<(), Fail> {
    for (line, command) in [
        ("pop", Some(Command::Pop)),
        ("set 10 0", Some(Command::Set(10, 0))),
        ("", None),
        ("pop\n", None),
        ("push 07", None),
        ("commit", None),
    ] {
        assert_eq!(rt; parse_command(line.as_bytes()), command, "at {line:?}");
    }
    Ok(())
}

#[test]
fn a_record_shows_its_reply(rt: HostRuntime) -> Result<(), Fail> {
    let mut text = TryString::new(rt.alloc());
    for record in [
        Record::Pushed,
        Record::Cut(1),
        Record::Put { id: 2, old: 30 },
        Record::Inserted {
            number: 4,
            was_new: false,
        },
    ] {
        push_reply(&mut text, &record)?;
    }
    assert_eq!(rt; text.as_str(), "ok\nwas 30\npresent\n");
    Ok(())
}

#[test]
fn an_input_is_read_to_its_end_or_to_a_fault(rt: HostRuntime) -> Result<(), Fail> {
    let alloc = rt.alloc();
    let bytes = b"seven bytes".as_slice();
    for (failing, read) in [
        ([].as_slice(), Ok(bytes)),
        ([4].as_slice(), Err(ReadEnd::Fault)),
    ] {
        let mut source = MemSource::new(vector_of(alloc, bytes)?, 4, vector_of(alloc, failing)?);
        let input = read_input(alloc, &mut source);
        assert_eq!(rt;
            input.as_ref().map(|all| all.as_slice()).map_err(|end| *end),
            read
        );
    }
    Ok(())
}

#[test]
fn a_text_is_written_whole_or_up_to_a_fault(rt: HostRuntime) -> Result<(), Fail> {
    let alloc = rt.alloc();
    for (failing, result, written) in [
        ([].as_slice(), Ok(()), "seven bytes"),
        ([2].as_slice(), Err(Failed), "sev"),
    ] {
        let mut sink = MemSink::new(alloc, 100, 3, vector_of(alloc, failing)?)?;
        assert_eq!(rt; write_text("seven bytes", &mut sink), result);
        assert_eq!(rt; sink.bytes(), written.as_bytes());
    }
    Ok(())
}
