//! Reads and writes that fail.
ghost use Rattle.std.specs.Prelude.{⊤, None};

use crate::program::{run_in_room, vector_of};
use batch_script::{
    CountSink, Device, Failed, MemSink, PlainSource, ReadEnd, Sink, Source, Status, read_input,
    top, write_text,
};
use std::test::Fail;
use wic_vec::TryVec;

const SCRIPT: &[u8] = b"begin\npush 7\ncommit\n";

#[test]
fn each_failed_read_or_write_ends_the_call_and_none_comes_after_the_last(
    rt: HostRuntime,
) -> Result<(), Fail> {
    let none: &[u64] = &[];
    let read_fault = "error: read fault\n";
    let all = "ok\ncommitted\n";
    for (reads, writes, status, held) in [
        ([1].as_slice(), none, Status::ReadFault, read_fault),
        ([2].as_slice(), none, Status::ReadFault, read_fault),
        ([3].as_slice(), none, Status::ReadFault, read_fault),
        ([4].as_slice(), none, Status::ReadFault, read_fault),
        ([5].as_slice(), none, Status::ReadFault, read_fault),
        ([6].as_slice(), none, Status::ReadFault, read_fault),
        ([7].as_slice(), none, Status::Done, all),
        (none, [1].as_slice(), Status::WriteFault, ""),
        (none, [2].as_slice(), Status::WriteFault, "ok\n"),
        (none, [3].as_slice(), Status::WriteFault, "ok\ncom"),
        (none, [4].as_slice(), Status::WriteFault, "ok\ncommit"),
        (none, [5].as_slice(), Status::WriteFault, "ok\ncommitted"),
        (none, [6].as_slice(), Status::Done, all),
        ([1].as_slice(), [2].as_slice(), Status::WriteFault, "err"),
    ] {
        let answer = run_in_room(rt.alloc(), 100, &[], SCRIPT, reads, writes)?;
        assert_eq!(rt;
            answer.status,
            status,
            "at reads {reads:?}, writes {writes:?}"
        );
        assert_eq!(rt;
            answer.sink.bytes(),
            held.as_bytes(),
            "at reads {reads:?}, writes {writes:?}"
        );
    }
    Ok(())
}

#[test]
fn a_failed_write_of_the_usage_is_a_write_fault(rt: HostRuntime) -> Result<(), Fail> {
    let answer = run_in_room(rt.alloc(), 100, &["x"], SCRIPT, &[], &[1])?;
    assert_eq!(rt; answer.status, Status::WriteFault);
    assert_eq!(rt; answer.sink.bytes(), b"".as_slice());
    Ok(())
}

#[test]
fn a_sink_that_keeps_no_byte_counts_them(rt: HostRuntime) -> Result<(), Fail> {
    let mut source = PlainSource::new(vector_of(rt.alloc(), SCRIPT)?);
    let mut sink = CountSink::new();
    let status = top(rt.alloc(), &TryVec::new(rt.alloc()), &mut source, &mut sink);
    assert_eq!(rt; status, Status::Done);
    assert_eq!(rt; sink.total(), 13);
    Ok(())
}

#[test]
fn a_sink_too_small_keeps_what_fits(rt: HostRuntime) -> Result<(), Fail> {
    let alloc = rt.alloc();
    let mut source = PlainSource::new(vector_of(alloc, SCRIPT)?);
    let mut sink = MemSink::new(alloc, 5, 3, TryVec::new(alloc))?;
    let status = top(alloc, &TryVec::new(alloc), &mut source, &mut sink);
    assert_eq!(rt; status, Status::WriteFault);
    assert_eq!(rt; sink.bytes(), b"ok\nco".as_slice());
    Ok(())
}

/// A source that remembers the longest buffer that it was asked to fill, and fails if it is asked after its end.
#[derive(Drop)]
struct StrictSource {
    inner: PlainSource,
    longest: usize,
    has_ended: bool,
    faults: u64,
}

impl Device for StrictSource {
    ghost faults = { λ s. s.faults };

    ghost can_call = { λ _. ⊤ };

    ghost reaches = { λ _ _ _. ⊤ };

    ghost stays = { λ _. tt };

    ghost goes_on = { λ _ _ _ _ _ _ _. tt };
}

impl Source for StrictSource {
    ghost left = { λ _. None };

    fn read(&mut self, buf: &mut [u8]) -> Result<usize, Failed> {
        self.longest = self.longest.max(buf.len());
        if self.has_ended {
            self.faults = self.faults.saturating_add(1);
            return Err(Failed);
        }
        match self.inner.read(buf) {
            Ok(count) => {
                self.has_ended = count == 0;
                Ok(count)
            }
            Err(Failed) => {
                self.faults = self.faults.saturating_add(1);
                Err(Failed)
            }
        }
    }
}

#[test]
fn reads_ask_for_4096_bytes_and_end_at_the_end(rt: HostRuntime) -> Result<(), Fail> {
    let alloc = rt.alloc();
    let mut source = StrictSource {
        inner: PlainSource::new(vector_of(alloc, SCRIPT)?),
        longest: 0,
        has_ended: false,
        faults: 0,
    };
    let mut sink = CountSink::new();
    let status = top(alloc, &TryVec::new(alloc), &mut source, &mut sink);
    assert_eq!(rt; status, Status::Done);
    assert_eq!(rt; source.longest, 4096);
    assert!(rt; source.has_ended);
    assert_eq!(rt; source.faults, 0);
    Ok(())
}

#[test]
fn no_text_makes_no_write(rt: HostRuntime) -> Result<(), Fail> {
    let answer = run_in_room(rt.alloc(), 100, &[], b"", &[], &[1])?;
    assert_eq!(rt; answer.status, Status::Done);
    Ok(())
}

#[test]
fn a_text_is_offered_whole(rt: HostRuntime) -> Result<(), Fail> {
    let alloc = rt.alloc();
    let mut sink = MemSink::new(alloc, 100, 100, vector_of(alloc, &[2])?)?;
    assert_eq!(rt; write_text("ten bytes!", &mut sink), Ok(()));
    assert_eq!(rt; sink.bytes(), b"ten bytes!".as_slice());
    Ok(())
}

/// A source with no end, which counts its reads.
#[derive(Drop)]
struct Endless {
    reads: u64,
}

impl Device for Endless {
    ghost faults = { λ _. 0 };

    ghost can_call = { λ _. ⊤ };

    ghost reaches = { λ _ _ _. ⊤ };

    ghost stays = { λ _. tt };

    ghost goes_on = { λ _ _ _ _ _ _ _. tt };
}

impl Source for Endless {
    ghost left = { λ _. None };

    fn read(&mut self, buf: &mut [u8]) -> Result<usize, Failed> {
        self.reads = self.reads.saturating_add(1);
        Ok(buf.len())
    }
}

// 16384 pieces of 4096 bytes are the limit, and one more is above it.
#[test]
fn an_input_above_the_limit_is_read_no_further(rt: HostRuntime) -> Result<(), Fail> {
    let mut source = Endless { reads: 0 };
    let ended = read_input(rt.alloc(), &mut source).err();
    assert_eq!(rt; ended, Some(ReadEnd::TooLong));
    assert_eq!(rt; source.reads, 16385);
    Ok(())
}

#[test]
fn a_plain_source_gives_its_bytes_once(rt: HostRuntime) -> Result<(), Fail> {
    let mut source = PlainSource::new(vector_of(rt.alloc(), b"abcde")?);
    let mut piece = [0; 3];
    for (count, held) in [(3, b"abc"), (2, b"dec"), (0, b"dec")] {
        assert_eq!(rt; source.read(&mut piece), Ok(count));
        assert_eq!(rt; piece.as_slice(), held.as_slice());
    }
    Ok(())
}

#[test]
fn a_sink_whose_room_is_used_up_fails(rt: HostRuntime) -> Result<(), Fail> {
    let mut sink = MemSink::new(rt.alloc(), 4, 3, TryVec::new(rt.alloc()))?;
    assert_eq!(rt; sink.room(), 4);
    for (piece, taken) in [
        (b"abcd".as_slice(), Ok(3)),
        (b"".as_slice(), Ok(0)),
        (b"de".as_slice(), Ok(1)),
        (b"e".as_slice(), Err(Failed)),
    ] {
        assert_eq!(rt; sink.write(piece), taken);
    }
    assert_eq!(rt; sink.bytes(), b"abcd".as_slice());
    Ok(())
}
