//! Words of the command line.
use crate::program::{run_in_room, run_program};
use batch_script::Status;
use std::test::Fail;

#[test]
fn words_that_ask_for_nothing_are_answered_by_the_usage(rt: HostRuntime) -> Result<(), Fail> {
    for words in [
        ["x"].as_slice(),
        [""].as_slice(),
        ["gen"].as_slice(),
        ["gen", "1"].as_slice(),
        ["gen", "0", "1", "2"].as_slice(),
        ["gen", "0", "100001"].as_slice(),
        ["gen", "00", "1"].as_slice(),
        ["gen", "0", "01"].as_slice(),
        ["gen", "-1", "1"].as_slice(),
        ["gen", "", "1"].as_slice(),
        ["gen", "18446744073709551616", "1"].as_slice(),
        ["Gen", "0", "1"].as_slice(),
    ] {
        let answer = run_in_room(rt.alloc(), 100, words, b"show\n", &[1], &[])?;
        assert_eq!(rt; answer.status, Status::Usage, "at {words:?}");
        assert_eq!(rt;
            answer.sink.bytes(),
            b"usage: batch [gen SEED N]\n".as_slice(),
            "at {words:?}"
        );
    }
    Ok(())
}

#[test]
fn a_generated_run_is_answered_by_its_summary_and_nothing_is_read(
    rt: HostRuntime,
) -> Result<(), Fail> {
    for seed in ["0", "1", "18446744073709551615"] {
        let answer = run_in_room(
            rt.alloc(),
            100,
            &["gen", seed, "0"],
            b"no script",
            &[1],
            &[],
        )?;
        assert_eq!(rt; answer.status, Status::Done, "at {seed:?}");
        assert_eq!(rt;
            answer.sink.bytes(),
            b"committed 0\naborted 0\nrefused 0\nlist 0\nset 0\nlive 0\nnext 0\n".as_slice(),
            "at {seed:?}"
        );
    }
    Ok(())
}

#[test]
fn a_failed_write_of_a_summary_leaves_its_front(rt: HostRuntime) -> Result<(), Fail> {
    let answer = run_in_room(rt.alloc(), 100, &["gen", "0", "0"], b"", &[], &[2])?;
    assert_eq!(rt; answer.status, Status::WriteFault);
    assert_eq!(rt; answer.sink.bytes(), b"com".as_slice());
    Ok(())
}

/// The number that the digits of a line write.
fn number_of(line: &[u8]) -> u64 {
    let mut number: u64 = 0;
    for byte in line {
        if byte.is_ascii_digit() {
            number = number.wrapping_mul(10).wrapping_add((*byte - b'0') as u64);
        }
    }
    number
}

#[test]
fn equal_words_make_equal_runs_and_each_batch_is_counted_once(rt: HostRuntime) -> Result<(), Fail> {
    let words = ["gen", "1", "1000"];
    let first = run_program(rt.alloc(), &words, b"")?;
    let second = run_program(rt.alloc(), &words, b"")?;
    assert_eq!(rt; first.status, Status::Done);
    assert_eq!(rt; second.status, Status::Done);
    assert_eq!(rt; first.sink.bytes(), second.sink.bytes());
    let mut batches: u64 = 0;
    let mut lines: u64 = 0;
    for line in first.sink.bytes().split(|byte| *byte == b'\n') {
        if lines < 3 {
            batches = batches.wrapping_add(number_of(line));
        }
        lines = lines.wrapping_add(1);
    }
    assert_eq!(rt; batches, 1000);
    assert_eq!(rt; lines, 8);
    Ok(())
}
