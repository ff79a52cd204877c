//! The program: reads a script of nested batches from standard input and writes the replies to standard output.
#![tactic(auto)]

use batch_nest::nest_top;
use standard_device::{StdSink, StdSource, words};
use std::process::ExitCode;

/// Ends with the code of the status. If the words of the command line can't be had, nothing is written.
fn main(rt: HostRuntime) -> ExitCode {
    let status = match words(&rt) {
        Ok(words) => {
            let mut source = StdSource::new(rt.stdin());
            let mut sink = StdSink::new(rt.stdout());
            nest_top(rt.alloc(), &words, &mut source, &mut sink)
        }
        Err(status) => status,
    };
    ExitCode::from(status.code())
}
