//! Standard input and output as devices of a program, and the words of its command line.
//!
//! A program over scripts is `batch_script::serve` or `batch_script::top` over any source and any sink; this crate has those of the
//! process, so that the program is a few lines:
//!
//! ```
//! fn main(rt: HostRuntime) -> ExitCode
//! ```
//!
//! in `batch/src/main.rt` hands [`StdSource`], [`StdSink`] and [`words`] to `top`, and ends with the code of the status.
//!
//! **What it does not protect against.** Nothing is promised of the bytes that a real file or terminal gives or takes: both devices tell
//! none. A write is flushed at once, and an error of the flush is a failed write.
//!
//! **What it costs.** One system call per read, and one per write with its flush. [`words`] allocates one text per word.
//!
//! **When memory runs out.** Reads and writes don't allocate. [`words`] returns the status for out of memory, and nothing is written.
#![tactic(auto)]

mod command_line;
mod device;
mod flushed;

pub use command_line::words;
pub use device::{StdSink, StdSource};
