//! Scripts of batches: how they are read and run, and how replies are written.
//!
//! A script is a list of items: `reserve n` makes the room larger, `show` tells all that is held, and a batch of commands takes
//! effect whole or not at all. `parse` returns the items of a script, `run` the text of its replies, and `top` is the whole program:
//! words, a source and a sink in, a status out. `generate` makes a script from two numbers, to try a load with, and `summary` runs a
//! script and says in seven lines what it came to. Items run on any `Space`: a workspace, and the bodies that it applies. Nothing here
//! has a counterpart in the Rust crates.
//!
//! ```
//! pub fn run_in_memory(alloc: Global, script: TryVec<u8>, room: usize) -> Result<(Status, MemSink), OutOfMemory>
//! ```
//!
//! in `src/callers.rt` runs a script that is in memory, and is proved from the contract of `top` alone: if the room is enough, the
//! sink holds the whole text of one run, or the line of out of memory. `serve_script` there says which statuses are possible over
//! any devices. `batch/src/main.rt` calls `top` over standard input and output.
//!
//! The clause `headline` of `top` is the main theorem: `specs/Headline`. `specs/Grammar` says which inputs are scripts,
//! `specs/Machine` what a run is, `specs/Reply` the text of replies. The clause `concludes` says how a call came to its status:
//! `specs/Status` has the one table, `CallsFor`. The clause `ends` says which statuses are possible. Three laws say what can be read
//! back: the lines of a script tell its items (`law_one_script`), the text of a run tells its replies (`law_one_run`), and a script
//! that first reserves all its room has one text alone (`law_plain_run`).
//!
//! A caller that passes its own device gets whatever the `reaches` of that device states, with a bound on the reads and writes that
//! moved bytes. No device is called again after a call of it failed, nor a source after its end: `can_call`.
//!
//! The text of `show` computes for known contents, by `simp shows` of `proofs/ShownFacts` with `digits` unfolded, as in
//! `few_are_shown` of `proofs/Rows`; the caller `show_two` has its text letter by letter.
//!
//! **What it does not protect against.** Nothing is written before the whole input was read and run. What a real file or terminal
//! gives or takes is not proved, only what is done with the bytes that a source tells.
//!
//! **What it costs.** Time in proportion to input and output; each byte of the input is read once. Memory for the input, for 24 bytes
//! per command of the script and 24 per record of the largest batch, for what is held, and for the text. Nothing is allocated per
//! line or number beyond that, but for a refusal with a cause, whose line makes an error. At most 67108865 reads give
//! bytes, and at most as many writes take bytes as the text has.
//!
//! **When memory runs out.** A batch or a reservation beyond the room may be refused with `refused: out of memory`; it leaves no
//! trace, and the run goes on. If the script or a reply finds no memory, the run ends with `RunError::Oom`: `reserve` first, or
//! split the script. A summary ends at the first item that finds no memory.
#![tactic(auto)]

mod batches;
mod callers;
mod device;
mod generator;
mod item;
mod kind;
mod laws;
mod line;
mod line_reader;
mod memory_device;
mod number;
mod parser;
mod program;
mod reply;
mod run_error;
mod runner;
mod space;
mod summarizer;
mod words;

pub use batches::{Batches, top};
pub use device::{Device, Failed, Sink, Source};
pub use generator::generate;
pub use item::{Item, Script};
pub use kind::BatchKind;
pub use laws::{law_one_run, law_one_script, law_plain_run};
pub use line::Numbers;
pub use line_reader::{LineReader, LineRefusal, read_script};
pub use memory_device::{CountSink, MemSink, MemSource, PlainSource};
pub use parser::{Start, command_of, end_of, parse, parse_command, start_of};
pub use program::{Asked, INPUT_LIMIT, Program, ReadEnd, Status, read_input, serve, write_text};
pub use reply::push_reply;
pub use run_error::RunError;
pub use runner::{Runner, run, run_body, run_items, run_reserve, run_show};
pub use space::Space;
pub use summarizer::summary;
pub use words::MOST_BATCHES;
