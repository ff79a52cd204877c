//! Error chains that give way to out of memory.
//!
//! An `Error<K>` says what went wrong as a chain of links: the root cause, and the contexts that were put in front of it
//! on the way up. The caller chooses what a link is: any type that implements `Kind`, with a number by which links are
//! looked for and a text. If there is no memory for a link, the error becomes out of memory, which takes none and goes
//! through every further call as it is, so that a caller never meets a third outcome.
//!
//! ```text
//! fn find(alloc: Global, devices: &[u64], id: u64) -> Result<usize, Error<Trouble>>
//!
//! pub fn launch(alloc: Global, devices: &[u64], id: u64) -> Result<usize, Error<Trouble>>
//! ```
//!
//! Both are proved in `src/callers.rt`: a place that they return is the device's, and a failure is one link each, or out
//! of memory. The `line` of what `launch` returns for device 7 is `aborting launch: no device 7`, and its `report` is
//!
//! ```text
//! aborting launch
//!
//! Caused by:
//!     no device 7
//! ```
//!
//! **Limits.** Numbers are the caller's own: two kinds with one number are one kind to `downcast`. There is no backtrace,
//! and a link has no source of its own. A `Kind` writes what its own `text` says; nothing checks that it can be read.
//!
//! **Costs.** Links lie in one list, the root first: `context` pushes, in amortised constant time, and no link is cloned.
//! `new` and `context` may allocate, and each text allocates its own memory, but for `push_line`, which puts the line at
//! the end of a text. `is` and the downcasts visit each link at most once, the newest first; `chain`, `root_cause`,
//! `from_oom` and all calls on a value don't allocate.
//!
//! **Out of memory.** `new`, `msg` and `context` return an error that is out of memory, and the links are dropped.
//! `is_oom` tells it from the others, and `root_cause` has its size. The texts return `OutOfMemory` themselves and leave
//! the error as it was: free some memory and ask again, or print `root_cause`, which allocates nothing.
#![tactic(auto)]

#[cfg(test)]
mod callers;
mod chain;
mod context;
mod error;
mod kind;
mod report;
mod repr;
#[cfg(test)]
mod tests;

pub use chain::{Chain, ChainItem};
pub use context::{Context, ok, result_context, result_with_context};
pub use error::Error;
pub use kind::Kind;
