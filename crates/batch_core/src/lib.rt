//! A workspace: a list, a set and a table that change together or not at all. The crate has no counterpart in Rust.
//!
//! A batch of commands takes effect whole, or leaves list, set, table and later ids as they were: because a command is bad,
//! because memory ran out in the middle, or because the batch ends in `Abort`. Undoing allocates nothing and can't be
//! refused. If room was reserved, a batch that fits it is never refused for memory:
//!
//! ```
//! pub fn reserve_and_run<T: Drop>(workspace: &mut Workspace<T>, n: u64, batches: TryVec<Batch<T>>)
//!     -> Result<(), ReserveRefusal>
//! ```
//!
//! `callers::reserve_and_run` reserves and then applies each batch. It is proved: if each batch fits the room, the contents
//! are those that the plain machine of `specs/` comes to. Single steps do the same with `mark` and `back_to`
//! (`callers::keep_one_and_try_two`). The laws in [`laws`] tell what undoing gives, which rooms a batch fits, which it fits by
//! its counts alone (`callers::hold_by_batch`), and what `same_contents` compares.
//!
//! **Out of memory.** `step` and `apply` return `Oom`, `reserve` and `begin_records` an `OutOfMemory`, and the contents have
//! not changed then. Reserve less, free something, or go on with smaller batches. Any other cause comes before an allocation
//! and leaves the workspace as it was.
//!
//! **What it doesn't protect against.** `begin_records` forgets what was done: it can't be undone any more. Storage that a
//! batch took stays after the batch was given up. A set takes memory for all numbers up to its greatest one: check numbers
//! from untrusted callers before you insert them. Values that come back are the same values, but a value of a batch that is
//! refused is dropped.
//!
//! **Cost.** A `step` takes the time of the call that it makes on list, set or table, and that of its records; `back_to` that
//! of the records that it undoes. `apply` moves the workspace into a guard and back: its fields, and nothing behind them. The
//! storage of the records is kept from batch to batch.
#![tactic(auto)]

mod answer;
#[cfg(test)]
mod callers;
mod command;
pub mod laws;
mod record;
mod same;
mod store;
#[cfg(test)]
mod tests;
mod workspace;

pub use answer::{Done, Refusal, ReserveRefusal};
pub use command::{Batch, Cause, Command, End};
pub use laws::{
    law_alloc_adds_one, law_back_in_two, law_counts_are_enough, law_course_length, law_larger_room,
    law_same_contents, law_undo,
};
pub use record::Record;
pub use workspace::Workspace;
