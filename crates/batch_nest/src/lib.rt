//! Batches within batches. The crate has no counterpart in Rust.
//!
//! A nest is a batch that may hold inner batches, to any depth. An inner batch that ends in `Commit` leaves what it did; one that ends
//! in `Abort` leaves list, set, table and later ids as they were at its own start, and no records. A bad command anywhere, also in
//! a part that is aborted, refuses the whole nest, and nothing of it stays. So an inner batch is a savepoint:
//!
//! ```
//! pub fn go_on_from_savepoint<T: Drop>(alloc: Global, space: &mut NestSpace<T>, kept: Command<T>, tried: Command<T>,
//!     last: Command<T>) -> Result<Done, Refusal>
//! ```
//!
//! `callers::go_on_from_savepoint` does a command, tries another one in an inner batch that it aborts, and goes on. It is proved:
//! the last command stands in what the first one left, whatever the second did. `callers::reserve_and_apply` makes room and
//! then applies a nest that fits it: memory doesn't refuse it.
//!
//! `specs/Nest` says what a nest is: its lines are those of a body, a tree of commands and inner bodies, and `nest_course` gives
//! each command the contents in which it stands. `apply` asks for balanced lines, and `Nest::is_balanced` tests them; lines that are
//! known need no test (`law_balanced`). The laws in [`laws`] say that a nest without inner batches has the course of the batch of its
//! commands, that committed inner batches change nothing, what an inner abort leaves, that lines tell their body, and which rooms a
//! nest fits.
//!
//! A script of nests is a script whose batches are nests: `nest_parse` returns its items, `nest_run` the text of its replies, and
//! `nest_top` is the whole program, for which any word asks for the usage. `specs/Script` says what they are by the definitions of
//! batch_script, which take how a body is printed and what it comes to. The clause `headline` of `nest_top` is the main theorem.
//!
//! **Out of memory.** `apply` and `reserve` return `Oom`, and the contents have not changed then. A nest that fits the room is
//! never refused for memory: it has at most so many command lines and at most so many `Begin` lines as the room says, and no
//! command passes the room where it stands. Values that aborted parts cut off count too. Reserve less, free something, or go on with
//! smaller nests.
//!
//! **What it doesn't protect against.** As for a `Workspace`: storage that a nest took stays after the nest or a part of it was
//! given up, a set takes memory for all numbers up to its greatest one, and the values of a refused nest are dropped.
//!
//! **Cost.** A nest takes the time of its commands, and an inner abort that of the records that it undoes. An inner batch takes 8
//! bytes while it is open; the depth takes no stack of the machine, and no memory of its own while a script is read.
#![tactic(auto)]

#[cfg(test)]
mod callers;
mod item;
pub mod laws;
mod levels;
mod nest;
mod parser;
mod program;
mod runner;
#[cfg(test)]
mod scripts;
mod space;
#[cfg(test)]
mod tests;

pub use item::{NestItem, NestScript};
pub use laws::{
    law_all_committed, law_balanced, law_inner_abort, law_larger_room, law_nest_counts_are_enough,
    law_one_body, law_one_nest_run, law_one_nest_script, law_plain_nest_run, law_without_inner,
};
pub use nest::{Nest, NestLine};
pub use parser::nest_parse;
pub use program::{Nests, nest_top};
pub use runner::nest_run;
pub use space::NestSpace;
