//! Which variables are live at the start of each block of a graph: those whose value there may still be used.
//!
//! A [`Graph`] has blocks, each with ops, which use and define variables, and with successors. A use is exposed in its block if no
//! op before it in the block defines its variable. A variable is live at a block if a path of successors, which may have no edge,
//! leads from there to a block that exposes a use of it, and no block before that one defines it. The contract of
//! [`Graph::live_in`] speaks of these paths and not of passes over sets. [`law_flow`] has the same as an equation: live at a block is
//! what is used there before any definition, and what isn't defined there and is live at a successor.
//!
//! Two graphs with the variables that are live at each block:
//!
//! ```text
//!     0: def 0        live: none                0:                live: 3
//!     |                                        | ^
//!     v  +---+                                 v |
//!     1: use 0, def 1   live: 0                1: use 3           live: 3
//!     |  ^   |
//!     |  +---+  (back to itself)
//!     v
//!     2: use 1        live: 1
//! ```
//!
//! # Example
//!
//! `callers::may_be_used` tells a register allocator exactly whether the value of `v` at the start of block `b` may still be used:
//!
//! ```
//! pub fn may_be_used<L: Ledger>(graph: &Graph, alloc: Global, b: Block, v: Var, steps: &mut Steps<L>) -> Result<bool, OutOfMemory>
//! ```
//!
//! # Costs, and out of memory
//!
//! `add_block`, `add_op` and `add_edge` take amortised constant time, and leave the graph as before if they are refused. For n
//! blocks `live_in` makes at most n (n + 1) visits, also if it is refused: this is a clause. The first visit of a block reads its
//! ops, a later one takes a step for each successor and 64 variables. It allocates two sets per block, and one for all visits.
//!
//! # What it doesn't protect against
//!
//! A set is as large as its greatest variable: number variables from 0 on. Blocks and variables of another graph are taken for
//! those of this one if their numbers are in range.
#![tactic(auto)]

#[cfg(test)]
mod callers;
mod graph;
pub mod laws;
mod live;
#[cfg(test)]
mod tests;

pub use graph::{Block, BlockBody, Graph, GraphRefusal, MOST_BLOCKS, Op, Var};
pub use laws::law_flow;
