//! Values under ids, which are handed out in a stated order.
//!
//! A [`Slab`] is the base of a resource table: it holds values, picks a small id for each, and finds, writes and takes out
//! a value by its id in constant time. Freed ids are reused last-in, first-out, so the ids stay small. This order is
//! promised: undo steps in reverse order, and later ids are as if the steps had never happened, by the laws in [`laws`],
//! which have no counterpart in Rust.
//!
//! # Example
//!
//! ```
//! pub fn hold_both<T: Drop>(slab: &mut Slab<T>, first: T, second: T) -> Result<(Id, Id), OutOfMemory>
//! ```
//!
//! It holds both values or none: it reserves the room for both before it holds the first. `src/callers.rt` has it, proved
//! from the contracts and laws alone.
//!
//! # Out of memory
//!
//! Only `with_capacity`, `reserve` and `alloc` allocate, and `alloc` only if the live ids are as many as the capacity.
//! After a refusal the slab is as before. Reserve first if a later `alloc` must not be refused; `try_alloc` never
//! allocates and hands the value back if there is no room.
//!
//! # What it doesn't protect against
//!
//! An id is a plain number. A freed id finds the value that has it now, and an id of another slab finds what this one
//! holds under that number. If users get the ids, take the crate gen_slab, which puts a generation beside each.
//!
//! # Costs
//!
//! | call | time |
//! |---|---|
//! | `try_alloc`, `get`, `get_mut`, `contains`, `dealloc`, `next_id`, `len`, `capacity` | constant |
//! | `alloc` | constant, except for growth, which doubles the room |
//! | `iter`, `iter_mut`, `drain`, `clear` | the most ids that were live at once since the last `clear` or `drain` |
#![tactic(auto)]

#[cfg(test)]
mod callers;
mod drain;
mod id;
mod iter;
mod iter_mut;
pub mod laws;
mod slab;
#[cfg(test)]
mod tests;

pub use drain::Drain;
pub use id::Id;
pub use iter::Iter;
pub use iter_mut::IterMut;
pub use laws::{law_give_back, law_order_stays, law_take_back};
pub use slab::{MAX_CAPACITY, Slab};
