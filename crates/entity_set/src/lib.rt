//! Sets of typed keys, and their algebra: what compilers keep blocks and variables in.
//!
//! A key is a number in a type of its own ([`EntityRef`]), so that a block can't be taken for a variable. An [`EntitySet`]
//! has one bit per key, in the words of a `CompoundBitSet`; the calls on two sets work a word at a time. A contract sees the
//! numbers of the keys, as a finite set below the limit of the key type, and a capacity, which no call lowers. The crate is after
//! Cranelift's entity sets; nothing of it is in the two Rust crates.
//!
//! # Example
//!
//! `callers::follow` follows the jumps of blocks with a worklist. It is proved to end, and to leave no work:
//!
//! ```
//! pub fn follow(work: &mut EntitySet<Block>, done: &mut EntitySet<Block>, jumps: &[u32]) -> Result<(), OutOfMemory>
//! ```
//!
//! # Out of memory
//!
//! Only `insert`, `union_with` and `ensure_capacity` grow a set. Each is refused only if a number is at the capacity or above, and
//! then the set is as before. `ensure_capacity` asks once for what later calls need.
//!
//! # What it doesn't protect against
//!
//! A set grows to its greatest number: a key with the number 4294967295 takes 520 MiB. So number entities from 0 on, and check
//! numbers from untrusted callers before you make keys of them. Sets of the blocks of two functions have one type: nothing
//! keeps the keys of one function out of the sets of the other.
//!
//! # Costs
//!
//! | call | time |
//! |---|---|
//! | `contains`, `is_empty`, `capacity` | constant |
//! | `insert` | constant, or a few steps into an empty word; growths copy no more words in all than there are in the end |
//! | `remove`, `pop` | constant, and a few steps if a word becomes empty or the greatest key goes |
//! | `keys`, `len`, `hash`, `clear`, `==` | each word that has a key, and a few steps for it |
//! | `intersect_with`, `subtract`, `is_subset`, `is_disjoint` | each word here that has a key, and a few steps for it |
//! | `union_with` | each word of the other that has a key, and a few steps for it; growths as for `insert` |
//! | `try_clone` | the words |
//!
//! A word has 64 keys. A few steps are at most two words in each of four levels, and four in the fifth; no clause says how many.
#![tactic(auto)]

#[cfg(test)]
mod callers;
mod compared;
mod entity;
mod keys;
pub mod laws;
mod set;
#[cfg(test)]
mod tests;

pub use entity::EntityRef;
pub use keys::Keys;
pub use laws::law_keys;
pub use set::EntitySet;
