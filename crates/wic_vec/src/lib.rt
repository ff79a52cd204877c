//! Vectors and texts whose growth can be refused.
//!
//! A [`TryVec`] is a vector and a [`TryString`] a text for programs that go on when memory runs out: each call that may
//! allocate returns [`OutOfMemory`](wic_base::OutOfMemory) if that fails, and its contract says when that can happen and
//! what is left then. A vector acts as the slice of its elements. [`TryClone`] is a copy that can be refused.
//!
//! ```
//! // Both numbers or neither, as `push_both` in `src/callers.rt`, proved from the contracts alone.
//! pub fn push_both(v: &mut TryVec<u32>, first: u32, second: u32) -> Result<(), OutOfMemory>
//!     ensures both { OnOk result (v.new.items ≡ v.old.items ++ first ∷ second ∷ []) }
//!     ensures refusal_leaves { OnErr result (v.new ≡ v.old) }
//! ```
//!
//! `push_reserved`, `from_clones`, `extend_from_slice`, `push_decimal`, `push_decimal_line` and `push_number` have no
//! counterpart in Rust. For a caller of `retain`, `retain_mut` or `resize_with` the lemmas in `proofs/ClosureFacts` say
//! what becomes of the elements.
//!
//! **Out of memory.** Below the capacity no growth is refused, so reserve first what must not fail later. A copy of an
//! element may still be refused memory of its own, in `resize` and `from_clones`. After a refusal the value is as before,
//! except for `resize`, which leaves the copies that it made. A value that was to be pushed is dropped.
//!
//! **Limits.** No contract says when the allocator has memory, nor in which order elements are dropped, nor how much more
//! than asked for `reserve` takes. `extend_from_slice`, `push_str` and the like take what they are given: bound untrusted
//! input first. After `for x in &mut v` a caller's proof knows length and capacity alone; after `for x in v.iter_mut()`
//! it knows each element.
//!
//! | call | time |
//! |---|---|
//! | `push`, `pop`, `get`, `len`, `capacity` | constant, except for growth, which doubles the room |
//! | `retain`, `retain_mut`, `drain`, `resize`, `try_clone` | one pass over the elements |
//! | a comparison | up to the first difference |
//! | `push_decimal` and the like | two digits a step, from a table; one copy, and no allocation but the text's growth |
#![tactic(auto)]

mod boxes;
#[cfg(test)]
mod callers;
mod string;
mod try_clone;
mod vec;

pub use boxes::{TryNew, try_new};
pub use string::{LONGEST_WORD, TryString};
pub use try_clone::TryClone;
pub use vec::{Drain, TryVec};
