//! What the other crates of this port stand on: out of memory as a value, a guard that undoes, and numbers that are never
//! the greatest of their type.
//!
//! [`OutOfMemory`] says how many bytes were asked for. It takes no memory itself, is `Copy`, and is merged with no other
//! refusal. [`Undo`] guards a value with the function that undoes what is done to it. `NonMaxU8` to `NonMaxUsize` hold
//! every number of their type but the greatest, and `new` is the test. [`truncate_i32_to_i16`] and [`truncate_i32_to_i8`]
//! say by their name that high bits are meant to go.
//!
//! ```
//! // Takes the counter n steps forward, all or none, as `inc_n` in `src/callers.rt`, proved from the contracts alone.
//! fn inc_n(counter: Counter, n: u64, end: u64) -> Result<Counter, Counter>
//!     requires { counter.done ≡ 0 }
//!     ensures forward { IfOk result (λ c. c.value ≡ counter.value + n) }
//!     ensures back { IfErr result (λ c. c.value ≡ counter.value) }
//! ```
//!
//! `Undo::roll_back` has no counterpart in Rust, where a guard rolls back when it is dropped.
//!
//! **Out of memory.** No call of this crate allocates. A call of another crate that finds no memory returns `OutOfMemory`,
//! and its contract says what it leaves.
//!
//! **Limits.** A guard is only as good as its function: what that doesn't undo stays. A guard can't be forgotten, since it
//! must be committed or rolled back, but nothing says which. An `OutOfMemory` tells what was asked for, and not what there is.
//!
//! **Costs.** Each call takes a few instructions; a guard moves its value in and out, and nothing behind it.
#![tactic(auto)]

#[cfg(test)]
mod callers;
mod non_max;
mod oom;
mod steps;
mod truncate;
mod undo;

pub use non_max::{NonMax, NonMaxNumber, NonMaxU8, NonMaxU16, NonMaxU32, NonMaxU64, NonMaxUsize};
pub use oom::{GREATEST_SIZE, OutOfMemory, TEXT_BEFORE_SIZE, TEXT_BEHIND_SIZE};
pub use steps::Steps;
pub use truncate::{truncate_i32_to_i8, truncate_i32_to_i16};
pub use undo::Undo;
