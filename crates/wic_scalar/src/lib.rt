//! Sets of small numbers, each kept in one unsigned integer: a number below the width is a member if the digit at its
//! place, in base two, is 1.
//!
//! A [`ScalarBitSet`] is a set of up to 128 numbers that costs as much as an integer: registers in use, flags, a word of a
//! larger set. It is written once, over the laws of [`ScalarBitSetStorage`], and proved once for `u8`, `u16`, `u32`, `u64`,
//! `u128` and `usize`. It is a port of the scalar half of `cranelift_bitset`.
//!
//! # Example
//!
//! `callers::take_least` takes the least number that isn't used yet, if there is one:
//!
//! ```
//! pub fn take_least<T: ScalarBitSetStorage>(free: &mut ScalarBitSet<T>) -> Option<u8>
//! ```
//!
//! A clause sees a set as the finite set `set_of` of its number, and a walk as the ascending list of what is left,
//! `members_of`. [`law_members`] says that the two have the same members. No call allocates, and none is refused.
//!
//! # What it doesn't protect against
//!
//! A number at the width or above has no place: `contains`, `insert` and `remove` require one below `capacity()`. `from` takes
//! any integer: each of its digits 1 is a member.
//!
//! # Costs
//!
//! Each call takes a few instructions, whatever the number of members, and so does each step of a walk.
#![tactic(auto)]

#[cfg(test)]
mod callers;
mod iter;
pub mod laws;
mod set;
mod storage;
#[cfg(test)]
mod tests;

pub use laws::law_members;
pub use set::ScalarBitSet;
pub use storage::ScalarBitSetStorage;

/// The names of `cranelift_bitset::scalar`.
pub mod scalar {
    pub use crate::iter::Iter;
    pub use crate::set::ScalarBitSet;
    pub use crate::storage::ScalarBitSetStorage;
}
