//! What the calls of a workspace return.
use crate::command::Cause;
use wic_base::OutOfMemory;

/// How a batch was done.
#[derive(Clone, Copy, Debug, PartialEq, Eq)]
pub enum Done {
    /// All commands took effect.
    Committed,
    /// All commands could be done, and were undone.
    Aborted,
}

/// Why a batch wasn't done.
#[derive(Clone, Copy, Debug, PartialEq, Eq)]
pub struct Refusal {
    /// Why the command wasn't done.
    pub cause: Cause,
    /// The number of the command in the batch, from 1; or 0 if memory ran out for the records, which are reserved before the
    /// first command.
    pub at: u64,
}

/// Why there is no more room. Refusals compare without the size in an `Oom`, which no contract states.
#[derive(Clone, Copy, Debug)]
#[derive_where(PartialEq, Eq)]
pub enum ReserveRefusal {
    /// No table can have so many live ids.
    TooLarge,
    /// Out of memory.
    Oom(#[derive_where(skip(EqHashOrd))] OutOfMemory),
}
