//! Commands, and the batches that they stand in.
use wic_base::OutOfMemory;
use wic_vec::TryVec;

/// One command of a batch.
#[derive(Debug, Drop, PartialEq, Eq)]
pub enum Command<T> {
    /// Puts the value at the end of the list.
    Push(T),
    /// Takes the last value of the list out.
    Pop,
    /// Puts the value in this place of the list, counted from 0.
    Set(u64, T),
    /// Holds the value under the next id.
    Alloc(T),
    /// Frees this id, and takes its value out.
    Free(u64),
    /// Puts the value under this id, which is live.
    Put(u64, T),
    /// Puts the number into the set.
    Insert(u64),
    /// Takes the number out of the set.
    Remove(u64),
    /// Keeps so many values of the list, from the first one, and takes the others out.
    Truncate(u64),
}

/// How a batch ends: what it did stays, or is undone.
#[derive(Clone, Copy, Debug, PartialEq, Eq)]
pub enum End {
    /// What the commands did stays.
    Commit,
    /// What the commands did is undone.
    Abort,
}

/// Commands that take effect together or not at all.
#[derive(Drop)]
pub struct Batch<T> {
    pub commands: TryVec<Command<T>>,
    pub end: End,
}

/// Why a command isn't done. Causes compare without the size in an `Oom`, which no contract states.
#[derive(Clone, Copy, Debug)]
#[derive_where(PartialEq, Eq)]
pub enum Cause {
    /// The list is empty.
    Empty,
    /// The place isn't below the length of the list; or more values are to be kept than there are.
    Position,
    /// The id isn't live.
    Vacant,
    /// As many ids are live as there can be.
    Full,
    /// The number is above the greatest that the set can have.
    TooLarge,
    /// Out of memory, for the effect of the command or for its records.
    Oom(#[derive_where(skip(EqHashOrd))] OutOfMemory),
}
