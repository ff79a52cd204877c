//! The items of a script, as they are read.
use batch_core::Batch;
use wic_vec::TryVec;

/// One item of a script.
#[derive(Drop)]
pub enum Item {
    /// Makes the room at least this large.
    Reserve(u64),
    /// Writes list, set, table and the next id.
    Show,
    /// Takes effect whole or not at all.
    Batch(Batch<u64>),
}

/// A script that was read whole.
#[derive(Drop)]
pub struct Script {
    /// The items, in order.
    pub items: TryVec<Item>,
}
