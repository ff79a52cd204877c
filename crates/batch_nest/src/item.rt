//! The items of a script of nests, as they are read.
use crate::nest::Nest;
use wic_vec::TryVec;

/// One item of a script of nests.
#[derive(Drop)]
pub enum NestItem {
    /// Makes the room at least this large.
    Reserve(u64),
    /// Writes list, set, table and the next id.
    Show,
    /// Takes effect whole, but for the inner batches that end in `Abort`, or not at all.
    Nest(Nest<u64>),
}

/// A script of nests that was read whole.
#[derive(Drop)]
pub struct NestScript {
    /// The items, in order.
    pub items: TryVec<NestItem>,
}
