//! Values under handles that are never found again once the value was taken out. The crate has no counterpart in Rust.
//!
//! An id of a slab is reused after it was freed, so a stale one may find another value. A handle here is an id with a
//! generation: how many values had been taken out when it was handed out. A handle whose value was taken out finds nothing
//! ever after, so it may be kept, copied, and handed to others:
//!
//! ```
//! pub fn open_and_close_twice(table: &mut GenerationalSlab<Resource>, resource: Resource) -> Result<bool, GenRefusal>
//! ```
//!
//! The second `dealloc` finds nothing. `callers` has it, in a resource table of several kinds, proved. A function that is
//! lent a slab learns of other handles from each call: live ones keep their values (`keeps`), and a handle whose value was
//! taken out is gone and stays gone (`keeps_gone`). `laws::law_stale` says the same over whole runs.
//!
//! **What it doesn't protect against.** A handle of one slab may be live in another: keep them apart if you have several. A
//! handle is no secret: whoever guesses numbers may find a live one. After 4294967296 values were taken out nothing can be
//! held any more (`Spent`), which at a million per second is after more than an hour: then begin a new slab.
//!
//! **Cost.** `alloc` takes amortised constant time, all other calls except `iter` constant time. An entry of eight bytes takes
//! 24.
//!
//! **Out of memory.** `alloc` may be refused if as many values are held as the capacity; then nothing has changed, and the
//! value is dropped.
#![tactic(auto)]

#[cfg(test)]
mod callers;
mod id;
mod iter;
pub mod laws;
mod slab;
#[cfg(test)]
mod tests;

pub use id::GenerationalId;
pub use iter::GenIter;
pub use laws::law_stale;
pub use slab::{GenRefusal, GenerationalSlab, Held};
