//! Items of iterators collected into vectors and slices whose growth can be refused, and content that is borrowed until it
//! has to be owned.
//!
//! A call that reads to the end returns Ok exactly with the items that the iterator gave, in order. A call with a stated
//! length reads that many. The caller `halves` is proved with no proof of its own:
//!
//! ```text
//! pub fn halves(alloc: Global, numbers: &[u32]) -> Result<TryVec<u32>, OutOfMemory>
//!     ensures items { IfOk result (λ v. v.items ≡ map (λ x. x / 2) numbers.now) }
//! {
//!     try_collect(alloc, numbers.iter().map(|x| *x / 2))
//! }
//! ```
//!
//! Each call says what it read as a run of its iterator (the clauses `runs`). The check follows a run through `map`,
//! `filter`, `take`, `zip`, `enumerate`, `rev` and `chain`, and from a range in `try_collect`, so callers of such chains
//! mostly need no proof; the file `callers` has one of each. Over results, `AreValues` and `EndWithError` say what was read place by place.
//!
//! Room is taken as items come, and never by the size hint of an iterator, so a wrong hint costs nothing. No call
//! requires that an iterator ends: one that doesn't is read until the call is out of memory. Which items stay unread is
//! tested; the contracts say that a slice of no items needs nothing of its iterator.
#![tactic(auto)]

mod array;
mod boxed;
mod builder;
#[cfg(test)]
mod callers;
mod collect;
mod cow;
mod errors;
mod extend;
mod from_iter;
mod owned;
mod slice;
mod text;

pub use array::array_try_from_fn;
pub use boxed::{
    new_boxed_slice_from_fallible_iter, new_boxed_slice_from_iter,
    new_boxed_slice_from_iter_with_len,
};
pub use builder::{BoxedSliceBuilder, boxed_slice_write_iter};
pub use cow::{TryCow, TryCowOf, TryCowSlice, TryCowStr, TryToOwned};
pub use errors::{BoxedSliceFromFallibleIterError, TooFewItems, TooFewItemsOrOom};
pub use extend::TryExtend;
pub use from_iter::{TryFromIterator, try_collect};
pub use owned::{slice_to_owned, str_to_owned};
pub use slice::{BoxedSlice, into_boxed_slice};
pub use text::{BoxedStr, into_boxed_str};

#[cfg(test)]
mod tests;
