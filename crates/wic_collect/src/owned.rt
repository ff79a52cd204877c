//! Texts and slices of one's own from borrowed ones.
ghost use Rattle.std.specs.Prelude.{◌≡◌, IfOk};
ghost use Rattle.std.specs.List.{AllZip};

use std::alloc::Global;
use wic_base::OutOfMemory;
use wic_vec::{TryClone, TryString, TryVec};

/// Returns an owned text with the characters of `s`.
///
/// A port of `try_to_owned` of a text.
pub fn str_to_owned(alloc: Global, s: &str) -> Result<TryString, OutOfMemory>
    ensures text { IfOk result (λ text. text.bytes ≡ s.now) }
{
    TryString::try_from_str(alloc, s)
}

/// Returns a vector with a copy of each element of `s`, in order.
///
/// A port of `try_to_owned` of a slice.
pub fn slice_to_owned<T: TryClone>(alloc: Global, s: &[T]) -> Result<TryVec<T>, OutOfMemory>
    ensures same { IfOk result (λ v. AllZip T.same s.now v.items) }
{
    TryVec::from_clones(alloc, s)
}
