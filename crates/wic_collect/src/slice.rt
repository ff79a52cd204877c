//! Slices of a fixed length.
ghost use Rattle.std.specs.Prelude.{◌≡◌, length, IsOk, IfOk};

use std::alloc::Global;
use std::marker::Model;
use wic_base::OutOfMemory;
use wic_vec::{TryClone, TryVec};

/// A slice of its own, whose length stays. A contract sees it as the list of its elements.
///
/// A port of `Box<[T]>`.
#[derive(Drop)]
pub struct BoxedSlice<T> {
    items: TryVec<T>,
}

impl<T> Model for BoxedSlice<T> {
    ghost use Rattle.std.specs.Prelude.{List, ◌≡◌, length};

    ghost Value = { List T };

    ghost view = { λ s. s.items.items };

    ghost invariant = { λ s. s.items.capacity ≡ length s.items.items };
}

impl<T> BoxedSlice<T> {
    /// Returns the elements in place.
    pub fn as_slice(&self) -> &[T]
        ensures items { result.now ≡ self.now }
    {
        self.items.as_slice()
    }

    /// Returns the number of elements.
    pub fn len(&self) -> usize
        ensures length { result ≡ length self.now }
    {
        self.items.len()
    }

    /// Returns the elements as a vector, in the same memory, which has room for no more.
    pub fn into_vec(self) -> TryVec<T>
        ensures items { result.items ≡ self }
        ensures capacity { result.capacity ≡ length self }
    {
        self.items
    }

    // The elements of `items`, which has room for no more.
    pub(crate) fn of(items: TryVec<T>) -> BoxedSlice<T>
        requires { items.capacity ≡ length items.items }
        ensures items { result ≡ items.items }
    {
        BoxedSlice { items }
    }
}

/// Returns the slice of the elements of `v`. It is never refused, and gives back the room that `v` doesn't use.
///
/// A port of `TryVec::into_boxed_slice`.
pub fn into_boxed_slice<T: Drop>(mut v: TryVec<T>) -> Result<BoxedSlice<T>, OutOfMemory>
    ensures items { IfOk result (λ s. s ≡ v.items) }
    ensures never_refused { IsOk result }
{
    v.shrink_to_fit()?;
    Ok(BoxedSlice::of(v))
}

/// A copy has as many elements, each with the same content as the one at its place.
impl<T: TryClone> TryClone for BoxedSlice<T> {
    ghost use Rattle.std.specs.List.{AllZip};

    ghost same = { λ a b. AllZip T.same a b };

    fn try_clone(&self, alloc: Global) -> Result<BoxedSlice<T>, OutOfMemory> {
        into_boxed_slice(TryVec::from_clones(alloc, self.as_slice())?)
    }
}
