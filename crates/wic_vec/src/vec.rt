//! A vector whose growth can be refused.
ghost use Rattle.std.specs.Prelude.{◌≡◌, ◌+◌, ◌<◌, ◌≤◌, ◌↔◌, ◌==◌, [], ◌∷◌, ◌++◌, length, max, take};
ghost use Rattle.std.specs.Prelude.{slice_get, vec_capacity, Some, IsTrue, IsOk, IsSome, IfOk, IfSome, IfNone, OnOk, OnErr};
ghost use Rattle.std.specs.Option.{option_copied};
ghost use Rattle.std.specs.Borrow.{sem};
ghost use Rattle.std.specs.Mem.{FitsInMemory, type_size};
ghost use Rattle.wic_vec.specs.TryVec.{Appends, Reserves};

mod compare;
mod drain;
mod iter;
mod resize;
mod retain;

pub use drain::Drain;
use std::alloc::Global;
use std::marker::Model;
use std::mem::size_of;
use std::ops::{Index, IndexMut};
use wic_base::OutOfMemory;

/// A vector whose growth can be refused: each call that may allocate returns `OutOfMemory` if that fails.
///
/// A contract sees its elements, `items`, and its `capacity`: how many elements fit without an
/// allocation.
#[derive(Drop)]
pub struct TryVec<T> {
    inner: Vec<T>,
    // What `capacity` returns. The vector inside has room for at least as many.
    capacity: usize,
}

impl<T> Model for TryVec<T> {
    ghost use Rattle.std.specs.Prelude.{◌≤◌, vec_len, vec_capacity};
    ghost use Rattle.wic_vec.specs.TryVec.{TryVec as Sequence, try_vec_code};

    ghost Value = { Sequence T };

    ghost coded = { try_vec_code T.code };

    ghost view = { λ v. record { items = v.inner.items; capacity = v.capacity } };

    ghost invariant = { λ v. (vec_len v.inner ≤ v.capacity) × (v.capacity ≤ vec_capacity v.inner) };
}

impl<T> TryVec<T> {
    ghost use Rattle.wic_vec.specs.VecLends.{lends_slice, lends_get};

    /// The empty vector, of capacity 0. It doesn't allocate.
    pub fn new(alloc: Global) -> TryVec<T>
        ensures empty { result.items ≡ [] }
        ensures capacity { result.capacity ≡ 0 }
    {
        TryVec {
            inner: Vec::new(alloc),
            capacity: 0,
        }
    }

    /// The empty vector with room for exactly `capacity` elements. A capacity of 0 is never refused.
    pub fn with_capacity(alloc: Global, capacity: usize) -> Result<TryVec<T>, OutOfMemory>
        ensures empty { IfOk result (λ v. v.items ≡ []) }
        ensures capacity { IfOk result (λ v. v.capacity ≡ capacity) }
        ensures zero_never_refused { capacity ≡ 0 → IsOk result }
    {
        match Vec::with_capacity(alloc, capacity) {
            Ok(inner) => Ok(TryVec { inner, capacity }),
            Err(_) => Err(wanting::<T>(0, capacity)),
        }
    }

    /// The vector of the elements of `v`, in its memory.
    pub fn from_vec(v: Vec<T>) -> TryVec<T>
        ensures items { result.items ≡ v.items }
        ensures capacity { result.capacity ≡ vec_capacity v }
        ensures within { length result.items ≤ result.capacity }
    {
        let capacity = v.capacity();
        TryVec { inner: v, capacity }
    }

    /// The `Vec` of the elements, in the memory of this vector.
    pub fn into_vec(self) -> Vec<T>
        ensures items { result.items ≡ self.items }
        ensures capacity { self.capacity ≤ vec_capacity result }
    {
        let TryVec { inner, capacity: _ } = self;
        inner
    }

    /// Makes room for `additional` more elements, and mostly for further ones, so that many small growths cost little.
    /// The elements stay. If the capacity is enough, nothing changes. It is refused only if it is too small, and then the
    /// vector is as before.
    pub fn reserve(&mut self, additional: usize) -> Result<(), OutOfMemory>
        ensures same_items { self.new.items ≡ self.old.items }
        ensures reserves { Reserves self.old self.new additional result }
    {
        if self.has_room_for(additional) {
            return Ok(());
        }
        if self.inner.reserve(additional).is_err() {
            return Err(wanting::<T>(self.inner.len(), additional));
        }
        self.capacity = self.inner.capacity();
        Ok(())
    }

    /// Makes room as `reserve` does, and no more than that: if the capacity was too small, it is then the length and
    /// `additional`. It is refused when `reserve` is.
    pub fn reserve_exact(&mut self, additional: usize) -> Result<(), OutOfMemory>
        ensures same_items { self.new.items ≡ self.old.items }
        ensures reserves { Reserves self.old self.new additional result }
        ensures exact { OnOk result
            (self.new.capacity ≡ max self.old.capacity (length self.old.items + additional)) }
    {
        if self.has_room_for(additional) {
            return Ok(());
        }
        let len = self.inner.len();
        if self.inner.reserve_exact(additional).is_err() {
            return Err(wanting::<T>(len, additional));
        }
        self.capacity = len + additional;
        Ok(())
    }

    // Whether so many more elements fit without an allocation.
    fn has_room_for(&self, additional: usize) -> bool
        ensures room { IsTrue result ↔ (length self.now.items + additional ≤ self.now.capacity) }
    {
        additional <= self.capacity - self.inner.len()
    }

    /// Gives back the memory beyond the elements, and lowers the capacity to the length. It is never refused: if the
    /// allocator has no smaller block, the elements stay in the one they have.
    pub fn shrink_to_fit(&mut self) -> Result<(), OutOfMemory>
        ensures same_items { self.new.items ≡ self.old.items }
        ensures capacity { self.new.capacity ≡ length self.new.items }
        ensures never_refused { IsOk result }
    {
        self.inner.shrink_to_fit();
        self.capacity = self.inner.len();
        Ok(())
    }

    /// Puts `value` at the end. It is refused only if the length is the capacity: then `value` is dropped and
    /// the vector is as before. Below the capacity it is never refused and the capacity stays.
    pub fn push(&mut self, value: T) -> Result<(), OutOfMemory>
    where
        T: Drop,
        ensures last { OnOk result (self.new.items ≡ self.old.items ++ value ∷ []) }
        ensures never_refused_below { length self.old.items < self.old.capacity → IsOk result }
        ensures refused_only_full { OnErr result (length self.old.items ≡ self.old.capacity) }
        ensures capacity_kept_below { length self.old.items < self.old.capacity
            → self.new.capacity ≡ self.old.capacity }
        ensures capacity_never_falls { self.old.capacity ≤ self.new.capacity }
        ensures refusal_leaves { OnErr result (self.new ≡ self.old) }
        ensures within { length self.new.items ≤ self.new.capacity }
    {
        if self.inner.len() == self.capacity {
            self.reserve(1)?;
        }
        self.inner.push_reserved(value);
        Ok(())
    }

    /// Puts `value` at the end, within the room that there is: it doesn't allocate, and the capacity stays. It never drops
    /// a value, so the elements may be of any type.
    pub fn push_reserved(&mut self, value: T)
        requires { length self.old.items < self.old.capacity }
        ensures last { self.new.items ≡ self.old.items ++ value ∷ [] }
        ensures capacity_stays { self.new.capacity ≡ self.old.capacity }
        ensures within { length self.new.items ≤ self.new.capacity }
    {
        self.inner.push_reserved(value);
    }

    /// Takes the last element out and returns it, or returns `None` if there is none. The capacity stays.
    pub fn pop(&mut self) -> Option<T>
        ensures found { IsSome result ↔ (0 < length self.old.items) }
        ensures last { IfSome result (λ value. self.old.items ≡ self.new.items ++ value ∷ []) }
        ensures none_leaves { IfNone result (self.new ≡ self.old) }
        ensures capacity_stays { self.new.capacity ≡ self.old.capacity }
        ensures within { length self.new.items ≤ self.new.capacity }
    {
        self.inner.pop()
    }

    /// The number of elements.
    pub fn len(&self) -> usize
        ensures length { result ≡ length self.now.items }
        ensures within { result ≤ self.now.capacity }
    {
        self.inner.len()
    }

    /// How many elements fit without an allocation, those that are there among them. The vector inside may have more room.
    pub fn capacity(&self) -> usize
        ensures capacity { result ≡ self.now.capacity }
        ensures holds_all { length self.now.items ≤ result }
    {
        self.capacity
    }

    /// Whether there is no element.
    pub fn is_empty(&self) -> bool
        ensures empty { result ≡ (length self.now.items == 0) }
    {
        self.inner.is_empty()
    }

    /// The elements in place.
    pub fn as_slice(&self) -> &[T]
        ensures items { result.now ≡ self.now.items }
    {
        self.inner.as_slice()
    }

    /// The elements in place, to be read and written. Writes through it change the vector; length and capacity stay.
    pub fn as_mut_slice(&mut self) -> &mut [T]
        ensures* writes_back { sem 𝓛 (lends_slice T.row self.entry result) }
        ensures items { result.now ≡ self.old.items }
    {
        self.inner.as_mut_slice()
    }

    /// The element at place `i`, or `None` if `i` isn't below the length.
    pub fn get(&self, i: usize) -> Option<&T>
        ensures found { IsSome result ↔ (i < length self.now.items) }
        ensures item { option_copied result ≡ slice_get self.now.items i }
    {
        self.inner.as_slice().get(i)
    }

    /// The element at place `i`, to be read and written, or `None` if `i` isn't below the length. Writes through it
    /// change place `i`. The other elements and the capacity stay.
    pub fn get_mut(&mut self, i: usize) -> Option<&mut T>
        ensures* writes_back { sem 𝓛 (lends_get T.row self.entry i result) }
        ensures found { IsSome result ↔ (i < length self.old.items) }
        ensures item { IfSome result (λ x. slice_get self.old.items i ≡ Some x.now) }
    {
        self.inner.get_mut(i)
    }
}

impl<T: Drop> TryVec<T> {
    /// Keeps the first `len` elements, or all of them if there are no more, and drops the others. The capacity stays.
    pub fn truncate(&mut self, len: usize)
        ensures front { self.new.items ≡ take len self.old.items }
        ensures capacity_stays { self.new.capacity ≡ self.old.capacity }
        ensures within { length self.new.items ≤ self.new.capacity }
    {
        self.inner.truncate(len);
    }

    /// Drops all elements. The capacity stays.
    pub fn clear(&mut self)
        ensures empty { self.new.items ≡ [] }
        ensures capacity_stays { self.new.capacity ≡ self.old.capacity }
    {
        self.inner.clear();
    }
}

impl<T: Copy> TryVec<T> {
    /// Puts copies of the elements of `other` at the end, in order. It is refused only if the capacity is below the
    /// new length: then the vector is as before. Within the capacity it is never refused and the capacity stays.
    pub fn extend_from_slice(&mut self, other: &[T]) -> Result<(), OutOfMemory>
        ensures { Appends self.old self.new other.now result }
    {
        self.reserve(other.len())?;
        self.inner.extend_from_slice(other).unwrap();
        Ok(())
    }
}

/// The element at a place below the length.
impl<T> Index<usize> for TryVec<T> {
    type Output = T;

    ghost can_index = { λ v i. i < length v.items };

    ghost index_gives = { λ v i x. slice_get v.items i ≡ Some x };

    fn index(&self, i: usize) -> &T {
        &self.inner[i]
    }
}

/// The element at a place below the length, to be read and written. Writes through it change that place; the other
/// elements and the capacity stay.
impl<T> IndexMut<usize> for TryVec<T> {
    ghost use Rattle.wic_vec.specs.VecLends.{lends_item};

    fn index_mut(&mut self, i: usize) -> &mut T
        requires { i < length self.old.items }
        ensures* writes_back { sem 𝓛 (lends_item T.row self.entry i result) }
        ensures item { slice_get self.old.items i ≡ Some result.now }
    {
        &mut self.inner[i]
    }
}

// The refusal of room for `additional` more elements than `length`. It holds the bytes that all of them would take.
fn wanting<T>(length: usize, additional: usize) -> OutOfMemory {
    OutOfMemory::new(
        length
            .saturating_add(additional)
            .saturating_mul(size_of_element::<T>()),
    )
}

// How many bytes an element takes: fewer than 2 to the power 63.
fn size_of_element<T>() -> usize
    ensures { FitsInMemory T.row → result ≡ type_size T.row }
{
    size_of::<T>()
}

#[cfg(test)]
mod tests;
