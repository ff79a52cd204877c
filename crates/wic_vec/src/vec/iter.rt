//! The elements of a vector one by one, in order.
ghost use Rattle.std.specs.Prelude.{◌≡◌, ◌^◌, ◌<◌, length};
ghost use Rattle.std.specs.Borrow.{sem};
ghost use Rattle.std.specs.Iterator.Runs.{YieldsInOrder, YieldsInReverse, YieldsRefsInOrder};
ghost use Rattle.std.specs.Iterator.Runs.{YieldsMutRefsInOrder};
ghost use Rattle.std.specs.Slice.Iter.{iter_rest, iter_steps, iter_mut_rest, iter_mut_steps};
ghost use Rattle.std.specs.Vec.Iter.{into_iter_items, into_iter_len, into_iter_steps, into_iter_steps_back};
ghost use Rattle.std.specs.declared.alloc.Global.{Global};

use super::TryVec;
use std::ops::{DerefSlice, DerefSliceMut};
use std::slice::{Iter, IterMut};
use std::vec::IntoIter;

/// A vector acts as the slice of its elements, with all calls of slices.
impl<T> DerefSlice for TryVec<T> {
    type Elem = T;

    ghost deref_gives = { λ v items. items ≡ v.items };

    fn deref(&self) -> &[T] {
        self.as_slice()
    }
}

/// Writes to the slice change the vector; its length and its capacity stay.
impl<T> DerefSliceMut for TryVec<T> {
    ghost use Rattle.wic_vec.specs.VecLends.{lends_slice};

    fn deref_mut(&mut self) -> &mut [T]
        ensures* writes_back { sem 𝓛 (lends_slice T.row self.entry result) }
        ensures items { result.now ≡ self.old.items }
    {
        self.as_mut_slice()
    }
}

/// The elements by value, in order.
impl<T: Drop> IntoIterator for TryVec<T> {
    type Item = T;

    type IntoIter = IntoIter<T>;

    ghost into_iter_gives = { λ v it. (into_iter_items it ≡ v.items) × (into_iter_len it ≡ length v.items)
        × (length (into_iter_items it) < 2 ^ 64)
        × YieldsInOrder (into_iter_steps {X = T} {Z = Global}) into_iter_items
        × YieldsInReverse (into_iter_steps_back {X = T} {Z = Global}) into_iter_items };

    fn into_iter(self) -> IntoIter<T> {
        let TryVec { inner, capacity: _ } = self;
        inner.into_iter()
    }
}

/// The same as `iter` of the slice.
impl<'a, T> IntoIterator for &'a TryVec<T> {
    type Item = &'a T;

    type IntoIter = Iter<'a, T>;

    ghost into_iter_gives = { λ v it. (iter_rest it ≡ v.now.items) × (length (iter_rest it) < 2 ^ 64)
        × YieldsRefsInOrder (iter_steps {A = T}) iter_rest };

    fn into_iter(self) -> Iter<'a, T> {
        self.as_slice().iter()
    }
}

/// The same as `iter_mut` of the slice.
impl<'a, T> IntoIterator for &'a mut TryVec<T> {
    type Item = &'a mut T;

    type IntoIter = IterMut<'a, T>;

    ghost into_iter_gives = { λ v it. (iter_mut_rest it ≡ v.now.items) × (length (iter_mut_rest it) < 2 ^ 64)
        × YieldsMutRefsInOrder (iter_mut_steps {A = T}) iter_mut_rest };

    ghost use Rattle.wic_vec.specs.VecLends.{lends_iter};

    fn into_iter(self) -> IterMut<'a, T>
        ensures* writes_back { sem 𝓛 (lends_iter T.row self.entry result) }
        ensures into_iter_gives { (iter_mut_rest result ≡ self.old.items)
            × (length (iter_mut_rest result) < 2 ^ 64)
            × YieldsMutRefsInOrder (iter_mut_steps {A = T}) iter_mut_rest }
    {
        self.as_mut_slice().iter_mut()
    }
}
