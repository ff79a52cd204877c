//! Vectors made of copies of elements, and vectors whose length is set.
ghost use Rattle.std.specs.Prelude.{◌≡◌, ◌-◌, ◌<◌, ◌≤◌, [], length, take, IsOk, IfOk, OnOk, OnErr};
ghost use Rattle.std.specs.List.{AllZip};
ghost use Rattle.wic_vec.specs.ClosureRun.{AppendsAnswers};
ghost use Rattle.wic_vec.specs.Resized.{AppendsCopies, FillsUp};

use super::TryVec;
use crate::TryClone;
use std::alloc::Global;
use wic_base::OutOfMemory;

impl<T: TryClone> TryVec<T> {
    /// A vector of `len` elements: copies of `elem`, and `elem` itself last. It has room for no more.
    pub fn from_elem(alloc: Global, elem: T, len: usize) -> Result<TryVec<T>, OutOfMemory>
        requires { 1 ≤ len }
        ensures items { IfOk result (λ v. FillsUp T.same elem len [] v.items) }
        ensures capacity { IfOk result (λ v. v.capacity ≡ len) }
    {
        let mut v = TryVec::with_capacity(alloc, len)?;
        v.resize(len, elem)?;
        Ok(v)
    }

    /// A vector of copies of `items`, in order, and room for no more.
    pub fn from_clones(alloc: Global, items: &[T]) -> Result<TryVec<T>, OutOfMemory>
        ensures same { IfOk result (λ v. AllZip T.same items.now v.items) }
        ensures capacity { IfOk result (λ v. v.capacity ≡ length items.now) }
    {
        let mut copies = TryVec::with_capacity(alloc, items.len())?;
        for item in items {
            let copy = item.try_clone(alloc)?;
            copies.push_reserved(copy);
        }
        Ok(copies)
    }

    /// Sets the length. A shorter vector keeps its first elements, and `value` is dropped, also if the length stays. A
    /// longer one gets copies of `value`, and `value` itself last. It is refused only if it is to be longer: then the
    /// copies that were made stay behind the elements.
    pub fn resize(&mut self, new_len: usize, value: T) -> Result<(), OutOfMemory>
        ensures shorter { new_len ≤ length self.old.items
            → self.new.items ≡ take new_len self.old.items }
        ensures longer { length self.old.items < new_len
            → OnOk result (FillsUp T.same value new_len self.old.items self.new.items) }
        ensures refused_only_longer { OnErr result (length self.old.items < new_len) }
        ensures never_refused_within { new_len ≤ self.old.capacity
            → T.never_refused value → IsOk result }
        ensures refusal_leaves { OnErr result
            (AppendsCopies T.same value self.old.items self.new.items) }
        ensures refusal_stays_shorter { OnErr result (length self.new.items < new_len) }
        ensures capacity_kept_within { new_len ≤ self.old.capacity
            → self.new.capacity ≡ self.old.capacity }
        ensures capacity_never_falls { self.old.capacity ≤ self.new.capacity }
        ensures within { length self.new.items ≤ self.new.capacity }
    {
        let len = self.len();
        if new_len <= len {
            self.truncate(new_len);
            return Ok(());
        }
        self.reserve(new_len - len)?;
        self.push_copies(&value, new_len - 1)?;
        self.push_reserved(value);
        Ok(())
    }

    // Puts copies of `value` at the end until there are `len` elements, within the room.
    fn push_copies(&mut self, value: &T, len: usize) -> Result<(), OutOfMemory>
        requires not_shorter { length self.old.items ≤ len }
        requires room { len ≤ self.old.capacity }
        ensures copies { AppendsCopies T.same value.now self.old.items self.new.items }
        ensures at_most { length self.new.items ≤ len }
        ensures all { OnOk result (length self.new.items ≡ len) }
        ensures never_refused { T.never_refused value.now → IsOk result }
        ensures capacity_stays { self.new.capacity ≡ self.old.capacity }
    {
        let alloc = *self.inner.allocator();
        while self.len() < len {
            let copy = value.try_clone(alloc)?;
            self.push_reserved(copy);
        }
        Ok(())
    }
}

impl<T: Drop> TryVec<T> {
    /// Sets the length. A shorter vector keeps its first elements, and `f` isn't called. A longer one gets what `f`
    /// returns, called once for each new element, in order. It is refused only if the capacity is below the new
    /// length, before the first call: then the vector is as before.
    ///
    /// `filled_from_answers` of `proofs/ClosureFacts` is for a caller whose `f` always returns one value.
    pub fn resize_with<F: FnMut() -> T>(&mut self, new_len: usize, f: F) -> Result<(), OutOfMemory>
        requires { F.IsAlwaysCallable f }
        ensures items { OnOk result (AppendsAnswers F.step f (new_len - length self.old.items)
            (take new_len self.old.items) self.new.items) }
        ensures length { OnOk result (length self.new.items ≡ new_len) }
        ensures within { length self.new.items ≤ self.new.capacity }
        ensures never_refused_within { new_len ≤ self.old.capacity → IsOk result }
        ensures refused_only_beyond { OnErr result (self.old.capacity < new_len) }
        ensures capacity_kept_within { new_len ≤ self.old.capacity
            → self.new.capacity ≡ self.old.capacity }
        ensures capacity_never_falls { self.old.capacity ≤ self.new.capacity }
        ensures refusal_leaves { OnErr result (self.new ≡ self.old) }
    {
        self.reserve(new_len.saturating_sub(self.len()))?;
        self.inner.resize_with(new_len, f).unwrap();
        Ok(())
    }
}
