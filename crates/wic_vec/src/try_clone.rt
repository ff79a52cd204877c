//! Copies of values, if there is memory for them.
ghost use Rattle.std.specs.Prelude.{⊤, ◌≡◌, length, IsOk, IfOk, IfSome, MatchResult};
ghost use Rattle.std.specs.List.{AllZip};
ghost use Rattle.wic_vec.specs.Same.{SameOption, SameResult};

mod plain;
mod tuples;

use crate::{TryString, TryVec};
use std::alloc::Global;
use wic_base::OutOfMemory;

/// A value of which a second one with the same content can be made, unless an allocation fails.
///
/// `same` says what is the same content.
pub trait TryClone: Drop {
    // Two values have the same content.
    ghost same: { Self → Self → Type 0 };
    // A value whose copy is never refused.
    ghost never_refused: { Self → Type 0 } = { λ _. ⊥ };

    /// A new value with the same content as this one.
    fn try_clone(&self, alloc: Global) -> Result<Self, OutOfMemory>
        ensures same { IfOk result (same self.now) }
        ensures never_refused { never_refused self.now → IsOk result };
}

/// A copy has the same variant, and the same content in it.
impl<T: TryClone> TryClone for Option<T> {
    ghost same = { SameOption T.same };

    ghost never_refused = { λ a. IfSome a T.never_refused };

    fn try_clone(&self, alloc: Global) -> Result<Option<T>, OutOfMemory> {
        match self {
            Some(value) => Ok(Some(value.try_clone(alloc)?)),
            None => Ok(None),
        }
    }
}

/// A copy has the same variant, and the same content in it.
impl<T: TryClone, E: TryClone> TryClone for Result<T, E> {
    ghost same = { SameResult T.same E.same };

    ghost never_refused = { λ a. MatchResult a T.never_refused E.never_refused };

    fn try_clone(&self, alloc: Global) -> Result<Result<T, E>, OutOfMemory> {
        match self {
            Ok(value) => Ok(Ok(value.try_clone(alloc)?)),
            Err(error) => Ok(Err(error.try_clone(alloc)?)),
        }
    }
}

/// A copy is a new box, and has the same content in it.
impl<T: TryClone> TryClone for Box<T> {
    ghost same = { λ a b. T.same a.value b.value };

    fn try_clone(&self, alloc: Global) -> Result<Box<T>, OutOfMemory> {
        let value = self.as_ref().try_clone(alloc)?;
        crate::try_new(alloc, value)
    }
}

/// A copy has as many elements, each with the same content as the one at its place, and room for no more.
impl<T: TryClone> TryClone for TryVec<T> {
    ghost same = { λ a b. AllZip T.same a.items b.items };

    fn try_clone(&self, alloc: Global) -> Result<TryVec<T>, OutOfMemory>
        ensures same { IfOk result (λ copy. AllZip T.same self.now.items copy.items) }
        ensures capacity { IfOk result (λ copy. copy.capacity ≡ length self.now.items) }
    {
        TryVec::from_clones(alloc, self.as_slice())
    }
}

/// A copy is the same text, with room for no more.
impl TryClone for TryString {
    ghost same = { λ a b. a.bytes ≡ b.bytes };

    fn try_clone(&self, alloc: Global) -> Result<TryString, OutOfMemory>
        ensures same { IfOk result (λ copy. self.now.bytes ≡ copy.bytes) }
        ensures capacity { IfOk result (λ copy. copy.capacity ≡ length self.now.bytes) }
    {
        TryString::try_from_str(alloc, self.as_str())
    }
}

#[cfg(test)]
mod tests;
