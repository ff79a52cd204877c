//! What is borrowed until it has to be owned.
ghost use Rattle.std.specs.Prelude.{◌≡◌, IsOk, IfOk, OnErr};
ghost use Rattle.std.specs.Borrow.{sem};
ghost use Rattle.std.specs.List.{AllZip};
ghost use Rattle.wic_collect.specs.Cow.{IsBorrowed, HasContent, SameCow, NeverRefused};
ghost use Rattle.wic_collect.specs.declared.cow.TryCowOf.TheVariants.{Borrowed};

mod slice;
mod text;
mod value;

use std::alloc::Global;
use wic_base::OutOfMemory;
use wic_vec::{TryClone, TryString, TryVec};

/// A content that is borrowed as an `R` until it has to be owned as an `O`.
///
/// A port of `wasmtime_internal_core::alloc::TryCow`, whose three forms are `TryCow`, `TryCowStr` and `TryCowSlice` here.
#[derive(Drop)]
pub enum TryCowOf<R, O> {
    Borrowed(R),
    Owned(O),
}

/// A value that is borrowed until it has to be owned.
pub type TryCow<'a, B> = TryCowOf<&'a B, B>;

/// A text that is borrowed until it has to be owned.
pub type TryCowStr<'a> = TryCowOf<&'a str, TryString>;

/// A slice that is borrowed until it has to be owned.
pub type TryCowSlice<'a, T> = TryCowOf<&'a [T], TryVec<T>>;

/// A reference whose content can be copied into an owned `O`.
pub trait TryToOwned<O>: Copy {
    // The owned one has the same content as what the reference refers to.
    ghost same: { Self → O → Type 0 };

    /// Returns an owned copy, the same as the content behind the reference.
    fn try_to_owned(self, alloc: Global) -> Result<O, OutOfMemory>
        ensures same { IfOk result (same self) };
}

impl<'a, B: TryClone> TryToOwned<B> for &'a B {
    ghost same = { λ r x. B.same r.now x };

    fn try_to_owned(self, alloc: Global) -> Result<B, OutOfMemory> {
        self.try_clone(alloc)
    }
}

impl<'a> TryToOwned<TryString> for &'a str {
    ghost same = { λ r x. x.bytes ≡ r.now };

    fn try_to_owned(self, alloc: Global) -> Result<TryString, OutOfMemory> {
        TryString::try_from_str(alloc, self)
    }
}

impl<'a, T: TryClone> TryToOwned<TryVec<T>> for &'a [T] {
    ghost same = { λ r x. AllZip T.same r.now x.items };

    fn try_to_owned(self, alloc: Global) -> Result<TryVec<T>, OutOfMemory> {
        TryVec::from_clones(alloc, self)
    }
}

impl<R: TryToOwned<O>, O: Drop> TryCowOf<R, O> {
    ghost use Rattle.wic_collect.specs.CowLends.{lends_owned, lends_owned_or_stays};

    /// Returns what the cow owns, to be read and written. Writes through it change the cow. A borrowed content is copied
    /// into an owned one first. It is refused only if the content was borrowed; a refusal leaves the cow as it was.
    ///
    /// A port of `TryCow::to_mut`.
    pub fn to_mut(&mut self, alloc: Global) -> Result<&mut O, OutOfMemory>
        ensures* writes_back { sem 𝓛 (lends_owned_or_stays R.row O.row self.entry result) }
        ensures content { IfOk result (λ x. HasContent R.same self.old x.now) }
        ensures refused_only_borrowed { OnErr result (IsBorrowed self.old) }
    {
        if let TryCowOf::Borrowed(reference) = self {
            let owned = reference.try_to_owned(alloc)?;
            *self = TryCowOf::Owned(owned);
        }
        Ok(self.owned_mut())
    }

    // What the cow owns, which it does.
    fn owned_mut(&mut self) -> &mut O
        requires { ¬ (IsBorrowed self.old) }
        ensures* writes_back { sem 𝓛 (lends_owned R.row O.row self.entry result) }
        ensures content { HasContent R.same self.old result.now }
    {
        match self {
            TryCowOf::Owned(owned) => owned,
            TryCowOf::Borrowed(_) => unreachable!(),
        }
    }

    /// Returns the content as an owned one: the one that the cow owns, or a copy of what it borrows. It is refused only if
    /// the content was borrowed.
    ///
    /// A port of `TryCow::into_owned`.
    pub fn into_owned(self, alloc: Global) -> Result<O, OutOfMemory>
        ensures content { IfOk result (HasContent R.same self) }
        ensures refused_only_borrowed { OnErr result (IsBorrowed self) }
    {
        match self {
            TryCowOf::Borrowed(reference) => reference.try_to_owned(alloc),
            TryCowOf::Owned(owned) => Ok(owned),
        }
    }
}

/// The borrowed form. A port of the `From` of references for `TryCow`.
impl<R: TryToOwned<O>, O> From<R> for TryCowOf<R, O> {
    ghost from_gives = { λ r cow. cow ≡ Borrowed r };

    fn from(reference: R) -> TryCowOf<R, O> {
        TryCowOf::Borrowed(reference)
    }
}

/// A copy borrows the same, or owns the same content. It is never refused if the content is borrowed.
impl<R: TryToOwned<O> + Drop, O: TryClone> TryClone for TryCowOf<R, O> {
    ghost same = { SameCow (λ r s. r ≡ s) O.same };

    ghost never_refused = { NeverRefused O.never_refused };

    fn try_clone(&self, alloc: Global) -> Result<TryCowOf<R, O>, OutOfMemory> {
        match self {
            TryCowOf::Borrowed(reference) => Ok(TryCowOf::Borrowed(*reference)),
            TryCowOf::Owned(owned) => Ok(TryCowOf::Owned(owned.try_clone(alloc)?)),
        }
    }
}
