//! Why items could not be collected.
ghost use Rattle.std.specs.Prelude.{◌≡◌, Some, codes};
ghost use Rattle.wic_collect.specs.declared.errors.BoxedSliceFromFallibleIterError.TheVariants as fallible;
ghost use Rattle.wic_collect.specs.declared.errors.TooFewItemsOrOom.TheVariants as with_len;

use std::fmt;
use wic_base::OutOfMemory;

/// An iterator ended before a slice had as many items as it was to have.
///
/// A port of `wasmtime_internal_core::alloc::TooFewItems`.
#[derive(Clone, Copy, Debug)]
pub struct TooFewItems;

impl fmt::Display for TooFewItems {
    ghost output = { λ _. Some
        (codes "iterator yielded too few items to fully initialize boxed slice") };

    fn fmt<W: fmt::Write>(&self, f: &mut fmt::Formatter<W>) -> fmt::Result {
        f.write_str("iterator yielded too few items to fully initialize boxed slice")
    }
}

/// A slice of a stated length was not made: there were too few items, or no memory.
///
/// A port of `wasmtime_internal_core::alloc::TooFewItemsOrOom`.
#[derive(Debug, Drop)]
pub enum TooFewItemsOrOom {
    TooFewItems(TooFewItems),
    Oom(OutOfMemory),
}

impl From<TooFewItems> for TooFewItemsOrOom {
    ghost from_gives = { λ few error. error ≡ with_len.TooFewItems few };

    fn from(few: TooFewItems) -> TooFewItemsOrOom {
        TooFewItemsOrOom::TooFewItems(few)
    }
}

impl From<OutOfMemory> for TooFewItemsOrOom {
    ghost from_gives = { λ oom error. error ≡ with_len.Oom oom };

    fn from(oom: OutOfMemory) -> TooFewItemsOrOom {
        TooFewItemsOrOom::Oom(oom)
    }
}

impl fmt::Display for TooFewItemsOrOom {
    ghost use Rattle.wic_collect.specs.Errors.{with_len_text};

    ghost output = { λ error. Some (with_len_text error) };

    fn fmt<W: fmt::Write>(&self, f: &mut fmt::Formatter<W>) -> fmt::Result {
        match self {
            TooFewItemsOrOom::TooFewItems(_) => {
                f.write_str("The iterator did not yield enough items to fill the boxed slice")
            }
            TooFewItemsOrOom::Oom(_) => f.write_str("Failed to allocate space for the boxed slice"),
        }
    }
}

/// A slice was not made of fallible items: one of them was an error, or there was no memory.
///
/// A port of `wasmtime_internal_core::alloc::BoxedSliceFromFallibleIterError`.
#[derive(Debug, Drop)]
pub enum BoxedSliceFromFallibleIterError<E> {
    IterError(E),
    Oom(OutOfMemory),
}

impl<E> From<OutOfMemory> for BoxedSliceFromFallibleIterError<E> {
    ghost from_gives = { λ oom error. error ≡ fallible.Oom oom };

    fn from(oom: OutOfMemory) -> BoxedSliceFromFallibleIterError<E> {
        BoxedSliceFromFallibleIterError::Oom(oom)
    }
}

impl BoxedSliceFromFallibleIterError<OutOfMemory> {
    ghost use Rattle.wic_collect.specs.Errors.{Holds};

    /// Returns the `OutOfMemory` that either variant holds.
    ///
    /// A port of `BoxedSliceFromFallibleIterError::flatten`.
    pub fn flatten(self) -> OutOfMemory
        ensures value { Holds self result }
    {
        match self {
            BoxedSliceFromFallibleIterError::IterError(oom) => oom,
            BoxedSliceFromFallibleIterError::Oom(oom) => oom,
        }
    }
}

impl<E> fmt::Display for BoxedSliceFromFallibleIterError<E> {
    ghost use Rattle.wic_collect.specs.Errors.{fallible_text};

    ghost output = { λ error. Some (fallible_text error) };

    fn fmt<W: fmt::Write>(&self, f: &mut fmt::Formatter<W>) -> fmt::Result {
        match self {
            BoxedSliceFromFallibleIterError::IterError(_) => {
                f.write_str("The fallible iterator produced an error")
            }
            BoxedSliceFromFallibleIterError::Oom(_) => {
                f.write_str("Failed to allocate space for the boxed slice")
            }
        }
    }
}
