//! Values on the heap, if there is memory for them.
ghost use Rattle.std.specs.Prelude.{◌≡◌, IfOk};

use std::alloc::Global;
use wic_base::OutOfMemory;

/// What can be made of a value, unless an allocation fails.
///
/// `holds` says what the new one holds.
pub trait TryNew {
    type Value;

    // What is made holds this value.
    ghost holds: { Self → Self.Value → Type 0 };

    /// A new one that holds `value`. If it is refused, `value` is dropped.
    fn try_new(alloc: Global, value: Self::Value) -> Result<Self, OutOfMemory>
        ensures holds { IfOk result (λ made. holds made value) };
}

impl<T: Drop> TryNew for Box<T> {
    type Value = T;

    ghost holds = { λ b value. b.value ≡ value };

    fn try_new(alloc: Global, value: T) -> Result<Box<T>, OutOfMemory> {
        match Box::new(alloc, value) {
            Ok(boxed) => Ok(boxed),
            Err(_) => Err(OutOfMemory::new(1)),
        }
    }
}

/// A new `T` that holds `value`, as `T::try_new` makes it. If it is refused, `value` is dropped.
pub fn try_new<T: TryNew>(alloc: Global, value: T::Value) -> Result<T, OutOfMemory>
    ensures holds { IfOk result (λ made. T.holds made value) }
{
    T::try_new(alloc, value)
}
