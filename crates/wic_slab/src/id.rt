//! The ids of a slab's values.
ghost use Rattle.std.specs.Prelude.{◌≡◌, ◌≤◌, ◌↔◌, IsSome, IfSome};
ghost use Rattle.wic_slab.specs.Order.{max_capacity};

use std::marker::Model;

/// The name of a value in a slab. Contracts see it as its number, and it is compared and hashed by that.
///
/// A port of `wasmtime_internal_core::slab::Id`.
#[derive(Clone, Copy, Debug, PartialEq, Eq, PartialOrd, Ord, Hash)]
pub struct Id(u32);

impl Model for Id {
    ghost use Rattle.std.specs.Prelude.{ℕ, ◌≤◌};
    ghost use Rattle.wic_slab.specs.Order.{max_capacity};

    ghost Value = { ℕ };

    ghost view = { λ id. id.0 };

    ghost invariant = { λ id. id.0 ≤ max_capacity };

    ghost inverse = { λ n. record { 0 = n } };
}

impl Id {
    /// The id's number.
    pub fn into_raw(self) -> u32
        ensures number { result ≡ self }
        ensures at_most { result ≤ max_capacity }
    {
        self.0
    }

    /// The id of this number, or `None` exactly for 4294967295, which no id has. The id need not be live in any slab.
    pub fn try_from_raw(raw: u32) -> Option<Id>
        ensures some { IsSome result ↔ (raw ≤ max_capacity) }
        ensures number { IfSome result (λ id. id ≡ raw) }
    {
        if raw == u32::MAX {
            return None;
        }
        Some(Id(raw))
    }

    // The id of a place in a slab.
    pub(crate) fn at(place: u32) -> Id
        requires { place ≤ max_capacity }
        ensures { result ≡ place }
    {
        Id(place)
    }

    // The place in a slab.
    pub(crate) fn place(self) -> usize
        ensures place { result ≡ self }
        ensures at_most { result ≤ max_capacity }
    {
        self.0 as usize
    }
}
