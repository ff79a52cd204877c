//! Handles.
ghost use Rattle.std.specs.Prelude.{◌≡◌};

use std::marker::Model;
use wic_slab::Id;

/// The name of a value in a generational slab: an id, and the generation in which it was handed out.
///
/// A contract sees both as numbers, and handles are compared and hashed by them.
#[derive(Clone, Copy, Debug, PartialEq, Eq, PartialOrd, Ord, Hash)]
pub struct GenerationalId {
    pub(crate) id: Id,
    pub(crate) generation: u32,
}

impl Model for GenerationalId {
    ghost use Rattle.gen_slab.specs.Handle.{Handle, handle_code};

    ghost Value = { Handle };

    ghost coded = { handle_code };

    ghost view = { λ g. record { id = g.id; generation = g.generation } };

    ghost inverse = { λ h. record { id = h.id; generation = h.generation } };
}

impl GenerationalId {
    /// The id, which later handles may have too.
    pub fn id(&self) -> Id
        ensures id { result ≡ self.now.id }
    {
        self.id
    }

    /// How many values had been taken out when it was handed out.
    pub fn generation(&self) -> u32
        ensures generation { result ≡ self.now.generation }
    {
        self.generation
    }
}
