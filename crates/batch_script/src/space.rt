//! What items run on: a workspace, and the bodies that it applies.
ghost use Rattle.std.specs.Prelude.{◌≡◌, ◌<◌, ◌≤◌, ◌↔◌, ℕ, Err, max, IsOk, OnOk, OnErr};
ghost use Rattle.wic_slab.specs.Order.{max_capacity};
ghost use Rattle.batch_core.specs.State.{empty_state};
ghost use Rattle.batch_core.specs.Workspace.{Workspace as Held};
ghost use Rattle.batch_script.specs.RunText.{state_of};
ghost use Rattle.batch_script.specs.Space.{SpaceMeaning, AppliedOver};

use crate::item::Item;
use batch_core::{Batch, Done, Refusal, ReserveRefusal, Workspace};
use std::alloc::Global;

/// A workspace that applies bodies of its own kind, each whole or not at all.
pub trait Space: Drop {
    /// The items of its scripts.
    type Item: Drop;

    /// What such an item may hold: commands, and how they end.
    type Body: Drop;

    /// What a contract sees of it.
    ghost held: { Self → Held ℕ };

    /// What its items and bodies are to the plain machine.
    ghost meaning: { SpaceMeaning Self.Item Self.Body };

    /// The empty space, of room 0.
    fn new(alloc: Global) -> Self
        ensures empty { state_of (held result) ≡ empty_state };

    /// The workspace, in place: list, set, table and records.
    fn workspace(&self) -> &Workspace<u64>
        ensures held { result.now ≡ held self.now };

    /// Makes the room at least `n`. `TooLarge` comes exactly if `n` is above 4294967294, and `Oom` only if `n` is above the room;
    /// the room stays then. Contents always stay.
    fn reserve(&mut self, n: u64) -> Result<(), ReserveRefusal>
        ensures room { OnOk result ((held self.new).room ≡ max (held self.old).room n) }
        ensures too_large { (result ≡ Err ReserveRefusal.TooLarge) ↔ (max_capacity < n) }
        ensures never_refused_within { n ≤ (held self.old).room → IsOk result }
        ensures refusal_leaves_room { OnErr result ((held self.new).room ≡ (held self.old).room) }
        ensures contents { (held self.new).contents ≡ (held self.old).contents };

    /// Does a body whole, or leaves the contents as they were. It returns what the plain machine says; only a body that doesn't
    /// fit the room may be refused with `Oom` instead. After `Committed` the records show the replies. The room stays.
    fn apply(&mut self, body: Self::Body) -> Result<Done, Refusal>
        requires may_apply { meaning.may_apply body }
        ensures applied { AppliedOver meaning.bodies (held self.old) (meaning.plain_body body)
            (meaning.ending body) result (held self.new) }
        ensures room { (held self.new).room ≡ (held self.old).room };
}

impl Space for Workspace<u64> {
    ghost use Rattle.batch_script.specs.Space.{space_of_batches};

    type Item = Item;

    type Body = Batch<u64>;

    ghost held = { λ workspace. workspace };

    ghost meaning = { space_of_batches };

    fn new(alloc: Global) -> Workspace<u64> {
        Workspace::new(alloc)
    }

    fn workspace(&self) -> &Workspace<u64> {
        self
    }

    fn reserve(&mut self, n: u64) -> Result<(), ReserveRefusal> {
        self.reserve(n)
    }

    fn apply(&mut self, batch: Batch<u64>) -> Result<Done, Refusal> {
        self.apply(batch)
    }
}
