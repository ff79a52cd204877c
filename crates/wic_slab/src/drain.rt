//! All values of a slab, taken out.
ghost use Rattle.std.specs.Prelude.{◌≡◌, length, IsTrue};
ghost use Rattle.std.specs.Ordering.{nat_cmp};
ghost use Rattle.std.specs.Iterator.{item_count};
ghost use Rattle.std.specs.Iterator.Runs.{YieldsInOrder};
ghost use Rattle.std.specs.FinMap.{empty, entries, is_sorted};
ghost use Rattle.wic_slab.specs.Order.{from_zero};

use crate::id::Id;
use crate::slab::Slab;
use std::iter::FusedIterator;

/// Gives the live ids of a slab, ascending, each with its value, and takes them out of it. The slab is empty once this
/// is dropped, wherever it stands then. In Rust this type has no name.
pub struct Drain<'a, T: Drop> {
    slab: &'a mut Slab<T>,
    // The places that are still to be visited.
    place: u32,
    end: u32,
}

impl<T: Drop> Slab<T> {
    ghost use Rattle.wic_slab.specs.Drain.{drain_pairs, drain_capacity, drain_lender, DrainCanStep, DrainSteps, DrainKeepsAlong};

    /// Takes out all values, and gives the pairs that `iter` gives, by value. Once the result is dropped, wherever it
    /// stands then, no id is live, ids start at 0, and the capacity is as before. Rust's `Slab::drain` leaves the order
    /// open.
    pub fn drain(&mut self) -> Drain<'_, T>
        ensures pairs { drain_pairs result ≡ entries self.old.live }
        ensures rising { IsTrue (is_sorted nat_cmp (drain_pairs result)) }
        ensures ready { DrainCanStep result }
        ensures in_order { YieldsInOrder (DrainSteps {T = T}) drain_pairs }
        ensures same_reference { drain_lender result ≡ self.entry.ghost_name }
        ensures capacity { drain_capacity result ≡ self.old.capacity }
        ensures stays { DrainKeepsAlong result }
    {
        let end = self.first_fresh();
        Drain {
            slab: self,
            place: 0,
            end,
        }
    }
}

impl<'a, T: Drop> Drop for Drain<'a, T> {
    ghost use Rattle.wic_slab.specs.Drain.{drain_capacity};

    fn drop(self)
        ensures empty { self.exit.0.now.live ≡ empty }
        ensures order { self.exit.0.now.order ≡ from_zero }
        ensures capacity { self.exit.0.now.capacity ≡ drain_capacity self.entry }
    {
        let Drain {
            slab,
            place: _,
            end: _,
        } = self;
        slab.clear();
    }
}

impl<'a, T: Drop> Iterator for Drain<'a, T> {
    ghost use Rattle.wic_slab.specs.Drain.{drain_pairs, DrainSteps, DrainCanStep};

    type Item = (Id, T);

    ghost can_next = { DrainCanStep };

    ghost next_gives = { DrainSteps };

    ghost remaining = { item_count drain_pairs };

    fn next(&mut self) -> Option<(Id, T)> {
        while self.place < self.end {
            let id = Id::at(self.place);
            self.place += 1;
            if self.slab.contains(id) {
                return Some((id, self.slab.dealloc(id)));
            }
        }
        None
    }
}

impl<'a, T: Drop> FusedIterator for Drain<'a, T> {}
