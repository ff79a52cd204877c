//! The values of a slab one by one, in ascending order of the ids, to be read and written.
ghost use Rattle.std.specs.Prelude.{◌≡◌, ◌<◌, Some, IfSome, IfNone, OnSome};
ghost use Rattle.std.specs.Borrow.{sem};
ghost use Rattle.std.specs.FinMap.{get};
ghost use Rattle.wic_slab.specs.Slab.{IsLive};

use crate::id::Id;
use crate::slab::Slab;

/// Walks over the live ids of a slab, ascending, and lends the value of each: `while let Some(id) = walk.next_id()`,
/// and in the loop `walk.value_mut(id)`.
///
/// It stands in for what `Slab::iter_mut` returns, which has no name there and lends all values at once.
#[derive(Drop)]
pub struct IterMut<'a, T> {
    slab: &'a mut Slab<T>,
    // The first place that is still to be visited.
    place: u32,
}

impl<T> Slab<T> {
    ghost use Rattle.wic_slab.specs.IterMut.{iter_mut_slab, iter_mut_from, iter_mut_lender};

    /// A walk over the live ids, ascending, which lends the value of each to be read and written. Writes change that value,
    /// and all else stays. Rust's `Slab::iter_mut` leaves the order open.
    pub fn iter_mut(&mut self) -> IterMut<'_, T>
        ensures slab { iter_mut_slab result ≡ self.old }
        ensures from { iter_mut_from result ≡ 0 }
        ensures same_reference { iter_mut_lender result ≡ self.entry.ghost_name }
    {
        IterMut {
            slab: self,
            place: 0,
        }
    }
}

impl<'a, T> IterMut<'a, T> {
    ghost use Rattle.wic_slab.specs.IterMut.{iter_mut_slab, iter_mut_from, iter_mut_left, iter_mut_lender};
    ghost use Rattle.wic_slab.specs.IterMut.{IsNextLive, NoneLiveFrom, walked_to, lends_value};

    /// Moves past the next live id and returns it, or `None` when no further id is live. The slab and the reference
    /// to it stay. The walk ends, and stays at its end.
    pub fn next_id(&mut self) -> Option<Id>
        ensures moved { self.new ≡ walked_to self.old result }
        ensures same_slab { iter_mut_slab self.new ≡ iter_mut_slab self.old }
        ensures same_reference { iter_mut_lender self.new ≡ iter_mut_lender self.old }
        ensures next { IfSome result
            (IsNextLive (iter_mut_slab self.old) (iter_mut_from self.old)) }
        ensures done { IfNone result
            (NoneLiveFrom (iter_mut_slab self.old) (iter_mut_from self.old)) }
        ensures nearer { OnSome result (iter_mut_left self.new < iter_mut_left self.old) }
    {
        let end = self.slab.first_fresh();
        while self.place < end {
            let id = Id::at(self.place);
            self.place += 1;
            if self.slab.contains(id) {
                return Some(id);
            }
        }
        None
    }

    /// The value of a live id, to be read and written. Writes through the reference change that value, and all else
    /// stays.
    pub fn value_mut(&mut self, id: Id) -> &mut T
        requires { IsLive (iter_mut_slab self.old) id }
        ensures* writes_back { sem 𝓛 (lends_value T.row self.entry id result) }
        ensures value { get (iter_mut_slab self.old).live id ≡ Some result.now }
    {
        self.slab.value_mut(id)
    }
}
