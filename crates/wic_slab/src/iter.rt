//! The values of a slab one by one, in ascending order of the ids.
ghost use Rattle.std.specs.Prelude.{◌≡◌, length, IsTrue};
ghost use Rattle.std.specs.Ordering.{nat_cmp};
ghost use Rattle.std.specs.Iterator.{YieldsFirstBy, item_count};
ghost use Rattle.std.specs.FinMap.{entries, is_sorted, len};

use crate::id::Id;
use crate::slab::{Entry, Slab};
use std::iter::FusedIterator;
use std::marker::Model;

/// Gives the live ids of a slab, ascending, each with its value to be read. A contract sees the pairs that are still to
/// come. In Rust this type has no name.
#[derive(Drop)]
pub struct Iter<'a, T> {
    entries: &'a [Entry<T>],
    // The place of the first of the entries.
    place: u32,
}

impl<'a, T> Model for Iter<'a, T> {
    ghost use Rattle.std.specs.Prelude.{ℕ, ◌+◌, ◌≤◌, List, length};
    ghost use Rattle.wic_slab.specs.Order.{max_capacity};

    ghost Value = { List (ℕ × T) };

    ghost use Rattle.wic_slab.specs.Entry.{pairs_from};

    ghost view = { λ it. pairs_from it.place it.entries.now };

    ghost invariant = { λ it. it.place + length it.entries.now ≤ max_capacity };
}

impl<T> Slab<T> {
    /// The live ids, ascending, each with its value to be read. It ends. Rust's `Slab::iter` leaves the order open.
    pub fn iter(&self) -> Iter<'_, T>
        ensures pairs { result ≡ entries self.now.live }
        ensures rising { IsTrue (is_sorted nat_cmp result) }
        ensures count { length result ≡ len self.now.live }
    {
        Iter {
            entries: self.entries.as_slice(),
            place: 0,
        }
    }
}

impl<'a, T> Iterator for Iter<'a, T> {
    type Item = (Id, &'a T);

    ghost next_gives = { YieldsFirstBy (λ item. (item.0, item.1.now)) (λ pairs. pairs) };

    ghost remaining = { item_count (λ pairs. pairs) };

    fn next(&mut self) -> Option<(Id, &'a T)> {
        while let Some((entry, rest)) = self.entries.split_first() {
            let place = self.place;
            self.entries = rest;
            self.place += 1;
            if let Entry::Occupied(value) = entry {
                return Some((Id::at(place), value));
            }
        }
        None
    }
}

impl<'a, T> FusedIterator for Iter<'a, T> {}

/// The same as `iter`.
impl<'a, T> IntoIterator for &'a Slab<T> {
    type Item = (Id, &'a T);

    type IntoIter = Iter<'a, T>;

    ghost into_iter_gives = { λ s it. it ≡ entries s.now.live };

    fn into_iter(self) -> Iter<'a, T> {
        self.iter()
    }
}
