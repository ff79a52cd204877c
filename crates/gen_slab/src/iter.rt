//! The values of a generational slab one by one, in ascending order of the ids.
ghost use Rattle.std.specs.Prelude.{◌≡◌, length};
ghost use Rattle.std.specs.Iterator.{YieldsFirstBy, item_count};
ghost use Rattle.std.specs.FinMap.{entries, len};
ghost use Rattle.gen_slab.specs.GenSlab.{pairs_of};

use crate::id::GenerationalId;
use crate::slab::{GenerationalSlab, Held};
use std::iter::FusedIterator;
use std::marker::Model;
use wic_slab::Iter;

/// Gives the live handles of a slab, ids ascending, each with its value to be read. A contract sees the pairs that are still
/// to come.
#[derive(Drop)]
pub struct GenIter<'a, T> {
    held: Iter<'a, Held<T>>,
}

impl<'a, T> Model for GenIter<'a, T> {
    ghost use Rattle.std.specs.Prelude.{List};
    ghost use Rattle.gen_slab.specs.Handle.{Handle, handle_code};
    ghost use Rattle.std.specs.Coded.{codes, coded_list, coded×};
    ghost use Rattle.gen_slab.specs.GenSlab.{pairs_of};

    ghost Value = { List (Handle × T) };

    ghost coded = { Prim.hlevel (codes, handle_code, T.code) };

    ghost view = { λ it. pairs_of it.held };
}

impl<T> GenerationalSlab<T> {
    /// The live handles, ids ascending, each with its value to be read. It ends.
    pub fn iter(&self) -> GenIter<'_, T>
        ensures pairs { result ≡ pairs_of (entries self.now.state.live) }
        ensures count { length result ≡ len self.now.state.live }
    {
        GenIter {
            held: self.slab.iter(),
        }
    }
}

impl<'a, T> Iterator for GenIter<'a, T> {
    type Item = (GenerationalId, &'a T);

    ghost next_gives = { YieldsFirstBy (λ item. (item.0, item.1.now)) (λ pairs. pairs) };

    ghost remaining = { item_count (λ pairs. pairs) };

    fn next(&mut self) -> Option<(GenerationalId, &'a T)> {
        match self.held.next() {
            Some((id, held)) => Some((
                GenerationalId {
                    id,
                    generation: held.generation,
                },
                &held.value,
            )),
            None => None,
        }
    }
}

impl<'a, T> FusedIterator for GenIter<'a, T> {}
