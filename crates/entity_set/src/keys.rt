//! The keys of a set one by one.
ghost use Rattle.std.specs.Prelude.{◌≡◌, ◌<◌, All};
ghost use Rattle.std.specs.Iterator.{YieldsFirstBy, item_count};

use crate::entity::EntityRef;
use std::iter::FusedIterator;
use std::marker::{Model, PhantomData};
use wic_bitset::Iter;

/// A walk over the keys of a set, by ascending number, seen as the list of the numbers of those that are left.
#[derive(Drop)]
pub struct Keys<'a, K: EntityRef> {
    numbers: Iter<'a, usize>,
    keys: PhantomData<K>,
}

impl<'a, K: EntityRef> Model for Keys<'a, K> {
    ghost use Rattle.std.specs.Prelude.{ℕ, List, ◌<◌, All};

    ghost Value = { List ℕ };

    ghost view = { λ it. it.numbers };

    ghost invariant = { λ it. All (λ i. i < K.limit) it.numbers };
}

impl<'a, K: EntityRef> Keys<'a, K> {
    // Over the keys of these numbers.
    pub(crate) fn new(numbers: Iter<'a, usize>) -> Keys<'a, K>
        requires { All (λ i. i < K.limit) numbers }
        ensures { result ≡ numbers.entry }
    {
        Keys {
            numbers,
            keys: PhantomData,
        }
    }
}

impl<'a, K: EntityRef> Iterator for Keys<'a, K> {
    type Item = K;

    ghost next_gives = { YieldsFirstBy (λ key. K.number key) (λ numbers. numbers) };

    ghost remaining = { item_count (λ numbers. numbers) };

    fn next(&mut self) -> Option<K> {
        match self.numbers.next() {
            Some(number) => Some(K::new(number)),
            None => None,
        }
    }
}

/// It stays at its end.
impl<'a, K: EntityRef> FusedIterator for Keys<'a, K> {}
