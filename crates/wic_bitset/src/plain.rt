//! The plain set in words as a set of numbers: it reads one word after the other.
ghost use Rattle.std.specs.Prelude.{◌≡◌, ◌*◌, ◌/◌, ◌<◌, ◌≤◌, ℕ, max, IsOk, OnOk};
ghost use Rattle.wic_bitset.specs.From.{IsMinFrom};
ghost use Rattle.wic_bitset.specs.Words.{most_words};

use crate::number_set::NumberSet;
use crate::store::Store;
use crate::word::least_in_word;
use std::alloc::Global;
use wic_base::OutOfMemory;
use wic_scalar::ScalarBitSetStorage;

impl<T: ScalarBitSetStorage> NumberSet for Store<T> {
    ghost members = { λ s. s.members };

    ghost end = { λ s. s.count * T.width };

    ghost room = { λ s. s.room * T.width };

    fn new(alloc: Global) -> Store<T> {
        Store::new(alloc)
    }

    fn try_clone(&self, alloc: Global) -> Result<Store<T>, OutOfMemory> {
        Store::try_clone(self, alloc)
    }

    fn insert(&mut self, i: usize) {
        Store::insert(self, i);
    }

    fn remove(&mut self, i: usize) {
        Store::remove(self, i);
    }

    fn clear(&mut self) {
        self.clear_within(self.count());
    }

    fn greatest(&self) -> Option<usize> {
        self.max_within(self.count())
    }

    fn greatest_up_to(&self, _i: usize) -> Option<usize> {
        self.greatest()
    }

    fn least_from(&self, i: usize) -> Option<usize> {
        scan_from(self, i)
    }

    fn is_same(&self, other: &Store<T>) -> bool {
        self.has_same_words(other, self.count().max(other.count()))
    }

    fn reserve(&mut self, n: usize) -> Result<(), OutOfMemory> {
        reserve_words(self, n.div_ceil(T::width() as usize))
    }

    fn grow(&mut self, n: usize) {
        grow_words(self, n.div_ceil(T::width() as usize))
    }
}

/// The least member from `i` on: one word after the other.
pub fn scan_from<T: ScalarBitSetStorage>(words: &Store<T>, i: usize) -> Option<usize>
    ensures { IsMinFrom words.now.members i result }
{
    let count = words.count();
    let first = i / T::width() as usize;
    if first >= count {
        return None;
    }
    if let Some(x) = least_in_word(words, i) {
        return Some(x);
    }
    for k in first + 1..count {
        if let Some(x) = least_in_word(words, words.start(k)) {
            return Some(x);
        }
    }
    None
}

/// Asks for the room of `n` words, if there are fewer.
pub fn reserve_words<T: ScalarBitSetStorage>(
    words: &mut Store<T>,
    n: usize,
) -> Result<(), OutOfMemory>
    ensures members { words.new.members ≡ words.old.members }
    ensures count { words.new.count ≡ words.old.count }
    ensures enough { OnOk result (n ≤ words.new.room) }
    ensures never_falls { words.old.room ≤ words.new.room }
    ensures never_refused_within { n ≤ words.old.room → IsOk result }
{
    if n <= words.count() {
        return Ok(());
    }
    words.reserve(n)
}

/// Makes it `n` words, if there are fewer.
pub fn grow_words<T: ScalarBitSetStorage>(words: &mut Store<T>, n: usize)
    requires within { n ≤ words.old.room }
    requires few { n ≤ most_words }
    ensures members { words.new.members ≡ words.old.members }
    ensures count { words.new.count ≡ max words.old.count n }
    ensures room { words.new.room ≡ words.old.room }
{
    if words.count() < n {
        words.grow(n);
    }
}
