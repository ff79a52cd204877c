//! The members in one word from a place on.
ghost use Rattle.std.specs.Prelude.{◌≡◌, ◌/◌, ◌<◌, ◌&&◌, ℕ, not, nat_lt};
ghost use Rattle.wic_bitset.specs.From.{IsMinInWord};
ghost use Rattle.wic_scalar.specs.Digits.{is_one};

use crate::store::Store;
use wic_scalar::{ScalarBitSet, ScalarBitSetStorage};

/// The places of `word` from `place` on.
#[inline]
pub fn places_from<T: ScalarBitSetStorage>(word: ScalarBitSet<T>, place: u8) -> ScalarBitSet<T>
    requires { place < T.width }
    ensures { (j : ℕ) → j < T.width
        → is_one (T.number result.0) j ≡ (is_one (T.number word.0) j && not (nat_lt j place)) }
{
    ScalarBitSet(word.0.bit_and(T::below(place).bit_not()))
}

/// The least member from `i` on in the word of `i`.
#[inline]
pub fn least_in_word<T: ScalarBitSetStorage>(words: &Store<T>, i: usize) -> Option<usize>
    requires { i / T.width < words.now.count }
    ensures { IsMinInWord T.width words.now.members i result }
{
    let width = T::width() as usize;
    let k = i / width;
    let start = words.start(k);
    match places_from(words.word(k), (i % width) as u8).min() {
        Some(place) => Some(start + place as usize),
        None => None,
    }
}
