//! What becomes of two sets.
ghost use Rattle.std.specs.Prelude.{◌≡◌, ℕ, ◌<◌};
ghost use Rattle.wic_bitset.specs.Combination.{combined};
ghost use Rattle.wic_scalar.specs.Digits.{is_one};

use wic_scalar::{ScalarBitSet, ScalarBitSetStorage};

/// What becomes of two sets: a set of what is in either, in both, or in the first alone.
#[derive(Clone, Copy)]
pub enum Combination {
    Union,
    Intersection,
    Difference,
}

impl Combination {
    /// What becomes of two words, all digits at once.
    #[inline]
    pub fn of_words<T: ScalarBitSetStorage>(
        self,
        left: ScalarBitSet<T>,
        right: ScalarBitSet<T>,
    ) -> ScalarBitSet<T>
        ensures { (j : ℕ) → j < T.width
            → is_one (T.number result.0) j
            ≡ combined self (is_one (T.number left.0) j) (is_one (T.number right.0) j) }
    {
        match self {
            Combination::Union => ScalarBitSet(left.0.bit_or(right.0)),
            Combination::Intersection => ScalarBitSet(left.0.bit_and(right.0)),
            Combination::Difference => ScalarBitSet(left.0.bit_and(right.0.bit_not())),
        }
    }
}
