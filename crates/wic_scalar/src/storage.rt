//! The integers that hold a set.
ghost use Rattle.std.specs.Prelude.{◌≡◌, ◌==◌, ◌&&◌, ◌||◌, ℕ, ◌<◌, ◌≤◌, ◌↔◌, IsTrue, false, length, nat_lt, not};
ghost use Rattle.wic_scalar.specs.Scalar.{IsWidth, IsWidth-check};
ghost use Rattle.std.specs.Prelude.{refl};
ghost use Rattle.wic_scalar.specs.Digits.{is_one, SameDigits, IsLowZeros, IsHighZeros, IsWithoutLowest};
ghost use Rattle.wic_scalar.specs.Scalar.{members_of};

/// An unsigned integer that holds a set, by its digits in base two: digit 0 is the lowest.
///
/// Each law is a clause of a call, about the values that are passed. The operators that the original requires are calls here,
/// so that each has its law; `width`, `zero`, `bit`, `below` and `without_lowest` are added.
pub trait ScalarBitSetStorage: Copy {
    /// The number of digits of each value.
    ghost width: { ℕ };

    /// The value as a number.
    ghost number: { Self → ℕ };

    /// The width is from 1 to 128.
    ghost width_within: { IsWidth width };

    /// The number of digits of each value: 8 for `u8`, and so on; 64 for `usize`.
    fn width() -> u8
        ensures value { result ≡ width }
        ensures positive { 0 < width };

    /// The number with no digit 1.
    fn zero() -> Self
        ensures { (k : ℕ) → is_one (number result) k ≡ false };

    /// The number whose digit `i` alone is 1.
    fn bit(i: u8) -> Self
        requires { i < width }
        ensures { (k : ℕ) → is_one (number result) k ≡ (k == i) };

    /// The number whose digits below `n` alone are 1: none at 0, all at the width.
    fn below(n: u8) -> Self
        requires { n ≤ width }
        ensures { (k : ℕ) → is_one (number result) k ≡ nat_lt k n };

    /// Digit by digit, 1 if both are.
    fn bit_and(self, other: Self) -> Self
        ensures { (k : ℕ) → is_one (number result) k
            ≡ (is_one (number self) k && is_one (number other) k) };

    /// Digit by digit, 1 if either is.
    fn bit_or(self, other: Self) -> Self
        ensures { (k : ℕ) → is_one (number result) k
            ≡ (is_one (number self) k || is_one (number other) k) };

    /// Digit by digit, 1 if it was 0.
    fn bit_not(self) -> Self
        ensures { (k : ℕ) → k < width → is_one (number result) k ≡ not (is_one (number self) k) };

    /// Whether the two have the same digits.
    fn is_equal(self, other: Self) -> bool
        ensures { IsTrue result ↔ SameDigits width (number self) (number other) };

    /// The number of digits 0 above the highest digit 1: the width for 0.
    fn leading_zeros(self) -> u8
        ensures { IsHighZeros width (number self) result };

    /// The number of digits 0 below the lowest digit 1: the width for 0.
    fn trailing_zeros(self) -> u8
        ensures { IsLowZeros width (number self) result };

    /// The digits but the lowest 1: 0 stays 0. It costs a subtraction and an `&`.
    fn without_lowest(self) -> Self
        ensures { IsWithoutLowest width (number self) (number result) };

    /// The number of digits 1.
    fn count_ones(self) -> u8
        ensures { result ≡ length (members_of width (number self)) };
}

#[tactic(auto, using(crate::proofs::WidthFacts::laws_8))]
impl ScalarBitSetStorage for u8 {
    ghost width = { 8 };

    ghost width_within = { IsWidth-check 8 refl refl };

    ghost number = { λ n. n };

    #[inline]
    fn width() -> u8 {
        8
    }

    #[inline]
    fn zero() -> u8 {
        0
    }

    #[inline]
    fn bit(i: u8) -> u8 {
        1 << i
    }

    #[inline]
    fn below(n: u8) -> u8 {
        if n == 0 { 0 } else { u8::MAX >> (8 - n) }
    }

    #[inline]
    fn bit_and(self, other: u8) -> u8 {
        self & other
    }

    #[inline]
    fn bit_or(self, other: u8) -> u8 {
        self | other
    }

    #[inline]
    fn bit_not(self) -> u8 {
        !self
    }

    #[inline]
    fn is_equal(self, other: u8) -> bool {
        self == other
    }

    #[inline]
    fn leading_zeros(self) -> u8 {
        u8::leading_zeros(self) as u8
    }

    #[inline]
    fn trailing_zeros(self) -> u8 {
        u8::trailing_zeros(self) as u8
    }

    #[inline]
    fn without_lowest(self) -> u8 {
        self & self.wrapping_sub(1)
    }

    #[inline]
    fn count_ones(self) -> u8 {
        u8::count_ones(self) as u8
    }
}

#[tactic(auto, using(crate::proofs::WidthFacts::laws_16))]
impl ScalarBitSetStorage for u16 {
    ghost width = { 16 };

    ghost width_within = { IsWidth-check 16 refl refl };

    ghost number = { λ n. n };

    #[inline]
    fn width() -> u8 {
        16
    }

    #[inline]
    fn zero() -> u16 {
        0
    }

    #[inline]
    fn bit(i: u8) -> u16 {
        1 << i
    }

    #[inline]
    fn below(n: u8) -> u16 {
        if n == 0 { 0 } else { u16::MAX >> (16 - n) }
    }

    #[inline]
    fn bit_and(self, other: u16) -> u16 {
        self & other
    }

    #[inline]
    fn bit_or(self, other: u16) -> u16 {
        self | other
    }

    #[inline]
    fn bit_not(self) -> u16 {
        !self
    }

    #[inline]
    fn is_equal(self, other: u16) -> bool {
        self == other
    }

    #[inline]
    fn leading_zeros(self) -> u8 {
        u16::leading_zeros(self) as u8
    }

    #[inline]
    fn trailing_zeros(self) -> u8 {
        u16::trailing_zeros(self) as u8
    }

    #[inline]
    fn without_lowest(self) -> u16 {
        self & self.wrapping_sub(1)
    }

    #[inline]
    fn count_ones(self) -> u8 {
        u16::count_ones(self) as u8
    }
}

#[tactic(auto, using(crate::proofs::WidthFacts::laws_32))]
impl ScalarBitSetStorage for u32 {
    ghost width = { 32 };

    ghost width_within = { IsWidth-check 32 refl refl };

    ghost number = { λ n. n };

    #[inline]
    fn width() -> u8 {
        32
    }

    #[inline]
    fn zero() -> u32 {
        0
    }

    #[inline]
    fn bit(i: u8) -> u32 {
        1 << i
    }

    #[inline]
    fn below(n: u8) -> u32 {
        if n == 0 { 0 } else { u32::MAX >> (32 - n) }
    }

    #[inline]
    fn bit_and(self, other: u32) -> u32 {
        self & other
    }

    #[inline]
    fn bit_or(self, other: u32) -> u32 {
        self | other
    }

    #[inline]
    fn bit_not(self) -> u32 {
        !self
    }

    #[inline]
    fn is_equal(self, other: u32) -> bool {
        self == other
    }

    #[inline]
    fn leading_zeros(self) -> u8 {
        u32::leading_zeros(self) as u8
    }

    #[inline]
    fn trailing_zeros(self) -> u8 {
        u32::trailing_zeros(self) as u8
    }

    #[inline]
    fn without_lowest(self) -> u32 {
        self & self.wrapping_sub(1)
    }

    #[inline]
    fn count_ones(self) -> u8 {
        u32::count_ones(self) as u8
    }
}

#[tactic(auto, using(crate::proofs::WidthFacts::laws_64))]
impl ScalarBitSetStorage for u64 {
    ghost width = { 64 };

    ghost width_within = { IsWidth-check 64 refl refl };

    ghost number = { λ n. n };

    #[inline]
    fn width() -> u8 {
        64
    }

    #[inline]
    fn zero() -> u64 {
        0
    }

    #[inline]
    fn bit(i: u8) -> u64 {
        1 << i
    }

    #[inline]
    fn below(n: u8) -> u64 {
        if n == 0 { 0 } else { u64::MAX >> (64 - n) }
    }

    #[inline]
    fn bit_and(self, other: u64) -> u64 {
        self & other
    }

    #[inline]
    fn bit_or(self, other: u64) -> u64 {
        self | other
    }

    #[inline]
    fn bit_not(self) -> u64 {
        !self
    }

    #[inline]
    fn is_equal(self, other: u64) -> bool {
        self == other
    }

    #[inline]
    fn leading_zeros(self) -> u8 {
        u64::leading_zeros(self) as u8
    }

    #[inline]
    fn trailing_zeros(self) -> u8 {
        u64::trailing_zeros(self) as u8
    }

    #[inline]
    fn without_lowest(self) -> u64 {
        self & self.wrapping_sub(1)
    }

    #[inline]
    fn count_ones(self) -> u8 {
        u64::count_ones(self) as u8
    }
}

#[tactic(auto, using(crate::proofs::WidthFacts::laws_128))]
impl ScalarBitSetStorage for u128 {
    ghost width = { 128 };

    ghost width_within = { IsWidth-check 128 refl refl };

    ghost number = { λ n. n };

    #[inline]
    fn width() -> u8 {
        128
    }

    #[inline]
    fn zero() -> u128 {
        0
    }

    #[inline]
    fn bit(i: u8) -> u128 {
        1 << i
    }

    #[inline]
    fn below(n: u8) -> u128 {
        if n == 0 { 0 } else { u128::MAX >> (128 - n) }
    }

    #[inline]
    fn bit_and(self, other: u128) -> u128 {
        self & other
    }

    #[inline]
    fn bit_or(self, other: u128) -> u128 {
        self | other
    }

    #[inline]
    fn bit_not(self) -> u128 {
        !self
    }

    #[inline]
    fn is_equal(self, other: u128) -> bool {
        self == other
    }

    #[inline]
    fn leading_zeros(self) -> u8 {
        u128::leading_zeros(self) as u8
    }

    #[inline]
    fn trailing_zeros(self) -> u8 {
        u128::trailing_zeros(self) as u8
    }

    #[inline]
    fn without_lowest(self) -> u128 {
        self & self.wrapping_sub(1)
    }

    #[inline]
    fn count_ones(self) -> u8 {
        u128::count_ones(self) as u8
    }
}

#[tactic(auto, using(crate::proofs::WidthFacts::laws_64))]
impl ScalarBitSetStorage for usize {
    ghost width = { 64 };

    ghost width_within = { IsWidth-check 64 refl refl };

    ghost number = { λ n. n };

    #[inline]
    fn width() -> u8 {
        64
    }

    #[inline]
    fn zero() -> usize {
        0
    }

    #[inline]
    fn bit(i: u8) -> usize {
        1 << i
    }

    #[inline]
    fn below(n: u8) -> usize {
        if n == 0 { 0 } else { usize::MAX >> (64 - n) }
    }

    #[inline]
    fn bit_and(self, other: usize) -> usize {
        self & other
    }

    #[inline]
    fn bit_or(self, other: usize) -> usize {
        self | other
    }

    #[inline]
    fn bit_not(self) -> usize {
        !self
    }

    #[inline]
    fn is_equal(self, other: usize) -> bool {
        self == other
    }

    #[inline]
    fn leading_zeros(self) -> u8 {
        usize::leading_zeros(self) as u8
    }

    #[inline]
    fn trailing_zeros(self) -> u8 {
        usize::trailing_zeros(self) as u8
    }

    #[inline]
    fn without_lowest(self) -> usize {
        self & self.wrapping_sub(1)
    }

    #[inline]
    fn count_ones(self) -> u8 {
        usize::count_ones(self) as u8
    }
}
