//! Numbers that are never the greatest of their type.
ghost use Rattle.std.specs.Prelude.{⊤, ◌≡◌, ◌≢◌, ◌↔◌, ℕ, List, codes, IsTrue, IsSome, IfSome};

use std::alloc::AllocError;
use std::fmt;
use std::marker::Model;

/// An unsigned type of which non-max numbers are made.
pub trait NonMaxNumber: Copy {
    /// The number 0.
    ghost zero: { Self };

    /// The greatest number of the type.
    ghost greatest: { Self };

    /// The name of the non-max numbers of this type.
    ghost name: { List ℕ };

    /// The number 0, which isn't the greatest one.
    fn zero() -> Self
        ensures zero { result ≡ zero }
        ensures not_greatest { result ≢ greatest };

    /// Whether this is the greatest number of the type.
    fn is_greatest(self) -> bool
        ensures greatest { IsTrue result ↔ (self ≡ greatest) };

    /// What the non-max numbers of this type are called in their debug text.
    fn type_name() -> &'static str
        ensures { result.now ≡ name };
}

impl NonMaxNumber for u8 {
    ghost zero = { 0 };

    ghost greatest = { 255 };

    ghost name = { codes "NonMaxU8" };

    fn zero() -> u8 {
        0
    }

    fn is_greatest(self) -> bool {
        self == u8::MAX
    }

    fn type_name() -> &'static str {
        "NonMaxU8"
    }
}

impl NonMaxNumber for u16 {
    ghost zero = { 0 };

    ghost greatest = { 65535 };

    ghost name = { codes "NonMaxU16" };

    fn zero() -> u16 {
        0
    }

    fn is_greatest(self) -> bool {
        self == u16::MAX
    }

    fn type_name() -> &'static str {
        "NonMaxU16"
    }
}

impl NonMaxNumber for u32 {
    ghost zero = { 0 };

    ghost greatest = { 4294967295 };

    ghost name = { codes "NonMaxU32" };

    fn zero() -> u32 {
        0
    }

    fn is_greatest(self) -> bool {
        self == u32::MAX
    }

    fn type_name() -> &'static str {
        "NonMaxU32"
    }
}

impl NonMaxNumber for u64 {
    ghost zero = { 0 };

    ghost greatest = { 18446744073709551615 };

    ghost name = { codes "NonMaxU64" };

    fn zero() -> u64 {
        0
    }

    fn is_greatest(self) -> bool {
        self == u64::MAX
    }

    fn type_name() -> &'static str {
        "NonMaxU64"
    }
}

impl NonMaxNumber for usize {
    ghost zero = { 0 };

    ghost greatest = { 18446744073709551615 };

    ghost name = { codes "NonMaxUsize" };

    fn zero() -> usize {
        0
    }

    fn is_greatest(self) -> bool {
        self == usize::MAX
    }

    fn type_name() -> &'static str {
        "NonMaxUsize"
    }
}

/// A number of type `P` that isn't the greatest one.
///
/// A contract sees it as its number, and it is compared and hashed by that. A port of
/// `wasmtime_internal_core::non_max`, whose five types are `NonMaxU8` to `NonMaxUsize` here too.
#[derive(Copy, PartialEq, Eq, PartialOrd, Ord, Hash)]
pub struct NonMax<P: NonMaxNumber> {
    number: P,
}

pub type NonMaxU8 = NonMax<u8>;

pub type NonMaxU16 = NonMax<u16>;

pub type NonMaxU32 = NonMax<u32>;

pub type NonMaxU64 = NonMax<u64>;

pub type NonMaxUsize = NonMax<usize>;

impl<P: NonMaxNumber> Model for NonMax<P> {
    ghost Value = { P };

    ghost view = { λ n. n.number };

    ghost invariant = { λ n. n.number ≢ P.greatest };

    ghost inverse = { λ x. record { number = x } };
}

impl<P: NonMaxNumber> NonMax<P> {
    /// The number `x`, or `None` if that is the greatest number of its type, and only then.
    pub fn new(x: P) -> Option<NonMax<P>>
        ensures some { IsSome result ↔ (x ≢ P.greatest) }
        ensures number { IfSome result (λ n. n ≡ x) }
    {
        if x.is_greatest() {
            return None;
        }
        Some(NonMax { number: x })
    }

    /// The number `x`. It is safe: the precondition stands in the contract.
    pub fn new_unchecked(x: P) -> NonMax<P>
        requires { x ≢ P.greatest }
        ensures number { result ≡ x }
    {
        NonMax { number: x }
    }

    /// The number.
    pub fn get(&self) -> P
        ensures number { result ≡ self.now }
        ensures not_greatest { result ≢ P.greatest }
    {
        self.number
    }
}

impl<P: NonMaxNumber> Clone for NonMax<P> {
    ghost is_clone = { λ n copy. copy ≡ n };

    ghost is_infallible = { λ _. ⊤ };

    fn clone(&self) -> Result<NonMax<P>, AllocError> {
        Ok(*self)
    }
}

/// The number 0.
impl<P: NonMaxNumber> Default for NonMax<P> {
    ghost is_default = { λ n. n ≡ P.zero };

    fn default() -> NonMax<P> {
        NonMax { number: P::zero() }
    }
}

impl<P: NonMaxNumber + fmt::Debug> fmt::Debug for NonMax<P> {
    fn fmt<W: fmt::Write>(&self, f: &mut fmt::Formatter<W>) -> fmt::Result {
        f.debug_tuple(P::type_name()).field(&self.number).finish()
    }
}

#[cfg(test)]
mod tests {
    use super::*;
    use std::hash::{DefaultHasher, Hash, Hasher};
    use std::test::Fail;

    #[test]
    fn each_type_takes_all_numbers_but_its_greatest(rt: HostRuntime) -> Result<(), Fail> {
        assert!(rt; NonMaxU8::new(u8::MAX).is_none() && NonMaxU8::new(254).is_some());
        assert!(rt; NonMaxU16::new(u16::MAX).is_none() && NonMaxU16::new(255).is_some());
        assert!(rt; NonMaxU32::new(u32::MAX).is_none() && NonMaxU32::new(65535).is_some());
        assert!(rt; NonMaxU64::new(u64::MAX).is_none() && NonMaxU64::new(4294967295).is_some());
        assert!(rt; NonMaxUsize::new(usize::MAX).is_none() && NonMaxUsize::new(0).is_some());
        Ok(())
    }

    #[test]
    fn texts_name_the_type(rt: HostRuntime) -> Result<(), Fail> {
        let (one, two) = (
            NonMaxU16::new_unchecked(300),
            NonMaxU32::new_unchecked(70000),
        );
        let text = format!(in rt.alloc(); "{:?} {one:?} {two:?}", NonMaxU8::new_unchecked(7))?;
        assert_eq!(rt;
            text.as_str(),
            "NonMaxU8(7) NonMaxU16(300) NonMaxU32(70000)"
        );
        let text = format!(in rt.alloc();
            "{:?} {:?}",
            NonMaxU64::default(),
            NonMaxUsize::default()
        )?;
        assert_eq!(rt; text.as_str(), "NonMaxU64(0) NonMaxUsize(0)");
        Ok(())
    }

    #[test]
    fn they_compare_and_hash_by_the_number(rt: HostRuntime) -> Result<(), Fail> {
        let (seven, eight) = (NonMaxU8::new_unchecked(7), NonMaxU8::new_unchecked(8));
        assert!(rt; seven < eight && seven != eight && seven == seven.clone()?);
        assert_eq!(rt; seven.get(), 7);
        let (mut left, mut right) = (DefaultHasher::new(), DefaultHasher::new());
        seven.hash(&mut left);
        7u8.hash(&mut right);
        assert_eq!(rt; left.finish(), right.finish());
        Ok(())
    }
}
