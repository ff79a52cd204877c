//! Keys.
ghost use Rattle.std.specs.Prelude.{◌≡◌, ◌↔◌, ℕ, ◌<◌, ◌≤◌, IsTrue};
ghost use Rattle.wic_bitset.specs.Compound.{max_capacity};

/// A key of an entity, such as a block or a variable of a compiler: it has a number below a limit.
///
/// Each law is a clause of a call, about the keys that are passed. After Cranelift's `EntityRef`.
pub trait EntityRef: Copy + Eq {
    /// The number of each key is below it.
    ghost limit: { ℕ };

    /// The number of a key.
    ghost number: { Self → ℕ };

    /// The limit, at most `MAX_CAPACITY` of wic_bitset, 4294967296.
    fn limit() -> usize
        ensures value { result ≡ limit }
        ensures at_most { result ≤ max_capacity };

    /// A key with the number `index`, which is below the limit.
    fn new(index: usize) -> Self
        requires { index < limit }
        ensures { number result ≡ index };

    /// The number of the key. Another key is equal to it exactly if it has that number.
    fn index(self) -> usize
        ensures value { result ≡ number self }
        ensures below { result < limit }
        ensures equal { (other : Self) → number other < limit
            → (IsTrue (Self.eq self other) ↔ (number self ≡ number other)) };
}
