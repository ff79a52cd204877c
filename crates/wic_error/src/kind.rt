//! What the links of an error are.
ghost use Rattle.std.specs.Prelude.{◌≡◌, ℕ, List, ◌++◌, OnOk, OnErr};
ghost use Rattle.wic_error.specs.Chain.{GainsFront};

use wic_base::OutOfMemory;
use wic_vec::TryString;

/// A kind of error: what one link of a chain says. An enum of an application's errors is one.
///
/// It has a number, by which links are looked for, and a text. In Rust a link is any error type, and is found by its
/// `TypeId`.
pub trait Kind {
    ghost number: { Self → ℕ };

    ghost text: { Self → List ℕ };

    /// The number of this kind.
    fn number(&self) -> u32
        ensures answers { result ≡ number self.now };

    /// Puts the text of this kind at the end of `out`. After a refusal a prefix of it may stand there.
    fn push_text(&self, out: &mut TryString) -> Result<(), OutOfMemory>
        ensures whole { OnOk result (out.new.bytes ≡ out.old.bytes ++ text self.now) }
        ensures front { OnErr result (GainsFront out.old.bytes (text self.now) out.new.bytes) };
}
