//! Where input comes from, and where output goes.
ghost use Rattle.std.specs.Prelude.{◌≡◌, ◌+◌, ◌≤◌, ◌<◌, ◌++◌, ℕ, List, length, take, Option, Some, OnOk, OnErr, IfOk};
ghost use Rattle.batch_script.specs.Device.{HasCause, TakesFirst, moves};

/// A call of a source or of a sink failed.
#[derive(Clone, Copy, Debug, PartialEq, Eq)]
pub struct Failed;

/// What a source and a sink have in common. Code that is proved for every device learns of it only what stands here and in
/// `Source` or `Sink`; a caller that passes its own device gets whatever the `reaches` of that device states.
pub trait Device {
    /// How many calls have failed: a number that never falls, and stands still at 18446744073709551615.
    ghost faults: { Self → ℕ };

    /// Whether it may be called. A call that failed ends this, and so does the end of the input, unless a device says otherwise:
    /// no code over every device calls it again after that. A device that may be called at any time says `⊤`.
    ghost can_call: { Self → Type 0 };

    /// What calls, one after the other, can make of it, of which this many moved bytes.
    ghost reaches: { ℕ → Self → Self → Type 0 };

    /// Zero calls leave it as it is.
    ghost stays: { (device : Self) → reaches 0 device device };

    /// Two series of calls are one series, and their numbers add up.
    ghost goes_on: { (first more : ℕ) (before between after : Self)
        → reaches first before between → reaches more between after → reaches (first + more) before after };
}

/// Where input comes from, in pieces.
pub trait Source: Device {
    /// The bytes that are left, if the source tells them.
    ghost left: { Self → Option (List ℕ) };

    /// Takes bytes into the front of `buf`, and returns how many. No bytes into a buffer that has room is the
    /// end of the input. After `Failed` nothing is taken.
    fn read(&mut self, buf: &mut [u8]) -> Result<usize, Failed>
        requires can_call { Self.can_call self.old }
        ensures within { IfOk result (λ count. count ≤ length buf.old) }
        ensures bytes { IfOk result
            (λ count. (bytes : List ℕ) → left self.old ≡ Some bytes
            → TakesFirst bytes (left self.new) buf.new count) }
        ensures failed_takes_nothing { OnErr result (left self.new ≡ left self.old) }
        ensures cause { HasCause (Self.faults self.old) (Self.faults self.new) result }
        ensures reaches { Self.reaches (moves result) self.old self.new }
        ensures can_call { IfOk result (λ count. 0 < count → Self.can_call self.new) };
}

/// Where output goes, in pieces.
pub trait Sink: Device {
    /// The bytes that were written, if the sink tells them.
    ghost written: { Self → Option (List ℕ) };

    /// Takes bytes from the front of `piece`, at least one if there is one, and returns how many. After
    /// `Failed` nothing is taken.
    fn write(&mut self, piece: &[u8]) -> Result<usize, Failed>
        requires can_call { Self.can_call self.old }
        ensures within { IfOk result (λ count. count ≤ length piece.now) }
        ensures progress { IfOk result (λ count. 0 < length piece.now → 0 < count) }
        ensures bytes { IfOk result
            (λ count. (held : List ℕ) → written self.old ≡ Some held → written self.new
            ≡ Some (held ++ take count piece.now)) }
        ensures failed_takes_nothing { OnErr result (written self.new ≡ written self.old) }
        ensures cause { HasCause (Self.faults self.old) (Self.faults self.new) result }
        ensures reaches { Self.reaches (moves result) self.old self.new }
        ensures can_call { OnOk result (Self.can_call self.new) };
}
