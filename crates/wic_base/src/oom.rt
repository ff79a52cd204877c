//! Out of memory, as a value.
ghost use Rattle.std.specs.Prelude.{◌≡◌, ◌≤◌, min, Some};

use std::fmt;
use std::marker::Model;

/// The greatest size that an `OutOfMemory` keeps, in bytes: no request can be larger.
pub const GREATEST_SIZE: usize = 9223372036854775807;

/// The text of an `OutOfMemory` before its size.
pub const TEXT_BEFORE_SIZE: &str = "out of memory (failed to allocate ";

/// The text of an `OutOfMemory` behind its size.
pub const TEXT_BEHIND_SIZE: &str = " bytes)";

/// An allocation failed. It holds the number of bytes that were asked for, and takes no memory itself.
///
/// A contract sees it as that number.
#[derive(Clone, Copy, Debug)]
pub struct OutOfMemory {
    requested_allocation_size: usize,
}

impl Model for OutOfMemory {
    ghost use Rattle.std.specs.Prelude.{ℕ, ◌≤◌};

    ghost Value = { ℕ };

    ghost view = { λ oom. oom.requested_allocation_size };

    ghost invariant = { λ oom. oom.requested_allocation_size ≤ 9223372036854775807 };

    ghost inverse = { λ size. record { requested_allocation_size = size } };
}

impl OutOfMemory {
    /// An allocation of so many bytes failed. A size above `GREATEST_SIZE` is kept as `GREATEST_SIZE`.
    pub fn new(requested_allocation_size: usize) -> OutOfMemory
        ensures kept { result ≡ min requested_allocation_size GREATEST_SIZE }
    {
        OutOfMemory {
            requested_allocation_size: requested_allocation_size.min(GREATEST_SIZE),
        }
    }

    /// The number of bytes that were asked for, at most `GREATEST_SIZE`.
    pub fn requested_allocation_size(&self) -> usize
        ensures size { result ≡ self.now }
        ensures bound { result ≤ GREATEST_SIZE }
    {
        self.requested_allocation_size
    }
}

impl fmt::Display for OutOfMemory {
    ghost use Rattle.wic_base.specs.OutOfMemory.{text_of};

    ghost output = { λ size. Some (text_of size) };

    fn fmt<W: fmt::Write>(&self, f: &mut fmt::Formatter<W>) -> fmt::Result {
        write!(
            f,
            "{TEXT_BEFORE_SIZE}{}{TEXT_BEHIND_SIZE}",
            self.requested_allocation_size
        )
    }
}

#[cfg(test)]
mod tests {
    use super::*;
    use std::test::Fail;

    #[test]
    fn texts_give_the_size(rt: HostRuntime) -> Result<(), Fail> {
        let alloc = rt.alloc();
        for (asked, shown) in [
            (8192, "out of memory (failed to allocate 8192 bytes)"),
            (
                usize::MAX,
                "out of memory (failed to allocate 9223372036854775807 bytes)",
            ),
        ] {
            let oom = OutOfMemory::new(asked);
            let text = format!(in alloc; "{oom}")?;
            assert_eq!(rt; text.as_str(), shown);
        }
        let oom = OutOfMemory::new(8);
        let text = format!(in alloc; "{oom:?}")?;
        assert_eq!(rt;
            text.as_str(),
            "OutOfMemory { requested_allocation_size: 8 }"
        );
        Ok(())
    }
}
