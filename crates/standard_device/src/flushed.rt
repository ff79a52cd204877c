//! Writes that are flushed at once.
ghost use Rattle.std.specs.Prelude.{◌<◌, ◌≤◌, length, IfSome};

use std::io::Write;

/// Writes some of a piece and flushes: how many bytes were taken, or `None` at a fault. An error of the write or of the
/// flush is one, and so is a write that takes nothing of a piece that isn't empty.
pub fn write_flushed<W: Write>(output: &mut W, piece: &[u8]) -> Option<usize>
    ensures within { IfSome result (λ count. count ≤ length piece.now) }
    ensures progress { IfSome result (λ count. 0 < length piece.now → 0 < count) }
{
    let count = output.write(piece).ok()?;
    output.flush().ok()?;
    (count > 0 || piece.is_empty()).then_some(count)
}

#[cfg(test)]
mod tests {
    use super::write_flushed;
    use std::io::{self, Error, ErrorKind, Write};
    use std::test::Fail;

    /// A writer that takes so many bytes of each piece, and may fail at a write or at a flush. It keeps its calls as digits: 1 for a
    /// write, 2 for a flush.
    #[derive(Drop)]
    struct Taking {
        most: usize,
        write_fails: bool,
        flush_fails: bool,
        calls: u32,
    }

    impl Taking {
        fn keep(&mut self, call: u32) {
            self.calls = self.calls.saturating_mul(10).saturating_add(call);
        }
    }

    impl Write for Taking {
        fn write(&mut self, buf: &[u8]) -> io::Result<usize> {
            self.keep(1);
            if self.write_fails {
                return Err(Error::from(ErrorKind::BrokenPipe));
            }
            Ok(buf.len().min(self.most))
        }

        fn flush(&mut self) -> io::Result<()> {
            self.keep(2);
            if self.flush_fails {
                return Err(Error::from(ErrorKind::StorageFull));
            }
            Ok(())
        }
    }

    #[test]
    fn a_failed_write_or_flush_is_a_fault_and_each_write_is_flushed_once(
        rt: HostRuntime,
    ) -> Result<(), Fail> {
        for (most, write_fails, flush_fails, piece, taken, calls) in [
            (10, false, false, "reply", Some(5), 12),
            (2, false, false, "reply", Some(2), 12),
            (0, false, false, "", Some(0), 12),
            (0, false, false, "reply", None, 12),
            (10, true, false, "reply", None, 1),
            (10, false, true, "reply", None, 12),
        ] {
            let mut output = Taking {
                most,
                write_fails,
                flush_fails,
                calls: 0,
            };
            assert_eq!(rt; write_flushed(&mut output, piece.as_bytes()), taken);
            assert_eq!(rt; output.calls, calls);
        }
        Ok(())
    }
}
