//! Standard input and output as source and sink. They tell nothing of the bytes, and may be called at any time.
ghost use Rattle.std.specs.Prelude.{⊤, None};

use crate::flushed::write_flushed;
use batch_script::{Device, Failed, Sink, Source};
use std::io::{Read, Stdin, Stdout};

/// Standard input. It counts the reads that fail.
#[derive(Drop)]
pub struct StdSource {
    input: Stdin,
    faults: u64,
}

impl StdSource {
    pub fn new(input: Stdin) -> StdSource {
        StdSource { input, faults: 0 }
    }
}

impl Device for StdSource {
    ghost faults = { λ s. s.faults };

    ghost can_call = { λ _. ⊤ };

    ghost reaches = { λ _ _ _. ⊤ };

    ghost stays = { λ _. tt };

    ghost goes_on = { λ _ _ _ _ _ _ _. tt };
}

impl Source for StdSource {
    ghost left = { λ _. None };

    fn read(&mut self, buf: &mut [u8]) -> Result<usize, Failed> {
        match self.input.read(buf) {
            Ok(count) => Ok(count),
            Err(_) => {
                self.faults = self.faults.saturating_add(1);
                Err(Failed)
            }
        }
    }
}

/// Standard output. It counts the writes that fail: an error of a write or of a flush, and a write that takes nothing
/// of a piece that isn't empty.
#[derive(Drop)]
pub struct StdSink {
    output: Stdout,
    faults: u64,
}

impl StdSink {
    pub fn new(output: Stdout) -> StdSink {
        StdSink { output, faults: 0 }
    }
}

impl Device for StdSink {
    ghost faults = { λ s. s.faults };

    ghost can_call = { λ _. ⊤ };

    ghost reaches = { λ _ _ _. ⊤ };

    ghost stays = { λ _. tt };

    ghost goes_on = { λ _ _ _ _ _ _ _. tt };
}

impl Sink for StdSink {
    ghost written = { λ _. None };

    fn write(&mut self, piece: &[u8]) -> Result<usize, Failed> {
        match write_flushed(&mut self.output, piece) {
            Some(count) => Ok(count),
            None => {
                self.faults = self.faults.saturating_add(1);
                Err(Failed)
            }
        }
    }
}
