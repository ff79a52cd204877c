//! The program of scripts of nests.
ghost use Rattle.std.specs.Prelude.{◌≡◌, ◌≢◌, ◌⊎◌, ◌+◌, ℕ, List, []};
ghost use Rattle.batch_script.specs.Device.{AtMost, use_of};
ghost use Rattle.batch_script.specs.Headline.{PremisesOver, RunsWholeOver, WantsMemory};
ghost use Rattle.batch_script.specs.Status.{Concludes, EndsAmong};
ghost use Rattle.batch_script.specs.declared.program.TheConstants.{INPUT_LIMIT};
ghost use Rattle.batch_nest.specs.Program.{nest_meaning};
ghost use Rattle.batch_nest.specs.Script.{PlainNestItem, nest_bodies, nest_printing};

use crate::runner::nest_run;
use batch_script::{Asked, Program, RunError, Sink, Source, Status, serve};
use std::alloc::Global;
use wic_vec::{TryString, TryVec};

/// Scripts of nests.
pub struct Nests;

impl Program for Nests {
    ghost use Rattle.batch_nest.specs.Program.{nest_meaning, nest_sound};

    ghost meaning = { nest_meaning };

    ghost sound = { nest_sound };

    fn asked(_: Global, words: &TryVec<TryString>) -> Asked {
        if words.is_empty() {
            Asked::Script
        } else {
            Asked::Usage
        }
    }

    fn run(alloc: Global, input: &[u8]) -> Result<TryString, RunError> {
        nest_run(alloc, input)
    }

    fn usage() -> &'static str {
        "usage: nest\n"
    }
}

/// The whole program of nests: reads a script of nests from `source`, runs it, and writes the replies to `sink`.
///
/// With no words, input is read to its end in pieces of 4096 bytes; then the replies of the script are written, or one line that
/// says why there are none. With any words nothing is read and the usage is written.
///
/// Returns the status, as `serve` does, which says what comes first if several are possible.
pub fn nest_top<S: Source, K: Sink>(
    alloc: Global,
    words: &TryVec<TryString>,
    source: &mut S,
    sink: &mut K,
) -> Status
    requires can_read { S.can_call source.old }
    requires can_write { K.can_call sink.old }

    // For every script within the premises the text of one run of its items is written whole, or memory ran out.
    ensures headline { (input held : List ℕ) (items : List PlainNestItem)
        → PremisesOver nest_printing words.now.items (use_of S.left S.faults source.old source.new)
        (use_of K.written K.faults sink.old sink.new)
        input held items
        → RunsWholeOver nest_bodies result (K.written sink.new) held items
        ⊎ WantsMemory result (K.written sink.new) held }

    // How it comes to each status, what is then written, and by how many writes.
    ensures concludes { Concludes nest_meaning words.now.items
        (use_of S.left S.faults source.old source.new)
        (use_of K.written K.faults sink.old sink.new)
        (λ most. AtMost most K.reaches sink.old sink.new) result }

    // Which statuses there can be, whatever the sink does, and when a fault comes.
    ensures ends { EndsAmong nest_meaning words.now.items
        (use_of S.left S.faults source.old source.new)
        (use_of K.written K.faults sink.old sink.new) result }

    // How often is read: at most this often, and not at all if there are words.
    ensures reads { AtMost (INPUT_LIMIT + 1) S.reaches source.old source.new }
    ensures source_stays { words.now.items ≢ [] → source.new ≡ source.old }

    // Another text may follow to the same sink, unless a write failed.
    ensures can_write_again { result ≢ Status.WriteFault → K.can_call sink.new }
{
    serve::<Nests, S, K>(alloc, words, source, sink)
}
