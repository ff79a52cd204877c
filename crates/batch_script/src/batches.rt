//! The program of scripts of batches.
ghost use Rattle.std.specs.Prelude.{◌≡◌, ◌≢◌, ◌⊎◌, ◌+◌, ◌≤◌, ℕ, List, [], Some, IfOk};
ghost use Rattle.batch_script.specs.Device.{AtMost, HasFaults, use_of};
ghost use Rattle.batch_script.specs.Generated.{generated};
ghost use Rattle.batch_script.specs.Headline.{Premises, RunsWhole, WantsMemory};
ghost use Rattle.batch_script.specs.Machine.{PlainItem};
ghost use Rattle.batch_script.specs.Program.{SummarizesRun, batch_meaning};
ghost use Rattle.batch_script.specs.Status.{Concludes, EndsAmong};
ghost use Rattle.batch_script.specs.Summary.{summary_text};
ghost use Rattle.batch_script.specs.Words.{AsksForRun};
ghost use Rattle.batch_script.specs.declared.program.Status.{Status};
ghost use Rattle.batch_script.specs.declared.program.TheConstants.{INPUT_LIMIT};
ghost use Rattle.batch_script.specs.declared.words.TheConstants.{MOST_BATCHES};

use crate::device::{Sink, Source};
use crate::generator::generate;
use crate::program::{Asked, Program, Status, serve};
use crate::run_error::RunError;
use crate::runner;
use crate::summarizer::summary;
use crate::words::{Wish, wish_of};
use std::alloc::Global;
use wic_base::OutOfMemory;
use wic_vec::{TryString, TryVec};

/// Scripts of batches, and generated runs of them.
pub struct Batches;

impl Program for Batches {
    ghost use Rattle.batch_script.specs.Program.{batch_meaning};
    ghost use Rattle.batch_script.specs.ProgramLaws.{batch_sound};

    ghost meaning = { batch_meaning };

    ghost sound = { batch_sound };

    fn asked(alloc: Global, words: &TryVec<TryString>) -> Asked {
        match wish_of(words) {
            Wish::Script => Asked::Script,
            Wish::Generated(seed, count) => match summary_of_run(alloc, seed, count) {
                Ok(text) => Asked::Text(text),
                Err(_) => Asked::OutOfMemory,
            },
            Wish::Usage => Asked::Usage,
        }
    }

    fn run(alloc: Global, input: &[u8]) -> Result<TryString, RunError> {
        runner::run(alloc, input)
    }

    fn usage() -> &'static str {
        "usage: batch [gen SEED N]\n"
    }
}

/// The summary of the script that is generated from these numbers.
fn summary_of_run(alloc: Global, seed: u64, count: u64) -> Result<TryString, OutOfMemory>
    requires few { count ≤ MOST_BATCHES }
    ensures { IfOk result (λ text. text.bytes ≡ summary_text (generated seed count)) }
{
    summary(alloc, generate(alloc, seed, count)?)
}

/// The whole program: reads a script from `source`, runs it, and writes the replies to `sink`; or runs the script that is
/// generated from two numbers, and writes its summary.
///
/// With no words, input is read to its end in pieces of 4096 bytes; then the replies of the script are written, or one line that
/// says why there are none. With `gen SEED N`, two numbers in decimal of which N is at most 100000, nothing is read, and the seven
/// lines of the summary are written. For all other words nothing is read and the usage is written.
///
/// Returns the status, as `serve` does, which says what comes first if several are possible.
pub fn top<S: Source, K: Sink>(
    alloc: Global,
    words: &TryVec<TryString>,
    source: &mut S,
    sink: &mut K,
) -> Status
    requires can_read { S.can_call source.old }
    requires can_write { K.can_call sink.old }

    // For every script within the premises the text of one run of its items is written whole, or memory ran out.
    ensures headline { (input held : List ℕ) (items : List PlainItem)
        → Premises words.now.items (use_of S.left S.faults source.old source.new)
        (use_of K.written K.faults sink.old sink.new)
        input held items
        → RunsWhole result (K.written sink.new) held items
        ⊎ WantsMemory result (K.written sink.new) held }

    // For two numbers the summary of the script that they generate is written whole, or memory ran out.
    ensures summary { (seed count : ℕ) (held : List ℕ) → AsksForRun words.now.items seed count
        → K.written sink.old ≡ Some held → ¬ HasFaults (use_of K.written K.faults sink.old sink.new)
        → SummarizesRun result (K.written sink.new) held seed count
        ⊎ WantsMemory result (K.written sink.new) held }

    // How it comes to each status, what is then written, and by how many writes.
    ensures concludes { Concludes batch_meaning words.now.items
        (use_of S.left S.faults source.old source.new)
        (use_of K.written K.faults sink.old sink.new)
        (λ most. AtMost most K.reaches sink.old sink.new) result }

    // Which statuses there can be, whatever the sink does, and when a fault comes.
    ensures ends { EndsAmong batch_meaning words.now.items
        (use_of S.left S.faults source.old source.new)
        (use_of K.written K.faults sink.old sink.new) result }

    // How often is read: at most this often, and not at all if there are words.
    ensures reads { AtMost (INPUT_LIMIT + 1) S.reaches source.old source.new }
    ensures source_stays { words.now.items ≢ [] → source.new ≡ source.old }

    // Another text may follow to the same sink, unless a write failed.
    ensures can_write_again { result ≢ Status.WriteFault → K.can_call sink.new }
{
    serve::<Batches, S, K>(alloc, words, source, sink)
}
