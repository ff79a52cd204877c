//! Reads a script line by line, whatever the bodies of its items are.
ghost use Rattle.std.specs.Prelude.{◌≡◌, ◌<◌, ℕ, List, [], length, IfSome, IfNone, IfOk, IfErr, OnOk, Err};
ghost use Rattle.batch_script.specs.Grammar.{Line, Printing, lines_of};
ghost use Rattle.batch_script.specs.Grammar.{IsOpenOver, IsScriptOfSome, IsScriptOver, IsFaultLineOver};
ghost use Rattle.batch_script.specs.Machine.{ItemOf};
ghost use Rattle.batch_script.specs.Reading.{HasPartsThroughout, listed};
ghost use Rattle.batch_script.specs.Reading.{TakesLineOver, RefusesLineOver, TakesFirstLine, RefusesFirstLine};
ghost use Rattle.batch_script.specs.Refusal.{IsJustifiedBy};

use crate::line::{Numbers, read_line};
use crate::run_error::RunError;
use std::alloc::Global;
use wic_base::OutOfMemory;

/// Why a line was not taken.
#[derive(Clone, Copy, Debug, PartialEq, Eq)]
pub enum LineRefusal {
    /// No script goes on with it.
    Syntax,
    /// Out of memory.
    Oom,
}

impl From<OutOfMemory> for LineRefusal {
    ghost use Rattle.std.specs.Prelude.{◌≡◌};
    ghost use Rattle.batch_script.specs.declared.line_reader.LineRefusal.TheVariants.{Oom};

    ghost from_gives = { λ _ refusal. refusal ≡ Oom };

    fn from(_: OutOfMemory) -> LineRefusal {
        LineRefusal::Oom
    }
}

/// What takes the lines of a script, one after the other, each as a word and its numbers.
pub trait LineReader {
    /// What is made of a whole script.
    type Script;

    /// The bodies of its items.
    ghost body: { Type 0 };

    /// How they are printed, and which are valid.
    ghost printing: { Printing body };

    /// Each line of a valid body is a word with up to two numbers.
    ghost has_parts: { HasPartsThroughout printing };

    /// What is made stands for these items.
    ghost stands_for: { Self.Script → List (ItemOf body) → Type 0 };

    /// It has taken these lines.
    ghost has_read: { Self → List Line → Type 0 };

    /// The lines that it has taken begin a script.
    ghost begins_script: { (reader : Self) (lines : List Line) → has_read reader lines
        → IsOpenOver printing lines };

    /// A reader that has taken no lines.
    fn start(alloc: Global) -> Self
        ensures none_yet { has_read result [] };

    /// Takes a line of this word and these numbers. After `Syntax` no script goes on with it.
    fn take(&mut self, alloc: Global, word: &[u8], numbers: Numbers) -> Result<(), LineRefusal>
        ensures ok { OnOk result
            (TakesLineOver has_read has_read self.old self.new word.now (listed numbers)) }
        ensures syntax { result ≡ Err LineRefusal.Syntax
            → RefusesLineOver printing has_read self.old word.now (listed numbers) };

    /// The script, or `None` if what has begun has not ended.
    fn finish(self) -> Option<Self::Script>
        ensures script { IfSome result (λ script. (input : List ℕ) → has_read self (lines_of input)
            → IsScriptOfSome printing (stands_for script) input) }
        ensures none { IfNone result ((input : List ℕ) → has_read self (lines_of input)
            → ¬ IsScriptOver printing input) };
}

/// Reads a whole script by a reader of its lines.
///
/// `Syntax` comes exactly if the input is no script, with the line of its fault. `Oom` says that there was no memory for what is
/// made. Each byte is read once.
pub fn read_script<R: LineReader + Drop>(alloc: Global, input: &[u8]) -> Result<R::Script, RunError>
    ensures script { IfOk result (λ script.
        IsScriptOfSome R.printing (R.stands_for script) input.now) }
    ensures refusal { IfErr result
        (IsJustifiedBy (IsScriptOver R.printing) (IsFaultLineOver R.printing) input.now) }
{
    let mut reader = R::start(alloc);
    let mut rest = input;
    let mut line_number = 0;
    while !rest.is_empty() {
        line_number += 1;
        rest = match take_first_line(alloc, &mut reader, rest) {
            Ok(later) => later,
            Err(LineRefusal::Syntax) => return Err(RunError::Syntax { line: line_number }),
            Err(LineRefusal::Oom) => return Err(RunError::Oom),
        };
    }
    match reader.finish() {
        Some(script) => Ok(script),
        None => Err(RunError::Syntax {
            line: line_number + 1,
        }),
    }
}

/// Takes the first line of an input, and returns what follows it.
fn take_first_line<'a, R: LineReader>(
    alloc: Global,
    reader: &mut R,
    input: &'a [u8],
) -> Result<&'a [u8], LineRefusal>
    requires some { 0 < length input.now }
    ensures ok { IfOk result (λ later. TakesFirstLine
        R.has_read reader.old reader.new input.now later.now) }
    ensures shorter { IfOk result (λ later. length later.now < length input.now) }
    ensures syntax { result ≡ Err LineRefusal.Syntax
        → RefusesFirstLine R.printing R.has_read reader.old input.now }
{
    match read_line(input) {
        None => Err(LineRefusal::Syntax),
        Some((word, numbers, later)) => {
            reader.take(alloc, word, numbers)?;
            Ok(later)
        }
    }
}
