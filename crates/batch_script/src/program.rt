//! Programs that reply to scripts, over any source and any sink.
ghost use Rattle.std.specs.Prelude.{◌≡◌, ◌≢◌, ◌+◌, ◌<◌, ◌≤◌, ◌++◌, ℕ, List, [], length, IfOk, IfErr, OnOk, OnErr};
ghost use Rattle.batch_script.specs.Answer.{IsAsked, IsReadEnd, ReadsAll, status_of, text_of_answer};
ghost use Rattle.batch_script.specs.Device.{AtMost, Use, use_of};
ghost use Rattle.batch_script.specs.Refusal.{IsJustifiedBy};
ghost use Rattle.batch_script.specs.Status.{CallsFor, Concludes, EndsAmong, Finishes, IsMeaning};
ghost use Rattle.batch_script.specs.Status.{Meaning, WritesFront, WritesWhole, line_text};
ghost use Rattle.batch_script.specs.declared.program.Status.{Status};
ghost use Rattle.batch_script.specs.declared.program.TheConstants.{INPUT_LIMIT};

use crate::device::{Failed, Sink, Source};
use crate::run_error::RunError;
use std::alloc::Global;
use wic_vec::{TryString, TryVec};

/// The most bytes that an input may have.
pub const INPUT_LIMIT: usize = 67108864;

/// How many bytes are asked for at a time.
const PIECE: usize = 4096;

/// How the program ended.
#[derive(Clone, Copy, Debug, PartialEq, Eq)]
pub enum Status {
    /// The replies, or a text that the words ask for, were written whole.
    Done,
    /// The input is no script.
    Syntax,
    /// Out of memory.
    Oom,
    /// A read failed.
    ReadFault,
    /// A write failed.
    WriteFault,
    /// The input has more bytes than the limit.
    TooLong,
    /// The words of the command line ask for nothing that there is.
    Usage,
}

impl Status {
    ghost use Rattle.batch_script.specs.Status.{code_of};

    /// The status as a number, from 0 to 6 in the order of the variants.
    pub fn code(self) -> u8
        ensures code { result ≡ code_of self }
    {
        self as u8
    }
}

/// What the words of the command line ask for.
#[derive(Drop)]
pub enum Asked {
    /// Replies to the script that the source gives.
    Script,
    /// This text; nothing is read.
    Text(TryString),
    /// A text for which there was no memory.
    OutOfMemory,
    /// Nothing that there is.
    Usage,
}

/// A program: what inputs and words mean to it, and how it runs an input.
pub trait Program {
    /// Which inputs are scripts, what replies to them, and what words ask for.
    ghost meaning: { Meaning };

    /// Only scripts are replied to, and words ask for one thing at most.
    ghost sound: { IsMeaning meaning };

    /// What these words ask for. A text that they ask for is made.
    fn asked(alloc: Global, words: &TryVec<TryString>) -> Asked
        ensures { IsAsked meaning words.now.items result };

    /// The text that replies to a script, or why there is none.
    fn run(alloc: Global, input: &[u8]) -> Result<TryString, RunError>
        ensures text { IfOk result (λ text. meaning.is_reply input.now text.bytes) }
        ensures refusal { IfErr result
            (IsJustifiedBy meaning.is_script meaning.is_fault_line input.now) };

    /// The line that says what can be asked for.
    fn usage() -> &'static str
        ensures line { result.now ≡ line_text meaning.usage };
}

/// What is to be written, and with which status.
#[derive(Drop)]
enum Answer {
    /// The replies to a script, or a text that the words ask for.
    Done(TryString),
    /// The line that says where the input stops being a script.
    Syntax(TryString),
    Oom,
    ReadFault,
    TooLong,
    Usage,
}

impl Answer {
    fn status(&self) -> Status
        ensures status { result ≡ status_of self.now }
    {
        match self {
            Answer::Done(_) => Status::Done,
            Answer::Syntax(_) => Status::Syntax,
            Answer::Oom => Status::Oom,
            Answer::ReadFault => Status::ReadFault,
            Answer::TooLong => Status::TooLong,
            Answer::Usage => Status::Usage,
        }
    }

    fn text<P: Program>(&self) -> &str
        ensures text { result.now ≡ text_of_answer P.meaning.usage self.now }
    {
        match self {
            Answer::Done(text) | Answer::Syntax(text) => text.as_str(),
            Answer::Oom => "error: out of memory\n",
            Answer::ReadFault => "error: read fault\n",
            Answer::TooLong => "error: input too long\n",
            Answer::Usage => P::usage(),
        }
    }
}

/// Why an input was not read to its end.
#[derive(Clone, Copy, Debug, PartialEq, Eq)]
pub enum ReadEnd {
    /// A read failed.
    Fault,
    /// The input has more bytes than the limit.
    TooLong,
    /// Out of memory.
    Oom,
}

/// Reads to the end of the input, in pieces of 4096 bytes, and returns all of its bytes: those that the source had at the
/// call, if it tells them. `TooLong` comes only if they are more than the limit, and then at most 4096 beyond it are read;
/// `Fault` only if the source's count of faults rose or stands at its last value. The source may not be called after that, nor
/// after its end. Memory for the bytes alone.
pub fn read_input<S: Source>(alloc: Global, source: &mut S) -> Result<TryVec<u8>, ReadEnd>
    requires can_call { S.can_call source.old }
    ensures bytes { IfOk result (λ bytes. ReadsAll
        (use_of S.left S.faults source.old source.new) bytes.items) }
    ensures end { IfErr result (IsReadEnd (use_of S.left S.faults source.old source.new)) }
    ensures reads { AtMost (INPUT_LIMIT + 1) S.reaches source.old source.new }
{
    let mut bytes = TryVec::new(alloc);
    let mut piece = [0; PIECE];
    loop {
        match source.read(&mut piece) {
            Ok(0) => return Ok(bytes),
            Ok(count) => take_piece(&mut bytes, &piece[..count])?,
            Err(Failed) => return Err(ReadEnd::Fault),
        }
    }
}

/// Puts a piece at the end of what was read, up to the limit.
fn take_piece(bytes: &mut TryVec<u8>, piece: &[u8]) -> Result<(), ReadEnd>
    requires within { length bytes.old.items ≤ INPUT_LIMIT }
    ensures taken { OnOk result (bytes.new.items ≡ bytes.old.items ++ piece.now) }
    ensures fits { OnOk result (length bytes.new.items ≤ INPUT_LIMIT) }
    ensures no_fault { result ≢ Err ReadEnd.Fault }
    ensures too_long { result ≡ Err ReadEnd.TooLong
        → INPUT_LIMIT < length bytes.old.items + length piece.now }
{
    if piece.len() > INPUT_LIMIT - bytes.len() {
        return Err(ReadEnd::TooLong);
    }
    bytes.extend_from_slice(piece).map_err(|_| ReadEnd::Oom)
}

/// Writes a whole text: each write is offered all that is left, and an empty text makes no write. `Failed` comes only if the
/// sink's count of faults rose or stands at its last value; a proper prefix is written then, and the sink may not be called. After
/// `Ok` it may be.
pub fn write_text<K: Sink>(text: &str, sink: &mut K) -> Result<(), Failed>
    requires can_call { K.can_call sink.old }
    ensures whole { OnOk result (WritesWhole text.now (use_of K.written K.faults sink.old sink.new)
        (λ most. AtMost most K.reaches sink.old sink.new)) }
    ensures can_call { OnOk result (K.can_call sink.new) }
    ensures front { OnErr result (WritesFront text.now (use_of K.written K.faults sink.old sink.new)
        (λ most. AtMost most K.reaches sink.old sink.new)) }
{
    let mut rest = text.as_bytes();
    while !rest.is_empty() {
        let count = sink.write(rest)?;
        rest = &rest[count..];
    }
    Ok(())
}

/// Writes a text and returns the status, or that a write failed.
fn finish<K: Sink>(text: &str, status: Status, sink: &mut K) -> Status
    requires can_call { K.can_call sink.old }
    ensures finishes { Finishes text.now status (use_of K.written K.faults sink.old sink.new)
        (λ most. AtMost most K.reaches sink.old sink.new) result }
    ensures can_write_again { result ≢ Status.WriteFault → K.can_call sink.new }
{
    match write_text(text, sink) {
        Ok(()) => status,
        Err(Failed) => Status::WriteFault,
    }
}

/// What is to be written for this input.
fn answer_to_input<P: Program>(alloc: Global, input: &[u8]) -> Answer
    ensures called_for { (source : Use) → ReadsAll source input.now
        → CallsFor P.meaning [] source (status_of result)
        (text_of_answer P.meaning.usage result) }
{
    match P::run(alloc, input) {
        Ok(text) => Answer::Done(text),
        Err(RunError::Syntax { line }) => answer_to_fault::<P>(alloc, line),
        Err(RunError::Oom) => Answer::Oom,
    }
}

/// What is to be written where the input stops being a script at this line.
fn answer_to_fault<P: Program>(alloc: Global, line: u64) -> Answer
    ensures called_for { (input : List ℕ) (source : Use) → ¬ P.meaning.is_script input
        → P.meaning.is_fault_line input line → ReadsAll source input
        → CallsFor P.meaning [] source (status_of result)
        (text_of_answer P.meaning.usage result) }
{
    match format!(in alloc; "error: syntax at line {line}\n") {
        Ok(text) => Answer::Syntax(TryString::from_string(text)),
        Err(_) => Answer::Oom,
    }
}

/// Reads a script: what is to be written for it, or why it was not read.
fn answer_to_source<P: Program, S: Source>(alloc: Global, source: &mut S) -> Answer
    requires can_call { S.can_call source.old }
    ensures called_for { CallsFor P.meaning [] (use_of S.left S.faults source.old source.new)
        (status_of result) (text_of_answer P.meaning.usage result) }
    ensures reads { AtMost (INPUT_LIMIT + 1) S.reaches source.old source.new }
{
    match read_input(alloc, source) {
        Ok(input) => answer_to_input::<P>(alloc, input.as_slice()),
        Err(ReadEnd::Fault) => Answer::ReadFault,
        Err(ReadEnd::TooLong) => Answer::TooLong,
        Err(ReadEnd::Oom) => Answer::Oom,
    }
}

/// A whole program: reads a script from `source`, runs it, and writes the replies to `sink`; or writes what the words ask for.
///
/// With no words, input is read to its end in pieces of 4096 bytes; then the replies to the script are written, or one line that
/// says why there are none. With any words nothing is read.
///
/// Returns the status. If several are possible it is, in this order: the usage; a read fault, an input too long or out of memory,
/// whichever reading meets first; a fault of the script or out of memory; and a write fault in place of any of these. Each write
/// is offered all that is left of the text; an empty text makes no write. No device is called after a call of it failed, nor the
/// source after its end. After every status but a write fault the sink may be called again.
pub fn serve<P: Program, S: Source, K: Sink>(
    alloc: Global,
    words: &TryVec<TryString>,
    source: &mut S,
    sink: &mut K,
) -> Status
    requires can_read { S.can_call source.old }
    requires can_write { K.can_call sink.old }
    ensures concludes { Concludes P.meaning words.now.items
        (use_of S.left S.faults source.old source.new)
        (use_of K.written K.faults sink.old sink.new)
        (λ most. AtMost most K.reaches sink.old sink.new) result }
    ensures ends { EndsAmong P.meaning words.now.items
        (use_of S.left S.faults source.old source.new)
        (use_of K.written K.faults sink.old sink.new) result }
    ensures reads { AtMost (INPUT_LIMIT + 1) S.reaches source.old source.new }
    ensures source_stays { words.now.items ≢ [] → source.new ≡ source.old }
    ensures can_write_again { result ≢ Status.WriteFault → K.can_call sink.new }
{
    let answer = match P::asked(alloc, words) {
        Asked::Script => answer_to_source::<P, S>(alloc, source),
        Asked::Text(text) => Answer::Done(text),
        Asked::OutOfMemory => Answer::Oom,
        Asked::Usage => Answer::Usage,
    };
    finish(answer.text::<P>(), answer.status(), sink)
}
