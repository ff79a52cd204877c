//! Callers of the program, proved from its contract alone.
ghost use Rattle.std.specs.Prelude.{◌≡◌, ◌≢◌, ◌⊎◌, ◌≤◌, ◌∷◌, ◌++◌, ℕ, List, [], codes, length, Some, IfOk, IsTrue, OnOk};
ghost use Rattle.std.specs.List.{AllByRecursion};
ghost use Rattle.wic_slab.specs.Order.{max_capacity};
ghost use Rattle.batch_core.specs.State.{empty_state, no_contents};
ghost use Rattle.batch_script.specs.Device.{HasFaults, use_of};
ghost use Rattle.batch_script.specs.Grammar.{IsScript, IsScriptOf};
ghost use Rattle.batch_script.specs.Headline.{RunsWhole, WantsMemory};
ghost use Rattle.batch_script.specs.Laws.{AsksForNoMore, BatchesFit};
ghost use Rattle.batch_script.specs.Machine.{PlainItem, Reply, Run, batches, plain_replies, reserve, reserved};
ghost use Rattle.batch_script.specs.Reply.{text_of};
ghost use Rattle.batch_script.specs.RunText.{HoldsReplies};
ghost use Rattle.batch_script.specs.Status.{IsAmong};
ghost use Rattle.batch_script.specs.Words.{AsksForRun};
ghost use Rattle.batch_script.specs.declared.program.Status.{Status};
ghost use Rattle.batch_script.specs.declared.program.TheConstants.{INPUT_LIMIT};

use crate::batches::top;
use crate::device::{Failed, Sink, Source};
use crate::laws::{law_one_run, law_plain_run};
use crate::memory_device::{MemSink, MemSource};
use crate::program::{Status, write_text};
use crate::reply::push_contents;
use batch_core::{Cause, Command, Workspace};
use std::alloc::Global;
use wic_base::OutOfMemory;
use wic_vec::{TryString, TryVec};

/// The replies to a script in memory, in a sink of this room. If the room is enough for the text of each run, the sink
/// holds the whole text of one run, or the line of out of memory: no read and no write fails.
pub fn run_in_memory(
    alloc: Global,
    script: TryVec<u8>,
    room: usize,
) -> Result<(Status, MemSink), OutOfMemory>
    ensures no_read_fails { IfOk result (λ ended. ended.0 ≢ Status.ReadFault) }
    ensures whole { (items : List PlainItem) → IsScriptOf script.items items
        → length script.items ≤ INPUT_LIMIT
        → HoldsReplies room script.items
        → IfOk result (λ ended. RunsWhole ended.0 (Some ended.1.bytes) [] items
        ⊎ WantsMemory ended.0 (Some ended.1.bytes) []) }
{
    let mut source = MemSource::new(script, 4096, TryVec::new(alloc));
    let mut sink = MemSink::new(alloc, room, 4096, TryVec::new(alloc))?;
    let status = top(alloc, &TryVec::new(alloc), &mut source, &mut sink);
    Ok((status, sink))
}

/// Serves an input from any source to any sink, once. Whatever they do, only four statuses are possible for a script, and four for an
/// input that is none. A quiet source leaves three.
pub fn serve_script<S: Source, K: Sink>(alloc: Global, source: &mut S, sink: &mut K) -> Status
    requires can_read { S.can_call source.old }
    requires can_write { K.can_call sink.old }
    ensures ends { (input : List ℕ) → S.left source.old ≡ Some input → length input ≤ INPUT_LIMIT
        → IsScript input
        → IsAmong (Status.Done ∷ Status.Oom ∷ Status.ReadFault ∷ Status.WriteFault ∷ []) result }
    ensures no_script { (input : List ℕ) → S.left source.old ≡ Some input
        → length input ≤ INPUT_LIMIT → ¬ IsScript input
        → IsAmong (Status.Syntax ∷ Status.Oom ∷ Status.ReadFault ∷ Status.WriteFault ∷ []) result }
    ensures no_read_fault { ¬ HasFaults (use_of S.left S.faults source.old source.new)
        → result ≢ Status.ReadFault }
{
    top(alloc, &TryVec::new(alloc), source, sink)
}

/// Runs the script that two numbers make, and offers its summary to any sink: only three statuses are possible, and nothing is read.
pub fn serve_generated<S: Source, K: Sink>(
    alloc: Global,
    words: &TryVec<TryString>,
    source: &mut S,
    sink: &mut K,
) -> Status
    requires can_read { S.can_call source.old }
    requires can_write { K.can_call sink.old }
    ensures ends { (seed count : ℕ) → AsksForRun words.now.items seed count
        → IsAmong (Status.Done ∷ Status.Oom ∷ Status.WriteFault ∷ []) result }
    ensures source_stays { words.now.items ≢ [] → source.new ≡ source.old }
{
    top(alloc, words, source, sink)
}

/// Writes two texts to any sink, one after the other.
pub fn write_both<K: Sink>(first: &str, second: &str, sink: &mut K) -> Result<(), Failed>
    requires can_write { K.can_call sink.old }
    ensures both { (held : List ℕ) → K.written sink.old ≡ Some held
        → OnOk result (K.written sink.new ≡ Some ((held ++ first.now) ++ second.now)) }
    ensures can_write_again { OnOk result (K.can_call sink.new) }
{
    write_text(first, sink)?;
    write_text(second, sink)
}

/// Serves two inputs to one sink, the second only if the sink may still be called.
pub fn serve_both<S: Source, K: Sink>(
    alloc: Global,
    first: &mut S,
    second: &mut S,
    sink: &mut K,
) -> Status
    requires can_read_first { S.can_call first.old }
    requires can_read_second { S.can_call second.old }
    requires can_write { K.can_call sink.old }
    ensures can_write_again { result ≢ Status.WriteFault → K.can_call sink.new }
{
    match top(alloc, &TryVec::new(alloc), first, sink) {
        Status::WriteFault => Status::WriteFault,
        _ => top(alloc, &TryVec::new(alloc), second, sink),
    }
}

/// Whether two texts are equal: if they are those of two runs of the same items, the replies were the same.
pub fn same_replies(first: &TryString, second: &TryString) -> bool
    ensures told { (items : List PlainItem) (replies others : List Reply)
        → Run empty_state items replies → Run empty_state items others
        → first.now.bytes ≡ text_of replies → second.now.bytes ≡ text_of others
        → IsTrue result → replies ≡ others }
{
    law_one_run();
    first == second
}

/// The replies to a script that reserves all its room first are known from its items alone, once the first reply is `reserved`.
pub fn replies_are_known()
    ensures known { (room : ℕ) (items : List PlainItem) (replies : List Reply)
        → room ≤ max_capacity → Run empty_state (reserve room ∷ items) (reserved ∷ replies)
        → AllByRecursion (AsksForNoMore room) items
        → BatchesFit batches room empty_state (reserve room ∷ items)
        → reserved ∷ replies ≡ plain_replies empty_state (reserve room ∷ items) }
{
    law_plain_run();
}

/// Puts a member into an empty workspace, holds a value, and shows both: the text is known, letter by letter.
pub fn show_two(alloc: Global, workspace: &mut Workspace<u64>) -> Result<TryString, Cause>
    requires empty { workspace.old.contents ≡ no_contents }
    ensures shown { IfOk result
        (λ text. text.bytes ≡ codes "list\nset 3\ntable 0=5\nnext 1\n") }
{
    workspace.step(Command::Insert(3))?;
    workspace.step(Command::Alloc(5))?;
    let mut text = TryString::new(alloc);
    match push_contents(&mut text, workspace) {
        Ok(()) => Ok(text),
        Err(oom) => Err(Cause::Oom(oom)),
    }
}
