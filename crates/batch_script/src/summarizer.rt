//! Runs a script and tells what it came to in seven lines.
ghost use Rattle.std.specs.Prelude.{◌≡◌, ◌+◌, ◌<◌, ◌^◌, ◌∷◌, [], ◌++◌, IfOk, OnOk};
ghost use Rattle.batch_core.specs.State.{empty_state};
ghost use Rattle.batch_script.specs.Machine.{plain_end, plain_step, batch as plain_batch, reserve as reservation};
ghost use Rattle.batch_script.specs.Reading.{plain_item, plain_items};
ghost use Rattle.batch_script.specs.RunText.{state_of};
ghost use Rattle.batch_script.specs.Reply.{text_of_lines};
ghost use Rattle.batch_script.specs.Summary.{number_line, summary_text, AreCounts, CountsItem};

use crate::item::{Item, Script};
use batch_core::{Batch, Cause, Done, Refusal, ReserveRefusal, Workspace};
use std::alloc::Global;
use wic_base::OutOfMemory;
use wic_vec::{TryString, TryVec};

/// How many batches were committed, aborted, and refused for a cause.
#[derive(Drop)]
struct Counts {
    committed: u64,
    aborted: u64,
    refused: u64,
}

/// Runs the items of a script from an empty workspace, and returns in seven lines how many batches were committed, aborted and
/// refused for a cause, and how many values the list has at the end, members the set, and live ids the table, and which is the next
/// id.
///
/// No reply is made. The first item that finds no memory ends it with `OutOfMemory`, and so do the lines if there is none for
/// them: the lines are always those of the run in which nothing is refused for memory.
pub fn summary(alloc: Global, script: Script) -> Result<TryString, OutOfMemory>
    ensures lines { IfOk result (λ text. text.bytes
        ≡ summary_text (plain_items script.items.items)) }
{
    let mut workspace = Workspace::new(alloc);
    summary_in(alloc, script.items, &mut workspace)
}

/// Runs items in an empty workspace that is lent, and returns the lines of their summary.
fn summary_in(
    alloc: Global,
    items: TryVec<Item>,
    workspace: &mut Workspace<u64>,
) -> Result<TryString, OutOfMemory>
    requires empty { state_of workspace.old ≡ empty_state }
    ensures lines { IfOk result (λ text. text.bytes ≡ summary_text (plain_items items.items)) }
{
    let counts = count_items(items, workspace)?;
    let mut text = TryString::new(alloc);
    push_count(&mut text, "committed ", counts.committed)?;
    push_count(&mut text, "aborted ", counts.aborted)?;
    push_count(&mut text, "refused ", counts.refused)?;
    push_count(&mut text, "list ", workspace.list().len() as u64)?;
    push_count(&mut text, "set ", workspace.set().len() as u64)?;
    push_count(&mut text, "live ", workspace.table().len() as u64)?;
    push_count(
        &mut text,
        "next ",
        workspace.table().next_id().into_raw() as u64,
    )?;
    Ok(text)
}

/// Writes a line of a word and a count.
fn push_count(text: &mut TryString, word: &str, count: u64) -> Result<(), OutOfMemory>
    ensures line { OnOk result (text.new.bytes
        ≡ text.old.bytes ++ text_of_lines (number_line word.now count ∷ [])) }
{
    text.push_str(word)?;
    text.push_decimal_line(count)
}

/// Runs items, and counts what the batches came to.
fn count_items(items: TryVec<Item>, workspace: &mut Workspace<u64>) -> Result<Counts, OutOfMemory>
    requires empty { state_of workspace.old ≡ empty_state }
    ensures counts { IfOk result (AreCounts (plain_items items.items)) }
    ensures end { OnOk result (state_of workspace.new
        ≡ plain_end empty_state (plain_items items.items)) }
{
    let mut counts = Counts {
        committed: 0,
        aborted: 0,
        refused: 0,
    };
    for item in items {
        count_item(item, workspace, &mut counts)?;
    }
    Ok(counts)
}

/// Runs an item, and counts its outcome if it is a batch.
fn count_item(
    item: Item,
    workspace: &mut Workspace<u64>,
    counts: &mut Counts,
) -> Result<(), OutOfMemory>
    requires small { counts.old.committed + counts.old.aborted + counts.old.refused + 1 < 2 ^ 64 }
    ensures counted { OnOk result (CountsItem
        (plain_item item) workspace.old workspace.new counts.old counts.new) }
{
    match item {
        Item::Reserve(number) => enlarge(number, workspace),
        Item::Show => Ok(()),
        Item::Batch(batch) => count_batch(batch, workspace, counts),
    }
}

/// Makes the room larger, if that is within the limit.
fn enlarge(number: u64, workspace: &mut Workspace<u64>) -> Result<(), OutOfMemory>
    ensures state { OnOk result (state_of workspace.new
        ≡ (plain_step (state_of workspace.old) (reservation number)).1) }
{
    match workspace.reserve(number) {
        Ok(()) => Ok(()),
        Err(refusal) => match refusal {
            ReserveRefusal::TooLarge => Ok(()),
            ReserveRefusal::Oom(oom) => Err(oom),
        },
    }
}

/// Runs a batch, and counts what it came to.
fn count_batch(
    batch: Batch<u64>,
    workspace: &mut Workspace<u64>,
    counts: &mut Counts,
) -> Result<(), OutOfMemory>
    requires small { counts.old.committed + counts.old.aborted + counts.old.refused + 1 < 2 ^ 64 }
    ensures counted { OnOk result
        (CountsItem (plain_batch batch.commands.items batch.end) workspace.old workspace.new
        counts.old counts.new) }
{
    match workspace.apply(batch) {
        Ok(Done::Committed) => counts.committed += 1,
        Ok(Done::Aborted) => counts.aborted += 1,
        Err(Refusal { cause, at: _ }) => match cause {
            Cause::Oom(oom) => return Err(oom),
            _ => counts.refused += 1,
        },
    }
    Ok(())
}
