//! Writes replies.
ghost use Rattle.std.specs.Prelude.{◌≡◌, ◌≤◌, ◌∷◌, [], ◌++◌, ℕ, codes, length, OnOk, OnErr};
ghost use Rattle.std.specs.List.{flat_map};
ghost use Rattle.std.specs.Fmt.{decimal};
ghost use Rattle.std.specs.FinMap.{entries};
ghost use Rattle.wic_bitset.specs.Rising.{rising};
ghost use Rattle.wic_vec.specs.declared.string.decimal.TheConstants.{LONGEST_WORD};
ghost use Rattle.batch_core.specs.Batch.{aborted, committed};
ghost use Rattle.batch_script.specs.Kind.{kind_text};
ghost use Rattle.batch_script.specs.Machine.{no_memory, reserved, shown_of};
ghost use Rattle.batch_script.specs.Reply.{outcome_lines, record_lines, refusal_line, reply_lines, listing, text_of_lines, pair_text};

use crate::kind::BatchKind;
use batch_core::{Record, Workspace};
use std::alloc::Global;
use wic_base::OutOfMemory;
use wic_bitset::CompoundBitSet;
use wic_error::{ChainItem, Error};
use wic_slab::Slab;
use wic_vec::TryString;

/// Writes the reply to a reservation that was accepted.
pub(crate) fn push_reserved(text: &mut TryString) -> Result<(), OutOfMemory>
    ensures lines { OnOk result (text.new.bytes
        ≡ text.old.bytes ++ text_of_lines (reply_lines reserved)) }
{
    text.push_str("reserved\n")
}

/// Writes the reply to what was refused for memory.
pub(crate) fn push_no_memory(text: &mut TryString) -> Result<(), OutOfMemory>
    ensures lines { OnOk result (text.new.bytes
        ≡ text.old.bytes ++ text_of_lines (reply_lines no_memory)) }
{
    text.push_str("refused: out of memory\n")
}

/// Writes the reply to a batch that was aborted.
pub(crate) fn push_aborted(text: &mut TryString) -> Result<(), OutOfMemory>
    ensures lines { OnOk result (text.new.bytes
        ≡ text.old.bytes ++ text_of_lines (outcome_lines aborted)) }
{
    text.push_str("aborted\n")
}

/// Writes the reply to a batch that was committed: the lines of its records, and one more.
pub(crate) fn push_committed(
    text: &mut TryString,
    records: &[Record<u64>],
) -> Result<(), OutOfMemory>
    ensures lines { OnOk result
        (text.new.bytes ≡ text.old.bytes ++ text_of_lines (outcome_lines (committed records.now))) }
{
    push_records(text, records)?;
    text.push_str("committed\n")
}

/// Writes the lines of records: the replies of the commands that left them.
fn push_records(text: &mut TryString, records: &[Record<u64>]) -> Result<(), OutOfMemory>
    ensures lines { OnOk result (text.new.bytes
        ≡ text.old.bytes ++ text_of_lines (flat_map record_lines records.now)) }
{
    for entry in records {
        push_reply(text, entry)?;
    }
    Ok(())
}

/// Puts the reply that a record shows at the end of a text, as one line; nothing for `Cut`, which has no reply of its own. If it is
/// refused, the text is as before.
pub fn push_reply(text: &mut TryString, entry: &Record<u64>) -> Result<(), OutOfMemory>
    ensures lines { OnOk result (text.new.bytes
        ≡ text.old.bytes ++ text_of_lines (record_lines entry.now)) }
    ensures refusal_leaves { OnErr result (text.new ≡ text.old) }
{
    match entry {
        Record::Pushed => text.push_str("ok\n"),
        Record::Popped(value) => push_number(text, "popped ", *value),
        Record::Replaced { at: _, old } => push_number(text, "was ", *old),
        Record::Allocated { id } => push_number(text, "id ", *id as u64),
        Record::Freed { id: _, old } => push_number(text, "freed ", *old),
        Record::Put { id: _, old } => push_number(text, "was ", *old),
        Record::Inserted { number: _, was_new } => {
            text.push_str(if *was_new { "new\n" } else { "present\n" })
        }
        Record::Removed {
            number: _,
            was_there,
        } => text.push_str(if *was_there { "removed\n" } else { "absent\n" }),
        Record::Cut(_) => Ok(()),
        Record::Truncated { removed } => push_number(text, "cut ", *removed),
    }
}

/// Writes a line of a short word and a number, as one push.
fn push_number(text: &mut TryString, word: &str, number: u64) -> Result<(), OutOfMemory>
    requires short { length word.now ≤ LONGEST_WORD }
    ensures line { OnOk result (text.new.bytes
        ≡ text.old.bytes ++ text_of_lines ((word.now ++ decimal number) ∷ [])) }
    ensures refusal_leaves { OnErr result (text.new ≡ text.old) }
{
    text.push_number(word, number)
}

/// Writes the line of a refusal: that of an error whose root is `why`, in the context of what was refused.
pub(crate) fn push_refusal(
    alloc: Global,
    text: &mut TryString,
    what: BatchKind,
    why: BatchKind,
) -> Result<(), OutOfMemory>
    ensures line { OnOk result (text.new.bytes
        ≡ text.old.bytes ++ text_of_lines (refusal_line what (kind_text why) ∷ [])) }
{
    let error = Error::new(alloc, why).context(alloc, what);
    if let ChainItem::Oom(oom) = error.root_cause() {
        return Err(oom);
    }
    text.push_str("refused: ")?;
    error.push_line(text)?;
    text.push('\n')
}

/// Writes list, set and table, and the next id.
pub(crate) fn push_contents(
    text: &mut TryString,
    workspace: &Workspace<u64>,
) -> Result<(), OutOfMemory>
    ensures lines { OnOk result (text.new.bytes
        ≡ text.old.bytes ++ text_of_lines (reply_lines (shown_of workspace.now.contents))) }
{
    push_list(text, workspace.list())?;
    push_set(text, workspace.set())?;
    push_table(text, workspace.table())?;
    push_number(text, "next ", workspace.table().next_id().into_raw() as u64)
}

/// Writes the values of a list, in order.
fn push_list(text: &mut TryString, list: &[u64]) -> Result<(), OutOfMemory>
    ensures line { OnOk result (text.new.bytes
        ≡ text.old.bytes ++ text_of_lines (listing (codes "list") decimal list.now ∷ [])) }
{
    text.push_str("list")?;
    for value in list {
        push_element(text, *value)?;
    }
    text.push('\n')
}

/// Writes the members of a set, ascending.
fn push_set(text: &mut TryString, set: &CompoundBitSet<u64>) -> Result<(), OutOfMemory>
    ensures line { OnOk result (text.new.bytes
        ≡ text.old.bytes ++ text_of_lines
        (listing (codes "set") decimal (rising set.now.members) ∷ [])) }
{
    text.push_str("set")?;
    for member in set.iter() {
        push_element(text, member as u64)?;
    }
    text.push('\n')
}

/// Writes the live ids of a table with their values, ids ascending.
fn push_table(text: &mut TryString, table: &Slab<u64>) -> Result<(), OutOfMemory>
    ensures line { OnOk result (text.new.bytes
        ≡ text.old.bytes ++ text_of_lines
        (listing (codes "table") pair_text (entries table.now.live) ∷ [])) }
{
    text.push_str("table")?;
    for (id, value) in table.iter() {
        push_element(text, id.into_raw() as u64)?;
        text.push('=')?;
        text.push_decimal(*value)?;
    }
    text.push('\n')
}

/// Writes a number behind a space.
fn push_element(text: &mut TryString, number: u64) -> Result<(), OutOfMemory>
    ensures element { OnOk result (text.new.bytes ≡ text.old.bytes ++ 32 ∷ decimal number) }
{
    text.push(' ')?;
    text.push_decimal(number)
}
