//! Runs scripts: their items on any space, and scripts of batches.
ghost use Rattle.std.specs.Prelude.{◌≡◌, ◌++◌, IfOk, IfErr, OnOk, map};
ghost use Rattle.std.specs.List.{AllByRecursion};
ghost use Rattle.batch_script.specs.Machine.{reserve as reservation, show as show_item, batch as body_item};
ghost use Rattle.batch_script.specs.Refusal.{IsJustified};
ghost use Rattle.batch_script.specs.RunText.{IsRunText, IsTextOfRunOver, AnswersOver};

use crate::item::Item;
use crate::kind::BatchKind;
use crate::parser::parse;
use crate::reply::{
    push_aborted, push_committed, push_contents, push_no_memory, push_refusal, push_reserved,
};
use crate::run_error::RunError;
use crate::space::Space;
use batch_core::{Done, Refusal, ReserveRefusal, Workspace};
use std::alloc::Global;
use wic_base::OutOfMemory;
use wic_vec::{TryString, TryVec};

/// A space that runs its items.
pub trait Runner: Space {
    /// Runs an item and puts its reply at the end of the text. `OutOfMemory` says that there was no memory for the reply, of
    /// which a part may stand then; the item was run.
    fn run_item(
        &mut self,
        alloc: Global,
        item: Self::Item,
        text: &mut TryString,
    ) -> Result<(), OutOfMemory>
        requires may_run { Self.meaning.may_run item }
        ensures answered { OnOk result (AnswersOver Self.meaning.bodies
            (Self.meaning.plain_item item) (Self.held self.old) (Self.held self.new)
            text.old.bytes text.new.bytes) };
}

impl Runner for Workspace<u64> {
    fn run_item(
        &mut self,
        alloc: Global,
        item: Item,
        text: &mut TryString,
    ) -> Result<(), OutOfMemory> {
        match item {
            Item::Reserve(number) => run_reserve(alloc, number, self, text),
            Item::Show => run_show(self, text),
            Item::Batch(batch) => run_body(alloc, batch, self, text),
        }
    }
}

/// Reads the whole input as a script and runs its items from an empty workspace: returns the text of their replies.
///
/// `Syntax` says that the input is no script and where its fault is; nothing was run then. `Oom` says that there was no
/// memory to read the script or to make a reply. A batch or a reservation that finds no memory is refused in the text, and the
/// run goes on.
pub fn run(alloc: Global, input: &[u8]) -> Result<TryString, RunError>
    ensures text { IfOk result (λ text. IsRunText input.now text.bytes) }
    ensures refusal { IfErr result (IsJustified input.now) }
{
    let script = parse(alloc, input)?;
    Ok(run_items::<Workspace<u64>>(alloc, script.items)?)
}

/// Runs items from an empty space, in order, and returns the text of their replies.
///
/// `OutOfMemory` says that there was no memory to make a reply; the items behind it were not run. A body or a reservation that
/// finds no memory is refused in the text, and the run goes on.
pub fn run_items<S: Runner>(alloc: Global, items: TryVec<S::Item>) -> Result<TryString, OutOfMemory>
    requires may_run { AllByRecursion S.meaning.may_run items.items }
    ensures text { IfOk result (λ text. IsTextOfRunOver S.meaning.bodies
        (map S.meaning.plain_item items.items) text.bytes) }
{
    let mut space = S::new(alloc);
    let mut text = TryString::new(alloc);
    for item in items {
        space.run_item(alloc, item, &mut text)?;
    }
    Ok(text)
}

/// Makes the room at least `number` and puts the reply at the end of the text: `reserved`, or why it was refused.
///
/// `OutOfMemory` says that there was no memory for the reply, of which a part may stand then; the space is as the reservation
/// left it.
pub fn run_reserve<S: Space>(
    alloc: Global,
    number: u64,
    space: &mut S,
    text: &mut TryString,
) -> Result<(), OutOfMemory>
    ensures answered { OnOk result (AnswersOver S.meaning.bodies (reservation number)
        (S.held space.old) (S.held space.new) text.old.bytes text.new.bytes) }
{
    match space.reserve(number) {
        Ok(()) => push_reserved(text),
        Err(ReserveRefusal::TooLarge) => {
            push_refusal(alloc, text, BatchKind::Reserve, BatchKind::TooLarge)
        }
        Err(ReserveRefusal::Oom(_)) => push_no_memory(text),
    }
}

/// Puts list, set and table, and the next id at the end of the text: four lines. `OutOfMemory` says that there was no memory for
/// them; a part may stand then.
pub fn run_show<S: Space>(space: &S, text: &mut TryString) -> Result<(), OutOfMemory>
    ensures answered { OnOk result (AnswersOver S.meaning.bodies show_item
        (S.held space.now) (S.held space.now) text.old.bytes text.new.bytes) }
{
    push_contents(text, space.workspace())
}

/// Applies a body and puts its reply at the end of the text: the lines of its records and `committed`, or `aborted`, or why it was
/// refused.
///
/// `OutOfMemory` says that there was no memory for the reply, of which a part may stand then; the space is as the body left it.
pub fn run_body<S: Space>(
    alloc: Global,
    body: S::Body,
    space: &mut S,
    text: &mut TryString,
) -> Result<(), OutOfMemory>
    requires may_apply { S.meaning.may_apply body }
    ensures answered { OnOk result (AnswersOver S.meaning.bodies
        (body_item (S.meaning.plain_body body) (S.meaning.ending body))
        (S.held space.old) (S.held space.new) text.old.bytes text.new.bytes) }
{
    match space.apply(body) {
        Ok(Done::Committed) => push_committed(text, space.workspace().replies()),
        Ok(Done::Aborted) => push_aborted(text),
        Err(Refusal { cause, at }) => match BatchKind::of_cause(cause) {
            Some(why) => push_refusal(alloc, text, BatchKind::Command(at), why),
            None => push_no_memory(text),
        },
    }
}
