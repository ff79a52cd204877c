//! Callers of a workspace, proved from its contracts and laws alone.
ghost use Rattle.std.specs.Prelude.{◌≡◌, ◌<◌, ◌≤◌, ◌++◌, ◌∷◌, [], length, IfErr, IsOk, IsTrue, Ok, OnOk};
ghost use Rattle.std.specs.FinMap.{len};
ghost use Rattle.batch_core.specs.Back.{back};
ghost use Rattle.batch_core.specs.Command.{effect_of, records_of};
ghost use Rattle.batch_core.specs.Course.{course_of, places_of};
ghost use Rattle.batch_core.specs.Many.{contents_after_all, AllFit};
ghost use Rattle.batch_core.specs.Room.{Fits};
ghost use Rattle.batch_core.specs.State.{no_contents};
ghost use Rattle.batch_core.specs.Workspace.{IsOom};
ghost use Rattle.batch_core.specs.declared.answer.Done.{Done};
ghost use Rattle.batch_core.specs.declared.command.Command.{Command};
ghost use Rattle.batch_core.specs.declared.command.End.{End};

use crate::answer::{Done, Refusal, ReserveRefusal};
use crate::command::{Batch, Cause, Command};
use crate::laws::{
    law_alloc_adds_one, law_back_in_two, law_counts_are_enough, law_course_length, law_larger_room,
    law_same_contents,
};
use crate::workspace::Workspace;
use wic_vec::TryVec;

// Makes room for n, and then applies batches, each of which fits the room when it is applied. Once there is the room, memory refuses
// none of them: the contents are those that the plain machine comes to.
pub fn reserve_and_run<T: Drop>(
    workspace: &mut Workspace<T>,
    n: u64,
    batches: TryVec<Batch<T>>,
) -> Result<(), ReserveRefusal>
    requires fit { AllFit n workspace.old.contents batches.items }
    ensures contents { OnOk result
        (workspace.new.contents ≡ contents_after_all workspace.old.contents batches.items) }
{
    workspace.reserve(n)?;
    for batch in batches {
        law_larger_room::<T>();
        let _ = workspace.apply(batch);
    }
    Ok(())
}

// Does one command for good and tries two more, which are undone, whether they could be done or not.
pub fn keep_one_and_try_two<T: Drop>(
    workspace: &mut Workspace<T>,
    kept: Command<T>,
    tried: Command<T>,
    then: Command<T>,
) -> Result<(), Cause>
    ensures contents { OnOk result
        (workspace.new.contents ≡ effect_of workspace.old.contents kept) }
    ensures records { OnOk result (workspace.new.records
        ≡ workspace.old.records ++ records_of workspace.old.contents kept) }
{
    workspace.step(kept)?;
    let mark = workspace.mark();
    if workspace.step(tried).is_ok() {
        let _ = workspace.step(then);
    }
    workspace.back_to(mark);
    Ok(())
}

// Goes back to a mark, and then to an earlier one: the contents are those that the earlier mark stands for.
pub fn go_back_in_two<T: Drop>(workspace: &mut Workspace<T>, early: usize, late: usize)
    requires order { early ≤ late }
    requires within { late ≤ length workspace.old.records }
    ensures contents { workspace.new.contents
        ≡ back workspace.old.contents workspace.old.records early }
{
    law_back_in_two::<T>();
    workspace.back_to(late);
    workspace.back_to(early);
}

// Holds a value while there is room for one more: memory doesn't refuse it.
pub fn hold_within<T: Drop>(workspace: &mut Workspace<T>, value: T) -> Result<(), Cause>
    requires records { length workspace.old.records < workspace.old.room }
    requires live { len workspace.old.contents.live < workspace.old.room }
    ensures held { IsOk result }
{
    law_alloc_adds_one::<T>();
    // For the proof: the contents are sound and within the capacities, and no capacity is below the room.
    let _ = workspace.mark();
    workspace.step(Command::Alloc(value))
}

// Applies a batch of one command: if it is refused for a cause, that command is the bad one.
pub fn apply_one<T: Drop>(workspace: &mut Workspace<T>, batch: Batch<T>) -> Result<Done, Refusal>
    requires one { length batch.commands.items ≡ 1 }
    ensures at { IfErr result (λ r. ¬ IsOom r.cause → r.at ≡ 1) }
{
    workspace.apply(batch)
}

// Holds a value by a batch of its own while there is room for one more: by its counts the batch fits, so memory doesn't refuse it.
pub fn hold_by_batch<T: Drop>(
    workspace: &mut Workspace<T>,
    batch: Batch<T>,
) -> Result<Done, Refusal>
    requires one { (value : T) × (batch.commands.items ≡ Command.Alloc value ∷ []) }
    requires room { len workspace.old.contents.live < workspace.old.room }
    ensures fits { IfErr result (λ r. ¬ IsOom r.cause) }
{
    law_counts_are_enough::<T>();
    workspace.apply(batch)
}

// Applies a batch that was planned for a smaller room than there is: memory doesn't refuse it.
pub fn apply_planned<T: Drop>(
    workspace: &mut Workspace<T>,
    batch: Batch<T>,
    planned: u64,
) -> Result<Done, Refusal>
    requires larger { planned ≤ workspace.old.room }
    requires fits { Fits planned (places_of batch)
        (course_of workspace.old.contents batch).stands }
    ensures never_oom { IfErr result (λ r. ¬ IsOom r.cause) }
{
    law_larger_room::<T>();
    workspace.apply(batch)
}

// Pushes two values, cuts the list to one, and gives all up, in a workspace that holds nothing and has room for four: this is never
// refused, and leaves nothing.
pub fn push_cut_and_abort(
    workspace: &mut Workspace<u64>,
    batch: Batch<u64>,
) -> Result<Done, Refusal>
    requires known { workspace.old.contents ≡ no_contents }
    requires room { 4 ≤ workspace.old.room }
    requires commands { batch.commands.items
        ≡ Command.Push 1 ∷ Command.Push 2 ∷ Command.Truncate 1 ∷ [] }
    requires aborts { batch.end ≡ End.Abort }
    ensures aborted { result ≡ Ok Done.Aborted }
    ensures nothing_left { workspace.new.contents ≡ no_contents }
{
    law_counts_are_enough::<u64>();
    workspace.apply(batch)
}

// How many stands the course of a batch has.
pub fn stands_of_course<T: Drop>(workspace: &Workspace<T>, batch: &Batch<T>) -> usize
    ensures stands { result ≡ length (course_of workspace.now.contents batch.now).stands }
{
    law_course_length::<T>();
    batch.commands.len()
}

// Whether two workspaces of numbers have the same contents: then their lists are equal.
pub fn are_alike(one: &Workspace<u64>, other: &Workspace<u64>) -> bool
    ensures same_lists { IsTrue result → one.now.contents.list ≡ other.now.contents.list }
{
    law_same_contents::<u64>();
    one.same_contents(other)
}
