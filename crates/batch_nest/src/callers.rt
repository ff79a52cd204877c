//! Callers of nests, proved from the contracts alone.
ghost use Rattle.std.specs.Prelude.{◌≡◌, ◌+◌, ◌≤◌, ◌++◌, ◌∷◌, [], IfOk, IfErr, OnOk, OnErr};
ghost use Rattle.std.specs.FinMap.{len};
ghost use Rattle.batch_core.specs.Command.{effect_of, records_of};
ghost use Rattle.batch_core.specs.Workspace.{IsOom};
ghost use Rattle.batch_core.specs.declared.command.Command.{Command};
ghost use Rattle.batch_nest.specs.declared.nest.NestLine.{NestLine};
ghost use Rattle.batch_nest.specs.Applied.{OfBody, FitsNest};
ghost use Rattle.batch_nest.specs.Laws.{plain_lines};
ghost use Rattle.batch_nest.specs.Nest.{IsBalanced, nest_lines};
ghost use Rattle.batch_nest.specs.Savepoint.{around_savepoint};

use crate::laws::{law_balanced, law_larger_room, law_nest_counts_are_enough};
use crate::nest::{Nest, NestLine};
use crate::space::NestSpace;
use batch_core::{Cause, Command, Done, End, Refusal, ReserveRefusal};
use std::alloc::Global;
use wic_base::OutOfMemory;
use wic_vec::TryVec;

// The lines of a savepoint: one command, then one that is tried and given up, then a last one.
fn savepoint_lines<T: Drop>(
    alloc: Global,
    kept: Command<T>,
    tried: Command<T>,
    last: Command<T>,
) -> Result<TryVec<NestLine<T>>, OutOfMemory>
    ensures lines { IfOk result (λ lines.
        lines.items ≡ nest_lines (around_savepoint kept tried last)) }
{
    let mut lines = TryVec::with_capacity(alloc, 5)?;
    lines.push(NestLine::Command(kept))?;
    lines.push(NestLine::Begin)?;
    lines.push(NestLine::Command(tried))?;
    lines.push(NestLine::Abort)?;
    lines.push(NestLine::Command(last))?;
    Ok(lines)
}

// Does a command, sets a savepoint, tries another command and goes back to the savepoint, does a last command, and commits.
// Then the last command stands in what the first one left, whatever the second did. A refusal leaves all as it was.
pub fn go_on_from_savepoint<T: Drop>(
    alloc: Global,
    space: &mut NestSpace<T>,
    kept: Command<T>,
    tried: Command<T>,
    last: Command<T>,
) -> Result<Done, Refusal>
    ensures contents { OnOk result (space.new.contents
        ≡ effect_of (effect_of space.old.contents kept) last) }
    ensures records { OnOk result (space.new.records ≡ records_of space.old.contents kept
        ++ records_of (effect_of space.old.contents kept) last) }
    ensures refusal_leaves { OnErr result (space.new.contents ≡ space.old.contents) }
{
    let lines = match savepoint_lines(alloc, kept, tried, last) {
        Ok(lines) => lines,
        Err(oom) => {
            return Err(Refusal {
                cause: Cause::Oom(oom),
                at: 0,
            });
        }
    };
    law_balanced::<T>();
    space.apply(Nest {
        lines,
        end: End::Commit,
    })
}

// Makes room for n, and then does a nest that fits it: memory doesn't refuse it.
pub fn reserve_and_apply<T: Drop>(
    space: &mut NestSpace<T>,
    n: u64,
    nest: Nest<T>,
) -> Result<Result<Done, Refusal>, ReserveRefusal>
    requires balanced { IsBalanced nest.lines.items }
    requires fits { OfBody nest.lines.items (FitsNest n space.old.contents) }
    ensures never_oom { IfOk result (λ outcome. IfErr outcome (λ r. ¬ IsOom r.cause)) }
{
    space.reserve(n)?;
    law_larger_room::<T>();
    Ok(space.apply(nest))
}

// Does a nest whose lines are these commands and no others, and gives it up: such lines are balanced, and the contents stay.
pub fn give_up_commands<T: Drop>(
    space: &mut NestSpace<T>,
    lines: TryVec<NestLine<T>>,
    commands: &[Command<T>],
) -> Result<Done, Refusal>
    requires plain { lines.items ≡ plain_lines commands.now }
    ensures contents { space.new.contents ≡ space.old.contents }
{
    law_balanced::<T>();
    space.apply(Nest {
        lines,
        end: End::Abort,
    })
}

// Holds a value around an inner batch that holds another one and gives it up, where there is room for two more: memory doesn't refuse
// it.
pub fn hold_around_abort(space: &mut NestSpace<u64>, nest: Nest<u64>) -> Result<Done, Refusal>
    requires lines { nest.lines.items ≡ NestLine.Command (Command.Alloc 1) ∷ NestLine.Begin
        ∷ NestLine.Command (Command.Alloc 2) ∷ NestLine.Abort ∷ [] }
    requires room { len space.old.contents.live + 2 ≤ space.old.room }
    ensures never_oom { IfErr result (λ r. ¬ IsOom r.cause) }
{
    law_balanced::<u64>();
    law_nest_counts_are_enough::<u64>();
    space.apply(nest)
}
