//! Runs a script of nests.
ghost use Rattle.std.specs.Prelude.{IfOk, IfErr};
ghost use Rattle.batch_nest.specs.Script.{IsNestJustified, IsNestRunText};

use crate::item::NestItem;
use crate::nest::Nest;
use crate::parser::nest_parse;
use crate::space::NestSpace;
use batch_core::{Done, Refusal, ReserveRefusal, Workspace};
use batch_script::{RunError, Runner, Space, run_body, run_items, run_reserve, run_show};
use std::alloc::Global;
use wic_base::OutOfMemory;
use wic_vec::TryString;

impl Space for NestSpace<u64> {
    ghost use Rattle.batch_nest.specs.Space.{space_of_nests};

    type Item = NestItem;

    type Body = Nest<u64>;

    ghost held = { λ space. space };

    ghost meaning = { space_of_nests };

    fn new(alloc: Global) -> NestSpace<u64> {
        NestSpace::new(alloc)
    }

    fn workspace(&self) -> &Workspace<u64> {
        self.held()
    }

    fn reserve(&mut self, n: u64) -> Result<(), ReserveRefusal> {
        self.reserve(n)
    }

    fn apply(&mut self, nest: Nest<u64>) -> Result<Done, Refusal> {
        self.apply(nest)
    }
}

impl Runner for NestSpace<u64> {
    fn run_item(
        &mut self,
        alloc: Global,
        item: NestItem,
        text: &mut TryString,
    ) -> Result<(), OutOfMemory> {
        match item {
            NestItem::Reserve(number) => run_reserve(alloc, number, self, text),
            NestItem::Show => run_show(self, text),
            NestItem::Nest(nest) => run_body(alloc, nest, self, text),
        }
    }
}

/// Reads the whole input as a script of nests and runs its items from an empty workspace: returns the text of their replies.
///
/// `Syntax` says that the input is no script of nests and where its fault is; nothing was run then. `Oom` says that there was no
/// memory to read the script or to make a reply. A nest or a reservation that finds no memory is refused in the text, and the
/// run goes on.
pub fn nest_run(alloc: Global, input: &[u8]) -> Result<TryString, RunError>
    ensures text { IfOk result (λ text. IsNestRunText input.now text.bytes) }
    ensures refusal { IfErr result (IsNestJustified input.now) }
{
    let script = nest_parse(alloc, input)?;
    Ok(run_items::<NestSpace<u64>>(alloc, script.items)?)
}
