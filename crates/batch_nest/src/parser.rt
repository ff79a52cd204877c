//! Reads a script of nests: its lines one after the other, as lines of a nest and items.
ghost use Rattle.std.specs.Prelude.{◌≡◌, ◌≢◌, ◌++◌, ◌∷◌, ◌+◌, ◌<◌, ℕ, [], None, IsSome, IfOk, IfErr, OnOk, Err};
ghost use Rattle.batch_core.specs.declared.command.Command.{Command};
ghost use Rattle.batch_script.specs.Grammar.{IsScriptOfSome, numbers_of, word_of};
ghost use Rattle.batch_script.specs.Reading.{RefusesLineOver, TakesLineOver, listed};
ghost use Rattle.batch_nest.specs.Reading.{HasReadNests, StandFor, TakesNestLine};
ghost use Rattle.batch_nest.specs.Script.{IsNestJustified, nest_printing};
ghost use Rattle.batch_nest.specs.declared.nest.NestLine.{NestLine};
ghost use Rattle.batch_nest.specs.Nest.{nest_end};

use crate::item::{NestItem, NestScript};
use crate::nest::{Nest, NestLine};
use batch_core::End;
use batch_script::{
    LineReader, LineRefusal, Numbers, RunError, Start, command_of, end_of, read_script, start_of,
};
use std::alloc::Global;
use wic_base::OutOfMemory;
use wic_vec::TryVec;

/// A nest that has begun and not ended: its lines so far, and how many of its inner batches are open.
#[derive(Drop)]
pub(crate) struct OpenNest {
    lines: TryVec<NestLine<u64>>,
    depth: usize,
}

impl OpenNest {
    /// Puts a begin behind the lines: one more batch is open then. No depth is beyond the greatest number, as its lines would find
    /// no memory.
    fn begin_inner(&mut self) -> Result<(), OutOfMemory>
        ensures adds { OnOk result (
            (self.new.lines.items ≡ self.old.lines.items ++ NestLine.Begin ∷ [])
            × (self.new.depth ≡ self.old.depth + 1)) }
    {
        let Some(depth) = self.depth.checked_add(1) else {
            return Err(OutOfMemory::new(usize::MAX));
        };
        self.lines.push(NestLine::Begin)?;
        self.depth = depth;
        Ok(())
    }

    /// Puts the end of the innermost open batch behind the lines: one batch less is open then.
    fn end_inner(&mut self, end: End) -> Result<(), OutOfMemory>
        requires some_open { 0 < self.old.depth }
        ensures adds { OnOk result (
            (self.new.lines.items ≡ self.old.lines.items ++ nest_end end ∷ [])
            × (self.old.depth ≡ self.new.depth + 1)) }
    {
        let line = match end {
            End::Commit => NestLine::Commit,
            End::Abort => NestLine::Abort,
        };
        self.lines.push(line)?;
        self.depth -= 1;
        Ok(())
    }
}

/// The items that were read, and the nest that has begun and not ended.
#[derive(Drop)]
pub(crate) struct NestReading {
    items: TryVec<NestItem>,
    begun: Option<OpenNest>,
}

impl NestReading {
    /// Goes on by a line of this word and these numbers if no nest has begun.
    fn take_outside(
        &mut self,
        alloc: Global,
        word: &[u8],
        numbers: Numbers,
    ) -> Result<(), LineRefusal>
        requires none { self.old.begun ≡ None }
        ensures ok { OnOk result
            (TakesLineOver HasReadNests HasReadNests self.old self.new word.now (listed numbers)) }
        ensures syntax { result ≡ Err LineRefusal.Syntax
            → RefusesLineOver nest_printing HasReadNests self.old word.now (listed numbers) }
    {
        match start_of(word, numbers) {
            Some(Start::Reserve(number)) => self.items.push(NestItem::Reserve(number))?,
            Some(Start::Show) => self.items.push(NestItem::Show)?,
            Some(Start::Begin) => {
                self.begun = Some(OpenNest {
                    lines: TryVec::new(alloc),
                    depth: 0,
                });
            }
            None => return Err(LineRefusal::Syntax),
        }
        Ok(())
    }

    /// Goes on by a line of this word and these numbers, which is no command, if a nest has begun.
    fn take_bound(&mut self, word: &[u8], numbers: Numbers) -> Result<(), LineRefusal>
        requires some { IsSome self.old.begun }
        requires no_command { (command : Command ℕ) → numbers_of command ≡ listed numbers
            → word_of command ≢ word.now }
        ensures ok { OnOk result
            (TakesLineOver HasReadNests HasReadNests self.old self.new word.now (listed numbers)) }
        ensures syntax { result ≡ Err LineRefusal.Syntax
            → RefusesLineOver nest_printing HasReadNests self.old word.now (listed numbers) }
    {
        match end_of(word, numbers) {
            Some(end) => Ok(self.take_end(end)?),
            None => match start_of(word, numbers) {
                Some(Start::Begin) => Ok(self.take_begin()?),
                // Neither a reservation nor a show stands in a batch.
                Some(Start::Reserve(_)) => Err(LineRefusal::Syntax),
                Some(Start::Show) => Err(LineRefusal::Syntax),
                None => Err(LineRefusal::Syntax),
            },
        }
    }

    /// Goes on by a begin if a nest has begun.
    fn take_begin(&mut self) -> Result<(), OutOfMemory>
        requires some { IsSome self.old.begun }
        ensures ok { OnOk result (TakesNestLine self.old self.new NestLine.Begin) }
    {
        match &mut self.begun {
            Some(begun) => begun.begin_inner(),
            None => Ok(()),
        }
    }

    /// Goes on by an end if a nest has begun: of the innermost batch that is open, or of the nest if none is.
    fn take_end(&mut self, end: End) -> Result<(), OutOfMemory>
        requires some { IsSome self.old.begun }
        ensures ok { OnOk result (TakesNestLine self.old self.new (nest_end end)) }
    {
        let Some(begun) = &mut self.begun else {
            return Ok(());
        };
        if begun.depth > 0 {
            return begun.end_inner(end);
        }
        match self.begun.take() {
            Some(OpenNest { lines, .. }) => self.items.push(NestItem::Nest(Nest { lines, end })),
            None => Ok(()),
        }
    }
}

impl LineReader for NestReading {
    ghost use Rattle.std.specs.Prelude.{ℕ};
    ghost use Rattle.batch_nest.specs.Nest.{Body};
    ghost use Rattle.batch_nest.specs.Reading.{HasReadNests, StandFor};
    ghost use Rattle.batch_nest.specs.ReadingLaws.{begins_nest_script, nests_have_parts};
    ghost use Rattle.batch_nest.specs.Script.{nest_printing};

    type Script = NestScript;

    ghost body = { Body ℕ };

    ghost printing = { nest_printing };

    ghost has_parts = { nests_have_parts };

    ghost stands_for = { λ script. StandFor script.items.items };

    ghost has_read = { HasReadNests };

    ghost begins_script = { begins_nest_script };

    fn start(alloc: Global) -> NestReading {
        NestReading {
            items: TryVec::new(alloc),
            begun: None,
        }
    }

    fn take(&mut self, alloc: Global, word: &[u8], numbers: Numbers) -> Result<(), LineRefusal> {
        match &mut self.begun {
            None => self.take_outside(alloc, word, numbers),
            Some(begun) => match command_of(word, numbers) {
                Some(command) => Ok(begun.lines.push(NestLine::Command(command))?),
                None => self.take_bound(word, numbers),
            },
        }
    }

    fn finish(self) -> Option<NestScript> {
        match self.begun {
            None => Some(NestScript { items: self.items }),
            Some(_) => None,
        }
    }
}

/// Reads a whole script of nests, and returns its items: each nest has balanced lines.
///
/// `Syntax` comes exactly if the input is no script of nests, with the line of its fault. `Oom` says that there was no memory for
/// the items. Each byte is read once. The depth of the inner batches takes no memory of its own and no stack of the machine.
pub fn nest_parse(alloc: Global, input: &[u8]) -> Result<NestScript, RunError>
    ensures script { IfOk result (λ script.
        IsScriptOfSome nest_printing (StandFor script.items.items) input.now) }
    ensures refusal { IfErr result (IsNestJustified input.now) }
{
    read_script::<NestReading>(alloc, input)
}
