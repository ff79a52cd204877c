//! Reads a script: its lines one after the other, as commands and items.
ghost use Rattle.std.specs.Prelude.{◌≡◌, ◌≢◌, ◌<◌, ◌↔◌, ◌∷◌, ◌++◌, ℕ, List, [], length, IsTrue};
ghost use Rattle.std.specs.Prelude.{IfSome, IfNone, IfOk, IfErr, OnOk, MatchOption, Err};
ghost use Rattle.batch_core.specs.declared.command.Command.{Command};
ghost use Rattle.batch_core.specs.declared.command.End.{End};
ghost use Rattle.batch_script.specs.Machine.{PlainItem};
ghost use Rattle.batch_script.specs.Grammar.{IsScriptOf, IsValidCommand};
ghost use Rattle.batch_script.specs.Grammar.{command_line, word_of, numbers_of, end_line};
ghost use Rattle.batch_script.specs.Front.{IsOneLine};
ghost use Rattle.batch_script.specs.Reading.{first_word, first_numbers, listed, plain_items, started};
ghost use Rattle.batch_script.specs.Refusal.{IsJustified};

use crate::item::{Item, Script};
use crate::line::{Numbers, read_line};
use crate::line_reader::{LineReader, LineRefusal, read_script};
use crate::run_error::RunError;
use batch_core::{Batch, Command, End};
use std::alloc::Global;
use wic_vec::TryVec;

/// The command of this word and these numbers, or `None` if there is none. It allocates nothing.
pub fn command_of(word: &[u8], numbers: Numbers) -> Option<Command<u64>>
    ensures some { IfSome result (λ command. (word.now ≡ word_of command)
        × (listed numbers ≡ numbers_of command)) }
    ensures none { IfNone result ((command : Command ℕ) → numbers_of command ≡ listed numbers
        → word_of command ≢ word.now) }
{
    match numbers {
        Numbers::Zero => match word {
            b"pop" => Some(Command::Pop),
            _ => None,
        },
        Numbers::One(number) => match word {
            b"push" => Some(Command::Push(number)),
            b"alloc" => Some(Command::Alloc(number)),
            b"free" => Some(Command::Free(number)),
            b"insert" => Some(Command::Insert(number)),
            b"remove" => Some(Command::Remove(number)),
            b"truncate" => Some(Command::Truncate(number)),
            _ => None,
        },
        Numbers::Two(number, value) => match word {
            b"set" => Some(Command::Set(number, value)),
            b"put" => Some(Command::Put(number, value)),
            _ => None,
        },
    }
}

/// The command of this line, or `None` if the line is no command. A line is a word and its numbers in decimal, each behind one
/// space, with no line feed. It is read twice at most, and nothing is allocated.
pub fn parse_command(line: &[u8]) -> Option<Command<u64>>
    ensures some { IfSome result (λ command. line.now ≡ command_line command) }
    ensures none { IfNone result ((command : Command ℕ) → IsValidCommand command
        → line.now ≢ command_line command) }
{
    if !is_one_line(line) {
        return None;
    }
    let (word, numbers, _) = read_line(line)?;
    command_of(word, numbers)
}

/// Whether there are bytes, and no line feed among them.
fn is_one_line(line: &[u8]) -> bool
    ensures { IsTrue result ↔ IsOneLine line.now }
{
    !line.is_empty() && !line.contains(&b'\n')
}

/// The end of a batch that is this word, with no numbers, or `None` if there is none. It allocates nothing.
pub fn end_of(word: &[u8], numbers: Numbers) -> Option<End>
    ensures some { IfSome result (λ ending. (word.now ≡ end_line ending) × (listed numbers ≡ [])) }
    ensures none { IfNone result ((ending : End) → listed numbers ≡ []
        → end_line ending ≢ word.now) }
{
    match numbers {
        Numbers::Zero => match word {
            b"commit" => Some(End::Commit),
            b"abort" => Some(End::Abort),
            _ => None,
        },
        _ => None,
    }
}

/// What a line outside a batch starts.
#[derive(Drop)]
pub enum Start {
    /// A reservation of so much room.
    Reserve(u64),
    /// A show.
    Show,
    /// A batch.
    Begin,
}

/// What this word and these numbers start outside a batch, or `None` if they start nothing. It allocates nothing.
pub fn start_of(word: &[u8], numbers: Numbers) -> Option<Start>
    ensures some { IfSome result (λ start. (word.now ≡ first_word (started start))
        × (listed numbers ≡ first_numbers (started start))) }
    ensures none { IfNone result ((item : PlainItem) → first_numbers item ≡ listed numbers
        → first_word item ≢ word.now) }
{
    match numbers {
        Numbers::Zero => match word {
            b"begin" => Some(Start::Begin),
            b"show" => Some(Start::Show),
            _ => None,
        },
        Numbers::One(number) => match word {
            b"reserve" => Some(Start::Reserve(number)),
            _ => None,
        },
        Numbers::Two(_, _) => None,
    }
}

/// The items that were read, and the commands of a batch that has begun and not ended.
#[derive(Drop)]
pub(crate) struct Reading {
    items: TryVec<Item>,
    begun: Option<TryVec<Command<u64>>>,
}

impl Reading {
    ghost use Rattle.batch_script.specs.Reading.{IsInside, IsOutside, RefusesLine, TakesLine};

    /// Goes on by a line of this word and these numbers if no batch has begun.
    fn take_outside(
        &mut self,
        alloc: Global,
        word: &[u8],
        numbers: Numbers,
    ) -> Result<(), LineRefusal>
        ensures ok { OnOk result (TakesLine IsOutside self.old self.new word.now (listed numbers)) }
        ensures syntax { result ≡ Err LineRefusal.Syntax
            → RefusesLine IsOutside self.old word.now (listed numbers) }
    {
        match start_of(word, numbers) {
            Some(Start::Reserve(number)) => self.items.push(Item::Reserve(number))?,
            Some(Start::Show) => self.items.push(Item::Show)?,
            Some(Start::Begin) => self.begun = Some(TryVec::new(alloc)),
            None => return Err(LineRefusal::Syntax),
        }
        Ok(())
    }

    /// Ends the batch that has begun by a line of this word and these numbers, which is no command.
    fn take_end(&mut self, word: &[u8], numbers: Numbers) -> Result<(), LineRefusal>
        requires no_command { (command : Command ℕ) → numbers_of command ≡ listed numbers
            → word_of command ≢ word.now }
        ensures ok { OnOk result (TakesLine IsInside self.old self.new word.now (listed numbers)) }
        ensures syntax { result ≡ Err LineRefusal.Syntax
            → RefusesLine IsInside self.old word.now (listed numbers) }
    {
        let Some(end) = end_of(word, numbers) else {
            return Err(LineRefusal::Syntax);
        };
        if let Some(commands) = self.begun.take() {
            self.items.push(Item::Batch(Batch { commands, end }))?;
        }
        Ok(())
    }
}

impl LineReader for Reading {
    ghost use Rattle.std.specs.Prelude.{◌≡◌};
    ghost use Rattle.batch_core.specs.declared.command.Command.{Command};
    ghost use Rattle.batch_script.specs.Grammar.{batch_printing};
    ghost use Rattle.batch_script.specs.Reading.{HasRead, plain_items};
    ghost use Rattle.batch_script.specs.ReadingLaws.{batches_have_parts, begins_script};

    type Script = Script;

    ghost body = { List (Command ℕ) };

    ghost printing = { batch_printing };

    ghost has_parts = { batches_have_parts };

    ghost stands_for = { λ script items. items ≡ plain_items script.items.items };

    ghost has_read = { HasRead };

    ghost begins_script = { begins_script };

    fn start(alloc: Global) -> Reading {
        Reading {
            items: TryVec::new(alloc),
            begun: None,
        }
    }

    fn take(&mut self, alloc: Global, word: &[u8], numbers: Numbers) -> Result<(), LineRefusal> {
        match &mut self.begun {
            None => self.take_outside(alloc, word, numbers),
            Some(commands) => match command_of(word, numbers) {
                Some(command) => Ok(commands.push(command)?),
                None => self.take_end(word, numbers),
            },
        }
    }

    fn finish(self) -> Option<Script> {
        match self.begun {
            None => Some(Script { items: self.items }),
            Some(_) => None,
        }
    }
}

/// Reads a whole script, and returns its items.
///
/// `Syntax` comes exactly if the input is no script, with the line of its fault. `Oom` says that there was no memory for the items.
/// Each byte is read once.
pub fn parse(alloc: Global, input: &[u8]) -> Result<Script, RunError>
    ensures script { IfOk result (λ script. IsScriptOf input.now (plain_items script.items.items)) }
    ensures refusal { IfErr result (IsJustified input.now) }
{
    read_script::<Reading>(alloc, input)
}
