//! Makes scripts from two numbers.
ghost use Rattle.std.specs.Prelude.{◌≡◌, ◌/◌, ◌^◌, ◌≤◌, IfOk, OnOk};
ghost use Rattle.batch_script.specs.Generated.{drawn_command, draw, drawn_end, batch_of, next_number, number_after, generated};
ghost use Rattle.batch_script.specs.declared.words.TheConstants.{MOST_BATCHES};
ghost use Rattle.batch_script.specs.Reading.{plain_item, plain_items};

use crate::item::{Item, Script};
use batch_core::{Batch, Command, End};
use std::alloc::Global;
use wic_base::OutOfMemory;
use wic_vec::TryVec;

/// How many commands a batch has.
const COMMANDS: usize = 8;

/// The number that draws go on from. Each draw gives a number below 2^31.
#[derive(Drop)]
struct Generator {
    number: u64,
}

impl Generator {
    /// Draws the next number.
    fn draw(&mut self) -> u64
        ensures drawn { result ≡ self.new.number / 2 ^ 33 }
        ensures next { self.new.number ≡ next_number self.old.number }
    {
        self.number = self
            .number
            .wrapping_mul(6364136223846793005)
            .wrapping_add(1442695040888963407);
        self.number >> 33
    }

    /// The command of the next three draws.
    fn command(&mut self) -> Command<u64>
        ensures command { result ≡ drawn_command self.old.number }
        ensures next { self.new.number ≡ number_after 3 self.old.number }
    {
        let kind = self.draw() % 16;
        let place = self.draw();
        let value = self.draw();
        match kind {
            0..=3 => Command::Push(value),
            4 => Command::Pop,
            5 => Command::Set(place % 8, value),
            6..=9 => Command::Alloc(value),
            10 => Command::Free(place % 8),
            11 => Command::Put(place % 8, value),
            12 | 13 => Command::Insert(place % 4096),
            _ => Command::Remove(place % 4096),
        }
    }

    /// The end of a batch, by the next one.
    fn end(&mut self) -> End
        ensures end { result ≡ drawn_end (draw 0 self.old.number) }
        ensures next { self.new.number ≡ number_after 1 self.old.number }
    {
        match self.draw() % 4 {
            0 => End::Abort,
            _ => End::Commit,
        }
    }

    /// A batch of eight commands, and its end.
    fn batch(&mut self, alloc: Global) -> Result<Batch<u64>, OutOfMemory>
        ensures batch { IfOk result (λ made. plain_item (Item.Batch made)
            ≡ batch_of self.old.number) }
        ensures next { OnOk result (self.new.number ≡ number_after 25 self.old.number) }
    {
        let mut commands = TryVec::with_capacity(alloc, COMMANDS)?;
        for _ in 0..COMMANDS {
            commands.push(self.command())?;
        }
        let end = self.end();
        Ok(Batch { commands, end })
    }
}

/// The script that is made of `seed` and `n`: room for 4096, and then `n` batches of eight commands each.
///
/// Equal numbers make equal scripts. `OutOfMemory` says that there was no memory for the items; nothing is kept then.
pub fn generate(alloc: Global, seed: u64, n: u64) -> Result<Script, OutOfMemory>
    requires few { n ≤ MOST_BATCHES }
    ensures script { IfOk result (λ script. plain_items script.items.items ≡ generated seed n) }
{
    let mut items = TryVec::new(alloc);
    items.push(Item::Reserve(4096))?;
    let mut generator = Generator { number: seed };
    for _ in 0..n {
        items.push(Item::Batch(generator.batch(alloc)?))?;
    }
    Ok(Script { items })
}
