//! The plain model: it keeps the old state whole, and takes it back if a batch is given up.
use super::{applied, in_new};
use crate::{Batch, Command, Done, End, Refusal, Workspace};
use std::alloc::{AllocError, Global};
use std::collections::{BTreeMap, BTreeSet};
use std::test::Fail;
use wic_base::OutOfMemory;
use wic_bitset::CompoundBitSet;
use wic_slab::Slab;
use wic_vec::TryVec;

// What the plain machine holds. Vacant ids are in the order in which they were given back.
#[derive(Drop)]
struct Model {
    list: Vec<u64>,
    set: BTreeSet<u64>,
    table: BTreeMap<u64, u64>,
    vacant: Vec<u64>,
    fresh: u64,
}

impl Model {
    fn new(alloc: Global) -> Model {
        Model {
            list: Vec::new(alloc),
            set: BTreeSet::new(alloc),
            table: BTreeMap::new(alloc),
            vacant: Vec::new(alloc),
            fresh: 0,
        }
    }

    fn copied(&self) -> Result<Model, AllocError> {
        Ok(Model {
            list: self.list.clone()?,
            set: self.set.clone()?,
            table: self.table.clone()?,
            vacant: self.vacant.clone()?,
            fresh: self.fresh,
        })
    }

    fn next_id(&self) -> u64 {
        self.vacant.last().copied().unwrap_or(self.fresh)
    }

    // Does one command, or returns false if it is bad.
    fn step(&mut self, command: &Command<u64>) -> Result<bool, AllocError> {
        match command {
            Command::Push(value) => self.push(*value),
            Command::Pop => Ok(self.list.pop().is_some()),
            Command::Set(at, value) => Ok(written(self.list.get_mut(*at as usize), *value)),
            Command::Alloc(value) => self.alloc(*value),
            Command::Free(id) => self.free(*id),
            Command::Put(id, value) => Ok(written(self.table.get_mut(id), *value)),
            Command::Insert(number) => self.insert(*number),
            Command::Remove(number) => {
                self.set.remove(number);
                Ok(true)
            }
            Command::Truncate(kept) => Ok(self.truncate(*kept as usize)),
        }
    }

    fn push(&mut self, value: u64) -> Result<bool, AllocError> {
        self.list.push(value)?;
        Ok(true)
    }

    fn insert(&mut self, number: u64) -> Result<bool, AllocError> {
        if number > 4294967295 {
            return Ok(false);
        }
        self.set.insert(number)?;
        Ok(true)
    }

    fn truncate(&mut self, kept: usize) -> bool {
        if kept > self.list.len() {
            return false;
        }
        self.list.truncate(kept);
        true
    }

    fn alloc(&mut self, value: u64) -> Result<bool, AllocError> {
        let id = self.next_id();
        if self.vacant.pop().is_none() {
            self.fresh = self.fresh.saturating_add(1);
        }
        self.table.insert(id, value)?;
        Ok(true)
    }

    fn free(&mut self, id: u64) -> Result<bool, AllocError> {
        if self.table.remove(&id).is_none() {
            return Ok(false);
        }
        if self.vacant.is_empty() && id.saturating_add(1) == self.fresh {
            self.fresh = id;
        } else {
            self.vacant.push(id)?;
        }
        Ok(true)
    }

    // The number of the first bad command, after those before it took effect; 0 if there is none.
    fn run(&mut self, commands: &[Command<u64>]) -> Result<u64, AllocError> {
        for (index, command) in commands.iter().enumerate() {
            if !self.step(command)? {
                return Ok((index as u64).saturating_add(1));
            }
        }
        Ok(0)
    }

    // What it holds after these commands, and the number of the first bad one, or 0.
    fn foreseen(&self, commands: &[Command<u64>]) -> Result<(Model, u64), AllocError> {
        let mut next = self.copied()?;
        let bad = next.run(commands)?;
        Ok((next, bad))
    }

    fn is_held_by(&self, workspace: &Workspace<u64>) -> bool {
        workspace.list() == self.list.as_slice()
            && self.has_members(workspace.set())
            && self.has_pairs(workspace.table())
            && u64::from(workspace.table().next_id().into_raw()) == self.next_id()
    }

    fn has_members(&self, set: &CompoundBitSet<u64>) -> bool {
        let mut members = set.iter();
        for number in self.set.iter() {
            if members.next() != Some(*number as usize) {
                return false;
            }
        }
        members.next().is_none()
    }

    fn has_pairs(&self, table: &Slab<u64>) -> bool {
        let mut pairs = table.iter();
        for (id, value) in self.table.iter() {
            match pairs.next() {
                Some((held, found)) if u64::from(held.into_raw()) == *id && found == value => {}
                _ => return false,
            }
        }
        pairs.next().is_none()
    }
}

// Writes the value there, if there is a place.
fn written(place: Option<&mut u64>, value: u64) -> bool {
    match place {
        Some(place) => {
            *place = value;
            true
        }
        None => false,
    }
}

// Draws numbers, one after the other, from a seed.
#[derive(Drop)]
struct Draws(u64);

impl Draws {
    fn below(&mut self, end: u64) -> u64 {
        self.0 = self
            .0
            .wrapping_mul(6364136223846793005)
            .wrapping_add(1442695040888963407);
        (self.0 >> 33).checked_rem(end).unwrap_or(0)
    }

    fn command(&mut self) -> Command<u64> {
        match self.below(20) {
            0..=4 => Command::Push(self.below(100)),
            5 => Command::Pop,
            6 => Command::Set(self.below(6), self.below(100)),
            7..=10 => Command::Alloc(self.below(100)),
            11 => Command::Free(self.below(8)),
            12 => Command::Put(self.below(8), self.below(100)),
            13..=15 => Command::Insert(self.below(300)),
            16 => Command::Insert(4294967296),
            17..=18 => Command::Remove(self.below(300)),
            _ => Command::Truncate(self.below(8)),
        }
    }

    fn batch(&mut self, alloc: Global) -> Result<Batch<u64>, OutOfMemory> {
        let mut commands = TryVec::new(alloc);
        for _ in 0..self.below(9) {
            commands.push(self.command())?;
        }
        let end = if self.below(4) == 0 {
            End::Abort
        } else {
            End::Commit
        };
        Ok(Batch { commands, end })
    }
}

// Whether a batch returns what it must if its first bad command is this one.
fn is_right(answer: &Result<Done, Refusal>, bad: u64, end: End) -> bool {
    match answer {
        Err(refusal) => bad != 0 && refusal.at == bad,
        Ok(Done::Committed) => bad == 0 && end == End::Commit,
        Ok(Done::Aborted) => bad == 0 && end == End::Abort,
    }
}

// The plain model, and the draws of the batches for it and for a workspace.
#[derive(Drop)]
struct Trial {
    model: Model,
    draws: Draws,
}

impl Trial {
    // Does one batch more, and returns whether the workspace says and holds what the model does.
    fn agrees(&mut self, alloc: Global, workspace: &mut Workspace<u64>) -> Result<bool, Fail> {
        let batch = self.draws.batch(alloc)?;
        let end = batch.end;
        let (next, bad) = self.model.foreseen(batch.commands.as_slice())?;
        let answer = applied(workspace, batch);
        self.settle(next, matches!(&answer, Ok(Done::Committed)));
        Ok(is_right(&answer, bad, end) && self.model.is_held_by(workspace))
    }

    fn settle(&mut self, next: Model, is_committed: bool) {
        if is_committed {
            self.model = next;
        }
    }

    fn agrees_each_time(
        &mut self,
        alloc: Global,
        workspace: &mut Workspace<u64>,
    ) -> Result<bool, Fail> {
        for _ in 0..2000 {
            if !self.agrees(alloc, workspace)? {
                return Ok(false);
            }
        }
        Ok(true)
    }
}

fn batches_agree(alloc: Global, workspace: &mut Workspace<u64>) -> Result<bool, Fail> {
    let mut trial = Trial {
        model: Model::new(alloc),
        draws: Draws(7),
    };
    trial.agrees_each_time(alloc, workspace)
}

#[test]
fn random_batches_do_what_the_plain_model_does(rt: HostRuntime) -> Result<(), Fail> {
    let alloc = rt.alloc();
    assert!(rt; in_new(alloc, |workspace| batches_agree(alloc, workspace))?);
    Ok(())
}
