//! A guard in use: a step that is refused with an error takes all steps back.
ghost use Rattle.std.specs.Prelude.{◌≤◌};

use std::alloc::Global;
use std::test::Fail;
use wic_base::{OutOfMemory, Undo};
use wic_error::{Error, Kind};
use wic_vec::TryString;

// Why a step is refused.
#[derive(Clone, Copy)]
struct UhOh;

impl Kind for UhOh {
    ghost use Rattle.std.specs.Prelude.{codes};

    ghost number = { λ _. 1 };

    ghost text = { λ _. codes "uh oh" };

    fn number(&self) -> u32 {
        1
    }

    fn push_text(&self, out: &mut TryString) -> Result<(), OutOfMemory> {
        out.push_str("uh oh")
    }
}

// A counter, how many steps it was taken forward, and the greatest value that it had.
#[derive(Drop)]
struct Counter {
    value: u64,
    done: u64,
    greatest: u64,
    ghost within: { done ≤ value },
}

impl Counter {
    fn step(&mut self, alloc: Global, end: u64) -> Result<(), Error<UhOh>> {
        if self.value >= end {
            return Err(Error::new(alloc, UhOh));
        }
        self.value += 1;
        self.done += 1;
        self.greatest = self.greatest.max(self.value);
        Ok(())
    }

    fn stepped_back(self) -> Counter {
        Counter {
            value: self.value - self.done,
            done: 0,
            greatest: self.greatest,
        }
    }
}

// Takes a counter n steps forward from 0, all or none.
fn inc_n(alloc: Global, n: u64, end: u64) -> Result<Counter, (Counter, Error<UhOh>)> {
    let counter = Counter {
        value: 0,
        done: 0,
        greatest: 0,
    };
    let mut guard = Undo::new(counter, |counter: Counter| counter.stepped_back());
    for _i in 0..n {
        if let Err(error) = guard.get_mut().step(alloc, end) {
            return Err((Undo::roll_back(guard), error));
        }
    }
    Ok(Undo::commit(guard))
}

#[test]
fn a_refused_step_is_told_and_takes_all_steps_back(rt: HostRuntime) -> Result<(), Fail> {
    let alloc = rt.alloc();
    match inc_n(alloc, 10, 5) {
        Err((counter, error)) => {
            assert_eq!(rt; error.first_text(alloc)?.as_str(), "uh oh");
            assert_eq!(rt; (counter.value, counter.greatest), (0, 5));
        }
        Ok(_) => assert!(rt; false),
    }
    match inc_n(alloc, 10, 100) {
        Ok(counter) => assert_eq!(rt; (counter.value, counter.greatest), (10, 10)),
        Err(_) => assert!(rt; false),
    }
    Ok(())
}
