//! A caller of a guard, proved from its contracts alone.
ghost use Rattle.std.specs.Prelude.{◌≡◌, ◌+◌, ◌≤◌, true, false, max, IfOk, IfErr};

use crate::Undo;
use std::test::Fail;

// A counter, how many steps it was taken forward, and the greatest value that it had.
#[derive(Drop)]
struct Counter {
    value: u64,
    done: u64,
    greatest: u64,
    ghost within: { done ≤ value },
}

impl Counter {
    fn new() -> Counter
        ensures value { result.value ≡ 0 }
        ensures done { result.done ≡ 0 }
    {
        Counter {
            value: 0,
            done: 0,
            greatest: 0,
        }
    }

    // The counter one step further; refused if it isn't below the end.
    fn step(&mut self, end: u64) -> bool
        ensures taken { result ≡ true
            → (self.new.value ≡ self.old.value + 1) × (self.new.done ≡ self.old.done + 1) }
        ensures refused { result ≡ false → self.new ≡ self.old }
    {
        if self.value >= end {
            return false;
        }
        self.value += 1;
        self.done += 1;
        self.greatest = self.greatest.max(self.value);
        true
    }

    // The counter before all its steps. What it had as its greatest value stays.
    fn stepped_back(self) -> Counter
        ensures value { result.value + self.done ≡ self.value }
        ensures greatest { result.greatest ≡ self.greatest }
    {
        Counter {
            value: self.value - self.done,
            done: 0,
            greatest: self.greatest,
        }
    }
}

// Takes the counter n steps forward, all or none.
fn inc_n(counter: Counter, n: u64, end: u64) -> Result<Counter, Counter>
    requires { counter.done ≡ 0 }
    ensures forward { IfOk result (λ c. c.value ≡ counter.value + n) }
    ensures back { IfErr result (λ c. c.value ≡ counter.value) }
{
    let mut guard = Undo::new(counter, |counter: Counter| counter.stepped_back());
    for _i in 0..n {
        if !guard.get_mut().step(end) {
            return Err(Undo::roll_back(guard));
        }
    }
    Ok(Undo::commit(guard))
}

#[test]
fn a_refused_step_takes_all_steps_back(rt: HostRuntime) -> Result<(), Fail> {
    match inc_n(Counter::new(), 10, 5) {
        Err(counter) => {
            assert_eq!(rt; counter.value, 0);
            assert_eq!(rt; counter.greatest, 5);
        }
        Ok(_) => assert!(rt; false),
    }
    match inc_n(Counter::new(), 10, 100) {
        Ok(counter) => {
            assert_eq!(rt; counter.value, 10);
            assert_eq!(rt; counter.greatest, 10);
        }
        Err(_) => assert!(rt; false),
    }
    Ok(())
}
