//! Sources and sinks in memory, which fail at the calls that they are given.
ghost use Rattle.std.specs.Prelude.{◌≡◌, ◌+◌, ◌-◌, ◌^◌, ◌<◌, ◌≤◌, ◌↔◌, ◌⊎◌, ◌++◌, ℕ, List, [], length, take, drop, min};
ghost use Rattle.std.specs.Prelude.{⊤, Contains, IsTrue, IsOk, IsErr, IfOk, OnOk, OnErr, None, Some, Ok};
ghost use Rattle.batch_script.specs.Device.{HasCause, TakesFirst, moves};
ghost use Rattle.batch_script.specs.MemoryDevice.{Counted, Gave, SinkReaches, SourceReaches, next_call};
ghost use Rattle.batch_script.specs.DeviceLaws.{counted_more, counted_none, gave_more, gave_none};
ghost use Rattle.batch_script.specs.DeviceLaws.{sink_more, sink_none, source_more, source_none};

use crate::device::{Device, Failed, Sink, Source};
use std::alloc::Global;
use std::marker::Model;
use wic_base::OutOfMemory;
use wic_vec::TryVec;

/// Which calls of a device fail, how many there were, and how many failed.
#[derive(Drop)]
struct FaultPlan {
    failing: TryVec<u64>,
    calls: u64,
    faults: u64,
}

impl FaultPlan {
    fn new(failing: TryVec<u64>) -> FaultPlan
        ensures failing { result.failing.items ≡ failing.items }
        ensures calls { result.calls ≡ 0 }
        ensures faults { result.faults ≡ 0 }
    {
        FaultPlan {
            failing,
            calls: 0,
            faults: 0,
        }
    }

    // Counts a call, and returns whether it is one that is to fail.
    fn next_call_fails(&mut self) -> bool
        ensures listed { IsTrue result
            ↔ Contains self.old.failing.items (next_call self.old.calls) }
        ensures counted { self.new ≡ record self.old { calls = next_call self.old.calls } }
    {
        self.calls = self.calls.saturating_add(1);
        self.failing.as_slice().contains(&self.calls)
    }

    // Counts a fault, and returns it.
    fn fail(&mut self) -> Failed
        ensures counted { self.new ≡ record self.old { faults = next_call self.old.faults } }
        ensures never_falls { self.old.faults ≤ self.new.faults }
    {
        self.faults = self.faults.saturating_add(1);
        Failed
    }
}

/// Input in memory that is read without a fault.
///
/// A contract sees the bytes that are left.
#[derive(Drop)]
pub struct PlainSource {
    bytes: TryVec<u8>,
    taken: usize,
}

impl Model for PlainSource {
    ghost use Rattle.std.specs.Prelude.{ℕ, List, drop, length, ◌≤◌};

    ghost Value = { List ℕ };

    ghost view = { λ s. drop s.taken s.bytes.items };

    ghost invariant = { λ s. s.taken ≤ length s.bytes.items };
}

impl PlainSource {
    /// A source that gives these bytes, takes no memory and never fails.
    pub fn new(bytes: TryVec<u8>) -> PlainSource
        ensures left { result ≡ bytes.items }
    {
        PlainSource { bytes, taken: 0 }
    }

    // Takes the first bytes that are left into the front of `buf`: as many as there are, as fit and as `most` says.
    fn take(&mut self, buf: &mut [u8], most: usize) -> usize
        ensures count { result ≡ min (min most (length buf.old)) (length self.old) }
        ensures read { take result buf.new ≡ take result self.old }
        ensures rest { self.new ≡ drop result self.old }
    {
        let rest = &self.bytes.as_slice()[self.taken..];
        let count = most.min(buf.len()).min(rest.len());
        buf[..count].copy_from_slice(&rest[..count]);
        self.taken += count;
        count
    }
}

impl Device for PlainSource {
    ghost faults = { λ _. 0 };

    ghost can_call = { λ _. ⊤ };

    ghost reaches = { Gave };

    ghost stays = { gave_none };

    ghost goes_on = { gave_more };
}

impl Source for PlainSource {
    ghost left = { λ s. Some s };

    fn read(&mut self, buf: &mut [u8]) -> Result<usize, Failed>
        ensures never_fails { IsOk result }
        ensures within { IfOk result (λ count. count ≤ length buf.old) }
        ensures bytes { IfOk result
            (λ count. (bytes : List ℕ) → Some self.old ≡ Some bytes
            → TakesFirst bytes (Some self.new) buf.new count) }
        ensures failed_takes_nothing { OnErr result (Some self.new ≡ Some self.old) }
        ensures cause { HasCause 0 0 result }
        ensures reaches { Gave (moves result) self.old self.new }
    {
        let most = buf.len();
        Ok(self.take(buf, most))
    }
}

/// Input in memory that is given in pieces, and fails at the calls that it is given.
#[derive(Drop)]
pub struct MemSource {
    source: PlainSource,
    piece: usize,
    plan: FaultPlan,
}

impl Model for MemSource {
    ghost use Rattle.std.specs.Prelude.{◌≤◌};
    ghost use Rattle.batch_script.specs.MemoryDevice.{MemSource as Feed};

    ghost Value = { Feed };

    ghost view = { λ s. record {
      left = s.source;
      piece = s.piece;
      failing = s.plan.failing.items;
      calls = s.plan.calls;
      faults = s.plan.faults;
    } };

    ghost invariant = { λ s. 1 ≤ s.piece };
}

impl MemSource {
    /// A source that gives these bytes, at most `piece` in a call. Calls are numbered from 1, and one fails exactly
    /// if `failing` has its number; the number stands still at 18446744073709551615. It takes no memory.
    pub fn new(bytes: TryVec<u8>, piece: usize, failing: TryVec<u64>) -> MemSource
        requires { 1 ≤ piece }
        ensures left { result.left ≡ bytes.items }
        ensures piece { result.piece ≡ piece }
        ensures failing { result.failing ≡ failing.items }
        ensures calls { result.calls ≡ 0 }
        ensures faults { result.faults ≡ 0 }
    {
        MemSource {
            source: PlainSource::new(bytes),
            piece,
            plan: FaultPlan::new(failing),
        }
    }
}

impl Device for MemSource {
    ghost faults = { λ s. s.faults };

    ghost can_call = { λ _. ⊤ };

    ghost reaches = { SourceReaches };

    ghost stays = { source_none };

    ghost goes_on = { source_more };
}

impl Source for MemSource {
    ghost left = { λ s. Some s.left };

    fn read(&mut self, buf: &mut [u8]) -> Result<usize, Failed>
        ensures listed { IsErr result ↔ Contains self.old.failing (next_call self.old.calls) }
        ensures count { IfOk result (λ count. count
            ≡ min (min self.old.piece (length buf.old)) (length self.old.left)) }
        ensures counted { self.new.calls ≡ next_call self.old.calls }
        ensures fault_counted { OnErr result (self.new.faults ≡ next_call self.old.faults) }
        ensures kept { (self.new.piece ≡ self.old.piece) × (self.new.failing ≡ self.old.failing) }
        ensures within { IfOk result (λ count. count ≤ length buf.old) }
        ensures bytes { IfOk result
            (λ count. (bytes : List ℕ) → Some self.old.left ≡ Some bytes
            → TakesFirst bytes (Some self.new.left) buf.new count) }
        ensures failed_takes_nothing { OnErr result (Some self.new.left ≡ Some self.old.left) }
        ensures cause { HasCause self.old.faults self.new.faults result }
        ensures reaches { SourceReaches (moves result) self.old self.new }
    {
        if self.plan.next_call_fails() {
            return Err(self.plan.fail());
        }
        Ok(self.source.take(buf, self.piece))
    }
}

/// Output that is kept in memory, is taken in pieces, and fails at the calls that it is given and if its room is
/// used up.
#[derive(Drop)]
pub struct MemSink {
    bytes: TryVec<u8>,
    room: usize,
    piece: usize,
    plan: FaultPlan,
}

impl Model for MemSink {
    ghost use Rattle.std.specs.Prelude.{◌≤◌, length};
    ghost use Rattle.batch_script.specs.MemoryDevice.{MemSink as Store};

    ghost Value = { Store };

    ghost view = { λ s. record {
      bytes = s.bytes.items;
      room = s.room;
      piece = s.piece;
      failing = s.plan.failing.items;
      calls = s.plan.calls;
      faults = s.plan.faults;
    } };

    ghost invariant = { λ s. (1 ≤ s.piece) × (length s.bytes.items ≤ s.room) × (s.room ≤ s.bytes.capacity) };
}

impl MemSink {
    /// A sink that holds up to `room` bytes and takes at most `piece` in a call. Calls are numbered from 1, and one
    /// fails if `failing` has its number; the number stands still at 18446744073709551615. All its memory is
    /// taken here.
    pub fn new(
        alloc: Global,
        room: usize,
        piece: usize,
        failing: TryVec<u64>,
    ) -> Result<MemSink, OutOfMemory>
        requires { 1 ≤ piece }
        ensures empty { IfOk result (λ s. s.bytes ≡ []) }
        ensures room { IfOk result (λ s. s.room ≡ room) }
        ensures piece { IfOk result (λ s. s.piece ≡ piece) }
        ensures failing { IfOk result (λ s. s.failing ≡ failing.items) }
        ensures calls { IfOk result (λ s. s.calls ≡ 0) }
        ensures faults { IfOk result (λ s. s.faults ≡ 0) }
    {
        Ok(MemSink {
            bytes: TryVec::with_capacity(alloc, room)?,
            room,
            piece,
            plan: FaultPlan::new(failing),
        })
    }

    /// The bytes that were written, in place.
    pub fn bytes(&self) -> &[u8]
        ensures bytes { result.now ≡ self.now.bytes }
    {
        self.bytes.as_slice()
    }

    /// How many bytes it holds at most.
    pub fn room(&self) -> usize
        ensures room { result ≡ self.now.room }
        ensures holds_all { length self.now.bytes ≤ result }
    {
        self.room
    }
}

impl Device for MemSink {
    ghost faults = { λ s. s.faults };

    ghost can_call = { λ _. ⊤ };

    ghost reaches = { SinkReaches };

    ghost stays = { sink_none };

    ghost goes_on = { sink_more };
}

impl Sink for MemSink {
    ghost written = { λ s. Some s.bytes };

    fn write(&mut self, piece: &[u8]) -> Result<usize, Failed>
        ensures fails { IsErr result
            ↔ (Contains self.old.failing (next_call self.old.calls)
            ⊎ ((0 < length piece.now) × (length self.old.bytes ≡ self.old.room))) }
        ensures count { IfOk result
            (λ count. count ≡ min (min self.old.piece (length piece.now))
            (self.old.room - length self.old.bytes)) }
        ensures counted { self.new.calls ≡ next_call self.old.calls }
        ensures fault_counted { OnErr result (self.new.faults ≡ next_call self.old.faults) }
        ensures kept { (self.new.room ≡ self.old.room) × (self.new.piece ≡ self.old.piece)
            × (self.new.failing ≡ self.old.failing) }
        ensures within { IfOk result (λ count. count ≤ length piece.now) }
        ensures progress { IfOk result (λ count. 0 < length piece.now → 0 < count) }
        ensures bytes { IfOk result
            (λ count. (held : List ℕ) → Some self.old.bytes ≡ Some held → Some self.new.bytes
            ≡ Some (held ++ take count piece.now)) }
        ensures failed_takes_nothing { OnErr result (Some self.new.bytes ≡ Some self.old.bytes) }
        ensures cause { HasCause self.old.faults self.new.faults result }
        ensures reaches { SinkReaches (moves result) self.old self.new }
    {
        if self.plan.next_call_fails() {
            return Err(self.plan.fail());
        }
        let room_left = self.room - self.bytes.len();
        if room_left == 0 && !piece.is_empty() {
            return Err(self.plan.fail());
        }
        let count = self.piece.min(piece.len()).min(room_left);
        self.bytes.extend_from_slice(&piece[..count]).unwrap();
        Ok(count)
    }
}

/// Output of which only the number of bytes is kept. It takes every byte and never fails, and doesn't tell its bytes.
///
/// A contract sees the number.
#[derive(Drop)]
pub struct CountSink {
    total: u64,
}

impl Model for CountSink {
    ghost use Rattle.std.specs.Prelude.{ℕ, ⊤};

    ghost Value = { ℕ };

    ghost view = { λ s. s.total };

    ghost invariant = { λ _. ⊤ };
}

impl CountSink {
    /// A sink that has taken no byte yet.
    pub fn new() -> CountSink
        ensures none { result ≡ 0 }
    {
        CountSink { total: 0 }
    }

    /// How many bytes it took; the number stands still at 18446744073709551615.
    pub fn total(&self) -> u64
        ensures total { result ≡ self.now }
    {
        self.total
    }
}

impl Device for CountSink {
    ghost faults = { λ _. 0 };

    ghost can_call = { λ _. ⊤ };

    ghost reaches = { Counted };

    ghost stays = { counted_none };

    ghost goes_on = { counted_more };
}

impl Sink for CountSink {
    ghost written = { λ _. None };

    fn write(&mut self, piece: &[u8]) -> Result<usize, Failed>
        ensures takes_all { result ≡ Ok (length piece.now) }
        ensures counted { self.new ≡ min (self.old + length piece.now) (2 ^ 64 - 1) }
        ensures reaches { Counted (moves result) self.old self.new }
    {
        self.total = self.total.saturating_add(piece.len() as u64);
        Ok(piece.len())
    }
}
