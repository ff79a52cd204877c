//! Calls of the program that the tests share.
use batch_script::{MemSink, MemSource, Status, top};
use std::alloc::Global;
use wic_base::OutOfMemory;
use wic_vec::{TryString, TryVec};

/// What a call of the program came to: its status and the sink.
#[derive(Drop)]
pub struct Answer {
    pub status: Status,
    pub sink: MemSink,
}

/// A new vector with these elements.
pub fn vector_of<T: Copy>(alloc: Global, elements: &[T]) -> Result<TryVec<T>, OutOfMemory> {
    let mut all = TryVec::new(alloc);
    all.extend_from_slice(elements)?;
    Ok(all)
}

/// Runs the program on an input, into a sink that has room for all replies of the tests. No read and no write fails.
pub fn run_program(alloc: Global, words: &[&str], input: &[u8]) -> Result<Answer, OutOfMemory> {
    run_in_room(alloc, 2000, words, input, &[], &[])
}

/// Runs the program on an input that comes in pieces of four bytes, into a sink of this room that takes three at a time. The
/// reads and writes with these numbers fail.
pub fn run_in_room(
    alloc: Global,
    room: usize,
    words: &[&str],
    input: &[u8],
    failing_reads: &[u64],
    failing_writes: &[u64],
) -> Result<Answer, OutOfMemory> {
    let mut given = TryVec::new(alloc);
    for word in words {
        given.push(TryString::try_from_str(alloc, word)?)?;
    }
    let mut source = MemSource::new(
        vector_of(alloc, input)?,
        4,
        vector_of(alloc, failing_reads)?,
    );
    let mut sink = MemSink::new(alloc, room, 3, vector_of(alloc, failing_writes)?)?;
    let status = top(alloc, &given, &mut source, &mut sink);
    Ok(Answer { status, sink })
}
