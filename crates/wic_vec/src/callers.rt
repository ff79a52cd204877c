//! Callers of vectors, proved from their contracts alone.
ghost use Rattle.std.specs.Prelude.{◌≡◌, ◌≤◌, ◌-◌, ◌∷◌, [], ◌++◌, ◌==◌, ◌%◌, filter, map, replicate, take, length};
ghost use Rattle.std.specs.Prelude.{slice_index, string_capacity, codes, EachIndex, IfOk, OnOk, OnErr};
ghost use Rattle.std.specs.Fmt.{decimal};

use crate::{TryString, TryVec};
use wic_base::OutOfMemory;

// Both numbers or neither: the memory is asked for before the first one is put there.
pub fn push_both(v: &mut TryVec<u32>, first: u32, second: u32) -> Result<(), OutOfMemory>
    ensures both { OnOk result (v.new.items ≡ v.old.items ++ first ∷ second ∷ []) }
    ensures refusal_leaves { OnErr result (v.new ≡ v.old) }
{
    v.reserve(2)?;
    v.push_reserved(first);
    v.push_reserved(second);
    Ok(())
}

// What a closure returns decides what stays.
pub fn keep_even(v: &mut TryVec<u32>)
    ensures even { v.new.items ≡ filter (λ number. number % 2 == 0) v.old.items }
{
    v.retain(|number| *number % 2 == 0);
}

// What a loop writes is what each element then is.
pub fn write_everywhere(v: &mut TryVec<u32>, number: u32)
    ensures each { EachIndex v.new.items (λ k. slice_index v.new.items k ≡ number) }
    ensures length { length v.new.items ≡ length v.old.items }
    ensures capacity { v.new.capacity ≡ v.old.capacity }
{
    for element in v.iter_mut() {
        *element = number;
    }
}

// A closure that always returns the same keeps all, or none.
pub fn keep_all(v: &mut TryVec<u32>)
    ensures all { v.new.items ≡ v.old.items }
{
    v.retain(|_| true);
}

pub fn keep_none(v: &mut TryVec<u32>)
    ensures none { v.new.items ≡ [] }
{
    v.retain(|_| false);
}

// What a closure writes is what each element then is.
pub fn overwrite(v: &mut TryVec<u32>, number: u32)
    ensures each { v.new.items ≡ map (λ _. number) v.old.items }
{
    v.retain_mut(|element| {
        *element = number;
        true
    });
}

// A closure that always returns one number fills up with it.
pub fn fill_up(v: &mut TryVec<u32>, len: usize, number: u32) -> Result<(), OutOfMemory>
    ensures filled { OnOk result (v.new.items
        ≡ take len v.old.items ++ replicate (len - length v.old.items) number) }
{
    v.resize_with(len, || number)
}

// Dropping elements leaves no more of them.
pub fn keep_fewer(v: &mut TryVec<u32>, most: u32)
    ensures no_longer { length v.new.items ≤ length v.old.items }
{
    v.retain(|number| *number <= most);
}

// The length that was asked for.
pub fn counted(v: &mut TryVec<u32>, len: usize) -> Result<(), OutOfMemory>
    ensures length { OnOk result (length v.new.items ≡ len) }
{
    v.resize_with(len, || 7)
}

// What was written fits, as each call that writes says.
pub fn push_two(v: &mut TryVec<u32>, first: u32, second: u32) -> Result<(), OutOfMemory>
    ensures fits { length v.new.items ≤ v.new.capacity }
{
    v.push(first)?;
    v.push(second)
}

// A text keeps the room of the `String` that it is made of, so what fits there is never refused.
pub fn end_line(line: String) -> Result<TryString, OutOfMemory>
    ensures room { IfOk result (λ text. string_capacity line ≤ text.capacity) }
{
    let mut text = TryString::from_string(line);
    text.push_str("\n")?;
    Ok(text)
}

// A line of a word and a number.
pub fn tell_count(text: &mut TryString, count: u64) -> Result<(), OutOfMemory>
    ensures line { OnOk result (text.new.bytes
        ≡ text.old.bytes ++ codes "count " ++ decimal count ++ codes "\n") }
    ensures refusal_leaves { OnErr result (text.new ≡ text.old) }
{
    text.push_number("count ", count)
}
