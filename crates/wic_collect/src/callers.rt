//! Callers of collecting and of cows, proved from their contracts alone.
ghost use Rattle.std.specs.Prelude.{◌≡◌, ◌⊎◌, ◌++◌, ◌+◌, ◌-◌, ◌*◌, ◌/◌, ◌<◌, ◌≤◌, ℕ, codes, length, map, reverse, min};
ghost use Rattle.std.specs.Prelude.{nat_lt, IsOk, IfOk, IfErr, OnOk, OnErr};
ghost use Rattle.std.specs.List.{filter, range_with_len, slice_index_or};
ghost use Rattle.wic_collect.specs.declared.callers.Refusal.TheVariants.{Oom, Number};
ghost use Rattle.wic_collect.specs.Cow.{cow_bytes};
ghost use Rattle.wic_collect.specs.Errors.{OnTooFewItems, OnIterError};

use crate::{
    BoxedSlice, BoxedSliceBuilder, BoxedSliceFromFallibleIterError, TooFewItems, TooFewItemsOrOom,
    TryCowStr, TryExtend, boxed_slice_write_iter, new_boxed_slice_from_fallible_iter,
    new_boxed_slice_from_iter, new_boxed_slice_from_iter_with_len, try_collect,
};
use std::alloc::Global;
use wic_base::OutOfMemory;
use wic_vec::TryVec;

// What is written through a cow is what it then has, and a refusal leaves its text.
pub fn shout(cow: &mut TryCowStr<'_>, alloc: Global) -> Result<(), OutOfMemory>
    ensures longer { OnOk result (cow_bytes cow.new ≡ cow_bytes cow.old ++ codes "!") }
    ensures refusal_leaves { OnErr result (cow_bytes cow.new ≡ cow_bytes cow.old) }
{
    cow.to_mut(alloc)?.push_str("!")
}

// A slice of a vector's elements has exactly these.
pub fn boxed(alloc: Global, numbers: TryVec<u32>) -> Result<BoxedSlice<u32>, OutOfMemory>
    ensures items { IfOk result (λ s. s ≡ numbers.items) }
{
    new_boxed_slice_from_iter(alloc, numbers)
}

// Half of each number, by `map`.
pub fn halves(alloc: Global, numbers: &[u32]) -> Result<TryVec<u32>, OutOfMemory>
    ensures items { IfOk result (λ v. v.items ≡ map (λ x. x / 2) numbers.now) }
{
    try_collect(alloc, numbers.iter().map(|x| *x / 2))
}

// The numbers below ten, by `filter`.
pub fn digits(alloc: Global, numbers: &[u32]) -> Result<BoxedSlice<u32>, OutOfMemory>
    ensures items { IfOk result (λ s. s ≡ filter (λ x. nat_lt x 10) numbers.now) }
{
    try_collect(alloc, numbers.iter().copied().filter(|x| *x < 10))
}

// The first numbers, by `take`.
pub fn first_few(alloc: Global, numbers: &[u32], count: usize) -> Result<TryVec<u32>, OutOfMemory>
    ensures length { IfOk result (λ v. length v.items ≡ min count (length numbers.now)) }
    ensures items { IfOk result (λ v. (k : ℕ) → k < length v.items
        → slice_index_or v.items k 0 ≡ slice_index_or numbers.now k 0) }
{
    try_collect(alloc, numbers.iter().copied().take(count))
}

// The numbers of two slices side by side, by `zip`.
pub fn pairs(alloc: Global, xs: &[u32], ys: &[u32]) -> Result<BoxedSlice<(u32, u32)>, OutOfMemory>
    ensures length { IfOk result (λ s. length s ≡ min (length xs.now) (length ys.now)) }
    ensures items { IfOk result (λ s. (k : ℕ) → k < length s
        → slice_index_or s k (0, 0) ≡ (slice_index_or xs.now k 0, slice_index_or ys.now k 0)) }
{
    new_boxed_slice_from_iter(alloc, xs.iter().copied().zip(ys.iter().copied()))
}

// Each number with its place, by `enumerate`.
pub fn numbered(alloc: Global, numbers: &[u32]) -> Result<TryVec<(usize, u32)>, OutOfMemory>
    ensures length { IfOk result (λ v. length v.items ≡ length numbers.now) }
    ensures items { IfOk result (λ v. (k : ℕ) → k < length numbers.now
        → slice_index_or v.items k (0, 0) ≡ (k, slice_index_or numbers.now k 0)) }
{
    try_collect(alloc, numbers.iter().copied().enumerate())
}

// The numbers from the last to the first, by `rev`.
pub fn turned(alloc: Global, numbers: &[u32]) -> Result<BoxedSlice<u32>, OutOfMemory>
    ensures items { IfOk result (λ s. s ≡ reverse numbers.now) }
{
    new_boxed_slice_from_iter(alloc, numbers.iter().copied().rev())
}

// The numbers of two slices one after the other, by `chain`.
pub fn joined(alloc: Global, xs: &[u32], ys: &[u32]) -> Result<TryVec<u32>, OutOfMemory>
    ensures items { IfOk result (λ v. v.items ≡ xs.now ++ ys.now) }
{
    try_collect(alloc, xs.iter().copied().chain(ys.iter().copied()))
}

// The numbers from 0 to below `n`, from a range.
pub fn counted(alloc: Global, n: usize) -> Result<TryVec<usize>, OutOfMemory>
    ensures items { IfOk result (λ v. v.items ≡ range_with_len 0 n) }
    ensures length { IfOk result (λ v. length v.items ≡ n) }
{
    try_collect(alloc, 0..n)
}

// Twice each of the numbers from `lo` to below `hi`, from a range through `map`.
pub fn doubled(alloc: Global, lo: u8, hi: u8) -> Result<BoxedSlice<u32>, OutOfMemory>
    ensures items { IfOk result (λ s. s ≡ map (λ x. x * 2) (range_with_len lo (hi - lo))) }
{
    try_collect(alloc, (lo..hi).map(|x| x as u32 * 2))
}

// Halves at the end of a vector. Never refused if there is room for all; a refusal leaves the elements.
pub fn extended(v: &mut TryVec<u32>, numbers: &[u32]) -> Result<(), OutOfMemory>
    ensures items { OnOk result (v.new.items ≡ v.old.items ++ map (λ x. x / 2) numbers.now) }
    ensures never_refused_within { length v.old.items + length numbers.now ≤ v.old.capacity
        → IsOk result }
    ensures room { v.old.capacity ≤ v.new.capacity }
    ensures some_missing { OnErr result (length v.new.items
        < length v.old.items + length numbers.now) }
    ensures refusal_leaves { OnErr result ((k : ℕ) → k < length v.old.items
        → slice_index_or v.new.items k 0 ≡ slice_index_or v.old.items k 0) }
{
    v.try_extend(numbers.iter().map(|x| *x / 2))
}

// The first three numbers; there are too few only if there are less than three.
pub fn first_three(alloc: Global, numbers: &[u32]) -> Result<BoxedSlice<u32>, TooFewItemsOrOom>
    ensures length { IfOk result (λ s. length s ≡ 3) }
    ensures items { IfOk result (λ s. (k : ℕ) → k < 3
        → slice_index_or s k 0 ≡ slice_index_or numbers.now k 0) }
    ensures too_few { IfErr result (OnTooFewItems (length numbers.now < 3)) }
{
    new_boxed_slice_from_iter_with_len(alloc, 3, numbers.iter().copied())
}

// A builder that is filled with last digits; never refused if there are enough.
pub fn filled_up(
    builder: BoxedSliceBuilder<u32>,
    numbers: &[u32],
) -> Result<BoxedSlice<u32>, TooFewItems>
    ensures enough { builder.capacity ≤ length builder.items + length numbers.now → IsOk result }
    ensures digits { IfOk result (λ s. (k : ℕ) → length builder.items ≤ k → k < length s
        → slice_index_or s k 0 < 10) }
{
    boxed_slice_write_iter(builder, numbers.iter().map(|x| *x % 10))
}

// A slice of no items needs nothing of its iterator, and is never refused.
pub fn of_none<I: Iterator<Item = u32>>(
    alloc: Global,
    iter: I,
) -> Result<BoxedSlice<u32>, TooFewItemsOrOom>
    ensures length { IfOk result (λ s. length s ≡ 0) }
    ensures never_refused { IsOk result }
{
    new_boxed_slice_from_iter_with_len(alloc, 0, iter)
}

// All numbers if they are digits, and else one that isn't.
pub fn all_digits(
    alloc: Global,
    numbers: &[u32],
) -> Result<BoxedSlice<u32>, BoxedSliceFromFallibleIterError<u32>>
    ensures length { IfOk result (λ s. length s ≡ length numbers.now) }
    ensures items { IfOk result (λ s. (k : ℕ) → k < length numbers.now
        → slice_index_or s k 0 ≡ slice_index_or numbers.now k 0) }
    ensures digits { IfOk result (λ s. (k : ℕ) → k < length s → slice_index_or s k 0 < 10) }
    ensures error { IfErr result (OnIterError (λ e. 10 ≤ e)) }
    ensures error_is_one { IfErr result (OnIterError (λ e. (i : ℕ) × (i < length numbers.now)
        × (e ≡ slice_index_or numbers.now i 0))) }
{
    new_boxed_slice_from_fallible_iter(
        alloc,
        numbers
            .iter()
            .map(|x| if *x < 10 { Ok(*x) } else { Err(*x) }),
    )
}

// Why numbers are not collected.
#[derive(Debug, Drop, PartialEq)]
pub enum Refusal {
    Oom,
    Number(u32),
}

impl From<OutOfMemory> for Refusal {
    ghost use Rattle.wic_collect.specs.declared.callers.Refusal.TheVariants.{Oom};

    ghost from_gives = { λ _ refusal. refusal ≡ Oom };

    fn from(_: OutOfMemory) -> Refusal {
        Refusal::Oom
    }
}

// The same, with an error of its own: only out of memory refuses digits.
pub fn digits_only(alloc: Global, numbers: &[u32]) -> Result<TryVec<u32>, Refusal>
    ensures length { IfOk result (λ v. length v.items ≡ length numbers.now) }
    ensures items { IfOk result (λ v. (k : ℕ) → k < length numbers.now
        → slice_index_or v.items k 0 ≡ slice_index_or numbers.now k 0) }
    ensures error_is_one { IfErr result (λ e. (e ≡ Oom) ⊎ ((i : ℕ) × (i < length numbers.now)
        × (e ≡ Number (slice_index_or numbers.now i 0)))) }
    ensures digits { ((k : ℕ) → k < length numbers.now → slice_index_or numbers.now k 0 < 10)
        → IfErr result (λ e. e ≡ Oom) }
{
    try_collect(
        alloc,
        numbers.iter().map(|x| if *x < 10 {
            Ok(*x)
        } else {
            Err(Refusal::Number(*x))
        }),
    )
}
