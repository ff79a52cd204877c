//! Copies of values that take no memory.
ghost use Rattle.std.specs.Prelude.{⊤, ◌≡◌};

use super::TryClone;
use std::alloc::Global;
use wic_base::OutOfMemory;

impl TryClone for bool {
    ghost same = { λ a b. a ≡ b };

    ghost never_refused = { λ _. ⊤ };

    fn try_clone(&self, _alloc: Global) -> Result<bool, OutOfMemory> {
        Ok(*self)
    }
}

impl TryClone for char {
    ghost same = { λ a b. a ≡ b };

    ghost never_refused = { λ _. ⊤ };

    fn try_clone(&self, _alloc: Global) -> Result<char, OutOfMemory> {
        Ok(*self)
    }
}

impl TryClone for u8 {
    ghost same = { λ a b. a ≡ b };

    ghost never_refused = { λ _. ⊤ };

    fn try_clone(&self, _alloc: Global) -> Result<u8, OutOfMemory> {
        Ok(*self)
    }
}

impl TryClone for u16 {
    ghost same = { λ a b. a ≡ b };

    ghost never_refused = { λ _. ⊤ };

    fn try_clone(&self, _alloc: Global) -> Result<u16, OutOfMemory> {
        Ok(*self)
    }
}

impl TryClone for u32 {
    ghost same = { λ a b. a ≡ b };

    ghost never_refused = { λ _. ⊤ };

    fn try_clone(&self, _alloc: Global) -> Result<u32, OutOfMemory> {
        Ok(*self)
    }
}

impl TryClone for u64 {
    ghost same = { λ a b. a ≡ b };

    ghost never_refused = { λ _. ⊤ };

    fn try_clone(&self, _alloc: Global) -> Result<u64, OutOfMemory> {
        Ok(*self)
    }
}

impl TryClone for u128 {
    ghost same = { λ a b. a ≡ b };

    ghost never_refused = { λ _. ⊤ };

    fn try_clone(&self, _alloc: Global) -> Result<u128, OutOfMemory> {
        Ok(*self)
    }
}

impl TryClone for usize {
    ghost same = { λ a b. a ≡ b };

    ghost never_refused = { λ _. ⊤ };

    fn try_clone(&self, _alloc: Global) -> Result<usize, OutOfMemory> {
        Ok(*self)
    }
}

impl TryClone for i8 {
    ghost same = { λ a b. a ≡ b };

    ghost never_refused = { λ _. ⊤ };

    fn try_clone(&self, _alloc: Global) -> Result<i8, OutOfMemory> {
        Ok(*self)
    }
}

impl TryClone for i16 {
    ghost same = { λ a b. a ≡ b };

    ghost never_refused = { λ _. ⊤ };

    fn try_clone(&self, _alloc: Global) -> Result<i16, OutOfMemory> {
        Ok(*self)
    }
}

impl TryClone for i32 {
    ghost same = { λ a b. a ≡ b };

    ghost never_refused = { λ _. ⊤ };

    fn try_clone(&self, _alloc: Global) -> Result<i32, OutOfMemory> {
        Ok(*self)
    }
}

impl TryClone for i64 {
    ghost same = { λ a b. a ≡ b };

    ghost never_refused = { λ _. ⊤ };

    fn try_clone(&self, _alloc: Global) -> Result<i64, OutOfMemory> {
        Ok(*self)
    }
}

impl TryClone for i128 {
    ghost same = { λ a b. a ≡ b };

    ghost never_refused = { λ _. ⊤ };

    fn try_clone(&self, _alloc: Global) -> Result<i128, OutOfMemory> {
        Ok(*self)
    }
}

impl TryClone for isize {
    ghost same = { λ a b. a ≡ b };

    ghost never_refused = { λ _. ⊤ };

    fn try_clone(&self, _alloc: Global) -> Result<isize, OutOfMemory> {
        Ok(*self)
    }
}

/// A copy refers to the same value.
impl<T> TryClone for &T {
    ghost same = { λ a b. a.now ≡ b.now };

    ghost never_refused = { λ _. ⊤ };

    fn try_clone(&self, _alloc: Global) -> Result<Self, OutOfMemory> {
        Ok(*self)
    }
}
