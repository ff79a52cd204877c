//! Copies of tuples, part by part.
use super::TryClone;
use std::alloc::Global;
use wic_base::OutOfMemory;

impl<A: TryClone> TryClone for (A,) {
    ghost same = { λ a b. A.same a.0 b.0 };

    ghost never_refused = { λ a. A.never_refused a.0 };

    fn try_clone(&self, alloc: Global) -> Result<Self, OutOfMemory> {
        let a = self.0.try_clone(alloc)?;
        Ok((a,))
    }
}

impl<A: TryClone, B: TryClone> TryClone for (A, B) {
    ghost same = { λ a b. A.same a.0 b.0 × B.same a.1 b.1 };

    ghost never_refused = { λ a. A.never_refused a.0 × B.never_refused a.1 };

    fn try_clone(&self, alloc: Global) -> Result<Self, OutOfMemory> {
        let a = self.0.try_clone(alloc)?;
        let b = self.1.try_clone(alloc)?;
        Ok((a, b))
    }
}

impl<A: TryClone, B: TryClone, C: TryClone> TryClone for (A, B, C) {
    ghost same = { λ a b. A.same a.0 b.0 × B.same a.1 b.1 × C.same a.2 b.2 };

    ghost never_refused = { λ a. A.never_refused a.0 × B.never_refused a.1 × C.never_refused a.2 };

    fn try_clone(&self, alloc: Global) -> Result<Self, OutOfMemory> {
        let a = self.0.try_clone(alloc)?;
        let b = self.1.try_clone(alloc)?;
        let c = self.2.try_clone(alloc)?;
        Ok((a, b, c))
    }
}

impl<A: TryClone, B: TryClone, C: TryClone, D: TryClone> TryClone for (A, B, C, D) {
    ghost same = { λ a b. A.same a.0 b.0 × B.same a.1 b.1 × C.same a.2 b.2 × D.same a.3 b.3 };

    ghost never_refused = { λ a. A.never_refused a.0 × B.never_refused a.1 × C.never_refused a.2 × D.never_refused a.3 };

    fn try_clone(&self, alloc: Global) -> Result<Self, OutOfMemory> {
        let a = self.0.try_clone(alloc)?;
        let b = self.1.try_clone(alloc)?;
        let c = self.2.try_clone(alloc)?;
        let d = self.3.try_clone(alloc)?;
        Ok((a, b, c, d))
    }
}

impl<A: TryClone, B: TryClone, C: TryClone, D: TryClone, E: TryClone> TryClone for (A, B, C, D, E) {
    ghost same = { λ a b. A.same a.0 b.0 × B.same a.1 b.1 × C.same a.2 b.2 × D.same a.3 b.3 × E.same a.4 b.4 };

    ghost never_refused = { λ a. A.never_refused a.0 × B.never_refused a.1 × C.never_refused a.2
        × D.never_refused a.3 × E.never_refused a.4 };

    fn try_clone(&self, alloc: Global) -> Result<Self, OutOfMemory> {
        let a = self.0.try_clone(alloc)?;
        let b = self.1.try_clone(alloc)?;
        let c = self.2.try_clone(alloc)?;
        let d = self.3.try_clone(alloc)?;
        let e = self.4.try_clone(alloc)?;
        Ok((a, b, c, d, e))
    }
}

impl<A: TryClone, B: TryClone, C: TryClone, D: TryClone, E: TryClone, F: TryClone> TryClone
    for (A, B, C, D, E, F) {
    ghost same = { λ a b. A.same a.0 b.0 × B.same a.1 b.1 × C.same a.2 b.2
        × D.same a.3 b.3 × E.same a.4 b.4 × F.same a.5 b.5 };

    ghost never_refused = { λ a. A.never_refused a.0 × B.never_refused a.1 × C.never_refused a.2
        × D.never_refused a.3 × E.never_refused a.4 × F.never_refused a.5 };

    fn try_clone(&self, alloc: Global) -> Result<Self, OutOfMemory> {
        let a = self.0.try_clone(alloc)?;
        let b = self.1.try_clone(alloc)?;
        let c = self.2.try_clone(alloc)?;
        let d = self.3.try_clone(alloc)?;
        let e = self.4.try_clone(alloc)?;
        let f = self.5.try_clone(alloc)?;
        Ok((a, b, c, d, e, f))
    }
}
