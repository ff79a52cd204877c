//! Elements that a closure chooses to keep.
ghost use Rattle.std.specs.Prelude.{◌≡◌, ◌≤◌, length};
ghost use Rattle.std.specs.Fn.{CalledAt, CalledAtMut};
ghost use Rattle.wic_vec.specs.ClosureRun.{Retains, RetainsMut};

use super::TryVec;

impl<T: Drop> TryVec<T> {
    /// Keeps the elements at which `f` returns `true`, in order, and drops the others. `f` is called once at each
    /// element, in order. The capacity stays.
    ///
    /// `proofs/ClosureFacts` has what a caller needs of it: `filter_from_retains` when `f` tests the element alone,
    /// `all_from_retains` and `none_from_retains` when it always returns the same.
    #[tactic(auto, using(crate::proofs::ClosureFacts::retains))]
    pub fn retain<F: FnMut(&T) -> bool>(&mut self, f: F)
        requires { F.IsAlwaysCallable f }
        ensures items { Retains (CalledAt F.FnMut) f self.old.items self.new.items }
        ensures no_longer { length self.new.items ≤ length self.old.items }
        ensures within { length self.new.items ≤ self.new.capacity }
        ensures capacity_stays { self.new.capacity ≡ self.old.capacity }
    {
        self.inner.retain(f);
    }

    /// Keeps the elements at which `f` returns `true`, in order and as `f` left them, and drops the others. `f` is
    /// called once at each element, in order. The capacity stays.
    ///
    /// `written_from_retains` of `proofs/ClosureFacts` is for a caller whose `f` writes each element and keeps it.
    #[tactic(auto, using(crate::proofs::ClosureFacts::retains_mut))]
    pub fn retain_mut<F: FnMut(&mut T) -> bool>(&mut self, f: F)
        requires { F.IsAlwaysCallable f }
        ensures items { RetainsMut (CalledAtMut F.FnMut) f self.old.items self.new.items }
        ensures no_longer { length self.new.items ≤ length self.old.items }
        ensures within { length self.new.items ≤ self.new.capacity }
        ensures capacity_stays { self.new.capacity ≡ self.old.capacity }
    {
        self.inner.retain_mut(f);
    }
}
