//! A value under guard: it is committed or rolled back.
ghost use Rattle.std.specs.Prelude.{◌≡◌};
ghost use Rattle.std.specs.Borrow.{sem};

/// Guards a value together with the function that undoes what is done to it.
///
/// A guard is no `Drop`: it must be spent, by `commit` or by `roll_back`, on every way out of the function that holds it.
/// Neither can be refused, and no call of a guard allocates. What the function needs of the value stands in the
/// invariant of the value's type.
///
/// A contract sees the held value, `inner`, and the function, `undo`. A port of `wasmtime_internal_core::undo::Undo`, which
/// calls its function when it is dropped without having been committed.
///
/// A counter that is put back when one of its steps is refused: `inc_n` in `src/callers.rt`, proved from these contracts.
pub struct Undo<T, F, R>
where
    F: FnOnce(T) -> R,
{
    inner: T,
    undo: F,
}

impl<T, F, R> Undo<T, F, R>
where
    F: FnOnce(T) -> R,
{
    ghost use Rattle.wic_base.specs.Lends.{lends_inner};

    /// Holds `inner`. The function may be called on every value.
    pub fn new(inner: T, undo: F) -> Undo<T, F, R>
        requires { F.IsAlwaysCallable undo }
        ensures holds { result.inner ≡ inner }
        ensures function { result.undo ≡ undo }
        ensures callable { F.IsAlwaysCallable result.undo }
    {
        Undo { inner, undo }
    }

    /// The held value.
    pub fn get(&self) -> &T
        ensures held { result.now ≡ self.now.inner }
    {
        &self.inner
    }

    /// The held value, to be read and written. What is written is held, and the function stays.
    pub fn get_mut(&mut self) -> &mut T
        ensures* writes_back { sem 𝓛 (lends_inner T.row F.row R.row self.entry result) }
        ensures held { result.now ≡ self.old.inner }
    {
        &mut self.inner
    }

    /// The held value. The function is dropped, and never called.
    pub fn commit(guard: Undo<T, F, R>) -> T
    where
        F: Drop,
        ensures held { result ≡ guard.inner }
    {
        let Undo { inner, undo: _ } = guard;
        inner
    }

    /// What the function returns on the held value. It must be callable, as it was when the guard was made.
    ///
    /// In the Rust crate a guard that isn't committed calls its function when it is dropped.
    pub fn roll_back(guard: Undo<T, F, R>) -> R
        requires { F.IsAlwaysCallable guard.undo }
        ensures answer { F.post guard.undo guard.inner result }
    {
        let Undo { inner, undo } = guard;
        undo(inner)
    }
}
