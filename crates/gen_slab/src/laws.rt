//! The law of stale handles. It speaks of the definitions that the contracts cite, and does nothing.
ghost use Rattle.gen_slab.specs.Runs.{StaleStaysStale};

/// Over every run from an empty slab with any count, a handle for which `dealloc` returned a value is live in no later state.
/// The contracts of `alloc`, `dealloc` and `get_mut` tie its steps to the calls. A function that is lent a slab, and so doesn't
/// know its run, has the same from their clauses: `dealloc` makes its handle gone (`IsGone`), and each call keeps what is gone.
pub fn law_stale<T>()
    ensures { StaleStaysStale T }
{}
