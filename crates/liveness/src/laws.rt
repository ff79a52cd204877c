//! A law of the definitions that the contracts of the analysis cite. A call has no effect at run time.
ghost use Rattle.std.specs.Prelude.{◌↔◌, ℕ, List};
ghost use Rattle.liveness.specs.Graph.{Body};
ghost use Rattle.liveness.specs.Live.{FlowsInto, IsLive};

/// A variable is live at a block exactly if it is used there before any definition, or isn't defined there and is live at a
/// successor.
pub fn law_flow()
    ensures { (graph : List Body) (v b : ℕ) → (IsLive graph v b ↔ FlowsInto graph v b) }
{}
