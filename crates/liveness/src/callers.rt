//! Callers of the analysis, proved from its contracts alone.
ghost use Rattle.std.specs.Prelude.{◌≡◌, ◌+◌, ◌*◌, ◌<◌, ◌≤◌, ◌↔◌, ℕ, true, false, length};
ghost use Rattle.std.specs.Prelude.{IsTrue, IfOk};
ghost use Rattle.liveness.specs.Graph.{block, defines, HasEdge, HasExposedUse};
ghost use Rattle.liveness.specs.Live.{IsLive};

use crate::{Block, Graph, GraphRefusal, Op, Var, law_flow};
use entity_set::{EntityRef, EntitySet};
use std::alloc::Global;
use std::sync::ledger::Ledger;
use wic_base::{OutOfMemory, Steps};
use wic_vec::TryVec;

// Whether the value of `v` at the start of block `b` may still be used: what a register allocator asks first.
pub fn may_be_used<L: Ledger>(
    graph: &Graph,
    alloc: Global,
    b: Block,
    v: Var,
    steps: &mut Steps<L>,
) -> Result<bool, OutOfMemory>
    requires { b.0 < length graph.now.blocks }
    ensures exact { IfOk result (λ live. IsTrue live ↔ IsLive graph.now.blocks v.0 b.0) }
    ensures looks { steps.new
        ≤ steps.old + length graph.now.blocks * (length graph.now.blocks + 1) }
{
    let sets = graph.live_in(alloc, steps)?;
    Ok(sets[b.index()].contains(v))
}

// Whether a variable is live at a block that has no successor and doesn't use it: it isn't, by the flow equation.
pub fn is_used_at_exit<L: Ledger>(
    graph: &Graph,
    alloc: Global,
    b: Block,
    v: Var,
    steps: &mut Steps<L>,
) -> Result<bool, OutOfMemory>
    requires within { b.0 < length graph.now.blocks }
    requires exit { (c : ℕ) → HasEdge graph.now.blocks b.0 c → ⊥ }
    requires unused { HasExposedUse (block graph.now.blocks b.0).0 v.0 → ⊥ }
    ensures { IfOk result (λ live. live ≡ false) }
{
    law_flow();
    may_be_used(graph, alloc, b, v, steps)
}

// Whether a variable is live at a block that defines it and doesn't use it before: it isn't, by the flow equation.
pub fn is_used_before_definition<L: Ledger>(
    graph: &Graph,
    alloc: Global,
    b: Block,
    v: Var,
    steps: &mut Steps<L>,
) -> Result<bool, OutOfMemory>
    requires within { b.0 < length graph.now.blocks }
    requires defined { defines (block graph.now.blocks b.0).0 v.0 ≡ true }
    requires unused { HasExposedUse (block graph.now.blocks b.0).0 v.0 → ⊥ }
    ensures { IfOk result (λ live. live ≡ false) }
{
    law_flow();
    may_be_used(graph, alloc, b, v, steps)
}

// A loop that uses what comes in and defines what goes out.
pub fn loop_of_three(alloc: Global) -> Result<Graph, GraphRefusal>
    ensures { IfOk result (λ graph. length graph.blocks ≡ 3) }
{
    let mut graph = Graph::new(alloc, 2);
    let (a, b, c) = (graph.add_block()?, graph.add_block()?, graph.add_block()?);
    graph.add_edge(a, b)?;
    graph.add_edge(b, b)?;
    graph.add_edge(b, c)?;
    graph.add_op(a, Op::Def(Var(0)))?;
    graph.add_op(b, Op::Use(Var(0)))?;
    graph.add_op(b, Op::Def(Var(1)))?;
    graph.add_op(c, Op::Use(Var(1)))?;
    Ok(graph)
}

// Two blocks that lead to each other, of which the second uses a variable.
pub fn loop_of_two(alloc: Global) -> Result<Graph, GraphRefusal>
    ensures { IfOk result (λ graph. length graph.blocks ≡ 2) }
{
    let mut graph = Graph::new(alloc, 4);
    let (a, b) = (graph.add_block()?, graph.add_block()?);
    graph.add_edge(a, b)?;
    graph.add_edge(b, a)?;
    graph.add_op(b, Op::Use(Var(3)))?;
    Ok(graph)
}

// The live variables of a graph of three blocks, in at most 12 visits.
pub fn live_in_three<L: Ledger>(
    graph: &Graph,
    alloc: Global,
    steps: &mut Steps<L>,
) -> Result<TryVec<EntitySet<Var>>, OutOfMemory>
    requires { length graph.now.blocks ≡ 3 }
    ensures looks { steps.new ≤ steps.old + 12 }
{
    graph.live_in(alloc, steps)
}

// Those of a graph of two blocks, in at most 6 visits.
pub fn live_in_two<L: Ledger>(
    graph: &Graph,
    alloc: Global,
    steps: &mut Steps<L>,
) -> Result<TryVec<EntitySet<Var>>, OutOfMemory>
    requires { length graph.now.blocks ≡ 2 }
    ensures looks { steps.new ≤ steps.old + 6 }
{
    graph.live_in(alloc, steps)
}

// Those of a graph without blocks, in no visit.
pub fn live_in_none<L: Ledger>(
    alloc: Global,
    steps: &mut Steps<L>,
) -> Result<TryVec<EntitySet<Var>>, OutOfMemory>
    ensures looks { steps.new ≤ steps.old }
{
    Graph::new(alloc, 4).live_in(alloc, steps)
}
