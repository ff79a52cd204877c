//! The variables that are live at the start of each block.
ghost use Rattle.std.specs.Prelude.{◌≡◌, ℕ, ◌+◌, ◌*◌, ◌<◌, ◌≤◌, length, IfOk, OnOk};
ghost use Rattle.std.specs.FinSet as fin_set;
ghost use Rattle.std.specs.List.{list_any};
ghost use Rattle.liveness.specs.Graph.{defines, EdgesStayWithin, IsSuccessor};
ghost use Rattle.liveness.specs.Live.{AreLive, has};
ghost use Rattle.liveness.specs.Passes.{exposes, IsPassFrom, IsReady, IsSurveyed, IsVisitOf};

use crate::graph::{Block, BlockBody, Graph, Op, Var};
use entity_set::EntitySet;
use std::alloc::Global;
use std::sync::ledger::Ledger;
use wic_base::{OutOfMemory, Steps};
use wic_vec::TryVec;

/// What is known so far of each block: the variables that it defines, and those that were found live at it. The variables
/// that are live after a block are collected in one set, which each visit uses again.
#[derive(Drop)]
struct Found {
    defined: TryVec<EntitySet<Var>>,
    live: TryVec<EntitySet<Var>>,
    after: EntitySet<Var>,
}

impl Graph {
    /// For each block, in order, the variables that are live there: those for which a path of successors leads from the
    /// block to a use before any definition. For n blocks it counts at most n (n + 1) visits, also if it is refused, which
    /// it is only if an allocation fails. The graph stays in any case.
    ///
    /// A first visit of each block finds what it exposes and what it defines. Then pass follows pass over all blocks, until
    /// one changes no set; each works on whole sets, 64 variables at a time. A pass goes from the last block to the first,
    /// since liveness flows backwards: if blocks are numbered as they are written, only an edge back to an earlier block
    /// needs a further pass, so most graphs take two or three.
    pub fn live_in<L: Ledger>(
        &self,
        alloc: Global,
        steps: &mut Steps<L>,
    ) -> Result<TryVec<EntitySet<Var>>, OutOfMemory>
        ensures live { IfOk result (λ sets. AreLive self.now.blocks sets.items) }
        ensures looks { steps.new
            ≤ steps.old + length self.now.blocks * (length self.now.blocks + 1) }
    {
        let mut found = self.survey(alloc, steps)?;
        while self.pass(&mut found, steps)? {}
        let Found {
            defined: _,
            live,
            after: _,
        } = found;
        Ok(live)
    }

    // A first visit of each block: its set has what it exposes.
    fn survey<L: Ledger>(&self, alloc: Global, steps: &mut Steps<L>) -> Result<Found, OutOfMemory>
        ensures edges { EdgesStayWithin self.now.blocks }
        ensures surveyed { IfOk result (λ found. IsSurveyed self.now.blocks
            (length self.now.blocks) found.defined.items found.live.items) }
        ensures looks { IfOk result (λ _. steps.new ≡ steps.old + length self.now.blocks) }
        ensures no_more { steps.new ≤ steps.old + length self.now.blocks }
    {
        let mut found = Found {
            defined: TryVec::new(alloc),
            live: TryVec::new(alloc),
            after: EntitySet::new(alloc),
        };
        for b in 0..self.blocks() {
            let body = self.look(Block(b as u32), steps);
            let (defined, exposed) = effect_of(alloc, body.ops())?;
            found.defined.push(defined)?;
            found.live.push(exposed)?;
        }
        Ok(found)
    }

    // Visits each block, from the last to the first, and returns whether a set changed.
    fn pass<L: Ledger>(&self, found: &mut Found, steps: &mut Steps<L>) -> Result<bool, OutOfMemory>
        requires { IsReady self.now.blocks found.old.defined.items found.old.live.items }
        ensures ready { OnOk result
            (IsReady self.now.blocks found.new.defined.items found.new.live.items) }
        ensures pass { IfOk result (λ changed.
            IsPassFrom self.now.blocks changed found.old.live.items found.new.live.items 0) }
        ensures looks { IfOk result (λ _. steps.new ≡ steps.old + length self.now.blocks) }
        ensures no_more { steps.new ≤ steps.old + length self.now.blocks }
    {
        let mut changed = false;
        let mut b = self.blocks();
        while b > 0 {
            b -= 1;
            let added = self.visit(Block(b as u32), found, steps)?;
            changed |= added;
        }
        Ok(changed)
    }

    // Puts what the successors of block `b` need and it doesn't define into its set, and returns whether the set changed.
    fn visit<L: Ledger>(
        &self,
        b: Block,
        found: &mut Found,
        steps: &mut Steps<L>,
    ) -> Result<bool, OutOfMemory>
        requires below { b.0 < length self.now.blocks }
        requires ready { IsReady self.now.blocks found.old.defined.items found.old.live.items }
        ensures ready { OnOk result
            (IsReady self.now.blocks found.new.defined.items found.new.live.items) }
        ensures visit { IfOk result (λ added.
            IsVisitOf self.now.blocks added b.0 found.old.live.items found.new.live.items) }
        ensures looks { steps.new ≡ steps.old + 1 }
    {
        let body = self.look(b, steps);
        collect_after(&mut found.after, body, &found.live)?;
        found.after.subtract(&found.defined[b.0 as usize]);
        let added = found.live[b.0 as usize].union_with(&found.after)?;
        Ok(added)
    }
}

// The variables that some ops define, and those that they use before they define them.
fn effect_of(alloc: Global, ops: &[Op]) -> Result<(EntitySet<Var>, EntitySet<Var>), OutOfMemory>
    ensures defined { IfOk result (λ sets. (v : ℕ)
        → fin_set.contains sets.0.members v ≡ defines ops.now v) }
    ensures exposed { IfOk result (λ sets. (v : ℕ)
        → fin_set.contains sets.1.members v ≡ exposes ops.now v) }
{
    let mut defined = EntitySet::new(alloc);
    let mut exposed = EntitySet::new(alloc);
    for op in ops {
        match *op {
            Op::Use(v) => {
                if !defined.contains(v) {
                    exposed.insert(v)?;
                }
            }
            Op::Def(v) => {
                defined.insert(v)?;
            }
        }
    }
    Ok((defined, exposed))
}

// Makes `after` the variables in the sets of a block's successors. It grows only if they don't fit.
fn collect_after(
    after: &mut EntitySet<Var>,
    body: &BlockBody,
    live: &TryVec<EntitySet<Var>>,
) -> Result<(), OutOfMemory>
    requires { (c : ℕ) → IsSuccessor body.now c → c < length live.now.items }
    ensures { OnOk result ((v : ℕ) → fin_set.contains after.new.members v
        ≡ list_any (λ c. has live.now.items v c.0) body.now.1) }
{
    after.clear();
    for c in body.successors() {
        after.union_with(&live[c.0 as usize])?;
    }
    Ok(())
}
