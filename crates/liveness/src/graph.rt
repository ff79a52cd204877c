//! A graph of blocks.
ghost use Rattle.std.specs.Prelude.{◌≡◌, ℕ, ◌+◌, ◌<◌, ◌≤◌, [], ◌∷◌, ◌++◌, length, slice_get};
ghost use Rattle.std.specs.Prelude.{Some, ◌↔◌, IfOk, OnOk, OnErr};
ghost use Rattle.liveness.specs.Graph.{EdgesStayWithin, IsSuccessor, with_op, with_edge, var_of};
ghost use Rattle.liveness.specs.Refusal.{IsFull};
ghost use Rattle.liveness.specs.declared.graph.TheConstants.{MOST_BLOCKS};

use entity_set::EntityRef;
use std::alloc::Global;
use std::marker::Model;
use std::sync::ledger::Ledger;
use wic_base::{OutOfMemory, Steps};
use wic_vec::TryVec;

/// The most blocks that a graph can have.
pub const MOST_BLOCKS: usize = 4294967295;

/// A block by its number: each `u32` is one.
#[derive(Clone, Copy, Debug, PartialEq, Eq, PartialOrd, Ord, Hash)]
pub struct Block(pub u32);

impl EntityRef for Block {
    ghost limit = { 4294967296 };

    ghost number = { λ b. b.0 };

    fn limit() -> usize {
        4294967296
    }

    fn new(index: usize) -> Block {
        Block(index as u32)
    }

    fn index(self) -> usize {
        self.0 as usize
    }
}

/// A variable by its number: each `u32` is one.
#[derive(Clone, Copy, Debug, PartialEq, Eq, PartialOrd, Ord, Hash)]
pub struct Var(pub u32);

impl EntityRef for Var {
    ghost limit = { 4294967296 };

    ghost number = { λ v. v.0 };

    fn limit() -> usize {
        4294967296
    }

    fn new(index: usize) -> Var {
        Var(index as u32)
    }

    fn index(self) -> usize {
        self.0 as usize
    }
}

/// An op of a block.
#[derive(Clone, Copy, Debug, PartialEq, Eq)]
pub enum Op {
    /// Reads the value of the variable.
    Use(Var),
    /// Gives the variable a new value.
    Def(Var),
}

/// Why a block was not added.
#[derive(Debug, Drop)]
pub enum GraphRefusal {
    /// The graph has `MOST_BLOCKS` blocks.
    Full,
    /// An allocation failed.
    Oom(OutOfMemory),
}

impl From<OutOfMemory> for GraphRefusal {
    ghost use Rattle.liveness.specs.declared.graph.GraphRefusal.TheVariants.{Oom};

    ghost from_gives = { λ oom refusal. refusal ≡ Oom oom };

    fn from(oom: OutOfMemory) -> GraphRefusal {
        GraphRefusal::Oom(oom)
    }
}

/// The body of a block: its ops in order, and its successors. A contract sees the pair of both lists.
#[derive(Drop)]
pub struct BlockBody {
    ops: TryVec<Op>,
    successors: TryVec<Block>,
}

impl Model for BlockBody {
    ghost use Rattle.std.specs.Prelude.{List};
    ghost use Rattle.liveness.specs.declared.graph.Block.{Block as Target};
    ghost use Rattle.liveness.specs.declared.graph.Op.{Op as Step};

    ghost Value = { List Step × List Target };

    ghost view = { λ b. (b.ops.items, b.successors.items) };
}

/// A list of blocks, and the number of variables.
///
/// A contract sees both, and each block as the pair of its ops and its successors.
#[derive(Drop)]
pub struct Graph {
    blocks: TryVec<BlockBody>,
    vars: u32,
    alloc: Global,
}

impl Model for Graph {
    ghost use Rattle.std.specs.Prelude.{◌≤◌, length};
    ghost use Rattle.liveness.specs.Graph.{Flow, EdgesStayWithin};
    ghost use Rattle.liveness.specs.declared.graph.TheConstants.{MOST_BLOCKS};

    ghost Value = { Flow };

    ghost view = { λ g. record { blocks = g.blocks.items; vars = g.vars } };

    ghost invariant = { λ g.
        EdgesStayWithin g.blocks.items × (length g.blocks.items ≤ MOST_BLOCKS) };
}

impl BlockBody {
    /// The ops, in order.
    pub fn ops(&self) -> &[Op]
        ensures { result.now ≡ self.now.0 }
    {
        self.ops.as_slice()
    }

    /// The successors, in the order in which the edges were added.
    pub fn successors(&self) -> &[Block]
        ensures { result.now ≡ self.now.1 }
    {
        self.successors.as_slice()
    }

    // Adds an op, the last.
    fn push_op(&mut self, op: Op) -> Result<(), OutOfMemory>
        ensures added { OnOk result (self.new ≡ (self.old.0 ++ op ∷ [], self.old.1)) }
        ensures refusal_leaves { OnErr result (self.new ≡ self.old) }
    {
        self.ops.push(op)
    }

    // Adds a successor, the last.
    fn push_successor(&mut self, to: Block) -> Result<(), OutOfMemory>
        ensures added { OnOk result (self.new ≡ (self.old.0, self.old.1 ++ to ∷ [])) }
        ensures refusal_leaves { OnErr result (self.new ≡ self.old) }
    {
        self.successors.push(to)
    }
}

impl Graph {
    /// The number of blocks, at most `MOST_BLOCKS`. They are the numbers below it, and each successor of a block is one of them.
    pub fn blocks(&self) -> usize
        ensures count { result ≡ length self.now.blocks }
        ensures within { EdgesStayWithin self.now.blocks }
        ensures few { result ≤ MOST_BLOCKS }
    {
        self.blocks.len()
    }

    /// The number of variables. They are the numbers below it.
    pub fn vars(&self) -> u32
        ensures { result ≡ self.now.vars }
    {
        self.vars
    }

    /// The body of block `b`, which is below the number of blocks. It counts one visit.
    pub fn look<L: Ledger>(&self, b: Block, steps: &mut Steps<L>) -> &BlockBody
        requires { b.0 < length self.now.blocks }
        ensures body { slice_get self.now.blocks b.0 ≡ Some result.now }
        ensures edges { (c : ℕ) → IsSuccessor result.now c → c < length self.now.blocks }
        ensures looks { steps.new ≡ steps.old + 1 }
    {
        steps.tick();
        &self.blocks[b.0 as usize]
    }

    /// A graph with no blocks and `vars` variables. It allocates nothing.
    pub fn new(alloc: Global, vars: u32) -> Graph
        ensures blocks { result.blocks ≡ [] }
        ensures vars { result.vars ≡ vars }
    {
        Graph {
            blocks: TryVec::new(alloc),
            vars,
            alloc,
        }
    }

    /// Adds a block, the last, without ops and successors, and returns it. It is refused by `Full` exactly if there are
    /// `MOST_BLOCKS` blocks, before anything is allocated. After a refusal the graph is as before.
    pub fn add_block(&mut self) -> Result<Block, GraphRefusal>
        ensures last { IfOk result (λ b. b.0 ≡ length self.old.blocks) }
        ensures added { OnOk result (self.new.blocks ≡ self.old.blocks ++ ([], []) ∷ []) }
        ensures full { IsFull result ↔ (length self.old.blocks ≡ MOST_BLOCKS) }
        ensures vars { self.new.vars ≡ self.old.vars }
        ensures refusal_leaves { OnErr result (self.new ≡ self.old) }
    {
        let block = self.blocks.len();
        if block == MOST_BLOCKS {
            return Err(GraphRefusal::Full);
        }
        self.blocks.push(BlockBody {
            ops: TryVec::new(self.alloc),
            successors: TryVec::new(self.alloc),
        })?;
        Ok(Block(block as u32))
    }

    /// Adds an op to block `b`, the last there. `b` is below the number of blocks, and the variable below that of variables.
    /// After a refusal the graph is as before.
    pub fn add_op(&mut self, b: Block, op: Op) -> Result<(), OutOfMemory>
        requires block { b.0 < length self.old.blocks }
        requires var { var_of op < self.old.vars }
        ensures added { OnOk result (self.new.blocks ≡ with_op self.old.blocks b.0 op) }
        ensures vars { self.new.vars ≡ self.old.vars }
        ensures refusal_leaves { OnErr result (self.new ≡ self.old) }
    {
        self.blocks[b.0 as usize].push_op(op)
    }

    /// Adds an edge, so that `to` is the last of the successors of `from`. Both are below the number of blocks. After a
    /// refusal the graph is as before.
    pub fn add_edge(&mut self, from: Block, to: Block) -> Result<(), OutOfMemory>
        requires source { from.0 < length self.old.blocks }
        requires target { to.0 < length self.old.blocks }
        ensures added { OnOk result (self.new.blocks ≡ with_edge self.old.blocks from.0 to) }
        ensures vars { self.new.vars ≡ self.old.vars }
        ensures refusal_leaves { OnErr result (self.new ≡ self.old) }
    {
        self.blocks[from.0 as usize].push_successor(to)
    }
}
