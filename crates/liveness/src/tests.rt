//! The worked graphs, and random graphs beside a search along paths.
ghost use Rattle.std.specs.Prelude.{◌≡◌, ◌<◌};

use crate::callers::{
    live_in_none, live_in_three, live_in_two, loop_of_three, loop_of_two, may_be_used,
};
use crate::{Block, Graph, Op, Var};
use entity_set::EntitySet;
use std::alloc::{AllocError, Global};
use std::marker::Brand;
use std::process::Abort;
use std::sync::ledger::{Blank, Ledger};
use std::test::Fail;
use wic_base::{OutOfMemory, Steps};
use wic_vec::TryVec;

// The live variables, counted in a new ledger.
fn live_in<L: Ledger>(
    alloc: Global,
    graph: &Graph,
    blank: Blank,
) -> Result<TryVec<EntitySet<Var>>, OutOfMemory>
    requires name { blank.name ≡ L.name }
    requires parts { blank.parts ≡ L.parts }
    requires some { 0 < L.parts }
{
    let mut steps = Steps::<L>::new(blank);
    graph.live_in(alloc, &mut steps)
}

// Whether a graph has one set for each of these lists, with just its numbers, counted in a new ledger.
fn has_live<L: Ledger>(
    alloc: Global,
    graph: &Graph,
    lists: &[&[u32]],
    blank: Blank,
) -> Result<bool, OutOfMemory>
    requires name { blank.name ≡ L.name }
    requires parts { blank.parts ≡ L.parts }
    requires some { 0 < L.parts }
{
    let mut steps = Steps::<L>::new(blank);
    let sets = match graph.blocks() {
        3 => live_in_three(graph, alloc, &mut steps)?,
        2 => live_in_two(graph, alloc, &mut steps)?,
        _ => live_in_none(alloc, &mut steps)?,
    };
    Ok(are_just(&sets, lists))
}

// Whether the variables of a set have just these numbers, which ascend.
fn has_just(set: &EntitySet<Var>, numbers: &[u32]) -> bool {
    let mut numbers = numbers.iter();
    for var in set {
        if numbers.next() != Some(&var.0) {
            return false;
        }
    }
    numbers.next().is_none()
}

// Whether there is one set for each of these lists, with just its numbers.
fn are_just(sets: &TryVec<EntitySet<Var>>, lists: &[&[u32]]) -> bool {
    let mut lists = lists.iter();
    for set in sets.as_slice() {
        match lists.next() {
            Some(list) => {
                if !has_just(set, list) {
                    return false;
                }
            }
            None => return false,
        }
    }
    lists.next().is_none()
}

#[test]
fn a_loop_uses_what_comes_in_and_defines_what_goes_out(rt: HostRuntime) -> Result<(), Fail> {
    let graph = loop_of_three(rt.alloc())?;
    assert!(rt; has_live::<Brand>(rt.alloc(), &graph, &[&[], &[0], &[1]], Blank::new(1))?);
    Ok(())
}

#[test]
fn a_use_is_seen_round_a_loop(rt: HostRuntime) -> Result<(), Fail> {
    let graph = loop_of_two(rt.alloc())?;
    assert!(rt; has_live::<Brand>(rt.alloc(), &graph, &[&[3], &[3]], Blank::new(1))?);
    Ok(())
}

#[test]
fn a_graph_without_blocks_has_no_sets(rt: HostRuntime) -> Result<(), Fail> {
    let graph = Graph::new(rt.alloc(), 4);
    assert!(rt; has_live::<Brand>(rt.alloc(), &graph, &[], Blank::new(1))?);
    Ok(())
}

// Whether the value of `v` at the start of `b` may be used, counted in a new ledger.
fn used<L: Ledger>(
    alloc: Global,
    graph: &Graph,
    b: Block,
    v: Var,
    blank: Blank,
) -> Result<bool, OutOfMemory>
    requires name { blank.name ≡ L.name }
    requires parts { blank.parts ≡ L.parts }
    requires some { 0 < L.parts }
{
    let mut steps = Steps::<L>::new(blank);
    if (b.0 as usize) < graph.blocks() {
        may_be_used(graph, alloc, b, v, &mut steps)
    } else {
        Ok(false)
    }
}

#[test]
fn a_caller_asks_for_one_variable(rt: HostRuntime) -> Result<(), Fail> {
    let mut graph = Graph::new(rt.alloc(), 2);
    let a = graph.add_block()?;
    graph.add_op(a, Op::Use(Var(1)))?;
    assert!(rt; used::<Brand>(rt.alloc(), &graph, a, Var(1), Blank::new(1))?);
    assert!(rt; !used::<Brand>(rt.alloc(), &graph, a, Var(0), Blank::new(1))?);
    Ok(())
}

// How many blocks and variables a random graph has.
const BLOCKS: u32 = 7;

const VARS: u32 = 3;

// A graph as two lists: each op with its block, and each edge.
#[derive(Drop)]
struct Plain {
    ops: Vec<(u32, Op)>,
    edges: Vec<(u32, u32)>,
}

// The next number of a plain generator of random numbers.
fn random(seed: u64) -> u64 {
    seed.wrapping_mul(6364136223846793005)
        .wrapping_add(1442695040888963407)
}

// A number below `n`, by the next draw.
fn draw(seed: &mut u64, n: u32) -> u32
    requires { 0 < n }
    ensures { result < n }
{
    *seed = random(*seed);
    (*seed >> 33) as u32 % n
}

// Eight ops and nine edges.
fn random_graph(alloc: Global, seed: &mut u64) -> Result<Plain, AllocError> {
    let mut plain = Plain {
        ops: Vec::new(alloc),
        edges: Vec::new(alloc),
    };
    for _ in 0..8 {
        let block = draw(seed, BLOCKS);
        let var = Var(draw(seed, VARS));
        let op = if draw(seed, 2) == 0 {
            Op::Use(var)
        } else {
            Op::Def(var)
        };
        plain.ops.push((block, op))?;
    }
    for _ in 0..9 {
        plain.edges.push((draw(seed, BLOCKS), draw(seed, BLOCKS)))?;
    }
    Ok(plain)
}

// Adds an op, if there are such a block and such a variable.
fn add(graph: &mut Graph, b: u32, op: Op) -> Result<(), OutOfMemory> {
    if (b as usize) < graph.blocks() {
        match op {
            Op::Use(v) => {
                if v.0 < graph.vars() {
                    graph.add_op(Block(b), Op::Use(v))?;
                }
            }
            Op::Def(v) => {
                if v.0 < graph.vars() {
                    graph.add_op(Block(b), Op::Def(v))?;
                }
            }
        }
    }
    Ok(())
}

// Adds an edge, if there are such blocks.
fn connect(graph: &mut Graph, from: u32, to: u32) -> Result<(), OutOfMemory> {
    if (from as usize) < graph.blocks() && (to as usize) < graph.blocks() {
        graph.add_edge(Block(from), Block(to))?;
    }
    Ok(())
}

fn graph_of(alloc: Global, plain: &Plain) -> Result<Graph, Fail> {
    let mut graph = Graph::new(alloc, VARS);
    for _ in 0..BLOCKS {
        graph.add_block()?;
    }
    for (b, op) in &plain.ops {
        add(&mut graph, *b, *op)?;
    }
    for (from, to) in &plain.edges {
        connect(&mut graph, *from, *to)?;
    }
    Ok(graph)
}

// Whether block `b` uses `v` before it defines it.
fn exposes(plain: &Plain, b: u32, v: Var) -> bool {
    for (block, op) in &plain.ops {
        if *block == b && *op == Op::Use(v) {
            return true;
        }
        if *block == b && *op == Op::Def(v) {
            return false;
        }
    }
    false
}

// Whether block `b` defines `v`.
fn defines(plain: &Plain, b: u32, v: Var) -> bool {
    for (block, op) in &plain.ops {
        if *block == b && *op == Op::Def(v) {
            return true;
        }
    }
    false
}

// Puts the blocks in that an edge leads to from a block that is in and doesn't define `v`.
fn go_on(plain: &Plain, v: Var, reached: &mut [bool]) {
    for (from, to) in &plain.edges {
        let goes_on = match reached.get(*from as usize) {
            Some(there) => *there && !defines(plain, *from, v),
            None => false,
        };
        if let Some(place) = reached.get_mut(*to as usize) {
            *place = *place || goes_on;
        }
    }
}

// Whether a path from `b` leads to a use of `v`, by a search along all paths.
fn search(alloc: Global, plain: &Plain, b: u32, v: Var) -> Result<bool, AllocError> {
    let mut reached = vec![in alloc; false; BLOCKS as usize]?;
    if let Some(place) = reached.get_mut(b as usize) {
        *place = true;
    }
    for _ in 0..BLOCKS {
        go_on(plain, v, &mut reached);
    }
    for c in 0..BLOCKS {
        if reached.get(c as usize) == Some(&true) && exposes(plain, c, v) {
            return Ok(true);
        }
    }
    Ok(false)
}

// The variables that the search finds at `b` are those of the set.
fn matches_search(
    rt: &impl Abort,
    alloc: Global,
    plain: &Plain,
    b: u32,
    set: &EntitySet<Var>,
) -> Result<(), Fail> {
    for v in 0..VARS {
        assert_eq!(rt; set.contains(Var(v)), search(alloc, plain, b, Var(v))?);
    }
    Ok(())
}

#[test]
fn random_graphs_have_the_live_variables_of_a_search(rt: HostRuntime) -> Result<(), Fail> {
    let alloc = rt.alloc();
    let mut seed = 1;
    for _ in 0..500 {
        let plain = random_graph(alloc, &mut seed)?;
        let graph = graph_of(alloc, &plain)?;
        let sets = live_in::<Brand>(alloc, &graph, Blank::new(1))?;
        assert_eq!(rt; sets.len(), BLOCKS as usize);
        for (b, set) in sets.as_slice().iter().enumerate() {
            matches_search(&rt, alloc, &plain, b as u32, set)?;
        }
    }
    Ok(())
}
