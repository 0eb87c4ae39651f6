//! The lowest node that lies on a cycle.
ghost use Rattle.std.specs.Prelude.{◌≡◌, ◌<◌, ◌≤◌, ℕ, length, map, get_or, IfOk, OnOk, MatchOption, true, false};
ghost use Rattle.rr_sort.specs.Graphs.{names_of, IsGraph, CycleFrom, OnCycle, IsLowestCycle};
ghost use Rattle.rr_sort.specs.Walks.{IsReached, IsOff};

use crate::rows::reversed;
use crate::walk::{next_name, push_node};
use std::alloc::{AllocError, Global};

/// A cycle from the lowest node that lies on one, where some node does.
pub(crate) fn lowest_cycle(alloc: Global, graph: &[Vec<usize>]) -> Result<Vec<usize>, AllocError>
    requires graph { IsGraph (map names_of graph.now) }
    requires some { (v : ℕ) × OnCycle (map names_of graph.now) v }
    ensures { IfOk result (λ c. IsLowestCycle (map names_of graph.now) c.items) }
{
    let off = off_cycles(alloc, graph)?;
    for node in 0..graph.len() {
        if !off[node] {
            match cycle_through(alloc, graph, node)? {
                Some(cycle) => return Ok(cycle),
                None => {}
            }
        }
    }
    Ok(Vec::new(alloc))
}

/// A cycle through a node, from it on, where there is one.
fn cycle_through(
    alloc: Global,
    graph: &[Vec<usize>],
    start: usize,
) -> Result<Option<Vec<usize>>, AllocError>
    requires graph { IsGraph (map names_of graph.now) }
    requires start { start < length graph.now }
    ensures { IfOk result (λ r. MatchOption r (OnCycle (map names_of graph.now) start → ⊥) (λ c. CycleFrom (map names_of graph.now) start c.items)) }
{
    let mut reached = vec![in alloc; false; graph.len()]?;
    let mut seen = vec![in alloc; 0; graph.len()]?;
    let mut stack = Vec::new(alloc);
    push_node(&mut stack, start)?;
    'down: while stack.len() > 0 {
        let last = stack.len() - 1;
        let top = stack[last];
        match next_name(graph, top, &mut seen, &reached) {
            Some(name) => {
                if name == start {
                    return Ok(Some(stack));
                }
                reached[name] = true;
                push_node(&mut stack, name)?;
            }
            None => stack.truncate(last),
        }
    }
    Ok(None)
}

/// What searches reached; of each node how many of its names have been looked at; and the nodes in the
/// order in which they were left.
#[derive(Drop)]
struct Reached {
    reached: Vec<bool>,
    seen: Vec<usize>,
    order: Vec<usize>,
}

/// Nothing reached yet.
fn dry(alloc: Global, graph: &[Vec<usize>]) -> Result<Reached, AllocError>
    ensures { IfOk result (λ f. IsReached (map names_of graph.now) f.reached.items f.seen.items f.order.items) }
{
    Ok(Reached {
        reached: vec![in alloc; false; graph.len()]?,
        seen: vec![in alloc; 0; graph.len()]?,
        order: Vec::new(alloc),
    })
}

/// Reaches all that a node leads to, where what was reached before is not reached again.
fn flood(
    alloc: Global,
    graph: &[Vec<usize>],
    start: usize,
    reached: &mut Reached,
) -> Result<(), AllocError>
    requires graph { IsGraph (map names_of graph.now) }
    requires start { start < length graph.now }
    requires reached { IsReached (map names_of graph.now) reached.old.reached.items reached.old.seen.items reached.old.order.items }
    ensures { OnOk result (IsReached (map names_of graph.now) reached.new.reached.items reached.new.seen.items reached.new.order.items) }
{
    let mut stack = Vec::new(alloc);
    push_node(&mut stack, start)?;
    reached.reached[start] = true;
    'down: while stack.len() > 0 {
        let last = stack.len() - 1;
        let top = stack[last];
        match next_name(graph, top, &mut reached.seen, &reached.reached) {
            Some(name) => {
                reached.reached[name] = true;
                push_node(&mut stack, name)?;
            }
            None => {
                push_node(&mut reached.order, top)?;
                stack.truncate(last);
            }
        }
    }
    Ok(())
}

/// All nodes in the order in which searches leave them.
fn leaving(alloc: Global, graph: &[Vec<usize>]) -> Result<Vec<usize>, AllocError>
    requires { IsGraph (map names_of graph.now) }
    ensures { IfOk result (λ r. (i : ℕ) → i < length r.items → get_or r.items i 0 < length graph.now) }
{
    let mut reached = dry(alloc, graph)?;
    for node in 0..graph.len() {
        if !reached.reached[node] {
            flood(alloc, graph, node, &mut reached)?;
        }
    }
    Ok(reached.order)
}

/// Marks nodes that lie on no cycle: all of them, since a search over the reversed graph leaves last,
/// of nodes that lead to each other, one from which a search reaches just these and what was reached
/// before (Kosaraju). So a node that then names only what was reached before lies on no cycle.
fn off_cycles(alloc: Global, graph: &[Vec<usize>]) -> Result<Vec<bool>, AllocError>
    requires { IsGraph (map names_of graph.now) }
    ensures { IfOk result (λ r. IsOff (map names_of graph.now) r.items) }
{
    let back = reversed(alloc, graph)?;
    let order = leaving(alloc, back.as_slice())?;
    let mut off = vec![in alloc; false; graph.len()]?;
    let mut reached = dry(alloc, graph)?;
    for at in 0..order.len() {
        let node = order[order.len() - 1 - at];
        if !reached.reached[node] {
            mark_off(alloc, graph, node, &mut reached, &mut off)?;
        }
    }
    Ok(off)
}

/// Marks a node, not reached yet, that names only what was reached, and reaches all that it leads to.
fn mark_off(
    alloc: Global,
    graph: &[Vec<usize>],
    node: usize,
    reached: &mut Reached,
    off: &mut Vec<bool>,
) -> Result<(), AllocError>
    requires graph { IsGraph (map names_of graph.now) }
    requires node { node < length graph.now }
    requires fresh { get_or reached.old.reached.items node false ≡ false }
    requires reached { IsReached (map names_of graph.now) reached.old.reached.items reached.old.seen.items reached.old.order.items }
    requires off { IsOff (map names_of graph.now) off.old.items }
    ensures reached { OnOk result (IsReached (map names_of graph.now) reached.new.reached.items reached.new.seen.items reached.new.order.items) }
    ensures off { OnOk result (IsOff (map names_of graph.now) off.new.items) }
{
    match next_name(graph, node, &mut reached.seen, &reached.reached) {
        Some(_) => flood(alloc, graph, node, reached),
        None => {
            reached.reached[node] = true;
            off[node] = true;
            Ok(())
        }
    }
}
