//! The way down from a node to all that it names.
ghost use Rattle.std.specs.Prelude.{◌≡◌, ◌<◌, ◌≤◌, ◌++◌, ◌∷◌, [], ℕ, length, map, get_or, IfOk, OnOk, MatchOption, true, false};
ghost use Rattle.rr_sort.specs.Graphs.{names_of, Names, IsGraph, OnCycle};
ghost use Rattle.rr_sort.specs.Walks.{Either, IsBetween, IsSeen, Spent, Grown};

use std::alloc::{AllocError, Global};

/// The order so far; of each node whether it is placed in it, how many of its names have been looked
/// at, and whether it stands on the way down.
#[derive(Drop)]
pub(crate) struct Walk {
    pub(crate) order: Vec<usize>,
    pub(crate) placed: Vec<bool>,
    pub(crate) seen: Vec<usize>,
    pub(crate) stacked: Vec<bool>,
}

impl Walk {
    /// Nothing placed, of so many nodes.
    pub(crate) fn new(alloc: Global, count: usize) -> Result<Walk, AllocError>
        ensures order { IfOk result (λ w. w.order.items ≡ []) }
        ensures placed { IfOk result (λ w. (length w.placed.items ≡ count) × ((v : ℕ) → get_or w.placed.items v false ≡ false)) }
        ensures seen { IfOk result (λ w. (length w.seen.items ≡ count) × ((v : ℕ) → get_or w.seen.items v 0 ≡ 0)) }
        ensures stacked { IfOk result (λ w. (length w.stacked.items ≡ count) × ((v : ℕ) → get_or w.stacked.items v false ≡ false)) }
    {
        Ok(Walk {
            order: Vec::new(alloc),
            placed: vec![in alloc; false; count]?,
            seen: vec![in alloc; 0; count]?,
            stacked: vec![in alloc; false; count]?,
        })
    }
}

pub(crate) fn push_node(nodes: &mut Vec<usize>, node: usize) -> Result<(), AllocError>
    ensures { OnOk result (nodes.new.items ≡ nodes.old.items ++ node ∷ []) }
{
    nodes.push(node)?;
    Ok(())
}

/// The place of the first name, from one on, that is not marked; the number of names where there is none.
fn next_unmarked(names: &Vec<usize>, from: usize, marked: &Vec<bool>) -> usize
    requires from { from ≤ length names.now.items }
    requires inside { (i : ℕ) → i < length names.now.items → get_or names.now.items i 0 < length marked.now.items }
    ensures within { result ≤ length names.now.items }
    ensures more { from ≤ result }
    ensures done { (i : ℕ) → from ≤ i → i < result → get_or marked.now.items (get_or names.now.items i 0) false ≡ true }
    ensures first { result < length names.now.items → get_or marked.now.items (get_or names.now.items result 0) false ≡ false }
{
    for at in from..names.len() {
        if !marked[names[at]] {
            return at;
        }
    }
    names.len()
}

/// The next name of a node that is not marked, after those that have been looked at.
pub(crate) fn next_name(
    graph: &[Vec<usize>],
    node: usize,
    seen: &mut Vec<usize>,
    marked: &Vec<bool>,
) -> Option<usize>
    requires graph { IsGraph (map names_of graph.now) }
    requires node { node < length graph.now }
    requires count { length marked.now.items ≡ length graph.now }
    requires seen { IsSeen (map names_of graph.now) marked.now.items seen.old.items }
    ensures seen { IsSeen (map names_of graph.now) marked.now.items seen.new.items }
    ensures more { (v : ℕ) → get_or seen.old.items v 0 ≤ get_or seen.new.items v 0 }
    ensures name { MatchOption result (Spent (map names_of graph.now) seen.new.items node) (λ name. Names (map names_of graph.now) node name × (get_or marked.now.items name false ≡ false)) }
{
    let names = &graph[node];
    let at = next_unmarked(names, seen[node], marked);
    seen[node] = at;
    if at < names.len() {
        Some(names[at])
    } else {
        None
    }
}

/// Places a node after all that it names, and answers whether it leads to a cycle instead.
pub(crate) fn visit(
    alloc: Global,
    graph: &[Vec<usize>],
    start: usize,
    walk: &mut Walk,
) -> Result<bool, AllocError>
    requires graph { IsGraph (map names_of graph.now) }
    requires start { start < length graph.now }
    requires unplaced { get_or walk.old.placed.items start false ≡ false }
    requires between { IsBetween (map names_of graph.now) walk.old.order.items walk.old.placed.items walk.old.seen.items walk.old.stacked.items }
    ensures { IfOk result (λ cyclic. Either cyclic ((v : ℕ) × OnCycle (map names_of graph.now) v) (IsBetween (map names_of graph.now) walk.new.order.items walk.new.placed.items walk.new.seen.items walk.new.stacked.items × (get_or walk.new.placed.items start false ≡ true) × Grown walk.old.placed.items walk.new.placed.items)) }
{
    let mut stack = Vec::new(alloc);
    push_node(&mut stack, start)?;
    walk.stacked[start] = true;
    'down: while stack.len() > 0 {
        let last = stack.len() - 1;
        let top = stack[last];
        match next_name(graph, top, &mut walk.seen, &walk.placed) {
            Some(name) => {
                if walk.stacked[name] {
                    return Ok(true);
                }
                walk.stacked[name] = true;
                push_node(&mut stack, name)?;
            }
            None => {
                push_node(&mut walk.order, top)?;
                walk.placed[top] = true;
                walk.stacked[top] = false;
                stack.truncate(last);
            }
        }
    }
    Ok(false)
}
