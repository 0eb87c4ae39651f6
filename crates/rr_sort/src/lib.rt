//! Sorts the nodes of a graph so that each stands after those that it names, or finds a cycle
//! (depth-first search; Tarjan, "Depth-First Search and Linear Graph Algorithms", 1972). It is right
//! where the answer is such an order, or a cycle from the lowest node on one. It stands on no other
//! crate.
#![tactic(auto)]

ghost use Rattle.std.specs.Prelude.{◌≡◌, ◌<◌, ◌≤◌, ◌++◌, ◌∷◌, [], ℕ, List, length, map, drop, get_or, IfOk, OnOk, IfSome, IfNone, true, false};
ghost use Rattle.rr_sort.specs.Graphs.{Graph, names_of, IsGraph, IsOrder, IsCycle, IsRanked, OnCycle, IsLowestCycle, Tells};
ghost use Rattle.rr_sort.specs.Walks.{IsBetween, Grown};

mod rows;
mod search;
mod walk;

pub use rows::{bare, join};
use search::lowest_cycle;
use std::alloc::{AllocError, Global};
use walk::{Walk, visit};

/// All nodes, each after those that it names; or a cycle, in which each names the next and the last
/// the first, from the lowest node that lies on one.
#[derive(Drop)]
pub enum Sorted {
    Order(Vec<usize>),
    Cycle(Vec<usize>),
}

/// Where there is an order there are ranks, and where there is a cycle there are none.
pub fn rank_laws()
    ensures order { (g : Graph) (order : List ℕ) → IsGraph g → IsOrder g order → (rank : ℕ → ℕ) × IsRanked g rank }
    ensures cycle { (g : Graph) (cycle : List ℕ) (rank : ℕ → ℕ) → IsCycle g cycle → IsRanked g rank → ⊥ }
{}

/// An order of the nodes of a graph, each given by the nodes that it names, or a cycle. Each edge is
/// looked at once; a graph with a cycle is searched three times more, for the lowest node on one.
pub fn sort(alloc: Global, graph: &[Vec<usize>]) -> Result<Sorted, AllocError>
    requires { IsGraph (map names_of graph.now) }
    ensures { IfOk result (λ r. Tells (map names_of graph.now) r) }
{
    let mut walk = Walk::new(alloc, graph.len())?;
    for node in 0..graph.len() {
        if !walk.placed[node] && visit(alloc, graph, node, &mut walk)? {
            return Ok(Sorted::Cycle(lowest_cycle(alloc, graph)?));
        }
    }
    Ok(Sorted::Order(walk.order))
}
