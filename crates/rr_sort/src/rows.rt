//! Graphs as rows: of each node the nodes that it names.
ghost use Rattle.std.specs.Prelude.{◌≡◌, ◌<◌, ◌++◌, ◌∷◌, [], ℕ, length, map, get_or, set, IfOk, OnOk};
ghost use Rattle.rr_sort.specs.Graphs.{names_of, named, IsGraph};

use std::alloc::{AllocError, Global};

/// A graph of so many nodes, which name nothing.
pub fn bare(alloc: Global, count: usize) -> Result<Vec<Vec<usize>>, AllocError>
    ensures count { IfOk result (λ r. length r.items ≡ count) }
    ensures none { IfOk result (λ r. (v : ℕ) → named (map names_of r.items) v ≡ []) }
{
    let mut rows = Vec::new(alloc);
    for made in 0..count {
        let _node = made;
        rows.push(Vec::new(alloc))?;
    }
    Ok(rows)
}

/// A node names another, after those that it names.
pub fn join(rows: &mut Vec<Vec<usize>>, from: usize, to: usize) -> Result<(), AllocError>
    requires { from < length rows.old.items }
    ensures { OnOk result (map names_of rows.new.items ≡ set (map names_of rows.old.items) from (named (map names_of rows.old.items) from ++ to ∷ [])) }
{
    rows[from].push(to)?;
    Ok(())
}

/// The graph in which a node is named by those that it names here.
pub(crate) fn reversed(alloc: Global, graph: &[Vec<usize>]) -> Result<Vec<Vec<usize>>, AllocError>
    requires { IsGraph (map names_of graph.now) }
    ensures count { IfOk result (λ r. length r.items ≡ length graph.now) }
    ensures graph { IfOk result (λ r. IsGraph (map names_of r.items)) }
{
    let mut rows = bare(alloc, graph.len())?;
    for node in 0..graph.len() {
        join_all(&mut rows, &graph[node], node)?;
    }
    Ok(rows)
}

/// Each of these names a node.
fn join_all(rows: &mut Vec<Vec<usize>>, from: &Vec<usize>, to: usize) -> Result<(), AllocError>
    requires graph { IsGraph (map names_of rows.old.items) }
    requires from { (i : ℕ) → i < length from.now.items → get_or from.now.items i 0 < length rows.old.items }
    requires to { to < length rows.old.items }
    ensures count { OnOk result (length rows.new.items ≡ length rows.old.items) }
    ensures graph { OnOk result (IsGraph (map names_of rows.new.items)) }
{
    for name in from {
        join(rows, *name, to)?;
    }
    Ok(())
}
