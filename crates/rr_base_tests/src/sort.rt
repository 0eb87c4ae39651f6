//! Graphs with an order, and with cycles.
ghost use Rattle.std.specs.Prelude.{◌≡◌, length, map, IfOk, OnOk};
ghost use Rattle.rr_sort.specs.Graphs.{names_of, IsGraph};

use rr_sort::{Sorted, bare, join, sort};
use std::alloc::{AllocError, Global};
use std::test::Fail;

/// A graph of so many nodes, by its edges.
fn by_edges(
    alloc: Global,
    count: usize,
    edges: &[(usize, usize)],
) -> Result<Vec<Vec<usize>>, AllocError>
    ensures { IfOk result (λ r. IsGraph (map names_of r.items)) }
{
    let mut rows = bare(alloc, count)?;
    for (from, to) in edges.iter() {
        add_edge(&mut rows, *from, *to)?;
    }
    Ok(rows)
}

/// One more edge, where both nodes are there.
fn add_edge(rows: &mut Vec<Vec<usize>>, from: usize, to: usize) -> Result<(), AllocError>
    requires { IsGraph (map names_of rows.old.items) }
    ensures { OnOk result (IsGraph (map names_of rows.new.items)) }
{
    if from < rows.len() && to < rows.len() {
        join(rows, from, to)?;
        return Ok(());
    }
    Ok(())
}

/// Each node names the next, and the last names one.
fn ring(alloc: Global, count: usize, to: usize) -> Result<Vec<(usize, usize)>, AllocError> {
    let mut edges = Vec::new(alloc);
    for node in 1..count {
        edges.push((node - 1, node))?;
    }
    if count > 0 {
        edges.push((count - 1, to))?;
    }
    Ok(edges)
}

/// The order or the cycle, and whether it is an order.
fn sorted(
    alloc: Global,
    count: usize,
    edges: &[(usize, usize)],
) -> Result<(bool, Vec<usize>), AllocError> {
    let rows = by_edges(alloc, count, edges)?;
    match sort(alloc, rows.as_slice())? {
        Sorted::Order(nodes) => Ok((true, nodes)),
        Sorted::Cycle(nodes) => Ok((false, nodes)),
    }
}

/// Graphs by the number of their nodes and their edges; whether they have an order, and their order or
/// their lowest cycle: with two ways to a node, with a cycle, with a node that names itself, and with
/// two cycles.
const GRAPHS: [(usize, &[(usize, usize)], bool, &[usize]); 4] = [
    (
        4,
        &[(0, 1), (0, 2), (1, 3), (2, 3), (0, 1)],
        true,
        &[3, 1, 2, 0],
    ),
    (5, &[(0, 3), (3, 2), (2, 1), (1, 3)], false, &[1, 3, 2]),
    (3, &[(0, 1), (0, 2), (2, 2)], false, &[2]),
    (
        8,
        &[(0, 5), (5, 6), (6, 5), (6, 2), (2, 4), (4, 2), (4, 7)],
        false,
        &[2, 4],
    ),
];

fn gives(
    alloc: Global,
    count: usize,
    edges: &[(usize, usize)],
    expected: (bool, &[usize]),
) -> Result<bool, AllocError> {
    let (ordered, nodes) = sorted(alloc, count, edges)?;
    Ok(ordered == expected.0 && nodes.as_slice() == expected.1)
}

#[test]
fn orders_and_cycles(rt: HostRuntime) -> Result<(), Fail> {
    let alloc = rt.alloc();
    for (count, edges, ordered, nodes) in GRAPHS.iter() {
        assert!(rt;
            gives(alloc, *count, edges, (*ordered, nodes))?,
            "a graph of {count}"
        );
    }
    Ok(())
}

/// A chain of 1000 nodes, and one whose last two nodes name each other.
#[test]
fn long_ways(rt: HostRuntime) -> Result<(), Fail> {
    let alloc = rt.alloc();
    let chain = ring(alloc, 1000, 1000)?;
    let (ordered, nodes) = sorted(alloc, 1000, chain.as_slice())?;
    assert!(rt; ordered && nodes.len() == 1000);
    assert!(rt; nodes[0] == 999 && nodes[999] == 0);
    let chain = ring(alloc, 1000, 998)?;
    assert!(rt; gives(alloc, 1000, chain.as_slice(), (false, &[998, 999]))?);
    Ok(())
}
