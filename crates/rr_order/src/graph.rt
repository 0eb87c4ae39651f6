//! The graph of a design: a bit names the steps that write it, a signal its bits, and a step the bits, or
//! whole signals, that it names.
ghost use Rattle.std.specs.Prelude.{◌≡◌, ◌≤◌, ◌<◌, ◌+◌, ◌-◌, ◌++◌, ◌∷◌, [], ℕ, length, map, get_or, IfOk, OnOk};
ghost use Rattle.rr_flat.specs.declared.design.Step.TheVariants as design_step;
ghost use Rattle.rr_flat.specs.View.{plain_flat};
ghost use Rattle.rr_sort.specs.Graphs.{names_of};
ghost use Rattle.rr_order.specs.Nodes.{In, IsGraphOf, IsLayout, IsNamedBy, IsWrittenBy, Joined, widths};

use crate::layout::{Layout, signal_count};
use rr_flat::{Flat, Step};
use rr_sort::{bare, join};
use std::alloc::{AllocError, Global};

/// The steps so far, and of each node the nodes that it names.
#[derive(Drop)]
pub(crate) struct Nodes {
    pub(crate) steps: Vec<Step>,
    pub(crate) rows: Vec<Vec<usize>>,
}

/// The bits and the signals of a design, and no step.
pub(crate) fn without_steps(
    alloc: Global,
    flat: &Flat,
    layout: &Layout,
) -> Result<Nodes, AllocError>
    requires { IsLayout (widths (plain_flat flat.now)) layout.now.starts.items layout.now.table.items }
    ensures steps { IfOk result (λ n. n.steps.items ≡ []) }
    ensures graph { IfOk result (λ n. IsGraphOf (design_step.Block 0) (widths (plain_flat flat.now)) (IsWrittenBy (plain_flat flat.now)) (IsNamedBy (plain_flat flat.now)) [] (map names_of n.rows.items)) }
{
    let mut rows = bare(alloc, layout.table.len())?;
    for signal in 0..signal_count(flat) {
        rows.push(rising(alloc, layout.starts[signal], layout.starts[signal + 1])?)?;
    }
    Ok(Nodes {
        steps: Vec::new(alloc),
        rows,
    })
}

/// The numbers from one up to before another.
fn rising(alloc: Global, from: usize, end: usize) -> Result<Vec<usize>, AllocError>
    requires { from ≤ end }
    ensures count { IfOk result (λ r. length r.items ≡ end - from) }
    ensures numbers { IfOk result (λ r. (i : ℕ) → i < end - from → get_or r.items i 0 ≡ from + i) }
{
    let mut row = Vec::new(alloc);
    for at in from..end {
        row.push(at)?;
    }
    Ok(row)
}

/// One more step, which names the nodes of a row and writes the bits of these nodes.
pub(crate) fn add_step(
    nodes: &mut Nodes,
    step: Step,
    row: Vec<usize>,
    written: &[usize],
) -> Result<(), AllocError>
    requires { (v : ℕ) → In v written.now → v < length nodes.old.rows.items }
    ensures steps { OnOk result (nodes.new.steps.items ≡ nodes.old.steps.items ++ step ∷ []) }
    ensures graph { OnOk result (Joined (map names_of nodes.old.rows.items ++ row.items ∷ []) (map names_of nodes.new.rows.items) written.now (length nodes.old.rows.items)) }
{
    let node = nodes.rows.len();
    nodes.rows.push(row)?;
    join_each(&mut nodes.rows, written, node)?;
    nodes.steps.push(step)?;
    Ok(())
}

/// Each of these nodes names one more.
fn join_each(rows: &mut Vec<Vec<usize>>, nodes: &[usize], to: usize) -> Result<(), AllocError>
    requires { (v : ℕ) → In v nodes.now → v < length rows.old.items }
    ensures { OnOk result (Joined (map names_of rows.old.items) (map names_of rows.new.items) nodes.now to) }
{
    for node in nodes.iter() {
        join(rows, *node, to)?;
    }
    Ok(())
}
