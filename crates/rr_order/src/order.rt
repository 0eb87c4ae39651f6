//! The order of the steps, or a loop.
ghost use Rattle.std.specs.Prelude.{◌≡◌, ◌<◌, ◌+◌, ℕ, length, map, get_or, IfOk};
ghost use Rattle.rr_flat.specs.declared.design.Step.TheVariants as design_step;
ghost use Rattle.rr_flat.specs.Lawful.{HasRanks};
ghost use Rattle.rr_flat.specs.Ordered.{IsStep};
ghost use Rattle.rr_flat.specs.View.{plain_flat};
ghost use Rattle.rr_sort.specs.Graphs.{IsLowestCycle, IsOrder, names_of};
ghost use Rattle.rr_order.specs.Loops.{AreOrdered, IsLoop, Tells, step_token};
ghost use Rattle.rr_order.specs.Nodes.{IsLayout, IsClosed, IsStepGraph, StepsTo, widths, bits_among as bits_among_nodes, steps_in as steps_in_nodes};

use crate::graph::Nodes;
use crate::layout::{Layout, layout_of};
use crate::steps::graph_of;
use rr_expr::Bit;
use rr_flat::{Flat, Step};
use rr_sort::{Sorted, sort};
use std::alloc::{AllocError, Global};

/// A combinational loop: bits of which each names the next and the last the first, from the lowest bit
/// that lies on one, and the token of the target or of the `always` that writes the first.
#[derive(Drop)]
pub struct Loop {
    pub cycle: Vec<Bit>,
    pub token: u32,
}

/// The steps in an order in which each bit is written before it is read, or a loop.
#[derive(Drop)]
pub enum Ordering {
    Steps(Vec<Step>),
    Loop(Loop),
}

/// An order of the steps of a design, in which each stands after every step that writes a bit which it
/// names, or a combinational loop. Each edge of the graph of steps and bits is looked at once; only a
/// design with a loop is searched again, for the lowest bit that lies on one.
pub fn order_steps(alloc: Global, flat: &Flat) -> Result<Ordering, AllocError>
    ensures { IfOk result (λ r. Tells (plain_flat flat.now) r) }
{
    let layout = layout_of(alloc, flat)?;
    let nodes = graph_of(alloc, flat, &layout)?;
    match sort(alloc, nodes.rows.as_slice())? {
        Sorted::Order(order) => Ok(Ordering::Steps(order_of(alloc, flat, &nodes, &order)?)),
        Sorted::Cycle(cycle) => Ok(Ordering::Loop(loop_of(alloc, flat, &layout, &nodes, &cycle)?)),
    }
}

/// The steps in an order of the nodes.
fn order_of(
    alloc: Global,
    flat: &Flat,
    nodes: &Nodes,
    order: &Vec<usize>,
) -> Result<Vec<Step>, AllocError>
    requires sound { IsClosed (plain_flat flat.now) }
    requires graph { IsStepGraph (plain_flat flat.now) (StepsTo (length flat.now.drivers) 0 (length flat.now.combinational)) nodes.now.steps.items nodes.now.rows.items }
    requires order { IsOrder (map names_of nodes.now.rows.items) order.now.items }
    ensures order { IfOk result (λ r. AreOrdered (plain_flat flat.now) r.items) }
    ensures ranks { IfOk result (λ r. HasRanks (plain_flat flat.now)) }
{
    let first = nodes.rows.len() - nodes.steps.len();
    steps_among(alloc, first, nodes.steps.as_slice(), order.as_slice())
}

/// The loop of a cycle of the nodes from the lowest that lies on one.
fn loop_of(
    alloc: Global,
    flat: &Flat,
    layout: &Layout,
    nodes: &Nodes,
    cycle: &Vec<usize>,
) -> Result<Loop, AllocError>
    requires layout { IsLayout (widths (plain_flat flat.now)) layout.now.starts.items layout.now.table.items }
    requires sound { IsClosed (plain_flat flat.now) }
    requires graph { IsStepGraph (plain_flat flat.now) (StepsTo (length flat.now.drivers) 0 (length flat.now.combinational)) nodes.now.steps.items nodes.now.rows.items }
    requires cycle { IsLowestCycle (map names_of nodes.now.rows.items) cycle.now.items }
    ensures { IfOk result (λ l. IsLoop (plain_flat flat.now) l.cycle.items l.token) }
{
    let first = nodes.rows.len() - nodes.steps.len();
    let bits = bits_among(alloc, layout.table.as_slice(), cycle.as_slice())?;
    let token = token_of(flat, nodes.steps[cycle[1] - first]);
    Ok(Loop { cycle: bits, token })
}

/// The steps among the nodes of an order, of which the first step has this number.
fn steps_among(
    alloc: Global,
    first: usize,
    steps: &[Step],
    order: &[usize],
) -> Result<Vec<Step>, AllocError>
    requires { (i : ℕ) → i < length order.now → get_or order.now i 0 < first + length steps.now }
    ensures { IfOk result (λ r. r.items ≡ steps_in_nodes (design_step.Block 0) first steps.now order.now) }
{
    let mut sorted = Vec::new(alloc);
    for node in order.iter() {
        if *node >= first {
            sorted.push(steps[*node - first])?;
        }
    }
    Ok(sorted)
}

/// The bits among the nodes of a cycle.
fn bits_among(alloc: Global, table: &[Bit], cycle: &[usize]) -> Result<Vec<Bit>, AllocError>
    ensures { IfOk result (λ r. r.items ≡ bits_among_nodes table.now cycle.now) }
{
    let mut bits = Vec::new(alloc);
    for node in cycle.iter() {
        if *node < table.len() {
            bits.push(table[*node])?;
        }
    }
    Ok(bits)
}

/// The token of the target of a step's driver, or of its `always`.
fn token_of(flat: &Flat, step: Step) -> u32
    requires { IsStep (plain_flat flat.now) step }
    ensures { result ≡ step_token (plain_flat flat.now) step }
{
    match step {
        Step::Driver(number) => flat.driver_at(number).token,
        Step::Wire { driver, .. } => flat.driver_at(driver).token,
        Step::Block(number) => flat.combinational_at(number).token,
    }
}
