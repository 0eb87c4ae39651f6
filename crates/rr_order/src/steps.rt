//! The steps of a design, with what they write and name.
ghost use Rattle.std.specs.Prelude.{◌≡◌, ◌≤◌, ◌<◌, ◌+◌, ℕ, length, get_or, IfOk, OnOk, true, false};
ghost use Rattle.rr_flat.specs.Sound.{IsDriver};
ghost use Rattle.rr_flat.specs.View.{plain_driver, plain_flat};
ghost use Rattle.rr_flat.specs.Writers.{driver_at, wires as wires_in};
ghost use Rattle.rr_order.specs.Nodes.{IsLayout, IsClosed, IsStepGraph, StepsTo, total, widths};

use crate::graph::{Nodes, add_step, without_steps};
use crate::layout::Layout;
use crate::nodes::{node_list, nodes_of, stamp_all, written_of};
use crate::reading::add_read_bits;
use crate::rows::row_of;
use crate::sides::{add_named_by, driven, is_signed, taken, wires};
use crate::wiring::taken_at;
use rr_flat::{Driver, Flat, Step, number_of};
use rr_writers::{BitTable, add_assigned_bits, distinct, distinct_writes};
use std::alloc::{AllocError, Global};

/// The graph of a design, with all its steps.
pub(crate) fn graph_of(alloc: Global, flat: &Flat, layout: &Layout) -> Result<Nodes, AllocError>
    requires { IsLayout (widths (plain_flat flat.now)) layout.now.starts.items layout.now.table.items }
    ensures sound { IfOk result (λ n. IsClosed (plain_flat flat.now)) }
    ensures graph { IfOk result (λ n. IsStepGraph (plain_flat flat.now) (StepsTo (length flat.now.drivers) 0 (length flat.now.combinational)) n.steps.items n.rows.items) }
{
    let mut nodes = without_steps(alloc, flat, layout)?;
    let mut own = vec![in alloc; 0; layout.table.len()]?;
    let mut seen = BitTable::new(alloc);
    for driver in 0..flat.drivers.len() {
        add_driver(
            alloc,
            flat,
            layout,
            &mut nodes,
            number_of(driver)?,
            &own,
            &mut seen,
        )?;
    }
    for block in 0..flat.combinational.len() {
        add_block(
            alloc,
            flat,
            layout,
            &mut nodes,
            number_of(block)?,
            &mut own,
            &mut seen,
        )?;
    }
    Ok(nodes)
}

/// The steps of a driver: one, or one for each bit of its target where it only wires.
fn add_driver(
    alloc: Global,
    flat: &Flat,
    layout: &Layout,
    nodes: &mut Nodes,
    number: u32,
    own: &Vec<usize>,
    seen: &mut BitTable,
) -> Result<(), AllocError>
    requires layout { IsLayout (widths (plain_flat flat.now)) layout.now.starts.items layout.now.table.items }
    requires number { number < length flat.now.drivers }
    requires own { (length own.now.items ≡ total (widths (plain_flat flat.now))) × ((v : ℕ) → get_or own.now.items v 0 ≡ 0) }
    requires graph { IsStepGraph (plain_flat flat.now) (StepsTo number 0 0) nodes.old.steps.items nodes.old.rows.items }
    ensures { OnOk result (IsStepGraph (plain_flat flat.now) (StepsTo (number + 1) 0 0) nodes.new.steps.items nodes.new.rows.items) }
{
    let driver = flat.driver_at(number);
    if wires(flat, &driver.value) {
        add_wires(alloc, flat, layout, nodes, number, &driver)
    } else {
        add_whole(alloc, flat, layout, nodes, number, &driver, own, seen)
    }
}

fn add_whole(
    alloc: Global,
    flat: &Flat,
    layout: &Layout,
    nodes: &mut Nodes,
    number: u32,
    driver: &Driver,
    own: &Vec<usize>,
    seen: &mut BitTable,
) -> Result<(), AllocError>
    requires layout { IsLayout (widths (plain_flat flat.now)) layout.now.starts.items layout.now.table.items }
    requires number { number < length flat.now.drivers }
    requires driver { plain_driver driver.now ≡ driver_at (plain_flat flat.now) number }
    requires sound { IsDriver flat.now.signals flat.now.scopes driver.now }
    requires plain { wires_in (plain_flat flat.now) number ≡ false }
    requires own { (length own.now.items ≡ total (widths (plain_flat flat.now))) × ((v : ℕ) → get_or own.now.items v 0 ≡ 0) }
    requires graph { IsStepGraph (plain_flat flat.now) (StepsTo number 0 0) nodes.old.steps.items nodes.old.rows.items }
    ensures { OnOk result (IsStepGraph (plain_flat flat.now) (StepsTo (number + 1) 0 0) nodes.new.steps.items nodes.new.rows.items) }
{
    let target = driven(alloc, flat, &driver.target)?;
    let written = nodes_of(alloc, flat, layout, target.as_slice())?;
    let mut reaches = Vec::new(alloc);
    add_named_by(alloc, &mut reaches, flat, &driver.value)?;
    let named = distinct(alloc, reaches.as_slice(), seen)?;
    let row = row_of(alloc, flat, layout, named.as_slice(), own, 1)?;
    add_step(nodes, Step::Driver(number), row, written.as_slice())?;
    Ok(())
}

fn add_wires(
    alloc: Global,
    flat: &Flat,
    layout: &Layout,
    nodes: &mut Nodes,
    number: u32,
    driver: &Driver,
) -> Result<(), AllocError>
    requires layout { IsLayout (widths (plain_flat flat.now)) layout.now.starts.items layout.now.table.items }
    requires number { number < length flat.now.drivers }
    requires driver { plain_driver driver.now ≡ driver_at (plain_flat flat.now) number }
    requires sound { IsDriver flat.now.signals flat.now.scopes driver.now }
    requires wires { wires_in (plain_flat flat.now) number ≡ true }
    requires graph { IsStepGraph (plain_flat flat.now) (StepsTo number 0 0) nodes.old.steps.items nodes.old.rows.items }
    ensures { OnOk result (IsStepGraph (plain_flat flat.now) (StepsTo (number + 1) 0 0) nodes.new.steps.items nodes.new.rows.items) }
{
    let target = driven(alloc, flat, &driver.target)?;
    let source = taken(alloc, flat, &driver.value)?;
    let signed = is_signed(flat, &driver.value);
    for place in 0..target.len() {
        let from = taken_at(source.as_slice(), signed, place);
        let row = node_list(alloc, flat, layout, from)?;
        let written = node_list(alloc, flat, layout, target[place])?;
        let step = Step::Wire {
            driver: number,
            bit: number_of(place)?,
        };
        add_step(nodes, step, row, written.as_slice())?;
    }
    Ok(())
}

/// The step of a combinational block, which names what it reads and does not write. It names each word of
/// a memory once, however often its text does.
fn add_block(
    alloc: Global,
    flat: &Flat,
    layout: &Layout,
    nodes: &mut Nodes,
    number: u32,
    own: &mut Vec<usize>,
    seen: &mut BitTable,
) -> Result<(), AllocError>
    requires layout { IsLayout (widths (plain_flat flat.now)) layout.now.starts.items layout.now.table.items }
    requires number { number < length flat.now.combinational }
    requires own { (length own.old.items ≡ total (widths (plain_flat flat.now))) × ((v : ℕ) → get_or own.old.items v 0 ≤ number) }
    requires graph { IsStepGraph (plain_flat flat.now) (StepsTo (length flat.now.drivers) 0 number) nodes.old.steps.items nodes.old.rows.items }
    ensures own { OnOk result ((length own.new.items ≡ total (widths (plain_flat flat.now))) × ((v : ℕ) → get_or own.new.items v 0 ≤ number + 1)) }
    ensures graph { OnOk result (IsStepGraph (plain_flat flat.now) (StepsTo (length flat.now.drivers) 0 (number + 1)) nodes.new.steps.items nodes.new.rows.items) }
{
    let block = flat.combinational_at(number);
    let names = flat.scope_at(block.scope);
    let stamp = number as usize + 1;
    let mut writes = Vec::new(alloc);
    add_assigned_bits(alloc, &mut writes, block.body, names, true)?;
    let assigned = distinct_writes(alloc, writes.as_slice(), seen)?;
    let written = written_of(alloc, flat, layout, assigned.as_slice(), own, stamp)?;
    stamp_all(own, written.as_slice(), stamp);
    let mut reads = Vec::new(alloc);
    add_read_bits(alloc, &mut reads, block.body, names)?;
    let named = distinct(alloc, reads.as_slice(), seen)?;
    let row = row_of(alloc, flat, layout, named.as_slice(), own, stamp)?;
    add_step(nodes, Step::Block(number), row, written.as_slice())?;
    Ok(())
}
