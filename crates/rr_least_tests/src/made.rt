//! The made inputs of the seeds 0 to 2, whose designs have one to three faults; and what a window of a
//! counter's rows proposes.
ghost use Rattle.std.specs.Prelude.{◌≤◌, IfOk, IfSome, length};
ghost use Rattle.rr_flat.specs.View.{plain_flat};
ghost use Rattle.rr_transition.specs.Cycles.{Cycle, Design};
ghost use Rattle.rr_blast.specs.Circuits.{FitsArguments};

use bumpalo::Bump;
use rr_blast::{row_bits, transition};
use rr_choice::{Choice, SiteList};
use rr_made_input::made;
use rr_plainer::Near;
use rr_registers::register_bits;
use rr_run::{LawfulDesign, TableKind, lawful_design, read_rows};
use rr_search::{Answer, Job, least};
use rr_sites_command::design_sites;
use rr_trace::Table;
use rr_transition::Transition;
use rr_window::propose;
use std::alloc::{AllocError, Global};
use std::test::Fail;
use std::thread::Threads;

/// The transition of a design with few registers, inputs and choice bits.
pub(crate) fn transition_of(
    alloc: Global,
    design: &LawfulDesign<'_>,
    list: &SiteList<'_>,
) -> Result<Option<Transition>, AllocError>
    requires fits { (j : Design) × FitsArguments j (plain_flat design.now.flat) design.now.order.clock design.now.order.rising design.now.order.steps.items list.now }
    requires few { length list.now ≤ 1024 }
    ensures { IfOk result (λ found. IfSome found (λ t. (j : Design) → FitsArguments j (plain_flat design.now.flat) design.now.order.clock design.now.order.rising design.now.order.steps.items list.now → Cycle j list.now t)) }
{
    list.sites();
    let registers = register_bits(alloc, &design.flat)?;
    let ids = design.flat.row_inputs(alloc, design.order.clock)?;
    let row = row_bits(alloc, &design.flat, ids.as_slice())?;
    if list.bits() > 4096 {
        return Ok(None);
    }
    if registers.len() > 64 {
        return Ok(None);
    }
    if row.len() > 64 {
        return Ok(None);
    }
    let cycle = transition(alloc, &design.flat, &design.order, list)?;
    Ok(Some(cycle))
}

/// The number of changes that the search finds least for a design and its rows, by one member.
fn fewest<R: Threads + Sync>(
    rt: &R,
    alloc: Global,
    design: &LawfulDesign<'_>,
    list: &SiteList<'_>,
    rows: &Table,
) -> Result<Option<u32>, AllocError>
    requires fits { (j : Design) × FitsArguments j (plain_flat design.now.flat) design.now.order.clock design.now.order.rising design.now.order.steps.items list.now }
    requires few { length list.now ≤ 1024 }
{
    let Some(cycle) = transition_of(alloc, design, list)? else {
        return Ok(None);
    };
    let job = Job {
        list,
        transition: &cycle,
        table: rows,
        budget: 20_000,
        members: 1,
    };
    match least(rt, alloc, &job, &[])? {
        Answer::Repair { k, .. } => Ok(Some(k)),
        _ => Ok(None),
    }
}

/// The number of changes that the search finds least for the made input of a seed.
fn changes_of<R: Threads + Sync>(rt: &R, alloc: Global, seed: u64) -> Result<Option<u32>, Fail> {
    let arena = Bump::new(alloc);
    let input = made(alloc, seed)?;
    let bytes = input.design.as_bytes();
    if bytes.len() > 1_048_576 {
        return Err(Fail::from("a text too long"));
    }
    let Ok(design) = lawful_design(alloc, bytes, None, None, &arena) else {
        return Err(Fail::from("no design"));
    };
    let list = design_sites(alloc, &design, &arena)?;
    if list.sites().len() > 1024 {
        return Err(Fail::from("too many sites"));
    }
    let Ok(rows) = read_rows(alloc, &design, TableKind::Csv, input.table.as_slice()) else {
        return Err(Fail::from("no rows"));
    };
    Ok(fewest(rt, alloc, &design, &list, &rows)?)
}

#[test]
fn made_inputs_have_as_many_changes_as_faults(rt: HostRuntime) -> Result<(), Fail> {
    assert!(rt; changes_of(&rt, rt.alloc(), 0)? == Some(1));
    assert!(rt; changes_of(&rt, rt.alloc(), 1)? == Some(2));
    assert!(rt; changes_of(&rt, rt.alloc(), 2)? == Some(3));
    Ok(())
}

const COUNTER: &str =
    "module counter(input clk, input rst, output reg [3:0] q);\n  always @(posedge clk)\n    if (rst) q <= 4'd0;\n    else q <= q + 4'd2;\nendmodule\n";

const COUNTER_TABLE: &str = "rst,q\n1,0\n0,0\n0,1\n0,2\n0,3\n";

/// Whether a choice switches on the last of four sites alone, with the value 1.
fn is_last(choice: &Choice) -> bool {
    let picks = choice.picks.as_slice();
    picks.len() == 4
        && !picks[0].on
        && !picks[1].on
        && !picks[2].on
        && picks[3].on
        && picks[3].value == 1
}

/// Whether the first choice that four rows from row 1 on propose is the last of four sites.
fn proposes_last<R: Threads + Sync>(
    rt: &R,
    alloc: Global,
    design: &LawfulDesign<'_>,
    list: &SiteList<'_>,
    rows: &Table,
) -> Result<bool, AllocError>
    requires fits { (j : Design) × FitsArguments j (plain_flat design.now.flat) design.now.order.clock design.now.order.rising design.now.order.steps.items list.now }
    requires few { length list.now ≤ 1024 }
{
    let Some(cycle) = transition_of(alloc, design, list)? else {
        return Ok(false);
    };
    let near = Near::of(alloc, design.tokens, list)?;
    let found = propose(rt, alloc, &cycle, rows, list, &near, 1, 4)?;
    match found.as_slice().first() {
        Some(choice) => Ok(is_last(choice)),
        None => Ok(false),
    }
}

/// Whether the literal of a counter's step is proposed.
fn proposes<R: Threads + Sync>(rt: &R, alloc: Global) -> Result<bool, Fail> {
    let arena = Bump::new(alloc);
    let Ok(design) = lawful_design(alloc, COUNTER.as_bytes(), None, None, &arena) else {
        return Err(Fail::from("no design"));
    };
    let list = design_sites(alloc, &design, &arena)?;
    if list.sites().len() > 1024 {
        return Err(Fail::from("too many sites"));
    }
    let Ok(rows) = read_rows(alloc, &design, TableKind::Csv, COUNTER_TABLE.as_bytes()) else {
        return Err(Fail::from("no rows"));
    };
    Ok(proposes_last(rt, alloc, &design, &list, &rows)?)
}

#[test]
fn a_window_proposes_the_step(rt: HostRuntime) -> Result<(), Fail> {
    assert!(rt; proposes(&rt, rt.alloc())?);
    Ok(())
}
