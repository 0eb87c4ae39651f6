//! Searches with a budget of one line, from what a whole table proposes.
ghost use Rattle.std.specs.Prelude.{◌≤◌, length};
ghost use Rattle.rr_flat.specs.View.{plain_flat};
ghost use Rattle.rr_transition.specs.Cycles.{Design};
ghost use Rattle.rr_blast.specs.Circuits.{FitsArguments};

use crate::made::transition_of;
use bumpalo::Bump;
use rr_choice::SiteList;
use rr_plainer::Near;
use rr_run::{LawfulDesign, TableKind, lawful_design, read_rows};
use rr_search::{Answer, Job, least};
use rr_sites_command::design_sites;
use rr_trace::Table;
use rr_window::propose;
use std::alloc::{AllocError, Global};
use std::test::Fail;
use std::thread::Threads;

/// What a search comes to.
#[derive(Clone, Copy, PartialEq, Eq)]
enum Ending {
    /// So many changes are the fewest.
    Least(u32),
    /// So many changes are left open, and so many were found to match.
    Open(u32, usize),
    Other,
}

fn ending_of(answer: &Answer) -> Ending {
    match answer {
        Answer::Repair { k, .. } => Ending::Least(*k),
        Answer::Spent {
            bound,
            found: Some(choice),
            ..
        } => {
            let changes = choice.picks.iter().filter(|pick| pick.on).count();
            Ending::Open(*bound, changes)
        }
        _ => Ending::Other,
    }
}

/// What a search by one member with a budget of one line comes to, from the choices that the first four
/// rows propose.
fn searched<R: Threads + Sync>(
    rt: &R,
    alloc: Global,
    design: &LawfulDesign<'_>,
    list: &SiteList<'_>,
    rows: &Table,
) -> Result<Ending, AllocError>
    requires fits { (j : Design) × FitsArguments j (plain_flat design.now.flat) design.now.order.clock design.now.order.rising design.now.order.steps.items list.now }
    requires few { length list.now ≤ 1024 }
{
    let Some(cycle) = transition_of(alloc, design, list)? else {
        return Ok(Ending::Other);
    };
    let near = Near::of(alloc, design.tokens, list)?;
    let proposed = propose(rt, alloc, &cycle, rows, list, &near, 0, 4)?;
    let job = Job {
        list,
        transition: &cycle,
        table: rows,
        budget: 1,
        members: 1,
    };
    let answer = least(rt, alloc, &job, proposed.as_slice())?;
    Ok(ending_of(&answer))
}

/// The same for the texts of a design and its table.
fn with_one_line<R: Threads + Sync>(
    rt: &R,
    alloc: Global,
    text: &str,
    table: &str,
) -> Result<Ending, Fail> {
    let arena = Bump::new(alloc);
    if text.len() > 1000 {
        return Err(Fail::from("a text too long"));
    }
    let Ok(design) = lawful_design(alloc, text.as_bytes(), None, None, &arena) else {
        return Err(Fail::from("no design"));
    };
    let list = design_sites(alloc, &design, &arena)?;
    if list.sites().len() > 1024 {
        return Err(Fail::from("too many sites"));
    }
    let Ok(rows) = read_rows(alloc, &design, TableKind::Csv, table.as_bytes()) else {
        return Err(Fail::from("no rows"));
    };
    Ok(searched(rt, alloc, &design, &list, &rows)?)
}

const TWO: &str =
    "module m(input clk, output reg [3:0] p, output reg [3:0] q);\n  always @(posedge clk) p <= p + 4'd2;\n  always @(posedge clk) q <= q + 4'd3;\nendmodule\n";

const TWO_TABLE: &str = "p,q\n0,0\n1,1\n2,2\n3,3\n";

const RESETS: &str =
    "module m(input clk, input rst, output reg [3:0] p, output reg [3:0] q);\n  always @(posedge clk) if (rst) p <= 4'd0; else p <= p + 4'd3;\n  always @(posedge clk) if (rst) q <= 4'd0; else q <= q + 4'd3;\nendmodule\n";

const RESETS_TABLE: &str = "rst,p,q\n1,0,0\n0,0,0\n0,1,1\n0,2,2\n";

// Each design needs two changes, which its rows propose; whether one is enough may be open.
#[test]
fn two_changes_are_proposed(rt: HostRuntime) -> Result<(), Fail> {
    let two = with_one_line(&rt, rt.alloc(), TWO, TWO_TABLE)?;
    assert!(rt; two == Ending::Least(2) || two == Ending::Open(1, 2));
    let resets = with_one_line(&rt, rt.alloc(), RESETS, RESETS_TABLE)?;
    assert!(rt; resets == Ending::Open(1, 2));
    Ok(())
}
