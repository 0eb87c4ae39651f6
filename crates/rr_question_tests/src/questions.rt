//! Questions over every list of bits of a choice, against the runs of the printed instances.
ghost use Rattle.std.specs.Prelude.{◌≡◌, ◌≤◌, length};
ghost use Rattle.rr_syntax.specs.View.{plain_source};
ghost use Rattle.rr_lex.specs.Tokens.{lexemes};
ghost use Rattle.rr_elaborate.specs.Designs.{IsText};

use crate::designs::{
    BLOCKING, BLOCKING_TABLE, INDEX, INDEX_TABLE, INSTANCES, INSTANCES_TABLE, INVERTED,
    INVERTED_TABLE, WILD, WILD_TABLE,
};
use crate::instances::{bits_of, instance_text, transition_of};
use bumpalo::Bump;
use rr_choice::SiteList;
use rr_circuit::Circuit;
use rr_run::{LawfulDesign, TableKind, lawful_design, read_rows, run_files};
use rr_sites_command::design_sites;
use rr_trace::{Cell, Table};
use rr_transition::Transition;
use rr_unroll::question;
use std::alloc::{AllocError, Global};
use std::test::Fail;
use std::thread::Threads;

/// For each known bit of a row's cells, whether the outputs have it, lowest bit first.
fn add_row(
    expected: &[Cell],
    outputs: &[Cell],
    verdicts: &mut Vec<bool>,
) -> Result<(), AllocError> {
    for (cell, output) in expected.iter().zip(outputs.iter()) {
        let differs = cell.value ^ output.value;
        for place in 0..128_u32 {
            if cell.known >> place & 1 == 1 {
                verdicts.push(differs >> place & 1 == 0)?;
            }
        }
    }
    Ok(())
}

/// The rows of a table with the outputs of the run of an instance's text in the place of its cells. The
/// instance has the ports of its design.
fn outputs_of(
    alloc: Global,
    design: &LawfulDesign<'_>,
    text: &[u8],
    table: &str,
) -> Result<Option<Table>, AllocError> {
    if text.len() > 1_048_576 {
        return Ok(None);
    }
    let arena = Bump::new(alloc);
    let Ok(run) = run_files(
        alloc,
        text,
        TableKind::Csv,
        table.as_bytes(),
        None,
        None,
        &arena,
    ) else {
        return Ok(None);
    };
    match read_rows(alloc, design, TableKind::Csv, run.as_slice()) {
        Ok(outputs) => Ok(Some(outputs)),
        Err(_) => Ok(None),
    }
}

/// For each known bit of a table, whether the run of an instance's text has it.
fn verdicts_of(
    alloc: Global,
    design: &LawfulDesign<'_>,
    text: &[u8],
    table: &str,
    rows: &Table,
) -> Result<Vec<bool>, Fail> {
    let Some(outputs) = outputs_of(alloc, design, text, table)? else {
        return Err(Fail::from("no run of an instance"));
    };
    let mut verdicts = Vec::new(alloc);
    for (cells, numbers) in rows.expected.iter().zip(outputs.expected.iter()) {
        add_row(cells.as_slice(), numbers.as_slice(), &mut verdicts)?;
    }
    Ok(verdicts)
}

/// The values of a circuit's outputs.
fn values(alloc: Global, circuit: &Circuit, bits: &[bool]) -> Result<Vec<bool>, Fail> {
    if circuit.inputs != bits.len() as u64 {
        return Err(Fail::from("another number of inputs"));
    }
    Ok(circuit.eval(alloc, bits)?)
}

/// Whether the circuits for each bound give the verdicts, and whether the cost is within the bound.
fn answer(
    alloc: Global,
    circuits: &[(u32, Circuit)],
    bits: &[bool],
    verdicts: &[bool],
    cost: u32,
) -> Result<bool, Fail> {
    for (bound, circuit) in circuits.iter() {
        let outputs = values(alloc, circuit, bits)?;
        let Some((last, known)) = outputs.as_slice().split_last() else {
            return Ok(false);
        };
        if known != verdicts || *last != (cost <= *bound) {
            return Ok(false);
        }
    }
    Ok(true)
}

/// The question for each bound.
fn questions<R: Threads + Sync>(
    rt: &R,
    alloc: Global,
    cycle: &Transition,
    rows: &Table,
    bounds: &[u32],
) -> Result<Vec<(u32, Circuit)>, AllocError> {
    let mut circuits = Vec::new(alloc);
    for bound in bounds.iter() {
        let circuit = question(rt, alloc, cycle, rows, *bound, 2)?;
        circuits.push((*bound, circuit))?;
    }
    Ok(circuits)
}

/// A design, its sites, and the text and the rows of a table for it.
#[derive(Drop)]
struct Subject<'a> {
    design: LawfulDesign<'a>,
    list: SiteList<'a>,
    table: &'a str,
    rows: Table,
}

/// Whether for each list of bits of a choice the circuits answer as the printed instance runs.
fn all_answer(
    alloc: Global,
    bytes: &[u8],
    subject: &Subject<'_>,
    circuits: &[(u32, Circuit)],
    count: u32,
) -> Result<bool, Fail>
    requires small { length bytes.now ≤ 1048576 }
    requires text { IsText bytes.now (lexemes subject.now.design.tokens.now) (plain_source subject.now.design.source.now) }
    requires few { length subject.now.list ≤ 1024 }
    requires count { count ≤ 16 }
{
    let (design, list) = (&subject.design, &subject.list);
    for number in 0..1_u64 << count {
        let bits = bits_of(alloc, number, count)?;
        let Some((cost, text)) = instance_text(alloc, bytes, design, list, bits.as_slice())? else {
            return Ok(false);
        };
        let verdicts = verdicts_of(alloc, design, text.as_slice(), subject.table, &subject.rows)?;
        if !answer(alloc, circuits, bits.as_slice(), verdicts.as_slice(), cost)? {
            return Ok(false);
        }
    }
    Ok(true)
}

/// Whether the questions of a design with so many choice bits are answered as its instances run.
fn agrees<R: Threads + Sync>(
    rt: &R,
    alloc: Global,
    text: &str,
    table: &str,
    count: u32,
    bounds: &[u32],
) -> Result<bool, Fail> {
    let bytes = text.as_bytes();
    if bytes.len() > 1_048_576 || count > 16 {
        return Err(Fail::from("a text too long"));
    }
    let arena = Bump::new(alloc);
    let Ok(design) = lawful_design(alloc, bytes, None, None, &arena) else {
        return Err(Fail::from("no design"));
    };
    let list = design_sites(alloc, &design, &arena)?;
    if list.sites().len() > 1024 {
        return Err(Fail::from("too many sites"));
    }
    let Some(cycle) = transition_of(alloc, &design, &list)? else {
        return Err(Fail::from("no transition"));
    };
    let Ok(rows) = read_rows(alloc, &design, TableKind::Csv, table.as_bytes()) else {
        return Err(Fail::from("no rows"));
    };
    let circuits = questions(rt, alloc, &cycle, &rows, bounds)?;
    let subject = Subject {
        design,
        list,
        table,
        rows,
    };
    let all = all_answer(alloc, bytes, &subject, circuits.as_slice(), count)?;
    Ok(all && cycle.choice_bits == count)
}

// All 4,096 lists of bits.
#[test]
fn an_inverted_reset_is_asked(rt: HostRuntime) -> Result<(), Fail> {
    assert!(rt; agrees(&rt, rt.alloc(), INVERTED, INVERTED_TABLE, 12, &[0, 3])?);
    Ok(())
}

#[test]
fn a_blocking_assignment_is_asked(rt: HostRuntime) -> Result<(), Fail> {
    assert!(rt; agrees(&rt, rt.alloc(), BLOCKING, BLOCKING_TABLE, 12, &[2])?);
    Ok(())
}

#[test]
fn a_write_at_an_index_is_asked(rt: HostRuntime) -> Result<(), Fail> {
    assert!(rt; agrees(&rt, rt.alloc(), INDEX, INDEX_TABLE, 8, &[1])?);
    Ok(())
}

#[test]
fn wires_are_asked(rt: HostRuntime) -> Result<(), Fail> {
    assert!(rt; agrees(&rt, rt.alloc(), WILD, WILD_TABLE, 4, &[0, 1, 2])?);
    assert!(rt; agrees(&rt, rt.alloc(), INSTANCES, INSTANCES_TABLE, 3, &[0, 1])?);
    Ok(())
}
