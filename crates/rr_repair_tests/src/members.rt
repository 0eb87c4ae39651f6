//! A repair that the free search settles within a budget in which members alone leave its question open.

ghost use Rattle.std.specs.Prelude.{◌≤◌};
ghost use Rattle.rr_cnf.specs.Partial.{Determined};

use crate::designs::{MIXED, MIXED_TABLE};
use bumpalo::Bump;
use rr_circuit::{Circuit, read_aag};
use rr_cnf::Formula;
use rr_endings::{File, Found};
use rr_members::{Members, OpenGate, Round};
use rr_repair::{Request, repair};
use rr_run::TableKind;
use rr_tseitin::formula_of;
use std::alloc::{AllocError, Global};
use std::test::Fail;
use std::thread::Threads;

/// How many lines may be learned for a question.
const LINES: u32 = 24;

/// Whether four members leave a formula open, where each learns so many lines.
fn leave_open<R: Threads + Sync>(
    rt: &R,
    alloc: Global,
    formula: &Formula,
    inputs: u64,
) -> Result<bool, AllocError>
    requires few { inputs ≤ formula.now.vars }
    requires determined { Determined formula.now inputs }
{
    let mut members = Members::new(alloc, formula, inputs, 4)?;
    match members.round(rt, LINES, &OpenGate)? {
        Round::Going => Ok(true),
        Round::Model(_) | Round::Refuted(_) => Ok(false),
    }
}

/// Whether they leave open whether a circuit can be true.
fn circuit_is_open<R: Threads + Sync>(
    rt: &R,
    alloc: Global,
    circuit: &Circuit,
) -> Result<bool, AllocError> {
    let formula = formula_of(alloc, circuit)?;
    let inputs = circuit.inputs;
    leave_open(rt, alloc, &formula, inputs)
}

/// Whether they leave open whether the circuit of a text can be true.
fn text_is_open<R: Threads + Sync>(rt: &R, alloc: Global, text: &[u8]) -> Result<bool, Fail> {
    let circuit = read_aag(alloc, text)?;
    let is_open = circuit_is_open(rt, alloc, &circuit)?;
    Ok(is_open)
}

/// Whether they leave open the question of the first of these files.
fn first_is_open<R: Threads + Sync>(rt: &R, alloc: Global, files: &[File]) -> Result<bool, Fail> {
    match files.first() {
        Some(file) => text_is_open(rt, alloc, file.bytes()),
        None => Ok(false),
    }
}

/// Whether a repair of three changes settles a question that they leave open.
fn settles<R: Threads + Sync>(rt: &R, alloc: Global, found: &Found<'_>) -> Result<bool, Fail> {
    if found.status != 0
        || !found
            .notes
            .as_bytes()
            .starts_with(b"repaired 3\n".as_slice())
    {
        return Ok(false);
    }
    first_is_open(rt, alloc, found.files.as_slice())
}

/// Whether the repair does so, with as many lines.
fn is_settled<R: Threads + Sync>(rt: &R, alloc: Global) -> Result<bool, Fail> {
    let arena = Bump::new(alloc);
    let request = Request {
        top: None,
        clock: None,
        kind: TableKind::Csv,
        cert: "c",
        budget: LINES,
        members: 4,
    };
    match repair(
        rt,
        alloc,
        MIXED.as_bytes(),
        MIXED_TABLE.as_bytes(),
        &request,
        &arena,
    ) {
        Ok(found) => settles(rt, alloc, &found),
        Err(_) => Ok(false),
    }
}

// Three literals are changed; that two do not serve is refuted in fewer lines than each member may learn.
#[test]
fn what_members_leave_open_is_settled_before(rt: HostRuntime) -> Result<(), Fail> {
    assert!(rt; is_settled(&rt, rt.alloc())?);
    Ok(())
}
