//! Verdicts on small and long proofs, for several numbers of workers, and how proofs are cut.
use crate::helpers::{formula, none_fails};
use rr_check::{Part, Verdict, first_bad, parts_of};
use rr_cnf::Formula;
use rr_decimal::push_number;
use rr_derive::read_lrat;
use std::alloc::{AllocError, Global};
use std::test::Fail;
use std::thread::Threads;

/// The verdict on a proof from a formula of two clauses, with 1 to 64 workers.
fn verdict<R: Threads + Sync>(
    rt: &R,
    alloc: Global,
    formula: &Formula,
    text: &[u8],
    workers: u32,
) -> Result<Verdict, Fail> {
    if formula.len() != 2 {
        return Err(Fail::from("the formula"));
    }
    let journal = read_lrat(alloc, text, formula.len(), formula.vars())?;
    Ok(first_bad(rt, alloc, formula, &journal, workers.clamp(1, 64))?)
}

/// Numbers of workers for each proof.
const WORKERS: [u32; 7] = [1, 2, 3, 4, 7, 40, 64];

/// The first of these numbers of workers with another verdict on a proof.
fn first_misjudging<R: Threads + Sync>(
    rt: &R,
    alloc: Global,
    formula: &Formula,
    text: &[u8],
    expected: Verdict,
) -> Result<Option<u32>, Fail> {
    for workers in WORKERS.iter() {
        if verdict(rt, alloc, formula, text, *workers)? != expected {
            return Ok(Some(*workers));
        }
    }
    Ok(None)
}

/// A unit that passes, and one that fails, behind their ids.
const PASSING: &[u8] = b"1 0 1 0\n";

const FAILING: &[u8] = b"1 0 2 0\n";

/// A proof of so many units, with ids from 3 on, which pass but for those with these two ids, and what
/// stands behind them.
fn proof(alloc: Global, units: u64, bad: (u64, u64), last: &str) -> Result<Vec<u8>, AllocError> {
    let mut text = Vec::new(alloc);
    for id in 3..units.saturating_add(3) {
        push_number(&mut text, id, b' ')?;
        let is_bad = id == bad.0 || id == bad.1;
        text.extend_from_slice(if is_bad { FAILING } else { PASSING })?;
    }
    text.extend_from_slice(last.as_bytes())?;
    Ok(text)
}

/// The empty clause behind 40 units.
const EMPTY: &str = "43 0 1 2 0\n";

/// Proofs from the contradiction with their verdicts. Seven without units: none, one, without the empty
/// clause, with a hint that names nothing, with one that names the line itself, with a line that fails, and
/// with a clause deleted. Then long ones, of which no part or some two fail.
const PROOFS: [(u64, (u64, u64), &str, Verdict); 17] = [
    (0, (0, 0), "", Verdict::NoEmptyClause),
    (0, (0, 0), "3 0 1 2 0\n", Verdict::Accepted),
    (0, (0, 0), "3 1 0 1 0\n", Verdict::NoEmptyClause),
    (0, (0, 0), "3 0 9 0\n", Verdict::Line(1)),
    (0, (0, 0), "3 0 3 0\n", Verdict::Line(1)),
    (0, (0, 0), "3 1 0 1 0\n4 0 1 0\n5 0 2 0\n", Verdict::Line(2)),
    (0, (0, 0), "3 d 1 0\n4 0 1 2 0\n", Verdict::Accepted),
    (40, (0, 0), EMPTY, Verdict::Accepted),
    (40, (0, 0), "", Verdict::NoEmptyClause),
    (40, (3, 42), EMPTY, Verdict::Line(1)),
    (40, (7, 42), EMPTY, Verdict::Line(5)),
    (40, (8, 42), EMPTY, Verdict::Line(6)),
    (40, (16, 42), EMPTY, Verdict::Line(14)),
    (40, (20, 42), EMPTY, Verdict::Line(18)),
    (40, (27, 42), EMPTY, Verdict::Line(25)),
    (40, (33, 42), EMPTY, Verdict::Line(31)),
    (40, (42, 42), EMPTY, Verdict::Line(40)),
];

/// The place of the first of these proofs with another verdict, and the number of workers.
fn first_misjudged<R: Threads + Sync>(
    rt: &R,
    alloc: Global,
    formula: &Formula,
) -> Result<Option<(usize, u32)>, Fail> {
    for (place, (units, bad, last, expected)) in PROOFS.iter().enumerate() {
        let text = proof(alloc, *units, *bad, last)?;
        if let Some(workers) = first_misjudging(rt, alloc, formula, &text, *expected)? {
            return Ok(Some((place, workers)));
        }
    }
    Ok(None)
}

#[test]
fn judges_proofs(rt: HostRuntime) -> Result<(), Fail> {
    let contradiction = formula(rt.alloc(), 1, "1 0 -1 0")?;
    none_fails(first_misjudged(&rt, rt.alloc(), &contradiction)?)
}

/// A line of nineteen hints, and ten of one.
const UNEVEN: &[u8] = b"3 1 0 1 1 1 1 1 1 1 1 1 1 1 1 1 1 1 1 1 1 1 0\n\
4 1 0 1 0\n5 1 0 1 0\n6 1 0 1 0\n7 1 0 1 0\n8 1 0 1 0\n\
9 1 0 1 0\n10 1 0 1 0\n11 1 0 1 0\n12 1 0 1 0\n13 1 0 1 0\n";

const HALVES: [Part; 2] = [Part { start: 0, end: 1 }, Part { start: 1, end: 11 }];

/// Two lines of one hint.
const EVEN: &[u8] = b"3 1 0 1 0\n4 1 0 1 0\n";

const SINGLE: [Part; 2] = [Part { start: 0, end: 1 }, Part { start: 1, end: 2 }];

/// Whether a proof from two clauses over one variable has these parts for so many workers.
fn has_parts(alloc: Global, text: &[u8], workers: u32, expected: &[Part]) -> Result<bool, Fail> {
    let journal = read_lrat(alloc, text, 2, 1)?;
    let parts = parts_of(alloc, journal.lines(), workers.max(1))?;
    Ok(parts.as_slice() == expected)
}

/// A long line is worth many short ones: with two workers it has a part of its own. With more workers than
/// lines each line has one.
#[test]
fn cuts_by_hints(rt: HostRuntime) -> Result<(), Fail> {
    let has_halves = has_parts(rt.alloc(), UNEVEN, 2, &HALVES)?;
    let has_single = has_parts(rt.alloc(), EVEN, 8, &SINGLE)?;
    assert!(rt; has_halves && has_single);
    Ok(())
}

/// A workspace has room for each variable of a formula: here two units of the last of 2^20 + 1.
#[test]
fn holds_many_variables(rt: HostRuntime) -> Result<(), Fail> {
    let alloc = rt.alloc();
    let units = formula(alloc, 1_048_577, "1048577 0 -1048577 0")?;
    assert!(rt; verdict(&rt, alloc, &units, b"3 0 1 2 0\n", 2)? == Verdict::Accepted);
    Ok(())
}
