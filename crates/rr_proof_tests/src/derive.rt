//! Texts of proofs, and the check of their lines.
use crate::helpers::{first_failing_line, formula, none_fails};
use rr_cnf::{Clause, Formula};
use rr_derive::{Journal, ProofFault, position, read_lrat, write_lrat};
use std::alloc::Global;
use std::test::Fail;

/// Texts over a formula of two clauses and three variables, with the number of additions that they
/// have, or the first bad line.
const TEXTS: [(&[u8], Result<usize, ProofFault>); 61] = [
    (b"", Ok(0)),
    (b"3 0 1 2 0\n", Ok(1)),
    (b"3 1 0 1 0\n4 0 1 0\n5 0 2 0\n", Ok(3)),
    (b"3 1 0 1 0\n", Ok(1)),
    (b"3 0 9 0\n", Ok(1)),
    (b"3 0 3 0\n", Ok(1)),
    (b"3 d 1 0\n4 0 1 2 0\n", Ok(1)),
    (b"7 d 0\n", Ok(0)),
    (b"1 d 2 1 7 0\n3 0 0\n", Ok(1)),
    (b"9 -1 2 3 0 1 2 8 0\n12 0 0\n", Ok(2)),
    (b"4611686018427387903 1 0 4611686018427387903 0\n", Ok(1)),
    (b"3 1 1 0 1 0\n", Ok(1)),
    (b"3 -3 0 0\n", Ok(1)),
    (b"3 0 1 2", Err(ProofFault::BadProof(1))),
    (b"3 0 1 2 0", Err(ProofFault::BadProof(1))),
    (b"3 0 1 2\n", Err(ProofFault::BadProof(1))),
    (b"3", Err(ProofFault::BadProof(1))),
    (b"3 ", Err(ProofFault::BadProof(1))),
    (b"\n", Err(ProofFault::BadProof(1))),
    (b"3 0 1 0\n\n", Err(ProofFault::BadProof(2))),
    (b"2 0 1 0\n", Err(ProofFault::BadProof(1))),
    (b"3 2 0 1 0\n4 4 0 1 0\n", Err(ProofFault::BadProof(2))),
    (b"3 1 -1 0 1 0\n", Err(ProofFault::BadProof(1))),
    (b"3 -1 2 1 0 1 0\n", Err(ProofFault::BadProof(1))),
    (b"3  0 1 0\n", Err(ProofFault::BadProof(1))),
    (b"3 0  1 0\n", Err(ProofFault::BadProof(1))),
    (b" 3 0 1 0\n", Err(ProofFault::BadProof(1))),
    (b"3 0 1 0 \n", Err(ProofFault::BadProof(1))),
    (b"3 0 1 0\r\n", Err(ProofFault::BadProof(1))),
    (b"3\t0 1 0\n", Err(ProofFault::BadProof(1))),
    (b"4 0 1 0\n3 0 1 0\n", Err(ProofFault::BadProof(2))),
    (b"3 0 1 0\n3 0 1 0\n", Err(ProofFault::BadProof(2))),
    (b"4611686018427387904 0 1 0\n", Err(ProofFault::BadProof(1))),
    (b"3 0 4611686018427387904 0\n", Err(ProofFault::BadProof(1))),
    (b"03 0 1 0\n", Err(ProofFault::BadProof(1))),
    (b"3 01 0 1 0\n", Err(ProofFault::BadProof(1))),
    (b"3 0 01 0\n", Err(ProofFault::BadProof(1))),
    (b"+3 0 1 0\n", Err(ProofFault::BadProof(1))),
    (b"-3 0 1 0\n", Err(ProofFault::BadProof(1))),
    (b"0 0 1 0\n", Err(ProofFault::BadProof(1))),
    (b"3 0 1\n0\n", Err(ProofFault::BadProof(1))),
    (b"3 00 1 0\n", Err(ProofFault::BadProof(1))),
    (b"3 0 1 00\n", Err(ProofFault::BadProof(1))),
    (b"3 --1 0 1 0\n", Err(ProofFault::BadProof(1))),
    (b"3 - 1 0 1 0\n", Err(ProofFault::BadProof(1))),
    (b"3 d 1\n", Err(ProofFault::BadProof(1))),
    (b"3 d -1 0\n", Err(ProofFault::BadProof(1))),
    (b"3 d 1 0 0\n", Err(ProofFault::BadProof(1))),
    (b"3 D 1 0\n", Err(ProofFault::BadProof(1))),
    (b"3 d1 0\n", Err(ProofFault::BadProof(1))),
    (b"d 1 0\n", Err(ProofFault::BadProof(1))),
    (b"3 0 1 0 4 0\n", Err(ProofFault::BadProof(1))),
    (b"3 1 2 0\n", Err(ProofFault::BadProof(1))),
    (b"c 3 0 1 0\n", Err(ProofFault::BadProof(1))),
    (b"3 0 -1 2 0\n", Err(ProofFault::RatLine(1))),
    (b"3 0 1 0\n4 1 0 1 -2 0\n", Err(ProofFault::RatLine(2))),
    (b"2 0 -1 0\n", Err(ProofFault::RatLine(1))),
    (b"3 9 0 -1 0\n", Err(ProofFault::RatLine(1))),
    (b"3 1 -1 0 -1 0\n", Err(ProofFault::RatLine(1))),
    (b"3 0 -1 2 0", Err(ProofFault::BadProof(1))),
    (
        b"3 0 1 0\n2 0 1 0\n4 0 -1 0\n",
        Err(ProofFault::BadProof(2)),
    ),
];

/// The place of the first of these texts that is read otherwise.
fn first_misread(alloc: Global, texts: &[(&[u8], Result<usize, ProofFault>)]) -> Option<usize> {
    for (place, (text, expected)) in texts.iter().enumerate() {
        let read = read_lrat(alloc, text, 2, 3).map(|journal| journal.lines().len());
        if read != *expected {
            return Some(place);
        }
    }
    None
}

#[test]
fn reads_texts(rt: HostRuntime) -> Result<(), Fail> {
    none_fails(first_misread(rt.alloc(), &TEXTS))
}

const WRITTEN: &[u8] = b"3 -1 2 0 1 2 0\n7 0 0\n4611686018427387903 3 0 9 7 0\n";

#[test]
fn writes_what_it_reads(rt: HostRuntime) -> Result<(), Fail> {
    let journal = read_lrat(rt.alloc(), WRITTEN, 2, 3)?;
    let place = position(journal.lines(), 7);
    let text = write_lrat(rt.alloc(), &journal)?;
    assert!(rt; place == Some(1) && text.as_slice() == WRITTEN);
    Ok(())
}

#[test]
fn writes_what_is_pushed(rt: HostRuntime) -> Result<(), Fail> {
    let empty = Clause::from_lits(rt.alloc(), &[])?;
    let mut journal = Journal::new(rt.alloc(), 3);
    let id = journal.push(empty, Vec::new(rt.alloc()))?;
    let text = write_lrat(rt.alloc(), &journal)?;
    assert!(rt; id == 3 && text.as_slice() == b"3 0 0\n".as_slice());
    Ok(())
}

/// The number of the first line of this proof that fails, from 1; 0 where all pass.
fn judged(alloc: Global, formula: &Formula, text: &[u8]) -> Result<u64, Fail> {
    if formula.len() > 1_000 {
        return Err(Fail::from("too many clauses"));
    }
    let journal = read_lrat(alloc, text, formula.len(), formula.vars())?;
    first_failing_line(alloc, formula, &journal)
}

/// Proofs from the contradiction, with the number of the first line that fails, or 0.
const LINES: [(&[u8], u64); 12] = [
    (b"", 0),
    (b"3 0 1 2 0\n", 0),
    (b"3 0 2 1 0\n", 0),
    (b"3 1 0 1 0\n4 0 1 0\n5 0 2 0\n", 2),
    (b"3 1 0 1 0\n4 0 3 2 0\n", 0),
    (b"3 0 9 0\n", 1),
    (b"3 0 3 0\n", 1),
    (b"3 0 0\n", 1),
    (b"3 d 1 0\n4 0 1 2 0\n", 0),
    (b"3 0 1 2 9 0\n", 0),
    (b"3 2 3 0 1 1 2 0\n", 1),
    (b"3 2 2 -3 0 1 2 0\n4 2 0 3 0\n", 2),
];

/// The place of the first of these proofs of which another line fails first.
fn first_misjudged(alloc: Global, formula: &Formula) -> Result<Option<usize>, Fail> {
    for (place, (text, failing)) in LINES.iter().enumerate() {
        if judged(alloc, formula, text)? != *failing {
            return Ok(Some(place));
        }
    }
    Ok(None)
}

#[test]
fn checks_lines(rt: HostRuntime) -> Result<(), Fail> {
    let contradiction = formula(rt.alloc(), 3, "1 0 -1 0")?;
    none_fails(first_misjudged(rt.alloc(), &contradiction)?)
}
