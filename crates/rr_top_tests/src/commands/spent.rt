//! Repairs whose budget is spent: what was found is printed and reported, and runs as the table expects; where
//! nothing was found, nothing is printed.
use crate::commands::designs::{
    FOUND_RESETS, LOCK, LOCK_TABLE, RESETS, RESETS_TABLE, TWO, TWO_TABLE,
};
use crate::shelves::{Left, NO_FAILS, NONE, command, leaves, shelf_of};
use rr_edge::MemoryShelf;
use std::alloc::{AllocError, Global};
use std::test::Fail;
use std::thread::Threads;

/// A repair with a budget of one line for one member.
const ONE_LINE: &str = "rtl_repair repair d.v t.csv c --budget 1 --members 1";

// One line is too few to show that one change does not mend both counters. No certificate of a spent budget
// is accepted.
#[test]
fn what_was_found_is_printed(rt: HostRuntime) -> Result<(), Fail> {
    let alloc = rt.alloc();
    let mut shelf = shelf_of(alloc, NONE, RESETS, RESETS_TABLE)?;
    let found = command(&rt, alloc, &mut shelf, ONE_LINE, NO_FAILS)?;
    let notes =
        "budget spent 1 bound 1\nfound 2\nsite 3 literal 130 4'h1\nsite 7 literal 194 4'h1\n";
    assert!(rt; leaves(&found, 2, FOUND_RESETS, notes));
    assert!(rt; found.notes.len() == notes.len());
    let check = "rtl_repair check c.aag c.lrat";
    let verdict = command(&rt, alloc, &mut shelf, check, NO_FAILS)?;
    assert!(rt; leaves(&verdict, 1, "no empty clause\n", ""));
    Ok(())
}

// No values of the three literals make the output 1 in each row, and one line is too few to show it.
#[test]
fn where_nothing_was_found_nothing_is_printed(rt: HostRuntime) -> Result<(), Fail> {
    let alloc = rt.alloc();
    let mut shelf = shelf_of(alloc, NONE, LOCK, LOCK_TABLE)?;
    let found = command(&rt, alloc, &mut shelf, ONE_LINE, NO_FAILS)?;
    let notes = "budget spent 1 bound 3\n";
    assert!(rt; leaves(&found, 2, "", notes));
    assert!(rt; found.notes.len() == notes.len());
    assert!(rt; shelf.held("c.lrat").is_some());
    Ok(())
}

/// Whether a report tells a choice of one change more than this bound, which is left open.
fn tells_bound(alloc: Global, notes: &[u8], bound: u32) -> Result<bool, AllocError> {
    let changes = bound.saturating_add(1);
    let text = format!(in alloc; "budget spent 1 bound {bound}\nfound {changes}\nsite ")?;
    Ok(notes.starts_with(text.as_bytes()))
}

/// The same for some bound below 9.
fn tells_found(alloc: Global, notes: &[u8]) -> Result<bool, AllocError> {
    for bound in 0..9u32 {
        if tells_bound(alloc, notes, bound)? {
            return Ok(true);
        }
    }
    Ok(false)
}

/// Whether a repair by one line ended with status 0, or with status 2 and a choice that was found.
fn is_found(alloc: Global, found: &Left) -> Result<bool, AllocError> {
    match found.status {
        0 => Ok(true),
        2 => tells_found(alloc, found.notes.as_slice()),
        _ => Ok(false),
    }
}

/// Whether a source runs as the table expects, whose cells are all known.
fn runs_as<R: Threads + Sync>(
    rt: &R,
    alloc: Global,
    shelf: &mut MemoryShelf,
    source: &[u8],
    table: &str,
) -> Result<bool, AllocError> {
    shelf.place("r.v", source)?;
    let again = command(rt, alloc, shelf, "rtl_repair run r.v t.csv", NO_FAILS)?;
    Ok(leaves(&again, 0, table, ""))
}

/// Whether a repair by one line ends so; and what it prints then runs as the table expects.
fn runs_again<R: Threads + Sync>(
    rt: &R,
    alloc: Global,
    design: &str,
    table: &str,
) -> Result<bool, AllocError> {
    let mut shelf = shelf_of(alloc, NONE, design, table)?;
    let found = command(rt, alloc, &mut shelf, ONE_LINE, NO_FAILS)?;
    if !is_found(alloc, &found)? {
        return Ok(false);
    }
    runs_as(rt, alloc, &mut shelf, found.out.as_slice(), table)
}

#[test]
fn what_one_line_prints_runs_as_expected(rt: HostRuntime) -> Result<(), Fail> {
    let alloc = rt.alloc();
    assert!(rt; runs_again(&rt, alloc, TWO, TWO_TABLE)?);
    assert!(rt; runs_again(&rt, alloc, RESETS, RESETS_TABLE)?);
    Ok(())
}
