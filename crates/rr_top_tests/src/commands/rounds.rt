//! Repairs whose certificates are checked and whose sources are run again.
use crate::commands::designs::{
    COUNTER, COUNTER_TABLE, TRANSMITTER, TRANSMITTER_TABLE, TWO, TWO_TABLE, WIRE, WIRE_TABLE,
};
use crate::shelves::{Fails, NO_FAILS, NONE, command, leaves, shelf_of};
use std::alloc::Global;
use std::test::Fail;
use std::thread::Threads;

/// Whether a repair ends with this status and notes that begin so, and its certificate is accepted.
fn certifies<R: Threads + Sync>(
    rt: &R,
    alloc: Global,
    design: &str,
    table: &str,
    status: u8,
    notes: &str,
) -> Result<bool, Fail> {
    let mut shelf = shelf_of(alloc, NONE, design, table)?;
    let found = command(
        rt,
        alloc,
        &mut shelf,
        "rtl_repair repair d.v t.csv c",
        NO_FAILS,
    )?;
    let verdict = command(
        rt,
        alloc,
        &mut shelf,
        "rtl_repair check c.aag c.lrat",
        NO_FAILS,
    )?;
    Ok(
        found.status == status
            && found.notes.as_slice().starts_with(notes.as_bytes())
            && leaves(&verdict, 0, "accepted\n", ""),
    )
}

#[test]
fn certificates_are_accepted(rt: HostRuntime) -> Result<(), Fail> {
    let alloc = rt.alloc();
    assert!(rt; certifies(&rt, alloc, TWO, TWO_TABLE, 0, "repaired 2\n")?);
    assert!(rt; certifies(&rt, alloc, WIRE, WIRE_TABLE, 1, "no repair\nsites 0\n")?);
    Ok(())
}

#[test]
fn a_transmitter_is_repaired(rt: HostRuntime) -> Result<(), Fail> {
    let alloc = rt.alloc();
    let done = certifies(
        &rt,
        alloc,
        TRANSMITTER,
        TRANSMITTER_TABLE,
        0,
        "repaired 1\n",
    )?;
    assert!(rt; done);
    Ok(())
}

/// Whether a repair by each number of members reports notes that begin so.
fn agree<R: Threads + Sync>(
    rt: &R,
    alloc: Global,
    design: &str,
    table: &str,
    notes: &str,
) -> Result<bool, Fail> {
    for line in [
        "rtl_repair repair d.v t.csv c --members 1",
        "rtl_repair repair d.v t.csv c --members 2",
        "rtl_repair repair d.v t.csv c --members 4",
        "rtl_repair repair d.v t.csv c --members 8",
    ] {
        let mut shelf = shelf_of(alloc, NONE, design, table)?;
        let found = command(rt, alloc, &mut shelf, line, NO_FAILS)?;
        if found.status != 0 || !found.notes.as_slice().starts_with(notes.as_bytes()) {
            return Ok(false);
        }
    }
    Ok(true)
}

#[test]
fn any_number_of_members_finds_the_same_cost(rt: HostRuntime) -> Result<(), Fail> {
    let alloc = rt.alloc();
    assert!(rt; agree(&rt, alloc, COUNTER, COUNTER_TABLE, "repaired 1\n")?);
    assert!(rt; agree(&rt, alloc, TWO, TWO_TABLE, "repaired 2\n")?);
    assert!(rt; agree(&rt, alloc, TRANSMITTER, TRANSMITTER_TABLE, "repaired 1\n")?);
    Ok(())
}

// The front of the source that has room is put out, after the three files were written.
#[test]
fn a_small_room(rt: HostRuntime) -> Result<(), Fail> {
    let alloc = rt.alloc();
    let mut shelf = shelf_of(alloc, NONE, COUNTER, COUNTER_TABLE)?;
    let line = "rtl_repair repair d.v t.csv c";
    let small = Fails {
        room: 100,
        ..NO_FAILS
    };
    let found = command(&rt, alloc, &mut shelf, line, small)?;
    let front =
        "module counter(input clk, input rst, output reg [3:0] q);\n  always @(posedge clk)\n    if (rst) q <= ";
    assert!(rt; leaves(&found, 4, front, "fault out\n"));
    assert!(rt; shelf.held("c.aag").is_some());
    assert!(rt; shelf.held("c.cnf").is_some());
    assert!(rt; shelf.held("c.lrat").is_some());
    Ok(())
}

#[test]
fn what_is_printed_runs_as_expected(rt: HostRuntime) -> Result<(), Fail> {
    let alloc = rt.alloc();
    let mut shelf = shelf_of(alloc, NONE, COUNTER, COUNTER_TABLE)?;
    let found = command(
        &rt,
        alloc,
        &mut shelf,
        "rtl_repair repair d.v t.csv c",
        NO_FAILS,
    )?;
    shelf.place("r.v", found.out.as_slice())?;
    let again = command(&rt, alloc, &mut shelf, "rtl_repair run r.v t.csv", NO_FAILS)?;
    assert!(rt; leaves(&again, 0, COUNTER_TABLE, ""));
    Ok(())
}
