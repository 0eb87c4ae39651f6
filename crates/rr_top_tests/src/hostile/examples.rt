//! Worked examples, with the status, the output and the report of each.
use crate::hostile::designs::{
    CELLS, COUNTER, COUNTER_TABLE, GATE, INSTANCES, INSTANCES_TABLE, INVERTED, INVERTED_TABLE,
    MENDED_COUNTER, MENDED_INSTANCES, MENDED_INVERTED, MENDED_MISSING, MENDED_TWO, MENDED_UNSIZED,
    MISSING, MISSING_TABLE, SWAP, TRANSMITTER, TRANSMITTER_RUN, TRANSMITTER_TABLE, TWO, TWO_TABLE,
    UNSIZED, WIRE,
};
use crate::shelves::{Left, NO_FAILS, NONE, command, leaves, shelf_of};
use std::alloc::Global;
use std::test::Fail;
use std::thread::Threads;

const REPAIR: &str = "rtl_repair repair d.v t.csv c";

/// A command over a design and its table, what it leaves, and whether a certificate is written.
#[derive(Clone, Copy)]
struct Example {
    line: &'static str,
    design: &'static str,
    table: &'static str,
    status: u8,
    out: &'static str,
    notes: &'static str,
    certified: bool,
}

/// The repair of a counter, which changes one literal.
const FIRST: Example = Example {
    line: REPAIR,
    design: COUNTER,
    table: COUNTER_TABLE,
    status: 0,
    out: MENDED_COUNTER,
    notes: "repaired 1\nsite 3 literal 124 4'h1\nproposals ",
    certified: true,
};

/// Designs that match their tables as they are.
const KEPT: Example = Example {
    notes: "unchanged\n",
    certified: false,
    ..FIRST
};

const EXAMPLES: [Example; 9] = [
    FIRST,
    Example {
        design: INVERTED,
        table: INVERTED_TABLE,
        out: MENDED_INVERTED,
        notes: "repaired 1\nsite 1 guard 78 !(E)\nproposals ",
        ..FIRST
    },
    Example {
        design: MISSING,
        table: MISSING_TABLE,
        out: MENDED_MISSING,
        notes: "repaired 1\nsite 0 overwrite 80 if (rst) q <= 4'h0;\nproposals ",
        ..FIRST
    },
    Example {
        design: TWO,
        table: TWO_TABLE,
        out: MENDED_TWO,
        notes: "repaired 2\nsite 1 literal 94 4'h1\nsite 3 literal 133 4'h1\nproposals ",
        ..FIRST
    },
    Example {
        table: "rst,q\n",
        out: COUNTER,
        ..KEPT
    },
    Example {
        line: "rtl_repair repair d.v t.csv c --budget 1",
        design: GATE,
        table: "a,y\n1,1\n",
        out: GATE,
        ..KEPT
    },
    Example {
        design: CELLS,
        table: "a,y\n1,x\n2,\n9,0b1x01\n",
        out: CELLS,
        ..KEPT
    },
    Example {
        design: CELLS,
        table: "a,y\n1,x\n2,\n9,16\n",
        status: 3,
        out: "",
        notes: "refused 32 CellTooLarge row 3 column 1\n",
        ..KEPT
    },
    Example {
        line: "rtl_repair run d.v t.csv",
        design: SWAP,
        table: "ld\n1\n0\n0\n",
        out: "ld,a,b\n1,0,0\n0,1,0\n0,0,1\n",
        notes: "",
        ..KEPT
    },
];

#[test]
fn examples_end_as_shown(rt: HostRuntime) -> Result<(), Fail> {
    let alloc = rt.alloc();
    for case in EXAMPLES.iter() {
        let mut shelf = shelf_of(alloc, NONE, case.design, case.table)?;
        let found = command(&rt, alloc, &mut shelf, case.line, NO_FAILS)?;
        assert!(rt;
            leaves(&found, case.status, case.out, case.notes),
            "{}",
            case.notes
        );
        assert!(rt;
            shelf.held("c.lrat").is_some() == case.certified,
            "{}",
            case.notes
        );
    }
    Ok(())
}

/// What the repair of a design by its table leaves.
fn repaired<R: Threads + Sync>(
    rt: &R,
    alloc: Global,
    design: &str,
    table: &str,
) -> Result<Left, Fail> {
    let mut shelf = shelf_of(alloc, NONE, design, table)?;
    Ok(command(rt, alloc, &mut shelf, REPAIR, NO_FAILS)?)
}

// The upper digits of a literal without a size are cut by its target, so they are free.
#[test]
fn a_literal_without_a_size_is_replaced(rt: HostRuntime) -> Result<(), Fail> {
    let found = repaired(&rt, rt.alloc(), UNSIZED, COUNTER_TABLE)?;
    let (front, back) = MENDED_UNSIZED;
    assert!(rt; found.status == 0);
    assert!(rt; found.notes.as_slice().starts_with(b"repaired 1\n"));
    assert!(rt; found.out.as_slice().starts_with(front.as_bytes()));
    assert!(rt; found.out.as_slice().ends_with(back.as_bytes()));
    assert!(rt; found.out.len() == front.len() + 7 + back.len());
    Ok(())
}

#[test]
fn one_literal_serves_two_instances(rt: HostRuntime) -> Result<(), Fail> {
    let found = repaired(&rt, rt.alloc(), INSTANCES, INSTANCES_TABLE)?;
    let [low, high] = MENDED_INSTANCES;
    let notes = "repaired 1\n";
    assert!(rt; leaves(&found, 0, low, notes) || leaves(&found, 0, high, notes));
    Ok(())
}

// The texts are fixed: the circuit's outputs are the constants that the rows ask, and the count of changes.
#[test]
fn the_certificate_of_no_repair(rt: HostRuntime) -> Result<(), Fail> {
    let alloc = rt.alloc();
    let mut shelf = shelf_of(alloc, NONE, WIRE, "a,y\n0,0\n0,1\n")?;
    let found = command(&rt, alloc, &mut shelf, REPAIR, NO_FAILS)?;
    assert!(rt; leaves(&found, 1, "", "no repair\nsites 0\n"));
    assert!(rt; shelf.held("c.aag") == Some(b"aag 0 0 0 3 0\n1\n0\n1\n"));
    assert!(rt; shelf.held("c.cnf") == Some(b"p cnf 0 1\n0\n"));
    assert!(rt; shelf.held("c.lrat") == Some(b"2 0 1 0\n"));
    Ok(())
}

#[test]
fn a_transmitter_runs_and_is_repaired(rt: HostRuntime) -> Result<(), Fail> {
    let alloc = rt.alloc();
    let mut shelf = shelf_of(alloc, NONE, TRANSMITTER, TRANSMITTER_TABLE)?;
    let line = "rtl_repair run d.v t.csv";
    let found = command(&rt, alloc, &mut shelf, line, NO_FAILS)?;
    assert!(rt; leaves(&found, 0, TRANSMITTER_RUN, ""));
    let found = command(&rt, alloc, &mut shelf, REPAIR, NO_FAILS)?;
    assert!(rt; found.status == 0);
    assert!(rt; found.notes.as_slice().starts_with(b"repaired 1\n"));
    let line = "rtl_repair check c.aag c.lrat";
    let found = command(&rt, alloc, &mut shelf, line, NO_FAILS)?;
    assert!(rt; leaves(&found, 0, "accepted\n", ""));
    Ok(())
}

const CIRCUIT: &str = "aag 1 1 0 2 0\n2\n2\n3\n";

/// Proofs over a circuit with an output and its negation.
const PROOFS: [(&str, u8, &str, &str); 5] = [
    ("3 0 1 2 0\n", 0, "accepted\n", ""),
    ("3 0 1 2\n", 3, "", "refused 35 BadProof line 1\n"),
    (
        "3 1 0 1 0\n4 0 1 0\n5 0 2 0\n",
        1,
        "refused addition 2\n",
        "",
    ),
    ("3 1 0 1 0\n", 1, "no empty clause\n", ""),
    ("3 0 -1 2 0\n", 3, "", "refused 36 RatLine line 1\n"),
];

#[test]
fn small_proofs_are_judged(rt: HostRuntime) -> Result<(), Fail> {
    let alloc = rt.alloc();
    for (proof, status, out, notes) in PROOFS.iter() {
        let mut shelf = shelf_of(alloc, NONE, CIRCUIT, *proof)?;
        let found = command(
            &rt,
            alloc,
            &mut shelf,
            "rtl_repair check d.v t.csv",
            NO_FAILS,
        )?;
        assert!(rt; leaves(&found, *status, *out, *notes), "{proof}");
    }
    Ok(())
}
