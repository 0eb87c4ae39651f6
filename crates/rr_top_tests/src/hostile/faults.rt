//! Each call of a repair failing in turn: what is printed, what is told, and which files are whole.
use crate::commands::designs::{FOUND_RESETS, RESETS, RESETS_TABLE};
use crate::hostile::designs::{COUNTER, COUNTER_TABLE, MENDED_COUNTER};
use crate::shelves::{Fails, NO_FAILS, NONE, command, leaves, shelf_of};
use rr_edge::MemoryShelf;
use std::alloc::{AllocError, Global};
use std::test::Fail;
use std::thread::Threads;

/// Which calls fail, and what is wanted: so many files of the certificate are whole.
#[derive(Clone, Copy)]
struct Fault {
    fails: Fails,
    status: u8,
    out: &'static str,
    notes: &'static str,
    whole: usize,
}

/// Nothing fails.
const FINE: Fault = Fault {
    fails: NO_FAILS,
    status: 0,
    out: MENDED_COUNTER,
    notes: "repaired 1\nsite 3 literal 124 4'h1\nproposals ",
    whole: 3,
};

/// A call of the shelf fails.
const OF_SHELF: Fault = Fault {
    status: 4,
    out: "",
    ..FINE
};

const FAULTS: [Fault; 8] = [
    FINE,
    Fault {
        fails: Fails {
            shelf: 0,
            ..NO_FAILS
        },
        notes: "fault read d.v\n",
        whole: 0,
        ..OF_SHELF
    },
    Fault {
        fails: Fails {
            shelf: 1,
            ..NO_FAILS
        },
        notes: "fault read t.csv\n",
        whole: 0,
        ..OF_SHELF
    },
    Fault {
        fails: Fails {
            shelf: 2,
            ..NO_FAILS
        },
        notes: "fault write c.aag\n",
        whole: 0,
        ..OF_SHELF
    },
    Fault {
        fails: Fails {
            shelf: 3,
            ..NO_FAILS
        },
        notes: "fault write c.cnf\n",
        whole: 1,
        ..OF_SHELF
    },
    Fault {
        fails: Fails {
            shelf: 4,
            ..NO_FAILS
        },
        notes: "fault write c.lrat\n",
        whole: 2,
        ..OF_SHELF
    },
    Fault {
        fails: Fails { out: 0, ..NO_FAILS },
        notes: "fault out\n",
        ..OF_SHELF
    },
    Fault {
        fails: Fails {
            notes: 0,
            ..NO_FAILS
        },
        status: 4,
        notes: "",
        ..FINE
    },
];

/// Nothing fails, and the repair is left open with a choice that was found.
const OPEN: Fault = Fault {
    fails: NO_FAILS,
    status: 2,
    out: FOUND_RESETS,
    notes: "budget spent 1 bound 1\nfound 2\nsite 3 literal 130 4'h1\nsite 7 literal 194 4'h1\n",
    whole: 3,
};

/// One of the five writes of such a repair fails.
const OF_OPEN: Fault = Fault {
    status: 4,
    out: "",
    ..OPEN
};

const OPEN_FAULTS: [Fault; 6] = [
    OPEN,
    Fault {
        fails: Fails {
            shelf: 2,
            ..NO_FAILS
        },
        notes: "fault write c.aag\n",
        whole: 0,
        ..OF_OPEN
    },
    Fault {
        fails: Fails {
            shelf: 3,
            ..NO_FAILS
        },
        notes: "fault write c.cnf\n",
        whole: 1,
        ..OF_OPEN
    },
    Fault {
        fails: Fails {
            shelf: 4,
            ..NO_FAILS
        },
        notes: "fault write c.lrat\n",
        whole: 2,
        ..OF_OPEN
    },
    Fault {
        fails: Fails { out: 0, ..NO_FAILS },
        notes: "fault out\n",
        ..OF_OPEN
    },
    Fault {
        fails: Fails {
            notes: 0,
            ..NO_FAILS
        },
        status: 4,
        notes: "",
        ..OPEN
    },
];

const CERTIFICATE: [&str; 3] = ["c.aag", "c.cnf", "c.lrat"];

/// A design, its table, and the line of its repair.
#[derive(Clone, Copy)]
struct Repair {
    design: &'static str,
    table: &'static str,
    line: &'static str,
}

/// Whether so many files of the certificate are those of another shelf, the others are as before, and the design and the
/// table are as they were.
fn keeps(shelf: &MemoryShelf, fine: &MemoryShelf, whole: usize, repair: Repair) -> bool {
    for (held, name) in CERTIFICATE.iter().enumerate() {
        let due = if held < whole {
            fine.held(*name)
        } else {
            Some(b"old".as_slice())
        };
        if shelf.held(*name) != due {
            return false;
        }
    }
    shelf.held("d.v") == Some(repair.design.as_bytes())
        && shelf.held("t.csv") == Some(repair.table.as_bytes())
}

/// The shelf of a repair with an old certificate, of which the call with this number fails.
fn old_shelf(alloc: Global, fails: u64, repair: Repair) -> Result<MemoryShelf, AllocError> {
    let mut shelf = shelf_of(alloc, fails, repair.design, repair.table)?;
    for name in CERTIFICATE.iter() {
        shelf.place(*name, b"old")?;
    }
    Ok(shelf)
}

/// Whether a repair with this fault ends as it is to, where this is the shelf of one without a fault.
fn ends_right<R: Threads + Sync>(
    rt: &R,
    alloc: Global,
    repair: Repair,
    case: &Fault,
    fine: &MemoryShelf,
) -> Result<bool, AllocError> {
    let mut shelf = old_shelf(alloc, case.fails.shelf, repair)?;
    let found = command(rt, alloc, &mut shelf, repair.line, case.fails)?;
    Ok(leaves(&found, case.status, case.out, case.notes) && keeps(&shelf, fine, case.whole, repair))
}

/// The report of the first of these faults that does not end as it is to.
fn first_wrong<R: Threads + Sync>(
    rt: &R,
    alloc: Global,
    repair: Repair,
    faults: &[Fault],
) -> Result<Option<&'static str>, AllocError> {
    let mut fine = shelf_of(alloc, NONE, repair.design, repair.table)?;
    command(rt, alloc, &mut fine, repair.line, NO_FAILS)?;
    for case in faults.iter() {
        if !ends_right(rt, alloc, repair, case, &fine)? {
            return Ok(Some(case.notes));
        }
    }
    Ok(None)
}

#[test]
fn each_call_fails_in_turn(rt: HostRuntime) -> Result<(), Fail> {
    let repair = Repair {
        design: COUNTER,
        table: COUNTER_TABLE,
        line: "rtl_repair repair d.v t.csv c",
    };
    let wrong = first_wrong(&rt, rt.alloc(), repair, &FAULTS)?;
    assert!(rt; wrong.is_none(), "{}", wrong.unwrap_or(""));
    Ok(())
}

#[test]
fn each_write_of_an_open_repair_fails_in_turn(rt: HostRuntime) -> Result<(), Fail> {
    let repair = Repair {
        design: RESETS,
        table: RESETS_TABLE,
        line: "rtl_repair repair d.v t.csv c --budget 1 --members 1",
    };
    let wrong = first_wrong(&rt, rt.alloc(), repair, &OPEN_FAULTS)?;
    assert!(rt; wrong.is_none(), "{}", wrong.unwrap_or(""));
    Ok(())
}
