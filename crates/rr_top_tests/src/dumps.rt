//! The commands `repair` and `run` on tables that are value change dumps by their names.
use crate::shelves::{NO_FAILS, NONE, command, leaves, shelf_of};
use std::alloc::{AllocError, Global};
use std::test::Fail;
use std::thread::Threads;

/// A counter that counts by two.
const COUNTER: &str =
    "module counter(input clk, input rst, output reg [3:0] q);\n  always @(posedge clk)\n    if (rst) q <= 4'd0;\n    else q <= q + 4'd2;\nendmodule\n";

/// .. and repaired, so that it counts by one.
const BY_ONE: &str =
    "module counter(input clk, input rst, output reg [3:0] q);\n  always @(posedge clk)\n    if (rst) q <= 4'd0;\n    else q <= q +  4'h1 ;\nendmodule\n";

/// A dump of three cycles of one that counts by one, with this name for the clock and this last change.
fn dump_of(alloc: Global, clock: &str, last: &str) -> Result<String, AllocError> {
    format!(in alloc;
        "$timescale 1ns $end\n$scope module tb $end\n$var wire 1 ! {clock} $end\n$var wire 1 \" rst $end\n$var wire 4 # q [3:0] $end\n$upscope $end\n$enddefinitions $end\n#0\n$dumpvars\n0!\n1\"\nbx #\n$end\n#5\n1!\nb0 #\n#8\n0\"\n#10\n0!\n#15\n1!\nb1 #\n#20\n0!\n#25\n1!\n{last}\n"
    )
}

/// Whether a command on the counter, where a dump has this name, leaves this.
fn ends<R: Threads + Sync>(
    rt: &R,
    alloc: Global,
    command_on: (&str, &str),
    dump: &str,
    due: (u8, &str, &str),
) -> Result<bool, AllocError> {
    let (line, name) = command_on;
    let (status, out, notes) = due;
    let mut shelf = shelf_of(alloc, NONE, COUNTER, "")?;
    shelf.place(name, dump.as_bytes())?;
    let left = command(rt, alloc, &mut shelf, line, NO_FAILS)?;
    Ok(leaves(&left, status, out, notes))
}

const RUN: (&str, &str) = ("rtl_repair run d.v t.vcd", "t.vcd");

const REPAIR: (&str, &str) = ("rtl_repair repair d.v t.vcd c", "t.vcd");

/// What a run on a whole dump leaves.
const ROWS: (u8, &str, &str) = (0, "rst,q\n1,0\n0,0\n0,2\n", "");

#[test]
fn dumps_are_run_and_repaired(rt: HostRuntime) -> Result<(), Fail> {
    let alloc = rt.alloc();
    let dump = dump_of(alloc, "clk", "b10 #")?;
    let run = ends(&rt, alloc, RUN, dump.as_str(), ROWS)?;
    let mended = (0, BY_ONE, "repaired 1\nsite 3 literal 124 4'h1\n");
    let repair = ends(&rt, alloc, REPAIR, dump.as_str(), mended)?;
    assert!(rt; run && repair);
    Ok(())
}

/// Whether both commands refuse the dump with this name for the clock and this last change by this.
fn are_refused<R: Threads + Sync>(
    rt: &R,
    alloc: Global,
    clock: &str,
    last: &str,
    notes: &str,
) -> Result<bool, AllocError> {
    let dump = dump_of(alloc, clock, last)?;
    let run = ends(rt, alloc, RUN, dump.as_str(), (3, "", notes))?;
    let repair = ends(rt, alloc, REPAIR, dump.as_str(), (3, "", notes))?;
    Ok(run && repair)
}

#[test]
fn dumps_are_refused(rt: HostRuntime) -> Result<(), Fail> {
    let alloc = rt.alloc();
    assert!(rt; are_refused(&rt, alloc, "clk", "b10", "refused 41 BadVcd line 28\n")?);
    assert!(rt; are_refused(&rt, alloc, "ck", "b10 #", "refused 42 NoScope\n")?);
    Ok(())
}

/// What a run leaves that takes a dump for rows.
const COLUMN: (u8, &str, &str) = (3, "", "refused 27 UnknownColumn row 0 column 0\n");

/// Names, and what a run on a dump of this name leaves.
const NAMES: [((&str, &str), (u8, &str, &str)); 4] = [
    (("rtl_repair run d.v .vcd", ".vcd"), ROWS),
    (("rtl_repair run d.v t.VCD", "t.VCD"), COLUMN),
    (("rtl_repair run d.v t.vcd.csv", "t.vcd.csv"), COLUMN),
    (("rtl_repair run d.v vcd", "vcd"), COLUMN),
];

/// Whether each name tells its table.
fn are_told<R: Threads + Sync>(rt: &R, alloc: Global, dump: &str) -> Result<bool, AllocError> {
    for (command_on, due) in NAMES.iter() {
        if !ends(rt, alloc, *command_on, dump, *due)? {
            return Ok(false);
        }
    }
    Ok(true)
}

/// The last four bytes of the name alone tell which table it is.
#[test]
fn names_tell_dumps(rt: HostRuntime) -> Result<(), Fail> {
    let alloc = rt.alloc();
    let dump = dump_of(alloc, "clk", "b10 #")?;
    let told = are_told(&rt, alloc, dump.as_str())?;
    assert!(rt; told);
    Ok(())
}
