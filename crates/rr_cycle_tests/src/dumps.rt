//! Runs of a design on value change dumps, and what is told of those that are refused.
use bumpalo::Bump;
use rr_run::{Refusal, RunFault, TableKind, run_files};
use std::alloc::{AllocError, Global};
use std::test::Fail;

/// A counter that counts by two.
const COUNTER: &str =
    "module counter(input clk, input rst, output reg [3:0] q);\n  always @(posedge clk)\n    if (rst) q <= 4'd0;\n    else q <= q + 4'd2;\nendmodule\n";

/// A dump of three cycles with this name for the clock and this last change, which ends in no line feed.
fn dump_of(alloc: Global, clock: &str, last: &str) -> Result<String, AllocError> {
    format!(in alloc;
        "$timescale 1ns $end\n$scope module tb $end\n$var wire 1 ! {clock} $end\n$var wire 1 \" rst $end\n$var wire 4 # q [3:0] $end\n$upscope $end\n$enddefinitions $end\n#0\n$dumpvars\n0!\n1\"\nbx #\n$end\n#5\n1!\nb0 #\n#8\n0\"\n#10\n0!\n#15\n1!\nb1 #\n#20\n0!\n#25\n1!\n{last}\n"
    )
}

/// Whether the run of the counter on a table of a kind gives this, or is refused by this.
fn tells(alloc: Global, kind: TableKind, table: &str, expected: &str) -> Result<bool, AllocError> {
    let arena = Bump::new(alloc);
    let design = COUNTER.as_bytes();
    match run_files(alloc, design, kind, table.as_bytes(), None, None, &arena) {
        Ok(text) => Ok(text.as_slice() == expected.as_bytes()),
        Err(RunFault::Refused(refusal)) => {
            let text = format!(in alloc; "{refusal}")?;
            Ok(text.as_str() == expected)
        }
        Err(RunFault::Memory) => Ok(false),
    }
}

/// The same of a dump with this name for the clock and this last change.
fn tells_of(alloc: Global, clock: &str, last: &str, expected: &str) -> Result<bool, AllocError> {
    let dump = dump_of(alloc, clock, last)?;
    tells(alloc, TableKind::Vcd, dump.as_str(), expected)
}

#[test]
fn runs_of_dumps(rt: HostRuntime) -> Result<(), Fail> {
    let alloc = rt.alloc();
    let expected = "rst,q\n1,0\n0,0\n0,2\n";
    assert!(rt; tells_of(alloc, "clk", "b10 #", expected)?);
    assert!(rt; tells_of(alloc, "\\clk", "bx #", expected)?);
    Ok(())
}

/// The last change has no identifier, or too many digits; no scope has the clock.
#[test]
fn refusals_of_dumps(rt: HostRuntime) -> Result<(), Fail> {
    let alloc = rt.alloc();
    let bad = "41 BadVcd line 28";
    assert!(rt; tells_of(alloc, "clk", "b10", bad)?);
    assert!(rt; tells_of(alloc, "clk", "b10000\n#", bad)?);
    assert!(rt; tells_of(alloc, "ck", "b10 #", "42 NoScope")?);
    assert!(rt; tells_of(alloc, "ck", "b10", bad)?);
    Ok(())
}

/// The bytes of a table of one kind are none of the other.
#[test]
fn kinds_of_tables(rt: HostRuntime) -> Result<(), Fail> {
    let alloc = rt.alloc();
    let dump = dump_of(alloc, "clk", "b10 #")?;
    assert!(rt;
        tells(
            alloc,
            TableKind::Csv,
            dump.as_str(),
            "27 UnknownColumn row 0 column 0"
        )?
    );
    assert!(rt; tells(alloc, TableKind::Vcd, "rst,q\n1,0\n", "41 BadVcd line 1")?);
    Ok(())
}

#[test]
fn texts_of_dumps(rt: HostRuntime) -> Result<(), Fail> {
    let alloc = rt.alloc();
    for (refusal, expected) in [
        (Refusal::BadVcd(28), "41 BadVcd line 28"),
        (
            Refusal::BadVcd(18446744073709551615),
            "41 BadVcd line 18446744073709551615",
        ),
        (Refusal::NoScope, "42 NoScope"),
    ] {
        let text = format!(in alloc; "{refusal}")?;
        assert!(rt; text.as_str() == expected);
    }
    Ok(())
}
