//! Repairs of small designs.

ghost use Rattle.std.specs.Prelude.{◌≡◌};

use crate::designs::{
    BANK, BANK_TABLE, CELLS, COPY, COPY_TABLE, COUNTER, COUNTER_TABLE, GATE, GATE_TABLE, INSTANCES,
    INSTANCES_TABLE, INVERTED, INVERTED_TABLE, JOINED_TABLE, LOAD, LOAD_TABLE, LOCK, LOCK_TABLE,
    MISSING, MISSING_TABLE, NAMES, NAMES_TABLE, ONES, ONES_TABLE, RESETS, RESETS_TABLE, SET,
    SET_TABLE, STEPS, STEPS_TABLE, SUMS, SUMS_TABLE, TWO, TWO_TABLE, VALUE, VALUE_TABLE, WIRE,
    WIRE_TABLE,
};
use bumpalo::Bump;
use rr_endings::{Found, Refusal, Stop};
use rr_repair::{Request, repair};
use rr_run::{Refusal as RunRefusal, TableKind};
use std::alloc::Global;
use std::test::Fail;
use std::thread::Threads;

/// A repair with so many lines for each of so many members.
fn request(budget: u32, members: u32) -> Request<'static>
    ensures budget { result.budget ≡ budget }
    ensures members { result.members ≡ members }
{
    Request {
        kind: TableKind::Csv,
        top: None,
        clock: None,
        cert: "c",
        budget,
        members,
    }
}

/// Whether what is to be done prints this, reports this and has this status.
fn does(found: &Found<'_>, out: &str, notes: &str, status: u8) -> bool {
    found.status == status
        && found.out.as_bytes() == out.as_bytes()
        && found.notes.as_bytes() == notes.as_bytes()
}

/// Whether the repair of a design by its table prints this, reports this and has this status.
fn prints<R: Threads + Sync>(
    rt: &R,
    alloc: Global,
    design: &str,
    table: &str,
    out: &str,
    notes: &str,
    status: u8,
) -> Result<bool, Fail> {
    let arena = Bump::new(alloc);
    if design.len() > 1000 {
        return Err(Fail::from("a text too long"));
    }
    match repair(
        rt,
        alloc,
        design.as_bytes(),
        table.as_bytes(),
        &request(1000, 2),
        &arena,
    ) {
        Err(_) => Err(Fail::from("stopped")),
        Ok(found) => Ok(does(&found, out, notes, status)),
    }
}

/// Whether the repair of a design by its table reports this first.
fn reports<R: Threads + Sync>(
    rt: &R,
    alloc: Global,
    design: &str,
    table: &str,
    notes: &str,
) -> bool {
    if design.len() > 1000 {
        return false;
    }
    let arena = Bump::new(alloc);
    match repair(
        rt,
        alloc,
        design.as_bytes(),
        table.as_bytes(),
        &request(1000, 2),
        &arena,
    ) {
        Err(_) => false,
        Ok(found) => found.notes.as_bytes().starts_with(notes.as_bytes()),
    }
}

/// Each of these designs has least repairs of several kinds, of which the plainest is printed: a literal, a
/// negated condition, one that is joined with a name, and a last assignment that is always made.
#[test]
fn of_several_the_plainest(rt: HostRuntime) -> Result<(), Fail> {
    let alloc = rt.alloc();
    assert!(rt;
        reports(
            &rt,
            alloc,
            SET,
            SET_TABLE,
            "repaired 1\nsite 3 literal 96 1'h1\n"
        )
    );
    assert!(rt;
        reports(
            &rt,
            alloc,
            LOAD,
            LOAD_TABLE,
            "repaired 1\nsite 1 guard 81 !(E)\n"
        )
    );
    assert!(rt;
        reports(
            &rt,
            alloc,
            LOAD,
            JOINED_TABLE,
            "repaired 1\nsite 1 guard 81 (E) || "
        )
    );
    assert!(rt;
        reports(
            &rt,
            alloc,
            COPY,
            COPY_TABLE,
            "repaired 1\nsite 0 overwrite 68 if (1'h1) q <= 1'h1;\n"
        )
    );
    Ok(())
}

#[test]
fn a_literal_is_replaced(rt: HostRuntime) -> Result<(), Fail> {
    let out = "module m(input a, output y);\n  assign y = a &  1'h1 ;\nendmodule\n";
    let notes = "repaired 1\nsite 0 literal 46 1'h1\nproposals 1\n";
    assert!(rt; prints(&rt, rt.alloc(), GATE, GATE_TABLE, out, notes, 0)?);
    let out =
        "module counter(input clk, input rst, output reg [3:0] q);\n  always @(posedge clk)\n    if (rst) q <= 4'd0;\n    else q <= q +  4'h1 ;\nendmodule\n";
    let notes = "repaired 1\nsite 3 literal 124 4'h1\nproposals 1\n";
    assert!(rt; prints(&rt, rt.alloc(), COUNTER, COUNTER_TABLE, out, notes, 0)?);
    Ok(())
}

#[test]
fn a_condition_is_guarded(rt: HostRuntime) -> Result<(), Fail> {
    let out =
        "module m(input clk, input rst, output reg q);\n  always @(posedge clk)\n    if ( ! ( !rst ) ) q <= 1'b0;\n    else q <= ~q;\nendmodule\n";
    let notes = "repaired 1\nsite 1 guard 78 !(E)\nproposals 1\n";
    assert!(rt; prints(&rt, rt.alloc(), INVERTED, INVERTED_TABLE, out, notes, 0)?);
    Ok(())
}

/// Whether the repair of a design by its table prints this and reports this first.
fn mends<R: Threads + Sync>(
    rt: &R,
    alloc: Global,
    design: &str,
    table: &str,
    out: &str,
    notes: &str,
) -> bool {
    if design.len() > 1000 {
        return false;
    }
    let arena = Bump::new(alloc);
    match repair(
        rt,
        alloc,
        design.as_bytes(),
        table.as_bytes(),
        &request(1000, 2),
        &arena,
    ) {
        Err(_) => false,
        Ok(found) => {
            found.out.as_bytes() == out.as_bytes()
                && found.notes.as_bytes().starts_with(notes.as_bytes())
        }
    }
}

/// In each turn the condition is that of its bit, and one change negates them all.
#[test]
fn a_condition_in_a_loop_is_negated(rt: HostRuntime) -> Result<(), Fail> {
    let out =
        "module m(input [3:0] a, output reg [2:0] y);\n  integer i;\n  always @* begin\n    y = 3'd0;\n    for (i = 0; i < 4; i = i + 1)\n      if ( ! ( !a[i] ) ) y = y + 3'd1;\n  end\nendmodule\n";
    assert!(rt;
        mends(
            &rt,
            rt.alloc(),
            ONES,
            ONES_TABLE,
            out,
            "repaired 1\nsite 2 guard 134 !(E)\n"
        )
    );
    Ok(())
}

/// A word is not to be written where it is locked.
#[test]
fn a_write_of_a_word_is_guarded(rt: HostRuntime) -> Result<(), Fail> {
    let out =
        "module m(input clk, input we, input lock, input [1:0] a, input [3:0] d, output [3:0] y);\n  reg [3:0] r [0:3];\n  assign y = r[a];\n  always @(posedge clk) if ( ( we ) && ! lock ) r[a] <= d;\nendmodule\n";
    let notes = "repaired 1\nsite 0 guard 157 (E) && !lock\n";
    assert!(rt; mends(&rt, rt.alloc(), BANK, BANK_TABLE, out, notes));
    Ok(())
}

/// The words begin with numbers of their own, and what is written to one is wrong.
#[test]
fn a_literal_of_a_word_is_replaced(rt: HostRuntime) -> Result<(), Fail> {
    let out =
        "module m(input clk, input we, input [1:0] a, input [3:0] d, output [3:0] y);\n  reg [3:0] r [0:3];\n  integer i;\n  initial for (i = 0; i < 4; i = i + 1) r[i] = 4'd8 - i;\n  assign y = r[a];\n  always @(posedge clk) if (we) r[a] <= r[a] + d +  4'h1 ;\nendmodule\n";
    let notes = "repaired 1\nsite 1 literal 238 4'h1\n";
    assert!(rt; mends(&rt, rt.alloc(), SUMS, SUMS_TABLE, out, notes));
    Ok(())
}

#[test]
fn a_last_assignment_is_added(rt: HostRuntime) -> Result<(), Fail> {
    let out =
        "module m(input clk, input rst, output reg [3:0] q);\n  always @(posedge clk) begin \n    q <= q + 4'd1; if ( rst ) q <= 4'h0 ; end \nendmodule\n";
    let notes = "repaired 1\nsite 0 overwrite 80 if (rst) q <= 4'h0;\nproposals 1\n";
    assert!(rt; prints(&rt, rt.alloc(), MISSING, MISSING_TABLE, out, notes, 0)?);
    Ok(())
}

#[test]
fn two_faults_are_mended(rt: HostRuntime) -> Result<(), Fail> {
    let out =
        "module m(input clk, output reg [3:0] p, output reg [3:0] q);\n  always @(posedge clk) p <= p +  4'h1 ;\n  always @(posedge clk) q <= q +  4'h1 ;\nendmodule\n";
    let notes = "repaired 2\nsite 1 literal 94 4'h1\nsite 3 literal 133 4'h1\nproposals 1\n";
    assert!(rt; prints(&rt, rt.alloc(), TWO, TWO_TABLE, out, notes, 0)?);
    Ok(())
}

#[test]
fn what_matches_stays(rt: HostRuntime) -> Result<(), Fail> {
    let table = "a,y\n1,x\n2,\n9,0b1x01\n";
    assert!(rt; prints(&rt, rt.alloc(), CELLS, table, CELLS, "unchanged\n", 0)?);
    assert!(rt;
        prints(
            &rt,
            rt.alloc(),
            COUNTER,
            "rst,q\n",
            COUNTER,
            "unchanged\n",
            0
        )?
    );
    Ok(())
}

#[test]
fn one_literal_serves_two_instances(rt: HostRuntime) -> Result<(), Fail> {
    let alloc = rt.alloc();
    let arena = Bump::new(alloc);
    match repair(
        &rt,
        alloc,
        INSTANCES.as_bytes(),
        INSTANCES_TABLE.as_bytes(),
        &request(1000, 1),
        &arena,
    ) {
        Err(_) => Err(Fail::from("stopped")),
        Ok(found) => {
            let low =
                "module inc(input [3:0] a, output [3:0] y);\n  assign y = a +  4'h1 ;\nendmodule\nmodule m(input [3:0] a, output [3:0] y);\n  wire [3:0] t;\n  inc u0(.a(a), .y(t));\n  inc u1(.a(t), .y(y));\nendmodule\n";
            let high =
                "module inc(input [3:0] a, output [3:0] y);\n  assign y = a +  4'h9 ;\nendmodule\nmodule m(input [3:0] a, output [3:0] y);\n  wire [3:0] t;\n  inc u0(.a(a), .y(t));\n  inc u1(.a(t), .y(y));\nendmodule\n";
            assert!(rt;
                found.out.as_bytes() == low.as_bytes() || found.out.as_bytes() == high.as_bytes()
            );
            assert!(rt; found.status == 0);
            Ok(())
        }
    }
}

#[test]
fn where_nothing_helps_a_certificate_says_so(rt: HostRuntime) -> Result<(), Fail> {
    let alloc = rt.alloc();
    let arena = Bump::new(alloc);
    match repair(
        &rt,
        alloc,
        WIRE.as_bytes(),
        WIRE_TABLE.as_bytes(),
        &request(5, 1),
        &arena,
    ) {
        Err(_) => Err(Fail::from("stopped")),
        Ok(found) => {
            assert!(rt; does(&found, "", "no repair\nsites 0\n", 1));
            assert!(rt; found.files.len() == 3);
            assert!(rt; found.files[0].name() == "c.aag");
            assert!(rt; found.files[0].bytes() == "aag 0 0 0 3 0\n1\n0\n1\n".as_bytes());
            assert!(rt; found.files[1].name() == "c.cnf");
            assert!(rt; found.files[1].bytes() == "p cnf 0 1\n0\n".as_bytes());
            assert!(rt; found.files[2].name() == "c.lrat");
            assert!(rt; found.files[2].bytes() == "2 0 1 0\n".as_bytes());
            Ok(())
        }
    }
}

/// Whether the repair by one line of one member is left open, prints this, reports this and writes three files.
fn leaves_open<R: Threads + Sync>(
    rt: &R,
    alloc: Global,
    design: &str,
    table: &str,
    out: &str,
    notes: &str,
) -> bool {
    if design.len() > 1000 {
        return false;
    }
    let arena = Bump::new(alloc);
    match repair(
        rt,
        alloc,
        design.as_bytes(),
        table.as_bytes(),
        &request(1, 1),
        &arena,
    ) {
        Err(_) => false,
        Ok(found) => does(&found, out, notes, 2) && found.files.len() == 3,
    }
}

// One line is too few to show that one change does not mend both counters.
#[test]
fn what_was_found_at_a_spent_budget_is_printed(rt: HostRuntime) -> Result<(), Fail> {
    let out =
        "module m(input clk, input rst, output reg [3:0] p, output reg [3:0] q);\n  always @(posedge clk) if (rst) p <= 4'd0; else p <= p +  4'h1 ;\n  always @(posedge clk) if (rst) q <= 4'd0; else q <= q +  4'h1 ;\nendmodule\n";
    let notes =
        "budget spent 1 bound 1\nfound 2\nsite 3 literal 130 4'h1\nsite 7 literal 194 4'h1\n";
    assert!(rt; leaves_open(&rt, rt.alloc(), RESETS, RESETS_TABLE, out, notes));
    Ok(())
}

// No values of the three literals make the output 1 in each row, and one line is too few to show it.
#[test]
fn where_nothing_was_found_nothing_is_printed(rt: HostRuntime) -> Result<(), Fail> {
    let notes = "budget spent 1 bound 3\n";
    assert!(rt; leaves_open(&rt, rt.alloc(), LOCK, LOCK_TABLE, "", notes));
    Ok(())
}

#[test]
fn a_cell_above_its_width_is_refused(rt: HostRuntime) -> Result<(), Fail> {
    let alloc = rt.alloc();
    let arena = Bump::new(alloc);
    let table = "a,y\n1,x\n2,\n9,16\n";
    match repair(
        &rt,
        alloc,
        CELLS.as_bytes(),
        table.as_bytes(),
        &request(5, 1),
        &arena,
    ) {
        Err(Stop::Refused(Refusal::Input(RunRefusal::CellTooLarge { .. }))) => Ok(()),
        _ => Err(Fail::from("no refusal")),
    }
}

/// Of several literals the one that changes in fewer bits, of several values the one that differs in fewer bits,
/// and of several names the one that stands nearer.
#[test]
fn of_several_the_nearest(rt: HostRuntime) -> Result<(), Fail> {
    let alloc = rt.alloc();
    assert!(rt;
        reports(
            &rt,
            alloc,
            STEPS,
            STEPS_TABLE,
            "repaired 1\nsite 4 literal 125 4'h1\n"
        )
    );
    assert!(rt;
        reports(
            &rt,
            alloc,
            VALUE,
            VALUE_TABLE,
            "repaired 1\nsite 0 literal 58 4'h7\n"
        )
    );
    assert!(rt;
        reports(
            &rt,
            alloc,
            NAMES,
            NAMES_TABLE,
            "repaired 1\nsite 2 guard 129 (E) && go\n"
        )
    );
    Ok(())
}
