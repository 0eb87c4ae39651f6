//! The command `run`: runs of designs, refusals of designs by both commands, and calls that fail.
use crate::repairs::{Case, check};
use crate::shelves::NONE;
use std::process::Abort;
use std::thread::Threads;

const WORDS: &str = "rtl_repair run d.v t.csv";

const CARRY: &str =
    "module m(input [3:0] a, input [3:0] b, output [3:0] y4, output [4:0] y5); assign y4 = (a + b) >> 1; assign y5 = (a + b) >> 1; endmodule";

const CARRY_TABLE: &str = "a,b\n15,1\n";

const CARRY_RUN: &str = "a,b,y4,y5\n15,1,0,8\n";

const CELLS: &str = "module m(input [3:0] a, output [3:0] y); assign y = a; endmodule";

/// An adder whose carry is kept in the wider of its outputs.
const FIRST: Case = Case {
    words: WORDS,
    design: CARRY,
    table: CARRY_TABLE,
    shelf_fails: NONE,
    out_fails: NONE,
    notes_fails: NONE,
    room: 1000,
    status: 0,
    out: CARRY_RUN,
    notes: "",
    certified: 0,
};

const FAULT: Case = Case {
    status: 4,
    out: "",
    ..FIRST
};

/// Designs, tables, and what is printed: a carry that a narrow output loses; a comparison that is signed only
/// where both sides are; two registers that swap; a ripple of carries through one net; a block that gives each
/// bit a value; cells of each form; an asynchronous reset, whose clock is the other edge; words of 128 bits with
/// a byte order mark, quotes, blanks, CRLF and no last line end; the top that nothing instantiates.
const RUNS: [(&str, &str, &str); 9] = [
    (CARRY, CARRY_TABLE, CARRY_RUN),
    (
        "module m(input signed [3:0] a, output x, output y); assign x = a < 4'd2; assign y = a < 4'sd2; endmodule",
        "a\n15\n",
        "a,x,y\n15,0,1\n",
    ),
    (
        "module m(input clk, input ld, output reg a, output reg b); always @(posedge clk) if (ld) begin a <= 1'b1; b <= 1'b0; end else begin a <= b; b <= a; end endmodule",
        "ld\n1\n0\n0\n",
        "ld,a,b\n1,0,0\n0,1,0\n0,0,1\n",
    ),
    (
        "module m(input [2:0] a, output [3:0] c); assign c[0] = 1'b0; assign c[1] = c[0] ^ a[0]; assign c[2] = c[1] ^ a[1]; assign c[3] = c[2] ^ a[2]; endmodule",
        "a\n5\n",
        "a,c\n5,6\n",
    ),
    (
        "module m(input [1:0] s, output reg y);\n  always @*\n    begin y = 1'b0; case (s)\n      2'd0: y = 1'b0;\n      2'd1: y = 1'b1;\n    endcase end\nendmodule\n",
        "s\n1\n2\n",
        "s,y\n1,1\n2,0\n",
    ),
    (CELLS, "a,y\n1,x\n2,\n9,0b1x01\n", "a,y\n1,1\n2,2\n9,9\n"),
    (
        "module m(input c, input r, input d, output reg q); always @(negedge r or posedge c) if (!r) q <= 1'b0; else q <= d; endmodule",
        "r,d\n1,1\n1,0\n0,1\n1,0\n",
        "r,d,q\n1,1,0\n1,0,1\n0,1,0\n1,0,0\n",
    ),
    (
        "module m(input [127:0] a, output [127:0] y); assign y = a; endmodule",
        "\u{feff}a,y\r\n\"340282366920938463463374607431768211455\",\r\n 0xffffffffffffffffffffffffffffffff\t,x\r\n0b1,0",
        "a,y\n340282366920938463463374607431768211455,340282366920938463463374607431768211455\n340282366920938463463374607431768211455,340282366920938463463374607431768211455\n1,1\n",
    ),
    (
        "module n(input a, output y); assign y = ~a; endmodule module m(input a, output y); assign y = a; endmodule",
        "a\n1\n0\n",
        "a,y\n1,1\n0,0\n",
    ),
];

/// Designs with the refusal that is told of them.
const REFUSED: [(&str, &str); 23] = [
    (
        "module m(output y);assign y = \"a\";endmodule",
        "refused 1 BadByte at 30\n",
    ),
    (
        "module m(output y);assign y = 2'd;endmodule",
        "refused 2 BadNumber at 30\n",
    ),
    ("module m(output y);/* x", "refused 3 OpenComment at 19\n"),
    ("`include \"a.v\"", "refused 4 Directive at 0\n"),
    (
        "module m(output y);function f;endmodule",
        "refused 5 Unsupported at 19\n",
    ),
    (
        "module m(output y);assign y = ;endmodule",
        "refused 6 Syntax at 30\n",
    ),
    ("", "refused 7 NoTop at 0\n"),
    (
        "module m(output y);n u(y);endmodule",
        "refused 8 UnknownModule at 19\n",
    ),
    (
        "module m(output y);wire a;wire a;endmodule",
        "refused 10 NameTwice at 31\n",
    ),
    (
        "module m(output y);assign y = b;endmodule",
        "refused 11 UnknownName at 30\n",
    ),
    (
        "module m(output y);wire [3:0] a;assign y = a[0:1];endmodule",
        "refused 12 BadRange at 43\n",
    ),
    (
        "module m(output y);wire [y:0] a;endmodule",
        "refused 13 NotConstant at 25\n",
    ),
    (
        "module n(input a);endmodule module m(output y);n u(.b(y));endmodule",
        "refused 14 PortMismatch at 52\n",
    ),
    (
        "module m(output y);wire [128:0] a;endmodule",
        "refused 15 TooWide at 32\n",
    ),
    (
        "module m(output y);assign y = 1'b0;assign y = 1'b1;endmodule",
        "refused 17 TwoDrivers at 42\n",
    ),
    (
        "module m(input clk,output reg y);always @(posedge clk) begin y <= 1'b0; y = 1'b1; end endmodule",
        "refused 18 WrongAssign at 72\n",
    ),
    (
        "module m(input clk,output reg y);reg t;always @(posedge clk) t = ~t;always @(posedge clk) y <= t;endmodule",
        "refused 19 Race at 95\n",
    ),
    (
        "module m(input [1:0] s, output reg y);\n  always @*\n    case (s)\n      2'd0: y = 1'b0;\n      2'd1: y = 1'b1;\n    endcase\nendmodule\n",
        "refused 20 Latch at 41\n",
    ),
    (
        "module m(output y);\n  wire a, b;\n  assign a = b;\n  assign b = a;\n  assign y = a;\nendmodule\n",
        "refused 21 Loop at 42\n",
    ),
    (
        "module m(input clk,output reg y);always @(posedge clk) y <= clk;endmodule",
        "refused 22 ClockUse at 60\n",
    ),
    (
        "module m(input clk,input d,output reg y,output reg z);always @(posedge clk) y <= d;always @(negedge clk) z <= d;endmodule",
        "refused 23 TwoClocks at 83\n",
    ),
    (
        "module m(input a,output y);always @* y = a;endmodule",
        "refused 24 BadTarget at 37\n",
    ),
    (
        "module m(input a,output reg y);always @* case(a) 1'bx: y = a; default: y = 1'b0; endcase endmodule",
        "refused 25 WildLabel at 49\n",
    ),
];

/// A run that prints this.
pub(crate) fn prints<R: Abort + AllocGlobal + Threads + Sync>(
    rt: &R,
    words: &'static str,
    design: &'static str,
    table: &'static str,
    out: &'static str,
) {
    check(
        rt,
        &Case {
            words,
            design,
            table,
            out,
            ..FIRST
        },
    );
}

/// A refusal, with the notes that tell it.
pub(crate) fn refuses<R: Abort + AllocGlobal + Threads + Sync>(
    rt: &R,
    words: &'static str,
    design: &'static str,
    table: &'static str,
    notes: &'static str,
) {
    check(
        rt,
        &Case {
            words,
            design,
            table,
            status: 3,
            out: "",
            notes,
            ..FIRST
        },
    );
}

#[test]
fn designs_are_run(rt: HostRuntime) {
    for (design, table, out) in RUNS.iter() {
        prints(&rt, WORDS, *design, *table, *out);
    }
}

#[test]
fn options_are_kept(rt: HostRuntime) {
    let design =
        "module n(input a, input k, output reg y); always @(posedge k) y <= a; endmodule module m(input a, output y); assign y = a; endmodule";
    prints(
        &rt,
        "rtl_repair run d.v --top n t.csv",
        design,
        "a,k\n1,9\n0,9\n",
        "a,y\n1,0\n0,1\n",
    );
    prints(
        &rt,
        "rtl_repair run --clock=a --top=m d.v t.csv",
        "module m(input a, input b, output y); assign y = ~b; endmodule",
        "b\n1\n0\n",
        "b,y\n1,0\n0,1\n",
    );
    refuses(
        &rt,
        "rtl_repair run d.v t.csv --clock y",
        CELLS,
        "",
        "refused 11 UnknownName at 7\n",
    );
}

#[test]
fn designs_are_refused_by_both(rt: HostRuntime) {
    for (design, notes) in REFUSED.iter() {
        refuses(&rt, WORDS, *design, "", *notes);
        refuses(&rt, "rtl_repair repair d.v t.csv c", *design, "", *notes);
    }
    let design = "module m(output y);m u(y);endmodule";
    let notes = "refused 9 SelfInstance at 19\n";
    refuses(&rt, "rtl_repair run d.v t.csv --top m", design, "", notes);
    refuses(
        &rt,
        "rtl_repair repair d.v t.csv c --top m",
        design,
        "",
        notes,
    );
}

#[test]
fn headers_are_refused(rt: HostRuntime) {
    let design = CELLS;
    refuses(&rt, WORDS, design, "", "refused 26 NoHeader row 0\n");
    refuses(
        &rt,
        WORDS,
        design,
        "a,b\n",
        "refused 27 UnknownColumn row 0 column 1\n",
    );
    refuses(
        &rt,
        WORDS,
        design,
        "a,a\n",
        "refused 28 ColumnTwice row 0 column 1\n",
    );
    refuses(
        &rt,
        WORDS,
        design,
        "y\n",
        "refused 29 MissingInput input a\n",
    );
}

#[test]
fn rows_are_refused(rt: HostRuntime) {
    let design = CELLS;
    refuses(
        &rt,
        WORDS,
        design,
        "a,y\n1\n",
        "refused 30 RowLength row 1\n",
    );
    refuses(
        &rt,
        WORDS,
        design,
        "a,y\n1,q\n",
        "refused 31 BadCell row 1 column 1\n",
    );
    refuses(
        &rt,
        WORDS,
        design,
        "a,y\n1,x\n2,\n9,16\n",
        "refused 32 CellTooLarge row 3 column 1\n",
    );
}

#[test]
fn names_are_absent(rt: HostRuntime) {
    check(
        &rt,
        &Case {
            words: "rtl_repair run none.v none.csv",
            notes: "absent none.v\n",
            ..FAULT
        },
    );
    check(
        &rt,
        &Case {
            words: "rtl_repair run d.v none.csv",
            design: "\"",
            notes: "absent none.csv\n",
            ..FAULT
        },
    );
}

#[test]
fn reads_of_runs_fail(rt: HostRuntime) {
    check(
        &rt,
        &Case {
            shelf_fails: 0,
            notes: "fault read d.v\n",
            ..FAULT
        },
    );
    check(
        &rt,
        &Case {
            shelf_fails: 1,
            notes: "fault read t.csv\n",
            ..FAULT
        },
    );
}

#[test]
fn puts_of_runs_fail(rt: HostRuntime) {
    check(
        &rt,
        &Case {
            out_fails: 0,
            notes: "fault out\n",
            ..FAULT
        },
    );
    check(
        &rt,
        &Case {
            room: 4,
            out: "a,b,",
            notes: "fault out\n",
            ..FAULT
        },
    );
    check(
        &rt,
        &Case {
            table: "",
            notes_fails: 0,
            ..FAULT
        },
    );
    check(
        &rt,
        &Case {
            notes_fails: 0,
            ..FIRST
        },
    );
}
