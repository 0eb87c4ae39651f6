//! Runs of files with compiler directives, and where their refusals are told.
use crate::runs::{gives, tells};
use std::test::Fail;

const COUNTED: &str = "q\n0\n1\n2\n3\n";

/// Files, tables, and what is printed: a literal by a macro, and without it; a design in the branch that is
/// taken, with a use in it; a use in the text of a use, where the text goes on in the next line, in a file
/// with CRLF; bytes of a use beside those of the file, as one name and one number; the last definition
/// before a use.
const RUNS: [(&str, &str, &str); 6] = [
    (
        "`define STEP 4'd2\nmodule m(input clk, output reg [3:0] q);\n  always @(posedge clk) q <= q + `STEP;\nendmodule\n",
        COUNTED,
        "q\n0\n2\n4\n6\n",
    ),
    (
        "module m(input clk, output reg [3:0] q);\n  always @(posedge clk) q <= q + 4'd2;\nendmodule\n",
        COUNTED,
        "q\n0\n2\n4\n6\n",
    ),
    (
        "`define ZERO 4'd0\n`ifdef FAST\n`else\nmodule counter(input clk, input rst, output reg [3:0] q);\n  always @(posedge clk)\n    if (rst) q <= `ZERO;\n    else q <= q + 4'd2;\nendmodule\n`endif\n",
        "rst,q\n1,0\n0,0\n0,1\n0,2\n0,3\n",
        "rst,q\n1,0\n0,0\n0,2\n0,4\n0,6\n",
    ),
    (
        "`define W 8\r\n`define ALL {`W{1'b1}} \\\r\n  & a // all\r\nmodule m(input [`W-1:0] a, output [`W-1:0] y);\r\n  assign y = `ALL;\r\nendmodule\r\n",
        "a\n5\n255\n",
        "a,y\n5,5\n255,255\n",
    ),
    (
        "`define S _q\n`define N 3\nmodule m(input a`S, output [`N:0] y); assign y = `N'd5 + a_q; endmodule",
        "a_q\n1\n",
        "a_q,y\n1,6\n",
    ),
    (
        "`define A 1'b0\n`define A 1'b1\nmodule m(output y); assign y = `A; endmodule\n`undef A\n`ifndef A\n`define A\n`endif\n",
        "y\nx\n",
        "y\n1\n",
    ),
];

#[test]
fn files_are_run(rt: HostRuntime) {
    let alloc = rt.alloc();
    for (design, table, expected) in RUNS.iter() {
        assert!(rt; gives(alloc, *design, *table, None, *expected), "{design}");
    }
}

/// Files with their first refusal: of directives, before all else; of what stays; of the text that a file
/// expands to, at its byte of the file, for a byte of a use at the outermost backtick, at the end at the
/// file's length; and that there is no top at 0. A name that begins in a use goes on behind it.
const REFUSED: [(&str, &str); 17] = [
    ("`A", "38 UnknownMacro at 0"),
    ("`ifdef A", "39 BadDirective at 0"),
    ("`define A `A\n`A", "40 MacroLoop at 13"),
    ("`define A `B\n`A", "38 UnknownMacro at 13"),
    ("`define A(x) x\n", "39 BadDirective at 0"),
    ("module m(\" `A", "38 UnknownMacro at 11"),
    ("`include \"a.v\"", "4 Directive at 0"),
    ("`define A ` 1\n x `A", "4 Directive at 17"),
    (
        "`define LONG 4'd0\nmodule m(output y);assign y = b;endmodule",
        "11 UnknownName at 48",
    ),
    (
        "`define B b\nmodule m(output y);assign y = 1 + `B;endmodule",
        "11 UnknownName at 46",
    ),
    (
        "`define B 1 + b\n`define A `B\nmodule m(output y);assign y = `A;endmodule",
        "11 UnknownName at 59",
    ),
    (
        "`ifdef A\nmodule m(output z);endmodule\n`else\nmodule m(output y);wire a;wire a;endmodule\n`endif\n",
        "10 NameTwice at 75",
    ),
    (
        "`define Q 1'b0;endmodule\nmodule m(output y);assign y = 1'b1;assign y = `Q",
        "17 TwoDrivers at 67",
    ),
    ("`define E\nmodule m(output y);`E", "6 Syntax at 31"),
    ("module m(output y);`ifdef A\n`endif", "6 Syntax at 19"),
    (
        "`ifdef A\nmodule m(output y); assign y = 1'b0; endmodule\n`endif\n",
        "7 NoTop at 0",
    ),
    (
        "`define N \\a\nmodule m(output y);assign y = `N; endmodule",
        "6 Syntax at 47",
    ),
];

#[test]
fn files_are_refused(rt: HostRuntime) -> Result<(), Fail> {
    for (design, expected) in REFUSED.iter() {
        assert!(rt; tells(rt.alloc(), *design, None, *expected)?, "{design}");
    }
    Ok(())
}
