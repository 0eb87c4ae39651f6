//! Designs with compiler directives: they are expanded, and changes are made in the file.
use crate::repairs::{Case, check};
use crate::runs::{prints, refuses};
use crate::shelves::NONE;

const WORDS: &str = "rtl_repair run d.v t.csv";

const STEP: &str =
    "`define STEP 4'd2\nmodule m(input clk, output reg [3:0] q);\n  always @(posedge clk) q <= q + `STEP;\nendmodule\n";

const STEPS: &str = "q\n0\n1\n2\n3\n";

/// A counter by two whose other literal stands in a macro, in a branch that is taken.
const COUNTER: &str =
    "`define ZERO 4'd0\n`ifdef FAST\n`else\nmodule counter(input clk, input rst, output reg [3:0] q);\n  always @(posedge clk)\n    if (rst) q <= `ZERO;\n    else q <= q + 4'd2;\nendmodule\n`endif\n";

/// Files that have no expansion.
const FAULTS: [(&str, &str); 3] = [
    ("`A", "refused 38 UnknownMacro at 0\n"),
    ("`ifdef A", "refused 39 BadDirective at 0\n"),
    ("`define A `A\n`A", "refused 40 MacroLoop at 13\n"),
];

/// Files that `run` refuses for what they expand to, at a byte of the file.
const REFUSED: [(&str, &str); 5] = [
    ("`include \"a.v\"", "refused 4 Directive at 0\n"),
    (
        "`define B b\nmodule m(output y);assign y = 1 + `B;endmodule",
        "refused 11 UnknownName at 46\n",
    ),
    (
        "`define E\nmodule m(output y);`E",
        "refused 6 Syntax at 31\n",
    ),
    (
        "`ifdef A\nmodule m(output y); assign y = 1'b0; endmodule\n`endif\n",
        "refused 7 NoTop at 0\n",
    ),
    (
        "`define W 8\nmodule m(input [`W-1:0] a, output y); assign y = a[0]; endmodule",
        "refused 26 NoHeader row 0\n",
    ),
];

#[test]
fn run_expands(rt: HostRuntime) {
    prints(&rt, WORDS, STEP, STEPS, "q\n0\n2\n4\n6\n");
    prints(
        &rt,
        "rtl_repair run d.v --top n t.csv",
        "`ifndef N\n`define N n\n`endif\nmodule m(output y); assign y = 1'b1; endmodule\nmodule `N(input a, output y); assign y = ~a; endmodule\n",
        "a\n1\n0\n",
        "a,y\n1,0\n0,1\n",
    );
}

#[test]
fn run_refuses_directives(rt: HostRuntime) {
    for (design, notes) in FAULTS.iter() {
        refuses(&rt, WORDS, *design, "", *notes);
    }
    for (design, notes) in REFUSED.iter() {
        refuses(&rt, WORDS, *design, "", *notes);
    }
}

/// The step stands in a macro: only the last assignment of the register can be made in the file.
#[test]
fn sites_of_the_file_are_listed(rt: HostRuntime) {
    prints(
        &rt,
        "rtl_repair sites d.v",
        STEP,
        "",
        "0 overwrite 83 q guards 0\n",
    );
    prints(
        &rt,
        "rtl_repair sites d.v",
        COUNTER,
        "",
        "0 overwrite 122 q guards 1\n1 guard 126 guards 1\n2 literal 161 4'h2\n",
    );
}

/// A name is cut nowhere: the condition ends within what the file reads as one, so no guard is put behind it.
#[test]
fn names_are_not_cut(rt: HostRuntime) {
    prints(
        &rt,
        "rtl_repair sites d.v",
        "`define Y */\nmodule m(input clk,input s,input a,output reg q);always @(posedge clk) if((* \\z*)a/*c `Y ) q<=1'b1;endmodule",
        "",
        "0 overwrite 84 q guards 3\n1 literal 107 1'h1\n",
    );
}

/// A step in a macro is no site, and no other change makes the counter right.
const IN_A_MACRO: Case = Case {
    words: "rtl_repair repair d.v t.csv c",
    design: STEP,
    table: STEPS,
    shelf_fails: NONE,
    out_fails: NONE,
    notes_fails: NONE,
    room: 1000,
    status: 1,
    out: "",
    notes: "no repair\nsites 1\n",
    certified: 3,
};

/// The macro and the branches stay as they stood.
const BESIDE_MACROS: Case = Case {
    design: COUNTER,
    table: "rst,q\n1,0\n0,0\n0,1\n0,2\n0,3\n",
    status: 0,
    out: "`define ZERO 4'd0\n`ifdef FAST\n`else\nmodule counter(input clk, input rst, output reg [3:0] q);\n  always @(posedge clk)\n    if (rst) q <= `ZERO;\n    else q <= q +  4'h1 ;\nendmodule\n`endif\n",
    notes: "repaired 1\nsite 2 literal 161 4'h1\nproposals 1\n",
    ..IN_A_MACRO
};

/// A register file by macros, of which one register is written at a wrong address.
const REGISTERS: Case = Case {
    design: "`ifndef WIDTH\n`define WIDTH 4\n`endif\n`define RESET 4'h0\nmodule regs(input clk, input rst, input we, input [1:0] a, input [`WIDTH-1:0] d, output reg [`WIDTH-1:0] q);\n  reg [`WIDTH-1:0] r0, r1;\n  always @(posedge clk)\n    if (rst) begin r0 <= `RESET; r1 <= `RESET; end\n    else if (we) begin\n      if (a == 2'd0) r0 <= d;\n      if (a == 2'd2) r1 <= d;\n    end\n  always @* q = a[0] ? r1 : r0;\nendmodule\n",
    table: "rst,we,a,d,q\n1,0,0,0,x\n0,1,0,5,0\n0,1,1,7,0\n0,0,1,0,7\n0,0,0,0,5\n",
    out: "`ifndef WIDTH\n`define WIDTH 4\n`endif\n`define RESET 4'h0\nmodule regs(input clk, input rst, input we, input [1:0] a, input [`WIDTH-1:0] d, output reg [`WIDTH-1:0] q);\n  reg [`WIDTH-1:0] r0, r1;\n  always @(posedge clk)\n    if (rst) begin r0 <= `RESET; r1 <= `RESET; end\n    else if (we) begin\n      if (a == 2'd0) r0 <= d;\n      if (a ==  2'h1 ) r1 <= d;\n    end\n  always @* q = a[0] ? r1 : r0;\nendmodule\n",
    notes: "repaired 1\nsite 7 literal 335 2'h1\nproposals 1\n",
    ..BESIDE_MACROS
};

#[test]
fn a_step_in_a_macro_stays(rt: HostRuntime) {
    check(&rt, &IN_A_MACRO);
}

#[test]
fn files_are_repaired(rt: HostRuntime) {
    check(&rt, &BESIDE_MACROS);
    check(&rt, &REGISTERS);
}

#[test]
fn all_refuse_directives(rt: HostRuntime) {
    for (design, notes) in FAULTS.iter() {
        refuses(&rt, "rtl_repair repair d.v t.csv c", *design, "", *notes);
        refuses(&rt, "rtl_repair sites d.v", *design, "", *notes);
    }
}
