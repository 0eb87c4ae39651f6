//! Designs with starting values: registers begin with them, and no change is made in them.
use crate::repairs::{Case, check};
use crate::runs::{prints, refuses};
use crate::shelves::NONE;

const RUN: &str = "rtl_repair run d.v t.csv";

/// A counter from 5 that counts by two.
const COUNTER: &str =
    "module m(input clk, output reg [3:0] q = 4'd5);\n  always @(posedge clk) q <= q + 4'd2;\nendmodule\n";

/// A state that begins with 2 and does not wait.
const STATE: &str =
    "module m(input clk, input go, output reg [1:0] s);\n  initial begin : first s = 2'd1; s = 2'd2; end\n  always @(posedge clk)\n    s <= s ^ 2'd3;\nendmodule\n";

/// Designs that `run` refuses, and their places.
const REFUSED: [(&str, &str); 7] = [
    (
        "module m(input a, output reg y);initial y = a;endmodule",
        "refused 13 NotConstant at 44\n",
    ),
    (
        "module m(output reg q = a, input a);wire [128:0] w;endmodule",
        "refused 13 NotConstant at 24\n",
    ),
    (
        "module m(output y);initial y=1'b1;assign y=1'b0;assign y=1'b1;endmodule",
        "refused 24 BadTarget at 27\n",
    ),
    (
        "module m(output q = 1'b0);endmodule",
        "refused 6 Syntax at 18\n",
    ),
    (
        "module m(output reg q);initial q <= 1'b1;endmodule",
        "refused 6 Syntax at 33\n",
    ),
    (
        "module m(output reg [1:0] q);initial q[0] = 1'b1;endmodule",
        "refused 24 BadTarget at 37\n",
    ),
    (
        "module m(output reg [1:0] q);initial q[1:0] = 2'd1;endmodule",
        "refused 6 Syntax at 40\n",
    ),
];

#[test]
fn runs_begin_with_them(rt: HostRuntime) {
    prints(&rt, RUN, COUNTER, "q\nx\nx\n", "q\n5\n7\n");
    prints(
        &rt,
        RUN,
        "module m(output reg [7:0] q = 4'd15 + 4'd1);endmodule",
        "q\nx\n",
        "q\n16\n",
    );
    prints(&rt, RUN, STATE, "go\n0\n1\n", "go,s\n0,2\n1,1\n");
    prints(
        &rt,
        RUN,
        "module m(input a, output reg y = 1'b1);always @* y = a;endmodule",
        "a\n0\n1\n",
        "a,y\n0,0\n1,1\n",
    );
}

#[test]
fn run_refuses_starts(rt: HostRuntime) {
    for (design, notes) in REFUSED.iter() {
        refuses(&rt, RUN, *design, "q\n", *notes);
    }
}

#[test]
fn starts_hold_no_sites(rt: HostRuntime) {
    prints(
        &rt,
        "rtl_repair sites d.v",
        COUNTER,
        "",
        "0 overwrite 72 q guards 0\n1 literal 81 4'h2\n",
    );
}

/// The step is wrong, and the starting value stays.
const STEP: Case = Case {
    words: "rtl_repair repair d.v t.csv c",
    design: COUNTER,
    table: "q\n5\n6\n7\n",
    shelf_fails: NONE,
    out_fails: NONE,
    notes_fails: NONE,
    room: 1000,
    status: 0,
    out: "module m(input clk, output reg [3:0] q = 4'd5);\n  always @(posedge clk) q <= q +  4'h1 ;\nendmodule\n",
    notes: "repaired 1\nsite 1 literal 81 4'h1\nproposals 1\n",
    certified: 3,
};

/// What is expected at first is not what the register begins with: no change helps.
const START: Case = Case {
    table: "q\n4\n6\n",
    status: 1,
    out: "",
    notes: "no repair\nsites 2\n",
    ..STEP
};

#[test]
fn steps_are_repaired_and_starts_are_not(rt: HostRuntime) {
    check(&rt, &STEP);
    check(&rt, &START);
}
