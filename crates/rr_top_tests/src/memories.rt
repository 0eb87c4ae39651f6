//! Designs with memories: what is printed of them, what is refused, and changes round their words.
use crate::repairs::{Case, check};
use crate::runs::{prints, refuses};
use crate::shelves::NONE;

const RUN: &str = "rtl_repair run d.v t.csv";

/// Three words, of which one has a starting value and of which there is none at index 3.
const BANK: &str =
    "module m(input clk, input we, input [1:0] a, input [3:0] d, output [3:0] y); reg [3:0] r [0:2]; initial r[1] = 4'd9; assign y = r[a]; always @(posedge clk) if (we) r[a] <= d; endmodule";

/// Designs, tables, and what is printed: words that a loop moves; words that an `initial` loop sets, from a lowest
/// index of 1, and one outside that is set to no effect; signed words of a descending range; words of a combinational
/// block; and words of two instances.
const RUNS: [(&str, &str, &str); 6] = [
    (
        BANK,
        "we,a,d\n0,1,0\n1,1,7\n0,1,0\n1,3,5\n0,3,0\n0,0,0\n",
        "we,a,d,y\n0,1,0,9\n1,1,7,9\n0,1,0,7\n1,3,5,0\n0,3,0,0\n0,0,0,0\n",
    ),
    (
        "module m(input clk, input [3:0] d, output [3:0] y); reg [3:0] r [0:3]; integer i; assign y = r[3]; always @(posedge clk) begin r[0] <= d; for (i = 0; i < 3; i = i + 1) r[i + 1] <= r[i]; end endmodule",
        "d\n5\n6\n7\n8\n9\n",
        "d,y\n5,0\n6,0\n7,0\n8,0\n9,5\n",
    ),
    (
        "module m(input [2:0] a, output [3:0] y); reg [3:0] r [1:4]; integer i; initial begin r[0] = 4'd5; for (i = 1; i < 5; i = i + 1) r[i] = i * i; end assign y = r[a]; endmodule",
        "a\n0\n2\n3\n5\n",
        "a,y\n0,0\n2,4\n3,9\n5,0\n",
    ),
    (
        "module m(input a, output y, output [3:0] z); reg signed [2:0] r [5:4]; initial begin r[4] = 3'd7; r[5] = 3'd2; end assign y = r[a + 4] < 0; assign z = r[a + 4]; endmodule",
        "a\n0\n1\n",
        "a,y,z\n0,1,15\n1,0,2\n",
    ),
    (
        "module m(input [1:0] a, input s, output reg [1:0] y); reg [1:0] t [0:1]; always @* begin t[0] = a; t[1] = ~a; y = t[s]; end endmodule",
        "a,s\n1,0\n1,1\n",
        "a,s,y\n1,0,1\n1,1,2\n",
    ),
    (
        "module n #(parameter N = 2)(input clk, input we, input [1:0] a, input [3:0] d, output [3:0] y); reg [3:0] r [N-1:0]; assign y = r[a]; always @(posedge clk) if (we) r[a] <= d; endmodule module m(input clk, input we, input [1:0] a, input [3:0] d, output [3:0] y, output [3:0] z); n u(clk, we, a, d, y); n #(4) v(clk, !we, a, d, z); endmodule",
        "we,a,d\n1,1,5\n0,1,6\n1,3,7\n0,3,8\n0,3,9\n1,1,0\n",
        "we,a,d,y,z\n1,1,5,0,0\n0,1,6,5,0\n1,3,7,0,0\n0,3,8,0,0\n0,3,9,0,8\n1,1,0,5,6\n",
    ),
];

/// Designs that `run` refuses: too many words, before and after other faults of a declaration; a name without an
/// index, or with a part; words where constants stand; targets; and the laws of writers, assignments, races and
/// latches, of which three take a memory as a whole.
const REFUSED: [(&str, &str); 23] = [
    (
        "module m(output y);reg r [0:256];assign y=1'b0;endmodule",
        "refused 16 TooMany words 257\n",
    ),
    (
        "module m(output q);reg q [0:3];endmodule",
        "refused 10 NameTwice at 23\n",
    ),
    (
        "module m(output y);wire r;reg r [0:300];assign y=1'b0;endmodule",
        "refused 10 NameTwice at 30\n",
    ),
    (
        "module m(output y);reg [127:0] r [0:600];endmodule",
        "refused 16 TooMany words 601\n",
    ),
    (
        "module m(output y);reg [128:0] r [0:3];endmodule",
        "refused 15 TooWide at 31\n",
    ),
    (
        "module m(output y);reg [127:0] r [0:255],s [0:255];assign y=1'b0;endmodule",
        "refused 16 TooMany flatbits 65537\n",
    ),
    (
        "module m(output y);reg r [0:65536];assign y=1'b0;endmodule",
        "refused 12 BadRange at 25\n",
    ),
    (
        "module m(output y);reg [7:0] r [0:15];assign y=r;endmodule",
        "refused 12 BadRange at 47\n",
    ),
    (
        "module m(output y);reg [7:0] r [0:15];assign y=r[1:0];endmodule",
        "refused 12 BadRange at 47\n",
    ),
    (
        "module m(output reg y);reg r [0:1];always @(r) y=1'b0;endmodule",
        "refused 12 BadRange at 44\n",
    ),
    (
        "module m(output y);reg r [0:1];initial r=1'b1;assign y=r[0];endmodule",
        "refused 12 BadRange at 39\n",
    ),
    (
        "module m(output y);reg r [0:1];wire [r[0]:0] w;assign y=1'b0;endmodule",
        "refused 13 NotConstant at 37\n",
    ),
    (
        "module m(input a,output y);reg r [0:1];initial r[a]=1'b1;assign y=r[0];endmodule",
        "refused 13 NotConstant at 49\n",
    ),
    (
        "module m(output reg [1:0] y);initial y[0]=1'b1;endmodule",
        "refused 24 BadTarget at 37\n",
    ),
    (
        "module m(input a,output y);reg r [0:1];assign y=r[0];assign r[0]=a;endmodule",
        "refused 24 BadTarget at 60\n",
    ),
    (
        "module n(input i,output o);assign o=i;endmodule module m(input a,output y);reg r [0:1];n u(a,r[0]);assign y=a;endmodule",
        "refused 24 BadTarget at 93\n",
    ),
    (
        "module m(input clk,input i,input d,output y);reg r [0:1];assign y=r[1];always @(posedge clk) r[i]<=d;always @(posedge clk) r[0]<=d;endmodule",
        "refused 17 TwoDrivers at 101\n",
    ),
    (
        "module m(input clk,input d,output y);reg r [0:1];assign y=r[1];always @(posedge clk) begin r[0]=d;r[1]<=d;end endmodule",
        "refused 18 WrongAssign at 98\n",
    ),
    (
        "module m(input clk,input [0:0] i,input d,output reg y);reg r [0:1];always @(posedge clk) r[0]=d;always @(posedge clk) y<=r[1];endmodule",
        "refused 19 Race at 121\n",
    ),
    (
        "module m(input i,output y);reg r [0:1];assign y=r[0];always @* r[i]=1'b1;endmodule",
        "refused 20 Latch at 53\n",
    ),
    (
        "module m(output y);reg r [0:1]=1'b1;assign y=r[0];endmodule",
        "refused 6 Syntax at 30\n",
    ),
    (
        "module m(output reg q [0:1]);endmodule",
        "refused 6 Syntax at 22\n",
    ),
    (
        "module m(output y);wire r [0:1];assign y=1'b0;endmodule",
        "refused 6 Syntax at 26\n",
    ),
];

#[test]
fn runs_of_memories(rt: HostRuntime) {
    for (design, table, out) in RUNS.iter() {
        prints(&rt, RUN, *design, *table, *out);
    }
}

#[test]
fn run_refuses_memories(rt: HostRuntime) {
    for (design, notes) in REFUSED.iter() {
        refuses(&rt, RUN, *design, "q\n", *notes);
    }
}

/// A block that keeps a word is refused, as no assignment clears it.
#[test]
fn lint_refuses_kept_words(rt: HostRuntime) {
    refuses(
        &rt,
        "rtl_repair lint d.v",
        "module m(input i,output y);reg r [0:1];assign y=r[0];always @* r[i]<=1'b1;endmodule",
        "",
        "refused 20 Latch at 53\n",
    );
}

/// No word is the target of a last assignment, and neither the words of a declaration nor an index holds a literal.
#[test]
fn sites_round_memories(rt: HostRuntime) {
    prints(
        &rt,
        "rtl_repair sites d.v",
        BANK,
        "",
        "0 guard 160 guards 1\n",
    );
}

/// The index by which words are written has to be that by which they are read.
const INDEX: Case = Case {
    words: "rtl_repair repair d.v t.csv c",
    design: "module m(input clk, input we, input [1:0] a, input [3:0] d, output [3:0] y);\n  reg [3:0] r [0:3];\n  wire [1:0] to = a + 2'd1;\n  assign y = r[a];\n  always @(posedge clk) if (we) r[to] <= d;\nendmodule\n",
    table: "we,a,d,y\n1,0,5,0\n1,1,6,0\n0,0,0,5\n0,1,0,6\n",
    shelf_fails: NONE,
    out_fails: NONE,
    notes_fails: NONE,
    room: 1000,
    status: 0,
    out: "module m(input clk, input we, input [1:0] a, input [3:0] d, output [3:0] y);\n  reg [3:0] r [0:3];\n  wire [1:0] to = a +  2'h0 ;\n  assign y = r[a];\n  always @(posedge clk) if (we) r[to] <= d;\nendmodule\n",
    notes: "repaired 1\nsite 0 literal 120 2'h0\nproposals 1\n",
    certified: 3,
};

/// Within the index itself there is no site.
const WITHIN: Case = Case {
    design: "module m(input clk, input we, input [1:0] a, input [3:0] d, output [3:0] y);\n  reg [3:0] r [0:3];\n  assign y = r[a];\n  always @(posedge clk) if (we) r[a + 2'd1] <= d;\nendmodule\n",
    table: "we,a,d,y\n1,0,5,0\n0,0,0,5\n",
    status: 1,
    out: "",
    notes: "no repair\nsites 1\n",
    ..INDEX
};

/// A word is written where it is locked.
const LOCK: Case = Case {
    design: "module m(input clk, input we, input lock, input a, input [3:0] d, output [3:0] y);\n  reg [3:0] r [0:1];\n  assign y = r[a];\n  always @(posedge clk) if (we) r[a] <= d;\nendmodule\n",
    table: "we,lock,a,d,y\n1,0,0,5,0\n1,1,0,6,5\n0,1,0,7,5\n1,0,0,8,5\n0,0,0,0,8\n",
    out: "module m(input clk, input we, input lock, input a, input [3:0] d, output [3:0] y);\n  reg [3:0] r [0:1];\n  assign y = r[a];\n  always @(posedge clk) if ( ( we ) && ! lock ) r[a] <= d;\nendmodule\n",
    notes: "repaired 1\nsite 0 guard 151 (E) && !lock\nproposals 1\n",
    ..INDEX
};

/// The place of the next word is one word too far.
const STEP: Case = Case {
    design: "module m(input clk, input push, input [3:0] d, input [1:0] a, output [3:0] y);\n  reg [3:0] r [0:3];\n  reg [1:0] next;\n  assign y = r[a];\n  always @(posedge clk)\n    if (push) begin\n      r[next] <= d;\n      next <= next + 2'd2;\n    end\nendmodule\n",
    table: "push,d,a,y\n1,5,0,0\n1,6,0,5\n1,7,1,6\n0,0,2,7\n0,0,0,5\n",
    out: "module m(input clk, input push, input [3:0] d, input [1:0] a, output [3:0] y);\n  reg [3:0] r [0:3];\n  reg [1:0] next;\n  assign y = r[a];\n  always @(posedge clk)\n    if (push) begin\n      r[next] <= d;\n      next <= next +  2'h1 ;\n    end\nendmodule\n",
    notes: "repaired 1\nsite 2 literal 222 2'h1\nproposals 1\n",
    ..INDEX
};

#[test]
fn writes_of_words_are_repaired(rt: HostRuntime) {
    check(&rt, &INDEX);
    check(&rt, &WITHIN);
    check(&rt, &LOCK);
    check(&rt, &STEP);
}
