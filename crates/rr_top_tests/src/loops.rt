//! Designs with loops in statements: what is printed of them, what is refused, and changes in their bodies.
use crate::repairs::{Case, check};
use crate::runs::{prints, refuses};
use crate::shelves::NONE;

const RUN: &str = "rtl_repair run d.v t.csv";

/// Parity, bit by bit.
const PARITY: &str =
    "module m(input [3:0] a, output reg p); integer i; always @* begin p = 1'b0; for (i = 0; i < 4; i = i + 1) p = p ^ a[i]; end endmodule";

/// The bits that are 1, counted.
const ONES: &str =
    "module m(input [3:0] a, output reg [2:0] y);\n  integer i;\n  always @* begin\n    y = 3'd0;\n    for (i = 0; i < 4; i = i + 1)\n      if (a[i]) y = y + 3'd1;\n  end\nendmodule\n";

/// Designs that `run` refuses: the two limits on turns; the name of a loop where it may not stand, also in a macro,
/// and with another fault at one token; faults of heads and of turns; and loops that the profile has not.
const REFUSED: [(&str, &str); 11] = [
    (
        "module m(input [3:0] a, output reg p); integer i; always @* begin p = 1'b0; for (i = 0; i >= 0; i = i) ; end endmodule",
        "refused 16 TooMany turns 65537\n",
    ),
    (
        "module m(input [3:0] a, output reg p); integer i; always @* begin p = 1'b0; for (i = 0; i < 65536; i = i + 1) begin ;;;;;;;;;;;;;;; end end endmodule",
        "refused 16 TooMany unfolded 1048577\n",
    ),
    (
        "module m(output reg y);reg i;always @* begin y=1'b0;for(i=0;i<1;i=i+1);end endmodule",
        "refused 37 BadLoop at 56\n",
    ),
    (
        "`define I i\nmodule m(output reg y);reg i;always @* begin y=1'b0;for(`I=0;i<1;i=i+1);end endmodule",
        "refused 37 BadLoop at 68\n",
    ),
    (
        "module m(output reg y);integer i;initial begin y=1'b0;for(i=0;i<2;i=i+1)y=i[0];end endmodule",
        "refused 13 NotConstant at 74\n",
    ),
    (
        "module m(output y,output reg z);integer i;assign y=i;always @* begin z=1'b0;for(i=0;i<1;i=i+1)z=1'b1;end endmodule",
        "refused 37 BadLoop at 51\n",
    ),
    (
        "module m(output reg y);integer i;always @* begin y=1'b0;for(i=i;i<1;i=i+1)y=1'b1;end endmodule",
        "refused 13 NotConstant at 62\n",
    ),
    (
        "module m(input [7:0] a,output reg y);integer i;always @* begin y=1'b0;for(i=200;i>3;i=i-196)y=y^(a[i:5]>0);end endmodule",
        "refused 15 TooWide at 97\n",
    ),
    (
        "module m(output y);genvar i;endmodule",
        "refused 5 Unsupported at 19\n",
    ),
    (
        "module m(output y);generate endgenerate endmodule",
        "refused 5 Unsupported at 19\n",
    ),
    (
        "module m(output reg y);integer i;for(i=0;i<1;i=i+1)assign y=1'b0;endmodule",
        "refused 6 Syntax at 33\n",
    ),
];

#[test]
fn runs_of_loops(rt: HostRuntime) {
    prints(&rt, RUN, PARITY, "a\n7\n5\n", "a,p\n7,1\n5,0\n");
    prints(&rt, RUN, ONES, "a\n0\n9\n15\n", "a,y\n0,0\n9,2\n15,4\n");
}

#[test]
fn run_refuses_loops(rt: HostRuntime) {
    for (design, notes) in REFUSED.iter() {
        refuses(&rt, RUN, *design, "q\n", *notes);
    }
}

/// What stands in a loop is one site for all turns, and its head holds none.
#[test]
fn sites_in_loops(rt: HostRuntime) {
    prints(
        &rt,
        "rtl_repair sites d.v",
        ONES,
        "",
        "0 overwrite 70 y guards 0\n1 literal 84 3'h0\n2 guard 134 guards 0\n3 literal 148 3'h1\n",
    );
}

/// Each bit has to be turned round: one change for all turns.
const MASK: Case = Case {
    words: "rtl_repair repair d.v t.csv c",
    design: "module m(input [3:0] a, output reg [3:0] y); integer i; always @* for (i = 0; i < 4; i = i + 1) y[i] = a[i] ^ 1'b0; endmodule",
    table: "a,y\n5,10\n",
    shelf_fails: NONE,
    out_fails: NONE,
    notes_fails: NONE,
    room: 1000,
    status: 0,
    out: "module m(input [3:0] a, output reg [3:0] y); integer i; always @* for (i = 0; i < 4; i = i + 1) y[i] = a[i] ^  1'h1 ; endmodule",
    notes: "repaired 1\nsite 0 literal 110 1'h1\nproposals 1\n",
    certified: 3,
};

/// No change of the loop's head is a repair.
const HEAD: Case = Case {
    design: "module m(input [3:0] a, output reg [3:0] y); integer i; always @* for (i = 0; i < 4; i = i + 1) y[i] = a[i]; endmodule",
    table: "a,y\n1,2\n",
    status: 1,
    out: "",
    notes: "no repair\nsites 0\n",
    ..MASK
};

#[test]
fn bodies_of_loops_are_repaired_and_heads_are_not(rt: HostRuntime) {
    check(&rt, &MASK);
    check(&rt, &HEAD);
}
