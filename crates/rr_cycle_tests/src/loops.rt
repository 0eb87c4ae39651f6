//! Loops in statements (IEEE 1364-2005 section 9.6): what they do, and what they are refused for.
use crate::runs::{gives, tells};
use std::test::Fail;

/// Designs with loops, tables, and what is printed: bits in the other order; the ones of a word; a shift, from
/// the top down; a loop in a loop; a loop without a turn; one in an `initial` item, whose last turn counts.
const RUNS: [(&str, &str, &str); 6] = [
    (
        "module m(input [3:0] a, output reg [3:0] y); integer i; always @* for (i = 0; i < 4; i = i + 1) y[i] = a[3 - i]; endmodule",
        "a\n1\n12\n",
        "a,y\n1,8\n12,3\n",
    ),
    (
        "module m(input [3:0] a, output reg [2:0] y); integer i; always @* begin y = 3'd0; for (i = 0; i < 4; i = i + 1) if (a[i]) y = y + 3'd1; end endmodule",
        "a\n5\n15\n",
        "a,y\n5,2\n15,4\n",
    ),
    (
        "module m(input clk, input d, output reg [3:0] q); integer i; always @(posedge clk) begin for (i = 3; i > 0; i = i - 1) q[i] <= q[i - 1]; q[0] <= d; end endmodule",
        "d\n1\n0\n1\n1\n",
        "d,q\n1,0\n0,1\n1,2\n1,5\n",
    ),
    (
        "module m(input [3:0] a, output reg [3:0] y); integer i; integer j; always @* for (i = 0; i < 2; i = i + 1) for (j = 0; j < 2; j = j + 1) y[2 * i + j] = a[2 * j + i]; endmodule",
        "a\n2\n4\n",
        "a,y\n2,4\n4,2\n",
    ),
    (
        "module m(input a, output reg y); integer i; always @* begin y = a; for (i = 0; i < 0; i = i + 1) y = ~a; end endmodule",
        "a\n1\n",
        "a,y\n1,1\n",
    ),
    (
        "module m(output reg [3:0] y); integer i; initial for (i = 0; i < 3; i = i + 1) y = i + 1; endmodule",
        "y\nx\n",
        "y\n3\n",
    ),
];

#[test]
fn runs_of_loops(rt: HostRuntime) -> Result<(), Fail> {
    for (design, table, printed) in RUNS.iter() {
        assert!(rt;
            gives(rt.alloc(), *design, *table, None, *printed),
            "{printed}"
        );
    }
    Ok(())
}

/// Designs and the texts of their refusals: the name of a loop that is no `integer`, a step of another name, the
/// name of a loop around it, that of another loop as its start, where 13 comes before 37; the name assigned, as
/// the base of a select, and outside its loop; heads without a value; and the two limits.
const REFUSED: [(&str, &str); 11] = [
    (
        "module m(input a,output reg y);reg i;always @* for (i = 0; i < 1; i = i + 1) y = a;endmodule",
        "37 BadLoop at 52",
    ),
    (
        "module m(input a,output reg y);integer i;integer j;always @* for (i = 0; i < 1; j = i + 1) y = a;endmodule",
        "37 BadLoop at 80",
    ),
    (
        "module m(input a,output reg y);integer i;always @* for (i = 0; i < 1; i = i + 1) for (i = 0; i < 1; i = i + 1) y = a;endmodule",
        "37 BadLoop at 86",
    ),
    (
        "module m(input a,output reg y);integer i;integer j;always @* begin for (j = 0; j < 1; j = j + 1) y = a; for (i = j; i < 1; i = i + 1) y = a; end endmodule",
        "13 NotConstant at 113",
    ),
    (
        "module m(input a,output reg y);integer i;always @* for (i = 0; i < 1; i = i + 1) begin y = a; i = 3; end endmodule",
        "37 BadLoop at 94",
    ),
    (
        "module m(input a,output reg y);integer i;always @* for (i = 0; i < 1; i = i + 1) y = i[0];endmodule",
        "37 BadLoop at 85",
    ),
    (
        "module m(input [1:0] a,output reg y,output z);integer i;always @* for (i = 0; i < 2; i = i + 1) y = a[i];assign z = a[i];endmodule",
        "37 BadLoop at 118",
    ),
    (
        "module m(input a,output reg y);integer i;always @* for (i = 0; i < a; i = i + 1) y = a;endmodule",
        "13 NotConstant at 67",
    ),
    (
        "module m(input a,output reg y);integer i;always @* for (i = 0; i < 2; i = i + b) y = a;endmodule",
        "11 UnknownName at 78",
    ),
    (
        "module m(input a,output reg y);integer i;always @* for (i = 0; i < 4; i = i * 2) y = a;endmodule",
        "16 TooMany turns 65537",
    ),
    (
        "module m(input a,output reg y);integer i;always @* for (i = 0; i < 65536; i = i + 1) y = a ^ a ^ a ^ a ^ a ^ a ^ a ^ a;endmodule",
        "16 TooMany unfolded 1048590",
    ),
];

#[test]
fn refusals_of_loops(rt: HostRuntime) -> Result<(), Fail> {
    for (design, expected) in REFUSED.iter() {
        assert!(rt; tells(rt.alloc(), *design, None, *expected)?, "{design}");
    }
    Ok(())
}
