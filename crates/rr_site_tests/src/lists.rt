//! Lists of sites of small designs, written by hand: their order, their names, and what is no site.
use bumpalo::Bump;
use rr_sites_command::list_sites;
use std::alloc::Global;
use std::test::Fail;

/// A design with the name of its top, and the lines of its sites.
type Case = (&'static str, &'static Option<&'static str>, &'static str);

const CASES: [Case; 20] = [
    // A counter.
    (
        "module counter(input clk, input rst, output reg [3:0] q);\n  always @(posedge clk)\n    if (rst) q <= 4'd0;\n    else q <= q + 4'd2;\nendmodule\n",
        &None,
        "0 overwrite 86 q guards 1\n1 guard 90 guards 1\n2 literal 100 4'h0\n3 literal 124 4'h2\n",
    ),
    // Nested conditions, without a register.
    (
        "module m(input a, input b, output y); assign y = a ? (b ? 1'b0 : 1'b1) : 1'b1; endmodule",
        &None,
        "0 guard 49 guards 0\n1 guard 54 guards 0\n2 literal 58 1'h0\n3 literal 65 1'h1\n4 literal 73 1'h1\n",
    ),
    // An outer condition before the inner one at its first token.
    (
        "module m(input clk, input a, input b, input c, output reg q); always @(posedge clk) if (a ? b : c) q <= 1'b1; else q <= ~q; endmodule",
        &None,
        "0 overwrite 84 q guards 4\n1 guard 88 guards 4\n2 guard 88 guards 4\n3 literal 104 1'h1\n",
    ),
    // A concatenated target.
    (
        "module m(input clk, input [1:0] x, output reg a, output reg [1:0] b); always @(posedge clk) {a, b} <= {x, 1'b1}; endmodule",
        &None,
        "0 overwrite 92 a guards 1\n1 overwrite 92 b guards 1\n2 literal 106 1'h1\n",
    ),
    // Ports that are declared later.
    (
        "module m(clk, rst, q);\n  input clk, rst;\n  output q;\n  reg q;\n  always @(posedge clk) if (rst) q <= 1'b0; else q <= ~q;\nendmodule\n",
        &None,
        "0 overwrite 86 q guards 2\n1 guard 90 guards 2\n2 literal 100 1'h0\n",
    ),
    // Escaped names.
    (
        "module m(input clk, input \\a+b , output reg \\q! ); always @(posedge clk) if (\\a+b ) \\q! <= 1'b0; endmodule",
        &None,
        "0 overwrite 73 q! guards 2\n1 guard 77 guards 2\n2 literal 91 1'h0\n",
    ),
    // The clock under another name.
    (
        "module d(input ck, input e, output reg q); always @(posedge ck) if (e) q <= 1'b1; endmodule module m(input clk, input e, output q); d u(.ck(clk), .e(e), .q(q)); endmodule",
        &None,
        "0 overwrite 64 q guards 2\n1 guard 68 guards 2\n2 literal 76 1'h1\n",
    ),
    // An integer, and no names.
    (
        "module m(input clk, input [3:0] a, output reg [3:0] y); integer i; always @(posedge clk) begin i = a; y <= i; end endmodule",
        &None,
        "0 overwrite 89 y guards 0\n",
    ),
    // In a loop, and none in its head.
    (
        "module m(input clk, input e, output reg [3:0] q, output reg p); integer i; always @(posedge clk) begin p <= e; for (i = 0; i < 4; i = i + 1) if (e) q[i] <= 1'b1; end endmodule",
        &None,
        "0 overwrite 97 p guards 2\n1 guard 145 guards 2\n2 literal 156 1'h1\n",
    ),
    // What a loop alone assigns is no overwrite, and by `=` no name of a guard.
    (
        "module m(input clk, input e, output reg q); reg t; integer i; always @(posedge clk) begin for (i = 0; i < 2; i = i + 1) t = e; if (t) q <= 1'b1; end endmodule",
        &None,
        "0 overwrite 84 q guards 2\n1 guard 131 guards 2\n2 literal 139 1'h1\n",
    ),
    // A memory is no name of a guard, and its words are no overwrites.
    (
        "module m(input clk, input e, input [1:0] a, input d, output reg q); reg t [0:3]; always @(posedge clk) begin if (e) t[a] <= d; q <= t[a]; end endmodule",
        &None,
        "0 overwrite 103 q guards 3\n1 guard 113 guards 3\n",
    ),
    // A memory is no overwrite and no name of a guard, and its words and its `initial` item hold no site.
    (
        "module m(input clk, input e, input [1:0] a, output reg q); reg r [0:3]; integer i; initial for (i = 0; i < 4; i = i + 1) r[i] = 1'b1; always @(posedge clk) begin r[a + 2'd1] <= e; if (r[a]) q <= 1'b1; end endmodule",
        &None,
        "0 overwrite 156 q guards 2\n1 guard 184 guards 2\n2 literal 195 1'h1\n",
    ),
    // In what a memory's word takes, and none in an index.
    (
        "module m(input clk, input e, input [1:0] a, output [3:0] y); reg [3:0] r [0:3], c; assign y = e ? r[c[1:0]] + 4'd1 : r[4'd2]; always @(posedge clk) begin c <= c + 4'd1; if (e) r[a] <= c ^ 4'd8; end endmodule",
        &None,
        "0 guard 94 guards 0\n1 literal 110 4'h1\n2 overwrite 148 c guards 1\n3 literal 163 4'h1\n4 guard 173 guards 1\n5 literal 188 4'h8\n",
    ),
    // A range that names a parameter.
    (
        "module m #(parameter W = 4) (input clk, input [W-1:0] a, output reg [W-1:0] q); always @(posedge clk) q <= a + 4'd1; endmodule",
        &None,
        "0 literal 111 4'h1\n",
    ),
    // Wild labels and indices are none.
    (
        "module m(input [1:0] a, output reg y, output z); assign z = a[1'b1]; always @* casez (a) 2'b1?: y = 1'b1; default: y = 1'b0; endcase endmodule",
        &None,
        "0 overwrite 79 y guards 0\n1 literal 100 1'h1\n2 literal 119 1'h0\n",
    ),
    // A register guards outside clocked blocks.
    (
        "module m(input clk, input d, output reg r, output y); always @(posedge clk) r <= d; assign y = d ? 2 : 1'b0; endmodule",
        &None,
        "0 overwrite 76 r guards 3\n1 guard 95 guards 1\n2 literal 99 32'sh00000002\n3 literal 103 1'h0\n",
    ),
    // Without blanks.
    (
        "module m(input clk,input s,output reg[3:0]q);always@(posedge clk)q<=s?4'd3:4'd0;endmodule",
        &None,
        "0 overwrite 65 q guards 1\n1 guard 68 guards 1\n2 literal 70 4'h3\n3 literal 75 4'h0\n",
    ),
    // One literal of two instances.
    (
        "module inc(input [3:0] a, output [3:0] y);\n  assign y = a + 4'd2;\nendmodule\nmodule m(input [3:0] a, output [3:0] y);\n  wire [3:0] t;\n  inc u0(.a(a), .y(t));\n  inc u1(.a(t), .y(y));\nendmodule\n",
        &None,
        "0 literal 60 4'h2\n",
    ),
    // Only what is reached from the top.
    (
        "module n(output y); assign y = 1'b1; endmodule module m(output y); assign y = 1'b0; endmodule",
        &Some("n"),
        "0 literal 31 1'h1\n",
    ),
    // No sites.
    (
        "module m(input a, output y); assign y = a; endmodule",
        &None,
        "",
    ),
];

/// Whether a design has these lines.
fn lists(alloc: Global, design: &str, top: Option<&str>, expected: &str) -> bool {
    let bytes = design.as_bytes();
    if bytes.len() > 1_048_576 {
        return false;
    }
    let arena = Bump::new(alloc);
    match list_sites(alloc, bytes, top, None, &arena) {
        Ok(text) => text.as_slice() == expected.as_bytes(),
        Err(_) => false,
    }
}

#[test]
fn lists_of_designs(rt: HostRuntime) -> Result<(), Fail> {
    for (design, top, expected) in CASES.iter() {
        assert!(rt; lists(rt.alloc(), design, **top, expected), "{expected}");
    }
    Ok(())
}
