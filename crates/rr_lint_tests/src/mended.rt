//! Files of small designs with their combinational blocks mended, written by hand.
use bumpalo::Bump;
use rr_lint_file::mend_file;
use std::alloc::Global;
use std::test::Fail;

/// A design, and the same mended.
type Case = (&'static str, &'static str);

const MENDED: [Case; 26] = [
    // A `case` that leaves two values out.
    (
        "module m(input [1:0] s, output reg y);\n  always @*\n    case (s)\n      2'd0: y = 1'b0;\n      2'd1: y = 1'b1;\n    endcase\nendmodule\n",
        "module m(input [1:0] s, output reg y);\n  always @* begin y = 0 ; \n    case (s)\n      2'd0: y = 1'b0;\n      2'd1: y = 1'b1;\n    endcase end \nendmodule\n",
    ),
    // `<=` of a combinational block.
    (
        "module m(input a, output reg y); always @* y <= a; endmodule\n",
        "module m(input a, output reg y); always @* y  =  a; endmodule\n",
    ),
    // `<=` that compares stays.
    (
        "module m(input [1:0] a, output reg y); always @(a) if (a <= 2'd1) y<=1'b1; else y<=(a <= 2'd2); endmodule\n",
        "module m(input [1:0] a, output reg y); always @(a) if (a <= 2'd1) y = 1'b1; else y = (a <= 2'd2); endmodule\n",
    ),
    // Variables are cleared in the order of their first targets, once each; parts count.
    (
        "module m(input e, input a, output reg [1:0] y, output reg z, output reg x); always @* begin x = a; if (e) begin z = a; y[0] = a; z = x; end end endmodule\n",
        "module m(input e, input a, output reg [1:0] y, output reg z, output reg x); always @* begin z = 0 ; y = 0 ;  begin x = a; if (e) begin z = a; y[0] = a; z = x; end end end  endmodule\n",
    ),
    // A bit that is read before it is assigned.
    (
        "module m(input a, output reg y, output reg z); always @* begin z = y; y = a; end endmodule\n",
        "module m(input a, output reg y, output reg z); always @* begin y = 0 ;  begin z = y; y = a; end end  endmodule\n",
    ),
    // `<=` first, and then what is kept.
    (
        "module m(input e, input a, output reg y); always @* if (e) y <= a; endmodule\n",
        "module m(input e, input a, output reg y); always @* begin y = 0 ;  if (e) y  =  a; end  endmodule\n",
    ),
    // An escaped name, and a concatenated target.
    (
        "module m(input e, input [1:0] a, output reg \\y! , output reg z); always @* if (e) {\\y! , z} = a; endmodule\n",
        "module m(input e, input [1:0] a, output reg \\y! , output reg z); always @* begin \\y! = 0 ; z = 0 ;  if (e) {\\y! , z} = a; end  endmodule\n",
    ),
    // An index that is not constant assigns nothing for certain.
    (
        "module m(input [1:0] i, output reg [3:0] y); always @* y[i] = 1'b1; endmodule\n",
        "module m(input [1:0] i, output reg [3:0] y); always @* begin y = 0 ;  y[i] = 1'b1; end  endmodule\n",
    ),
    // Only in the modules that have instances; clocked blocks stay.
    (
        "module n(input a, output reg y); always @* y <= a; endmodule\nmodule m(input clk, input d, output reg q); always @(posedge clk) q <= d; endmodule\n",
        "module n(input a, output reg y); always @* y <= a; endmodule\nmodule m(input clk, input d, output reg q); always @(posedge clk) q <= d; endmodule\n",
    ),
    // A variable that one instance of two keeps, by its parameter, and that no instance keeps.
    (
        "module n #(parameter P = 0) (input e, input a, output reg [1:0] y); always @* begin if (e) y[P] = a; y[0] = a; end endmodule\nmodule m(input e, input a, output [1:0] y, output [1:0] z); n u(.e(e), .a(a), .y(y)); n #(.P(1)) v(.e(e), .a(a), .y(z)); endmodule\n",
        "module n #(parameter P = 0) (input e, input a, output reg [1:0] y); always @* begin y = 0 ;  begin if (e) y[P] = a; y[0] = a; end end  endmodule\nmodule m(input e, input a, output [1:0] y, output [1:0] z); n u(.e(e), .a(a), .y(y)); n #(.P(1)) v(.e(e), .a(a), .y(z)); endmodule\n",
    ),
    (
        "module n #(parameter P = 0) (input e, input a, output reg [1:0] y); always @* begin if (e) y[P] = a; y[0] = a; end endmodule\nmodule m(input e, input a, output [1:0] y); n u(.e(e), .a(a), .y(y)); endmodule\n",
        "module n #(parameter P = 0) (input e, input a, output reg [1:0] y); always @* begin if (e) y[P] = a; y[0] = a; end endmodule\nmodule m(input e, input a, output [1:0] y); n u(.e(e), .a(a), .y(y)); endmodule\n",
    ),
    // Nothing to mend, with comments and directives.
    (
        "`define W 2\n/* a */ module m(input [`W-1:0] a, output reg y); // b\n  always @* begin y = 1'b0; if (a[0]) y = a[1]; end\nendmodule\n",
        "`define W 2\n/* a */ module m(input [`W-1:0] a, output reg y); // b\n  always @* begin y = 1'b0; if (a[0]) y = a[1]; end\nendmodule\n",
    ),
    // Beside a macro: what is put stands in the file.
    (
        "`define ONE 1'b1\nmodule m(input e, output reg y);\n  always @(*) if (e) y <= `ONE;\nendmodule\n",
        "`define ONE 1'b1\nmodule m(input e, output reg y);\n  always @(*) begin y = 0 ;  if (e) y  =  `ONE; end \nendmodule\n",
    ),
    // Two writers are for other commands to refuse.
    (
        "module m(input e, input a, output reg y); always @* if (e) y = a; always @* y <= a; endmodule\n",
        "module m(input e, input a, output reg y); always @* begin y = 0 ;  if (e) y = a; end  always @* y  =  a; endmodule\n",
    ),
    // Starting values and `initial` items stay.
    (
        "module m(input e, input a, output reg q = 1'b1, output reg y);\n  reg [1:0] s = (2'd1 <= 2'd2);\n  initial begin y = 1'b1; s = 2'd2; end\n  always @* if (e) q <= a;\n  always @* y = s[1];\nendmodule\n",
        "module m(input e, input a, output reg q = 1'b1, output reg y);\n  reg [1:0] s = (2'd1 <= 2'd2);\n  initial begin y = 1'b1; s = 2'd2; end\n  always @* begin q = 0 ;  if (e) q  =  a; end \n  always @* y = s[1];\nendmodule\n",
    ),
    // `<=` in a loop; each bit is assigned in one of its turns.
    (
        "module m(input [3:0] a, output reg [3:0] y);\n  integer i;\n  always @* for (i = 0; i < 4; i = i + 1) y[i] <= a[i];\nendmodule\n",
        "module m(input [3:0] a, output reg [3:0] y);\n  integer i;\n  always @* for (i = 0; i < 4; i = i + 1) y[i]  =  a[i];\nendmodule\n",
    ),
    // A variable that the turns of loops keep is cleared once, before them, in the order of the text.
    (
        "module m(input [3:0] a, input e, output reg [3:0] y, output reg z);\n  integer i, j;\n  always @* begin\n    for (i = 0; i < 2; i = i + 1) for (j = 0; j < 2; j = j + 1) if (e) y[2 * i + j] <= a[j];\n    if (e) z = a[0];\n  end\nendmodule\n",
        "module m(input [3:0] a, input e, output reg [3:0] y, output reg z);\n  integer i, j;\n  always @* begin y = 0 ; z = 0 ;  begin\n    for (i = 0; i < 2; i = i + 1) for (j = 0; j < 2; j = j + 1) if (e) y[2 * i + j]  =  a[j];\n    if (e) z = a[0];\n  end end \nendmodule\n",
    ),
    // A loop that has no turn in one instance of two, and in the one alone.
    (
        "module n #(parameter N = 0) (input e, input a, output reg [1:0] y); integer i; always @* for (i = 0; i < N; i = i + 1) if (e) y[i] = a; endmodule\nmodule m(input e, input a, output [1:0] y, output [1:0] z); n u(.e(e), .a(a), .y(y)); n #(.N(2)) v(.e(e), .a(a), .y(z)); endmodule\n",
        "module n #(parameter N = 0) (input e, input a, output reg [1:0] y); integer i; always @* begin y = 0 ;  for (i = 0; i < N; i = i + 1) if (e) y[i] = a; end  endmodule\nmodule m(input e, input a, output [1:0] y, output [1:0] z); n u(.e(e), .a(a), .y(y)); n #(.N(2)) v(.e(e), .a(a), .y(z)); endmodule\n",
    ),
    (
        "module n #(parameter N = 0) (input e, input a, output reg [1:0] y); integer i; always @* for (i = 0; i < N; i = i + 1) if (e) y[i] = a; endmodule\nmodule m(input e, input a, output [1:0] y); n u(.e(e), .a(a), .y(y)); endmodule\n",
        "module n #(parameter N = 0) (input e, input a, output reg [1:0] y); integer i; always @* for (i = 0; i < N; i = i + 1) if (e) y[i] = a; endmodule\nmodule m(input e, input a, output [1:0] y); n u(.e(e), .a(a), .y(y)); endmodule\n",
    ),
    // Loops of clocked blocks and of `initial` items stay.
    (
        "module m(input clk, input [1:0] d, output reg [1:0] q);\n  integer i;\n  initial for (i = 0; i < 2; i = i + 1) q = 2'd1;\n  always @(posedge clk) for (i = 0; i < 2; i = i + 1) q[i] <= d[i];\nendmodule\n",
        "module m(input clk, input [1:0] d, output reg [1:0] q);\n  integer i;\n  initial for (i = 0; i < 2; i = i + 1) q = 2'd1;\n  always @(posedge clk) for (i = 0; i < 2; i = i + 1) q[i] <= d[i];\nendmodule\n",
    ),
    // A memory whose words are all written by constant indices is kept nowhere; the scalar is cleared.
    (
        "module m(input e, input [1:0] a, output reg q, output [1:0] y); reg [1:0] r [0:1]; always @* begin r[0] <= a; r[1] <= 2'd0; if (e) q <= a[0]; end assign y = r[a]; endmodule\n",
        "module m(input e, input [1:0] a, output reg q, output [1:0] y); reg [1:0] r [0:1]; always @* begin q = 0 ;  begin r[0]  =  a; r[1]  =  2'd0; if (e) q  =  a[0]; end end  assign y = r[a]; endmodule\n",
    ),
    // A word that is not written is not kept, and one that is read behind its value neither.
    (
        "module m(input [1:0] a, output reg [1:0] y); reg [1:0] r [3:0]; always @* begin r[2] <= a; y <= r[2]; end endmodule\n",
        "module m(input [1:0] a, output reg [1:0] y); reg [1:0] r [3:0]; always @* begin r[2]  =  a; y  =  r[2]; end endmodule\n",
    ),
    // An index outside the memory writes nothing.
    (
        "module m(input e, input a, output reg y); reg r [0:1]; always @* begin y = a; if (e) r[2] = a; end endmodule\n",
        "module m(input e, input a, output reg y); reg r [0:1]; always @* begin y = a; if (e) r[2] = a; end endmodule\n",
    ),
    // Each word in a turn of a loop, in one instance of two; in the other there are no turns.
    (
        "module n #(parameter N = 0) (input a, input e, output y, output reg z); reg r [0:1]; integer i; always @* begin for (i = 0; i < N; i = i + 1) r[i] <= a; if (e) z <= a; end assign y = r[1]; endmodule\nmodule m(input a, input e, output y, output z, output s, output t); n u(.a(a), .e(e), .y(y), .z(z)); n #(.N(2)) v(.a(a), .e(e), .y(s), .z(t)); endmodule\n",
        "module n #(parameter N = 0) (input a, input e, output y, output reg z); reg r [0:1]; integer i; always @* begin z = 0 ;  begin for (i = 0; i < N; i = i + 1) r[i]  =  a; if (e) z  =  a; end end  assign y = r[1]; endmodule\nmodule m(input a, input e, output y, output z, output s, output t); n u(.a(a), .e(e), .y(y), .z(z)); n #(.N(2)) v(.a(a), .e(e), .y(s), .z(t)); endmodule\n",
    ),
    // Clocked blocks keep memories, and `initial` items start them.
    (
        "module m(input clk, input w, input [1:0] i, input [7:0] d, output reg [7:0] q);\n  reg [7:0] r [0:3];\n  initial r[0] = 8'd1;\n  always @(posedge clk) begin if (w) r[i] <= d; q <= r[i]; end\nendmodule\n",
        "module m(input clk, input w, input [1:0] i, input [7:0] d, output reg [7:0] q);\n  reg [7:0] r [0:3];\n  initial r[0] = 8'd1;\n  always @(posedge clk) begin if (w) r[i] <= d; q <= r[i]; end\nendmodule\n",
    ),
    // No `always` at all.
    (
        "module m(input a, output y); assign y = a; endmodule\n",
        "module m(input a, output y); assign y = a; endmodule\n",
    ),
];

/// Whether the file is mended to this.
fn is_mended(alloc: Global, file: &str, due: &str) -> bool {
    if file.len() > 1000 {
        return false;
    }
    let arena = Bump::new(alloc);
    match mend_file(alloc, file.as_bytes(), None, &arena) {
        Ok(text) => text.as_slice() == due.as_bytes(),
        Err(_) => false,
    }
}

#[test]
fn files_are_mended(rt: HostRuntime) -> Result<(), Fail> {
    let alloc = rt.alloc();
    for case in MENDED.iter() {
        assert!(rt; is_mended(alloc, case.0, case.1));
    }
    Ok(())
}

// What was mended is mended once more to itself.
#[test]
fn mended_files_stay(rt: HostRuntime) -> Result<(), Fail> {
    let alloc = rt.alloc();
    for case in MENDED.iter() {
        assert!(rt; is_mended(alloc, case.1, case.1));
    }
    Ok(())
}
