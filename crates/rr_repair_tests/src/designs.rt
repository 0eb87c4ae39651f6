//! Designs with faults, and their tables.

pub(crate) const GATE: &str = "module m(input a, output y);\n  assign y = a & 1'b0;\nendmodule\n";

pub(crate) const GATE_TABLE: &str = "a,y\n0,0\n1,1\n";

pub(crate) const COUNTER: &str =
    "module counter(input clk, input rst, output reg [3:0] q);\n  always @(posedge clk)\n    if (rst) q <= 4'd0;\n    else q <= q + 4'd2;\nendmodule\n";

pub(crate) const COUNTER_TABLE: &str = "rst,q\n1,0\n0,0\n0,1\n0,2\n0,3\n";

pub(crate) const INVERTED: &str =
    "module m(input clk, input rst, output reg q);\n  always @(posedge clk)\n    if (!rst) q <= 1'b0;\n    else q <= ~q;\nendmodule\n";

pub(crate) const INVERTED_TABLE: &str = "rst,q\n1,0\n0,0\n0,1\n0,0\n1,1\n";

pub(crate) const MISSING: &str =
    "module m(input clk, input rst, output reg [3:0] q);\n  always @(posedge clk)\n    q <= q + 4'd1;\nendmodule\n";

pub(crate) const MISSING_TABLE: &str = "rst,q\n0,0\n0,1\n1,2\n0,0\n0,1\n";

pub(crate) const TWO: &str =
    "module m(input clk, output reg [3:0] p, output reg [3:0] q);\n  always @(posedge clk) p <= p + 4'd2;\n  always @(posedge clk) q <= q + 4'd3;\nendmodule\n";

pub(crate) const TWO_TABLE: &str = "p,q\n0,0\n1,1\n2,2\n3,3\n";

pub(crate) const RESETS: &str =
    "module m(input clk, input rst, output reg [3:0] p, output reg [3:0] q);\n  always @(posedge clk) if (rst) p <= 4'd0; else p <= p + 4'd3;\n  always @(posedge clk) if (rst) q <= 4'd0; else q <= q + 4'd3;\nendmodule\n";

pub(crate) const RESETS_TABLE: &str = "rst,p,q\n1,0,0\n0,0,0\n0,1,1\n0,2,2\n";

pub(crate) const LOCK: &str =
    "module m(input a, input b, input c, output y);\n  assign y = (a ^ 1'b0) | (b ^ 1'b0) | (c ^ 1'b0);\nendmodule\n";

pub(crate) const LOCK_TABLE: &str =
    "a,b,c,y\n0,0,0,1\n0,0,1,1\n0,1,0,1\n0,1,1,1\n1,0,0,1\n1,0,1,1\n1,1,0,1\n1,1,1,1\n";

pub(crate) const WIRE: &str = "module m(input a, output y); assign y = a; endmodule\n";

pub(crate) const WIRE_TABLE: &str = "a,y\n0,0\n0,1\n";

pub(crate) const CELLS: &str = "module m(input [3:0] a, output [3:0] y); assign y = a; endmodule\n";

pub(crate) const INSTANCES: &str =
    "module inc(input [3:0] a, output [3:0] y);\n  assign y = a + 4'd2;\nendmodule\nmodule m(input [3:0] a, output [3:0] y);\n  wire [3:0] t;\n  inc u0(.a(a), .y(t));\n  inc u1(.a(t), .y(y));\nendmodule\n";

pub(crate) const INSTANCES_TABLE: &str = "a,y\n0,2\n5,7\n";

pub(crate) const SET: &str =
    "module m(input clk, input a, output reg q);\n  always @(posedge clk) if (a) q <= 1'b1; else q <= 1'b0;\nendmodule\n";

pub(crate) const SET_TABLE: &str = "a,q\n0,0\n0,1\n0,1\n";

pub(crate) const LOAD: &str =
    "module m(input clk, input a, input b, output reg q);\n  always @(posedge clk) if (a) q <= b; else q <= q;\nendmodule\n";

pub(crate) const LOAD_TABLE: &str = "a,b,q\n0,1,0\n0,1,1\n0,1,1\n";

pub(crate) const JOINED_TABLE: &str = "a,b,q\n1,1,0\n1,0,1\n0,1,0\n0,0,1\n1,0,1\n0,0,0\n";

pub(crate) const COPY: &str =
    "module m(input clk, input a, output reg q);\n  always @(posedge clk) q <= a;\nendmodule\n";

pub(crate) const COPY_TABLE: &str = "a,q\n0,0\n0,1\n0,1\n";

pub(crate) const MIXED: &str =
    "module m(input clk, input rst, input go, output reg [3:0] q, output reg [3:0] s);\n  always @(posedge clk)\n    if (rst) begin q <= 4'd1; s <= 4'd0; end\n    else begin\n      if (go) q <= (q << 1) ^ 4'd8;\n      else q <= q + 4'd4;\n      s <= s + (q ^ 4'd7);\n    end\nendmodule\n";

pub(crate) const MIXED_TABLE: &str =
    "rst,go,q,s\n1,1,x,x\n0,0,x,x\n0,1,x,x\n0,0,5,7\n0,1,x,x\n0,1,13,6\n0,1,x,x\n0,1,15,6\n";

pub(crate) const STEPS: &str =
    "module m(input clk, input rst, output reg [3:0] q);\n  always @(posedge clk)\n    if (rst) q <= 4'd0;\n    else q <= q + 4'd7 + 4'd0;\nendmodule\n";

pub(crate) const STEPS_TABLE: &str = "rst,q\n1,0\n0,0\n0,8\n0,0\n0,8\n";

pub(crate) const VALUE: &str =
    "module m(input [3:0] a, output [3:0] y);\n  assign y = a & 4'd6;\nendmodule\n";

pub(crate) const VALUE_TABLE: &str = "a,y\n1,1\n2,2\n4,4\n";

pub(crate) const NAMES: &str =
    "module m(input clk, input far, input go, input load, input d, output reg q, output reg r);\n  always @(posedge clk) begin\n    if (load) q <= d;\n    if (go) r <= d;\n  end\nendmodule\n";

pub(crate) const NAMES_TABLE: &str =
    "far,go,load,d,q,r\n0,0,1,1,0,0\n1,1,1,1,0,0\n0,0,1,0,1,1\n1,1,1,0,1,1\n0,0,0,1,0,0\n1,1,0,1,0,0\n0,0,0,0,0,1\n";

pub(crate) const ONES: &str =
    "module m(input [3:0] a, output reg [2:0] y);\n  integer i;\n  always @* begin\n    y = 3'd0;\n    for (i = 0; i < 4; i = i + 1)\n      if (!a[i]) y = y + 3'd1;\n  end\nendmodule\n";

pub(crate) const ONES_TABLE: &str = "a,y\n5,2\n0,0\n15,4\n1,1\n";

pub(crate) const BANK: &str =
    "module m(input clk, input we, input lock, input [1:0] a, input [3:0] d, output [3:0] y);\n  reg [3:0] r [0:3];\n  assign y = r[a];\n  always @(posedge clk) if (we) r[a] <= d;\nendmodule\n";

pub(crate) const BANK_TABLE: &str =
    "we,lock,a,d,y\n1,0,0,5,0\n1,1,0,6,5\n1,0,2,7,0\n0,0,0,8,5\n0,1,2,9,7\n";

pub(crate) const SUMS: &str =
    "module m(input clk, input we, input [1:0] a, input [3:0] d, output [3:0] y);\n  reg [3:0] r [0:3];\n  integer i;\n  initial for (i = 0; i < 4; i = i + 1) r[i] = 4'd8 - i;\n  assign y = r[a];\n  always @(posedge clk) if (we) r[a] <= r[a] + d + 4'd2;\nendmodule\n";

pub(crate) const SUMS_TABLE: &str =
    "we,a,d,y\n1,1,0,7\n1,1,3,8\n0,1,4,12\n1,3,9,5\n0,3,0,15\n0,0,0,8\n";
