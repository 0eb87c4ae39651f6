//! Designs with faults, and their tables.

pub(crate) const COUNTER: &str =
    "module counter(input clk, input rst, output reg [3:0] q);\n  always @(posedge clk)\n    if (rst) q <= 4'd0;\n    else q <= q + 4'd2;\nendmodule\n";

pub(crate) const COUNTER_TABLE: &str = "rst,q\n1,0\n0,0\n0,1\n0,2\n0,3\n";

pub(crate) const MENDED_COUNTER: &str =
    "module counter(input clk, input rst, output reg [3:0] q);\n  always @(posedge clk)\n    if (rst) q <= 4'd0;\n    else q <= q +  4'h1 ;\nendmodule\n";

pub(crate) const UNSIZED: &str =
    "module counter(input clk, input rst, output reg [3:0] q);\n  always @(posedge clk)\n    if (rst) q <= 4'd0;\n    else q <= q + 2;\nendmodule\n";

/// What stands before and after the seven digits that are free in a repair of the counter without sizes.
pub(crate) const MENDED_UNSIZED: (&str, &str) = (
    "module counter(input clk, input rst, output reg [3:0] q);\n  always @(posedge clk)\n    if (rst) q <= 4'd0;\n    else q <= q +  32'sh",
    "1 ;\nendmodule\n",
);

pub(crate) const GATE: &str = "module m(input a, output y);\n  assign y = a & 1'b1;\nendmodule\n";

pub(crate) const WIRE: &str = "module m(input a, output y); assign y = a; endmodule\n";

pub(crate) const INVERTED: &str =
    "module m(input clk, input rst, output reg q);\n  always @(posedge clk)\n    if (!rst) q <= 1'b0;\n    else q <= ~q;\nendmodule\n";

pub(crate) const INVERTED_TABLE: &str = "rst,q\n1,0\n0,0\n0,1\n0,0\n1,1\n";

pub(crate) const MENDED_INVERTED: &str =
    "module m(input clk, input rst, output reg q);\n  always @(posedge clk)\n    if ( ! ( !rst ) ) q <= 1'b0;\n    else q <= ~q;\nendmodule\n";

pub(crate) const MISSING: &str =
    "module m(input clk, input rst, output reg [3:0] q);\n  always @(posedge clk)\n    q <= q + 4'd1;\nendmodule\n";

pub(crate) const MISSING_TABLE: &str = "rst,q\n0,0\n0,1\n1,2\n0,0\n0,1\n";

pub(crate) const MENDED_MISSING: &str =
    "module m(input clk, input rst, output reg [3:0] q);\n  always @(posedge clk) begin \n    q <= q + 4'd1; if ( rst ) q <= 4'h0 ; end \nendmodule\n";

pub(crate) const TWO: &str =
    "module m(input clk, output reg [3:0] p, output reg [3:0] q);\n  always @(posedge clk) p <= p + 4'd2;\n  always @(posedge clk) q <= q + 4'd3;\nendmodule\n";

pub(crate) const TWO_TABLE: &str = "p,q\n0,0\n1,1\n2,2\n3,3\n";

pub(crate) const MENDED_TWO: &str =
    "module m(input clk, output reg [3:0] p, output reg [3:0] q);\n  always @(posedge clk) p <= p +  4'h1 ;\n  always @(posedge clk) q <= q +  4'h1 ;\nendmodule\n";

pub(crate) const INSTANCES: &str =
    "module inc(input [3:0] a, output [3:0] y);\n  assign y = a + 4'd2;\nendmodule\nmodule m(input [3:0] a, output [3:0] y);\n  wire [3:0] t;\n  inc u0(.a(a), .y(t));\n  inc u1(.a(t), .y(y));\nendmodule\n";

pub(crate) const INSTANCES_TABLE: &str = "a,y\n0,2\n5,7\n";

/// Both repairs of the two instances: the low bits of the literal decide.
pub(crate) const MENDED_INSTANCES: [&str; 2] = [
    "module inc(input [3:0] a, output [3:0] y);\n  assign y = a +  4'h1 ;\nendmodule\nmodule m(input [3:0] a, output [3:0] y);\n  wire [3:0] t;\n  inc u0(.a(a), .y(t));\n  inc u1(.a(t), .y(y));\nendmodule\n",
    "module inc(input [3:0] a, output [3:0] y);\n  assign y = a +  4'h9 ;\nendmodule\nmodule m(input [3:0] a, output [3:0] y);\n  wire [3:0] t;\n  inc u0(.a(a), .y(t));\n  inc u1(.a(t), .y(y));\nendmodule\n",
];

pub(crate) const CELLS: &str = "module m(input [3:0] a, output [3:0] y); assign y = a; endmodule\n";

pub(crate) const SWAP: &str =
    "module m(input clk, input ld, output reg a, output reg b); always @(posedge clk) if (ld) begin a <= 1'b1; b <= 1'b0; end else begin a <= b; b <= a; end endmodule\n";

/// A serial transmitter with a fault in the count.
pub(crate) const TRANSMITTER: &str =
    "`timescale 1ns/1ps\nmodule tx(clk, rst_n, start, data, line, busy);\n  parameter BITS = 8;\n  localparam IDLE = 2'd0, SEND = 2'd1, STOP = 2'd2;\n  input clk, rst_n, start;\n  input [BITS-1:0] data;\n  output line, busy;\n  reg [1:0] state;\n  reg [BITS-1:0] sh;\n  reg [3:0] n;\n  reg line;\n  assign busy = state != IDLE;\n  always @(posedge clk or negedge rst_n)\n    if (!rst_n) begin\n      state <= IDLE; line <= 1'b1; sh <= 0; n <= 0;\n    end else case (state)\n      IDLE: if (start) begin\n        state <= SEND; line <= 1'b0; sh <= data; n <= 0;\n      end\n      SEND: begin\n        line <= sh[0]; sh <= sh >> 1; n <= n + 1;\n        if (n == 4'd8) state <= STOP;\n      end\n      STOP: begin line <= 1'b1; state <= IDLE; end\n      default: state <= IDLE;\n    endcase\nendmodule\n";

pub(crate) const TRANSMITTER_TABLE: &str =
    "time,rst_n,start,data,line,busy\n0,0,0,0,x,x\n10,1,1,0x53,1,0\n20,1,0,0,0,1\n30,1,0,0,1,1\n40,1,0,0,1,1\n50,1,0,0,0,1\n60,1,0,0,0,1\n70,1,0,0,1,1\n80,1,0,0,0,1\n90,1,0,0,1,1\n100,1,0,0,0,1\n110,1,0,0,1,0\n120,1,0,0,1,0\n";

/// The transmitter's own run: the row at 110 still sends.
pub(crate) const TRANSMITTER_RUN: &str =
    "rst_n,start,data,line,busy\n0,0,0,0,0\n1,1,83,1,0\n1,0,0,0,1\n1,0,0,1,1\n1,0,0,1,1\n1,0,0,0,1\n1,0,0,0,1\n1,0,0,1,1\n1,0,0,0,1\n1,0,0,1,1\n1,0,0,0,1\n1,0,0,0,1\n1,0,0,1,0\n";
