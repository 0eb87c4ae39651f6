//! Designs with few choice bits, and their tables.

/// Its 12 choice bits: an overwrite of `q`, a guard and a literal.
pub(crate) const INVERTED: &str =
    "module m(input clk, input rst, output reg q);\n  always @(posedge clk)\n    if (!rst) q <= 1'b0;\n    else q <= ~q;\nendmodule\n";

pub(crate) const INVERTED_TABLE: &str = "rst,q\n1,0\n0,0\n0,1\n0,0\n1,1\n";

/// A branch that is not taken leaves the register.
pub(crate) const BRANCH: &str =
    "module m(input clk, input e, output reg q); always @(posedge clk) if (e) q <= 1'b1; endmodule";

/// Labels with digits that match anything.
pub(crate) const WILD: &str =
    "module m(input [1:0] a, output reg y); always @(*) casez (a) 2'b1?: y = 1'b0; default: y = a[0]; endcase endmodule";

pub(crate) const WILD_TABLE: &str = "a,y\n0,0\n1,1\n2,1\n3,0\n";

/// What `=` writes is read at once.
pub(crate) const BLOCKING: &str =
    "module m(input clk, input d, output reg q); reg t; always @(posedge clk) begin t = d; q <= t ^ 1'b1; end endmodule";

pub(crate) const BLOCKING_TABLE: &str = "d,q\n0,0\n1,0\n0,1\n1,1\n";

/// A write at an index, behind one of the whole.
pub(crate) const INDEX: &str =
    "module m(input clk, input [1:0] i, output reg [1:0] q); always @(posedge clk) begin q <= q ^ 2'b01; q[i] <= 1'b1; end endmodule";

pub(crate) const INDEX_TABLE: &str = "i,q\n0,0\n1,1\n3,0b1x\n";

/// One literal in two instances.
pub(crate) const INSTANCES: &str =
    "module inc(input [1:0] a, output [1:0] y); assign y = a + 2'd2; endmodule module m(input [1:0] a, output [1:0] y); wire [1:0] t; inc u0(.a(a), .y(t)); inc u1(.a(t), .y(y)); endmodule";

pub(crate) const INSTANCES_TABLE: &str = "a,y\n0,2\n1,x\n3,1\n";

/// A serial transmitter with a fault in the count.
pub(crate) const TRANSMITTER: &str =
    "`timescale 1ns/1ps\nmodule tx(clk, rst_n, start, data, line, busy);\n  parameter BITS = 8;\n  localparam IDLE = 2'd0, SEND = 2'd1, STOP = 2'd2;\n  input clk, rst_n, start;\n  input [BITS-1:0] data;\n  output line, busy;\n  reg [1:0] state;\n  reg [BITS-1:0] sh;\n  reg [3:0] n;\n  reg line;\n  assign busy = state != IDLE;\n  always @(posedge clk or negedge rst_n)\n    if (!rst_n) begin\n      state <= IDLE; line <= 1'b1; sh <= 0; n <= 0;\n    end else case (state)\n      IDLE: if (start) begin\n        state <= SEND; line <= 1'b0; sh <= data; n <= 0;\n      end\n      SEND: begin\n        line <= sh[0]; sh <= sh >> 1; n <= n + 1;\n        if (n == 4'd8) state <= STOP;\n      end\n      STOP: begin line <= 1'b1; state <= IDLE; end\n      default: state <= IDLE;\n    endcase\nendmodule\n";
