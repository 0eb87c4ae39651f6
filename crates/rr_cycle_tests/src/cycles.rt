//! Designs with rows of inputs, and the outputs that they give, by hand from IEEE 1364-2005 sections 4, 5, 6, 9 and
//! 12; values are those of two states.
ghost use Rattle.rr_flat.specs.View.{plain_flat};
ghost use Rattle.rr_flat.specs.Elaborated.{IsSound};

use bumpalo::Bump;
use rr_elaborate::elaborate;
use rr_expr::Env;
use rr_flat::Flat;
use rr_lawful::check;
use rr_meaning::{run_table, settle, step};
use rr_trace::{read_table, write_table};
use std::alloc::{AllocError, Global};
use std::test::Fail;

/// A text, a table of inputs, and the same with the outputs.
type Case = (&'static str, &'static str, &'static str);

/// The table of a lawful design with its outputs as they are.
fn outputs(alloc: Global, flat: &Flat, table: &str) -> Result<Option<Vec<u8>>, AllocError>
    requires { IsSound (plain_flat flat.now) }
{
    let Ok(order) = check(alloc, flat, None) else {
        return Ok(None);
    };
    let Ok(table) = read_table(alloc, table.as_bytes(), flat, order.clock) else {
        return Ok(None);
    };
    let outputs = run_table(alloc, flat, &order, table.inputs.as_slice())?;
    let text = write_table(alloc, flat, order.clock, &table, outputs.as_slice())?;
    Ok(Some(text))
}

fn run(alloc: Global, text: &str, table: &str) -> Result<Option<Vec<u8>>, AllocError> {
    let bytes = text.as_bytes();
    if bytes.len() > 1_048_576 {
        return Ok(None);
    }
    let arena = Bump::new(alloc);
    match elaborate(alloc, bytes, None, &arena) {
        Err(_) => Ok(None),
        Ok(design) => outputs(alloc, &design.flat, table),
    }
}

/// Whether a design gives this table for one of inputs.
fn gives(alloc: Global, text: &str, table: &str, expected: &str) -> Result<bool, AllocError> {
    match run(alloc, text, table)? {
        None => Ok(false),
        Some(bytes) => Ok(bytes.as_slice() == expected.as_bytes()),
    }
}

/// The place of the first case that is given otherwise.
fn first_wrong(alloc: Global, cases: &[Case]) -> Result<Option<usize>, AllocError> {
    for (place, case) in cases.iter().enumerate() {
        if !gives(alloc, case.0, case.1, case.2)? {
            return Ok(Some(place));
        }
    }
    Ok(None)
}

/// Fails at the first case of these tables that is given otherwise.
fn all_right(alloc: Global, tables: &[&[Case]]) -> Result<(), Fail> {
    for (table, cases) in tables.iter().enumerate() {
        if let Some(place) = first_wrong(alloc, cases)? {
            return Err(Fail::new(format_args!("case {place} of table {table}")));
        }
    }
    Ok(())
}

const REGISTERS_WITH_A_RESET: [Case; 3] = [
    (
        "module m(input clk, input rst, output reg a, output reg b); always @(posedge clk) if (rst) a <= 1'b1; else a <= b; always @(posedge clk) if (rst) b <= 1'b0; else b <= a; endmodule",
        "rst\n1\n0\n0\n0\n",
        "rst,a,b\n1,0,0\n0,1,0\n0,0,1\n0,1,0\n",
    ),
    (
        "module m(input clk, input rst, input en, output reg [3:0] q); always @(posedge clk) if (rst) q <= 4'h0; else if (en) q <= q + 4'h1; endmodule",
        "rst,en\n1,0\n0,1\n0,1\n0,0\n1,1\n0,0\n",
        "rst,en,q\n1,0,0\n0,1,0\n0,1,1\n0,0,2\n1,1,2\n0,0,0\n",
    ),
    (
        "module m(input clk, input rst_n, input d, output reg q); always @(posedge clk or negedge rst_n) if (!rst_n) q <= 1'b0; else q <= d; endmodule",
        "rst_n,d\n1,1\n0,1\n1,1\n1,0\n",
        "rst_n,d,q\n1,1,0\n0,1,1\n1,1,0\n1,0,1\n",
    ),
];

const REGISTERS_OF_BOTH_EDGES: [Case; 2] = [
    (
        "module m(input clk, input [3:0] a, input [3:0] b, output reg [3:0] s, output reg c); always @(posedge clk) {c, s} <= a + b; endmodule",
        "a,b\n15,1\n7,8\n0,0\n",
        "a,b,s,c\n15,1,0,0\n7,8,0,1\n0,0,15,0\n",
    ),
    (
        "module m(input clk, input d, output reg q); always @(negedge clk) q <= d; endmodule",
        "d\n1\n0\n0\n",
        "d,q\n1,0\n0,1\n0,0\n",
    ),
];

const ASSIGNMENTS_IN_ORDER: [Case; 4] = [
    (
        "module m(input clk, input d, output reg a, output reg b, output reg c); always @(posedge clk) begin a = d; b = a; c <= b; end endmodule",
        "d\n1\n0\n0\n",
        "d,a,b,c\n1,0,0,0\n0,1,1,1\n0,0,0,0\n",
    ),
    (
        "module m(input clk, input d, output reg a, output reg b); always @(posedge clk) begin a <= d; b <= a; end endmodule",
        "d\n1\n0\n0\n",
        "d,a,b\n1,0,0\n0,1,0\n0,0,1\n",
    ),
    (
        "module m(input clk, input d, output reg q); always @(posedge clk) begin q <= 1'b1; q <= d; end endmodule",
        "d\n1\n0\n1\n",
        "d,q\n1,0\n0,1\n1,0\n",
    ),
    (
        "module m(input clk, input rst, output reg a, output reg b); reg s; always @(posedge clk) if (rst) begin a = 1'b1; b = 1'b0; end else begin s = a; a = b; b = s; end endmodule",
        "rst\n1\n0\n0\n",
        "rst,a,b\n1,0,0\n0,1,0\n0,0,1\n",
    ),
];

const WRITES_OF_PARTS: [Case; 3] = [
    (
        "module m(input clk, input [1:0] d, output reg [3:0] q); always @(posedge clk) begin q[1:0] <= d; q[3] <= d[0]; end endmodule",
        "d\n3\n1\n2\n0\n",
        "d,q\n3,0\n1,11\n2,9\n0,2\n",
    ),
    (
        "module m(input clk, input d, output reg [1:0] q); always @(posedge clk) q[0] <= d; always @(posedge clk) q[1] <= q[0]; endmodule",
        "d\n1\n0\n0\n0\n",
        "d,q\n1,0\n0,1\n0,2\n0,0\n",
    ),
    (
        "module m(input [3:0] a, output reg [1:0] x, output reg [1:0] y); always @* {x, y} = a; endmodule",
        "a\n9\n6\n",
        "a,x,y\n9,2,1\n6,1,2\n",
    ),
];

const WRITES_AT_AN_INDEX: [Case; 4] = [
    (
        "module m(input clk, input [1:0] i, output reg [3:0] q); always @(posedge clk) q[i] <= 1'b1; endmodule",
        "i\n2\n0\n2\n",
        "i,q\n2,0\n0,4\n2,5\n",
    ),
    (
        "module m(input clk, input [2:0] i, output reg [2:0] q, output y); always @(posedge clk) q[i] <= 1'b1; assign y = q[i]; endmodule",
        "i\n5\n1\n1\n7\n",
        "i,q,y\n5,0,0\n1,0,0\n1,2,1\n7,2,0\n",
    ),
    (
        "module m(input clk, input e, output reg [3:0] q); reg [1:0] i; always @(posedge clk) begin i = i + 2'd1; q[i] <= e; end endmodule",
        "e\n1\n1\n0\n1\n",
        "e,q\n1,0\n1,2\n0,6\n1,6\n",
    ),
    (
        "module m(input clk, input [2:0] i, input [1:0] d, output reg [7:0] q); always @(posedge clk) q[i +: 2] <= d; endmodule",
        "i,d\n2,3\n7,3\n6,2\n0,0\n",
        "i,d,q\n2,3,0\n7,3,12\n6,2,140\n0,0,140\n",
    ),
];

const SUMS_AND_CARRIES: [Case; 3] = [
    (
        "module m(input [3:0] a, input [3:0] b, output [3:0] s, output c); assign {c, s} = a + b; endmodule",
        "a,b\n15,1\n7,8\n9,9\n",
        "a,b,s,c\n15,1,0,1\n7,8,15,0\n9,9,2,1\n",
    ),
    (
        "module m(input [3:0] a, input [3:0] b, output [4:0] y, output [3:0] z); assign y = (a + b) >> 1; assign z = (a + b) >> 1; endmodule",
        "a,b\n15,1\n6,4\n",
        "a,b,y,z\n15,1,8,0\n6,4,5,5\n",
    ),
    (
        "module m(input [127:0] a, output [127:0] y); assign y = a + 128'd1; endmodule",
        "a\n340282366920938463463374607431768211455\n9\n",
        "a,y\n340282366920938463463374607431768211455,0\n9,10\n",
    ),
];

const PRODUCTS_AND_DIFFERENCES: [Case; 2] = [
    (
        "module m(input [3:0] a, input [3:0] b, output [3:0] y, output [7:0] z); assign y = a * b; assign z = a * b; endmodule",
        "a,b\n5,5\n15,15\n",
        "a,b,y,z\n5,5,9,25\n15,15,1,225\n",
    ),
    (
        "module m(input [3:0] a, input [3:0] b, output [3:0] y, output [7:0] z); assign y = a - b; assign z = a - b; endmodule",
        "a,b\n5,7\n7,5\n",
        "a,b,y,z\n5,7,14,254\n7,5,2,2\n",
    ),
];

const SIGNED_SUMS: [Case; 2] = [
    (
        "module m(input signed [3:0] a, input signed [3:0] b, output [7:0] y, output [7:0] z); assign y = a + b; assign z = a + {b}; endmodule",
        "a,b\n15,1\n8,15\n7,7\n",
        "a,b,y,z\n15,1,0,16\n8,15,247,23\n7,7,14,14\n",
    ),
    (
        "module m(input [3:0] a, output reg [4:0] y); integer i; always @* begin i = a; y = i + 1; end endmodule",
        "a\n15\n0\n",
        "a,y\n15,16\n0,1\n",
    ),
];

const COMPARISONS: [Case; 4] = [
    (
        "module m(input signed [3:0] a, input signed [3:0] b, output y, output z); assign y = a < b; assign z = $unsigned(a) < $unsigned(b); endmodule",
        "a,b\n15,1\n8,7\n3,2\n",
        "a,b,y,z\n15,1,1,0\n8,7,1,0\n3,2,0,0\n",
    ),
    (
        "module m(input signed [3:0] a, input [3:0] b, output y); assign y = a < b; endmodule",
        "a,b\n15,1\n1,15\n",
        "a,b,y\n15,1,0\n1,15,1\n",
    ),
    (
        "module m(input [1:0] a, input [1:0] b, output x, output y, output z); assign x = a === b; assign y = a != b; assign z = a >= b; endmodule",
        "a,b\n2,2\n1,2\n",
        "a,b,x,y,z\n2,2,1,0,1\n1,2,0,1,0\n",
    ),
    (
        "module m(input [1:0] a, input [1:0] b, output y, output [1:0] z, output x); assign y = a && b; assign z = a & b; assign x = !a; endmodule",
        "a,b\n1,2\n0,3\n3,1\n",
        "a,b,y,z,x\n1,2,1,0,0\n0,3,0,0,1\n3,1,1,1,0\n",
    ),
];

const OPERATORS_ON_BITS: [Case; 3] = [
    (
        "module m(input [3:0] a, input [1:0] b, output [3:0] y, output [3:0] z, output [3:0] w); assign y = a << b; assign z = a >>> 1; assign w = $signed(a) >>> 1; endmodule",
        "a,b\n8,1\n3,2\n",
        "a,b,y,z,w\n8,1,0,4,12\n3,2,12,1,1\n",
    ),
    (
        "module m(input [2:0] a, output [5:0] y); assign y = {&a, |a, ^a, ~&a, ~|a, ~^a}; endmodule",
        "a\n7\n0\n5\n",
        "a,y\n7,56\n0,7\n5,21\n",
    ),
    (
        "module m(input a, output [3:0] y); assign y = 4'b1x0z | {3'b000, a}; endmodule",
        "a\n0\n1\n",
        "a,y\n0,8\n1,9\n",
    ),
];

const CHOICES_AND_CONCATENATIONS: [Case; 2] = [
    (
        "module m(input s, input [3:0] a, input [1:0] b, output [3:0] y); assign y = s ? a : b; endmodule",
        "s,a,b\n1,9,2\n0,9,2\n",
        "s,a,b,y\n1,9,2,9\n0,9,2,2\n",
    ),
    (
        "module m(input [3:0] a, output [7:0] y, output [3:0] z); assign y = {2{a}}; assign z = {a[0], 3'b101}; endmodule",
        "a\n10\n3\n",
        "a,y,z\n10,170,5\n3,51,13\n",
    ),
];

const SELECTS: [Case; 3] = [
    (
        "module m(input [3:0] a, output y, output z); wire [0:3] v; assign v = a; assign y = v[0]; assign z = v[3]; endmodule",
        "a\n8\n1\n",
        "a,y,z\n8,1,0\n1,0,1\n",
    ),
    (
        "module m(input [7:0] a, input [2:0] i, output [1:0] y, output [1:0] z); assign y = a[i +: 2]; assign z = a[i -: 2]; endmodule",
        "a,i\n180,2\n180,4\n180,7\n181,0\n",
        "a,i,y,z\n180,2,1,2\n180,4,3,2\n180,7,1,2\n181,0,1,2\n",
    ),
    (
        "module m(input [3:0] a, input [2:0] i, output y); assign y = a[i]; endmodule",
        "a,i\n8,3\n15,4\n15,7\n",
        "a,i,y\n8,3,1\n15,4,0\n15,7,0\n",
    ),
];

const LABELS_OF_CASES: [Case; 4] = [
    (
        "module m(input [1:0] a, output reg [1:0] y); always @* case (a) 2'b01: y = 2'd1; 2'b01: y = 2'd2; 2'b10: y = 2'd3; default: y = 2'd0; endcase endmodule",
        "a\n1\n2\n3\n",
        "a,y\n1,1\n2,3\n3,0\n",
    ),
    (
        "module m(input [2:0] a, output reg [1:0] y); always @* casez (a) 3'b1??: y = 2'd3; 3'b01?: y = 2'd2; 3'b001: y = 2'd1; default: y = 2'd0; endcase endmodule",
        "a\n5\n3\n1\n0\n",
        "a,y\n5,3\n3,2\n1,1\n0,0\n",
    ),
    (
        "module m(input [1:0] a, output reg y); always @* casex (a) 2'b1x: y = 1'b1; default: y = 1'b0; endcase endmodule",
        "a\n2\n3\n1\n",
        "a,y\n2,1\n3,1\n1,0\n",
    ),
    (
        "module m(input [1:0] s, input [3:0] d, output reg y); always @* begin y = 1'b0; case (s) 2'd0, 2'd1: y = d[s]; 2'd2: y = d[2]; endcase end endmodule",
        "s,d\n0,1\n1,1\n2,4\n3,15\n",
        "s,d,y\n0,1,1\n1,1,0\n2,4,1\n3,15,0\n",
    ),
];

const SIGNS_OF_CASES: [Case; 2] = [
    (
        "module m(input signed [1:0] a, output reg y); always @* case (a) 3'sb111: y = 1'b1; default: y = 1'b0; endcase endmodule",
        "a\n3\n1\n",
        "a,y\n3,1\n1,0\n",
    ),
    (
        "module m(input signed [1:0] a, output reg [1:0] y); always @* case (a) 3'b111: y = 2'd1; 3'b011: y = 2'd2; default: y = 2'd0; endcase endmodule",
        "a\n3\n1\n",
        "a,y\n3,2\n1,0\n",
    ),
];

const OPEN_NETS_AND_PORTS: [Case; 2] = [
    (
        "module m(input a, output y, output z); wire w; assign y = w; assign z = ~w; endmodule",
        "a\n1\n",
        "a,y,z\n1,0,1\n",
    ),
    (
        "module c(input i, output o); assign o = ~i; endmodule module m(input a, output y); c u(.o(y)); endmodule",
        "a\n0\n1\n",
        "a,y\n0,1\n1,1\n",
    ),
];

const INSTANCES_OF_MODULES: [Case; 2] = [
    (
        "module leaf(input ck, input d, output reg q); always @(posedge ck) q <= d; endmodule module mid(input ck, input d, output q); wire w; leaf a(ck, d, w); leaf b(ck, w, q); endmodule module m(input clk, input d, output q); mid u(.ck(clk), .d(d), .q(q)); endmodule",
        "d\n1\n0\n0\n0\n",
        "d,q\n1,0\n0,0\n0,1\n0,0\n",
    ),
    (
        "module c #(parameter W = 2)(input [W-1:0] a, output [W-1:0] y); assign y = ~a; endmodule module m(input [3:0] a, output [3:0] y, output [1:0] z); c #(4) u(a, y); c v(a[1:0], z); endmodule",
        "a\n5\n15\n",
        "a,y,z\n5,10,2\n15,0,0\n",
    ),
];

const DRIVERS_IN_ANY_ORDER: [Case; 4] = [
    (
        "module m(input a, output y); wire w; assign y = ~w; assign w = ~a; endmodule",
        "a\n0\n1\n",
        "a,y\n0,0\n1,1\n",
    ),
    (
        "module m(input a, output [2:0] y); assign y[0] = a; assign y[1] = ~y[0]; assign y[2] = ~y[1]; endmodule",
        "a\n1\n0\n",
        "a,y\n1,5\n0,2\n",
    ),
    (
        "module m(input a, output [3:0] y); assign y = {y[2:0], a}; endmodule",
        "a\n1\n0\n",
        "a,y\n1,15\n0,0\n",
    ),
    (
        "module m(input [1:0] a, output reg y, output reg z); always @* z = ~y; always @* y = &a; endmodule",
        "a\n3\n1\n",
        "a,y,z\n3,1,0\n1,0,1\n",
    ),
];

const WIRES_OF_CONCATENATIONS: [Case; 2] = [
    (
        "module m(input [3:0] a, input b, output [11:0] y); assign y = {b, {a[2:1], 2'b10}, a[3], a}; endmodule",
        "a,b\n10,1\n5,0\n",
        "a,b,y\n10,1,730\n5,0,325\n",
    ),
    (
        "module m(input b, input [1:0] d, output [5:0] c); assign c = {c[1], {d, c[0], 1'b0}, b}; endmodule",
        "b,d\n1,2\n0,3\n",
        "b,d,c\n1,2,21\n0,3,24\n",
    ),
];

const WORKED: [Case; 4] = [
    (
        "module m(input [3:0] a, input [3:0] b, output [3:0] y4, output [4:0] y5); assign y4 = (a + b) >> 1; assign y5 = (a + b) >> 1; endmodule",
        "a,b\n15,1\n",
        "a,b,y4,y5\n15,1,0,8\n",
    ),
    (
        "module m(input signed [3:0] a, output x, output y); assign x = a < 4'd2; assign y = a < 4'sd2; endmodule",
        "a\n15\n",
        "a,x,y\n15,0,1\n",
    ),
    (
        "module m(input clk, input ld, output reg a, output reg b); always @(posedge clk) if (ld) begin a <= 1'b1; b <= 1'b0; end else begin a <= b; b <= a; end endmodule",
        "ld\n1\n0\n0\n",
        "ld,a,b\n1,0,0\n0,1,0\n0,0,1\n",
    ),
    (
        "module m(input [2:0] a, output [3:0] c); assign c[0] = 1'b0; assign c[1] = c[0] ^ a[0]; assign c[2] = c[1] ^ a[1]; assign c[3] = c[2] ^ a[2]; endmodule",
        "a\n5\n",
        "a,c\n5,6\n",
    ),
];

/// Registers that begin with the starting values of their declarations (section 6.2.1).
const STARTING_VALUES: [Case; 4] = [
    (
        "module m(input clk, output reg [3:0] q = 4'd5); always @(posedge clk) q <= q + 4'd1; endmodule",
        "q\nx\nx\n",
        "q\n5\n6\n",
    ),
    (
        "module m(clk, q); input clk; output q; reg q = 1'b1; always @(posedge clk) q <= ~q; endmodule",
        "q\nx\nx\nx\n",
        "q\n1\n0\n1\n",
    ),
    (
        "module m(input clk, input d, output reg [1:0] q = 2'd2, output reg r); reg s = 1'b1; always @(posedge clk) begin q[0] <= d; s <= d; r = s; end endmodule",
        "d\n1\n0\n0\n",
        "d,q,r\n1,2,0\n0,3,1\n0,2,1\n",
    ),
    (
        "module m(input clk, input go, output [1:0] y); reg [1:0] state = 2'd2; assign y = state; always @(posedge clk) case (state) 2'd0: state <= 2'd3; 2'd2: if (go) state <= 2'd0; default: state <= 2'd2; endcase endmodule",
        "go\n0\n1\n0\n0\n0\n",
        "go,y\n0,2\n1,2\n0,0\n0,3\n0,2\n",
    ),
];

/// Variables that no clocked block writes: those of a combinational block have its values, all others
/// keep what they begin with.
const STARTS_WITHOUT_A_REGISTER: [Case; 4] = [
    (
        "module m(output reg [7:0] q = 4'd15 + 4'd1); endmodule",
        "q\nx\nx\n",
        "q\n16\n16\n",
    ),
    (
        "module m(input a, output reg y = 1'b1); always @* y = a; endmodule",
        "a\n0\n1\n",
        "a,y\n0,0\n1,1\n",
    ),
    (
        "module m(input [3:0] a, output [3:0] y, output reg [3:0] z); reg signed [2:0] mask = -3'sd2; assign y = a & mask; always @* z = mask; endmodule",
        "a\n15\n5\n",
        "a,y,z\n15,6,14\n5,4,14\n",
    ),
    (
        "module m(input a, output reg [2:0] q = 3'b110); always @* q[1] = a; endmodule",
        "a\n0\n1\n",
        "a,q\n0,4\n1,6\n",
    ),
];

/// `initial` items (section 9.9.1), and starting values of instances by parameters.
const INITIAL_ITEMS: [Case; 4] = [
    (
        "module m(input clk, output reg [3:0] q = 4'd1); initial q = 4'd8; initial begin q = 4'd9; q = 4'd14; end always @(posedge clk) q <= q + 4'd1; endmodule",
        "q\nx\nx\nx\n",
        "q\n14\n15\n0\n",
    ),
    (
        "module m(input clk, output reg a, output reg b); initial begin a = 1'b1; ; begin b = 2'd2; end end always @(posedge clk) begin a <= b; b <= a; end endmodule",
        "a\nx\nx\nx\n",
        "a,b\n1,0\n0,1\n1,0\n",
    ),
    (
        "module c #(parameter P = 3)(input ck, output reg [3:0] q = P); always @(posedge ck) q <= q - 4'd1; endmodule module m(input clk, output [3:0] y, output [3:0] z); c u(clk, y); c #(.P(12)) v(clk, z); endmodule",
        "y\nx\nx\n",
        "y,z\n3,12\n2,11\n",
    ),
    (
        "module c #(parameter P = 1)(input ck, output reg q); initial q = P; always @(posedge ck) q <= ~q; endmodule module m(input clk, output [1:0] y); c u(clk, y[0]); c #(2) v(clk, y[1]); endmodule",
        "y\nx\nx\n",
        "y\n1\n2\n",
    ),
];

#[test]
fn designs_with_starts(rt: HostRuntime) -> Result<(), Fail> {
    all_right(
        rt.alloc(),
        &[&STARTING_VALUES, &STARTS_WITHOUT_A_REGISTER, &INITIAL_ITEMS],
    )
}

#[test]
fn designs_with_rows(rt: HostRuntime) -> Result<(), Fail> {
    all_right(
        rt.alloc(),
        &[
            &REGISTERS_WITH_A_RESET,
            &REGISTERS_OF_BOTH_EDGES,
            &ASSIGNMENTS_IN_ORDER,
            &WRITES_OF_PARTS,
            &WRITES_AT_AN_INDEX,
            &SUMS_AND_CARRIES,
            &PRODUCTS_AND_DIFFERENCES,
            &SIGNED_SUMS,
            &COMPARISONS,
            &OPERATORS_ON_BITS,
            &CHOICES_AND_CONCATENATIONS,
            &SELECTS,
            &LABELS_OF_CASES,
            &SIGNS_OF_CASES,
            &OPEN_NETS_AND_PORTS,
            &INSTANCES_OF_MODULES,
            &DRIVERS_IN_ANY_ORDER,
            &WIRES_OF_CONCATENATIONS,
            &WORKED,
        ],
    )
}

/// The settled values of a lawful design with a row of inputs, and those of the next state.
fn cycle_from(
    alloc: Global,
    flat: &Flat,
    state: &Env,
    row: &[u128],
) -> Result<Option<(Env, Env)>, AllocError>
    requires { IsSound (plain_flat flat.now) }
{
    let Ok(order) = check(alloc, flat, None) else {
        return Ok(None);
    };
    let inputs = flat.row_inputs(alloc, order.clock)?;
    if row.len() != inputs.len() || state.values.len() != flat.signals.len() {
        return Ok(None);
    }
    let settled = settle(alloc, flat, &order, state, row)?;
    let next = step(alloc, flat, &settled)?;
    Ok(Some((settled, next)))
}

/// Whether a signal has this value in a settled environment and that one after the clock edge.
fn has_values(both: &Option<(Env, Env)>, signal: usize, settled: u128, next: u128) -> bool {
    match both {
        None => false,
        Some((now, then)) => now.values.get(signal) == Some(&settled)
            && then.values.get(signal) == Some(&next),
    }
}

fn next_of(both: Option<(Env, Env)>, alloc: Global) -> Env {
    match both {
        Some((_, next)) => next,
        None => Env {
            values: Vec::new(alloc),
        },
    }
}

/// A counter's cycles: two that count and one that does not.
fn counts(alloc: Global, flat: &Flat) -> Result<bool, AllocError>
    requires { IsSound (plain_flat flat.now) }
{
    let values = vec![in alloc; 0u128; flat.signals.len()]?;
    let first = cycle_from(alloc, flat, &Env { values }, &[1])?;
    let is_first = has_values(&first, 1, 1, 1) && has_values(&first, 2, 0, 1);
    let second = cycle_from(alloc, flat, &next_of(first, alloc), &[1])?;
    let is_second = has_values(&second, 2, 1, 2);
    let third = cycle_from(alloc, flat, &next_of(second, alloc), &[0])?;
    Ok(is_first && is_second && has_values(&third, 1, 0, 0) && has_values(&third, 2, 2, 2))
}

#[test]
fn cycles(rt: HostRuntime) -> Result<(), Fail> {
    let alloc = rt.alloc();
    let arena = Bump::new(alloc);
    let bytes =
        "module m(input clk, input e, output reg [3:0] q); always @(posedge clk) if (e) q <= q + 4'd1; endmodule".as_bytes();
    assert!(rt; bytes.len() < 1_000);
    match elaborate(alloc, bytes, None, &arena) {
        Err(_) => assert!(rt; false),
        Ok(design) => assert!(rt; counts(alloc, &design.flat)?),
    }
    Ok(())
}
