//! Memories (IEEE 1364-2005 sections 4.9.3 and 5.2.2): what runs of them give, and what they are refused for.
use crate::runs::{gives, tells};
use std::test::Fail;

/// Designs with memories, tables, and what is printed: words that are written and read by an index, and one that
/// begins otherwise; an index outside reads 0 and writes nothing; a word that is read and written at one edge, read
/// as it was; two that are read at once; a shift of words; one by a loop; words that are assigned at once, one
/// after the other; an index of more values than there are words, with bounds from the higher down; an index below
/// 0; words of one bit; words with a sign; words that combinational blocks give their values; words that nothing
/// writes, and an index that is one; memories of instances, of as many words as a parameter says; a word among the
/// targets of a concatenation, which has its bits there also where it is none; a word by a sum, of the lowest index
/// 2; counts in words.
const RUNS: [(&str, &str, &str); 16] = [
    (
        "module m(input clk, input we, input [1:0] a, input [3:0] d, output [3:0] y); reg [3:0] r [0:2]; initial r[1] = 4'd9; assign y = r[a]; always @(posedge clk) if (we) r[a] <= d; endmodule",
        "we,a,d\n0,1,0\n1,1,7\n0,1,0\n1,3,5\n0,3,0\n0,0,0\n",
        "we,a,d,y\n0,1,0,9\n1,1,7,9\n0,1,0,7\n1,3,5,0\n0,3,0,0\n0,0,0,0\n",
    ),
    (
        "module m(input clk, input [1:0] a, input [3:0] d, output reg [3:0] q); reg [3:0] r [3:0]; always @(posedge clk) begin r[a] <= d; q <= r[a]; end endmodule",
        "a,d\n2,5\n2,6\n2,7\n2,0\n1,0\n1,0\n",
        "a,d,q\n2,5,0\n2,6,0\n2,7,5\n2,0,6\n1,0,7\n1,0,0\n",
    ),
    (
        "module m(input clk, input we, input [1:0] w, input [1:0] a, input [1:0] b, input [7:0] d, output [7:0] y, output [7:0] z); reg [7:0] r [0:3]; assign y = r[a]; assign z = r[b]; always @(posedge clk) if (we) r[w] <= d; endmodule",
        "we,w,a,b,d\n1,0,0,1,200\n1,3,0,3,17\n0,0,3,0,0\n0,0,3,3,9\n",
        "we,w,a,b,d,y,z\n1,0,0,1,200,0,0\n1,3,0,3,17,200,0\n0,0,3,0,0,17,200\n0,0,3,3,9,17,17\n",
    ),
    (
        "module m(input clk, input [3:0] d, output [3:0] y); reg [3:0] s [1:3]; assign y = s[3]; always @(posedge clk) begin s[1] <= d; s[2] <= s[1]; s[3] <= s[2]; end endmodule",
        "d\n1\n2\n3\n4\n5\n",
        "d,y\n1,0\n2,0\n3,0\n4,1\n5,2\n",
    ),
    (
        "module m(input clk, input [3:0] d, output [3:0] y); reg [3:0] s [0:3]; integer i; assign y = s[3]; always @(posedge clk) begin for (i = 3; i > 0; i = i - 1) s[i] <= s[i - 1]; s[0] <= d; end endmodule",
        "d\n1\n2\n3\n4\n5\n6\n",
        "d,y\n1,0\n2,0\n3,0\n4,0\n5,1\n6,2\n",
    ),
    (
        "module m(input clk, input [1:0] a, input [3:0] d, output [3:0] y); reg [3:0] r [0:3]; assign y = r[1]; always @(posedge clk) begin r[a] = d; r[1] = r[a] + 4'd1; end endmodule",
        "a,d\n2,4\n1,9\n0,0\n3,15\n3,1\n",
        "a,d,y\n2,4,0\n1,9,5\n0,0,10\n3,15,1\n3,1,0\n",
    ),
    (
        "module m(input clk, input we, input [7:0] a, input [3:0] d, output [3:0] y); reg [3:0] r [5:4]; assign y = r[a]; always @(posedge clk) if (we) r[a] <= d; endmodule",
        "we,a,d\n1,5,3\n1,4,2\n0,5,0\n0,4,0\n1,3,9\n1,6,9\n1,255,9\n0,4,0\n0,5,0\n",
        "we,a,d,y\n1,5,3,0\n1,4,2,0\n0,5,0,3\n0,4,0,2\n1,3,9,0\n1,6,9,0\n1,255,9,0\n0,4,0,2\n0,5,0,3\n",
    ),
    (
        "module m(input clk, input we, input signed [2:0] a, input [3:0] d, output [3:0] y); reg [3:0] r [0:3]; assign y = r[a]; always @(posedge clk) if (we) r[a] <= d; endmodule",
        "we,a,d\n1,7,5\n1,3,6\n0,7,0\n0,3,0\n",
        "we,a,d,y\n1,7,5,0\n1,3,6,0\n0,7,0,0\n0,3,0,6\n",
    ),
    (
        "module m(input clk, input we, input [2:0] a, input d, output y); reg r [0:7]; assign y = r[a]; always @(posedge clk) if (we) r[a] <= d; endmodule",
        "we,a,d\n1,6,1\n0,6,0\n0,7,0\n1,6,0\n0,6,1\n",
        "we,a,d,y\n1,6,1,0\n0,6,0,1\n0,7,0,0\n1,6,0,1\n0,6,1,0\n",
    ),
    (
        "module m(output signed [7:0] y, output z); reg signed [3:0] r [0:1]; initial r[0] = -4'sd3; assign y = r[0]; assign z = r[0] < r[1]; endmodule",
        "y\nx\n",
        "y,z\n253,1\n",
    ),
    (
        "module m(input [3:0] a, input [3:0] b, input s, output [3:0] y); reg [3:0] t [0:1]; always @* begin t[0] = a; t[1] = b; end assign y = t[s]; endmodule",
        "a,b,s\n3,5,0\n3,5,1\n",
        "a,b,s,y\n3,5,0,3\n3,5,1,5\n",
    ),
    (
        "module m(input [1:0] a, output [7:0] y, output [7:0] z); reg [1:0] p [0:3]; reg [7:0] r [0:3]; initial begin p[0] = 2'd3; p[1] = 2'd1; p[2] = 2'd2; r[0] = 8'd10; r[1] = 8'd20; r[3] = 8'd40; end assign y = r[a]; assign z = r[p[a]]; endmodule",
        "a\n0\n1\n2\n3\n",
        "a,y,z\n0,10,40\n1,20,20\n2,0,0\n3,40,10\n",
    ),
    (
        "module f #(parameter D = 2)(input ck, input we, input [1:0] a, input [3:0] d, output [3:0] y); reg [3:0] r [0:D-1]; assign y = r[a]; always @(posedge ck) if (we) r[a] <= d; endmodule module m(input clk, input we, input [1:0] a, input [3:0] d, output [3:0] y, output [3:0] z); f #(4) u(clk, we, a, d, y); f v(clk, we, a, d, z); endmodule",
        "we,a,d\n1,3,7\n1,1,5\n0,3,0\n0,1,0\n",
        "we,a,d,y,z\n1,3,7,0,0\n1,1,5,0,0\n0,3,0,7,0\n0,1,0,5,5\n",
    ),
    (
        "module m(input clk, input [1:0] a, input [7:0] d, output [3:0] y, output reg [3:0] q); reg [3:0] r [0:1]; assign y = r[1]; always @(posedge clk) {r[a], q} <= d; endmodule",
        "a,d\n1,90\n2,60\n0,0\n1,255\n0,0\n",
        "a,d,y,q\n1,90,0,0\n2,60,5,10\n0,0,5,12\n1,255,5,0\n0,0,15,15\n",
    ),
    (
        "module m(input clk, input [1:0] a, input [1:0] b, input [3:0] d, output [3:0] y); reg [3:0] r [2:4]; assign y = r[{1'b0, a} + b]; always @(posedge clk) r[{1'b0, a} + 3'd2] <= d; endmodule",
        "a,b,d\n0,2,6\n1,1,7\n2,1,8\n2,2,9\n3,3,1\n3,1,2\n",
        "a,b,d,y\n0,2,6,0\n1,1,7,6\n2,1,8,7\n2,2,9,8\n3,3,1,0\n3,1,2,9\n",
    ),
    (
        "module m(input clk, input [1:0] a, output [3:0] y); reg [3:0] n [0:3]; assign y = n[a]; always @(posedge clk) n[a] <= n[a] + 4'd1; endmodule",
        "a\n0\n0\n2\n0\n2\n1\n",
        "a,y\n0,0\n0,1\n2,0\n0,2\n2,1\n1,0\n",
    ),
];

#[test]
fn runs_of_memories(rt: HostRuntime) -> Result<(), Fail> {
    for (design, table, printed) in RUNS.iter() {
        assert!(rt;
            gives(rt.alloc(), *design, *table, None, *printed),
            "{printed}"
        );
    }
    Ok(())
}

/// Designs and the texts of their refusals: a memory without an index, read, by a part and written; where signals may
/// not stand; an index of an `initial` item that is not constant; words that are too wide, too many, and too many
/// bits; a word that is driven, that two blocks write, that both kinds of assignment write, that a block reads while
/// another assigns another word at once, that a block keeps, and that reads itself by an index that may be any.
const REFUSED: [(&str, &str); 14] = [
    (
        "module m(output [3:0] y);reg [3:0] r [0:1];assign y = r;endmodule",
        "12 BadRange at 54",
    ),
    (
        "module m(output [3:0] y);reg [3:0] r [0:1];assign y = r[1:0];endmodule",
        "12 BadRange at 54",
    ),
    (
        "module m(input [3:0] a,output reg [3:0] y);reg [3:0] r [0:1];always @* begin r[0] = a; r = a; y = r[0]; end endmodule",
        "12 BadRange at 87",
    ),
    (
        "module m(input a,output y);reg r [0:1];wire [r[0]:0] w;assign y = a;endmodule",
        "13 NotConstant at 45",
    ),
    (
        "module m(input a,output y);reg r [0:1];initial r[a] = 1'b1;assign y = r[0];endmodule",
        "13 NotConstant at 49",
    ),
    (
        "module m(output y);reg [128:0] r [0:1];assign y = 1'b0;endmodule",
        "15 TooWide at 31",
    ),
    (
        "module m(output y);reg r [0:256];assign y = r[0];endmodule",
        "16 TooMany words 257",
    ),
    (
        "module m(output y);reg [127:0] r [0:255];reg [127:0] s [0:255];reg t;assign y = r[0];endmodule",
        "16 TooMany flatbits 65537",
    ),
    (
        "module m(input a,output y);reg r [0:1];assign r[0] = a;assign y = r[0];endmodule",
        "24 BadTarget at 46",
    ),
    (
        "module m(input clk,input [1:0] a,output y);reg r [0:3];always @(posedge clk) r[a] <= 1'b1;always @(posedge clk) r[0] <= 1'b0;assign y = r[1];endmodule",
        "17 TwoDrivers at 90",
    ),
    (
        "module m(input clk,output y);reg r [0:1];always @(posedge clk) begin r[0] <= 1'b0; r[1] = 1'b1; end assign y = r[1];endmodule",
        "18 WrongAssign at 83",
    ),
    (
        "module m(input clk,output reg y);reg r [0:1];always @(posedge clk) r[0] = 1'b1;always @(posedge clk) y <= r[1];endmodule",
        "19 Race at 106",
    ),
    (
        "module m(input a,input d,output y);reg r [0:1];always @* r[a] = d;assign y = r[0];endmodule",
        "20 Latch at 47",
    ),
    (
        "module m(input a,output y);reg r [0:1];always @* r[0] = y;assign y = r[a];endmodule",
        "21 Loop at 65",
    ),
];

#[test]
fn refusals_of_memories(rt: HostRuntime) -> Result<(), Fail> {
    for (design, expected) in REFUSED.iter() {
        assert!(rt; tells(rt.alloc(), *design, None, *expected)?, "{design}");
    }
    Ok(())
}
