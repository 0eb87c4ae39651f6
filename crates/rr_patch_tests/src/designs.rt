//! Designs with faults, and the texts of their repairs.

use crate::printing::{guard, literal, makes, off, on, overwrite, prints};
use std::test::Fail;

/// A literal is replaced in its place, with a blank before it and after it; all else stays.
#[test]
fn literals(rt: HostRuntime) -> Result<(), Fail> {
    assert!(rt;
        prints(
            rt.alloc(),
            "module m(input a, output y);\n  assign y = a & 1'b0;\nendmodule\n",
            &[literal(15, 1, false)],
            &[on(1, 0, 0)],
            "module m(input a, output y);\n  assign y = a &  1'h1 ;\nendmodule\n",
        )?
    );
    // The value is cut to the width, and the sign stays.
    assert!(rt;
        prints(
            rt.alloc(),
            "module m(output [31:0] y);\n  assign y = 2;\nendmodule\n",
            &[literal(15, 32, true)],
            &[on(0x7_0000_00ab, 0, 0)],
            "module m(output [31:0] y);\n  assign y =  32'sh000000ab ;\nendmodule\n",
        )?
    );
    // Two faults.
    assert!(rt;
        prints(
            rt.alloc(),
            "module m(input clk, output reg [3:0] p, output reg [3:0] q);
  always @(posedge clk) p <= p + 4'd2;
  always @(posedge clk) q <= q + 4'd3;
endmodule
",
            &[
                overwrite(31, "p", 4, false, &[]),
                literal(35, 4, false),
                overwrite(43, "q", 4, false, &[]),
                literal(47, 4, false)
            ],
            &[off(), on(1, 0, 0), off(), on(1, 0, 0)],
            "module m(input clk, output reg [3:0] p, output reg [3:0] q);
  always @(posedge clk) p <= p +  4'h1 ;
  always @(posedge clk) q <= q +  4'h1 ;
endmodule
",
        )?
    );
    Ok(())
}

/// A counter that counts by two.
const COUNTER: &str = "module counter(input clk, input rst, output reg [3:0] q);
  always @(posedge clk)
    if (rst) q <= 4'd0;
    else q <= q + 4'd2;
endmodule
";

#[test]
fn counter(rt: HostRuntime) -> Result<(), Fail> {
    let names = ["rst"];
    let sites = [
        overwrite(25, "q", 4, false, &names),
        guard(27, 1, &names),
        literal(31, 4, false),
        literal(38, 4, false),
    ];
    assert!(rt;
        prints(
            rt.alloc(),
            COUNTER,
            &sites,
            &[off(), off(), off(), on(1, 0, 0)],
            "module counter(input clk, input rst, output reg [3:0] q);
  always @(posedge clk)
    if (rst) q <= 4'd0;
    else q <= q +  4'h1 ;
endmodule
",
        )?
    );
    // Without a change the text is the same.
    assert!(rt;
        prints(
            rt.alloc(),
            COUNTER,
            &sites,
            &[off(), off(), off(), off()],
            COUNTER
        )?
    );
    // Where the picks end no site is changed.
    assert!(rt; prints(rt.alloc(), COUNTER, &sites, &[], COUNTER)?);
    Ok(())
}

/// An inverted reset, and a missing one.
#[test]
fn resets(rt: HostRuntime) -> Result<(), Fail> {
    let names = ["rst"];
    assert!(rt;
        prints(
            rt.alloc(),
            "module m(input clk, input rst, output reg q);
  always @(posedge clk)
    if (!rst) q <= 1'b0;
    else q <= ~q;
endmodule
",
            &[guard(22, 2, &names), literal(27, 1, false)],
            &[on(0, 0, 0), off()],
            "module m(input clk, input rst, output reg q);
  always @(posedge clk)
    if ( ! ( !rst ) ) q <= 1'b0;
    else q <= ~q;
endmodule
",
        )?
    );
    assert!(rt;
        prints(
            rt.alloc(),
            "module m(input clk, input rst, output reg [3:0] q);
  always @(posedge clk)
    q <= q + 4'd1;
endmodule
",
            &[overwrite(25, "q", 4, false, &names), literal(29, 4, false)],
            &[on(0, 1, 0), off()],
            "module m(input clk, input rst, output reg [3:0] q);
  always @(posedge clk) begin \n    q <= q + 4'd1; if ( rst ) q <= 4'h0 ; end \nendmodule
",
        )?
    );
    Ok(())
}

/// A design without blanks, with a site of each kind.
#[test]
fn token_edges(rt: HostRuntime) -> Result<(), Fail> {
    let names = ["s"];
    assert!(rt;
        prints(
            rt.alloc(),
            "module m(input clk,input s,output reg[3:0]q);always@(posedge clk)q<=s?4'd3:4'd0;endmodule",
            &[
                overwrite(25, "q", 4, false, &names),
                guard(27, 1, &names),
                literal(29, 4, false),
                literal(31, 4, false)
            ],
            &[on(9, 2, 0), on(0, 2, 0), on(10, 0, 0), off()],
            "module m(input clk,input s,output reg[3:0]q);always@(posedge clk) begin q<= ( s ) && ! s ? \
             4'ha :4'd0; if ( ! s ) q <= 4'h9 ; end endmodule",
        )?
    );
    Ok(())
}

/// A condition inside another that begins at the same token, and two last assignments of one body, of
/// which the first is innermost; a form, a name and a value past the last.
#[test]
fn nested(rt: HostRuntime) -> Result<(), Fail> {
    let names = ["a", "b"];
    let design = "module m(input clk, input a, input b, output reg [3:0] p, output reg q);
  always @(posedge clk) if (a ? b : a) q <= b;
endmodule";
    assert!(rt;
        prints(
            rt.alloc(),
            design,
            &[guard(34, 5, &names), guard(34, 1, &names)],
            &[on(0, 1, 1), on(0, 3, 0)],
            "module m(input clk, input a, input b, output reg [3:0] p, output reg q);
  always @(posedge clk) if ( ( ( a ) || a  ? b : a ) && b ) q <= b;
endmodule",
        )?
    );
    assert!(rt;
        prints(
            rt.alloc(),
            design,
            &[
                overwrite(32, "p", 4, false, &names),
                overwrite(32, "q", 1, true, &names)
            ],
            &[on(19, 0, 0), on(1, 9, 9)],
            "module m(input clk, input a, input b, output reg [3:0] p, output reg q);
  always @(posedge clk) begin begin  if (a ? b : a) q <= b; if ( 1'h1 ) p <= 4'h3 ; end if ( ! b ) q = 1'h1 ; end \nendmodule",
        )?
    );
    Ok(())
}

/// A name that is a reserved word is written with `\` and a blank, and so is one with other bytes; one that
/// was written so without need is not.
#[test]
fn escaped_names(rt: HostRuntime) -> Result<(), Fail> {
    let names = ["end", "a+b", "plain"];
    let design =
        "module m(input clk, input \\end , input \\a+b , input \\plain , output reg \\begin );
  always @(posedge clk) \\begin <= \\end ;
endmodule
";
    let sites = [overwrite(26, "begin", 1, false, &names)];
    assert!(rt;
        prints(
            rt.alloc(),
            design,
            &sites,
            &[on(1, 1, 0)],
            "module m(input clk, input \\end , input \\a+b , input \\plain , output reg \\begin );
  always @(posedge clk) begin  \\begin <= \\end ; if ( \\end ) \\begin <= 1'h1 ; end \nendmodule
",
        )?
    );
    assert!(rt;
        prints(
            rt.alloc(),
            design,
            &sites,
            &[on(0, 2, 1)],
            "module m(input clk, input \\end , input \\a+b , input \\plain , output reg \\begin );
  always @(posedge clk) begin  \\begin <= \\end ; if ( ! \\a+b ) \\begin <= 1'h0 ; end \nendmodule
",
        )?
    );
    assert!(rt;
        prints(
            rt.alloc(),
            design,
            &sites,
            &[on(0, 2, 2)],
            "module m(input clk, input \\end , input \\a+b , input \\plain , output reg \\begin );
  always @(posedge clk) begin  \\begin <= \\end ; if ( ! plain ) \\begin <= 1'h0 ; end \nendmodule
",
        )?
    );
    Ok(())
}

/// Items of each kind before the sites, and sites in nets, assignments, connections, arms and blocks, of
/// which the one under `/` stays; comments and directives stay.
#[test]
fn every_item(rt: HostRuntime) -> Result<(), Fail> {
    let names = ["c"];
    assert!(rt;
        prints(
            rt.alloc(),
            "`timescale 1ns/1ps
module n #(parameter W = 2) (input [W-1:0] a, input b);
endmodule // n
module m(c, y);
  input c; output y;
  parameter signed P = 3, Q = 4;
  localparam integer R = 5;
  wire [3:0] w = 4'd1, v = {2'd1, {2{2'd2}}};
  reg r; integer i;
  assign y = c ? 1'b0 : w[0], v = 4'd4 / 4'd2;
  n #(.W(2)) u(.a(2'd1), .b()), t({1'b1, c}, 1'b0);
  always @* begin : s
    case (w)
      4'd1, 4'd2: r = 1'b1;
      default: if (c) ; else r = $signed(1'b0);
    endcase
  end
endmodule
",
            &[
                literal(63, 4, false),
                literal(68, 2, false),
                literal(73, 2, false),
                guard(87, 1, &names),
                literal(89, 1, false),
                literal(98, 4, false),
                literal(116, 2, false),
                literal(128, 1, false),
                literal(133, 1, false),
                overwrite(139, "r", 1, true, &names),
                literal(146, 4, false),
                literal(148, 4, false),
                literal(152, 1, false),
                guard(158, 1, &names),
                literal(166, 1, false)
            ],
            &[
                on(2, 0, 0),
                on(3, 0, 0),
                on(0, 0, 0),
                on(0, 4, 0),
                on(1, 0, 0),
                on(7, 0, 0),
                on(2, 0, 0),
                on(0, 0, 0),
                on(1, 0, 0),
                on(1, 2, 0),
                off(),
                on(3, 0, 0),
                on(0, 0, 0),
                on(0, 0, 0),
                on(1, 0, 0)
            ],
            "`timescale 1ns/1ps
module n #(parameter W = 2) (input [W-1:0] a, input b);
endmodule // n
module m(c, y);
  input c; output y;
  parameter signed P = 3, Q = 4;
  localparam integer R = 5;
  wire [3:0] w =  4'h2 , v = { 2'h3 , {2{ 2'h0 }}};
  reg r; integer i;
  assign y = (  c ) || ! c  ?  1'h1  : w[0], v = 4'd4 / 4'd2;
  n #(.W(2)) u(.a( 2'h2 ), .b()), t({ 1'h0 , c},  1'h1 );
  always @* begin  begin : s
    case (w)
      4'd1,  4'h3 : r =  1'h0 ;
      default: if ( ! ( c ) ) ; else r = $signed( 1'h1 );
    endcase
  end if ( ! c ) r = 1'h1 ; end \nendmodule
",
        )?
    );
    Ok(())
}

/// The edits of a guard and a literal: the runs behind the tokens before them, and the new literal in the
/// place of the old one.
#[test]
fn edits_of_a_choice(rt: HostRuntime) -> Result<(), Fail> {
    let names = ["s"];
    assert!(rt;
        makes(
            rt.alloc(),
            "module m(input a, input s, output y);\n  assign y = a ? 1'b1 : 1'b0;\nendmodule\n",
            &[
                guard(16, 1, &names),
                literal(18, 1, false),
                literal(20, 1, false)
            ],
            &[on(0, 1, 0), off(), on(1, 0, 0)],
            &[(50, 50, " ( "), (52, 52, " ) && s "), (62, 66, " 1'h1 ")],
        )?
    );
    Ok(())
}
