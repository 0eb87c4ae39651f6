//! Flat designs of texts with loops in statements (IEEE 1364-2005 section 9.6): each loop is the block of its
//! turns, in which its name is a literal at the name's own token. And where there is none.
use crate::leaves::statement_told;
use crate::texts::design_of;
use crate::walks::{Case, all_right};
use bumpalo::Bump;
use rr_flat::{Block, Flat, Initial};
use std::alloc::{AllocError, Global};
use std::test::Fail;

/// Texts, and for each block and `initial` item the number of its scope with the names and literals of its body: a
/// loop; one in another, whose first value is the outer one's; one down to 0, with a label; a bound by a
/// parameter that an instance overrides; no turn, whose body may name anything; and one in an `initial` item.
const BODIES: [(&str, &str); 6] = [
    (
        "module m(input [1:0] a, output reg [1:0] y); integer i; always @* for (i = 0; i < 2; i = i + 1) y[i] = a[1 - i]; endmodule",
        "0: 43 45=0 48 50=1 52=0 43 45=1 48 50=1 52=1 ",
    ),
    (
        "module m(input clk, output reg [3:0] y); integer i, j; always @(posedge clk) begin for (i = 0; i < 2; i = i + 1) for (j = i; j < 2; j = j + 1) y[i + j] <= i; end endmodule",
        "0: 60 62=0 64=0 67=0 60 62=0 64=1 67=0 60 62=1 64=1 67=1 ",
    ),
    (
        "module m(input [1:0] a, output reg y); integer i; always @* begin y = 1'b0; for (i = 2; i; i = i - 1) case (a) i: y = a[i - 1]; endcase end endmodule",
        "0: 23 25=0 43 45=2 47 49 51=2 53=1 43 45=1 47 49 51=1 53=1 ",
    ),
    (
        "module n #(parameter W = 1)(output reg [3:0] y); integer i; always @* begin y = 4'd0; for (i = 0; i < W; i = i + 1) y = y + i; end endmodule module m; n u(); n #(2) v(); endmodule",
        "1: 27 29=0 47 49 51=0 2: 27 29=0 47 49 51=0 47 49 51=1 ",
    ),
    (
        "module m(input a, output reg y); integer i; always @* begin y = a; for (i = 0; i < 0; i = i + 1) y = x; end endmodule",
        "0: 18 20 ",
    ),
    (
        "module m(output reg [3:0] q); integer i; initial begin q = 4'd9; for (i = 0; i < 3; i = i + 1) q = i + 4; end endmodule",
        "0: 18 20=9 38 40=0 42=4 38 40=1 42=4 38 40=2 42=4 ",
    ),
];

/// Starting values by loops, whose bound an instance overrides; and an integer that names no loop, which is a
/// variable as others are.
const DESIGNS: [Case; 2] = [
    (
        "module n #(parameter W = 1)(output reg [3:0] q); integer i; initial for (i = 0; i < W; i = i + 1) q = i + 4; endmodule module m; n u(); n #(.W(3)) v(); endmodule",
        &None,
        "1.q:4=4 1.i:32 2.q:4=6 2.i:32 | | i0 i1 | 23/1 23/2 | | | 1 0 0 | 0 1 | 48",
    ),
    (
        "module m(output [31:0] y); integer i; assign y = i; endmodule",
        &None,
        "0.y:32 0.i:32 | 16/0<18/0@16 | d0 | | | 0 | 0 | 0 | 1",
    ),
];

/// Where the name of a loop may not stand.
const RULES: [Case; 14] = [
    // No `integer`, whatever it is, or none at all.
    (
        "module m(output reg y);reg i;always @* begin y=1'b0;for(i=0;i<1;i=i+1);end endmodule",
        &None,
        "BadLoop(56)",
    ),
    (
        "module m(input i,output reg y);always @* begin y=1'b0;for(i=0;i<1;i=i+1);end endmodule",
        &None,
        "BadLoop(58)",
    ),
    (
        "module m(output reg y);always @* begin y=1'b0;for(k=0;k<1;k=k+1);end endmodule",
        &None,
        "BadLoop(50)",
    ),
    // Another name in the step, where its value is no more asked for.
    (
        "module m(output reg y);integer i,j;always @* begin y=1'b0;for(i=0;i<0;j=x)y=1'b1;end endmodule",
        &None,
        "BadLoop(70)",
    ),
    // The name of a loop around.
    (
        "module m(output reg y);integer i;always @* begin y=1'b0;for(i=0;i<1;i=i+1)for(i=0;i<1;i=i+1)y=1'b1;end endmodule",
        &None,
        "BadLoop(78)",
    ),
    // The name assigned, by itself, among others, and by its bit; a loop without a turn is read for that.
    (
        "module m(output reg y);integer i;always @* begin y=1'b0;for(i=0;i<1;i=i+1)i=1;end endmodule",
        &None,
        "BadLoop(74)",
    ),
    (
        "module m(output reg y);integer i;always @* begin y=1'b0;for(i=0;i<1;i=i+1){y,i}=1;end endmodule",
        &None,
        "BadLoop(77)",
    ),
    (
        "module m(output reg y);integer i;always @* begin y=1'b0;for(i=0;i<0;i=i+1)i[0]=1;end endmodule",
        &None,
        "BadLoop(74)",
    ),
    // As what a select selects from.
    (
        "module m(output reg y);integer i;always @* begin y=1'b0;for(i=0;i<2;i=i+1)y=i[0];end endmodule",
        &None,
        "BadLoop(76)",
    ),
    // Outside: before the block with the loop, behind the loop, in a list of events, in an instance, and in another loop.
    (
        "module m(output y,output reg z);integer i;assign y=i;always @* begin z=1'b0;for(i=0;i<1;i=i+1)z=1'b1;end endmodule",
        &None,
        "BadLoop(51)",
    ),
    (
        "module m(output reg [3:0] y);integer i;always @* begin for(i=0;i<4;i=i+1)y[i]=1'b1;y[i]=1'b0;end endmodule",
        &None,
        "BadLoop(85)",
    ),
    (
        "module m(output reg y);integer i;always @(i) begin y=1'b0;for(i=0;i<1;i=i+1)y=1'b1;end endmodule",
        &None,
        "BadLoop(42)",
    ),
    (
        "module n(input [31:0] a);endmodule module m(output reg y);integer i;n u(i);always @* for(i=0;i<1;i=i+1)y=1'b1;endmodule",
        &None,
        "BadLoop(72)",
    ),
    (
        "module m(output reg y);integer i,j;always @* begin y=1'b0;for(i=0;i<1;i=i+1)for(j=0;j<1;j=j+1)y=1'b1;for(j=0;j<1;j=j+1)y=i;end endmodule",
        &None,
        "BadLoop(121)",
    ),
];

/// Heads and turns with other faults.
const HEADS: [Case; 8] = [
    // What a select selects from is no constant, and the first value is read outside of the loop: of two faults
    // at one token the lower number.
    (
        "module m(output reg y);integer i;always @* begin y=1'b0;for(i=0;i[1:0]<2;i=i+1)y=1'b1;end endmodule",
        &None,
        "NotConstant(64)",
    ),
    (
        "module m(output reg y);integer i;always @* begin y=1'b0;for(i=i;i<1;i=i+1)y=1'b1;end endmodule",
        &None,
        "NotConstant(62)",
    ),
    (
        "module m(input a,output reg y);integer i;always @* begin y=1'b0;for(i=a;i<1;i=i+1)y=1'b1;end endmodule",
        &None,
        "NotConstant(70)",
    ),
    // Test and step are read where there is no turn, and the body is not.
    (
        "module m(output reg y);integer i;always @* begin y=1'b0;for(i=0;i<0;i=x)y=1'b1;end endmodule",
        &None,
        "UnknownName(70)",
    ),
    (
        "module m(output reg y);integer i;always @* begin y=1'b0;for(i=0;x;i=x)y=1'b1;end endmodule",
        &None,
        "UnknownName(64)",
    ),
    // Heads come before bodies: a later loop's head before what stands before it.
    (
        "module m(output reg y);integer i,j;always @* begin y=x;for(i=0;i<1;i=i+1)for(j=0;j<y;j=j+1)y=1'b1;end endmodule",
        &None,
        "NotConstant(83)",
    ),
    // Of the faults of several turns at one token the first turn's, also where the other has the lower number.
    (
        "module m(input [7:0] a,output reg y);integer i;always @* begin y=1'b0;for(i=200;i>3;i=i-196)y=y^(a[i:5]>0);end endmodule",
        &None,
        "TooWide(97, 196)",
    ),
    (
        "module m(input [7:0] a,output reg y);integer i;always @* begin y=1'b0;for(i=4;i<201;i=i+196)y=y^(a[i:5]>0);end endmodule",
        &None,
        "BadRange(97)",
    ),
];

/// 65,537 turns of one loop, and of one that two instances have; 61,681 turns of 17 tokens; and one turn that
/// passes both limits, where the turns are told.
const LIMITS: [Case; 4] = [
    (
        "module m(input [3:0] a, output reg p); integer i; always @* begin p = 1'b0; for (i = 0; i >= 0; i = i) ; end endmodule",
        &None,
        "TooMany(Turns, 65537)",
    ),
    (
        "module n; integer i; always @* for (i = 0; i < 32769; i = i + 1) ; endmodule module m; n u(), v(); endmodule",
        &None,
        "TooMany(Turns, 65537)",
    ),
    (
        "module m(input [3:0] a, output reg p); integer i; always @* begin p = 1'b0; for (i = 0; i < 65536; i = i + 1) begin ;;;;;;;;;;;;;;; end end endmodule",
        &None,
        "TooMany(Unfolded, 1048577)",
    ),
    (
        "module m; integer i; always @* for (i = 0; i < 65537; i = i + 1) begin ;;;;;;;;;;;;;; end endmodule",
        &None,
        "TooMany(Turns, 65537)",
    ),
];

fn blocks_told(text: &mut String, blocks: &[Block]) -> Result<(), AllocError> {
    for block in blocks.iter() {
        let scope = block.scope;
        write!(text, "{scope}: ")?;
        statement_told(text, block.body)?;
    }
    Ok(())
}

fn initials_told(text: &mut String, initials: &[Initial]) -> Result<(), AllocError> {
    for initial in initials.iter() {
        let scope = initial.scope;
        write!(text, "{scope}: ")?;
        statement_told(text, initial.body)?;
    }
    Ok(())
}

/// The bodies of clocked blocks, of combinational ones and of `initial` items.
fn bodies_told(text: &mut String, flat: &Flat) -> Result<(), AllocError> {
    blocks_told(text, flat.clocked.as_slice())?;
    blocks_told(text, flat.combinational.as_slice())?;
    initials_told(text, flat.initials.as_slice())
}

/// The bodies of a text, where it has a flat design.
fn bodies_of(alloc: Global, text: &str) -> Result<String, Fail> {
    let arena = Bump::new(alloc);
    let Ok(design) = design_of(alloc, text, None, &arena) else {
        return Err(Fail::from("no flat design"));
    };
    let mut told = String::new(alloc);
    bodies_told(&mut told, &design.flat)?;
    Ok(told)
}

#[test]
fn loops_are_the_blocks_of_their_turns(rt: HostRuntime) -> Result<(), Fail> {
    for (text, told) in BODIES.iter() {
        let found = bodies_of(rt.alloc(), *text)?;
        assert!(rt; found.as_str() == *told, "{text}");
    }
    all_right(rt.alloc(), &[&DESIGNS])
}

#[test]
fn first_faults_of_loops(rt: HostRuntime) -> Result<(), Fail> {
    all_right(rt.alloc(), &[&RULES, &HEADS, &LIMITS])
}
