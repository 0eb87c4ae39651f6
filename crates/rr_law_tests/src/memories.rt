//! Memories in small designs, by the laws of writers, kinds, races, latches, loops and targets: a memory is one
//! variable, and an index that is not constant names all its words (IEEE 1364-2005 sections 4.9.3 and 5.2.2).
use crate::laws::{Case, Told, all_right, answer};
use std::alloc::{AllocError, Global};
use std::test::Fail;

const WRITERS_OF_WORDS: [Case; 5] = [
    (
        "module m(input clk,input d,output y);reg r [0:1];assign y=r[0];always @(posedge clk) r[0]<=d;always @(posedge clk) r[1]<=d;endmodule",
        &None,
        Told::Kept,
    ),
    (
        "module m(input clk,input i,input d,output y);reg r [0:1];assign y=r[0];always @(posedge clk) r[0]<=d;always @(posedge clk) r[i]<=d;endmodule",
        &None,
        Told::Broken(17, 101),
    ),
    (
        "module m(input clk,input i,input d,output y);reg r [0:1];assign y=r[0];always @(posedge clk) r[i]<=d;always @(posedge clk) r[1]<=d;endmodule",
        &None,
        Told::Broken(17, 101),
    ),
    (
        "module m(input clk,input i,input d,output y);reg r [0:1];assign y=r[i];always @(posedge clk) begin r[0]<=d;r[i]<=~d;r[1]<=d;end endmodule",
        &None,
        Told::Kept,
    ),
    (
        "module m(input clk,input d,output y);reg r [0:1];assign y=r[0];always @(posedge clk) r[0]<=d;always @(posedge clk) r[2]<=d;endmodule",
        &None,
        Told::Kept,
    ),
];

const KINDS_OF_WORDS: [Case; 3] = [
    (
        "module m(input clk,input d,output y);reg r [0:1];assign y=r[0];always @(posedge clk) r[0]=d;always @(posedge clk) r[1]<=d;endmodule",
        &None,
        Told::Broken(18, 114),
    ),
    (
        "module m(input clk,input i,input d,output y);reg r [0:1];assign y=r[0];always @(posedge clk) begin r[0]<=d;r[i]=d;end endmodule",
        &None,
        Told::Broken(18, 107),
    ),
    (
        "module m(input i,input d,output y);reg r [0:1];assign y=r[0];always @* r[i]<=d;endmodule",
        &None,
        Told::Broken(18, 71),
    ),
];

const RACES_OF_WORDS: [Case; 4] = [
    (
        "module m(input clk,input [0:0] i,input d,output reg y);reg r [0:1];always @(posedge clk) r[0]=d;always @(posedge clk) y<=r[1];endmodule",
        &None,
        Told::Broken(19, 121),
    ),
    (
        "module m(input clk,input i,input d,output reg y);reg r [0:1];always @(posedge clk) r[i]=d;always @(posedge clk) y<=r[i];endmodule",
        &None,
        Told::Broken(19, 115),
    ),
    (
        "module m(input clk,input i,input d,output reg y);reg r [0:1];always @(posedge clk) r[i]<=d;always @(posedge clk) y<=r[i];endmodule",
        &None,
        Told::Kept,
    ),
    (
        "module m(input clk,input [1:0] a,input [1:0] w,input [7:0] d,output reg [7:0] y);reg [7:0] r [0:3];always @(posedge clk) r[w]<=d;always @* y=r[a];endmodule",
        &None,
        Told::Kept,
    ),
];

const LATCHES_OF_WORDS: [Case; 7] = [
    (
        "module m(input i,output y);reg r [0:1];assign y=r[0];always @* r[i]=1'b1;endmodule",
        &None,
        Told::Broken(20, 53),
    ),
    (
        "module m(input i,input d,output y);reg r [0:1];assign y=r[0];always @* begin r[0]=d;r[i]=1'b1;end endmodule",
        &None,
        Told::Broken(20, 61),
    ),
    (
        "module m(input i,input d,output y);reg r [0:1];assign y=r[0];always @* begin r[0]=d;r[1]=d;r[i]=1'b1;end endmodule",
        &None,
        Told::Kept,
    ),
    (
        "module m(input i,input d,output reg y);reg r [0:1];always @* begin r[0]=d;y=r[i];r[1]=d;end endmodule",
        &None,
        Told::Broken(20, 51),
    ),
    (
        "module m(input i,input d,output reg y);reg r [0:1];always @* begin r[0]=d;r[1]=~d;y=r[i];end endmodule",
        &None,
        Told::Kept,
    ),
    (
        "module m(input i,input d,output reg y);reg r [0:1];always @* begin r[0]=d;y=r[0];r[1]=~d;end endmodule",
        &None,
        Told::Kept,
    ),
    (
        "module m(input i,input d,output reg y);reg r [0:1];always @* begin if(i) begin r[0]=d;r[1]=d;y=r[i];end else begin r[0]=d;y=r[i];r[1]=d;end end endmodule",
        &None,
        Told::Broken(20, 51),
    ),
];

const LOOPS_OF_WORDS: [Case; 4] = [
    (
        "module m(input i,input d,output y);reg r [0:1];wire w;assign w=r[1];assign y=r[0];always @* r[0]=w;always @* r[1]=d;endmodule",
        &None,
        Told::Kept,
    ),
    (
        "module m(input i,input d,output y);reg r [0:1];wire w;assign w=r[i];assign y=r[0];always @* r[0]=w;always @* r[1]=d;endmodule",
        &None,
        Told::Broken(21, 82),
    ),
    (
        "module m(input i,input d,output y);reg r [0:1];wire w;assign w=d&r[i];assign y=w;always @* begin r[0]=d;r[1]=w;end endmodule",
        &None,
        Told::Broken(21, 81),
    ),
    (
        "module m(input clk,input i,input d,output y);reg r [0:1];wire w;assign w=d&r[i];assign y=w;always @(posedge clk) r[i]<=w;endmodule",
        &None,
        Told::Kept,
    ),
];

const TARGETS_OF_WORDS: [Case; 4] = [
    (
        "module m(input a,output y);reg r [0:1];assign r[0]=a;assign y=r[0];endmodule",
        &None,
        Told::Broken(24, 46),
    ),
    (
        "module m(input a,output y);reg r [0:1];assign {r[1],y}={a,a};endmodule",
        &None,
        Told::Broken(24, 47),
    ),
    (
        "module m(input clk,input d,output reg y);reg r [0:1];initial r[1]=1'b1;always @(posedge clk) begin r[0]<=d;y<=r[1];end endmodule",
        &None,
        Told::Kept,
    ),
    (
        "module m(input a,output reg [1:0] y);initial y[0]=1'b1;always @* y={a,a};endmodule",
        &None,
        Told::Broken(24, 45),
    ),
];

#[test]
fn words_by_each_law(rt: HostRuntime) -> Result<(), Fail> {
    all_right(
        rt.alloc(),
        &[
            &WRITERS_OF_WORDS,
            &KINDS_OF_WORDS,
            &RACES_OF_WORDS,
            &LATCHES_OF_WORDS,
            &LOOPS_OF_WORDS,
            &TARGETS_OF_WORDS,
        ],
    )
}

/// The front, the middle and the end of texts that name the words of a large memory over and over.
const LONG: [(&str, &str, &str); 3] = [
    (
        "module m(input [7:0] i,input [7:0] d,output reg [7:0] y);reg [7:0] r [0:255];integer k;always @* begin for(k=0;k<256;k=k+1) r[k]=d;",
        "r[i]=d;y=r[i];",
        " end endmodule",
    ),
    (
        "module m(input clk,input [7:0] i,input [7:0] d,output [7:0] y);reg [7:0] r [0:255];assign y=r[0];always @(posedge clk) begin ",
        "r[i]<=d^r[i];",
        " end endmodule",
    ),
    (
        "module m(input clk,input [7:0] i,input [7:0] d,output reg [7:0] y);reg [7:0] r [0:255];always @(posedge clk) r[i]<=d;always @* begin ",
        "y=d^r[i];",
        " end endmodule",
    ),
];

/// A text in which the middle stands so often.
fn long(
    alloc: Global,
    front: &str,
    middle: &str,
    end: &str,
    times: u32,
) -> Result<String<Global>, AllocError> {
    let mut text = String::new(alloc);
    text.push_str(front)?;
    for _time in 0..times {
        text.push_str(middle)?;
    }
    text.push_str(end)?;
    Ok(text)
}

#[test]
fn words_named_often(rt: HostRuntime) -> Result<(), Fail> {
    for (front, middle, end) in LONG.iter() {
        let text = long(rt.alloc(), front, middle, end, 4_000)?;
        let told = answer(rt.alloc(), text.as_str(), None)?;
        assert!(rt; told == Told::Kept, "{front}");
    }
    Ok(())
}
