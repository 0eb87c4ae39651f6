//! Designs that keep all laws, and designs that break one or two, by the law and the byte that are told first.
use crate::texts::{byte_of, design_of, place_is};
use bumpalo::Bump;
use rr_flat::Flat;
use rr_lawful::{LawFault, check, places};
use rr_syntax::{ModulePlace, Token};
use std::alloc::{AllocError, Global};
use std::test::Fail;

/// The first law that a text breaks, by its number, and the byte at which its token begins.
#[derive(Clone, Copy, Debug, PartialEq, Eq)]
pub(crate) enum Told {
    NoDesign,
    Kept,
    Broken(u32, u32),
}

/// A text, the word that names its clock, and what is told.
pub(crate) type Case = (&'static str, &'static Option<&'static str>, Told);

fn placed(tokens: &[Token<'_>], law: u32, at: u32) -> Told {
    match byte_of(tokens, at) {
        Some(byte) => Told::Broken(law, byte),
        None => Told::NoDesign,
    }
}

fn told_of(tokens: &[Token<'_>], fault: LawFault) -> Result<Told, AllocError> {
    match fault {
        LawFault::UnknownName(at) => Ok(placed(tokens, 11, at)),
        LawFault::TwoDrivers { second, .. } => Ok(placed(tokens, 17, second)),
        LawFault::WrongAssign(at) => Ok(placed(tokens, 18, at)),
        LawFault::Race(at) => Ok(placed(tokens, 19, at)),
        LawFault::Latch { block, .. } => Ok(placed(tokens, 20, block)),
        LawFault::Loop { token, .. } => Ok(placed(tokens, 21, token)),
        LawFault::ClockUse(at) => Ok(placed(tokens, 22, at)),
        LawFault::TwoClocks(at) => Ok(placed(tokens, 23, at)),
        LawFault::BadTarget(at) => Ok(placed(tokens, 24, at)),
        LawFault::WildLabel(at) => Ok(placed(tokens, 25, at)),
        LawFault::Memory => Err(AllocError),
    }
}

pub(crate) fn answer(alloc: Global, text: &str, clock: Option<&str>) -> Result<Told, AllocError> {
    let arena = Bump::new(alloc);
    match design_of(alloc, text, &arena) {
        Err(_) => Ok(Told::NoDesign),
        Ok(design) => match check(alloc, &design.flat, clock) {
            Ok(_) => Ok(Told::Kept),
            Err(fault) => told_of(design.tokens, fault),
        },
    }
}

/// The place of the first case that is told otherwise.
fn first_wrong(alloc: Global, cases: &[Case]) -> Result<Option<usize>, AllocError> {
    for (place, case) in cases.iter().enumerate() {
        if answer(alloc, case.0, *case.1)? != case.2 {
            return Ok(Some(place));
        }
    }
    Ok(None)
}

/// Fails at the first case of these tables that is told otherwise.
pub(crate) fn all_right(alloc: Global, tables: &[&[Case]]) -> Result<(), Fail> {
    for (table, cases) in tables.iter().enumerate() {
        if let Some(place) = first_wrong(alloc, cases)? {
            return Err(Fail::new(format_args!("case {place} of table {table}")));
        }
    }
    Ok(())
}

const WORDS_THAT_NAME_THE_CLOCK: [Case; 2] = [
    (
        "module m(input clk, input d, output reg q); always @(posedge clk) q <= d; endmodule",
        &None,
        Told::Kept,
    ),
    (
        "module m(input clk, input d, output reg q); always @(posedge clk) q <= d; endmodule",
        &Some("clk"),
        Told::Kept,
    ),
];

const WORDS_THAT_NAME_NO_CLOCK: [Case; 4] = [
    (
        "module m(input clk, input d, output reg q); always @(posedge clk) q <= d; endmodule",
        &Some("ck"),
        Told::Broken(11, 7),
    ),
    (
        "module m(input [1:0] clk, output y); assign y = clk[0]; endmodule",
        &Some("clk"),
        Told::Broken(11, 7),
    ),
    (
        "module m(input a, output y); wire w; assign w = a; assign y = w; endmodule",
        &Some("w"),
        Told::Broken(11, 7),
    ),
    (
        "module c(input i, output y); assign y = i; endmodule module m(input a, output y); c one(a, y); endmodule",
        &Some("i"),
        Told::Broken(11, 60),
    ),
];

const RESETS_BESIDE_THE_CLOCK: [Case; 2] = [
    (
        "module m(input clk, input rst, input d, output reg q); always @(posedge clk or posedge rst) if (rst) q <= 1'b0; else q <= d; endmodule",
        &None,
        Told::Kept,
    ),
    (
        "module m(input clk, input rst, input d, output reg q); always @(posedge rst or posedge clk) if (rst) q <= 1'b0; else q <= d; endmodule",
        &None,
        Told::Kept,
    ),
];

const BLOCKS_OF_ANOTHER_CLOCK: [Case; 5] = [
    (
        "module m(input clk, input en, input d, output reg q); wire g; assign g = clk & en; always @(posedge g) q <= d; endmodule",
        &None,
        Told::Broken(23, 83),
    ),
    (
        "module m(input a, input b, input d, output reg q, output reg r); always @(posedge a) q <= d; always @(posedge b) r <= d; endmodule",
        &None,
        Told::Broken(23, 93),
    ),
    (
        "module m(input clk, input d, output reg q, output reg r); always @(posedge clk) q <= d; always @(negedge clk) r <= d; endmodule",
        &None,
        Told::Broken(23, 88),
    ),
    (
        "module m(input clk, input d, output reg q, output reg r); always @(posedge clk) q <= d; always @(posedge q) r <= d; endmodule",
        &None,
        Told::Broken(23, 88),
    ),
    (
        "module m(input clk, input d, output reg q); always @(posedge d) q <= 1'b1; endmodule",
        &Some("clk"),
        Told::Broken(23, 44),
    ),
];

const USES_OF_THE_CLOCK_IN_ONE_MODULE: [Case; 4] = [
    (
        "module m(input clk, input d, output reg q, output y); assign y = clk; always @(posedge clk) q <= d; endmodule",
        &None,
        Told::Broken(22, 65),
    ),
    (
        "module m(input clk, input d, output reg q); always @(posedge clk) q <= clk; endmodule",
        &None,
        Told::Broken(22, 71),
    ),
    (
        "module m(input clk, input [1:0] d, output reg q); always @(posedge clk) q <= d[clk]; endmodule",
        &None,
        Told::Broken(22, 79),
    ),
    (
        "module m(input clk, input d, output y); assign y = clk & d; endmodule",
        &None,
        Told::Kept,
    ),
];

const USES_OF_THE_CLOCK_IN_INSTANCES: [Case; 3] = [
    (
        "module c(input k, input d, output reg q); always @(negedge k) q <= d; endmodule module b(input k, input d, output q); c one(k, d, q); endmodule module m(input clk, input d, output q); b one(.k(clk), .d(d), .q(q)); endmodule",
        &None,
        Told::Kept,
    ),
    (
        "module c(input k, input d, output reg q); always @(negedge k) q <= d; endmodule module b(input k, input d, output q); c one(k, d, q); endmodule module m(input clk, input d, output q); b one(.k(clk), .d(clk & d), .q(q)); endmodule",
        &None,
        Told::Broken(22, 202),
    ),
    (
        "module c(input k, input d, output reg q); always @(posedge k) q <= d & k; endmodule module m(input clk, input d, output q); c one(clk, d, q); endmodule",
        &None,
        Told::Broken(22, 71),
    ),
];

const TWO_DRIVERS_OF_A_NET: [Case; 5] = [
    (
        "module m(input a, input b, output y); assign y = a; assign y = b; endmodule",
        &None,
        Told::Broken(17, 59),
    ),
    (
        "module m(input [3:0] a, output [3:0] y); assign y[3:2] = a[3:2]; assign y[2:0] = a[2:0]; endmodule",
        &None,
        Told::Broken(17, 72),
    ),
    (
        "module m(input [3:0] a, output [3:0] y); assign y[3:2] = a[3:2]; assign y[1:0] = a[1:0]; endmodule",
        &None,
        Told::Kept,
    ),
    (
        "module m(input [1:0] a, output y); wire w; assign {y, y} = a; endmodule",
        &None,
        Told::Broken(17, 50),
    ),
    (
        "module c(input i, output o); assign o = i; endmodule module m(input a, input b, output y); c one(a, y); c two(b, y); endmodule",
        &None,
        Told::Broken(17, 113),
    ),
];

const TWO_DRIVERS_OF_A_VARIABLE: [Case; 2] = [
    (
        "module m(input a, output reg y); always @* y = a; always @* y = ~a; endmodule",
        &None,
        Told::Broken(17, 50),
    ),
    (
        "module m(input clk, input [1:0] i, output reg [3:0] y); always @(posedge clk) y[i] <= 1'b1; always @(posedge clk) y[0] <= 1'b0; endmodule",
        &None,
        Told::Broken(17, 92),
    ),
];

const KINDS_OF_ASSIGNMENT: [Case; 4] = [
    (
        "module m(input a, output reg y); always @* y <= a; endmodule",
        &None,
        Told::Broken(18, 43),
    ),
    (
        "module m(input clk, input a, output reg y); always @(posedge clk) begin y <= a; if (a) y = 1'b0; end endmodule",
        &None,
        Told::Broken(18, 87),
    ),
    (
        "module m(input clk, input a, output reg [1:0] y); always @(posedge clk) y[0] = a; always @(posedge clk) y[1] <= a; endmodule",
        &None,
        Told::Broken(18, 104),
    ),
    (
        "module m(input a, input b, output reg y, output reg z); always @* begin y = a; {z, y} <= {b, a}; end endmodule",
        &None,
        Told::Broken(18, 80),
    ),
];

const RACES: [Case; 5] = [
    (
        "module m(input clk, input d, output reg y, output reg z); always @(posedge clk) y = d; always @(posedge clk) z <= y; endmodule",
        &None,
        Told::Broken(19, 114),
    ),
    (
        "module m(input clk, input d, output reg y, output reg z); always @(posedge clk) if (y) z <= d; always @(posedge clk) y = d; endmodule",
        &None,
        Told::Broken(19, 84),
    ),
    (
        "module m(input clk, input [1:0] d, output reg [1:0] y, output reg [3:0] z); always @(posedge clk) y = d; always @(posedge clk) z[y] <= 1'b1; endmodule",
        &None,
        Told::Broken(19, 129),
    ),
    (
        "module m(input clk, input d, output reg y, output reg z); always @(posedge clk) y = d; always @(posedge clk) case (d) y: z <= 1'b1; default: z <= 1'b0; endcase endmodule",
        &None,
        Told::Broken(19, 118),
    ),
    (
        "module m(input clk, input d, output reg y, output z); always @(posedge clk) y = d ^ y; assign z = y; endmodule",
        &None,
        Told::Kept,
    ),
];

const BLOCKS_WITH_A_LATCH: [Case; 5] = [
    (
        "module m(input a, input b, output reg y); always @* if (a) y = b; endmodule",
        &None,
        Told::Broken(20, 42),
    ),
    (
        "module m(input [1:0] a, output reg y); always @* case (a) 2'b00: y = 1'b0; 2'b01: y = 1'b1; endcase endmodule",
        &None,
        Told::Broken(20, 39),
    ),
    (
        "module m(input a, output reg y, output reg z); always @* begin z = y; y = a; end endmodule",
        &None,
        Told::Broken(20, 47),
    ),
    (
        "module m(input [1:0] i, input a, output reg [3:0] y); always @* y[i] = a; endmodule",
        &None,
        Told::Broken(20, 54),
    ),
    (
        "module m(input a, output reg [1:0] y); always @* begin y[0] = a; if (a) y[1] = a; end endmodule",
        &None,
        Told::Broken(20, 39),
    ),
];

const BLOCKS_WITHOUT_A_LATCH: [Case; 3] = [
    (
        "module m(input [1:0] a, output reg y); always @* begin y = 1'b0; if (a[0]) y = a[1]; end endmodule",
        &None,
        Told::Kept,
    ),
    (
        "module m(input [1:0] a, output reg y); always @* case (a) 2'b00: y = 1'b0; default: y = 1'b1; endcase endmodule",
        &None,
        Told::Kept,
    ),
    (
        "module m(input [1:0] i, input a, output reg [3:0] y); always @* begin y = 4'h0; y[i] = a; end endmodule",
        &None,
        Told::Kept,
    ),
];

const LOOPS_THROUGH_SIGNALS: [Case; 3] = [
    (
        "module m(input a, output y); wire w; assign w = y & a; assign y = w; endmodule",
        &None,
        Told::Broken(21, 62),
    ),
    (
        "module m(input a, output reg x, output reg y, output reg z); always @* x = z; always @* y = x & a; always @* z = y; endmodule",
        &None,
        Told::Broken(21, 61),
    ),
    (
        "module n(input i, output o); assign o = ~i; endmodule module m(output y); wire w; n one(w, y); n two(y, w); endmodule",
        &None,
        Told::Broken(21, 91),
    ),
];

const LOOPS_THROUGH_BITS: [Case; 4] = [
    (
        "module m(input [2:0] a, output [3:0] y); assign y = {a & y[2:0], 1'b1}; endmodule",
        &None,
        Told::Broken(21, 48),
    ),
    (
        "module m(input a, output [3:0] y); assign y = {y[2:0], y[3]}; endmodule",
        &None,
        Told::Broken(21, 42),
    ),
    (
        "module m(input [1:0] i, output [3:0] y); assign y[3:1] = 3'b0; assign y[0] = y[i]; endmodule",
        &None,
        Told::Broken(21, 70),
    ),
    (
        "module m(output [3:0] y); assign y[3] = y[2]; assign y[2] = y[3]; assign y[0] = y[1]; assign y[1] = y[0]; endmodule",
        &None,
        Told::Broken(21, 73),
    ),
];

const CHAINS_OF_BITS: [Case; 2] = [
    (
        "module m(input a, output [3:0] y); assign y[0] = a; assign y[1] = y[0]; assign y[2] = y[1]; assign y[3] = y[2]; endmodule",
        &None,
        Told::Kept,
    ),
    (
        "module m(input a, output [3:0] y); assign y = {y[2:0], a}; endmodule",
        &None,
        Told::Kept,
    ),
];

const TWO_LAWS_UP_TO_THE_CLOCK: [Case; 4] = [
    (
        "module m(input a, output y, output reg z); always @* case (a) 1'bx: z = a; default: z = 1'b0; endcase assign a = y; endmodule",
        &None,
        Told::Broken(24, 109),
    ),
    (
        "module m(input a, input b, input d, output reg y, output reg z); always @(posedge a) y <= d; always @(posedge b) case (d) 1'bx: z <= d; endcase endmodule",
        &None,
        Told::Broken(25, 122),
    ),
    (
        "module m(input a, input b, output reg y, output reg z); always @(posedge a) y <= a; always @(posedge b) z <= b; endmodule",
        &None,
        Told::Broken(23, 84),
    ),
    (
        "module m(input clk, input d, output y); assign y = d; assign y = d; reg q; always @(posedge clk) q <= clk; endmodule",
        &None,
        Told::Broken(22, 102),
    ),
];

const TWO_LAWS_AFTER_THE_CLOCK: [Case; 4] = [
    (
        "module m(input d, output y, output reg z); always @* z <= d; assign y = d; assign y = z; endmodule",
        &None,
        Told::Broken(17, 82),
    ),
    (
        "module m(input clk, input d, output reg y, output reg z); always @(posedge clk) y = d; always @(posedge clk) begin z <= y; z = d; end endmodule",
        &None,
        Told::Broken(18, 123),
    ),
    (
        "module m(input clk, input d, output reg y, output reg z, output reg l); always @* if (d) l = d; always @(posedge clk) y = d; always @(posedge clk) z <= y; endmodule",
        &None,
        Told::Broken(19, 152),
    ),
    (
        "module m(input d, output y, output reg l); assign y = ~y; always @* if (d) l = d; endmodule",
        &None,
        Told::Broken(20, 58),
    ),
];

const LAWS_OF_INITIAL_ITEMS: [Case; 5] = [
    (
        "module m(output y);initial y=1'b1;assign y=1'b0;assign y=1'b1;endmodule",
        &None,
        Told::Broken(24, 27),
    ),
    (
        "module m(input clk,input d,output reg y,output reg z);always @(posedge clk) y <= d;always @(negedge clk) z <= d;initial d = 1'b1;endmodule",
        &None,
        Told::Broken(24, 120),
    ),
    (
        "module m(input a,output reg y,output z);assign y = a;initial z = 1'b1;endmodule",
        &None,
        Told::Broken(24, 47),
    ),
    (
        "module m(input clk,input d,output reg y = 1'b1);reg t;initial begin t = 1'b1;y = 1'b0;end initial y = 1'b1;always @(posedge clk) begin y = t;t = d;end endmodule",
        &None,
        Told::Kept,
    ),
    (
        "module m(input a,output reg y = 1'b1,output reg z);initial z = 1'b1;always @* y = a;endmodule",
        &None,
        Told::Kept,
    ),
];

const ONE_LAW_UP_TO_THE_CLOCK: [Case; 4] = [
    (
        "module m(input clk,output reg y);always @(posedge clk) y <= clk;endmodule",
        &None,
        Told::Broken(22, 60),
    ),
    (
        "module m(input clk,input d,output reg y,output reg z);always @(posedge clk) y <= d;always @(negedge clk) z <= d;endmodule",
        &None,
        Told::Broken(23, 83),
    ),
    (
        "module m(input a,output y);always @* y = a;endmodule",
        &None,
        Told::Broken(24, 37),
    ),
    (
        "module m(input a,output reg y);always @* case(a) 1'bx: y = a; default: y = 1'b0; endcase endmodule",
        &None,
        Told::Broken(25, 49),
    ),
];

const ONE_LAW_AFTER_THE_CLOCK: [Case; 5] = [
    (
        "module m(output y);assign y = 1'b0;assign y = 1'b1;endmodule",
        &None,
        Told::Broken(17, 42),
    ),
    (
        "module m(input clk,output reg y);always @(posedge clk) begin y <= 1'b0; y = 1'b1; end endmodule",
        &None,
        Told::Broken(18, 72),
    ),
    (
        "module m(input clk,output reg y);reg t;always @(posedge clk) t = ~t;always @(posedge clk) y <= t;endmodule",
        &None,
        Told::Broken(19, 95),
    ),
    (
        "module m(output y);\n  wire a, b;\n  assign a = b;\n  assign b = a;\n  assign y = a;\nendmodule\n",
        &None,
        Told::Broken(21, 42),
    ),
    (
        "module m(input [1:0] s, output reg y);\n  always @*\n    case (s)\n      2'd0: y = 1'b0;\n      2'd1: y = 1'b1;\n    endcase\nendmodule\n",
        &None,
        Told::Broken(20, 41),
    ),
];

const DESIGNS_THAT_KEEP_ALL_LAWS: [Case; 2] = [
    (
        "module m(input [1:0] s, output reg y);\n  always @*\n    begin y = 1'b0; case (s)\n      2'd0: y = 1'b0;\n      2'd1: y = 1'b1;\n    endcase end\nendmodule\n",
        &None,
        Told::Kept,
    ),
    (
        "module m(input [2:0] a, output [3:0] c); assign c[0] = 1'b0; assign c[1] = c[0] ^ a[0]; assign c[2] = c[1] ^ a[1]; assign c[3] = c[2] ^ a[2]; endmodule",
        &None,
        Told::Kept,
    ),
];

#[test]
fn the_clock_and_its_uses(rt: HostRuntime) -> Result<(), Fail> {
    all_right(
        rt.alloc(),
        &[
            &WORDS_THAT_NAME_THE_CLOCK,
            &WORDS_THAT_NAME_NO_CLOCK,
            &RESETS_BESIDE_THE_CLOCK,
            &BLOCKS_OF_ANOTHER_CLOCK,
            &USES_OF_THE_CLOCK_IN_ONE_MODULE,
            &USES_OF_THE_CLOCK_IN_INSTANCES,
        ],
    )
}

#[test]
fn drivers_kinds_and_races(rt: HostRuntime) -> Result<(), Fail> {
    all_right(
        rt.alloc(),
        &[
            &TWO_DRIVERS_OF_A_NET,
            &TWO_DRIVERS_OF_A_VARIABLE,
            &KINDS_OF_ASSIGNMENT,
            &RACES,
        ],
    )
}

#[test]
fn latches_and_loops(rt: HostRuntime) -> Result<(), Fail> {
    all_right(
        rt.alloc(),
        &[
            &BLOCKS_WITH_A_LATCH,
            &BLOCKS_WITHOUT_A_LATCH,
            &LOOPS_THROUGH_SIGNALS,
            &LOOPS_THROUGH_BITS,
            &CHAINS_OF_BITS,
        ],
    )
}

#[test]
fn the_first_law_that_is_broken(rt: HostRuntime) -> Result<(), Fail> {
    all_right(
        rt.alloc(),
        &[
            &TWO_LAWS_UP_TO_THE_CLOCK,
            &TWO_LAWS_AFTER_THE_CLOCK,
            &LAWS_OF_INITIAL_ITEMS,
            &ONE_LAW_UP_TO_THE_CLOCK,
            &ONE_LAW_AFTER_THE_CLOCK,
            &DESIGNS_THAT_KEEP_ALL_LAWS,
        ],
    )
}

/// The names that lead to the clock, of a design that keeps all laws.
fn names_of_the_clock<'a>(
    alloc: Global,
    flat: &Flat<'a>,
    arena: &'a Bump,
) -> Result<&'a [ModulePlace<'a>], AllocError> {
    match check(alloc, flat, None) {
        Err(_) => Ok(&[]),
        Ok(order) => places(alloc, flat, &order, arena),
    }
}

const CONNECTED: &str =
    "module c(input ck, input d, output reg q); always @(posedge ck) q <= d; endmodule module m(input clk, input d, output q); c u(.ck(clk), .d(d), .q(q)); endmodule";

#[test]
fn names_that_lead_to_the_clock(rt: HostRuntime) -> Result<(), Fail> {
    let alloc = rt.alloc();
    let arena = Bump::new(alloc);
    match design_of(alloc, CONNECTED, &arena) {
        Err(_) => assert!(rt; false),
        Ok(design) => {
            let found = names_of_the_clock(alloc, &design.flat, &arena)?;
            assert!(rt; found.len() == 2);
            assert!(rt; place_is(found, 0, 0, "ck"));
            assert!(rt; place_is(found, 1, 1, "clk"));
        }
    }
    Ok(())
}
