//! The clock of small designs, by the rules of IEEE 1364-2005 sections 9.7 and 12.3.9.2.
use crate::texts::{byte_of, design_of, place_is};
use bumpalo::Bump;
use rr_clock::{Found, clock_places, find_clock, first_clock_use, unknown_clock};
use rr_flat::Flat;
use rr_syntax::{ModulePlace, Token};
use std::alloc::{AllocError, Global};
use std::test::Fail;

/// What the laws of the clock say of a text, by bytes: the name of the top where the word names no clock,
/// the block without the one clock, or the clock and its first use as data.
#[derive(Clone, Copy, Debug, PartialEq, Eq)]
enum Told {
    NoDesign,
    Unknown(u32),
    Nowhere(u32),
    Clock {
        signal: Option<u32>,
        rising: bool,
        used: Option<u32>,
    },
}

/// A text, the word that names its clock, and what is told.
type Case = (&'static str, &'static Option<&'static str>, Told);

macro_rules! clock {
    ($signal:expr, $rising:literal, $used:expr) => {
        Told::Clock { signal: $signal, rising: $rising, used: $used }
    };
}

fn start(tokens: &[Token<'_>], at: u32) -> u32 {
    byte_of(tokens, at).unwrap_or(u32::MAX)
}

fn used(
    alloc: Global,
    tokens: &[Token<'_>],
    flat: &Flat,
    word: Option<&str>,
) -> Result<Told, AllocError> {
    if let Some(at) = unknown_clock(flat, word) {
        return Ok(Told::Unknown(start(tokens, at)));
    }
    match find_clock(alloc, flat, word)? {
        Found::Nowhere(at) => Ok(Told::Nowhere(start(tokens, at))),
        Found::Clock { signal, rising } => {
            let found = first_clock_use(alloc, flat, signal)?;
            Ok(Told::Clock {
                signal,
                rising,
                used: found.map(|at| start(tokens, at)),
            })
        }
    }
}

fn answer(alloc: Global, text: &str, word: Option<&str>) -> Result<Told, AllocError> {
    let arena = Bump::new(alloc);
    match design_of(alloc, text, &arena) {
        Err(_) => Ok(Told::NoDesign),
        Ok(design) => used(alloc, design.tokens, &design.flat, word),
    }
}

/// The place of the first case that is told otherwise.
fn first_wrong(alloc: Global, cases: &[Case]) -> Result<Option<usize>, AllocError> {
    for (place, case) in cases.iter().enumerate() {
        if answer(alloc, case.0, *case.1)? != case.2 {
            return Ok(Some(place));
        }
    }
    Ok(None)
}

/// Fails at the first case of these tables that is told otherwise.
fn all_right(alloc: Global, tables: &[&[Case]]) -> Result<(), Fail> {
    for (table, cases) in tables.iter().enumerate() {
        if let Some(place) = first_wrong(alloc, cases)? {
            return Err(Fail::new(format_args!("case {place} of table {table}")));
        }
    }
    Ok(())
}

const CLOCKS_WITHOUT_AN_EDGE: [Case; 2] = [
    (
        "module m(input a, input [1:0] w, output y); wire t; assign y = a; endmodule",
        &None,
        clock!(None, true, None),
    ),
    (
        "module m(input a, input [1:0] w, output y); wire t; assign y = a; endmodule",
        &Some("a"),
        clock!(Some(0), true, Some(63)),
    ),
];

const WORDS_THAT_NAME_NO_CLOCK: [Case; 4] = [
    (
        "module m(input a, input [1:0] w, output y); wire t; assign y = a; endmodule",
        &Some("z"),
        Told::Unknown(7),
    ),
    (
        "module m(input a, input [1:0] w, output y); wire t; assign y = a; endmodule",
        &Some("w"),
        Told::Unknown(7),
    ),
    (
        "module m(input a, input [1:0] w, output y); wire t; assign y = a; endmodule",
        &Some("t"),
        Told::Unknown(7),
    ),
    (
        "module m(input a, input [1:0] w, output y); wire t; assign y = a; endmodule",
        &Some("y"),
        Told::Unknown(7),
    ),
];

const BLOCKS_OF_ONE_EDGE: [Case; 4] = [
    (
        "module m(input clk, input d, output reg q); always @(posedge clk) q <= d; endmodule",
        &None,
        clock!(Some(0), true, None),
    ),
    (
        "module m(input clk, input d, output reg q); always @(posedge clk) q <= d; endmodule",
        &Some("d"),
        Told::Nowhere(44),
    ),
    (
        "module m(input clk, input d, output reg q); always @(negedge clk) q <= d; endmodule",
        &Some("clk"),
        clock!(Some(0), false, None),
    ),
    (
        "module m(input clk, input d, output reg y, output reg z); always @(posedge clk) y <= d; always @(negedge clk) z <= d; endmodule",
        &None,
        Told::Nowhere(88),
    ),
];

const BLOCKS_OF_TWO_EDGES: [Case; 2] = [
    (
        "module m(input c, input r, input d, output reg q); always @(negedge r or posedge c) if (!r) q <= r; else q <= d; endmodule",
        &None,
        clock!(Some(0), true, None),
    ),
    (
        "module m(input c, input r, input d, output reg q); always @(negedge r or posedge c) if (!r) q <= r; else q <= d; endmodule",
        &Some("r"),
        clock!(Some(1), false, Some(89)),
    ),
];

const CLOCKS_USED_AS_DATA: [Case; 2] = [
    (
        "module m(input clk, output reg y); always @(posedge clk) y <= clk; endmodule",
        &None,
        clock!(Some(0), true, Some(62)),
    ),
    (
        "module m(input clk, input d, output reg q, output y); assign y = clk; always @(posedge clk) q <= d; endmodule",
        &None,
        clock!(Some(0), true, Some(65)),
    ),
];

const CLOCKS_OF_NETS_AND_INSTANCES: [Case; 3] = [
    (
        "module m(input clk, input d, output reg q); wire w = clk; always @(posedge w) q <= d; endmodule",
        &None,
        Told::Nowhere(58),
    ),
    (
        "module leaf(input ck, input d, output reg q); always @(posedge ck) q <= d; endmodule module m(input clk, input en, input d, output q); leaf u(.ck(clk & en), .d(d), .q(q)); endmodule",
        &None,
        Told::Nowhere(46),
    ),
    (
        "module leaf(input ck, input d, output reg q); always @(posedge ck) q <= d; endmodule module mid(input c, input d, output q); leaf u(.ck(c), .d(d), .q(q)); endmodule module m(input clk, input d, output q); mid u(.c(clk), .d(d), .q(q)); endmodule",
        &None,
        clock!(Some(0), true, None),
    ),
];

#[test]
fn clocks_and_their_uses(rt: HostRuntime) -> Result<(), Fail> {
    all_right(
        rt.alloc(),
        &[
            &CLOCKS_WITHOUT_AN_EDGE,
            &WORDS_THAT_NAME_NO_CLOCK,
            &BLOCKS_OF_ONE_EDGE,
            &BLOCKS_OF_TWO_EDGES,
            &CLOCKS_USED_AS_DATA,
            &CLOCKS_OF_NETS_AND_INSTANCES,
        ],
    )
}

/// The places of a design with its clock by name, and without one.
fn placed<'a>(
    alloc: Global,
    flat: &Flat<'a>,
    arena: &'a Bump,
) -> Result<Option<&'a [ModulePlace<'a>]>, AllocError> {
    match find_clock(alloc, flat, None)? {
        Found::Nowhere(_) => Ok(None),
        Found::Clock { signal, .. } => Ok(Some(clock_places(alloc, flat, signal, arena)?)),
    }
}

const LEVELS: &str =
    "module leaf(input ck, input d, output reg q); always @(posedge ck) q <= d; endmodule module mid(input c, input d, output q); leaf u(.ck(c), .d(d), .q(q)); endmodule module m(input clk, input d, output q); mid u(.c(clk), .d(d), .q(q)); endmodule";

#[test]
fn places(rt: HostRuntime) -> Result<(), Fail> {
    let alloc = rt.alloc();
    let arena = Bump::new(alloc);
    match design_of(alloc, LEVELS, &arena) {
        Err(_) => assert!(rt; false),
        Ok(design) => {
            let found = placed(alloc, &design.flat, &arena)?.unwrap_or(&[]);
            assert!(rt; found.len() == 3);
            assert!(rt; place_is(found, 0, 0, "ck"));
            assert!(rt; place_is(found, 1, 1, "c"));
            assert!(rt; place_is(found, 2, 2, "clk"));
            let unclocked = clock_places(alloc, &design.flat, None, &arena)?;
            assert!(rt; unclocked.len() == 3);
            assert!(rt; unclocked[0].clocks.is_empty());
        }
    }
    Ok(())
}
