//! Orders of the steps of small flat designs, and combinational loops.
use crate::texts::design_of;
use bumpalo::Bump;
use rr_expr::Bit;
use rr_flat::Step;
use rr_order::{Ordering, order_steps};
use std::alloc::{AllocError, Global};
use std::test::Fail;

/// A text with its steps in order.
type Ordered = (&'static str, &'static [Step]);

/// A text with the bits of its loop and their token.
type Looped = (&'static str, &'static [Bit], u32);

/// The order of the steps, or the loop and its token.
#[derive(Drop)]
struct Answer {
    steps: Vec<Step>,
    cycle: Vec<Bit>,
    token: u32,
}

macro_rules! at {
    ($signal:literal, $place:literal) => {
        Bit { signal: $signal, place: $place }
    };
}

macro_rules! wire {
    ($bit:literal) => {
        Step::Wire { driver: 0, bit: $bit }
    };
}

/// A ripple in one vector, wires that shift, and words of a memory.
const ORDERED: [Ordered; 3] = [
    (
        "module m(input a, output [7:0] c); assign c[7] = c[6] & a; assign c[6] = c[5] & a; assign c[5] = c[4] & a; assign c[4] = c[3] & a; assign c[3] = c[2] & a; assign c[2] = c[1] & a; assign c[1] = c[0] & a; assign c[0] = a & a; endmodule",
        &[
            Step::Driver(7),
            Step::Driver(6),
            Step::Driver(5),
            Step::Driver(4),
            Step::Driver(3),
            Step::Driver(2),
            Step::Driver(1),
            Step::Driver(0),
        ],
    ),
    (
        "module m(input a, output [3:0] d); assign d[3:1] = d[2:0]; endmodule",
        &[wire!(0), wire!(1), wire!(2)],
    ),
    (
        "module m(input i, input d, output y); reg r [0:1]; wire w; assign w = r[1]; assign y = r[0]; always @* r[0] = w; always @* r[1] = d; endmodule",
        &[
            Step::Block(1),
            wire!(0),
            Step::Block(0),
            Step::Wire { driver: 1, bit: 0 },
        ],
    ),
];

/// Loops through assignments, through blocks, the lower of two, one through an index, one through wires
/// that turn, and one through the words of a memory.
const LOOPED: [Looped; 6] = [
    (
        "module m(input a, output x); wire y; assign y = x & a; assign x = y & a; endmodule",
        &[at!(1, 0), at!(2, 0)],
        21,
    ),
    (
        "module m(input a); reg x; reg y; reg z; always @* x = y & a; always @* y = z & a; always @* z = x; endmodule",
        &[at!(1, 0), at!(2, 0), at!(3, 0)],
        16,
    ),
    (
        "module m(input a); wire x; wire y; wire z; assign z = z & a; assign y = x & a; assign x = y & a; endmodule",
        &[at!(1, 0), at!(2, 0)],
        31,
    ),
    (
        "module m(input [2:0] i, output [7:0] d); assign d[5] = d[i]; endmodule",
        &[at!(1, 5)],
        21,
    ),
    (
        "module m(input a, output [3:0] d); assign d[3:1] = d[2:0]; assign d[0] = d[3]; endmodule",
        &[at!(1, 0), at!(1, 3), at!(1, 2), at!(1, 1)],
        31,
    ),
    (
        "module m(input i, input d, output y); reg r [0:1]; wire w; assign w = r[i]; assign y = r[0]; always @* r[0] = w; always @* r[1] = d; endmodule",
        &[at!(3, 0), at!(5, 0)],
        40,
    ),
];

const CHAIN: &str =
    "module n(input a, output y); assign y = a & a; endmodule module m(input a, output y); wire z; n v(z, y); n u(a, z); endmodule";

/// What is told of the last module of a text.
fn told(alloc: Global, text: &str) -> Result<Option<Answer>, AllocError> {
    let arena = Bump::new(alloc);
    match design_of(alloc, text, &arena) {
        Err(_) => Ok(None),
        Ok(design) => match order_steps(alloc, &design.flat)? {
            Ordering::Steps(steps) => Ok(Some(Answer {
                steps,
                cycle: Vec::new(alloc),
                token: 0,
            })),
            Ordering::Loop(found) => Ok(Some(Answer {
                steps: Vec::new(alloc),
                cycle: found.cycle,
                token: found.token,
            })),
        },
    }
}

/// Whether these steps are told.
fn has_steps(told: Option<Answer>, steps: &[Step]) -> bool {
    match told {
        Some(told) => told.steps.as_slice() == steps && told.cycle.is_empty(),
        None => false,
    }
}

/// Whether this loop is told.
fn has_loop(told: Option<Answer>, cycle: &[Bit], token: u32) -> bool {
    match told {
        Some(told) => told.cycle.as_slice() == cycle && told.token == token,
        None => false,
    }
}

#[test]
fn orders_and_loops(rt: HostRuntime) -> Result<(), Fail> {
    let alloc = rt.alloc();
    for (text, steps) in ORDERED.iter() {
        assert!(rt; has_steps(told(alloc, text)?, steps), "{text}");
    }
    for (text, cycle, token) in LOOPED.iter() {
        assert!(rt; has_loop(told(alloc, text)?, cycle, *token), "{text}");
    }
    Ok(())
}

#[test]
fn a_chain_of_instances(rt: HostRuntime) -> Result<(), Fail> {
    let found = told(rt.alloc(), CHAIN)?;
    assert!(rt; found.is_some());
    if let Some(found) = found {
        assert!(rt; found.cycle.is_empty() && found.steps.len() == 6);
    }
    Ok(())
}
