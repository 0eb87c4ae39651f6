//! Transitions of small designs: the next state and the outputs for a state and a row of inputs.
ghost use Rattle.std.specs.Prelude.{◌≡◌, []};
ghost use Rattle.rr_flat.specs.View.{plain_flat};
ghost use Rattle.rr_transition.specs.Cycles.{Design};
ghost use Rattle.rr_blast.specs.Circuits.{FitsArguments};

use bumpalo::Bump;
use rr_blast::{row_bits, transition};
use rr_choice::SiteList;
use rr_registers::register_bits;
use rr_run::{LawfulDesign, lawful_design};
use rr_transition::Transition;
use std::alloc::{AllocError, Global};
use std::test::Fail;

/// The transition of a design of few bits, without sites.
fn small<'a>(
    alloc: Global,
    design: &LawfulDesign<'a>,
    list: &SiteList<'_>,
) -> Result<Option<Transition>, AllocError>
    requires fits { (j : Design) × FitsArguments j (plain_flat design.now.flat) design.now.order.clock design.now.order.rising design.now.order.steps.items list.now }
    requires none { list.now ≡ [] }
{
    let registers = register_bits(alloc, &design.flat)?;
    let ids = design.flat.row_inputs(alloc, design.order.clock)?;
    let row = row_bits(alloc, &design.flat, ids.as_slice())?;
    if registers.len() > 64 {
        return Ok(None);
    }
    if row.len() > 64 {
        return Ok(None);
    }
    let cycle = transition(alloc, &design.flat, &design.order, list)?;
    Ok(Some(cycle))
}

/// The transition of a text.
fn transition_of(alloc: Global, text: &str) -> Result<Option<Transition>, AllocError> {
    let arena = Bump::new(alloc);
    let bytes = text.as_bytes();
    if bytes.len() > 1_048_576 {
        return Ok(None);
    }
    let list = SiteList::new(Vec::new(alloc));
    match lawful_design(alloc, bytes, None, None, &arena) {
        Ok(design) => small(alloc, &design, &list),
        Err(_) => Ok(None),
    }
}

/// Whether a transition has no choice bits, these numbers of state and input bits, and so many outputs.
fn has(cycle: &Transition, state: u32, input: u32, outputs: &[u32]) -> bool {
    cycle.choice_bits == 0
        && cycle.state_bits == state
        && cycle.input_bits == input
        && cycle.switches.is_empty()
        && cycle.output_widths.as_slice() == outputs
}

/// What a transition gives for the bits of a state and of a row.
fn given(
    alloc: Global,
    cycle: &Transition,
    bits: &[bool],
) -> Result<Option<Vec<bool>>, AllocError> {
    let count = u64::from(cycle.choice_bits)
        + u64::from(cycle.state_bits)
        + u64::from(cycle.input_bits);
    if bits.len() as u64 != count {
        return Ok(None);
    }
    let values = cycle.circuit.eval(alloc, bits)?;
    Ok(Some(values))
}

/// Whether the transition of a text gives this for the bits of a state and of a row.
fn gives(alloc: Global, text: &str, bits: &[bool], expected: &[bool]) -> Result<bool, AllocError> {
    match transition_of(alloc, text)? {
        Some(cycle) => match given(alloc, &cycle, bits)? {
            Some(values) => Ok(values.as_slice() == expected),
            None => Ok(false),
        },
        None => Ok(false),
    }
}

const RESET: &str =
    "module m(input clk, input rst, input [1:0] d, output reg [1:0] q); always @(posedge clk) if (!rst) q <= 0; else q <= d; endmodule";

// The state and then the row, each lowest bit first; the next state and then the outputs.
#[test]
fn inverted_reset(rt: HostRuntime) -> Result<(), Fail> {
    let alloc = rt.alloc();
    let on = [true, false, true, false, true];
    assert!(rt; gives(alloc, RESET, &on, &[false, true, true, false])?);
    let off = [true, false, false, false, true];
    assert!(rt; gives(alloc, RESET, &off, &[false, false, true, false])?);
    Ok(())
}

#[test]
fn counts(rt: HostRuntime) -> Result<(), Fail> {
    let alloc = rt.alloc();
    match transition_of(alloc, RESET)? {
        Some(cycle) => assert!(rt; has(&cycle, 2, 3, &[2])),
        None => assert!(rt; false),
    }
    Ok(())
}

const BRANCH: &str =
    "module m(input clk, input e, input d, output y); reg q; reg p; assign y = q ^ p; always @(posedge clk) begin if (e) q <= d; p <= q; end endmodule";

// A branch that is not taken leaves the state; each `<=` reads the state before the edge.
#[test]
fn branches(rt: HostRuntime) -> Result<(), Fail> {
    let alloc = rt.alloc();
    assert!(rt;
        gives(
            alloc,
            BRANCH,
            &[true, false, false, false],
            &[true, true, true]
        )?
    );
    assert!(rt;
        gives(
            alloc,
            BRANCH,
            &[true, false, true, false],
            &[false, true, true]
        )?
    );
    assert!(rt;
        gives(
            alloc,
            BRANCH,
            &[false, true, true, true],
            &[true, false, true]
        )?
    );
    Ok(())
}

const WILD: &str =
    "module m(input [2:0] a, output reg [1:0] y); always @(*) casez (a) 3'b1??: y = 3; 3'b01?: y = 2; default: y = a[1:0]; endcase endmodule";

#[test]
fn wild_labels(rt: HostRuntime) -> Result<(), Fail> {
    let alloc = rt.alloc();
    assert!(rt; gives(alloc, WILD, &[true, false, true], &[true, true])?);
    assert!(rt; gives(alloc, WILD, &[true, true, false], &[false, true])?);
    assert!(rt; gives(alloc, WILD, &[true, false, false], &[true, false])?);
    Ok(())
}

const INDEX: &str =
    "module m(input clk, input [1:0] i, input d, output reg [3:0] q); always @(posedge clk) q[i] <= d; endmodule";

#[test]
fn indexed_writes(rt: HostRuntime) -> Result<(), Fail> {
    let alloc = rt.alloc();
    let bits = [true, false, false, true, false, true, true];
    assert!(rt;
        gives(
            alloc,
            INDEX,
            &bits,
            &[true, false, true, true, true, false, false, true]
        )?
    );
    Ok(())
}

const WIRES: &str =
    "module m(input clk, input d, output [3:0] y); reg q; assign y = {{q, 1'b1}, d}; always @(posedge clk) q <= d; endmodule";

// A concatenation bit by bit, and 0 above it.
#[test]
fn wired_concatenations(rt: HostRuntime) -> Result<(), Fail> {
    let alloc = rt.alloc();
    let stays = [true, false];
    assert!(rt; gives(alloc, WIRES, &stays, &[false, false, true, true, false])?);
    let comes = [false, true];
    assert!(rt; gives(alloc, WIRES, &comes, &[true, true, true, false, false])?);
    Ok(())
}

/// Whether a run of the transition of a text starts in this state.
fn starts(alloc: Global, text: &str, state: &[bool]) -> Result<bool, AllocError> {
    match transition_of(alloc, text)? {
        Some(cycle) => Ok(cycle.start.as_slice() == state),
        None => Ok(false),
    }
}

const DECLARED: &str =
    "module m(input clk, output [1:0] q); reg [1:0] r = 2'd2; always @(posedge clk) r <= r + 1; assign q = r; endmodule";

const INITIAL: &str =
    "module m(input clk, output [1:0] q); reg [1:0] r = 2'd2; initial r = 2'd1; always @(posedge clk) r <= r + 1; assign q = r; endmodule";

#[test]
fn registers_begin_with_their_starting_values(rt: HostRuntime) -> Result<(), Fail> {
    let alloc = rt.alloc();
    assert!(rt; starts(alloc, RESET, &[false, false])?);
    assert!(rt; starts(alloc, DECLARED, &[false, true])?);
    assert!(rt; starts(alloc, INITIAL, &[true, false])?);
    Ok(())
}
