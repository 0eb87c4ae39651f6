//! Gates, copies, and texts of circuits.
ghost use Rattle.std.specs.Prelude.{◌≡◌, IfOk};
ghost use Rattle.rr_circuit.specs.Values.{AreWires};

use crate::gates::{NO, NOT_X, Rule, Step, X, YES, holds};
use rr_circuit::{AagFault, Builder, Circuit, Wire, read_aag, write_aag};
use std::alloc::{AllocError, Global};
use std::test::Fail;

/// Whether the value may be used by several threads.
fn shared<T: Send + Sync>(_value: &T) -> bool {
    true
}

fn fault_of(alloc: Global, text: &str) -> Option<AagFault> {
    match read_aag(alloc, text.as_bytes()) {
        Ok(_) => None,
        Err(fault) => Some(fault),
    }
}

/// Whether a circuit is written as this text.
fn has_text(alloc: Global, circuit: &Circuit, text: &[u8]) -> Result<bool, AllocError> {
    let written = write_aag(alloc, circuit)?;
    Ok(written.as_slice() == text)
}

/// Each gate over three inputs, and the constants.
fn each_gate(alloc: Global, b: &mut Builder) -> Result<Vec<Wire>, AllocError>
    requires { b.old.inputs ≡ 3 }
    ensures inputs { b.new.inputs ≡ 3 }
    ensures wires { IfOk result (λ r. AreWires b.new r.items) }
{
    let (x, y, z) = (b.input(0), b.input(1), b.input(2));
    let not_x = b.not(x);
    let and = b.and(x, y)?;
    let or = b.or(x, y)?;
    let xor = b.xor(x, y)?;
    let mux = b.mux(x, y, z)?;
    Vec::from_slice(
        alloc,
        &[
            not_x,
            and,
            or,
            xor,
            mux,
            b.constant(true),
            b.constant(false),
        ],
    )
}

fn circuit_of_each(alloc: Global) -> Result<Circuit, AllocError>
    ensures { IfOk result (λ c. c.netlist.inputs ≡ 3) }
{
    let mut b = Builder::new(alloc, 3)?;
    let outputs = each_gate(alloc, &mut b)?;
    Ok(b.finish(outputs))
}

/// Whether the gates have their values where the inputs are the bits of a number.
fn agrees(alloc: Global, circuit: &Circuit, number: u32) -> Result<bool, AllocError>
    requires { circuit.now.netlist.inputs ≡ 3 }
{
    let (x, y, z) = (number & 1 == 1, number & 2 == 2, number & 4 == 4);
    let values = circuit.eval(alloc, &[x, y, z])?;
    let want = [
        !x,
        x && y,
        x || y,
        x != y,
        if x { y } else { z },
        true,
        false,
    ];
    Ok(values.as_slice() == want.as_slice())
}

fn has_truth_tables(alloc: Global, circuit: &Circuit) -> Result<bool, AllocError>
    requires { circuit.now.netlist.inputs ≡ 3 }
{
    for number in 0..8 {
        if !agrees(alloc, circuit, number)? {
            return Ok(false);
        }
    }
    Ok(true)
}

#[test]
fn gates_have_their_truth_tables(rt: HostRuntime) -> Result<(), Fail> {
    let circuit = circuit_of_each(rt.alloc())?;
    let found = [circuit.wire(0), circuit.wire(6), circuit.wire(7)];
    assert!(rt; found == [Some(Wire(3)), Some(Wire(0)), None] && shared(&circuit));
    let holds = has_truth_tables(rt.alloc(), &circuit)?;
    assert!(rt; holds);
    Ok(())
}

/// The conjunction of two inputs, and whether it is made once.
fn conjunction(alloc: Global, b: &mut Builder) -> Result<(Vec<Wire>, bool), AllocError>
    requires { b.old.inputs ≡ 2 }
    ensures { IfOk result (λ r. AreWires b.new r.0.items) }
{
    let (x, y) = (b.input(0), b.input(1));
    let once = b.and(x, y)?;
    let found = [b.and(x, y)?, b.and(y, x)?];
    Ok((Vec::from_slice(alloc, &[once])?, found == [once, once]))
}

fn circuit_of_conjunction(alloc: Global) -> Result<(Circuit, bool), AllocError> {
    let mut b = Builder::new(alloc, 2)?;
    let (outputs, is_shared) = conjunction(alloc, &mut b)?;
    Ok((b.finish(outputs), is_shared))
}

#[test]
fn equal_gates_are_shared(rt: HostRuntime) -> Result<(), Fail> {
    let (circuit, is_shared) = circuit_of_conjunction(rt.alloc())?;
    assert!(rt; is_shared && circuit.gates.len() == 1);
    let is_text = has_text(rt.alloc(), &circuit, b"aag 3 2 0 1 1\n2\n4\n6\n6 4 2\n")?;
    assert!(rt; is_text);
    Ok(())
}

const FOLDED: Rule = Rule {
    inputs: 1,
    steps: &[
        Step::And(X, X),
        Step::And(X, NOT_X),
        Step::And(NO, X),
        Step::And(X, NO),
        Step::And(YES, X),
        Step::And(X, YES),
        Step::Xor(X, X),
    ],
    found: &[X, NO, NO, NO, X, X, NO],
    gates: 0,
};

#[test]
fn constants_and_equal_operands_are_folded(rt: HostRuntime) -> Result<(), Fail> {
    assert!(rt; holds(rt.alloc(), &FOLDED)?);
    Ok(())
}

fn constants(alloc: Global, b: &Builder) -> Result<Vec<Wire>, AllocError>
    ensures { IfOk result (λ r. AreWires b.now r.items) }
{
    let (no, yes) = (b.constant(false), b.constant(true));
    Vec::from_slice(alloc, &[yes, no, yes])
}

fn circuit_of_constants(alloc: Global) -> Result<Circuit, AllocError> {
    let b = Builder::new(alloc, 0)?;
    let outputs = constants(alloc, &b)?;
    Ok(b.finish(outputs))
}

#[test]
fn constant_outputs_have_lines(rt: HostRuntime) -> Result<(), Fail> {
    let circuit = circuit_of_constants(rt.alloc())?;
    let is_text = has_text(rt.alloc(), &circuit, b"aag 0 0 0 3 0\n1\n0\n1\n")?;
    assert!(rt; is_text);
    Ok(())
}

/// A conjunction and a disjunction of two inputs.
fn both_and_any(alloc: Global, b: &mut Builder) -> Result<Vec<Wire>, AllocError>
    requires { b.old.inputs ≡ 2 }
    ensures inputs { b.new.inputs ≡ 2 }
    ensures wires { IfOk result (λ r. AreWires b.new r.items) }
{
    let (x, y) = (b.input(0), b.input(1));
    let both = b.and(x, y)?;
    let any = b.or(x, y)?;
    Vec::from_slice(alloc, &[both, any])
}

fn circuit_of_both_and_any(alloc: Global) -> Result<Circuit, AllocError>
    ensures { IfOk result (λ c. c.netlist.inputs ≡ 2) }
{
    let mut b = Builder::new(alloc, 2)?;
    let outputs = both_and_any(alloc, &mut b)?;
    Ok(b.finish(outputs))
}

/// The outputs of a circuit over the second input and the negated first one.
fn copied(alloc: Global, b: &mut Builder, circuit: &Circuit) -> Result<Vec<Wire>, AllocError>
    requires inputs { circuit.now.netlist.inputs ≡ 2 }
    requires builder { b.old.inputs ≡ 2 }
    ensures inputs { b.new.inputs ≡ 2 }
    ensures wires { IfOk result (λ r. AreWires b.new r.items) }
{
    let (x, y) = (b.input(0), b.input(1));
    let not_x = b.not(x);
    circuit.copy_onto(alloc, b, &[y, not_x])
}

fn copy_of(alloc: Global, circuit: &Circuit) -> Result<Circuit, AllocError>
    requires { circuit.now.netlist.inputs ≡ 2 }
    ensures { IfOk result (λ c. c.netlist.inputs ≡ 2) }
{
    let mut b = Builder::new(alloc, 2)?;
    let outputs = copied(alloc, &mut b, circuit)?;
    Ok(b.finish(outputs))
}

/// The values of two inputs.
pub(crate) const PAIRS: [(bool, bool); 4] = [
    (false, false),
    (false, true),
    (true, false),
    (true, true),
];

/// Whether the outputs of a copy have these values.
fn copy_agrees(alloc: Global, copy: &Circuit, x: bool, y: bool) -> Result<bool, AllocError>
    requires { copy.now.netlist.inputs ≡ 2 }
{
    let values = copy.eval(alloc, &[x, y])?;
    Ok(values.as_slice() == [y && !x, y || !x].as_slice())
}

fn stands_over_wires(alloc: Global, copy: &Circuit) -> Result<bool, AllocError>
    requires { copy.now.netlist.inputs ≡ 2 }
{
    for (x, y) in PAIRS.iter() {
        if !copy_agrees(alloc, copy, *x, *y)? {
            return Ok(false);
        }
    }
    Ok(true)
}

#[test]
fn copies_stand_over_given_wires(rt: HostRuntime) -> Result<(), Fail> {
    let circuit = circuit_of_both_and_any(rt.alloc())?;
    let copy = copy_of(rt.alloc(), &circuit);
    let holds = stands_over_wires(rt.alloc(), &copy?)?;
    assert!(rt; holds);
    Ok(())
}

/// Whether a text with an input and its negation as outputs is read as such.
fn reads_outputs(alloc: Global) -> Result<bool, AagFault> {
    let read = read_aag(alloc, b"aag 1 1 0 2 0\n2\n2\n3\n")?;
    let wires = [read.wire(0), read.wire(1)];
    Ok(
        read.inputs == 1
            && read.gates.len() == 0
            && read.outputs.len() == 2
            && wires == [Some(Wire(2)), Some(Wire(3))],
    )
}

#[test]
fn texts_are_read(rt: HostRuntime) -> Result<(), Fail> {
    let reads_outputs = reads_outputs(rt.alloc())?;
    assert!(rt; reads_outputs);
    // A greater right operand stays where it is.
    let text = b"aag 3 2 0 1 1\n2\n4\n7\n6 3 4\n";
    let read = read_aag(rt.alloc(), text)?;
    let is_text = has_text(rt.alloc(), &read, text)?;
    assert!(rt; is_text);
    Ok(())
}

/// Circuits behind which something stands.
const FOLLOWED: [&str; 4] = [
    "aag 1 1 0 0 0\n2\ni0 reset\n",
    "aag 1 1 0 0 0\n2\no",
    "aag 1 1 0 0 0\n2\nc\nmade by hand\n\n 7",
    "aag 1 1 0 0 0\n2\ncomment",
];

#[test]
fn what_follows_is_not_read(rt: HostRuntime) {
    for text in FOLLOWED.iter() {
        assert!(rt; fault_of(rt.alloc(), text).is_none(), "{text}");
    }
}

/// Texts that are no circuit, with the line that is told.
const BAD: [(&str, u64); 46] = [
    // Words of the header.
    ("", 1),
    ("aag", 1),
    ("aag 0 0 0 0 0", 1),
    ("aig 0 0 0 0 0\n", 1),
    (" aag 0 0 0 0 0\n", 1),
    ("aag  0 0 0 0 0\n", 1),
    ("aag 0 0 0 0 0 \n", 1),
    ("aag 0 0 0 0 0\r\n", 1),
    ("aag 0 0 0 0\n", 1),
    ("aag 0 0 0 0 0 0\n", 1),
    ("aag 00 0 0 0 0\n", 1),
    // Numbers of the header.
    ("aag 1 01 0 0 0\n2\n", 1),
    ("aag +0 0 0 0 0\n", 1),
    ("aag 1 0 1 0 0\n2 2\n", 1),
    ("aag 9 1 0 0 0\n2\n", 1),
    ("aag 0 1 0 0 0\n2\n", 1),
    ("aag 4611686018427387904 4611686018427387904 0 0 0\n", 1),
    ("aag 0 0 0 4611686018427387904 0\n", 1),
    ("aag 18446744073709551616 0 0 0 0\n", 1),
    // Inputs.
    ("aag 4611686018427387903 4611686018427387903 0 0 0\n", 2),
    ("aag 1152921504606846976 1152921504606846976 0 0 0\n", 2),
    ("aag 0 0 0 4611686018427387903 0\n", 2),
    ("aag 1 0 0 0 1\n2 2 2\n", 2),
    ("aag 1 1 0 0 0\n3\n", 2),
    ("aag 1 1 0 0 0\n02\n", 2),
    ("aag 1 1 0 0 0\n2 \n", 2),
    ("aag 2 2 0 0 0\n4\n2\n", 2),
    ("aag 2 2 0 0 0\n2\n", 3),
    ("aag 2 2 0 0 0\n2\n4", 3),
    // Outputs.
    ("aag 1 1 0 1 0\n2\n4\n", 3),
    ("aag 1 1 0 1 0\n2\n\n", 3),
    ("aag 1 1 0 1 0\n2\n-2\n", 3),
    ("aag 1 1 0 2 0\n2\n3\n", 4),
    // Gates.
    ("aag 2 1 0 0 1\n2\n4 2\n", 3),
    ("aag 2 1 0 0 1\n2\n4 2 2 2\n", 3),
    ("aag 2 1 0 0 1\n2\n5 2 2\n", 3),
    ("aag 2 1 0 0 1\n2\n4 4 2\n", 3),
    ("aag 2 1 0 0 1\n2\n4 2 5\n", 3),
    ("aag 2 1 0 0 1\n2\n4 1 2\n", 3),
    ("aag 2 1 0 0 1\n2\n4 2 0\n", 3),
    ("aag 2 1 0 0 1\n2\n4 2 2", 3),
    ("aag 3 1 0 0 2\n2\n4 6 2\n6 2 2\n", 3),
    ("aag 3 1 0 0 2\n2\n4 2 2\n4 2 2\n", 4),
    // What follows the gates.
    ("aag 0 0 0 0 0\nx\n", 2),
    ("aag 0 0 0 0 0\n\n", 2),
    ("aag 2 1 0 1 1\n2\n4\n4 2 2\n6 2 2\n", 5),
];

#[test]
fn bad_lines_are_told(rt: HostRuntime) {
    let alloc = rt.alloc();
    for (text, line) in BAD.iter() {
        assert!(rt;
            fault_of(alloc, text) == Some(AagFault::BadCircuit(*line)),
            "{text}"
        );
    }
}
