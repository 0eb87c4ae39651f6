//! How many gates each rule of the builder makes.
ghost use Rattle.std.specs.Prelude.{◌≡◌, IfOk, OnOk};
ghost use Rattle.rr_circuit.specs.Values.{AreWires, IsWire, Extends};

use rr_circuit::{Builder, Circuit, Wire, write_aag};
use std::alloc::{AllocError, Global};
use std::test::Fail;

/// A wire of a rule: a constant, an input, or what a step of the rule made, counted from 0; or the
/// negation of one. An input or a step that is not there stands for the constant false.
#[derive(Clone, Copy)]
pub(crate) enum Term {
    No,
    Yes,
    Input(u32),
    NotInput(u32),
    Made(usize),
    NotMade(usize),
}

/// A call of the builder.
#[derive(Clone, Copy)]
pub(crate) enum Step {
    And(Term, Term),
    Xor(Term, Term),
    Mux(Term, Term, Term),
}

/// Steps over so many inputs, the wires that the last of them make, and the gates that all make.
pub(crate) struct Rule {
    pub(crate) inputs: u32,
    pub(crate) steps: &'static [Step],
    pub(crate) found: &'static [Term],
    pub(crate) gates: usize,
}

pub(crate) const NO: Term = Term::No;

pub(crate) const YES: Term = Term::Yes;

pub(crate) const X: Term = Term::Input(0);

pub(crate) const NOT_X: Term = Term::NotInput(0);

const Y: Term = Term::Input(1);

const NOT_Y: Term = Term::NotInput(1);

const Z: Term = Term::Input(2);

const NOT_Z: Term = Term::NotInput(2);

fn input(b: &Builder, inputs: u32, number: u32) -> Wire
    requires { b.now.inputs ≡ inputs }
    ensures { IsWire b.now result }
{
    if number < inputs {
        b.input(number)
    } else {
        b.constant(false)
    }
}

fn made_by(b: &Builder, made: &[Wire], step: usize) -> Wire
    requires { AreWires b.now made.now }
    ensures { IsWire b.now result }
{
    match made.get(step) {
        Some(wire) => *wire,
        None => b.constant(false),
    }
}

/// The wire of a term.
fn wire(b: &Builder, inputs: u32, made: &[Wire], term: Term) -> Wire
    requires inputs { b.now.inputs ≡ inputs }
    requires made { AreWires b.now made.now }
    ensures { IsWire b.now result }
{
    match term {
        Term::No => b.constant(false),
        Term::Yes => b.constant(true),
        Term::Input(number) => input(b, inputs, number),
        Term::NotInput(number) => b.not(input(b, inputs, number)),
        Term::Made(step) => made_by(b, made, step),
        Term::NotMade(step) => b.not(made_by(b, made, step)),
    }
}

/// What a step makes behind the others.
fn make(b: &mut Builder, inputs: u32, made: &[Wire], step: Step) -> Result<Wire, AllocError>
    requires inputs { b.old.inputs ≡ inputs }
    requires made { AreWires b.old made.now }
    ensures extends { Extends b.old b.new }
    ensures wire { IfOk result (λ w. IsWire b.new w) }
{
    match step {
        Step::And(x, y) => {
            let (x, y) = (wire(b, inputs, made, x), wire(b, inputs, made, y));
            b.and(x, y)
        }
        Step::Xor(x, y) => {
            let (x, y) = (wire(b, inputs, made, x), wire(b, inputs, made, y));
            b.xor(x, y)
        }
        Step::Mux(test, yes, no) => {
            let test = wire(b, inputs, made, test);
            let (yes, no) = (wire(b, inputs, made, yes), wire(b, inputs, made, no));
            b.mux(test, yes, no)
        }
    }
}

fn make_all(
    b: &mut Builder,
    inputs: u32,
    made: &mut Vec<Wire>,
    steps: &[Step],
) -> Result<(), AllocError>
    requires inputs { b.old.inputs ≡ inputs }
    requires made { AreWires b.old made.old.items }
    ensures inputs { b.new.inputs ≡ inputs }
    ensures made { OnOk result (AreWires b.new made.new.items) }
{
    for step in steps {
        let wire = make(b, inputs, made.as_slice(), *step)?;
        made.push(wire)?;
    }
    Ok(())
}

/// Whether these are the last wires that were made.
fn are_last(b: &Builder, inputs: u32, made: &[Wire], found: &[Term]) -> bool
    requires inputs { b.now.inputs ≡ inputs }
    requires made { AreWires b.now made.now }
{
    let first = made.len().saturating_sub(found.len());
    for (at, term) in found.iter().enumerate() {
        let wire = wire(b, inputs, made, *term);
        if made.get(first.saturating_add(at)) != Some(&wire) {
            return false;
        }
    }
    true
}

fn makes_its_wires(alloc: Global, b: &mut Builder, rule: &Rule) -> Result<bool, AllocError>
    requires { b.old.inputs ≡ rule.now.inputs }
{
    let mut made = Vec::new(alloc);
    make_all(b, rule.inputs, &mut made, rule.steps)?;
    Ok(are_last(b, rule.inputs, made.as_slice(), rule.found))
}

/// The number of gates that a builder has.
fn gates(alloc: Global, b: Builder) -> usize {
    b.finish(Vec::new(alloc)).gates.len()
}

/// Whether the steps of a rule make the wires, and the gates, that it says.
pub(crate) fn holds(alloc: Global, rule: &Rule) -> Result<bool, AllocError> {
    let mut b = Builder::new(alloc, rule.inputs)?;
    let makes_its_wires = makes_its_wires(alloc, &mut b, rule);
    let gates = gates(alloc, b);
    Ok(makes_its_wires? && gates == rule.gates)
}

const ABSORBED: Rule = Rule {
    inputs: 2,
    steps: &[
        Step::And(X, Y),
        Step::And(X, Term::Made(0)),
        Step::And(Term::Made(0), Y),
        Step::And(NOT_X, Term::Made(0)),
        Step::And(Term::Made(0), NOT_Y),
        Step::And(NOT_X, Term::NotMade(0)),
        Step::And(Term::NotMade(0), NOT_Y),
    ],
    found: &[Term::Made(0), Term::Made(0), NO, NO, NOT_X, NOT_Y],
    gates: 1,
};

#[test]
fn an_operand_of_a_gate_absorbs_it(rt: HostRuntime) -> Result<(), Fail> {
    assert!(rt; holds(rt.alloc(), &ABSORBED)?);
    Ok(())
}

/// Of `x & y`, `x & !y` and `y & !x` the first one negated, beside an operand, is one of the others.
const NEGATED: Rule = Rule {
    inputs: 2,
    steps: &[
        Step::And(X, Y),
        Step::And(X, NOT_Y),
        Step::And(Y, NOT_X),
        Step::And(X, Term::NotMade(0)),
        Step::And(Term::NotMade(0), X),
        Step::And(Y, Term::NotMade(0)),
        Step::And(Term::NotMade(0), Y),
    ],
    found: &[Term::Made(1), Term::Made(1), Term::Made(2), Term::Made(2)],
    gates: 3,
};

#[test]
fn a_negated_gate_beside_its_operand_is_the_other_one_negated(rt: HostRuntime) -> Result<(), Fail> {
    assert!(rt; holds(rt.alloc(), &NEGATED)?);
    Ok(())
}

const EXCLUSIVE: Rule = Rule {
    inputs: 2,
    steps: &[
        Step::Xor(X, Y),
        Step::Xor(Y, X),
        Step::Xor(NOT_X, NOT_Y),
        Step::Xor(NOT_X, Y),
        Step::Xor(X, NOT_Y),
        Step::Mux(X, Y, NOT_Y),
        Step::Mux(X, NOT_Y, Y),
    ],
    found: &[
        Term::Made(0),
        Term::Made(0),
        Term::NotMade(0),
        Term::NotMade(0),
        Term::NotMade(0),
        Term::Made(0),
    ],
    gates: 3,
};

#[test]
fn an_exclusive_or_and_its_negations_share_three_gates(rt: HostRuntime) -> Result<(), Fail> {
    assert!(rt; holds(rt.alloc(), &EXCLUSIVE)?);
    Ok(())
}

/// Choices by the first input.
const WITHOUT_GATES: Rule = Rule {
    inputs: 2,
    steps: &[
        Step::Xor(Y, NO),
        Step::Xor(YES, Y),
        Step::Xor(Y, Y),
        Step::Xor(Y, NOT_Y),
        Step::Mux(X, Y, Y),
        Step::Mux(YES, Y, X),
        Step::Mux(NO, X, NOT_Y),
        Step::Mux(X, YES, NO),
        Step::Mux(X, NO, YES),
    ],
    found: &[Y, NOT_Y, NO, YES, Y, Y, NOT_Y, X, NOT_X],
    gates: 0,
};

#[test]
fn constants_and_equal_wires_need_no_gate(rt: HostRuntime) -> Result<(), Fail> {
    assert!(rt; holds(rt.alloc(), &WITHOUT_GATES)?);
    Ok(())
}

/// Choices by the first input, of the second one and a constant, and then of the second one and the
/// first.
const SHORT_CHOICES: Rule = Rule {
    inputs: 2,
    steps: &[
        Step::Mux(X, Y, YES),
        Step::Mux(X, YES, Y),
        Step::Mux(X, NO, Y),
        Step::Mux(X, Y, NO),
        Step::Mux(X, Y, NOT_X),
        Step::Mux(X, X, Y),
        Step::Mux(X, NOT_X, Y),
        Step::Mux(X, Y, X),
    ],
    found: &[Term::Made(0), Term::Made(1), Term::Made(2), Term::Made(3)],
    gates: 4,
};

#[test]
fn a_choice_of_a_constant_or_of_its_test_is_one_gate(rt: HostRuntime) -> Result<(), Fail> {
    assert!(rt; holds(rt.alloc(), &SHORT_CHOICES)?);
    Ok(())
}

/// Choices by the first input.
const CHOICES: Rule = Rule {
    inputs: 3,
    steps: &[
        Step::Mux(X, Y, Z),
        Step::Mux(NOT_X, Z, Y),
        Step::Mux(X, NOT_Y, NOT_Z),
        Step::Mux(NOT_X, NOT_Z, NOT_Y),
    ],
    found: &[Term::Made(0), Term::NotMade(0), Term::NotMade(0)],
    gates: 3,
};

#[test]
fn a_choice_and_its_negation_share_three_gates(rt: HostRuntime) -> Result<(), Fail> {
    assert!(rt; holds(rt.alloc(), &CHOICES)?);
    Ok(())
}

/// Outputs that need two of four gates.
fn few_needed(alloc: Global, b: &mut Builder) -> Result<Vec<Wire>, AllocError>
    requires { b.old.inputs ≡ 3 }
    ensures { IfOk result (λ r. AreWires b.new r.items) }
{
    let (x, y, z) = (b.input(0), b.input(1), b.input(2));
    let unused = b.and(x, y)?;
    let below = b.or(y, z)?;
    let _above_unused = b.and(unused, z)?;
    let top = b.and(x, below)?;
    let (not_top, no) = (b.not(top), b.constant(false));
    Vec::from_slice(alloc, &[not_top, z, no])
}

fn circuit_of_few(alloc: Global) -> Result<Circuit, AllocError> {
    let mut b = Builder::new(alloc, 3)?;
    let outputs = few_needed(alloc, &mut b)?;
    Ok(b.finish(outputs))
}

/// The text of a circuit without the gates that no output needs.
fn swept_text(alloc: Global, circuit: &Circuit) -> Result<Vec<u8>, AllocError> {
    let swept = circuit.swept(alloc)?;
    write_aag(alloc, &swept)
}

#[test]
fn gates_that_no_output_needs_are_swept(rt: HostRuntime) -> Result<(), Fail> {
    let circuit = circuit_of_few(rt.alloc())?;
    assert!(rt; circuit.gates.len() == 4);
    let text = swept_text(rt.alloc(), &circuit)?;
    assert!(rt; text.as_slice() == b"aag 5 3 0 3 2\n2\n4\n6\n11\n6\n0\n8 7 5\n10 9 2\n".as_slice());
    Ok(())
}

/// An output that needs each gate.
fn all_needed(alloc: Global, b: &mut Builder) -> Result<Vec<Wire>, AllocError>
    requires { b.old.inputs ≡ 2 }
    ensures { IfOk result (λ r. AreWires b.new r.items) }
{
    let differ = b.xor(b.input(0), b.input(1))?;
    Vec::from_slice(alloc, &[differ])
}

fn circuit_of_all(alloc: Global) -> Result<Circuit, AllocError> {
    let mut b = Builder::new(alloc, 2)?;
    let outputs = all_needed(alloc, &mut b)?;
    Ok(b.finish(outputs))
}

/// Whether a circuit is the same without the gates that no output needs.
fn is_swept(alloc: Global, circuit: &Circuit) -> Result<bool, AllocError> {
    let text = swept_text(alloc, circuit)?;
    let whole = write_aag(alloc, circuit)?;
    Ok(text == whole)
}

#[test]
fn a_circuit_without_needless_gates_is_swept_to_itself(rt: HostRuntime) -> Result<(), Fail> {
    let circuit = circuit_of_all(rt.alloc())?;
    let is_swept = is_swept(rt.alloc(), &circuit)?;
    assert!(rt; is_swept);
    Ok(())
}
