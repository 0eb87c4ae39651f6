//! Searches on circuits, whose inputs determine all other variables; each answer is checked.
ghost use Rattle.std.specs.Prelude.{◌≡◌, ◌≤◌, ◌+◌, ◌*◌, length, IfOk};
ghost use Rattle.rr_circuit.specs.Values.{AreWires};

use crate::helpers::none_fails;
use crate::solver::{Ending, end_of};
use rr_arith::{equal, mul};
use rr_circuit::{Builder, Circuit, Wire};
use rr_tseitin::formula_of;
use std::alloc::Global;
use std::test::Fail;

/// Inputs of a builder from this number on.
fn word(alloc: Global, builder: &Builder, from: u32, count: u32) -> Result<Vec<Wire>, Fail>
    requires there { from + count ≤ builder.now.inputs }
    requires few { from + count ≤ 1000 }
    ensures wires { IfOk result (λ r. AreWires builder.now r.items) }
    ensures count { IfOk result (λ r. length r.items ≡ count) }
{
    let mut wires = Vec::new(alloc);
    for number in 0..count {
        wires.push(builder.input(from + number))?;
    }
    Ok(wires)
}

/// What is asked of words x and y.
enum Question {
    /// Whether x * y and y * x differ.
    Differing,
    /// Whether x * y is x, and x is not y.
    Absorbing,
}

/// The outputs of a question, which all have to be true.
fn outputs(
    alloc: Global,
    builder: &mut Builder,
    question: &Question,
    x: &[Wire],
    y: &[Wire],
) -> Result<Vec<Wire>, Fail>
    requires x { AreWires builder.old x.now }
    requires y { AreWires builder.old y.now }
    requires widths { length x.now ≡ length y.now }
    requires width { length x.now ≤ 32 }
    ensures inputs { builder.new.inputs ≡ builder.old.inputs }
    ensures wires { IfOk result (λ r. AreWires builder.new r.items) }
{
    let product = mul(alloc, builder, x, y)?;
    match question {
        Question::Differing => {
            let other = mul(alloc, builder, y, x)?;
            let same = equal(builder, &product, &other)?;
            Ok(vec![in alloc; builder.not(same)]?)
        }
        Question::Absorbing => {
            let absorbed = equal(builder, &product, x)?;
            let same = equal(builder, x, y)?;
            Ok(vec![in alloc; absorbed, builder.not(same)]?)
        }
    }
}

/// The same, where the words are the inputs.
fn asked(
    alloc: Global,
    builder: &mut Builder,
    question: &Question,
    width: u32,
) -> Result<Vec<Wire>, Fail>
    requires inputs { builder.old.inputs ≡ 2 * width }
    requires width { width ≤ 32 }
    ensures inputs { builder.new.inputs ≡ builder.old.inputs }
    ensures wires { IfOk result (λ r. AreWires builder.new r.items) }
{
    let x = word(alloc, builder, 0, width)?;
    let y = word(alloc, builder, width, width)?;
    outputs(alloc, builder, question, &x, &y)
}

/// The circuit of a question, on words of this width.
fn circuit(alloc: Global, question: &Question, width: u32) -> Result<Circuit, Fail>
    requires { width ≤ 32 }
    ensures { IfOk result (λ c. c.netlist.inputs ≡ 2 * width) }
{
    let mut builder = Builder::new(alloc, 2 * width)?;
    let outputs = asked(alloc, &mut builder, question, width)?;
    Ok(builder.finish(outputs))
}

/// How the search on the inputs of a circuit ends.
fn end(alloc: Global, circuit: &Circuit) -> Result<Ending, Fail> {
    let formula = formula_of(alloc, circuit)?;
    end_of(alloc, &formula, circuit.inputs, 100_000)
}

/// The first width to 5 at which this is answered otherwise: that x * y and y * x differ is refuted, and x and y
/// are found for which x * y is x.
fn first_otherwise(alloc: Global, question: &Question) -> Result<Option<u32>, Fail> {
    for width in 1..6 {
        let ending = end(alloc, &circuit(alloc, question, width)?)?;
        let is_right = match question {
            Question::Differing => matches!(ending, Ending::Refuted(_)),
            Question::Absorbing => ending == Ending::Model,
        };
        if !is_right {
            return Ok(Some(width));
        }
    }
    Ok(None)
}

#[test]
fn ends_on_circuits(rt: HostRuntime) -> Result<(), Fail> {
    none_fails(first_otherwise(rt.alloc(), &Question::Differing)?)?;
    none_fails(first_otherwise(rt.alloc(), &Question::Absorbing)?)
}
