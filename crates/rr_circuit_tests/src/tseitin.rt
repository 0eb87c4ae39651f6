//! Formulas of small circuits, as the definition writes them by hand.
use crate::circuit::PAIRS;
use rr_circuit::{Circuit, read_aag};
use rr_cnf::{Formula, write_dimacs};
use rr_tseitin::formula_of;
use std::alloc::{AllocError, Global};
use std::test::Fail;

/// Circuits with their formulas: a conjunction; signs, and an output twice; the constants as outputs;
/// inputs as outputs; and no outputs.
const TEXTS: [(&[u8], &[u8]); 5] = [
    (
        b"aag 3 2 0 1 1\n2\n4\n6\n6 4 2\n",
        b"p cnf 3 4\n-3 2 0\n-3 1 0\n3 -2 -1 0\n3 0\n",
    ),
    (
        b"aag 4 2 0 2 2\n2\n4\n9\n9\n6 5 2\n8 7 3\n",
        b"p cnf 4 8\n-3 -2 0\n-3 1 0\n3 2 -1 0\n-4 -3 0\n-4 -1 0\n4 3 1 0\n-4 0\n-4 0\n",
    ),
    (b"aag 0 0 0 3 0\n1\n0\n1\n", b"p cnf 0 1\n0\n"),
    (b"aag 2 2 0 3 0\n2\n4\n2\n5\n1\n", b"p cnf 2 2\n1 0\n-2 0\n"),
    (b"aag 1 1 0 0 0\n2\n", b"p cnf 1 0\n"),
];

/// Whether a circuit has the formula that a text gives.
fn is_formula_of(alloc: Global, circuit: &Circuit, formula: &[u8]) -> Result<bool, AllocError> {
    let made = formula_of(alloc, circuit)?;
    let text = write_dimacs(alloc, &made)?;
    Ok(text.as_slice() == formula)
}

/// Whether the circuit that a text gives has the formula that another text gives.
fn has_formula(alloc: Global, circuit: &[u8], formula: &[u8]) -> Result<bool, Fail> {
    let circuit = read_aag(alloc, circuit)?;
    Ok(is_formula_of(alloc, &circuit, formula)?)
}

#[test]
fn writes_gates_and_outputs(rt: HostRuntime) -> Result<(), Fail> {
    let alloc = rt.alloc();
    for (at, (circuit, formula)) in TEXTS.iter().enumerate() {
        assert!(rt; has_formula(alloc, circuit, formula)?, "the circuit {at}");
    }
    Ok(())
}

/// The value of a literal where variables have these values.
fn literal_value(values: &[bool], literal: u64) -> bool {
    let value = values.get((literal / 2) as usize).copied().unwrap_or(false);
    value != (literal % 2 == 1)
}

/// The values of all variables for these inputs; variable 0 is false.
fn values_of(alloc: Global, circuit: &Circuit, inputs: &[bool]) -> Result<Vec<bool>, Fail> {
    let mut values = Vec::new(alloc);
    values.push(false)?;
    values.extend_from_slice(inputs)?;
    for gate in &circuit.gates {
        let left = literal_value(&values, gate.left.0);
        let right = literal_value(&values, gate.right.0);
        values.push(left && right)?;
    }
    Ok(values)
}

/// Whether each clause has a literal that is true.
fn is_satisfied(formula: &Formula, values: &[bool]) -> bool {
    (1..=formula.len()).all(|id| match formula.clause(id) {
        Some(clause) => clause.lits().iter().any(|lit| values.get(lit.var() as usize)
            == Some(&!lit.is_negative())),
        None => false,
    })
}

/// Whether the formula of an exclusive or is satisfied exactly where the inputs differ.
fn agrees(
    alloc: Global,
    circuit: &Circuit,
    formula: &Formula,
    a: bool,
    b: bool,
) -> Result<bool, Fail> {
    let values = values_of(alloc, circuit, &[a, b])?;
    Ok(is_satisfied(formula, &values) == (a != b))
}

fn agrees_on_all(alloc: Global, circuit: &Circuit, formula: &Formula) -> Result<bool, Fail> {
    for (a, b) in PAIRS.iter() {
        if !agrees(alloc, circuit, formula, *a, *b)? {
            return Ok(false);
        }
    }
    Ok(true)
}

fn agrees_with(alloc: Global, circuit: &Circuit) -> Result<bool, Fail> {
    let formula = formula_of(alloc, circuit)?;
    agrees_on_all(alloc, circuit, &formula)
}

#[test]
fn agrees_with_a_circuit(rt: HostRuntime) -> Result<(), Fail> {
    let circuit = read_aag(
        rt.alloc(),
        b"aag 5 2 0 1 3\n2\n4\n10\n6 4 2\n8 5 3\n10 9 7\n",
    )?;
    let agrees = agrees_with(rt.alloc(), &circuit)?;
    assert!(rt; agrees);
    Ok(())
}
