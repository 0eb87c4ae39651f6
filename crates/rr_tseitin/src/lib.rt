//! The formula of a circuit: Tseitin's clauses of its gates, and its outputs as units (Tseitin, "On
//! the Complexity of Derivation in Propositional Calculus", 1968). It is right where the formula is
//! satisfiable exactly where some input makes every output true. It stands on `rr_circuit` and
//! `rr_cnf`.
#![tactic(auto)]

ghost use Rattle.std.specs.Prelude.{◌≡◌, ℕ, Bool, true, ◌+◌, ◌*◌, ◌^◌, ◌<◌, ◌≤◌, ◌↔◌, ◌++◌, ◌∷◌, [], All, length, IfOk, OnOk};
ghost use Rattle.rr_circuit.specs.Values.{output_values};
ghost use Rattle.rr_cnf.specs.Clauses.{Clauses, IsSatisfiable, IsWithin, Satisfies};
ghost use Rattle.rr_cnf.specs.Codes.{literal_of};
ghost use Rattle.rr_cnf.specs.Partial.{Determined};
ghost use Rattle.rr_tseitin.specs.Tseitin.{formula_of as tseitin, CanBeTrue, MakeOutputsTrue, gate_clauses, output_clauses};

use rr_circuit::{Circuit, Gate, Wire};
use rr_cnf::{Clause, Formula, Lit};
use std::alloc::{AllocError, Global};

/// The literal of a wire that is no constant: AIGER's numbers are those of the literals.
fn lit_of(wire: Wire) -> Lit
    requires low { 2 ≤ wire.0 }
    requires high { wire.0 < 2 ^ 63 }
    ensures { result ≡ literal_of wire.0 }
{
    Lit::new(wire.0 / 2, wire.0 % 2 == 1)
}

/// Adds a clause of these literals.
fn push_lits(alloc: Global, formula: &mut Formula, lits: &[Lit]) -> Result<(), AllocError>
    requires { All (IsWithin formula.old.vars) lits.now }
    ensures { OnOk result (formula.new ≡ record { vars = formula.old.vars; clauses = formula.old.clauses ++ lits.now ∷ [] }) }
{
    formula.push(Clause::from_lits(alloc, lits)?)
}

/// Adds the three clauses that make the variable the conjunction of the gate's operands.
fn push_gate(alloc: Global, formula: &mut Formula, var: u64, gate: Gate) -> Result<(), AllocError>
    requires left_low { 2 ≤ gate.left.0 }
    requires left_high { gate.left.0 < 2 * var }
    requires right_low { 2 ≤ gate.right.0 }
    requires right_high { gate.right.0 < 2 * var }
    requires var { var ≤ formula.old.vars }
    requires fits { var < 2 ^ 62 }
    ensures { OnOk result (formula.new ≡ record { vars = formula.old.vars; clauses = formula.old.clauses ++ gate_clauses var gate }) }
{
    let out = Lit::new(var, false);
    let left = lit_of(gate.left);
    let right = lit_of(gate.right);
    push_lits(alloc, formula, &[out.negated(), left])?;
    push_lits(alloc, formula, &[out.negated(), right])?;
    push_lits(alloc, formula, &[out, left.negated(), right.negated()])
}

/// Adds the unit clause of an output; none where it is true, and the empty one where it is false.
fn push_output(alloc: Global, formula: &mut Formula, wire: Wire) -> Result<(), AllocError>
    requires in_range { wire.0 < 2 * (1 + formula.old.vars) }
    requires fits { wire.0 < 2 ^ 63 }
    ensures { OnOk result (formula.new ≡ record { vars = formula.old.vars; clauses = formula.old.clauses ++ output_clauses wire }) }
{
    match wire.0 {
        0 => push_lits(alloc, formula, &[]),
        1 => Ok(()),
        _ => push_lits(alloc, formula, &[lit_of(wire)]),
    }
}

/// A formula without clauses, with room for those of the circuit.
fn with_room(alloc: Global, circuit: &Circuit) -> Result<Formula, AllocError>
    ensures { IfOk result (λ f. f ≡ record { vars = circuit.now.netlist.inputs + length circuit.now.netlist.gates; clauses = [] }) }
{
    let gates = circuit.gates.len();
    let mut formula = Formula::new(alloc, circuit.inputs + gates as u64);
    let clauses = gates
        .saturating_mul(3)
        .saturating_add(circuit.outputs.len());
    formula.reserve(clauses)?;
    Ok(formula)
}

/// The formula of a circuit (Tseitin's), in which variable v is AIGER's variable v: for each gate
/// a = b AND c in order the clauses (-a b), (-a c), (a -b -c), then for each output in order a unit
/// clause; a true output gives none and a false one the empty clause. The room for all clauses is
/// taken at once.
///
/// It is satisfiable exactly where some inputs make every output true, the variables 1 to I of
/// every assignment that satisfies it are such inputs, and with the variables 1 to I a quiet
/// partial assignment has all variables.
pub fn formula_of(alloc: Global, circuit: &Circuit) -> Result<Formula, AllocError>
    ensures formula { IfOk result (λ f. f ≡ tseitin circuit.now) }
    ensures satisfiable { IfOk result (λ f. IsSatisfiable f.clauses ↔ CanBeTrue circuit.now) }
    ensures inputs { IfOk result (λ f. (a : ℕ → Bool) → Satisfies a f.clauses → MakeOutputsTrue circuit.now (λ i. a (i + 1))) }
    ensures determined { IfOk result (λ f. Determined f circuit.now.netlist.inputs) }
{
    let mut formula = with_room(alloc, circuit)?;
    let mut var = circuit.inputs;
    for gate in &circuit.gates {
        var += 1;
        push_gate(alloc, &mut formula, var, *gate)?;
    }
    for wire in &circuit.outputs {
        push_output(alloc, &mut formula, *wire)?;
    }
    Ok(formula)
}
