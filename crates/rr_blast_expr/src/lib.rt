//! Expressions as gates: the wires of an expression's value over the wires of the signals, for each
//! choice among the changes of its sites. It is right where for every input the wires carry the value
//! that `rr_expr` gives to the instance of the expression, by `rr_instance`'s definition, in the
//! environment that the signals' wires carry. It stands on `rr_word_gates`' operations on words,
//! `rr_circuit`'s builder, `rr_expr`'s shapes and constants and `rr_choice`'s sites. After an error,
//! which is want of memory or of numbers for gates, the wires that were there keep their values.
#![tactic(auto)]

ghost use Rattle.std.specs.Prelude.{◌≡◌, ℕ, Bool, ◌≤◌, None, false, IfOk, length};
ghost use Rattle.rr_circuit.specs.Values.{IsWire, AreWires, wire_value, wire_values, Extends};
ghost use Rattle.rr_syntax.specs.View.{plain};
ghost use Rattle.rr_expr.specs.Faults.{fault};
ghost use Rattle.rr_expr.specs.Scopes.{env_of_lists};
ghost use Rattle.rr_expr.specs.Values.{form, value as value_of, own};
ghost use Rattle.rr_choice.specs.Choices.{decode, total_bits};
ghost use Rattle.rr_instance.specs.Instances.{instance_tree, instance_test};
ghost use Rattle.rr_instance_laws.specs.Truth.{is_true as is_true_in};
ghost use Rattle.rr_blast_sites.specs.Signals.{AreSignals, signal_values};

mod expressions;
mod operands;
mod shapes;

use expressions::{is_true, own_word, word_in};
use operands::no_sites;
use rr_blast_sites::{Inputs, test_wire};
use rr_choice::SiteList;
use rr_circuit::{Builder, Wire};
use rr_expr::{Scope, Shape};
use rr_syntax::Expr;
use std::alloc::{AllocError, Global};

/// The wires of an expression that has a shape, in a context of a width and a sign: for every input the
/// value of the expression's instance by the choice that the wires of `choice` write, in the environment
/// that the wires of the signals carry. The width is at least the expression's own and at most 128.
/// There is one list of wires for each signal, and one wire for each bit of the choice.
pub fn wires<'a>(
    alloc: Global,
    b: &mut Builder,
    expr: &Expr,
    scope: &'a Scope<'a>,
    signals: &'a [Vec<Wire>],
    list: &'a SiteList<'a>,
    choice: &'a [Wire],
    width: u32,
    signed: bool,
) -> Result<Vec<Wire>, AllocError>
    requires signals { AreSignals b.old signals.now }
    requires choice { AreWires b.old choice.now }
    requires room { length choice.now ≡ total_bits list.now }
    requires none { fault scope.now (plain expr.now) false ≡ None }
    requires low { (form scope.now (plain expr.now)).width ≤ width }
    requires high { width ≤ 128 }
    ensures extends { Extends b.old b.new }
    ensures wires { IfOk result (λ r. AreWires b.new r.items) }
    ensures width { IfOk result (λ r. length r.items ≡ width) }
    ensures value { IfOk result (λ r. (input : ℕ → Bool) →
        wire_values b.new input r.items
        ≡ value_of scope.now (instance_tree list.now (decode list.now (wire_values b.old input choice.now)) (plain expr.now)) (env_of_lists (signal_values b.old input signals.now)) width signed) }
{
    let inputs = Inputs {
        scope,
        signals,
        sites: list,
        choice,
        still: false,
    };
    let context = Shape { width, signed };
    let out = word_in(alloc, b, expr, &inputs, context)?;
    Ok(out)
}

/// The wires of an expression that has a shape, by itself and as it stands in the source: for every
/// input its own value in the environment that the wires of the signals carry. So is the index of a
/// target, which stays in each instance.
pub fn own_wires<'a>(
    alloc: Global,
    b: &mut Builder,
    expr: &Expr,
    scope: &'a Scope<'a>,
    signals: &'a [Vec<Wire>],
) -> Result<Vec<Wire>, AllocError>
    requires signals { AreSignals b.old signals.now }
    requires none { fault scope.now (plain expr.now) false ≡ None }
    ensures extends { Extends b.old b.new }
    ensures wires { IfOk result (λ r. AreWires b.new r.items) }
    ensures width { IfOk result (λ r. length r.items ≡ (form scope.now (plain expr.now)).width) }
    ensures value { IfOk result (λ r. (input : ℕ → Bool) →
        wire_values b.new input r.items ≡ own scope.now (plain expr.now) (env_of_lists (signal_values b.old input signals.now))) }
{
    let list = no_sites(alloc);
    let inputs = Inputs {
        scope,
        signals,
        sites: &list,
        choice: &[],
        still: false,
    };
    let out = own_word(alloc, b, expr, &inputs)?;
    Ok(out)
}

/// The wire of a condition that has a shape: for every input whether the condition's instance, with the
/// guard that the choice puts round it, is true. There is one list of wires for each signal, and one
/// wire for each bit of the choice.
pub fn condition<'a>(
    alloc: Global,
    b: &mut Builder,
    test: &Expr,
    scope: &'a Scope<'a>,
    signals: &'a [Vec<Wire>],
    list: &'a SiteList<'a>,
    choice: &'a [Wire],
) -> Result<Wire, AllocError>
    requires signals { AreSignals b.old signals.now }
    requires choice { AreWires b.old choice.now }
    requires room { length choice.now ≡ total_bits list.now }
    requires none { fault scope.now (plain test.now) false ≡ None }
    ensures extends { Extends b.old b.new }
    ensures wire { IfOk result (λ w. IsWire b.new w) }
    ensures value { IfOk result (λ w. (input : ℕ → Bool) →
        wire_value b.new input w
        ≡ is_true_in scope.now (instance_test list.now (decode list.now (wire_values b.old input choice.now)) (plain test.now)) (env_of_lists (signal_values b.old input signals.now))) }
{
    let inputs = Inputs {
        scope,
        signals,
        sites: list,
        choice,
        still: false,
    };
    let before = is_true(alloc, b, test, &inputs)?;
    let out = test_wire(b, test, before, &inputs)?;
    Ok(out)
}
