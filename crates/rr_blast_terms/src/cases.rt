//! Labels on wires (IEEE 1364-2005 section 9.5).
ghost use Rattle.std.specs.Prelude.{◌≡◌, ◌≤◌, ℕ, Bool, false, None, [], IfOk, length};
ghost use Rattle.rr_circuit.specs.Values.{Extends, IsWire, AreWires, wire_value, wire_values};
ghost use Rattle.rr_syntax.specs.View.{plain, plain_list};
ghost use Rattle.rr_expr.specs.Faults.{fault};
ghost use Rattle.rr_expr.specs.Values.{form, value as value_of};
ghost use Rattle.rr_flat.specs.Shapes.{list_faults};
ghost use Rattle.rr_instance.specs.Instances.{instance_parts, instance_tree};
ghost use Rattle.rr_cycle.specs.Exec.{is_equal, is_matched as matches, wild};
ghost use Rattle.rr_exec.specs.Work.{AreNarrow};
ghost use Rattle.rr_signal_wires.specs.Words.{AreWords, Holds, carried, widths_of};
ghost use Rattle.rr_blast_terms.specs.Choosing.{IsReady, picks_of};

use crate::choice::ChoiceWires;
use crate::expression::{wild_wires, wires};
use rr_circuit::{Builder, Wire};
use rr_expr::{Scope, Shape};
use rr_syntax::{Expr, Keyword};
use rr_word_gates::{Connective, bitwise, inverted, of_all};
use std::alloc::{AllocError, Global};

/// Whether two words are equal but for wild places. All have one width.
fn equal_but(
    alloc: Global,
    b: &mut Builder,
    wilds: &[Wire],
    xs: &[Wire],
    ys: &[Wire],
) -> Result<Wire, AllocError>
    requires wilds { AreWires b.old wilds.now }
    requires xs { AreWires b.old xs.now }
    requires ys { AreWires b.old ys.now }
    requires one { length wilds.now ≡ length xs.now }
    requires two { length ys.now ≡ length xs.now }
    ensures extends { Extends b.old b.new }
    ensures wire { IfOk result (λ w. IsWire b.new w) }
    ensures value { IfOk result (λ w. (env : ℕ → Bool) → wire_value b.new env w ≡ is_equal (wire_values b.old env wilds.now) (wire_values b.old env xs.now) (wire_values b.old env ys.now)) }
{
    let apart = bitwise(alloc, b, Connective::Xor, xs, ys)?;
    let fixed = inverted(alloc, b, wilds)?;
    let seen = bitwise(
        alloc,
        b,
        Connective::And,
        apart.as_slice(),
        fixed.as_slice(),
    )?;
    let any = of_all(b, Connective::Or, seen.as_slice())?;
    Ok(b.not(any))
}

/// A `case` that is compared: its kind, the shape in which it compares, and its selector's wires.
#[derive(Clone, Copy)]
pub struct Selector<'a> {
    pub kind: Keyword,
    pub shape: Shape,
    pub value: &'a [Wire],
}

/// Whether a label's instance is equal to the selector's value.
fn is_label(
    alloc: Global,
    b: &mut Builder,
    selector: &Selector,
    label: &Expr,
    scope: &Scope,
    words: &[Vec<Wire>],
    choice: &ChoiceWires,
) -> Result<Wire, AllocError>
    requires selector { AreWires b.old selector.now.value.now }
    requires width { length selector.now.value.now ≡ selector.now.shape.width }
    requires high { selector.now.shape.width ≤ 128 }
    requires shaped { fault scope.now (plain label.now) false ≡ None }
    requires narrow { (form scope.now (plain label.now)).width ≤ selector.now.shape.width }
    requires words { AreWords b.old words.now }
    requires holds { Holds scope.now (widths_of words.now) }
    requires choice { IsReady b.old choice.now }
    ensures extends { Extends b.old b.new }
    ensures wire { IfOk result (λ w. IsWire b.new w) }
    ensures value { IfOk result (λ w. (env : ℕ → Bool) → wire_value b.new env w
        ≡ is_equal (wild selector.now.kind.0 (instance_tree choice.now.sites.now (picks_of b.old env choice.now) (plain label.now)) selector.now.shape.width) (wire_values b.old env selector.now.value.now)
        (value_of scope.now (instance_tree choice.now.sites.now (picks_of b.old env choice.now) (plain label.now)) (carried b.old env words.now) selector.now.shape.width selector.now.shape.signed)) }
{
    let shape = selector.shape;
    let wilds = wild_wires(alloc, b, selector.kind, label, choice, shape.width)?;
    let word = wires(
        alloc,
        b,
        label,
        scope,
        words,
        choice,
        shape.width,
        shape.signed,
    )?;
    let wire = equal_but(alloc, b, wilds.as_slice(), selector.value, word.as_slice())?;
    Ok(wire)
}

/// Whether one of the labels' instances is.
pub fn is_matched(
    alloc: Global,
    b: &mut Builder,
    selector: &Selector,
    labels: &[Expr],
    scope: &Scope,
    words: &[Vec<Wire>],
    choice: &ChoiceWires,
) -> Result<Wire, AllocError>
    requires selector { AreWires b.old selector.now.value.now }
    requires width { length selector.now.value.now ≡ selector.now.shape.width }
    requires high { selector.now.shape.width ≤ 128 }
    requires shaped { list_faults scope.now (plain_list labels.now) ≡ [] }
    requires narrow { AreNarrow scope.now selector.now.shape.width (plain_list labels.now) }
    requires words { AreWords b.old words.now }
    requires holds { Holds scope.now (widths_of words.now) }
    requires choice { IsReady b.old choice.now }
    ensures extends { Extends b.old b.new }
    ensures wire { IfOk result (λ w. IsWire b.new w) }
    ensures value { IfOk result (λ w. (env : ℕ → Bool) → wire_value b.new env w
        ≡ matches scope.now selector.now.kind.0 selector.now.shape (wire_values b.old env selector.now.value.now) (instance_parts choice.now.sites.now (picks_of b.old env choice.now) (plain_list labels.now)) (carried b.old env words.now)) }
{
    let mut found = b.constant(false);
    for label in labels.iter() {
        let here = is_label(alloc, b, selector, label, scope, words, choice)?;
        found = b.or(found, here)?;
    }
    Ok(found)
}
