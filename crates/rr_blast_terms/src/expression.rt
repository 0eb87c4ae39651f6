//! Expressions of statements on wires: those of `rr_blast_expr` over a choice and the words of the
//! signals, and the wild places of labels.
ghost use Rattle.std.specs.Prelude.{◌≡◌, ◌≤◌, ℕ, Bool, false, None, IfOk, length};
ghost use Rattle.rr_circuit.specs.Values.{Extends, IsWire, AreWires, wire_value, wire_values};
ghost use Rattle.rr_syntax.specs.View.{plain};
ghost use Rattle.rr_expr.specs.Faults.{fault};
ghost use Rattle.rr_expr.specs.Scopes.{Names};
ghost use Rattle.rr_expr.specs.Values.{form, own, value};
ghost use Rattle.rr_instance.specs.Instances.{instance_tree, instance_test};
ghost use Rattle.rr_cycle.specs.Exec.{is_true, wild as wild_of};
ghost use Rattle.rr_blast_terms.specs.Wild.{changes as changes_of};
ghost use Rattle.rr_signal_wires.specs.Words.{AreWords, carried};
ghost use Rattle.rr_blast_terms.specs.Choosing.{IsReady, picks_of};

use crate::choice::ChoiceWires;
use rr_bits::Bits;
use rr_blast_expr::{condition, own_wires as own_wires_of, wires as wires_of};
use rr_blast_sites::literal_changes;
use rr_circuit::{Builder, Wire};
use rr_exec::wild;
use rr_expr::Scope;
use rr_syntax::{Expr, Keyword};
use rr_word_gates::{chosen, constants};
use std::alloc::{AllocError, Global};

/// The value of an expression's instance in a context of a width and a sign.
pub fn wires(
    alloc: Global,
    b: &mut Builder,
    expr: &Expr,
    scope: &Scope,
    words: &[Vec<Wire>],
    choice: &ChoiceWires,
    width: u32,
    signed: bool,
) -> Result<Vec<Wire>, AllocError>
    requires shaped { fault scope.now (plain expr.now) false ≡ None }
    requires low { (form scope.now (plain expr.now)).width ≤ width }
    requires high { width ≤ 128 }
    requires words { AreWords b.old words.now }
    requires choice { IsReady b.old choice.now }
    ensures extends { Extends b.old b.new }
    ensures wires { IfOk result (λ r. AreWires b.new r.items) }
    ensures value { IfOk result (λ r. (env : ℕ → Bool) → wire_values b.new env r.items
        ≡ value scope.now (instance_tree choice.now.sites.now (picks_of b.old env choice.now) (plain expr.now)) (carried b.old env words.now) width signed) }
{
    let out = wires_of(
        alloc,
        b,
        expr,
        scope,
        words,
        choice.sites,
        choice.wires,
        width,
        signed,
    )?;
    Ok(out)
}

/// The value of an expression by itself, as it stands in the source.
pub(crate) fn own_wires(
    alloc: Global,
    b: &mut Builder,
    expr: &Expr,
    scope: &Scope,
    words: &[Vec<Wire>],
) -> Result<Vec<Wire>, AllocError>
    requires shaped { fault scope.now (plain expr.now) false ≡ None }
    requires words { AreWords b.old words.now }
    ensures extends { Extends b.old b.new }
    ensures wires { IfOk result (λ r. AreWires b.new r.items) }
    ensures width { IfOk result (λ r. length r.items ≡ (form scope.now (plain expr.now)).width) }
    ensures value { IfOk result (λ r. (env : ℕ → Bool) → wire_values b.new env r.items
        ≡ own scope.now (plain expr.now) (carried b.old env words.now)) }
{
    let out = own_wires_of(alloc, b, expr, scope, words)?;
    Ok(out)
}

/// Whether the instance of a condition is true.
pub fn test(
    alloc: Global,
    b: &mut Builder,
    expr: &Expr,
    scope: &Scope,
    words: &[Vec<Wire>],
    choice: &ChoiceWires,
) -> Result<Wire, AllocError>
    requires shaped { fault scope.now (plain expr.now) false ≡ None }
    requires words { AreWords b.old words.now }
    requires choice { IsReady b.old choice.now }
    ensures extends { Extends b.old b.new }
    ensures wire { IfOk result (λ w. IsWire b.new w) }
    ensures value { IfOk result (λ w. (env : ℕ → Bool) → wire_value b.new env w
        ≡ is_true scope.now (instance_test choice.now.sites.now (picks_of b.old env choice.now) (plain expr.now)) (carried b.old env words.now)) }
{
    let out = condition(alloc, b, expr, scope, words, choice.sites, choice.wires)?;
    Ok(out)
}

/// Whether the choice changes the literal that a label is.
#[tactic(auto, using(crate::proofs::WildLaws::change_nodes))]
fn changes(b: &Builder, label: &Expr, choice: &ChoiceWires) -> Wire
    requires choice { IsReady b.now choice.now }
    ensures wire { IsWire b.now result }
    ensures value { (env : ℕ → Bool) → wire_value b.now env result ≡ changes_of choice.now.sites.now (picks_of b.now env choice.now) (plain label.now) }
{
    match label {
        Expr::Paren { of } => changes(b, of, choice),
        Expr::Literal { token, .. } => literal_changes(b, *token, choice.sites, choice.wires),
        Expr::Name { .. }
        | Expr::Bit { .. }
        | Expr::Part { .. }
        | Expr::Indexed { .. }
        | Expr::Unary { .. }
        | Expr::Binary { .. }
        | Expr::Cond { .. }
        | Expr::Concat { .. }
        | Expr::Repeat { .. }
        | Expr::Cast { .. } => b.constant(false),
    }
}

/// The places of a label's instance that match anything, up to a width.
pub(crate) fn wild_wires(
    alloc: Global,
    b: &mut Builder,
    kind: Keyword,
    label: &Expr,
    choice: &ChoiceWires,
    width: u32,
) -> Result<Vec<Wire>, AllocError>
    requires shaped { (names : Names) × (fault names (plain label.now) false ≡ None) }
    requires low { 1 ≤ width }
    requires high { width ≤ 128 }
    requires choice { IsReady b.old choice.now }
    ensures extends { Extends b.old b.new }
    ensures wires { IfOk result (λ r. AreWires b.new r.items) }
    ensures value { IfOk result (λ r. (env : ℕ → Bool) → wire_values b.new env r.items
        ≡ wild_of kind.0 (instance_tree choice.now.sites.now (picks_of b.old env choice.now) (plain label.now)) width) }
{
    let own = constants(alloc, b, wild(kind, label, width))?;
    let none = constants(alloc, b, Bits::from_u128(width, 0))?;
    let switch = changes(b, label, choice);
    let out = chosen(alloc, b, switch, none.as_slice(), own.as_slice())?;
    Ok(out)
}
