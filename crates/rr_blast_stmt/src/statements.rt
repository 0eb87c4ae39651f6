//! Statements on wires (IEEE 1364-2005 section 9). What a statement writes it writes where its guard is
//! true, so branches join at the bits that they write and nothing is copied.
ghost use Rattle.std.specs.Prelude.{◌≡◌, ◌≤◌, ◌&&◌, ℕ, Bool, false, not, cond, None, [], List, Option, IfOk, OnOk, length};
ghost use Rattle.rr_circuit.specs.Values.{Extends, IsWire, AreWires, wire_value, wire_values};
ghost use Rattle.rr_syntax.specs.Tree.{Assign};
ghost use Rattle.rr_syntax.specs.View.{plain, plain_arms, plain_list, plain_statement, plain_statements};
ghost use Rattle.rr_expr.specs.Faults.{fault};
ghost use Rattle.rr_flat.specs.Shapes.{arms_faults, list_faults, statement_faults, statements_faults};
ghost use Rattle.rr_instance.specs.Instances.{instance_arms, instance_parts, instance_statement, instance_statements, instance_tree};
ghost use Rattle.rr_exec.specs.Work.{AreNarrow, ArmsNarrow};
ghost use Rattle.rr_expr.specs.declared.types.Bit.{Bit};
ghost use Rattle.rr_signal_wires.specs.GuardedPieces.{AreGuardedPieces, put_guarded_pieces};
ghost use Rattle.rr_cycle.specs.Exec.{Environment, assigned, is_matched as matches, write};
ghost use Rattle.rr_blast_stmt.specs.Running.{IsMachine, held, ran, ran_all, ran_arms, ran_default, stored};
ghost use Rattle.rr_signal_wires.specs.Words.{AreWords, Holds, carried, widths_of};
ghost use Rattle.rr_blast_terms.specs.Choosing.{IsReady, picks_of};

use rr_blast_terms::{
    ChoiceWires, Selector, guarded_pieces_of, is_matched, test as test_wire, wires,
};
use rr_circuit::{Builder, Wire};
use rr_exec::case_shape;
use rr_expr::{Scope, shape_of};
use rr_signal_wires::{GuardedPiece, put_all};
use rr_syntax::{Arm, Expr, Stmt};
use std::alloc::{AllocError, Global};

/// The wires of all signals: as they are, and as the updates that wait would make them.
#[derive(Drop)]
pub struct Machine {
    pub now: Vec<Vec<Wire>>,
    pub later: Vec<Vec<Wire>>,
}

/// The right side of an assignment: in the greater of the widths of both sides, with its own sign.
fn right_side(
    alloc: Global,
    b: &mut Builder,
    target: &Expr,
    expr: &Expr,
    scope: &Scope,
    words: &[Vec<Wire>],
    choice: &ChoiceWires,
) -> Result<Vec<Wire>, AllocError>
    requires target { fault scope.now (plain target.now) false ≡ None }
    requires value { fault scope.now (plain expr.now) false ≡ None }
    requires words { AreWords b.old words.now }
    requires holds { Holds scope.now (widths_of words.now) }
    requires choice { IsReady b.old choice.now }
    ensures extends { Extends b.old b.new }
    ensures wires { IfOk result (λ r. AreWires b.new r.items) }
    ensures value { IfOk result (λ r. (env : ℕ → Bool) → wire_values b.new env r.items
        ≡ assigned scope.now (plain target.now) (instance_tree choice.now.sites.now (picks_of b.old env choice.now) (plain expr.now)) (carried b.old env words.now)) }
{
    let width = shape_of(target, scope).width;
    let own = shape_of(expr, scope);
    let bits = wires(
        alloc,
        b,
        expr,
        scope,
        words,
        choice,
        width.max(own.width),
        own.signed,
    )?;
    Ok(bits)
}

/// The bits of guarded pieces take those of a word where the guard is true, at once or later.
pub fn store(
    b: &mut Builder,
    machine: &mut Machine,
    guarded_pieces: &[GuardedPiece],
    bits: &[Wire],
    now: bool,
    guard: Wire,
) -> Result<(), AllocError>
    requires guard { IsWire b.old guard }
    requires bits { AreWires b.old bits.now }
    requires machine { IsMachine b.old (widths_of machine.old.now.items) machine.old }
    requires guarded_pieces { AreGuardedPieces b.old (widths_of machine.old.now.items) guarded_pieces.now }
    ensures extends { Extends b.old b.new }
    ensures machine { OnOk result (IsMachine b.new (widths_of machine.old.now.items) machine.new) }
    ensures ran { OnOk result ((env : ℕ → Bool) (named : List (Option Bit)) →
        ((e : Environment) → put_guarded_pieces b.old env guarded_pieces.now (wire_values b.old env bits.now) e ≡ write named (wire_values b.old env bits.now) e) →
        held b.new env machine.new ≡ cond (wire_value b.old env guard) (stored now named (wire_values b.old env bits.now) (held b.old env machine.old)) (held b.old env machine.old)) }
{
    if now {
        put_all(b, &mut machine.now, guarded_pieces, bits, guard)?;
        return Ok(());
    }
    put_all(b, &mut machine.later, guarded_pieces, bits, guard)?;
    Ok(())
}

/// An assignment, at once or later.
fn assign(
    alloc: Global,
    b: &mut Builder,
    target: &Expr,
    now: bool,
    expr: &Expr,
    scope: &Scope,
    choice: &ChoiceWires,
    guard: Wire,
    machine: &mut Machine,
) -> Result<(), AllocError>
    requires guard { IsWire b.old guard }
    requires target { fault scope.now (plain target.now) false ≡ None }
    requires value { fault scope.now (plain expr.now) false ≡ None }
    requires choice { IsReady b.old choice.now }
    requires machine { IsMachine b.old (widths_of machine.old.now.items) machine.old }
    requires holds { Holds scope.now (widths_of machine.old.now.items) }
    ensures extends { Extends b.old b.new }
    ensures machine { OnOk result (IsMachine b.new (widths_of machine.old.now.items) machine.new) }
    ensures ran { OnOk result ((env : ℕ → Bool) → held b.new env machine.new
        ≡ cond (wire_value b.old env guard) (ran scope.now (Assign (plain target.now) now (instance_tree choice.now.sites.now (picks_of b.old env choice.now) (plain expr.now))) (held b.old env machine.old)) (held b.old env machine.old)) }
{
    let words = machine.now.as_slice();
    let guarded_pieces = guarded_pieces_of(alloc, b, target, scope, words)?;
    let bits = right_side(alloc, b, target, expr, scope, words, choice)?;
    store(
        b,
        machine,
        guarded_pieces.as_slice(),
        bits.as_slice(),
        now,
        guard,
    )?;
    Ok(())
}

/// Runs a statement's instance where the guard is true.
#[cycle(execute)]
pub fn execute(
    alloc: Global,
    b: &mut Builder,
    stmt: &Stmt,
    scope: &Scope,
    choice: &ChoiceWires,
    guard: Wire,
    machine: &mut Machine,
) -> Result<(), AllocError>
    requires shaped { statement_faults scope.now (plain_statement stmt.now) ≡ [] }
    requires guard { IsWire b.old guard }
    requires choice { IsReady b.old choice.now }
    requires machine { IsMachine b.old (widths_of machine.old.now.items) machine.old }
    requires holds { Holds scope.now (widths_of machine.old.now.items) }
    ensures extends { Extends b.old b.new }
    ensures machine { OnOk result (IsMachine b.new (widths_of machine.old.now.items) machine.new) }
    ensures ran { OnOk result ((env : ℕ → Bool) → held b.new env machine.new
        ≡ cond (wire_value b.old env guard) (ran scope.now (instance_statement choice.now.sites.now (picks_of b.old env choice.now) (plain_statement stmt.now)) (held b.old env machine.old)) (held b.old env machine.old)) }
{
    match stmt {
        Stmt::Null => Ok(()),
        Stmt::For { .. } => Ok(()),
        Stmt::Block { body, .. } => {
            execute_all(alloc, b, body, scope, choice, guard, machine)?;
            Ok(())
        }
        Stmt::If { test, yes, no } => {
            let holds = test_wire(alloc, b, test, scope, machine.now.as_slice(), choice)?;
            let here = b.and(guard, holds)?;
            let fails = b.not(holds);
            let there = b.and(guard, fails)?;
            execute(alloc, b, yes, scope, choice, here, machine)?;
            match no {
                Some(other) => {
                    execute(alloc, b, other, scope, choice, there, machine)?;
                    Ok(())
                }
                None => Ok(()),
            }
        }
        Stmt::Case { kind, on, arms } => {
            let shape = case_shape(on, arms, scope);
            let value = wires(
                alloc,
                b,
                on,
                scope,
                machine.now.as_slice(),
                choice,
                shape.width,
                shape.signed,
            )?;
            let selector = Selector {
                kind: *kind,
                shape,
                value: value.as_slice(),
            };
            execute_arms(alloc, b, &selector, arms, scope, choice, guard, machine)?;
            Ok(())
        }
        Stmt::Assign { target, now, value } => {
            assign(alloc, b, target, *now, value, scope, choice, guard, machine)?;
            Ok(())
        }
    }
}

#[cycle(execute)]
fn execute_all(
    alloc: Global,
    b: &mut Builder,
    body: &[Stmt],
    scope: &Scope,
    choice: &ChoiceWires,
    guard: Wire,
    machine: &mut Machine,
) -> Result<(), AllocError>
    requires shaped { statements_faults scope.now (plain_statements body.now) ≡ [] }
    requires guard { IsWire b.old guard }
    requires choice { IsReady b.old choice.now }
    requires machine { IsMachine b.old (widths_of machine.old.now.items) machine.old }
    requires holds { Holds scope.now (widths_of machine.old.now.items) }
    ensures extends { Extends b.old b.new }
    ensures machine { OnOk result (IsMachine b.new (widths_of machine.old.now.items) machine.new) }
    ensures ran { OnOk result ((env : ℕ → Bool) → held b.new env machine.new
        ≡ cond (wire_value b.old env guard) (ran_all scope.now (instance_statements choice.now.sites.now (picks_of b.old env choice.now) (plain_statements body.now)) (held b.old env machine.old)) (held b.old env machine.old)) }
{
    for stmt in body.iter() {
        execute(alloc, b, stmt, scope, choice, guard, machine)?;
    }
    Ok(())
}

/// Runs an arm where the guard is true and one of its labels is equal to the selector's value. It
/// answers where the guard is true and none is.
#[cycle(execute)]
fn execute_arm(
    alloc: Global,
    b: &mut Builder,
    selector: &Selector,
    arm: &Arm,
    scope: &Scope,
    choice: &ChoiceWires,
    guard: Wire,
    machine: &mut Machine,
) -> Result<Wire, AllocError>
    requires labels { list_faults scope.now (plain_list arm.now.labels.now) ≡ [] }
    requires body { statement_faults scope.now (plain_statement arm.now.body.now) ≡ [] }
    requires narrow { AreNarrow scope.now selector.now.shape.width (plain_list arm.now.labels.now) }
    requires selector { AreWires b.old selector.now.value.now }
    requires width { length selector.now.value.now ≡ selector.now.shape.width }
    requires high { selector.now.shape.width ≤ 128 }
    requires guard { IsWire b.old guard }
    requires choice { IsReady b.old choice.now }
    requires machine { IsMachine b.old (widths_of machine.old.now.items) machine.old }
    requires holds { Holds scope.now (widths_of machine.old.now.items) }
    ensures extends { Extends b.old b.new }
    ensures wire { IfOk result (λ w. IsWire b.new w) }
    ensures value { IfOk result (λ w. (env : ℕ → Bool) → wire_value b.new env w
        ≡ (wire_value b.old env guard && not (matches scope.now selector.now.kind.0 selector.now.shape (wire_values b.old env selector.now.value.now) (instance_parts choice.now.sites.now (picks_of b.old env choice.now) (plain_list arm.now.labels.now)) (carried b.old env machine.old.now.items)))) }
    ensures machine { OnOk result (IsMachine b.new (widths_of machine.old.now.items) machine.new) }
    ensures ran { OnOk result ((env : ℕ → Bool) → held b.new env machine.new
        ≡ cond (wire_value b.old env guard && matches scope.now selector.now.kind.0 selector.now.shape (wire_values b.old env selector.now.value.now) (instance_parts choice.now.sites.now (picks_of b.old env choice.now) (plain_list arm.now.labels.now)) (carried b.old env machine.old.now.items))
        (ran scope.now (instance_statement choice.now.sites.now (picks_of b.old env choice.now) (plain_statement arm.now.body.now)) (held b.old env machine.old)) (held b.old env machine.old)) }
{
    if arm.labels.is_empty() {
        return Ok(guard);
    }
    let found = is_matched(
        alloc,
        b,
        selector,
        arm.labels,
        scope,
        machine.now.as_slice(),
        choice,
    )?;
    let here = b.and(guard, found)?;
    let missed = b.not(found);
    let rest = b.and(guard, missed)?;
    execute(alloc, b, arm.body, scope, choice, here, machine)?;
    Ok(rest)
}

/// Runs the instance of the first arm that has an equal label, else that of the `default`.
#[cycle(execute)]
fn execute_arms(
    alloc: Global,
    b: &mut Builder,
    selector: &Selector,
    arms: &[Arm],
    scope: &Scope,
    choice: &ChoiceWires,
    guard: Wire,
    machine: &mut Machine,
) -> Result<(), AllocError>
    requires arms { arms_faults scope.now (plain_arms arms.now) ≡ [] }
    requires narrow { ArmsNarrow scope.now selector.now.shape.width (plain_arms arms.now) }
    requires selector { AreWires b.old selector.now.value.now }
    requires width { length selector.now.value.now ≡ selector.now.shape.width }
    requires high { selector.now.shape.width ≤ 128 }
    requires guard { IsWire b.old guard }
    requires choice { IsReady b.old choice.now }
    requires machine { IsMachine b.old (widths_of machine.old.now.items) machine.old }
    requires holds { Holds scope.now (widths_of machine.old.now.items) }
    ensures extends { Extends b.old b.new }
    ensures machine { OnOk result (IsMachine b.new (widths_of machine.old.now.items) machine.new) }
    ensures ran { OnOk result ((env : ℕ → Bool) → held b.new env machine.new
        ≡ cond (wire_value b.old env guard) (ran_arms scope.now selector.now.kind.0 selector.now.shape (wire_values b.old env selector.now.value.now) (instance_arms choice.now.sites.now (picks_of b.old env choice.now) (plain_arms arms.now)) (held b.old env machine.old)) (held b.old env machine.old)) }
{
    let mut rest = guard;
    for arm in arms.iter() {
        rest = execute_arm(alloc, b, selector, arm, scope, choice, rest, machine)?;
    }
    execute_default(alloc, b, arms, scope, choice, rest, machine)?;
    Ok(())
}

/// Runs the instance of the first `default` where the guard is true.
#[cycle(execute)]
fn execute_default(
    alloc: Global,
    b: &mut Builder,
    arms: &[Arm],
    scope: &Scope,
    choice: &ChoiceWires,
    guard: Wire,
    machine: &mut Machine,
) -> Result<(), AllocError>
    requires arms { arms_faults scope.now (plain_arms arms.now) ≡ [] }
    requires guard { IsWire b.old guard }
    requires choice { IsReady b.old choice.now }
    requires machine { IsMachine b.old (widths_of machine.old.now.items) machine.old }
    requires holds { Holds scope.now (widths_of machine.old.now.items) }
    ensures extends { Extends b.old b.new }
    ensures machine { OnOk result (IsMachine b.new (widths_of machine.old.now.items) machine.new) }
    ensures ran { OnOk result ((env : ℕ → Bool) → held b.new env machine.new
        ≡ cond (wire_value b.old env guard) (ran_default scope.now (instance_arms choice.now.sites.now (picks_of b.old env choice.now) (plain_arms arms.now)) (held b.old env machine.old)) (held b.old env machine.old)) }
{
    for arm in arms.iter() {
        if arm.labels.is_empty() {
            execute(alloc, b, arm.body, scope, choice, guard, machine)?;
            return Ok(());
        }
    }
    Ok(())
}
