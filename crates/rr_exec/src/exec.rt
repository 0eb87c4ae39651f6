//! Statements (IEEE 1364-2005 section 9).
ghost use Rattle.std.specs.Prelude.{◌≡◌, ◌≤◌, ◌<◌, [], All, OnOk, None, length};
ghost use Rattle.rr_syntax.specs.View.{plain, plain_arms, plain_statement, plain_statements};
ghost use Rattle.rr_expr.specs.Scopes.{env_of};
ghost use Rattle.rr_flat.specs.Targets.{target_bits};
ghost use Rattle.rr_flat.specs.Shapes.{shape_faults, statement_faults, statements_faults, arms_faults};
ghost use Rattle.rr_named_bits.specs.Pieces.{all_bits};
ghost use Rattle.rr_cycle.specs.Exec.{Environment, applied, assigned, executed, executed_all, executed_case, executed_default, updates, updates_of_all, updates_of_case, updates_of_default, write as write_of};
ghost use Rattle.rr_exec.specs.Work.{ArmsNarrow, Fits, Holds, IsLater, updates_in};

use crate::cases::{Selector, is_matched, is_true, own_shape, selector_of};
use crate::writes::{Later, postpone, write_pieces};
use rr_bits::Bits;
use rr_expr::{Env, Scope, value};
use rr_named_bits::{Piece, add_pieces};
use rr_syntax::{Arm, Expr, Stmt};
use std::alloc::AllocError;

/// The values of all signals, the updates that wait, and room for the pieces of one target, which is
/// taken once.
#[derive(Drop)]
pub struct Machine {
    pub env: Env,
    pub later: Vec<Later>,
    pub pieces: Vec<Piece>,
    pub none: Env,
}

/// The pieces of a target, its indices taken in the environment as it is: of a memory the one word
/// that has the index, or as many places without a bit (IEEE 1364-2005 section 5.2.2).
fn name_pieces(
    pieces: &mut Vec<Piece>,
    target: &Expr,
    scope: &Scope,
    env: &Env,
) -> Result<(), AllocError>
    requires shaped { shape_faults scope.now (plain target.now) ≡ [] }
    requires holds { Holds scope.now (length env.now.values.items) }
    ensures bits { OnOk result (all_bits pieces.new.items ≡ target_bits scope.now (env_of env.now.values.items) (plain target.now)) }
    ensures fits { OnOk result (All (Fits (length env.now.values.items)) pieces.new.items) }
{
    pieces.clear();
    add_pieces(pieces, target, scope, env)?;
    Ok(())
}

/// The right side of an assignment: in the greater of the widths of both sides, with its own sign.
fn right_side(target: &Expr, expr: &Expr, scope: &Scope, env: &Env) -> Bits
    requires target { shape_faults scope.now (plain target.now) ≡ [] }
    requires value { shape_faults scope.now (plain expr.now) ≡ [] }
    ensures { result ≡ assigned scope.now (plain target.now) (plain expr.now) (env_of env.now.values.items) }
{
    let width = own_shape(target, scope).width;
    let own = own_shape(expr, scope);
    value(expr, scope, env, width.max(own.width), own.signed)
}

/// An assignment at once.
fn assign_now(
    target: &Expr,
    expr: &Expr,
    scope: &Scope,
    machine: &mut Machine,
) -> Result<(), AllocError>
    requires target { shape_faults scope.now (plain target.now) ≡ [] }
    requires value { shape_faults scope.now (plain expr.now) ≡ [] }
    requires holds { Holds scope.now (length machine.old.env.values.items) }
    ensures env { OnOk result (env_of machine.new.env.values.items ≡ write_of (target_bits scope.now (env_of machine.old.env.values.items) (plain target.now)) (assigned scope.now (plain target.now) (plain expr.now) (env_of machine.old.env.values.items)) (env_of machine.old.env.values.items)) }
    ensures later { machine.new.later.items ≡ machine.old.later.items }
    ensures count { length machine.new.env.values.items ≡ length machine.old.env.values.items }
    ensures none { machine.new.none ≡ machine.old.none }
{
    name_pieces(&mut machine.pieces, target, scope, &machine.env)?;
    let bits = right_side(target, expr, scope, &machine.env);
    write_pieces(&mut machine.env.values, machine.pieces.as_slice(), bits);
    Ok(())
}

/// An assignment that waits.
fn assign_later(
    target: &Expr,
    expr: &Expr,
    scope: &Scope,
    machine: &mut Machine,
) -> Result<(), AllocError>
    requires target { shape_faults scope.now (plain target.now) ≡ [] }
    requires value { shape_faults scope.now (plain expr.now) ≡ [] }
    requires holds { Holds scope.now (length machine.old.env.values.items) }
    requires fits { All (IsLater (length machine.old.env.values.items)) machine.old.later.items }
    ensures env { machine.new.env ≡ machine.old.env }
    ensures later { OnOk result ((e : Environment) → applied (updates_in machine.new.later.items) e ≡ write_of (target_bits scope.now (env_of machine.old.env.values.items) (plain target.now)) (assigned scope.now (plain target.now) (plain expr.now) (env_of machine.old.env.values.items)) (applied (updates_in machine.old.later.items) e)) }
    ensures fits { OnOk result (All (IsLater (length machine.old.env.values.items)) machine.new.later.items) }
    ensures none { machine.new.none ≡ machine.old.none }
{
    name_pieces(&mut machine.pieces, target, scope, &machine.env)?;
    let bits = right_side(target, expr, scope, &machine.env);
    postpone(&mut machine.later, machine.pieces.as_slice(), bits)
}

/// Runs a statement: its `=` at once, its `<=` later.
#[cycle(execute)]
#[tactic(auto, using(crate::proofs::Nodes::statement_nodes))]
pub fn execute(stmt: &Stmt, scope: &Scope, machine: &mut Machine) -> Result<(), AllocError>
    requires shaped { statement_faults scope.now (plain_statement stmt.now) ≡ [] }
    requires holds { Holds scope.now (length machine.old.env.values.items) }
    requires fits { All (IsLater (length machine.old.env.values.items)) machine.old.later.items }
    ensures env { OnOk result (env_of machine.new.env.values.items ≡ executed scope.now (plain_statement stmt.now) (env_of machine.old.env.values.items)) }
    ensures later { OnOk result ((e : Environment) → applied (updates_in machine.new.later.items) e ≡ applied (updates scope.now (plain_statement stmt.now) (env_of machine.old.env.values.items)) (applied (updates_in machine.old.later.items) e)) }
    ensures fits { OnOk result (All (IsLater (length machine.old.env.values.items)) machine.new.later.items) }
    ensures count { OnOk result (length machine.new.env.values.items ≡ length machine.old.env.values.items) }
    ensures none { OnOk result (machine.new.none ≡ machine.old.none) }
{
    match stmt {
        Stmt::Null | Stmt::For { .. } => Ok(()),
        Stmt::Block { body, .. } => execute_all(body, scope, machine),
        Stmt::If {
            test,
            yes,
            no: None,
        } => {
            if is_true(test, scope, &machine.env) {
                execute(yes, scope, machine)
            } else {
                Ok(())
            }
        }
        Stmt::If {
            test,
            yes,
            no: Some(other),
        } => {
            if is_true(test, scope, &machine.env) {
                execute(yes, scope, machine)
            } else {
                execute(other, scope, machine)
            }
        }
        Stmt::Case { kind, on, arms } => {
            let selector = selector_of(*kind, on, arms, scope, &machine.env);
            execute_arms(&selector, arms, scope, machine)
        }
        Stmt::Assign { target, now, value } => {
            if *now {
                assign_now(target, value, scope, machine)
            } else {
                assign_later(target, value, scope, machine)
            }
        }
    }
}

#[cycle(execute)]
fn execute_all(body: &[Stmt], scope: &Scope, machine: &mut Machine) -> Result<(), AllocError>
    requires shaped { statements_faults scope.now (plain_statements body.now) ≡ [] }
    requires holds { Holds scope.now (length machine.old.env.values.items) }
    requires fits { All (IsLater (length machine.old.env.values.items)) machine.old.later.items }
    ensures env { OnOk result (env_of machine.new.env.values.items ≡ executed_all scope.now (plain_statements body.now) (env_of machine.old.env.values.items)) }
    ensures later { OnOk result ((e : Environment) → applied (updates_in machine.new.later.items) e ≡ applied (updates_of_all scope.now (plain_statements body.now) (env_of machine.old.env.values.items)) (applied (updates_in machine.old.later.items) e)) }
    ensures fits { OnOk result (All (IsLater (length machine.old.env.values.items)) machine.new.later.items) }
    ensures count { OnOk result (length machine.new.env.values.items ≡ length machine.old.env.values.items) }
    ensures none { OnOk result (machine.new.none ≡ machine.old.none) }
{
    for stmt in body.iter() {
        execute(stmt, scope, machine)?;
    }
    Ok(())
}

/// Runs the first arm that has an equal label, else the `default`.
#[cycle(execute)]
fn execute_arms(
    selector: &Selector,
    arms: &[Arm],
    scope: &Scope,
    machine: &mut Machine,
) -> Result<(), AllocError>
    requires arms { arms_faults scope.now (plain_arms arms.now) ≡ [] }
    requires narrow { ArmsNarrow scope.now selector.now.shape.width (plain_arms arms.now) }
    requires width { length selector.now.value ≡ selector.now.shape.width }
    requires high { selector.now.shape.width ≤ 128 }
    requires holds { Holds scope.now (length machine.old.env.values.items) }
    requires fits { All (IsLater (length machine.old.env.values.items)) machine.old.later.items }
    ensures env { OnOk result (env_of machine.new.env.values.items ≡ executed_case scope.now selector.now.kind.0 selector.now.shape selector.now.value (plain_arms arms.now) (executed_default scope.now (plain_arms arms.now) (env_of machine.old.env.values.items)) (env_of machine.old.env.values.items)) }
    ensures later { OnOk result ((e : Environment) → applied (updates_in machine.new.later.items) e ≡ applied (updates_of_case scope.now selector.now.kind.0 selector.now.shape selector.now.value (plain_arms arms.now) (updates_of_default scope.now (plain_arms arms.now) (env_of machine.old.env.values.items)) (env_of machine.old.env.values.items)) (applied (updates_in machine.old.later.items) e)) }
    ensures fits { OnOk result (All (IsLater (length machine.old.env.values.items)) machine.new.later.items) }
    ensures count { OnOk result (length machine.new.env.values.items ≡ length machine.old.env.values.items) }
    ensures none { OnOk result (machine.new.none ≡ machine.old.none) }
{
    for arm in arms.iter() {
        if is_matched(selector, arm.labels, scope, &machine.env) {
            return execute(arm.body, scope, machine);
        }
    }
    for other in arms.iter() {
        if other.labels.is_empty() {
            return execute(other.body, scope, machine);
        }
    }
    Ok(())
}
