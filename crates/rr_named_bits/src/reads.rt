//! The bits that expressions and the indices of targets name.
ghost use Rattle.std.specs.Prelude.{◌≡◌, ◌≤◌, ◌++◌, ◌∷◌, OnOk, None, true, false, []};
ghost use Rattle.rr_syntax.specs.View.{plain, plain_list};
ghost use Rattle.rr_expr.specs.Faults.{fault, faults};
ghost use Rattle.rr_expr.specs.Reading.{IsBitOf, NamesBit, NamesBits};
ghost use Rattle.rr_expr.specs.Scopes.{entity_shape};
ghost use Rattle.rr_expr.specs.Values.{nowhere};
ghost use Rattle.rr_flat.specs.Reads.{TargetReads, TargetsRead};
ghost use Rattle.rr_flat.specs.Targets.{has_bit};
ghost use Rattle.rr_named_bits.specs.Lists.{Grown};
ghost use Rattle.rr_named_bits.specs.Pieces.{part_bits};

use crate::piece::Reach;
use crate::select::{meaning, no_values, piece_of, reach_of};
use rr_expr::{Entity, Env, Scope};
use rr_flat::is_constant;
use rr_syntax::Expr;
use std::alloc::{AllocError, Global};

fn push_reach(list: &mut Vec<Reach>, reach: Reach) -> Result<(), AllocError>
    ensures { OnOk result (list.new.items ≡ list.old.items ++ reach ∷ []) }
{
    list.push(reach)?;
    Ok(())
}

/// Adds the bits of a name or of a select by constant indices; `none` has no values, since these need
/// none.
fn push_fixed(
    list: &mut Vec<Reach>,
    part: &Expr,
    scope: &Scope,
    none: &Env,
) -> Result<(), AllocError>
    requires shaped { fault scope.now (plain part.now) false ≡ None }
    requires none { none.now.values.items ≡ [] }
    ensures { OnOk result (Grown list.old.items list.new.items (λ b. has_bit (part_bits scope.now nowhere (plain part.now)) b ≡ true)) }
{
    let piece = piece_of(part, scope, none)?;
    push_reach(list, Reach::one(piece))
}

/// Adds all bits of what a name stands for, of a memory those of all its words.
fn push_whole(list: &mut Vec<Reach>, entity: &Entity) -> Result<(), AllocError>
    requires { (entity_shape entity.now).width ≤ 128 }
    ensures { OnOk result (Grown list.old.items list.new.items (IsBitOf entity.now)) }
{
    push_reach(list, reach_of(entity))
}

/// Adds the bits that an expression names: of a select by constant indices those at its places, by any
/// other index all bits of its name and those that the index names (IEEE 1364-2005 sections 5.2.1 and
/// 5.2.2). The expression has a shape in its scope. One reach is added for each name that stands in it
/// at most, of a memory too.
pub fn add_named_bits(
    alloc: Global,
    list: &mut Vec<Reach>,
    expr: &Expr,
    scope: &Scope,
) -> Result<(), AllocError>
    requires { fault scope.now (plain expr.now) false ≡ None }
    ensures { OnOk result (Grown list.old.items list.new.items (NamesBit scope.now (plain expr.now))) }
{
    let none = no_values(alloc);
    add_named_in(list, expr, scope, &none)
}

#[cycle(named)]
fn add_named_in(
    list: &mut Vec<Reach>,
    expr: &Expr,
    scope: &Scope,
    none: &Env,
) -> Result<(), AllocError>
    requires shaped { fault scope.now (plain expr.now) false ≡ None }
    requires none { none.now.values.items ≡ [] }
    ensures { OnOk result (Grown list.old.items list.new.items (NamesBit scope.now (plain expr.now))) }
{
    match expr {
        Expr::Name { .. } => push_fixed(list, expr, scope, none),
        Expr::Part { .. } => push_fixed(list, expr, scope, none),
        Expr::Literal { .. } => Ok(()),
        Expr::Bit { name, index, .. } => {
            if is_constant(index, scope) {
                push_fixed(list, expr, scope, none)
            } else {
                push_whole(list, &meaning(scope, name))?;
                add_named_in(list, index, scope, none)
            }
        }
        Expr::Indexed { name, from, .. } => {
            if is_constant(from, scope) {
                push_fixed(list, expr, scope, none)
            } else {
                push_whole(list, &meaning(scope, name))?;
                add_named_in(list, from, scope, none)
            }
        }
        Expr::Unary { of, .. } => add_named_in(list, of, scope, none),
        Expr::Cast { of, .. } => add_named_in(list, of, scope, none),
        Expr::Paren { of } => add_named_in(list, of, scope, none),
        Expr::Binary { left, right, .. } => {
            add_named_in(list, left, scope, none)?;
            add_named_in(list, right, scope, none)
        }
        Expr::Cond { test, yes, no } => {
            add_named_in(list, test, scope, none)?;
            add_named_in(list, yes, scope, none)?;
            add_named_in(list, no, scope, none)
        }
        Expr::Concat { parts } => add_named_by_all(list, parts, scope, none),
        Expr::Repeat { parts, .. } => add_named_by_all(list, parts, scope, none),
    }
}

#[cycle(named)]
fn add_named_by_all(
    list: &mut Vec<Reach>,
    parts: &[Expr],
    scope: &Scope,
    none: &Env,
) -> Result<(), AllocError>
    requires shaped { faults scope.now (plain_list parts.now) false ≡ None }
    requires none { none.now.values.items ≡ [] }
    ensures { OnOk result (Grown list.old.items list.new.items (NamesBits scope.now (plain_list parts.now))) }
{
    for part in parts.iter() {
        add_named_in(list, part, scope, none)?;
    }
    Ok(())
}

/// Adds the bits that the indices of a target name. The target has a shape in its scope.
#[cycle(indices)]
pub fn add_target_reads(
    alloc: Global,
    list: &mut Vec<Reach>,
    target: &Expr,
    scope: &Scope,
) -> Result<(), AllocError>
    requires { fault scope.now (plain target.now) false ≡ None }
    ensures { OnOk result (Grown list.old.items list.new.items (TargetReads scope.now (plain target.now))) }
{
    match target {
        Expr::Bit { index, .. } => add_named_bits(alloc, list, index, scope),
        Expr::Indexed { from, .. } => add_named_bits(alloc, list, from, scope),
        Expr::Concat { parts } => add_targets_reads(alloc, list, parts, scope),
        Expr::Name { .. } => Ok(()),
        Expr::Part { .. } => Ok(()),
        Expr::Literal { .. } => Ok(()),
        Expr::Unary { .. } => Ok(()),
        Expr::Binary { .. } => Ok(()),
        Expr::Cond { .. } => Ok(()),
        Expr::Repeat { .. } => Ok(()),
        Expr::Cast { .. } => Ok(()),
        Expr::Paren { .. } => Ok(()),
    }
}

#[cycle(indices)]
fn add_targets_reads(
    alloc: Global,
    list: &mut Vec<Reach>,
    targets: &[Expr],
    scope: &Scope,
) -> Result<(), AllocError>
    requires { faults scope.now (plain_list targets.now) false ≡ None }
    ensures { OnOk result (Grown list.old.items list.new.items (TargetsRead scope.now (plain_list targets.now))) }
{
    for target in targets.iter() {
        add_target_reads(alloc, list, target, scope)?;
    }
    Ok(())
}
