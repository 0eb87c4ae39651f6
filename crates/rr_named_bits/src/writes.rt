//! The bits that assignments write whatever the values are.
ghost use Rattle.std.specs.Prelude.{◌≡◌, ◌≤◌, ◌||◌, ◌&&◌, [], IfOk, OnOk, None, true, false, cond};
ghost use Rattle.rr_syntax.specs.View.{plain, plain_list};
ghost use Rattle.rr_expr.specs.Faults.{fault, faults};
ghost use Rattle.rr_expr.specs.Scopes.{entity_shape, meant};
ghost use Rattle.rr_expr.specs.Values.{nowhere};
ghost use Rattle.rr_expr.specs.declared.types.Bit.{Bit};
ghost use Rattle.rr_flat.specs.Targets.{has_bit, is_bit_of, is_constant as is_constant_in, may_write, must_write, target_parts, targets_parts, writes_target, assigns_target};
ghost use Rattle.rr_named_bits.specs.Lists.{may, must, reaches};
ghost use Rattle.rr_named_bits.specs.Pieces.{part_bits};

use crate::piece::Reach;
use crate::select::{meaning, no_values, piece_of, reach_of};
use rr_expr::{Entity, Env, Scope};
use rr_flat::is_constant;
use rr_syntax::Expr;
use std::alloc::{AllocError, Global};

/// The bits that the assignment of a name or select may write: by constant indices those at its
/// places, and all of them for certain; by any other index all bits of the name, of a memory those of
/// all its words, and none for certain.
#[derive(Clone, Copy, Debug, PartialEq, Eq)]
pub struct Write {
    pub reach: Reach,
    pub certain: bool,
}

/// The write of a select of a name; `none` has no values, since a constant index needs none.
fn write_at(
    part: &Expr,
    name: &str,
    index: &Expr,
    scope: &Scope,
    none: &Env,
) -> Result<Write, AllocError>
    requires shaped { fault scope.now (plain part.now) false ≡ None }
    requires width { (entity_shape (meant scope.now name.now)).width ≤ 128 }
    requires none { none.now.values.items ≡ [] }
    ensures may { IfOk result (λ w. (b : Bit) → reaches w.reach b ≡ cond (is_constant_in scope.now (plain index.now)) (has_bit (part_bits scope.now nowhere (plain part.now)) b) (is_bit_of (meant scope.now name.now) b)) }
    ensures must { IfOk result (λ w. (b : Bit) → (w.certain && reaches w.reach b) ≡ (is_constant_in scope.now (plain index.now) && has_bit (part_bits scope.now nowhere (plain part.now)) b)) }
{
    if is_constant(index, scope) {
        certain(part, scope, none)
    } else {
        Ok(uncertain(&meaning(scope, name)))
    }
}

fn certain(part: &Expr, scope: &Scope, none: &Env) -> Result<Write, AllocError>
    requires shaped { fault scope.now (plain part.now) false ≡ None }
    requires none { none.now.values.items ≡ [] }
    ensures bits { IfOk result (λ w. (b : Bit) → reaches w.reach b ≡ has_bit (part_bits scope.now nowhere (plain part.now)) b) }
    ensures must { IfOk result (λ w. (b : Bit) → (w.certain && reaches w.reach b) ≡ has_bit (part_bits scope.now nowhere (plain part.now)) b) }
{
    let piece = piece_of(part, scope, none)?;
    Ok(Write {
        reach: Reach::one(piece),
        certain: true,
    })
}

fn uncertain(entity: &Entity) -> Write
    requires { (entity_shape entity.now).width ≤ 128 }
    ensures bits { (b : Bit) → reaches result.reach b ≡ is_bit_of entity.now b }
    ensures uncertain { result.certain ≡ false }
{
    Write {
        reach: reach_of(entity),
        certain: false,
    }
}

fn push_write(list: &mut Vec<Write>, write: Write) -> Result<(), AllocError>
    ensures may { OnOk result ((b : Bit) → may list.new.items b ≡ (may list.old.items b || reaches write.reach b)) }
    ensures must { OnOk result ((b : Bit) → must list.new.items b ≡ (must list.old.items b || (write.certain && reaches write.reach b))) }
{
    list.push(write)?;
    Ok(())
}

/// Adds the write of a name or of a part.
fn push_certain(
    list: &mut Vec<Write>,
    part: &Expr,
    scope: &Scope,
    none: &Env,
) -> Result<(), AllocError>
    requires shaped { fault scope.now (plain part.now) false ≡ None }
    requires none { none.now.values.items ≡ [] }
    ensures may { OnOk result ((b : Bit) → may list.new.items b ≡ (may list.old.items b || has_bit (part_bits scope.now nowhere (plain part.now)) b)) }
    ensures must { OnOk result ((b : Bit) → must list.new.items b ≡ (must list.old.items b || has_bit (part_bits scope.now nowhere (plain part.now)) b)) }
{
    let write = certain(part, scope, none)?;
    push_write(list, write)
}

/// Adds that of a select of a name by an index.
fn push_at(
    list: &mut Vec<Write>,
    part: &Expr,
    name: &str,
    index: &Expr,
    scope: &Scope,
    none: &Env,
) -> Result<(), AllocError>
    requires shaped { fault scope.now (plain part.now) false ≡ None }
    requires width { (entity_shape (meant scope.now name.now)).width ≤ 128 }
    requires none { none.now.values.items ≡ [] }
    ensures may { OnOk result ((b : Bit) → may list.new.items b ≡ (may list.old.items b || cond (is_constant_in scope.now (plain index.now)) (has_bit (part_bits scope.now nowhere (plain part.now)) b) (is_bit_of (meant scope.now name.now) b))) }
    ensures must { OnOk result ((b : Bit) → must list.new.items b ≡ (must list.old.items b || (is_constant_in scope.now (plain index.now) && has_bit (part_bits scope.now nowhere (plain part.now)) b))) }
{
    let write = write_at(part, name, index, scope, none)?;
    push_write(list, write)
}

/// Adds what an assignment to a target writes whatever the values are, name by name in the order of
/// the text. The target has a shape in its scope.
pub fn add_writes(
    alloc: Global,
    list: &mut Vec<Write>,
    target: &Expr,
    scope: &Scope,
) -> Result<(), AllocError>
    requires { fault scope.now (plain target.now) false ≡ None }
    ensures may { OnOk result ((b : Bit) → may list.new.items b ≡ (may list.old.items b || writes_target scope.now (plain target.now) b)) }
    ensures must { OnOk result ((b : Bit) → must list.new.items b ≡ (must list.old.items b || assigns_target scope.now (plain target.now) b)) }
{
    let none = no_values(alloc);
    add_writes_in(list, target, scope, &none)
}

#[cycle(writes)]
fn add_writes_in(
    list: &mut Vec<Write>,
    target: &Expr,
    scope: &Scope,
    none: &Env,
) -> Result<(), AllocError>
    requires shaped { fault scope.now (plain target.now) false ≡ None }
    requires none { none.now.values.items ≡ [] }
    ensures may { OnOk result ((b : Bit) → may list.new.items b ≡ (may list.old.items b || may_write scope.now (target_parts (plain target.now)) b)) }
    ensures must { OnOk result ((b : Bit) → must list.new.items b ≡ (must list.old.items b || must_write scope.now (target_parts (plain target.now)) b)) }
{
    match target {
        Expr::Name { .. } => push_certain(list, target, scope, none),
        Expr::Part { .. } => push_certain(list, target, scope, none),
        Expr::Bit { name, index, .. } => push_at(list, target, name, index, scope, none),
        Expr::Indexed { name, from, .. } => push_at(list, target, name, from, scope, none),
        Expr::Concat { parts } => add_writes_of_all(list, parts, scope, none),
        Expr::Literal { .. } => Ok(()),
        Expr::Unary { .. } => Ok(()),
        Expr::Binary { .. } => Ok(()),
        Expr::Cond { .. } => Ok(()),
        Expr::Repeat { .. } => Ok(()),
        Expr::Cast { .. } => Ok(()),
        Expr::Paren { .. } => Ok(()),
    }
}

#[cycle(writes)]
fn add_writes_of_all(
    list: &mut Vec<Write>,
    targets: &[Expr],
    scope: &Scope,
    none: &Env,
) -> Result<(), AllocError>
    requires shaped { faults scope.now (plain_list targets.now) false ≡ None }
    requires none { none.now.values.items ≡ [] }
    ensures may { OnOk result ((b : Bit) → may list.new.items b ≡ (may list.old.items b || may_write scope.now (targets_parts (plain_list targets.now)) b)) }
    ensures must { OnOk result ((b : Bit) → must list.new.items b ≡ (must list.old.items b || must_write scope.now (targets_parts (plain_list targets.now)) b)) }
{
    for target in targets.iter() {
        add_writes_in(list, target, scope, none)?;
    }
    Ok(())
}
