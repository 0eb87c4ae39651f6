//! The bits that statements assign.
ghost use Rattle.std.specs.Prelude.{◌≡◌, ◌||◌, [], OnOk};
ghost use Rattle.rr_syntax.specs.View.{plain_arms, plain_statement, plain_statements};
ghost use Rattle.rr_expr.specs.declared.types.Bit.{Bit};
ghost use Rattle.rr_flat.specs.Shapes.{arms_faults, statement_faults, statements_faults};
ghost use Rattle.rr_writers.specs.Assigned.{assigns, assign_any, arms_assign};
ghost use Rattle.rr_named_bits.specs.Lists.{may};

use rr_expr::Scope;
use rr_named_bits::{Write, add_writes};
use rr_syntax::{Arm, Stmt};
use std::alloc::{AllocError, Global};

/// Adds the bits that a statement may assign by `=`, and with `later` those by `<=` too, target by
/// target in the order of the text (IEEE 1364-2005 sections 9.2.1 and 9.2.2). Each expression in it
/// has a shape.
#[cycle(assigned)]
pub fn add_assigned_bits(
    alloc: Global,
    list: &mut Vec<Write>,
    stmt: &Stmt,
    names: &Scope,
    later: bool,
) -> Result<(), AllocError>
    requires { statement_faults names.now (plain_statement stmt.now) ≡ [] }
    ensures { OnOk result ((b : Bit) → may list.new.items b ≡ (may list.old.items b || assigns later names.now (plain_statement stmt.now) b)) }
{
    match stmt {
        Stmt::Null => Ok(()),
        Stmt::For { .. } => Ok(()),
        Stmt::Block { body, .. } => add_assigned_by_all(alloc, list, body, names, later),
        Stmt::If { yes, no, .. } => {
            add_assigned_bits(alloc, list, yes, names, later)?;
            match no {
                Some(other) => add_assigned_bits(alloc, list, other, names, later),
                None => Ok(()),
            }
        }
        Stmt::Case { arms, .. } => add_assigned_by_arms(alloc, list, arms, names, later),
        Stmt::Assign { target, now, .. } => {
            if counts(*now, later) {
                add_writes(alloc, list, target, names)
            } else {
                Ok(())
            }
        }
    }
}

/// Whether an assignment is one of those: by `=` it is.
fn counts(now: bool, later: bool) -> bool
    ensures { result ≡ (now || later) }
{
    now || later
}

#[cycle(assigned)]
fn add_assigned_by_all(
    alloc: Global,
    list: &mut Vec<Write>,
    body: &[Stmt],
    names: &Scope,
    later: bool,
) -> Result<(), AllocError>
    requires { statements_faults names.now (plain_statements body.now) ≡ [] }
    ensures { OnOk result ((b : Bit) → may list.new.items b ≡ (may list.old.items b || assign_any later names.now (plain_statements body.now) b)) }
{
    for stmt in body.iter() {
        add_assigned_bits(alloc, list, stmt, names, later)?;
    }
    Ok(())
}

#[cycle(assigned)]
fn add_assigned_by_arms(
    alloc: Global,
    list: &mut Vec<Write>,
    arms: &[Arm],
    names: &Scope,
    later: bool,
) -> Result<(), AllocError>
    requires { arms_faults names.now (plain_arms arms.now) ≡ [] }
    ensures { OnOk result ((b : Bit) → may list.new.items b ≡ (may list.old.items b || arms_assign later names.now (plain_arms arms.now) b)) }
{
    for arm in arms.iter() {
        add_assigned_bits(alloc, list, arm.body, names, later)?;
    }
    Ok(())
}
