//! The bits that statements read.
ghost use Rattle.std.specs.Prelude.{◌≡◌, [], OnOk};
ghost use Rattle.rr_syntax.specs.View.{plain_arms, plain_list, plain_statement, plain_statements};
ghost use Rattle.rr_expr.specs.Reading.{NamesBits};
ghost use Rattle.rr_flat.specs.Reads.{ArmsRead, StatementReads, StatementsRead};
ghost use Rattle.rr_flat.specs.Shapes.{arms_faults, list_faults, statement_faults, statements_faults};
ghost use Rattle.rr_named_bits.specs.Lists.{Grown};

use rr_expr::Scope;
use rr_named_bits::{Reach, add_named_bits, add_target_reads};
use rr_syntax::{Arm, Expr, Stmt};
use std::alloc::{AllocError, Global};

/// Adds the bits that a statement reads on some path: those that its expressions, and the indices of
/// its targets, name (IEEE 1364-2005 section 9). Each expression in it has a shape.
#[cycle(reading)]
pub(crate) fn add_read_bits(
    alloc: Global,
    list: &mut Vec<Reach>,
    stmt: &Stmt,
    names: &Scope,
) -> Result<(), AllocError>
    requires { statement_faults names.now (plain_statement stmt.now) ≡ [] }
    ensures { OnOk result (Grown list.old.items list.new.items (StatementReads names.now (plain_statement stmt.now))) }
{
    match stmt {
        Stmt::Null => Ok(()),
        Stmt::For { .. } => Ok(()),
        Stmt::Block { body, .. } => add_read_by_all(alloc, list, body, names),
        Stmt::If { test, yes, no } => {
            add_named_bits(alloc, list, test, names)?;
            add_read_bits(alloc, list, yes, names)?;
            match no {
                Some(other) => add_read_bits(alloc, list, other, names),
                None => Ok(()),
            }
        }
        Stmt::Case { on, arms, .. } => {
            add_named_bits(alloc, list, on, names)?;
            add_read_by_arms(alloc, list, arms, names)
        }
        Stmt::Assign { target, value, .. } => {
            add_target_reads(alloc, list, target, names)?;
            add_named_bits(alloc, list, value, names)
        }
    }
}

#[cycle(reading)]
fn add_read_by_all(
    alloc: Global,
    list: &mut Vec<Reach>,
    body: &[Stmt],
    names: &Scope,
) -> Result<(), AllocError>
    requires { statements_faults names.now (plain_statements body.now) ≡ [] }
    ensures { OnOk result (Grown list.old.items list.new.items (StatementsRead names.now (plain_statements body.now))) }
{
    for stmt in body.iter() {
        add_read_bits(alloc, list, stmt, names)?;
    }
    Ok(())
}

#[cycle(reading)]
fn add_read_by_arms(
    alloc: Global,
    list: &mut Vec<Reach>,
    arms: &[Arm],
    names: &Scope,
) -> Result<(), AllocError>
    requires { arms_faults names.now (plain_arms arms.now) ≡ [] }
    ensures { OnOk result (Grown list.old.items list.new.items (ArmsRead names.now (plain_arms arms.now))) }
{
    for arm in arms.iter() {
        add_labels(alloc, list, arm.labels, names)?;
        add_read_bits(alloc, list, arm.body, names)?;
    }
    Ok(())
}

fn add_labels(
    alloc: Global,
    list: &mut Vec<Reach>,
    labels: &[Expr],
    names: &Scope,
) -> Result<(), AllocError>
    requires { list_faults names.now (plain_list labels.now) ≡ [] }
    ensures { OnOk result (Grown list.old.items list.new.items (NamesBits names.now (plain_list labels.now))) }
{
    for label in labels.iter() {
        add_named_bits(alloc, list, label, names)?;
    }
    Ok(())
}
