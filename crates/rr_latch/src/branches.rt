//! What the statements of a combinational block read before they assign it, and what they assign on
//! each path (IEEE 1364-2005 sections 9.4 and 9.5). With `later` each `<=` that assigns counts as `=`.
ghost use Rattle.std.specs.Prelude.{◌≡◌, ◌≤◌, ◌&&◌, ◌||◌, ◌⊎◌, [], None, false, length, drop, IfOk, OnOk};
ghost use Rattle.rr_syntax.specs.Tree.{Assign};
ghost use Rattle.rr_syntax.specs.View.{plain, plain_arms, plain_statement, plain_statements};
ghost use Rattle.rr_expr.specs.Faults.{fault};
ghost use Rattle.rr_expr.specs.declared.types.Bit.{Bit as BitOfSignal};
ghost use Rattle.rr_flat.specs.Latches.{known, known_all, has_default as some_default};
ghost use Rattle.rr_flat.specs.Shapes.{arms_faults, statement_faults, statements_faults};
ghost use Rattle.rr_latch.specs.Notes.{Noted};
ghost use Rattle.rr_latch.specs.Paths.{Logged, Ran, assigned, counted, counted_all, counted_arms, in_all, known_by_case, listed, listed_in, taken};
ghost use Rattle.rr_latch.specs.Unassigned.{AnyReadEarly, ArmsReadEarly, ReadEarly};

use crate::early::{Early, read, read_labels, read_target};
use crate::paths::{Path, assign_bits, assign_writes, assigned_of, undo};
use rr_expr::Scope;
use rr_flat::Bit;
use rr_named_bits::add_writes;
use rr_syntax::{Arm, Expr, Stmt};
use std::alloc::{AllocError, Global};

/// Goes through a statement: the bits that it assigns on each path are assigned, and those that it reads
/// before they are assigned are noted.
#[cycle(paths)]
pub(crate) fn run(
    alloc: Global,
    stmt: &Stmt,
    names: &Scope,
    later: bool,
    path: &mut Path,
    early: &mut Early,
) -> Result<(), AllocError>
    requires { statement_faults names.now (plain_statement stmt.now) ≡ [] }
    ensures ran { OnOk result (Ran (known names.now (assigned path.old.unassigned) (counted later (plain_statement stmt.now))) (assigned path.old.unassigned) (assigned path.new.unassigned) path.old.log.items path.new.log.items) }
    ensures noted { OnOk result (Noted (ReadEarly names.now (assigned path.old.unassigned) (counted later (plain_statement stmt.now))) early.old early.new) }
{
    match stmt {
        Stmt::Null => Ok(()),
        Stmt::For { .. } => Ok(()),
        Stmt::Block { body, .. } => run_all(alloc, body, names, later, path, early),
        Stmt::If { test, yes, no } => {
            read(alloc, test, names, &path.unassigned, early)?;
            match no {
                None => run_if(alloc, yes, names, later, path, early),
                Some(other) => run_if_else(alloc, yes, other, names, later, path, early),
            }
        }
        Stmt::Case { on, arms, .. } => {
            read(alloc, on, names, &path.unassigned, early)?;
            run_arms(alloc, arms, names, later, path, early)
        }
        Stmt::Assign { target, now, value } => {
            run_assign(
                alloc,
                target,
                counts(*now, later),
                value,
                names,
                path,
                early,
            )
        }
    }
}

#[cycle(paths)]
fn run_all(
    alloc: Global,
    body: &[Stmt],
    names: &Scope,
    later: bool,
    path: &mut Path,
    early: &mut Early,
) -> Result<(), AllocError>
    requires { statements_faults names.now (plain_statements body.now) ≡ [] }
    ensures ran { OnOk result (Ran (known_all names.now (assigned path.old.unassigned) (counted_all later (plain_statements body.now))) (assigned path.old.unassigned) (assigned path.new.unassigned) path.old.log.items path.new.log.items) }
    ensures noted { OnOk result (Noted (AnyReadEarly names.now (assigned path.old.unassigned) (counted_all later (plain_statements body.now))) early.old early.new) }
{
    for stmt in body.iter() {
        run(alloc, stmt, names, later, path, early)?;
    }
    Ok(())
}

/// Goes through the branch of an `if` without `else`: what it assigns is not assigned on each path.
#[cycle(paths)]
fn run_if(
    alloc: Global,
    yes: &Stmt,
    names: &Scope,
    later: bool,
    path: &mut Path,
    early: &mut Early,
) -> Result<(), AllocError>
    requires { statement_faults names.now (plain_statement yes.now) ≡ [] }
    ensures ran { OnOk result (Ran (λ b. known names.now (assigned path.old.unassigned) (counted later (plain_statement yes.now)) b && assigned path.old.unassigned b) (assigned path.old.unassigned) (assigned path.new.unassigned) path.old.log.items path.new.log.items) }
    ensures noted { OnOk result (Noted (ReadEarly names.now (assigned path.old.unassigned) (counted later (plain_statement yes.now))) early.old early.new) }
{
    branch(alloc, yes, names, later, path, early, None)?;
    Ok(())
}

/// Goes through the branches of an `if` with `else`: what both assign is assigned.
#[cycle(paths)]
fn run_if_else(
    alloc: Global,
    yes: &Stmt,
    no: &Stmt,
    names: &Scope,
    later: bool,
    path: &mut Path,
    early: &mut Early,
) -> Result<(), AllocError>
    requires yes { statement_faults names.now (plain_statement yes.now) ≡ [] }
    requires no { statement_faults names.now (plain_statement no.now) ≡ [] }
    ensures ran { OnOk result (Ran (λ b. known names.now (assigned path.old.unassigned) (counted later (plain_statement yes.now)) b && known names.now (assigned path.old.unassigned) (counted later (plain_statement no.now)) b) (assigned path.old.unassigned) (assigned path.new.unassigned) path.old.log.items path.new.log.items) }
    ensures noted { OnOk result (Noted (λ b. ReadEarly names.now (assigned path.old.unassigned) (counted later (plain_statement yes.now)) b ⊎ ReadEarly names.now (assigned path.old.unassigned) (counted later (plain_statement no.now)) b) early.old early.new) }
{
    let first = branch(alloc, yes, names, later, path, early, None)?;
    let both = branch(alloc, no, names, later, path, early, Some(first))?;
    assign_bits(path, both.as_slice())?;
    Ok(())
}

/// Goes through the arms of a `case`: with a default, what all of them assign is assigned.
#[cycle(paths)]
fn run_arms(
    alloc: Global,
    arms: &[Arm],
    names: &Scope,
    later: bool,
    path: &mut Path,
    early: &mut Early,
) -> Result<(), AllocError>
    requires { arms_faults names.now (plain_arms arms.now) ≡ [] }
    ensures ran { OnOk result (Ran (known_by_case names.now (assigned path.old.unassigned) (counted_arms later (plain_arms arms.now))) (assigned path.old.unassigned) (assigned path.new.unassigned) path.old.log.items path.new.log.items) }
    ensures noted { OnOk result (Noted (ArmsReadEarly names.now (assigned path.old.unassigned) (counted_arms later (plain_arms arms.now))) early.old early.new) }
{
    let mut common = None;
    for arm in arms.iter() {
        read_labels(alloc, arm.labels, names, &path.unassigned, early)?;
        common = Some(branch(alloc, arm.body, names, later, path, early, common)?);
    }
    assign_common(path, common, has_default(arms))?;
    Ok(())
}

/// Whether an arm has no labels.
fn has_default(arms: &[Arm]) -> bool
    ensures { result ≡ some_default (plain_arms arms.now) }
{
    for arm in arms.iter() {
        if arm.labels.is_empty() {
            return true;
        }
    }
    false
}

/// With a default the bits that all arms assign are assigned.
fn assign_common(path: &mut Path, common: Option<Vec<Bit>>, default: bool) -> Result<(), AllocError>
    ensures set { OnOk result ((b : BitOfSignal) → assigned path.new.unassigned b ≡ (assigned path.old.unassigned b || (default && listed_in common b))) }
    ensures log { OnOk result (Logged path.old.log.items path.new.log.items (assigned path.old.unassigned) (assigned path.new.unassigned)) }
{
    if default && let Some(bits) = common {
        assign_bits(path, bits.as_slice())?;
    }
    Ok(())
}

/// Whether an assignment counts as one by `=`.
fn counts(now: bool, later: bool) -> bool
    ensures { result ≡ (now || later) }
{
    now || later
}

/// Goes through an assignment: by `=` it assigns the bits that it writes for certain.
fn run_assign(
    alloc: Global,
    target: &Expr,
    now: bool,
    value: &Expr,
    names: &Scope,
    path: &mut Path,
    early: &mut Early,
) -> Result<(), AllocError>
    requires target { fault names.now (plain target.now) false ≡ None }
    requires value { fault names.now (plain value.now) false ≡ None }
    ensures ran { OnOk result (Ran (known names.now (assigned path.old.unassigned) (Assign (plain target.now) now (plain value.now))) (assigned path.old.unassigned) (assigned path.new.unassigned) path.old.log.items path.new.log.items) }
    ensures noted { OnOk result (Noted (ReadEarly names.now (assigned path.old.unassigned) (Assign (plain target.now) now (plain value.now))) early.old early.new) }
{
    read_target(alloc, target, names, &path.unassigned, early)?;
    read(alloc, value, names, &path.unassigned, early)?;
    if now {
        let mut writes = Vec::new(alloc);
        add_writes(alloc, &mut writes, target, names)?;
        assign_writes(path, writes.as_slice())?;
    }
    Ok(())
}

/// Goes through a branch and takes back what it assigned: the answer has those of the common bits that
/// it assigns, without common bits all that it newly assigns.
#[cycle(paths)]
fn branch(
    alloc: Global,
    stmt: &Stmt,
    names: &Scope,
    later: bool,
    path: &mut Path,
    early: &mut Early,
    common: Option<Vec<Bit>>,
) -> Result<Vec<Bit>, AllocError>
    requires { statement_faults names.now (plain_statement stmt.now) ≡ [] }
    ensures bits { IfOk result (λ v. (b : BitOfSignal) → listed v.items b ≡ (in_all (assigned path.old.unassigned) common b && known names.now (assigned path.old.unassigned) (counted later (plain_statement stmt.now)) b)) }
    ensures set { OnOk result ((b : BitOfSignal) → assigned path.new.unassigned b ≡ assigned path.old.unassigned b) }
    ensures log { OnOk result (path.new.log.items ≡ path.old.log.items) }
    ensures noted { OnOk result (Noted (ReadEarly names.now (assigned path.old.unassigned) (counted later (plain_statement stmt.now))) early.old early.new) }
{
    let before = path.log.len();
    run(alloc, stmt, names, later, path, early)?;
    let bits = assigned_by(alloc, path, before, common)?;
    undo(path, before)?;
    Ok(bits)
}

/// Of the common bits those that are assigned; without common bits those of the list from a place on.
fn assigned_by(
    alloc: Global,
    path: &Path,
    before: usize,
    common: Option<Vec<Bit>>,
) -> Result<Vec<Bit>, AllocError>
    requires { before ≤ length path.now.log.items }
    ensures { IfOk result (λ v. (b : BitOfSignal) → listed v.items b ≡ taken (drop before path.now.log.items) (assigned path.now.unassigned) common b) }
{
    match common {
        None => since(alloc, path.log.as_slice(), before),
        Some(common) => assigned_of(alloc, &path.unassigned, common.as_slice()),
    }
}

/// The bits of a list from a place on.
fn since(alloc: Global, log: &[Bit], before: usize) -> Result<Vec<Bit>, AllocError>
    requires { before ≤ length log.now }
    ensures { IfOk result (λ v. v.items ≡ drop before log.now) }
{
    Vec::from_slice(alloc, &log[before..])
}
