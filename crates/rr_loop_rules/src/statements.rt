//! Names of loops in statements.

ghost use Rattle.std.specs.Prelude.{◌≡◌, [], IfOk, OnOk, fold};
ghost use Rattle.rr_syntax.specs.View.{plain_arms, plain_statement, plain_statements};
ghost use Rattle.rr_flat.specs.Faults.{sooner};
ghost use Rattle.rr_loop_rules.specs.Rules.{arms_loop_faults, loop_faults, loops_faults};
ghost use Rattle.rr_loop_rules.specs.View.{plain_around};

use crate::around::{enter, leave};
use crate::heads::{note_head, note_turn};
use crate::names::LoopNames;
use crate::strays::{note_parts_inside, note_strays_inside, note_target};
use rr_flat::FlatFault;
use rr_syntax::{Arm, Stmt};
use std::alloc::{AllocError, Global};

/// The first of a fault that was found, if any, and those of a statement inside the loops around it.
#[cycle(noting)]
#[tactic(auto, using(crate::proofs::StatementNodes::statement_nodes))]
fn note_inside<'a>(
    found: Option<FlatFault>,
    names: &LoopNames,
    around: &mut Vec<&'a str>,
    stmt: &Stmt<'a>,
) -> Result<Option<FlatFault>, AllocError>
    ensures faults { IfOk result (λ r. r ≡ fold sooner found (loop_faults names.now (plain_around around.old.items) (plain_statement stmt.now))) }
    ensures kept { OnOk result (plain_around around.new.items ≡ plain_around around.old.items) }
{
    match stmt {
        Stmt::Null => Ok(found),
        Stmt::Block { body, .. } => note_all_inside(found, names, around, body),
        Stmt::If {
            test,
            yes,
            no: None,
        } => {
            let found = note_strays_inside(found, names, around.as_slice(), test);
            note_inside(found, names, around, yes)
        }
        Stmt::If {
            test,
            yes,
            no: Some(other),
        } => {
            let found = note_strays_inside(found, names, around.as_slice(), test);
            let found = note_inside(found, names, around, yes)?;
            note_inside(found, names, around, other)
        }
        Stmt::Case { on, arms, .. } => {
            let found = note_strays_inside(found, names, around.as_slice(), on);
            note_arms_inside(found, names, around, arms)
        }
        Stmt::Assign { target, value, .. } => {
            let found = note_target(found, names, around.as_slice(), target);
            Ok(note_strays_inside(found, names, around.as_slice(), value))
        }
        Stmt::For { head, body } => {
            let found = note_head(found, names, around.as_slice(), head);
            enter(around, head.name)?;
            let found = note_turn(found, names, around.as_slice(), head);
            let found = note_inside(found, names, around, body)?;
            leave(around);
            Ok(found)
        }
    }
}

#[cycle(noting)]
fn note_all_inside<'a>(
    found: Option<FlatFault>,
    names: &LoopNames,
    around: &mut Vec<&'a str>,
    body: &[Stmt<'a>],
) -> Result<Option<FlatFault>, AllocError>
    ensures faults { IfOk result (λ r. r ≡ fold sooner found (loops_faults names.now (plain_around around.old.items) (plain_statements body.now))) }
    ensures kept { OnOk result (plain_around around.new.items ≡ plain_around around.old.items) }
{
    let mut found = found;
    for stmt in body.iter() {
        found = note_inside(found, names, around, stmt)?;
    }
    Ok(found)
}

#[cycle(noting)]
fn note_arms_inside<'a>(
    found: Option<FlatFault>,
    names: &LoopNames,
    around: &mut Vec<&'a str>,
    arms: &[Arm<'a>],
) -> Result<Option<FlatFault>, AllocError>
    ensures faults { IfOk result (λ r. r ≡ fold sooner found (arms_loop_faults names.now (plain_around around.old.items) (plain_arms arms.now))) }
    ensures kept { OnOk result (plain_around around.new.items ≡ plain_around around.old.items) }
{
    let mut found = found;
    for arm in arms.iter() {
        found = note_parts_inside(found, names, around.as_slice(), arm.labels);
        found = note_inside(found, names, around, arm.body)?;
    }
    Ok(found)
}

/// The first of a fault that was found, if any, and those of a statement that stands in no loop. The error
/// is want of memory.
#[tactic(auto, unfolding(crate::specs::View::plain_around))]
pub fn note_loop_faults(
    alloc: Global,
    found: Option<FlatFault>,
    names: &LoopNames,
    stmt: &Stmt,
) -> Result<Option<FlatFault>, AllocError>
    ensures { IfOk result (λ r. r ≡ fold sooner found (loop_faults names.now [] (plain_statement stmt.now))) }
{
    let mut around = Vec::new(alloc);
    note_inside(found, names, &mut around, stmt)
}
