//! The targets of a statement of a source, in its loops too.
ghost use Rattle.std.specs.Prelude.{◌≡◌, ◌++◌, OnOk, map};
ghost use Rattle.rr_syntax.specs.View.{plain_arms, plain_statement, plain_statements};
ghost use Rattle.rr_text_names.specs.View.{plain_target};
ghost use Rattle.rr_lint_laws.specs.Ever.{ever_assigned, ever_assigned_all, ever_assigned_arms};

use rr_syntax::{Arm, Stmt};
use rr_text_names::{Target, add_parts};
use std::alloc::AllocError;

/// The names and selects that a statement assigns, those of its loops each once.
#[cycle(ever)]
#[tactic(auto, using(crate::proofs::EverOfNodes::ever_nodes))]
pub(crate) fn add_ever_assigned<'a>(
    list: &mut Vec<Target<'a>>,
    stmt: &'a Stmt<'a>,
) -> Result<(), AllocError>
    ensures { OnOk result (map plain_target list.new.items ≡ map plain_target list.old.items ++ ever_assigned (plain_statement stmt.now)) }
{
    match stmt {
        Stmt::Null => Ok(()),
        Stmt::Block { body, .. } => add_ever_assigned_by_all(list, body),
        Stmt::If { yes, no: None, .. } => add_ever_assigned(list, yes),
        Stmt::If {
            yes,
            no: Some(other),
            ..
        } => {
            add_ever_assigned(list, yes)?;
            add_ever_assigned(list, other)
        }
        Stmt::Case { arms, .. } => add_ever_assigned_by_arms(list, arms),
        Stmt::Assign { target, now, .. } => add_parts(list, target, *now),
        Stmt::For { body, .. } => add_ever_assigned(list, body),
    }
}

#[cycle(ever)]
fn add_ever_assigned_by_all<'a>(
    list: &mut Vec<Target<'a>>,
    body: &'a [Stmt<'a>],
) -> Result<(), AllocError>
    ensures { OnOk result (map plain_target list.new.items ≡ map plain_target list.old.items ++ ever_assigned_all (plain_statements body.now)) }
{
    for stmt in body.iter() {
        add_ever_assigned(list, stmt)?;
    }
    Ok(())
}

#[cycle(ever)]
fn add_ever_assigned_by_arms<'a>(
    list: &mut Vec<Target<'a>>,
    arms: &'a [Arm<'a>],
) -> Result<(), AllocError>
    ensures { OnOk result (map plain_target list.new.items ≡ map plain_target list.old.items ++ ever_assigned_arms (plain_arms arms.now)) }
{
    for arm in arms.iter() {
        add_ever_assigned(list, arm.body)?;
    }
    Ok(())
}
