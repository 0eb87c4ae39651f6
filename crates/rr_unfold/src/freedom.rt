//! Whether a loop stands in a statement.

ghost use Rattle.std.specs.Prelude.{◌≡◌};
ghost use Rattle.rr_syntax.specs.View.{plain_arms, plain_statement, plain_statements};
ghost use Rattle.rr_flat.specs.Loops.{all_loop_free as all_loop_free_of, arms_loop_free as arms_loop_free_of, is_loop_free as is_loop_free_of};

use rr_syntax::{Arm, Stmt};

/// Whether no loop stands in a statement.
#[cycle(freedom)]
#[tactic(auto, using(crate::proofs::FreeNodes::free_nodes))]
pub(crate) fn is_loop_free(stmt: &Stmt) -> bool
    ensures { result ≡ is_loop_free_of (plain_statement stmt.now) }
{
    match stmt {
        Stmt::Null | Stmt::Assign { .. } => true,
        Stmt::Block { body, .. } => all_loop_free(body),
        Stmt::If { yes, no: None, .. } => is_loop_free(yes),
        Stmt::If {
            yes,
            no: Some(other),
            ..
        } => is_loop_free(yes) && is_loop_free(other),
        Stmt::Case { arms, .. } => arms_loop_free(arms),
        Stmt::For { .. } => false,
    }
}

#[cycle(freedom)]
fn all_loop_free(body: &[Stmt]) -> bool
    ensures { result ≡ all_loop_free_of (plain_statements body.now) }
{
    for stmt in body.iter() {
        if !is_loop_free(stmt) {
            return false;
        }
    }
    true
}

#[cycle(freedom)]
fn arms_loop_free(arms: &[Arm]) -> bool
    ensures { result ≡ arms_loop_free_of (plain_arms arms.now) }
{
    for arm in arms.iter() {
        if !is_loop_free(arm.body) {
            return false;
        }
    }
    true
}
