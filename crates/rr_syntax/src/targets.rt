//! What may be assigned.

ghost use Rattle.std.specs.Prelude.{◌≡◌};
ghost use Rattle.rr_syntax.specs.Expressions.{is_target as is_target_of, are_targets as are_targets_of};
ghost use Rattle.rr_syntax.specs.View.{plain, plain_list};

use crate::tree::Expr;

/// Whether a tree may be assigned: a name, a select of one, or such trees in braces (IEEE 1364-2005
/// annex A.8.5).
#[tactic(auto, using(crate::proofs::TargetForms::target_forms))]
#[cycle(targets)]
pub fn is_target(expr: &Expr) -> bool
    ensures { result ≡ is_target_of (plain expr.now) }
{
    match expr {
        Expr::Name { .. } | Expr::Bit { .. } | Expr::Part { .. } | Expr::Indexed { .. } => true,
        Expr::Concat { parts } => are_targets(parts),
        Expr::Literal { .. }
        | Expr::Unary { .. }
        | Expr::Binary { .. }
        | Expr::Cond { .. }
        | Expr::Repeat { .. }
        | Expr::Cast { .. }
        | Expr::Paren { .. } => false,
    }
}

#[tactic(auto, using(crate::proofs::TargetForms::target_forms))]
#[cycle(targets)]
fn are_targets(parts: &[Expr]) -> bool
    ensures { result ≡ are_targets_of (plain_list parts.now) }
{
    for part in parts.iter() {
        if !is_target(part) {
            return false;
        }
    }
    true
}
