//! The marks of expressions by their levels (IEEE 1364-2005 section 5.1.2).

ghost use Rattle.std.specs.Prelude.{◌≡◌, ◌≤◌, false, drop, MatchOption};
ghost use Rattle.rr_syntax.specs.Expressions.{level as level_of, depth as depth_of};
ghost use Rattle.rr_syntax.specs.View.{plain};
ghost use Rattle.rr_syntax.specs.Words.{words};
ghost use Rattle.rr_parse_expr.specs.Reading.{cast_sign as sign_of, goes_on as goes_on_of, is_between as between_of, mark as mark_of};
ghost use Rattle.rr_parse_expr.specs.Answer.{IsBetween, IsOperator};

use crate::nodes::Read;
use crate::tokens::mark_at;
use rr_syntax::{Expr, Mark, Token, infix_level};

/// The level of an operator before one operand, above those between two.
pub(crate) const UNARY_LEVEL: u8 = 13;

const PRIMARY_LEVEL: u8 = 14;

/// How tightly the outermost node binds.
#[tactic(auto, unfolding(rr_syntax::specs::Expressions::level, rr_syntax::specs::View::plain))]
fn level(expr: &Expr) -> u8
    ensures { result ≡ level_of (plain expr.now) }
{
    match expr {
        Expr::Unary { .. } => UNARY_LEVEL,
        Expr::Binary { op, .. } => infix_level(*op),
        Expr::Cond { .. } => 1,
        Expr::Name { .. }
        | Expr::Literal { .. }
        | Expr::Bit { .. }
        | Expr::Part { .. }
        | Expr::Indexed { .. }
        | Expr::Concat { .. }
        | Expr::Repeat { .. }
        | Expr::Cast { .. }
        | Expr::Paren { .. } => PRIMARY_LEVEL,
    }
}

/// Whether the operator may go on after what was read.
#[tactic(auto, unfolding(crate::specs::Reading::goes_on, crate::specs::Reading::left_level))]
fn goes_on(left: &Read, mark: Mark, low: u8, limit: u32) -> bool
    requires { left.now.depth ≡ depth_of (plain left.now.expr) }
    ensures { result ≡ goes_on_of limit low (plain left.now.expr) mark.0 }
{
    let needed = if mark == Mark::QUESTION {
        2
    } else {
        infix_level(mark)
    };
    low <= infix_level(mark) && needed <= level(&left.expr) && left.depth < limit
}

/// The operator behind what was read, if one may go on there.
pub(crate) fn operator_at(tokens: &[Token], left: &Read, low: u8, limit: u32) -> Option<Mark>
    requires deep { left.now.depth ≡ depth_of (plain left.now.expr) }
    requires low_level { 1 ≤ low }
    ensures { MatchOption result (goes_on_of limit low (plain left.now.expr) (mark_of (drop left.now.next (words tokens.now))) ≡ false) (λ op. IsOperator limit low left.now (drop left.now.next (words tokens.now)) op) }
{
    match mark_at(tokens, left.next) {
        None => None,
        Some(mark) => {
            if goes_on(left, mark, low, limit) {
                Some(mark)
            } else {
                None
            }
        }
    }
}

/// Whether a mark stands between the two expressions of a select.
#[tactic(auto, unfolding(crate::specs::Reading::is_between))]
fn is_between(mark: Mark) -> bool
    ensures { result ≡ between_of mark.0 }
{
    mark == Mark::COLON || mark == Mark::PART_UP || mark == Mark::PART_DOWN
}

/// The mark between the two expressions of a select, if one stands at a token.
pub(crate) fn between_at(tokens: &[Token], at: u32) -> Option<Mark>
    ensures { MatchOption result (between_of (mark_of (drop at (words tokens.now))) ≡ false) (λ m. IsBetween (drop at (words tokens.now)) m) }
{
    match mark_at(tokens, at) {
        None => None,
        Some(mark) => { if is_between(mark) { Some(mark) } else { None } }
    }
}

/// Whether a system name casts to signed or to unsigned (section 5.5).
#[tactic(auto, unfolding(crate::specs::Reading::cast_sign))]
pub(crate) fn cast_sign(name: &str) -> Option<bool>
    ensures { result ≡ sign_of name.now }
{
    if name == "signed" {
        Some(true)
    } else if name == "unsigned" {
        Some(false)
    } else {
        None
    }
}
