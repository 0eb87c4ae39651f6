//! Expressions and statements in items, with the marks that stand around them.

ghost use Rattle.std.specs.Prelude.{◌≤◌, ◌<◌, ◌+◌, ◌^◌, length};
ghost use Rattle.rr_syntax.specs.View.{plain, plain_range};
ghost use Rattle.rr_parse_expr.specs.Reading.{no_mark};
ghost use Rattle.rr_grammar.specs.Formats.{before_mark};
ghost use Rattle.rr_grammar.specs.ItemForms.{statement_of};
ghost use Rattle.rr_grammar.specs.Leaves.{expression as expression_of, range as range_of, target_of};
ghost use Rattle.rr_parse.specs.Answer.{Answers, bounds_of, plain_behind, plain_bounds, statement_behind};

use rr_parse_expr::{Input, ParseFault, Piece, expr_before, expr_within, is_mark, target_within};
use rr_parse_stmt::stmt;
use rr_syntax::{Bounds, Expr, Mark, Stmt};

/// The longest expression of a depth.
pub(crate) fn expression<'a>(
    input: Input<'a>,
    from: u32,
    depth: u32,
) -> Result<Piece<&'a Expr<'a>>, ParseFault>
    requires short { length input.tokens.now < 2 ^ 32 }
    requires shallow { depth ≤ 500 }
    ensures { Answers (expression_of depth) plain_behind input.entry.tokens.now from result }
{
    let (value, next) = expr_within(input.tokens, from, depth, input.arena)?;
    Ok(Piece { value, next })
}

/// The same, as an entry of a list.
pub(crate) fn entry<'a>(
    input: Input<'a>,
    from: u32,
    depth: u32,
) -> Result<Piece<Expr<'a>>, ParseFault>
    requires short { length input.tokens.now < 2 ^ 32 }
    requires shallow { depth ≤ 500 }
    ensures { Answers (expression_of depth) plain input.entry.tokens.now from result }
{
    let (expr, next) = expr_within(input.tokens, from, depth, input.arena)?;
    Ok(Piece { value: *expr, next })
}

/// An expression and this mark behind it, which is taken too.
pub(crate) fn closed<'a>(
    input: Input<'a>,
    from: u32,
    closing: Mark,
    depth: u32,
) -> Result<Piece<&'a Expr<'a>>, ParseFault>
    requires short { length input.tokens.now < 2 ^ 32 }
    requires shallow { depth ≤ 500 }
    requires is_mark { closing.0 < no_mark }
    ensures { Answers (before_mark (expression_of depth) closing.0) plain_behind input.entry.tokens.now from result }
{
    let (value, next) = expr_before(input.tokens, from, closing, depth, input.arena)?;
    Ok(Piece { value, next })
}

/// The target of an assignment.
pub(crate) fn target<'a>(
    input: Input<'a>,
    from: u32,
    depth: u32,
) -> Result<Piece<&'a Expr<'a>>, ParseFault>
    requires short { length input.tokens.now < 2 ^ 32 }
    requires shallow { depth ≤ 500 }
    ensures { Answers (target_of depth) plain_behind input.entry.tokens.now from result }
{
    let (value, next) = target_within(input.tokens, from, depth, input.arena)?;
    Ok(Piece { value, next })
}

/// A statement of a depth.
pub(crate) fn statement<'a>(
    input: Input<'a>,
    from: u32,
    depth: u32,
) -> Result<Piece<&'a Stmt<'a>>, ParseFault>
    requires short { length input.tokens.now < 2 ^ 32 }
    requires shallow { depth ≤ 500 }
    ensures { Answers (statement_of depth) statement_behind input.entry.tokens.now from result }
{
    let (value, next) = stmt(input.tokens, from, depth, input.arena)?;
    Ok(Piece { value, next })
}

/// The bounds behind the opening bracket of a range.
fn bounds<'a>(input: Input<'a>, from: u32, depth: u32) -> Result<Piece<Bounds<'a>>, ParseFault>
    requires short { length input.tokens.now < 2 ^ 32 }
    requires shallow { depth ≤ 500 }
    ensures { Answers (bounds_of depth) plain_bounds input.entry.tokens.now from result }
{
    let left = closed(input, from, Mark::COLON, depth)?;
    let right = closed(input, left.next, Mark::CLOSE_BRACKET, depth)?;
    Ok(Piece {
        value: Bounds {
            left: left.value,
            right: right.value,
        },
        next: right.next,
    })
}

/// `[left:right]`, where it stands (IEEE 1364-2005 annex A.2.5).
pub(crate) fn range<'a>(
    input: Input<'a>,
    from: u32,
    depth: u32,
) -> Result<Piece<Option<Bounds<'a>>>, ParseFault>
    requires short { length input.tokens.now < 2 ^ 32 }
    requires inside { from ≤ length input.tokens.now }
    requires shallow { depth ≤ 500 }
    ensures { Answers (range_of depth) plain_range input.entry.tokens.now from result }
{
    if !is_mark(input.tokens, from, Mark::OPEN_BRACKET) {
        return Ok(Piece {
            value: None,
            next: from,
        });
    }
    let bounds = bounds(input, from + 1, depth)?;
    Ok(Piece {
        value: Some(bounds.value),
        next: bounds.next,
    })
}
