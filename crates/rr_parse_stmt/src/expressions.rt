//! Expressions below statements, with the marks that stand around them.

ghost use Rattle.std.specs.Prelude.{◌≤◌, ◌<◌, ◌+◌, ◌^◌, length, drop, IfOk};
ghost use Rattle.rr_syntax.specs.Words.{words};
ghost use Rattle.rr_parse_expr.specs.Reading.{below, closed as closed_of, no_mark};
ghost use Rattle.rr_parse_stmt.specs.Reading.{labels as labels_of, target as target_of, tested as tested_of};
ghost use Rattle.rr_parse_stmt.specs.Answer.{AnswersEntry, AnswersLabels, AnswersList, AnswersTarget, AnswersTree};

use bumpalo::Bump;
use rr_parse_expr::{
    Input, ParseFault, Piece, expr_before, expr_within, is_mark, list, target_within,
};
use rr_syntax::{Expr, Mark, Token};
use std::alloc::AllocError;

/// An expression and the token after what was read.
#[derive(Clone, Copy)]
pub(crate) struct Placed<'a> {
    pub(crate) expr: &'a Expr<'a>,
    pub(crate) next: u32,
}

/// The labels of an arm and the token after their colon.
#[derive(Clone, Copy)]
pub(crate) struct LabelList<'a> {
    pub(crate) exprs: &'a [Expr<'a>],
    pub(crate) next: u32,
}

/// An expression and this mark behind it, which is taken too.
pub(crate) fn closed<'a>(
    tokens: &'a [Token<'a>],
    from: u32,
    mark: Mark,
    room: u32,
    arena: &'a Bump,
) -> Result<Option<Placed<'a>>, AllocError>
    requires short { length tokens.now < 2 ^ 32 }
    requires shallow { room ≤ 501 }
    requires is_mark { mark.0 < no_mark }
    ensures { IfOk result (λ r. AnswersTree tokens.now from 1 (closed_of (below room) mark.0 (drop from (words tokens.now))) r) }
{
    if room == 0 {
        return Ok(None);
    }
    match expr_before(tokens, from, mark, room - 1, arena) {
        Ok((expr, next)) => Ok(Some(Placed { expr, next })),
        Err(ParseFault::Memory) => Err(AllocError),
        Err(ParseFault::Syntax(_)) => Ok(None),
        Err(ParseFault::Unsupported(_)) => Ok(None),
    }
}

/// An expression in brackets.
pub(crate) fn tested<'a>(
    tokens: &'a [Token<'a>],
    from: u32,
    room: u32,
    arena: &'a Bump,
) -> Result<Option<Placed<'a>>, AllocError>
    requires short { length tokens.now < 2 ^ 32 }
    requires shallow { room ≤ 501 }
    ensures { IfOk result (λ r. AnswersTree tokens.now (from + 1) 1 (tested_of (below room) (drop from (words tokens.now))) r) }
{
    if !is_mark(tokens, from, Mark::OPEN_PARENTHESIS) {
        return Ok(None);
    }
    closed(tokens, from + 1, Mark::CLOSE_PARENTHESIS, room, arena)
}

/// A target of less than a depth.
pub(crate) fn target<'a>(
    tokens: &'a [Token<'a>],
    from: u32,
    room: u32,
    arena: &'a Bump,
) -> Result<Option<Placed<'a>>, AllocError>
    requires short { length tokens.now < 2 ^ 32 }
    requires shallow { room ≤ 501 }
    ensures { IfOk result (λ r. AnswersTarget tokens.now from (target_of (below room) (drop from (words tokens.now))) r) }
{
    if room == 0 {
        return Ok(None);
    }
    match target_within(tokens, from, room - 1, arena) {
        Ok((expr, next)) => Ok(Some(Placed { expr, next })),
        Err(ParseFault::Memory) => Err(AllocError),
        Err(ParseFault::Syntax(_)) => Ok(None),
        Err(ParseFault::Unsupported(_)) => Ok(None),
    }
}

/// A label of an arm, as an entry of a list.
fn entry<'a>(input: Input<'a>, from: u32, room: u32) -> Result<Piece<Expr<'a>>, ParseFault>
    requires short { length input.tokens.now < 2 ^ 32 }
    requires shallow { room ≤ 501 }
    ensures { AnswersEntry input.entry.tokens.now from (below room 1 (drop from (words input.entry.tokens.now))) result }
{
    if room == 0 {
        return Err(ParseFault::Syntax(from));
    }
    let (expr, next) = expr_within(input.tokens, from, room - 1, input.arena)?;
    Ok(Piece { value: *expr, next })
}

/// Labels with commas between; a colon has to stand behind them.
fn label_list<'a>(
    input: Input<'a>,
    from: u32,
    room: u32,
) -> Result<Piece<&'a [Expr<'a>]>, ParseFault>
    requires short { length input.tokens.now < 2 ^ 32 }
    requires shallow { room ≤ 501 }
    ensures { AnswersList input.entry.tokens.now from (labels_of (below room) (drop from (words input.entry.tokens.now))) result }
{
    list(input.tokens, from, input.arena, |at| entry(input, at, room))
}

/// The labels of an arm, with commas between, up to and with their colon.
pub(crate) fn labels<'a>(
    tokens: &'a [Token<'a>],
    from: u32,
    room: u32,
    arena: &'a Bump,
) -> Result<Option<LabelList<'a>>, AllocError>
    requires short { length tokens.now < 2 ^ 32 }
    requires shallow { room ≤ 501 }
    ensures { IfOk result (λ r. AnswersLabels tokens.now from (labels_of (below room) (drop from (words tokens.now))) r) }
{
    match label_list(Input { tokens, arena }, from, room) {
        Ok(found) => {
            if !is_mark(tokens, found.next, Mark::COLON) {
                return Ok(None);
            }
            Ok(Some(LabelList {
                exprs: found.value,
                next: found.next + 1,
            }))
        }
        Err(ParseFault::Memory) => Err(AllocError),
        Err(ParseFault::Syntax(_)) => Ok(None),
        Err(ParseFault::Unsupported(_)) => Ok(None),
    }
}
