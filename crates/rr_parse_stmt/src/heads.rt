//! The heads of loops (IEEE 1364-2005 section 9.6, annex A.6.8).

ghost use Rattle.std.specs.Prelude.{◌≡◌, ◌≤◌, ◌<◌, ◌+◌, ◌^◌, length, drop, IfOk, Some};
ghost use Rattle.rr_syntax.specs.Words.{words, mark_open_parenthesis, mark_semicolon};
ghost use Rattle.rr_parse_expr.specs.Reading.{below, closed as closed_of, mark as mark_of, no_mark};
ghost use Rattle.rr_parse_stmt.specs.Reading.{head as head_of, setting as setting_of};
ghost use Rattle.rr_parse_stmt.specs.Answer.{AnswersHead, AnswersName, AnswersSetting, FindsSetting, FindsTree};

use crate::expressions::{Placed, closed};
use bumpalo::Bump;
use rr_parse_expr::{is_mark, name_at};
use rr_syntax::{Head, Mark, Named, Token};
use std::alloc::AllocError;

/// A name and the expression that it is set to, with the token after the mark behind that.
#[derive(Clone, Copy)]
pub(crate) struct NamePiece<'a> {
    pub(crate) name: Named<'a>,
    pub(crate) value: Placed<'a>,
}

/// The head of a loop and the token after it.
#[derive(Clone, Copy)]
pub(crate) struct HeadPiece<'a> {
    pub(crate) head: Head<'a>,
    pub(crate) next: u32,
}

/// A name, `=` and an expression, and this mark behind it, which is taken too.
fn setting<'a>(
    tokens: &'a [Token<'a>],
    from: u32,
    mark: Mark,
    room: u32,
    arena: &'a Bump,
) -> Result<Option<NamePiece<'a>>, AllocError>
    requires short { length tokens.now < 2 ^ 32 }
    requires shallow { room ≤ 501 }
    requires is_mark { mark.0 < no_mark }
    ensures { IfOk result (λ r. AnswersSetting tokens.now from (setting_of (below room) mark.0 (drop from (words tokens.now))) r) }
{
    match name_at(tokens, from) {
        None => Ok(None),
        Some(name) => set_value(tokens, from, name, mark, room, arena),
    }
}

/// The same behind the name, which stands at `from`.
fn set_value<'a>(
    tokens: &'a [Token<'a>],
    from: u32,
    name: Named<'a>,
    mark: Mark,
    room: u32,
    arena: &'a Bump,
) -> Result<Option<NamePiece<'a>>, AllocError>
    requires short { length tokens.now < 2 ^ 32 }
    requires shallow { room ≤ 501 }
    requires is_mark { mark.0 < no_mark }
    requires inside { from < length tokens.now }
    requires name_read { AnswersName tokens.now from (Some name) }
    ensures { IfOk result (λ r. AnswersSetting tokens.now from (setting_of (below room) mark.0 (drop from (words tokens.now))) r) }
{
    if !is_mark(tokens, from + 1, Mark::EQUALS) {
        return Ok(None);
    }
    match closed(tokens, from + 2, mark, room, arena)? {
        None => Ok(None),
        Some(value) => Ok(Some(NamePiece { name, value })),
    }
}

/// The first value, the test and the step of a loop in brackets.
pub(crate) fn head<'a>(
    tokens: &'a [Token<'a>],
    from: u32,
    room: u32,
    arena: &'a Bump,
) -> Result<Option<HeadPiece<'a>>, AllocError>
    requires short { length tokens.now < 2 ^ 32 }
    requires shallow { room ≤ 501 }
    ensures { IfOk result (λ r. AnswersHead tokens.now from (head_of (below room) (drop from (words tokens.now))) r) }
{
    if !is_mark(tokens, from, Mark::OPEN_PARENTHESIS) {
        return Ok(None);
    }
    match setting(tokens, from + 1, Mark::SEMICOLON, room, arena)? {
        None => Ok(None),
        Some(start) => head_test(tokens, from, start, room, arena),
    }
}

/// The same behind the first value, where the brackets open at `from`.
fn head_test<'a>(
    tokens: &'a [Token<'a>],
    from: u32,
    start: NamePiece<'a>,
    room: u32,
    arena: &'a Bump,
) -> Result<Option<HeadPiece<'a>>, AllocError>
    requires short { length tokens.now < 2 ^ 32 }
    requires shallow { room ≤ 501 }
    requires opened { mark_of (drop from (words tokens.now)) ≡ mark_open_parenthesis }
    requires start_read { FindsSetting tokens.now (from + 1) (setting_of (below room) mark_semicolon (drop (from + 1) (words tokens.now))) start }
    ensures { IfOk result (λ r. AnswersHead tokens.now from (head_of (below room) (drop from (words tokens.now))) r) }
{
    match closed(tokens, start.value.next, Mark::SEMICOLON, room, arena)? {
        None => Ok(None),
        Some(test) => head_step(tokens, from, start, test, room, arena),
    }
}

/// The same behind the test.
fn head_step<'a>(
    tokens: &'a [Token<'a>],
    from: u32,
    start: NamePiece<'a>,
    test: Placed<'a>,
    room: u32,
    arena: &'a Bump,
) -> Result<Option<HeadPiece<'a>>, AllocError>
    requires short { length tokens.now < 2 ^ 32 }
    requires shallow { room ≤ 501 }
    requires opened { mark_of (drop from (words tokens.now)) ≡ mark_open_parenthesis }
    requires start_read { FindsSetting tokens.now (from + 1) (setting_of (below room) mark_semicolon (drop (from + 1) (words tokens.now))) start }
    requires test_read { FindsTree tokens.now start.value.next 1 (closed_of (below room) mark_semicolon (drop start.value.next (words tokens.now))) test }
    ensures { IfOk result (λ r. AnswersHead tokens.now from (head_of (below room) (drop from (words tokens.now))) r) }
{
    match setting(tokens, test.next, Mark::CLOSE_PARENTHESIS, room, arena)? {
        None => Ok(None),
        Some(step) => {
            let head = Head {
                token: start.name.token,
                name: start.name.name,
                start: start.value.expr,
                test: test.expr,
                step_token: step.name.token,
                step_name: step.name.name,
                step: step.value.expr,
            };
            Ok(Some(HeadPiece {
                head,
                next: step.value.next,
            }))
        }
    }
}
