//! The reader of expressions: an operand, and then operators while they bind.

ghost use Rattle.std.specs.Prelude.{◌≡◌, ◌≢◌, ◌≤◌, ◌<◌, ◌+◌, ◌-◌, ◌^◌, [], length, drop, IfOk};
ghost use Rattle.rr_syntax.specs.Words.{words, mark_question};
ghost use Rattle.rr_syntax.specs.Expressions.{infix_level as infix_of};
ghost use Rattle.rr_parse_expr.specs.Reading.{mark as mark_of, after_index as after_index_of, after_mark as after_mark_of, below, braces as braces_of, closed as closed_of, named as named_of, no_mark, operand as operand_of, parts_from as parts_from_of, repeated as repeated_of, select as select_of, system as system_of, turn as turn_of};
ghost use Rattle.rr_parse_expr.specs.Answer.{form, Answers, AnswersBelow, AnswersClosed, Gathers, IsBelow, ReadAs, Steps};

use crate::lists::add;
use crate::marks::{UNARY_LEVEL, between_at, cast_sign, operator_at};
use crate::nodes::{End, Read, binary, bit, cast, concat, cond, paren, part, repeat, unary};
use crate::tokens::is_mark;
use bumpalo::Bump;
use bumpalo::collections::into_bump_slice;
use rr_syntax::{Expr, Kind, Mark, Token, infix_level, is_prefix};
use std::alloc::AllocError;

/// Reads the longest expression of at least a level and of less than a depth.
#[cycle(reader)]
pub(crate) fn read_at<'a>(
    tokens: &'a [Token<'a>],
    from: u32,
    low: u8,
    room: u32,
    arena: &'a Bump,
) -> Result<Option<Read<'a>>, AllocError>
    requires short { length tokens.now < 2 ^ 32 }
    requires shallow { room ≤ 501 }
    requires low_level { (1 ≤ low) × (low ≤ 13) }
    ensures { IfOk result (λ r. AnswersBelow tokens.now from room (below room low (drop from (words tokens.now))) r) }
{
    if room == 0 {
        return Ok(None);
    }
    match operand(tokens, from, room - 1, arena)? {
        None => Ok(None),
        Some(first) => {
            let mut left = first;
            while let Some(more) = step(tokens, from, left, low, room - 1, arena)? {
                left = more;
            }
            Ok(Some(left))
        }
    }
}

/// An expression and this mark behind it, which is taken too.
#[cycle(reader)]
fn closed<'a>(
    tokens: &'a [Token<'a>],
    from: u32,
    mark: Mark,
    limit: u32,
    arena: &'a Bump,
) -> Result<Option<Read<'a>>, AllocError>
    requires short { length tokens.now < 2 ^ 32 }
    requires shallow { limit ≤ 500 }
    requires is_mark { mark.0 < no_mark }
    ensures { IfOk result (λ r. AnswersClosed tokens.now from limit (closed_of (below limit) mark.0 (drop from (words tokens.now))) r) }
{
    match read_at(tokens, from, 1, limit, arena)? {
        None => Ok(None),
        Some(inner) => {
            if !is_mark(tokens, inner.next, mark) {
                return Ok(None);
            }
            let next = inner.next + 1;
            Ok(Some(Read {
                expr: inner.expr,
                next,
                depth: inner.depth,
            }))
        }
    }
}

#[cycle(reader)]
fn operand<'a>(
    tokens: &'a [Token<'a>],
    from: u32,
    limit: u32,
    arena: &'a Bump,
) -> Result<Option<Read<'a>>, AllocError>
    requires short { length tokens.now < 2 ^ 32 }
    requires shallow { limit ≤ 500 }
    ensures { IfOk result (λ r. Answers tokens.now from limit (operand_of (below limit) (drop from (words tokens.now))) r) }
{
    match tokens.get(from as usize) {
        None => Ok(None),
        Some(token) => match token.kind {
            Kind::Name(name) => named(tokens, from, name, limit, arena),
            Kind::System(name) => system(tokens, from, name, limit, arena),
            Kind::Number(number) => {
                let expr = Expr::Literal {
                    token: from,
                    number,
                };
                Ok(Some(Read {
                    expr,
                    next: from + 1,
                    depth: 0,
                }))
            }
            Kind::Keyword(_) => Ok(None),
            Kind::Mark(mark) => after_mark(tokens, from, mark, limit, arena),
        },
    }
}

/// After a mark, which stands at `from`.
#[cycle(reader)]
fn after_mark<'a>(
    tokens: &'a [Token<'a>],
    from: u32,
    mark: Mark,
    limit: u32,
    arena: &'a Bump,
) -> Result<Option<Read<'a>>, AllocError>
    requires short { length tokens.now < 2 ^ 32 }
    requires inside { from < length tokens.now }
    requires shallow { limit ≤ 500 }
    ensures { IfOk result (λ r. Answers tokens.now from limit (after_mark_of (below limit) mark.0 (drop (from + 1) (words tokens.now))) r) }
{
    if is_prefix(mark) {
        match read_at(tokens, from + 1, UNARY_LEVEL, limit, arena)? {
            None => Ok(None),
            Some(inner) => Ok(Some(unary(mark, inner, arena)?)),
        }
    } else if mark == Mark::OPEN_PARENTHESIS {
        match closed(tokens, from + 1, Mark::CLOSE_PARENTHESIS, limit, arena)? {
            None => Ok(None),
            Some(inner) => Ok(Some(paren(inner, arena)?)),
        }
    } else if mark == Mark::OPEN_BRACE {
        braces(tokens, from, limit, arena)
    } else {
        Ok(None)
    }
}

/// A name, which stands at `from`, with the select behind it, if one is there.
#[cycle(reader)]
fn named<'a>(
    tokens: &'a [Token<'a>],
    from: u32,
    name: &'a str,
    limit: u32,
    arena: &'a Bump,
) -> Result<Option<Read<'a>>, AllocError>
    requires short { length tokens.now < 2 ^ 32 }
    requires inside { from < length tokens.now }
    requires shallow { limit ≤ 500 }
    ensures { IfOk result (λ r. Answers tokens.now from limit (named_of (below limit) name.now (drop (from + 1) (words tokens.now))) r) }
{
    match select(tokens, from, name, limit, arena)? {
        None => {
            let expr = Expr::Name { token: from, name };
            Ok(Some(Read {
                expr,
                next: from + 1,
                depth: 0,
            }))
        }
        Some(read) => Ok(Some(read)),
    }
}

/// A select of the name, which stands at `from`.
#[cycle(reader)]
fn select<'a>(
    tokens: &'a [Token<'a>],
    from: u32,
    name: &'a str,
    limit: u32,
    arena: &'a Bump,
) -> Result<Option<Read<'a>>, AllocError>
    requires short { length tokens.now < 2 ^ 32 }
    requires inside { from < length tokens.now }
    requires shallow { limit ≤ 500 }
    ensures { IfOk result (λ r. Answers tokens.now from limit (select_of (below limit) name.now (drop (from + 1) (words tokens.now))) r) }
{
    if !is_mark(tokens, from + 1, Mark::OPEN_BRACKET) {
        return Ok(None);
    }
    match read_at(tokens, from + 2, 1, limit, arena)? {
        None => Ok(None),
        Some(first) => after_index(tokens, from, name, first, limit, arena),
    }
}

/// After the first expression of a select of the name, which stands at `from`.
#[cycle(reader)]
fn after_index<'a>(
    tokens: &'a [Token<'a>],
    from: u32,
    name: &'a str,
    first: Read<'a>,
    limit: u32,
    arena: &'a Bump,
) -> Result<Option<Read<'a>>, AllocError>
    requires short { length tokens.now < 2 ^ 32 }
    requires shallow { limit ≤ 500 }
    requires first_read { IsBelow tokens.now (from + 2) limit first }
    ensures { IfOk result (λ r. Answers tokens.now from limit (after_index_of (below limit) name.now (form first.entry.expr) (mark_of (drop first.entry.next (words tokens.now))) (drop (first.entry.next + 1) (words tokens.now))) r) }
{
    if is_mark(tokens, first.next, Mark::CLOSE_BRACKET) {
        return Ok(Some(bit(from, name, first, arena)?));
    }
    match between_at(tokens, first.next) {
        None => Ok(None),
        Some(between) => match closed(tokens, first.next + 1, Mark::CLOSE_BRACKET, limit, arena)? {
            None => Ok(None),
            Some(second) => Ok(Some(part(from, name, between, first, second, arena)?)),
        },
    }
}

/// After a system name, which stands at `from`.
#[cycle(reader)]
fn system<'a>(
    tokens: &'a [Token<'a>],
    from: u32,
    name: &'a str,
    limit: u32,
    arena: &'a Bump,
) -> Result<Option<Read<'a>>, AllocError>
    requires short { length tokens.now < 2 ^ 32 }
    requires inside { from < length tokens.now }
    requires shallow { limit ≤ 500 }
    ensures { IfOk result (λ r. Answers tokens.now from limit (system_of (below limit) name.now (drop (from + 1) (words tokens.now))) r) }
{
    match cast_sign(name) {
        None => Ok(None),
        Some(signed) => {
            if !is_mark(tokens, from + 1, Mark::OPEN_PARENTHESIS) {
                return Ok(None);
            }
            match closed(tokens, from + 2, Mark::CLOSE_PARENTHESIS, limit, arena)? {
                None => Ok(None),
                Some(inner) => Ok(Some(cast(signed, inner, arena)?)),
            }
        }
    }
}

/// After an opening brace, which stands at `from`.
#[cycle(reader)]
fn braces<'a>(
    tokens: &'a [Token<'a>],
    from: u32,
    limit: u32,
    arena: &'a Bump,
) -> Result<Option<Read<'a>>, AllocError>
    requires short { length tokens.now < 2 ^ 32 }
    requires inside { from < length tokens.now }
    requires shallow { limit ≤ 500 }
    ensures { IfOk result (λ r. Answers tokens.now from limit (braces_of (below limit) (drop (from + 1) (words tokens.now))) r) }
{
    match read_at(tokens, from + 1, 1, limit, arena)? {
        None => Ok(None),
        Some(first) => {
            if is_mark(tokens, first.next, Mark::OPEN_BRACE) {
                return repeated(tokens, from, first, limit, arena);
            }
            let mut parts = Vec::new(arena);
            match parts_from(tokens, from, first, &mut parts, limit, arena)? {
                None => Ok(None),
                Some(end) => Ok(Some(concat(into_bump_slice(parts), end))),
            }
        }
    }
}

/// After the count of a replication, which ends before the inner brace.
#[cycle(reader)]
fn repeated<'a>(
    tokens: &'a [Token<'a>],
    from: u32,
    count: Read<'a>,
    limit: u32,
    arena: &'a Bump,
) -> Result<Option<Read<'a>>, AllocError>
    requires short { length tokens.now < 2 ^ 32 }
    requires there { count.next < length tokens.now }
    requires shallow { limit ≤ 500 }
    requires count_read { IsBelow tokens.now (from + 1) limit count }
    ensures { IfOk result (λ r. Answers tokens.now from limit (repeated_of (below limit) (form count.entry.expr) (drop (count.entry.next + 1) (words tokens.now))) r) }
{
    match read_at(tokens, count.next + 1, 1, limit, arena)? {
        None => Ok(None),
        Some(first) => {
            let mut parts = Vec::new(arena);
            match parts_from(tokens, count.next, first, &mut parts, limit, arena)? {
                None => Ok(None),
                Some(end) => {
                    if !is_mark(tokens, end.next, Mark::CLOSE_BRACE) {
                        return Ok(None);
                    }
                    Ok(Some(repeat(count, into_bump_slice(parts), end, arena)?))
                }
            }
        }
    }
}

/// Puts the first part and those behind it into `parts`, up to the closing brace. The mark before
/// the first part stands at `from`.
#[cycle(reader)]
fn parts_from<'a>(
    tokens: &'a [Token<'a>],
    from: u32,
    first: Read<'a>,
    parts: &mut Vec<Expr<'a>, &'a Bump>,
    limit: u32,
    arena: &'a Bump,
) -> Result<Option<End>, AllocError>
    requires short { length tokens.now < 2 ^ 32 }
    requires shallow { limit ≤ 500 }
    requires empty { parts.old.items ≡ [] }
    requires first_read { IsBelow tokens.now (from + 1) limit first }
    ensures { IfOk result (λ r. Gathers tokens.now from limit (parts_from_of (below limit) (form first.entry.expr) (drop first.entry.next (words tokens.now))) parts.new.items r) }
{
    add(parts, first.expr)?;
    let mut next = first.next;
    let mut depth = first.depth + 1;
    while is_mark(tokens, next, Mark::COMMA) {
        match read_at(tokens, next + 1, 1, limit, arena)? {
            None => return Ok(None),
            Some(part) => {
                add(parts, part.expr)?;
                next = part.next;
                depth = depth.max(part.depth + 1);
            }
        }
    }
    if is_mark(tokens, next, Mark::CLOSE_BRACE) {
        Ok(Some(End {
            next: next + 1,
            depth,
        }))
    } else {
        Ok(None)
    }
}

/// Goes on with an operator after `left`, which was read from `from` on.
#[cycle(reader)]
fn step<'a>(
    tokens: &'a [Token<'a>],
    from: u32,
    left: Read<'a>,
    low: u8,
    limit: u32,
    arena: &'a Bump,
) -> Result<Option<Read<'a>>, AllocError>
    requires short { length tokens.now < 2 ^ 32 }
    requires shallow { limit ≤ 500 }
    requires low_level { (1 ≤ low) × (low ≤ 13) }
    requires left_read { ReadAs tokens.now from limit left }
    ensures { IfOk result (λ r. Steps tokens.now from (below limit) limit low left.entry r) }
{
    match operator_at(tokens, &left, low, limit) {
        None => Ok(None),
        Some(op) => {
            if op == Mark::QUESTION {
                conditional(tokens, from, left, limit, arena)
            } else {
                operation(tokens, from, left, op, limit, arena)
            }
        }
    }
}

/// An operator after `left`, and its right operand.
#[cycle(reader)]
fn operation<'a>(
    tokens: &'a [Token<'a>],
    from: u32,
    left: Read<'a>,
    op: Mark,
    limit: u32,
    arena: &'a Bump,
) -> Result<Option<Read<'a>>, AllocError>
    requires short { length tokens.now < 2 ^ 32 }
    requires shallow { limit ≤ 500 }
    requires left_read { ReadAs tokens.now from limit left }
    requires room { left.depth < limit }
    requires there { left.next < length tokens.now }
    requires is_operator { (1 ≤ infix_of op.0) × (op.0 ≢ mark_question) }
    ensures { IfOk result (λ r. Answers tokens.now from limit (turn_of (below limit) (form left.entry.expr) op.0 (drop (left.entry.next + 1) (words tokens.now))) r) }
{
    match read_at(tokens, left.next + 1, infix_level(op) + 1, limit, arena)? {
        None => Ok(None),
        Some(right) => Ok(Some(binary(op, left, right, arena)?)),
    }
}

/// A question mark after `left`, and the two parts after it.
#[cycle(reader)]
fn conditional<'a>(
    tokens: &'a [Token<'a>],
    from: u32,
    left: Read<'a>,
    limit: u32,
    arena: &'a Bump,
) -> Result<Option<Read<'a>>, AllocError>
    requires short { length tokens.now < 2 ^ 32 }
    requires shallow { limit ≤ 500 }
    requires left_read { ReadAs tokens.now from limit left }
    requires room { left.depth < limit }
    requires there { left.next < length tokens.now }
    ensures { IfOk result (λ r. Answers tokens.now from limit (turn_of (below limit) (form left.entry.expr) mark_question (drop (left.entry.next + 1) (words tokens.now))) r) }
{
    match closed(tokens, left.next + 1, Mark::COLON, limit, arena)? {
        None => Ok(None),
        Some(middle) => match read_at(tokens, middle.next, 1, limit, arena)? {
            None => Ok(None),
            Some(last) => Ok(Some(cond(left, middle, last, arena)?)),
        },
    }
}
