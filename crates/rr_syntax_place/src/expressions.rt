//! Expressions and targets (IEEE 1364-2005 annexes A.8.3 to A.8.5). Each answer is the depth of what
//! was taken, its root counted as 0; it is below the room that was given.

ghost use Rattle.std.specs.Prelude.{◌<◌, IfSome};
ghost use Rattle.rr_syntax_place.specs.Going.{Goes};

use crate::cursor::Cursor;
use rr_parse_expr::mark_at;
use rr_syntax::{Kind, Mark, infix_level, is_prefix};

/// The level of the operator between two operands that comes next, 0 where none does.
fn next_level(cursor: &Cursor) -> u8 {
    match mark_at(cursor.tokens, cursor.at) {
        None => 0,
        Some(mark) => {
            if mark == Mark::QUESTION {
                0
            } else {
                infix_level(mark)
            }
        }
    }
}

/// Whether an operator of one operand comes next.
fn is_prefix_next(cursor: &Cursor) -> bool {
    match mark_at(cursor.tokens, cursor.at) {
        Some(mark) => is_prefix(mark),
        None => false,
    }
}

fn is_number(cursor: &Cursor) -> bool {
    match cursor.tokens.get(cursor.at as usize) {
        Some(token) => matches!(token.kind, Kind::Number(_)),
        None => false,
    }
}

/// Whether `$signed` or `$unsigned` comes next.
fn is_cast(cursor: &Cursor) -> bool {
    match cursor.tokens.get(cursor.at as usize) {
        Some(token) => matches!(token.kind, Kind::System(_)),
        None => false,
    }
}

/// One depth more than a part, where the room has it.
fn deeper(part: u32, room: u32) -> Option<u32>
    ensures { IfSome result (λ depth. depth < room) }
{
    if part < room && part + 1 < room {
        Some(part + 1)
    } else {
        None
    }
}

/// The room of a part of a node.
pub(crate) fn inner(room: u32) -> Option<u32>
    ensures { IfSome result (λ inside. inside < room) }
{
    if room < 2 { None } else { Some(room - 1) }
}

/// An expression whose operators between operands are above a level, `?:` among them where that is 0.
#[cycle(expressions)]
fn climb(cursor: &mut Cursor, level: u8, room: u32) -> Option<u32>
    ensures goes { Goes cursor.old cursor.new }
    ensures shallow { IfSome result (λ depth. depth < room) }
{
    let mut depth = operand(cursor, room)?;
    loop {
        let found = next_level(cursor);
        if found <= level {
            break;
        }
        deeper(depth, room)?;
        let inside = inner(room)?;
        if !cursor.take_if(true) {
            break;
        }
        let right = climb(cursor, found, inside)?;
        depth = deeper(depth.max(right), room)?;
    }
    if level > 0 || !cursor.is_mark(Mark::QUESTION) {
        return Some(depth);
    }
    branches(cursor, depth, room)
}

/// The branches of `?:`, behind a test of this depth.
#[cycle(expressions)]
fn branches(cursor: &mut Cursor, test: u32, room: u32) -> Option<u32>
    ensures goes { Goes cursor.old cursor.new }
    ensures shallow { IfSome result (λ depth. depth < room) }
{
    deeper(test, room)?;
    let inside = inner(room)?;
    cursor.expect(Mark::QUESTION)?;
    let yes = climb(cursor, 0, inside)?;
    cursor.expect(Mark::COLON)?;
    let no = climb(cursor, 0, inside)?;
    deeper(test.max(yes.max(no)), room)
}

/// A primary, or an operator before an operand.
#[cycle(expressions)]
fn operand(cursor: &mut Cursor, room: u32) -> Option<u32>
    ensures goes { Goes cursor.old cursor.new }
    ensures shallow { IfSome result (λ depth. depth < room) }
{
    if !is_prefix_next(cursor) {
        return primary(cursor, room);
    }
    let inside = inner(room)?;
    cursor.take_if(true);
    let depth = operand(cursor, inside)?;
    deeper(depth, room)
}

#[cycle(expressions)]
fn primary(cursor: &mut Cursor, room: u32) -> Option<u32>
    ensures goes { Goes cursor.old cursor.new }
    ensures shallow { IfSome result (λ depth. depth < room) }
{
    if room == 0 {
        return None;
    }
    let number = is_number(cursor);
    if cursor.take_if(number) {
        return Some(0);
    }
    if cursor.is_name() {
        return selected(cursor, room);
    }
    if cursor.is_mark(Mark::OPEN_BRACE) {
        return braces(cursor, room);
    }
    // What stands in brackets lies below, so the word of a cast is not taken where no room is left.
    inner(room)?;
    let cast = is_cast(cursor);
    cursor.take_if(cast);
    parenthesised(cursor, room)
}

/// A name, and a select of it.
#[cycle(expressions)]
pub(crate) fn selected(cursor: &mut Cursor, room: u32) -> Option<u32>
    ensures goes { Goes cursor.old cursor.new }
    ensures shallow { IfSome result (λ depth. depth < room) }
{
    if room == 0 {
        return None;
    }
    cursor.name()?;
    if !cursor.is_mark(Mark::OPEN_BRACKET) {
        return Some(0);
    }
    let inside = inner(room)?;
    cursor.expect(Mark::OPEN_BRACKET)?;
    let mut depth = climb(cursor, 0, inside)?;
    if cursor.take(Mark::COLON) || cursor.take(Mark::PART_UP) || cursor.take(Mark::PART_DOWN) {
        depth = depth.max(climb(cursor, 0, inside)?);
    }
    cursor.expect(Mark::CLOSE_BRACKET)?;
    deeper(depth, room)
}

/// An expression in brackets.
#[cycle(expressions)]
pub(crate) fn parenthesised(cursor: &mut Cursor, room: u32) -> Option<u32>
    ensures goes { Goes cursor.old cursor.new }
    ensures shallow { IfSome result (λ depth. depth < room) }
{
    let inside = inner(room)?;
    cursor.expect(Mark::OPEN_PARENTHESIS)?;
    let depth = climb(cursor, 0, inside)?;
    cursor.expect(Mark::CLOSE_PARENTHESIS)?;
    deeper(depth, room)
}

/// A concatenation or a replication.
#[cycle(expressions)]
fn braces(cursor: &mut Cursor, room: u32) -> Option<u32>
    ensures goes { Goes cursor.old cursor.new }
    ensures shallow { IfSome result (λ depth. depth < room) }
{
    let inside = inner(room)?;
    cursor.expect(Mark::OPEN_BRACE)?;
    let mut depth = climb(cursor, 0, inside)?;
    if cursor.take(Mark::OPEN_BRACE) {
        depth = depth.max(list(cursor, inside)?);
        cursor.expect(Mark::CLOSE_BRACE)?;
    } else if cursor.take(Mark::COMMA) {
        depth = depth.max(list(cursor, inside)?);
    }
    cursor.expect(Mark::CLOSE_BRACE)?;
    deeper(depth, room)
}

/// Expressions with commas between, one or more.
#[cycle(expressions)]
pub(crate) fn list(cursor: &mut Cursor, room: u32) -> Option<u32>
    ensures goes { Goes cursor.old cursor.new }
    ensures shallow { IfSome result (λ depth. depth < room) }
{
    let mut depth = climb(cursor, 0, room)?;
    while cursor.take(Mark::COMMA) {
        depth = depth.max(climb(cursor, 0, room)?);
    }
    Some(depth)
}

/// An expression of any level.
pub(crate) fn expression(cursor: &mut Cursor, room: u32) -> Option<u32>
    ensures goes { Goes cursor.old cursor.new }
{
    climb(cursor, 0, room)
}

/// A range of a declaration, where one stands.
pub(crate) fn range(cursor: &mut Cursor, room: u32) -> Option<()>
    ensures goes { Goes cursor.old cursor.new }
{
    if cursor.take(Mark::OPEN_BRACKET) {
        expression(cursor, room)?;
        cursor.expect(Mark::COLON)?;
        expression(cursor, room)?;
        cursor.expect(Mark::CLOSE_BRACKET)?;
    }
    Some(())
}

/// A name, and an index of it where one stands.
pub(crate) fn cell(cursor: &mut Cursor, room: u32) -> Option<()>
    ensures goes { Goes cursor.old cursor.new }
{
    cursor.name()?;
    if !cursor.is_mark(Mark::OPEN_BRACKET) {
        return Some(());
    }
    let inside = inner(room)?;
    cursor.expect(Mark::OPEN_BRACKET)?;
    expression(cursor, inside)?;
    cursor.expect(Mark::CLOSE_BRACKET)
}

/// The target of an assignment.
#[cycle(targets)]
pub(crate) fn target(cursor: &mut Cursor, room: u32) -> Option<()>
    ensures goes { Goes cursor.old cursor.new }
{
    if !cursor.is_mark(Mark::OPEN_BRACE) {
        selected(cursor, room)?;
        return Some(());
    }
    let inside = inner(room)?;
    cursor.expect(Mark::OPEN_BRACE)?;
    target(cursor, inside)?;
    while cursor.take(Mark::COMMA) {
        target(cursor, inside)?;
    }
    cursor.expect(Mark::CLOSE_BRACE)
}
