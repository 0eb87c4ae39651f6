//! Statements (IEEE 1364-2005 annexes A.6.2, A.6.4 and A.6.8). The room is the greatest depth, the root counted
//! as 0, and one more.

ghost use Rattle.std.specs.Prelude.{IfSome};
ghost use Rattle.rr_syntax_place.specs.Going.{Goes, Takes};

use crate::cursor::Cursor;
use crate::expressions::{cell, expression, inner, list, target};
use rr_syntax::{Keyword, Mark};

/// A statement.
#[cycle(statements)]
pub(crate) fn statement(cursor: &mut Cursor, room: u32) -> Option<()>
    ensures goes { Goes cursor.old cursor.new }
    ensures takes { IfSome result (λ t. Takes cursor.old cursor.new) }
{
    if room == 0 {
        return None;
    }
    if cursor.take(Mark::SEMICOLON) {
        return Some(());
    }
    if cursor.is_keyword(Keyword::BEGIN) {
        return block(cursor, room);
    }
    let inside = inner(room)?;
    if cursor.take_word(Keyword::IF) {
        conditional(cursor, inside)
    } else if cursor.take_word(Keyword::FOR) {
        looped(cursor, inside)
    } else if is_case(cursor) {
        cases(cursor, inside)
    } else {
        assignment(cursor, inside)
    }
}

fn is_case(cursor: &Cursor) -> bool {
    cursor.is_keyword(Keyword::CASE)
        || cursor.is_keyword(Keyword::CASEZ)
        || cursor.is_keyword(Keyword::CASEX)
}

fn assignment(cursor: &mut Cursor, inside: u32) -> Option<()>
    ensures goes { Goes cursor.old cursor.new }
    ensures takes { IfSome result (λ t. Takes cursor.old cursor.new) }
{
    target(cursor, inside)?;
    if !cursor.take(Mark::EQUALS) {
        cursor.expect(Mark::LESS_OR_EQUAL)?;
    }
    expression(cursor, inside)?;
    cursor.expect(Mark::SEMICOLON)
}

/// A name behind a colon, where the colon stands.
fn label(cursor: &mut Cursor) -> Option<()>
    ensures { Goes cursor.old cursor.new }
{
    if cursor.take(Mark::COLON) {
        cursor.name()
    } else {
        Some(())
    }
}

/// Statements between `begin` and `end`.
#[cycle(statements)]
fn block(cursor: &mut Cursor, room: u32) -> Option<()>
    ensures goes { Goes cursor.old cursor.new }
    ensures takes { IfSome result (λ t. Takes cursor.old cursor.new) }
{
    cursor.expect_word(Keyword::BEGIN)?;
    label(cursor)?;
    while !cursor.take_word(Keyword::END) {
        let inside = inner(room)?;
        statement(cursor, inside)?;
    }
    Some(())
}

/// A condition in brackets.
fn tested(cursor: &mut Cursor, inside: u32) -> Option<()>
    ensures goes { Goes cursor.old cursor.new }
    ensures takes { IfSome result (λ t. Takes cursor.old cursor.new) }
{
    cursor.expect(Mark::OPEN_PARENTHESIS)?;
    expression(cursor, inside)?;
    cursor.expect(Mark::CLOSE_PARENTHESIS)
}

/// Behind `if`.
#[cycle(statements)]
fn conditional(cursor: &mut Cursor, inside: u32) -> Option<()>
    ensures goes { Goes cursor.old cursor.new }
    ensures takes { IfSome result (λ t. Takes cursor.old cursor.new) }
{
    tested(cursor, inside)?;
    statement(cursor, inside)?;
    if cursor.take_word(Keyword::ELSE) {
        statement(cursor, inside)
    } else {
        Some(())
    }
}

/// A name, `=` and an expression, and the mark behind it.
fn setting(cursor: &mut Cursor, closing: Mark, inside: u32) -> Option<()>
    ensures goes { Goes cursor.old cursor.new }
    ensures takes { IfSome result (λ t. Takes cursor.old cursor.new) }
{
    cursor.name()?;
    cursor.expect(Mark::EQUALS)?;
    expression(cursor, inside)?;
    cursor.expect(closing)
}

/// The head of a loop (section 9.6): its first value, its test and its step in brackets.
fn head(cursor: &mut Cursor, inside: u32) -> Option<()>
    ensures goes { Goes cursor.old cursor.new }
    ensures takes { IfSome result (λ t. Takes cursor.old cursor.new) }
{
    cursor.expect(Mark::OPEN_PARENTHESIS)?;
    setting(cursor, Mark::SEMICOLON, inside)?;
    expression(cursor, inside)?;
    cursor.expect(Mark::SEMICOLON)?;
    setting(cursor, Mark::CLOSE_PARENTHESIS, inside)
}

/// Behind `for`.
#[cycle(statements)]
fn looped(cursor: &mut Cursor, inside: u32) -> Option<()>
    ensures goes { Goes cursor.old cursor.new }
    ensures takes { IfSome result (λ t. Takes cursor.old cursor.new) }
{
    head(cursor, inside)?;
    statement(cursor, inside)
}

/// A `case` of any kind.
#[cycle(statements)]
fn cases(cursor: &mut Cursor, inside: u32) -> Option<()>
    ensures goes { Goes cursor.old cursor.new }
    ensures takes { IfSome result (λ t. Takes cursor.old cursor.new) }
{
    // The statement of an arm lies two levels below, and a `case` has an arm.
    let part = inner(inside)?;
    cursor.take_if(true);
    tested(cursor, inside)?;
    let mut default = arm(cursor, part, false)?;
    while !cursor.take_word(Keyword::ENDCASE) {
        default = arm(cursor, part, default)?;
    }
    Some(())
}

/// An arm; a `default` may come where none stood before. Whether one has stood by then.
#[cycle(statements)]
fn arm(cursor: &mut Cursor, inside: u32, default: bool) -> Option<bool>
    ensures goes { Goes cursor.old cursor.new }
    ensures takes { IfSome result (λ t. Takes cursor.old cursor.new) }
{
    if cursor.is_keyword(Keyword::DEFAULT) {
        if default {
            return None;
        }
        cursor.take_if(true);
        cursor.take(Mark::COLON);
        statement(cursor, inside)?;
        return Some(true);
    }
    list(cursor, inside)?;
    cursor.expect(Mark::COLON)?;
    statement(cursor, inside)?;
    Some(default)
}

/// A variable or a word of a memory, `=` and an expression.
fn initial_assignment(cursor: &mut Cursor, inside: u32) -> Option<()>
    ensures goes { Goes cursor.old cursor.new }
    ensures takes { IfSome result (λ t. Takes cursor.old cursor.new) }
{
    cell(cursor, inside)?;
    cursor.expect(Mark::EQUALS)?;
    expression(cursor, inside)?;
    cursor.expect(Mark::SEMICOLON)
}

/// What an `initial` item may hold (section 9.9.1): `;`, blocks, loops, and variables and words of
/// memories that are set by `=`.
#[cycle(initials)]
pub(crate) fn initial_statement(cursor: &mut Cursor, room: u32) -> Option<()>
    ensures goes { Goes cursor.old cursor.new }
    ensures takes { IfSome result (λ t. Takes cursor.old cursor.new) }
{
    if room == 0 {
        return None;
    }
    if cursor.take(Mark::SEMICOLON) {
        return Some(());
    }
    if cursor.is_keyword(Keyword::BEGIN) {
        return initial_block(cursor, room);
    }
    let inside = inner(room)?;
    if cursor.take_word(Keyword::FOR) {
        return initial_loop(cursor, inside);
    }
    initial_assignment(cursor, inside)
}

/// Behind the `for` of a loop over such a statement.
#[cycle(initials)]
fn initial_loop(cursor: &mut Cursor, inside: u32) -> Option<()>
    ensures goes { Goes cursor.old cursor.new }
    ensures takes { IfSome result (λ t. Takes cursor.old cursor.new) }
{
    head(cursor, inside)?;
    initial_statement(cursor, inside)
}

/// Such statements between `begin` and `end`.
#[cycle(initials)]
fn initial_block(cursor: &mut Cursor, room: u32) -> Option<()>
    ensures goes { Goes cursor.old cursor.new }
    ensures takes { IfSome result (λ t. Takes cursor.old cursor.new) }
{
    cursor.expect_word(Keyword::BEGIN)?;
    label(cursor)?;
    while !cursor.take_word(Keyword::END) {
        let inside = inner(room)?;
        initial_statement(cursor, inside)?;
    }
    Some(())
}
