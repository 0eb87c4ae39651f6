//! Modules and their items (IEEE 1364-2005 annexes A.1.2 to A.4.1).

ghost use Rattle.std.specs.Prelude.{◌≡◌, ◌≤◌, ◌<◌, ◌^◌, IfSome, false, length, true};
ghost use Rattle.rr_syntax_place.specs.Beginning.{begins_module};
ghost use Rattle.rr_syntax_place.specs.Going.{Goes, Takes};

use crate::cursor::Cursor;
use crate::expressions::{expression, range, target};
use crate::lists::listed;
use crate::statements::{initial_statement, statement};
use rr_parse_expr::is_keyword;
use rr_syntax::{Keyword, Mark, Token};

/// The room of an expression in the brackets of a module, which lies below the source and the module,
/// where the whole has at most the depth 500.
const BRACKETS: u32 = 499;

/// The room of an expression or a statement in an item, which lies one deeper.
const ITEM: u32 = 498;

/// Whether the first word is `module`.
fn begins(tokens: &[Token]) -> bool
    ensures { result ≡ begins_module tokens.now }
{
    is_keyword(tokens, 0, Keyword::MODULE)
}

/// The first token that no module in progress can take, or the number of tokens where the text ends
/// before its last module does, or where it is all taken. A token at which the tree would be deeper
/// than 500 cannot be taken. Nothing but `module` can be taken first, so the answer is 0 exactly where
/// the text does not begin with it.
pub fn stop(tokens: &[Token]) -> u32
    requires short { length tokens.now < 2 ^ 32 }
    ensures within { result ≤ length tokens.now }
    ensures none { begins_module tokens.now ≡ false → result ≡ 0 }
    ensures some { begins_module tokens.now ≡ true → 0 < result }
{
    if !begins(tokens) {
        return 0;
    }
    let end = tokens.len() as u32;
    let mut cursor = Cursor { tokens, end, at: 1 };
    modules(&mut cursor);
    if cursor.at < end { cursor.at } else { end }
}

/// Modules up to the end, from behind the word `module` of the first one.
fn modules(cursor: &mut Cursor) -> Option<()>
    ensures { Goes cursor.old cursor.new }
{
    module(cursor)?;
    while cursor.take_word(Keyword::MODULE) {
        module(cursor)?;
    }
    Some(())
}

/// Behind `module`.
fn module(cursor: &mut Cursor) -> Option<()>
    ensures { Goes cursor.old cursor.new }
{
    cursor.name()?;
    parameters_in_head(cursor)?;
    ports(cursor)?;
    cursor.expect(Mark::SEMICOLON)?;
    items(cursor)
}

fn items(cursor: &mut Cursor) -> Option<()>
    ensures { Goes cursor.old cursor.new }
{
    while !cursor.take_word(Keyword::ENDMODULE) {
        item(cursor)?;
    }
    Some(())
}

/// The parameters of a module, in brackets behind `#`, where they stand.
fn parameters_in_head(cursor: &mut Cursor) -> Option<()>
    ensures { Goes cursor.old cursor.new }
{
    if !cursor.take(Mark::HASH) {
        return Some(());
    }
    cursor.expect(Mark::OPEN_PARENTHESIS)?;
    if !cursor.is_keyword(Keyword::PARAMETER) {
        return None;
    }
    listed(cursor, |part| head_setting(part), Mark::CLOSE_PARENTHESIS)
}

/// A parameter between the brackets of a module, with its kind where `parameter` stands before it.
fn head_setting(cursor: &mut Cursor) -> Option<()>
    ensures { Goes cursor.old cursor.new }
{
    if cursor.take_word(Keyword::PARAMETER) {
        kind(cursor, BRACKETS)?;
    }
    setting(cursor, BRACKETS)
}

/// The kind of a parameter: signed, with or without a range, or `integer`, which has none.
fn kind(cursor: &mut Cursor, room: u32) -> Option<()>
    ensures { Goes cursor.old cursor.new }
{
    if cursor.take_word(Keyword::INTEGER) {
        return Some(());
    }
    cursor.take_word(Keyword::SIGNED);
    range(cursor, room)
}

/// A parameter and its value.
fn setting(cursor: &mut Cursor, room: u32) -> Option<()>
    ensures { Goes cursor.old cursor.new }
{
    cursor.name()?;
    cursor.expect(Mark::EQUALS)?;
    expression(cursor, room)?;
    Some(())
}

/// The port brackets of a module, where they stand.
fn ports(cursor: &mut Cursor) -> Option<()>
    ensures { Goes cursor.old cursor.new }
{
    if !cursor.take(Mark::OPEN_PARENTHESIS) || cursor.take(Mark::CLOSE_PARENTHESIS) {
        return Some(());
    }
    if is_direction(cursor) {
        declared_ports(cursor)
    } else {
        listed(cursor, |part| part.name(), Mark::CLOSE_PARENTHESIS)
    }
}

/// Ports that are declared in the brackets, of which each has the direction that was the last.
fn declared_ports(cursor: &mut Cursor) -> Option<()>
    ensures { Goes cursor.old cursor.new }
{
    let mut starts = direction(cursor, BRACKETS)?;
    declarator(cursor, starts, BRACKETS)?;
    while cursor.take(Mark::COMMA) {
        if is_direction(cursor) {
            starts = direction(cursor, BRACKETS)?;
        }
        declarator(cursor, starts, BRACKETS)?;
    }
    cursor.expect(Mark::CLOSE_PARENTHESIS)
}

fn is_direction(cursor: &Cursor) -> bool {
    cursor.is_keyword(Keyword::INPUT) || cursor.is_keyword(Keyword::OUTPUT)
}

/// What stands before the names of ports, and whether starting values may stand behind them.
fn direction(cursor: &mut Cursor, room: u32) -> Option<bool>
    ensures { Goes cursor.old cursor.new }
{
    let output = cursor.take_word(Keyword::OUTPUT);
    if !output {
        cursor.expect_word(Keyword::INPUT)?;
    }
    let starts = !cursor.take_word(Keyword::WIRE) && output && cursor.take_word(Keyword::REG);
    cursor.take_word(Keyword::SIGNED);
    range(cursor, room)?;
    Some(starts)
}

/// A declared name, and its value where it may have one and one stands there.
fn declarator(cursor: &mut Cursor, starts: bool, room: u32) -> Option<()>
    ensures { Goes cursor.old cursor.new }
{
    cursor.name()?;
    if starts && cursor.take(Mark::EQUALS) {
        expression(cursor, room)?;
    }
    Some(())
}

/// Declared names with commas between, one or more, up to a semicolon.
fn declarators(cursor: &mut Cursor, starts: bool) -> Option<()>
    ensures goes { Goes cursor.old cursor.new }
    ensures takes { IfSome result (λ t. Takes cursor.old cursor.new) }
{
    listed(
        cursor,
        |part| declarator(part, starts, ITEM),
        Mark::SEMICOLON,
    )
}

/// A variable and its starting value, where one stands, or a memory, whose words' range stands.
fn variable(cursor: &mut Cursor) -> Option<()>
    ensures { Goes cursor.old cursor.new }
{
    cursor.name()?;
    if !cursor.take(Mark::EQUALS) {
        return range(cursor, ITEM);
    }
    expression(cursor, ITEM)?;
    Some(())
}

/// Behind `reg`.
fn variables(cursor: &mut Cursor) -> Option<()>
    ensures goes { Goes cursor.old cursor.new }
    ensures takes { IfSome result (λ t. Takes cursor.old cursor.new) }
{
    cursor.take_word(Keyword::SIGNED);
    range(cursor, ITEM)?;
    listed(cursor, |part| variable(part), Mark::SEMICOLON)
}

/// Behind `wire`.
fn nets(cursor: &mut Cursor) -> Option<()>
    ensures goes { Goes cursor.old cursor.new }
    ensures takes { IfSome result (λ t. Takes cursor.old cursor.new) }
{
    cursor.take_word(Keyword::SIGNED);
    range(cursor, ITEM)?;
    declarators(cursor, true)
}

/// Names with commas between, one or more, up to a semicolon.
fn names(cursor: &mut Cursor) -> Option<()>
    ensures goes { Goes cursor.old cursor.new }
    ensures takes { IfSome result (λ t. Takes cursor.old cursor.new) }
{
    listed(cursor, |part| part.name(), Mark::SEMICOLON)
}

fn item(cursor: &mut Cursor) -> Option<()>
    ensures goes { Goes cursor.old cursor.new }
    ensures takes { IfSome result (λ t. Takes cursor.old cursor.new) }
{
    if is_direction(cursor) {
        let starts = direction(cursor, ITEM)?;
        declarators(cursor, starts)
    } else if cursor.take_word(Keyword::WIRE) {
        nets(cursor)
    } else if cursor.take_word(Keyword::REG) {
        variables(cursor)
    } else if cursor.take_word(Keyword::INTEGER) {
        names(cursor)
    } else if cursor.take_word(Keyword::PARAMETER) || cursor.take_word(Keyword::LOCALPARAM) {
        parameters(cursor)
    } else if cursor.take_word(Keyword::ASSIGN) {
        assigns(cursor)
    } else if cursor.take_word(Keyword::ALWAYS) {
        cursor.expect(Mark::AT)?;
        events(cursor)?;
        statement(cursor, ITEM)
    } else if cursor.take_word(Keyword::INITIAL) {
        initial_statement(cursor, ITEM)
    } else {
        instances(cursor)
    }
}

/// Behind `parameter` and `localparam`.
fn parameters(cursor: &mut Cursor) -> Option<()>
    ensures goes { Goes cursor.old cursor.new }
    ensures takes { IfSome result (λ t. Takes cursor.old cursor.new) }
{
    kind(cursor, ITEM)?;
    listed(cursor, |part| setting(part, ITEM), Mark::SEMICOLON)
}

fn assign(cursor: &mut Cursor) -> Option<()>
    ensures { Goes cursor.old cursor.new }
{
    target(cursor, ITEM)?;
    cursor.expect(Mark::EQUALS)?;
    expression(cursor, ITEM)?;
    Some(())
}

/// Behind `assign`.
fn assigns(cursor: &mut Cursor) -> Option<()>
    ensures goes { Goes cursor.old cursor.new }
    ensures takes { IfSome result (λ t. Takes cursor.old cursor.new) }
{
    listed(cursor, |part| assign(part), Mark::SEMICOLON)
}

/// Behind the `@` of an `always`.
fn events(cursor: &mut Cursor) -> Option<()>
    ensures { Goes cursor.old cursor.new }
{
    if cursor.take(Mark::STAR) {
        return Some(());
    }
    cursor.expect(Mark::OPEN_PARENTHESIS)?;
    if !cursor.take(Mark::STAR) {
        let edges = is_edge(cursor);
        event(cursor, edges)?;
        while cursor.take_word(Keyword::OR) || cursor.take(Mark::COMMA) {
            event(cursor, edges)?;
        }
    }
    cursor.expect(Mark::CLOSE_PARENTHESIS)
}

fn is_edge(cursor: &Cursor) -> bool {
    cursor.is_keyword(Keyword::POSEDGE) || cursor.is_keyword(Keyword::NEGEDGE)
}

/// An edge of a name, or a level.
fn event(cursor: &mut Cursor, edge: bool) -> Option<()>
    ensures { Goes cursor.old cursor.new }
{
    if edge {
        if !cursor.take_word(Keyword::POSEDGE) {
            cursor.expect_word(Keyword::NEGEDGE)?;
        }
        return cursor.name();
    }
    expression(cursor, ITEM)?;
    Some(())
}

/// Connections or overrides in brackets, by position or by name.
fn connections(cursor: &mut Cursor) -> Option<()>
    ensures { Goes cursor.old cursor.new }
{
    cursor.expect(Mark::OPEN_PARENTHESIS)?;
    if cursor.take(Mark::CLOSE_PARENTHESIS) {
        return Some(());
    }
    if cursor.is_mark(Mark::DOT) {
        listed(cursor, |part| connection(part), Mark::CLOSE_PARENTHESIS)
    } else {
        listed(cursor, |part| value(part), Mark::CLOSE_PARENTHESIS)
    }
}

/// A connection by position, or an expression of an item.
fn value(cursor: &mut Cursor) -> Option<()>
    ensures { Goes cursor.old cursor.new }
{
    expression(cursor, ITEM)?;
    Some(())
}

/// A connection by name.
fn connection(cursor: &mut Cursor) -> Option<()>
    ensures { Goes cursor.old cursor.new }
{
    cursor.expect(Mark::DOT)?;
    cursor.name()?;
    cursor.expect(Mark::OPEN_PARENTHESIS)?;
    if cursor.take(Mark::CLOSE_PARENTHESIS) {
        return Some(());
    }
    expression(cursor, ITEM)?;
    cursor.expect(Mark::CLOSE_PARENTHESIS)
}

fn instance(cursor: &mut Cursor) -> Option<()>
    ensures { Goes cursor.old cursor.new }
{
    cursor.name()?;
    connections(cursor)
}

/// Instances of a module.
fn instances(cursor: &mut Cursor) -> Option<()>
    ensures goes { Goes cursor.old cursor.new }
    ensures takes { IfSome result (λ t. Takes cursor.old cursor.new) }
{
    cursor.name()?;
    if cursor.take(Mark::HASH) {
        connections(cursor)?;
    }
    listed(cursor, |part| instance(part), Mark::SEMICOLON)
}
