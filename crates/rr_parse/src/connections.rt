//! Connections and instances (IEEE 1364-2005 sections 12.1.2, 12.2.2 and 12.3.6, annex A.4.1).

ghost use Rattle.std.specs.Prelude.{◌≤◌, ◌<◌, ◌+◌, ◌^◌, [], length};
ghost use Rattle.rr_syntax.specs.View.{plain, plain_connection, plain_connections, plain_instance, plain_overrides, plain_value};
ghost use Rattle.rr_grammar.specs.Connections.{connected as connected_of, connection as connection_of, connections as connections_of, names_closed as named_of, one_instance as instance_of, optional_closed as optional_of, overrides as overrides_of, positions_closed as positions_of};
ghost use Rattle.rr_grammar.specs.Formats.{list as list_of};
ghost use Rattle.rr_grammar.specs.Leaves.{expression as expression_of};
ghost use Rattle.rr_parse.specs.Answer.{Answers};
ghost use Rattle.rr_parse.specs.Trees.{plain_list_by};

use crate::expressions::{closed, entry};
use crate::tokens::{mark, name};
use bumpalo::collections::into_bump_slice;
use rr_parse_expr::{Input, ParseFault, Piece, is_mark, list};
use rr_syntax::{Connection, Conns, Expr, Instance, Mark};

/// An expression, if one stands there, and the closing bracket.
fn optional<'a>(
    input: Input<'a>,
    from: u32,
    depth: u32,
) -> Result<Piece<Option<&'a Expr<'a>>>, ParseFault>
    requires short { length input.tokens.now < 2 ^ 32 }
    requires shallow { depth ≤ 500 }
    ensures { Answers (optional_of depth) plain_value input.entry.tokens.now from result }
{
    if is_mark(input.tokens, from, Mark::CLOSE_PARENTHESIS) {
        return Ok(Piece {
            value: None,
            next: from + 1,
        });
    }
    let found = closed(input, from, Mark::CLOSE_PARENTHESIS, depth)?;
    Ok(Piece {
        value: Some(found.value),
        next: found.next,
    })
}

/// `.name(value)`.
fn connection<'a>(
    input: Input<'a>,
    from: u32,
    depth: u32,
) -> Result<Piece<Connection<'a>>, ParseFault>
    requires short { length input.tokens.now < 2 ^ 32 }
    requires shallow { depth ≤ 500 }
    ensures { Answers (connection_of depth) plain_connection input.entry.tokens.now from result }
{
    let dot = mark(input.tokens, from, Mark::DOT)?;
    let name = name(input.tokens, dot)?;
    let inside = mark(input.tokens, name.next, Mark::OPEN_PARENTHESIS)?;
    let value = optional(input, inside, depth)?;
    Ok(Piece {
        value: Connection {
            token: name.value.token,
            name: name.value.name,
            value: value.value,
        },
        next: value.next,
    })
}

fn connection_list<'a>(
    input: Input<'a>,
    from: u32,
    depth: u32,
) -> Result<Piece<&'a [Connection<'a>]>, ParseFault>
    requires short { length input.tokens.now < 2 ^ 32 }
    requires shallow { depth ≤ 500 }
    ensures { Answers (list_of (connection_of depth)) (plain_list_by plain_connection) input.entry.tokens.now from result }
{
    list(
        input.tokens,
        from,
        input.arena,
        |at| connection(input, at, depth),
    )
}

fn entries<'a>(input: Input<'a>, from: u32, depth: u32) -> Result<Piece<&'a [Expr<'a>]>, ParseFault>
    requires short { length input.tokens.now < 2 ^ 32 }
    requires shallow { depth ≤ 500 }
    ensures { Answers (list_of (expression_of depth)) (plain_list_by plain) input.entry.tokens.now from result }
{
    list(
        input.tokens,
        from,
        input.arena,
        |at| entry(input, at, depth),
    )
}

/// Named connections, and the closing bracket.
fn named<'a>(input: Input<'a>, from: u32, depth: u32) -> Result<Piece<Conns<'a>>, ParseFault>
    requires short { length input.tokens.now < 2 ^ 32 }
    requires shallow { depth ≤ 500 }
    ensures { Answers (named_of depth) plain_connections input.entry.tokens.now from result }
{
    let list = connection_list(input, from, depth)?;
    let next = mark(input.tokens, list.next, Mark::CLOSE_PARENTHESIS)?;
    Ok(Piece {
        value: Conns::Names(list.value),
        next,
    })
}

/// Connections by their positions, and the closing bracket.
fn positions<'a>(input: Input<'a>, from: u32, depth: u32) -> Result<Piece<Conns<'a>>, ParseFault>
    requires short { length input.tokens.now < 2 ^ 32 }
    requires shallow { depth ≤ 500 }
    ensures { Answers (positions_of depth) plain_connections input.entry.tokens.now from result }
{
    let list = entries(input, from, depth)?;
    let next = mark(input.tokens, list.next, Mark::CLOSE_PARENTHESIS)?;
    Ok(Piece {
        value: Conns::Positions(list.value),
        next,
    })
}

/// What stands behind the opening bracket of connections.
fn connected<'a>(input: Input<'a>, from: u32, depth: u32) -> Result<Piece<Conns<'a>>, ParseFault>
    requires short { length input.tokens.now < 2 ^ 32 }
    requires shallow { depth ≤ 500 }
    ensures { Answers (connected_of depth) plain_connections input.entry.tokens.now from result }
{
    if is_mark(input.tokens, from, Mark::CLOSE_PARENTHESIS) {
        Ok(Piece {
            value: Conns::Positions(into_bump_slice(Vec::new(input.arena))),
            next: from + 1,
        })
    } else if is_mark(input.tokens, from, Mark::DOT) {
        named(input, from, depth)
    } else {
        positions(input, from, depth)
    }
}

/// Connections in their brackets.
fn connections<'a>(input: Input<'a>, from: u32, depth: u32) -> Result<Piece<Conns<'a>>, ParseFault>
    requires short { length input.tokens.now < 2 ^ 32 }
    requires shallow { depth ≤ 500 }
    ensures { Answers (connections_of depth) plain_connections input.entry.tokens.now from result }
{
    let inside = mark(input.tokens, from, Mark::OPEN_PARENTHESIS)?;
    connected(input, inside, depth)
}

/// The values of an instance's parameters, where `#` stands.
pub(crate) fn overrides<'a>(
    input: Input<'a>,
    from: u32,
    depth: u32,
) -> Result<Piece<Option<Conns<'a>>>, ParseFault>
    requires short { length input.tokens.now < 2 ^ 32 }
    requires inside { from ≤ length input.tokens.now }
    requires shallow { depth ≤ 500 }
    ensures { Answers (overrides_of depth) plain_overrides input.entry.tokens.now from result }
{
    if !is_mark(input.tokens, from, Mark::HASH) {
        return Ok(Piece {
            value: None,
            next: from,
        });
    }
    let found = connections(input, from + 1, depth)?;
    Ok(Piece {
        value: Some(found.value),
        next: found.next,
    })
}

/// An instance: its name and its connections.
fn instance<'a>(input: Input<'a>, from: u32, depth: u32) -> Result<Piece<Instance<'a>>, ParseFault>
    requires short { length input.tokens.now < 2 ^ 32 }
    requires shallow { depth ≤ 500 }
    ensures { Answers (instance_of depth) plain_instance input.entry.tokens.now from result }
{
    let name = name(input.tokens, from)?;
    let conns = connections(input, name.next, depth)?;
    Ok(Piece {
        value: Instance {
            token: name.value.token,
            name: name.value.name,
            conns: conns.value,
        },
        next: conns.next,
    })
}

/// Instances, with commas between.
pub(crate) fn instances<'a>(
    input: Input<'a>,
    from: u32,
    depth: u32,
) -> Result<Piece<&'a [Instance<'a>]>, ParseFault>
    requires short { length input.tokens.now < 2 ^ 32 }
    requires shallow { depth ≤ 500 }
    ensures { Answers (list_of (instance_of depth)) (plain_list_by plain_instance) input.entry.tokens.now from result }
{
    list(
        input.tokens,
        from,
        input.arena,
        |at| instance(input, at, depth),
    )
}
