//! Event controls (IEEE 1364-2005 section 9.7, annex A.6.5).

ghost use Rattle.std.specs.Prelude.{◌≡◌, ◌≤◌, ◌<◌, ◌+◌, ◌^◌, drop, length};
ghost use Rattle.rr_syntax.specs.Words.{words};
ghost use Rattle.rr_syntax.specs.View.{plain, plain_edge, plain_events};
ghost use Rattle.rr_grammar.specs.Leaves.{expression as expression_of};
ghost use Rattle.rr_grammar.specs.Parts.{bracketed as bracketed_of, edge as edge_of, edge_list as edges_of, events as events_of, front_edge, level_list as levels_of, star_closed as star_of};
ghost use Rattle.rr_parse.specs.Answer.{Answers};
ghost use Rattle.rr_parse.specs.Trees.{AnswersParts};

use crate::expressions::entry;
use crate::lists::{Separated, alternating};
use crate::tokens::{choice, mark, name};
use rr_parse_expr::{Input, ParseFault, Piece, is_keyword, is_mark};
use rr_syntax::{Event, Events, Expr, Keyword, Mark, Token};

/// `posedge` or `negedge`, and a name (section 9.7.2).
fn edge<'a>(input: Input<'a>, from: u32) -> Result<Piece<Event<'a>>, ParseFault>
    requires short { length input.tokens.now < 2 ^ 32 }
    ensures { Answers edge_of plain_edge input.entry.tokens.now from result }
{
    let rising = choice(input.tokens, from, Keyword::POSEDGE, Keyword::NEGEDGE)?;
    let name = name(input.tokens, rising.next)?;
    Ok(Piece {
        value: Event {
            rising: rising.value,
            name: name.value.name,
            token: name.value.token,
        },
        next: name.next,
    })
}

fn separated_edges<'a>(
    input: Input<'a>,
    from: u32,
) -> Result<Piece<Separated<'a, Event<'a>>>, ParseFault>
    requires short { length input.tokens.now < 2 ^ 32 }
    ensures { AnswersParts edge_of plain_edge input.entry.tokens.now from result }
{
    alternating(input.tokens, from, input.arena, |at| edge(input, at))
}

fn separated_levels<'a>(
    input: Input<'a>,
    from: u32,
    depth: u32,
) -> Result<Piece<Separated<'a, Expr<'a>>>, ParseFault>
    requires short { length input.tokens.now < 2 ^ 32 }
    requires shallow { depth ≤ 500 }
    ensures { AnswersParts (expression_of depth) plain input.entry.tokens.now from result }
{
    alternating(
        input.tokens,
        from,
        input.arena,
        |at| entry(input, at, depth),
    )
}

/// Edges, and the closing bracket.
fn edges<'a>(input: Input<'a>, from: u32) -> Result<Piece<Events<'a>>, ParseFault>
    requires short { length input.tokens.now < 2 ^ 32 }
    ensures { Answers edges_of plain_events input.entry.tokens.now from result }
{
    let found = separated_edges(input, from)?;
    let next = mark(input.tokens, found.next, Mark::CLOSE_PARENTHESIS)?;
    Ok(Piece {
        value: Events::Edges {
            list: found.value.list,
            commas: found.value.commas,
        },
        next,
    })
}

/// Expressions whose changes are awaited, and the closing bracket.
fn levels<'a>(input: Input<'a>, from: u32, depth: u32) -> Result<Piece<Events<'a>>, ParseFault>
    requires short { length input.tokens.now < 2 ^ 32 }
    requires shallow { depth ≤ 500 }
    ensures { Answers (levels_of depth) plain_events input.entry.tokens.now from result }
{
    let found = separated_levels(input, from, depth)?;
    let next = mark(input.tokens, found.next, Mark::CLOSE_PARENTHESIS)?;
    Ok(Piece {
        value: Events::Levels {
            list: found.value.list,
            commas: found.value.commas,
        },
        next,
    })
}

/// `*`, and the closing bracket.
fn star<'a>(input: Input<'a>, from: u32) -> Result<Piece<Events<'a>>, ParseFault>
    requires short { length input.tokens.now < 2 ^ 32 }
    ensures { Answers star_of plain_events input.entry.tokens.now from result }
{
    let star = mark(input.tokens, from, Mark::STAR)?;
    let next = mark(input.tokens, star, Mark::CLOSE_PARENTHESIS)?;
    Ok(Piece {
        value: Events::Star { brackets: true },
        next,
    })
}

/// Whether an edge begins at a token.
fn begins_edge(tokens: &[Token], at: u32) -> bool
    ensures { result ≡ front_edge (drop at (words tokens.now)) }
{
    is_keyword(tokens, at, Keyword::POSEDGE) || is_keyword(tokens, at, Keyword::NEGEDGE)
}

/// What stands behind the opening bracket.
fn bracketed<'a>(input: Input<'a>, from: u32, depth: u32) -> Result<Piece<Events<'a>>, ParseFault>
    requires short { length input.tokens.now < 2 ^ 32 }
    requires shallow { depth ≤ 500 }
    ensures { Answers (bracketed_of depth) plain_events input.entry.tokens.now from result }
{
    if is_mark(input.tokens, from, Mark::STAR) {
        star(input, from)
    } else if begins_edge(input.tokens, from) {
        edges(input, from)
    } else {
        levels(input, from, depth)
    }
}

/// What stands behind `@`: `*`, with or without brackets, or a list in brackets.
pub(crate) fn events<'a>(
    input: Input<'a>,
    from: u32,
    depth: u32,
) -> Result<Piece<Events<'a>>, ParseFault>
    requires short { length input.tokens.now < 2 ^ 32 }
    requires shallow { depth ≤ 500 }
    ensures { Answers (events_of depth) plain_events input.entry.tokens.now from result }
{
    if is_mark(input.tokens, from, Mark::STAR) {
        return Ok(Piece {
            value: Events::Star { brackets: false },
            next: from + 1,
        });
    }
    let inside = mark(input.tokens, from, Mark::OPEN_PARENTHESIS)?;
    bracketed(input, inside, depth)
}
