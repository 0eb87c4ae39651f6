//! Port declarations (IEEE 1364-2005 section 12.3.3, annex A.2.1.2).

ghost use Rattle.std.specs.Prelude.{◌≡◌, ◌≤◌, ◌<◌, ◌+◌, ◌^◌, drop, length, not};
ghost use Rattle.std.specs.List.{list_all};
ghost use Rattle.std.specs.Option.{is_some};
ghost use Rattle.rr_syntax.specs.Words.{words};
ghost use Rattle.rr_syntax.specs.View.{plain_port};
ghost use Rattle.rr_grammar.specs.Declarations.{port as port_of, starts_right as starts_right_of};
ghost use Rattle.rr_grammar.specs.Formats.{list as list_of};
ghost use Rattle.rr_grammar.specs.ItemForms.{front_ports};
ghost use Rattle.rr_grammar.specs.Leaves.{direction as direction_of, of_input, of_output};
ghost use Rattle.rr_parse.specs.Answer.{Answers, FindsDirection, the_same};
ghost use Rattle.rr_parse.specs.Trees.{plain_list_by};

use crate::declarations::{singles, typed};
use rr_parse_expr::{Input, ParseFault, Piece, is_keyword, list};
use rr_syntax::{Declarator, Dir, Group, Keyword, Token};

/// Whether port declarations begin at a token.
pub(crate) fn begins_port(tokens: &[Token], at: u32) -> bool
    ensures { result ≡ front_ports (drop at (words tokens.now)) }
{
    is_keyword(tokens, at, Keyword::INPUT) || is_keyword(tokens, at, Keyword::OUTPUT)
}

/// What stands behind `input`.
fn behind_input(tokens: &[Token], from: u32) -> Piece<Dir>
    requires short { length tokens.now < 2 ^ 32 }
    requires inside { from ≤ length tokens.now }
    ensures { FindsDirection of_input tokens.now from result }
{
    if is_keyword(tokens, from, Keyword::WIRE) {
        Piece {
            value: Dir::InputWire,
            next: from + 1,
        }
    } else {
        Piece {
            value: Dir::Input,
            next: from,
        }
    }
}

/// What stands behind `output`.
fn behind_output(tokens: &[Token], from: u32) -> Piece<Dir>
    requires short { length tokens.now < 2 ^ 32 }
    requires inside { from ≤ length tokens.now }
    ensures { FindsDirection of_output tokens.now from result }
{
    if is_keyword(tokens, from, Keyword::WIRE) {
        Piece {
            value: Dir::OutputWire,
            next: from + 1,
        }
    } else if is_keyword(tokens, from, Keyword::REG) {
        Piece {
            value: Dir::OutputReg,
            next: from + 1,
        }
    } else {
        Piece {
            value: Dir::Output,
            next: from,
        }
    }
}

/// The direction of a port and its kind.
fn direction(tokens: &[Token], from: u32) -> Result<Piece<Dir>, ParseFault>
    requires short { length tokens.now < 2 ^ 32 }
    ensures { Answers direction_of the_same tokens.now from result }
{
    if is_keyword(tokens, from, Keyword::INPUT) {
        Ok(behind_input(tokens, from + 1))
    } else if is_keyword(tokens, from, Keyword::OUTPUT) {
        Ok(behind_output(tokens, from + 1))
    } else {
        Err(ParseFault::Syntax(from))
    }
}

/// Whether no name has a value.
fn have_no_values(names: &[Declarator]) -> bool
    ensures { result ≡ list_all (λ n. not (is_some n.value)) names.now }
{
    names.iter().all(|name| name.value.is_none())
}

/// Whether starting values stand only behind `output reg` (annex A.2.3).
#[tactic(auto, using(crate::proofs::MadeDeclarations::starts_forms))]
fn starts_right(group: &Group) -> bool
    ensures { result ≡ starts_right_of (plain_port group.now) }
{
    match group.dir {
        Dir::OutputReg => true,
        Dir::Input | Dir::InputWire | Dir::Output | Dir::OutputWire => have_no_values(group.names),
    }
}

/// Ports that are declared together, without a semicolon.
pub(crate) fn port<'a>(
    input: Input<'a>,
    from: u32,
    depth: u32,
) -> Result<Piece<Group<'a>>, ParseFault>
    requires short { length input.tokens.now < 2 ^ 32 }
    requires shallow { depth ≤ 500 }
    ensures { Answers (port_of depth) plain_port input.entry.tokens.now from result }
{
    let dir = direction(input.tokens, from)?;
    let typed = typed(input, dir.next, depth)?;
    let names = singles(input, typed.next, depth)?;
    let value = Group {
        dir: dir.value,
        signed: typed.value.signed,
        range: typed.value.range,
        names: names.value,
    };
    if !starts_right(&value) {
        return Err(ParseFault::Syntax(from));
    }
    Ok(Piece {
        value,
        next: names.next,
    })
}

/// Such groups, with commas between.
pub(crate) fn ports<'a>(
    input: Input<'a>,
    from: u32,
    depth: u32,
) -> Result<Piece<&'a [Group<'a>]>, ParseFault>
    requires short { length input.tokens.now < 2 ^ 32 }
    requires shallow { depth ≤ 500 }
    ensures { Answers (list_of (port_of depth)) (plain_list_by plain_port) input.entry.tokens.now from result }
{
    list(input.tokens, from, input.arena, |at| port(input, at, depth))
}
