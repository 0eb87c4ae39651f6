//! What stands at a token: marks, reserved words and names.

ghost use Rattle.std.specs.Prelude.{◌≤◌, ◌<◌, ◌+◌, ◌^◌, length};
ghost use Rattle.rr_syntax.specs.Words.{words};
ghost use Rattle.rr_syntax.specs.View.{plain_identifier};
ghost use Rattle.rr_parse_expr.specs.Reading.{no_mark};
ghost use Rattle.rr_parse_stmt.specs.Reading.{no_word};
ghost use Rattle.rr_grammar.specs.Formats.{Finds};
ghost use Rattle.rr_grammar.specs.Leaves.{choice as choice_of, flag as flag_of, identifier};
ghost use Rattle.rr_parse.specs.Answer.{Answers, AnswersMark, AnswersWord, the_same};

use rr_parse_expr::{ParseFault, Piece, is_keyword, is_mark, name_at};
use rr_syntax::{Keyword, Mark, Named, Token};

/// The token after this mark, where it stands at a place.
pub(crate) fn mark(tokens: &[Token], at: u32, mark: Mark) -> Result<u32, ParseFault>
    requires short { length tokens.now < 2 ^ 32 }
    requires is_mark { mark.0 < no_mark }
    ensures { AnswersMark tokens.now at mark.0 result }
{
    if is_mark(tokens, at, mark) {
        Ok(at + 1)
    } else {
        Err(ParseFault::Syntax(at))
    }
}

/// The token after this reserved word, where it stands at a place.
pub(crate) fn word(tokens: &[Token], at: u32, word: Keyword) -> Result<u32, ParseFault>
    requires short { length tokens.now < 2 ^ 32 }
    requires is_word { word.0 < no_word }
    ensures { AnswersWord tokens.now at word.0 result }
{
    if is_keyword(tokens, at, word) {
        Ok(at + 1)
    } else {
        Err(ParseFault::Syntax(at))
    }
}

/// Whether this reserved word stands at a place, and the token after it.
pub(crate) fn flag(tokens: &[Token], from: u32, word: Keyword) -> Piece<bool>
    requires short { length tokens.now < 2 ^ 32 }
    requires inside { from ≤ length tokens.now }
    requires is_word { word.0 < no_word }
    ensures { Finds (flag_of word.0) tokens.now from result.value result.next }
{
    if is_keyword(tokens, from, word) {
        Piece {
            value: true,
            next: from + 1,
        }
    } else {
        Piece {
            value: false,
            next: from,
        }
    }
}

/// Whether the first or the second of two reserved words stands at a place.
pub(crate) fn choice(
    tokens: &[Token],
    from: u32,
    first: Keyword,
    second: Keyword,
) -> Result<Piece<bool>, ParseFault>
    requires short { length tokens.now < 2 ^ 32 }
    requires first_word { first.0 < no_word }
    requires second_word { second.0 < no_word }
    ensures { Answers (choice_of first.0 second.0) the_same tokens.now from result }
{
    if is_keyword(tokens, from, first) {
        Ok(Piece {
            value: true,
            next: from + 1,
        })
    } else if is_keyword(tokens, from, second) {
        Ok(Piece {
            value: false,
            next: from + 1,
        })
    } else {
        Err(ParseFault::Syntax(from))
    }
}

/// The name that stands at a place.
pub(crate) fn name<'a>(tokens: &'a [Token<'a>], from: u32) -> Result<Piece<Named<'a>>, ParseFault>
    requires short { length tokens.now < 2 ^ 32 }
    ensures { Answers identifier plain_identifier tokens.now from result }
{
    match name_at(tokens, from) {
        Some(value) => Ok(Piece {
            value,
            next: from + 1,
        }),
        None => Err(ParseFault::Syntax(from)),
    }
}
