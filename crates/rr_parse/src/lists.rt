//! Lists with more than commas between, whose parts are read by a function that is handed in.

ghost use Rattle.std.specs.Prelude.{◌≤◌, ◌<◌, ◌+◌, ◌^◌, ℕ, length, MatchOption, Ok};
ghost use Rattle.rr_parse_expr.specs.declared.lists.Piece.{Piece};
ghost use Rattle.rr_grammar.specs.Formats.{Finds, FindsNone};
ghost use Rattle.rr_grammar.specs.Parts.{separator_of};
ghost use Rattle.rr_parse.specs.Chains.{AnswersSeparated};

use bumpalo::Bump;
use bumpalo::collections::into_bump_slice;
use rr_parse_expr::{ParseFault, Piece, add, is_keyword, is_mark};
use rr_syntax::{Keyword, Mark, Token};

/// Parts and what stands between them: a comma where `true`, else `or`.
#[derive(Clone, Copy)]
pub(crate) struct Separated<'a, T> {
    pub(crate) list: &'a [T],
    pub(crate) commas: &'a [bool],
}

/// The separator that stands at a place, if one does (IEEE 1364-2005 section 9.7.3).
fn separator(tokens: &[Token], from: u32) -> Option<Piece<bool>>
    requires short { length tokens.now < 2 ^ 32 }
    ensures { MatchOption result (FindsNone separator_of tokens.now from) (λ p. Finds separator_of tokens.now from p.value p.next) }
{
    if is_mark(tokens, from, Mark::COMMA) {
        Some(Piece {
            value: true,
            next: from + 1,
        })
    } else if is_keyword(tokens, from, Keyword::OR) {
        Some(Piece {
            value: false,
            next: from + 1,
        })
    } else {
        None
    }
}

/// One part or more, with separators between. A separator without a part behind it is left.
pub(crate) fn alternating<'a, T: Copy, F: Fn(u32) -> Result<Piece<T>, ParseFault>>(
    tokens: &[Token],
    from: u32,
    arena: &'a Bump,
    read: F,
) -> Result<Piece<Separated<'a, T>>, ParseFault>
    requires short { length tokens.now < 2 ^ 32 }
    requires callable { F.IsAlwaysCallable read }
    requires moves { (at : ℕ) (p : Piece T) → at < 2 ^ 32 → F.post read at (Ok p) → (at < p.next) × (p.next ≤ length tokens.now) }
    ensures { AnswersSeparated (F.post read) tokens.now from result }
{
    let first = read(from)?;
    let mut items = Vec::new(arena);
    let mut commas = Vec::new(arena);
    add(&mut items, first.value)?;
    let mut next = first.next;
    while let Some(between) = separator(tokens, next) {
        match read(between.next) {
            Ok(more) => {
                add(&mut commas, between.value)?;
                add(&mut items, more.value)?;
                next = more.next;
            }
            Err(ParseFault::Memory) => return Err(ParseFault::Memory),
            Err(_) => break,
        }
    }
    let list = into_bump_slice(items);
    let commas = into_bump_slice(commas);
    Ok(Piece {
        value: Separated { list, commas },
        next,
    })
}
