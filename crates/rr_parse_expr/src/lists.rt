//! Lists of parts with commas between, each part read by a function that is handed in.

ghost use Rattle.std.specs.Prelude.{◌≡◌, ◌≤◌, ◌<◌, ◌+◌, ◌^◌, ℕ, ◌∷◌, [], ◌++◌, length, IfOk, Ok};
ghost use Rattle.rr_parse_expr.specs.declared.lists.Piece.{Piece};
ghost use Rattle.rr_parse_expr.specs.Lists.{AnswersList};

use crate::expression::ParseFault;
use crate::tokens::is_mark;
use bumpalo::Bump;
use bumpalo::collections::into_bump_slice;
use rr_syntax::{Mark, Token};
use std::alloc::AllocError;

/// The tokens that are read, and where the trees are put.
#[derive(Clone, Copy)]
pub struct Input<'a> {
    /// The tokens of the whole text.
    pub tokens: &'a [Token<'a>],
    /// The arena of the trees.
    pub arena: &'a Bump,
}

/// A part of a tree and the token after it.
#[derive(Clone, Copy)]
pub struct Piece<T> {
    /// The part.
    pub value: T,
    /// The number of the token after it.
    pub next: u32,
}

/// Puts one part more at the end of a list.
pub fn add<'a, T: Copy>(items: &mut Vec<T, &'a Bump>, item: T) -> Result<(), AllocError>
    ensures { IfOk result (λ _. items.new.items ≡ items.old.items ++ (item ∷ [])) }
{
    items.push(item)?;
    Ok(())
}

/// One part or more, with commas between, as far as they go: a comma without a part behind it is left.
/// A fault comes where no part is read at `from`, and is that of the part.
pub fn list<'a, T: Copy, F: Fn(u32) -> Result<Piece<T>, ParseFault>>(
    tokens: &[Token],
    from: u32,
    arena: &'a Bump,
    read: F,
) -> Result<Piece<&'a [T]>, ParseFault>
    requires short { length tokens.now < 2 ^ 32 }
    requires callable { F.IsAlwaysCallable read }
    requires moves { (at : ℕ) (p : Piece T) → at < 2 ^ 32 → F.post read at (Ok p) → (at < p.next) × (p.next ≤ length tokens.now) }
    ensures { AnswersList (F.post read) tokens.now from result }
{
    let first = read(from)?;
    let mut items = Vec::new(arena);
    add(&mut items, first.value)?;
    let mut next = first.next;
    while is_mark(tokens, next, Mark::COMMA) {
        match read(next + 1) {
            Ok(more) => {
                add(&mut items, more.value)?;
                next = more.next;
            }
            Err(ParseFault::Memory) => return Err(ParseFault::Memory),
            Err(_) => break,
        }
    }
    Ok(Piece {
        value: into_bump_slice(items),
        next,
    })
}
