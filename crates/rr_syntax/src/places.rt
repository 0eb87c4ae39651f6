//! The token at a byte of the source.

ghost use Rattle.std.specs.Prelude.{IfNone, IfSome};
ghost use Rattle.rr_syntax.specs.Places.{IsFirstHolding, NoneHolds};

use crate::token::Token;

/// The first token of the list whose span holds the byte at `offset`, counted from 0. `None`
/// exactly where no span holds it, in any order of the tokens.
pub fn token_at<'t, 'a>(tokens: &'t [Token<'a>], offset: u32) -> Option<&'t Token<'a>>
    ensures none { IfNone result (NoneHolds tokens.now offset) }
    ensures some { IfSome result (λ t. IsFirstHolding tokens.now offset t.now) }
{
    for token in tokens.iter() {
        if token.span.start <= offset && offset < token.span.end {
            return Some(token);
        }
    }
    None
}
