//! The statement at a token.

ghost use Rattle.std.specs.Prelude.{◌≤◌, ◌<◌, ◌^◌, length, MatchResult};
ghost use Rattle.rr_parse_stmt.specs.Exact.{IsStatement, Fails};

use crate::reader::statement;
use bumpalo::Bump;
use rr_parse_expr::ParseFault;
use rr_syntax::{Stmt, Token};

/// The statement of at most this depth, its root counted as 0, that stands at a token (IEEE 1364-2005
/// section 9, annex A.6), and the token after it: an `if` at its end has the `else` behind it.
/// `Syntax(from)` comes where none stands there. Each leaf has the number of its token; the tree
/// lies in the arena.
pub fn stmt<'a>(
    tokens: &'a [Token<'a>],
    from: u32,
    depth: u32,
    arena: &'a Bump,
) -> Result<(&'a Stmt<'a>, u32), ParseFault>
    requires short { length tokens.now < 2 ^ 32 }
    requires shallow { depth ≤ 500 }
    ensures { MatchResult result (λ r. IsStatement depth tokens.now from r.0.now r.1) (λ fault. Fails depth tokens.now from fault) }
{
    match statement(tokens, from, depth + 1, arena) {
        Err(_) => Err(ParseFault::Memory),
        Ok(None) => Err(ParseFault::Syntax(from)),
        Ok(Some(found)) => match arena.try_alloc(found.stmt) {
            Err(_) => Err(ParseFault::Memory),
            Ok(place) => Ok((place, found.next)),
        },
    }
}
