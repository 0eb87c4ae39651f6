//! The longest expression at a token.

ghost use Rattle.std.specs.Prelude.{◌≡◌, ◌≤◌, ◌<◌, ◌+◌, ◌^◌, length, MatchResult};
ghost use Rattle.rr_parse_expr.specs.Exact.{IsExpression, IsOperand, IsLongest, IsTarget, IsClosed, Fails, FailsTarget, FailsClosed, max_depth};

use crate::marks::UNARY_LEVEL;
use crate::reader::read_at;
use crate::tokens::is_mark;
use bumpalo::Bump;
use rr_syntax::{Expr, Mark, Token, is_target};
use std::alloc::AllocError;

/// The greatest depth of an expression, its root counted as 0.
const MAX_DEPTH: u32 = 500;

/// Why no tree was read, with the number of a token.
#[derive(Clone, Copy, Debug, PartialEq, Eq)]
pub enum ParseFault {
    /// A word outside the profile.
    Unsupported(u32),
    /// No tree of the grammar and of the greatest depth begins there.
    Syntax(u32),
    /// The allocator gave no memory.
    Memory,
}

impl From<AllocError> for ParseFault {
    ghost use Rattle.rr_parse_expr.specs.declared.expression.ParseFault.TheVariants.{Memory};

    ghost from_gives = { λ _ e. e ≡ Memory };

    fn from(_error: AllocError) -> ParseFault {
        ParseFault::Memory
    }
}

/// The longest expression of depth at most 500, its root counted as 0, that begins at a token
/// (IEEE 1364-2005 section 5, annex A.8.3), and the token after it. `Syntax(from)` comes where none
/// begins there. Each leaf has the number of its token; the tree lies in the arena.
pub fn expr<'a>(
    tokens: &'a [Token<'a>],
    from: u32,
    arena: &'a Bump,
) -> Result<(&'a Expr<'a>, u32), ParseFault>
    requires { length tokens.now < 2 ^ 32 }
    ensures { MatchResult result (λ r. IsLongest IsExpression max_depth tokens.now from r.0.now r.1) (λ fault. Fails IsExpression max_depth tokens.now from fault) }
{
    expr_within(tokens, from, MAX_DEPTH, arena)
}

/// The longest operand, which is a primary or has an operator before it (annex A.8.3 and A.8.4), of
/// depth at most 500 that begins at a token, and the token after it. The target of an assignment is
/// read so, since `<=` behind it is an operator too.
pub fn operand<'a>(
    tokens: &'a [Token<'a>],
    from: u32,
    arena: &'a Bump,
) -> Result<(&'a Expr<'a>, u32), ParseFault>
    requires { length tokens.now < 2 ^ 32 }
    ensures { MatchResult result (λ r. IsLongest IsOperand max_depth tokens.now from r.0.now r.1) (λ fault. Fails IsOperand max_depth tokens.now from fault) }
{
    operand_within(tokens, from, MAX_DEPTH, arena)
}

/// As [`expr`], of a depth that stands below other nodes.
pub fn expr_within<'a>(
    tokens: &'a [Token<'a>],
    from: u32,
    depth: u32,
    arena: &'a Bump,
) -> Result<(&'a Expr<'a>, u32), ParseFault>
    requires short { length tokens.now < 2 ^ 32 }
    requires shallow { depth ≤ max_depth }
    ensures { MatchResult result (λ r. IsLongest IsExpression depth tokens.now from r.0.now r.1) (λ fault. Fails IsExpression depth tokens.now from fault) }
{
    match read_at(tokens, from, 1, depth + 1, arena) {
        Err(_) => Err(ParseFault::Memory),
        Ok(None) => Err(ParseFault::Syntax(from)),
        Ok(Some(found)) => match arena.try_alloc(found.expr) {
            Err(_) => Err(ParseFault::Memory),
            Ok(place) => Ok((place, found.next)),
        },
    }
}

/// The longest expression of at most a depth that begins at a token, with this mark behind it, and the
/// token after the mark. `Syntax(from)` comes where no expression begins, or the mark is not behind it.
pub fn expr_before<'a>(
    tokens: &'a [Token<'a>],
    from: u32,
    closing: Mark,
    depth: u32,
    arena: &'a Bump,
) -> Result<(&'a Expr<'a>, u32), ParseFault>
    requires short { length tokens.now < 2 ^ 32 }
    requires shallow { depth ≤ max_depth }
    ensures { MatchResult result (λ r. IsClosed closing depth tokens.now from r.0.now r.1) (λ fault. FailsClosed closing depth tokens.now from fault) }
{
    let (value, end) = expr_within(tokens, from, depth, arena)?;
    if is_mark(tokens, end, closing) {
        Ok((value, end + 1))
    } else {
        Err(ParseFault::Syntax(from))
    }
}

/// As [`operand`], of a depth that stands below other nodes.
pub fn operand_within<'a>(
    tokens: &'a [Token<'a>],
    from: u32,
    depth: u32,
    arena: &'a Bump,
) -> Result<(&'a Expr<'a>, u32), ParseFault>
    requires short { length tokens.now < 2 ^ 32 }
    requires shallow { depth ≤ max_depth }
    ensures { MatchResult result (λ r. IsLongest IsOperand depth tokens.now from r.0.now r.1) (λ fault. Fails IsOperand depth tokens.now from fault) }
{
    match read_at(tokens, from, UNARY_LEVEL, depth + 1, arena) {
        Err(_) => Err(ParseFault::Memory),
        Ok(None) => Err(ParseFault::Syntax(from)),
        Ok(Some(found)) => match arena.try_alloc(found.expr) {
            Err(_) => Err(ParseFault::Memory),
            Ok(place) => Ok((place, found.next)),
        },
    }
}

/// The target of an assignment (annex A.8.5) of at most a depth that stands at a token, and the token
/// after it: the longest operand there, where it may be assigned. It is read as an operand, since
/// `<=` behind it is an operator too. `Syntax(from)` comes where no target stands.
pub fn target_within<'a>(
    tokens: &'a [Token<'a>],
    from: u32,
    depth: u32,
    arena: &'a Bump,
) -> Result<(&'a Expr<'a>, u32), ParseFault>
    requires short { length tokens.now < 2 ^ 32 }
    requires shallow { depth ≤ max_depth }
    ensures { MatchResult result (λ r. IsTarget depth tokens.now from r.0.now r.1) (λ fault. FailsTarget depth tokens.now from fault) }
{
    let (value, next) = operand_within(tokens, from, depth, arena)?;
    if is_target(value) {
        Ok((value, next))
    } else {
        Err(ParseFault::Syntax(from))
    }
}
