//! The operators of expressions (IEEE 1364-2005 sections 5.1 and 5.1.2).

ghost use Rattle.std.specs.Prelude.{◌≡◌};
ghost use Rattle.rr_syntax.specs.Expressions.{infix_level as infix_of, is_prefix as prefix_of};

use crate::token::Mark;

const LEVELS: [u8; 45] = [
    0, 0, 0, 0, 0, 0, 0, 0, 0, 0, 0, 0, 1, 0, 10, 10, 11, 11, 11, 0, 0, 6, 4, 5, 8, 8, 12, 7, 7, 7,
    7, 8, 8, 9, 9, 9, 9, 3, 2, 0, 0, 5, 5, 0, 0,
];

const PREFIXES: [u8; 45] = [
    0, 0, 0, 0, 0, 0, 0, 0, 0, 0, 0, 0, 0, 0, 1, 1, 0, 0, 0, 1, 1, 1, 1, 1, 0, 0, 0, 0, 0, 0, 0, 0,
    0, 0, 0, 0, 0, 0, 0, 1, 1, 1, 1, 0, 0,
];

/// How tightly an operator between operands binds (table 5-4): 1 for `?`, 2 for `||` up to 12 for
/// `**`, and 0 where the mark is no such operator.
#[tactic(auto, unfolding(crate::specs::Expressions::infix_level))]
pub fn infix_level(mark: Mark) -> u8
    ensures { result ≡ infix_of mark.0 }
{
    let at = mark.0 as usize;
    if at < LEVELS.len() { LEVELS[at] } else { 0 }
}

/// Whether the mark is an operator that stands before an operand.
#[tactic(auto, unfolding(crate::specs::Expressions::is_prefix))]
pub fn is_prefix(mark: Mark) -> bool
    ensures { result ≡ prefix_of mark.0 }
{
    let at = mark.0 as usize;
    if at < PREFIXES.len() {
        PREFIXES[at] == 1
    } else {
        false
    }
}
