//! The first word outside the profile.

ghost use Rattle.std.specs.Prelude.{◌≡◌, ◌<◌, ◌^◌, length, drop, MatchOption};
ghost use Rattle.rr_syntax.specs.Words.{words};
ghost use Rattle.rr_outside_words.specs.Profile.{is_cast as cast_of, is_outside as outside_of, is_used as used_of, IsFirstOutside, NoneOutside};

use rr_parse_expr::is_mark;
use rr_syntax::{Keyword, Kind, Mark, Token};

/// The reserved words that the grammar uses (IEEE 1364-2005 annexes A and B).
const USED: [u8; 26] = [
    Keyword::ALWAYS.0,
    Keyword::ASSIGN.0,
    Keyword::BEGIN.0,
    Keyword::CASE.0,
    Keyword::CASEX.0,
    Keyword::CASEZ.0,
    Keyword::DEFAULT.0,
    Keyword::ELSE.0,
    Keyword::END.0,
    Keyword::ENDCASE.0,
    Keyword::ENDMODULE.0,
    Keyword::FOR.0,
    Keyword::IF.0,
    Keyword::INITIAL.0,
    Keyword::INPUT.0,
    Keyword::INTEGER.0,
    Keyword::LOCALPARAM.0,
    Keyword::MODULE.0,
    Keyword::NEGEDGE.0,
    Keyword::OR.0,
    Keyword::OUTPUT.0,
    Keyword::PARAMETER.0,
    Keyword::POSEDGE.0,
    Keyword::REG.0,
    Keyword::SIGNED.0,
    Keyword::WIRE.0,
];

/// The first token whose word has no rule in the profile: a reserved word that the grammar does not
/// use, a system name that is no cast, or a `#` without an opening bracket behind it. `None` where
/// each word has a rule, which says nothing of whether the rules take the words in this order.
pub fn first_outside(tokens: &[Token]) -> Option<u32>
    requires short { length tokens.now < 2 ^ 32 }
    ensures { MatchOption result (NoneOutside tokens.now) (λ at. IsFirstOutside tokens.now at) }
{
    let mut at: u32 = 0;
    while (at as usize) < tokens.len() {
        if is_outside(tokens, at) {
            return Some(at);
        }
        at += 1;
    }
    None
}

/// Whether the word of a token has no rule.
fn is_outside(tokens: &[Token], at: u32) -> bool
    requires inside { at < length tokens.now }
    requires short { length tokens.now < 2 ^ 32 }
    ensures { result ≡ outside_of (drop at (words tokens.now)) }
{
    match tokens.get(at as usize) {
        None => false,
        Some(token) => match token.kind {
            Kind::Name(_) => false,
            Kind::Number(_) => false,
            Kind::System(name) => !is_cast(name),
            Kind::Keyword(word) => !is_used(word.0),
            Kind::Mark(mark) => {
                mark.0 == Mark::HASH.0 && !is_mark(tokens, at + 1, Mark::OPEN_PARENTHESIS)
            }
        },
    }
}

/// Whether a system name is one of the two casts (section 5.5).
#[tactic(auto, unfolding(crate::specs::Profile::is_cast))]
fn is_cast(name: &str) -> bool
    ensures { result ≡ cast_of name.now }
{
    name == "signed" || name == "unsigned"
}

/// Whether the grammar uses a reserved word.
#[tactic(auto, unfolding(crate::specs::Profile::is_used))]
fn is_used(word: u8) -> bool
    ensures { result ≡ used_of word }
{
    USED.contains(&word)
}
