//! What stands at a token: marks and reserved words.

ghost use Rattle.std.specs.Prelude.{◌≡◌, ◌≤◌, ◌+◌, false, drop, MatchOption};
ghost use Rattle.rr_syntax.specs.Words.{words};
ghost use Rattle.rr_syntax.specs.Statements.{defaults as defaults_of, is_case as case_of};
ghost use Rattle.rr_syntax.specs.Tree.{MoreArms, NoArms};
ghost use Rattle.rr_syntax.specs.View.{plain_arm};
ghost use Rattle.rr_parse_stmt.specs.Reading.{keyword, sign};
ghost use Rattle.rr_parse_stmt.specs.Answer.{IsCaseWord};
ghost use Rattle.rr_parse_stmt.specs.Loops.{at_most_one};

use rr_parse_expr::{is_mark, keyword_at};
use rr_syntax::{Arm, Keyword, Mark, Token};

/// Whether the mark at a place is `=`, where it is `=` or `<=`.
#[tactic(auto, unfolding(crate::specs::Reading::sign))]
pub(crate) fn sign_at(tokens: &[Token], at: u32) -> Option<bool>
    ensures { result ≡ sign (drop at (words tokens.now)) }
{
    if is_mark(tokens, at, Mark::EQUALS) {
        Some(true)
    } else if is_mark(tokens, at, Mark::LESS_OR_EQUAL) {
        Some(false)
    } else {
        None
    }
}

/// Whether a reserved word begins a `case`.
#[tactic(auto, unfolding(rr_syntax::specs::Statements::is_case))]
fn is_case(word: Keyword) -> bool
    ensures { result ≡ case_of word.0 }
{
    word == Keyword::CASE || word == Keyword::CASEZ || word == Keyword::CASEX
}

/// The reserved word of a `case`, if one stands at a place.
pub(crate) fn case_at(tokens: &[Token], at: u32) -> Option<Keyword>
    ensures { MatchOption result (case_of (keyword (drop at (words tokens.now))) ≡ false) (λ kind. IsCaseWord (drop at (words tokens.now)) kind) }
{
    match keyword_at(tokens, at) {
        None => None,
        Some(word) => { if is_case(word) { Some(word) } else { None } }
    }
}

/// The number of default arms with this one, where it is not the second.
pub(crate) fn counted(arm: &Arm, defaults: u32) -> Option<u32>
    requires once { defaults ≤ 1 }
    ensures { result ≡ at_most_one (defaults + defaults_of (MoreArms (plain_arm arm.now) NoArms)) }
{
    if !arm.labels.is_empty() {
        Some(defaults)
    } else if defaults == 0 {
        Some(1)
    } else {
        None
    }
}
