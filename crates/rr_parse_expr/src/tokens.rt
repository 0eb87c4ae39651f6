//! What stands at a token: a mark, a reserved word or a name.

ghost use Rattle.std.specs.Prelude.{◌≡◌, ◌↔◌, IsTrue, Some, drop};
ghost use Rattle.rr_syntax.specs.Words.{words};
ghost use Rattle.rr_parse_expr.specs.Fronts.{front_keyword, front_mark, IsNameAt};

use rr_syntax::{Keyword, Kind, Mark, Named, Token};

/// The mark that stands at a token (IEEE 1364-2005 sections 3.2 and 5.1), if one does.
#[tactic(auto, using(crate::proofs::TokenWords::words_at, crate::proofs::TokenWords::words_past), unfolding(crate::specs::Fronts::front_mark))]
pub fn mark_at(tokens: &[Token], at: u32) -> Option<Mark>
    ensures { result ≡ front_mark (drop at (words tokens.now)) }
{
    match tokens.get(at as usize) {
        Some(token) => match token.kind {
            Kind::Mark(found) => Some(found),
            _ => None,
        },
        None => None,
    }
}

/// Whether this mark stands at a token.
pub fn is_mark(tokens: &[Token], at: u32, mark: Mark) -> bool
    ensures { IsTrue result ↔ (front_mark (drop at (words tokens.now)) ≡ Some mark) }
{
    mark_at(tokens, at) == Some(mark)
}

/// The reserved word that stands at a token (IEEE 1364-2005 annex B), if one does.
#[tactic(auto, using(crate::proofs::TokenWords::words_at, crate::proofs::TokenWords::words_past), unfolding(crate::specs::Fronts::front_keyword))]
pub fn keyword_at(tokens: &[Token], at: u32) -> Option<Keyword>
    ensures { result ≡ front_keyword (drop at (words tokens.now)) }
{
    match tokens.get(at as usize) {
        Some(token) => match token.kind {
            Kind::Keyword(found) => Some(found),
            _ => None,
        },
        None => None,
    }
}

/// Whether this reserved word stands at a token.
pub fn is_keyword(tokens: &[Token], at: u32, word: Keyword) -> bool
    ensures { IsTrue result ↔ (front_keyword (drop at (words tokens.now)) ≡ Some word) }
{
    keyword_at(tokens, at) == Some(word)
}

/// The name that stands at a token (section 3.7), if one does, with that token's number.
#[tactic(auto, using(crate::proofs::TokenWords::words_at, crate::proofs::TokenWords::words_past), unfolding(crate::specs::Fronts::front_name))]
pub fn name_at<'a>(tokens: &'a [Token<'a>], at: u32) -> Option<Named<'a>>
    ensures { IsNameAt tokens.now at result }
{
    match tokens.get(at as usize) {
        Some(token) => match token.kind {
            Kind::Name(name) => Some(Named { token: at, name }),
            _ => None,
        },
        None => None,
    }
}
