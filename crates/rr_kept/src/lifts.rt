//! Edits that lift: of whole tokens, and of texts between them.

ghost use Rattle.std.specs.Prelude.{◌≡◌, ◌<◌, ◌^◌, length};
ghost use Rattle.rr_lex.specs.Tokens.{lexemes, Rise};
ghost use Rattle.rr_kept.specs.Kept.{place_lifts as place_lifts_of, round_lifts as round_lifts_of, token_lifts as token_lifts_of};

use rr_directive::Origin;
use rr_edit::lifts;
use rr_syntax::Token;

/// Whether the token with a number can be replaced.
pub(crate) fn token_lifts(origins: &[Origin], tokens: &[Token], place: u32) -> bool
    requires spans { Rise 0 (length origins.now) (lexemes tokens.now) }
    ensures { result ≡ token_lifts_of origins.now (lexemes tokens.now) place }
{
    match tokens.get(place as usize) {
        None => false,
        Some(token) => lifts(origins, token.span.start, token.span.end),
    }
}

/// Whether there is a token before the one with a number, and a text can be put behind it.
fn place_lifts(origins: &[Origin], tokens: &[Token], place: u64) -> bool
    requires spans { Rise 0 (length origins.now) (lexemes tokens.now) }
    ensures { result ≡ place_lifts_of origins.now (lexemes tokens.now) place }
{
    if place == 0 {
        return false;
    }
    match tokens.get((place - 1) as usize) {
        None => false,
        Some(token) => lifts(origins, token.span.end, token.span.end),
    }
}

/// Whether a text can be put before a token, and behind the last of so many from it on.
pub(crate) fn round_lifts(origins: &[Origin], tokens: &[Token], place: u32, count: u64) -> bool
    requires spans { Rise 0 (length origins.now) (lexemes tokens.now) }
    requires few { count < 2 ^ 63 }
    ensures { result ≡ round_lifts_of origins.now (lexemes tokens.now) place count }
{
    let first = u64::from(place);
    place_lifts(origins, tokens, first) && place_lifts(origins, tokens, first + count)
}
