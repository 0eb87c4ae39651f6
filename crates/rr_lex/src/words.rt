//! The places of reserved words and marks in their tables.

ghost use Rattle.std.specs.Prelude.{◌≡◌, ℕ, List, ◌≤◌, ◌<◌, length, IfSome};
ghost use Rattle.rr_syntax.specs.Words.{marks, keywords};
ghost use Rattle.rr_lex.specs.Tokens.{place_of as place_in, directives};
ghost use Rattle.rr_lex.specs.Patch.{is_plain_name as plain_name_of};
ghost use Rattle.rr_lex.specs.Reading.{texts_of};
ghost use Rattle.rr_lex.specs.Table.{placed as placed_at, keyword_hash as hash_of_keyword, mark_hash as hash_of_mark};

use crate::bytes::{Class, past, stands};
use rr_syntax::{KEYWORDS, MARKS};

const DIRECTIVES: [&str; 5] = [
    "timescale",
    "default_nettype",
    "resetall",
    "celldefine",
    "endcelldefine",
];

/// What the first letter of a reserved word adds to its hash, by its last five bits.
const KEYWORD_OFFSETS: [u8; 32] = [
    0, 4, 5, 31, 2, 0, 25, 4, 5, 1, 0, 0, 5, 2, 8, 8, 3, 0, 1, 0, 2, 1, 0, 14, 1, 0, 0, 0, 0, 0, 0,
    0,
];

/// The place of the only reserved word with a hash, or 255.
const KEYWORD_SLOTS: [u8; 256] = [
    7, 255, 255, 255, 255, 255, 31, 255, 55, 45, 123, 16, 103, 84, 122, 69, 255, 61, 35, 255, 60,
    27, 104, 121, 119, 44, 255, 255, 9, 255, 255, 92, 255, 82, 32, 85, 43, 63, 5, 255, 53, 66, 255,
    12, 255, 255, 4, 255, 10, 46, 255, 255, 255, 255, 255, 51, 255, 255, 255, 18, 101, 255, 47, 56,
    255, 255, 15, 255, 114, 91, 255, 255, 255, 48, 255, 255, 255, 255, 255, 8, 255, 255, 115, 255,
    255, 255, 255, 255, 255, 106, 255, 255, 255, 102, 86, 255, 255, 255, 28, 107, 99, 21, 11, 13,
    255, 1, 255, 255, 255, 255, 100, 255, 70, 23, 255, 255, 255, 255, 255, 255, 89, 255, 80, 36,
    255, 117, 255, 74, 71, 93, 90, 255, 255, 255, 255, 118, 255, 120, 38, 57, 255, 111, 255, 255,
    255, 255, 255, 64, 78, 255, 67, 255, 255, 255, 25, 255, 255, 65, 255, 255, 255, 255, 50, 29,
    255, 255, 255, 255, 52, 20, 42, 255, 81, 255, 22, 110, 113, 72, 68, 255, 108, 19, 76, 3, 54,
    79, 94, 73, 255, 255, 255, 255, 255, 255, 255, 255, 255, 77, 255, 30, 14, 97, 255, 26, 41, 255,
    255, 255, 255, 255, 95, 98, 83, 87, 255, 255, 255, 255, 255, 62, 96, 75, 255, 88, 255, 255,
    255, 255, 255, 33, 0, 255, 112, 24, 255, 255, 255, 58, 17, 255, 2, 59, 37, 116, 39, 255, 6,
    255, 255, 105, 255, 49, 109, 34, 40, 255,
];

/// The place of the only mark with a hash, or 255.
const MARK_SLOTS: [u8; 128] = [
    8, 255, 22, 3, 25, 255, 255, 255, 38, 10, 34, 255, 255, 255, 255, 255, 36, 14, 39, 255, 255,
    17, 255, 255, 255, 28, 255, 255, 255, 255, 255, 30, 40, 7, 255, 5, 23, 12, 255, 255, 255, 255,
    41, 255, 255, 255, 0, 255, 255, 255, 6, 255, 255, 255, 255, 255, 255, 255, 255, 255, 255, 255,
    255, 255, 255, 2, 24, 255, 20, 255, 11, 19, 33, 255, 42, 18, 255, 255, 35, 1, 255, 255, 43, 15,
    255, 255, 255, 255, 255, 255, 255, 255, 255, 31, 255, 255, 255, 4, 255, 13, 255, 255, 255, 255,
    255, 27, 44, 255, 21, 255, 255, 29, 16, 255, 37, 255, 9, 32, 26, 255, 255, 255, 255, 255, 255,
    255, 255, 255,
];

fn place_of(text: &[u8], texts: &[&str]) -> Option<usize>
    ensures place { result ≡ place_in text.now (texts_of texts.now) }
    ensures within { IfSome result (λ at. at < length texts.now) }
{
    for (at, known) in texts.iter().enumerate() {
        if known.as_bytes() == text {
            return Some(at);
        }
    }
    None
}

/// The place, where the text stands there.
#[tactic(auto, using(crate::proofs::Places::placed_past))]
fn placed(slot: u8, text: &[u8], texts: &[&str]) -> Option<usize>
    ensures place { result ≡ placed_at slot text.now (texts_of texts.now) }
    ensures small { IfSome result (λ at. at < 256) }
{
    let at = slot as usize;
    if at >= texts.len() {
        return None;
    }
    if texts[at].as_bytes() == text {
        Some(at)
    } else {
        None
    }
}

/// A number that tells the reserved words apart.
#[tactic(auto, unfolding(crate::specs::Table::keyword_hash))]
fn keyword_hash(text: &[u8]) -> usize
    requires { 0 < length text.now }
    ensures hash { result ≡ hash_of_keyword text.now }
    ensures small { result < 256 }
{
    let len = text.len();
    let offset = KEYWORD_OFFSETS[(text[0] % 32) as usize] as usize;
    let third = text[len / 3] as usize;
    let half = text[len / 2] as usize;
    let last = text[len - 1] as usize;
    (offset + len % 32 * 15 + third * 11 + half * 13 + last * 10) % 256
}

/// A number that tells the marks apart.
#[tactic(auto, unfolding(crate::specs::Table::mark_hash))]
fn mark_hash(text: &[u8]) -> usize
    requires { 0 < length text.now }
    ensures hash { result ≡ hash_of_mark text.now }
    ensures small { result < 128 }
{
    let len = text.len();
    let first = text[0] as usize;
    let last = text[len - 1] as usize;
    (len % 32 * 6 + first * 12 + last * 21) % 128
}

/// The place of a mark among the marks.
#[tactic(auto, using(crate::proofs::Places::mark_place, crate::proofs::Places::mark_none))]
pub fn mark_at(text: &[u8]) -> Option<usize>
    ensures place { result ≡ place_in text.now marks }
    ensures small { IfSome result (λ at. at < 256) }
{
    if text.is_empty() {
        None
    } else {
        placed(MARK_SLOTS[mark_hash(text)], text, &MARKS)
    }
}

/// The place of a reserved word among the reserved words.
#[tactic(auto, using(crate::proofs::Places::keyword_place, crate::proofs::Places::keyword_none))]
pub fn keyword_at(text: &[u8]) -> Option<usize>
    ensures place { result ≡ place_in text.now keywords }
    ensures small { IfSome result (λ at. at < 256) }
{
    if text.is_empty() {
        None
    } else {
        placed(KEYWORD_SLOTS[keyword_hash(text)], text, &KEYWORDS)
    }
}

/// The place of a directive among those that are white space.
pub fn directive_at(text: &[u8]) -> Option<usize>
    ensures { result ≡ place_in text.now directives }
{
    place_of(text, &DIRECTIVES)
}

/// Whether a name is written as it is: it is spelled as a name and is no reserved word. Any other
/// name of a token is written with a `\\` before it (IEEE 1364-2005 section 3.7.1).
#[tactic(auto, using(crate::proofs::Fresh::plain_no_letter, crate::proofs::Fresh::plain_no_name, crate::proofs::Fresh::plain_yes), unfolding(crate::specs::Reading::member))]
pub fn is_plain_name(name: &[u8]) -> bool
    ensures { result ≡ plain_name_of name.now }
{
    if !stands(name, 0, Class::Letter) || past(name, 0, Class::NameByte) != name.len() {
        return false;
    }
    keyword_at(name).is_none()
}
