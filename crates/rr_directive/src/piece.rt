//! The units of a file, and of a text that was defined.
ghost use Rattle.std.specs.Prelude.{◌≡◌, ℕ, List, [], ◌≤◌, ◌<◌, ◌+◌, ◌-◌, ◌++◌, ◌||◌, max, length, drop, take, true, false, IfOk};
ghost use Rattle.std.specs.List.{prefix_len};
ghost use Rattle.rr_directive.specs.Bytes.{begins, is_letter, is_name_byte};
ghost use Rattle.rr_directive.specs.Pieces.{bare as bare_of, begins_with as begins_with_of, defining as defining_of, directive_of as directive_in, ends_line as ends_line_of, has_name as has_name_of, is_escaped as is_escaped_of, join_len as join_len_of, joined as joined_of, named_piece as named_piece_of, piece as piece_of, text_len, with_name as with_name_of, with_text as with_text_of};
ghost use Rattle.rr_directive.specs.Expand.{is_named as is_named_of};
ghost use Rattle.rr_directive.specs.View.{plain_piece, IsIn};

use crate::bytes::{Class, begins_with, closed, has, past, stands};
use bumpalo::Bump;
use bumpalo::collections::into_bump_slice;
use std::alloc::AllocError;

/// A directive, by what it asks.
#[derive(Clone, Copy, Debug, PartialEq, Eq)]
pub enum Directive {
    /// It stays, with the rest of its line.
    Stays,
    Define,
    Undef,
    Ifdef,
    Ifndef,
    Else,
    Endif,
    Elsif,
}

/// What a unit is.
#[derive(Clone, Copy, Debug, PartialEq, Eq)]
pub enum Kind {
    Comment,
    Escaped,
    Plain,
    Use,
    Named(Directive),
}

/// Whether a unit is a directive.
#[tactic(auto, unfolding(crate::specs::Expand::is_named))]
pub(crate) fn is_named(kind: Kind) -> bool
    ensures { result ≡ is_named_of kind }
{
    match kind {
        Kind::Comment | Kind::Escaped | Kind::Plain | Kind::Use => false,
        Kind::Named(_) => true,
    }
}

/// A unit: what it is, its name, whether `(` stands directly after this, and where the text begins that
/// it defines. A unit without a name or a text has empty ones.
#[derive(Clone, Copy)]
pub(crate) struct Piece {
    pub kind: Kind,
    pub name: usize,
    pub name_end: usize,
    pub bracket: bool,
    pub text: usize,
    pub end: usize,
}

/// The directive of a name, if it is that of one.
#[tactic(auto, unfolding(crate::specs::Pieces::directive_of))]
pub(crate) fn directive_of(name: &[u8]) -> Option<Directive>
    ensures { result ≡ directive_in name.now }
{
    if name == b"define".as_slice() {
        Some(Directive::Define)
    } else if name == b"undef".as_slice() {
        Some(Directive::Undef)
    } else if name == b"ifdef".as_slice() {
        Some(Directive::Ifdef)
    } else if name == b"ifndef".as_slice() {
        Some(Directive::Ifndef)
    } else if name == b"else".as_slice() {
        Some(Directive::Else)
    } else if name == b"endif".as_slice() {
        Some(Directive::Endif)
    } else if name == b"elsif".as_slice() {
        Some(Directive::Elsif)
    } else if name == b"timescale".as_slice()
        || name == b"default_nettype".as_slice()
        || name == b"resetall".as_slice()
        || name == b"celldefine".as_slice()
        || name == b"endcelldefine".as_slice()
        || name == b"include".as_slice()
    {
        Some(Directive::Stays)
    } else {
        None
    }
}

/// How many bytes a `\` and the end of its line have that stand here, if they do.
#[tactic(auto, using(crate::proofs::Facts::pair_room, crate::proofs::Facts::join_two, crate::proofs::Facts::join_three, crate::proofs::Facts::join_return, crate::proofs::Facts::join_none))]
fn join_len(bytes: &[u8], at: usize) -> usize
    ensures plain { result ≡ join_len_of (drop at bytes.now) }
    ensures few { result ≤ 3 }
{
    if begins_with(bytes, at, 92, 10) {
        2
    } else if begins_with(bytes, at, 92, 13) {
        if has(bytes, at + 2, 10) { 3 } else { 0 }
    } else {
        0
    }
}

/// The place after the byte that stands here, or after the end of its line that is read with it.
#[tactic(auto, using(crate::proofs::Facts::join_room))]
fn further(bytes: &[u8], at: usize) -> usize
    requires { at < length bytes.now }
    ensures place { result ≡ at + max (join_len_of (drop at bytes.now)) 1 }
    ensures within { result ≤ length bytes.now }
{
    at + join_len(bytes, at).max(1)
}

/// Whether a line ends here, by LF or by CR and LF.
#[tactic(auto, unfolding(crate::specs::Pieces::ends_line))]
fn ends_line(bytes: &[u8], at: usize) -> bool
    ensures { result ≡ ends_line_of (drop at bytes.now) }
{
    has(bytes, at, 10) || begins_with(bytes, at, 13, 10)
}

/// Whether a defined text ends before the byte that stands here.
fn stops(bytes: &[u8], at: usize) -> bool
    ensures { result ≡ (ends_line_of (drop at bytes.now) || begins_with_of 47 47 (drop at bytes.now)) }
{
    ends_line(bytes, at) || begins_with(bytes, at, 47, 47)
}

/// Where a defined text ends that begins here.
#[tactic(auto, using(crate::proofs::Facts::text_stops, crate::proofs::Facts::text_ends, crate::proofs::Facts::text_goes))]
fn text_end(bytes: &[u8], from: usize) -> usize
    requires { from ≤ length bytes.now }
    ensures place { result ≡ from + text_len 0 (drop from bytes.now) }
    ensures within { result ≤ length bytes.now }
{
    let mut at = from;
    while at < bytes.len() {
        if stops(bytes, at) {
            return at;
        }
        at = further(bytes, at);
    }
    at
}

/// A text with each `\` and the end of its line as one blank.
pub(crate) fn joined<'a>(arena: &'a Bump, text: &[u8]) -> Result<&'a [u8], AllocError>
    ensures { IfOk result (λ v. v.now ≡ joined_of 0 text.now) }
{
    let mut out = Vec::new(arena);
    let mut at = 0;
    while at < text.len() {
        let byte = if join_len(text, at) == 0 {
            text[at]
        } else {
            32
        };
        out.push(byte)?;
        at = further(text, at);
    }
    Ok(into_bump_slice(out))
}

/// A unit without a name and a text.
#[tactic(auto, using(crate::proofs::Facts::no_letter, crate::proofs::Facts::nothing_joined))]
fn bare(kind: Kind, end: usize) -> Piece
    ensures plain { (bytes : List ℕ) (at : ℕ) → plain_piece bytes at result ≡ bare_of kind (end - at) }
    ensures within { (bytes : List ℕ) (at : ℕ) → at < end → end ≤ length bytes → IsIn bytes at result }
{
    Piece {
        kind,
        name: end,
        name_end: end,
        bracket: false,
        text: end,
        end,
    }
}

/// A directive that takes a name, which may follow here.
#[tactic(auto, unfolding(crate::specs::Bytes::member))]
fn with_name(bytes: &[u8], kind: Kind, after: usize) -> Piece
    requires { after ≤ length bytes.now }
    ensures plain { (at : ℕ) → at < after → plain_piece bytes.now at result ≡ with_name_of kind (after - at) (drop after bytes.now) }
    ensures within { (at : ℕ) → at < after → IsIn bytes.now at result }
{
    let name = past(bytes, after, Class::Space);
    if !stands(bytes, name, Class::Letter) {
        return bare(kind, after);
    }
    let end = past(bytes, name, Class::NameByte);
    Piece {
        kind,
        name,
        name_end: end,
        bracket: false,
        text: end,
        end,
    }
}

/// A directive that defines a text, which follows its name.
fn with_text(bytes: &[u8], piece: Piece) -> Piece
    requires { (at : ℕ) × IsIn bytes.now at piece }
    ensures plain { (at : ℕ) → at < piece.end → plain_piece bytes.now at result ≡ with_text_of (plain_piece bytes.now at piece) (drop piece.end bytes.now) }
    ensures within { (at : ℕ) → IsIn bytes.now at piece → IsIn bytes.now at result }
{
    let text = past(bytes, piece.end, Class::Space);
    let end = text_end(bytes, text);
    Piece {
        kind: piece.kind,
        name: piece.name,
        name_end: piece.name_end,
        bracket: has(bytes, piece.end, 40),
        text,
        end,
    }
}

/// A definition, whose name may follow here.
fn defining(bytes: &[u8], after: usize) -> Piece
    requires some { 1 ≤ after }
    requires within { after ≤ length bytes.now }
    ensures plain { (at : ℕ) → at < after → plain_piece bytes.now at result ≡ defining_of (with_name_of (Kind.Named Directive.Define) (after - at) (drop after bytes.now)) (drop at bytes.now) }
    ensures within { (at : ℕ) → at < after → IsIn bytes.now at result }
{
    let piece = with_name(bytes, Kind::Named(Directive::Define), after);
    if piece.name < piece.name_end {
        with_text(bytes, piece)
    } else {
        piece
    }
}

/// What begins with a backtick and a name, which ends there.
fn named_piece(bytes: &[u8], at: usize, end: usize) -> Piece
    requires letter { begins is_letter (drop (at + 1) bytes.now) ≡ true }
    requires name { end ≡ at + 1 + prefix_len is_name_byte (drop (at + 1) bytes.now) }
    requires within { end ≤ length bytes.now }
    ensures plain { plain_piece bytes.now at result ≡ named_piece_of (directive_in (take (end - (at + 1)) (drop (at + 1) bytes.now))) (end - (at + 1)) (drop at bytes.now) }
    ensures within { IsIn bytes.now at result }
{
    let directive = match directive_of(&bytes[at + 1..end]) {
        Some(directive) => directive,
        None => {
            return Piece {
                kind: Kind::Use,
                name: at + 1,
                name_end: end,
                bracket: false,
                text: end,
                end,
            };
        }
    };
    let kind = Kind::Named(directive);
    match directive {
        Directive::Stays => bare(kind, past(bytes, at + 1, Class::InLine)),
        Directive::Define => defining(bytes, end),
        Directive::Undef => with_name(bytes, kind, end),
        Directive::Ifdef => with_name(bytes, kind, end),
        Directive::Ifndef => with_name(bytes, kind, end),
        Directive::Else => bare(kind, end),
        Directive::Endif => bare(kind, end),
        Directive::Elsif => bare(kind, end),
    }
}

/// Whether an escaped name begins here: `\`, then bytes 33 to 126.
#[tactic(auto, using(crate::proofs::Facts::escaped_none))]
fn is_escaped(bytes: &[u8], at: usize) -> bool
    requires { at < length bytes.now }
    ensures { result ≡ is_escaped_of (drop at bytes.now) }
{
    has(bytes, at, 92) && stands(bytes, at + 1, Class::Printable)
}

/// The unit that begins here.
pub(crate) fn piece_at(bytes: &[u8], at: usize) -> Piece
    requires { at < length bytes.now }
    ensures plain { plain_piece bytes.now at result ≡ piece_of (drop at bytes.now) }
    ensures within { IsIn bytes.now at result }
{
    if begins_with(bytes, at, 47, 47) {
        bare(Kind::Comment, past(bytes, at + 2, Class::InLine))
    } else if begins_with(bytes, at, 47, 42) {
        bare(Kind::Comment, closed(bytes, at + 2, 42, 47))
    } else if is_escaped(bytes, at) {
        bare(Kind::Escaped, past(bytes, at + 1, Class::Printable))
    } else if has(bytes, at, 96) && stands(bytes, at + 1, Class::Letter) {
        named_piece(bytes, at, past(bytes, at + 1, Class::NameByte))
    } else {
        bare(Kind::Plain, at + 1)
    }
}
