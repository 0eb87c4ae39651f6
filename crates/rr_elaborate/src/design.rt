//! From bytes to tokens, to the tree, to the flat design.
ghost use Rattle.std.specs.Prelude.{◌≡◌, ◌≤◌, ◌<◌, ◌^◌, ℕ, List, Option, Some, IfOk, MatchResult, length, option_map};
ghost use Rattle.rr_syntax.specs.Tree.{SourceText};
ghost use Rattle.rr_syntax.specs.Items.{WellFormedSource, FitLiteralsSource};
ghost use Rattle.rr_syntax.specs.View.{plain_source};
ghost use Rattle.rr_lex.specs.Tokens.{AreTokens, IsTextFault, lexemes};
ghost use Rattle.rr_flat.specs.Elaborated.{IsSound};
ghost use Rattle.rr_flat.specs.Faults.{Refuses as RefusesFlat};
ghost use Rattle.rr_flat.specs.View.{plain_flat};
ghost use Rattle.rr_flatten.specs.Walk.{flat_by};
ghost use Rattle.rr_parse.specs.Exact.{IsRefusal};
ghost use Rattle.rr_elaborate.specs.Designs.{IsDesign, IsDesignOf, IsText, Refuses, placed as placed_by, start_of as start_in};

use bumpalo::Bump;
use rr_flat::{Flat, FlatFault};
use rr_flatten::flatten;
use rr_lex::{TextFault, Wrong, lex};
use rr_parse::parse;
use rr_parse_expr::ParseFault;
use rr_syntax::{Source, Token};
use std::alloc::Global;

/// A flat design with the tokens of its text, which its numbers of tokens name, and with its tree.
#[derive(Drop)]
pub struct Design<'a> {
    pub tokens: &'a [Token<'a>],
    pub source: &'a Source<'a>,
    pub flat: Flat<'a>,
}

/// Why a text has no flat design. Places are bytes from 0.
#[derive(Clone, Copy, Debug, PartialEq, Eq)]
pub enum DesignFault {
    /// The first fault of the bytes (IEEE 1364-2005 section 3).
    Text(Wrong, u32),
    /// The first word without a rule.
    Unsupported(u32),
    /// The tokens spell no source text; reading stopped there.
    Syntax(u32),
    /// The first fault of the elaboration (section 12), with bytes in the place of token numbers.
    Flaw(FlatFault),
    /// Want of memory.
    Memory,
}

/// The byte at which a token begins.
pub fn start_of(tokens: &[Token<'_>], at: u32) -> u32
    ensures { result ≡ start_in (lexemes tokens.now) at }
{
    match tokens.get(at as usize) {
        Some(token) => token.span.start,
        None => 0,
    }
}

/// Where reading stopped: where that token begins, or behind the last one where none is left.
fn stopped_at(tokens: &[Token<'_>], at: u32) -> u32 {
    match tokens.get(at as usize) {
        Some(token) => token.span.start,
        None => match tokens.last() {
            Some(token) => token.span.end,
            None => 0,
        },
    }
}

fn of_text(fault: TextFault) -> DesignFault
    ensures { (bytes : List ℕ) (top : Option (List ℕ)) → IsTextFault bytes fault → Refuses bytes top result }
{
    match fault {
        TextFault::BadByte(at) => DesignFault::Text(Wrong::Byte, at),
        TextFault::BadNumber(at) => DesignFault::Text(Wrong::Number, at),
        TextFault::OpenComment(at) => DesignFault::Text(Wrong::Comment, at),
        TextFault::Directive(at) => DesignFault::Text(Wrong::Directive, at),
        TextFault::Memory => DesignFault::Memory,
    }
}

#[tactic(auto, using(crate::proofs::Reading::unsupported, crate::proofs::Reading::unparsed))]
fn of_tokens(tokens: &[Token<'_>], fault: ParseFault) -> DesignFault
    requires refused { IsRefusal tokens.now fault }
    ensures { (bytes : List ℕ) (top : Option (List ℕ)) → AreTokens bytes (lexemes tokens.now) → Refuses bytes top result }
{
    match fault {
        ParseFault::Unsupported(at) => DesignFault::Unsupported(start_of(tokens, at)),
        ParseFault::Syntax(at) => DesignFault::Syntax(stopped_at(tokens, at)),
        ParseFault::Memory => DesignFault::Memory,
    }
}

/// A fault of elaboration, with the byte at which its token begins.
fn placed(tokens: &[Token<'_>], fault: FlatFault) -> FlatFault
    ensures { result ≡ placed_by (lexemes tokens.now) fault }
{
    match fault {
        FlatFault::NoTop => FlatFault::NoTop,
        FlatFault::UnknownModule(at) => FlatFault::UnknownModule(start_of(tokens, at)),
        FlatFault::SelfInstance(at) => FlatFault::SelfInstance(start_of(tokens, at)),
        FlatFault::NameTwice(at) => FlatFault::NameTwice(start_of(tokens, at)),
        FlatFault::UnknownName(at) => FlatFault::UnknownName(start_of(tokens, at)),
        FlatFault::BadRange(at) => FlatFault::BadRange(start_of(tokens, at)),
        FlatFault::NotConstant(at) => FlatFault::NotConstant(start_of(tokens, at)),
        FlatFault::PortMismatch(at) => FlatFault::PortMismatch(start_of(tokens, at)),
        FlatFault::TooWide(at, width) => FlatFault::TooWide(start_of(tokens, at), width),
        FlatFault::TooMany(limit, count) => FlatFault::TooMany(limit, count),
        FlatFault::BadLoop(at) => FlatFault::BadLoop(start_of(tokens, at)),
        FlatFault::Memory => FlatFault::Memory,
    }
}

fn of_flat(tokens: &[Token<'_>], fault: FlatFault) -> DesignFault
    ensures { (bytes : List ℕ) (top : Option (List ℕ)) (tree : SourceText) → IsText bytes (lexemes tokens.now) tree → RefusesFlat (flat_by (Some 1048576) tree top) fault → Refuses bytes top result }
{
    match fault {
        FlatFault::Memory => DesignFault::Memory,
        other => DesignFault::Flaw(placed(tokens, other)),
    }
}

/// The flat design of a parsed source.
fn flattened<'a>(
    alloc: Global,
    tokens: &'a [Token<'a>],
    source: &'a Source<'a>,
    top: Option<&str>,
    arena: &'a Bump,
) -> Result<Design<'a>, DesignFault>
    requires few { length source.now.modules.now < 2 ^ 32 }
    requires short { length tokens.now < 2 ^ 32 }
    requires formed { WellFormedSource (plain_source source.now) }
    requires fit { FitLiteralsSource (plain_source source.now) }
    ensures answer { (bytes : List ℕ) → IsText bytes (lexemes tokens.now) (plain_source source.now) → MatchResult result
        (λ design. IsDesign bytes (lexemes design.tokens.now) (option_map (λ n. n.now) top.entry) (plain_flat design.flat))
        (Refuses bytes (option_map (λ n. n.now) top.entry)) }
    ensures tree { (bytes : List ℕ) → IsText bytes (lexemes tokens.now) (plain_source source.now) → IfOk result
        (λ design. IsDesignOf bytes (lexemes design.tokens.now) (plain_source design.source.now) (option_map (λ n. n.now) top.entry) (plain_flat design.flat)) }
    ensures sound { IfOk result (λ design. IsSound (plain_flat design.flat)) }
    ensures fit { IfOk result (λ design. FitLiteralsSource (plain_source design.source.now)) }
    ensures few { IfOk result (λ design. length design.tokens.now < 2 ^ 32) }
{
    match flatten(alloc, source, top, arena) {
        Ok(flat) => Ok(Design {
            tokens,
            source,
            flat,
        }),
        Err(fault) => Err(of_flat(tokens, fault)),
    }
}

/// The flat design of tokens.
fn parsed<'a>(
    alloc: Global,
    tokens: &'a [Token<'a>],
    top: Option<&str>,
    arena: &'a Bump,
) -> Result<Design<'a>, DesignFault>
    requires few { length tokens.now < 2 ^ 32 }
    requires lexed { (bytes : List ℕ) × AreTokens bytes (lexemes tokens.now) }
    ensures answer { (bytes : List ℕ) → AreTokens bytes (lexemes tokens.now) → MatchResult result
        (λ design. IsDesign bytes (lexemes design.tokens.now) (option_map (λ n. n.now) top.entry) (plain_flat design.flat))
        (Refuses bytes (option_map (λ n. n.now) top.entry)) }
    ensures tree { (bytes : List ℕ) → AreTokens bytes (lexemes tokens.now) → IfOk result
        (λ design. IsDesignOf bytes (lexemes design.tokens.now) (plain_source design.source.now) (option_map (λ n. n.now) top.entry) (plain_flat design.flat)) }
    ensures sound { IfOk result (λ design. IsSound (plain_flat design.flat)) }
    ensures fit { IfOk result (λ design. FitLiteralsSource (plain_source design.source.now)) }
    ensures few { IfOk result (λ design. length design.tokens.now < 2 ^ 32) }
{
    match parse(tokens, arena) {
        Ok(source) => flattened(alloc, tokens, source, top, arena),
        Err(fault) => Err(of_tokens(tokens, fault)),
    }
}

/// The flat design of a text of at most 1,048,576 bytes with the module `top`, or with the last that no
/// module instantiates (IEEE 1364-2005 sections 3 and 12); or the first fault: of the bytes, then a word
/// without a rule, then of the tree, then of the elaboration.
pub fn elaborate<'a>(
    alloc: Global,
    bytes: &[u8],
    top: Option<&str>,
    arena: &'a Bump,
) -> Result<Design<'a>, DesignFault>
    requires { length bytes.now ≤ 1048576 }
    ensures answer { MatchResult result
        (λ design. IsDesign bytes.now (lexemes design.tokens.now) (option_map (λ n. n.now) top.entry) (plain_flat design.flat))
        (Refuses bytes.now (option_map (λ n. n.now) top.entry)) }
    ensures tree { IfOk result
        (λ design. IsDesignOf bytes.now (lexemes design.tokens.now) (plain_source design.source.now) (option_map (λ n. n.now) top.entry) (plain_flat design.flat)) }
    ensures sound { IfOk result (λ design. IsSound (plain_flat design.flat)) }
    ensures fit { IfOk result (λ design. FitLiteralsSource (plain_source design.source.now)) }
    ensures few { IfOk result (λ design. length design.tokens.now < 2 ^ 32) }
{
    match lex(bytes, arena) {
        Ok(tokens) => parsed(alloc, tokens, top, arena),
        Err(fault) => Err(of_text(fault)),
    }
}
