//! Lawful designs from files with compiler directives.
ghost use Rattle.std.specs.Prelude.{◌≡◌, ◌≤◌, ◌<◌, ◌^◌, ℕ, List, Option, IfOk, MatchResult, length, option_map};
ghost use Rattle.rr_directive.specs.Expand.{Faults, IsTaken};
ghost use Rattle.rr_syntax.specs.Items.{FitLiteralsSource};
ghost use Rattle.rr_syntax.specs.View.{plain_source};
ghost use Rattle.rr_lex.specs.Tokens.{lexeme, lexemes};
ghost use Rattle.rr_flat.specs.Elaborated.{IsSound};
ghost use Rattle.rr_flat.specs.View.{plain_flat};
ghost use Rattle.rr_clock.specs.Clock.{IsClockInput};
ghost use Rattle.rr_elaborate.specs.Designs.{IsDesignOf};
ghost use Rattle.rr_run.specs.Files.{IsFileDesign, RefusesExpansion, RefusesFileDesign, place as place_in, placed as placed_in, placed_token as placed_token_of, placed_tokens as placed_tokens_of, told_at as told_in};
ghost use Rattle.rr_run.specs.Refusals.{StopsWhere, plain_refusal};
ghost use Rattle.rr_run.specs.Runs.{InOrder, IsLawfulDesign, RefusesDesign};

use crate::design::{LawfulDesign, lawful_design};
use crate::fault::{Fault, Refusal, RunFault};
use bumpalo::Bump;
use rr_directive::{DirectiveFault, Expanded, expand, place};
use rr_syntax::{Span, Token};
use std::alloc::{AllocError, Global};

/// A file of a lawful design: its expansion, with the origin of each byte, and the design of that.
#[derive(Drop)]
pub struct FileDesign<'a> {
    pub expanded: Expanded,
    pub design: LawfulDesign<'a>,
}

/// The refusal of a file that has no expansion, for this reason (38 to 40, 16).
pub fn of_directives<'a>(fault: DirectiveFault) -> RunFault<'a>
    ensures { (file : List ℕ) → Faults file fault → StopsWhere (RefusesExpansion file) result }
{
    let refusal = match fault {
        DirectiveFault::UnknownMacro(at) => Refusal::At(Fault::UnknownMacro, at),
        DirectiveFault::BadDirective(at) => Refusal::At(Fault::BadDirective, at),
        DirectiveFault::MacroLoop(at) => Refusal::At(Fault::MacroLoop, at),
        DirectiveFault::TooMany(count) => Refusal::Expanded(count),
        DirectiveFault::Memory => return RunFault::Memory,
    };
    RunFault::Refused(refusal)
}

/// The place in a file of this size of a byte of its expansion, or of the end.
fn place_of(expanded: &Expanded, size: u32, at: u32) -> u32
    ensures { result ≡ place_in expanded.now.origins.items size at }
{
    if (at as usize) < expanded.origins.len() {
        place(expanded, at)
    } else {
        size
    }
}

/// A token of the expansion, with its place in the file.
fn placed_token<'a>(expanded: &Expanded, size: u32, token: &Token<'a>) -> Token<'a>
    ensures { lexeme result ≡ placed_token_of expanded.now.origins.items size (lexeme token.now) }
{
    let span = token.span;
    Token {
        kind: token.kind,
        span: Span {
            start: place_of(expanded, size, span.start),
            end: place_of(expanded, size, span.end),
        },
    }
}

/// The tokens of the expansion of a file of this size, with their places in the file.
pub fn placed_tokens<'a>(
    alloc: Global,
    expanded: &Expanded,
    size: u32,
    tokens: &[Token<'a>],
) -> Result<Vec<Token<'a>>, AllocError>
    ensures { IfOk result (λ placed. lexemes placed.items ≡ placed_tokens_of expanded.now.origins.items size (lexemes tokens.now)) }
{
    let mut placed = Vec::new(alloc);
    for token in tokens.iter() {
        placed.push(placed_token(expanded, size, token))?;
    }
    Ok(placed)
}

/// Where a fault of the expansion is told; that there is no top stands at 0 in each text.
fn told_at(fault: Fault, expanded: &Expanded, size: u32, at: u32) -> u32
    ensures { result ≡ told_in fault expanded.now.origins.items size at }
{
    match fault {
        Fault::NoTop => at,
        _ => place_of(expanded, size, at),
    }
}

/// A refusal of the expansion of a file of this size, told at its place in the file.
pub fn placed<'a>(expanded: &Expanded, size: u32, refusal: Refusal<'a>) -> Refusal<'a>
    ensures { plain_refusal result ≡ placed_in expanded.now.origins.items size (plain_refusal refusal.entry) }
{
    match refusal {
        Refusal::At(fault, at) => Refusal::At(fault, told_at(fault, expanded, size, at)),
        _ => refusal,
    }
}

/// Why there is nothing, told at its place in the file.
fn fault_placed<'a>(expanded: &Expanded, size: u32, fault: RunFault<'a>) -> RunFault<'a>
    ensures { (file text : List ℕ) (top word : Option (List ℕ)) → IsTaken file text expanded.now.origins.items → length file ≡ size
        → StopsWhere (RefusesDesign text top word) fault.entry → StopsWhere (RefusesFileDesign file top word) result }
{
    match fault {
        RunFault::Refused(refusal) => RunFault::Refused(placed(expanded, size, refusal)),
        RunFault::Memory => RunFault::Memory,
    }
}

/// The lawful design of a file of at most 1,048,576 bytes, whose directives are expanded, with a top and a
/// word for the clock, each given or not; or the first refusal: of the directives (38 to 40, and 16 where
/// they give more bytes and uses than 1,048,576), of the expanded text (1 to 16, 37), then of the laws (11,
/// 24, 25, 23, 22, 17 to 21). A byte of the expanded text is told at its place in the file: a byte of a use at
/// the backtick of the outermost use, and the end of the text as the length of the file.
pub fn file_design<'a>(
    alloc: Global,
    bytes: &[u8],
    top: Option<&str>,
    clock: Option<&str>,
    arena: &'a Bump,
) -> Result<FileDesign<'a>, RunFault<'a>>
    requires { length bytes.now ≤ 1048576 }
    ensures answer { MatchResult result
        (λ d. IsFileDesign bytes.now (option_map (λ n. n.now) top.entry) (option_map (λ w. w.now) clock.entry) (lexemes d.design.tokens.now) (plain_flat d.design.flat) d.design.order.clock d.design.order.rising)
        (StopsWhere (RefusesFileDesign bytes.now (option_map (λ n. n.now) top.entry) (option_map (λ w. w.now) clock.entry))) }
    ensures expansion { IfOk result (λ d. IsTaken bytes.now d.expanded.text.items d.expanded.origins.items) }
    ensures few { IfOk result (λ d. length d.expanded.text.items ≤ 1048576) }
    ensures lawful { IfOk result (λ d. IsLawfulDesign d.expanded.text.items (option_map (λ n. n.now) top.entry) (option_map (λ w. w.now) clock.entry) (lexemes d.design.tokens.now) (plain_flat d.design.flat) d.design.order.clock d.design.order.rising) }
    ensures ordered { IfOk result (λ d. InOrder d.design.flat d.design.order (option_map (λ w. w.now) clock.entry)) }
    ensures sound { IfOk result (λ d. IsSound (plain_flat d.design.flat)) }
    ensures tree { IfOk result
        (λ d. IsDesignOf d.expanded.text.items (lexemes d.design.tokens.now) (plain_source d.design.source.now) (option_map (λ n. n.now) top.entry) (plain_flat d.design.flat)) }
    ensures input { IfOk result (λ d. IsClockInput (plain_flat d.design.flat) d.design.order.clock) }
    ensures fit { IfOk result (λ d. FitLiteralsSource (plain_source d.design.source.now)) }
    ensures tokens { IfOk result (λ d. length d.design.tokens.now < 2 ^ 32) }
{
    let expanded = match expand(alloc, bytes) {
        Ok(expanded) => expanded,
        Err(fault) => return Err(of_directives(fault)),
    };
    match lawful_design(alloc, expanded.text.as_slice(), top, clock, arena) {
        Ok(design) => Ok(FileDesign { expanded, design }),
        Err(fault) => Err(fault_placed(&expanded, bytes.len() as u32, fault)),
    }
}
