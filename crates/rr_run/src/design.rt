//! Lawful designs from their texts.
ghost use Rattle.std.specs.Prelude.{◌≡◌, ◌≤◌, ◌<◌, ◌^◌, ℕ, List, Option, IfOk, MatchResult, length, option_map};
ghost use Rattle.rr_syntax.specs.Items.{FitLiteralsSource};
ghost use Rattle.rr_syntax.specs.View.{plain_source};
ghost use Rattle.rr_lex.specs.Tokens.{lexemes};
ghost use Rattle.rr_flat.specs.Elaborated.{IsSound};
ghost use Rattle.rr_flat.specs.View.{plain_flat};
ghost use Rattle.rr_clock.specs.Clock.{IsClockInput};
ghost use Rattle.rr_elaborate.specs.Designs.{IsDesign, IsDesignOf};
ghost use Rattle.rr_run.specs.Refusals.{StopsWhere};
ghost use Rattle.rr_run.specs.Runs.{InOrder, IsLawfulDesign, RefusesDesign};

use crate::fault::RunFault;
use crate::refused::{of_design, of_law};
use bumpalo::Bump;
use rr_elaborate::{Design, Flat, elaborate};
use rr_flat::Order;
use rr_lawful::check;
use rr_syntax::{Source, Token};
use std::alloc::Global;

/// A lawful flat design, the tokens and the tree of its text, and its clock and steps in order.
#[derive(Drop)]
pub struct LawfulDesign<'a> {
    pub tokens: &'a [Token<'a>],
    pub source: &'a Source<'a>,
    pub flat: Flat<'a>,
    pub order: Order,
}

/// The design of a text, where it keeps all laws; or the first that it breaks.
fn checked<'a>(
    alloc: Global,
    design: Design<'a>,
    clock: Option<&str>,
) -> Result<LawfulDesign<'a>, RunFault<'a>>
    ensures answer { (bytes : List ℕ) (top : Option (List ℕ)) → IsDesign bytes (lexemes design.entry.tokens.now) top (plain_flat design.entry.flat) → MatchResult result
        (λ d. IsLawfulDesign bytes top (option_map (λ w. w.now) clock.entry) (lexemes d.tokens.now) (plain_flat d.flat) d.order.clock d.order.rising)
        (StopsWhere (RefusesDesign bytes top (option_map (λ w. w.now) clock.entry))) }
    ensures ordered { IfOk result (λ d. InOrder d.flat d.order (option_map (λ w. w.now) clock.entry)) }
    ensures sound { IsSound (plain_flat design.entry.flat) → IfOk result (λ d. IsSound (plain_flat d.flat)) }
    ensures input { IfOk result (λ d. IsClockInput (plain_flat d.flat) d.order.clock) }
    ensures same { IfOk result (λ d. (d.tokens ≡ design.entry.tokens) × ((d.source ≡ design.entry.source) × (plain_flat d.flat ≡ plain_flat design.entry.flat))) }
{
    let Design {
        tokens,
        source,
        flat,
    } = design;
    match check(alloc, &flat, clock) {
        Ok(order) => Ok(LawfulDesign {
            tokens,
            source,
            flat,
            order,
        }),
        Err(fault) => Err(of_law(tokens, &fault)),
    }
}

/// The lawful design of a text of at most 1,048,576 bytes with a top and a word for the clock, each given
/// or not; or the first refusal: of the text (1 to 16), then of the laws (11, 24, 25, 23, 22, 17 to 21).
pub fn lawful_design<'a>(
    alloc: Global,
    bytes: &[u8],
    top: Option<&str>,
    clock: Option<&str>,
    arena: &'a Bump,
) -> Result<LawfulDesign<'a>, RunFault<'a>>
    requires { length bytes.now ≤ 1048576 }
    ensures answer { MatchResult result
        (λ d. IsLawfulDesign bytes.now (option_map (λ n. n.now) top.entry) (option_map (λ w. w.now) clock.entry) (lexemes d.tokens.now) (plain_flat d.flat) d.order.clock d.order.rising)
        (StopsWhere (RefusesDesign bytes.now (option_map (λ n. n.now) top.entry) (option_map (λ w. w.now) clock.entry))) }
    ensures ordered { IfOk result (λ d. InOrder d.flat d.order (option_map (λ w. w.now) clock.entry)) }
    ensures sound { IfOk result (λ d. IsSound (plain_flat d.flat)) }
    ensures tree { IfOk result
        (λ d. IsDesignOf bytes.now (lexemes d.tokens.now) (plain_source d.source.now) (option_map (λ n. n.now) top.entry) (plain_flat d.flat)) }
    ensures input { IfOk result (λ d. IsClockInput (plain_flat d.flat) d.order.clock) }
    ensures fit { IfOk result (λ d. FitLiteralsSource (plain_source d.source.now)) }
    ensures few { IfOk result (λ d. length d.tokens.now < 2 ^ 32) }
{
    match elaborate(alloc, bytes, top, arena) {
        Ok(design) => checked(alloc, design, clock),
        Err(fault) => Err(of_design(fault)),
    }
}
