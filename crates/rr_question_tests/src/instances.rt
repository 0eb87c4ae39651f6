//! The printed instances of a design, and its transition.
ghost use Rattle.std.specs.Prelude.{◌≡◌, ◌≤◌, ◌<◌, ◌^◌, length};
ghost use Rattle.rr_syntax.specs.View.{plain_source};
ghost use Rattle.rr_lex.specs.Tokens.{lexemes};
ghost use Rattle.rr_flat.specs.View.{plain_flat};
ghost use Rattle.rr_elaborate.specs.Designs.{IsText};
ghost use Rattle.rr_choice.specs.Choices.{total_bits};
ghost use Rattle.rr_transition.specs.Cycles.{Design};
ghost use Rattle.rr_blast.specs.Circuits.{FitsArguments};

use rr_blast::{row_bits, transition};
use rr_choice::{SiteList, cost, decode};
use rr_patch::print;
use rr_registers::register_bits;
use rr_run::LawfulDesign;
use rr_transition::Transition;
use std::alloc::{AllocError, Global};

/// The cost and the text of the instance that these bits of a choice make, where they are as many as the
/// sites have.
pub(crate) fn instance_text(
    alloc: Global,
    bytes: &[u8],
    design: &LawfulDesign<'_>,
    list: &SiteList<'_>,
    bits: &[bool],
) -> Result<Option<(u32, Vec<u8>)>, AllocError>
    requires small { length bytes.now ≤ 1048576 }
    requires text { IsText bytes.now (lexemes design.now.tokens.now) (plain_source design.now.source.now) }
    requires few { length list.now ≤ 1024 }
{
    list.sites();
    if bits.len() as u64 != u64::from(list.bits()) {
        return Ok(None);
    }
    let choice = decode(alloc, list, bits)?;
    if choice.picks.len() > 1024 {
        return Ok(None);
    }
    let text = print(alloc, bytes, design.tokens, design.source, list, &choice)?;
    Ok(Some((cost(&choice), text)))
}

/// The transition of a design with few registers, inputs and choice bits.
pub(crate) fn transition_of(
    alloc: Global,
    design: &LawfulDesign<'_>,
    list: &SiteList<'_>,
) -> Result<Option<Transition>, AllocError>
    requires fits { (j : Design) × FitsArguments j (plain_flat design.now.flat) design.now.order.clock design.now.order.rising design.now.order.steps.items list.now }
    requires few { length list.now ≤ 1024 }
{
    list.sites();
    let registers = register_bits(alloc, &design.flat)?;
    let ids = design.flat.row_inputs(alloc, design.order.clock)?;
    let row = row_bits(alloc, &design.flat, ids.as_slice())?;
    if list.bits() > 4096 {
        return Ok(None);
    }
    if registers.len() > 64 {
        return Ok(None);
    }
    if row.len() > 64 {
        return Ok(None);
    }
    let cycle = transition(alloc, &design.flat, &design.order, list)?;
    Ok(Some(cycle))
}

/// The lowest bits of a number, the lowest first.
pub(crate) fn bits_of(alloc: Global, number: u64, count: u32) -> Result<Vec<bool>, AllocError> {
    let mut bits = Vec::new(alloc);
    let mut rest = number;
    for _ in 0..count {
        bits.push(rest % 2 == 1)?;
        rest /= 2;
    }
    Ok(bits)
}
