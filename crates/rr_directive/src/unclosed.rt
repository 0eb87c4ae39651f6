//! Conditionals without their end.
ghost use Rattle.std.specs.Prelude.{◌≡◌, ◌-◌, ◌++◌, ◌∷◌, [], length, take, IfOk, OnOk, if◌then◌else◌};
ghost use Rattle.rr_directive.specs.Pieces.{units_of};
ghost use Rattle.rr_directive.specs.Expand.{first_unclosed as first_unclosed_of, is_endif, is_opening};

use crate::piece::{Directive, Kind, piece_at};
use std::alloc::{AllocError, Global};

/// The openings without their end that are left after one more unit, the innermost last.
#[tactic(auto, unfolding(crate::specs::Expand::is_opening, crate::specs::Expand::is_endif))]
fn nest(openings: &mut Vec<usize>, at: usize, kind: Kind) -> Result<(), AllocError>
    ensures { OnOk result (openings.new.items ≡ (if is_opening kind then openings.old.items ++ (at ∷ [])
        else (if is_endif kind then take (length openings.old.items - 1) openings.old.items else openings.old.items))) }
{
    match kind {
        Kind::Named(Directive::Ifdef) | Kind::Named(Directive::Ifndef) => openings.push(at)?,
        Kind::Named(Directive::Endif) => {
            openings.pop();
        }
        _ => {}
    }
    Ok(())
}

/// The first opening of a conditional without its `endif, whatever branches are taken.
pub(crate) fn first_unclosed(alloc: Global, bytes: &[u8]) -> Result<Option<usize>, AllocError>
    ensures { IfOk result (λ found. found ≡ first_unclosed_of (units_of bytes.now)) }
{
    let mut openings = Vec::new(alloc);
    let mut at = 0;
    while at < bytes.len() {
        let piece = piece_at(bytes, at);
        nest(&mut openings, at, piece.kind)?;
        at = piece.end;
    }
    Ok(openings.first().copied())
}
