//! What the bit of a part is.
ghost use Rattle.rr_wiring.specs.Parts.{BitsOfParts, BitsInContext};

/// The bit of a part is that of the whole in every environment, and a wider context changes no bit of
/// a concatenation.
#[tactic(auto, using(crate::proofs::Bits::part_laws))]
pub fn part_laws()
    ensures own { BitsOfParts }
    ensures context { BitsInContext }
{}
