//! What a change of bodies makes of a flat design, as the contract of a function that does nothing.
ghost use Rattle.rr_body_laws.specs.Laws.{BodiesElaborate};

/// Where the bodies of combinational blocks are changed in the modules that have instances, and each new
/// body keeps the loops and the shapes of the old one, the flat design of the new source is that of the
/// old one with the new bodies, whose loops are unfolded (IEEE 1364-2005 sections 9.6, 9.9.2 and 12.1).
#[tactic(auto, using(crate::proofs::Whole::bodies_elaborate))]
pub fn bodies_elaborate()
    ensures { BodiesElaborate }
{}
