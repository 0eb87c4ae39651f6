//! Laws of kept sites, as contracts of functions that do nothing.
ghost use Rattle.rr_kept.specs.Laws.{KeptAreNamed, KeptFit, KeptLift};

/// All edits of each choice of kept sites lift; and kept sites have the names and widths of all.
#[tactic(auto, using(crate::proofs::Together::kept_lift, crate::proofs::Together::kept_are_named, crate::proofs::Together::kept_fit))]
pub fn kept_laws()
    ensures lift { KeptLift }
    ensures named { KeptAreNamed }
    ensures fit { KeptFit }
{}
