//! Laws of putting the values of a turn, as contracts of functions that do nothing.
ghost use Rattle.rr_loop_names.specs.Laws.{PutKeeps, PutKeepsTargets, PutMeans, PutStays};

/// A tree with the values of a turn means what the tree means in the scope of the turn.
#[tactic(auto, using(crate::proofs::Meanings::put_means))]
pub fn put_meaning()
    ensures { PutMeans }
{}

/// It has as many tokens, the same first one, the same levels and depth, and keeps the rules of trees.
#[tactic(auto, using(crate::proofs::Keeping::put_keeps))]
pub fn put_laws()
    ensures { PutKeeps }
{}

/// The same of targets.
#[tactic(auto, using(crate::proofs::KeepingTargets::put_keeps_targets))]
pub fn target_laws()
    ensures { PutKeepsTargets }
{}

/// A tree in which no name of the turn stands stays.
#[tactic(auto, using(crate::proofs::Staying::put_stays))]
pub fn stay_laws()
    ensures { PutStays }
{}
