//! What a refutation means.
ghost use Rattle.rr_derive.specs.Derive.{RefutedMeansUnsatisfiable};

/// A formula with lines that refute it is satisfied by no assignment.
pub fn refuted_means_unsatisfiable()
    ensures { RefutedMeansUnsatisfiable }
{}
