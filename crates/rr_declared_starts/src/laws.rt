//! What declarations give variables to begin with, as the contract of a function that does nothing.
ghost use Rattle.rr_declared_starts.specs.Laws.{DeclaredValuesAreStarts};

/// In each instance each variable that its module declares with a value, in the port brackets or among
/// its items, is a signal of the declared range that begins with that value as the right side of an
/// assignment to it, where the names stand for what they do in the instance; no signal stands in the
/// value. Each other signal begins with 0, as the words of memories do (sections 4.9.3 and 6.2.1).
#[tactic(auto, using(crate::proofs::Flats::starts_of_design))]
pub fn declared_values_are_starts()
    ensures { DeclaredValuesAreStarts }
{}
