//! How many fresh lines there may be.
ghost use Rattle.rr_derive.specs.Fresh.{FreshLinesAreFew};

/// The fresh lines over i inputs are at most i * 3^i, since no two of them have the same decided
/// literals before the same last decision.
pub fn fresh_lines_are_few()
    ensures { FreshLinesAreFew }
{}
