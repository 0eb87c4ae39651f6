//! What token numbers are to the meaning of a flat design, as contracts of functions that do nothing.
ghost use Rattle.rr_token_number_meaning.specs.Laws.{SameLaws, SameOrders, SameRuns};

/// Designs that are equal without token numbers keep the same laws, with the same clock and the same
/// orders of their steps.
pub fn same_laws()
    ensures lawful { SameLaws }
    ensures ordered { SameOrders }
{}

/// They have the same runs.
pub fn same_runs()
    ensures { SameRuns }
{}
