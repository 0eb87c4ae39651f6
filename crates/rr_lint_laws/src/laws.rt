//! What holds of a source that was mended, as contracts of functions that do nothing.
ghost use Rattle.rr_lint_laws.specs.Laws.{CleanStays, LintCleans, LintStaysFormed, OneLint};

/// A source whose tokens are numbered, as those of each text are, and that was mended has a flat design, in no combinational block of a module that has an instance
/// does `<=` assign, and no combinational block keeps a value; a well-formed source of which this holds
/// before stays as it is; and each source is mended in one way (IEEE 1364-2005 sections 9.2 and 9.9.2).
pub fn lint_laws()
    ensures cleans { LintCleans }
    ensures stays { CleanStays }
    ensures one { OneLint }
{}

/// A well-formed source stays well-formed.
#[tactic(auto, using(crate::proofs::Formed::lint_stays_formed))]
pub fn lint_stays_formed()
    ensures { LintStaysFormed }
{}
