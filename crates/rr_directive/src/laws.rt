//! What holds of expansions, as the contracts of functions that do nothing.
ghost use Rattle.rr_directive.specs.Laws.{NoBackticks, NotBoth, OneExpansion, OneFault, PlainStays, PlainTaken};

/// A file has one expansion or one first fault, and not both.
pub fn one_expansion()
    ensures expansion { OneExpansion }
    ensures fault { OneFault }
    ensures either { NotBoth }
{}

/// A file without uses and without directives but those that stay is its own expansion; of at most 1,048,576
/// bytes it is within the limit, and each byte stands at its own place. A file without a backtick is such.
pub fn plain_files_stay()
    ensures stays { PlainStays }
    ensures taken { PlainTaken }
    ensures plain { NoBackticks }
{}
