//! Laws of what a seed comes to, as a contract of a function that does nothing.
ghost use Rattle.rr_make.specs.Makes.{EachMake, OneSummary, SummaryOrNone};

/// A seed has one summary, and none where no choice mends its design; each answer has status 0 and
/// prints this summary, or status 1 where there is none, or 2.
pub fn summary_laws()
    ensures one { OneSummary }
    ensures none { SummaryOrNone }
    ensures each { EachMake }
{}
