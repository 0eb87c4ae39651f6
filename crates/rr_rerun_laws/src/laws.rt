//! The laws of what a repair prints and writes, as contracts of functions that do nothing.
ghost use Rattle.rr_rerun_laws.specs.Checks.{CheckAccepts, CheckAcceptsNone};
ghost use Rattle.rr_rerun_laws.specs.Reruns.{FileRunAgrees, FileRunsAgain, FoundFileRunAgrees, FoundFileRunsAgain, FoundRunAgrees, FoundRunsAgain, RunAgrees, RunsAgain};

/// Where a repair prints a file, and its expansion is read as a text whose loops unfold within the limit,
/// this has a run on the table of the repair, which agrees with each known cell; and every run of it does.
/// So it is with the run of the printed bytes as a file, where their expansion is within the limit.
pub fn repair_then_run()
    ensures again { RunsAgain }
    ensures agrees { RunAgrees }
    ensures file_again { FileRunsAgain }
    ensures file_agrees { FileRunAgrees }
{}

/// Where a repair is left open and prints a file, and its expansion is read as a text whose loops unfold
/// within the limit, this has a run on the table of the repair, which agrees with each known cell; and every
/// run of it does. So it is with the run of the printed bytes as a file, where their expansion is within the
/// limit.
pub fn found_then_run()
    ensures again { FoundRunsAgain }
    ensures agrees { FoundRunAgrees }
    ensures file_again { FoundFileRunsAgain }
    ensures file_agrees { FoundFileRunAgrees }
{}

/// The certificate that a repair writes, that fewer changes do not match or that none do, is accepted by a
/// check.
pub fn repair_then_check()
    ensures mended { CheckAccepts }
    ensures none { CheckAcceptsNone }
{}
