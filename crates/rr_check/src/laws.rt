//! That a proof has one verdict.
ghost use Rattle.std.specs.Prelude.{◌≡◌, List};
ghost use Rattle.rr_cnf.specs.Clauses.{Literal};
ghost use Rattle.rr_derive.specs.Derive.{Step};
ghost use Rattle.rr_check.specs.Verdicts.{VerdictIs};

use crate::verdict::Verdict;

/// No two verdicts are due for the same formula and lines.
pub fn one_verdict()
    ensures { (clauses : List (List Literal)) (lines : List Step) (v w : Verdict) → VerdictIs clauses lines v → VerdictIs clauses lines w → v ≡ w }
{}
