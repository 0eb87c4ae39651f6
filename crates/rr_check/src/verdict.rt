//! Verdicts on proofs, and on parts of them.
ghost use Rattle.std.specs.Prelude.{◌≡◌, ℕ, ◌≤◌, List, IfOk, length};
ghost use Rattle.rr_cnf.specs.Clauses.{Literal};
ghost use Rattle.rr_derive.specs.Derive.{Step};
ghost use Rattle.rr_check.specs.Parts.{and_then, AreFound, VerdictOn};

use std::alloc::AllocError;

/// What the check of a proof finds.
#[derive(Debug, Clone, Copy, PartialEq, Eq)]
pub enum Verdict {
    /// Every addition passes, and one has the empty clause.
    Accepted,
    /// The first addition that fails, counted from 1.
    Line(u64),
    /// Every addition passes, and none has the empty clause.
    NoEmptyClause,
}

impl Verdict {
    /// The verdict on a part and on the part behind it.
    pub(crate) fn and_then(self, next: Verdict) -> Verdict
        ensures { result ≡ and_then self next }
    {
        match self {
            Verdict::Line(_) => self,
            Verdict::NoEmptyClause => next,
            Verdict::Accepted => match next {
                Verdict::Line(_) => next,
                Verdict::Accepted | Verdict::NoEmptyClause => self,
            },
        }
    }
}

/// The verdict on parts that follow one another, or want of memory at one of them.
pub(crate) fn joined(found: &[Result<Verdict, AllocError>]) -> Result<Verdict, AllocError>
    ensures { (clauses : List (List Literal)) (lines : List Step) (start end : ℕ) → AreFound clauses lines start end found.now → IfOk result (VerdictOn clauses lines start end) }
{
    let mut verdict = Verdict::NoEmptyClause;
    for one in found {
        match one {
            Ok(next) => verdict = verdict.and_then(*next),
            Err(_) => return Err(AllocError),
        }
    }
    Ok(verdict)
}
