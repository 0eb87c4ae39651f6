//! Literals that follow from marked ones by chains of reasons, so that a learned clause can do without them
//! (Sörensson, Biere, "Minimizing Learned Clauses", SAT 2009). No contract says which are found.
ghost use Rattle.std.specs.Prelude.{◌≡◌, ◌<◌, ◌≤◌, IfOk, IfSome, length};
ghost use Rattle.rr_cnf.specs.Clauses.{IsWithin};

use crate::workspace::Workspace;
use rr_cnf::Lit;
use rr_watch::Watch;
use std::alloc::{AllocError, Global};

/// What was found of the literals that were looked at since the last conflict.
#[derive(Drop)]
pub struct Chains {
    /// By variable, twice the number of the conflict where its literal follows, and one more where it does not.
    verdicts: Vec<u64>,
    /// The literal that was asked of, and after each literal one of its reason that is looked at first.
    stack: Vec<Lit>,
    conflict: u64,
}

/// So many steps are made for one literal at most.
const MOST_STEPS: u32 = 1_000;

impl Chains {
    /// For the variables up to this one.
    pub fn new(alloc: Global, vars: u64) -> Result<Chains, AllocError>
        requires { vars < 4294967295 }
    {
        Ok(Chains {
            verdicts: vec![in alloc; 0; vars as usize + 1]?,
            stack: Vec::new(alloc),
            conflict: 1,
        })
    }

    /// Forgets what was found.
    pub(crate) fn begin(&mut self) {
        self.conflict = self.conflict.wrapping_add(1);
    }

    /// Whether the literal follows from marked ones and those of level 0.
    pub(crate) fn follows(
        &mut self,
        watch: &Watch<'_>,
        work: &Workspace,
        lit: Lit,
    ) -> Result<bool, AllocError>
        requires lit { IsWithin watch.now.vars lit }
        requires room { watch.now.vars < length work.now.seen }
    {
        self.stack.clear();
        self.stack.push(lit)?;
        for _step in 0..MOST_STEPS {
            let Some(last) = self.stack.last().copied() else {
                return Ok(true);
            };
            match self.first_open(watch, work, last) {
                None => {
                    self.judge(last, true);
                    self.stack.pop();
                }
                Some(other) => {
                    if watch.reason(other).is_none() || self.verdict(other) == Some(false) {
                        break;
                    }
                    self.stack.push(other)?;
                }
            }
        }
        while let Some(failed) = self.stack.pop() {
            self.judge(failed, false);
        }
        Ok(false)
    }

    // The first other literal of its reason of which it is not known that it follows.
    fn first_open(&self, watch: &Watch<'_>, work: &Workspace, lit: Lit) -> Option<Lit>
        requires lit { IsWithin watch.now.vars lit }
        requires room { watch.now.vars < length work.now.seen }
        ensures { IfSome result (IsWithin watch.now.vars) }
    {
        let clause = watch.clause(watch.reason(lit)?)?;
        for other in clause {
            let is_known = other.var() == lit.var()
                || work.is_marked(other.var())
                || watch.level(*other) == 0
                || self.verdict(*other) == Some(true);
            if !is_known {
                return Some(*other);
            }
        }
        None
    }

    fn verdict(&self, lit: Lit) -> Option<bool> {
        let found = self.verdicts.get(lit.var() as usize).copied().unwrap_or(0);
        if found / 2 == self.conflict {
            Some(found % 2 == 0)
        } else {
            None
        }
    }

    fn judge(&mut self, lit: Lit, follows: bool)
        ensures { self.new.stack ≡ self.old.stack }
    {
        if let Some(verdict) = self.verdicts.get_mut(lit.var() as usize) {
            *verdict = self
                .conflict
                .wrapping_mul(2)
                .wrapping_add(u64::from(!follows));
        }
    }
}
