//! The clause that is learned from a false clause.
ghost use Rattle.std.specs.Prelude.{◌≡◌, ◌^◌, ◌<◌, All, length, List, IfOk, OnOk};
ghost use Rattle.rr_cnf.specs.Clauses.{IsWithin, Literal};
ghost use Rattle.rr_trail.specs.Trails.{lits};
ghost use Rattle.rr_watch.specs.Watches.{Named};
ghost use Rattle.rr_analysis.specs.Analysis.{IsConflict, Learns, Resolves};
ghost use Rattle.rr_analysis.specs.Workspaces.{IsReady, KeepsWalk, Met};

use crate::chains::Chains;
use crate::order::Order;
use crate::workspace::Workspace;
use rr_cnf::{Clause, Lit};
use rr_watch::Watch;
use std::alloc::{AllocError, Global};

/// A learned clause, the ids of the clauses that lead to it, and the level to go back to.
#[derive(Drop)]
pub struct Learned {
    /// The learned clause.
    pub clause: Clause,
    /// The ids of the clauses that lead to it, in the order of the hint check.
    pub hints: Vec<u64>,
    /// The level to go back to: the greatest below the last one of a literal of the clause, or 0.
    pub level: u32,
}

// Marks the variables of the clause with this id.
pub(crate) fn meet_named(watch: &Watch<'_>, work: &mut Workspace, id: u64) -> Result<(), AllocError>
    requires room { watch.now.vars < length work.old.seen }
    requires named { (c : List Literal) × Named watch.now.clauses id c }
    ensures keeps { KeepsWalk work.old work.new }
    ensures met { (c : List Literal) → Named watch.now.clauses id c → OnOk result (Met (lits watch.now.trail) work.old c work.new) }
{
    if let Some(clause) = watch.clause(id) {
        work.meet_all(watch, clause)?;
    }
    Ok(())
}

// The id of the clause to resolve with: of a forced literal on level 0, on the last level, or that follows
// from marked ones.
fn resolved_by(
    watch: &Watch<'_>,
    work: &Workspace,
    chains: &mut Chains,
    lit: Lit,
) -> Result<Option<u64>, AllocError>
    requires lit { IsWithin watch.now.vars lit }
    requires room { watch.now.vars < length work.now.seen }
    ensures { IfOk result (Resolves watch.now.trail watch.now.depth lit) }
{
    let _trail = watch.trail();
    let level = watch.level(lit);
    let Some(reason) = watch.reason(lit) else {
        return Ok(None);
    };
    if level == 0 || level == watch.depth() || chains.follows(watch, work, lit)? {
        Ok(Some(reason))
    } else {
        Ok(None)
    }
}

/// Resolves the false clause backwards along the trail. The order hears of the inputs that it meets, and
/// of the levels on which the learned clause stands.
pub fn analyze(
    alloc: Global,
    watch: &Watch<'_>,
    order: &mut Order,
    work: &mut Workspace,
    chains: &mut Chains,
    id: u64,
) -> Result<Learned, AllocError>
    requires room { watch.now.vars < 4294967295 }
    requires ready { IsReady watch.now.vars work.old }
    requires conflict { IsConflict watch.now id }
    ensures ready { IsReady watch.now.vars work.new }
    ensures learns { IfOk result (λ r. Learns watch.now r.clause r.hints.items r.level) }
{
    let trail = watch.trail();
    let depth = watch.depth();
    let mut clause = Vec::new(alloc);
    let mut hints = Vec::new(alloc);
    let mut level = 0;
    work.begin(trail.len());
    chains.begin();
    hints.push(id)?;
    meet_named(watch, work, id)?;
    while let Some(place) = work.pop() {
        let lit = trail[place];
        order.bump(lit.var());
        match resolved_by(watch, work, chains, lit)? {
            Some(reason) => {
                hints.push(reason)?;
                meet_named(watch, work, reason)?;
            }
            None => {
                clause.push(lit.negated())?;
                let at = watch.level(lit);
                order.bump_level(at);
                if at < depth && level < at {
                    level = at;
                }
            }
        }
    }
    order.decay();
    hints.reverse();
    hints.shrink_to_fit();
    Ok(Learned {
        clause: Clause::from_lits(alloc, clause.as_slice())?,
        hints,
        level,
    })
}
