//! The clause that is learned from a false clause at the first place that all its reasons of the last
//! level go through (Marques-Silva, Sakallah, "GRASP", IEEE Transactions on Computers 1999; Moskewicz et
//! al., "Chaff", DAC 2001): it says nothing of decisions, so it is not fresh.
ghost use Rattle.std.specs.Prelude.{◌≡◌, ℕ, ◌<◌, ◌≤◌, All, length, IfOk};
ghost use Rattle.rr_cnf.specs.Clauses.{IsWithin};
ghost use Rattle.rr_analysis.specs.Analysis.{IsConflict, IsDerived, ResolvesBy};
ghost use Rattle.rr_analysis.specs.Workspaces.{IsReady};

use crate::analysis::{Learned, meet_named};
use crate::chains::Chains;
use crate::order::Order;
use crate::workspace::Workspace;
use rr_cnf::{Clause, Lit};
use rr_watch::Watch;
use std::alloc::{AllocError, Global};

// Whether no literal of the last level waits. No contract speaks of it.
fn is_last(watch: &Watch<'_>, work: &Workspace) -> bool {
    let trail = watch.trail();
    let Some(place) = work.peek() else {
        return true;
    };
    let Some(lit) = trail.get(place) else {
        return true;
    };
    watch.level(*lit) < watch.depth()
}

// The id of the clause to resolve with: of a forced literal on level 0, of one on the last level where
// another one of that level waits, or of one that follows from marked ones.
fn resolved_freely(
    watch: &Watch<'_>,
    work: &Workspace,
    chains: &mut Chains,
    lit: Lit,
) -> Result<Option<u64>, AllocError>
    requires lit { IsWithin watch.now.vars lit }
    requires room { watch.now.vars < length work.now.seen }
    ensures { IfOk result (ResolvesBy watch.now.trail lit) }
{
    let level = watch.level(lit);
    let Some(reason) = watch.reason(lit) else {
        return Ok(None);
    };
    let is_resolved = if level == 0 {
        true
    } else if level == watch.depth() {
        !is_last(watch, work)
    } else {
        chains.follows(watch, work, lit)?
    };
    if is_resolved {
        Ok(Some(reason))
    } else {
        Ok(None)
    }
}

/// Resolves the false clause backwards along the trail, on the last level until one literal of it is left.
/// The order hears of the variables that it meets, and of the levels on which the learned clause stands.
/// The level to go back to is the greatest below the last one of a literal of the clause, or 0.
pub fn analyze_freely(
    alloc: Global,
    watch: &Watch<'_>,
    order: &mut Order,
    work: &mut Workspace,
    chains: &mut Chains,
    id: u64,
) -> Result<Learned, AllocError>
    requires room { watch.now.vars < 4294967295 }
    requires ready { IsReady watch.now.vars work.old }
    requires conflict { IsConflict watch.now id }
    ensures ready { IsReady watch.now.vars work.new }
    ensures derived { IfOk result (λ r. IsDerived watch.now r.clause r.hints.items) }
    ensures level { IfOk result (λ r. r.level ≤ watch.now.depth) }
{
    let trail = watch.trail();
    let depth = watch.depth();
    let mut clause = Vec::new(alloc);
    let mut hints = Vec::new(alloc);
    let mut level = 0;
    work.begin(trail.len());
    chains.begin();
    hints.push(id)?;
    meet_named(watch, work, id)?;
    while let Some(place) = work.pop() {
        let lit = trail[place];
        order.bump(lit.var());
        match resolved_freely(watch, work, chains, lit)? {
            Some(reason) => {
                hints.push(reason)?;
                meet_named(watch, work, reason)?;
            }
            None => {
                clause.push(lit.negated())?;
                let at = watch.level(lit);
                order.bump_level(at);
                if at < depth && level < at {
                    level = at;
                }
            }
        }
    }
    order.decay();
    hints.reverse();
    hints.shrink_to_fit();
    Ok(Learned {
        clause: Clause::from_lits(alloc, clause.as_slice())?,
        hints,
        level,
    })
}
