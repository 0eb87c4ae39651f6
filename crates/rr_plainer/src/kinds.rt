//! The kinds of changes, from those that are furthest from the source on, and clauses that rule them out.

use rr_choice::{Choice, Pick, SiteList, form_width, guard_names, site_bits, value_width};
use rr_cnf::{Clause, Formula, Lit};
use rr_syntax::{Site, SiteKind};
use std::alloc::{AllocError, Global};

/// The greatest variable that is ruled out; no formula over a choice has as many.
const MOST_VAR: u64 = 4_294_967_295;

/// Changes that are ruled out, those that are furthest from the source first.
#[derive(Clone, Copy, PartialEq, Eq)]
pub(crate) enum Ruled {
    /// Last assignments with a condition.
    ConditionalAssignments,
    /// Last assignments.
    Assignments,
    /// Conditions that are joined with a name.
    JoinedConditions,
    /// Conditions.
    Conditions,
}

/// In this order each kind that is left is plainer than those before.
pub(crate) const ORDER: [Ruled; 4] = [
    Ruled::ConditionalAssignments,
    Ruled::Assignments,
    Ruled::JoinedConditions,
    Ruled::Conditions,
];

/// Whether a site is of the kind that is ruled out: in each of its forms, or in all but the first.
fn is_ruled(site: &Site, ruled: Ruled) -> Option<bool> {
    match (site.kind, ruled) {
        (SiteKind::Overwrite { .. }, Ruled::ConditionalAssignments) => Some(false),
        (SiteKind::Overwrite { .. }, Ruled::Assignments) => Some(true),
        (SiteKind::Guard { .. }, Ruled::JoinedConditions) => Some(false),
        (SiteKind::Guard { .. }, Ruled::Conditions) => Some(true),
        _ => None,
    }
}

/// Adds that a bit of a choice is false.
pub(crate) fn hold_off(alloc: Global, formula: &mut Formula, place: u64) -> Result<(), AllocError> {
    let var = place.saturating_add(1);
    if var > MOST_VAR || var > formula.vars() {
        return Ok(());
    }
    let clause = Clause::from_lits(alloc, &[Lit::new(var, true)])?;
    formula.push(clause)?;
    Ok(())
}

/// Adds that the bits of a site that begin at a place write no change of the kind.
fn rule_out_at(
    alloc: Global,
    formula: &mut Formula,
    site: &Site,
    place: u64,
    ruled: Ruled,
) -> Result<(), AllocError> {
    match is_ruled(site, ruled) {
        None => Ok(()),
        Some(true) => hold_off(alloc, formula, place),
        Some(false) => {
            if guard_names(site).len() == 0 {
                return Ok(());
            }
            let first = place
                .saturating_add(1)
                .saturating_add(value_width(site) as u64);
            for k in 0..form_width(site) {
                hold_off(alloc, formula, first.saturating_add(k as u64))?;
            }
            Ok(())
        }
    }
}

/// Adds that no change is of the kind.
pub(crate) fn rule_out(
    alloc: Global,
    formula: &mut Formula,
    list: &SiteList<'_>,
    ruled: Ruled,
) -> Result<(), AllocError> {
    let each = list.sites();
    let mut place: u64 = 0;
    for site in each.iter() {
        rule_out_at(alloc, formula, site, place, ruled)?;
        place = place.saturating_add(site_bits(site) as u64);
    }
    Ok(())
}

/// Whether a pick at a site is of the kind that is ruled out.
fn is_picked(site: &Site, pick: &Pick, ruled: Ruled) -> bool {
    match is_ruled(site, ruled) {
        None => false,
        Some(in_each_form) => pick.on && (in_each_form || pick.form != 0),
    }
}

/// Whether a choice has a change of the kind.
pub(crate) fn has(list: &SiteList<'_>, choice: &Choice, ruled: Ruled) -> bool {
    let sites = list.sites();
    let picks = choice.picks.as_slice();
    let end = sites.len().min(picks.len());
    for k in 0..end {
        if is_picked(&sites[k], &picks[k], ruled) {
            return true;
        }
    }
    false
}

/// How far from plain a choice is: 0 where it changes literals alone, up to 4 where it has a last assignment with a
/// condition.
pub fn rank(list: &SiteList<'_>, choice: &Choice) -> usize {
    for (k, ruled) in ORDER.iter().enumerate() {
        if has(list, choice, *ruled) {
            return ORDER.len() - k;
        }
    }
    0
}
