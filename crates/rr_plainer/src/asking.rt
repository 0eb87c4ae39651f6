//! Plainer choices, by a few small questions more.
ghost use Rattle.std.specs.Prelude.{◌≡◌, IfOk, IfSome, length};
ghost use Rattle.rr_choice.specs.Choices.{IsChoice, total_bits};

use crate::bringing::nearer;
use crate::kinds::{ORDER, has, hold_off, rank, rule_out};
use crate::source::{Near, distance, pick_distance};
use rr_choice::{Choice, SiteList, decode, site_bits};
use rr_cnf::Formula;
use rr_solver::Outcome;
use rr_trace::Table;
use rr_transition::Transition;
use std::alloc::{AllocError, Global};

/// How many lines may be learned for one kind of changes or one site that is ruled out.
const BUDGET: u32 = 500;

/// How many other sites are looked for.
const OTHERS: usize = 4;

/// The most clauses of a formula that is asked for other sites.
const MOST_CLAUSES: u64 = 200_000;

/// The choice that the values of variables write, from variable 1 on.
pub fn chosen(
    alloc: Global,
    list: &SiteList<'_>,
    count: u32,
    values: &[bool],
) -> Result<Choice, AllocError>
    requires { count ≡ total_bits list.now }
    ensures { IfOk result (λ c. IsChoice list.now c.picks.items) }
{
    let mut bits = Vec::new(alloc);
    for k in 0..count {
        bits.push(values.get(k as usize + 1).copied().unwrap_or(false))?;
    }
    let choice = decode(alloc, list, bits.as_slice())?;
    Ok(choice)
}

/// A choice of plainer kinds that satisfies a formula than one that does, where one is found; what the formula
/// says of the bits of a choice is added to.
fn plainest(
    alloc: Global,
    formula: &mut Formula,
    list: &SiteList<'_>,
    count: u32,
    choice: &Choice,
) -> Result<Option<Choice>, AllocError>
    requires bits { count ≡ total_bits list.now }
    ensures { IfOk result (λ r. IfSome r (λ c. IsChoice list.now c.picks.items)) }
{
    let mut plain: Option<Choice> = None;
    for ruled in ORDER.iter() {
        rule_out(alloc, formula, list, *ruled)?;
        let is_there = match &plain {
            Some(better) => has(list, better, *ruled),
            None => has(list, choice, *ruled),
        };
        if is_there {
            match rr_free::search(alloc, formula, BUDGET)? {
                Outcome::Model(values) => {
                    plain = Some(chosen(alloc, list, count, values.as_slice())?);
                }
                _ => return Ok(plain),
            }
        }
    }
    Ok(plain)
}

/// The place of the bits of the site whose change is furthest from the source, and how far that is.
fn furthest(list: &SiteList<'_>, near: &Near, choice: &Choice) -> (u64, u32) {
    let each = list.sites();
    let picks = choice.picks.as_slice();
    let mut far = (0, 0);
    let mut at: u64 = 0;
    let mut number: usize = 0;
    for site in each.iter() {
        if let Some(pick) = picks.get(number) {
            let own = pick_distance(near, number, site, pick);
            if own > far.1 {
                far = (at, own);
            }
        }
        at = at.saturating_add(site_bits(site) as u64);
        number = number.saturating_add(1);
    }
    far
}

/// A choice that is nearer to the source than one that satisfies a formula and is as plain, where one is found
/// when the site whose change is furthest is ruled out, and then others.
fn other(
    alloc: Global,
    formula: &mut Formula,
    transition: &Transition,
    table: &Table,
    list: &SiteList<'_>,
    near: &Near,
    choice: Choice,
) -> Result<Choice, AllocError>
    requires bits { transition.now.choice_bits ≡ total_bits list.now }
    requires choice { IsChoice list.now choice.picks.items }
    ensures { IfOk result (λ c. IsChoice list.now c.picks.items) }
{
    let mut best = choice;
    let (mut place, mut far) = furthest(list, near, &best);
    for _number in 0..OTHERS {
        if far <= 1 {
            return Ok(best);
        }
        hold_off(alloc, formula, place)?;
        let found = match rr_free::search(alloc, formula, BUDGET)? {
            Outcome::Model(values) => {
                chosen(alloc, list, transition.choice_bits, values.as_slice())?
            }
            _ => return Ok(best),
        };
        let found = nearer(alloc, transition, table, list, near, &found)?;
        (place, far) = furthest(list, near, &found);
        if rank(list, &found) <= rank(list, &best)
            && distance(list, near, &found) < distance(list, near, &best)
        {
            best = found;
        }
    }
    Ok(best)
}

/// A plainer choice than one that mends the rows of a table, which satisfies the formula of their question: of
/// plainer kinds where there is one of at most the same cost, else itself, brought nearer to the source. What
/// the formula says of the bits of a choice is added to.
pub fn plainer(
    alloc: Global,
    formula: &mut Formula,
    transition: &Transition,
    table: &Table,
    list: &SiteList<'_>,
    near: &Near,
    choice: &Choice,
) -> Result<Choice, AllocError>
    requires bits { transition.now.choice_bits ≡ total_bits list.now }
    requires choice { IsChoice list.now choice.now.picks.items }
    ensures { IfOk result (λ c. IsChoice list.now c.picks.items) }
{
    let plain = plainest(alloc, formula, list, transition.choice_bits, choice)?;
    let best = match &plain {
        Some(plain) => nearer(alloc, transition, table, list, near, plain)?,
        None => nearer(alloc, transition, table, list, near, choice)?,
    };
    if formula.len() > MOST_CLAUSES {
        return Ok(best);
    }
    other(alloc, formula, transition, table, list, near, best)
}
