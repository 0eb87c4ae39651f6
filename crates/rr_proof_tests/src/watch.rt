//! Propagation against a body that scans.
ghost use Rattle.std.specs.Prelude.{◌≡◌, ◌≤◌, ◌+◌, ◌<◌, All, IfOk, length};

use crate::helpers::{Numbers, are_within, push};
use rr_cnf::{Clause, Formula, Lit};
use rr_watch::{Propagated, Watch};
use std::alloc::Global;
use std::test::Fail;

fn value(watch: &Watch, lit: Lit) -> Option<bool> {
    if lit.var() <= watch.vars() {
        return watch.value(lit);
    }
    None
}

/// Decides the literal, if it is open.
pub(crate) fn decide(watch: &mut Watch, lit: Lit) -> bool
    ensures { watch.new.clauses ≡ watch.old.clauses }
{
    if lit.var() <= watch.vars() && watch.value(lit).is_none() {
        watch.decide(lit);
        return true;
    }
    false
}

/// Goes back to the level, if there is one.
pub(crate) fn back(watch: &mut Watch, level: u32) -> bool
    ensures { watch.new.clauses ≡ watch.old.clauses }
{
    if level <= watch.depth() {
        watch.back(level);
        return true;
    }
    false
}

/// A clause of none to six literals, mostly of two and three.
fn random_clause(alloc: Global, numbers: &mut Numbers, vars: u64) -> Result<Clause, Fail> {
    let mut lits = Vec::new(alloc);
    let len = match numbers.below(60) {
        0 => 0,
        1..=4 => 1,
        5..=24 => 2,
        25..=48 => 3,
        49..=55 => 4,
        _ => 6,
    };
    for _ in 0..len {
        lits.push(numbers.lit(vars))?;
    }
    Ok(Clause::from_lits(alloc, lits.as_slice())?)
}

fn random_formula(alloc: Global, numbers: &mut Numbers, vars: u64) -> Result<Formula, Fail> {
    let mut formula = Formula::new(alloc, vars);
    for _ in 0..numbers.below(60) {
        push(&mut formula, random_clause(alloc, numbers, vars)?)?;
    }
    Ok(formula)
}

/// What scanning comes to: the value of each variable up to 100, and whether some clause is false.
#[derive(Drop)]
struct Scanned {
    values: Vec<Option<bool>>,
    is_false: bool,
    is_changed: bool,
}

impl Scanned {
    fn value(&self, lit: Lit) -> Option<bool> {
        let value = self.values.get(lit.var() as usize).copied().flatten()?;
        Some(value != lit.is_negative())
    }

    fn assume(&mut self, lit: Lit) {
        let at = lit.var() as usize;
        if at < self.values.len() {
            self.values[at] = Some(!lit.is_negative());
        }
    }

    /// Makes the open literal true of a clause whose others are false.
    fn look(&mut self, clause: &[Lit]) {
        let mut candidate: Option<Lit> = None;
        for lit in clause {
            match self.value(*lit) {
                Some(true) => return,
                Some(false) => {}
                None => match candidate {
                    None => candidate = Some(*lit),
                    Some(other) => {
                        if other != *lit {
                            return;
                        }
                    }
                },
            }
        }
        match candidate {
            None => self.is_false = true,
            Some(lit) => {
                self.assume(lit);
                self.is_changed = true;
            }
        }
    }
}

/// Scans all clauses until nothing changes, from the literals of the trail.
fn scan(alloc: Global, watch: &Watch) -> Result<Scanned, Fail> {
    let mut scanned = Scanned {
        values: vec![in alloc; None; 101]?,
        is_false: false,
        is_changed: true,
    };
    for lit in watch.trail() {
        scanned.assume(*lit);
    }
    for _ in 0..101 {
        if scanned.is_changed {
            scanned.is_changed = false;
            for id in 1..101 {
                if let Some(clause) = watch.clause(id) {
                    scanned.look(clause);
                }
            }
        }
    }
    Ok(scanned)
}

fn is_false(watch: &Watch, clause: &[Lit]) -> bool {
    clause.iter().all(|lit| value(watch, *lit) == Some(false))
}

fn same_values(watch: &Watch, scanned: &Scanned) -> bool {
    for var in 1..=watch.vars().min(100) {
        let lit = Lit::new(var, false);
        if value(watch, lit) != scanned.value(lit) {
            return false;
        }
    }
    true
}

/// Whether propagation comes to what scanning comes to.
fn agrees(alloc: Global, watch: &mut Watch) -> Result<bool, Fail>
    ensures { watch.new.clauses ≡ watch.old.clauses }
{
    let scanned = scan(alloc, watch)?;
    match watch.propagate() {
        Propagated::Quiet => Ok(!scanned.is_false && same_values(watch, &scanned)),
        Propagated::Conflict(id) => match watch.clause(id) {
            None => Ok(false),
            Some(clause) => Ok(scanned.is_false && is_false(watch, clause)),
        },
    }
}

/// Adds a clause, if nothing is decided and its variables are those of the watch, and tells whether it did.
pub(crate) fn add(watch: &mut Watch, id: u64, clause: &Clause) -> Result<bool, Fail>
    requires { All (λ n. n.id < id) watch.old.clauses }
    ensures { All (λ n. n.id < id + 1) watch.new.clauses }
{
    if watch.depth() == 0 && are_within(clause.lits(), watch.vars()) {
        watch.add(id, clause)?;
        return Ok(true);
    }
    Ok(false)
}

/// One step of a walk: a clause, a decision, a way back or propagation.
fn walk(alloc: Global, numbers: &mut Numbers, watch: &mut Watch, id: u64) -> Result<bool, Fail>
    requires { All (λ n. n.id < id) watch.old.clauses }
    ensures { All (λ n. n.id < id + 1) watch.new.clauses }
{
    match numbers.below(6) {
        0 => {
            let level = numbers.below(u64::from(watch.depth()) + 1);
            if level <= u64::from(watch.depth()) {
                watch.back(level as u32);
            }
            Ok(true)
        }
        1 | 2 => agrees(alloc, watch),
        3 => {
            let clause = random_clause(alloc, numbers, watch.vars())?;
            add(watch, id, &clause)?;
            Ok(true)
        }
        _ => {
            let lit = numbers.lit(watch.vars());
            decide(watch, lit);
            Ok(true)
        }
    }
}

/// Holds the formula's clauses.
pub(crate) fn begin(alloc: Global, formula: &Formula) -> Result<Watch, Fail>
    ensures { IfOk result (λ w. All (λ n. n.id < length formula.now.clauses + 1) w.clauses) }
{
    Ok(Watch::new(alloc, formula)?)
}

/// Whether each of twenty steps agrees with scanning, with ids from the first one on.
fn agrees_in_steps(
    alloc: Global,
    numbers: &mut Numbers,
    watch: &mut Watch,
    first: u64,
) -> Result<bool, Fail>
    requires ids { All (λ n. n.id < first) watch.old.clauses }
    requires small { first ≤ 100 }
{
    for step in 0..20 {
        if !walk(alloc, numbers, watch, first + step)? {
            return Ok(false);
        }
    }
    agrees(alloc, watch)
}

/// The same on a random formula.
fn walks(alloc: Global, numbers: &mut Numbers) -> Result<bool, Fail> {
    let vars = numbers.below(20).min(19) + 3;
    let formula = random_formula(alloc, numbers, vars)?;
    if formula.len() > 60 {
        return Ok(false);
    }
    let mut watch = begin(alloc, &formula)?;
    agrees_in_steps(alloc, numbers, &mut watch, formula.len() + 1)
}

/// Walks over 300 random formulas.
#[test]
fn agrees_with_scanning(rt: HostRuntime) -> Result<(), Fail> {
    let alloc = rt.alloc();
    let mut numbers = Numbers::from_state(88_172_645_463_325_252);
    for walk in 0..300u32 {
        if !walks(alloc, &mut numbers)? {
            return Err(Fail::from(walk));
        }
    }
    Ok(())
}
