//! Small formulas to their ends, each answer checked: values against the clauses, lines one by one.
ghost use Rattle.std.specs.Prelude.{◌≡◌, ◌≤◌};
ghost use Rattle.rr_cnf.specs.Partial.{Determined};
ghost use Rattle.rr_solver.specs.Outcomes.{AreLines};

use crate::helpers::{
    EIGHT, Numbers, are_shared, are_within, clause, first_failing_line, formula, none_fails,
    numbers_of, push,
};
use rr_cnf::{Clause, Formula, Lit};
use rr_derive::{Journal, Workspace};
use rr_solver::{Outcome, Solver, Stepped, solve};
use rr_watch::Watch;
use std::alloc::Global;
use std::test::Fail;

/// All variables, which determine themselves.
fn all_inputs(formula: &Formula) -> u64
    ensures inputs { result ≡ formula.now.vars }
    ensures determined { Determined formula.now result }
{
    formula.vars()
}

/// The number of lines, where each passes the hint check, and some line is the empty clause or none is.
fn lines_of(
    alloc: Global,
    formula: &Formula,
    journal: &Journal,
    is_refuted: bool,
) -> Result<Option<usize>, Fail>
    requires { AreLines formula.now journal.now.lines }
{
    let lines = journal.lines();
    let has_empty = lines.iter().any(|line| line.clause.lits().is_empty());
    let passes = first_failing_line(alloc, formula, journal)? == 0 && has_empty == is_refuted;
    Ok(passes.then_some(lines.len()))
}

/// Whether each clause has a true literal.
fn satisfies(formula: &Formula, bits: &[bool]) -> bool {
    for index in 0..formula.len() {
        if let Some(clause) = formula.clause(index + 1) {
            let is_true = clause.lits().iter().any(|lit| {
                let value = bits.get(lit.var() as usize).copied().unwrap_or(false);
                value != lit.is_negative()
            });
            if !is_true {
                return false;
            }
        }
    }
    true
}

/// How the search ends, with the number of lines; the answer is checked.
#[derive(Clone, Copy, PartialEq)]
pub(crate) enum Ending {
    Model,
    Refuted(usize),
    Spent(usize),
    Wrong,
}

fn end(alloc: Global, formula: &Formula, budget: u32) -> Result<Ending, Fail> {
    let inputs = all_inputs(formula);
    end_of(alloc, formula, inputs, budget)
}

/// The same where these variables determine all others.
pub(crate) fn end_of(
    alloc: Global,
    formula: &Formula,
    inputs: u64,
    budget: u32,
) -> Result<Ending, Fail>
    requires few { inputs ≤ formula.now.vars }
    requires determined { Determined formula.now inputs }
{
    match solve(alloc, formula, inputs, budget)? {
        Outcome::Model(bits) => {
            if satisfies(formula, bits.as_slice()) {
                return Ok(Ending::Model);
            }
        }
        Outcome::Refuted(journal) => {
            if let Some(lines) = lines_of(alloc, formula, &journal, true)? {
                return Ok(Ending::Refuted(lines));
            }
        }
        Outcome::Spent(journal) => {
            if let Some(lines) = lines_of(alloc, formula, &journal, false)? {
                return Ok(Ending::Spent(lines));
            }
        }
    }
    Ok(Ending::Wrong)
}

/// Formulas by their variables and clauses, as in DIMACS, with a budget and how the search ends.
const SMALL: [(u64, &str, u32, Ending); 8] = [
    (3, EIGHT, 1, Ending::Spent(1)),
    (3, EIGHT, 1_000, Ending::Refuted(4)),
    (
        42,
        "21 22 0 21 -22 0 -21 22 0 -21 -22 0",
        100,
        Ending::Refuted(2),
    ),
    (2, "", 1, Ending::Model),
    (2, "1 2 0 0", 1, Ending::Refuted(1)),
    (2, "1 0 -1 2 0 -2 -2 0", 1, Ending::Refuted(1)),
    (3, "1 -1 0 2 2 0 -2 3 3 0", 1, Ending::Model),
    (0, "", 1, Ending::Model),
];

/// The place of the first of these that ends otherwise.
fn first_otherwise(
    alloc: Global,
    rows: &[(u64, &str, u32, Ending)],
) -> Result<Option<usize>, Fail> {
    for (place, (vars, clauses, budget, expected)) in rows.iter().enumerate() {
        if end(alloc, &formula(alloc, *vars, clauses)?, *budget)? != *expected {
            return Ok(Some(place));
        }
    }
    Ok(None)
}

#[test]
fn ends_on_small_formulas(rt: HostRuntime) -> Result<(), Fail> {
    none_fails(first_otherwise(rt.alloc(), &SMALL)?)
}

/// The literal that a pigeon, from 0 to 7, has a hole, from 0 to 7, or has it not.
fn seat(pigeon: u64, hole: u64, negative: bool) -> Lit {
    let place = pigeon.wrapping_mul(8).wrapping_add(hole);
    Lit::new(place.min(63) + 1, negative)
}

/// The clause that a pigeon has one of the holes.
fn some_hole(alloc: Global, pigeon: u64, holes: u64) -> Result<Clause, Fail> {
    let mut lits = Vec::new(alloc);
    for hole in 0..holes {
        lits.push(seat(pigeon, hole, false))?;
    }
    Ok(Clause::from_lits(alloc, &lits)?)
}

/// Adds that each pigeon has a hole, and no two have the same.
fn push_pigeons(alloc: Global, formula: &mut Formula, holes: u64) -> Result<(), Fail> {
    for pigeon in 0..holes.saturating_add(1) {
        push(formula, some_hole(alloc, pigeon, holes)?)?;
        for hole in 0..holes {
            for other in 0..pigeon {
                let pair = [seat(pigeon, hole, true), seat(other, hole, true)];
                push(formula, Clause::from_lits(alloc, &pair)?)?;
            }
        }
    }
    Ok(())
}

/// One pigeon more than holes, of which there are at most 7.
fn pigeons(alloc: Global, holes: u64) -> Result<Formula, Fail> {
    let mut formula = Formula::new(alloc, 64);
    push_pigeons(alloc, &mut formula, holes.min(7))?;
    Ok(formula)
}

#[test]
fn refutes_pigeons(rt: HostRuntime) -> Result<(), Fail> {
    let alloc = rt.alloc();
    for holes in 4..7u64 {
        let ending = end(alloc, &pigeons(alloc, holes)?, 100_000)?;
        if !matches!(ending, Ending::Refuted(_)) {
            return Err(Fail::from(holes));
        }
    }
    Ok(())
}

/// Clauses of three literals.
fn random_formula(
    alloc: Global,
    numbers: &mut Numbers,
    vars: u64,
    clauses: u64,
) -> Result<Formula, Fail> {
    let mut formula = Formula::new(alloc, vars);
    for _ in 0..clauses {
        let lits = [numbers.lit(vars), numbers.lit(vars), numbers.lit(vars)];
        push(&mut formula, Clause::from_lits(alloc, &lits)?)?;
    }
    Ok(formula)
}

/// How many of 200 formulas are satisfied, where each is satisfied by values or refuted by lines that pass;
/// `None` where one is not.
fn satisfied(alloc: Global) -> Result<Option<u32>, Fail> {
    let mut numbers = Numbers::from_state(19);
    let mut models = 0u32;
    for _ in 0..200 {
        let formula = random_formula(alloc, &mut numbers, 30, 128)?;
        match end(alloc, &formula, 100_000)? {
            Ending::Model => models = models.saturating_add(1),
            Ending::Refuted(_) => {}
            Ending::Spent(_) | Ending::Wrong => return Ok(None),
        }
    }
    Ok(Some(models))
}

/// There are many of both kinds.
#[test]
fn decides_random_formulas(rt: HostRuntime) -> Result<(), Fail> {
    let models = satisfied(rt.alloc())?.unwrap_or(0);
    assert!(rt; 20 < models && models < 180);
    Ok(())
}

fn searched(solver: &mut Solver) -> Result<Stepped, Fail>
    ensures { solver.new.formula ≡ solver.old.formula }
{
    Ok(solver.conflict_step()?)
}

fn searches_to(solver: &mut Solver, expected: Stepped) -> Result<bool, Fail>
    ensures { solver.new.formula ≡ solver.old.formula }
{
    Ok(searched(solver)? == expected)
}

/// Hands over a clause of these literals under the next id, after a restart.
fn hand_over(alloc: Global, solver: &mut Solver, vars: u64, numbers: &[i32]) -> Result<bool, Fail>
    requires { solver.old.formula.vars ≡ vars }
    ensures { solver.new.formula ≡ solver.old.formula }
{
    solver.restart();
    let id = solver.last_id();
    let clause = clause(alloc, numbers)?;
    if id < 1 << 40 && are_within(clause.lits(), vars) {
        solver.import(id + 1, &clause)?;
        return Ok(true);
    }
    Ok(false)
}

/// Searches until all is decided, with a restart before each step, and tells whether that refutes.
fn refutes_by_restarts(solver: &mut Solver) -> Result<bool, Fail>
    ensures { solver.new.formula ≡ solver.old.formula }
{
    for _ in 0..5_000 {
        solver.restart();
        match searched(solver)? {
            Stepped::Learned => {}
            Stepped::Refuted => return Ok(true),
            Stepped::Model => return Ok(false),
        }
    }
    Ok(false)
}

/// Scripts by their names, each with a member, clauses over three variables, and steps. A step searches up
/// to a clause that is `learned` or until it is `refuted`, at once or by `restarts`, or will `hand` over a
/// clause, or says what the solver tells: the `last` id, the number of `lines`, the ids of the `first` and
/// the `newest` one, and the only `hint` and the number of `literals` of the first.
const SCRIPTS: [(&str, u32, &str, &str); 2] = [
    (
        "a unit that is handed over",
        1,
        EIGHT,
        "learned; literals 2; last 9; hand 1; last 10; learned; refuted; refuted; lines 3; first 9; newest 12",
    ),
    (
        "a false clause that is handed over",
        2,
        "1 2 3 0",
        "hand; refuted; hint 2",
    ),
];

/// Whether a solver that has learned a line tells this.
fn tells(solver: &Solver, word: &str, numbers: &[i32]) -> bool {
    let lines = solver.journal().lines();
    let number = u64::from(numbers.first().copied().unwrap_or(0).unsigned_abs());
    let (Some(first), Some(newest)) = (lines.first(), lines.last()) else {
        return false;
    };
    match word {
        "last" => solver.last_id() == number,
        "lines" => lines.len() as u64 == number,
        "first" => first.id == number,
        "newest" => newest.id == number,
        "literals" => first.clause.lits().len() as u64 == number,
        "hint" => first.hints.as_slice() == [number].as_slice(),
        _ => false,
    }
}

/// Takes a step, and tells whether it goes as it says.
fn takes(
    alloc: Global,
    solver: &mut Solver,
    vars: u64,
    word: &str,
    numbers: &[i32],
) -> Result<bool, Fail>
    requires { solver.old.formula.vars ≡ vars }
    ensures { solver.new.formula ≡ solver.old.formula }
{
    match word {
        "learned" => searches_to(solver, Stepped::Learned),
        "refuted" => searches_to(solver, Stepped::Refuted),
        "restarts" => refutes_by_restarts(solver),
        "hand" => hand_over(alloc, solver, vars, numbers),
        _ => Ok(tells(solver, word, numbers)),
    }
}

/// The same of the text of a step.
fn goes(alloc: Global, solver: &mut Solver, vars: u64, step: &str) -> Result<bool, Fail>
    requires { solver.old.formula.vars ≡ vars }
    ensures { solver.new.formula ≡ solver.old.formula }
{
    let (word, rest) = step.split_once(' ').unwrap_or((step, ""));
    let numbers = numbers_of(alloc, rest)?;
    takes(alloc, solver, vars, word, &numbers)
}

/// The literal that a solver decided first, by the line that it learned first.
fn first_decided(solver: &Solver) -> Option<Lit> {
    let line = solver.journal().lines().first()?;
    line.clause.lits().first().map(|lit| lit.negated())
}

/// The number of the first step that does not go as it says, from 0, or the literal that was decided first,
/// where a line was learned.
fn follow(
    alloc: Global,
    solver: &mut Solver,
    vars: u64,
    script: &str,
) -> Result<(Option<usize>, Option<Lit>), Fail>
    requires { solver.old.formula.vars ≡ vars }
{
    for (place, step) in script.split("; ").enumerate() {
        if !goes(alloc, solver, vars, step)? {
            return Ok((Some(place), None));
        }
    }
    Ok((None, first_decided(solver)))
}

/// The same by a member that decides all variables.
fn follow_by(
    alloc: Global,
    formula: &Formula,
    member: u32,
    script: &str,
) -> Result<(Option<usize>, Option<Lit>), Fail> {
    let inputs = all_inputs(formula);
    let mut solver = Solver::new(alloc, formula, inputs, member)?;
    follow(alloc, &mut solver, formula.vars(), script)
}

/// The name of the first script that goes astray, and the number of its step.
fn first_failing<'a>(
    alloc: Global,
    scripts: &'a [(&'a str, u32, &'a str, &'a str)],
) -> Result<Option<(&'a str, usize)>, Fail> {
    for (name, member, clauses, script) in scripts {
        let formula = formula(alloc, 3, clauses)?;
        if let (Some(place), _) = follow_by(alloc, &formula, *member, script)? {
            return Ok(Some((*name, place)));
        }
    }
    Ok(None)
}

#[test]
fn follows_scripts(rt: HostRuntime) -> Result<(), Fail> {
    none_fails(first_failing(rt.alloc(), &SCRIPTS)?)
}

/// Each member refutes the pigeons.
#[test]
fn goes_on_after_restarts(rt: HostRuntime) -> Result<(), Fail> {
    let alloc = rt.alloc();
    let five = pigeons(alloc, 5)?;
    for member in 1..9u32 {
        if let (Some(_), _) = follow_by(alloc, &five, member, "restarts")? {
            return Err(Fail::from(member));
        }
    }
    Ok(())
}

/// Each decision makes a clause false at once, so that the first line tells what was decided.
const PAIRS: &str = "1 2 0 1 -2 0 -1 2 0 -1 -2 0 3 4 0 3 -4 0 -3 4 0 -3 -4 0 \
5 6 0 5 -6 0 -5 6 0 -5 -6 0 7 8 0 7 -8 0 -7 8 0 -7 -8 0";

/// The first of the eight members that decides nothing, or what one before it decides.
fn first_alike(alloc: Global, formula: &Formula) -> Result<Option<u32>, Fail> {
    let mut decided: Vec<Lit> = Vec::new(alloc);
    for member in 1..9 {
        match follow_by(alloc, formula, member, "learned")? {
            (None, Some(lit)) if !decided.contains(&lit) => decided.push(lit)?,
            _ => return Ok(Some(member)),
        }
    }
    Ok(None)
}

/// The eight members begin with eight different literals.
#[test]
fn members_begin_differently(rt: HostRuntime) -> Result<(), Fail> {
    let pairs = formula(rt.alloc(), 8, PAIRS)?;
    none_fails(first_alike(rt.alloc(), &pairs)?)
}

#[test]
fn values_may_go_to_other_threads(rt: HostRuntime) -> Result<(), Fail> {
    assert!(rt; are_shared::<Watch>() && are_shared::<Solver>());
    assert!(rt; are_shared::<Journal>() && are_shared::<Workspace>());
    Ok(())
}
