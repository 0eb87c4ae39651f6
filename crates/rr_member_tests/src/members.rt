//! Small formulas by one and by several members, and the gate.
ghost use Rattle.std.specs.Prelude.{◌≡◌, ◌≤◌, IfOk, IfSome, OnOk};
ghost use Rattle.rr_cnf.specs.Partial.{Determined};
ghost use Rattle.rr_derive.specs.Lrat.{AreWritable};
ghost use Rattle.rr_members.specs.Groups.{AnswerIs};

use rr_cnf::{Clause, Formula, Lit};
use rr_derive::{Journal, Workspace, check_line};
use rr_members::{Gate, Members, OpenGate, Round, solve};
use rr_solver::{Outcome, Solver, Stepped};
use std::alloc::Global;
use std::sync::atomic::{AtomicBool, Ordering};
use std::test::Fail;
use std::thread;
use std::thread::Threads;

/// The literal that a signed number of DIMACS names.
fn lit(number: i32) -> Lit {
    Lit::new(u64::from(number.unsigned_abs()).max(1), number < 0)
}

fn push(alloc: Global, formula: &mut Formula, numbers: &[i32]) -> Result<(), Fail> {
    let mut lits = Vec::new(alloc);
    for number in numbers {
        lits.push(lit(*number))?;
    }
    let clause = Clause::from_lits(alloc, lits.as_slice())?;
    let vars = formula.vars();
    if clause.lits().iter().all(|lit| lit.var() <= vars) {
        formula.push(clause)?;
    }
    Ok(())
}

/// All eight clauses of three literals over three variables.
fn eight(alloc: Global) -> Result<Formula, Fail> {
    let mut formula = Formula::new(alloc, 3);
    for x in [1, -1] {
        for y in [2, -2] {
            for z in [3, -3] {
                push(alloc, &mut formula, &[x, y, z])?;
            }
        }
    }
    Ok(formula)
}

/// All variables, which determine themselves.
fn all_inputs(formula: &Formula) -> u64
    ensures inputs { result ≡ formula.now.vars }
    ensures determined { Determined formula.now result }
{
    formula.vars()
}

#[test]
fn eight_clauses_by_one_member(rt: HostRuntime) -> Result<(), Fail> {
    let formula = eight(rt.alloc())?;
    let inputs = all_inputs(&formula);
    match solve(&rt, rt.alloc(), &formula, inputs, 1, 1, &OpenGate)? {
        Outcome::Spent(journal) => {
            assert!(rt; journal.lines().len() == 1);
        }
        _ => assert!(rt; false),
    }
    Ok(())
}

#[test]
fn eight_clauses_by_four_members(rt: HostRuntime) -> Result<(), Fail> {
    let formula = eight(rt.alloc())?;
    let inputs = all_inputs(&formula);
    match solve(&rt, rt.alloc(), &formula, inputs, 4, 1000, &OpenGate)? {
        Outcome::Refuted(journal) => {
            assert!(rt; journal.lines().len() >= 4);
        }
        _ => assert!(rt; false),
    }
    Ok(())
}

// The last of its lines is empty.
#[test]
fn a_search_gives_its_lines_by_value(rt: HostRuntime) -> Result<(), Fail> {
    let alloc = rt.alloc();
    let formula = eight(alloc)?;
    let inputs = all_inputs(&formula);
    let mut solver = Solver::new(alloc, &formula, inputs, 1)?;
    for _turn in 0..10 {
        solver.conflict_step()?;
    }
    let lines = solver.into_journal().into_lines();
    match lines.as_slice() {
        [_, .., last] => assert!(rt; last.clause.lits().is_empty()),
        _ => assert!(rt; false),
    }
    Ok(())
}

#[test]
fn a_search_gives_its_values_by_value(rt: HostRuntime) -> Result<(), Fail> {
    let alloc = rt.alloc();
    let mut formula = Formula::new(alloc, 2);
    push(alloc, &mut formula, &[1])?;
    push(alloc, &mut formula, &[-1, 2])?;
    let inputs = all_inputs(&formula);
    let mut solver = Solver::new(alloc, &formula, inputs, 1)?;
    assert!(rt; solver.conflict_step()? == Stepped::Model);
    assert!(rt; solver.into_assignment().as_slice() == [false, true, true].as_slice());
    Ok(())
}

/// One hole for each pigeon, and no two pigeons in one hole: unsatisfiable with a hole too few.
fn pigeons(alloc: Global, holes: u64) -> Result<Formula, Fail>
    requires { holes ≤ 9 }
{
    let mut formula = Formula::new(alloc, (holes + 1) * holes);
    for pigeon in 0..holes + 1 {
        let mut lits = Vec::new(alloc);
        for hole in 0..holes {
            lits.push(in_hole(pigeon, hole, holes, false))?;
        }
        add(alloc, &mut formula, lits.as_slice())?;
    }
    for hole in 0..holes {
        for second in 0..holes + 1 {
            for first in 0..second {
                let pair = [
                    in_hole(first, hole, holes, true),
                    in_hole(second, hole, holes, true),
                ];
                add(alloc, &mut formula, &pair)?;
            }
        }
    }
    Ok(formula)
}

fn in_hole(pigeon: u64, hole: u64, holes: u64, negative: bool) -> Lit {
    let var = pigeon
        .saturating_mul(holes)
        .saturating_add(hole)
        .saturating_add(1);
    Lit::new(var.min(1 << 40), negative)
}

fn add(alloc: Global, formula: &mut Formula, lits: &[Lit]) -> Result<(), Fail> {
    let clause = Clause::from_lits(alloc, lits)?;
    let vars = formula.vars();
    if clause.lits().iter().all(|lit| lit.var() <= vars) {
        formula.push(clause)?;
    }
    Ok(())
}

/// Whether every line passes the hint check.
fn all_pass(alloc: Global, formula: &Formula, journal: &Journal) -> Result<bool, Fail>
    requires { AreWritable formula.now journal.now.lines }
{
    if formula.vars() >= 1 << 40 {
        return Ok(false);
    }
    let mut work = Workspace::for_vars(alloc, formula.vars())?;
    for index in 0..journal.lines().len() {
        if !check_line(&mut work, formula, journal, index as u64) {
            return Ok(false);
        }
    }
    Ok(true)
}

#[test]
fn pigeons_by_three_members(rt: HostRuntime) -> Result<(), Fail> {
    let formula = pigeons(rt.alloc(), 6)?;
    let inputs = all_inputs(&formula);
    match solve(&rt, rt.alloc(), &formula, inputs, 3, 10_000, &OpenGate)? {
        Outcome::Refuted(journal) => {
            // More than the first member learns alone.
            assert!(rt; journal.lines().len() > 256);
            assert!(rt; all_pass(rt.alloc(), &formula, &journal)?);
        }
        _ => assert!(rt; false),
    }
    Ok(())
}

/// Rounds of four events until a member has ended.
fn ended<R: Threads + Sync>(rt: &R, members: &mut Members<'_>) -> Result<Option<Round>, Fail>
    ensures answer { IfOk result (λ r. IfSome r (AnswerIs members.new)) }
    ensures same { OnOk result (members.new.formula ≡ members.old.formula) }
{
    for _ in 0..10_000 {
        match members.round(rt, 4, &OpenGate)? {
            Round::Going => {}
            other => return Ok(Some(other)),
        }
    }
    Ok(None)
}

#[test]
fn pigeons_in_short_rounds(rt: HostRuntime) -> Result<(), Fail> {
    let formula = pigeons(rt.alloc(), 5)?;
    let inputs = all_inputs(&formula);
    let mut members = Members::new(rt.alloc(), &formula, inputs, 3)?;
    match ended(&rt, &mut members)? {
        Some(Round::Refuted(journal)) => {
            assert!(rt; journal.lines().len() > 12);
            assert!(rt; all_pass(rt.alloc(), &formula, &journal)?);
        }
        Some(Round::Model(_bits)) => assert!(rt; false),
        Some(Round::Going) => assert!(rt; false),
        None => assert!(rt; false),
    }
    Ok(())
}

#[test]
fn a_spent_budget_of_many_rounds(rt: HostRuntime) -> Result<(), Fail> {
    let formula = pigeons(rt.alloc(), 9)?;
    let inputs = all_inputs(&formula);
    match solve(&rt, rt.alloc(), &formula, inputs, 2, 700, &OpenGate)? {
        Outcome::Spent(journal) => {
            assert!(rt; journal.lines().len() == 1400);
            assert!(rt; all_pass(rt.alloc(), &formula, &journal)?);
        }
        _ => assert!(rt; false),
    }
    Ok(())
}

/// The most turns that a member is held.
const TURNS: u64 = 100_000_000;

/// Holds each of two members until the other has begun, for a number of turns.
#[derive(Drop)]
struct Meeting {
    first: AtomicBool,
    second: AtomicBool,
    ran_out: AtomicBool,
}

impl Meeting {
    fn new() -> Meeting {
        Meeting {
            first: AtomicBool::new(false),
            second: AtomicBool::new(false),
            ran_out: AtomicBool::new(false),
        }
    }

    fn mine(&self, member: u32) -> &AtomicBool {
        if member == 1 {
            &self.first
        } else {
            &self.second
        }
    }

    fn other(&self, member: u32) -> &AtomicBool {
        if member == 1 {
            &self.second
        } else {
            &self.first
        }
    }
}

impl Gate for Meeting {
    fn pass(&self, member: u32) {
        self.mine(member).store(true, Ordering::SeqCst);
        for _ in 0..TURNS {
            if self.other(member).load(Ordering::SeqCst) {
                return;
            }
            thread::yield_now();
        }
        self.ran_out.store(true, Ordering::SeqCst);
    }
}

#[test]
fn two_members_are_at_work_at_once(rt: HostRuntime) -> Result<(), Fail> {
    let formula = eight(rt.alloc())?;
    let inputs = all_inputs(&formula);
    let mut members = Members::new(rt.alloc(), &formula, inputs, 2)?;
    let gate = Meeting::new();
    match members.round(&rt, 1, &gate)? {
        Round::Going => {}
        _ => assert!(rt; false),
    }
    assert!(rt; !gate.ran_out.load(Ordering::SeqCst));
    Ok(())
}
