//! Parts of a proof: how they are cut, and the check of one.
ghost use Rattle.std.specs.Prelude.{◌≡◌, ℕ, ◌<◌, ◌≤◌, All, IfOk, length};
ghost use Rattle.rr_cnf.specs.Clauses.{IsWithin};
ghost use Rattle.rr_check.specs.Parts.{Covers, IsPartOf, VerdictOn};

use crate::verdict::Verdict;
use rr_cnf::Formula;
use rr_derive::{Journal, Line, Workspace, check_line};
use std::alloc::{AllocError, Global};

/// Lines that follow one another, counted from 0: from `start` on, and before `end`.
#[derive(Debug, Clone, Copy, PartialEq, Eq)]
pub struct Part {
    pub start: u64,
    pub end: u64,
}

/// How much work the check of a line takes: a look at each hint. No clause speaks of it.
fn work_of(line: &Line) -> u64 {
    (line.hints.len() as u64).saturating_add(1)
}

/// The work of all lines.
fn work_of_all(lines: &[Line]) -> u64 {
    lines
        .iter()
        .fold(0u64, |work, line| work.saturating_add(work_of(line)))
}

/// Where a part ends that begins at this line and has this share of the work, or what is left.
fn end_of(lines: &[Line], start: u64, share: u64) -> u64
    requires { start ≤ length lines.now }
    ensures low { start ≤ result }
    ensures high { result ≤ length lines.now }
{
    let mut work = 0u64;
    for (offset, line) in lines[start as usize..].iter().enumerate() {
        if work >= share {
            return start + offset as u64;
        }
        work = work.saturating_add(work_of(line));
    }
    lines.len() as u64
}

/// The lines in at most `workers` parts that follow one another, of about equally many hints.
pub fn parts_of(alloc: Global, lines: &[Line], workers: u32) -> Result<Vec<Part>, AllocError>
    requires { 1 ≤ workers }
    ensures count { IfOk result (λ parts. length parts.items ≤ workers) }
    ensures parts { IfOk result (λ parts. All (IsPartOf lines.now) parts.items) }
    ensures covers { IfOk result (λ parts. Covers 0 (length lines.now) parts.items) }
{
    let count = lines.len() as u64;
    let share = work_of_all(lines).div_ceil(u64::from(workers));
    let mut parts = Vec::with_capacity(alloc, workers as usize)?;
    let mut start = 0;
    for _ in 1..workers {
        let end = end_of(lines, start, share);
        if end == count {
            break;
        }
        parts.push(Part { start, end })?;
        start = end;
    }
    parts.push(Part { start, end: count })?;
    Ok(parts)
}

/// The verdict on a part.
fn check_part(work: &mut Workspace, formula: &Formula, journal: &Journal, part: Part) -> Verdict
    requires ids { All (λ s. length formula.now.clauses < s.id) journal.now.lines }
    requires within { All (λ s. All (IsWithin formula.now.vars) s.clause) journal.now.lines }
    requires room { formula.now.vars ≤ work.old }
    requires part { IsPartOf journal.now.lines part }
    ensures room { work.new ≡ work.old }
    ensures verdict { VerdictOn formula.now.clauses journal.now.lines part.start part.end result }
{
    let mut has_empty = false;
    for index in part.start..part.end {
        if !check_line(work, formula, journal, index) {
            return Verdict::Line(index + 1);
        }
        let line = &journal.lines()[index as usize];
        if line.clause.lits().is_empty() {
            has_empty = true;
        }
    }
    if has_empty {
        Verdict::Accepted
    } else {
        Verdict::NoEmptyClause
    }
}

/// The verdict on parts that follow one another, in a workspace of their own.
pub(crate) fn check_parts(
    alloc: Global,
    formula: &Formula,
    journal: &Journal,
    parts: &[Part],
) -> Result<Verdict, AllocError>
    requires ids { All (λ s. length formula.now.clauses < s.id) journal.now.lines }
    requires within { All (λ s. All (IsWithin formula.now.vars) s.clause) journal.now.lines }
    requires parts { All (IsPartOf journal.now.lines) parts.now }
    ensures { (start end : ℕ) → Covers start end parts.now → IfOk result (VerdictOn formula.now.clauses journal.now.lines start end) }
{
    if formula.vars() >= MOST_VARIABLES {
        return Err(AllocError);
    }
    let mut work = Workspace::for_vars(alloc, formula.vars())?;
    let mut verdict = Verdict::NoEmptyClause;
    for part in parts {
        verdict = verdict.and_then(check_part(&mut work, formula, journal, *part));
    }
    Ok(verdict)
}

/// A workspace for so many variables finds no room.
const MOST_VARIABLES: u64 = 1 << 63;
