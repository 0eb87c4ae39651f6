//! The hint check of a line.
ghost use Rattle.std.specs.Prelude.{◌≡◌, ℕ, ◌+◌, ◌*◌, ◌^◌, ◌<◌, ◌≤◌, ◌↔◌, All, List, length, map, slice_index, slice_index_or, slice_set, MatchOption, MatchBool, IfSome, IfNone, IsTrue, IfOk};
ghost use Rattle.rr_cnf.specs.Clauses.{Literal, negated, IsWithin};
ghost use Rattle.rr_derive.specs.Derive.{Step, IsRising, Names, PassesAt, IsNoTautology, Leads, Passes};
ghost use Rattle.rr_derive.specs.Marks.{MarkedTrue, MarkedFalse, Unmarked, SeenIs, mark_of, Represents};

use crate::line::{Journal, Line};
use rr_cnf::{Clause, Formula, Lit};
use std::alloc::{AllocError, Global};
use std::marker::Model;

/// What a clause is under the marks.
pub(crate) enum Seen {
    /// All literals are false.
    Conflict,
    /// All are false but this one, which is open.
    Unit(Lit),
    Other,
}

/// The value of a literal, if it has one.
fn value(marks: &[u64], stamp: u64, lit: Lit) -> Option<bool>
    requires within { lit.var < length marks.now }
    requires stamp { stamp < 2 ^ 62 }
    ensures { MatchOption result (Unmarked marks.now stamp lit)
        (λ v. MatchBool v (MarkedTrue marks.now stamp lit) (MarkedFalse marks.now stamp lit)) }
{
    let mark = marks[lit.var() as usize];
    let negative = lit.is_negative();
    let plain = 2 * stamp;
    if mark == plain {
        return Some(!negative);
    }
    if mark == plain + 1 {
        return Some(negative);
    }
    None
}

/// What the clause is under the marks.
fn look(marks: &[u64], stamp: u64, clause: &[Lit]) -> Seen
    requires within { All (λ l. l.var < length marks.now) clause.now }
    requires stamp { stamp < 2 ^ 62 }
    ensures { SeenIs marks.now stamp clause.now result }
{
    let mut candidate: Option<Lit> = None;
    for lit in clause {
        match value(marks, stamp, *lit) {
            Some(true) => return Seen::Other,
            Some(false) => {}
            None => match candidate {
                None => candidate = Some(*lit),
                Some(other) => {
                    if other != *lit {
                        return Seen::Other;
                    }
                }
            },
        }
    }
    match candidate {
        None => Seen::Conflict,
        Some(lit) => Seen::Unit(lit),
    }
}

/// The place of the line with this id among lines with rising ids, from 0; `None` exactly where no line has
/// it. It looks at as many lines as their number has binary digits.
pub fn position(lines: &[Line], id: u64) -> Option<usize>
    requires { IsRising lines.now }
    ensures found { IfSome result (λ k. (k < length lines.now) × ((d : Step) → (slice_index_or lines.now k d).id ≡ id)) }
    ensures none { IfNone result ((k : ℕ) (d : Step) → k < length lines.now → (slice_index_or lines.now k d).id ≡ id → ⊥) }
{
    let mut low = 0;
    let mut high = lines.len();
    while low < high {
        let middle = low + (high - low) / 2;
        let line = &lines[middle];
        let at = line.id;
        if at == id {
            return Some(middle);
        }
        if at < id {
            low = middle + 1;
        } else {
            high = middle;
        }
    }
    None
}

/// The clause that the id names.
fn clause_named<'a>(formula: &'a Formula, earlier: &'a [Line], id: u64) -> Option<&'a Clause>
    requires rising { IsRising earlier.now }
    requires above { All (λ s. length formula.now.clauses < s.id) earlier.now }
    requires within { All (λ s. All (IsWithin formula.now.vars) s.clause) earlier.now }
    ensures found { IfSome result (λ c. Names formula.now.clauses earlier.now id c.now) }
    ensures one { IfSome result (λ c. (d : List Literal) → Names formula.now.clauses earlier.now id d → d ≡ c.now) }
    ensures within { IfSome result (λ c. All (IsWithin formula.now.vars) c.now) }
    ensures none { IfNone result ((d : List Literal) → Names formula.now.clauses earlier.now id d → ⊥) }
{
    if id <= formula.len() {
        return formula.clause(id);
    }
    match position(earlier, id) {
        None => None,
        Some(place) => {
            let line = &earlier[place];
            Some(&line.clause)
        }
    }
}

/// Marks a literal as true.
fn assume(marks: &mut [u64], stamp: u64, lit: Lit)
    requires within { lit.var < length marks.old }
    requires stamp { stamp < 2 ^ 62 }
    ensures { marks.new ≡ slice_set marks.old lit.var (mark_of stamp lit) }
{
    let mark = if lit.is_negative() {
        2 * stamp + 1
    } else {
        2 * stamp
    };
    marks[lit.var() as usize] = mark;
}

/// Takes the literals of a clause to be false, unless it has a literal and its negation.
fn suppose(marks: &mut [u64], stamp: u64, clause: &[Lit]) -> bool
    requires within { All (λ l. l.var < length marks.old) clause.now }
    requires stamp { stamp < 2 ^ 62 }
    requires fresh { All (λ m. m < 2 * stamp) marks.old }
    ensures below { All (λ m. m < 2 * stamp + 2) marks.new }
    ensures result { MatchBool result
        (IsNoTautology clause.now × Represents marks.new stamp (map negated clause.now))
        (IsNoTautology clause.now → ⊥) }
{
    for lit in clause {
        match value(marks, stamp, *lit) {
            Some(true) => return false,
            Some(false) => {}
            None => assume(marks, stamp, lit.negated()),
        }
    }
    true
}

/// Follows the hints from the marked literals to a false clause.
fn follow(marks: &mut [u64], stamp: u64, formula: &Formula, earlier: &[Line], hints: &[u64]) -> bool
    requires stamp { stamp < 2 ^ 62 }
    requires marks { All (λ m. m < 2 * stamp + 2) marks.old }
    requires room { formula.now.vars < length marks.old }
    requires rising { IsRising earlier.now }
    requires above { All (λ s. length formula.now.clauses < s.id) earlier.now }
    requires within { All (λ s. All (IsWithin formula.now.vars) s.clause) earlier.now }
    ensures below { All (λ m. m < 2 * stamp + 2) marks.new }
    ensures result { (held : List Literal) → Represents marks.old stamp held →
        (IsTrue result ↔ Leads (Names formula.now.clauses earlier.now) held hints.now) }
{
    for hint in hints {
        match clause_named(formula, earlier, *hint) {
            None => return false,
            Some(clause) => match look(marks, stamp, clause.lits()) {
                Seen::Conflict => return true,
                Seen::Other => return false,
                Seen::Unit(lit) => assume(marks, stamp, lit),
            },
        }
    }
    false
}

/// Whether the hints lead from the negated clause to a false one.
fn passes(
    marks: &mut [u64],
    stamp: u64,
    formula: &Formula,
    earlier: &[Line],
    clause: &[Lit],
    hints: &[u64],
) -> bool
    requires stamp { stamp < 2 ^ 62 }
    requires fresh { All (λ m. m < 2 * stamp) marks.old }
    requires room { formula.now.vars < length marks.old }
    requires rising { IsRising earlier.now }
    requires above { All (λ s. length formula.now.clauses < s.id) earlier.now }
    requires within { All (λ s. All (IsWithin formula.now.vars) s.clause) earlier.now }
    requires clause { All (IsWithin formula.now.vars) clause.now }
    ensures below { All (λ m. m < 2 * stamp + 2) marks.new }
    ensures result { IsTrue result ↔ Passes (Names formula.now.clauses earlier.now) clause.now hints.now }
{
    if !suppose(marks, stamp, clause) {
        return false;
    }
    follow(marks, stamp, formula, earlier, hints)
}

/// Room for the check of lines over the variables 1 to some number.
#[derive(Drop)]
pub struct Workspace {
    marks: Vec<u64>,
    stamp: u64,
}

impl Model for Workspace {
    ghost use Rattle.std.specs.Prelude.{ℕ, ◌-◌, ◌+◌, ◌*◌, ◌<◌, ◌≤◌, ◌^◌, length, All};

    ghost Value = { ℕ };

    ghost view = { λ w. length w.marks.items - 1 };

    ghost invariant = { λ w. (1 ≤ length w.marks.items)
        × (w.stamp < 2 ^ 62)
        × All (λ m. m < 2 * w.stamp + 2) w.marks.items };
}

impl Workspace {
    pub fn for_vars(alloc: Global, vars: u64) -> Result<Workspace, AllocError>
        requires { vars < 2 ^ 63 }
        ensures { IfOk result (λ w. w ≡ vars) }
    {
        Ok(Workspace {
            marks: vec![in alloc; 0; vars as usize + 1]?,
            stamp: 0,
        })
    }
}

/// Whether the line at the index passes the hint check.
pub fn check_line(work: &mut Workspace, formula: &Formula, journal: &Journal, index: u64) -> bool
    requires index { index < length journal.now.lines }
    requires ids { All (λ s. length formula.now.clauses < s.id) journal.now.lines }
    requires within { All (λ s. All (IsWithin formula.now.vars) s.clause) journal.now.lines }
    requires room { formula.now.vars ≤ work.old }
    ensures room { work.new ≡ work.old }
    ensures result { IsTrue result ↔ PassesAt formula.now.clauses journal.now.lines index }
{
    let lines = journal.lines();
    let earlier = &lines[..index as usize];
    let line = &lines[index as usize];
    if work.stamp + 1 < STAMPS {
        work.stamp += 1;
    } else {
        work.marks.fill(0);
        work.stamp = 1;
    }
    let stamp = work.stamp;
    let marks = work.marks.as_mut_slice();
    passes(
        marks,
        stamp,
        formula,
        earlier,
        line.clause.lits(),
        line.hints.as_slice(),
    )
}

const STAMPS: u64 = 1 << 62;
