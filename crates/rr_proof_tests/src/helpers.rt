//! What several of the tests use: formulas of texts, the check of all lines, and numbers that look random.
ghost use Rattle.std.specs.Prelude.{◌≡◌, ◌<◌, All, length, true};
ghost use Rattle.rr_cnf.specs.Clauses.{IsWithin};

use rr_cnf::{Clause, Formula, Lit};
use rr_derive::{Journal, Workspace, check_line};
use std::alloc::Global;
use std::fmt::Debug;
use std::test::Fail;

/// The case that failed is the failure, if there is one.
pub(crate) fn none_fails<T: Debug + Drop>(failing: Option<T>) -> Result<(), Fail> {
    match failing {
        None => Ok(()),
        Some(case) => Err(Fail::from(case)),
    }
}

/// The literal that a signed number of DIMACS names.
pub(crate) fn lit(number: i32) -> Lit {
    Lit::new(u64::from(number.unsigned_abs()).max(1), number < 0)
}

/// Whether the literals are of variables up to the last.
pub(crate) fn are_within(lits: &[Lit], last: u64) -> bool
    ensures { result ≡ true → All (IsWithin last) lits.now }
{
    lits.iter().all(|lit| lit.var() <= last)
}

/// Adds the clause, if its variables are the formula's.
pub(crate) fn push(formula: &mut Formula, clause: Clause) -> Result<(), Fail> {
    if are_within(clause.lits(), formula.vars()) {
        formula.push(clause)?;
    }
    Ok(())
}

/// The numbers of a text.
pub(crate) fn numbers_of(alloc: Global, words: &str) -> Result<Vec<i32>, Fail> {
    let mut numbers = Vec::new(alloc);
    for word in words.split_whitespace() {
        numbers.push(word.parse::<i32>()?)?;
    }
    Ok(numbers)
}

/// The clause of the literals of these numbers.
pub(crate) fn clause(alloc: Global, numbers: &[i32]) -> Result<Clause, Fail> {
    let mut lits = Vec::new(alloc);
    for number in numbers {
        lits.push(lit(*number))?;
    }
    Ok(Clause::from_lits(alloc, &lits)?)
}

/// Adds clauses as DIMACS has them: numbers, and 0 behind each clause.
fn push_all(alloc: Global, formula: &mut Formula, text: &str) -> Result<(), Fail> {
    for words in text.split_terminator(" 0") {
        let numbers = numbers_of(alloc, words)?;
        push(formula, clause(alloc, &numbers)?)?;
    }
    Ok(())
}

/// The formula over so many variables whose clauses are these.
pub(crate) fn formula(alloc: Global, vars: u64, text: &str) -> Result<Formula, Fail> {
    let mut formula = Formula::new(alloc, vars);
    push_all(alloc, &mut formula, text)?;
    Ok(formula)
}

/// The clauses over three variables, which nothing satisfies.
pub(crate) const EIGHT: &str =
    "1 2 3 0 1 2 -3 0 1 -2 3 0 1 -2 -3 0 -1 2 3 0 -1 2 -3 0 -1 -2 3 0 -1 -2 -3 0";

/// The number of the first line that fails the hint check, from 1; 0 where all pass.
pub(crate) fn first_failing_line(
    alloc: Global,
    formula: &Formula,
    journal: &Journal,
) -> Result<u64, Fail>
    requires ids { All (λ s. length formula.now.clauses < s.id) journal.now.lines }
    requires within { All (λ s. All (IsWithin formula.now.vars) s.clause) journal.now.lines }
{
    if formula.vars() >= 1 << 40 {
        return Err(Fail::from("too many variables"));
    }
    let mut work = Workspace::for_vars(alloc, formula.vars())?;
    for index in 0..journal.lines().len() as u64 {
        if !check_line(&mut work, formula, journal, index) {
            return Ok(index + 1);
        }
    }
    Ok(0)
}

/// Whether values of the type may be used by several threads.
pub(crate) fn are_shared<T: Send + Sync>() -> bool {
    true
}

/// Numbers that look random.
#[derive(Drop)]
pub(crate) struct Numbers {
    state: u64,
}

impl Numbers {
    pub(crate) fn from_state(state: u64) -> Numbers {
        Numbers { state }
    }

    /// A number below the end, or 0.
    pub(crate) fn below(&mut self, end: u64) -> u64 {
        self.state = self
            .state
            .wrapping_mul(6_364_136_223_846_793_005)
            .wrapping_add(1_442_695_040_888_963_407);
        if end == 0 {
            return 0;
        }
        (self.state >> 33) % end
    }

    /// A literal of one of so many variables, or of the first 1000.
    pub(crate) fn lit(&mut self, vars: u64) -> Lit {
        let var = self.below(vars).min(999) + 1;
        Lit::new(var, self.below(2) == 0)
    }
}
