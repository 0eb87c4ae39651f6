//! The DIMACS text of a formula.
ghost use Rattle.std.specs.Prelude.{◌≡◌, ◌++◌, OnOk, IfOk};
ghost use Rattle.rr_cnf.specs.Clauses.{Clauses};
ghost use Rattle.rr_cnf.specs.Dimacs.{NamesOneFormula, clause_text, dimacs, header, literal_text};

use crate::clause::Clause;
use crate::formula::Formula;
use crate::lit::Lit;
use rr_decimal::{digits, push_number};
use std::alloc::{AllocError, Global};

/// The text of the formula (DIMACS, "cnf"): the line `p cnf V C` with the numbers of variables and
/// clauses, then for each clause its literals, each followed by a blank, and `0`. Every line ends
/// with LF. The room for the text is taken at once.
pub fn write_dimacs(alloc: Global, formula: &Formula) -> Result<Vec<u8>, AllocError>
    ensures { IfOk result (λ text. text.items ≡ dimacs formula.now) }
{
    let mut text = Vec::with_capacity(alloc, text_len(formula))?;
    push_header(&mut text, formula)?;
    for clause in formula.clauses() {
        push_clause(&mut text, clause)?;
    }
    Ok(text)
}

/// Two formulas with the same text are the same formula.
pub fn same_text_same_formula()
    ensures { NamesOneFormula }
{}

fn push_header(text: &mut Vec<u8>, formula: &Formula) -> Result<(), AllocError>
    ensures { OnOk result (text.new.items ≡ text.old.items ++ header formula.now) }
{
    text.extend_from_slice(b"p cnf ")?;
    push_number(text, formula.vars(), b' ')?;
    push_number(text, formula.len(), b'\n')
}

fn push_clause(text: &mut Vec<u8>, clause: &Clause) -> Result<(), AllocError>
    ensures { OnOk result (text.new.items ≡ text.old.items ++ clause_text clause.now) }
{
    for lit in clause.lits() {
        push_literal(text, *lit)?;
    }
    text.extend_from_slice(b"0\n")
}

/// Writes the literal at the end of the text as DIMACS and LRAT do: a minus sign where it is negated, the
/// variable in decimal digits, and a blank.
pub fn push_literal(text: &mut Vec<u8>, lit: Lit) -> Result<(), AllocError>
    ensures { OnOk result (text.new.items ≡ text.old.items ++ literal_text lit) }
{
    if lit.is_negative() {
        text.extend_from_slice(b"-")?;
    }
    push_number(text, lit.var(), b' ')
}

/// The length of the text, so that its room is taken once. No clause speaks of it.
fn text_len(formula: &Formula) -> usize {
    let front = digits(formula.vars()).saturating_add(digits(formula.len()));
    let mut len = front.saturating_add(8);
    for clause in formula.clauses() {
        for lit in clause.lits() {
            len = len.saturating_add(digits(lit.var())).saturating_add(1);
            if lit.is_negative() {
                len = len.saturating_add(1);
            }
        }
        len = len.saturating_add(2);
    }
    len
}
