//! The LRAT text of a journal.
ghost use Rattle.std.specs.Prelude.{◌≡◌, ◌++◌, IfOk, OnOk, codes, map};
ghost use Rattle.std.specs.List.{flat_map};
ghost use Rattle.rr_cnf.specs.Dimacs.{literal_text};
ghost use Rattle.rr_derive.specs.Lrat.{lrat, positive, step_line};

use crate::line::{Journal, Line};
use rr_cnf::{Lit, push_literal};
use rr_decimal::{digits, push_number};
use std::alloc::{AllocError, Global};

/// The text of the journal (LRAT): for each line its id, its literals, `0`, its hints and `0`, apart by
/// one blank each, ended by LF.
pub fn write_lrat(alloc: Global, journal: &Journal) -> Result<Vec<u8>, AllocError>
    ensures { IfOk result (λ text. text.items ≡ lrat journal.now) }
{
    let mut text = Vec::with_capacity(alloc, text_len(journal))?;
    for line in journal.lines() {
        push_line(&mut text, line)?;
    }
    Ok(text)
}

fn push_line(text: &mut Vec<u8>, line: &Line) -> Result<(), AllocError>
    ensures { OnOk result (text.new.items ≡ text.old.items ++ (step_line line.now ++ codes "\n")) }
{
    push_number(text, line.id, b' ')?;
    push_literals(text, line.clause.lits())?;
    text.extend_from_slice(b"0 ")?;
    push_hints(text, line.hints.as_slice())?;
    text.extend_from_slice(b"0\n")
}

fn push_literals(text: &mut Vec<u8>, clause: &[Lit]) -> Result<(), AllocError>
    ensures { OnOk result (text.new.items ≡ text.old.items ++ flat_map literal_text clause.now) }
{
    for lit in clause {
        push_literal(text, *lit)?;
    }
    Ok(())
}

fn push_hints(text: &mut Vec<u8>, hints: &[u64]) -> Result<(), AllocError>
    ensures { OnOk result (text.new.items ≡ text.old.items ++ flat_map literal_text (map positive hints.now)) }
{
    for hint in hints {
        push_number(text, *hint, b' ')?;
    }
    Ok(())
}

/// Room for the text, so that it is taken once. No clause speaks of it.
fn text_len(journal: &Journal) -> usize {
    let mut len = 0usize;
    for line in journal.lines() {
        len = len.saturating_add(digits(line.id)).saturating_add(5);
        for lit in line.clause.lits() {
            len = len.saturating_add(digits(lit.var())).saturating_add(2);
        }
        for hint in line.hints.as_slice() {
            len = len.saturating_add(digits(*hint)).saturating_add(1);
        }
    }
    len
}
