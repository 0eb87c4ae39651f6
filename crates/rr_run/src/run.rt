//! Runs.
ghost use Rattle.std.specs.Prelude.{◌≤◌, ℕ, List, Option, IfOk, MatchResult, length, option_map};
ghost use Rattle.rr_lex.specs.Tokens.{lexemes};
ghost use Rattle.rr_flat.specs.View.{plain_flat};
ghost use Rattle.rr_flat.specs.Elaborated.{IsSound};
ghost use Rattle.rr_trace.specs.View.{plain_table};
ghost use Rattle.rr_run.specs.Refusals.{StopsWhere};
ghost use Rattle.rr_run.specs.Files.{IsFileRun, RefusesFile};
ghost use Rattle.rr_run.specs.Rows.{FitsInputs};
ghost use Rattle.rr_run.specs.Runs.{GivesText, InOrder, IsLawfulDesign, IsRun, Refuses};

use crate::design::LawfulDesign;
use crate::fault::RunFault;
use crate::file::file_design;
use crate::rows::{TableKind, read_rows};
use bumpalo::Bump;
use rr_meaning::run_table;
use rr_trace::{Table, write_table};
use std::alloc::{AllocError, Global};

/// The text of a table with the outputs of the run on its rows.
fn text_of(alloc: Global, design: &LawfulDesign<'_>, rows: &Table) -> Result<Vec<u8>, AllocError>
    requires sound { IsSound (plain_flat design.now.flat) }
    requires ordered { (word : Option (List ℕ)) × InOrder design.now.flat design.now.order word }
    requires fit { FitsInputs (plain_flat design.now.flat) design.now.order.clock (plain_table rows.now) }
    ensures { IfOk result (λ text. GivesText (plain_flat design.now.flat) design.now.order.clock (plain_table rows.now) text.items) }
{
    let outputs = run_table(alloc, &design.flat, &design.order, rows.inputs.as_slice())?;
    write_table(
        alloc,
        &design.flat,
        design.order.clock,
        rows,
        outputs.as_slice(),
    )
}

/// The run of a lawful design on a table of this kind.
fn run_on<'a>(
    alloc: Global,
    design: &LawfulDesign<'a>,
    kind: TableKind,
    table: &[u8],
) -> Result<Vec<u8>, RunFault<'a>>
    requires sound { IsSound (plain_flat design.now.flat) }
    requires ordered { (word : Option (List ℕ)) × InOrder design.now.flat design.now.order word }
    ensures { (bytes : List ℕ) (top word : Option (List ℕ)) → IsLawfulDesign bytes top word (lexemes design.now.tokens.now) (plain_flat design.now.flat) design.now.order.clock design.now.order.rising
        → MatchResult result (λ text. IsRun kind bytes table.now top word text.items) (StopsWhere (Refuses kind bytes table.now top word)) }
{
    match read_rows(alloc, design, kind, table) {
        Err(fault) => Err(fault),
        Ok(rows) => match text_of(alloc, design, &rows) {
            Ok(text) => Ok(text),
            Err(_) => Err(RunFault::Memory),
        },
    }
}

/// The table, of this kind, with the outputs as they are: the run on its rows, from the state 0, of the
/// design that the file expands to; or the first refusal, of the directives (38 to 40 and 16), then of the
/// expanded design (1 to 25, 37), with each byte of it told at its place in the file, and then of the table
/// (33, 26 to 32 and 16, or of a dump 41, 42 and 16).
pub fn run_files<'a>(
    alloc: Global,
    design: &[u8],
    kind: TableKind,
    table: &[u8],
    top: Option<&str>,
    clock: Option<&str>,
    arena: &'a Bump,
) -> Result<Vec<u8>, RunFault<'a>>
    requires { length design.now ≤ 1048576 }
    ensures { MatchResult result
        (λ text. IsFileRun kind design.now table.now (option_map (λ n. n.now) top.entry) (option_map (λ w. w.now) clock.entry) text.items)
        (StopsWhere (RefusesFile kind design.now table.now (option_map (λ n. n.now) top.entry) (option_map (λ w. w.now) clock.entry))) }
{
    match file_design(alloc, design, top, clock, arena) {
        Err(fault) => Err(fault),
        Ok(file) => run_on(alloc, &file.design, kind, table),
    }
}
