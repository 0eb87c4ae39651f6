//! The made input, repaired.
ghost use Rattle.std.specs.Prelude.{◌≡◌, ◌≤◌, IfOk, MatchResult, length, string_bytes};
ghost use Rattle.rr_made_input.specs.Made.{made_design, made_table};
ghost use Rattle.rr_repair.specs.Repairs.{CountsRepair};
ghost use Rattle.rr_repair.specs.Views.{plain_counts};
ghost use Rattle.rr_endings.specs.Views.{plain_answer, StopsWhere};
ghost use Rattle.rr_make.specs.Makes.{AnswersMake, RefusesMake, made_request, summary};

use bumpalo::Bump;
use rr_endings::{Found, Piece, Stop, Text};
use rr_made_input::{Input, made};
use rr_repair::{Counted, Request, repair_counted};
use rr_run::TableKind;
use std::alloc::{AllocError, Global};
use std::thread::Threads;

/// How many lines each member of a search may learn for one question.
const BUDGET: u32 = 20_000;

/// How many members a search has.
const MEMBERS: u32 = 4;

/// The summary of a repair with such counts.
fn summary(
    alloc: Global,
    seed: u64,
    rows: u64,
    sites: u64,
    changes: u32,
) -> Result<String, AllocError>
    ensures { IfOk result (λ text. string_bytes text ≡ summary seed (record { rows = rows; sites = sites; changes = changes })) }
{
    format!(in alloc; "seed {seed}\nrows {rows}\nsites {sites}\nchanges {changes}\n")
}

/// What is done for a repair: its files, and, where its status is 0, the summary in place of what it
/// prints and reports; else what it reports, and nothing is printed.
fn summed<'b>(
    alloc: Global,
    seed: u64,
    cert: &str,
    counted: Counted<'_>,
) -> Result<Found<'b>, AllocError>
    requires { CountsRepair (made_request cert.now) (made_design seed) (made_table seed) (plain_answer counted.found) (plain_counts counted) }
    ensures { IfOk result (λ found. AnswersMake seed cert.now (plain_answer found)) }
{
    let Counted {
        found,
        rows,
        sites,
        changes,
    } = counted;
    let Found {
        status,
        files,
        notes,
        ..
    } = found;
    if status != 0 {
        return Ok(Found {
            status,
            files,
            out: Piece::Nothing,
            notes,
        });
    }
    let text = summary(alloc, seed, rows, sites, changes)?;
    Ok(Found {
        status,
        files,
        out: Piece::Told(Text::Made(text)),
        notes: Text::Fixed(""),
    })
}

/// The repair of a made input.
fn repaired<'b, 'a, R: Threads + Sync>(
    rt: &R,
    alloc: Global,
    seed: u64,
    input: &Input,
    cert: &str,
    arena: &'a Bump,
) -> Result<Found<'b>, Stop<'a>>
    requires design { string_bytes input.now.design ≡ made_design seed }
    requires small { length (string_bytes input.now.design) ≤ 1048576 }
    requires table { input.now.table.items ≡ made_table seed }
    ensures { MatchResult result (λ found. AnswersMake seed cert.now (plain_answer found)) (StopsWhere (RefusesMake seed cert.now)) }
{
    let request = Request {
        kind: TableKind::Csv,
        top: None,
        clock: None,
        cert,
        budget: BUDGET,
        members: MEMBERS,
    };
    let design = input.design.as_bytes();
    let table = input.table.as_slice();
    match repair_counted(rt, alloc, design, table, &request, arena) {
        Ok(counted) => match summed(alloc, seed, cert, counted) {
            Ok(found) => Ok(found),
            Err(_) => Err(Stop::Memory),
        },
        Err(stop) => Err(stop),
    }
}

/// Makes the input of a seed and repairs it, with 4 members and 20,000 lines each for one question. The
/// files of the repair, whose names begin with `cert`, are to be written; where its status is 0, the
/// summary is to be printed in place of the source, and nothing to be reported; else nothing is to be
/// printed, and what the repair reports is to be reported. No file is read. Names in a refusal live in the
/// arena.
pub fn make<'b, 'a, R: Threads + Sync>(
    rt: &R,
    alloc: Global,
    seed: u64,
    cert: &str,
    arena: &'a Bump,
) -> Result<Found<'b>, Stop<'a>>
    ensures { MatchResult result (λ found. AnswersMake seed cert.now (plain_answer found)) (StopsWhere (RefusesMake seed cert.now)) }
{
    match made(alloc, seed) {
        Ok(input) => repaired(rt, alloc, seed, &input, cert, arena),
        Err(_) => Err(Stop::Memory),
    }
}
