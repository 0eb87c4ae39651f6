//! The answers that leave a question open, with what was found to match or without.
ghost use Rattle.std.specs.Prelude.{◌≡◌, ◌<◌, ◌^◌, [], IfOk, length, string_bytes};
ghost use Rattle.rr_syntax.specs.View.{plain_source};
ghost use Rattle.rr_lex.specs.Tokens.{lexemes};
ghost use Rattle.rr_instance.specs.Instances.{instance_source};
ghost use Rattle.rr_kept.specs.Read.{IsRead};
ghost use Rattle.rr_map.specs.Printed.{printed_file, printed_text, ExpandsTo};
ghost use Rattle.rr_map.specs.Read.{source_file};
ghost use Rattle.rr_endings.specs.Views.{plain_answer};
ghost use Rattle.rr_run.specs.Files.{placed_tokens as placed_tokens_of};
ghost use Rattle.rr_repair_output.specs.Certified.{certificate as certificate_of};
ghost use Rattle.rr_repair_output.specs.Texts.{found_line, found_text, open_text};

use crate::answering::tokens_in_file;
use crate::certifying::certificate;
use rr_choice::{Choice, SiteList, cost};
use rr_circuit::Circuit;
use rr_derive::Journal;
use rr_endings::{Found, Piece, Text};
use rr_map::{ReadFile, print_file};
use rr_repair_report::push_site_lines;
use rr_syntax::Token;
use std::alloc::{AllocError, Global};

/// The report that each member has learned so many lines, and of which bound.
fn open_notes(alloc: Global, budget: u32, bound: u32) -> Result<String, AllocError>
    ensures { IfOk result (λ text. string_bytes text ≡ open_text budget bound) }
{
    let text = format!(in alloc; "budget spent {budget} bound {bound}\n")?;
    Ok(text)
}

/// The line that tells how many changes were found.
fn found_line(alloc: Global, changes: u32) -> Result<String, AllocError>
    ensures { IfOk result (λ text. string_bytes text ≡ found_line changes) }
{
    format!(in alloc; "found {changes}\n")
}

/// The same report with a choice that was found to match: the number of its changes, and a line for each
/// site that it switches on.
fn found_notes(
    alloc: Global,
    tokens: &[Token<'_>],
    list: &SiteList<'_>,
    choice: &Choice,
    budget: u32,
    bound: u32,
) -> Result<String, AllocError>
    requires { length choice.now.picks.items < 2 ^ 32 }
    ensures { IfOk result (λ text. string_bytes text ≡ found_text budget bound (lexemes tokens.now) list.now choice.now.picks.items) }
{
    let mut notes = open_notes(alloc, budget, bound)?;
    let line = found_line(alloc, cost(choice))?;
    notes.push_str(line.as_str())?;
    push_site_lines(alloc, &mut notes, tokens, list, choice.picks.as_slice())?;
    Ok(notes)
}

/// The answer that a question was left open and nothing was found, with its formula and what was learned.
pub fn left_open<'b>(
    alloc: Global,
    budget: u32,
    bound: u32,
    cert: &str,
    circuit: &Circuit,
    journal: &Journal,
) -> Result<Found<'b>, AllocError>
    ensures files { IfOk result (λ found. (plain_answer found).files ≡ certificate_of cert.now circuit.now journal.now) }
    ensures printed { IfOk result (λ found. (plain_answer found).out ≡ []) }
    ensures notes { IfOk result (λ found. (plain_answer found).notes ≡ open_text budget bound) }
    ensures status { IfOk result (λ found. (plain_answer found).status ≡ 2) }
{
    let files = certificate(alloc, cert, circuit, journal)?;
    let notes = open_notes(alloc, budget, bound)?;
    Ok(Found {
        status: 2,
        files,
        out: Piece::Nothing,
        notes: Text::Made(notes),
    })
}

/// The answer that a question was left open, with its formula and what was learned, where a choice was
/// found that matches: the file is printed with its changes, and its sites are reported with places in the
/// file.
pub fn found_open<'b>(
    alloc: Global,
    read: &ReadFile<'_, '_, '_>,
    choice: &Choice,
    budget: u32,
    bound: u32,
    cert: &str,
    circuit: &Circuit,
    journal: &Journal,
) -> Result<Found<'b>, AllocError>
    requires read { IsRead read.now.file.now (source_file read.now) read.now.list.now }
    requires few { length choice.now.picks.items < 2 ^ 32 }
    ensures files { IfOk result (λ found. (plain_answer found).files ≡ certificate_of cert.now circuit.now journal.now) }
    ensures printed { IfOk result (λ found. (plain_answer found).out ≡ printed_file read.now.file.now (source_file read.now) read.now.list.now choice.now.picks.items) }
    ensures tree { IfOk result (λ found. ExpandsTo (plain_answer found).out (printed_text (source_file read.now) read.now.list.now choice.now.picks.items) (instance_source read.now.list.now choice.now.picks.items (plain_source read.now.source.now))) }
    ensures notes { IfOk result (λ found. (plain_answer found).notes ≡ found_text budget bound (placed_tokens_of read.now.expanded.now.origins.items (length read.now.file.now) (lexemes read.now.tokens.now)) read.now.list.now choice.now.picks.items) }
    ensures status { IfOk result (λ found. (plain_answer found).status ≡ 2) }
{
    let files = certificate(alloc, cert, circuit, journal)?;
    let out = print_file(alloc, read, choice)?;
    let tokens = tokens_in_file(alloc, read)?;
    let notes = found_notes(alloc, tokens.as_slice(), read.list, choice, budget, bound)?;
    Ok(Found {
        status: 2,
        files,
        out: Piece::Made(out),
        notes: Text::Made(notes),
    })
}
