//! The answers, from what the search found.
ghost use Rattle.std.specs.Prelude.{◌≡◌, ◌<◌, ◌^◌, [], IfOk, OnOk, length};
ghost use Rattle.rr_check_certificate.specs.Certificates.{IsJudged};
ghost use Rattle.rr_check.specs.declared.verdict.Verdict.TheVariants.{Accepted};
ghost use Rattle.rr_circuit.specs.Aag.{aag};
ghost use Rattle.rr_derive.specs.Derive.{Refutes};
ghost use Rattle.rr_derive.specs.Lrat.{AreWritable, lrat};
ghost use Rattle.rr_syntax.specs.View.{plain_source};
ghost use Rattle.rr_lex.specs.Tokens.{lexemes};
ghost use Rattle.rr_instance.specs.Instances.{instance_source};
ghost use Rattle.rr_kept.specs.Read.{IsRead};
ghost use Rattle.rr_map.specs.Printed.{printed_file, printed_text, ExpandsTo};
ghost use Rattle.rr_map.specs.Read.{source_file};
ghost use Rattle.rr_endings.specs.Views.{plain_answer};
ghost use Rattle.rr_run.specs.Files.{placed_tokens as placed_tokens_of};
ghost use Rattle.rr_tseitin.specs.Tseitin.{formula_of as tseitin};
ghost use Rattle.rr_repair_report.specs.Texts.{report as report_of};
ghost use Rattle.rr_repair_output.specs.Certified.{certificate as certificate_of};
ghost use Rattle.rr_repair_output.specs.Texts.{beyond_text, unchanged_text};

use crate::certifying::certificate;
use rr_choice::Choice;
use rr_circuit::Circuit;
use rr_derive::Journal;
use rr_endings::{Found, Piece, Text};
use rr_map::{ReadFile, print_file};
use rr_repair_report::report;
use rr_run::placed_tokens;
use rr_syntax::Token;
use std::alloc::{AllocError, Global};

/// The tokens of the expansion of a file, with their places in the file.
pub(crate) fn tokens_in_file<'s>(
    alloc: Global,
    read: &ReadFile<'_, 's, '_>,
) -> Result<Vec<Token<'s>>, AllocError>
    requires { length read.now.file.now < 2 ^ 32 }
    ensures { IfOk result (λ tokens. lexemes tokens.items ≡ placed_tokens_of read.now.expanded.now.origins.items (length read.now.file.now) (lexemes read.now.tokens.now)) }
{
    placed_tokens(alloc, read.expanded, read.file.len() as u32, read.tokens)
}

/// The answer that prints the file as it is.
pub fn unchanged(alloc: Global, bytes: &[u8]) -> Found<'_>
    ensures files { (plain_answer result).files ≡ [] }
    ensures printed { (plain_answer result).out ≡ bytes.entry.now }
    ensures notes { (plain_answer result).notes ≡ unchanged_text }
    ensures status { (plain_answer result).status ≡ 0 }
{
    Found {
        status: 0,
        files: Vec::new(alloc),
        out: Piece::Source(bytes),
        notes: Text::Fixed("unchanged\n"),
    }
}

/// The answer that prints the file with the changes of a choice, writes the certificate of fewer, and
/// reports how many proposals were tested, with places in the file. A check accepts the certificate where
/// the lines refute the circuit's formula.
pub fn repaired<'b>(
    alloc: Global,
    read: &ReadFile<'_, '_, '_>,
    choice: &Choice,
    cert: &str,
    circuit: &Circuit,
    journal: &Journal,
    proposals: u32,
) -> Result<Found<'b>, AllocError>
    requires read { IsRead read.now.file.now (source_file read.now) read.now.list.now }
    requires few { length choice.now.picks.items < 2 ^ 32 }
    ensures files { IfOk result (λ found. (plain_answer found).files ≡ certificate_of cert.now circuit.now journal.now) }
    ensures accepted { OnOk result (Refutes (tseitin circuit.now).clauses journal.now.lines → AreWritable (tseitin circuit.now) journal.now.lines → IsJudged (aag circuit.now) (lrat journal.now) Accepted) }
    ensures printed { IfOk result (λ found. (plain_answer found).out ≡ printed_file read.now.file.now (source_file read.now) read.now.list.now choice.now.picks.items) }
    ensures tree { IfOk result (λ found. ExpandsTo (plain_answer found).out (printed_text (source_file read.now) read.now.list.now choice.now.picks.items) (instance_source read.now.list.now choice.now.picks.items (plain_source read.now.source.now))) }
    ensures notes { IfOk result (λ found. (plain_answer found).notes ≡ report_of (placed_tokens_of read.now.expanded.now.origins.items (length read.now.file.now) (lexemes read.now.tokens.now)) read.now.list.now choice.now.picks.items proposals) }
    ensures status { IfOk result (λ found. (plain_answer found).status ≡ 0) }
{
    let files = certificate(alloc, cert, circuit, journal)?;
    let out = print_file(alloc, read, choice)?;
    let tokens = tokens_in_file(alloc, read)?;
    let notes = report(alloc, tokens.as_slice(), read.list, choice, proposals)?;
    Ok(Found {
        status: 0,
        files,
        out: Piece::Made(out),
        notes: Text::Made(notes),
    })
}

/// The answer that no choice among so many sites matches, with its certificate, which a check accepts where
/// the lines refute the circuit's formula.
pub fn beyond<'b>(
    alloc: Global,
    sites: usize,
    cert: &str,
    circuit: &Circuit,
    journal: &Journal,
) -> Result<Found<'b>, AllocError>
    ensures files { IfOk result (λ found. (plain_answer found).files ≡ certificate_of cert.now circuit.now journal.now) }
    ensures accepted { OnOk result (Refutes (tseitin circuit.now).clauses journal.now.lines → AreWritable (tseitin circuit.now) journal.now.lines → IsJudged (aag circuit.now) (lrat journal.now) Accepted) }
    ensures printed { IfOk result (λ found. (plain_answer found).out ≡ []) }
    ensures notes { IfOk result (λ found. (plain_answer found).notes ≡ beyond_text sites) }
    ensures status { IfOk result (λ found. (plain_answer found).status ≡ 1) }
{
    let files = certificate(alloc, cert, circuit, journal)?;
    let notes = format!(in alloc; "no repair\nsites {sites}\n")?;
    Ok(Found {
        status: 1,
        files,
        out: Piece::Nothing,
        notes: Text::Made(notes),
    })
}
