//! The commands: the answer of each for the files that it read, or why it has none.
ghost use Rattle.std.specs.Prelude.{◌≡◌, ◌≤◌, ℕ, List, [], ◌∷◌, IfOk, MatchResult, length};
ghost use Rattle.rr_words.specs.Plan.{Plan, plan_of, texts_of};
ghost use Rattle.rr_check_certificate.specs.Certificates.{IsFlawed};
ghost use Rattle.rr_repair.specs.Views.{plain_request};
ghost use Rattle.rr_endings.specs.Views.{plain_answer, report_text, StopsWhere};
ghost use Rattle.rr_effects.specs.Outside.{outside};
ghost use Rattle.rr_effects.specs.Reads.{Given};
ghost use Rattle.rr_effects.specs.Views.{contents};
ghost use Rattle.rr_top.specs.Commands.{AnswersCheck, AnswersLint, AnswersRun, AnswersSites, InRange, RefusesCertificate, RefusesLint, RefusesSiteList, RefusesTexts, TellsVerdict, WhereOne, WhereTwo, check_command, command_of_plan, lint_command, make_command, repair_command, run_command, sites_command};
ghost use Rattle.rr_top.specs.Endings.{CommandEnds};
ghost use Rattle.rr_top.specs.Views.{Gives};

use crate::kinds::kind_of;
use bumpalo::Bump;
use rr_check_certificate::{CertificateFault, Verdict, judge, verdict_text};
use rr_edge::{Shelf, Sink};
use rr_effects::deliver;
use rr_endings::{Found, Piece, Refusal, Report, Stop, Text, stop_of, stopped};
use rr_lint_file::mend_file;
use rr_make::make;
use rr_repair::{Request, repair};
use rr_run::{TableKind, run_files};
use rr_sites_command::list_sites;
use rr_words::Command;
use std::alloc::{AllocError, Global};
use std::thread::Threads;

/// The bytes of two files.
fn both(files: &[Vec<u8>]) -> (&[u8], &[u8])
    requires { length files.now ≡ 2 }
    ensures { contents files.now ≡ result.0.now ∷ (result.1.now ∷ []) }
{
    (files[0].as_slice(), files[1].as_slice())
}

/// Two files, each by itself.
fn into_both(files: Vec<Vec<u8>>) -> (Vec<u8>, Vec<u8>)
    requires { length files.items ≡ 2 }
    ensures { contents files.items ≡ result.0.items ∷ (result.1.items ∷ []) }
{
    let mut files = files;
    let second = files.swap_remove(1);
    let first = files.swap_remove(0);
    (first, second)
}

/// The answer of `repair` for a design and its table. Names in a refusal live in the arena.
fn repair_files<'b, 'a, R: Threads + Sync>(
    rt: &R,
    alloc: Global,
    files: &'b [Vec<u8>],
    request: &Request<'_>,
    arena: &'a Bump,
) -> Result<Found<'b>, Stop<'a>>
    requires within { WhereTwo (contents files.now) (λ design table. length design ≤ 1048576) }
    requires some { 1 ≤ request.now.members }
    requires most { request.now.members ≤ 8 }
    requires budget { 1 ≤ request.now.budget }
    ensures { (design table : List ℕ) → Gives (repair_command design table (plain_request request.now)) (contents files.entry.now) result }
{
    let (design, table) = both(files);
    repair(rt, alloc, design, table, request, arena)
}

/// The answer of `run` for the bytes of a design, whose directives are expanded, and of its table, which
/// is of this kind.
fn simulate<'b, 'a>(
    alloc: Global,
    design: &[u8],
    kind: TableKind,
    table: &[u8],
    top: Option<&str>,
    clock: Option<&str>,
    arena: &'a Bump,
) -> Result<Found<'b>, Stop<'a>>
    requires { length design.now ≤ 1048576 }
    ensures { MatchResult result
        (λ found. AnswersRun kind (texts_of top.entry) (texts_of clock.entry) design.now table.now (plain_answer found))
        (StopsWhere (RefusesTexts kind (texts_of top.entry) (texts_of clock.entry) design.now table.now)) }
{
    match run_files(alloc, design, kind, table, top, clock, arena) {
        Ok(text) => Ok(Found {
            status: 0,
            files: Vec::new(alloc),
            out: Piece::Made(text),
            notes: Text::Fixed(""),
        }),
        Err(fault) => Err(stop_of(fault)),
    }
}

/// The answer of `run` for a design and its table of this name. Names in a refusal live in the arena.
fn simulate_files<'b, 'a>(
    alloc: Global,
    files: &[Vec<u8>],
    table_name: &str,
    top: Option<&str>,
    clock: Option<&str>,
    arena: &'a Bump,
) -> Result<Found<'b>, Stop<'a>>
    requires { WhereTwo (contents files.now) (λ design table. length design ≤ 1048576) }
    ensures { (design : List ℕ) → Gives (run_command design table_name.now (texts_of top.entry) (texts_of clock.entry)) (contents files.now) result }
{
    let (design, table) = both(files);
    let kind = kind_of(table_name);
    simulate(alloc, design, kind, table, top, clock, arena)
}

/// The bytes of one file.
fn only(files: &[Vec<u8>]) -> &[u8]
    requires { length files.now ≡ 1 }
    ensures { contents files.now ≡ result.now ∷ [] }
{
    files[0].as_slice()
}

/// The answer of `sites` for the bytes of a design.
fn list<'b, 'a>(
    alloc: Global,
    design: &[u8],
    top: Option<&str>,
    clock: Option<&str>,
    arena: &'a Bump,
) -> Result<Found<'b>, Stop<'a>>
    requires { length design.now ≤ 1048576 }
    ensures { MatchResult result
        (λ found. AnswersSites (texts_of top.entry) (texts_of clock.entry) design.now (plain_answer found))
        (StopsWhere (RefusesSiteList (texts_of top.entry) (texts_of clock.entry) design.now)) }
{
    match list_sites(alloc, design, top, clock, arena) {
        Ok(text) => Ok(Found {
            status: 0,
            files: Vec::new(alloc),
            out: Piece::Made(text),
            notes: Text::Fixed(""),
        }),
        Err(fault) => Err(stop_of(fault)),
    }
}

/// The answer of `sites` for a design.
fn list_files<'b, 'a>(
    alloc: Global,
    files: &[Vec<u8>],
    top: Option<&str>,
    clock: Option<&str>,
    arena: &'a Bump,
) -> Result<Found<'b>, Stop<'a>>
    requires { WhereOne (contents files.now) (λ design. length design ≤ 1048576) }
    ensures { (design : List ℕ) → Gives (sites_command design (texts_of top.entry) (texts_of clock.entry)) (contents files.now) result }
{
    list(alloc, only(files), top, clock, arena)
}

/// The answer of `lint` for the bytes of a design.
fn mend<'b, 'a>(
    alloc: Global,
    design: &[u8],
    top: Option<&str>,
    arena: &'a Bump,
) -> Result<Found<'b>, Stop<'a>>
    requires { length design.now ≤ 1048576 }
    ensures { MatchResult result (λ found. AnswersLint (texts_of top.entry) design.now (plain_answer found)) (StopsWhere (RefusesLint (texts_of top.entry) design.now)) }
{
    match mend_file(alloc, design, top, arena) {
        Ok(text) => Ok(Found {
            status: 0,
            files: Vec::new(alloc),
            out: Piece::Made(text),
            notes: Text::Fixed(""),
        }),
        Err(fault) => Err(stop_of(fault)),
    }
}

/// The answer of `lint` for a design.
fn lint_files<'b, 'a>(
    alloc: Global,
    files: &[Vec<u8>],
    top: Option<&str>,
    arena: &'a Bump,
) -> Result<Found<'b>, Stop<'a>>
    requires { WhereOne (contents files.now) (λ design. length design ≤ 1048576) }
    ensures { (design : List ℕ) → Gives (lint_command design (texts_of top.entry)) (contents files.now) result }
{
    mend(alloc, only(files), top, arena)
}

/// The answer that prints a verdict.
fn told<'b>(alloc: Global, verdict: Verdict) -> Result<Found<'b>, AllocError>
    ensures { IfOk result (λ found. TellsVerdict verdict (plain_answer found)) }
{
    let status = match verdict {
        Verdict::Accepted => 0,
        Verdict::Line(_) | Verdict::NoEmptyClause => 1,
    };
    let text = verdict_text(alloc, verdict)?;
    Ok(Found {
        status,
        files: Vec::new(alloc),
        out: Piece::Told(Text::Made(text)),
        notes: Text::Fixed(""),
    })
}

/// The first bad line of a certificate, or want of memory.
fn stop_of_certificate<'a>(fault: CertificateFault) -> Stop<'a>
    ensures { (circuit proof : List ℕ) → IsFlawed circuit proof fault → StopsWhere (RefusesCertificate circuit proof) result }
{
    match fault {
        CertificateFault::Flawed(flaw, line) => Stop::Refused(Refusal::Flawed(flaw, line)),
        CertificateFault::Memory => Stop::Memory,
    }
}

/// The answer of `check` for the bytes of a circuit and of its proof, which are let go.
fn certify<'b, 'a, R: Threads + Sync>(
    rt: &R,
    alloc: Global,
    circuit: Vec<u8>,
    proof: Vec<u8>,
) -> Result<Found<'b>, Stop<'a>>
    requires { length circuit.items ≤ 268435456 }
    ensures { MatchResult result (λ found. AnswersCheck circuit.items proof.items (plain_answer found)) (StopsWhere (RefusesCertificate circuit.items proof.items)) }
{
    let verdict = match judge(rt, alloc, circuit, proof) {
        Ok(verdict) => verdict,
        Err(fault) => return Err(stop_of_certificate(fault)),
    };
    match told(alloc, verdict) {
        Ok(found) => Ok(found),
        Err(_) => Err(Stop::Memory),
    }
}

/// The answer of `check` for a circuit and its proof, which are let go.
fn certify_files<'b, 'a, R: Threads + Sync>(
    rt: &R,
    alloc: Global,
    files: Vec<Vec<u8>>,
) -> Result<Found<'b>, Stop<'a>>
    requires { WhereTwo (contents files.items) (λ circuit proof. length circuit ≤ 268435456) }
    ensures { (circuit proof : List ℕ) → Gives (check_command circuit proof) (contents files.items) result }
{
    let (circuit, proof) = into_both(files);
    certify(rt, alloc, circuit, proof)
}

/// The answer of `make`, which has no files. Names in a refusal live in the arena.
fn make_files<'b, 'a, R: Threads + Sync>(
    rt: &R,
    alloc: Global,
    seed: u64,
    cert: &str,
    arena: &'a Bump,
) -> Result<Found<'b>, Stop<'a>>
    ensures { (files : List (List ℕ)) → Gives (make_command seed cert.now) files result }
{
    make(rt, alloc, seed, cert, arena)
}

/// Carries an answer out, but for its report; or reports why there is none.
fn conclude<'a, H: Shelf, K: Sink>(
    alloc: Global,
    answer: Result<Found<'_>, Stop<'a>>,
    shelf: &mut H,
    out: &mut K,
) -> Report<'a>
    ensures { (plan : Plan) (files : List (List ℕ)) → Given (H.told shelf.old) (command_of_plan plan).reads files → Gives (command_of_plan plan) files answer.entry
        → CommandEnds (command_of_plan plan)
        (outside (H.told shelf.old) (H.faults shelf.old) (K.written out.old) (K.faults out.old))
        (outside (H.told shelf.new) (H.faults shelf.new) (K.written out.new) (K.faults out.new))
        result.ending (report_text result) }
{
    match answer {
        Ok(found) => deliver(found, shelf, out),
        Err(stop) => stopped(alloc, stop),
    }
}

/// How the command ends, once its files are read.
pub(crate) fn answer_files<'a, R: Threads + Sync, H: Shelf, K: Sink>(
    rt: &R,
    alloc: Global,
    command: Command<'a>,
    files: Vec<Vec<u8>>,
    arena: &'a Bump,
    shelf: &mut H,
    out: &mut K,
) -> Report<'a>
    requires given { Given (H.told shelf.old) (command_of_plan (plan_of command)).reads (contents files.items) }
    requires range { InRange (plan_of command) }
    ensures { CommandEnds (command_of_plan (plan_of command.entry))
        (outside (H.told shelf.old) (H.faults shelf.old) (K.written out.old) (K.faults out.old))
        (outside (H.told shelf.new) (H.faults shelf.new) (K.written out.new) (K.faults out.new))
        result.ending (report_text result) }
{
    match command {
        Command::Repair {
            table,
            cert,
            top,
            clock,
            budget,
            members,
            ..
        } => {
            let request = Request {
                kind: kind_of(table),
                top,
                clock,
                cert,
                budget,
                members,
            };
            let answer = repair_files(rt, alloc, &files, &request, arena);
            conclude(alloc, answer, shelf, out)
        }
        Command::Run {
            table,
            top,
            clock,
            ..
        } => {
            let answer = simulate_files(alloc, &files, table, top, clock, arena);
            conclude(alloc, answer, shelf, out)
        }
        Command::Check { .. } => {
            let answer = certify_files(rt, alloc, files);
            conclude(alloc, answer, shelf, out)
        }
        Command::Sites { top, clock, .. } => {
            let answer = list_files(alloc, &files, top, clock, arena);
            conclude(alloc, answer, shelf, out)
        }
        Command::Make { seed, cert } => {
            let answer = make_files(rt, alloc, seed, cert, arena);
            conclude(alloc, answer, shelf, out)
        }
        Command::Lint { top, .. } => {
            let answer = lint_files(alloc, &files, top, arena);
            conclude(alloc, answer, shelf, out)
        }
    }
}
