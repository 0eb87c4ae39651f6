//! The answer for a design and its table.
ghost use Rattle.std.specs.Prelude.{◌≡◌, ◌<◌, ◌≤◌, ◌^◌, ℕ, List, IfOk, MatchResult, length};
ghost use Rattle.rr_syntax.specs.Items.{FitLiteralsSource};
ghost use Rattle.rr_syntax.specs.View.{plain_source};
ghost use Rattle.rr_lex.specs.Tokens.{lexemes};
ghost use Rattle.rr_flat.specs.View.{plain_flat};
ghost use Rattle.rr_clock.specs.Clock.{IsClockInput};
ghost use Rattle.rr_flat.specs.Clocks.{OneClock};
ghost use Rattle.rr_directive.specs.Expand.{IsTaken as IsExpanded};
ghost use Rattle.rr_elaborate.specs.Designs.{IsDesignOf};
ghost use Rattle.rr_blast.specs.Circuits.{FitsArguments};
ghost use Rattle.rr_transition.specs.Cycles.{Cycle, Design};
ghost use Rattle.rr_search.specs.Answers.{AnswerIs, IsLeftOpen, task_of};
ghost use Rattle.rr_kept.specs.Read.{IsRead};
ghost use Rattle.rr_sites_command.specs.View.{source_file};
ghost use Rattle.rr_run.specs.Rows.{ReadsTable};
ghost use Rattle.rr_run.specs.Runs.{InOrder};
ghost use Rattle.rr_trace.specs.View.{plain_table};
ghost use Rattle.rr_endings.specs.Views.{plain_answer, StopsWhere};
ghost use Rattle.rr_repair.specs.Repairs.{AnswersRepair, CountsRepair, IsAnswer, IsCounted, IsOpen, IsSited, RefusesRepair, design_of};
ghost use Rattle.rr_repair.specs.Views.{answer_status, plain_counts, plain_request};

use crate::counted::{Counted, with_counts};
use crate::request::Request;
use crate::working::{count_row, work_of};
use bumpalo::Bump;
use rr_blast::transition;
use rr_choice::{Choice, SiteList};
use rr_circuit::Circuit;
use rr_derive::Journal;
use rr_endings::{Found, Refusal, Stop, stop_of};
use rr_map::ReadFile;
use rr_plainer::Near;
use rr_registers::register_bits;
use rr_repair_output::{beyond, found_open, left_open, repaired, unchanged};
use rr_run::{FileDesign, LawfulDesign, Limit, Refusal as RunRefusal, file_design, read_rows};
use rr_search::{Answer, Job, least};
use rr_sites_command::file_sites;
use rr_trace::Table;
use rr_transition::Transition;
use rr_window::proposals;
use std::alloc::{AllocError, Global};
use std::thread::Threads;

/// The most sites of a design.
const SITE_LIMIT: usize = 1024;

/// The most work of a search.
const WORK_LIMIT: u64 = 262144;

/// The circuit of one cycle of a design with at most 1,024 sites. A cycle of 2^32 bits or more is want of
/// memory.
fn cycle_of(
    alloc: Global,
    design: &LawfulDesign<'_>,
    list: &SiteList<'_>,
) -> Result<Transition, AllocError>
    requires fits { (j : Design) × FitsArguments j (plain_flat design.now.flat) design.now.order.clock design.now.order.rising design.now.order.steps.items list.now }
    requires few { length list.now ≤ 1024 }
    ensures { IfOk result (λ t. (j : Design) → FitsArguments j (plain_flat design.now.flat) design.now.order.clock design.now.order.rising design.now.order.steps.items list.now → Cycle j list.now t) }
{
    // The list keeps that a site has few names and at most 128 bits, so few bits of a choice.
    list.sites();
    let registers = register_bits(alloc, &design.flat)?;
    let ids = design.flat.row_inputs(alloc, design.order.clock)?;
    let row = count_row(&design.flat, ids.as_slice());
    let kept = registers.as_slice();
    let state = kept.len() as u64;
    let choice = u64::from(list.bits());
    if choice.saturating_add(state).saturating_add(row) >= 1 << 32 {
        return Err(AllocError);
    }
    let cycle = transition(alloc, &design.flat, &design.order, list)?;
    Ok(cycle)
}

/// What is to be done where so many changes are left open: the file is printed with the choice that was
/// found to match, or nothing is printed where none was.
fn told_open<'b>(
    alloc: Global,
    bytes: &[u8],
    file: &FileDesign<'_>,
    job: &Job<'_>,
    request: &Request<'_>,
    bound: u32,
    circuit: &Circuit,
    journal: &Journal,
    found: &Option<Choice>,
) -> Result<Found<'b>, AllocError>
    requires read { IsRead bytes.now (source_file file.now) job.now.list.now }
    requires few { length job.now.list.now ≤ 1024 }
    requires members { job.now.members ≡ request.now.members }
    requires budget { job.now.budget ≡ request.now.budget }
    requires left { IsLeftOpen (design_of (plain_request request.now) (plain_source file.now.design.source.now)) (task_of job.now) bound circuit.now journal.now.lines found.now }
    ensures answer { IfOk result (λ found. IsOpen (plain_request request.now) bytes.entry.now (source_file file.now) job.now.list.now (plain_table job.now.table.now) (plain_answer found)) }
    ensures status { IfOk result (λ found. found.status ≡ 2) }
{
    let budget = request.budget;
    let cert = request.cert;
    match found {
        Some(choice) => {
            let read = ReadFile {
                file: bytes,
                expanded: &file.expanded,
                tokens: file.design.tokens,
                source: file.design.source,
                list: job.list,
            };
            let told = found_open(alloc, &read, choice, budget, bound, cert, circuit, journal)?;
            Ok(told)
        }
        None => {
            let told = left_open(alloc, budget, bound, cert, circuit, journal)?;
            Ok(told)
        }
    }
}

/// The answer of a search over the sites of a file, carried into what is to be done; so many proposals were
/// tested.
fn told<'b>(
    alloc: Global,
    bytes: &'b [u8],
    file: &FileDesign<'_>,
    job: &Job<'_>,
    request: &Request<'_>,
    tested: u32,
    answer: &Answer,
) -> Result<Found<'b>, AllocError>
    requires read { IsRead bytes.now (source_file file.now) job.now.list.now }
    requires few { length job.now.list.now ≤ 1024 }
    requires members { job.now.members ≡ request.now.members }
    requires budget { job.now.budget ≡ request.now.budget }
    requires found { AnswerIs (task_of job.now) (design_of (plain_request request.now) (plain_source file.now.design.source.now)) answer.now }
    ensures answer { IfOk result (λ found. IsAnswer (plain_request request.now) bytes.entry.now (source_file file.now) job.now.list.now (plain_table job.now.table.now) (plain_answer found)) }
    ensures status { IfOk result (λ found. found.status ≡ answer_status answer.now) }
{
    match answer {
        Answer::Unchanged => Ok(unchanged(alloc, bytes)),
        Answer::Repair {
            choice,
            circuit,
            journal,
            ..
        } => {
            let cert = request.cert;
            let read = ReadFile {
                file: bytes,
                expanded: &file.expanded,
                tokens: file.design.tokens,
                source: file.design.source,
                list: job.list,
            };
            let found = repaired(alloc, &read, choice, cert, circuit, journal, tested)?;
            Ok(found)
        }
        Answer::NoRepair { circuit, journal } => {
            let sites = job.list.sites().len();
            let found = beyond(alloc, sites, request.cert, circuit, journal)?;
            Ok(found)
        }
        Answer::Spent {
            bound,
            circuit,
            journal,
            found,
        } => told_open(
            alloc, bytes, file, job, request, *bound, circuit, journal, found,
        ),
    }
}

/// The answer for the lawful design of a file, its kept sites and the rows of its table.
fn searched<'b, R: Threads + Sync>(
    rt: &R,
    alloc: Global,
    bytes: &'b [u8],
    file: &FileDesign<'_>,
    list: &SiteList<'_>,
    rows: &Table,
    request: &Request<'_>,
) -> Result<Counted<'b>, AllocError>
    requires given { IsRead bytes.now (source_file file.now) list.now }
    requires few { length list.now ≤ 1024 }
    requires some { 1 ≤ request.now.members }
    requires most { request.now.members ≤ 8 }
    requires budget { 1 ≤ request.now.budget }
    requires fits { FitsArguments (design_of (plain_request request.now) (plain_source file.now.design.source.now)) (plain_flat file.now.design.flat) file.now.design.order.clock file.now.design.order.rising file.now.design.order.steps.items list.now }
    requires read { (table : List ℕ) × (ReadsTable request.now.kind (plain_flat file.now.design.flat) file.now.design.order.clock file.now.design.order.rising table (plain_table rows.now)) }
    ensures { IfOk result (λ c. IsCounted (plain_request request.now) bytes.entry.now (source_file file.now) list.now (plain_table rows.now) (plain_answer c.found) (plain_counts c)) }
{
    let cycle = cycle_of(alloc, &file.design, list)?;
    let job = Job {
        list,
        transition: &cycle,
        table: rows,
        budget: request.budget,
        members: request.members,
    };
    let near = Near::of(alloc, file.design.tokens, list)?;
    let proposed = proposals(rt, alloc, &cycle, rows, list, &near, request.budget)?;
    let answer = least(rt, alloc, &job, proposed.as_slice())?;
    let tested = proposed.len().min(u32::MAX as usize) as u32;
    let found = told(alloc, bytes, file, &job, request, tested, &answer)?;
    Ok(with_counts(found, job.table, job.list, &answer))
}

/// The answer for the lawful design of a file, its kept sites and the rows of its table, or that the work is
/// too much.
fn judge_rows<'b, 'a, R: Threads + Sync>(
    rt: &R,
    alloc: Global,
    bytes: &'b [u8],
    file: &FileDesign<'a>,
    list: &SiteList<'_>,
    rows: &Table,
    request: &Request<'_>,
) -> Result<Counted<'b>, Stop<'a>>
    requires given { IsRead bytes.now (source_file file.now) list.now }
    requires few { length list.now ≤ 1024 }
    requires some { 1 ≤ request.now.members }
    requires most { request.now.members ≤ 8 }
    requires budget { 1 ≤ request.now.budget }
    requires fits { FitsArguments (design_of (plain_request request.now) (plain_source file.now.design.source.now)) (plain_flat file.now.design.flat) file.now.design.order.clock file.now.design.order.rising file.now.design.order.steps.items list.now }
    requires read { (table : List ℕ) × (ReadsTable request.now.kind (plain_flat file.now.design.flat) file.now.design.order.clock file.now.design.order.rising table (plain_table rows.now)) }
    ensures { (table : List ℕ) → IsSited (plain_request request.now) bytes.entry.now (source_file file.now) (plain_flat file.now.design.flat) file.now.design.order.clock file.now.design.order.rising list.now
        → ReadsTable request.now.kind (plain_flat file.now.design.flat) file.now.design.order.clock file.now.design.order.rising table (plain_table rows.now)
        → MatchResult result (λ c. CountsRepair (plain_request request.now) bytes.entry.now table (plain_answer c.found) (plain_counts c)) (StopsWhere (RefusesRepair (plain_request request.now) bytes.entry.now table)) }
{
    let work = work_of(&file.design.flat, rows);
    if work > WORK_LIMIT {
        let refusal = RunRefusal::TooMany(Limit::Work, work);
        return Err(Stop::Refused(Refusal::Input(refusal)));
    }
    match searched(rt, alloc, bytes, file, list, rows, request) {
        Ok(counted) => Ok(counted),
        Err(_) => Err(Stop::Memory),
    }
}

/// The answer for the lawful design of a file, its kept sites and the bytes of its table.
fn judge_table<'b, 'a, R: Threads + Sync>(
    rt: &R,
    alloc: Global,
    bytes: &'b [u8],
    file: &FileDesign<'a>,
    list: &SiteList<'_>,
    table: &[u8],
    request: &Request<'_>,
) -> Result<Counted<'b>, Stop<'a>>
    requires given { IsRead bytes.now (source_file file.now) list.now }
    requires few { length list.now ≤ 1024 }
    requires some { 1 ≤ request.now.members }
    requires most { request.now.members ≤ 8 }
    requires budget { 1 ≤ request.now.budget }
    requires fits { FitsArguments (design_of (plain_request request.now) (plain_source file.now.design.source.now)) (plain_flat file.now.design.flat) file.now.design.order.clock file.now.design.order.rising file.now.design.order.steps.items list.now }
    ensures { IsSited (plain_request request.now) bytes.entry.now (source_file file.now) (plain_flat file.now.design.flat) file.now.design.order.clock file.now.design.order.rising list.now
        → MatchResult result (λ c. CountsRepair (plain_request request.now) bytes.entry.now table.now (plain_answer c.found) (plain_counts c)) (StopsWhere (RefusesRepair (plain_request request.now) bytes.entry.now table.now)) }
{
    match read_rows(alloc, &file.design, request.kind, table) {
        Ok(rows) => judge_rows(rt, alloc, bytes, file, list, &rows, request),
        Err(fault) => Err(stop_of(fault)),
    }
}

/// The answer for the lawful design of a file and the bytes of its table, or that too many sites are kept.
fn judge_sites<'b, 'a, R: Threads + Sync>(
    rt: &R,
    alloc: Global,
    bytes: &'b [u8],
    file: &FileDesign<'a>,
    table: &[u8],
    request: &Request<'_>,
    arena: &'a Bump,
) -> Result<Counted<'b>, Stop<'a>>
    requires small { length bytes.now < 2 ^ 32 }
    requires expansion { IsExpanded bytes.now file.now.expanded.text.items file.now.expanded.origins.items }
    requires text { length file.now.expanded.text.items ≤ 1048576 }
    requires tree { IsDesignOf file.now.expanded.text.items (lexemes file.now.design.tokens.now) (plain_source file.now.design.source.now) (plain_request request.now).top (plain_flat file.now.design.flat) }
    requires input { IsClockInput (plain_flat file.now.design.flat) file.now.design.order.clock }
    requires fit { FitLiteralsSource (plain_source file.now.design.source.now) }
    requires few { length file.now.design.tokens.now < 2 ^ 32 }
    requires ordered { InOrder file.now.design.flat file.now.design.order (plain_request request.now).clock }
    requires some { 1 ≤ request.now.members }
    requires most { request.now.members ≤ 8 }
    requires budget { 1 ≤ request.now.budget }
    ensures { OneClock (plain_flat file.now.design.flat) (plain_request request.now).clock file.now.design.order.clock file.now.design.order.rising
        → MatchResult result (λ c. CountsRepair (plain_request request.now) bytes.entry.now table.now (plain_answer c.found) (plain_counts c)) (StopsWhere (RefusesRepair (plain_request request.now) bytes.entry.now table.now)) }
{
    let list = match file_sites(alloc, file, arena) {
        Ok(list) => list,
        Err(_) => return Err(Stop::Memory),
    };
    let count = list.sites().len();
    if count > SITE_LIMIT {
        let refusal = RunRefusal::TooMany(Limit::Sites, count as u64);
        return Err(Stop::Refused(Refusal::Input(refusal)));
    }
    judge_table(rt, alloc, bytes, file, &list, table, request)
}

/// The repair of a design of at most 1,048,576 bytes by its table: what is to be printed, reported and
/// written, the rows of the table and the sites of the design, and, where the status is 0, the least number
/// of changes. Its directives are expanded, and the
/// changes are made in the file. Else the first refusal: of the directives (38 to 40 and 16), of the design
/// (1 to 25, 37), that more than 1,024 of its sites can be changed in the file (16), of the table (33, 26 to 32
/// and 16, or of a dump 41, 42 and 16), and that the rows times the bits of all signals are more than
/// 262,144 (16). Names in a refusal live in the arena.
pub fn repair_counted<'b, 'a, R: Threads + Sync>(
    rt: &R,
    alloc: Global,
    design: &'b [u8],
    table: &[u8],
    request: &Request<'_>,
    arena: &'a Bump,
) -> Result<Counted<'b>, Stop<'a>>
    requires small { length design.now ≤ 1048576 }
    requires some { 1 ≤ request.now.members }
    requires most { request.now.members ≤ 8 }
    requires budget { 1 ≤ request.now.budget }
    ensures { MatchResult result
        (λ c. CountsRepair (plain_request request.now) design.entry.now table.now (plain_answer c.found) (plain_counts c))
        (StopsWhere (RefusesRepair (plain_request request.now) design.entry.now table.now)) }
{
    match file_design(alloc, design, request.top, request.clock, arena) {
        Ok(file) => judge_sites(rt, alloc, design, &file, table, request, arena),
        Err(fault) => Err(stop_of(fault)),
    }
}

/// The repair of a design of at most 1,048,576 bytes by its table: what is to be printed, reported and
/// written; or the first refusal, as `repair_counted` tells them.
pub fn repair<'b, 'a, R: Threads + Sync>(
    rt: &R,
    alloc: Global,
    design: &'b [u8],
    table: &[u8],
    request: &Request<'_>,
    arena: &'a Bump,
) -> Result<Found<'b>, Stop<'a>>
    requires small { length design.now ≤ 1048576 }
    requires some { 1 ≤ request.now.members }
    requires most { request.now.members ≤ 8 }
    requires budget { 1 ≤ request.now.budget }
    ensures { MatchResult result
        (λ found. AnswersRepair (plain_request request.now) design.entry.now table.now (plain_answer found))
        (StopsWhere (RefusesRepair (plain_request request.now) design.entry.now table.now)) }
{
    match repair_counted(rt, alloc, design, table, request, arena) {
        Ok(counted) => Ok(counted.found),
        Err(stop) => Err(stop),
    }
}
