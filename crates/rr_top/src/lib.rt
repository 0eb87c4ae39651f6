//! The top call: it runs the command of a command line over a shelf of files, an output and a report.
//! It is right where the status, the bytes put out and the report are those that its files decide,
//! for each command. It stands on `rr_words` for the arguments, on `rr_effects` for the files, and on
//! one crate for each command: `rr_repair`, `rr_run`, `rr_sites_command`, `rr_check_certificate`, `rr_make` and
//! `rr_lint_file`.
#![tactic(auto)]

ghost use Rattle.std.specs.Prelude.{map, string_bytes};
ghost use Rattle.rr_words.specs.Plan.{plan_of};
ghost use Rattle.rr_endings.specs.Views.{report_text};
ghost use Rattle.rr_effects.specs.Outside.{outside};
ghost use Rattle.rr_top.specs.Commands.{InRange, command_of_plan};
ghost use Rattle.rr_top.specs.Endings.{CommandEnds};
ghost use Rattle.rr_top.specs.Execution.{Ends, execution, IsExecution};
ghost use Rattle.rr_top.specs.Views.{SaysWhy};
ghost use Rattle.rr_top.specs.Whole.{IsRightRun};

use bumpalo::Bump;
use rr_edge::{Shelf, Sink};
use rr_effects::put_report;
use rr_endings::{Report, no_usage, out_of_memory};
use rr_words::{Command, WordsFault, read_words};
use std::alloc::Global;
use std::thread::Threads;

mod args;
mod commands;
mod kinds;
mod laws;
mod program;
mod reads;

pub use args::arguments;
use commands::answer_files;
pub use laws::one_outcome;
pub use program::execute;
use reads::fetch_files;

/// Reads the files of the command, and carries its answer out. Names in a refusal live in the arena.
fn run_command<'a, R: Threads + Sync, H: Shelf, K: Sink>(
    rt: &R,
    alloc: Global,
    command: Command<'a>,
    arena: &'a Bump,
    shelf: &mut H,
    out: &mut K,
) -> Report<'a>
    requires { InRange (plan_of command) }
    ensures { CommandEnds (command_of_plan (plan_of command.entry))
        (outside (H.told shelf.old) (H.faults shelf.old) (K.written out.old) (K.faults out.old))
        (outside (H.told shelf.new) (H.faults shelf.new) (K.written out.new) (K.faults out.new))
        result.ending (report_text result) }
{
    match fetch_files(alloc, command, shelf) {
        Ok(files) => answer_files(rt, alloc, command, files, arena, shelf, out),
        Err(report) => report,
    }
}

/// What is said of arguments that name no command, or for which memory ran out.
fn unread<'a>(fault: WordsFault) -> Report<'a>
    ensures { SaysWhy fault result.ending (report_text result) }
{
    match fault {
        WordsFault::Usage => no_usage(),
        WordsFault::Memory => out_of_memory(0),
    }
}

/// How the command of these arguments ends.
fn attempt<'a, R: Threads + Sync, H: Shelf, K: Sink>(
    rt: &R,
    alloc: Global,
    arguments: &'a [String],
    arena: &'a Bump,
    shelf: &mut H,
    out: &mut K,
) -> Report<'a>
    ensures { Ends (map string_bytes arguments.entry.now)
        (outside (H.told shelf.old) (H.faults shelf.old) (K.written out.old) (K.faults out.old))
        (outside (H.told shelf.new) (H.faults shelf.new) (K.written out.new) (K.faults out.new))
        result.ending (report_text result) }
{
    let command = match read_words(alloc, arguments) {
        Ok(command) => command,
        Err(fault) => return unread(fault),
    };
    run_command(rt, alloc, command, arena, shelf, out)
}

/// Runs the command that the arguments name, and puts the report.
fn conduct<R: Threads + Sync, H: Shelf, K: Sink, E: Sink>(
    rt: &R,
    alloc: Global,
    arguments: &[String],
    shelf: &mut H,
    out: &mut K,
    notes: &mut E,
) -> u8
    ensures { IsExecution (execution (map string_bytes arguments.now)
        (outside (H.told shelf.old) (H.faults shelf.old) (K.written out.old) (K.faults out.old))
        (outside (H.told shelf.new) (H.faults shelf.new) (K.written out.new) (K.faults out.new))
        (E.written notes.old) (E.written notes.new) (E.faults notes.old) (E.faults notes.new) result) }
{
    let arena = Bump::new(alloc);
    let report = attempt(rt, alloc, arguments, &arena, shelf, out);
    put_report(&report, notes)
}

/// Runs the command that the arguments name, the first of which is the program's own name, over a shelf,
/// an output and a report, and answers the program's status: 0 done, 1 no repair or a certificate that
/// does not hold, 2 a repair that is left open, 3 refused input, 4 a fault or an absent name, 5 want of
/// memory, 6 usage. The output grows at no status but 0, 2 of `repair` where a choice was found that
/// matches, 1 of `check`, and 4 where a put on the output or on the report failed.
///
/// The commands are `repair DESIGN TABLE CERT`, `run DESIGN TABLE`, `sites DESIGN`,
/// `check CIRCUIT PROOF`, `make SEED CERT`, which reads nothing, and `lint DESIGN`. A TABLE whose name ends
/// with `.vcd` is read as a value change dump. The compiler directives of a DESIGN are expanded, and changes are made in
/// the file. Only `repair` and `make` write to the shelf: the files `CERT.aag`, `CERT.cnf` and `CERT.lrat`.
pub fn run<R: Threads + Sync, H: Shelf, K: Sink, E: Sink>(
    rt: &R,
    alloc: Global,
    arguments: &[String],
    shelf: &mut H,
    out: &mut K,
    notes: &mut E,
) -> u8
    ensures { IsRightRun (execution (map string_bytes arguments.now)
        (outside (H.told shelf.old) (H.faults shelf.old) (K.written out.old) (K.faults out.old))
        (outside (H.told shelf.new) (H.faults shelf.new) (K.written out.new) (K.faults out.new))
        (E.written notes.old) (E.written notes.new) (E.faults notes.old) (E.faults notes.new) result) }
{
    conduct(rt, alloc, arguments, shelf, out, notes)
}
