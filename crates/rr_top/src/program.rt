//! The program, from its arguments to its exit code.
ghost use Rattle.std.specs.Prelude.{List, ℕ, map};
ghost use Rattle.std.specs.Process.{exit_status};
ghost use Rattle.rr_effects.specs.Outside.{outside};
ghost use Rattle.rr_top.specs.Program.{IsProgram};
ghost use Rattle.rr_top.specs.Execution.{execution};

use crate::args::arguments;
use crate::run;
use rr_edge::{Shelf, Sink};
use rr_effects::put_report;
use std::alloc::Global;
use std::process::ExitCode;
use std::thread::Threads;
use std::{env, io};

/// Runs the command that the program's arguments name, and answers the status.
fn started<R: Threads + Sync, H: Shelf, K: Sink, E: Sink>(
    rt: &R,
    alloc: Global,
    found: io::Result<env::Args>,
    shelf: &mut H,
    out: &mut K,
    notes: &mut E,
) -> u8
    ensures { IsProgram found (λ words. execution words
        (outside (H.told shelf.old) (H.faults shelf.old) (K.written out.old) (K.faults out.old))
        (outside (H.told shelf.new) (H.faults shelf.new) (K.written out.new) (K.faults out.new))
        (E.written notes.old) (E.written notes.new) (E.faults notes.old) (E.faults notes.new) result) }
{
    match arguments(alloc, found) {
        Ok(words) => run(rt, alloc, &words, shelf, out, notes),
        Err(report) => put_report(&report, notes),
    }
}

/// Runs the command that the program's arguments name, as `run` does, and answers the exit code, which is
/// the status of that run. Where the arguments are not had, shelf and output stay, and it reports want of
/// memory, with 5, or usage, with 6.
pub fn execute<R: Threads + Sync, H: Shelf, K: Sink, E: Sink>(
    rt: &R,
    alloc: Global,
    found: io::Result<env::Args>,
    shelf: &mut H,
    out: &mut K,
    notes: &mut E,
) -> ExitCode
    ensures { IsProgram found (λ words. execution words
        (outside (H.told shelf.old) (H.faults shelf.old) (K.written out.old) (K.faults out.old))
        (outside (H.told shelf.new) (H.faults shelf.new) (K.written out.new) (K.faults out.new))
        (E.written notes.old) (E.written notes.new) (E.faults notes.old) (E.faults notes.new) (exit_status result)) }
{
    let status = started(rt, alloc, found, shelf, out, notes);
    ExitCode::from(status)
}
