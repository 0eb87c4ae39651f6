//! The program: it runs the command of its arguments over real files, standard output and standard error.
#![tactic(auto)]

ghost use Rattle.std.specs.Process.{exit_status};
ghost use Rattle.rr_effects.specs.Outside.{outside};
ghost use Rattle.rr_top.specs.Execution.{execution};
ghost use Rattle.rtl_repair.specs.Ends.{EndsAsProgram};

use rr_edge::{FileShelf, OutSink, Shelf, Sink};
use rr_top::execute;
use std::alloc::{Alloc, Global};
use std::env;
use std::process::ExitCode;
use std::rt::Env;
use std::thread::Threads;

/// Runs the command that the program's arguments name, as `execute` does, and answers the exit code.
fn ended<R: Env + Alloc<A = Global> + Threads + Sync, H: Shelf, K: Sink, E: Sink>(
    rt: &R,
    shelf: &mut H,
    out: &mut K,
    notes: &mut E,
) -> ExitCode
    ensures { EndsAsProgram (λ words. execution words
        (outside (H.told shelf.old) (H.faults shelf.old) (K.written out.old) (K.faults out.old))
        (outside (H.told shelf.new) (H.faults shelf.new) (K.written out.new) (K.faults out.new))
        (E.written notes.old) (E.written notes.new) (E.faults notes.old) (E.faults notes.new) (exit_status result)) }
{
    let found = env::args(rt);
    execute(rt, rt.alloc(), found, shelf, out, notes)
}

fn main(rt: HostRuntime) -> ExitCode {
    let mut shelf = FileShelf::new(&rt);
    let mut out = OutSink::new(rt.stdout());
    let mut notes = OutSink::new(rt.stderr());
    ended(&rt, &mut shelf, &mut out, &mut notes)
}
