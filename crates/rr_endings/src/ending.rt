//! How a run ends, with the status and the text that say so.
ghost use Rattle.std.specs.Prelude.{◌≡◌, IfOk, string_bytes};
ghost use Rattle.rr_words.specs.Usage.{usage_text};
ghost use Rattle.rr_endings.specs.Endings.{status_of};
ghost use Rattle.rr_endings.specs.Refusals.{plain_refusal};
ghost use Rattle.rr_endings.specs.Texts.{absent_text, memory_text, out_fault_text, read_fault_text, refused_text};
ghost use Rattle.rr_endings.specs.Views.{IsRefusedOrNoMemory, Says, Stops};

use crate::refusal::{Refusal, Stop};
use crate::text::Text;
use std::alloc::{AllocError, Global};

/// How a run ends. Files are counted from 0.
#[derive(Clone, Copy, Debug, PartialEq, Eq)]
pub enum Ending<'a> {
    /// The words name no command.
    Usage,
    /// Memory ran out once so many files were written.
    NoMemory(usize),
    /// The shelf holds nothing under this name.
    Absent(&'a str),
    /// Reading this name failed.
    ReadFault(&'a str),
    /// Writing the file with this number failed.
    WriteFault(usize),
    /// The put on standard output failed.
    OutFault,
    /// The input is refused.
    Refused(Refusal<'a>),
    /// The answer was carried out, and has this status.
    Done(u8),
}

/// The status of an ending: 6 usage, 5 want of memory, 4 a fault or an absent name, 3 a refusal, else
/// that of the answer.
pub fn status(ending: Ending<'_>) -> u8
    ensures { result ≡ status_of ending.entry }
{
    match ending {
        Ending::Usage => 6,
        Ending::NoMemory(_) => 5,
        Ending::Absent(_) | Ending::ReadFault(_) | Ending::WriteFault(_) | Ending::OutFault => 4,
        Ending::Refused(_) => 3,
        Ending::Done(status) => status,
    }
}

/// An ending with the text on standard error that reports it.
#[derive(Drop)]
pub struct Report<'a> {
    pub ending: Ending<'a>,
    pub text: Text,
}

/// The words name no command.
pub fn no_usage<'a>() -> Report<'a>
    ensures { Says result Ending.Usage usage_text }
{
    Report {
        ending: Ending::Usage,
        text: Text::Fixed(rr_words::usage()),
    }
}

/// Memory ran out once so many files were written.
pub fn out_of_memory<'a>(written: usize) -> Report<'a>
    ensures { Says result (Ending.NoMemory written) memory_text }
{
    Report {
        ending: Ending::NoMemory(written),
        text: Text::Fixed("out of memory\n"),
    }
}

/// The shelf holds nothing under the name.
pub fn absent<'a>(alloc: Global, name: &'a str) -> Result<Report<'a>, AllocError>
    ensures { IfOk result (λ report. Says report (Ending.Absent name.entry) (absent_text name.entry.now)) }
{
    let text = format!(in alloc; "absent {name}\n")?;
    Ok(Report {
        ending: Ending::Absent(name),
        text: Text::Made(text),
    })
}

/// Reading the name failed.
pub fn read_fault<'a>(alloc: Global, name: &'a str) -> Result<Report<'a>, AllocError>
    ensures { IfOk result (λ report. Says report (Ending.ReadFault name.entry) (read_fault_text name.entry.now)) }
{
    let text = format!(in alloc; "fault read {name}\n")?;
    Ok(Report {
        ending: Ending::ReadFault(name),
        text: Text::Made(text),
    })
}

/// The put on standard output failed.
pub fn out_fault<'a>() -> Report<'a>
    ensures { Says result Ending.OutFault out_fault_text }
{
    Report {
        ending: Ending::OutFault,
        text: Text::Fixed("fault out\n"),
    }
}

fn refused_text(alloc: Global, refusal: Refusal<'_>) -> Result<String, AllocError>
    ensures { IfOk result (λ text. string_bytes text ≡ refused_text (plain_refusal refusal.entry)) }
{
    format!(in alloc; "refused {refusal}\n")
}

/// The input is refused; or memory ran out for the text that says so.
pub fn refused<'a>(alloc: Global, refusal: Refusal<'a>) -> Report<'a>
    ensures { IsRefusedOrNoMemory refusal.entry result }
{
    match refused_text(alloc, refusal) {
        Ok(text) => Report {
            ending: Ending::Refused(refusal),
            text: Text::Made(text),
        },
        Err(_) => out_of_memory(0),
    }
}

/// Why a command has no answer.
pub fn stopped<'a>(alloc: Global, stop: Stop<'a>) -> Report<'a>
    ensures { Stops stop.entry result }
{
    match stop {
        Stop::Memory => out_of_memory(0),
        Stop::Refused(refusal) => refused(alloc, refusal),
    }
}
