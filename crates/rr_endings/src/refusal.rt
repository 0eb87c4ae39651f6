//! Why the input is refused.
ghost use Rattle.std.specs.Prelude.{◌≡◌};
ghost use Rattle.rr_endings.specs.Views.{stop_from};

use rr_check_certificate::Flaw;
use rr_run::RunFault;
use std::fmt;

/// Why the input is refused.
#[derive(Clone, Copy, Debug, PartialEq, Eq)]
pub enum Refusal<'a> {
    /// A file has more bytes than its limit: so many (16).
    TooManyBytes(u64),
    /// What is wrong with a design or its table first (1 to 33, 37 to 42), with every other count that
    /// passes its limit (16).
    Input(rr_run::Refusal<'a>),
    /// The first bad line of a certificate is this one, counted from 1 (34 to 36).
    Flawed(Flaw, u64),
}

impl fmt::Display for Refusal<'_> {
    ghost use Rattle.std.specs.Prelude.{Some};
    ghost use Rattle.rr_endings.specs.Refusals.{plain_refusal};
    ghost use Rattle.rr_endings.specs.Texts.{refusal_text};

    ghost output = { λ refusal. Some (refusal_text (plain_refusal refusal)) };

    fn fmt<W: fmt::Write>(&self, f: &mut fmt::Formatter<W>) -> fmt::Result {
        match self {
            Refusal::TooManyBytes(count) => write!(f, "16 TooMany bytes {count}"),
            Refusal::Input(refusal) => write!(f, "{refusal}"),
            Refusal::Flawed(flaw, line) => write!(f, "{flaw} line {line}"),
        }
    }
}

/// Why a command has no answer for the files that it read.
#[derive(Clone, Copy, Debug, PartialEq, Eq)]
pub enum Stop<'a> {
    /// Want of memory.
    Memory,
    /// The files are refused.
    Refused(Refusal<'a>),
}

/// The refusal of a design or a table, or want of memory.
pub fn stop_of(fault: RunFault<'_>) -> Stop<'_>
    ensures { result ≡ stop_from fault.entry }
{
    match fault {
        RunFault::Refused(refusal) => Stop::Refused(Refusal::Input(refusal)),
        RunFault::Memory => Stop::Memory,
    }
}
