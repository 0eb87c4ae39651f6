//! Refusals from the faults of texts, of laws and of tables.
ghost use Rattle.std.specs.Prelude.{◌≡◌, ℕ, Bool, List, Option, MatchOption};
ghost use Rattle.rr_lex.specs.Tokens.{IsFirstFault, lexemes};
ghost use Rattle.rr_flat.specs.View.{plain_flat};
ghost use Rattle.rr_flat.specs.Plain.{Flat as PlainFlat};
ghost use Rattle.rr_elaborate.specs.Designs.{IsDesign, IsFlawed, Refuses as RefusesText};
ghost use Rattle.rr_lawful.specs.Checked.{FailsFirst};
ghost use Rattle.rr_lawful.specs.declared.laws.LawFault.TheVariants.{Memory as NoMemory};
ghost use Rattle.rr_trace.specs.Tables.{table_of};
ghost use Rattle.rr_trace.specs.Tops.{name_of as name_in, ports_of};
ghost use Rattle.rr_trace.specs.View.{Refuses as RefusesRead};
ghost use Rattle.rr_run.specs.Refusals.{StopsWhere};
ghost use Rattle.rr_vcd.specs.Faults.{RefusesVcd};
ghost use Rattle.rr_run.specs.Rows.{RefusesCsv, RefusesDump};
ghost use Rattle.rr_run.specs.Runs.{IsAt, RefusesDesign, Told};

use crate::fault::{Fault, Refusal, RunFault};
use rr_elaborate::{DesignFault, Flat, FlatFault, Wrong, start_of};
use rr_lawful::LawFault;
use rr_syntax::Token;
use rr_trace::TableFault;
use rr_vcd::VcdFault;

/// What is wrong with a design, at a byte.
fn at<'a>(fault: Fault, byte: u32) -> RunFault<'a>
    ensures { (bytes : List ℕ) (top word : Option (List ℕ)) → IsAt bytes top word fault byte → StopsWhere (RefusesDesign bytes top word) result }
{
    RunFault::Refused(Refusal::At(fault, byte))
}

/// What is wrong with the bytes of a text.
fn of_bytes(wrong: Wrong) -> Fault
    ensures { (bytes : List ℕ) (top word : Option (List ℕ)) (byte : ℕ) → IsFirstFault bytes wrong byte → IsAt bytes top word result byte }
{
    match wrong {
        Wrong::Byte => Fault::BadByte,
        Wrong::Number => Fault::BadNumber,
        Wrong::Comment => Fault::OpenComment,
        Wrong::Directive => Fault::Directive,
    }
}

/// What is wrong with the elaboration of a text.
fn of_flaw<'a>(flaw: FlatFault) -> RunFault<'a>
    ensures { (bytes : List ℕ) (top word : Option (List ℕ)) → IsFlawed bytes top flaw → StopsWhere (RefusesDesign bytes top word) result }
{
    match flaw {
        FlatFault::NoTop => at(Fault::NoTop, 0),
        FlatFault::UnknownModule(byte) => at(Fault::UnknownModule, byte),
        FlatFault::SelfInstance(byte) => at(Fault::SelfInstance, byte),
        FlatFault::NameTwice(byte) => at(Fault::NameTwice, byte),
        FlatFault::UnknownName(byte) => at(Fault::UnknownName, byte),
        FlatFault::BadRange(byte) => at(Fault::BadRange, byte),
        FlatFault::NotConstant(byte) => at(Fault::NotConstant, byte),
        FlatFault::PortMismatch(byte) => at(Fault::PortMismatch, byte),
        FlatFault::TooWide(byte, _) => at(Fault::TooWide, byte),
        FlatFault::TooMany(limit, count) => RunFault::Refused(Refusal::TooMany(limit, count)),
        FlatFault::BadLoop(byte) => at(Fault::BadLoop, byte),
        FlatFault::Memory => RunFault::Memory,
    }
}

/// The refusal of a text that has no flat design, for this reason (1 to 16, 37).
pub fn of_design<'a>(fault: DesignFault) -> RunFault<'a>
    ensures { (bytes : List ℕ) (top word : Option (List ℕ)) → RefusesText bytes top fault → StopsWhere (RefusesDesign bytes top word) result }
{
    match fault {
        DesignFault::Text(wrong, byte) => at(of_bytes(wrong), byte),
        DesignFault::Unsupported(byte) => at(Fault::Unsupported, byte),
        DesignFault::Syntax(byte) => at(Fault::Syntax, byte),
        DesignFault::Flaw(flaw) => of_flaw(flaw),
        DesignFault::Memory => RunFault::Memory,
    }
}

/// Which law is broken, and the token at which that is told; `None` for want of memory.
fn law_of(fault: &LawFault) -> Option<(Fault, u32)>
    ensures { MatchOption result (fault.now ≡ NoMemory) (λ p. Told fault.now p.0 p.1) }
{
    match fault {
        LawFault::UnknownName(token) => Some((Fault::UnknownName, *token)),
        LawFault::TwoDrivers { second, .. } => Some((Fault::TwoDrivers, *second)),
        LawFault::WrongAssign(token) => Some((Fault::WrongAssign, *token)),
        LawFault::Race(token) => Some((Fault::Race, *token)),
        LawFault::Latch { block, .. } => Some((Fault::Latch, *block)),
        LawFault::Loop { token, .. } => Some((Fault::Loop, *token)),
        LawFault::ClockUse(token) => Some((Fault::ClockUse, *token)),
        LawFault::TwoClocks(token) => Some((Fault::TwoClocks, *token)),
        LawFault::BadTarget(token) => Some((Fault::BadTarget, *token)),
        LawFault::WildLabel(token) => Some((Fault::WildLabel, *token)),
        LawFault::Memory => None,
    }
}

/// The law that a flat design breaks first, at the byte where its token begins.
pub(crate) fn of_law<'a>(tokens: &[Token<'_>], fault: &LawFault) -> RunFault<'a>
    ensures { (bytes : List ℕ) (top word : Option (List ℕ)) (flat : PlainFlat) → IsDesign bytes (lexemes tokens.now) top flat → FailsFirst flat word fault.now → StopsWhere (RefusesDesign bytes top word) result }
{
    match law_of(fault) {
        None => RunFault::Memory,
        Some((law, token)) => at(law, start_of(tokens, token)),
    }
}

/// Why a text is no table of comma-separated values.
pub(crate) fn of_table<'a>(flat: &Flat<'a>, fault: TableFault) -> RunFault<'a>
    ensures { (clock : Option ℕ) (bytes : List ℕ) → RefusesRead (table_of (ports_of (plain_flat flat.now) clock) bytes) fault → StopsWhere (RefusesCsv (plain_flat flat.now) clock bytes) result }
{
    let refusal = match fault {
        TableFault::NoHeader => Refusal::NoHeader,
        TableFault::UnknownColumn(column) => Refusal::UnknownColumn(column),
        TableFault::ColumnTwice(column) => Refusal::ColumnTwice(column),
        TableFault::MissingInput(id) => Refusal::MissingInput(flat.signal_name(id)),
        TableFault::RowLength(row) => Refusal::RowLength(row),
        TableFault::BadCell { row, column } => Refusal::BadCell { row, column },
        TableFault::CellTooLarge { row, column } => Refusal::CellTooLarge { row, column },
        TableFault::NotUtf8 => Refusal::NotUtf8,
        TableFault::TooMany(limit, count) => Refusal::TooMany(limit, count),
        TableFault::Memory => return RunFault::Memory,
    };
    RunFault::Refused(refusal)
}

/// Why a text is no dump with rows for a design.
pub(crate) fn of_dump<'a>(fault: VcdFault) -> RunFault<'a>
    ensures { (flat : PlainFlat) (clock : Option ℕ) (rising : Bool) (bytes : List ℕ) → RefusesVcd flat clock rising bytes fault → StopsWhere (RefusesDump flat clock rising bytes) result }
{
    let refusal = match fault {
        VcdFault::BadVcd(line) => Refusal::BadVcd(line),
        VcdFault::NoScope => Refusal::NoScope,
        VcdFault::TooMany(limit, count) => Refusal::TooMany(limit, count),
        VcdFault::Memory => return RunFault::Memory,
    };
    RunFault::Refused(refusal)
}
