//! Why there is no run, with the numbers that a refusal is told by.
use rr_flat::Limit;
use std::fmt;

/// What is wrong with a design at one byte of its text or file: refusals 1 to 15, 17 to 25,
/// 37 to 40 and 43.
#[derive(Clone, Copy, Debug, PartialEq, Eq)]
pub enum Fault {
    /// A byte that begins no token (IEEE 1364-2005 section 3).
    BadByte,
    /// No number (section 3.5.1).
    BadNumber,
    /// A comment without its end (section 3.3).
    OpenComment,
    /// A compiler directive of another kind than those that are skipped or expanded (section 19).
    Directive,
    /// A word without a rule.
    Unsupported,
    /// The tokens spell no source text (annex A).
    Syntax,
    /// No module stands in no other, or none has the top's name (section 12).
    NoTop,
    /// An instance of a module that is not there.
    UnknownModule,
    /// A module that instantiates itself.
    SelfInstance,
    /// A second declaration of a name.
    NameTwice,
    /// A name that is not declared, or a word for the clock that names no scalar input of the top.
    UnknownName,
    /// A range or a part that is none.
    BadRange,
    /// No constant expression.
    NotConstant,
    /// Connections or overrides that do not fit (section 12.3).
    PortMismatch,
    /// A width outside 1 to 128.
    TooWide,
    /// A bit with two writers.
    TwoDrivers,
    /// A variable that is written by both kinds of assignment, or by `<=` in a combinational block.
    WrongAssign,
    /// A variable that a clocked block writes by `=` and another reads.
    Race,
    /// A combinational block that keeps a bit.
    Latch,
    /// A combinational loop.
    Loop,
    /// The clock is used as data.
    ClockUse,
    /// A clocked block that does not run on the one clock.
    TwoClocks,
    /// A target that may not be assigned as it is.
    BadTarget,
    /// A label of `case` with x or z.
    WildLabel,
    /// A loop that is not unfolded, or a name of one outside its loops (section 9.6).
    BadLoop,
    /// A use of a name that is not defined (section 19.3).
    UnknownMacro,
    /// A directive without its name, with arguments, of a directive's name or with a directive in its
    /// text, without its opening or its end, or `elsif (sections 19.3 and 19.4).
    BadDirective,
    /// A use whose text uses a name that is being expanded (section 19.3.1).
    MacroLoop,
    /// What is to be changed does not stand in the file itself (section 19.3.1).
    FromMacro,
}

impl fmt::Display for Fault {
    ghost use Rattle.std.specs.Prelude.{Some};
    ghost use Rattle.rr_run.specs.Texts.{fault_text};

    ghost output = { λ fault. Some (fault_text fault) };

    fn fmt<W: fmt::Write>(&self, f: &mut fmt::Formatter<W>) -> fmt::Result {
        match self {
            Fault::BadByte => write!(f, "1 BadByte"),
            Fault::BadNumber => write!(f, "2 BadNumber"),
            Fault::OpenComment => write!(f, "3 OpenComment"),
            Fault::Directive => write!(f, "4 Directive"),
            Fault::Unsupported => write!(f, "5 Unsupported"),
            Fault::Syntax => write!(f, "6 Syntax"),
            Fault::NoTop => write!(f, "7 NoTop"),
            Fault::UnknownModule => write!(f, "8 UnknownModule"),
            Fault::SelfInstance => write!(f, "9 SelfInstance"),
            Fault::NameTwice => write!(f, "10 NameTwice"),
            Fault::UnknownName => write!(f, "11 UnknownName"),
            Fault::BadRange => write!(f, "12 BadRange"),
            Fault::NotConstant => write!(f, "13 NotConstant"),
            Fault::PortMismatch => write!(f, "14 PortMismatch"),
            Fault::TooWide => write!(f, "15 TooWide"),
            Fault::TwoDrivers => write!(f, "17 TwoDrivers"),
            Fault::WrongAssign => write!(f, "18 WrongAssign"),
            Fault::Race => write!(f, "19 Race"),
            Fault::Latch => write!(f, "20 Latch"),
            Fault::Loop => write!(f, "21 Loop"),
            Fault::ClockUse => write!(f, "22 ClockUse"),
            Fault::TwoClocks => write!(f, "23 TwoClocks"),
            Fault::BadTarget => write!(f, "24 BadTarget"),
            Fault::WildLabel => write!(f, "25 WildLabel"),
            Fault::BadLoop => write!(f, "37 BadLoop"),
            Fault::UnknownMacro => write!(f, "38 UnknownMacro"),
            Fault::BadDirective => write!(f, "39 BadDirective"),
            Fault::MacroLoop => write!(f, "40 MacroLoop"),
            Fault::FromMacro => write!(f, "43 FromMacro"),
        }
    }
}

/// Why two texts have no run. Bytes and columns count from 0, rows from 1: row 0 is the header.
#[derive(Clone, Copy, Debug, PartialEq, Eq)]
pub enum Refusal<'a> {
    /// What is wrong with the design first, at this byte of its file (1 to 15, 17 to 25, 37 to
    /// 40, 43).
    At(Fault, u32),
    /// A count that passes its limit, with that count (16).
    TooMany(Limit, u64),
    /// The directives of the design give more bytes and uses than 1,048,576: how many were met (16).
    Expanded(u64),
    /// The table has no record (26).
    NoHeader,
    /// This column names no port (27).
    UnknownColumn(u32),
    /// This column names a port for the second time (28).
    ColumnTwice(u32),
    /// The input with this name has no column (29).
    MissingInput(&'a str),
    /// This row has another length than the header (30).
    RowLength(u32),
    /// A cell of none of the forms (31).
    BadCell { row: u32, column: u32 },
    /// A cell that does not fit its column (32).
    CellTooLarge { row: u32, column: u32 },
    /// The table's bytes are not UTF-8 (33).
    NotUtf8,
    /// The text of a dump breaks its form at this line, counted from 1 (41).
    BadVcd(u64),
    /// No scope of a dump has every input of the top (42).
    NoScope,
}

/// What is counted against a limit.
#[derive(Clone, Copy)]
struct Counted(Limit);

impl fmt::Display for Counted {
    ghost use Rattle.std.specs.Prelude.{Some};
    ghost use Rattle.rr_run.specs.Texts.{limit_text};

    ghost output = { λ counted. Some (limit_text counted.0) };

    fn fmt<W: fmt::Write>(&self, f: &mut fmt::Formatter<W>) -> fmt::Result {
        match self.0 {
            Limit::Bytes => write!(f, "bytes"),
            Limit::Rows => write!(f, "rows"),
            Limit::Sites => write!(f, "sites"),
            Limit::Instances => write!(f, "instances"),
            Limit::Depth => write!(f, "depth"),
            Limit::FlatBits => write!(f, "flatbits"),
            Limit::Work => write!(f, "work"),
            Limit::Turns => write!(f, "turns"),
            Limit::Unfolded => write!(f, "unfolded"),
            Limit::Words => write!(f, "words"),
        }
    }
}

impl fmt::Display for Refusal<'_> {
    ghost use Rattle.std.specs.Prelude.{Some};
    ghost use Rattle.rr_run.specs.Refusals.{plain_refusal};
    ghost use Rattle.rr_run.specs.Texts.{refusal_text};

    ghost output = { λ refusal. Some (refusal_text (plain_refusal refusal)) };

    fn fmt<W: fmt::Write>(&self, f: &mut fmt::Formatter<W>) -> fmt::Result {
        match self {
            Refusal::At(fault, at) => write!(f, "{fault} at {at}"),
            Refusal::TooMany(limit, count) => {
                let counted = Counted(*limit);
                write!(f, "16 TooMany {counted} {count}")
            }
            Refusal::Expanded(count) => write!(f, "16 TooMany expanded {count}"),
            Refusal::NoHeader => write!(f, "26 NoHeader row 0"),
            Refusal::UnknownColumn(column) => write!(f, "27 UnknownColumn row 0 column {column}"),
            Refusal::ColumnTwice(column) => write!(f, "28 ColumnTwice row 0 column {column}"),
            Refusal::MissingInput(name) => write!(f, "29 MissingInput input {name}"),
            Refusal::RowLength(row) => write!(f, "30 RowLength row {row}"),
            Refusal::BadCell { row, column } => write!(f, "31 BadCell row {row} column {column}"),
            Refusal::CellTooLarge { row, column } => {
                write!(f, "32 CellTooLarge row {row} column {column}")
            }
            Refusal::NotUtf8 => write!(f, "33 NotUtf8"),
            Refusal::BadVcd(line) => write!(f, "41 BadVcd line {line}"),
            Refusal::NoScope => write!(f, "42 NoScope"),
        }
    }
}

/// Why a call gives nothing.
#[derive(Clone, Copy, Debug, PartialEq, Eq)]
pub enum RunFault<'a> {
    /// The texts are refused.
    Refused(Refusal<'a>),
    /// Want of memory.
    Memory,
}
