//! Why a text is no table.

use rr_flat::Limit;
use std::alloc::{AllocError, AllocFailed};

/// Refusals 26 to 33 and 16, in the order in which they are looked for but the last two: no record; a
/// column that names no port, and one named before, by its number from 0; an input of the top without a
/// column, by its signal's number; a row of another length than the header's, by its number from 1; a
/// cell that is none of the three forms, and one that does not fit its column; a text that is not
/// UTF-8, which comes before all others; and a row past the limit, which comes at that row. And want of
/// memory.
#[derive(Clone, Copy, Debug, PartialEq, Eq)]
pub enum TableFault {
    NoHeader,
    UnknownColumn(u32),
    ColumnTwice(u32),
    MissingInput(u32),
    RowLength(u32),
    BadCell { row: u32, column: u32 },
    CellTooLarge { row: u32, column: u32 },
    NotUtf8,
    TooMany(Limit, u64),
    Memory,
}

impl From<AllocError> for TableFault {
    ghost use Rattle.std.specs.Prelude.{◌≡◌};
    ghost use Rattle.rr_trace.specs.declared.fault.TableFault.TheVariants.{Memory};

    ghost from_gives = { λ _ e. e ≡ Memory };

    fn from(_error: AllocError) -> TableFault {
        TableFault::Memory
    }
}

impl<T: Drop> From<AllocFailed<T>> for TableFault {
    ghost use Rattle.std.specs.Prelude.{◌≡◌};
    ghost use Rattle.rr_trace.specs.declared.fault.TableFault.TheVariants.{Memory};

    ghost from_gives = { λ _ e. e ≡ Memory };

    fn from(_error: AllocFailed<T>) -> TableFault {
        TableFault::Memory
    }
}
