//! The rows of tables.
ghost use Rattle.std.specs.Prelude.{◌≡◌, Ok, MatchResult};
ghost use Rattle.rr_flat.specs.View.{plain_flat};
ghost use Rattle.rr_trace.specs.Tables.{table_of};
ghost use Rattle.rr_trace.specs.Tops.{ports_of};
ghost use Rattle.rr_trace.specs.View.{plain_table};
ghost use Rattle.rr_vcd.specs.Sampled.{IsSampled};
ghost use Rattle.rr_run.specs.Refusals.{StopsWhere};
ghost use Rattle.rr_run.specs.Rows.{ReadsTable, RefusesCsv, RefusesDump, RefusesTable};

use crate::design::LawfulDesign;
use crate::fault::RunFault;
use crate::refused::{of_dump, of_table};
use rr_trace::{Table, read_table};
use rr_vcd::read_vcd;
use std::alloc::Global;

/// How the bytes of a table are read.
#[derive(Clone, Copy, Debug, PartialEq, Eq)]
pub enum TableKind {
    /// Comma-separated values (RFC 4180), the first record of which is the header.
    Csv,
    /// A value change dump (IEEE 1364-2005 section 18.2).
    Vcd,
}

/// The rows of comma-separated values.
fn read_values<'a>(
    alloc: Global,
    design: &LawfulDesign<'a>,
    table: &[u8],
) -> Result<Table, RunFault<'a>>
    ensures { MatchResult result
        (λ rows. table_of (ports_of (plain_flat design.now.flat) design.now.order.clock) table.now ≡ Ok (plain_table rows))
        (StopsWhere (RefusesCsv (plain_flat design.now.flat) design.now.order.clock table.now)) }
{
    match read_table(alloc, table, &design.flat, design.order.clock) {
        Ok(rows) => Ok(rows),
        Err(fault) => Err(of_table(&design.flat, fault)),
    }
}

/// The rows of a value change dump.
fn read_dump<'a>(
    alloc: Global,
    design: &LawfulDesign<'a>,
    table: &[u8],
) -> Result<Table, RunFault<'a>>
    ensures { MatchResult result
        (λ rows. IsSampled (plain_flat design.now.flat) design.now.order.clock design.now.order.rising table.now (plain_table rows))
        (StopsWhere (RefusesDump (plain_flat design.now.flat) design.now.order.clock design.now.order.rising table.now)) }
{
    match read_vcd(alloc, table, &design.flat, &design.order) {
        Ok(rows) => Ok(rows),
        Err(fault) => Err(of_dump(fault)),
    }
}

/// The rows of a table of this kind for a lawful design, or the first fault of the table: of comma-separated
/// values 33, 26 to 32 and 16, of a dump 41, 42 and 16.
pub fn read_rows<'a>(
    alloc: Global,
    design: &LawfulDesign<'a>,
    kind: TableKind,
    table: &[u8],
) -> Result<Table, RunFault<'a>>
    ensures { MatchResult result
        (λ rows. ReadsTable kind (plain_flat design.now.flat) design.now.order.clock design.now.order.rising table.now (plain_table rows))
        (StopsWhere (RefusesTable kind (plain_flat design.now.flat) design.now.order.clock design.now.order.rising table.now)) }
{
    match kind {
        TableKind::Csv => read_values(alloc, design, table),
        TableKind::Vcd => read_dump(alloc, design, table),
    }
}
