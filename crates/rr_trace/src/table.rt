//! Tables.
ghost use Rattle.std.specs.Prelude.{◌≡◌, ℕ, ◌≤◌, List, IfOk, MatchResult, Ok};
ghost use Rattle.csv.specs.Records.{fields_of};
ghost use Rattle.rr_trace.specs.Coming.{IsComing};
ghost use Rattle.rr_trace.specs.Names.{Text};
ghost use Rattle.rr_trace.specs.Rows.{Row, row as row_of, rows as rows_of};
ghost use Rattle.rr_trace.specs.Tables.{table_of_records, table_of, table_of_rows};
ghost use Rattle.rr_flat.specs.View.{plain_flat};
ghost use Rattle.rr_trace.specs.Tops.{ports_of};
ghost use Rattle.rr_trace.specs.View.{Refuses, ArePorts, IsHeader, plain_ports, plain_header, plain_table, with_row};

use crate::cell::Cell;
use crate::fault::TableFault;
use crate::header::{Header, read_header};
use crate::ports::Ports;
use crate::records::{next, records};
use crate::rows::{input_values, output_cells, read_cells};
use csv::{ByteRecord, Reader};
use rr_flat::{Flat, Limit};
use std::alloc::Global;

/// How many rows a table may have.
const ROWS: u32 = 65_536;

/// The inputs and the expected outputs of a design, a row for each cycle, in port order and without the
/// clock. Unknown bits of an input are 0; an output without a column is known nowhere.
#[derive(Drop)]
pub struct Table {
    pub inputs: Vec<Vec<u128>>,
    pub expected: Vec<Vec<Cell>>,
}

impl Table {
    /// The next row, by way of its cells.
    fn read_row(
        &mut self,
        alloc: Global,
        header: &Header,
        row: u32,
        fields: &ByteRecord,
        cells: &mut Vec<Cell>,
    ) -> Result<(), TableFault>
        requires header { IsHeader (plain_header header.now) }
        requires row { row ≤ 65536 }
        ensures { MatchResult result
            (λ _. (x : Row) × (row_of (plain_header header.now) row (fields_of fields.now) ≡ Ok x) × (plain_table self.new ≡ with_row (plain_table self.old) x))
            (Refuses (row_of (plain_header header.now) row (fields_of fields.now))) }
    {
        if fields.len() != header.widths.len() {
            return Err(TableFault::RowLength(row));
        }
        read_cells(row, header.widths.as_slice(), fields, cells)?;
        let inputs = input_values(alloc, header.inputs.as_slice(), cells.as_slice())?;
        let expected = output_cells(alloc, header.outputs.as_slice(), cells.as_slice())?;
        self.inputs.push(inputs)?;
        self.expected.push(expected)?;
        Ok(())
    }
}

/// The rows that a reader has left, which stand under this header.
fn read_rows(
    alloc: Global,
    header: &Header,
    reader: &mut Reader<&[u8]>,
    fields: &mut ByteRecord,
) -> Result<Table, TableFault>
    requires header { IsHeader (plain_header header.now) }
    ensures { (coming : List (List Text)) → IsComing reader.old coming → MatchResult result
        (λ table. (xs : List Row) × (rows_of (plain_header header.now) 1 coming ≡ Ok xs) × (plain_table table ≡ table_of_rows xs))
        (Refuses (rows_of (plain_header header.now) 1 coming)) }
{
    let mut table = Table {
        inputs: Vec::new(alloc),
        expected: Vec::new(alloc),
    };
    let mut cells = Vec::new(alloc);
    for row in 1..ROWS + 1 {
        if !next(reader, fields)? {
            return Ok(table);
        }
        table.read_row(alloc, header, row, fields, &mut cells)?;
    }
    if next(reader, fields)? {
        return Err(TableFault::TooMany(Limit::Rows, u64::from(ROWS) + 1));
    }
    Ok(table)
}

/// The table that a text writes of these ports.
fn read_text(alloc: Global, text: &[u8], ports: &Ports) -> Result<Table, TableFault>
    requires { ArePorts ports.now }
    ensures { MatchResult result
        (λ table. table_of (plain_ports ports.now) text.now ≡ Ok (plain_table table))
        (Refuses (table_of (plain_ports ports.now) text.now)) }
{
    if std::str::from_utf8(text).is_err() {
        return Err(TableFault::NotUtf8);
    }
    let mut reader = records(alloc, text);
    let mut fields = ByteRecord::new(alloc);
    if !next(&mut reader, &mut fields)? {
        return Err(TableFault::NoHeader);
    }
    let header = read_header(alloc, ports, &fields)?;
    read_rows(alloc, &header, &mut reader, &mut fields)
}

/// The table that a text writes for the ports of a flat design's top, or its first fault: the bytes are
/// UTF-8, the records are those of RFC 4180 as `csv` reads them, and the first is the header. Each input
/// but the clock has a column; a column `time` and one of the clock are not read. The clock, where there
/// is one, is one of the design's inputs.
pub fn read_table(
    alloc: Global,
    bytes: &[u8],
    flat: &Flat,
    clock: Option<u32>,
) -> Result<Table, TableFault>
    ensures { MatchResult result
        (λ table. table_of (ports_of (plain_flat flat.now) clock) bytes.now ≡ Ok (plain_table table))
        (Refuses (table_of (ports_of (plain_flat flat.now) clock) bytes.now)) }
{
    let ports = Ports::of(alloc, flat, clock)?;
    read_text(alloc, bytes, &ports)
}
