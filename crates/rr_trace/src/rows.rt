//! The rows of a table.
ghost use Rattle.std.specs.Prelude.{◌≡◌, ℕ, ◌<◌, ◌≤◌, ◌^◌, length, map, All, IfOk, OnOk, IfSome, MatchResult, Ok};
ghost use Rattle.csv.specs.Records.{fields_of};
ghost use Rattle.rr_trace.specs.Rows.{cell_at as cell_at_of, cells as cells_of, value_in, cell_in};
ghost use Rattle.rr_trace.specs.View.{Refuses, IsColumn};

use crate::cell::{Cell, CellFault, read_cell};
use crate::fault::TableFault;
use crate::header::{field, trimmed};
use csv::ByteRecord;
use std::alloc::{AllocError, Global};

/// The cell of a column.
fn cell_at(row: u32, column: u32, width: Option<u32>, field: &[u8]) -> Result<Cell, TableFault>
    requires { IsColumn width }
    ensures { result ≡ cell_at_of row column width field.now }
{
    let width = match width {
        None => return Ok(Cell::UNKNOWN),
        Some(width) => width,
    };
    match read_cell(width, trimmed(field)) {
        Ok(cell) => Ok(cell),
        Err(CellFault::Malformed) => Err(TableFault::BadCell { row, column }),
        Err(CellFault::TooLarge) => Err(TableFault::CellTooLarge { row, column }),
    }
}

/// The cells of a row that has a field for each column, in place of those that were there.
pub(crate) fn read_cells(
    row: u32,
    widths: &[Option<u32>],
    fields: &ByteRecord,
    cells: &mut Vec<Cell>,
) -> Result<(), TableFault>
    requires same { length (fields_of fields.now) ≡ length widths.now }
    requires few { length widths.now ≤ 2 ^ 32 }
    requires widths { All IsColumn widths.now }
    ensures value { MatchResult result
        (λ _. cells_of row 0 widths.now (fields_of fields.now) ≡ Ok cells.new.items)
        (Refuses (cells_of row 0 widths.now (fields_of fields.now))) }
    ensures count { OnOk result (length cells.new.items ≡ length widths.now) }
{
    cells.clear();
    for at in 0..widths.len() {
        let cell = cell_at(row, at as u32, widths[at], field(fields, at))?;
        cells.push(cell)?;
    }
    Ok(())
}

/// The values of the inputs, which stand in these columns.
pub(crate) fn input_values(
    alloc: Global,
    places: &[u32],
    cells: &[Cell],
) -> Result<Vec<u128>, AllocError>
    requires { All (λ p. p < length cells.now) places.now }
    ensures { IfOk result (λ values. values.items ≡ map (value_in cells.now) places.now) }
{
    let mut values = Vec::new(alloc);
    for &place in places {
        values.push(cells[place as usize].value)?;
    }
    Ok(values)
}

/// What is known of the outputs, of which some stand in columns.
pub(crate) fn output_cells(
    alloc: Global,
    places: &[Option<u32>],
    cells: &[Cell],
) -> Result<Vec<Cell>, AllocError>
    requires { All (λ p. IfSome p (λ k. k < length cells.now)) places.now }
    ensures { IfOk result (λ expected. expected.items ≡ map (cell_in cells.now) places.now) }
{
    let mut expected = Vec::new(alloc);
    for &place in places {
        expected.push(cell_of_output(place, cells))?;
    }
    Ok(expected)
}

fn cell_of_output(place: Option<u32>, cells: &[Cell]) -> Cell
    requires { IfSome place (λ k. k < length cells.now) }
    ensures { result ≡ cell_in cells.now place }
{
    match place {
        Some(place) => cells[place as usize],
        None => Cell::UNKNOWN,
    }
}
