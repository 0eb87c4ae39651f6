//! Outputs that are not as a table expects them.
ghost use Rattle.std.specs.Prelude.{◌≡◌, ◌<◌, ◌^◌, ℕ, [], length, map, get_or, MatchBool, MatchOption};
ghost use Rattle.rr_trace.specs.Misses.{Agrees, Agree, AgreeRows, IsFirstIn, IsFirstMiss};
ghost use Rattle.rr_trace.specs.View.{plain_table, plain_values};

use crate::cell::Cell;
use crate::table::Table;

/// An output that differs from what its table expects in a known bit, by its row and by its number
/// among the outputs, both counted from 0.
#[derive(Clone, Copy, Debug, PartialEq, Eq)]
pub struct Miss {
    pub row: u32,
    pub output: u32,
}

fn agrees(cell: Cell, value: u128) -> bool
    ensures { MatchBool result (Agrees cell value) (Agrees cell value → ⊥) }
{
    cell.known & cell.value == cell.known & value
}

/// The first output of a row that differs; a value that is not there is 0.
fn miss_in(cells: &[Cell], values: &[u128]) -> Option<u32>
    requires few { length cells.now < 2 ^ 32 }
    ensures { MatchOption result (Agree cells.now values.now (length cells.now)) (λ o. IsFirstIn cells.now values.now o) }
{
    for output in 0..cells.len() {
        let value = match values.get(output) {
            Some(value) => *value,
            None => 0,
        };
        if !agrees(cells[output], value) {
            return Some(output as u32);
        }
    }
    None
}

fn cells_at(rows: &[Vec<Cell>], row: usize) -> &[Cell]
    ensures { result.now ≡ get_or (map (λ v. v.items) rows.now) row [] }
{
    match rows.get(row) {
        Some(cells) => cells.as_slice(),
        None => &[],
    }
}

/// The values of a row, none where it is not there.
pub(crate) fn values_at(rows: &[Vec<u128>], row: usize) -> &[u128]
    ensures { result.now ≡ get_or (plain_values rows.now) row [] }
{
    match rows.get(row) {
        Some(values) => values.as_slice(),
        None => &[],
    }
}

impl Table {
    /// The first output, row by row, of which a known bit differs from these values; `None` exactly
    /// where every known bit is equal. An output that is not there is 0.
    pub fn first_miss(&self, outputs: &[Vec<u128>]) -> Option<Miss>
        requires rows { length self.now.expected.items < 2 ^ 32 }
        requires few { (r : ℕ) → length (get_or (plain_table self.now).expected r []) < 2 ^ 32 }
        ensures { MatchOption result
            (AgreeRows (plain_table self.now).expected (plain_values outputs.now) (length self.now.expected.items))
            (λ miss. IsFirstMiss (plain_table self.now).expected (plain_values outputs.now) miss) }
    {
        for row in 0..self.expected.len() {
            let cells = cells_at(self.expected.as_slice(), row);
            if let Some(output) = miss_in(cells, values_at(outputs, row)) {
                return Some(Miss {
                    row: row as u32,
                    output,
                });
            }
        }
        None
    }
}
