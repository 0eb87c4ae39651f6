//! Numbers by bit.
ghost use Rattle.std.specs.Prelude.{◌≡◌, ◌<◌, ◌≤◌, ◌++◌, ◌∷◌, [], length, cond, nat_eq, get_or, OnOk, true, ℕ};
ghost use Rattle.rr_expr.specs.declared.types.Bit.{Bit};
ghost use Rattle.rr_flat.specs.Targets.{same_bit};
ghost use Rattle.rr_writers.specs.Tables.{entry, rows_of};

use rr_flat::Bit;
use std::alloc::{AllocError, Global};
use std::marker::Model;

/// A number for each bit, 0 where none was put. It grows with the bits that have one; of each signal it
/// keeps the numbers up to the last that is not 0.
#[derive(Drop)]
pub struct BitTable {
    alloc: Global,
    rows: Vec<Vec<usize>>,
}

impl Model for BitTable {
    ghost use Rattle.std.specs.Prelude.{ℕ, List, map};

    ghost Value = { List (List ℕ) };

    ghost view = { λ t. map (λ r. r.items) t.rows.items };
}

impl BitTable {
    /// 0 for each bit.
    pub fn new(alloc: Global) -> BitTable
        ensures { result ≡ [] }
    {
        BitTable {
            alloc,
            rows: Vec::new(alloc),
        }
    }

    /// The number of a bit.
    pub fn get(&self, bit: Bit) -> usize
        ensures { result ≡ entry self.now bit }
    {
        match self.rows.get(bit.signal as usize) {
            Some(row) => number_at(row, bit.place as usize),
            None => 0,
        }
    }

    /// Whether a signal has no number at all, without a look at its bits; `false` says nothing.
    pub fn is_blank(&self, signal: u32) -> bool
        ensures { result ≡ true → (b : Bit) → b.signal ≡ signal → entry self.now b ≡ 0 }
    {
        match self.rows.get(signal as usize) {
            Some(row) => has_none(row),
            None => true,
        }
    }

    /// Puts the number of a bit.
    pub fn put(&mut self, bit: Bit, number: usize) -> Result<(), AllocError>
        ensures { OnOk result ((b : Bit) → entry self.new b ≡ cond (same_bit bit b) number (entry self.old b)) }
    {
        let signal = bit.signal as usize;
        grow_rows(self.alloc, &mut self.rows, signal)?;
        put_number(&mut self.rows[signal], bit.place as usize, number)
    }
}

fn number_at(row: &Vec<usize>, place: usize) -> usize
    ensures { result ≡ get_or row.now.items place 0 }
{
    match row.get(place) {
        Some(number) => *number,
        None => 0,
    }
}

fn has_none(row: &Vec<usize>) -> bool
    ensures { result ≡ true → row.now.items ≡ [] }
{
    row.len() == 0
}

/// Empty rows up to that of a signal.
fn grow_rows(alloc: Global, rows: &mut Vec<Vec<usize>>, signal: usize) -> Result<(), AllocError>
    ensures there { OnOk result (signal < length rows.new.items) }
    ensures same { OnOk result ((b : Bit) → entry (rows_of rows.new.items) b ≡ entry (rows_of rows.old.items) b) }
{
    while rows.len() <= signal {
        push_row(rows, Vec::new(alloc))?;
    }
    Ok(())
}

fn push_row(rows: &mut Vec<Vec<usize>>, row: Vec<usize>) -> Result<(), AllocError>
    ensures { OnOk result (rows.new.items ≡ rows.old.items ++ row ∷ []) }
{
    rows.push(row)?;
    Ok(())
}

fn push_zero(row: &mut Vec<usize>) -> Result<(), AllocError>
    ensures { OnOk result (row.new.items ≡ row.old.items ++ 0 ∷ []) }
{
    row.push(0)?;
    Ok(())
}

/// The number at a place of a row.
fn put_number(row: &mut Vec<usize>, place: usize, number: usize) -> Result<(), AllocError>
    ensures { OnOk result ((i : ℕ) → get_or row.new.items i 0 ≡ cond (nat_eq place i) number (get_or row.old.items i 0)) }
{
    while row.len() <= place {
        push_zero(row)?;
    }
    row[place] = number;
    trim(row);
    Ok(())
}

/// Leaves out the zeros at the end.
fn trim(row: &mut Vec<usize>)
    ensures { (i : ℕ) → get_or row.new.items i 0 ≡ get_or row.old.items i 0 }
{
    let kept = used(row.as_slice());
    row.truncate(kept);
}

/// The number of entries up to the last that is not 0.
fn used(row: &[usize]) -> usize
    ensures low { result ≤ length row.now }
    ensures rest { (i : ℕ) → result ≤ i → get_or row.now i 0 ≡ 0 }
{
    let mut end = row.len();
    while end > 0 {
        if row[end - 1] != 0 {
            return end;
        }
        end -= 1;
    }
    0
}
