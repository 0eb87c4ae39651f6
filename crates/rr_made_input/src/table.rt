//! The text of the table.
ghost use Rattle.std.specs.Prelude.{◌≡◌, ℕ, ◌+◌, ◌-◌, ◌*◌, ◌<◌, ◌≤◌, ◌∷◌, ◌++◌, ◌==◌, if◌then◌else◌, IfOk, OnOk, length};
ghost use Rattle.rr_made_input.specs.Draws.{state};
ghost use Rattle.rr_made_input.specs.Made.{all_counted, counted, enable, line_text, made_table, reset, steps};

use crate::draws::Draws;
use rr_decimal::push_number;
use std::alloc::{AllocError, Global};

/// The rows of the table.
const ROWS: u64 = 256;

/// 1 exactly where the number is 0.
fn is_zero(number: u64) -> u8
    ensures { result ≡ (if number == 0 then 1 else 0) }
{
    if number == 0 { 1 } else { 0 }
}

/// The reset and the enable of a row, each 0 or 1: fixed in the first two rows, and then drawn.
fn inputs(draws: &mut Draws, row: u64) -> (u8, u8)
    ensures { (seed : ℕ) → draws.old.state ≡ state seed (8 + 2 * (row - 2)) →
        (draws.new.state ≡ state seed (8 + 2 * (row + 1 - 2))) × (result.0 ≡ reset seed row) × (result.1 ≡ enable seed row) }
{
    match row {
        0 => (1, 0),
        1 => (0, 1),
        _ => {
            let reset = is_zero(draws.draw(32));
            let enable = draws.draw(2) as u8;
            (reset, enable)
        }
    }
}

/// A register after a row with such inputs.
fn counted(reset: u8, enable: u8, step: u8, value: u8) -> u8
    ensures { result ≡ counted reset enable step value }
{
    if reset == 1 {
        0
    } else if enable == 1 {
        value.wrapping_add(step)
    } else {
        value
    }
}

/// The registers after a row with such inputs.
fn all_counted(
    alloc: Global,
    reset: u8,
    enable: u8,
    right: &[u8],
    values: &[u8],
) -> Result<Vec<u8>, AllocError>
    requires { length values.now ≡ length right.now }
    ensures value { IfOk result (λ r. r.items ≡ all_counted reset enable right.now values.now) }
    ensures count { IfOk result (λ r. length r.items ≡ length right.now) }
{
    let mut after = Vec::new(alloc);
    for i in 0..right.len() {
        after.push(counted(reset, enable, right[i], values[i]))?;
    }
    Ok(after)
}

/// Writes numbers, with commas between them, and LF.
fn push_line(text: &mut Vec<u8>, numbers: &[u8]) -> Result<(), AllocError>
    ensures { OnOk result (text.new.items ≡ text.old.items ++ line_text numbers.now) }
{
    for i in 0..numbers.len() {
        let stop = if i + 1 == numbers.len() { b'\n' } else { b',' };
        push_number(text, u64::from(numbers[i]), stop)?;
    }
    Ok(())
}

/// Writes the line of a row: its inputs and the registers.
fn push_row(
    alloc: Global,
    text: &mut Vec<u8>,
    reset: u8,
    enable: u8,
    values: &[u8],
) -> Result<(), AllocError>
    ensures { OnOk result (text.new.items ≡ text.old.items ++ line_text (reset ∷ (enable ∷ values.now))) }
{
    let mut numbers = vec![in alloc; reset, enable]?;
    numbers.extend_from_slice(values)?;
    push_line(text, numbers.as_slice())?;
    Ok(())
}

/// The table of a seed, whose right steps are these, and which has made as many draws.
pub(crate) fn table(
    alloc: Global,
    seed: u64,
    right: &[u8],
    draws: Draws,
) -> Result<Vec<u8>, AllocError>
    requires steps { right.now ≡ steps seed }
    requires drawn { draws.state ≡ state seed 8 }
    ensures { IfOk result (λ text. text.items ≡ made_table seed) }
{
    let mut draws = draws;
    let mut text = Vec::new(alloc);
    text.extend_from_slice(b"rst,en,r0,r1,r2,r3,r4,r5,r6,r7\n")?;
    let mut values = vec![in alloc; 0u8; 8]?;
    for row in 0..ROWS {
        let (reset, enable) = inputs(&mut draws, row);
        push_row(alloc, &mut text, reset, enable, values.as_slice())?;
        values = all_counted(alloc, reset, enable, right, values.as_slice())?;
    }
    Ok(text)
}
