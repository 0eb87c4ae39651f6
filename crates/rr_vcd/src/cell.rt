//! The bits of a value by its digits.
ghost use Rattle.std.specs.Prelude.{◌≡◌, ◌≤◌, ◌-◌, ◌^◌, ℕ, List, Option, Some, if◌then◌else◌};
ghost use Rattle.rr_vcd.specs.Values.{is_one as is_one_of, is_known as is_known_of, extension, cell_of};

use rr_trace::Cell;

/// No bit is known.
pub(crate) const UNKNOWN: Cell = Cell { value: 0, known: 0 };

fn is_one(digit: u8) -> bool
    ensures { result ≡ is_one_of digit }
{
    digit == b'1'
}

fn is_known(digit: u8) -> bool
    ensures { result ≡ is_known_of digit }
{
    digit == b'0' || digit == b'1'
}

/// Which of 128 bits above all digits are known: the digits are extended by 0, or by x or z where these
/// are the first.
fn extending(digits: &[u8]) -> u128
    ensures { result ≡ (if is_known_of (extension digits.now) then 2 ^ 128 - 1 else 0) }
{
    match digits.first() {
        None => u128::MAX,
        Some(digit) => { if is_known(*digit) { u128::MAX } else { 0 } }
    }
}

/// The 128 lowest bits of a value, which its digits, highest first, are extended to.
pub(crate) fn wide_cell(digits: &[u8]) -> Cell
    ensures { result ≡ cell_of 128 (Some digits.now) }
{
    let mut value = 0u128;
    let mut known = extending(digits);
    for &digit in digits.iter() {
        value = value
            .wrapping_mul(2)
            .wrapping_add(u128::from(is_one(digit)));
        known = known
            .wrapping_mul(2)
            .wrapping_add(u128::from(is_known(digit)));
    }
    Cell { value, known }
}

/// The lowest bits of a value of 128.
pub(crate) fn narrowed(cell: Cell, width: u32) -> Cell
    ensures { (change : Option (List ℕ)) → cell ≡ cell_of 128 change → width ≤ 128 → result ≡ cell_of width change }
{
    if width >= 128 {
        return cell;
    }
    let limit = 1u128 << width;
    Cell {
        value: cell.value % limit,
        known: cell.known % limit,
    }
}
