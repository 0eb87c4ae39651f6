//! Indices of selects (IEEE 1364-2005 section 5.2.1).
ghost use Rattle.std.specs.Prelude.{◌≡◌, ◌≤◌, ◌<◌, min, ℤ, pos, ◌-ℤ◌, length, IfSome, IfNone, unsigned_abs, int_lt};
ghost use Rattle.rr_bits.specs.Words.{reading, select};
ghost use Rattle.rr_expr.specs.Selects.{place, lowest_place, span, is_against as is_turned, count};
ghost use Rattle.rr_expr.specs.Indices.{integer_of};

use crate::entities::capped;
use rr_bits::Bits;

/// A number with a sign, of up to 128 bits besides it: what an index, a bound or a count is.
#[derive(Clone, Copy)]
pub struct Index {
    pub negative: bool,
    pub size: u128,
}

/// The number that a word writes, signed where that is said.
pub fn index_of(bits: Bits, signed: bool) -> Index
    ensures { integer_of result ≡ reading signed bits }
{
    if bits.is_negative(signed) {
        Index {
            negative: true,
            size: bits.negated().to_u128(),
        }
    } else {
        Index {
            negative: false,
            size: bits.to_u128(),
        }
    }
}

/// A number of bits or of copies; one below 0 is none.
pub(crate) fn count_of(index: Index) -> u128
    ensures { result ≡ count (integer_of index) }
{
    if index.negative { 0 } else { index.size }
}

/// The number of indices between two, both among them, or the greatest `u32` where it is greater.
pub(crate) fn span_of(left: Index, right: Index) -> u32
    ensures { result ≡ min (span (integer_of left) (integer_of right)) 4294967295 }
{
    let gap = if left.negative == right.negative {
        left.size.abs_diff(right.size)
    } else {
        left.size.saturating_add(right.size)
    };
    capped(gap.saturating_add(1))
}

fn is_below(left: Index, right: Index) -> bool
    ensures { result ≡ int_lt (integer_of left) (integer_of right) }
{
    if left.negative {
        if right.negative {
            right.size < left.size
        } else {
            0 < left.size || 0 < right.size
        }
    } else {
        !right.negative && left.size < right.size
    }
}

/// Whether the first index names a lower place than the second.
pub(crate) fn is_against(range: (u32, u32), left: Index, right: Index) -> bool
    ensures { result ≡ is_turned range (integer_of left) (integer_of right) }
{
    if range.0 < range.1 {
        is_below(right, left)
    } else {
        is_below(left, right)
    }
}

/// The place of an index in a range `[left:right]`, where the index is within 2^40 of 0; the right
/// bound has place 0, and a place below 0 or past the width names no bit (section 5.2.1).
pub fn near_place(range: (u32, u32), index: Index) -> Option<i64>
    ensures some { IfSome result (λ p. p ≡ place range (integer_of index)) }
    ensures close { IfSome result (λ p. unsigned_abs p < 1103806595072) }
    ensures none { IfNone result (1099511627776 ≤ unsigned_abs (integer_of index)) }
{
    if index.size >= 1099511627776 {
        return None;
    }
    let size = index.size as i64;
    let right = range.1 as i64;
    if range.0 < range.1 {
        if index.negative {
            Some(right + size)
        } else {
            Some(right - size)
        }
    } else if index.negative {
        Some(-size - right)
    } else {
        Some(size - right)
    }
}

/// The `width` bits of a word from `below` places under that of an index up, 0 where there is none.
fn selected(word: Bits, range: (u32, u32), index: Index, below: u32, width: u32) -> Bits
    requires low { 1 ≤ width }
    requires high { width ≤ 128 }
    requires near { below ≤ 128 }
    requires size { length word ≤ 128 }
    ensures { result ≡ select word (place range (integer_of index) -ℤ pos below) width }
{
    match near_place(range, index) {
        None => Bits::from_u128(width, 0),
        Some(place) => word.select(place - below as i64, width),
    }
}

/// The `width` bits of a word from an index up, 0 where there is none.
pub(crate) fn picked(word: Bits, range: (u32, u32), index: Index, width: u32) -> Bits
    requires low { 1 ≤ width }
    requires high { width ≤ 128 }
    requires size { length word ≤ 128 }
    ensures { result ≡ select word (place range (integer_of index)) width }
{
    selected(word, range, index, 0, width)
}

/// How many places the lowest of `count` bits, counted from an index up or down (`[i +: count]` or
/// `[i -: count]`), is below that of the index.
pub fn below_index(range: (u32, u32), count: u32, up: bool) -> u32
    requires { 1 ≤ count }
    ensures place { (i : ℤ) → place range i -ℤ pos result ≡ lowest_place range up i count }
    ensures near { result < count }
{
    let falling = range.0 < range.1;
    if up == falling { count - 1 } else { 0 }
}

/// The `count` bits from an index up or down.
pub(crate) fn indexed(word: Bits, range: (u32, u32), index: Index, count: u32, up: bool) -> Bits
    requires low { 1 ≤ count }
    requires high { count ≤ 128 }
    requires size { length word ≤ 128 }
    ensures { result ≡ select word (lowest_place range up (integer_of index) count) count }
{
    selected(word, range, index, below_index(range, count, up), count)
}
