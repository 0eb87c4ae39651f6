//! Decimal numbers in texts: written at the end of one, and read at the head of one. It is right
//! where the digits are those of the number, and a number is read exactly where one stands. It stands
//! on no other crate.
#![tactic(auto)]

ghost use Rattle.std.specs.Prelude.{◌≡◌, ◌≢◌, ◌⊎◌, ℕ, ◌+◌, ◌-◌, ◌*◌, ◌^◌, ◌<◌, ◌≤◌, List, ◌∷◌, ◌++◌, [], length, decimal, IfSome, IfNone, OnOk, IsTrue, slice_index_or};
ghost use Rattle.std.specs.Bool.{OnFalse};
ghost use Rattle.std.specs.Option.{SomeIff};

use itoa::Buffer;
use std::alloc::AllocError;

/// Writes the number in decimal digits, without leading zeros, at the end of the text, and the byte
/// `stop` behind it.
pub fn push_number(text: &mut Vec<u8>, number: u64, stop: u8) -> Result<(), AllocError>
    ensures { OnOk result (text.new.items ≡ text.old.items ++ (decimal number ++ stop ∷ [])) }
{
    let mut buffer = Buffer::new();
    text.extend_from_slice(buffer.format(number).as_bytes())?;
    text.push(stop)?;
    Ok(())
}

/// The number of decimal digits of a number, without leading zeros: as many bytes as it takes in a text.
pub fn digits(number: u64) -> usize
    ensures { result ≡ length (decimal number) }
{
    let Some(log) = number.checked_ilog10() else {
        return 1;
    };
    log as usize + 1
}

/// The number below 2^64 whose decimal digits, without leading zeros, stand at the head of the text
/// with the byte `stop` behind them, and what follows that byte; `None` exactly where there is none.
/// `stop` is below `0` in ASCII, so no digit.
pub fn number_then(text: &[u8], stop: u8) -> Option<(u64, &[u8])>
    requires { stop < 48 }
    ensures some { IfSome result (λ r. text.now ≡ decimal r.0 ++ stop ∷ r.1.now) }
    ensures fits { IfSome result (λ r. r.0 < 2 ^ 64) }
    ensures none { IfNone result ((n : ℕ) (rest : List ℕ) → n < 2 ^ 64 → text.now ≢ decimal n ++ stop ∷ rest) }
{
    let mut value: u64 = 0;
    for (at, &byte) in text.iter().enumerate() {
        if byte < b'0' || b'9' < byte {
            if byte == stop && are_digits_written(text, at) {
                return Some((value, &text[at + 1..]));
            }
            return None;
        }
        value = with_digit(value, byte)?;
    }
    None
}

/// Whether so many digits at the head of a text are those of a number: there is one, and no zero
/// stands before others.
fn are_digits_written(text: &[u8], count: usize) -> bool
    requires { count ≤ length text.now }
    ensures yes { IsTrue result → (0 < count) × (slice_index_or text.now 0 0 ≡ 48 → count ≡ 1) }
    ensures no { OnFalse result ((count ≡ 0) ⊎ ((slice_index_or text.now 0 0 ≡ 48) × (count ≢ 1))) }
{
    count == 1 || (count > 1 && text[0] != b'0')
}

/// The number with one digit more; none where it would be 2^64 or greater.
fn with_digit(value: u64, digit: u8) -> Option<u64>
    requires low { 48 ≤ digit }
    requires high { digit ≤ 57 }
    ensures { SomeIff result (value * 10 + (digit - 48) < 2 ^ 64) (value * 10 + (digit - 48)) }
{
    value.checked_mul(10)?.checked_add(u64::from(digit - b'0'))
}
