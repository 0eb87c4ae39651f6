//! The texts of literals.

ghost use Rattle.std.specs.Prelude.{◌≡◌, ◌≤◌, ◌<◌, ◌^◌, ◌++◌, IfOk};
ghost use Rattle.rr_lex.specs.Numbers.{hex_byte as hex_byte_of, hex_text, size_text, literal_parts, text_of, IsNumber};
ghost use Rattle.rr_lex.specs.Patch.{plain_number};

use std::alloc::{AllocError, Global};

#[tactic(auto, using(crate::proofs::Written::hex_low, crate::proofs::Written::hex_high))]
fn hex_byte(digit: u8) -> u8
    requires { digit < 16 }
    ensures { result ≡ hex_byte_of digit }
{
    if digit < 10 { 48 + digit } else { 87 + digit }
}

/// Writes so many digits, the highest first.
#[tactic(auto, using(crate::proofs::Written::hex_none, crate::proofs::Written::hex_more))]
fn push_hex(out: &mut Vec<u8>, digits: u32, value: u128) -> Result<(), AllocError>
    ensures { IfOk result (λ _. out.new.items ≡ out.old.items ++ hex_text digits value) }
{
    if digits == 0 {
        return Ok(());
    }
    push_hex(out, digits - 1, value / 16)?;
    out.push(hex_byte((value % 16) as u8))?;
    Ok(())
}

/// A width in decimal.
#[tactic(auto, using(crate::proofs::Written::size_one, crate::proofs::Written::size_two, crate::proofs::Written::size_three))]
fn width_text(alloc: Global, width: u32) -> Result<Vec<u8>, AllocError>
    requires { width < 1000 }
    ensures { IfOk result (λ out. out.items ≡ size_text width) }
{
    let low = (48 + width % 10) as u8;
    if width < 10 {
        Ok(vec![in alloc; (48 + width) as u8]?)
    } else if width < 100 {
        Ok(vec![in alloc; (48 + width / 10) as u8, low]?)
    } else {
        Ok(vec![in alloc; (48 + width / 100) as u8, (48 + width / 10 % 10) as u8, low]?)
    }
}

fn literal_text(alloc: Global, width: u32, signed: bool, value: u128) -> Result<Vec<u8>, AllocError>
    requires { width ≤ 128 }
    ensures { IfOk result (λ out. out.items ≡ text_of (literal_parts width signed value)) }
{
    let mut out = width_text(alloc, width)?;
    out.push(39)?;
    if signed {
        out.push(115)?;
    }
    out.push(104)?;
    push_hex(&mut out, (width + 3) / 4, value)?;
    Ok(out)
}

/// The text of a literal of `width` bits, for instance `4'h1` or `32'sh00000001`: its width in
/// decimal, `'h` or `'sh`, and its value in lower case with a hexadecimal digit for each four bits.
/// It reads back as that number.
pub fn number_text(
    alloc: Global,
    width: u32,
    signed: bool,
    value: u128,
) -> Result<Vec<u8>, AllocError>
    requires some { 1 ≤ width }
    requires most { width ≤ 128 }
    requires fits { value < 2 ^ width }
    ensures text { IfOk result (λ out. out.items ≡ text_of (literal_parts width signed value)) }
    ensures number { IfOk result (λ out. IsNumber out.items (plain_number width signed value)) }
{
    Ok(literal_text(alloc, width, signed, value)?)
}
