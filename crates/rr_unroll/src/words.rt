//! Words of numbers.

ghost use Rattle.std.specs.Prelude.{◌≡◌, ℕ, ◌<◌, ◌++◌, get_or, false, IfOk, OnOk};
ghost use Rattle.rr_bits.specs.Words.{word};
ghost use Rattle.rr_transition.specs.Transitions.{words as words_of};

use std::alloc::{AllocError, Global};

/// The bit of a number at a place, in a word that has the place.
fn bit(number: u128, place: u32) -> bool
    ensures { (w : ℕ) → place < w → result ≡ get_or (word w number) place false }
{
    place < 128 && (number >> place) & 1 == 1
}

fn push_word(out: &mut Vec<bool>, width: u32, number: u128) -> Result<(), AllocError>
    ensures { OnOk result (out.new.items ≡ out.old.items ++ word width number) }
{
    for place in 0..width {
        out.push(bit(number, place))?;
    }
    Ok(())
}

/// The number with this place, 0 where there is none.
fn number_at(numbers: &[u128], place: usize) -> u128
    ensures { result ≡ get_or numbers.now place 0 }
{
    match numbers.get(place) {
        Some(number) => *number,
        None => 0,
    }
}

/// The words of numbers, each in its width, one after the other.
pub(crate) fn words(
    alloc: Global,
    widths: &[u32],
    numbers: &[u128],
) -> Result<Vec<bool>, AllocError>
    ensures { IfOk result (λ r. r.items ≡ words_of widths.now numbers.now) }
{
    let mut out = Vec::new(alloc);
    for k in 0..widths.len() {
        push_word(&mut out, widths[k], number_at(numbers, k))?;
    }
    Ok(out)
}
