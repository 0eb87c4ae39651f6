//! The bits that texts may name, word by word, and each memory once.
ghost use Rattle.std.specs.Prelude.{◌≡◌, ◌+◌, ◌++◌, ◌∷◌, ◌||◌, [], true, IfOk, OnOk};
ghost use Rattle.rr_expr.specs.declared.types.Bit.{Bit as BitOfSignal};
ghost use Rattle.rr_named_bits.specs.Lists.{covered, may, reaches as is_reached};

use crate::table::BitTable;
use rr_flat::{Bit, number_of};
use rr_named_bits::{Piece, Reach, Write};
use std::alloc::{AllocError, Global};

/// The places of one signal of a reach, counted from its first. The error is want of memory, as 32 bits
/// do not hold the number of the signal; in a flat design it never comes.
pub fn word_of(reach: &Reach, word: u32) -> Result<Piece, AllocError>
    ensures { IfOk result (λ p. p ≡ record reach.now.piece { signal = reach.now.piece.signal + word }) }
{
    let signal = number_of(reach.piece.signal as usize + word as usize)?;
    let mut piece = reach.piece;
    piece.signal = signal;
    Ok(piece)
}

/// The same bits, where what has several words stands once. `seen` holds by first signals where such
/// reaches may stand; what it held before matters not.
pub fn distinct(
    alloc: Global,
    reaches: &[Reach],
    seen: &mut BitTable,
) -> Result<Vec<Reach>, AllocError>
    ensures { IfOk result (λ r. (b : BitOfSignal) → covered r.items b ≡ covered reaches.now b) }
{
    let mut list = Vec::new(alloc);
    for reach in reaches.iter() {
        add_reach(&mut list, reach, seen)?;
    }
    Ok(list)
}

/// The bits that some assignments may write, in the same way.
pub fn distinct_writes(
    alloc: Global,
    writes: &[Write],
    seen: &mut BitTable,
) -> Result<Vec<Reach>, AllocError>
    ensures { IfOk result (λ r. (b : BitOfSignal) → covered r.items b ≡ may writes.now b) }
{
    let mut list = Vec::new(alloc);
    for write in writes.iter() {
        add_reach(&mut list, &write.reach, seen)?;
    }
    Ok(list)
}

/// Adds a reach, unless it has several words and stands where the table says.
fn add_reach(list: &mut Vec<Reach>, reach: &Reach, seen: &mut BitTable) -> Result<(), AllocError>
    ensures { OnOk result ((b : BitOfSignal) → covered list.new.items b ≡ (covered list.old.items b || is_reached reach.now b)) }
{
    if reach.words < 2 {
        return push_reach(list, *reach);
    }
    let first = Bit {
        signal: reach.piece.signal,
        place: 0,
    };
    if stands_at(list.as_slice(), seen.get(first), reach) {
        return Ok(());
    }
    seen.put(first, list.len())?;
    push_reach(list, *reach)
}

fn push_reach(list: &mut Vec<Reach>, reach: Reach) -> Result<(), AllocError>
    ensures { OnOk result (list.new.items ≡ list.old.items ++ reach ∷ []) }
{
    list.push(reach)?;
    Ok(())
}

/// Whether a reach stands at a place of a list.
fn stands_at(list: &[Reach], place: usize, reach: &Reach) -> bool
    ensures { result ≡ true → (b : BitOfSignal) → is_reached reach.now b ≡ true → covered list.now b ≡ true }
{
    if place < list.len() {
        return is_same(&list[place], reach);
    }
    false
}

fn is_same(found: &Reach, reach: &Reach) -> bool
    ensures { result ≡ true → found.now ≡ reach.now }
{
    *found == *reach
}
