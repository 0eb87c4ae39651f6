//! Bits that are written.
ghost use Rattle.std.specs.Prelude.{◌≡◌, ◌≤◌, ◌<◌, ◌+◌, ◌-◌, ◌∷◌, ◌++◌, [], ℕ, All, OnOk, cond, false, get_or, length, nat_lt, not, ◌&&◌, drop};
ghost use Rattle.rr_bits.specs.Words.{word as word_of};
ghost use Rattle.rr_expr.specs.Scopes.{env_of};
ghost use Rattle.rr_named_bits.specs.Pieces.{all_bits, bits_of};
ghost use Rattle.rr_cycle.specs.Exec.{Environment, applied, write};
ghost use Rattle.rr_exec.specs.Work.{Fits, IsLater, updates_in};

use rr_bits::Bits;
use rr_named_bits::Piece;
use std::alloc::AllocError;

/// A run of places that a nonblocking assignment named when it ran, and the word whose bits from a
/// place up they take later (IEEE 1364-2005 section 9.2.2).
#[derive(Clone, Copy)]
pub struct Later {
    pub piece: Piece,
    pub bits: Bits,
    pub from: u32,
}

/// A number in which the places from `low` up have the bits of a word.
pub fn merged(old: u128, low: u32, part: Bits) -> u128
    requires { low + length part ≤ 128 }
    ensures { (p : ℕ) → get_or (word_of 128 result) p false ≡ cond (not (nat_lt p low) && nat_lt p (low + length part)) (get_or part (p - low) false) (get_or (word_of 128 old) p false) }
{
    let here = Bits::from_u128(part.width(), old >> low);
    old ^ (here.xor(part).to_u128() << low)
}

/// The bits of a piece take those of a word from a place up.
fn write_piece(values: &mut Vec<u128>, piece: &Piece, bits: Bits, from: u32)
    requires fits { Fits (length values.old.items) piece.now }
    requires from { from ≤ 128 }
    ensures env { env_of values.new.items ≡ write (bits_of piece.now) (drop from bits) (env_of values.old.items) }
    ensures count { length values.new.items ≡ length values.old.items }
{
    let (low, high) = piece.range();
    if low < high {
        let place = from as i64 + (low as i64 - piece.from);
        let part = bits.select(place, high - low);
        let signal = piece.signal as usize;
        values[signal] = merged(values[signal], low, part);
    }
}

/// The bits of all pieces take those of a word, the last piece the lowest.
pub fn write_pieces(values: &mut Vec<u128>, pieces: &[Piece], bits: Bits)
    requires fits { All (Fits (length values.old.items)) pieces.now }
    requires few { length (all_bits pieces.now) ≤ 128 }
    ensures env { env_of values.new.items ≡ write (all_bits pieces.now) bits (env_of values.old.items) }
    ensures count { length values.new.items ≡ length values.old.items }
{
    let mut from = 0;
    let mut left = pieces.len();
    while left > 0 {
        left -= 1;
        let piece = &pieces[left];
        write_piece(values, piece, bits, from);
        from += piece.count;
    }
}

fn push_later(list: &mut Vec<Later>, later: Later) -> Result<(), AllocError>
    ensures { OnOk result (list.new.items ≡ list.old.items ++ later ∷ []) }
{
    list.push(later)?;
    Ok(())
}

/// All pieces take the bits of a word later, the last piece the lowest.
pub(crate) fn postpone(
    list: &mut Vec<Later>,
    pieces: &[Piece],
    bits: Bits,
) -> Result<(), AllocError>
    requires few { length (all_bits pieces.now) ≤ 128 }
    ensures later { OnOk result ((e : Environment) → applied (updates_in list.new.items) e ≡ write (all_bits pieces.now) bits (applied (updates_in list.old.items) e)) }
    ensures fits { OnOk result ((n : ℕ) → All (Fits n) pieces.now → All (IsLater n) list.old.items → All (IsLater n) list.new.items) }
{
    let mut from = 0;
    let mut left = pieces.len();
    while left > 0 {
        left -= 1;
        let piece = pieces[left];
        push_later(list, Later { piece, bits, from })?;
        from += piece.count;
    }
    Ok(())
}

/// The updates in their order.
pub fn apply(values: &mut Vec<u128>, list: &[Later])
    requires fits { All (IsLater (length values.old.items)) list.now }
    ensures env { env_of values.new.items ≡ applied (updates_in list.now) (env_of values.old.items) }
    ensures count { length values.new.items ≡ length values.old.items }
{
    for later in list.iter() {
        write_piece(values, &later.piece, later.bits, later.from);
    }
}
