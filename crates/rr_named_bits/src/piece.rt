//! Runs of places of a signal.
ghost use Rattle.std.specs.Prelude.{◌≡◌, ◌<◌, ◌≤◌, ◌++◌, ◌∷◌, [], None, OnOk, get_or, length, min, not, pos, ◌+ℤ◌, ◌&&◌, nat_eq, nat_lt};
ghost use Rattle.rr_expr.specs.Selects.{count as at_least_zero};
ghost use Rattle.rr_expr.specs.declared.types.Bit.{Bit as BitOfSignal};
ghost use Rattle.rr_flat.specs.Signals.{signal_at};
ghost use Rattle.rr_flat.specs.View.{plain_flat};
ghost use Rattle.rr_flat.specs.Writers.{signal_bits};
ghost use Rattle.rr_named_bits.specs.Lists.{reaches};
ghost use Rattle.rr_named_bits.specs.Pieces.{all_bits, bit_in, bits_of, covers};

use rr_flat::{Bit, Flat};
use std::alloc::AllocError;

/// `count` places of a signal of `width` bits, from the place `from` up (IEEE 1364-2005 section
/// 5.2.1). Place 0 is the right bound of the signal's range; a place below 0 or past the width has no
/// bit. What names no signal has a width of 0.
#[derive(Clone, Copy, Debug, PartialEq, Eq)]
pub struct Piece {
    pub signal: u32,
    pub width: u32,
    pub from: i64,
    pub count: u32,
}

/// The bits that a text may name whatever the values are: where `words` is 1 the places of the piece's
/// signal, else the same places of each of `words` signals from the piece's on, which are the words of
/// a memory (section 5.2.2).
#[derive(Clone, Copy, Debug, PartialEq, Eq)]
pub struct Reach {
    pub piece: Piece,
    pub words: u32,
}

impl Reach {
    /// The bits of one piece.
    pub fn one(piece: Piece) -> Reach
        ensures value { result ≡ record { piece = piece; words = 1 } }
        ensures bits { (b : BitOfSignal) → reaches result b ≡ covers piece b }
    {
        Reach { piece, words: 1 }
    }
}

impl Piece {
    /// So many places without a bit.
    pub fn absent(count: u32) -> Piece
        ensures { result ≡ record { signal = 0; width = 0; from = pos 0; count = count } }
    {
        Piece {
            signal: 0,
            width: 0,
            from: 0,
            count,
        }
    }

    /// All bits of a signal.
    pub fn whole(flat: &Flat, id: u32) -> Piece
        requires { id < length flat.now.signals }
        ensures bits { bits_of result ≡ signal_bits (plain_flat flat.now) id }
        ensures value { result ≡ record { signal = id; width = (signal_at (plain_flat flat.now).signals id).width; from = pos 0; count = (signal_at (plain_flat flat.now).signals id).width } }
        ensures high { result.count ≤ 128 }
    {
        let width = flat.signal_at(id).width;
        Piece {
            signal: id,
            width,
            from: 0,
            count: width,
        }
    }

    /// The bit at a place counted from the piece's lowest one, where there is one.
    pub fn bit(&self, place: u32) -> Option<Bit>
        ensures { result ≡ bit_in self.now (self.now.from +ℤ pos place) }
    {
        if self.from >= self.width as i64 {
            return None;
        }
        let at = self.from + place as i64;
        if at < 0 || at >= self.width as i64 {
            return None;
        }
        Some(Bit {
            signal: self.signal,
            place: at as u32,
        })
    }

    /// The places that have bits: from the first of the two up to before the second.
    pub fn range(&self) -> (u32, u32)
        ensures covered { (b : BitOfSignal) → covers self.now b ≡ (nat_eq self.now.signal b.signal && (not (nat_lt b.place result.0) && nat_lt b.place result.1)) }
        ensures within { result.1 ≤ self.now.width }
    {
        let end = if self.from < self.width as i64 {
            self.from + self.count as i64
        } else {
            self.from
        };
        (clamped(self.from, self.width), clamped(end, self.width))
    }
}

/// A place within a width, or the nearest end.
fn clamped(place: i64, width: u32) -> u32
    ensures { result ≡ min (at_least_zero place) width }
{
    if place < 0 {
        0
    } else if place < width as i64 {
        place as u32
    } else {
        width
    }
}

/// Adds a piece whose bits come below those of the others.
#[tactic(auto, using(crate::proofs::Growing::pushes))]
pub fn push_piece(list: &mut Vec<Piece>, piece: Piece) -> Result<(), AllocError>
    ensures items { OnOk result (list.new.items ≡ list.old.items ++ piece ∷ []) }
    ensures bits { OnOk result (all_bits list.new.items ≡ bits_of piece ++ all_bits list.old.items) }
{
    list.push(piece)?;
    Ok(())
}

/// The bit that a place of the pieces names, counted from the last piece's lowest one up; `None` where
/// there is none.
pub fn named_bit(pieces: &[Piece], place: u32) -> Option<Bit>
    requires few { length (all_bits pieces.now) ≤ 128 }
    ensures { result ≡ get_or (all_bits pieces.now) place None }
{
    let mut from = 0;
    let mut left = pieces.len();
    while left > 0 {
        left -= 1;
        let piece = &pieces[left];
        if place < from + piece.count {
            return piece.bit(place - from);
        }
        from += piece.count;
    }
    None
}
