//! Numbers put at the bits of pieces, unless one is taken.
ghost use Rattle.std.specs.Prelude.{◌≡◌, ◌<◌, IfOk, IfNone, IfSome, true, false};
ghost use Rattle.rr_named_bits.specs.Lists.{covered, reaches as is_reached};
ghost use Rattle.rr_named_bits.specs.Pieces.{all_bits, covers};
ghost use Rattle.rr_writers.specs.Marks.{is_free as is_free_number, IsTaken, IsTwice, ListMarked, SetMarked};
ghost use Rattle.rr_writers.specs.Tables.{entry};

use crate::reaches::word_of;
use crate::table::BitTable;
use rr_flat::Bit;
use rr_named_bits::{Piece, Reach};
use std::alloc::AllocError;

/// Puts a number at each bit of a piece, up to the first that has one already; with `again` the same
/// number may stand there.
fn mark_piece(
    table: &mut BitTable,
    piece: &Piece,
    number: usize,
    again: bool,
) -> Result<Option<Bit>, AllocError>
    ensures none { IfOk result (λ r. IfNone r (SetMarked again number (covers piece.now) (entry table.old) (entry table.new))) }
    ensures some { IfOk result (λ r. IfSome r (IsTaken again number (covers piece.now) (entry table.old) (entry table.new))) }
{
    let (low, high) = piece.range();
    for place in low..high {
        let bit = Bit {
            signal: piece.signal,
            place,
        };
        if !is_free(table.get(bit), number, again) {
            return Ok(Some(bit));
        }
        table.put(bit, number)?;
    }
    Ok(None)
}

fn is_free(found: usize, number: usize, again: bool) -> bool
    ensures { result ≡ is_free_number again number found }
{
    found == 0 || again && found == number
}

/// Puts a number at each bit of some pieces, up to the first that has one already or stands there
/// twice.
pub(crate) fn mark_pieces(
    table: &mut BitTable,
    pieces: &[Piece],
    number: usize,
) -> Result<Option<Bit>, AllocError>
    requires { 0 < number }
    ensures none { IfOk result (λ r. IfNone r (ListMarked number (all_bits pieces.now) (entry table.old) (entry table.new))) }
    ensures some { IfOk result (λ r. IfSome r (IsTwice number (all_bits pieces.now) (entry table.old) (entry table.new))) }
{
    for piece in pieces.iter() {
        let taken = mark_piece(table, piece, number, false)?;
        if taken.is_some() {
            return Ok(taken);
        }
    }
    Ok(None)
}

/// Puts a number at each bit of a reach, up to the first that has another one.
fn mark_reach(table: &mut BitTable, reach: &Reach, number: usize) -> Result<Option<Bit>, AllocError>
    ensures none { IfOk result (λ r. IfNone r (SetMarked true number (is_reached reach.now) (entry table.old) (entry table.new))) }
    ensures some { IfOk result (λ r. IfSome r (IsTaken true number (is_reached reach.now) (entry table.old) (entry table.new))) }
{
    for word in 0..reach.words {
        let piece = word_of(reach, word)?;
        let taken = mark_piece(table, &piece, number, true)?;
        if taken.is_some() {
            return Ok(taken);
        }
    }
    Ok(None)
}

/// The same of some reaches.
pub(crate) fn mark_reaches(
    table: &mut BitTable,
    reaches: &[Reach],
    number: usize,
) -> Result<Option<Bit>, AllocError>
    ensures none { IfOk result (λ r. IfNone r (SetMarked true number (covered reaches.now) (entry table.old) (entry table.new))) }
    ensures some { IfOk result (λ r. IfSome r (IsTaken true number (covered reaches.now) (entry table.old) (entry table.new))) }
{
    for reach in reaches.iter() {
        let taken = mark_reach(table, reach, number)?;
        if taken.is_some() {
            return Ok(taken);
        }
    }
    Ok(None)
}
