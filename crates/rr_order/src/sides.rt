//! The sides of drivers.
ghost use Rattle.std.specs.Prelude.{◌≡◌, ◌<◌, [], length, IfOk, OnOk};
ghost use Rattle.rr_flat.specs.Plain.{Whole};
ghost use Rattle.rr_flat.specs.Sound.{IsSide};
ghost use Rattle.rr_flat.specs.View.{plain_flat, plain_side};
ghost use Rattle.rr_flat.specs.Writers.{SideReads, driven_by, side_is_wiring, side_signed, side_taken};
ghost use Rattle.rr_named_bits.specs.Lists.{Grown};
ghost use Rattle.rr_named_bits.specs.Pieces.{all_bits};

use crate::wiring::{add_taken, bits_of_all, is_wiring};
use rr_expr::{Bit, shape};
use rr_flat::{Flat, Side};
use rr_named_bits::{Piece, Reach, add_driven, add_named_bits, no_values, push_piece};
use std::alloc::{AllocError, Global};

/// The bits of a side as a target, lowest first; its indices are constant.
pub(crate) fn driven(
    alloc: Global,
    flat: &Flat,
    side: &Side,
) -> Result<Vec<Option<Bit>>, AllocError>
    requires { IsSide flat.now.signals flat.now.scopes side.now }
    ensures { IfOk result (λ r. r.items ≡ driven_by (plain_flat flat.now) (plain_side side.now)) }
{
    let mut pieces = Vec::new(alloc);
    add_driven(&mut pieces, flat, side, &no_values(alloc))?;
    bits_of_all(alloc, pieces.as_slice())
}

/// The bits that a side takes which only wires, lowest first.
pub(crate) fn taken(alloc: Global, flat: &Flat, side: &Side) -> Result<Vec<Option<Bit>>, AllocError>
    requires { IsSide flat.now.signals flat.now.scopes side.now }
    ensures { IfOk result (λ r. r.items ≡ side_taken (plain_flat flat.now) (plain_side side.now)) }
{
    let mut pieces = Vec::new(alloc);
    add_side(alloc, &mut pieces, flat, side)?;
    bits_of_all(alloc, pieces.as_slice())
}

fn add_side(
    alloc: Global,
    pieces: &mut Vec<Piece>,
    flat: &Flat,
    side: &Side,
) -> Result<(), AllocError>
    requires side { IsSide flat.now.signals flat.now.scopes side.now }
    requires none { pieces.old.items ≡ [] }
    ensures { OnOk result (all_bits pieces.new.items ≡ side_taken (plain_flat flat.now) (plain_side side.now)) }
{
    match side {
        Side::Whole(id) => push_piece(pieces, Piece::whole(flat, *id)),
        Side::Text { expr, scope } => {
            add_taken(pieces, expr, flat.scope_at(*scope), &no_values(alloc))
        }
    }
}

/// Adds the bits that a side reads.
pub(crate) fn add_named_by(
    alloc: Global,
    reaches: &mut Vec<Reach>,
    flat: &Flat,
    side: &Side,
) -> Result<(), AllocError>
    requires { IsSide flat.now.signals flat.now.scopes side.now }
    ensures { OnOk result (Grown reaches.old.items reaches.new.items (SideReads (plain_flat flat.now) (plain_side side.now))) }
{
    match side {
        Side::Whole(id) => add_signal(reaches, flat, *id),
        Side::Text { expr, scope } => add_named_bits(alloc, reaches, expr, flat.scope_at(*scope)),
    }
}

/// Adds all bits of a signal.
fn add_signal(reaches: &mut Vec<Reach>, flat: &Flat, id: u32) -> Result<(), AllocError>
    requires { id < length flat.now.signals }
    ensures { OnOk result (Grown reaches.old.items reaches.new.items (SideReads (plain_flat flat.now) (Whole id))) }
{
    reaches.push(Reach {
        piece: Piece::whole(flat, id),
        words: 1,
    })?;
    Ok(())
}

/// Whether a side only takes bits.
pub(crate) fn wires(flat: &Flat, side: &Side) -> bool
    requires { IsSide flat.now.signals flat.now.scopes side.now }
    ensures { result ≡ side_is_wiring (plain_flat flat.now) (plain_side side.now) }
{
    match side {
        Side::Whole(_) => true,
        Side::Text { expr, scope } => is_wiring(expr, flat.scope_at(*scope)),
    }
}

/// Whether a side is signed.
pub(crate) fn is_signed(flat: &Flat, side: &Side) -> bool
    requires { IsSide flat.now.signals flat.now.scopes side.now }
    ensures { result ≡ side_signed (plain_flat flat.now) (plain_side side.now) }
{
    match side {
        Side::Whole(id) => flat.signal_at(*id).signed,
        Side::Text { expr, scope } => match shape(expr, flat.scope_at(*scope)) {
            Ok(own) => own.signed,
            Err(_) => false,
        },
    }
}
