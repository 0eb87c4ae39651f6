//! The nodes that a step names.
ghost use Rattle.std.specs.Prelude.{◌≡◌, ◌≤◌, ◌<◌, ◌+◌, ℕ, length, get_or, IfOk, OnOk, true};
ghost use Rattle.rr_expr.specs.declared.types.Bit.{Bit};
ghost use Rattle.rr_flat.specs.View.{plain_flat};
ghost use Rattle.rr_named_bits.specs.Lists.{covered, reaches as is_reached};
ghost use Rattle.rr_named_bits.specs.Pieces.{covers};
ghost use Rattle.rr_order.specs.Nodes.{Covered, Foreign, IsBit, IsLayout, IsRow, total, widths};

use crate::layout::{Layout, signal_count, width_of};
use crate::nodes::{add_places, push_node};
use rr_flat::Flat;
use rr_named_bits::{Piece, Reach};
use rr_writers::word_of;
use std::alloc::{AllocError, Global};

/// The nodes of the bits of these reaches without those that have this stamp, with one node for a signal
/// of which all bits are among them.
pub(crate) fn row_of(
    alloc: Global,
    flat: &Flat,
    layout: &Layout,
    reaches: &[Reach],
    own: &Vec<usize>,
    stamp: usize,
) -> Result<Vec<usize>, AllocError>
    requires layout { IsLayout (widths (plain_flat flat.now)) layout.now.starts.items layout.now.table.items }
    requires own { length own.now.items ≡ total (widths (plain_flat flat.now)) }
    ensures { IfOk result (λ r. IsRow (widths (plain_flat flat.now)) (λ b. (covered reaches.now b ≡ true) × Foreign (widths (plain_flat flat.now)) own.now.items stamp b) r.items) }
{
    let mut row = Vec::new(alloc);
    for reach in reaches.iter() {
        add_reach(flat, layout, &mut row, reach, own, stamp)?;
    }
    Ok(row)
}

/// Adds those of one reach, word by word.
fn add_reach(
    flat: &Flat,
    layout: &Layout,
    row: &mut Vec<usize>,
    reach: &Reach,
    own: &Vec<usize>,
    stamp: usize,
) -> Result<(), AllocError>
    requires layout { IsLayout (widths (plain_flat flat.now)) layout.now.starts.items layout.now.table.items }
    requires own { length own.now.items ≡ total (widths (plain_flat flat.now)) }
    ensures { OnOk result (Covered (widths (plain_flat flat.now)) row.old.items row.new.items (λ b. (is_reached reach.now b ≡ true) × Foreign (widths (plain_flat flat.now)) own.now.items stamp b)) }
{
    for word in 0..reach.words {
        let piece = word_of(reach, word)?;
        add_piece(flat, layout, row, &piece, own, stamp)?;
    }
    Ok(())
}

/// Adds those of one piece.
fn add_piece(
    flat: &Flat,
    layout: &Layout,
    row: &mut Vec<usize>,
    piece: &Piece,
    own: &Vec<usize>,
    stamp: usize,
) -> Result<(), AllocError>
    requires layout { IsLayout (widths (plain_flat flat.now)) layout.now.starts.items layout.now.table.items }
    requires own { length own.now.items ≡ total (widths (plain_flat flat.now)) }
    ensures { OnOk result (Covered (widths (plain_flat flat.now)) row.old.items row.new.items (λ b. (covers piece.now b ≡ true) × Foreign (widths (plain_flat flat.now)) own.now.items stamp b)) }
{
    let places = piece.range();
    if is_whole(flat, layout, piece.signal, places, own, stamp) {
        return push_node(row, layout.table.len() + piece.signal as usize);
    }
    add_places(flat, layout, row, piece.signal, places, own, stamp)
}

/// Whether a signal has all its bits at places from one up to before another, and none has this stamp.
fn is_whole(
    flat: &Flat,
    layout: &Layout,
    signal: u32,
    places: (u32, u32),
    own: &Vec<usize>,
    stamp: usize,
) -> bool
    requires layout { IsLayout (widths (plain_flat flat.now)) layout.now.starts.items layout.now.table.items }
    requires own { length own.now.items ≡ total (widths (plain_flat flat.now)) }
    ensures there { result ≡ true → signal < length (widths (plain_flat flat.now)) }
    ensures whole { result ≡ true → (b : Bit) → IsBit (widths (plain_flat flat.now)) b → b.signal ≡ signal → (places.0 ≤ b.place) × ((b.place < places.1) × Foreign (widths (plain_flat flat.now)) own.now.items stamp b) }
{
    let id = signal as usize;
    if id >= signal_count(flat) {
        return false;
    }
    let width = width_of(flat, id);
    let (low, high) = places;
    if low > 0 {
        return false;
    }
    if high < width {
        return false;
    }
    has_none(own, layout.starts[id], width as usize, stamp)
}

/// Whether none of so many nodes from one on has this stamp.
fn has_none(own: &Vec<usize>, from: usize, count: usize, stamp: usize) -> bool
    requires { from + count ≤ length own.now.items }
    ensures { result ≡ true → (i : ℕ) → i < count → get_or own.now.items (from + i) 0 ≡ stamp → ⊥ }
{
    for place in 0..count {
        if own[from + place] == stamp {
            return false;
        }
    }
    true
}
