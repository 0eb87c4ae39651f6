//! The bits that clocked blocks write.
ghost use Rattle.std.specs.Prelude.{◌≡◌, ◌<◌, ◌||◌, IfOk, OnOk, true, length};
ghost use Rattle.rr_expr.specs.Scopes.{env_of};
ghost use Rattle.rr_expr.specs.declared.types.Bit.{Bit as FlatBit};
ghost use Rattle.rr_flat.specs.Signals.{signal_at};
ghost use Rattle.rr_flat.specs.View.{plain_flat};
ghost use Rattle.rr_named_bits.specs.Lists.{covered, may, reaches};
ghost use Rattle.rr_named_bits.specs.Pieces.{covers};
ghost use Rattle.rr_cycle.specs.Performing.{any_writes};
ghost use Rattle.rr_exec.specs.Work.{Fits};

use rr_bits::Bits;
use rr_exec::merged;
use rr_flat::Flat;
use rr_named_bits::{Piece, Reach, Write};
use rr_writers::{BitTable, add_assigned_bits, distinct_writes, word_of};
use std::alloc::{AllocError, Global};

/// The bits of a piece are one.
fn mark(masks: &mut Vec<u128>, piece: &Piece)
    requires { Fits (length masks.old.items) piece.now }
    ensures env { (b : FlatBit) → env_of masks.new.items b ≡ (covers piece.now b || env_of masks.old.items b) }
    ensures count { length masks.new.items ≡ length masks.old.items }
{
    let (low, high) = piece.range();
    if low < high {
        let signal = piece.signal as usize;
        masks[signal] = merged(masks[signal], low, Bits::from_u128(high - low, u128::MAX));
    }
}

/// The bits of a reach are one: of a memory those of each word.
fn mark_all(masks: &mut Vec<u128>, reach: &Reach) -> Result<(), AllocError>
    requires { (b : FlatBit) → reaches reach.now b ≡ true → (b.signal < length masks.old.items) × (b.place < 128) }
    ensures env { OnOk result ((b : FlatBit) → env_of masks.new.items b ≡ (reaches reach.now b || env_of masks.old.items b)) }
    ensures count { OnOk result (length masks.new.items ≡ length masks.old.items) }
{
    for word in 0..reach.words {
        let piece = word_of(reach, word)?;
        mark(masks, &piece);
    }
    Ok(())
}

/// For each signal the places that clocked blocks may write, as a mask; by an index that is not constant
/// a block may write each word of a memory (IEEE 1364-2005 section 5.2.2).
pub fn register_masks(alloc: Global, flat: &Flat) -> Result<Vec<u128>, AllocError>
    ensures env { IfOk result (λ r. (b : FlatBit) → env_of r.items b ≡ any_writes (plain_flat flat.now) (plain_flat flat.now).clocked b) }
    ensures count { IfOk result (λ r. length r.items ≡ length flat.now.signals) }
    ensures there { IfOk result (λ r. (b : FlatBit) → env_of r.items b ≡ true → (b.signal < length flat.now.signals) × (b.place < (signal_at (plain_flat flat.now).signals b.signal).width)) }
{
    let list = reached(alloc, flat)?;
    let mut masks = vec![in alloc; 0u128; flat.signals.len()]?;
    for reach in list.iter() {
        mark_all(&mut masks, reach)?;
    }
    Ok(masks)
}

/// What the clocked blocks may write, each memory once.
fn reached(alloc: Global, flat: &Flat) -> Result<Vec<Reach>, AllocError>
    ensures { IfOk result (λ r. (b : FlatBit) → covered r.items b ≡ any_writes (plain_flat flat.now) (plain_flat flat.now).clocked b) }
{
    let writes = written(alloc, flat)?;
    let mut seen = BitTable::new(alloc);
    let list = distinct_writes(alloc, writes.as_slice(), &mut seen)?;
    Ok(list)
}

/// The targets of all clocked blocks.
fn written(alloc: Global, flat: &Flat) -> Result<Vec<Write>, AllocError>
    ensures { IfOk result (λ r. (b : FlatBit) → may r.items b ≡ any_writes (plain_flat flat.now) (plain_flat flat.now).clocked b) }
{
    let mut list = Vec::new(alloc);
    for block in flat.clocked_blocks().iter() {
        let names = flat.scope_at(block.scope);
        add_assigned_bits(alloc, &mut list, block.body, names, true)?;
    }
    Ok(list)
}
