//! The paths through a combinational block, and the bits that are assigned on them.
ghost use Rattle.std.specs.Prelude.{◌≡◌, ◌≤◌, ◌&&◌, ◌||◌, not, length, take, drop, IfOk, OnOk};
ghost use Rattle.rr_expr.specs.declared.types.Bit.{Bit as BitOfSignal};
ghost use Rattle.rr_flat.specs.Targets.{same_bit};
ghost use Rattle.rr_named_bits.specs.Lists.{must, reaches as is_reached};
ghost use Rattle.rr_named_bits.specs.Pieces.{covers};
ghost use Rattle.rr_latch.specs.Paths.{Logged, assigned, listed};

use rr_flat::Bit;
use rr_named_bits::{Piece, Reach, Write};
use rr_writers::{BitTable, word_of};
use std::alloc::{AllocError, Global};

/// The bits that a block writes and has not assigned, each with the number 1, and the list of those
/// that it has assigned.
#[derive(Drop)]
pub(crate) struct Path {
    pub(crate) unassigned: BitTable,
    pub(crate) log: Vec<Bit>,
}

/// A bit gets its value on this path.
fn assign(path: &mut Path, bit: Bit) -> Result<(), AllocError>
    ensures set { OnOk result ((b : BitOfSignal) → assigned path.new.unassigned b ≡ (assigned path.old.unassigned b || same_bit bit b)) }
    ensures log { OnOk result (Logged path.old.log.items path.new.log.items (assigned path.old.unassigned) (assigned path.new.unassigned)) }
{
    if path.unassigned.get(bit) != 0 {
        path.unassigned.put(bit, 0)?;
        path.log.push(bit)?;
    }
    Ok(())
}

fn assign_piece(path: &mut Path, piece: &Piece) -> Result<(), AllocError>
    ensures set { OnOk result ((b : BitOfSignal) → assigned path.new.unassigned b ≡ (assigned path.old.unassigned b || covers piece.now b)) }
    ensures log { OnOk result (Logged path.old.log.items path.new.log.items (assigned path.old.unassigned) (assigned path.new.unassigned)) }
{
    let (low, high) = piece.range();
    for place in low..high {
        assign(
            path,
            Bit {
                signal: piece.signal,
                place,
            },
        )?;
    }
    Ok(())
}

fn assign_reach(path: &mut Path, reach: &Reach) -> Result<(), AllocError>
    ensures set { OnOk result ((b : BitOfSignal) → assigned path.new.unassigned b ≡ (assigned path.old.unassigned b || is_reached reach.now b)) }
    ensures log { OnOk result (Logged path.old.log.items path.new.log.items (assigned path.old.unassigned) (assigned path.new.unassigned)) }
{
    for word in 0..reach.words {
        let piece = word_of(reach, word)?;
        assign_piece(path, &piece)?;
    }
    Ok(())
}

pub(crate) fn assign_writes(path: &mut Path, writes: &[Write]) -> Result<(), AllocError>
    ensures set { OnOk result ((b : BitOfSignal) → assigned path.new.unassigned b ≡ (assigned path.old.unassigned b || must writes.now b)) }
    ensures log { OnOk result (Logged path.old.log.items path.new.log.items (assigned path.old.unassigned) (assigned path.new.unassigned)) }
{
    for write in writes.iter() {
        if write.certain {
            assign_reach(path, &write.reach)?;
        }
    }
    Ok(())
}

pub(crate) fn assign_bits(path: &mut Path, bits: &[Bit]) -> Result<(), AllocError>
    ensures set { OnOk result ((b : BitOfSignal) → assigned path.new.unassigned b ≡ (assigned path.old.unassigned b || listed bits.now b)) }
    ensures log { OnOk result (Logged path.old.log.items path.new.log.items (assigned path.old.unassigned) (assigned path.new.unassigned)) }
{
    for bit in bits.iter() {
        assign(path, *bit)?;
    }
    Ok(())
}

/// The bits that have been assigned since the list had a length are not assigned again.
pub(crate) fn undo(path: &mut Path, length_then: usize) -> Result<(), AllocError>
    requires { length_then ≤ length path.old.log.items }
    ensures set { OnOk result ((b : BitOfSignal) → assigned path.new.unassigned b ≡ (assigned path.old.unassigned b && not (listed (drop length_then path.old.log.items) b))) }
    ensures log { OnOk result (path.new.log.items ≡ take length_then path.old.log.items) }
{
    for at in length_then..path.log.len() {
        path.unassigned.put(path.log[at], 1)?;
    }
    path.log.truncate(length_then);
    Ok(())
}

/// The bits of a list that are assigned.
pub(crate) fn assigned_of(
    alloc: Global,
    table: &BitTable,
    bits: &[Bit],
) -> Result<Vec<Bit>, AllocError>
    ensures { IfOk result (λ v. (b : BitOfSignal) → listed v.items b ≡ (listed bits.now b && assigned table.now b)) }
{
    let mut kept = Vec::new(alloc);
    for bit in bits.iter() {
        if table.get(*bit) == 0 {
            kept.push(*bit)?;
        }
    }
    Ok(kept)
}
