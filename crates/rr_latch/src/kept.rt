//! The bits that a combinational block keeps.
ghost use Rattle.std.specs.Prelude.{◌≡◌, [], true, cond, IfOk, OnOk, ◌||◌};
ghost use Rattle.rr_syntax.specs.View.{plain_statement};
ghost use Rattle.rr_expr.specs.declared.types.Bit.{Bit as BitOfSignal};
ghost use Rattle.rr_flat.specs.Shapes.{statement_faults};
ghost use Rattle.rr_named_bits.specs.Lists.{covered, reaches as is_reached};
ghost use Rattle.rr_named_bits.specs.Pieces.{covers};
ghost use Rattle.rr_latch.specs.Immediate.{immediate};
ghost use Rattle.rr_latch.specs.Notes.{is_shut};
ghost use Rattle.rr_latch.specs.Paths.{assigned, counted, listed};
ghost use Rattle.rr_latch.specs.Rooms.{IsBlank};
ghost use Rattle.rr_latch.specs.Unassigned.{KeepsBit};
ghost use Rattle.rr_writers.specs.Tables.{entry};

use crate::branches::run;
use crate::early::{Early, note_reaches};
use crate::paths::Path;
use rr_expr::Scope;
use rr_flat::Bit;
use rr_named_bits::{Piece, Reach};
use rr_syntax::Stmt;
use rr_writers::{BitTable, add_assigned_bits, distinct_writes, word_of};
use std::alloc::{AllocError, Global};

/// Puts a number at the bits of a piece.
fn put_piece(table: &mut BitTable, piece: &Piece, number: usize) -> Result<(), AllocError>
    ensures { OnOk result ((b : BitOfSignal) → entry table.new b ≡ cond (covers piece.now b) number (entry table.old b)) }
{
    let (low, high) = piece.range();
    for place in low..high {
        table.put(
            Bit {
                signal: piece.signal,
                place,
            },
            number,
        )?;
    }
    Ok(())
}

fn put_reach(table: &mut BitTable, reach: &Reach, number: usize) -> Result<(), AllocError>
    ensures { OnOk result ((b : BitOfSignal) → entry table.new b ≡ cond (is_reached reach.now b) number (entry table.old b)) }
{
    for word in 0..reach.words {
        let piece = word_of(reach, word)?;
        put_piece(table, &piece, number)?;
    }
    Ok(())
}

fn put_all(table: &mut BitTable, reaches: &[Reach], number: usize) -> Result<(), AllocError>
    ensures { OnOk result ((b : BitOfSignal) → entry table.new b ≡ cond (covered reaches.now b) number (entry table.old b)) }
{
    for reach in reaches.iter() {
        put_reach(table, reach, number)?;
    }
    Ok(())
}

/// Lists the bits that a block keeps; with `later` each `<=` that assigns counts as `=`. Before it and,
/// where it keeps none, after it each bit is assigned; before and after it none may be noted. `seen` may
/// hold anything.
pub(crate) fn list_kept(
    alloc: Global,
    body: &Stmt,
    names: &Scope,
    later: bool,
    path: &mut Path,
    early: &mut Early,
    seen: &mut BitTable,
) -> Result<(), AllocError>
    requires shaped { statement_faults names.now (plain_statement body.now) ≡ [] }
    requires assigned { (b : BitOfSignal) → assigned path.old.unassigned b ≡ true }
    requires shut { (b : BitOfSignal) → is_shut early.old b ≡ true }
    requires empty { early.old.bits.items ≡ [] }
    ensures kept { OnOk result ((b : BitOfSignal) → listed early.new.bits.items b ≡ true → KeepsBit names.now (counted later (plain_statement body.now)) b) }
    ensures all { OnOk result ((b : BitOfSignal) → KeepsBit names.now (counted later (plain_statement body.now)) b → listed early.new.bits.items b ≡ true) }
    ensures left { OnOk result (early.new.bits.items ≡ [] → (b : BitOfSignal) → assigned path.new.unassigned b ≡ true) }
    ensures shut { OnOk result ((b : BitOfSignal) → is_shut early.new b ≡ true) }
    ensures closed { OnOk result ((b : BitOfSignal) → (assigned path.new.unassigned b || listed early.new.bits.items b) ≡ true) }
{
    let mut writes = Vec::new(alloc);
    add_assigned_bits(alloc, &mut writes, body, names, later)?;
    let reaches = distinct_writes(alloc, writes.as_slice(), seen)?;
    put_all(&mut path.unassigned, reaches.as_slice(), 1)?;
    put_all(&mut early.unnoted, reaches.as_slice(), 1)?;
    run(alloc, body, names, later, path, early)?;
    note_reaches(early, reaches.as_slice(), &path.unassigned)?;
    put_all(&mut early.unnoted, reaches.as_slice(), 0)
}

/// Room for the bits of blocks that are asked one after the other. Between two of them each bit is assigned
/// and none may be noted, so that no block makes tables of its own.
#[derive(Drop)]
pub struct Room {
    path: Path,
    early: Early,
    seen: BitTable,
}

impl Room {
    /// Room for the first block.
    pub fn new(alloc: Global) -> Room
        ensures { IsBlank result }
    {
        Room {
            path: Path {
                unassigned: BitTable::new(alloc),
                log: Vec::new(alloc),
            },
            early: Early {
                unnoted: BitTable::new(alloc),
                bits: Vec::new(alloc),
            },
            seen: BitTable::new(alloc),
        }
    }
}

/// The bits of a list are assigned.
fn forget(table: &mut BitTable, bits: &[Bit]) -> Result<(), AllocError>
    ensures { OnOk result ((b : BitOfSignal) → assigned table.new b ≡ (assigned table.old b || listed bits.now b)) }
{
    for bit in bits.iter() {
        table.put(*bit, 0)?;
    }
    Ok(())
}

/// The bits that a combinational block keeps where each `<=` that assigns is `=`, each once: they are read
/// before they are assigned on some path, or are not assigned on some path to the end (IEEE 1364-2005
/// sections 9.2.1, 9.2.2, 9.4 and 9.5). Each expression of the block has a shape. Paths are those of
/// `first_latch`. The room is as it was before the block, and is not to be used again after an error, which
/// is want of memory.
pub fn latched_bits(
    alloc: Global,
    body: &Stmt,
    names: &Scope,
    room: &mut Room,
) -> Result<Vec<Bit>, AllocError>
    requires shaped { statement_faults names.now (plain_statement body.now) ≡ [] }
    requires blank { IsBlank room.old }
    ensures kept { IfOk result (λ bits. (b : BitOfSignal) → listed bits.items b ≡ true → KeepsBit names.now (immediate (plain_statement body.now)) b) }
    ensures all { IfOk result (λ bits. (b : BitOfSignal) → KeepsBit names.now (immediate (plain_statement body.now)) b → listed bits.items b ≡ true) }
    ensures blank { OnOk result (IsBlank room.new) }
{
    list_kept(
        alloc,
        body,
        names,
        true,
        &mut room.path,
        &mut room.early,
        &mut room.seen,
    )?;
    let bits = Vec::from_slice(alloc, room.early.bits.as_slice())?;
    forget(&mut room.path.unassigned, bits.as_slice())?;
    room.path.log.clear();
    room.early.bits.clear();
    Ok(bits)
}
