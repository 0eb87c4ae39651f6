//! The bits that a block reads before it assigns them, each noted once.
ghost use Rattle.std.specs.Prelude.{◌≡◌, [], None, true, false, OnOk};
ghost use Rattle.rr_syntax.specs.View.{plain, plain_list};
ghost use Rattle.rr_expr.specs.Faults.{fault};
ghost use Rattle.rr_expr.specs.Reading.{NamesBit, NamesBits};
ghost use Rattle.rr_flat.specs.Reads.{TargetReads};
ghost use Rattle.rr_flat.specs.Targets.{same_bit};
ghost use Rattle.rr_flat.specs.Shapes.{list_faults};
ghost use Rattle.rr_named_bits.specs.Lists.{covered, reaches as is_reached};
ghost use Rattle.rr_named_bits.specs.Pieces.{covers};
ghost use Rattle.rr_latch.specs.Notes.{Noted, Unassigned};

use rr_expr::Scope;
use rr_flat::Bit;
use rr_named_bits::{Piece, Reach, add_named_bits, add_target_reads};
use rr_syntax::Expr;
use rr_writers::{BitTable, word_of};
use std::alloc::{AllocError, Global};

/// The bits that a block writes and that are not noted, each with the number 1, and the list of the
/// noted ones, each once.
#[derive(Drop)]
pub(crate) struct Early {
    pub(crate) unnoted: BitTable,
    pub(crate) bits: Vec<Bit>,
}

/// Notes a bit if it is not assigned.
fn note(early: &mut Early, bit: Bit, table: &BitTable) -> Result<(), AllocError>
    ensures { OnOk result (Noted (Unassigned table.now (λ b. same_bit bit b ≡ true)) early.old early.new) }
{
    if table.get(bit) != 0 && early.unnoted.get(bit) != 0 {
        early.unnoted.put(bit, 0)?;
        early.bits.push(bit)?;
    }
    Ok(())
}

/// The same of the bits of a piece.
fn note_piece(early: &mut Early, piece: &Piece, table: &BitTable) -> Result<(), AllocError>
    ensures { OnOk result (Noted (Unassigned table.now (λ b. covers piece.now b ≡ true)) early.old early.new) }
{
    let (low, high) = piece.range();
    for place in low..high {
        note(
            early,
            Bit {
                signal: piece.signal,
                place,
            },
            table,
        )?;
    }
    Ok(())
}

/// The same, where a signal without a bit to note is not looked through: each word of a memory is once.
fn note_word(early: &mut Early, piece: &Piece, table: &BitTable) -> Result<(), AllocError>
    ensures { OnOk result (Noted (Unassigned table.now (λ b. covers piece.now b ≡ true)) early.old early.new) }
{
    if table.is_blank(piece.signal) {
        return Ok(());
    }
    if early.unnoted.is_blank(piece.signal) {
        return Ok(());
    }
    note_piece(early, piece, table)
}

/// The same of the bits of a reach.
fn note_reach(early: &mut Early, reach: &Reach, table: &BitTable) -> Result<(), AllocError>
    ensures { OnOk result (Noted (Unassigned table.now (λ b. is_reached reach.now b ≡ true)) early.old early.new) }
{
    for word in 0..reach.words {
        let piece = word_of(reach, word)?;
        note_word(early, &piece, table)?;
    }
    Ok(())
}

/// The same of the bits of some reaches.
pub(crate) fn note_reaches(
    early: &mut Early,
    reaches: &[Reach],
    table: &BitTable,
) -> Result<(), AllocError>
    ensures { OnOk result (Noted (Unassigned table.now (λ b. covered reaches.now b ≡ true)) early.old early.new) }
{
    for reach in reaches.iter() {
        note_reach(early, reach, table)?;
    }
    Ok(())
}

/// The same of the bits that an expression names.
pub(crate) fn read(
    alloc: Global,
    expr: &Expr,
    names: &Scope,
    table: &BitTable,
    early: &mut Early,
) -> Result<(), AllocError>
    requires { fault names.now (plain expr.now) false ≡ None }
    ensures { OnOk result (Noted (Unassigned table.now (NamesBit names.now (plain expr.now))) early.old early.new) }
{
    let mut reaches = Vec::new(alloc);
    add_named_bits(alloc, &mut reaches, expr, names)?;
    note_reaches(early, reaches.as_slice(), table)
}

/// The same of the bits that the labels of an arm name.
pub(crate) fn read_labels(
    alloc: Global,
    labels: &[Expr],
    names: &Scope,
    table: &BitTable,
    early: &mut Early,
) -> Result<(), AllocError>
    requires { list_faults names.now (plain_list labels.now) ≡ [] }
    ensures { OnOk result (Noted (Unassigned table.now (NamesBits names.now (plain_list labels.now))) early.old early.new) }
{
    for label in labels.iter() {
        read(alloc, label, names, table, early)?;
    }
    Ok(())
}

/// The same of the bits that the indices of a target name.
pub(crate) fn read_target(
    alloc: Global,
    target: &Expr,
    names: &Scope,
    table: &BitTable,
    early: &mut Early,
) -> Result<(), AllocError>
    requires { fault names.now (plain target.now) false ≡ None }
    ensures { OnOk result (Noted (Unassigned table.now (TargetReads names.now (plain target.now))) early.old early.new) }
{
    let mut reaches = Vec::new(alloc);
    add_target_reads(alloc, &mut reaches, target, names)?;
    note_reaches(early, reaches.as_slice(), table)
}
