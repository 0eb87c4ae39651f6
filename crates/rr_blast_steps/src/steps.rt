//! Steps of a cycle and the clock edge on wires (IEEE 1364-2005 sections 6.1, 9.2 and 9.9).
ghost use Rattle.std.specs.Prelude.{◌≡◌, ◌<◌, ◌≤◌, ℕ, Bool, List, IfOk, OnOk, length};
ghost use Rattle.rr_circuit.specs.Values.{Extends, AreWires, wire_values};
ghost use Rattle.rr_syntax.specs.View.{plain_statement};
ghost use Rattle.rr_flat.specs.Sound.{IsBlock, IsDriver, IsSide};
ghost use Rattle.rr_flat.specs.View.{plain_driver, plain_flat, plain_side};
ghost use Rattle.rr_flat.specs.Writers.{driven_by, scope_at};
ghost use Rattle.rr_flat.specs.declared.design.Step.TheVariants as step;
ghost use Rattle.rr_cycle.specs.Cycles.{side_shape as shape_of_side, side_value as value_of_side};
ghost use Rattle.rr_cycle.specs.Exec.{Environment, write};
ghost use Rattle.rr_cycle.specs.Performing.{act};
ghost use Rattle.rr_blast_steps.specs.Designs.{driver_value_of, ran_blocks, signal_widths};
ghost use Rattle.rr_flat_instance.specs.Flats.{instance_driver, instance_flat, instance_side};
ghost use Rattle.rr_blast_body.specs.Overwrites.{body_instance};
ghost use Rattle.rr_blast_stmt.specs.Running.{IsMachine, held, ran};
ghost use Rattle.rr_signal_wires.specs.GuardedPieces.{AreGuardedPieces, put_guarded_pieces};
ghost use Rattle.rr_signal_wires.specs.Words.{AreWords, carried, widths_of};
ghost use Rattle.rr_blast_terms.specs.Choosing.{IsReady, picks_of};

use rr_blast_body::execute_body;
use rr_blast_stmt::Machine;
use rr_blast_terms::{ChoiceWires, wires};
use rr_circuit::{Builder, Wire};
use rr_expr::{Shape, shape_of};
use rr_flat::{Block, Driver, Flat, Side};
use rr_named_bits::Piece;
use rr_signal_wires::{GuardedPiece, add_fixed, push_guarded_piece, put_all};
use rr_word_gates::extended;
use std::alloc::{AllocError, Global};

/// The width and the sign of a side.
fn side_shape(flat: &Flat, side: &Side) -> Shape
    requires { IsSide flat.now.signals flat.now.scopes side.now }
    ensures value { result ≡ shape_of_side (plain_flat flat.now) (plain_side side.now) }
    ensures high { result.width ≤ 128 }
{
    match side {
        Side::Text { expr, scope } => shape_of(expr, &flat.scopes[*scope as usize]),
        Side::Whole(id) => {
            let signal = &flat.signals[*id as usize];
            Shape {
                width: signal.width,
                signed: signal.signed,
            }
        }
    }
}

/// The value of a side's instance in a context of a width and a sign.
fn side_wires(
    alloc: Global,
    b: &mut Builder,
    flat: &Flat,
    side: &Side,
    choice: &ChoiceWires,
    words: &[Vec<Wire>],
    width: u32,
    signed: bool,
) -> Result<Vec<Wire>, AllocError>
    requires side { IsSide flat.now.signals flat.now.scopes side.now }
    requires low { (shape_of_side (plain_flat flat.now) (plain_side side.now)).width ≤ width }
    requires high { width ≤ 128 }
    requires words { AreWords b.old words.now }
    requires widths { widths_of words.now ≡ signal_widths flat.now.signals }
    requires choice { IsReady b.old choice.now }
    ensures extends { Extends b.old b.new }
    ensures wires { IfOk result (λ r. AreWires b.new r.items) }
    ensures value { IfOk result (λ r. (env : ℕ → Bool) → wire_values b.new env r.items
        ≡ value_of_side (plain_flat flat.now) (instance_side choice.now.sites.now (picks_of b.old env choice.now) (plain_side side.now)) (carried b.old env words.now) width signed) }
{
    match side {
        Side::Text { expr, scope } => {
            let scope = &flat.scopes[*scope as usize];
            let bits = wires(alloc, b, expr, scope, words, choice, width, signed)?;
            Ok(bits)
        }
        Side::Whole(id) => {
            let bits = extended(alloc, b, words[*id as usize].as_slice(), width, signed)?;
            Ok(bits)
        }
    }
}

/// The bits of a driver's target, whose indices are constant.
fn driven_guarded_pieces(
    alloc: Global,
    b: &Builder,
    flat: &Flat,
    target: &Side,
) -> Result<Vec<GuardedPiece>, AllocError>
    requires { IsSide flat.now.signals flat.now.scopes target.now }
    ensures guarded_pieces { IfOk result (λ r. AreGuardedPieces b.now (signal_widths flat.now.signals) r.items) }
    ensures value { IfOk result (λ r. (env : ℕ → Bool) (vs : List Bool) (e : Environment) →
        put_guarded_pieces b.now env r.items vs e ≡ write (driven_by (plain_flat flat.now) (plain_side target.now)) vs e) }
{
    let mut list = Vec::new(alloc);
    match target {
        Side::Text { expr, scope } => {
            let scope = &flat.scopes[*scope as usize];
            add_fixed(alloc, b, &mut list, expr, scope, 0)?;
            Ok(list)
        }
        Side::Whole(id) => {
            let width = flat.signals[*id as usize].width;
            let piece = Piece {
                signal: *id,
                width,
                from: 0,
                count: width,
            };
            let when = b.constant(true);
            push_guarded_piece(
                &mut list,
                GuardedPiece {
                    piece,
                    when,
                    from: 0,
                },
            )?;
            Ok(list)
        }
    }
}

/// The right side of a driver's instance, as that of an assignment.
pub(crate) fn driver_wires(
    alloc: Global,
    b: &mut Builder,
    flat: &Flat,
    driver: &Driver,
    choice: &ChoiceWires,
    words: &[Vec<Wire>],
) -> Result<Vec<Wire>, AllocError>
    requires driver { IsDriver flat.now.signals flat.now.scopes driver.now }
    requires choice { IsReady b.old choice.now }
    requires words { AreWords b.old words.now }
    requires widths { widths_of words.now ≡ signal_widths flat.now.signals }
    ensures extends { Extends b.old b.new }
    ensures wires { IfOk result (λ r. AreWires b.new r.items) }
    ensures value { IfOk result (λ r. (env : ℕ → Bool) → wire_values b.new env r.items
        ≡ driver_value_of (plain_flat flat.now) (instance_driver choice.now.sites.now (picks_of b.old env choice.now) (plain_driver driver.now)) (carried b.old env words.now)) }
{
    let width = side_shape(flat, &driver.target).width;
    let own = side_shape(flat, &driver.value);
    let bits = side_wires(
        alloc,
        b,
        flat,
        &driver.value,
        choice,
        words,
        width.max(own.width),
        own.signed,
    )?;
    Ok(bits)
}

/// A driver's instance gives the bits of its target their values.
pub fn drive(
    alloc: Global,
    b: &mut Builder,
    flat: &Flat,
    driver: &Driver,
    choice: &ChoiceWires,
    words: &mut Vec<Vec<Wire>>,
) -> Result<(), AllocError>
    requires driver { IsDriver flat.now.signals flat.now.scopes driver.now }
    requires choice { IsReady b.old choice.now }
    requires words { AreWords b.old words.old.items }
    requires widths { widths_of words.old.items ≡ signal_widths flat.now.signals }
    ensures extends { Extends b.old b.new }
    ensures words { OnOk result (AreWords b.new words.new.items) }
    ensures widths { OnOk result (widths_of words.new.items ≡ signal_widths flat.now.signals) }
    ensures value { OnOk result ((env : ℕ → Bool) → carried b.new env words.new.items
        ≡ write (driven_by (plain_flat flat.now) (plain_side driver.now.target))
        (driver_value_of (plain_flat flat.now) (instance_driver choice.now.sites.now (picks_of b.old env choice.now) (plain_driver driver.now)) (carried b.old env words.old.items))
        (carried b.old env words.old.items)) }
{
    let guarded_pieces = driven_guarded_pieces(alloc, b, flat, &driver.target)?;
    let bits = driver_wires(alloc, b, flat, driver, choice, words.as_slice())?;
    let always = b.constant(true);
    put_all(b, words, guarded_pieces.as_slice(), bits.as_slice(), always)?;
    Ok(())
}

/// Runs the instance of a block.
fn run_block(
    alloc: Global,
    b: &mut Builder,
    flat: &Flat,
    block: &Block,
    choice: &ChoiceWires,
    machine: &mut Machine,
) -> Result<(), AllocError>
    requires block { IsBlock flat.now.scopes block.now }
    requires choice { IsReady b.old choice.now }
    requires machine { IsMachine b.old (signal_widths flat.now.signals) machine.old }
    ensures extends { Extends b.old b.new }
    ensures machine { OnOk result (IsMachine b.new (signal_widths flat.now.signals) machine.new) }
    ensures ran { OnOk result ((env : ℕ → Bool) → held b.new env machine.new
        ≡ ran (scope_at (plain_flat flat.now) block.now.scope) (body_instance choice.now.sites.now (picks_of b.old env choice.now) (plain_statement block.now.body.now)) (held b.old env machine.old)) }
{
    let scope = &flat.scopes[block.scope as usize];
    execute_body(alloc, b, block.body, scope, choice, machine)?;
    Ok(())
}

/// A combinational block gives the bits that it writes their values.
pub fn perform_block(
    alloc: Global,
    b: &mut Builder,
    flat: &Flat,
    number: u32,
    choice: &ChoiceWires,
    machine: &mut Machine,
) -> Result<(), AllocError>
    requires number { number < length flat.now.combinational }
    requires choice { IsReady b.old choice.now }
    requires machine { IsMachine b.old (signal_widths flat.now.signals) machine.old }
    ensures extends { Extends b.old b.new }
    ensures machine { OnOk result (IsMachine b.new (signal_widths flat.now.signals) machine.new) }
    ensures env { OnOk result ((env : ℕ → Bool) → carried b.new env machine.new.now.items
        ≡ act (instance_flat choice.now.sites.now (picks_of b.old env choice.now) (plain_flat flat.now)) (step.Block number) (carried b.old env machine.old.now.items)) }
{
    let block = &flat.combinational[number as usize];
    run_block(alloc, b, flat, block, choice, machine)?;
    Ok(())
}

/// The clock edge: the clocked blocks one after the other, and their updates.
pub fn run_clocked(
    alloc: Global,
    b: &mut Builder,
    flat: &Flat,
    choice: &ChoiceWires,
    machine: &mut Machine,
) -> Result<(), AllocError>
    requires choice { IsReady b.old choice.now }
    requires machine { IsMachine b.old (signal_widths flat.now.signals) machine.old }
    ensures extends { Extends b.old b.new }
    ensures machine { OnOk result (IsMachine b.new (signal_widths flat.now.signals) machine.new) }
    ensures ran { OnOk result ((env : ℕ → Bool) → held b.new env machine.new
        ≡ ran_blocks (instance_flat choice.now.sites.now (picks_of b.old env choice.now) (plain_flat flat.now)) (instance_flat choice.now.sites.now (picks_of b.old env choice.now) (plain_flat flat.now)).clocked (held b.old env machine.old)) }
{
    for block in flat.clocked.iter() {
        run_block(alloc, b, flat, block, choice, machine)?;
    }
    Ok(())
}
