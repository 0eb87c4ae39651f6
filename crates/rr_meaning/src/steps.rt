//! The steps of an order (IEEE 1364-2005 sections 6.1, 9.9.2.1 and 12.3.9.2).
ghost use Rattle.std.specs.Prelude.{◌≡◌, ◌≤◌, ◌<◌, ◌∷◌, [], All, OnOk, None, false, get_or, length};
ghost use Rattle.rr_expr.specs.Scopes.{env_of};
ghost use Rattle.rr_flat.specs.Ordered.{IsStep};
ghost use Rattle.rr_flat.specs.View.{plain_driver, plain_flat, plain_side};
ghost use Rattle.rr_flat.specs.Sound.{IsDriver, IsSide};
ghost use Rattle.rr_flat.specs.Writers.{driven_by};
ghost use Rattle.rr_named_bits.specs.Pieces.{all_bits};
ghost use Rattle.rr_cycle.specs.Cycles.{side_shape as shape_of_side, side_value as value_of_side, signal_value as value_of_signal};
ghost use Rattle.rr_cycle.specs.Exec.{put, write as write_of};
ghost use Rattle.rr_cycle.specs.Performing.{act};
ghost use Rattle.rr_exec.specs.Work.{Fits, IsLater};
ghost use Rattle.rr_meaning.specs.Work.{sides_value};

use rr_bits::Bits;
use rr_exec::{Machine, execute, merged, own_shape, write_pieces};
use rr_expr::{Bit, Env, Shape, value};
use rr_flat::{Driver, Flat, Side, Step};
use rr_named_bits::{Piece, add_pieces, named_bit, push_piece};
use rr_wiring::{is_concatenation, own_bit};
use std::alloc::AllocError;

fn side_shape(flat: &Flat, side: &Side) -> Shape
    requires { IsSide flat.now.signals flat.now.scopes side.now }
    ensures value { result ≡ shape_of_side (plain_flat flat.now) (plain_side side.now) }
    ensures low { 1 ≤ result.width }
    ensures high { result.width ≤ 128 }
{
    match side {
        Side::Text { expr, scope } => own_shape(expr, &flat.scopes[*scope as usize]),
        Side::Whole(id) => {
            let signal = &flat.signals[*id as usize];
            Shape {
                width: signal.width,
                signed: signal.signed,
            }
        }
    }
}

fn side_value(flat: &Flat, side: &Side, env: &Env, width: u32, signed: bool) -> Bits
    requires side { IsSide flat.now.signals flat.now.scopes side.now }
    requires positive { 1 ≤ width }
    requires low { (shape_of_side (plain_flat flat.now) (plain_side side.now)).width ≤ width }
    requires high { width ≤ 128 }
    ensures { result ≡ value_of_side (plain_flat flat.now) (plain_side side.now) (env_of env.now.values.items) width signed }
{
    match side {
        Side::Text { expr, scope } => {
            value(expr, &flat.scopes[*scope as usize], env, width, signed)
        }
        Side::Whole(id) => signal_value(flat, *id, env).extend(width, signed),
    }
}

/// The word that a signal has.
pub(crate) fn signal_value(flat: &Flat, id: u32, env: &Env) -> Bits
    requires { id < length flat.now.signals }
    ensures { result ≡ value_of_signal (plain_flat flat.now) id (env_of env.now.values.items) }
{
    let value = env.values.get(id as usize).copied().unwrap_or(0);
    Bits::from_u128(flat.signals[id as usize].width, value)
}

/// The right side of a driver, as that of an assignment.
fn driver_value(flat: &Flat, driver: &Driver, env: &Env) -> Bits
    requires { IsDriver flat.now.signals flat.now.scopes driver.now }
    ensures value { result ≡ sides_value (plain_flat flat.now) (plain_driver driver.now) (env_of env.now.values.items) }
{
    let width = side_shape(flat, &driver.target).width;
    let own = side_shape(flat, &driver.value);
    side_value(flat, &driver.value, env, width.max(own.width), own.signed)
}

/// The bit at a place of the same value, of a concatenation by the one part that has it.
fn driver_bit(flat: &Flat, driver: &Driver, env: &Env, place: u32) -> bool
    requires { IsDriver flat.now.signals flat.now.scopes driver.now }
    ensures { result ≡ get_or (sides_value (plain_flat flat.now) (plain_driver driver.now) (env_of env.now.values.items)) place false }
{
    match &driver.value {
        Side::Text { expr, scope } if is_concatenation(expr) => {
            own_bit(expr, &flat.scopes[*scope as usize], env, place)
        }
        Side::Text { .. } | Side::Whole(_) => driver_value(flat, driver, env).get(place),
    }
}

/// The pieces of a driver's target, whose indices are constant.
fn driven_pieces(
    pieces: &mut Vec<Piece>,
    flat: &Flat,
    target: &Side,
    none: &Env,
) -> Result<(), AllocError>
    requires side { IsSide flat.now.signals flat.now.scopes target.now }
    requires none { none.now.values.items ≡ [] }
    ensures bits { OnOk result (all_bits pieces.new.items ≡ driven_by (plain_flat flat.now) (plain_side target.now)) }
    ensures fits { OnOk result (All (Fits (length flat.now.signals)) pieces.new.items) }
    ensures few { OnOk result (length (all_bits pieces.new.items) ≤ 128) }
{
    pieces.clear();
    match target {
        Side::Text { expr, scope } => {
            add_pieces(pieces, expr, &flat.scopes[*scope as usize], none)
        }
        Side::Whole(id) => push_piece(pieces, Piece::whole(flat, *id)),
    }
}

/// A driver gives its bits their values.
fn drive(flat: &Flat, driver: &Driver, machine: &mut Machine) -> Result<(), AllocError>
    requires driver { IsDriver flat.now.signals flat.now.scopes driver.now }
    requires count { length machine.old.env.values.items ≡ length flat.now.signals }
    requires none { machine.old.none.values.items ≡ [] }
    ensures env { OnOk result (env_of machine.new.env.values.items ≡ write_of (driven_by (plain_flat flat.now) (plain_driver driver.now).target) (sides_value (plain_flat flat.now) (plain_driver driver.now) (env_of machine.old.env.values.items)) (env_of machine.old.env.values.items)) }
    ensures count { OnOk result (length machine.new.env.values.items ≡ length machine.old.env.values.items) }
    ensures later { machine.new.later ≡ machine.old.later }
    ensures none { machine.new.none ≡ machine.old.none }
{
    driven_pieces(&mut machine.pieces, flat, &driver.target, &machine.none)?;
    let bits = driver_value(flat, driver, &machine.env);
    write_pieces(&mut machine.env.values, machine.pieces.as_slice(), bits);
    Ok(())
}

/// A bit takes a value.
fn set_bit(values: &mut Vec<u128>, bit: Bit, on: bool)
    requires signal { bit.signal < length values.old.items }
    requires place { bit.place < 128 }
    ensures env { env_of values.new.items ≡ put bit on (env_of values.old.items) }
    ensures count { length values.new.items ≡ length values.old.items }
{
    let signal = bit.signal as usize;
    values[signal] = merged(values[signal], bit.place, Bits::from_u128(1, on as u128));
}

/// A driver gives one of its bits its value.
fn wire(flat: &Flat, driver: &Driver, place: u32, machine: &mut Machine) -> Result<(), AllocError>
    requires driver { IsDriver flat.now.signals flat.now.scopes driver.now }
    requires count { length machine.old.env.values.items ≡ length flat.now.signals }
    requires none { machine.old.none.values.items ≡ [] }
    ensures env { OnOk result (env_of machine.new.env.values.items ≡ write_of (get_or (driven_by (plain_flat flat.now) (plain_driver driver.now).target) place None ∷ []) (get_or (sides_value (plain_flat flat.now) (plain_driver driver.now) (env_of machine.old.env.values.items)) place false ∷ []) (env_of machine.old.env.values.items)) }
    ensures count { OnOk result (length machine.new.env.values.items ≡ length machine.old.env.values.items) }
    ensures later { machine.new.later ≡ machine.old.later }
    ensures none { machine.new.none ≡ machine.old.none }
{
    driven_pieces(&mut machine.pieces, flat, &driver.target, &machine.none)?;
    let on = driver_bit(flat, driver, &machine.env, place);
    match named_bit(machine.pieces.as_slice(), place) {
        Some(bit) => set_bit(&mut machine.env.values, bit, on),
        None => {}
    }
    Ok(())
}

/// Performs a step of the design.
pub(crate) fn perform(flat: &Flat, step: Step, machine: &mut Machine) -> Result<(), AllocError>
    requires step { IsStep (plain_flat flat.now) step }
    requires count { length machine.old.env.values.items ≡ length flat.now.signals }
    requires fits { All (IsLater (length flat.now.signals)) machine.old.later.items }
    requires none { machine.old.none.values.items ≡ [] }
    ensures env { OnOk result (env_of machine.new.env.values.items ≡ act (plain_flat flat.now) step (env_of machine.old.env.values.items)) }
    ensures count { OnOk result (length machine.new.env.values.items ≡ length flat.now.signals) }
    ensures fits { OnOk result (All (IsLater (length flat.now.signals)) machine.new.later.items) }
    ensures none { OnOk result (machine.new.none ≡ machine.old.none) }
{
    match step {
        Step::Driver(k) => drive(flat, &flat.drivers[k as usize], machine),
        Step::Wire { driver, bit } => wire(flat, &flat.drivers[driver as usize], bit, machine),
        Step::Block(k) => {
            let block = &flat.combinational[k as usize];
            execute(block.body, &flat.scopes[block.scope as usize], machine)
        }
    }
}
