//! Single bits of drivers that only wire.
ghost use Rattle.std.specs.Prelude.{◌≡◌, ◌≤◌, ◌∷◌, ◌+ℤ◌, [], ℕ, Bool, false, None, pos, IfOk, IfSome, OnOk, get_or, length};
ghost use Rattle.rr_circuit.specs.Values.{Extends, AreWires, IsWire, wire_value};
ghost use Rattle.rr_syntax.specs.View.{plain};
ghost use Rattle.rr_expr.specs.Faults.{fault};
ghost use Rattle.rr_expr.specs.Values.{own};
ghost use Rattle.rr_flat.specs.Sound.{IsDriver, IsSide};
ghost use Rattle.rr_flat.specs.View.{plain_driver, plain_flat, plain_side};
ghost use Rattle.rr_flat.specs.Writers.{driven_by};
ghost use Rattle.rr_named_bits.specs.Pieces.{all_bits, bit_in};
ghost use Rattle.rr_cycle.specs.Exec.{write};
ghost use Rattle.rr_blast_steps.specs.Designs.{driver_value_of, signal_widths};
ghost use Rattle.rr_flat_instance.specs.Flats.{instance_driver};
ghost use Rattle.rr_instance.specs.Instances.{instance_tree};
ghost use Rattle.rr_signal_wires.specs.Words.{AreWords, IsThere, carried, widths_of};
ghost use Rattle.rr_blast_terms.specs.Choosing.{IsReady, picks_of};

use crate::steps::driver_wires;
use rr_blast_terms::{ChoiceWires, wires};
use rr_circuit::{Builder, Wire};
use rr_expr::{Bit, Scope, shape_of};
use rr_flat::{Driver, Flat, Side};
use rr_named_bits::{add_pieces, named_bit, no_values};
use rr_signal_wires::{bit_at, set_wire};
use rr_syntax::Expr;
use rr_wiring::{is_concatenation, part_at};
use std::alloc::{AllocError, Global};

/// The bit at a place of a driver's target.
fn driven_bit(
    alloc: Global,
    flat: &Flat,
    target: &Side,
    place: u32,
) -> Result<Option<Bit>, AllocError>
    requires { IsSide flat.now.signals flat.now.scopes target.now }
    ensures bit { IfOk result (λ r. r ≡ get_or (driven_by (plain_flat flat.now) (plain_side target.now)) place None) }
    ensures there { IfOk result (λ r. IfSome r (λ b. IsThere (signal_widths flat.now.signals) b)) }
{
    match target {
        Side::Text { expr, scope } => {
            let none = no_values(alloc);
            let mut pieces = Vec::new(alloc);
            add_pieces(&mut pieces, expr, &flat.scopes[*scope as usize], &none)?;
            let bit = named_bit(pieces.as_slice(), place);
            Ok(bit)
        }
        Side::Whole(id) => {
            if place < flat.signals[*id as usize].width {
                return Ok(Some(Bit { signal: *id, place }));
            }
            Ok(None)
        }
    }
}

/// The wire of the bit at a place of an expression's instance by itself, of a concatenation by the one
/// part that has it.
fn own_wire(
    alloc: Global,
    b: &mut Builder,
    expr: &Expr,
    scope: &Scope,
    place: u32,
    choice: &ChoiceWires,
    words: &[Vec<Wire>],
) -> Result<Wire, AllocError>
    requires shaped { fault scope.now (plain expr.now) false ≡ None }
    requires choice { IsReady b.old choice.now }
    requires words { AreWords b.old words.now }
    ensures extends { Extends b.old b.new }
    ensures wire { IfOk result (λ r. IsWire b.new r) }
    ensures value { IfOk result (λ r. (env : ℕ → Bool) → wire_value b.new env r
        ≡ get_or (own scope.now (instance_tree choice.now.sites.now (picks_of b.old env choice.now) (plain expr.now)) (carried b.old env words.now)) place false) }
{
    match part_at(expr, scope, place) {
        Some(part) => {
            let shape = shape_of(part.expr, scope);
            let bits = wires(
                alloc,
                b,
                part.expr,
                scope,
                words,
                choice,
                shape.width,
                shape.signed,
            )?;
            let wire = bit_at(b, bits.as_slice(), part.place as usize);
            Ok(wire)
        }
        None => Ok(b.constant(false)),
    }
}

/// The wire of the bit at a place of a driver's instance, by those of its whole right side.
fn whole_wire(
    alloc: Global,
    b: &mut Builder,
    flat: &Flat,
    driver: &Driver,
    place: u32,
    choice: &ChoiceWires,
    words: &[Vec<Wire>],
) -> Result<Wire, AllocError>
    requires driver { IsDriver flat.now.signals flat.now.scopes driver.now }
    requires choice { IsReady b.old choice.now }
    requires words { AreWords b.old words.now }
    requires widths { widths_of words.now ≡ signal_widths flat.now.signals }
    ensures extends { Extends b.old b.new }
    ensures wire { IfOk result (λ r. IsWire b.new r) }
    ensures value { IfOk result (λ r. (env : ℕ → Bool) → wire_value b.new env r
        ≡ get_or (driver_value_of (plain_flat flat.now) (instance_driver choice.now.sites.now (picks_of b.old env choice.now) (plain_driver driver.now)) (carried b.old env words.now)) place false) }
{
    let bits = driver_wires(alloc, b, flat, driver, choice, words)?;
    let wire = bit_at(b, bits.as_slice(), place as usize);
    Ok(wire)
}

/// The same, of a concatenation by the one part that has the bit.
fn driver_wire(
    alloc: Global,
    b: &mut Builder,
    flat: &Flat,
    driver: &Driver,
    place: u32,
    choice: &ChoiceWires,
    words: &[Vec<Wire>],
) -> Result<Wire, AllocError>
    requires driver { IsDriver flat.now.signals flat.now.scopes driver.now }
    requires choice { IsReady b.old choice.now }
    requires words { AreWords b.old words.now }
    requires widths { widths_of words.now ≡ signal_widths flat.now.signals }
    ensures extends { Extends b.old b.new }
    ensures wire { IfOk result (λ r. IsWire b.new r) }
    ensures value { IfOk result (λ r. (env : ℕ → Bool) → wire_value b.new env r
        ≡ get_or (driver_value_of (plain_flat flat.now) (instance_driver choice.now.sites.now (picks_of b.old env choice.now) (plain_driver driver.now)) (carried b.old env words.now)) place false) }
{
    match &driver.value {
        Side::Text { expr, scope } if is_concatenation(expr) => {
            let scope = &flat.scopes[*scope as usize];
            let wire = own_wire(alloc, b, expr, scope, place, choice, words)?;
            Ok(wire)
        }
        Side::Text { .. } | Side::Whole(_) => {
            let wire = whole_wire(alloc, b, flat, driver, place, choice, words)?;
            Ok(wire)
        }
    }
}

/// A driver's instance gives one of its bits its value.
pub fn wire(
    alloc: Global,
    b: &mut Builder,
    flat: &Flat,
    driver: &Driver,
    place: u32,
    choice: &ChoiceWires,
    words: &mut Vec<Vec<Wire>>,
) -> Result<(), AllocError>
    requires driver { IsDriver flat.now.signals flat.now.scopes driver.now }
    requires choice { IsReady b.old choice.now }
    requires words { AreWords b.old words.old.items }
    requires widths { widths_of words.old.items ≡ signal_widths flat.now.signals }
    ensures extends { Extends b.old b.new }
    ensures words { OnOk result (AreWords b.new words.new.items) }
    ensures widths { OnOk result (widths_of words.new.items ≡ signal_widths flat.now.signals) }
    ensures value { OnOk result ((env : ℕ → Bool) → carried b.new env words.new.items
        ≡ write (get_or (driven_by (plain_flat flat.now) (plain_side driver.now.target)) place None ∷ [])
        (get_or (driver_value_of (plain_flat flat.now) (instance_driver choice.now.sites.now (picks_of b.old env choice.now) (plain_driver driver.now)) (carried b.old env words.old.items)) place false ∷ [])
        (carried b.old env words.old.items)) }
{
    let wire = driver_wire(alloc, b, flat, driver, place, choice, words.as_slice())?;
    match driven_bit(alloc, flat, &driver.target, place)? {
        Some(bit) => {
            set_wire(words, bit, wire);
            Ok(())
        }
        None => Ok(()),
    }
}
