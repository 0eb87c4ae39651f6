//! The top input to which each signal leads, through the connections of scalar input ports.
ghost use Rattle.std.specs.Prelude.{◌≡◌, ◌||◌, ◌<◌, ℕ, length, cond, is_some, set, IfOk, None};
ghost use Rattle.rr_syntax.specs.View.{plain};
ghost use Rattle.rr_flat.specs.Plain.{Written};
ghost use Rattle.rr_flat.specs.View.{plain_flat, plain_side};
ghost use Rattle.rr_clock.specs.Clock.{AreSources, told, bare_scalar as bare_scalar_of};
ghost use Rattle.rr_text_names.specs.Names.{entry};
ghost use Rattle.rr_clock.specs.Spread.{bare_value as bare_value_of, AreFirstDrivers, AreSound, IsSpread, feeder as feeder_of, input_noted, next_source as next_source_of, noted};

use rr_flat::{Flat, Side};
use rr_syntax::Expr;
use rr_text_names::{is_input, is_scalar, scalar_named};
use std::alloc::{AllocError, Global};

#[tactic(auto, using(crate::proofs::BareNodes::bare_nodes))]
fn bare_name(flat: &Flat, expr: &Expr, scope: u32) -> Option<u32>
    ensures { result ≡ bare_scalar_of (plain_flat flat.now) (Written (plain expr.now) scope) }
{
    match expr {
        Expr::Name { name, .. } => scalar_named(flat, scope, name),
        Expr::Literal { .. }
        | Expr::Bit { .. }
        | Expr::Part { .. }
        | Expr::Indexed { .. }
        | Expr::Unary { .. }
        | Expr::Binary { .. }
        | Expr::Cond { .. }
        | Expr::Concat { .. }
        | Expr::Repeat { .. }
        | Expr::Cast { .. }
        | Expr::Paren { .. } => None,
    }
}

/// The scalar of which a side is the bare name, if it is one.
pub(crate) fn bare_scalar(flat: &Flat, side: &Side) -> Option<u32>
    ensures { result ≡ bare_scalar_of (plain_flat flat.now) (plain_side side.now) }
{
    match side {
        Side::Whole(_) => None,
        Side::Text { expr, scope } => bare_name(flat, expr, *scope),
    }
}

/// No driver for each of so many signals.
fn no_drivers(alloc: Global, count: u32) -> Result<Vec<Option<usize>>, AllocError>
    ensures size { IfOk result (λ t. length t.items ≡ count) }
    ensures none { IfOk result (λ t. (x : ℕ) → entry t.items x ≡ None) }
{
    let table = vec![in alloc; None; count as usize]?;
    Ok(table)
}

/// By signal, the first driver that has it as its target, as a whole.
fn first_drivers(alloc: Global, flat: &Flat) -> Result<Vec<Option<usize>>, AllocError>
    ensures { IfOk result (λ t. AreFirstDrivers (plain_flat flat.now) (entry t.items)) }
{
    let mut table = no_drivers(alloc, flat.signal_count())?;
    let drivers = flat.driver_list();
    for number in 0..drivers.len() {
        note_target(&mut table, &drivers[number].target, number);
    }
    Ok(table)
}

fn note_target(table: &mut Vec<Option<usize>>, target: &Side, number: usize)
    ensures { table.new.items ≡ noted (plain_side target.now) number table.old.items }
{
    match target {
        Side::Whole(id) => {
            let place = *id as usize;
            if place < table.len() && table[place].is_none() {
                table[place] = Some(number);
            }
        }
        Side::Text { .. } => {}
    }
}

/// No input for each of so many signals.
fn no_sources(alloc: Global, count: u32) -> Result<Vec<Option<u32>>, AllocError>
    ensures size { IfOk result (λ t. length t.items ≡ count) }
    ensures none { IfOk result (λ t. (x : ℕ) → entry t.items x ≡ None) }
{
    let table = vec![in alloc; None; count as usize]?;
    Ok(table)
}

/// The entry of an input of the top, where it is a scalar.
fn note_input(flat: &Flat, table: &mut Vec<Option<u32>>, id: u32)
    requires there { id < length table.old.items }
    ensures { table.new.items ≡ input_noted (plain_flat flat.now) id table.old.items }
{
    if is_scalar(flat, id) {
        table[id as usize] = Some(id);
    }
}

/// By signal, the scalar inputs of the top, each as its own.
fn input_table(alloc: Global, flat: &Flat) -> Result<Vec<Option<u32>>, AllocError>
    ensures size { IfOk result (λ t. length t.items ≡ length flat.now.signals) }
    ensures sound { IfOk result (λ t. AreSound (plain_flat flat.now) (entry t.items)) }
{
    let mut table = no_sources(alloc, flat.signal_count())?;
    let inputs = flat.input_list();
    for id in inputs.iter() {
        note_input(flat, &mut table, *id);
    }
    Ok(table)
}

/// The scalar of which the value of a driver is the bare name.
fn bare_value(flat: &Flat, number: Option<usize>) -> Option<u32>
    ensures { result ≡ bare_value_of (plain_flat flat.now) number }
{
    match number {
        None => None,
        Some(number) => match flat.driver_list().get(number) {
            Some(driver) => bare_scalar(flat, &driver.value),
            None => None,
        },
    }
}

/// The entry of a table, where there is one.
fn first_of(first: &[Option<usize>], port: u32) -> Option<usize>
    ensures { result ≡ entry first.now port }
{
    match first.get(port as usize) {
        Some(number) => *number,
        None => None,
    }
}

/// The scalar that an input port takes by its bare name, if it does.
fn feeder(flat: &Flat, first: &[Option<usize>], port: u32) -> Option<u32>
    ensures { result ≡ feeder_of (plain_flat flat.now) (entry first.now) port }
{
    if is_input(flat, port) && is_scalar(flat, port) {
        bare_value(flat, first_of(first, port))
    } else {
        None
    }
}

/// What a table has of a scalar.
pub(crate) fn told_by(table: &[Option<u32>], scalar: Option<u32>) -> Option<u32>
    ensures { result ≡ told (entry table.now) scalar }
{
    match scalar {
        Some(id) => match table.get(id as usize) {
            Some(source) => *source,
            None => None,
        },
        None => None,
    }
}

/// The entry of a port without one that its feeder has.
fn next_source(
    flat: &Flat,
    first: &[Option<usize>],
    table: &[Option<u32>],
    port: u32,
) -> Option<u32>
    ensures { result ≡ next_source_of (plain_flat flat.now) (entry first.now) (entry table.now) port }
{
    match told_by(table, Some(port)) {
        Some(_) => None,
        None => told_by(table, feeder(flat, first, port)),
    }
}

/// Fills the entry of a port, where there is a source; whether an entry was filled now or before.
fn fill(table: &mut Vec<Option<u32>>, port: u32, source: Option<u32>, grown: bool) -> bool
    requires there { port < length table.old.items }
    ensures table { table.new.items ≡ cond (is_some source) (set table.old.items port source) table.old.items }
    ensures grown { result ≡ (grown || is_some source) }
{
    match source {
        None => grown,
        Some(id) => {
            table[port as usize] = Some(id);
            true
        }
    }
}

/// One pass over the ports; whether an entry was filled.
fn spread(flat: &Flat, first: &[Option<usize>], table: &mut Vec<Option<u32>>) -> bool
    requires first { AreFirstDrivers (plain_flat flat.now) (entry first.now) }
    requires size { length table.old.items ≡ length flat.now.signals }
    requires sound { AreSound (plain_flat flat.now) (entry table.old.items) }
    ensures { IsSpread (plain_flat flat.now) (entry first.now) table.old.items (length flat.now.signals) table.new.items result }
{
    let mut grown = false;
    for port in 0..flat.signal_count() {
        let source = next_source(flat, first, table.as_slice(), port);
        grown = fill(table, port, source, grown);
    }
    grown
}

/// By signal, the scalar input of the top to which it leads.
pub(crate) fn sources(alloc: Global, flat: &Flat) -> Result<Vec<Option<u32>>, AllocError>
    ensures { IfOk result (λ t. AreSources (plain_flat flat.now) (entry t.items)) }
{
    let drivers = first_drivers(alloc, flat)?;
    let first = drivers.as_slice();
    let mut table = input_table(alloc, flat)?;
    let mut growing = true;
    while growing {
        growing = spread(flat, first, &mut table);
    }
    Ok(table)
}
