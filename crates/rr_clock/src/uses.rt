//! The names that use the clock as data (IEEE 1364-2005 section 9.7.2 has clocks in event lists).
ghost use Rattle.std.specs.Prelude.{◌≡◌, length, IfOk, IfSome, IfNone, map};
ghost use Rattle.rr_syntax.specs.View.{plain_identifier};
ghost use Rattle.rr_flat.specs.Clocks.{IsScalarInput};
ghost use Rattle.rr_flat.specs.Lawful.{ClockUnread, NoClockRead};
ghost use Rattle.rr_flat.specs.Sound.{IsWalk};
ghost use Rattle.rr_flat.specs.View.{plain_block, plain_driver, plain_flat, plain_side};
ghost use Rattle.rr_clock.specs.Clock.{FirstUse, IsClockInput, IsFirstUse, hands_on as hands_on_in, is_scalar_port as is_scalar_port_in, side_uses, all_uses, use_of, uses, uses_of_block, uses_of_driver, uses_of_part, value_uses};
ghost use Rattle.rr_flat.specs.Parts.{block_of as block_of_part, driver_of as driver_of_part};
ghost use Rattle.rr_text_names.specs.Names.{entry, is_the as is_the_clock};
ghost use Rattle.rr_text_names.specs.Firsts.{earliest};

use crate::clock::is_the;
use crate::sources::{bare_scalar, sources, told_by};
use rr_flat::{Block, Driver, Flat, Part, Side};
use rr_syntax::Named;
use rr_text_names::{add_names, add_statement_names, is_input, is_scalar, scalar_named};
use std::alloc::{AllocError, Global};

/// The token of a name, where it leads to the clock.
#[tactic(auto, unfolding(rr_text_names::specs::Firsts::earliest, rr_syntax::specs::View::plain_identifier))]
fn clock_use(
    flat: &Flat,
    table: &[Option<u32>],
    clock: u32,
    scope: u32,
    named: &Named,
) -> Option<u32>
    ensures { result ≡ earliest (use_of (plain_flat flat.now) (λ x. is_the_clock clock (entry table.now x)) scope (plain_identifier named.now)) }
{
    if is_the(clock, told_by(table, scalar_named(flat, scope, named.name))) {
        Some(named.token)
    } else {
        None
    }
}

/// The first of several names that does.
fn first_use(
    flat: &Flat,
    table: &[Option<u32>],
    clock: u32,
    scope: u32,
    names: &[Named],
) -> Option<u32>
    ensures { result ≡ earliest (uses (plain_flat flat.now) (λ x. is_the_clock clock (entry table.now x)) scope (map plain_identifier names.now)) }
{
    for named in names.iter() {
        let found = clock_use(flat, table, clock, scope, named);
        if found.is_some() {
            return found;
        }
    }
    None
}

#[tactic(auto, unfolding(rr_text_names::specs::Firsts::earliest))]
fn use_in_side<'a>(
    alloc: Global,
    flat: &Flat<'a>,
    table: &[Option<u32>],
    clock: u32,
    side: &Side<'a>,
) -> Result<Option<u32>, AllocError>
    ensures { IfOk result (λ r. r ≡ earliest (side_uses (plain_flat flat.now) (λ x. is_the_clock clock (entry table.now x)) (plain_side side.now))) }
{
    match side {
        Side::Whole(_) => Ok(None),
        Side::Text { expr, scope } => {
            let mut names = Vec::new(alloc);
            add_names(&mut names, expr)?;
            Ok(first_use(flat, table, clock, *scope, names.as_slice()))
        }
    }
}

fn is_scalar_port(flat: &Flat, side: &Side) -> bool
    ensures { result ≡ is_scalar_port_in (plain_flat flat.now) (plain_side side.now) }
{
    match side {
        Side::Whole(id) => is_input(flat, *id) && is_scalar(flat, *id),
        Side::Text { .. } => false,
    }
}

/// Whether a driver connects a scalar input port to a bare name.
fn hands_on(flat: &Flat, driver: &Driver) -> bool
    ensures { result ≡ hands_on_in (plain_flat flat.now) (plain_driver driver.now) }
{
    is_scalar_port(flat, &driver.target) && bare_scalar(flat, &driver.value).is_some()
}

#[tactic(auto, unfolding(rr_text_names::specs::Firsts::earliest))]
fn use_in_value<'a>(
    alloc: Global,
    flat: &Flat<'a>,
    table: &[Option<u32>],
    clock: u32,
    driver: &Driver<'a>,
) -> Result<Option<u32>, AllocError>
    ensures { IfOk result (λ r. r ≡ earliest (value_uses (plain_flat flat.now) (λ x. is_the_clock clock (entry table.now x)) (plain_driver driver.now))) }
{
    if hands_on(flat, driver) {
        Ok(None)
    } else {
        use_in_side(alloc, flat, table, clock, &driver.value)
    }
}

#[tactic(auto, using(rr_text_names::proofs::Walks::earliest_hit, rr_text_names::proofs::Walks::earliest_skip))]
fn use_in_driver<'a>(
    alloc: Global,
    flat: &Flat<'a>,
    table: &[Option<u32>],
    clock: u32,
    driver: &Driver<'a>,
) -> Result<Option<u32>, AllocError>
    ensures { IfOk result (λ r. r ≡ earliest (uses_of_driver (plain_flat flat.now) (λ x. is_the_clock clock (entry table.now x)) (plain_driver driver.now))) }
{
    let found = use_in_side(alloc, flat, table, clock, &driver.target)?;
    if found.is_some() {
        return Ok(found);
    }
    use_in_value(alloc, flat, table, clock, driver)
}

fn use_in_block<'a>(
    alloc: Global,
    flat: &Flat<'a>,
    table: &[Option<u32>],
    clock: u32,
    block: &Block<'a>,
) -> Result<Option<u32>, AllocError>
    ensures { IfOk result (λ r. r ≡ earliest (uses_of_block (plain_flat flat.now) (λ x. is_the_clock clock (entry table.now x)) (plain_block block.now))) }
{
    let mut names = Vec::new(alloc);
    add_statement_names(&mut names, block.body)?;
    Ok(first_use(flat, table, clock, block.scope, names.as_slice()))
}

fn use_by_driver(
    alloc: Global,
    flat: &Flat,
    table: &[Option<u32>],
    clock: u32,
    part: Part,
) -> Result<Option<u32>, AllocError>
    ensures { IfOk result (λ r. r ≡ earliest (uses_of_driver (plain_flat flat.now) (λ x. is_the_clock clock (entry table.now x)) (driver_of_part (plain_flat flat.now) part))) }
{
    match flat.driver_of(part) {
        Some(driver) => use_in_driver(alloc, flat, table, clock, &driver),
        None => Ok(None),
    }
}

#[tactic(auto, unfolding(rr_flat::specs::Reads::names_of, rr_text_names::specs::Firsts::earliest))]
fn use_by_block(
    alloc: Global,
    flat: &Flat,
    table: &[Option<u32>],
    clock: u32,
    part: Part,
) -> Result<Option<u32>, AllocError>
    ensures { IfOk result (λ r. r ≡ earliest (uses_of_block (plain_flat flat.now) (λ x. is_the_clock clock (entry table.now x)) (block_of_part (plain_flat flat.now) part))) }
{
    match flat.block_of(part) {
        Some(block) => use_in_block(alloc, flat, table, clock, &block),
        None => Ok(None),
    }
}

#[tactic(auto, using(rr_text_names::proofs::Walks::earliest_hit, rr_text_names::proofs::Walks::earliest_skip))]
fn use_in_part(
    alloc: Global,
    flat: &Flat,
    table: &[Option<u32>],
    clock: u32,
    part: Part,
) -> Result<Option<u32>, AllocError>
    ensures { IfOk result (λ r. r ≡ earliest (uses_of_part (plain_flat flat.now) (λ x. is_the_clock clock (entry table.now x)) part)) }
{
    let found = use_by_driver(alloc, flat, table, clock, part)?;
    if found.is_some() {
        return Ok(found);
    }
    use_by_block(alloc, flat, table, clock, part)
}

/// The first of all names that do.
fn first_use_in_walk(
    alloc: Global,
    flat: &Flat,
    table: &[Option<u32>],
    clock: u32,
) -> Result<Option<u32>, AllocError>
    ensures first { IfOk result (λ r. r ≡ earliest (all_uses (plain_flat flat.now) (λ x. is_the_clock clock (entry table.now x)))) }
    ensures walked { IfOk result (λ r. IsWalk (length flat.now.drivers) (length flat.now.clocked) (length flat.now.combinational) (length flat.now.initials) flat.now.walk) }
{
    let walk = flat.parts();
    for part in walk.iter() {
        let found = use_in_part(alloc, flat, table, clock, *part)?;
        if found.is_some() {
            return Ok(found);
        }
    }
    Ok(None)
}

/// The first of those that use a clock.
fn first_use_of(alloc: Global, flat: &Flat, clock: u32) -> Result<Option<u32>, AllocError>
    requires input { IsScalarInput (plain_flat flat.now) clock }
    ensures first { IfOk result (λ r. FirstUse (plain_flat flat.now) clock r) }
    ensures none { IfOk result (λ r. IfNone r (ClockUnread (plain_flat flat.now) clock)) }
    ensures some { IfOk result (λ r. IfSome r (λ at. ClockUnread (plain_flat flat.now) clock → ⊥)) }
{
    let table = sources(alloc, flat)?;
    let found = first_use_in_walk(alloc, flat, table.as_slice(), clock)?;
    Ok(found)
}

/// The first name that leads to the clock and stands in an expression outside event lists, other than
/// as the whole connection of a scalar input port, by its token.
pub fn first_clock_use(
    alloc: Global,
    flat: &Flat,
    clock: Option<u32>,
) -> Result<Option<u32>, AllocError>
    requires input { IsClockInput (plain_flat flat.now) clock }
    ensures first { IfOk result (λ r. IsFirstUse (plain_flat flat.now) clock r) }
    ensures none { IfOk result (λ r. IfNone r (NoClockRead (plain_flat flat.now) clock)) }
    ensures some { IfOk result (λ r. IfSome r (λ at. NoClockRead (plain_flat flat.now) clock → ⊥)) }
{
    match clock {
        None => Ok(None),
        Some(clock) => first_use_of(alloc, flat, clock),
    }
}
