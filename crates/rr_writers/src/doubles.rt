//! Bits with two writers.
ghost use Rattle.std.specs.Prelude.{◌≡◌, ◌<◌, true, IfOk, IfNone, IfSome};
ghost use Rattle.rr_expr.specs.declared.types.Bit.{Bit as BitOfSignal};
ghost use Rattle.rr_flat.specs.Lawful.{OneWriter};
ghost use Rattle.rr_flat.specs.Sound.{IsBlock, IsDriver};
ghost use Rattle.rr_flat.specs.View.{plain_block, plain_driver, plain_flat};
ghost use Rattle.rr_flat.specs.Writers.{driven_by, writes_at_all};
ghost use Rattle.rr_writers.specs.Doubles.{IsDouble, token_of as token_of_part};
ghost use Rattle.rr_writers.specs.Marks.{IsTaken, IsTwice, ListMarked, PartMarked, PartTaken, SetMarked};
ghost use Rattle.rr_writers.specs.Tables.{entry};

use crate::assigned::add_assigned_bits;
use crate::marks::{mark_pieces, mark_reaches};
use crate::reaches::distinct_writes;
use crate::table::BitTable;
use rr_flat::{Bit, Block, Driver, Flat, Part};
use rr_named_bits::{add_driven, no_values};
use std::alloc::{AllocError, Global};

/// A bit with two writers, by the tokens of their targets or of their `always` (IEEE 1364-2005
/// sections 6.1 and 9.2). A bit that stands twice in one target has two.
#[derive(Clone, Copy, Debug, PartialEq, Eq)]
pub struct TwoDrivers {
    pub bit: Bit,
    pub first: u32,
    pub second: u32,
}

fn mark_driver(
    alloc: Global,
    flat: &Flat,
    driver: &Driver,
    number: usize,
    table: &mut BitTable,
) -> Result<Option<Bit>, AllocError>
    requires sound { IsDriver flat.now.signals flat.now.scopes driver.now }
    requires number { 0 < number }
    ensures none { IfOk result (λ r. IfNone r (ListMarked number (driven_by (plain_flat flat.now) (plain_driver driver.now).target) (entry table.old) (entry table.new))) }
    ensures some { IfOk result (λ r. IfSome r (IsTwice number (driven_by (plain_flat flat.now) (plain_driver driver.now).target) (entry table.old) (entry table.new))) }
{
    let mut pieces = Vec::new(alloc);
    add_driven(&mut pieces, flat, &driver.target, &no_values(alloc))?;
    mark_pieces(table, pieces.as_slice(), number)
}

fn mark_block(
    alloc: Global,
    flat: &Flat,
    block: &Block,
    number: usize,
    table: &mut BitTable,
    seen: &mut BitTable,
) -> Result<Option<Bit>, AllocError>
    requires { IsBlock flat.now.scopes block.now }
    ensures none { IfOk result (λ r. IfNone r (SetMarked true number (writes_at_all (plain_flat flat.now) (plain_block block.now)) (entry table.old) (entry table.new))) }
    ensures some { IfOk result (λ r. IfSome r (IsTaken true number (writes_at_all (plain_flat flat.now) (plain_block block.now)) (entry table.old) (entry table.new))) }
{
    let mut writes = Vec::new(alloc);
    let names = flat.scope_at(block.scope);
    add_assigned_bits(alloc, &mut writes, block.body, names, true)?;
    let reaches = distinct_writes(alloc, writes.as_slice(), seen)?;
    mark_reaches(table, reaches.as_slice(), number)
}

/// Puts a number at each bit that a driver or block writes, up to the first that has a writer.
fn mark_part(
    alloc: Global,
    flat: &Flat,
    part: Part,
    number: usize,
    table: &mut BitTable,
    seen: &mut BitTable,
) -> Result<Option<Bit>, AllocError>
    requires number { 0 < number }
    requires fresh { (b : BitOfSignal) → entry table.old b < number }
    ensures none { IfOk result (λ r. IfNone r (PartMarked (plain_flat flat.now) part number (entry table.old) (entry table.new))) }
    ensures some { IfOk result (λ r. IfSome r (PartTaken (plain_flat flat.now) part number (entry table.old) (entry table.new))) }
{
    match part {
        Part::Driver(at) => match flat.driver(at) {
            Some(driver) => mark_driver(alloc, flat, &driver, number, table),
            None => Ok(None),
        },
        Part::Clocked(at) => match flat.clocked_block(at) {
            Some(block) => mark_block(alloc, flat, &block, number, table, seen),
            None => Ok(None),
        },
        Part::Combinational(at) => match flat.combinational_block(at) {
            Some(block) => mark_block(alloc, flat, &block, number, table, seen),
            None => Ok(None),
        },
        // it sets what variables begin with, and writes no bit
        Part::Initial(_) => Ok(None),
    }
}

/// The token of a driver's target, or of an `always` or `initial`.
fn token_of(flat: &Flat, part: Part) -> u32
    ensures { result ≡ token_of_part (plain_flat flat.now) part }
{
    match part {
        Part::Driver(at) => match flat.driver(at) {
            Some(driver) => driver.token,
            None => 0,
        },
        Part::Clocked(at) => match flat.clocked_block(at) {
            Some(block) => block.token,
            None => 0,
        },
        Part::Combinational(at) => match flat.combinational_block(at) {
            Some(block) => block.token,
            None => 0,
        },
        Part::Initial(at) => match flat.initial(at) {
            Some(initial) => initial.token,
            None => 0,
        },
    }
}

/// The first bit with two writers, in the order of the walk of the second: two drivers, a driver and
/// an `always`, or two of these (IEEE 1364-2005 sections 6.1 and 9.2). An assignment by an index that
/// is not constant writes each bit of its name, of a memory those of all words. `None` comes exactly
/// where no bit has two.
pub fn first_two_drivers(alloc: Global, flat: &Flat) -> Result<Option<TwoDrivers>, AllocError>
    ensures none { IfOk result (λ r. IfNone r (OneWriter (plain_flat flat.now))) }
    ensures some { IfOk result (λ r. IfSome r (λ d. OneWriter (plain_flat flat.now) → ⊥)) }
    ensures first { IfOk result (λ r. IfSome r (IsDouble (plain_flat flat.now))) }
{
    let walk = flat.parts();
    let mut table = BitTable::new(alloc);
    let mut seen = BitTable::new(alloc);
    for (at, part) in walk.iter().enumerate() {
        if let Some(bit) = mark_part(alloc, flat, *part, at + 1, &mut table, &mut seen)? {
            let first = table.get(bit) - 1;
            return Ok(Some(TwoDrivers {
                bit,
                first: token_of(flat, walk[first]),
                second: token_of(flat, *part),
            }));
        }
    }
    Ok(None)
}
