//! Variables that one clocked block writes at once and another reads (IEEE 1364-2005 section 9.2.1).
ghost use Rattle.std.specs.Prelude.{◌≡◌, ◌≤◌, ◌<◌, ◌++◌, ◌∷◌, [], ◌||◌, not, ℕ, List, Option, length, map, nat_eq, flat_map, IfOk, OnOk, IfSome, IfNone};
ghost use Rattle.rr_syntax.specs.View.{plain_identifier};
ghost use Rattle.rr_flat.specs.Lawful.{NoRace};
ghost use Rattle.rr_flat.specs.Reads.{names_read};
ghost use Rattle.rr_flat.specs.View.{plain_block, plain_flat};
ghost use Rattle.rr_text_names.specs.Firsts.{earliest};
ghost use Rattle.rr_assign.specs.Races.{HoldsWriters, race_of as race_in, raced_by, races, writer_of, writer_table, writers_from, writers_of as writers_by, written_by};
ghost use Rattle.rr_text_names.specs.View.{plain_target};

use rr_flat::{Block, Flat};
use rr_syntax::Named;
use rr_text_names::{Target, add_assigned_targets, add_read_names, identifier_of, variable_named};
use std::alloc::{AllocError, Global};

/// The clocked blocks that write a variable by `=`.
#[derive(Clone, Copy)]
pub(crate) enum Writers {
    Nobody,
    One(usize),
    Several,
}

fn is_raced(writers: Writers, block: usize) -> bool
    ensures { result ≡ raced_by writers block }
{
    match writers {
        Writers::Nobody => false,
        Writers::One(number) => number != block,
        Writers::Several => true,
    }
}

fn with_writer(writers: Writers, block: usize) -> Writers
    ensures { (k : ℕ) → raced_by result k ≡ (raced_by writers k || not (nat_eq block k)) }
{
    match writers {
        Writers::Nobody => Writers::One(block),
        Writers::One(number) => {
            if number == block {
                Writers::One(number)
            } else {
                Writers::Several
            }
        }
        Writers::Several => Writers::Several,
    }
}

/// The variable that a target assigns by `=`, if it does.
fn written(flat: &Flat, scope: u32, target: &Target) -> Option<u32>
    ensures value { result ≡ written_by (plain_flat flat.now) scope (plain_target target.now) }
    ensures inside { IfSome result (λ id. id < length flat.now.signals) }
{
    let named = identifier_of(target.part);
    if target.blocking {
        variable_named(flat, scope, named.name)
    } else {
        None
    }
}

fn note_writer(writers: &mut Vec<Writers>, block: usize, written: Option<u32>)
    requires inside { IfSome written (λ id. id < length writers.old.items) }
    ensures size { length writers.new.items ≡ length writers.old.items }
    ensures held { (ws : List (ℕ × Option ℕ)) → HoldsWriters ws (writer_table writers.old.items)
        → HoldsWriters (ws ++ (block, written) ∷ []) (writer_table writers.new.items) }
{
    match written {
        None => {}
        Some(id) => {
            writers[id as usize] = with_writer(writers[id as usize], block);
        }
    }
}

fn note_writers(
    flat: &Flat,
    writers: &mut Vec<Writers>,
    scope: u32,
    block: usize,
    targets: &[Target],
)
    requires size { length flat.now.signals ≤ length writers.old.items }
    ensures size { length writers.new.items ≡ length writers.old.items }
    ensures held { (ws : List (ℕ × Option ℕ)) → HoldsWriters ws (writer_table writers.old.items)
        → HoldsWriters (ws ++ map (writer_of (plain_flat flat.now) scope block) (map plain_target targets.now)) (writer_table writers.new.items) }
{
    for target in targets.iter() {
        let id = written(flat, scope, target);
        note_writer(writers, block, id);
    }
}

fn note_block(
    alloc: Global,
    flat: &Flat,
    writers: &mut Vec<Writers>,
    number: usize,
    block: &Block,
) -> Result<(), AllocError>
    requires size { length flat.now.signals ≤ length writers.old.items }
    ensures size { OnOk result (length writers.new.items ≡ length writers.old.items) }
    ensures held { OnOk result ((ws : List (ℕ × Option ℕ)) → HoldsWriters ws (writer_table writers.old.items)
        → HoldsWriters (ws ++ writers_by (plain_flat flat.now) number (plain_block block.now)) (writer_table writers.new.items)) }
{
    let mut targets = Vec::new(alloc);
    add_assigned_targets(&mut targets, block.body)?;
    note_writers(flat, writers, block.scope, number, targets.as_slice());
    Ok(())
}

/// Nobody for each of so many signals.
fn no_writers(alloc: Global, count: u32) -> Result<Vec<Writers>, AllocError>
    ensures size { IfOk result (λ t. length t.items ≡ count) }
    ensures nothing { IfOk result (λ t. HoldsWriters [] (writer_table t.items)) }
{
    let table = vec![in alloc; Writers::Nobody; count as usize]?;
    Ok(table)
}

/// By signal, the clocked blocks that write it by `=`.
fn writers_of(alloc: Global, flat: &Flat) -> Result<Vec<Writers>, AllocError>
    ensures size { IfOk result (λ t. length t.items ≡ length flat.now.signals) }
    ensures held { IfOk result (λ t. HoldsWriters (writers_from (plain_flat flat.now) 0 (plain_flat flat.now).clocked) (writer_table t.items)) }
{
    let mut writers = no_writers(alloc, flat.signal_count())?;
    let blocks = flat.clocked_blocks();
    for number in 0..blocks.len() {
        note_block(alloc, flat, &mut writers, number, &blocks[number])?;
    }
    Ok(writers)
}

#[tactic(auto, unfolding(rr_text_names::specs::Firsts::earliest, rr_syntax::specs::View::plain_identifier))]
fn race_of(flat: &Flat, writers: &[Writers], block: usize, scope: u32, named: &Named) -> Option<u32>
    requires size { length flat.now.signals ≤ length writers.now }
    ensures { (ws : List (ℕ × Option ℕ)) → HoldsWriters ws (writer_table writers.now) → result ≡ earliest (race_in (plain_flat flat.now) ws block scope (plain_identifier named.now)) }
{
    match variable_named(flat, scope, named.name) {
        None => None,
        Some(id) => {
            if is_raced(writers[id as usize], block) {
                Some(named.token)
            } else {
                None
            }
        }
    }
}

fn first_race_of(
    flat: &Flat,
    writers: &[Writers],
    block: usize,
    scope: u32,
    names: &[Named],
) -> Option<u32>
    requires size { length flat.now.signals ≤ length writers.now }
    ensures { (ws : List (ℕ × Option ℕ)) → HoldsWriters ws (writer_table writers.now) → result ≡ earliest (flat_map (race_in (plain_flat flat.now) ws block scope) (map plain_identifier names.now)) }
{
    for named in names.iter() {
        let found = race_of(flat, writers, block, scope, named);
        if found.is_some() {
            return found;
        }
    }
    None
}

fn race_in_block(
    alloc: Global,
    flat: &Flat,
    writers: &[Writers],
    number: usize,
    block: &Block,
) -> Result<Option<u32>, AllocError>
    requires size { length flat.now.signals ≤ length writers.now }
    ensures { IfOk result (λ r. (ws : List (ℕ × Option ℕ)) → HoldsWriters ws (writer_table writers.now)
        → r ≡ earliest (flat_map (race_in (plain_flat flat.now) ws number (plain_block block.now).scope) (names_read (plain_block block.now).body))) }
{
    let mut names = Vec::new(alloc);
    add_read_names(&mut names, block.body)?;
    Ok(first_race_of(flat, writers, number, block.scope, names.as_slice()))
}

/// The first name of a variable that a clocked block reads and another one writes by `=`, by its token.
pub fn first_race(alloc: Global, flat: &Flat) -> Result<Option<u32>, AllocError>
    ensures first { IfOk result (λ r. r ≡ earliest (races (plain_flat flat.now))) }
    ensures none { IfOk result (λ r. IfNone r (NoRace (plain_flat flat.now))) }
    ensures some { IfOk result (λ r. IfSome r (λ at. NoRace (plain_flat flat.now) → ⊥)) }
{
    let writers = writers_of(alloc, flat)?;
    let blocks = flat.clocked_blocks();
    for number in 0..blocks.len() {
        let found = race_in_block(alloc, flat, writers.as_slice(), number, &blocks[number])?;
        if found.is_some() {
            return Ok(found);
        }
    }
    Ok(None)
}
