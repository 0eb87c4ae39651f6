//! Targets that may not be assigned as they are (IEEE 1364-2005 sections 6.1, 9.2 and 12.3.9.2).
ghost use Rattle.std.specs.Prelude.{◌≡◌, ◌++◌, map, false, true, IfOk, IfSome, IfNone, flat_map};
ghost use Rattle.rr_syntax.specs.View.{plain, plain_statement};
ghost use Rattle.rr_flat.specs.Lawful.{RightTargets};
ghost use Rattle.rr_expr.specs.Scopes.{meant};
ghost use Rattle.rr_flat.specs.Sound.{IsNamed};
ghost use Rattle.rr_flat.specs.Targets.{is_fixed as is_fixed_in, is_indexed as is_indexed_part, target_parts};
ghost use Rattle.rr_flat.specs.Writers.{scope_at};
ghost use Rattle.rr_flat.specs.Parts.{block_of as block_of_part, driver_of as driver_of_part, initial_of as initial_of_part};
ghost use Rattle.rr_text_names.specs.Names.{signal_of as signal_of_entity};
ghost use Rattle.rr_flat.specs.View.{plain_driver, plain_flat, plain_side, plain_signal};
ghost use Rattle.rr_assign.specs.Aims.{may_drive as may_drive_in, is_free as is_free_in, is_started as is_started_by, may_assign as may_assign_in, may_set as may_set_in, bad_driven, bad_assigned, bad_declared as bad_declared_in, bad_of_driver as bad_of_driver_in, bad_of_statement as bad_of_statement_in, bad_of_block as bad_of_block_in, bad_of_initial as bad_of_initial_in, bad_of_part as bad_of_part_in, bad_targets};
ghost use Rattle.rr_text_names.specs.Firsts.{earliest};
ghost use Rattle.rr_text_names.specs.View.{plain_target};

use rr_expr::Entity;
use rr_flat::{Driver, Flat, Part, Side};
use rr_syntax::{Expr, Stmt, is_target};
use rr_text_names::{
    Target, add_assigned_targets, add_parts, entity_named, identifier_of, instance_of, is_fixed,
    is_indexed, is_input, is_variable, signal_of,
};
use std::alloc::{AllocError, Global};

fn may_drive(flat: &Flat, id: Option<u32>, fixed: bool) -> bool
    ensures { result ≡ may_drive_in (plain_flat flat.now) id fixed }
{
    match id {
        Some(id) => !is_variable(flat, id) && !is_input(flat, id) && fixed,
        None => false,
    }
}

fn is_free(flat: &Flat, id: u32) -> bool
    ensures { result ≡ is_free_in (plain_flat flat.now) id }
{
    is_variable(flat, id) && !is_input(flat, id)
}

/// Whether a procedural assignment may assign what a name of the design stands for. Each word of a
/// memory is a variable, and no port.
fn may_assign(flat: &Flat, entity: &Entity) -> bool
    requires { IsNamed 0 (map plain_signal flat.now.signals) entity.now }
    ensures { result ≡ may_assign_in (plain_flat flat.now) entity.now }
{
    match entity {
        Entity::Signal { id, .. } => is_free(flat, *id),
        Entity::Memory { .. } => true,
        Entity::Constant { .. } => false,
        Entity::Instance => false,
    }
}

/// Whether it stands as an `initial` item may assign it: a memory with an index, and anything else
/// without one.
fn is_started(entity: &Entity, indexed: bool) -> bool
    ensures { result ≡ is_started_by entity.now indexed }
{
    match entity {
        Entity::Memory { .. } => indexed,
        Entity::Signal { .. } => !indexed,
        Entity::Constant { .. } => !indexed,
        Entity::Instance => !indexed,
    }
}

/// Whether a procedural assignment, or where `starting` one of an `initial` item, may assign a name or
/// select.
fn may_set(starting: bool, flat: &Flat, entity: &Entity, indexed: bool) -> bool
    requires { IsNamed 0 (map plain_signal flat.now.signals) entity.now }
    ensures { result ≡ may_set_in starting (plain_flat flat.now) entity.now indexed }
{
    if starting {
        may_assign(flat, entity) && is_started(entity, indexed)
    } else {
        may_assign(flat, entity)
    }
}

fn sets(starting: bool, flat: &Flat, scope: u32, part: &Expr, name: &str) -> bool
    ensures { result ≡ may_set_in starting (plain_flat flat.now) (meant (scope_at (plain_flat flat.now) scope) name.now) (is_indexed_part (plain part.now)) }
{
    let entity = entity_named(flat, scope, name);
    may_set(starting, flat, &entity, is_indexed(part))
}

#[tactic(auto, unfolding(rr_expr::specs::Scopes::meant, rr_expr::specs::Scopes::lookup))]
fn drives(flat: &Flat, scope: u32, part: &Expr, name: &str) -> bool
    ensures { result ≡ may_drive_in (plain_flat flat.now) (signal_of_entity (meant (scope_at (plain_flat flat.now) scope) name.now)) (is_fixed_in (scope_at (plain_flat flat.now) scope) (plain part.now)) }
{
    match flat.scope(scope) {
        Some(names) => may_drive(flat, signal_of(names.find(name)), is_fixed(part, names)),
        None => false,
    }
}

/// The token of a name or select of a continuous assignment, where it is at fault.
fn bad_part(flat: &Flat, scope: u32, part: &Expr) -> Option<u32>
    ensures { result ≡ earliest (bad_driven (plain_flat flat.now) scope (plain part.now)) }
{
    let named = identifier_of(part);
    if drives(flat, scope, part, named.name) {
        None
    } else {
        Some(named.token)
    }
}

fn first_bad_part(flat: &Flat, scope: u32, targets: &[Target]) -> Option<u32>
    ensures { result ≡ earliest (flat_map (λ t. bad_driven (plain_flat flat.now) scope (plain_target t).part) targets.now) }
{
    for target in targets.iter() {
        let found = bad_part(flat, scope, target.part);
        if found.is_some() {
            return found;
        }
    }
    None
}

/// The same of a procedural one, or of one of an `initial` item where `starting`.
fn bad_target(starting: bool, flat: &Flat, scope: u32, target: &Target) -> Option<u32>
    ensures { result ≡ earliest (bad_assigned starting (plain_flat flat.now) scope (plain_target target.now)) }
{
    let named = identifier_of(target.part);
    if sets(starting, flat, scope, target.part, named.name) {
        None
    } else {
        Some(named.token)
    }
}

fn first_bad_assigned(starting: bool, flat: &Flat, scope: u32, targets: &[Target]) -> Option<u32>
    ensures { result ≡ earliest (flat_map (λ t. bad_assigned starting (plain_flat flat.now) scope (plain_target t)) targets.now) }
{
    for target in targets.iter() {
        let found = bad_target(starting, flat, scope, target);
        if found.is_some() {
            return found;
        }
    }
    None
}

#[tactic(auto, unfolding(rr_text_names::specs::Firsts::earliest))]
fn bad_declared(flat: &Flat, id: u32, value: &Side, token: u32) -> Option<u32>
    ensures { result ≡ earliest (bad_declared_in (plain_flat flat.now) id (plain_side value.now) token) }
{
    match value {
        Side::Whole(_) => None,
        Side::Text { scope, .. } => {
            if instance_of(flat, id) == *scope && !may_drive(flat, Some(id), true) {
                Some(token)
            } else {
                None
            }
        }
    }
}

fn bad_written<'a>(
    alloc: Global,
    flat: &Flat<'a>,
    expr: &'a Expr<'a>,
    scope: u32,
) -> Result<Option<u32>, AllocError>
    ensures { IfOk result (λ r. r ≡ earliest (flat_map (bad_driven (plain_flat flat.now) scope) (target_parts (plain expr.now)))) }
{
    let mut targets = Vec::new(alloc);
    add_parts(&mut targets, expr, true)?;
    Ok(first_bad_part(flat, scope, targets.as_slice()))
}

#[tactic(auto, unfolding(rr_text_names::specs::Firsts::earliest))]
fn bad_of_driver<'a>(
    alloc: Global,
    flat: &Flat<'a>,
    driver: &Driver<'a>,
) -> Result<Option<u32>, AllocError>
    ensures { IfOk result (λ r. r ≡ earliest (bad_of_driver_in (plain_flat flat.now) (plain_driver driver.now))) }
{
    match driver.target {
        Side::Whole(id) => Ok(bad_declared(flat, id, &driver.value, driver.token)),
        Side::Text { expr, scope } => {
            if is_target(expr) {
                bad_written(alloc, flat, expr, scope)
            } else {
                Ok(Some(driver.token))
            }
        }
    }
}

fn bad_of_statement<'a>(
    starting: bool,
    alloc: Global,
    flat: &Flat<'a>,
    scope: u32,
    body: &'a Stmt<'a>,
) -> Result<Option<u32>, AllocError>
    ensures { IfOk result (λ r. r ≡ earliest (bad_of_statement_in starting (plain_flat flat.now) scope (plain_statement body.now))) }
{
    let mut targets = Vec::new(alloc);
    add_assigned_targets(&mut targets, body)?;
    Ok(first_bad_assigned(starting, flat, scope, targets.as_slice()))
}

#[tactic(auto, unfolding(rr_text_names::specs::Firsts::earliest))]
fn bad_driver<'a>(alloc: Global, flat: &Flat<'a>, part: Part) -> Result<Option<u32>, AllocError>
    ensures { IfOk result (λ r. r ≡ earliest (bad_of_driver_in (plain_flat flat.now) (driver_of_part (plain_flat flat.now) part))) }
{
    match flat.driver_of(part) {
        Some(driver) => bad_of_driver(alloc, flat, &driver),
        None => Ok(None),
    }
}

#[tactic(auto, unfolding(rr_flat::specs::Reads::assigned_by, rr_text_names::specs::Firsts::earliest))]
fn bad_block<'a>(alloc: Global, flat: &Flat<'a>, part: Part) -> Result<Option<u32>, AllocError>
    ensures { IfOk result (λ r. r ≡ earliest (bad_of_block_in (plain_flat flat.now) (block_of_part (plain_flat flat.now) part))) }
{
    match flat.block_of(part) {
        Some(block) => bad_of_statement(false, alloc, flat, block.scope, block.body),
        None => Ok(None),
    }
}

#[tactic(auto, unfolding(rr_flat::specs::Reads::assigned_by, rr_text_names::specs::Firsts::earliest))]
fn bad_initial<'a>(alloc: Global, flat: &Flat<'a>, part: Part) -> Result<Option<u32>, AllocError>
    ensures { IfOk result (λ r. r ≡ earliest (bad_of_initial_in (plain_flat flat.now) (initial_of_part (plain_flat flat.now) part))) }
{
    match flat.initial_of(part) {
        Some(initial) => bad_of_statement(true, alloc, flat, initial.scope, initial.body),
        None => Ok(None),
    }
}

/// Of a block or of an `initial` item.
#[tactic(auto, using(rr_text_names::proofs::Walks::earliest_hit, rr_text_names::proofs::Walks::earliest_skip))]
fn bad_body<'a>(alloc: Global, flat: &Flat<'a>, part: Part) -> Result<Option<u32>, AllocError>
    ensures { IfOk result (λ r. r ≡ earliest (bad_of_block_in (plain_flat flat.now) (block_of_part (plain_flat flat.now) part) ++ bad_of_initial_in (plain_flat flat.now) (initial_of_part (plain_flat flat.now) part))) }
{
    let found = bad_block(alloc, flat, part)?;
    if found.is_some() {
        return Ok(found);
    }
    bad_initial(alloc, flat, part)
}

#[tactic(auto, using(rr_text_names::proofs::Walks::earliest_hit, rr_text_names::proofs::Walks::earliest_skip))]
fn bad_of_part<'a>(alloc: Global, flat: &Flat<'a>, part: Part) -> Result<Option<u32>, AllocError>
    ensures { IfOk result (λ r. r ≡ earliest (bad_of_part_in (plain_flat flat.now) part)) }
{
    let found = bad_driver(alloc, flat, part)?;
    if found.is_some() {
        return Ok(found);
    }
    bad_body(alloc, flat, part)
}

/// The first target that may not be assigned as it is, by its name's token, or where a connection of an
/// output port is no target, by the connection's first token: a continuous assignment drives a net by
/// constant indices, a procedural one and an `initial` item assign a variable, an `initial` item a
/// memory by an index and any other variable without one, and none an input port or a parameter.
pub fn first_bad_target(alloc: Global, flat: &Flat) -> Result<Option<u32>, AllocError>
    ensures first { IfOk result (λ r. r ≡ earliest (bad_targets (plain_flat flat.now))) }
    ensures none { IfOk result (λ r. IfNone r (RightTargets (plain_flat flat.now))) }
    ensures some { IfOk result (λ r. IfSome r (λ at. RightTargets (plain_flat flat.now) → ⊥)) }
{
    let walk = flat.parts();
    for part in walk.iter() {
        let found = bad_of_part(alloc, flat, *part)?;
        if found.is_some() {
            return Ok(found);
        }
    }
    Ok(None)
}
