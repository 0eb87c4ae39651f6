//! Variables that are assigned by both kinds of assignment (IEEE 1364-2005 sections 9.2.1 and 9.2.2).
ghost use Rattle.std.specs.Prelude.{◌≡◌, ◌≤◌, ◌<◌, ◌&&◌, ◌++◌, ◌∷◌, [], List, Some, length, map, cond, not, is_none, set, IfOk, IfSome, IfNone, OnOk};
ghost use Rattle.rr_flat.specs.Lawful.{RightKinds};
ghost use Rattle.rr_flat.specs.Sound.{IsWalk};
ghost use Rattle.rr_flat.specs.View.{plain_flat};
ghost use Rattle.rr_text_names.specs.Firsts.{earliest};
ghost use Rattle.rr_text_names.specs.Names.{entry};
ghost use Rattle.rr_text_names.specs.View.{plain_target};
ghost use Rattle.rr_assign.specs.Kinds.{Aim, AreNoted, HoldsKinds, aim_of, aims, aims_of_part, is_combinational as is_combinational_part, kind_fault, wrong_after, wrong_kinds};
ghost use Rattle.rr_assign.specs.View.{plain_aim};

use rr_flat::{Flat, Part};
use rr_text_names::{Target, add_assigned_targets, identifier_of, variable_named};
use std::alloc::{AllocError, Global};

/// A target of a block, with the number of the block's scope.
#[derive(Clone, Copy)]
pub(crate) struct Assignment<'a> {
    pub(crate) target: Target<'a>,
    pub(crate) scope: u32,
    pub(crate) combinational: bool,
}

fn is_combinational(part: Part) -> bool
    ensures { result ≡ is_combinational_part part }
{
    match part {
        Part::Combinational(_) => true,
        Part::Driver(_) | Part::Clocked(_) | Part::Initial(_) => false,
    }
}

/// Adds the targets of a block.
fn add_assignments<'a>(
    list: &mut Vec<Assignment<'a>>,
    flat: &Flat<'a>,
    scope: u32,
    combinational: bool,
    targets: &[Target<'a>],
) -> Result<(), AllocError>
    ensures { OnOk result (map (plain_aim (plain_flat flat.now)) list.new.items ≡ map (plain_aim (plain_flat flat.now)) list.old.items ++ map (aim_of (plain_flat flat.now) scope combinational) (map plain_target targets.now)) }
{
    for target in targets.iter() {
        list.push(Assignment {
            target: *target,
            scope,
            combinational,
        })?;
    }
    Ok(())
}

#[tactic(auto, unfolding(rr_flat::specs::Reads::assigned_by))]
fn add_part<'a>(
    alloc: Global,
    list: &mut Vec<Assignment<'a>>,
    flat: &Flat<'a>,
    part: Part,
) -> Result<(), AllocError>
    ensures { OnOk result (map (plain_aim (plain_flat flat.now)) list.new.items ≡ map (plain_aim (plain_flat flat.now)) list.old.items ++ aims_of_part (plain_flat flat.now) part) }
{
    match flat.block_of(part) {
        None => Ok(()),
        Some(block) => {
            let mut targets = Vec::new(alloc);
            add_assigned_targets(&mut targets, block.body)?;
            let combinational = is_combinational(part);
            add_assignments(list, flat, block.scope, combinational, targets.as_slice())
        }
    }
}

/// The targets of all blocks, in the order of the walk and of the text.
fn assignments<'a>(alloc: Global, flat: &Flat<'a>) -> Result<Vec<Assignment<'a>>, AllocError>
    ensures aims { IfOk result (λ r. map (plain_aim (plain_flat flat.now)) r.items ≡ aims (plain_flat flat.now)) }
    ensures walked { IfOk result (λ r. IsWalk (length flat.now.drivers) (length flat.now.clocked) (length flat.now.combinational) (length flat.now.initials) flat.now.walk) }
{
    let mut list = Vec::new(alloc);
    let walk = flat.parts();
    for part in walk.iter() {
        add_part(alloc, &mut list, flat, *part)?;
    }
    Ok(list)
}

/// Notes the kind by which a variable is assigned; the token where it is not the one before.
fn note_kind(kinds: &mut Vec<Option<bool>>, id: u32, blocking: bool, token: u32) -> Option<u32>
    requires inside { id < length kinds.old.items }
    ensures kinds { kinds.new.items ≡ cond (is_none (entry kinds.old.items id)) (set kinds.old.items id (Some blocking)) kinds.old.items }
    ensures fault { result ≡ kind_fault (entry kinds.old.items id) blocking token }
{
    match kinds[id as usize] {
        None => {
            kinds[id as usize] = Some(blocking);
            None
        }
        Some(kind) => { if kind == blocking { None } else { Some(token) } }
    }
}

/// Whether an assignment is none that a combinational block may have.
fn is_late(combinational: bool, blocking: bool) -> bool
    ensures { result ≡ (combinational && not blocking) }
{
    combinational && !blocking
}

/// Notes the kind of a target; its token where it is at fault.
fn note(flat: &Flat, kinds: &mut Vec<Option<bool>>, assignment: &Assignment) -> Option<u32>
    requires size { length flat.now.signals ≤ length kinds.old.items }
    ensures size { length kinds.new.items ≡ length kinds.old.items }
    ensures noted { (before : List Aim) → HoldsKinds before (entry kinds.old.items)
        → AreNoted before (plain_aim (plain_flat flat.now) assignment.now ∷ []) (entry kinds.new.items) result }
{
    let named = identifier_of(assignment.target.part);
    if is_late(assignment.combinational, assignment.target.blocking) {
        return Some(named.token);
    }
    match variable_named(flat, assignment.scope, named.name) {
        None => None,
        Some(id) => note_kind(kinds, id, assignment.target.blocking, named.token),
    }
}

/// The first of several that is.
fn first_clash(flat: &Flat, kinds: &mut Vec<Option<bool>>, list: &[Assignment]) -> Option<u32>
    requires size { length flat.now.signals ≤ length kinds.old.items }
    requires nothing { HoldsKinds [] (entry kinds.old.items) }
    ensures { result ≡ earliest (wrong_after [] (map (plain_aim (plain_flat flat.now)) list.now)) }
{
    for assignment in list.iter() {
        let found = note(flat, kinds, assignment);
        if found.is_some() {
            return found;
        }
    }
    None
}

/// No kind for each of so many signals.
fn no_kinds(alloc: Global, count: u32) -> Result<Vec<Option<bool>>, AllocError>
    ensures size { IfOk result (λ t. length t.items ≡ count) }
    ensures nothing { IfOk result (λ t. HoldsKinds [] (entry t.items)) }
{
    let table = vec![in alloc; None; count as usize]?;
    Ok(table)
}

/// The first target that is assigned by `<=` in a combinational block, or whose variable was assigned by
/// the other kind before, by the token of its name.
pub fn first_wrong_kind(alloc: Global, flat: &Flat) -> Result<Option<u32>, AllocError>
    ensures first { IfOk result (λ r. r ≡ earliest (wrong_kinds (plain_flat flat.now))) }
    ensures none { IfOk result (λ r. IfNone r (RightKinds (plain_flat flat.now))) }
    ensures some { IfOk result (λ r. IfSome r (λ at. RightKinds (plain_flat flat.now) → ⊥)) }
{
    let list = assignments(alloc, flat)?;
    let mut kinds = no_kinds(alloc, flat.signal_count())?;
    Ok(first_clash(flat, &mut kinds, list.as_slice()))
}
