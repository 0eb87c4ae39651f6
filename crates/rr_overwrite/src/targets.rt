//! The variables that a body assigns as a whole outside its loops.

ghost use Rattle.std.specs.Prelude.{◌≡◌, ◌++◌, IfOk, OnOk, filter, flat_map, map};
ghost use Rattle.rr_syntax.specs.View.{plain_statement};
ghost use Rattle.rr_text_names.specs.View.{plain_target};
ghost use Rattle.rr_overwrite.specs.Overwrites.{first_targets as first_targets_of, targets_of as targets_in, whole_target};
ghost use Rattle.rr_overwrite.specs.Variables.{new_target, plain_whole};

use rr_guard::{TextSet, whole_name};
use rr_syntax::Stmt;
use rr_text_names::{Target, add_assigned_targets};
use std::alloc::{AllocError, Global};

/// A variable that is assigned as a whole, by `=` where it is blocking (IEEE 1364-2005 section 9.2).
#[derive(Clone, Copy)]
pub(crate) struct WholeTarget<'a> {
    pub(crate) name: &'a str,
    pub(crate) blocking: bool,
}

/// A whole target whose variable was not met before, behind the others.
fn add_first<'a>(
    list: &mut Vec<WholeTarget<'a>>,
    seen: &mut TextSet<'a>,
    target: &Target<'a>,
) -> Result<(), AllocError>
    ensures added { OnOk result (map plain_whole list.new.items ≡ map plain_whole list.old.items ++ filter (new_target seen.old) (whole_target (plain_target target.now))) }
    ensures seen { OnOk result (seen.new ≡ seen.old ++ map (λ t. t.text) (filter (new_target seen.old) (whole_target (plain_target target.now)))) }
{
    match whole_name(target.part) {
        None => Ok(()),
        Some(name) => {
            if seen.add(name)? {
                list.push(WholeTarget {
                    name,
                    blocking: target.blocking,
                })?;
            }
            Ok(())
        }
    }
}

/// Each variable once, at its first whole target.
fn first_targets<'a>(
    alloc: Global,
    targets: &[Target<'a>],
) -> Result<Vec<WholeTarget<'a>>, AllocError>
    ensures { IfOk result (λ r. map plain_whole r.items ≡ first_targets_of (flat_map whole_target (map plain_target targets.now))) }
{
    let mut seen = TextSet::new(alloc);
    let mut list = Vec::new(alloc);
    for target in targets.iter() {
        add_first(&mut list, &mut seen, target)?;
    }
    Ok(list)
}

/// The variables that stand as whole targets in a statement, in no loop of it, in the order of their first
/// such targets: a loop may have no turn.
#[tactic(auto, using(crate::proofs::FirstTargets::targets_are))]
pub(crate) fn targets_of<'a>(
    alloc: Global,
    body: &'a Stmt<'a>,
) -> Result<Vec<WholeTarget<'a>>, AllocError>
    ensures { IfOk result (λ r. map plain_whole r.items ≡ targets_in (plain_statement body.now)) }
{
    let mut targets = Vec::new(alloc);
    add_assigned_targets(&mut targets, body)?;
    first_targets(alloc, targets.as_slice())
}
