//! The lowest of some bits in the words of memories.
ghost use Rattle.std.specs.Prelude.{◌≡◌, ◌+◌, ◌<◌, ℕ, Some, false, map, nat_eq, IfNone, IfOk, IfSome};
ghost use Rattle.indexmap.specs.IndexMap.{get};
ghost use Rattle.rr_expr.specs.Scopes.{meant};
ghost use Rattle.rr_flat.specs.Targets.{part_name};
ghost use Rattle.rr_text_names.specs.View.{plain_target};
ghost use Rattle.rr_lint_names.specs.Latched.{is_below, HasNoLowWord, HaveNoLowWord, IsLowFrom, IsLowTarget, IsLowWord};

use crate::lows::range_width;
use indexmap::IndexMap;
use rr_expr::{Entity, Scope};
use rr_flat::{Bit, number_of};
use rr_text_names::{Target, identifier_of};
use std::alloc::AllocError;

/// The lowest place of a signal, where it is below a width.
fn low_place(lows: &IndexMap<u32, u32>, signal: u32, width: u64) -> Option<u32>
    ensures some { IfSome result (λ place. get nat_eq lows.now signal ≡ Some place) }
    ensures below { IfSome result (λ place. place < width) }
    ensures none { IfNone result (is_below width (get nat_eq lows.now signal) ≡ false) }
{
    match lows.get(&signal) {
        None => None,
        Some(place) => {
            if u64::from(*place) < width {
                Some(*place)
            } else {
                None
            }
        }
    }
}

/// The lowest bit in the first of so many signals that has one below a width.
fn low_from(
    lows: &IndexMap<u32, u32>,
    first: u32,
    words: u32,
    width: u64,
) -> Result<Option<Bit>, AllocError>
    ensures some { IfOk result (λ r. IfSome r (IsLowFrom (get nat_eq lows.now) first words width)) }
    ensures none { IfOk result (λ r. IfNone r ((k : ℕ) → k < words → is_below width (get nat_eq lows.now (first + k)) ≡ false)) }
{
    for word in 0..words {
        let signal = number_of(first as usize + word as usize)?;
        if let Some(place) = low_place(lows, signal, width) {
            return Ok(Some(Bit { signal, place }));
        }
    }
    Ok(None)
}

/// The lowest bit in the first word that has one, of the memory for which a name stands; other names have
/// no words.
fn low_word(lows: &IndexMap<u32, u32>, entity: &Entity) -> Result<Option<Bit>, AllocError>
    ensures some { IfOk result (λ r. IfSome r (IsLowWord (get nat_eq lows.now) entity.now)) }
    ensures none { IfOk result (λ r. IfNone r (HasNoLowWord (get nat_eq lows.now) entity.now)) }
{
    match entity {
        Entity::Memory {
            first,
            words,
            range,
            ..
        } => low_from(lows, *first, *words, range_width(range)),
        Entity::Signal { .. } => Ok(None),
        Entity::Constant { .. } => Ok(None),
        Entity::Instance => Ok(None),
    }
}

/// The same of the memory that a target names.
fn word_of_target(
    target: &Target,
    names: &Scope,
    lows: &IndexMap<u32, u32>,
) -> Result<Option<Bit>, AllocError>
    ensures some { IfOk result (λ r. IfSome r (IsLowWord (get nat_eq lows.now) (meant names.now (part_name (plain_target target.now).part)))) }
    ensures none { IfOk result (λ r. IfNone r (HasNoLowWord (get nat_eq lows.now) (meant names.now (part_name (plain_target target.now).part)))) }
{
    let named = identifier_of(target.part);
    low_word(lows, &names.meaning(named.name))
}

/// The lowest bit in a word of a memory that one of the targets names, where there is one. The error is want
/// of memory, as 32 bits do not hold the number of a signal; in a flat design it never comes.
pub(crate) fn kept_word(
    targets: &[Target],
    names: &Scope,
    lows: &IndexMap<u32, u32>,
) -> Result<Option<Bit>, AllocError>
    ensures some { IfOk result (λ r. IfSome r (IsLowTarget names.now (get nat_eq lows.now) (map plain_target targets.now))) }
    ensures none { IfOk result (λ r. IfNone r (HaveNoLowWord names.now (get nat_eq lows.now) (map plain_target targets.now))) }
{
    for target in targets.iter() {
        if let Some(bit) = word_of_target(target, names, lows)? {
            return Ok(Some(bit));
        }
    }
    Ok(None)
}
