//! The lowest of some bits in each signal.
ghost use Rattle.std.specs.Prelude.{◌≡◌, ◌+◌, ◌&&◌, ◌||◌, ℕ, nat_eq, nat_lt, IfOk, OnOk};
ghost use Rattle.std.specs.List.{list_any};
ghost use Rattle.indexmap.specs.IndexMap.{get};
ghost use Rattle.rr_expr.specs.Scopes.{range_width as width_of_range};
ghost use Rattle.rr_lint_names.specs.Latched.{is_below, is_low as is_low_of};

use indexmap::IndexMap;
use rr_expr::Entity;
use rr_flat::Bit;
use std::alloc::{AllocError, Global};

/// The number of bits of a range, and of a scalar.
pub(crate) fn range_width(range: &Option<(u32, u32)>) -> u64
    ensures { result ≡ width_of_range range.now }
{
    match range {
        None => 1,
        Some((left, right)) => {
            if left < right {
                u64::from(right - left) + 1
            } else {
                u64::from(left - right) + 1
            }
        }
    }
}

/// Notes a bit, where none below it is noted in its signal.
fn note(lows: &mut IndexMap<u32, u32>, bit: &Bit) -> Result<(), AllocError>
    ensures { OnOk result ((id width : ℕ) → is_below width (get nat_eq lows.new id) ≡ (is_below width (get nat_eq lows.old id) || (nat_eq id bit.now.signal && nat_lt bit.now.place width))) }
{
    if let Some(place) = lows.get(&bit.signal).copied() {
        if place <= bit.place {
            return Ok(());
        }
    }
    match lows.insert(bit.signal, bit.place) {
        Ok(_) => Ok(()),
        Err(_) => Err(AllocError),
    }
}

/// The lowest place of each signal that some bits stand in.
pub(crate) fn lowest(alloc: Global, bits: &[Bit]) -> Result<IndexMap<u32, u32>, AllocError>
    ensures { IfOk result (λ lows. (id width : ℕ) → is_below width (get nat_eq lows id) ≡ list_any (λ b. nat_eq id b.signal && nat_lt b.place width) bits.now) }
{
    let mut lows = IndexMap::new(alloc);
    for bit in bits.iter() {
        note(&mut lows, bit)?;
    }
    Ok(lows)
}

/// Whether one of the bits for which a name stands is among those; of a memory none is.
pub(crate) fn is_low(lows: &IndexMap<u32, u32>, entity: &Entity) -> bool
    ensures { result ≡ is_low_of (get nat_eq lows.now) entity.now }
{
    match entity {
        Entity::Signal { id, range, .. } => match lows.get(id) {
            None => false,
            Some(place) => u64::from(*place) < range_width(range),
        },
        Entity::Constant { .. } | Entity::Memory { .. } | Entity::Instance => false,
    }
}
