//! Widths, ranges and values of names.
ghost use Rattle.std.specs.Prelude.{◌≡◌, ◌+◌, min, length, ◌≤◌, IsTrue};
ghost use Rattle.rr_expr.specs.Scopes.{entity_shape as shape_of_entity, entity_value as value_of_entity, entity_range as range_of_entity, is_scalar as is_scalar_entity, range_width as width_of_range, env_of};
ghost use Rattle.rr_expr.specs.Faults.{is_width as is_a_width};

use crate::types::{Entity, Shape};
use rr_bits::Bits;

/// Whether a width is from 1 to 128.
pub(crate) fn is_width(width: u32) -> bool
    ensures { result ≡ is_a_width width }
{
    0 < width && width < 129
}

/// A number as `u32`, or the greatest `u32` where it is greater.
pub(crate) fn capped(number: u128) -> u32
    ensures { result ≡ min number 4294967295 }
{
    number.min(4294967295) as u32
}

/// The number of bits of a range or a scalar, or the greatest `u32` where it is greater.
pub(crate) fn range_width(range: &Option<(u32, u32)>) -> u32
    ensures { result ≡ min (width_of_range range.now) 4294967295 }
{
    match range {
        None => 1,
        Some((left, right)) => {
            if left < right {
                (right - left).saturating_add(1)
            } else {
                (left - right).saturating_add(1)
            }
        }
    }
}

/// The width of a name, of a memory that of a word, or the greatest `u32` where it is greater.
pub(crate) fn entity_width(entity: &Entity) -> u32
    ensures { result ≡ min (shape_of_entity entity.now).width 4294967295 }
{
    match entity {
        Entity::Constant { bits, .. } => bits.width(),
        Entity::Signal { range, .. } | Entity::Memory { range, .. } => range_width(range),
        Entity::Instance => 0,
    }
}

pub(crate) fn is_signed(entity: &Entity) -> bool
    ensures { result ≡ (shape_of_entity entity.now).signed }
{
    match entity {
        Entity::Constant { signed, .. }
        | Entity::Signal { signed, .. }
        | Entity::Memory { signed, .. } => *signed,
        Entity::Instance => false,
    }
}

/// The shape of a name whose width is from 1 to 128, of a memory that of a word.
pub fn entity_shape(entity: &Entity) -> Shape
    requires fits { IsTrue (is_a_width (shape_of_entity entity.now).width) }
    ensures value { result ≡ shape_of_entity entity.now }
{
    Shape {
        width: entity_width(entity),
        signed: is_signed(entity),
    }
}

/// The range by which a name is read, also where it has none.
pub fn entity_range(entity: &Entity) -> (u32, u32)
    ensures { result ≡ range_of_entity entity.now }
{
    match entity {
        Entity::Constant { bits, .. } => (bits.width() - 1, 0),
        Entity::Signal {
            range: Some(range),
            ..
        } => *range,
        Entity::Signal { range: None, .. } | Entity::Memory { .. } | Entity::Instance => (0, 0),
    }
}

/// Whether a name is a net or variable without a range.
pub(crate) fn is_scalar(entity: &Entity) -> bool
    ensures { result ≡ is_scalar_entity entity.now }
{
    matches!(entity, Entity::Signal { range: None, .. })
}

/// The value of a name; a memory, which has none of its own, is read as 0.
pub(crate) fn entity_value(entity: &Entity, env: &[u128]) -> Bits
    requires { IsTrue (is_a_width (shape_of_entity entity.now).width) }
    ensures value { result ≡ value_of_entity (env_of env.now) entity.now }
    ensures high { length result ≤ 128 }
{
    match entity {
        Entity::Constant { bits, .. } => *bits,
        Entity::Signal { id, range, .. } => Bits::from_u128(
            range_width(range),
            env.get(*id as usize).copied().unwrap_or(0),
        ),
        Entity::Memory { range, .. } => Bits::from_u128(range_width(range), 0),
        Entity::Instance => Bits::from_u128(1, 0),
    }
}
