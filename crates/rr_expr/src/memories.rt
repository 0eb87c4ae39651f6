//! Words of memories (IEEE 1364-2005 section 5.2.2), and what an index of any name reads.
ghost use Rattle.std.specs.Prelude.{◌≡◌, ◌≤◌, map, IsTrue};
ghost use Rattle.rr_expr.specs.Faults.{is_width as is_a_width};
ghost use Rattle.rr_expr.specs.Indices.{integer_of};
ghost use Rattle.rr_expr.specs.Memories.{word_at as word_of_index, word_signal, word_bits, bit_value, index_shape as shape_of_index, index_value as value_of_index};
ghost use Rattle.rr_expr.specs.Scopes.{entity_shape as shape_of_entity, range_width as width_of_range, env_of};

use crate::entities::{entity_range, entity_shape, entity_value, range_width};
use crate::selects::{Index, picked};
use crate::types::{Entity, Shape};
use rr_bits::Bits;

/// The word of a memory that has an index, counted from the lowest, where there is one.
pub fn word_at(low: u32, words: u32, index: Index) -> Option<u32>
    ensures { result ≡ word_of_index low words (integer_of index) }
{
    // A sign before 0 says nothing.
    if index.negative && 0 < index.size {
        return None;
    }
    if index.size < low as u128 {
        return None;
    }
    let word = index.size - low as u128;
    if word < words as u128 {
        Some(word as u32)
    } else {
        None
    }
}

/// The shape of what an index of a name reads, whose width is from 1 to 128: a bit, but a word of a
/// memory.
pub fn index_shape(entity: &Entity) -> Shape
    requires fits { IsTrue (is_a_width (shape_of_entity entity.now).width) }
    ensures value { result ≡ shape_of_index entity.now }
    ensures low { 1 ≤ result.width }
    ensures high { result.width ≤ 128 }
{
    match entity {
        Entity::Memory { .. } => entity_shape(entity),
        Entity::Constant { .. } | Entity::Signal { .. } | Entity::Instance => Shape {
            width: 1,
            signed: false,
        },
    }
}

/// The value of a word of a memory, 0 where it has none.
fn word_value(env: &[u128], range: &Option<(u32, u32)>, first: u32, word: Option<u32>) -> Bits
    requires { IsTrue (is_a_width (width_of_range range.now)) }
    ensures { result ≡ map (bit_value (env_of env.now)) (word_bits range.now (word_signal first word)) }
{
    match word {
        None => Bits::from_u128(range_width(range), 0),
        Some(word) => {
            let signal = first as usize + word as usize;
            Bits::from_u128(range_width(range), env.get(signal).copied().unwrap_or(0))
        }
    }
}

/// What an index of a name reads.
pub(crate) fn index_value(entity: &Entity, env: &[u128], index: Index) -> Bits
    requires { IsTrue (is_a_width (shape_of_entity entity.now).width) }
    ensures { result ≡ value_of_index (env_of env.now) entity.now (integer_of index) }
{
    match entity {
        Entity::Memory {
            first,
            low,
            words,
            range,
            ..
        } => word_value(env, range, *first, word_at(*low, *words, index)),
        Entity::Constant { .. } | Entity::Signal { .. } | Entity::Instance => {
            picked(entity_value(entity, env), entity_range(entity), index, 1)
        }
    }
}
