//! The bits of one name or select.
ghost use Rattle.std.specs.Prelude.{◌≡◌, ◌+◌, ◌≤◌, [], ℕ, Some, None, IfOk, pos, ◌-ℤ◌, Bool, true, false};
ghost use Rattle.rr_syntax.specs.View.{plain};
ghost use Rattle.rr_expr.specs.Faults.{fault};
ghost use Rattle.rr_expr.specs.Indices.{integer_of};
ghost use Rattle.rr_expr.specs.Memories.{word_bits, word_signal};
ghost use Rattle.rr_expr.specs.Scopes.{env_of, meant, entity_range, entity_shape, range_width as width_of_range};
ghost use Rattle.rr_expr.specs.Selects.{place, integer_with};
ghost use Rattle.rr_expr.specs.Values.{form, value as value_of, nowhere};
ghost use Rattle.rr_expr.specs.declared.types.Bit.{Bit};
ghost use Rattle.rr_expr.specs.declared.types.Entity.TheVariants as entity;
ghost use Rattle.rr_flat.specs.Targets.{bits_there, index_bits, is_bit_of};
ghost use Rattle.rr_named_bits.specs.Lists.{reaches};
ghost use Rattle.rr_named_bits.specs.Pieces.{bits_of, part_bits};

use crate::piece::{Piece, Reach};
use rr_expr::{
    Entity, Env, Index, Scope, below_index, constant, index_of, near_place, shape_of, value,
    word_at,
};
use rr_syntax::Expr;
use std::alloc::{AllocError, Global};

const ZERO: Index = Index {
    negative: false,
    size: 0,
};

/// What a name in an expression stands for.
#[tactic(auto, unfolding(rr_expr::specs::Scopes::meant))]
pub(crate) fn meaning(scope: &Scope, name: &str) -> Entity
    ensures { result ≡ meant scope.now name.now }
{
    match scope.find(name) {
        Some(entity) => entity,
        None => Entity::Instance,
    }
}

/// An environment without values, for expressions that are constant.
pub fn no_values(alloc: Global) -> Env
    ensures { result.values.items ≡ [] }
{
    Env {
        values: Vec::new(alloc),
    }
}

/// An index in an environment.
fn index_in(expr: &Expr, scope: &Scope, env: &Env) -> Index
    requires { fault scope.now (plain expr.now) false ≡ None }
    ensures { integer_of result ≡ integer_with (form scope.now (plain expr.now)) (value_of scope.now (plain expr.now) (env_of env.now.values.items)) }
{
    let own = shape_of(expr, scope);
    index_of(value(expr, scope, env, own.width, own.signed), own.signed)
}

/// A constant index.
fn constant_index(expr: &Expr, scope: &Scope) -> Index
    requires { fault scope.now (plain expr.now) true ≡ None }
    ensures { integer_of result ≡ integer_with (form scope.now (plain expr.now)) (value_of scope.now (plain expr.now) nowhere) }
{
    match constant(expr, scope) {
        Ok((bits, signed)) => index_of(bits, signed),
        Err(_) => ZERO,
    }
}

/// The number of bits of an expression.
fn width_of(expr: &Expr, scope: &Scope) -> u32
    requires { fault scope.now (plain expr.now) false ≡ None }
    ensures value { result ≡ (form scope.now (plain expr.now)).width }
    ensures low { 1 ≤ result }
    ensures high { result ≤ 128 }
{
    shape_of(expr, scope).width
}

/// The number of bits of a range.
fn range_width(left: u32, right: u32) -> u32
    requires { width_of_range (Some (left, right)) ≤ 128 }
    ensures { result ≡ width_of_range (Some (left, right)) }
{
    if left < right {
        right - left + 1
    } else {
        left - right + 1
    }
}

/// The range by which a name is read; a parameter of w bits has `[w-1:0]`, and a memory is read by its
/// words alone.
fn range_of(entity: &Entity) -> (u32, u32)
    ensures { result ≡ entity_range entity.now }
{
    match entity {
        Entity::Signal { range, .. } => bounds_of(*range),
        Entity::Constant { bits, .. } => (bits.width().saturating_sub(1), 0),
        Entity::Memory { .. } => (0, 0),
        Entity::Instance => (0, 0),
    }
}

/// The bounds of a range; a scalar has the one place 0.
fn bounds_of(range: Option<(u32, u32)>) -> (u32, u32)
    ensures value { (id : ℕ) (signed : Bool) → result ≡ entity_range (entity.Signal id range signed) }
    ensures width { width_of_range (Some result) ≡ width_of_range range }
{
    match range {
        Some(bounds) => bounds,
        None => (0, 0),
    }
}

/// So many places of a signal, from `below` places under that of an index up.
fn near(signal: u32, range: Option<(u32, u32)>, index: Index, below: u32, count: u32) -> Piece
    requires width { width_of_range range ≤ 128 }
    requires below { below ≤ 128 }
    requires count { count ≤ 128 }
    ensures { (signed : Bool) → bits_of result ≡ bits_there (entity.Signal signal range signed) (place (entity_range (entity.Signal signal range signed)) (integer_of index) -ℤ pos below) count }
{
    let bounds = bounds_of(range);
    match near_place(bounds, index) {
        Some(place) => Piece {
            signal,
            width: range_width(bounds.0, bounds.1),
            from: place - below as i64,
            count,
        },
        None => Piece::absent(count),
    }
}

/// So many places of what a name stands for, from `below` places under that of an index up. A memory
/// has none but in its words.
fn run(entity: &Entity, index: Index, below: u32, count: u32) -> Piece
    requires width { (entity_shape entity.now).width ≤ 128 }
    requires below { below ≤ 128 }
    requires count { count ≤ 128 }
    ensures { bits_of result ≡ bits_there entity.now (place (entity_range entity.now) (integer_of index) -ℤ pos below) count }
{
    match entity {
        Entity::Signal { id, range, .. } => { near(*id, *range, index, below, count) }
        Entity::Constant { .. } | Entity::Instance => Piece::absent(count),
        Entity::Memory { .. } => Piece::absent(count),
    }
}

/// All places of a signal.
fn all_of(signal: u32, range: Option<(u32, u32)>) -> Piece
    requires { width_of_range range ≤ 128 }
    ensures bits { (signed : Bool) → bits_of result ≡ bits_there (entity.Signal signal range signed) (pos 0) (width_of_range range) }
    ensures value { result ≡ record { signal = signal; width = width_of_range range; from = pos 0; count = width_of_range range } }
{
    let bounds = bounds_of(range);
    let width = range_width(bounds.0, bounds.1);
    Piece {
        signal,
        width,
        from: 0,
        count: width,
    }
}

/// All places of what a name stands for; a memory has none but in its words.
pub(crate) fn whole(entity: &Entity) -> Piece
    requires { (entity_shape entity.now).width ≤ 128 }
    ensures { bits_of result ≡ bits_there entity.now (pos 0) (entity_shape entity.now).width }
{
    match entity {
        Entity::Signal { id, range, .. } => { all_of(*id, *range) }
        Entity::Constant { bits, .. } => Piece::absent(bits.width()),
        Entity::Memory { range, .. } => absent_word(*range),
        Entity::Instance => Piece::absent(0),
    }
}

/// All bits of what a name stands for, of a memory those of all its words.
pub(crate) fn reach_of(entity: &Entity) -> Reach
    requires { (entity_shape entity.now).width ≤ 128 }
    ensures { (b : Bit) → reaches result b ≡ is_bit_of entity.now b }
{
    match entity {
        Entity::Memory {
            first,
            words,
            range,
            ..
        } => Reach {
            piece: all_of(*first, *range),
            words: *words,
        },
        Entity::Signal { .. } => Reach::one(whole(entity)),
        Entity::Constant { .. } => Reach::one(whole(entity)),
        Entity::Instance => Reach::one(whole(entity)),
    }
}

/// As many places as a word of this range has, without a bit.
fn absent_word(range: Option<(u32, u32)>) -> Piece
    requires { width_of_range range ≤ 128 }
    ensures { bits_of result ≡ word_bits range None }
{
    let bounds = bounds_of(range);
    Piece::absent(range_width(bounds.0, bounds.1))
}

/// The signal with this number above another; want of memory where 32 bits do not hold its number,
/// which no flat design has.
fn signal_after(first: u32, word: u32) -> Result<u32, AllocError>
    ensures { IfOk result (λ id. id ≡ first + word) }
{
    match first.checked_add(word) {
        Some(signal) => Ok(signal),
        None => Err(AllocError),
    }
}

/// All places of a word of a memory, by the signal of its first word (section 5.2.2); where there is
/// no such word as many places without a bit.
fn word_of(first: u32, word: Option<u32>, range: Option<(u32, u32)>) -> Result<Piece, AllocError>
    requires { width_of_range range ≤ 128 }
    ensures { IfOk result (λ p. bits_of p ≡ word_bits range (word_signal first word)) }
{
    match word {
        Some(word) => {
            let signal = signal_after(first, word)?;
            Ok(all_of(signal, range))
        }
        None => Ok(absent_word(range)),
    }
}

/// What an index of a name names: a bit, but a word of a memory.
fn at_index(entity: &Entity, index: Index) -> Result<Piece, AllocError>
    requires { (entity_shape entity.now).width ≤ 128 }
    ensures { IfOk result (λ p. bits_of p ≡ index_bits entity.now (integer_of index)) }
{
    match entity {
        Entity::Memory {
            first,
            low,
            words,
            range,
            ..
        } => word_of(*first, word_at(*low, *words, index), *range),
        Entity::Signal { .. } => Ok(run(entity, index, 0, 1)),
        Entity::Constant { .. } => Ok(run(entity, index, 0, 1)),
        Entity::Instance => Ok(run(entity, index, 0, 1)),
    }
}

/// The bits of a name or select in an environment; other expressions name none by themselves. Memory
/// is wanting where 32 bits do not hold the number of a word's signal, which no flat design has.
pub(crate) fn piece_of(part: &Expr, scope: &Scope, env: &Env) -> Result<Piece, AllocError>
    requires { fault scope.now (plain part.now) false ≡ None }
    ensures { IfOk result (λ p. bits_of p ≡ part_bits scope.now (env_of env.now.values.items) (plain part.now)) }
{
    match part {
        Expr::Name { name, .. } => Ok(whole(&meaning(scope, name))),
        Expr::Bit { name, index, .. } => {
            at_index(&meaning(scope, name), index_in(index, scope, env))
        }
        Expr::Part { name, right, .. } => {
            let count = width_of(part, scope);
            Ok(run(
                &meaning(scope, name),
                constant_index(right, scope),
                0,
                count,
            ))
        }
        Expr::Indexed { name, from, up, .. } => {
            let count = width_of(part, scope);
            let entity = meaning(scope, name);
            let below = below_index(range_of(&entity), count, *up);
            Ok(run(&entity, index_in(from, scope, env), below, count))
        }
        Expr::Literal { .. } => Ok(Piece::absent(0)),
        Expr::Unary { .. } => Ok(Piece::absent(0)),
        Expr::Binary { .. } => Ok(Piece::absent(0)),
        Expr::Cond { .. } => Ok(Piece::absent(0)),
        Expr::Concat { .. } => Ok(Piece::absent(0)),
        Expr::Repeat { .. } => Ok(Piece::absent(0)),
        Expr::Cast { .. } => Ok(Piece::absent(0)),
        Expr::Paren { .. } => Ok(Piece::absent(0)),
    }
}
