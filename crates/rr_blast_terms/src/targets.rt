//! Targets of assignments on wires (IEEE 1364-2005 sections 5.2.1, 5.2.2, 6.1 and 9.2).
ghost use Rattle.std.specs.Prelude.{◌≡◌, ◌≤◌, ◌+◌, ℕ, Bool, false, None, List, IfOk, OnOk, drop, length};
ghost use Rattle.rr_circuit.specs.Values.{Extends};
ghost use Rattle.rr_syntax.specs.View.{plain, plain_list};
ghost use Rattle.rr_expr.specs.Faults.{fault, faults};
ghost use Rattle.rr_expr.specs.Memories.{index_shape};
ghost use Rattle.rr_expr.specs.Scopes.{entity_range, entity_shape, meant};
ghost use Rattle.rr_expr.specs.Selects.{integer_with, lowest_place};
ghost use Rattle.rr_expr.specs.Values.{form, nowhere, value};
ghost use Rattle.rr_flat.specs.Targets.{bits_there, index_bits, is_constant as is_constant_in, target_bits, targets_bits};
ghost use Rattle.rr_cycle.specs.Exec.{Environment, write};
ghost use Rattle.rr_signal_wires.specs.GuardedPieces.{AreGuardedPieces, put_guarded_pieces};
ghost use Rattle.rr_signal_wires.specs.Words.{AreWords, Holds, carried, widths_of};

use crate::expression::own_wires;
use rr_circuit::{Builder, Wire};
use rr_expr::{Entity, Scope, constant, shape_of};
use rr_signal_wires::{GuardedPiece, Moving, MovingWord, add_fixed, add_moving, add_word};
use rr_syntax::Expr;
use std::alloc::{AllocError, Global};

/// The bits that a select by an index names, whatever its name stands for.
fn add_select(
    alloc: Global,
    b: &mut Builder,
    list: &mut Vec<GuardedPiece>,
    name: &str,
    index: &Expr,
    up: bool,
    count: u32,
    scope: &Scope,
    words: &[Vec<Wire>],
    from: u32,
) -> Result<u32, AllocError>
    requires width { (entity_shape (meant scope.now name.now)).width ≤ 128 }
    requires shaped { fault scope.now (plain index.now) false ≡ None }
    requires some { 1 ≤ count }
    requires few { from + count ≤ 128 }
    requires words { AreWords b.old words.now }
    requires holds { Holds scope.now (widths_of words.now) }
    requires guarded_pieces { AreGuardedPieces b.old (widths_of words.now) list.old.items }
    ensures extends { Extends b.old b.new }
    ensures next { IfOk result (λ r. r ≡ from + count) }
    ensures guarded_pieces { OnOk result (AreGuardedPieces b.new (widths_of words.now) list.new.items) }
    ensures value { OnOk result ((env : ℕ → Bool) (vs : List Bool) (e : Environment) →
        put_guarded_pieces b.new env list.new.items vs e
        ≡ write (bits_there (meant scope.now name.now) (lowest_place (entity_range (meant scope.now name.now)) up (integer_with (form scope.now (plain index.now)) (value scope.now (plain index.now) (carried b.old env words.now))) count) count)
        (drop from vs) (put_guarded_pieces b.old env list.old.items vs e)) }
{
    match scope.meaning(name) {
        Entity::Signal { id, range, .. } => {
            let own = shape_of(index, scope);
            let bits = own_wires(alloc, b, index, scope, words)?;
            let run = Moving {
                signal: id,
                range,
                up,
                count,
                index: bits.as_slice(),
                signed: own.signed,
                from,
            };
            add_moving(b, list, &run)?;
            Ok(from + count)
        }
        Entity::Constant { .. } => Ok(from + count),
        // A part of a memory is none of its words.
        Entity::Memory { .. } => Ok(from + count),
        Entity::Instance => Ok(from + count),
    }
}

/// The bits that an index names: a bit, but a word of a memory, whatever its name stands for.
fn add_index(
    alloc: Global,
    b: &mut Builder,
    list: &mut Vec<GuardedPiece>,
    name: &str,
    index: &Expr,
    scope: &Scope,
    words: &[Vec<Wire>],
    from: u32,
) -> Result<u32, AllocError>
    requires width { (entity_shape (meant scope.now name.now)).width ≤ 128 }
    requires shaped { fault scope.now (plain index.now) false ≡ None }
    requires few { from + (index_shape (meant scope.now name.now)).width ≤ 128 }
    requires words { AreWords b.old words.now }
    requires holds { Holds scope.now (widths_of words.now) }
    requires guarded_pieces { AreGuardedPieces b.old (widths_of words.now) list.old.items }
    ensures extends { Extends b.old b.new }
    ensures next { IfOk result (λ r. r ≡ from + (index_shape (meant scope.now name.now)).width) }
    ensures guarded_pieces { OnOk result (AreGuardedPieces b.new (widths_of words.now) list.new.items) }
    ensures value { OnOk result ((env : ℕ → Bool) (vs : List Bool) (e : Environment) →
        put_guarded_pieces b.new env list.new.items vs e
        ≡ write (index_bits (meant scope.now name.now) (integer_with (form scope.now (plain index.now)) (value scope.now (plain index.now) (carried b.old env words.now))))
        (drop from vs) (put_guarded_pieces b.old env list.old.items vs e)) }
{
    if let Entity::Memory {
        first,
        low,
        words: count,
        range,
        ..
    } = scope.meaning(name)
    {
        let own = shape_of(index, scope);
        let bits = own_wires(alloc, b, index, scope, words)?;
        let run = MovingWord {
            first,
            low,
            words: count,
            range,
            index: bits.as_slice(),
            signed: own.signed,
            from,
        };
        let after = add_word(b, list, &run)?;
        return Ok(after);
    }
    let next = add_select(alloc, b, list, name, index, true, 1, scope, words, from)?;
    Ok(next)
}

/// Whether no signal stands in an expression.
fn is_constant(expr: &Expr, scope: &Scope) -> bool
    ensures { result ≡ is_constant_in scope.now (plain expr.now) }
{
    match constant(expr, scope) {
        Ok(_) => true,
        Err(_) => false,
    }
}

/// The bits that a target names, its indices taken from the wires as they are; the first of its
/// parts takes the top bits of a word, the last those from a place up.
#[cycle(naming)]
fn add_guarded_pieces(
    alloc: Global,
    b: &mut Builder,
    list: &mut Vec<GuardedPiece>,
    target: &Expr,
    scope: &Scope,
    words: &[Vec<Wire>],
    from: u32,
) -> Result<u32, AllocError>
    requires shaped { fault scope.now (plain target.now) false ≡ None }
    requires few { from + length (target_bits scope.now nowhere (plain target.now)) ≤ 128 }
    requires words { AreWords b.old words.now }
    requires holds { Holds scope.now (widths_of words.now) }
    requires guarded_pieces { AreGuardedPieces b.old (widths_of words.now) list.old.items }
    ensures extends { Extends b.old b.new }
    ensures next { IfOk result (λ r. r ≡ from + length (target_bits scope.now nowhere (plain target.now))) }
    ensures guarded_pieces { OnOk result (AreGuardedPieces b.new (widths_of words.now) list.new.items) }
    ensures value { OnOk result ((env : ℕ → Bool) (vs : List Bool) (e : Environment) →
        put_guarded_pieces b.new env list.new.items vs e
        ≡ write (target_bits scope.now (carried b.old env words.now) (plain target.now)) (drop from vs) (put_guarded_pieces b.old env list.old.items vs e)) }
{
    match target {
        Expr::Name { .. } => {
            let next = add_fixed(alloc, b, list, target, scope, from)?;
            Ok(next)
        }
        Expr::Part { .. } => {
            let next = add_fixed(alloc, b, list, target, scope, from)?;
            Ok(next)
        }
        Expr::Bit { name, index, .. } => {
            if is_constant(index, scope) {
                let next = add_fixed(alloc, b, list, target, scope, from)?;
                return Ok(next);
            }
            let next = add_index(alloc, b, list, name, index, scope, words, from)?;
            Ok(next)
        }
        Expr::Indexed {
            name,
            from: index,
            up,
            ..
        } => {
            if is_constant(index, scope) {
                let next = add_fixed(alloc, b, list, target, scope, from)?;
                return Ok(next);
            }
            let count = shape_of(target, scope).width;
            let next = add_select(alloc, b, list, name, index, *up, count, scope, words, from)?;
            Ok(next)
        }
        Expr::Concat { parts } => {
            let next = add_guarded_pieces_of_all(alloc, b, list, parts, scope, words, from)?;
            Ok(next)
        }
        Expr::Literal { .. } => Ok(from),
        Expr::Unary { .. } => Ok(from),
        Expr::Binary { .. } => Ok(from),
        Expr::Cond { .. } => Ok(from),
        Expr::Repeat { .. } => Ok(from),
        Expr::Cast { .. } => Ok(from),
        Expr::Paren { .. } => Ok(from),
    }
}

#[cycle(naming)]
fn add_guarded_pieces_of_all(
    alloc: Global,
    b: &mut Builder,
    list: &mut Vec<GuardedPiece>,
    parts: &[Expr],
    scope: &Scope,
    words: &[Vec<Wire>],
    from: u32,
) -> Result<u32, AllocError>
    requires shaped { faults scope.now (plain_list parts.now) false ≡ None }
    requires few { from + length (targets_bits scope.now nowhere (plain_list parts.now)) ≤ 128 }
    requires words { AreWords b.old words.now }
    requires holds { Holds scope.now (widths_of words.now) }
    requires guarded_pieces { AreGuardedPieces b.old (widths_of words.now) list.old.items }
    ensures extends { Extends b.old b.new }
    ensures next { IfOk result (λ r. r ≡ from + length (targets_bits scope.now nowhere (plain_list parts.now))) }
    ensures guarded_pieces { OnOk result (AreGuardedPieces b.new (widths_of words.now) list.new.items) }
    ensures value { OnOk result ((env : ℕ → Bool) (vs : List Bool) (e : Environment) →
        put_guarded_pieces b.new env list.new.items vs e
        ≡ write (targets_bits scope.now (carried b.old env words.now) (plain_list parts.now)) (drop from vs) (put_guarded_pieces b.old env list.old.items vs e)) }
{
    let mut next = from;
    let mut left = parts.len();
    while left > 0 {
        left -= 1;
        let part = &parts[left];
        next = add_guarded_pieces(alloc, b, list, part, scope, words, next)?;
    }
    Ok(next)
}

/// The bits that a target names.
pub fn guarded_pieces_of(
    alloc: Global,
    b: &mut Builder,
    target: &Expr,
    scope: &Scope,
    words: &[Vec<Wire>],
) -> Result<Vec<GuardedPiece>, AllocError>
    requires shaped { fault scope.now (plain target.now) false ≡ None }
    requires words { AreWords b.old words.now }
    requires holds { Holds scope.now (widths_of words.now) }
    ensures extends { Extends b.old b.new }
    ensures guarded_pieces { IfOk result (λ r. AreGuardedPieces b.new (widths_of words.now) r.items) }
    ensures value { IfOk result (λ r. (env : ℕ → Bool) (vs : List Bool) (e : Environment) →
        put_guarded_pieces b.new env r.items vs e ≡ write (target_bits scope.now (carried b.old env words.now) (plain target.now)) vs e) }
{
    let mut list = Vec::new(alloc);
    add_guarded_pieces(alloc, b, &mut list, target, scope, words, 0)?;
    Ok(list)
}
