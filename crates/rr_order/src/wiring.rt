//! Sides of drivers that only take bits.
ghost use Rattle.std.specs.Prelude.{◌≡◌, ◌++◌, [], IfOk, OnOk, None, false};
ghost use Rattle.rr_syntax.specs.View.{plain, plain_list};
ghost use Rattle.rr_expr.specs.Faults.{fault, faults};
ghost use Rattle.rr_flat.specs.Writers.{all_taken, are_wiring as are_wiring_in, is_wiring as is_wiring_in, taken, taken_at as taken_at_place};
ghost use Rattle.rr_named_bits.specs.Pieces.{all_bits, bits_of};

use rr_expr::{Bit, Env, Scope};
use rr_flat::is_constant;
use rr_named_bits::{Piece, add_pieces, push_piece};
use rr_syntax::Expr;
use std::alloc::{AllocError, Global};

/// Whether an expression only takes bits: a name, a select with constant indices, a literal, or a
/// concatenation of these.
#[cycle(wiring)]
#[tactic(auto, using(crate::proofs::Wirings::wiring_nodes))]
pub(crate) fn is_wiring(expr: &Expr, scope: &Scope) -> bool
    ensures { result ≡ is_wiring_in scope.now (plain expr.now) }
{
    match expr {
        Expr::Name { .. } => true,
        Expr::Literal { .. } => true,
        Expr::Part { .. } => true,
        Expr::Bit { index, .. } => is_constant(index, scope),
        Expr::Indexed { from, .. } => is_constant(from, scope),
        Expr::Concat { parts } => are_wiring(parts, scope),
        Expr::Unary { .. } => false,
        Expr::Binary { .. } => false,
        Expr::Cond { .. } => false,
        Expr::Repeat { .. } => false,
        Expr::Cast { .. } => false,
        Expr::Paren { .. } => false,
    }
}

#[cycle(wiring)]
fn are_wiring(list: &[Expr], scope: &Scope) -> bool
    ensures { result ≡ are_wiring_in scope.now (plain_list list.now) }
{
    for expr in list.iter() {
        if !is_wiring(expr, scope) {
            return false;
        }
    }
    true
}

/// Adds the bits that such an expression takes; a bit of a literal is none. `none` has no values, since
/// its indices are constant.
#[cycle(taking)]
pub(crate) fn add_taken(
    list: &mut Vec<Piece>,
    expr: &Expr,
    scope: &Scope,
    none: &Env,
) -> Result<(), AllocError>
    requires shaped { fault scope.now (plain expr.now) false ≡ None }
    requires none { none.now.values.items ≡ [] }
    ensures { OnOk result (all_bits list.new.items ≡ taken scope.now (plain expr.now) ++ all_bits list.old.items) }
{
    match expr {
        Expr::Name { .. } => add_pieces(list, expr, scope, none),
        Expr::Part { .. } => add_pieces(list, expr, scope, none),
        Expr::Bit { .. } => add_pieces(list, expr, scope, none),
        Expr::Indexed { .. } => add_pieces(list, expr, scope, none),
        Expr::Literal { number, .. } => push_piece(list, Piece::absent(number.width)),
        Expr::Concat { parts } => add_all_taken(list, parts, scope, none),
        Expr::Unary { .. } => Ok(()),
        Expr::Binary { .. } => Ok(()),
        Expr::Cond { .. } => Ok(()),
        Expr::Repeat { .. } => Ok(()),
        Expr::Cast { .. } => Ok(()),
        Expr::Paren { .. } => Ok(()),
    }
}

#[cycle(taking)]
fn add_all_taken(
    list: &mut Vec<Piece>,
    parts: &[Expr],
    scope: &Scope,
    none: &Env,
) -> Result<(), AllocError>
    requires shaped { faults scope.now (plain_list parts.now) false ≡ None }
    requires none { none.now.values.items ≡ [] }
    ensures { OnOk result (all_bits list.new.items ≡ all_taken scope.now (plain_list parts.now) ++ all_bits list.old.items) }
{
    for part in parts.iter() {
        add_taken(list, part, scope, none)?;
    }
    Ok(())
}

/// The bits of pieces of which the first has the top bits, lowest first.
pub(crate) fn bits_of_all(alloc: Global, pieces: &[Piece]) -> Result<Vec<Option<Bit>>, AllocError>
    ensures { IfOk result (λ r. r.items ≡ all_bits pieces.now) }
{
    let mut bits = Vec::new(alloc);
    for after in 0..pieces.len() {
        add_bits_of(&mut bits, pieces[pieces.len() - 1 - after])?;
    }
    Ok(bits)
}

/// Adds the bits of a piece, lowest first.
fn add_bits_of(bits: &mut Vec<Option<Bit>>, piece: Piece) -> Result<(), AllocError>
    ensures { OnOk result (bits.new.items ≡ bits.old.items ++ bits_of piece) }
{
    for place in 0..piece.count {
        bits.push(piece.bit(place))?;
    }
    Ok(())
}

/// The bit that a side gives the target at a place: above its last, a signed side repeats its top bit.
pub(crate) fn taken_at(bits: &[Option<Bit>], signed: bool, place: usize) -> Option<Bit>
    ensures { result ≡ taken_at_place signed bits.now place }
{
    if place < bits.len() {
        bits[place]
    } else if signed && bits.len() > 0 {
        bits[bits.len() - 1]
    } else {
        None
    }
}
