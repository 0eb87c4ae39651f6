//! The bits of whole targets in an environment.
ghost use Rattle.std.specs.Prelude.{◌≡◌, ◌++◌, [], OnOk, None, false};
ghost use Rattle.rr_syntax.specs.View.{plain, plain_list};
ghost use Rattle.rr_expr.specs.Faults.{fault, faults};
ghost use Rattle.rr_expr.specs.Scopes.{env_of};
ghost use Rattle.rr_flat.specs.Sound.{IsSide};
ghost use Rattle.rr_flat.specs.Targets.{target_bits, targets_bits};
ghost use Rattle.rr_flat.specs.View.{plain_flat, plain_side};
ghost use Rattle.rr_flat.specs.Writers.{driven_by};
ghost use Rattle.rr_named_bits.specs.Pieces.{all_bits};

use crate::piece::{Piece, push_piece};
use crate::select::piece_of;
use rr_expr::{Env, Scope};
use rr_flat::{Flat, Side};
use rr_syntax::Expr;
use std::alloc::AllocError;

/// Adds the bits that a target names where its indices have their values in an environment, in the
/// order of the text: the first piece has the top bits (IEEE 1364-2005 sections 5.2.1 and 6.1). The
/// target has a shape in its scope.
#[cycle(pieces)]
#[tactic(auto, using(crate::proofs::Writing::piece_nodes))]
pub fn add_pieces(
    list: &mut Vec<Piece>,
    target: &Expr,
    scope: &Scope,
    env: &Env,
) -> Result<(), AllocError>
    requires { fault scope.now (plain target.now) false ≡ None }
    ensures { OnOk result (all_bits list.new.items ≡ target_bits scope.now (env_of env.now.values.items) (plain target.now) ++ all_bits list.old.items) }
{
    match target {
        Expr::Name { .. } | Expr::Bit { .. } | Expr::Part { .. } | Expr::Indexed { .. } => {
            let piece = piece_of(target, scope, env)?;
            push_piece(list, piece)
        }
        Expr::Concat { parts } => add_pieces_of_all(list, parts, scope, env),
        Expr::Literal { .. }
        | Expr::Unary { .. }
        | Expr::Binary { .. }
        | Expr::Cond { .. }
        | Expr::Repeat { .. }
        | Expr::Cast { .. }
        | Expr::Paren { .. } => Ok(()),
    }
}

#[cycle(pieces)]
fn add_pieces_of_all(
    list: &mut Vec<Piece>,
    targets: &[Expr],
    scope: &Scope,
    env: &Env,
) -> Result<(), AllocError>
    requires { faults scope.now (plain_list targets.now) false ≡ None }
    ensures { OnOk result (all_bits list.new.items ≡ targets_bits scope.now (env_of env.now.values.items) (plain_list targets.now) ++ all_bits list.old.items) }
{
    for target in targets.iter() {
        add_pieces(list, target, scope, env)?;
    }
    Ok(())
}

/// Adds the bits of the target of a driver, of which the first piece has the top bits (IEEE 1364-2005
/// sections 6.1 and 12.3.9.2). Its indices are constant, so `none` has no values.
pub fn add_driven(
    list: &mut Vec<Piece>,
    flat: &Flat,
    target: &Side,
    none: &Env,
) -> Result<(), AllocError>
    requires side { IsSide flat.now.signals flat.now.scopes target.now }
    requires none { none.now.values.items ≡ [] }
    ensures { OnOk result (all_bits list.new.items ≡ driven_by (plain_flat flat.now) (plain_side target.now) ++ all_bits list.old.items) }
{
    match target {
        Side::Whole(id) => push_piece(list, Piece::whole(flat, *id)),
        Side::Text { expr, scope } => add_pieces(list, expr, flat.scope_at(*scope), none),
    }
}
