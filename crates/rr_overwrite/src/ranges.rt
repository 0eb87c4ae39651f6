//! Ranges in which a name stands.

ghost use Rattle.std.specs.Prelude.{◌≡◌, IfOk, not, nat_eq, length, ◌++◌};
ghost use Rattle.rr_syntax.specs.View.{plain, plain_range};
ghost use Rattle.rr_flat.specs.Reads.{names_in};
ghost use Rattle.rr_overwrite.specs.Overwrites.{is_open as is_open_range};

use rr_syntax::{Bounds, Expr};
use rr_text_names::add_names;
use std::alloc::{AllocError, Global};

/// Whether a name stands in one of two expressions.
fn name_stands<'a>(
    alloc: Global,
    left: &'a Expr<'a>,
    right: &'a Expr<'a>,
) -> Result<bool, AllocError>
    ensures { IfOk result (λ b. b ≡ not (nat_eq (length (names_in (plain left.now) ++ names_in (plain right.now))) 0)) }
{
    let mut names = Vec::new(alloc);
    add_names(&mut names, left)?;
    add_names(&mut names, right)?;
    Ok(names.len() != 0)
}

/// Whether a name stands in a range, which is that of a parameter.
#[tactic(auto, unfolding(rr_syntax::specs::View::plain_range))]
pub(crate) fn is_open<'a>(alloc: Global, range: &Option<Bounds<'a>>) -> Result<bool, AllocError>
    ensures { IfOk result (λ b. b ≡ is_open_range (plain_range range.now)) }
{
    match range {
        None => Ok(false),
        Some(bounds) => name_stands(alloc, bounds.left, bounds.right),
    }
}
