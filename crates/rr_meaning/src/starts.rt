//! What the signals of a design begin with.
ghost use Rattle.std.specs.Prelude.{◌≡◌, IfOk, OnOk, length};
ghost use Rattle.rr_expr.specs.Scopes.{env_of};
ghost use Rattle.rr_flat.specs.View.{plain_flat};
ghost use Rattle.rr_meaning.specs.Work.{NoneAbove, inner_beginning};

use rr_flat::Flat;
use std::alloc::{AllocError, Global};

/// The same numbers once more.
pub(crate) fn copy_of(alloc: Global, values: &[u128]) -> Result<Vec<u128>, AllocError>
    ensures { IfOk result (λ r. r.items ≡ values.now) }
{
    let mut copy = Vec::new(alloc);
    copy.extend_from_slice(values)?;
    Ok(copy)
}

/// The starting values: none has a bit above its signal's width.
pub(crate) fn starts_of(alloc: Global, flat: &Flat) -> Result<Vec<u128>, AllocError>
    ensures value { IfOk result (λ r. r.items ≡ flat.now.starts) }
    ensures count { IfOk result (λ r. length r.items ≡ length flat.now.signals) }
    ensures above { OnOk result (NoneAbove (plain_flat flat.now)) }
{
    let starts = copy_of(alloc, flat.start_list())?;
    Ok(starts)
}

/// What each signal begins with that is no input of the top; an input has 0. An error says that memory
/// ran out.
pub fn starts_inside(alloc: Global, flat: &Flat) -> Result<Vec<u128>, AllocError>
    ensures env { IfOk result (λ r. env_of r.items ≡ inner_beginning (plain_flat flat.now)) }
    ensures count { IfOk result (λ r. length r.items ≡ length flat.now.signals) }
    ensures above { OnOk result (NoneAbove (plain_flat flat.now)) }
{
    let mut starts = starts_of(alloc, flat)?;
    for id in flat.input_list().iter() {
        starts[*id as usize] = 0;
    }
    Ok(starts)
}
