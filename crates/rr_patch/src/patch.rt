//! A text with its edits made.

ghost use Rattle.std.specs.Prelude.{◌≡◌, ◌≤◌, ◌-◌, ◌++◌, length, drop, take, IfOk};
ghost use Rattle.rr_edit.specs.Edits.{edited, InOrder};
ghost use Rattle.rr_edit.specs.View.{plain_edits};

use rr_edit::Edit;
use std::alloc::{AllocError, Global};

/// Writes the bytes from a place up to an edit, and the text of the edit.
fn push_edit(out: &mut Vec<u8>, bytes: &[u8], at: usize, edit: &Edit) -> Result<(), AllocError>
    requires space { at ≤ edit.now.from }
    requires within { edit.now.from ≤ length bytes.now }
    ensures { IfOk result (λ _. out.new.items ≡ out.old.items ++ (take (edit.now.from - at) (drop at bytes.now) ++ edit.now.text.items)) }
{
    out.extend_from_slice(&bytes[at..edit.from as usize])?;
    out.extend_from_slice(&edit.text)?;
    Ok(())
}

/// The bytes of a text with edits made that stand in their order.
pub(crate) fn patch(alloc: Global, bytes: &[u8], edits: &[Edit]) -> Result<Vec<u8>, AllocError>
    requires order { InOrder 0 (length bytes.now) (plain_edits edits.now) }
    ensures { IfOk result (λ out. out.items ≡ edited 0 bytes.now (plain_edits edits.now)) }
{
    let mut out = Vec::new(alloc);
    let mut at = 0;
    for edit in edits.iter() {
        push_edit(&mut out, bytes, at, edit)?;
        at = edit.to as usize;
    }
    out.extend_from_slice(&bytes[at..])?;
    Ok(out)
}
