//! A file with edits of its expansion.

ghost use Rattle.std.specs.Prelude.{◌≡◌, ◌≤◌, ◌<◌, ◌-◌, ◌++◌, drop, length, take, true, IfNone, IfOk, IfSome};
ghost use Rattle.std.specs.List.{All, list_all};
ghost use Rattle.rr_directive.specs.Expand.{IsExpansion};
ghost use Rattle.rr_edit.specs.Edits.{edited, InOrder};
ghost use Rattle.rr_edit.specs.Lifted.{lifted, lifts as lifts_of};
ghost use Rattle.rr_edit.specs.View.{plain_edit, plain_edits};
ghost use Rattle.rr_map.specs.Moves.{all_moved, moved};

use rr_directive::{Expanded, Origin};
use rr_edit::{Edit, lifts};
use rr_lift::exact_laws;
use std::alloc::{AllocError, Global};

/// Whether all edits lift.
fn all_lift(origins: &[Origin], edits: &[Edit]) -> bool
    requires order { InOrder 0 (length origins.now) (plain_edits edits.now) }
    ensures { result ≡ list_all (lifts_of origins.now) (plain_edits edits.now) }
{
    for edit in edits.iter() {
        if !lifts(origins, edit.from, edit.to) {
            return false;
        }
    }
    true
}

/// Copies the file from one place up to another.
fn copy(out: &mut Vec<u8>, file: &[u8], from: usize, to: usize) -> Result<(), AllocError>
    requires order { from ≤ to }
    requires within { to ≤ length file.now }
    ensures { IfOk result (λ _. out.new.items ≡ out.old.items ++ take (to - from) (drop from file.now)) }
{
    out.extend_from_slice(&file[from..to])?;
    Ok(())
}

/// Copies the file from a place on up to an edit, makes that, and answers the place in the file behind it.
fn make(
    out: &mut Vec<u8>,
    file: &[u8],
    at: usize,
    origins: &[Origin],
    edit: &Edit,
) -> Result<usize, AllocError>
    requires some { 0 < edit.now.to }
    requires order { edit.now.from ≤ edit.now.to }
    requires within { edit.now.to ≤ length origins.now }
    requires room { edit.now.to - edit.now.from ≤ (moved origins.now (plain_edit edit.now)).to }
    requires behind { at ≤ (moved origins.now (plain_edit edit.now)).from }
    requires inside { (moved origins.now (plain_edit edit.now)).to ≤ length file.now }
    ensures made { IfOk result (λ next. out.new.items ≡ out.old.items ++ (take ((moved origins.now (plain_edit edit.now)).from - at) (drop at file.now) ++ edit.now.text.items)) }
    ensures next { IfOk result (λ next. next ≡ (moved origins.now (plain_edit edit.now)).to) }
{
    let last = edit.to as usize - 1;
    let end = origins[last].offset as usize + 1;
    let start = end - (edit.to - edit.from) as usize;
    copy(out, file, at, start)?;
    out.extend_from_slice(&edit.text)?;
    Ok(end)
}

/// The file with edits made, each of which lifts.
fn make_all(
    alloc: Global,
    file: &[u8],
    origins: &[Origin],
    edits: &[Edit],
) -> Result<Vec<u8>, AllocError>
    requires order { InOrder 0 (length origins.now) (plain_edits edits.now) }
    requires lift { list_all (lifts_of origins.now) (plain_edits edits.now) ≡ true }
    requires moved { InOrder 0 (length file.now) (all_moved origins.now (plain_edits edits.now)) }
    ensures { IfOk result (λ out. out.items ≡ edited 0 file.now (all_moved origins.now (plain_edits edits.now))) }
{
    let mut out = Vec::new(alloc);
    let mut at = 0;
    for edit in edits.iter() {
        at = make(&mut out, file, at, origins, edit)?;
    }
    copy(&mut out, file, at, file.len())?;
    Ok(out)
}

/// The file with edits of its expansion made in it: without the bytes that they replace, and with the text
/// of each at the place of the last byte that it replaces, or, where it replaces none, directly behind the
/// byte before it. None exactly where the bytes that one replaces do not stand side by side in the file
/// itself, or that byte before does not.
pub fn lift(
    alloc: Global,
    file: &[u8],
    expanded: &Expanded,
    edits: &[Edit],
) -> Result<Option<Vec<u8>>, AllocError>
    requires expansion { IsExpansion file.now expanded.now.text.items expanded.now.origins.items }
    requires order { InOrder 0 (length expanded.now.text.items) (plain_edits edits.now) }
    ensures none { IfOk result (λ out. IfNone out (All (λ e. lifts_of expanded.now.origins.items e ≡ true) (plain_edits edits.now) → ⊥)) }
    ensures lifted { IfOk result (λ out. IfSome out (λ bytes. bytes.items ≡ lifted expanded.now.origins.items (plain_edits edits.now) 0 file.now)) }
    ensures lift { IfOk result (λ out. IfSome out (λ bytes. All (λ e. lifts_of expanded.now.origins.items e ≡ true) (plain_edits edits.now))) }
{
    if !all_lift(&expanded.origins, edits) {
        return Ok(None);
    }
    // The bytes that edits replace stand in the file in the order of the text.
    exact_laws();
    let out = make_all(alloc, file, &expanded.origins, edits)?;
    Ok(Some(out))
}
