//! A file in which two faults of combinational blocks are mended.
ghost use Rattle.std.specs.Prelude.{◌≡◌, ◌≤◌, ℕ, List, Option, IfOk, MatchResult, length, option_map, IfSome, IfNone, true};
ghost use Rattle.std.specs.List.{All};
ghost use Rattle.rr_directive.specs.Expand.{IsTaken};
ghost use Rattle.rr_directive.specs.Places.{offset_at};
ghost use Rattle.rr_edit.specs.Edits.{InOrder};
ghost use Rattle.rr_edit.specs.Lifted.{lifts as lifts_of};
ghost use Rattle.rr_edit.specs.View.{plain_edit, plain_edits};
ghost use Rattle.rr_syntax.specs.View.{plain_source};
ghost use Rattle.rr_lex.specs.Tokens.{lexemes};
ghost use Rattle.rr_flat.specs.Lawful.{RightLabels, RightTargets};
ghost use Rattle.rr_flat.specs.View.{plain_flat};
ghost use Rattle.rr_elaborate.specs.Designs.{IsDesignOf};
ghost use Rattle.rr_run.specs.Refusals.{StopsWhere};
ghost use Rattle.rr_lint_names.specs.Faults.{IsLintFault};
ghost use Rattle.rr_lint_file.specs.Files.{HasWordLatch, IsFirstFixed, IsFixedAt, IsMadeIn, IsMendedFile, RefusesEdits, RefusesMend, anchor as anchor_of};
ghost use Rattle.rr_lint_file.specs.Clean.{IsCleaned};

use crate::read::{FileText, file_text};
use bumpalo::Bump;
use rr_directive::{Expanded, Origin};
use rr_edit::{Edit, lifts};
use rr_elaborate::start_of;
use rr_lint::edits;
use rr_lint_names::LintFault;
use rr_map::lift;
use rr_run::{Fault, Refusal, RunFault, placed};
use std::alloc::Global;

/// The byte at which an edit is told: the first that it replaces, or the one before it.
fn anchor(edit: &Edit) -> u32
    ensures { result ≡ anchor_of (plain_edit edit.now) }
{
    if edit.from < edit.to {
        edit.from
    } else {
        edit.from.saturating_sub(1)
    }
}

/// The place in the file of a byte of the expansion; 0 where there is none.
fn offset(origins: &[Origin], at: u32) -> u32
    ensures { result ≡ offset_at origins.now at }
{
    match origins.get(at as usize) {
        Some(origin) => origin.offset,
        None => 0,
    }
}

/// The place in the file of the first edit that cannot be made there; none where all can.
fn fixed_at(expanded: &Expanded, made: &[Edit]) -> Option<u32>
    requires order { InOrder 0 (length expanded.now.origins.items) (plain_edits made.now) }
    ensures some { IfSome result (λ at. (e : _) × (IsFirstFixed expanded.now.origins.items (plain_edits made.now) e × (at ≡ offset_at expanded.now.origins.items (anchor_of e)))) }
    ensures none { IfNone result (All (λ e. lifts_of expanded.now.origins.items e ≡ true) (plain_edits made.now)) }
{
    for edit in made.iter() {
        if !lifts(&expanded.origins, edit.from, edit.to) {
            return Some(offset(&expanded.origins, anchor(edit)));
        }
    }
    None
}

/// The file with edits of its expansion made in it, or the place of the first that cannot be.
fn made_in<'a>(
    alloc: Global,
    file: &[u8],
    expanded: &Expanded,
    made: &[Edit],
) -> Result<Vec<u8>, RunFault<'a>>
    requires expansion { IsTaken file.now expanded.now.text.items expanded.now.origins.items }
    requires order { InOrder 0 (length expanded.now.text.items) (plain_edits made.now) }
    ensures { MatchResult result (λ out. IsMadeIn file.now expanded.now.origins.items (plain_edits made.now) out.items) (StopsWhere (IsFixedAt expanded.now.origins.items (plain_edits made.now))) }
{
    match lift(alloc, file, expanded, made) {
        Ok(Some(out)) => Ok(out),
        Ok(None) => match fixed_at(expanded, made) {
            Some(at) => Err(RunFault::Refused(Refusal::At(Fault::FromMacro, at))),
            None => unreachable!(),
        },
        Err(_) => Err(RunFault::Memory),
    }
}

/// Why a design has no edits, told in the file of this size.
fn without_edits<'a>(read: &FileText<'_>, size: u32, fault: LintFault) -> RunFault<'a>
    ensures { (file : List ℕ) (top : Option (List ℕ)) → length file ≡ size → IsTaken file read.now.expanded.text.items read.now.expanded.origins.items
        → IsDesignOf read.now.expanded.text.items (lexemes read.now.design.tokens.now) (plain_source read.now.design.source.now) top (plain_flat read.now.design.flat)
        → RightTargets (plain_flat read.now.design.flat) → RightLabels (plain_flat read.now.design.flat) → IsLintFault (plain_flat read.now.design.flat) fault
        → StopsWhere (HasWordLatch file top) result }
{
    match fault {
        LintFault::Latch { block, .. } => {
            let at = start_of(read.design.tokens, block);
            let refusal = placed(&read.expanded, size, Refusal::At(Fault::Latch, at));
            RunFault::Refused(refusal)
        }
        LintFault::Memory => RunFault::Memory,
    }
}

/// The file, read as this, with its blocks mended; or the first block that would keep a memory, or the place
/// of the first change that cannot be made.
fn mend_text<'a>(alloc: Global, file: &[u8], read: &FileText<'_>) -> Result<Vec<u8>, RunFault<'a>>
    requires small { length file.now ≤ 1048576 }
    requires few { length read.now.expanded.text.items ≤ 1048576 }
    requires expansion { IsTaken file.now read.now.expanded.text.items read.now.expanded.origins.items }
    requires design { (top : Option (List ℕ)) × IsDesignOf read.now.expanded.text.items (lexemes read.now.design.tokens.now) (plain_source read.now.design.source.now) top (plain_flat read.now.design.flat) }
    ensures { (top : Option (List ℕ))
        → IsDesignOf read.now.expanded.text.items (lexemes read.now.design.tokens.now) (plain_source read.now.design.source.now) top (plain_flat read.now.design.flat)
        → RightTargets (plain_flat read.now.design.flat) → RightLabels (plain_flat read.now.design.flat)
        → MatchResult result (λ out. IsMendedFile file.now top out.items) (StopsWhere (RefusesEdits file.now top)) }
{
    let text = read.expanded.text.as_slice();
    let design = &read.design;
    match edits(alloc, text, design.tokens, design.source, &design.flat) {
        Ok(made) => made_in(alloc, file, &read.expanded, made.as_slice()),
        Err(fault) => Err(without_edits(read, file.len() as u32, fault)),
    }
}

/// The file of at most 1,048,576 bytes in which two faults of the combinational blocks of its design are
/// mended, with a top, given or not: each `<=` that assigns becomes `=`, and a block that keeps a bit of a
/// variable clears the variable first (IEEE 1364-2005 sections 9.2 and 9.9.2). Nothing else changes. Or the
/// first refusal: of the directives (38 to 40, 16), of the text and its elaboration (1 to 16, 37), of targets
/// and labels (24, 25), of a block that would keep a bit of a memory, which nothing clears (20, section
/// 4.9.3), and that a change cannot be made in the file itself (43).
pub fn mend_file<'a>(
    alloc: Global,
    bytes: &[u8],
    top: Option<&str>,
    arena: &'a Bump,
) -> Result<Vec<u8>, RunFault<'a>>
    requires { length bytes.now ≤ 1048576 }
    ensures answer { MatchResult result (λ out. IsMendedFile bytes.now (option_map (λ n. n.now) top.entry) out.items) (StopsWhere (RefusesMend bytes.now (option_map (λ n. n.now) top.entry))) }
    ensures clean { IfOk result (λ out. IsCleaned bytes.now (option_map (λ n. n.now) top.entry) out.items) }
{
    let read = match file_text(alloc, bytes, top, arena) {
        Ok(read) => read,
        Err(fault) => return Err(fault),
    };
    mend_text(alloc, bytes, &read)
}
