//! The edits of a choice, in the order of the text.

ghost use Rattle.std.specs.Prelude.{◌≡◌, ◌<◌, ◌+◌, ◌^◌, ◌++◌, [], length, IfOk, Some};
ghost use Rattle.std.specs.List.{All};
ghost use Rattle.rr_syntax.specs.Items.{NumberedSource};
ghost use Rattle.rr_syntax.specs.View.{plain_source};
ghost use Rattle.rr_edit.specs.Edits.{edited, InOrder, IsPlaced};
ghost use Rattle.rr_edit.specs.View.{plain_edits};
ghost use Rattle.rr_grammar.specs.Trees.{Spells};
ghost use Rattle.rr_lex.specs.Patch.{run_end, token_text};
ghost use Rattle.rr_lex.specs.Tokens.{lexeme, lexemes, words_of, AreTokens};
ghost use Rattle.rr_respell.specs.Printing.{edits_of, printed};
ghost use Rattle.rr_patch.specs.Changes.{after_over, after_run, made_edits, over_at, plain_added, plain_change, plain_changes, run_at, token_edits, AreFit, IsFitAdded, is_before_at as is_before_at_of, is_over_at as is_over_at_of};
ghost use Rattle.rr_patch.specs.Edits.{byte_edits, replaced_edit, run_edit};

use crate::change::{Added, Change, push_new};
use crate::source::declarations;
use rr_choice::{Choice, SiteList};
use rr_edit::Edit;
use rr_syntax::{Source, Token};
use std::alloc::{AllocError, Global};

/// Whether a change replaces the token with a number.
fn is_over_at(change: &Change, place: u64) -> bool
    ensures { result ≡ is_over_at_of place (plain_change change.now) }
{
    change.over && change.place == place
}

/// Whether a change stands before the token with a number.
fn is_before_at(change: &Change, place: u64) -> bool
    ensures { result ≡ is_before_at_of place (plain_change change.now) }
{
    !change.over && change.place == place
}

/// The text of a new token between two blanks.
fn spaced(alloc: Global, new: &Added) -> Result<Vec<u8>, AllocError>
    requires fit { IsFitAdded new.now }
    ensures { IfOk result (λ text. text.items ≡ token_text (Some (plain_added new.now)) []) }
{
    let mut text = Vec::new(alloc);
    push_new(alloc, &mut text, new)?;
    text.push(32)?;
    Ok(text)
}

/// Adds the edit that replaces a token, where the first change does, and hands out the changes that are
/// left.
#[tactic(auto, using(crate::proofs::Changed::over_steps))]
fn replace<'c, 'a>(
    alloc: Global,
    out: &mut Vec<Edit>,
    token: &Token,
    changes: &'c [Change<'a>],
    place: u64,
) -> Result<&'c [Change<'a>], AllocError>
    requires fit { AreFit changes.now }
    ensures edits { IfOk result (λ left. plain_edits out.new.items ≡ plain_edits out.old.items ++ replaced_edit (over_at place (plain_changes changes.now)) (lexeme token.now)) }
    ensures left { IfOk result (λ left. plain_changes left.now ≡ after_over place (plain_changes changes.now)) }
    ensures fit { IfOk result (λ left. AreFit left.now) }
{
    match changes.split_first() {
        None => Ok(changes),
        Some((first, rest)) => {
            if is_over_at(first, place) {
                let text = spaced(alloc, &first.new)?;
                out.push(Edit {
                    from: token.span.start,
                    to: token.span.end,
                    text,
                })?;
                Ok(rest)
            } else {
                Ok(changes)
            }
        }
    }
}

/// Writes a run of new tokens to its end, and hands out the changes that are left.
fn push_run<'c, 'a>(
    alloc: Global,
    out: &mut Vec<u8>,
    changes: &'c [Change<'a>],
    place: u64,
) -> Result<&'c [Change<'a>], AllocError>
    requires fit { AreFit changes.now }
    ensures text { IfOk result (λ left. out.new.items ≡ out.old.items ++ run_end (run_at place (plain_changes changes.now))) }
    ensures left { IfOk result (λ left. plain_changes left.now ≡ after_run place (plain_changes changes.now)) }
    ensures fit { IfOk result (λ left. AreFit left.now) }
{
    let mut i = 0;
    while i < changes.len() {
        let change = changes[i];
        if !is_before_at(&change, place) {
            out.push(32)?;
            return Ok(&changes[i..]);
        }
        push_new(alloc, out, &change.new)?;
        i += 1;
    }
    out.push(32)?;
    Ok(&changes[i..])
}

/// Adds the edit of the run of new tokens behind a token, where there is one, and hands out the changes
/// that are left.
#[tactic(auto, using(crate::proofs::Changed::run_steps))]
fn put_behind<'c, 'a>(
    alloc: Global,
    out: &mut Vec<Edit>,
    token: &Token,
    changes: &'c [Change<'a>],
    place: u64,
) -> Result<&'c [Change<'a>], AllocError>
    requires fit { AreFit changes.now }
    ensures edits { IfOk result (λ left. plain_edits out.new.items ≡ plain_edits out.old.items ++ run_edit (run_at place (plain_changes changes.now)) (lexeme token.now)) }
    ensures left { IfOk result (λ left. plain_changes left.now ≡ after_run place (plain_changes changes.now)) }
    ensures fit { IfOk result (λ left. AreFit left.now) }
{
    match changes.split_first() {
        None => Ok(changes),
        Some((first, _rest)) => {
            if is_before_at(first, place) {
                let mut text = Vec::new(alloc);
                let left = push_run(alloc, &mut text, changes, place)?;
                let at = token.span.end;
                out.push(Edit {
                    from: at,
                    to: at,
                    text,
                })?;
                Ok(left)
            } else {
                Ok(changes)
            }
        }
    }
}

/// Adds the edits of a token, and hands out the changes that are left.
#[tactic(auto, using(crate::proofs::Changed::token_steps))]
fn edit_token<'c, 'a>(
    alloc: Global,
    out: &mut Vec<Edit>,
    token: &Token,
    changes: &'c [Change<'a>],
    place: u64,
) -> Result<&'c [Change<'a>], AllocError>
    requires fit { AreFit changes.now }
    requires few { place < 2 ^ 63 }
    ensures edits { IfOk result (λ left. plain_edits out.new.items ≡ plain_edits out.old.items ++ token_edits (lexeme token.now) place (plain_changes changes.now)) }
    ensures left { IfOk result (λ left. plain_changes left.now ≡ after_run (place + 1) (after_over place (plain_changes changes.now))) }
    ensures fit { IfOk result (λ left. AreFit left.now) }
{
    let next = replace(alloc, out, token, changes, place)?;
    let left = put_behind(alloc, out, token, next, place + 1)?;
    Ok(left)
}

/// The edits that changes make at tokens, in the order of the tokens: for a change over a token one that
/// replaces its bytes by a blank, the new text and a blank; and for each run of changes before a token one
/// behind the token that it follows. The changes stand in the order of their places, and before the first
/// token is none. The error is want of memory.
pub fn edits_at<'a>(
    alloc: Global,
    tokens: &[Token],
    changes: &[Change<'a>],
) -> Result<Vec<Edit>, AllocError>
    requires fit { AreFit changes.now }
    ensures { IfOk result (λ out. plain_edits out.items ≡ made_edits 0 (lexemes tokens.now) (plain_changes changes.now)) }
{
    let mut out = Vec::new(alloc);
    let mut from = 0;
    for (i, token) in tokens.iter().enumerate() {
        let left = edit_token(alloc, &mut out, token, &changes[from..], i as u64)?;
        from = changes.len() - left.len();
    }
    Ok(out)
}

/// The edits that print a choice into the bytes of a source, in their order and without overlap: for each
/// literal that is switched on one that replaces its bytes by a blank, its text and a blank; and for each
/// run of new tokens one behind the token before it, whose text is that run as it is printed. The tokens
/// and the tree are those of the bytes. Each replaces a whole token or stands behind one.
pub fn edits(
    alloc: Global,
    bytes: &[u8],
    tokens: &[Token],
    source: &Source,
    list: &SiteList,
    choice: &Choice,
) -> Result<Vec<Edit>, AllocError>
    requires few { length bytes.now < 2 ^ 32 }
    requires tokens { AreTokens bytes.now (lexemes tokens.now) }
    requires tree { Spells (words_of (lexemes tokens.now)) (plain_source source.now) }
    requires numbered { NumberedSource (plain_source source.now) }
    ensures exact { IfOk result (λ es. plain_edits es.items ≡ byte_edits (lexemes tokens.now) (edits_of list.now choice.now.picks.items (plain_source source.now))) }
    ensures printed { IfOk result (λ es. edited 0 bytes.now (plain_edits es.items) ≡ printed bytes.now (lexemes tokens.now) list.now choice.now.picks.items (plain_source source.now)) }
    ensures order { IfOk result (λ es. InOrder 0 (length bytes.now) (plain_edits es.items)) }
    ensures placed { IfOk result (λ es. All (IsPlaced bytes.now) (plain_edits es.items)) }
{
    // The list keeps that the width of each new literal is 1 to 128.
    list.sites();
    let mut changes = Vec::new(alloc);
    declarations(source.modules, list, choice, &mut changes)?;
    let out = edits_at(alloc, tokens, &changes)?;
    Ok(out)
}
