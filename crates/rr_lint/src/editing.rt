//! The edits that mend a source.
ghost use Rattle.std.specs.Prelude.{◌≡◌, ◌<◌, ◌^◌, length, Ok, Option, Some, MatchResult, IfOk};
ghost use Rattle.std.specs.List.{All};
ghost use Rattle.rr_syntax.specs.Items.{NumberedSource};
ghost use Rattle.rr_syntax.specs.View.{plain_source};
ghost use Rattle.rr_flat.specs.Signals.{Text};
ghost use Rattle.rr_flat.specs.View.{plain_flat};
ghost use Rattle.rr_edit.specs.Edits.{InOrder, IsPlaced};
ghost use Rattle.rr_edit.specs.View.{plain_edits};
ghost use Rattle.rr_grammar.specs.Trees.{Spells};
ghost use Rattle.rr_lex.specs.Tokens.{lexemes, words_of, AreTokens};
ghost use Rattle.rr_flatten.specs.Walk.{flat_by};
ghost use Rattle.rr_lint.specs.Edited.{AreLintEdits};
ghost use Rattle.rr_lint_names.specs.Faults.{IsLintFault};

use crate::changes::declarations;
use rr_edit::Edit;
use rr_flat::Flat;
use rr_lint_names::{LintFault, latched, number_set};
use rr_patch::edits_at;
use rr_syntax::{Source, Token};
use std::alloc::Global;

/// The edits of the bytes of a source that mend it, in their order and without overlap: in each `always`
/// without edges of a module that has an instance one over each `<=` that assigns, by `=`, and where the
/// block would keep a bit of a variable one before its body, with `begin` and `v = 0;` for each such
/// variable in the order of its first targets, and one behind it, with `end` (IEEE 1364-2005 sections
/// 9.2.1, 9.2.2 and 9.9.2). The tokens, the tree and the flat design are those of the bytes. Each edit
/// replaces a whole token or stands behind one. The error is the first block that would keep a bit of a
/// memory (section 4.9.3), or want of memory.
pub fn edits(
    alloc: Global,
    bytes: &[u8],
    tokens: &[Token],
    source: &Source,
    flat: &Flat,
) -> Result<Vec<Edit>, LintFault>
    requires few { length bytes.now < 2 ^ 32 }
    requires tokens { AreTokens bytes.now (lexemes tokens.now) }
    requires tree { Spells (words_of (lexemes tokens.now)) (plain_source source.now) }
    requires numbered { NumberedSource (plain_source source.now) }
    requires design { (top : Option Text) × (flat_by (Some 1048576) (plain_source source.now) top ≡ Ok (plain_flat flat.now)) }
    ensures made { MatchResult result (λ es. AreLintEdits (lexemes tokens.now) (plain_source source.now) (plain_flat flat.now) (plain_edits es.items)) (IsLintFault (plain_flat flat.now)) }
    ensures order { IfOk result (λ es. InOrder 0 (length bytes.now) (plain_edits es.items)) }
    ensures placed { IfOk result (λ es. All (IsPlaced bytes.now) (plain_edits es.items)) }
{
    let noted = latched(alloc, flat)?;
    let reached = number_set(alloc, flat.reached.as_slice())?;
    let mut changes = Vec::new(alloc);
    declarations(alloc, &noted, &reached, source.modules, &mut changes)?;
    let out = edits_at(alloc, tokens, &changes)?;
    Ok(out)
}
