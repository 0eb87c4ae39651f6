//! How many tokens spell the labels of an arm and of a block.
ghost use Rattle.std.specs.Prelude.{◌≡◌, ◌<◌, ◌^◌, length};
ghost use Rattle.rr_syntax.specs.Expressions.{spell_more};
ghost use Rattle.rr_syntax.specs.Statements.{spell_label, spell_labels};
ghost use Rattle.rr_syntax.specs.View.{plain_label, plain_list};

use rr_syntax::{Expr, Named, expression_len};

/// The number of tokens of the label of a block.
#[tactic(auto, unfolding(rr_syntax::specs::Statements::spell_label, rr_syntax::specs::View::plain_label))]
pub(crate) fn label_len(label: &Option<Named>) -> u64
    ensures { result ≡ length (spell_label (plain_label label.now)) }
{
    match label {
        None => 0,
        Some(_) => 2,
    }
}

/// The number of tokens of expressions, each with a comma.
fn commas_len(parts: &[Expr]) -> u64
    requires fits { length (spell_more (plain_list parts.now)) < 2 ^ 63 }
    ensures { result ≡ length (spell_more (plain_list parts.now)) }
{
    let mut total: u64 = 0;
    for part in parts.iter() {
        total += 1 + expression_len(part);
    }
    total
}

/// The number of tokens of the labels of an arm with their colon, or of `default` with or without one.
#[tactic(auto, using(rr_syntax::proofs::ItemLengths::labels_none, rr_syntax::proofs::ItemLengths::labels_some, rr_patch::proofs::StatementWalks::label_steps))]
pub(crate) fn labels_len(labels: &[Expr], colon: bool) -> u64
    requires fits { length (spell_labels (plain_list labels.now) colon) < 2 ^ 63 }
    ensures { result ≡ length (spell_labels (plain_list labels.now) colon) }
{
    if labels.is_empty() {
        if colon { 2 } else { 1 }
    } else {
        commas_len(labels)
    }
}
