//! The bytes of a source in which a choice is made.

ghost use Rattle.std.specs.Prelude.{◌≡◌, ◌<◌, ◌^◌, length, IfOk};
ghost use Rattle.rr_syntax.specs.Items.{NumberedSource};
ghost use Rattle.rr_syntax.specs.View.{plain_source};
ghost use Rattle.rr_lex.specs.Tokens.{lexemes, words_of, AreTokens};
ghost use Rattle.rr_grammar.specs.Trees.{IsTree, Spells};
ghost use Rattle.rr_instance.specs.Instances.{instance_source};
ghost use Rattle.rr_respell.specs.Laws.{AreNamed};
ghost use Rattle.rr_respell.specs.Printing.{edits_of, printed};
ghost use Rattle.rr_respell.specs.Stretches.{StandsWhole};

use crate::editing::edits;
use crate::patch::patch;
use rr_choice::{Choice, SiteList};
use rr_syntax::{Source, Token};
use std::alloc::{AllocError, Global};

/// The bytes of a source with the switched-on changes of a choice: a literal that is on is written as a
/// blank, its new text and a blank, and new tokens stand directly after the token before them, each after
/// a blank, with a blank after the last. The tokens must be those of the bytes, of which there are fewer
/// than 2^32, and the tree must be theirs, with the number of its token in each leaf and name. Where each name of a site can be written as one, the tree of
/// what is printed is the instance; and the bytes of the source but those of replaced literals stand in
/// it in order and whole.
pub fn print(
    alloc: Global,
    bytes: &[u8],
    tokens: &[Token],
    source: &Source,
    list: &SiteList,
    choice: &Choice,
) -> Result<Vec<u8>, AllocError>
    requires few { length bytes.now < 2 ^ 32 }
    requires tokens { AreTokens bytes.now (lexemes tokens.now) }
    requires tree { Spells (words_of (lexemes tokens.now)) (plain_source source.now) }
    requires numbered { NumberedSource (plain_source source.now) }
    ensures exact { IfOk result (λ out. out.items ≡ printed bytes.now (lexemes tokens.now) list.now choice.now.picks.items (plain_source source.now)) }
    ensures tree { AreNamed list.now → IfOk result (λ out. IsTree out.items (instance_source list.now choice.now.picks.items (plain_source source.now))) }
    ensures whole { IfOk result (λ out. StandsWhole bytes.now (lexemes tokens.now) (edits_of list.now choice.now.picks.items (plain_source source.now)) out.items) }
{
    // The list keeps that the width of each new literal is 1 to 128.
    list.sites();
    let made = edits(alloc, bytes, tokens, source, list, choice)?;
    let out = patch(alloc, bytes, &made)?;
    Ok(out)
}
