//! A file with a choice of its sites printed into it.
ghost use Rattle.std.specs.Prelude.{◌≡◌, IfOk};
ghost use Rattle.rr_syntax.specs.View.{plain_source};
ghost use Rattle.rr_instance.specs.Instances.{instance_source};
ghost use Rattle.rr_kept.specs.Read.{IsRead};
ghost use Rattle.rr_map.specs.Printed.{printed_file, printed_text, ExpandsTo};
ghost use Rattle.rr_map.specs.Read.{source_file};

use crate::lifting::lift;
use rr_choice::{Choice, SiteList};
use rr_directive::Expanded;
use rr_patch::edits;
use rr_syntax::{Source, Token};
use std::alloc::{AllocError, Global};

/// A file that was read: its bytes, the text that it expands to with the origin of each byte, the tokens
/// and the tree of that, and sites that can be changed in the file.
#[derive(Clone, Copy)]
pub struct ReadFile<'p, 's, 'l> {
    pub file: &'p [u8],
    pub expanded: &'p Expanded,
    pub tokens: &'p [Token<'s>],
    pub source: &'p Source<'s>,
    pub list: &'p SiteList<'l>,
}

/// The file with a choice of its sites printed into it. It expands to the expansion with the choice
/// printed into that, whose tree is the instance.
pub fn print_file(
    alloc: Global,
    read: &ReadFile<'_, '_, '_>,
    choice: &Choice,
) -> Result<Vec<u8>, AllocError>
    requires { IsRead read.now.file.now (source_file read.now) read.now.list.now }
    ensures printed { IfOk result (λ out. out.items ≡ printed_file read.now.file.now (source_file read.now) read.now.list.now choice.now.picks.items) }
    ensures tree { IfOk result (λ out. ExpandsTo out.items (printed_text (source_file read.now) read.now.list.now choice.now.picks.items) (instance_source read.now.list.now choice.now.picks.items (plain_source read.now.source.now))) }
{
    // The list keeps that the width of each new literal is 1 to 128.
    read.list.sites();
    let text = read.expanded.text.as_slice();
    let made = edits(alloc, text, read.tokens, read.source, read.list, choice)?;
    match lift(alloc, read.file, read.expanded, made.as_slice())? {
        Some(out) => Ok(out),
        // Edits of kept sites lift.
        None => unreachable!(),
    }
}
