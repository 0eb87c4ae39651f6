//! Sites and picks written by hand, the text that they print, and their edits.

ghost use Rattle.std.specs.Prelude.{◌≡◌};

use bumpalo::Bump;
use rr_choice::{Choice, Pick, SiteList, are_listed};
use rr_edit::Edit;
use rr_lex::{lex, words_of_tokens};
use rr_parse::parse;
use rr_patch::{edits, print};
use rr_syntax::{Site, SiteKind};
use std::alloc::Global;
use std::test::Fail;

/// A literal of a width, with its sign.
pub(crate) fn literal<'a>(token: u32, width: u32, signed: bool) -> Site<'a> {
    Site {
        kind: SiteKind::Literal { width, signed },
        token,
    }
}

/// A condition of so many tokens.
pub(crate) fn guard<'a>(token: u32, extent: u32, names: &'a [&'a str]) -> Site<'a> {
    Site {
        kind: SiteKind::Guard {
            module: 0,
            extent,
            names,
        },
        token,
    }
}

/// A variable, which is written by `=` where `now`.
pub(crate) fn overwrite<'a>(
    token: u32,
    target: &'a str,
    width: u32,
    now: bool,
    names: &'a [&'a str],
) -> Site<'a> {
    Site {
        kind: SiteKind::Overwrite {
            module: 0,
            target,
            width,
            now,
            names,
        },
        token,
    }
}

/// A site that is switched on.
pub(crate) fn on(value: u128, form: u8, name: u8) -> Pick {
    Pick {
        on: true,
        value,
        form,
        name,
    }
}

/// A site that is switched off, whatever else is chosen at it.
pub(crate) fn off() -> Pick {
    Pick {
        on: false,
        value: 3,
        form: 1,
        name: 0,
    }
}

/// What a choice at the sites of a design comes to.
#[derive(Drop)]
struct Outcome {
    text: Vec<u8>,
    edits: Vec<Edit>,
}

/// Reads a design, and makes a choice at its sites.
fn choose(alloc: Global, design: &str, sites: &[Site], picks: &[Pick]) -> Result<Outcome, Fail> {
    if design.len() > 1_000_000 {
        return Err(Fail::from("a text too long"));
    }
    let mut list = Vec::new(alloc);
    list.extend_from_slice(sites)?;
    if !are_listed(list.as_slice()) {
        return Err(Fail::from("no list"));
    }
    let list = SiteList::new(list);
    let mut chosen = Vec::new(alloc);
    chosen.extend_from_slice(picks)?;
    let choice = Choice { picks: chosen };
    let arena = Bump::new(alloc);
    words_of_tokens();
    match lex(design.as_bytes(), &arena) {
        Err(_) => Err(Fail::from("no tokens")),
        Ok(tokens) => match parse(tokens, &arena) {
            Err(_) => Err(Fail::from("no tree")),
            Ok(source) => {
                let text = print(alloc, design.as_bytes(), tokens, source, &list, &choice)?;
                let edits = edits(alloc, design.as_bytes(), tokens, source, &list, &choice)?;
                Ok(Outcome { text, edits })
            }
        },
    }
}

/// Whether a choice at the sites of a design prints a text.
pub(crate) fn prints(
    alloc: Global,
    design: &str,
    sites: &[Site],
    picks: &[Pick],
    wanted: &str,
) -> Result<bool, Fail> {
    let outcome = choose(alloc, design, sites, picks)?;
    Ok(outcome.text.as_slice() == wanted.as_bytes())
}

/// Whether a choice at the sites of a design makes these edits: of each the place where it begins, the one
/// where it ends, and its text.
pub(crate) fn makes(
    alloc: Global,
    design: &str,
    sites: &[Site],
    picks: &[Pick],
    wanted: &[(u32, u32, &str)],
) -> Result<bool, Fail> {
    let outcome = choose(alloc, design, sites, picks)?;
    let mut same = outcome.edits.len() == wanted.len();
    for (edit, (from, to, text)) in outcome.edits.iter().zip(wanted.iter()) {
        same = same
            && edit.from == *from
            && edit.to == *to
            && edit.text.as_slice() == text.as_bytes();
    }
    Ok(same)
}
