//! The names that an `always` clears first.
ghost use Rattle.std.specs.Prelude.{◌≡◌, ◌++◌, ◌∷◌, ◌&&◌, [], not, if◌then◌else◌, IfOk, OnOk};
ghost use Rattle.std.specs.List.{list_any};
ghost use Rattle.std.specs.Str.{bytes_eq};
ghost use Rattle.rr_syntax.specs.View.{plain_statement, texts};
ghost use Rattle.rr_lint_laws.specs.Mended.{cleared_by};
ghost use Rattle.rr_lint_names.specs.Latched.{marks};

use crate::ever::add_ever_assigned;
use crate::noted::Noted;
use rr_guard::TextSet;
use rr_syntax::Stmt;
use rr_text_names::identifier_of;
use std::alloc::{AllocError, Global};

/// Adds a name to others, where it is noted and has not been seen.
fn add_name<'a>(
    names: &mut Vec<&'a str>,
    seen: &mut TextSet<'a>,
    noted: &Noted,
    token: u32,
    name: &'a str,
) -> Result<(), AllocError>
    ensures seen { OnOk result (seen.new ≡ (if list_any (bytes_eq name.now) seen.old then seen.old else seen.old ++ name.now ∷ [])) }
    ensures names { OnOk result (texts names.new.items ≡ texts names.old.items ++ (if not (list_any (bytes_eq name.now) seen.old) && marks noted.now token name.now then name.now ∷ [] else [])) }
{
    let new = seen.add(name)?;
    if new && noted.has(token, name) {
        names.push(name)?;
    }
    Ok(())
}

/// The names that the `always` with a token and a body clears: those of its targets, in loops or not, that
/// are noted, each once, in the order of its first targets.
pub fn cleared_names<'a>(
    alloc: Global,
    noted: &Noted,
    token: u32,
    body: &'a Stmt<'a>,
) -> Result<Vec<&'a str>, AllocError>
    ensures { IfOk result (λ names. texts names.items ≡ cleared_by (marks noted.now) token (plain_statement body.now)) }
{
    let mut targets = Vec::new(alloc);
    add_ever_assigned(&mut targets, body)?;
    let mut seen = TextSet::new(alloc);
    let mut names = Vec::new(alloc);
    for target in targets.iter() {
        let named = identifier_of(target.part);
        add_name(&mut names, &mut seen, noted, token, named.name)?;
    }
    Ok(names)
}
