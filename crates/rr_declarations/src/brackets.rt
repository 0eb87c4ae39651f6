//! The port brackets of a module (IEEE 1364-2005 section 12.3.2).
ghost use Rattle.std.specs.Prelude.{◌≡◌, MatchResult, map};
ghost use Rattle.rr_syntax.specs.View.{plain_identifier, plain_header, plain_module};
ghost use Rattle.rr_flat.specs.Faults.{Refuses, each};
ghost use Rattle.rr_declarations.specs.Declarations.{plain_names as names_of, add_plain_name as add_plain_name_to, brackets as brackets_of};

use crate::known::{know, know_groups, know_port_items};
use rr_expr::Scope;
use rr_flat::{FlatFault, note_if};
use rr_syntax::{Module, Named};
use std::alloc::Global;

/// A plain name stands once, and an item declares it as an input or output.
#[tactic(auto, unfolding(crate::specs::Declarations::add_plain_name, rr_syntax::specs::View::plain_identifier))]
fn add_plain_name<'a>(
    names: &mut Scope<'a>,
    directed: &Scope,
    named: &Named<'a>,
) -> Result<(), FlatFault>
    ensures { MatchResult result
        (λ _. add_plain_name_to directed.now (plain_identifier named.now) names.old ≡ Ok names.new)
        (Refuses (add_plain_name_to directed.now (plain_identifier named.now) names.old)) }
{
    let found = note_if(
        None,
        names.find(named.name).is_some(),
        FlatFault::NameTwice(named.token),
    );
    let found = note_if(
        found,
        directed.find(named.name).is_none(),
        FlatFault::UnknownName(named.token),
    );
    if let Some(fault) = found {
        return Err(fault);
    }
    know(names, named.name)?;
    Ok(())
}

fn add_plain_names<'a>(
    names: &mut Scope<'a>,
    directed: &Scope,
    header: &[Named<'a>],
) -> Result<(), FlatFault>
    ensures { MatchResult result
        (λ _. each (add_plain_name_to directed.now) (map plain_identifier header.now) names.old ≡ Ok names.new)
        (Refuses (each (add_plain_name_to directed.now) (map plain_identifier header.now) names.old)) }
{
    for named in header.iter() {
        add_plain_name(names, directed, named)?;
    }
    Ok(())
}

/// The plain names in the brackets.
#[tactic(auto, unfolding(rr_syntax::specs::View::plain_header))]
pub(crate) fn plain_names<'m, 'a>(own: &'m Module<'a>) -> &'m [Named<'a>]
    ensures { map plain_identifier result.now ≡ names_of (plain_header own.now.header) }
{
    match own.header {
        None => &[],
        Some(names) => names,
    }
}

/// The names in the brackets.
#[tactic(auto, unfolding(crate::specs::Declarations::brackets, rr_syntax::specs::View::plain_module))]
pub(crate) fn brackets<'a>(alloc: Global, own: &Module<'a>) -> Result<Scope<'a>, FlatFault>
    ensures { MatchResult result
        (λ names. brackets_of (plain_module own.now) ≡ Ok names)
        (Refuses (brackets_of (plain_module own.now))) }
{
    let mut directed = Scope::new(alloc);
    know_port_items(&mut directed, own.items)?;
    let mut names = Scope::new(alloc);
    add_plain_names(&mut names, &directed, plain_names(own))?;
    know_groups(&mut names, own.groups)?;
    Ok(names)
}
