//! The new tokens of literals and guards.

ghost use Rattle.std.specs.Prelude.{◌≡◌, ◌++◌, ◌∷◌, [], map, false, IfOk};
ghost use Rattle.rr_choice.specs.View.{plain_found};
ghost use Rattle.rr_respell.specs.Pieces.{puts};
ghost use Rattle.rr_respell.specs.Printing.{literal_pieces};
ghost use Rattle.rr_patch.specs.Changes.{changes, plain_added, plain_changes};
ghost use Rattle.rr_patch.specs.Walks.{closed, closed_form, opened, opened_form};

use crate::change::{Added, Change, Fixed};
use rr_choice::{Found, cut, guard_names, picked_form, picked_name};
use rr_syntax::Number;
use std::alloc::AllocError;

/// One change more.
fn add<'a>(out: &mut Vec<Change<'a>>, change: Change<'a>) -> Result<(), AllocError>
    ensures { IfOk result (λ _. out.new.items ≡ out.old.items ++ (change.entry ∷ [])) }
{
    out.push(change)?;
    Ok(())
}

/// A new token before the token with a number.
#[tactic(auto, using(crate::proofs::Walks::put_more))]
fn put<'a>(out: &mut Vec<Change<'a>>, place: u64, new: Added<'a>) -> Result<(), AllocError>
    ensures { IfOk result (λ _. plain_changes out.new.items ≡ plain_changes out.old.items ++ changes place (puts (plain_added new.entry ∷ []))) }
{
    let change = Change {
        place,
        over: false,
        new,
    };
    add(out, change)?;
    Ok(())
}

/// Adds changes that put new tokens before the token with a number, in their order. The error is want of
/// memory.
pub fn put_all<'a>(
    out: &mut Vec<Change<'a>>,
    place: u64,
    list: &[Added<'a>],
) -> Result<(), AllocError>
    ensures { IfOk result (λ _. plain_changes out.new.items ≡ plain_changes out.old.items ++ changes place (puts (map plain_added list.now))) }
{
    for new in list.iter() {
        put(out, place, *new)?;
    }
    Ok(())
}

/// A literal with the value of its pick.
#[tactic(auto, using(crate::proofs::Walks::literal_steps))]
pub(crate) fn literal<'a>(
    out: &mut Vec<Change<'a>>,
    place: u64,
    found: Option<Found<'a>>,
    number: Number,
) -> Result<(), AllocError>
    ensures { IfOk result (λ _. plain_changes out.new.items ≡ plain_changes out.old.items ++ changes place (literal_pieces (plain_found found.entry) number)) }
{
    match found {
        None => Ok(()),
        Some(found) => {
            if found.pick.on {
                let value = cut(found.pick.value, number.width);
                let change = Change {
                    place,
                    over: true,
                    new: Added::Literal {
                        width: number.width,
                        signed: number.signed,
                        value,
                    },
                };
                add(out, change)?;
                Ok(())
            } else {
                Ok(())
            }
        }
    }
}

/// The new tokens before a condition in a form of a guard.
fn open_form<'a>(out: &mut Vec<Change<'a>>, place: u64, form: u8) -> Result<(), AllocError>
    ensures { IfOk result (λ _. plain_changes out.new.items ≡ plain_changes out.old.items ++ changes place (puts (opened_form form))) }
{
    if form == 0 {
        put_all(
            out,
            place,
            &[Added::Fixed(Fixed::Not), Added::Fixed(Fixed::Open)],
        )?;
        return Ok(());
    }
    put_all(out, place, &[Added::Fixed(Fixed::Open)])?;
    Ok(())
}

/// The new tokens after a condition in a form of a guard; a form past the last counts as the last.
fn close_form<'a>(
    out: &mut Vec<Change<'a>>,
    place: u64,
    form: u8,
    name: &'a str,
) -> Result<(), AllocError>
    ensures { IfOk result (λ _. plain_changes out.new.items ≡ plain_changes out.old.items ++ changes place (puts (closed_form form name.now))) }
{
    let close = Added::Fixed(Fixed::Close);
    let both = Added::Fixed(Fixed::Both);
    let either = Added::Fixed(Fixed::Either);
    let not = Added::Fixed(Fixed::Not);
    let name = Added::Name(name);
    if form == 0 {
        put_all(out, place, &[close])?;
        return Ok(());
    }
    if form == 1 {
        put_all(out, place, &[close, both, name])?;
        return Ok(());
    }
    if form == 2 {
        put_all(out, place, &[close, both, not, name])?;
        return Ok(());
    }
    if form == 3 {
        put_all(out, place, &[close, either, name])?;
        return Ok(());
    }
    put_all(out, place, &[close, either, not, name])?;
    Ok(())
}

/// The new tokens before a condition.
#[tactic(auto, using(crate::proofs::Walks::open_steps))]
pub(crate) fn open<'a>(
    out: &mut Vec<Change<'a>>,
    place: u64,
    found: &Option<Found<'a>>,
) -> Result<(), AllocError>
    ensures { IfOk result (λ _. plain_changes out.new.items ≡ plain_changes out.old.items ++ changes place (puts (opened (plain_found found.now)))) }
{
    match found {
        None => Ok(()),
        Some(found) => {
            if found.pick.on {
                let form = picked_form(guard_names(&found.site), &found.pick);
                open_form(out, place, form)?;
                Ok(())
            } else {
                Ok(())
            }
        }
    }
}

/// The new tokens after a condition.
#[tactic(auto, using(crate::proofs::Walks::open_steps))]
pub(crate) fn close<'a>(
    out: &mut Vec<Change<'a>>,
    place: u64,
    found: &Option<Found<'a>>,
) -> Result<(), AllocError>
    ensures { IfOk result (λ _. plain_changes out.new.items ≡ plain_changes out.old.items ++ changes place (puts (closed (plain_found found.now)))) }
{
    match found {
        None => Ok(()),
        Some(found) => {
            if found.pick.on {
                let names = guard_names(&found.site);
                let form = picked_form(names, &found.pick);
                close_form(out, place, form, picked_name(names, &found.pick))?;
                Ok(())
            } else {
                Ok(())
            }
        }
    }
}
