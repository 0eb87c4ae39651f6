//! The new tokens round the body of an `always`.

ghost use Rattle.std.specs.Prelude.{◌≡◌, ◌<◌, ◌+◌, ◌^◌, ◌++◌, [], cond, length, if◌then◌else◌, IfOk};
ghost use Rattle.rr_syntax.specs.Statements.{spell_statement};
ghost use Rattle.rr_syntax.specs.View.{plain_statement};
ghost use Rattle.rr_syntax.specs.Words.{mark_equals, mark_less_or_equal};
ghost use Rattle.rr_instance.specs.Firsts.{first_token as first_token_of};
ghost use Rattle.rr_choice.specs.View.{plain_kind};
ghost use Rattle.rr_respell.specs.Pieces.{puts};
ghost use Rattle.rr_respell.specs.Printing.{body_pieces, gate_words};
ghost use Rattle.rr_lex.specs.Patch.{new_mark};
ghost use Rattle.rr_patch.specs.Changes.{changes, plain_changes, plain_fixed};
ghost use Rattle.rr_patch.specs.Walks.{round_of, rounds as rounds_of};

use crate::change::{Added, Change, Fixed};
use crate::forms::put_all;
use crate::statement::statement;
use rr_choice::{Choice, Pick, SiteList, cut, picked_form, picked_name};
use rr_instance::first_token;
use rr_syntax::{Site, SiteKind, Stmt};
use std::alloc::AllocError;

/// Where new tokens stand: before a body or after it.
#[derive(Clone, Copy)]
pub(crate) enum Side {
    Before,
    After,
}

/// The mark of an assignment, by `=` where `now`.
fn assigns(now: bool) -> Fixed
    ensures { plain_fixed result ≡ new_mark (cond now mark_equals mark_less_or_equal) }
{
    if now {
        Fixed::Equals
    } else {
        Fixed::LessOrEqual
    }
}

/// The condition of a last assignment; a form past the last counts as the last.
fn gate<'a>(
    out: &mut Vec<Change<'a>>,
    place: u64,
    form: u8,
    name: &'a str,
) -> Result<(), AllocError>
    ensures { IfOk result (λ _. plain_changes out.new.items ≡ plain_changes out.old.items ++ changes place (puts (gate_words form name.now))) }
{
    if form == 0 {
        let yes = Added::Literal {
            width: 1,
            signed: false,
            value: 1,
        };
        put_all(out, place, &[yes])?;
        return Ok(());
    }
    if form == 1 {
        put_all(out, place, &[Added::Name(name)])?;
        return Ok(());
    }
    put_all(out, place, &[Added::Fixed(Fixed::Not), Added::Name(name)])?;
    Ok(())
}

/// The new tokens of a site before a body or after it, where it assigns a variable: `begin`, and
/// `if (g) v <= C; end`, with `=` where the variable is written by `=`.
#[tactic(auto, using(crate::proofs::Bodies::last_off))]
fn round<'a>(
    out: &mut Vec<Change<'a>>,
    place: u64,
    site: &Site<'a>,
    pick: &Pick,
    side: Side,
) -> Result<(), AllocError>
    ensures { IfOk result (λ _. plain_changes out.new.items ≡ plain_changes out.old.items ++ changes place (puts (round_of side (plain_kind site.now.kind) pick.now))) }
{
    match site.kind {
        SiteKind::Literal { .. } | SiteKind::Guard { .. } => Ok(()),
        SiteKind::Overwrite {
            target,
            width,
            now,
            names,
            ..
        } => match side {
            Side::Before => {
                put_all(out, place, &[Added::Fixed(Fixed::Begin)])?;
                Ok(())
            }
            Side::After => {
                let form = picked_form(names, pick);
                let value = Added::Literal {
                    width,
                    signed: false,
                    value: cut(pick.value, width),
                };
                put_all(
                    out,
                    place,
                    &[Added::Fixed(Fixed::If), Added::Fixed(Fixed::Open)],
                )?;
                gate(out, place, form, picked_name(names, pick))?;
                put_all(
                    out,
                    place,
                    &[
                        Added::Fixed(Fixed::Close),
                        Added::Name(target),
                        Added::Fixed(assigns(now)),
                        value,
                        Added::Fixed(Fixed::Semicolon),
                        Added::Fixed(Fixed::End),
                    ],
                )?;
                Ok(())
            }
        },
    }
}

/// The new tokens of a site, where it is switched on.
fn round_if_on<'a>(
    out: &mut Vec<Change<'a>>,
    place: u64,
    site: &Site<'a>,
    pick: &Pick,
    side: Side,
) -> Result<(), AllocError>
    ensures { IfOk result (λ _. plain_changes out.new.items ≡ plain_changes out.old.items ++ changes place (puts (if pick.now.on then round_of side (plain_kind site.now.kind) pick.now else []))) }
{
    if pick.on {
        round(out, place, site, pick, side)?;
        return Ok(());
    }
    Ok(())
}

/// The new tokens of all sites at a body with that first token, in the order of the sites.
fn rounds<'a>(
    token: u32,
    place: u64,
    side: Side,
    list: &SiteList<'a>,
    choice: &Choice,
    out: &mut Vec<Change<'a>>,
) -> Result<(), AllocError>
    ensures { IfOk result (λ _. plain_changes out.new.items ≡ plain_changes out.old.items ++ changes place (puts (rounds_of side token list.now choice.now.picks.items))) }
{
    let sites = list.sites();
    let picks = choice.picks.as_slice();
    let end = sites.len().min(picks.len());
    let mut i = list.first_at(token);
    while i < end {
        let site = sites[i];
        if site.token != token {
            return Ok(());
        }
        round_if_on(out, place, &site, &picks[i], side)?;
        i += 1;
    }
    Ok(())
}

/// The changes of the body of an `always` whose first token has the number `at`, with its last
/// assignments, of which the first is innermost; answers the number of the token after it.
pub(crate) fn body<'a>(
    stmt: &Stmt,
    at: u64,
    list: &SiteList<'a>,
    choice: &Choice,
    out: &mut Vec<Change<'a>>,
) -> Result<u64, AllocError>
    requires fits { at + length (spell_statement (plain_statement stmt.now)) < 2 ^ 63 }
    ensures next { IfOk result (λ next. next ≡ at + length (spell_statement (plain_statement stmt.now))) }
    ensures made { IfOk result (λ _. plain_changes out.new.items ≡ plain_changes out.old.items ++ changes at (body_pieces list.now choice.now.picks.items (first_token_of (plain_statement stmt.now)) (plain_statement stmt.now))) }
{
    let token = first_token(stmt);
    rounds(token, at, Side::Before, list, choice, out)?;
    let next = statement(stmt, at, list, choice, out)?;
    rounds(token, next, Side::After, list, choice, out)?;
    Ok(next)
}
