//! The body of an `always` in an instance, with the last assignments that a choice adds.

ghost use Rattle.std.specs.Prelude.{◌≡◌, ◌<◌, ◌^◌, length, IfOk};
ghost use Rattle.rr_syntax.specs.Statements.{spell_statement};
ghost use Rattle.rr_syntax.specs.View.{plain, plain_statement};
ghost use Rattle.rr_choice.specs.Places.{is_overwrite_at as is_overwrite_at_of};
ghost use Rattle.rr_instance.specs.Firsts.{first_token as first_token_of};
ghost use Rattle.rr_instance.specs.Instances.{all_overwritten as all_overwritten_of, followed as followed_of, gate as gate_of, instance_body, new_body as new_body_of, overwritten as overwritten_of, unsigned_number as unsigned_number_of};
ghost use Rattle.rr_choice.specs.View.{plain_kind, plain_site};

use crate::firsts::first_token;
use crate::forms::{FRESH, named, negated};
use crate::statement::{assign, block, if_then, statement};
use bumpalo::Bump;
use rr_choice::{Choice, Pick, SiteList, cut, picked_form, picked_name};
use rr_syntax::{Expr, Number, Site, SiteKind, Stmt};
use std::alloc::AllocError;

/// An unsigned number, in which each digit is known.
fn unsigned_number(width: u32, value: u128) -> Number
    ensures { result ≡ unsigned_number_of width value }
{
    Number {
        width,
        signed: false,
        value: cut(value, width),
        any: 0,
        unknown: 0,
    }
}

/// The condition of a last assignment; a form past the last counts as the last.
#[tactic(auto, unfolding(rr_syntax::specs::View::plain))]
fn gate<'a>(form: u8, name: &'a str, arena: &'a Bump) -> Result<Expr<'a>, AllocError>
    ensures { IfOk result (λ r. plain r ≡ gate_of form name.now) }
{
    if form == 0 {
        return Ok(Expr::Literal {
            token: FRESH,
            number: unsigned_number(1, 1),
        });
    }
    if form == 1 {
        return Ok(named(name));
    }
    let whole = negated(named(name), arena)?;
    Ok(whole)
}

/// A statement, and then a last assignment of a number to a variable.
#[tactic(auto, unfolding(rr_syntax::specs::View::plain, rr_syntax::specs::View::plain_statements, rr_syntax::specs::View::plain_label))]
fn followed<'a>(
    test: Expr<'a>,
    target: &'a str,
    now: bool,
    number: Number,
    body: Stmt<'a>,
    arena: &'a Bump,
) -> Result<Stmt<'a>, AllocError>
    ensures { IfOk result (λ r. plain_statement r ≡ followed_of (plain test.entry) target.now now number (plain_statement body.entry)) }
{
    let name = arena.try_alloc(named(target))?;
    let value = Expr::Literal {
        token: FRESH,
        number,
    };
    let last = assign(name, now, value, arena)?;
    let second = if_then(test, last, arena)?;
    let list = arena.try_alloc_slice_copy(&[body, second])?;
    Ok(block(None, list))
}

/// A statement with the last assignment of a site, by its pick; one of another kind leaves it as it is.
/// The error is want of memory.
pub fn overwritten<'a>(
    site: &Site<'a>,
    pick: &Pick,
    body: Stmt<'a>,
    arena: &'a Bump,
) -> Result<Stmt<'a>, AllocError>
    ensures { IfOk result (λ r. plain_statement r ≡ overwritten_of (plain_kind site.now.kind) pick.now (plain_statement body.entry)) }
{
    match site.kind {
        SiteKind::Literal { .. } | SiteKind::Guard { .. } => Ok(body),
        SiteKind::Overwrite {
            target,
            width,
            now,
            names,
            ..
        } => {
            let form = picked_form(names, pick);
            let test = gate(form, picked_name(names, pick), arena)?;
            let number = unsigned_number(width, pick.value);
            let whole = followed(test, target, now, number, body, arena)?;
            Ok(whole)
        }
    }
}

/// Whether a site is a variable that a statement with its first token there assigns.
fn is_overwrite_at(site: &Site, token: u32) -> bool
    ensures { result ≡ is_overwrite_at_of token (plain_site site.now) }
{
    match site.kind {
        SiteKind::Literal { .. } | SiteKind::Guard { .. } => false,
        SiteKind::Overwrite { .. } => site.token == token,
    }
}

/// The body of an `always` with that first token, with the last assignment of a site where it is one
/// of this body and switched on.
fn new_body<'a>(
    token: u32,
    site: &Site<'a>,
    pick: &Pick,
    body: Stmt<'a>,
    arena: &'a Bump,
) -> Result<Stmt<'a>, AllocError>
    ensures { IfOk result (λ r. plain_statement r ≡ new_body_of token (plain_site site.now) pick.now (plain_statement body.entry)) }
{
    if is_overwrite_at(site, token) && pick.on {
        let whole = overwritten(site, pick, body, arena)?;
        return Ok(whole);
    }
    Ok(body)
}

/// The body of an `always` with that first token, with all last assignments, the first innermost.
fn all_overwritten<'a>(
    token: u32,
    sites: &SiteList<'a>,
    choice: &Choice,
    body: Stmt<'a>,
    arena: &'a Bump,
) -> Result<Stmt<'a>, AllocError>
    ensures { IfOk result (λ r. plain_statement r ≡ all_overwritten_of token sites.now choice.now.picks.items (plain_statement body.entry)) }
{
    let list = sites.sites();
    let picks = choice.picks.as_slice();
    let end = list.len().min(picks.len());
    let mut whole = body;
    let mut i = sites.first_at(token);
    while i < end {
        let site = list[i];
        if site.token != token {
            return Ok(whole);
        }
        whole = new_body(token, &site, &picks[i], whole, arena)?;
        i += 1;
    }
    Ok(whole)
}

/// The body of an `always` in an instance, of fewer than 2^64 tokens: its statement with the changes
/// inside, and then its last assignments.
pub fn body_instance<'a>(
    body: &Stmt<'a>,
    sites: &SiteList<'a>,
    choice: &Choice,
    arena: &'a Bump,
) -> Result<Stmt<'a>, AllocError>
    requires fits { length (spell_statement (plain_statement body.now)) < 2 ^ 64 }
    ensures { IfOk result (λ r. plain_statement r ≡ instance_body sites.now choice.now.picks.items (first_token_of (plain_statement body.now)) (plain_statement body.now)) }
{
    let inner = statement(body, sites, choice, arena)?;
    let whole = all_overwritten(first_token(body), sites, choice, inner, arena)?;
    Ok(whole)
}
