//! The body of an `always` with a last assignment.

ghost use Rattle.std.specs.Prelude.{◌≡◌, IfOk, true};
ghost use Rattle.rr_syntax.specs.View.{plain_statement};
ghost use Rattle.rr_choice.specs.Choices.{IsPickOf};
ghost use Rattle.rr_choice.specs.Places.{is_overwrite};
ghost use Rattle.rr_choice.specs.View.{plain_kind, plain_site};
ghost use Rattle.rr_instance.specs.Instances.{overwritten as overwritten_of};

use bumpalo::Bump;
use rr_choice::Pick;
use rr_instance::overwritten;
use rr_syntax::{Site, Stmt};
use std::alloc::AllocError;

/// The body S of an overwrite site as `begin S if (g) v <= C; end`, with `=` where v is written by `=`: C is
/// the value, below 2 to the width of v; g is `1'b1`, `s` or `!s` by the form, from 0, with the name `s` of
/// the site at this place from 0; a site without names has form 0 alone. It is what the instance has with
/// this value, form and name. The error is want of memory.
pub fn wrapped<'a>(
    body: &'a Stmt<'a>,
    site: &Site<'a>,
    value: u128,
    form: u8,
    name: u8,
    arena: &'a Bump,
) -> Result<&'a Stmt<'a>, AllocError>
    requires overwrite { is_overwrite (plain_kind site.now.kind) ≡ true }
    requires pick { IsPickOf (plain_site site.now) record { on = true; value = value; form = form; name = name } }
    ensures { IfOk result (λ r. plain_statement r.now ≡ overwritten_of (plain_kind site.now.kind) record { on = true; value = value; form = form; name = name } (plain_statement body.now)) }
{
    let pick = Pick {
        on: true,
        value,
        form,
        name,
    };
    let whole = overwritten(site, &pick, *body, arena)?;
    Ok(arena.try_alloc(whole)?)
}
