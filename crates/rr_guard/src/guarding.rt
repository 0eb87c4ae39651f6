//! A condition with a guard.

ghost use Rattle.std.specs.Prelude.{◌≡◌, ℕ, IfOk, true};
ghost use Rattle.rr_syntax.specs.View.{plain};
ghost use Rattle.rr_choice.specs.Choices.{IsPickOf, picked_form, picked_name};
ghost use Rattle.rr_choice.specs.Sites.{guard_names as names_of_kind};
ghost use Rattle.rr_choice.specs.View.{plain_kind, plain_site};
ghost use Rattle.rr_instance.specs.Instances.{guarded as guarded_of};
ghost use Rattle.rr_guard.specs.Guards.{IsGuard};

use bumpalo::Bump;
use rr_choice::{Found, Pick};
use rr_instance::new_test;
use rr_syntax::{Expr, Site};
use std::alloc::AllocError;

/// The condition of a guard site in one of the forms `!(E)`, `(E) && s`, `(E) && !s`, `(E) || s` and
/// `(E) || !s`, from 0, with the name `s` of the site at this place from 0; a site without names has form 0
/// alone. It is what the instance has at the site with this form and name. The error is want of memory.
pub fn guarded<'a>(
    test: &'a Expr<'a>,
    site: &Site<'a>,
    form: u8,
    name: u8,
    arena: &'a Bump,
) -> Result<&'a Expr<'a>, AllocError>
    requires guard { IsGuard (plain_kind site.now.kind) }
    requires pick { IsPickOf (plain_site site.now) record { on = true; value = 0; form = form; name = name } }
    ensures { IfOk result (λ r. plain r.now ≡ guarded_of (picked_form (names_of_kind (plain_kind site.now.kind)) form) (picked_name (names_of_kind (plain_kind site.now.kind)) name) (plain test.now)) }
{
    let found = Found {
        site: *site,
        pick: Pick {
            on: true,
            value: 0,
            form,
            name,
        },
    };
    let whole = new_test(Some(found), *test, arena)?;
    Ok(arena.try_alloc(whole)?)
}
