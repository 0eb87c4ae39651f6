//! A literal with another value.

ghost use Rattle.std.specs.Prelude.{◌≡◌, ◌<◌, ◌^◌, ℕ, Some, true};
ghost use Rattle.rr_syntax.specs.declared.token.Number.{Number};
ghost use Rattle.rr_syntax.specs.Tree.{Literal};
ghost use Rattle.rr_syntax.specs.View.{plain};
ghost use Rattle.rr_choice.specs.Places.{is_literal};
ghost use Rattle.rr_choice.specs.Sites.{value_width as value_width_of};
ghost use Rattle.rr_choice.specs.View.{plain_kind, plain_site};
ghost use Rattle.rr_instance.specs.Instances.{fresh, new_literal};
ghost use Rattle.rr_literal.specs.Literals.{is_signed as is_signed_of, new_number};

use rr_choice::value_width;
use rr_syntax::{Expr, Number, Site, SiteKind};

/// Whether a site is a signed literal.
fn is_signed(site: &Site) -> bool
    ensures { result ≡ is_signed_of (plain_kind site.now.kind) }
{
    match site.kind {
        SiteKind::Literal { signed, .. } => signed,
        SiteKind::Guard { .. } | SiteKind::Overwrite { .. } => false,
    }
}

/// The literal that a value makes of a literal site (IEEE 1364-2005 section 3.5.1): width and sign stay, each
/// digit is known, and its leaf has the number of no token. The value is below 2 to the width. At each
/// literal of that width and sign it is what the instance has with this value.
#[tactic(auto, unfolding(rr_syntax::specs::View::plain))]
pub fn replaced<'a>(site: &Site<'a>, value: u128) -> Expr<'a>
    requires literal { is_literal (plain_kind site.now.kind) ≡ true }
    requires fits { value < 2 ^ value_width_of (plain_kind site.now.kind) }
    ensures form { plain result ≡ Literal fresh (new_number (plain_kind site.now.kind) value) }
    ensures instance { (token : ℕ) (n : Number) → n.width ≡ value_width_of (plain_kind site.now.kind) → n.signed ≡ is_signed_of (plain_kind site.now.kind)
        → plain result ≡ new_literal (Some (plain_site site.now, record { on = true; value = value; form = 0; name = 0 })) token n }
{
    Expr::Literal {
        token: u32::MAX,
        number: Number {
            width: value_width(site),
            signed: is_signed(site),
            value,
            any: 0,
            unknown: 0,
        },
    }
}
