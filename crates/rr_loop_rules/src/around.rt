//! The names of the loops around a place, the innermost last.

ghost use Rattle.std.specs.Prelude.{◌≡◌, ◌∷◌, ◌||◌, OnOk};
ghost use Rattle.std.specs.Str.{bytes_eq};
ghost use Rattle.rr_loop_rules.specs.Rules.{contains};
ghost use Rattle.rr_loop_rules.specs.View.{outside, plain_around};

use std::alloc::AllocError;

/// Whether a name is a loop's, or else that of one around it.
fn is_or(name: &str, inner: &str, outer: bool) -> bool
    ensures { result ≡ (bytes_eq name.now inner.now || outer) }
{
    name == inner || outer
}

/// Whether a loop around has a name.
pub(crate) fn is_around(around: &[&str], name: &str) -> bool
    ensures { result ≡ contains (plain_around around.now) name.now }
{
    let mut there = false;
    for inner in around.iter() {
        there = is_or(name, inner, there);
    }
    there
}

/// Goes into a loop.
pub(crate) fn enter<'a>(around: &mut Vec<&'a str>, name: &'a str) -> Result<(), AllocError>
    ensures { OnOk result (plain_around around.new.items ≡ name.now ∷ plain_around around.old.items) }
{
    around.push(name)?;
    Ok(())
}

/// Goes out of the innermost loop.
pub(crate) fn leave(around: &mut Vec<&str>)
    ensures { plain_around around.new.items ≡ outside (plain_around around.old.items) }
{
    around.pop();
}
