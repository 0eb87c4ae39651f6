//! Expanded texts.
ghost use Rattle.std.specs.Prelude.{◌≡◌, ◌<◌, length};
ghost use Rattle.rr_directive.specs.Places.{offset_at};

use crate::origin::Origin;

/// The expanded bytes of a file, with the origin of each.
#[derive(Drop)]
pub struct Expanded {
    pub text: Vec<u8>,
    pub origins: Vec<Origin>,
    ghost same: { length text.items ≡ length origins.items },
}

/// The place in the file of a byte of the expanded text.
pub fn place(expanded: &Expanded, offset: u32) -> u32
    requires { offset < length expanded.now.text.items }
    ensures { result ≡ offset_at expanded.now.origins.items offset }
{
    expanded.origins[offset as usize].offset
}
