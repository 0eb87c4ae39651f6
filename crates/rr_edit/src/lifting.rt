//! Whether edits lift.
ghost use Rattle.std.specs.Prelude.{◌≡◌, ◌≤◌, [], length};
ghost use Rattle.rr_edit.specs.Lifted.{adjoin as adjoin_of, is_next as is_next_of, lifts as lifts_of};

use rr_directive::Origin;

/// Whether an origin, if there is another behind it, is that of the byte before its byte in the file.
fn is_next(origin: &Origin, rest: &[Origin]) -> bool
    ensures { result ≡ is_next_of origin.now rest.now }
{
    match rest.first() {
        None => true,
        Some(next) => u64::from(next.offset) == u64::from(origin.offset) + 1,
    }
}

/// Whether bytes are exact and stand in the file as in the text, one directly behind the other.
fn adjoin(origins: &[Origin]) -> bool
    ensures { result ≡ adjoin_of origins.now }
{
    let mut i = 0;
    while i < origins.len() {
        let origin = origins[i];
        if !origin.exact {
            return false;
        }
        if !is_next(&origin, &origins[i + 1..]) {
            return false;
        }
        i += 1;
    }
    true
}

/// Whether an edit of the bytes from a place up to another, counted from 0, lifts: these bytes stand side by
/// side in the file itself, and, where there are none, the byte before does.
pub fn lifts(origins: &[Origin], from: u32, to: u32) -> bool
    requires order { from ≤ to }
    requires within { to ≤ length origins.now }
    ensures { result ≡ lifts_of origins.now (record { from = from; to = to; text = [] }) }
{
    if to == 0 {
        return false;
    }
    let last = to as usize - 1;
    origins[last].exact && adjoin(&origins[from as usize..to as usize])
}
