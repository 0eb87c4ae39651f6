//! The expansion of a file.
ghost use Rattle.std.specs.Prelude.{◌≡◌, ℕ, List, [], ◌<◌, ◌≤◌, ◌^◌, length, IfOk, OnOk, MatchResult};
ghost use Rattle.rr_directive.specs.Expand.{Faults, IsTaken, first_unclosed as first_unclosed_of, start};
ghost use Rattle.rr_directive.specs.Pieces.{units_of};
ghost use Rattle.rr_directive.specs.View.{ReadsWhole, Stands, fault_of, is_place};

use crate::expanded::Expanded;
use crate::fault::{DirectiveFault, Wrong};
use crate::output::Stop;
use crate::piece::piece_at;
use crate::reading::Reader;
use crate::unclosed::first_unclosed;
use bumpalo::Bump;
use std::alloc::Global;

fn fault_at(stop: Stop, at: u32) -> DirectiveFault
    ensures { result ≡ fault_of stop at }
{
    match stop {
        Stop::Wrong(Wrong::Unknown) => DirectiveFault::UnknownMacro(at),
        Stop::Wrong(Wrong::Bad) => DirectiveFault::BadDirective(at),
        Stop::Wrong(Wrong::Loop) => DirectiveFault::MacroLoop(at),
        Stop::Full => DirectiveFault::TooMany(1_048_577),
        Stop::Memory => DirectiveFault::Memory,
    }
}

/// Whether the first opening without its end stands here.
fn is_at(unclosed: Option<usize>, at: usize) -> bool
    ensures { result ≡ is_place unclosed at }
{
    match unclosed {
        Some(place) => place == at,
        None => false,
    }
}

/// Reads the units of a file up to the first opening that has no end, or the end.
fn read_all<'a>(
    alloc: Global,
    arena: &'a Bump,
    reader: &mut Reader<'a>,
    bytes: &'a [u8],
    unclosed: Option<usize>,
) -> Result<(), DirectiveFault>
    requires few { length bytes.now < 2 ^ 32 }
    requires start { Stands reader.old start [] }
    requires unclosed { unclosed ≡ first_unclosed_of (units_of bytes.now) }
    ensures { MatchResult result (λ _. ReadsWhole bytes.now reader.new) (Faults bytes.now) }
{
    let mut at = 0;
    while at < bytes.len() {
        let piece = piece_at(bytes, at);
        match reader.read(alloc, arena, bytes, at, piece) {
            Ok(()) => {}
            Err(stop) => return Err(fault_at(stop, at as u32)),
        }
        if is_at(unclosed, at) {
            return Err(DirectiveFault::BadDirective(at as u32));
        }
        at = piece.end;
    }
    Ok(())
}

/// The expansion of a file (IEEE 1364-2005 sections 19.3 and 19.4), or its first fault in the order of
/// the file. The file is read in units: a comment, an escaped name, a backtick with a name, and every
/// other byte. `define, with the text up to the end of the line or to //, `undef, `ifdef, `ifndef,
/// `else and `endif each give one blank; what stands in a branch that is not taken gives nothing; a use
/// gives the text of its name, in which uses give theirs; all else gives its own bytes. Expanded bytes
/// and uses together are at most 1,048,576.
pub fn expand(alloc: Global, bytes: &[u8]) -> Result<Expanded, DirectiveFault>
    requires { length bytes.now < 2 ^ 32 }
    ensures answer { MatchResult result (λ x. IsTaken bytes.now x.text.items x.origins.items) (Faults bytes.now) }
    ensures few { IfOk result (λ x. length x.text.items ≤ 1048576) }
{
    let unclosed = first_unclosed(alloc, bytes)?;
    let arena = Bump::new(alloc);
    let mut reader = Reader::new(alloc);
    read_all(alloc, &arena, &mut reader, bytes, unclosed)?;
    Ok(reader.finish().finish())
}
