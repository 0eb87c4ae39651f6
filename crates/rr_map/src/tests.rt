//! Rows of edits that are made in files with directives.
ghost use Rattle.std.specs.Prelude.{◌≡◌, IfOk};

use crate::lift;
use rr_directive::{DirectiveFault, expand};
use rr_edit::Edit;
use std::alloc::{AllocError, Global};

/// An edit of the expansion.
fn edit(alloc: Global, from: u32, to: u32, text: &[u8]) -> Result<Edit, AllocError>
    ensures from { IfOk result (λ e. e.from ≡ from) }
    ensures to { IfOk result (λ e. e.to ≡ to) }
{
    let text = Vec::from_slice(alloc, text)?;
    Ok(Edit { from, to, text })
}

/// The file with two edits of its expansion, each given by its places.
#[tactic(auto, unfolding(rr_edit::specs::Edits::InOrder))]
fn made(
    alloc: Global,
    file: &[u8],
    first: (u32, u32),
    second: (u32, u32),
) -> Result<Option<Vec<u8>>, DirectiveFault> {
    if file.len() > 1000 {
        return Err(DirectiveFault::Memory);
    }
    let expanded = expand(alloc, file)?;
    if first.0 > first.1 || first.1 > second.0 || second.0 > second.1 {
        return Err(DirectiveFault::Memory);
    }
    if expanded.text.len() < second.1 as usize {
        return Err(DirectiveFault::Memory);
    }
    let edits = [
        edit(alloc, first.0, first.1, b" a ")?,
        edit(alloc, second.0, second.1, b" b ")?,
    ];
    Ok(lift(alloc, file, &expanded, &edits)?)
}

/// Whether the file becomes this.
fn becomes(
    alloc: Global,
    file: &[u8],
    first: (u32, u32),
    second: (u32, u32),
    wanted: &[u8],
) -> bool {
    match made(alloc, file, first, second) {
        Ok(Some(out)) => out.as_slice() == wanted,
        Ok(None) => false,
        Err(_) => false,
    }
}

/// Whether one of the edits does not lift.
fn stays(alloc: Global, file: &[u8], first: (u32, u32), second: (u32, u32)) -> bool {
    match made(alloc, file, first, second) {
        Ok(Some(_)) => false,
        Ok(None) => true,
        Err(_) => false,
    }
}

#[test]
fn edits_are_lifted(rt: HostRuntime) {
    let alloc = rt.alloc();
    // Behind x, before a use that gives nothing, and at the end.
    assert!(rt;
        becomes(
            alloc,
            b"`define E\nx`E;",
            (3, 3),
            (4, 4),
            b"`define E\nx a `E; b "
        )
    );
    // Both behind x, which the first replaces.
    assert!(rt;
        becomes(
            alloc,
            b"`define E\nx`E;",
            (2, 3),
            (3, 3),
            b"`define E\n a  b `E;"
        )
    );
    // Before a use whose text stays, and the bytes behind it.
    assert!(rt;
        becomes(
            alloc,
            b"`define W 8\n`W'd0;",
            (3, 6),
            (7, 7),
            b"`define W 8\n`W a ; b "
        )
    );
    // Bytes of a use, and behind the last of them.
    assert!(rt; stays(alloc, b"`define A 4'd2\n`A;", (2, 6), (7, 7)));
    assert!(rt; stays(alloc, b"`define A 4'd2\n`A;", (6, 6), (7, 7)));
    // Bytes with a use between them.
    assert!(rt; stays(alloc, b"`define E\n4`E'd2;", (2, 6), (7, 7)));
    // Before all bytes.
    assert!(rt; stays(alloc, b"x", (0, 0), (1, 1)));
}
