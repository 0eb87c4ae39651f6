//! What defined texts ask for.
ghost use Rattle.std.specs.Prelude.{◌≡◌, List, ◌++◌, map, IfOk, OnOk};
ghost use Rattle.rr_directive.specs.Expand.{Definition, Item, items_of};
ghost use Rattle.rr_directive.specs.View.{AreItems, Extends, IsIn, IsPlainText, Knows, names_of, unit_at};
ghost use Rattle.rr_directive.specs.declared.definitions.Part.TheVariants as part;

use crate::definitions::{Definitions, Part};
use crate::piece::{Kind, Piece, is_named, piece_at};
use bumpalo::Bump;
use bumpalo::collections::into_bump_slice;
use std::alloc::AllocError;

/// The bytes of a unit that gives itself.
fn add_bytes(parts: &mut Vec<Part, &Bump>, bytes: &[u8]) -> Result<(), AllocError>
    ensures { OnOk result (parts.new.items ≡ parts.old.items ++ map part.Byte bytes.now) }
{
    for byte in bytes {
        parts.push(Part::Byte(*byte))?;
    }
    Ok(())
}

/// What a unit that is no directive asks for.
fn add_unit<'a>(
    definitions: &mut Definitions<'a>,
    parts: &mut Vec<Part, &Bump>,
    text: &'a [u8],
    at: usize,
    piece: Piece,
) -> Result<(), AllocError>
    requires { IsIn text.now at piece }
    ensures extends { OnOk result (Extends (names_of definitions.old) (names_of definitions.new)) }
    ensures knows { OnOk result ((ds : List Definition) → Knows definitions.old ds → Knows definitions.new ds) }
    ensures items { OnOk result ((items : List Item) → AreItems (names_of definitions.old) parts.old.items items
        → AreItems (names_of definitions.new) parts.new.items (items ++ items_of piece.kind (unit_at text.now at piece))) }
{
    match piece.kind {
        Kind::Use => {
            let number = definitions.number_of(&text[piece.name..piece.name_end])?;
            parts.push(Part::Use(number))?;
            Ok(())
        }
        _ => {
            add_bytes(parts, &text[at..piece.end])?;
            Ok(())
        }
    }
}

/// What a text asks for, in its order, if it holds no directive. Its names get numbers.
pub(crate) fn parts_of<'a>(
    definitions: &mut Definitions<'a>,
    arena: &'a Bump,
    text: &'a [u8],
) -> Result<Option<&'a [Part]>, AllocError>
    ensures parts { IfOk result (λ found. IsPlainText (names_of definitions.new) text.now found) }
    ensures extends { OnOk result (Extends (names_of definitions.old) (names_of definitions.new)) }
    ensures knows { OnOk result ((ds : List Definition) → Knows definitions.old ds → Knows definitions.new ds) }
{
    let mut parts = Vec::new(arena);
    let mut at = 0;
    while at < text.len() {
        let piece = piece_at(text, at);
        if is_named(piece.kind) {
            return Ok(None);
        }
        add_unit(definitions, &mut parts, text, at, piece)?;
        at = piece.end;
    }
    Ok(Some(into_bump_slice(parts)))
}
