//! Flat designs of texts, and places in them.
use bumpalo::Bump;
use rr_elaborate::{Design, DesignFault, elaborate};
use rr_syntax::{ModulePlace, Token};
use std::alloc::Global;

/// The flat design of a text, with its tokens.
pub(crate) fn design_of<'a>(
    alloc: Global,
    text: &str,
    arena: &'a Bump,
) -> Result<Design<'a>, DesignFault> {
    let bytes = text.as_bytes();
    if bytes.len() > 1_048_576 {
        return Err(DesignFault::Memory);
    }
    elaborate(alloc, bytes, None, arena)
}

/// The byte at which a token begins.
pub(crate) fn byte_of(tokens: &[Token<'_>], at: u32) -> Option<u32> {
    match tokens.get(at as usize) {
        Some(token) => Some(token.span.start),
        None => None,
    }
}

/// Whether a place is that of a module with one name of the clock.
pub(crate) fn place_is(places: &[ModulePlace], at: usize, module: u32, clock: &str) -> bool {
    match places.get(at) {
        None => false,
        Some(place) => place.module == module
            && place.clocks.len() == 1
            && place.clocks[0] == clock,
    }
}
