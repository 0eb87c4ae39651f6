//! Flat designs of texts.
use bumpalo::Bump;
use rr_elaborate::{Design, DesignFault, elaborate};
use std::alloc::Global;

/// The flat design of a text with this top, with its tokens.
pub(crate) fn design_of<'a>(
    alloc: Global,
    text: &str,
    top: Option<&str>,
    arena: &'a Bump,
) -> Result<Design<'a>, DesignFault> {
    let bytes = text.as_bytes();
    if bytes.len() > 1_048_576 {
        return Err(DesignFault::Memory);
    }
    elaborate(alloc, bytes, top, arena)
}
