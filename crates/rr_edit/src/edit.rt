//! Edits of a text.

/// The bytes of a text from a place up to another are replaced by these. The places count bytes from 0.
#[derive(Drop)]
pub struct Edit {
    pub from: u32,
    pub to: u32,
    pub text: Vec<u8>,
}
