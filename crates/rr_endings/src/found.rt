//! What a command found: the answer that is to be carried out.
use crate::file::File;
use crate::text::Text;

/// What goes to standard output.
#[derive(Drop)]
pub enum Piece<'b> {
    /// No byte, and no call of `put`.
    Nothing,
    /// Bytes of a file as they are.
    Source(&'b [u8]),
    /// Bytes that were made.
    Made(Vec<u8>),
    /// A text.
    Told(Text),
}

impl Piece<'_> {
    ghost use Rattle.std.specs.Prelude.{◌≡◌};
    ghost use Rattle.rr_endings.specs.Views.{piece_bytes};

    /// The bytes of the piece.
    pub fn as_bytes(&self) -> &[u8]
        ensures { result.now ≡ piece_bytes self.now }
    {
        match self {
            Piece::Nothing => &[],
            Piece::Source(bytes) => bytes,
            Piece::Made(bytes) => bytes.as_slice(),
            Piece::Told(text) => text.as_bytes(),
        }
    }
}

/// What is to be done: the files in order, then a piece for standard output, then the report on
/// standard error; and the status.
#[derive(Drop)]
pub struct Found<'b> {
    pub status: u8,
    pub files: Vec<File>,
    pub out: Piece<'b>,
    pub notes: Text,
}
