//! Texts that are fixed or made.

/// A text.
#[derive(Drop)]
pub enum Text {
    /// A text that takes no memory.
    Fixed(&'static str),
    /// A text that was made.
    Made(String),
}

impl Text {
    ghost use Rattle.std.specs.Prelude.{◌≡◌};
    ghost use Rattle.rr_endings.specs.Views.{text_bytes};

    /// The bytes of the text.
    pub fn as_bytes(&self) -> &[u8]
        ensures { result.now ≡ text_bytes self.now }
    {
        match self {
            Text::Fixed(text) => text.as_bytes(),
            Text::Made(text) => text.as_bytes(),
        }
    }
}
