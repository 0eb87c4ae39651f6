//! Signals: the nets and variables of all instances.

/// Whether a signal is a port of its module, and of which direction (IEEE 1364-2005 section 12.3.3).
#[derive(Clone, Copy, Debug, PartialEq, Eq)]
pub enum Port {
    Inner,
    Input,
    Output,
}

/// A net or a variable of an instance (sections 3.2 and 3.3). The range is `[left:right]` as it was
/// declared, the width that of the range, 1 without one; an `integer` has `[31:0]`. The token is the
/// name's in the declaration, for a port in that of its direction. `start` is the starting value of
/// the declaration (section 6.2.1), 0 without one; `initial` items may set another. Each word of a
/// memory (section 4.9.3) is a signal; `word` is its index as it was declared, and none where the
/// signal is no word.
#[derive(Clone, Copy)]
pub struct Signal<'a> {
    pub instance: u32,
    pub name: &'a str,
    pub variable: bool,
    pub port: Port,
    pub range: Option<(u32, u32)>,
    pub signed: bool,
    pub width: u32,
    pub token: u32,
    pub start: u128,
    pub word: Option<u32>,
}
