//! Where expanded bytes come from.

/// Where a byte comes from: a byte of the file, and whether it is that byte itself and a text may be put
/// in directly after it, as after a byte that is a unit by itself, or the last one of an escaped name.
#[derive(Clone, Copy, Debug, PartialEq, Eq)]
pub struct Origin {
    pub offset: u32,
    pub exact: bool,
}
