//! What a repair is asked for.

use rr_run::TableKind;

/// The words of a repair: how the table is read; the top and the clock, each given or not; the name of the
/// certificate's files, which end in `.aag`, `.cnf` and `.lrat`; how many lines each member of a search may
/// learn for one question, 1 or more; and how many members there are, 1 to 8.
#[derive(Clone, Copy)]
pub struct Request<'w> {
    pub kind: TableKind,
    pub top: Option<&'w str>,
    pub clock: Option<&'w str>,
    pub cert: &'w str,
    pub budget: u32,
    pub members: u32,
}
