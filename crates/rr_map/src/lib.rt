//! From an expanded text back to its file: edits of the text made in the file, the sites that are kept,
//! and places. It is right where the file with the edits is the one whose expansion has them. It stands on
//! `rr_lift` for this law and on `rr_kept` for the sites.
#![tactic(auto)]

mod lifting;
mod printing;
#[cfg(test)]
mod tests;

pub use lifting::lift;
pub use printing::{ReadFile, print_file};
pub use rr_directive::place;
pub use rr_kept::kept;
