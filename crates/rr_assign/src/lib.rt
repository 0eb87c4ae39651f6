//! The laws of the assignments of a flat design: what they may assign, by which kind, which variables
//! one block assigns at once and another reads, and the labels of `case` (IEEE 1364-2005 sections
//! 6.1, 9.2, 9.5 and 11). It is right where each call answers the first fault of its law in the order
//! of the text, and none exactly where the law of `rr_flat`'s `Lawful` holds. It stands on
//! `rr_text_names`'s lists of targets and names.
#![tactic(auto)]

mod aims;
mod kinds;
mod labels;
mod races;

pub use aims::first_bad_target;
pub use kinds::first_wrong_kind;
pub use labels::first_wild_label;
pub use races::first_race;
