//! What is to be done for each answer of the search for a repair: what is printed and reported, and the
//! three files of the certificate. It is right where they are the texts of the circuit, of its formula
//! and of the lines that were learned, and the printed file expands to a text whose tree is the instance. It
//! stands on `rr_map` for the file and on `rr_repair_report` for the report.
#![tactic(auto)]

mod answering;
mod certifying;
mod leaving;

pub use answering::{beyond, repaired, unchanged};
pub use leaving::{found_open, left_open};
