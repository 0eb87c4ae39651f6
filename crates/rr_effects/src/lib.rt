//! The effects of a command: its files are fetched from a shelf in order, and its answer is carried
//! out, which writes files, puts one piece on standard output, and then the report on standard error.
//! It is right where shelf and sinks hold what the answer says, after each success and each fault. It
//! stands on `rr_edge` and `rr_endings`.
#![tactic(auto)]

mod delivery;
mod reads;

pub use delivery::{deliver, put_report};
pub use reads::{Read, fetch};
