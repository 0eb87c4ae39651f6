//! What is told of a command: how it ended, its status, the exact text on standard error, and the
//! answer that it is to carry out. It is right where each text and status is that of its ending. It
//! stands on `rr_run` and `rr_check_certificate`, whose refusals it tells, and on `rr_words` for the usage line.
#![tactic(auto)]

mod ending;
mod file;
mod found;
mod refusal;
mod text;

pub use ending::{
    Ending, Report, absent, no_usage, out_fault, out_of_memory, read_fault, refused, status,
    stopped,
};
pub use file::File;
pub use found::{Found, Piece};
pub use refusal::{Refusal, Stop, stop_of};
pub use text::Text;
