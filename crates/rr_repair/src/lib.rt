//! The repair of a design: from the bytes of a design and of its table to what is to be printed, reported
//! and written, or the first refusal. It is right where the answer prints the source with the fewest
//! changes whose run matches each known cell, with a certificate that fewer do not; or shows that no
//! changes do; or says which question was left open, and prints the source with the changes that were found
//! to match by then. It stands on `rr_sites_command` for the design and its sites, `rr_blast` for its cycle,
//! `rr_search` for the search, and `rr_repair_output` for what is done.
#![tactic(auto)]

mod counted;
mod judging;
mod request;
mod working;

pub use counted::Counted;
pub use judging::{repair, repair_counted};
pub use request::Request;
