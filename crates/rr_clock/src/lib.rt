//! The one clock of a flat design: which input it is, on which edge all clocked blocks run, and where
//! it is used otherwise than as a clock (IEEE 1364-2005 sections 9.7 and 12.3.9.2). It is right where
//! its answers are those of `rr_flat`'s `Clocks`, or the first fault in the order of the text. It
//! stands on `rr_flat`'s designs and `rr_text_names`'s lists.
#![tactic(auto)]

mod clock;
mod places;
mod sources;
mod uses;

pub use clock::{Found, find_clock, unknown_clock};
pub use places::clock_places;
pub use uses::first_clock_use;
