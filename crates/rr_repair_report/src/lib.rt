//! The report of a repair: what the sites of a source become by a choice, line by line; and these lines by
//! themselves, for other reports. It is right where its text has a line for each site that the choice
//! switches on. It stands on `rr_choice`'s choices and on `rr_lex` for the places of tokens.
#![tactic(auto)]

mod change;
mod lines;

pub use lines::{push_site_lines, report};
