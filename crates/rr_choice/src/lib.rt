//! Choices among the changes of a source's sites. It is right where bits are read to the choice that they
//! write, and where the site that is found at a place of a tree is the first that stands there. It stands on
//! `rr_syntax`'s sites and on the numbers that bits write, by `rr_bits`.
#![tactic(auto)]

mod finding;
mod list;
mod pick;
mod reading;
mod sites;

pub use finding::{Found, find};
pub use list::{SiteList, are_listed};
pub use pick::{Choice, Pick, cut, picked_form, picked_name};
pub use reading::{cost, decode};
pub use sites::{form_width, guard_names, site_bits, value_width};
