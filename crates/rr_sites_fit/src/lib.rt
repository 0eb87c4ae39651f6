//! Laws of the sites of a lawful design: they are such as the laws of its instances ask, and its scopes
//! and places are such as the listing asks. It stands on `rr_sites_listed`'s definition of the sites and on
//! the laws of flat designs, and has no code.
#![tactic(auto)]

mod laws;

pub use laws::{listing_is_met, one_site_list, sites_are_right};
