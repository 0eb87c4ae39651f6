//! The list of the sites of a source: those of the modules that have instances, in the order of their
//! tokens and kinds. It is right where it is the list of `rr_sites_listed`, which is in that order, with
//! widths of 1 to 128 bits and with at most 64 names a site. It stands on `rr_sites_listed`, and on the
//! spelling of trees for the order.
#![tactic(auto)]

mod laws;
mod list;

pub use laws::site_order;
pub use list::list_of;
