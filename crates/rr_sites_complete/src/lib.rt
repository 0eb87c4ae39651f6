//! Laws of the list of sites, place by place: which literals, conditions and bodies of a source text are
//! sites, with which names and in which order, by relations on trees. It stands on the list of
//! `rr_sites_listed` and its order by `rr_sites_ordered`, and has no code.
#![tactic(auto)]

mod laws;

pub use laws::{names_are_exact, sites_are_exact};
