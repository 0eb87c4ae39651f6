//! The names of sites can be written: a law over the definitions of `rr_sites_listed` and `rr_respell`. It
//! has no code.
#![tactic(auto)]

mod laws;

pub use laws::site_names;
