//! Laws of starting values in the words of the standard, above the definition of the walk: the
//! `initial` items of an instance are those of its module, and a variable begins with what the last
//! assignment to it gives it, or else its declaration (IEEE 1364-2005 sections 6.2.1 and 9.9.1). It
//! stands on `rr_flat_laws` and on the definitions of `rr_flatten`, and has no code.
#![tactic(auto)]

mod laws;

pub use laws::{initials_are_items, last_setting_counts};
