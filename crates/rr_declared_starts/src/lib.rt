//! What declarations give variables to begin with, above the definition of the walk: a variable that is
//! declared with a value begins with it in each instance, and each other signal with 0 (IEEE 1364-2005
//! section 6.2.1). It stands on `rr_declared_ranges`, `rr_flat_laws` and the definitions of
//! `rr_flatten`, and has no code.
#![tactic(auto)]

mod laws;

pub use laws::declared_values_are_starts;
