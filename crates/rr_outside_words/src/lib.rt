//! Words of Verilog that the profile has no rule for (IEEE 1364-2005 annex B). It is right where it
//! answers the first of them, and none exactly where there is none. It stands on `rr_syntax`'s tokens
//! and the reader of expressions.
#![tactic(auto)]

mod outside;

pub use outside::first_outside;
