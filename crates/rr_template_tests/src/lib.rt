//! What the contracts of the templates of sites do not say: that each call succeeds where memory is left, and
//! that each form is the one of its number, written by hand; the literal sites of two modules; and the guard and
//! the overwrite sites of two modules of a text. It has tests alone.
#![tactic(auto)]

#[cfg(test)]
mod designs;
#[cfg(test)]
mod literals;
#[cfg(test)]
mod templates;
