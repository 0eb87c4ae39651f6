//! What the contracts of `rr_derive`, `rr_check`, `rr_watch` and `rr_solver` do not say: texts from
//! outside, whole searches with each answer checked, and that each call succeeds where memory is left.
//! It has tests alone.
#![tactic(auto)]

#[cfg(test)]
mod check;
#[cfg(test)]
mod circuits;
#[cfg(test)]
mod derive;
#[cfg(test)]
mod helpers;
#[cfg(test)]
mod scripts;
#[cfg(test)]
mod solver;
#[cfg(test)]
mod watch;
