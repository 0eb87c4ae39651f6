//! What the contracts of a mended file do not say: mended files of small designs, written by hand, and
//! refusals at their places. It has tests alone.
#![tactic(auto)]

#[cfg(test)]
mod edits;
#[cfg(test)]
mod mended;
#[cfg(test)]
mod refused;
