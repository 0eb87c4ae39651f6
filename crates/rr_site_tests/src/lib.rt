//! What the contract of the list of sites does not say: lists of small designs, written by hand, and
//! that the call succeeds where memory is left, at the greatest number of sites too. It has tests alone.
#![tactic(auto)]

#[cfg(test)]
mod limits;
#[cfg(test)]
mod lists;
