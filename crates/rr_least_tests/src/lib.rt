//! Tests of the search for a least repair: on made inputs, without proposals, and with a budget of one line, from
//! proposals. It has tests alone.
#![tactic(auto)]

#[cfg(test)]
mod found;
#[cfg(test)]
mod made;
