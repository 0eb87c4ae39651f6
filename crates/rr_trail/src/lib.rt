//! The trail of a search: the literals that are taken to be true, in the order in which they became so,
//! each with its level and its reason (Marques-Silva, Sakallah, "GRASP", IEEE Transactions on Computers
//! 1999). It is right where a literal has a value exactly where it or its negation stands in the trail,
//! and where going back to a level leaves exactly the levels up to it. It stands on `rr_cnf`.
#![tactic(auto)]

mod assignment;
mod trail;

pub use trail::Trail;
