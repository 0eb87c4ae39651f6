//! What the contracts of `rr_members` do not say: whole searches by one and by several members, with
//! each joined line checked, two members at work at once, and that each call succeeds where memory is
//! left. It has tests alone.
#![tactic(auto)]

#[cfg(test)]
mod members;
