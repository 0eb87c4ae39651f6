//! The names of loops as constants of a turn (IEEE 1364-2005 section 9.6): expressions and targets in which
//! these names are literals. They are right where a tree with the values of a turn has the shape, the value
//! and the faults that the tree has in the scope in which the names stand for constants. It stands on
//! `rr_expr` and on `rr_syntax`'s trees.
#![tactic(auto)]

mod forms;
mod laws;
mod turns;

pub use laws::{put_laws, put_meaning, stay_laws, target_laws};
pub use turns::{TurnName, put, put_all, put_target, put_targets};
