//! The targets and names of the texts of a flat design as lists, and what the names stand for (IEEE
//! 1364-2005 sections 6.1, 9.2 and 12.7). It is right where the lists are those of `rr_flat`'s
//! `Reads`, in the order of the text. It stands on `rr_flat`.
#![tactic(auto)]

mod lists;
mod names;

pub use lists::{
    Target, add_assigned_targets, add_names, add_parts, add_read_names, add_statement_names,
};
pub use names::{
    entity_named, identifier_of, instance_of, is_fixed, is_indexed, is_input, is_scalar,
    is_variable, scalar_named, signal_of, variable_named,
};
