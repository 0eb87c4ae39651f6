//! What choices and their instances keep, and the relation that instances are by cases on both trees:
//! laws over the definitions of `rr_instance`. There is no code here that runs.
#![tactic(auto)]

mod laws;

pub use laws::{
    choice_laws, first_laws, form_laws, name_laws, relation_laws, rule_laws, stay_laws, truth_laws,
};
