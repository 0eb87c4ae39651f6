//! The texts that a choice puts into a source can stand between tokens of a file with directives. A law
//! over the definitions of `rr_respell` and `rr_edit`; it has no code.
#![tactic(auto)]

mod laws;

pub use laws::new_texts;
