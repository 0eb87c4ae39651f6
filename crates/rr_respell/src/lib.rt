//! What a source is in which the switched-on changes of a choice are printed, and that its tree is the
//! instance. It is right where the printed tokens spell the instance, and where the bytes of the source
//! stand in what is printed. It stands on `rr_lex`'s law of patches and on `rr_instance`, and runs
//! nothing.
#![tactic(auto)]

mod laws;

pub use laws::{print_laws, spelling_laws};
