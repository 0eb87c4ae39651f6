//! The run of a design on the inputs of a table, from the bytes of both files, or the first refusal (IEEE
//! 1364-2005 sections 9, 11, 12 and 19). It is right where its text is the table of the rows with the
//! outputs of the one run of the one lawful design of the one expansion. It stands on the expansion of
//! directives, the elaboration, the laws, the tables, the dumps and the cycle evaluator.
#![tactic(auto)]

mod design;
mod fault;
mod file;
mod laws;
mod refused;
mod rows;
mod run;

pub use design::{LawfulDesign, lawful_design};
pub use fault::{Fault, Refusal, RunFault};
pub use file::{FileDesign, file_design, of_directives, placed, placed_tokens};
pub use laws::{files_run_as_texts, one_file_outcome, one_outcome};
pub use refused::of_design;
pub use rows::{TableKind, read_rows};
pub use rr_flat::Limit;
pub use run::run_files;
