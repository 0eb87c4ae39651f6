//! Proof lines with hints, their check, and their LRAT text (Cruz-Filipe et al., "Efficient Certified
//! RAT Verification", CADE 2017; without RAT lines). It is right where a line passes exactly where
//! its hints lead from the clause's negation to a conflict. It stands on `rr_cnf`'s formulas.
#![tactic(auto)]

mod check;
mod fresh;
mod laws;
mod line;
mod read;
mod write;

pub use check::{Workspace, check_line, position};
pub use fresh::fresh_lines_are_few;
pub use laws::refuted_means_unsatisfiable;
pub use line::{Journal, Line};
pub use read::{ProofFault, one_fault, one_proof, proof_or_fault, read_lrat, written_is_read};
pub use write::write_lrat;
