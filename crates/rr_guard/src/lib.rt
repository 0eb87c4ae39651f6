//! The guard sites of a module: its conditions, each with the names that a guard may be there. They
//! are right where they are those of the definitions on plain trees, in the order of the text. It
//! stands on `rr_change_places`' conditions and `rr_text_names`' lists of targets.
#![tactic(auto)]

mod anywhere;
mod assigned;
mod candidates;
mod declared;
mod guarding;
mod guards;
mod texts;

pub use assigned::whole_name;
pub use candidates::{GuardNames, guard_names, names_before};
pub use guarding::guarded;
pub use guards::{add_guard, sites};
pub use texts::TextSet;
