//! Where the name of a loop may stand (IEEE 1364-2005 section 9.6): an integer that names a loop is set by
//! loops of its name alone, read inside these alone, and never selected from. The rules are right where
//! the first fault is that of the definition by cases on plain trees. It stands on `rr_flat`.
#![tactic(auto)]

mod around;
mod heads;
mod names;
mod statements;
mod strays;

pub use heads::{note_head, note_turn};
pub use names::{LoopNames, loop_names};
pub use statements::note_loop_faults;
pub use strays::{note_part_strays, note_stray, note_strays, note_strays_inside};
