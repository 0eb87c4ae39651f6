//! Which names the `always` items without edges of a source are to clear first: those that a block assigns
//! and of which it keeps a bit in some instance; a block that keeps a memory is a fault. The mended tree and the edits of its text both ask for
//! them, for the modules that have instances, and for which items wait for edges. It stands on `rr_latch`
//! for the bits.
#![tactic(auto)]

mod cleared;
mod edges;
mod ever;
mod fault;
mod latched_names;
mod lows;
mod noted;
mod reached;
mod words;

pub use cleared::cleared_names;
pub use edges::has_edges;
pub use fault::LintFault;
pub use latched_names::latched;
pub use noted::Noted;
pub use reached::{has_number, number_set};
