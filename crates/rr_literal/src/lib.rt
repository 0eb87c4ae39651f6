//! The literal sites of a module: each literal without x or z digits at a spot where a change may
//! stand. They are right where they are those of the definition on plain trees, in the order of the
//! text. A new value makes of one what `rr_instance`'s instances have. It stands on `rr_change_places`.
#![tactic(auto)]

mod literals;
mod replacing;

pub use literals::{add_literal, sites};
pub use replacing::replaced;
