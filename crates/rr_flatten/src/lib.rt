//! Elaboration: the flat design of a source (IEEE 1364-2005 section 12). It is right where the design
//! is the one of the definition of the walk, or the fault its first one. It stands on `rr_declarations`,
//! which opens each module's instance, on `rr_unfold`, which makes statements without loops, and on
//! `rr_flat`, which has the design as data.
#![tactic(auto)]

mod instances;
mod items;
mod laws;
mod notes;
mod settings;
mod source;
mod tables;
mod walk;

pub use laws::{limits_agree, sound_designs};
pub use source::flatten;
