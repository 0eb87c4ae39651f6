//! Laws of flat designs in the words of the standard, above the definition of the walk: each
//! declared name of an instance is one signal or a memory of words, each continuous assignment and
//! each connected port one driver, each `always` one block without loops, and there are no others.
//! It stands on `rr_flatten`'s definitions and has no code.
#![tactic(auto)]

mod laws;

pub use laws::{
    assignments_are_drivers, blocks_are_always, connections_are_drivers, names_are_signals,
    no_other_drivers, rules_are_kept, top_is_first,
};
