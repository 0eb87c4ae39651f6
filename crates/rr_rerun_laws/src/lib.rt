//! The laws that `repair` and then `run` is a round trip, and that `check` accepts what `repair` wrote: what
//! a repair prints, also one that is left open, expanded, read and run again on the same table, agrees with
//! each known cell; and its certificate has the verdict `accepted`. They stand on the definitions of `rr_repair`, `rr_run` and `rr_check_certificate`, and
//! on the law that elaboration and runs see nothing of the numbers of tokens; there is no code.
#![tactic(auto)]

mod laws;

pub use laws::{found_then_run, repair_then_check, repair_then_run};
