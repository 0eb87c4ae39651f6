//! Edits of an expanded text that are made in the file that it is the expansion of: laws. They say that the
//! file with the edits lifted into it expands to the text with the edits made. It stands on `rr_directive`
//! for expansions, and runs nothing.
#![tactic(auto)]

mod laws;

pub use laws::{exact_laws, lifting_laws};
