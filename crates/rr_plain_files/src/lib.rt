//! In a file without macros each token can be changed. A law over the definitions of `rr_directive`,
//! `rr_lex` and `rr_kept`; it has no code.
#![tactic(auto)]

mod laws;

pub use laws::{plain_files_keep_all, plain_files_lift, plain_files_print};
