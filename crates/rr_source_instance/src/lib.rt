//! The source that a choice among the changes of its sites makes of a source. It is right where the tree is
//! the instance of `rr_instance`'s definition by cases on plain trees, and it stands on `rr_instance`'s
//! instances of expressions and bodies.
#![tactic(auto)]

mod source;

pub use source::instance;
