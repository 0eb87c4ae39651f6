//! The trees that a choice among the changes of a source's sites makes of expressions, statements and bodies
//! of `always`. They are right where they are the instances of the definition by cases on plain trees. It
//! stands on `rr_choice`, on `rr_syntax`'s trees and on `rr_expr`'s tables of operators.
#![tactic(auto)]

mod expression;
mod firsts;
mod forms;
mod overwrite;
mod statement;

pub use expression::{expression_instance, expression_instances};
pub use firsts::first_token;
pub use forms::new_test;
pub use overwrite::{body_instance, overwritten};
