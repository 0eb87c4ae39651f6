//! The spots of a source text at which a change may stand: bodies of `always`, conditions, and
//! literals, outside the constant places. They are right where they are those of the definition by
//! cases on plain trees, in the order of the text. It stands on `rr_syntax`'s trees and on
//! `rr_expr`'s table of operators.
#![tactic(auto)]

mod spot;
mod walk;

pub use spot::Spot;
pub use walk::{is_clocked, spots_of_item};
