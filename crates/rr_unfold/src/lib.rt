//! Loops in statements, turn by turn (IEEE 1364-2005 section 9.6): the values of a loop's name, the count of
//! turns and tokens, and the statement without loops in which each loop is the block of its turns. It is
//! right where value, count and statement are those of the definitions. It stands on `rr_loop_names`, which
//! puts the values of names into expressions, and on `rr_loop_rules`, which says where names may stand.
#![tactic(auto)]

mod counts;
mod forms;
mod freedom;
mod laws;
mod opening;
mod statement;
mod tokens;
mod values;

pub use counts::Counts;
pub use laws::{form_laws, limit_laws, loop_free_laws, meaning_laws};
pub use statement::unfolded;
