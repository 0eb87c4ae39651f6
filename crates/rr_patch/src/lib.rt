//! The edits that the switched-on changes of a choice are in the bytes of a source, and the bytes with
//! these edits. They are right where they are those that `rr_respell` says, whose tree is the instance.
//! It walks the tree once for its changes, the tokens once for the edits, and the edits once for the bytes.
#![tactic(auto)]

mod body;
mod change;
mod connections;
mod editing;
mod expression;
mod forms;
mod item;
mod laws;
mod length;
mod patch;
mod printing;
mod source;
mod statement;

pub use change::{Added, Change, Fixed};
pub use editing::{edits, edits_at};
pub use forms::put_all;
pub use laws::change_laws;
pub use length::statement_len;
pub use printing::print;
