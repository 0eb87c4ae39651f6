//! Spans, tokens and syntax trees of the Verilog profile (IEEE 1364-2005 annexes A and B). Trees are
//! right where they are well-formed and spell their tokens, each leaf with its token's number. It
//! stands on no other crate, and all that speaks of Verilog stands on it.
#![tactic(auto)]

mod laws;
mod nesting;
mod operators;
mod places;
mod site;
mod spelling;
mod targets;
mod token;
mod tree;

pub use laws::{bare_laws, depth_laws, spelling_laws, table_laws};
pub use nesting::{depth, expression_depth};
pub use operators::{infix_level, is_prefix};
pub use places::token_at;
pub use site::{ModulePlace, Site, SiteKind};
pub use spelling::{events_len, expression_len, loop_len, spell_len};
pub use targets::is_target;
pub use token::{KEYWORDS, Keyword, Kind, MARKS, Mark, Number, Span, Token};
pub use tree::{
    Arm, Bounds, Connection, Conns, Declarator, Dir, Event, Events, Expr, Group, Head, Instance,
    Item, Module, Named, Pair, Params, Setting, Source, Stmt,
};
