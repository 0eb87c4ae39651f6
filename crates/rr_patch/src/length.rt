//! The number of tokens of a statement.

ghost use Rattle.std.specs.Prelude.{◌≡◌, ◌<◌, ◌^◌, length, IfOk};
ghost use Rattle.rr_syntax.specs.Statements.{spell_statement};
ghost use Rattle.rr_syntax.specs.View.{plain_statement};

use crate::statement::statement;
use rr_choice::{Choice, SiteList};
use rr_syntax::Stmt;
use std::alloc::{AllocError, Global};

/// The number of tokens that spell a statement, by the walk for its changes with no sites.
pub fn statement_len(alloc: Global, stmt: &Stmt) -> Result<u64, AllocError>
    requires fits { length (spell_statement (plain_statement stmt.now)) < 2 ^ 63 }
    ensures { IfOk result (λ count. count ≡ length (spell_statement (plain_statement stmt.now))) }
{
    let list = SiteList::new(Vec::new(alloc));
    let choice = Choice {
        picks: Vec::new(alloc),
    };
    let mut changes = Vec::new(alloc);
    let next = statement(stmt, 0, &list, &choice, &mut changes)?;
    Ok(next)
}
