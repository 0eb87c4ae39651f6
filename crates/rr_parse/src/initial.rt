//! What `initial` items hold (IEEE 1364-2005 section 9.9.1, annex A.6.2).

ghost use Rattle.std.specs.Prelude.{◌≡◌, ◌≤◌, ◌<◌, ◌^◌, length};
ghost use Rattle.rr_syntax.specs.Statements.{are_initial as are_initial_of, is_initial as is_initial_of, is_cell as is_cell_of};
ghost use Rattle.rr_syntax.specs.View.{plain, plain_statement, plain_statements};
ghost use Rattle.rr_grammar.specs.Formats.{guarded};
ghost use Rattle.rr_grammar.specs.ItemForms.{statement_of};
ghost use Rattle.rr_parse.specs.Answer.{Answers, statement_behind};

use crate::expressions::statement;
use rr_parse_expr::{Input, ParseFault, Piece};
use rr_syntax::{Expr, Stmt};

/// Whether an expression is a bare name, or a bare name with one index.
#[tactic(auto, using(crate::proofs::InitialForms::cells))]
fn is_cell(expr: &Expr) -> bool
    ensures { result ≡ is_cell_of (plain expr.now) }
{
    match expr {
        Expr::Name { .. } | Expr::Bit { .. } => true,
        Expr::Literal { .. }
        | Expr::Part { .. }
        | Expr::Indexed { .. }
        | Expr::Unary { .. }
        | Expr::Binary { .. }
        | Expr::Cond { .. }
        | Expr::Concat { .. }
        | Expr::Repeat { .. }
        | Expr::Cast { .. }
        | Expr::Paren { .. } => false,
    }
}

/// Whether a statement is `;`, a block or a loop of such statements, or sets a variable or a word of a
/// memory by `=`.
#[tactic(auto, using(crate::proofs::InitialForms::forms))]
#[cycle(initials)]
fn is_initial(stmt: &Stmt) -> bool
    ensures { result ≡ is_initial_of (plain_statement stmt.now) }
{
    match stmt {
        Stmt::Null => true,
        Stmt::Block { body, .. } => are_initial(body),
        Stmt::If { .. } | Stmt::Case { .. } => false,
        Stmt::Assign { target, now, .. } => *now && is_cell(target),
        Stmt::For { body, .. } => is_initial(body),
    }
}

#[tactic(auto, using(crate::proofs::InitialForms::forms))]
#[cycle(initials)]
fn are_initial(body: &[Stmt]) -> bool
    ensures { result ≡ are_initial_of (plain_statements body.now) }
{
    for stmt in body.iter() {
        if !is_initial(stmt) {
            return false;
        }
    }
    true
}

/// The statement of an `initial` item.
pub(crate) fn initial_statement<'a>(
    input: Input<'a>,
    from: u32,
    depth: u32,
) -> Result<Piece<&'a Stmt<'a>>, ParseFault>
    requires short { length input.tokens.now < 2 ^ 32 }
    requires shallow { depth ≤ 500 }
    ensures { Answers (guarded (statement_of depth) is_initial_of) statement_behind input.entry.tokens.now from result }
{
    let found = statement(input, from, depth)?;
    if is_initial(found.value) {
        Ok(found)
    } else {
        Err(ParseFault::Syntax(from))
    }
}
