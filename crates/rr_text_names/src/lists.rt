//! The targets and the names of a text, as lists in its order.
ghost use Rattle.std.specs.Prelude.{◌≡◌, ◌++◌, ◌∷◌, [], OnOk, map};
ghost use Rattle.rr_syntax.specs.View.{plain, plain_arms, plain_identifier, plain_list, plain_statement, plain_statements};
ghost use Rattle.rr_flat.specs.Reads.{assigned_by, assigned_by_all, assigned_by_arms, assigned_parts, index_names, index_names_in, names_in, names_in_parts, names_of, names_of_all, names_of_arms, names_read, names_read_by, names_read_by_arms};
ghost use Rattle.rr_flat.specs.Targets.{target_parts, targets_parts};
ghost use Rattle.rr_text_names.specs.View.{named_by, plain_target};

use rr_syntax::{Arm, Expr, Named, Stmt};
use std::alloc::AllocError;

/// A name or select that is assigned, by `=` where it is blocking (IEEE 1364-2005 section 9.2).
#[derive(Clone, Copy)]
pub struct Target<'a> {
    pub part: &'a Expr<'a>,
    pub blocking: bool,
}

fn push_target<'a>(
    list: &mut Vec<Target<'a>>,
    part: &'a Expr<'a>,
    now: bool,
) -> Result<(), AllocError>
    ensures { OnOk result (map plain_target list.new.items ≡ map plain_target list.old.items ++ assigned_parts now (plain part.now ∷ [])) }
{
    list.push(Target {
        part,
        blocking: now,
    })?;
    Ok(())
}

/// The names and selects of a target.
#[cycle(parts)]
#[tactic(auto, using(crate::proofs::PartsOfNodes::part_nodes))]
pub fn add_parts<'a>(
    list: &mut Vec<Target<'a>>,
    target: &'a Expr<'a>,
    now: bool,
) -> Result<(), AllocError>
    ensures { OnOk result (map plain_target list.new.items ≡ map plain_target list.old.items ++ assigned_parts now (target_parts (plain target.now))) }
{
    match target {
        Expr::Name { .. } | Expr::Bit { .. } | Expr::Part { .. } | Expr::Indexed { .. } => {
            push_target(list, target, now)
        }
        Expr::Concat { parts } => add_parts_of_all(list, parts, now),
        Expr::Literal { .. }
        | Expr::Unary { .. }
        | Expr::Binary { .. }
        | Expr::Cond { .. }
        | Expr::Repeat { .. }
        | Expr::Cast { .. }
        | Expr::Paren { .. } => Ok(()),
    }
}

#[cycle(parts)]
fn add_parts_of_all<'a>(
    list: &mut Vec<Target<'a>>,
    targets: &'a [Expr<'a>],
    now: bool,
) -> Result<(), AllocError>
    ensures { OnOk result (map plain_target list.new.items ≡ map plain_target list.old.items ++ assigned_parts now (targets_parts (plain_list targets.now))) }
{
    for target in targets.iter() {
        add_parts(list, target, now)?;
    }
    Ok(())
}

/// The names and selects that a statement assigns.
#[cycle(assigned)]
#[tactic(auto, using(crate::proofs::PartsOfNodes::assigned_nodes))]
pub fn add_assigned_targets<'a>(
    list: &mut Vec<Target<'a>>,
    stmt: &'a Stmt<'a>,
) -> Result<(), AllocError>
    ensures { OnOk result (map plain_target list.new.items ≡ map plain_target list.old.items ++ assigned_by (plain_statement stmt.now)) }
{
    match stmt {
        Stmt::Null | Stmt::For { .. } => Ok(()),
        Stmt::Block { body, .. } => add_assigned_by_all(list, body),
        Stmt::If { yes, no: None, .. } => add_assigned_targets(list, yes),
        Stmt::If {
            yes,
            no: Some(other),
            ..
        } => {
            add_assigned_targets(list, yes)?;
            add_assigned_targets(list, other)
        }
        Stmt::Case { arms, .. } => add_assigned_by_arms(list, arms),
        Stmt::Assign { target, now, .. } => add_parts(list, target, *now),
    }
}

#[cycle(assigned)]
fn add_assigned_by_all<'a>(
    list: &mut Vec<Target<'a>>,
    body: &'a [Stmt<'a>],
) -> Result<(), AllocError>
    ensures { OnOk result (map plain_target list.new.items ≡ map plain_target list.old.items ++ assigned_by_all (plain_statements body.now)) }
{
    for stmt in body.iter() {
        add_assigned_targets(list, stmt)?;
    }
    Ok(())
}

#[cycle(assigned)]
fn add_assigned_by_arms<'a>(
    list: &mut Vec<Target<'a>>,
    arms: &'a [Arm<'a>],
) -> Result<(), AllocError>
    ensures { OnOk result (map plain_target list.new.items ≡ map plain_target list.old.items ++ assigned_by_arms (plain_arms arms.now)) }
{
    for arm in arms.iter() {
        add_assigned_targets(list, arm.body)?;
    }
    Ok(())
}

#[tactic(auto, unfolding(rr_syntax::specs::View::plain_identifier))]
fn push_name<'a>(list: &mut Vec<Named<'a>>, token: u32, name: &'a str) -> Result<(), AllocError>
    ensures { OnOk result (map plain_identifier list.new.items ≡ map plain_identifier list.old.items ++ named_by token name.now ∷ []) }
{
    list.push(Named { token, name })?;
    Ok(())
}

/// The names of an expression.
#[cycle(names)]
#[tactic(auto, using(crate::proofs::NamesOfNodes::name_nodes))]
pub fn add_names<'a>(list: &mut Vec<Named<'a>>, expr: &'a Expr<'a>) -> Result<(), AllocError>
    ensures { OnOk result (map plain_identifier list.new.items ≡ map plain_identifier list.old.items ++ names_in (plain expr.now)) }
{
    match expr {
        Expr::Literal { .. } => Ok(()),
        Expr::Name { token, name } => push_name(list, *token, name),
        Expr::Bit { token, name, index } => {
            push_name(list, *token, name)?;
            add_names(list, index)
        }
        Expr::Part {
            token,
            name,
            left: first,
            right: second,
        }
        | Expr::Indexed {
            token,
            name,
            from: first,
            width: second,
            ..
        } => {
            push_name(list, *token, name)?;
            add_names(list, first)?;
            add_names(list, second)
        }
        Expr::Unary { of, .. } | Expr::Cast { of, .. } | Expr::Paren { of } => add_names(list, of),
        Expr::Binary { left, right, .. } => {
            add_names(list, left)?;
            add_names(list, right)
        }
        Expr::Cond { test, yes, no } => {
            add_names(list, test)?;
            add_names(list, yes)?;
            add_names(list, no)
        }
        Expr::Concat { parts } => add_names_of_all(list, parts),
        Expr::Repeat { count, parts } => {
            add_names(list, count)?;
            add_names_of_all(list, parts)
        }
    }
}

#[cycle(names)]
fn add_names_of_all<'a>(list: &mut Vec<Named<'a>>, exprs: &'a [Expr<'a>]) -> Result<(), AllocError>
    ensures { OnOk result (map plain_identifier list.new.items ≡ map plain_identifier list.old.items ++ names_in_parts (plain_list exprs.now)) }
{
    for expr in exprs.iter() {
        add_names(list, expr)?;
    }
    Ok(())
}

/// The names of a statement.
#[cycle(named)]
#[tactic(auto, using(crate::proofs::NamesOfNodes::named_nodes))]
pub fn add_statement_names<'a>(
    list: &mut Vec<Named<'a>>,
    stmt: &'a Stmt<'a>,
) -> Result<(), AllocError>
    ensures { OnOk result (map plain_identifier list.new.items ≡ map plain_identifier list.old.items ++ names_of (plain_statement stmt.now)) }
{
    match stmt {
        Stmt::Null | Stmt::For { .. } => Ok(()),
        Stmt::Block { body, .. } => add_named_in_all(list, body),
        Stmt::If {
            test,
            yes,
            no: None,
        } => {
            add_names(list, test)?;
            add_statement_names(list, yes)
        }
        Stmt::If {
            test,
            yes,
            no: Some(other),
        } => {
            add_names(list, test)?;
            add_statement_names(list, yes)?;
            add_statement_names(list, other)
        }
        Stmt::Case { on, arms, .. } => {
            add_names(list, on)?;
            add_named_in_arms(list, arms)
        }
        Stmt::Assign { target, value, .. } => {
            add_names(list, target)?;
            add_names(list, value)
        }
    }
}

#[cycle(named)]
fn add_named_in_all<'a>(list: &mut Vec<Named<'a>>, body: &'a [Stmt<'a>]) -> Result<(), AllocError>
    ensures { OnOk result (map plain_identifier list.new.items ≡ map plain_identifier list.old.items ++ names_of_all (plain_statements body.now)) }
{
    for stmt in body.iter() {
        add_statement_names(list, stmt)?;
    }
    Ok(())
}

#[cycle(named)]
fn add_named_in_arms<'a>(list: &mut Vec<Named<'a>>, arms: &'a [Arm<'a>]) -> Result<(), AllocError>
    ensures { OnOk result (map plain_identifier list.new.items ≡ map plain_identifier list.old.items ++ names_of_arms (plain_arms arms.now)) }
{
    for arm in arms.iter() {
        add_names_of_all(list, arm.labels)?;
        add_statement_names(list, arm.body)?;
    }
    Ok(())
}

/// The names in the indices of a target.
#[cycle(indices)]
#[tactic(auto, using(crate::proofs::NamesOfNodes::index_nodes))]
fn add_index_names<'a>(list: &mut Vec<Named<'a>>, target: &'a Expr<'a>) -> Result<(), AllocError>
    ensures { OnOk result (map plain_identifier list.new.items ≡ map plain_identifier list.old.items ++ index_names (plain target.now)) }
{
    match target {
        Expr::Bit { index, .. } => add_names(list, index),
        Expr::Part { left, right, .. } => {
            add_names(list, left)?;
            add_names(list, right)
        }
        Expr::Indexed { from, width, .. } => {
            add_names(list, from)?;
            add_names(list, width)
        }
        Expr::Concat { parts } => add_index_names_of_all(list, parts),
        Expr::Name { .. }
        | Expr::Literal { .. }
        | Expr::Unary { .. }
        | Expr::Binary { .. }
        | Expr::Cond { .. }
        | Expr::Repeat { .. }
        | Expr::Cast { .. }
        | Expr::Paren { .. } => Ok(()),
    }
}

#[cycle(indices)]
fn add_index_names_of_all<'a>(
    list: &mut Vec<Named<'a>>,
    targets: &'a [Expr<'a>],
) -> Result<(), AllocError>
    ensures { OnOk result (map plain_identifier list.new.items ≡ map plain_identifier list.old.items ++ index_names_in (plain_list targets.now)) }
{
    for target in targets.iter() {
        add_index_names(list, target)?;
    }
    Ok(())
}

/// The names that a statement reads.
#[cycle(reading)]
#[tactic(auto, using(crate::proofs::NamesOfNodes::read_nodes))]
pub fn add_read_names<'a>(list: &mut Vec<Named<'a>>, stmt: &'a Stmt<'a>) -> Result<(), AllocError>
    ensures { OnOk result (map plain_identifier list.new.items ≡ map plain_identifier list.old.items ++ names_read (plain_statement stmt.now)) }
{
    match stmt {
        Stmt::Null | Stmt::For { .. } => Ok(()),
        Stmt::Block { body, .. } => add_read_by_all(list, body),
        Stmt::If {
            test,
            yes,
            no: None,
        } => {
            add_names(list, test)?;
            add_read_names(list, yes)
        }
        Stmt::If {
            test,
            yes,
            no: Some(other),
        } => {
            add_names(list, test)?;
            add_read_names(list, yes)?;
            add_read_names(list, other)
        }
        Stmt::Case { on, arms, .. } => {
            add_names(list, on)?;
            add_read_by_arms(list, arms)
        }
        Stmt::Assign { target, value, .. } => {
            add_index_names(list, target)?;
            add_names(list, value)
        }
    }
}

#[cycle(reading)]
fn add_read_by_all<'a>(list: &mut Vec<Named<'a>>, body: &'a [Stmt<'a>]) -> Result<(), AllocError>
    ensures { OnOk result (map plain_identifier list.new.items ≡ map plain_identifier list.old.items ++ names_read_by (plain_statements body.now)) }
{
    for stmt in body.iter() {
        add_read_names(list, stmt)?;
    }
    Ok(())
}

#[cycle(reading)]
fn add_read_by_arms<'a>(list: &mut Vec<Named<'a>>, arms: &'a [Arm<'a>]) -> Result<(), AllocError>
    ensures { OnOk result (map plain_identifier list.new.items ≡ map plain_identifier list.old.items ++ names_read_by_arms (plain_arms arms.now)) }
{
    for arm in arms.iter() {
        add_names_of_all(list, arm.labels)?;
        add_read_names(list, arm.body)?;
    }
    Ok(())
}
