//! The literals of a statement in the order of its text.
use rr_syntax::{Arm, Expr, Stmt};
use std::alloc::{AllocError, Global};

fn add(value: u128, out: &mut Vec<u128, Global>) -> Result<(), AllocError> {
    out.push(value)?;
    Ok(())
}

#[cycle(expressions)]
fn add_of_expression(expr: &Expr, out: &mut Vec<u128, Global>) -> Result<(), AllocError> {
    match expr {
        Expr::Name { .. } => Ok(()),
        Expr::Literal { number, .. } => add(number.value, out),
        Expr::Bit { index, .. } => add_of_expression(index, out),
        Expr::Part { left, right, .. } => {
            add_of_expression(left, out)?;
            add_of_expression(right, out)
        }
        Expr::Indexed { from, width, .. } => {
            add_of_expression(from, out)?;
            add_of_expression(width, out)
        }
        Expr::Unary { of, .. } => add_of_expression(of, out),
        Expr::Binary { left, right, .. } => {
            add_of_expression(left, out)?;
            add_of_expression(right, out)
        }
        Expr::Cond { test, yes, no } => {
            add_of_expression(test, out)?;
            add_of_expression(yes, out)?;
            add_of_expression(no, out)
        }
        Expr::Concat { parts } => add_of_expressions(parts, out),
        Expr::Repeat { count, parts } => {
            add_of_expression(count, out)?;
            add_of_expressions(parts, out)
        }
        Expr::Cast { of, .. } => add_of_expression(of, out),
        Expr::Paren { of } => add_of_expression(of, out),
    }
}

#[cycle(expressions)]
fn add_of_expressions(list: &[Expr], out: &mut Vec<u128, Global>) -> Result<(), AllocError> {
    for expr in list.iter() {
        add_of_expression(expr, out)?;
    }
    Ok(())
}

/// Adds them; those of a loop's head are left out.
#[cycle(statements)]
pub(crate) fn add_literals(stmt: &Stmt, out: &mut Vec<u128, Global>) -> Result<(), AllocError> {
    match stmt {
        Stmt::Null => Ok(()),
        Stmt::Block { body, .. } => add_of_statements(body, out),
        Stmt::If {
            test,
            yes,
            no: None,
        } => {
            add_of_expression(test, out)?;
            add_literals(yes, out)
        }
        Stmt::If {
            test,
            yes,
            no: Some(other),
        } => {
            add_of_expression(test, out)?;
            add_literals(yes, out)?;
            add_literals(other, out)
        }
        Stmt::Case { on, arms, .. } => {
            add_of_expression(on, out)?;
            add_of_arms(arms, out)
        }
        Stmt::Assign { target, value, .. } => {
            add_of_expression(target, out)?;
            add_of_expression(value, out)
        }
        Stmt::For { body, .. } => add_literals(body, out),
    }
}

#[cycle(statements)]
fn add_of_statements(body: &[Stmt], out: &mut Vec<u128, Global>) -> Result<(), AllocError> {
    for stmt in body.iter() {
        add_literals(stmt, out)?;
    }
    Ok(())
}

#[cycle(statements)]
fn add_of_arms(arms: &[Arm], out: &mut Vec<u128, Global>) -> Result<(), AllocError> {
    for arm in arms.iter() {
        add_of_expressions(arm.labels, out)?;
        add_literals(arm.body, out)?;
    }
    Ok(())
}
