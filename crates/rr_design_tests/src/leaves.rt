//! Names and literals of statements as text: the number of its token for each name, and for each literal
//! that and its value.
use rr_syntax::{Arm, Expr, Stmt};
use std::alloc::AllocError;

#[cycle(expressions)]
fn expression_told(text: &mut String, expr: &Expr) -> Result<(), AllocError> {
    match expr {
        Expr::Name { token, .. } => write!(text, "{token} "),
        Expr::Literal { token, number } => {
            let value = number.value;
            write!(text, "{token}={value} ")
        }
        Expr::Bit { token, index, .. } => {
            write!(text, "{token} ")?;
            expression_told(text, index)
        }
        Expr::Part {
            token,
            left,
            right,
            ..
        } => {
            write!(text, "{token} ")?;
            expression_told(text, left)?;
            expression_told(text, right)
        }
        Expr::Indexed {
            token,
            from,
            width,
            ..
        } => {
            write!(text, "{token} ")?;
            expression_told(text, from)?;
            expression_told(text, width)
        }
        Expr::Unary { of, .. } => expression_told(text, of),
        Expr::Binary { left, right, .. } => {
            expression_told(text, left)?;
            expression_told(text, right)
        }
        Expr::Cond { test, yes, no } => {
            expression_told(text, test)?;
            expression_told(text, yes)?;
            expression_told(text, no)
        }
        Expr::Concat { parts } => expressions_told(text, parts),
        Expr::Repeat { count, parts } => {
            expression_told(text, count)?;
            expressions_told(text, parts)
        }
        Expr::Cast { of, .. } => expression_told(text, of),
        Expr::Paren { of } => expression_told(text, of),
    }
}

#[cycle(expressions)]
fn expressions_told(text: &mut String, list: &[Expr]) -> Result<(), AllocError> {
    for expr in list.iter() {
        expression_told(text, expr)?;
    }
    Ok(())
}

/// Adds them, in their order. A loop is told as `for`: no flat design has one.
#[cycle(statements)]
pub(crate) fn statement_told(text: &mut String, stmt: &Stmt) -> Result<(), AllocError> {
    match stmt {
        Stmt::Null => Ok(()),
        Stmt::Block { body, .. } => statements_told(text, body),
        Stmt::If {
            test,
            yes,
            no: None,
        } => {
            expression_told(text, test)?;
            statement_told(text, yes)
        }
        Stmt::If {
            test,
            yes,
            no: Some(other),
        } => {
            expression_told(text, test)?;
            statement_told(text, yes)?;
            statement_told(text, other)
        }
        Stmt::Case { on, arms, .. } => {
            expression_told(text, on)?;
            arms_told(text, arms)
        }
        Stmt::Assign { target, value, .. } => {
            expression_told(text, target)?;
            expression_told(text, value)
        }
        Stmt::For { .. } => write!(text, "for "),
    }
}

#[cycle(statements)]
fn statements_told(text: &mut String, body: &[Stmt]) -> Result<(), AllocError> {
    for stmt in body.iter() {
        statement_told(text, stmt)?;
    }
    Ok(())
}

#[cycle(statements)]
fn arms_told(text: &mut String, arms: &[Arm]) -> Result<(), AllocError> {
    for arm in arms.iter() {
        expressions_told(text, arm.labels)?;
        statement_told(text, arm.body)?;
    }
    Ok(())
}
