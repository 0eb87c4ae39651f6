//! One site of each kind, in each of its forms.
use bumpalo::Bump;
use rr_guard::guarded;
use rr_literal::replaced;
use rr_overwrite::wrapped;
use rr_syntax::{Expr, Mark, Number, Site, SiteKind, Stmt};
use std::test::Fail;

/// What stands at the two sides of an operator: a condition in brackets, and a name behind the operator,
/// negated or not; `!` alone has no second side.
#[derive(Clone, Copy, Debug, PartialEq, Eq)]
struct Form<'a> {
    mark: Mark,
    test: &'a str,
    second: Option<(bool, &'a str)>,
}

fn name_of<'a>(expr: &Expr<'a>) -> Option<&'a str> {
    match expr {
        Expr::Name { name, .. } => Some(*name),
        _ => None,
    }
}

fn in_brackets<'a>(expr: &Expr<'a>) -> Option<&'a str> {
    match expr {
        Expr::Paren { of } => name_of(of),
        _ => None,
    }
}

/// A name or its negation.
fn second_of<'a>(expr: &Expr<'a>) -> Option<(bool, &'a str)> {
    match expr {
        Expr::Unary { op, of } => {
            if *op == Mark::NOT {
                Some((true, name_of(of)?))
            } else {
                None
            }
        }
        other => Some((false, name_of(other)?)),
    }
}

fn form_of<'a>(expr: &Expr<'a>) -> Option<Form<'a>> {
    match expr {
        Expr::Unary { op, of } => Some(Form {
            mark: *op,
            test: in_brackets(of)?,
            second: None,
        }),
        Expr::Binary { op, left, right } => Some(Form {
            mark: *op,
            test: in_brackets(left)?,
            second: Some(second_of(right)?),
        }),
        _ => None,
    }
}

fn number_of(expr: &Expr) -> Option<(u32, Number)> {
    match expr {
        Expr::Literal { token, number } => Some((*token, *number)),
        _ => None,
    }
}

#[test]
fn literals(rt: HostRuntime) -> Result<(), Fail> {
    let site = Site {
        kind: SiteKind::Literal {
            width: 4,
            signed: true,
        },
        token: 7,
    };
    let number = Number {
        width: 4,
        signed: true,
        value: 9,
        any: 0,
        unknown: 0,
    };
    assert!(rt; number_of(&replaced(&site, 9)) == Some((u32::MAX, number)));
    Ok(())
}

#[test]
fn guards(rt: HostRuntime) -> Result<(), Fail> {
    let arena = Bump::new(rt.alloc());
    let test = Expr::Name {
        token: 3,
        name: "a",
    };
    let site = Site {
        kind: SiteKind::Guard {
            module: 0,
            extent: 1,
            names: &["s", "t"],
        },
        token: 3,
    };
    let not = guarded(&test, &site, 0, 1, &arena)?;
    assert!(rt;
        form_of(not)
            == Some(Form {
                mark: Mark::NOT,
                test: "a",
                second: None
            })
    );
    let and = guarded(&test, &site, 1, 0, &arena)?;
    assert!(rt;
        form_of(and)
            == Some(Form {
                mark: Mark::LOGICAL_AND,
                test: "a",
                second: Some((false, "s"))
            })
    );
    let and_not = guarded(&test, &site, 2, 1, &arena)?;
    assert!(rt;
        form_of(and_not)
            == Some(Form {
                mark: Mark::LOGICAL_AND,
                test: "a",
                second: Some((true, "t"))
            })
    );
    let or = guarded(&test, &site, 3, 1, &arena)?;
    assert!(rt;
        form_of(or)
            == Some(Form {
                mark: Mark::LOGICAL_OR,
                test: "a",
                second: Some((false, "t"))
            })
    );
    let or_not = guarded(&test, &site, 4, 0, &arena)?;
    assert!(rt;
        form_of(or_not)
            == Some(Form {
                mark: Mark::LOGICAL_OR,
                test: "a",
                second: Some((true, "s"))
            })
    );
    Ok(())
}

/// The first statement of a block of two, and of the second, an `if`, the condition, the target, whether it is
/// written by `=`, and the number.
fn last_of<'a>(stmt: &Stmt<'a>) -> Option<(Stmt<'a>, Expr<'a>, &'a str, bool, Number)> {
    let Stmt::Block { body, .. } = stmt else {
        return None;
    };
    let first = body.get(0)?;
    let second = body.get(1)?;
    let Stmt::If { test, yes, .. } = second else {
        return None;
    };
    let Stmt::Assign { target, now, value } = yes else {
        return None;
    };
    Some((*first, **test, name_of(target)?, *now, number_of(value)?.1))
}

#[test]
fn overwrites(rt: HostRuntime) -> Result<(), Fail> {
    let arena = Bump::new(rt.alloc());
    let body = Stmt::Null;
    let site = Site {
        kind: SiteKind::Overwrite {
            module: 0,
            target: "q",
            width: 4,
            now: false,
            names: &["s", "t"],
        },
        token: 3,
    };
    let number = Number {
        width: 4,
        signed: false,
        value: 5,
        any: 0,
        unknown: 0,
    };
    let always = wrapped(&body, &site, 5, 0, 0, &arena)?;
    let Some((first, test, target, now, value)) = last_of(always) else {
        return Err(Fail::from("no last assignment"));
    };
    assert!(rt; matches!(first, Stmt::Null) && target == "q" && !now && value == number);
    assert!(rt;
        number_of(&test)
            == Some((
                u32::MAX,
                Number {
                    width: 1,
                    signed: false,
                    value: 1,
                    any: 0,
                    unknown: 0
                }
            ))
    );
    let under = wrapped(&body, &site, 5, 1, 1, &arena)?;
    assert!(rt; last_of(under).map(|last| second_of(&last.1)) == Some(Some((false, "t"))));
    let under_not = wrapped(&body, &site, 5, 2, 0, &arena)?;
    assert!(rt; last_of(under_not).map(|last| second_of(&last.1)) == Some(Some((true, "s"))));
    Ok(())
}
