//! Constant expressions in a turn of two loops (IEEE 1364-2005 sections 3.9 and 9.6).
use bumpalo::Bump;
use rr_bits::Bits;
use rr_expr::{Entity, ExprFault, Scope, constant};
use rr_lex::lex;
use rr_loop_names::{
    TurnName, put, put_all, put_laws, put_meaning, put_target, put_targets, stay_laws, target_laws,
};
use rr_parse_expr::expr;
use rr_syntax::Expr;
use std::alloc::{AllocError, Global};
use std::test::Fail;

/// The outer loop has 7, a loop inside it -1 and one inside both 2; the name of the first is used again by
/// the last.
const TURN: [TurnName<'static>; 3] = [
    TurnName {
        name: "i",
        value: 7,
    },
    TurnName {
        name: "j",
        value: 4294967295,
    },
    TurnName {
        name: "i",
        value: 2,
    },
];

/// The integers of the loops, a vector and a parameter of four bits, which is 9.
fn names(alloc: Global) -> Result<Scope<'static>, AllocError> {
    let mut scope = Scope::new(alloc);
    let parts = [("i", 0, 31, true), ("j", 1, 31, true), ("a", 2, 7, false)];
    for (name, id, left, signed) in parts {
        scope.add(
            name,
            Entity::Signal {
                id,
                range: Some((left, 0)),
                signed,
            },
        )?;
    }
    let bits = Bits::from_u128(4, 9);
    let signed = false;
    scope.add("P", Entity::Constant { bits, signed })?;
    Ok(scope)
}

/// The expression that a text begins with.
fn expr_of<'a>(text: &str, arena: &'a Bump) -> Result<&'a Expr<'a>, Fail> {
    if text.len() > 1_000_000 {
        return Err(Fail::from("a text too long"));
    }
    match lex(text.as_bytes(), arena) {
        Err(_) => Err(Fail::from("no tokens")),
        Ok(tokens) => match expr(tokens, 0, arena) {
            Err(_) => Err(Fail::from("no expression")),
            Ok((tree, _)) => Ok(tree),
        },
    }
}

/// The value of a constant expression in the turn, with its sign, or its first fault.
fn in_turn(
    alloc: Global,
    text: &str,
    arena: &Bump,
) -> Result<Result<(u128, bool), ExprFault>, Fail> {
    let tree = expr_of(text, arena)?;
    let scope = names(alloc)?;
    let whole = put(tree, &TURN, arena)?;
    match constant(&whole, &scope) {
        Ok((bits, signed)) => Ok(Ok((bits.to_u128(), signed))),
        Err(fault) => Ok(Err(fault)),
    }
}

#[test]
fn values_in_a_turn(rt: HostRuntime) -> Result<(), Fail> {
    let arena = Bump::new(rt.alloc());
    let cases = [
        // The innermost loop of a name counts, and names are signed.
        ("i", 2, true),
        ("j", 4294967295, true),
        ("j < 0", 1, false),
        ("i + P", 11, false),
        ("-i * 3", 4294967290, true),
        ("j >>> 1", 4294967295, true),
        ("(i == 2) ? j : P", 4294967295, false),
        ("{i, P}", 41, false),
        ("{2{P}}", 153, false),
        ("$unsigned(j) > 0", 1, false),
        ("P[i]", 0, false),
        ("P[i + 1 : i]", 2, false),
        ("P[i +: 2]", 2, false),
    ];
    for (text, value, signed) in cases {
        let found = in_turn(rt.alloc(), text, &arena)?;
        assert!(rt; found == Ok((value, signed)));
    }
    // What is selected from stays, as does each other name.
    let kept = [
        ("i[0]", ExprFault::NotConstant(0)),
        ("i + a", ExprFault::NotConstant(2)),
        ("a[i]", ExprFault::NotConstant(0)),
        ("k", ExprFault::UnknownName(0)),
    ];
    for (text, fault) in kept {
        let found = in_turn(rt.alloc(), text, &arena)?;
        assert!(rt; found == Err(fault));
    }
    Ok(())
}

/// What a target assigns by itself and by a name of a loop, and the value of its index.
fn aimed(alloc: Global, text: &str, arena: &Bump) -> Result<(bool, bool, Option<u128>), Fail> {
    let tree = expr_of(text, arena)?;
    let scope = names(alloc)?;
    let whole = put_target(tree, &TURN, arena)?;
    let index = match whole {
        Expr::Bit { index, .. } => match constant(index, &scope) {
            Ok((bits, _)) => Some(bits.to_u128()),
            Err(_) => None,
        },
        _ => None,
    };
    let named = matches!(whole, Expr::Name { .. });
    let parts = matches!(whole, Expr::Concat { .. });
    Ok((named, parts, index))
}

#[test]
fn targets_in_a_turn(rt: HostRuntime) -> Result<(), Fail> {
    // The laws hold also where nothing is asked of them.
    put_meaning();
    put_laws();
    target_laws();
    stay_laws();
    let arena = Bump::new(rt.alloc());
    assert!(rt; aimed(rt.alloc(), "i", &arena)? == (true, false, None));
    assert!(rt; aimed(rt.alloc(), "a[i + 1]", &arena)? == (false, false, Some(3)));
    assert!(rt; aimed(rt.alloc(), "{i, a[i]}", &arena)? == (false, true, None));
    let tree = *expr_of("{i, j}", &arena)?;
    if let Expr::Concat { parts } = tree {
        let whole = put_all(parts, &TURN, &arena)?;
        assert!(rt; whole.len() == 2);
        assert!(rt; matches!(whole[0], Expr::Literal { .. }));
        let kept = put_targets(parts, &TURN, &arena)?;
        assert!(rt; kept.len() == 2);
        assert!(rt; matches!(kept[1], Expr::Name { .. }));
    }
    Ok(())
}
