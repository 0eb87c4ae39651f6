//! Tokens by offset, measures of expressions, and targets.

ghost use Rattle.std.specs.Prelude.{◌+◌, ◌*◌, ◌≤◌, length};
ghost use Rattle.rr_syntax.specs.Expressions.{depth as depth_tree, spell};
ghost use Rattle.rr_syntax.specs.View.{plain};

use rr_syntax::{
    Expr, Kind, Mark, Span, Token, expression_depth, expression_len, is_target, token_at,
};

fn comma(start: u32, end: u32) -> Token<'static> {
    Token {
        kind: Kind::Mark(Mark::COMMA),
        span: Span { start, end },
    }
}

fn start_at(tokens: &[Token], offset: u32) -> Option<u32> {
    token_at(tokens, offset).map(|token| token.span.start)
}

/// Offsets with the start of the token that is there.
const STARTS: [(u32, Option<u32>); 8] = [
    (0, None),
    (1, Some(1)),
    (3, Some(1)),
    (4, Some(3)),
    (5, Some(3)),
    (6, Some(3)),
    (8, Some(6)),
    (9, None),
];

// Spans of no bytes hold nothing, and of two that hold a byte the first is taken.
#[test]
fn tokens_by_offset(rt: HostRuntime) {
    let tokens = [comma(1, 4), comma(5, 5), comma(3, 7), comma(6, 9)];
    for (offset, start) in STARTS.iter() {
        assert!(rt; start_at(&tokens, *offset) == *start, "at {offset}");
    }
    assert!(rt; start_at(&[], 0) == None);
}

// The measures of the expression in as many brackets.
#[tactic(auto, using(rr_syntax::proofs::Lengths::sizes, rr_syntax::proofs::Depths::depths))]
fn measure_brackets(expr: &Expr, brackets: u32) -> (u64, u32)
    requires short { length (spell (plain expr.now)) + 2 * brackets ≤ 4000 }
    requires shallow { depth_tree (plain expr.now) + brackets ≤ 4000 }
{
    if brackets > 0 {
        measure_brackets(&Expr::Paren { of: &*expr }, brackets - 1)
    } else {
        (expression_len(&*expr), expression_depth(&*expr))
    }
}

#[test]
#[tactic(auto, using(rr_syntax::proofs::Lengths::sizes, rr_syntax::proofs::Depths::depths))]
fn deep_expression(rt: HostRuntime) {
    let name = Expr::Name {
        token: 500,
        name: "b",
    };
    assert!(rt; measure_brackets(&name, 500) == (1001, 500));
}

const NAME: Expr<'static> = Expr::Name {
    token: 1,
    name: "a",
};

/// `{b[a], a}`
const TARGETS: Expr<'static> = Expr::Concat {
    parts: &[
        Expr::Bit {
            token: 3,
            name: "b",
            index: &NAME,
        },
        NAME,
    ],
};

/// `{a, +a}`
const VALUES: Expr<'static> = Expr::Concat {
    parts: &[
        NAME,
        Expr::Unary {
            op: Mark::PLUS,
            of: &NAME,
        },
    ],
};

// Names and their selects may be assigned, in braces too, and no value may.
#[test]
fn what_may_be_assigned(rt: HostRuntime) {
    assert!(rt;
        is_target(&NAME)
            && is_target(&TARGETS)
            && !is_target(&VALUES)
            && !is_target(&Expr::Paren { of: &NAME })
    );
}
