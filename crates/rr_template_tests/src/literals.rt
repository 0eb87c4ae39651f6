//! The literal sites of two modules, and of a loop.
use rr_literal::sites;
use rr_syntax::{
    Events, Expr, Head, Item, Mark, Module, ModulePlace, Number, Pair, SiteKind, Stmt,
};
use std::test::Fail;

const TARGET: Expr = Expr::Name {
    token: 5,
    name: "y",
};

/// `4'd3`
const KNOWN: Expr = Expr::Literal {
    token: 7,
    number: Number {
        width: 4,
        signed: false,
        value: 3,
        any: 0,
        unknown: 0,
    },
};

/// `2'sb1x`
const WILD: Expr = Expr::Literal {
    token: 9,
    number: Number {
        width: 2,
        signed: true,
        value: 2,
        any: 0,
        unknown: 1,
    },
};

/// `4'd1`
const ONE: Expr = Expr::Literal {
    token: 21,
    number: Number {
        width: 4,
        signed: false,
        value: 1,
        any: 0,
        unknown: 0,
    },
};

/// `4'd3 | 2'sb1x`
const EITHER: Expr = Expr::Binary {
    op: Mark::OR,
    left: &KNOWN,
    right: &WILD,
};

/// `assign y = 4'd3 | 2'sb1x;`
const FOUND: [Item; 1] = [Item::Assigns {
    pairs: &[Pair {
        target: &TARGET,
        value: &EITHER,
    }],
}];

/// `assign y = y;`
const NONE: [Item; 1] = [Item::Assigns {
    pairs: &[Pair {
        target: &TARGET,
        value: &TARGET,
    }],
}];

const WITH: Module = Module {
    name: "m",
    token: 1,
    params: &[],
    header: None,
    groups: &[],
    items: &FOUND,
};

const WITHOUT: Module = Module {
    name: "m",
    token: 1,
    params: &[],
    header: None,
    groups: &[],
    items: &NONE,
};

const PLACE: ModulePlace = ModulePlace {
    module: 0,
    clocks: &[],
};

#[test]
fn literal_sites(rt: HostRuntime) -> Result<(), Fail> {
    let found = sites(rt.alloc(), &WITH, &PLACE)?;
    assert!(rt; found.len() == 1 && found[0].token == 7);
    assert!(rt;
        matches!(
            found[0].kind,
            SiteKind::Literal {
                width: 4,
                signed: false
            }
        )
    );
    let found = sites(rt.alloc(), &WITHOUT, &PLACE)?;
    assert!(rt; found.is_empty());
    Ok(())
}

/// `y = 4'd1;`
const BODY: Stmt = Stmt::Assign {
    target: &TARGET,
    now: true,
    value: &ONE,
};

/// `for (i = 4'd3; 4'd3; i = 4'd3) y = 4'd1;`
const TURNS: Stmt = Stmt::For {
    head: Head {
        token: 5,
        name: "i",
        start: &KNOWN,
        test: &KNOWN,
        step_token: 11,
        step_name: "i",
        step: &KNOWN,
    },
    body: &BODY,
};

/// `always @*` with that loop.
const LOOPS: [Item; 1] = [Item::Always {
    events: Events::Star { brackets: false },
    body: &TURNS,
    token: 0,
}];

const WITH_LOOP: Module = Module {
    name: "m",
    token: 1,
    params: &[],
    header: None,
    groups: &[],
    items: &LOOPS,
};

/// Of the literals of a loop that of the body alone is a site.
#[test]
fn literal_sites_in_a_loop(rt: HostRuntime) -> Result<(), Fail> {
    let found = sites(rt.alloc(), &WITH_LOOP, &PLACE)?;
    assert!(rt; found.len() == 1 && found[0].token == 21);
    Ok(())
}
