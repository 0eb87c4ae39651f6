//! The parts of a flat design, and the targets and names of a statement in the order of its text.
use crate::texts::design_of;
use bumpalo::Bump;
use rr_flat::{Part, is_constant};
use rr_syntax::{Expr, Number, Stmt};
use rr_text_names::{
    add_assigned_targets, add_names, add_parts, add_read_names, add_statement_names, identifier_of,
    instance_of, is_fixed, is_input, is_scalar, is_variable, scalar_named, signal_of,
    variable_named,
};
use std::test::Fail;

/// `{b, c[d]}`
const TARGET: Expr<'static> = Expr::Concat {
    parts: &[
        name!(5, "b"),
        Expr::Bit {
            token: 7,
            name: "c",
            index: &name!(9, "d"),
        },
    ],
};

/// `if (a) {b, c[d]} = e; else b <= c;`
const CHOICE: Stmt<'static> = Stmt::If {
    test: &name!(2, "a"),
    yes: &Stmt::Assign {
        target: &TARGET,
        now: true,
        value: &name!(13, "e"),
    },
    no: Some(&Stmt::Assign {
        target: &name!(16, "b"),
        now: false,
        value: &name!(18, "c"),
    }),
};

#[test]
fn targets(rt: HostRuntime) -> Result<(), Fail> {
    let alloc = rt.alloc();
    let mut parts = Vec::new(alloc);
    add_parts(&mut parts, &TARGET, false)?;
    assert!(rt; parts.len() == 2 && !parts[1].blocking);
    let mut targets = Vec::new(alloc);
    add_assigned_targets(&mut targets, &CHOICE)?;
    assert!(rt;
        targets.len() == 3 && targets[0].blocking && targets[1].blocking && !targets[2].blocking
    );
    Ok(())
}

#[test]
fn names(rt: HostRuntime) -> Result<(), Fail> {
    let alloc = rt.alloc();
    let mut within = Vec::new(alloc);
    add_names(&mut within, &TARGET)?;
    assert!(rt; within.len() == 3 && within[2].token == 9);
    let mut named = Vec::new(alloc);
    add_statement_names(&mut named, &CHOICE)?;
    assert!(rt; named.len() == 7 && named[0].token == 2 && named[6].token == 18);
    let mut read = Vec::new(alloc);
    add_read_names(&mut read, &CHOICE)?;
    assert!(rt; read.len() == 4 && read[1].token == 9 && read[3].token == 18);
    Ok(())
}

const ONE: Expr<'static> = Expr::Literal {
    token: 0,
    number: Number {
        width: 32,
        signed: true,
        value: 1,
        any: 0,
        unknown: 0,
    },
};

const DESIGN: &str =
    "module m(input c, input d, output y); reg [1:0] q; assign y = d; always @(posedge c) q <= d; endmodule";

#[test]
fn parts_of_a_design(rt: HostRuntime) {
    let arena = Bump::new(rt.alloc());
    let found = design_of(rt.alloc(), DESIGN, None, &arena);
    assert!(rt; found.is_ok());
    if let Ok(design) = found {
        let flat = &design.flat;
        assert!(rt;
            flat.parts().len() == 2
                && flat.driver_list().len() == 1
                && flat.clocked_blocks().len() == 1
                && flat.input_list().len() == 2
        );
        assert!(rt;
            flat.combinational_blocks().is_empty()
                && flat.driver_of(Part::Driver(0)).is_some()
                && flat.driver_of(Part::Clocked(0)).is_none()
                && flat.block_of(Part::Clocked(0)).is_some()
        );
        assert!(rt;
            flat.block_of(Part::Combinational(0)).is_none()
                && flat.driver(0).is_some()
                && flat.driver(1).is_none()
                && flat.clocked_block(0).is_some()
        );
        assert!(rt;
            flat.combinational_block(0).is_none()
                && flat.signal(3).is_some()
                && flat.signal(4).is_none()
        );
    }
}

#[test]
fn signals_of_a_design(rt: HostRuntime) {
    let arena = Bump::new(rt.alloc());
    let found = design_of(rt.alloc(), DESIGN, None, &arena);
    assert!(rt; found.is_ok());
    if let Ok(design) = found {
        let flat = &design.flat;
        assert!(rt;
            flat.signal_count() == 4
                && flat.signal_list().len() == 4
                && variable_named(flat, 0, "q") == Some(3)
                && variable_named(flat, 0, "t") == None
        );
        assert!(rt;
            variable_named(flat, 1, "q") == None
                && scalar_named(flat, 0, "d") == Some(1)
                && scalar_named(flat, 0, "q") == None
                && is_variable(flat, 3)
        );
        assert!(rt;
            !is_variable(flat, 2) && is_input(flat, 1) && !is_input(flat, 2) && is_scalar(flat, 2)
        );
        assert!(rt; !is_scalar(flat, 3) && instance_of(flat, 3) == 0);
    }
}

/// Names, and indices that are constant or not.
#[test]
fn names_in_a_scope(rt: HostRuntime) {
    let arena = Bump::new(rt.alloc());
    let found = design_of(rt.alloc(), DESIGN, None, &arena);
    assert!(rt; found.is_ok());
    if let Ok(design) = found {
        let flat = &design.flat;
        assert!(rt; flat.scope(1).is_none());
        if let Some(scope) = flat.scope(0) {
            assert!(rt;
                signal_of(scope.find("y")) == Some(2)
                    && is_constant(&ONE, scope)
                    && !is_constant(&name!(0, "d"), scope)
            );
            let bit = Expr::Bit {
                token: 5,
                name: "q",
                index: &name!(7, "d"),
            };
            assert!(rt;
                !is_fixed(&bit, scope)
                    && is_fixed(&name!(0, "q"), scope)
                    && identifier_of(&bit).token == 5
            );
        }
    }
}

const STARTED: &str =
    "module m(output reg [3:0] y = 4'd9, output z); reg q; initial q = 1'b1; assign z = q; endmodule";

/// Starting values, and an `initial` item.
#[test]
fn starts_of_a_design(rt: HostRuntime) {
    let arena = Bump::new(rt.alloc());
    let found = design_of(rt.alloc(), STARTED, None, &arena);
    assert!(rt; found.is_ok());
    if let Ok(design) = found {
        let flat = &design.flat;
        assert!(rt;
            flat.start_list() == [9, 0, 1].as_slice()
                && flat.initial_list().len() == 1
                && flat.initial(0).is_some()
                && flat.initial(1).is_none()
        );
        assert!(rt;
            flat.initial_of(Part::Initial(0)).is_some()
                && flat.initial_of(Part::Driver(0)).is_none()
                && flat.block_of(Part::Initial(0)).is_none()
                && flat.driver_of(Part::Initial(0)).is_none()
        );
    }
}
