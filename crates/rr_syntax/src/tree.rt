//! The syntax trees of the profile (IEEE 1364-2005 annex A), in an arena that stands outside.

use crate::token::{Keyword, Mark, Number};

/// A name and the number of its token (IEEE 1364-2005 section 3.7).
#[derive(Clone, Copy)]
pub struct Named<'a> {
    pub token: u32,
    pub name: &'a str,
}

/// `[left:right]` (annex A.2.5).
#[derive(Clone, Copy)]
pub struct Bounds<'a> {
    pub left: &'a Expr<'a>,
    pub right: &'a Expr<'a>,
}

/// An expression (section 5, annex A.8). Each leaf has the number of its token, counted from 0; a
/// leaf that no source spells has `u32::MAX`. `up` is true for `+:`, and brackets are nodes.
#[derive(Clone, Copy)]
pub enum Expr<'a> {
    Name {
        token: u32,
        name: &'a str,
    },
    Literal {
        token: u32,
        number: Number,
    },
    Bit {
        token: u32,
        name: &'a str,
        index: &'a Expr<'a>,
    },
    Part {
        token: u32,
        name: &'a str,
        left: &'a Expr<'a>,
        right: &'a Expr<'a>,
    },
    Indexed {
        token: u32,
        name: &'a str,
        from: &'a Expr<'a>,
        width: &'a Expr<'a>,
        up: bool,
    },
    Unary {
        op: Mark,
        of: &'a Expr<'a>,
    },
    Binary {
        op: Mark,
        left: &'a Expr<'a>,
        right: &'a Expr<'a>,
    },
    Cond {
        test: &'a Expr<'a>,
        yes: &'a Expr<'a>,
        no: &'a Expr<'a>,
    },
    Concat {
        parts: &'a [Expr<'a>],
    },
    Repeat {
        count: &'a Expr<'a>,
        parts: &'a [Expr<'a>],
    },
    Cast {
        signed: bool,
        of: &'a Expr<'a>,
    },
    Paren {
        of: &'a Expr<'a>,
    },
}

/// `(name = start; test; step_name = step)` of a loop (section 9.6), with the tokens of its two names.
#[derive(Clone, Copy)]
pub struct Head<'a> {
    pub token: u32,
    pub name: &'a str,
    pub start: &'a Expr<'a>,
    pub test: &'a Expr<'a>,
    pub step_token: u32,
    pub step_name: &'a str,
    pub step: &'a Expr<'a>,
}

/// A statement (section 9, annex A.6). `kind` is `case`, `casez` or `casex`; `now` is true for `=`,
/// false for `<=`, and a target is a name, a select of one, or targets in braces.
#[cycle(statements)]
#[derive(Clone, Copy)]
pub enum Stmt<'a> {
    Null,
    Block {
        label: Option<Named<'a>>,
        body: &'a [Stmt<'a>],
    },
    If {
        test: &'a Expr<'a>,
        yes: &'a Stmt<'a>,
        no: Option<&'a Stmt<'a>>,
    },
    Case {
        kind: Keyword,
        on: &'a Expr<'a>,
        arms: &'a [Arm<'a>],
    },
    Assign {
        target: &'a Expr<'a>,
        now: bool,
        value: &'a Expr<'a>,
    },
    For {
        head: Head<'a>,
        body: &'a Stmt<'a>,
    },
}

/// An arm of a `case` (section 9.5). A default arm has no labels, and `colon` says whether its word
/// is followed by one; with labels `colon` is true.
#[cycle(statements)]
#[derive(Clone, Copy)]
pub struct Arm<'a> {
    pub labels: &'a [Expr<'a>],
    pub colon: bool,
    pub body: &'a Stmt<'a>,
}

/// The direction and kind of a port (section 12.3.3).
#[derive(Clone, Copy, Debug, PartialEq, Eq)]
pub enum Dir {
    Input,
    InputWire,
    Output,
    OutputWire,
    OutputReg,
}

/// A declared net and its driver, or a declared variable and its starting value, where the
/// declaration gives one (sections 6.1.1 and 6.2.1). A memory has the bounds of its words' indices
/// (section 4.9.3) and no starting value; nets and ports have no `words`.
#[derive(Clone, Copy)]
pub struct Declarator<'a> {
    pub token: u32,
    pub name: &'a str,
    pub words: Option<Bounds<'a>>,
    pub value: Option<&'a Expr<'a>>,
}

/// Ports that are declared together (annex A.2.1.2); `names` is not empty, and those of an `output
/// reg` alone have starting values.
#[derive(Clone, Copy)]
pub struct Group<'a> {
    pub dir: Dir,
    pub signed: bool,
    pub range: Option<Bounds<'a>>,
    pub names: &'a [Declarator<'a>],
}

/// A parameter and its value (annex A.2.4).
#[derive(Clone, Copy)]
pub struct Setting<'a> {
    pub token: u32,
    pub name: &'a str,
    pub value: &'a Expr<'a>,
}

/// Parameters that are declared together (section 12.2, annex A.2.1.1), by `localparam` where `local`.
/// An `integer` one has no range and no `signed`; `sets` is not empty.
#[derive(Clone, Copy)]
pub struct Params<'a> {
    pub local: bool,
    pub integer: bool,
    pub signed: bool,
    pub range: Option<Bounds<'a>>,
    pub sets: &'a [Setting<'a>],
}

/// A target and what drives it (section 6.1, annex A.6.1).
#[derive(Clone, Copy)]
pub struct Pair<'a> {
    pub target: &'a Expr<'a>,
    pub value: &'a Expr<'a>,
}

/// `posedge` where `rising`, else `negedge`, and a name with the number of its token (section 9.7.2).
#[derive(Clone, Copy)]
pub struct Event<'a> {
    pub rising: bool,
    pub name: &'a str,
    pub token: u32,
}

/// What stands behind `@` (sections 9.7.3 to 9.7.5): `*`, or a list that is not empty. `commas` has
/// an entry for each separator of the list, true for a comma and false for `or`.
#[derive(Clone, Copy)]
pub enum Events<'a> {
    Star {
        brackets: bool,
    },
    Edges {
        list: &'a [Event<'a>],
        commas: &'a [bool],
    },
    Levels {
        list: &'a [Expr<'a>],
        commas: &'a [bool],
    },
}

/// `.name(value)` (section 12.3.6); the token is the name's.
#[derive(Clone, Copy)]
pub struct Connection<'a> {
    pub token: u32,
    pub name: &'a str,
    pub value: Option<&'a Expr<'a>>,
}

/// Connections in their brackets. `Names` is not empty: `()` is `Positions` without entries.
#[derive(Clone, Copy)]
pub enum Conns<'a> {
    Positions(&'a [Expr<'a>]),
    Names(&'a [Connection<'a>]),
}

/// An instance and its connections (section 12.1.2).
#[derive(Clone, Copy)]
pub struct Instance<'a> {
    pub token: u32,
    pub name: &'a str,
    pub conns: Conns<'a>,
}

/// An item of a module (section 12.1, annex A.1.4). The token of `Always` and of `Initial` is that of
/// its first word, and that of `Instances` is its module's name. `overrides` is `None` where no `#` stands.
#[derive(Clone, Copy)]
pub enum Item<'a> {
    Ports(Group<'a>),
    Nets {
        signed: bool,
        range: Option<Bounds<'a>>,
        names: &'a [Declarator<'a>],
    },
    Variables {
        signed: bool,
        range: Option<Bounds<'a>>,
        names: &'a [Declarator<'a>],
    },
    Integers {
        names: &'a [Named<'a>],
    },
    Parameters(Params<'a>),
    Assigns {
        pairs: &'a [Pair<'a>],
    },
    Always {
        events: Events<'a>,
        body: &'a Stmt<'a>,
        token: u32,
    },
    Initial {
        body: &'a Stmt<'a>,
        token: u32,
    },
    Instances {
        module: &'a str,
        token: u32,
        overrides: Option<Conns<'a>>,
        list: &'a [Instance<'a>],
    },
}

/// A module (section 12.1, annex A.1.2) and the number of its name's token. `header` is `None` where
/// there are no port brackets, and `groups` is then empty. Else `header` has the plain names and
/// `groups` the declared ports, and one of the two at most has entries.
#[derive(Clone, Copy)]
pub struct Module<'a> {
    pub name: &'a str,
    pub token: u32,
    pub params: &'a [Params<'a>],
    pub header: Option<&'a [Named<'a>]>,
    pub groups: &'a [Group<'a>],
    pub items: &'a [Item<'a>],
}

/// A source text: its modules in order (annex A.1.2).
#[derive(Clone, Copy)]
pub struct Source<'a> {
    pub modules: &'a [Module<'a>],
}
