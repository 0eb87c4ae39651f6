//! Places of a source at which a repair may change it.

/// The module with this place in its source, and the names in it that lead to the clock.
#[derive(Clone, Copy)]
pub struct ModulePlace<'a> {
    pub module: u32,
    pub clocks: &'a [&'a str],
}

/// A place that a repair may change, and the number of its first token.
#[derive(Clone, Copy)]
pub struct Site<'a> {
    pub kind: SiteKind<'a>,
    pub token: u32,
}

/// What may be changed at a site: a literal's value, a condition by a guard, or a variable by a
/// last assignment. `module` is the module's place in its source, `extent` the condition's number of
/// tokens, `names` are the names that a guard may be, and `now` says that `target` is written by `=`.
#[derive(Clone, Copy)]
pub enum SiteKind<'a> {
    Literal {
        width: u32,
        signed: bool,
    },
    Guard {
        module: u32,
        extent: u32,
        names: &'a [&'a str],
    },
    Overwrite {
        module: u32,
        target: &'a str,
        width: u32,
        now: bool,
        names: &'a [&'a str],
    },
}
