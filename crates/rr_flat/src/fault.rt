//! Why a source has no flat design.

use rr_expr::ExprFault;

/// What a limit counts.
#[derive(Clone, Copy, Debug, PartialEq, Eq)]
pub enum Limit {
    /// Bytes of a file.
    Bytes,
    /// Rows of a table.
    Rows,
    /// Repair sites of a design.
    Sites,
    /// Instances, the top included.
    Instances,
    /// Levels of the hierarchy, the top at 1.
    Depth,
    /// The widths of all signals together.
    FlatBits,
    /// Rows times flat bits.
    Work,
    /// Turns of the loops of all instances (IEEE 1364-2005 section 9.6).
    Turns,
    /// Tokens of the bodies of loops, once for each turn.
    Unfolded,
    /// Words of a memory (IEEE 1364-2005 section 4.9.3).
    Words,
}

/// Refusals 7 to 16 and 37, in this order, with the numbers of the tokens at which they stand: no top
/// module, a module that is not there, an instance of a module that is being elaborated, a second
/// declaration of a name, a name that is not declared, a bad range, a value that is no constant,
/// connections or overrides that do not fit, a width outside 1 to 128 with that width, a count
/// that passes its limit with that count, and a loop that is none; and want of memory.
#[derive(Clone, Copy, Debug, PartialEq, Eq)]
pub enum FlatFault {
    NoTop,
    UnknownModule(u32),
    SelfInstance(u32),
    NameTwice(u32),
    UnknownName(u32),
    BadRange(u32),
    NotConstant(u32),
    PortMismatch(u32),
    TooWide(u32, u32),
    TooMany(Limit, u64),
    BadLoop(u32),
    Memory,
}

impl From<std::alloc::AllocError> for FlatFault {
    ghost use Rattle.std.specs.Prelude.{◌≡◌};
    ghost use Rattle.rr_flat.specs.declared.fault.FlatFault.TheVariants.{Memory};

    ghost from_gives = { λ _ e. e ≡ Memory };

    fn from(_error: std::alloc::AllocError) -> FlatFault {
        FlatFault::Memory
    }
}

impl From<ExprFault> for FlatFault {
    ghost use Rattle.std.specs.Prelude.{◌≡◌};
    ghost use Rattle.rr_flat.specs.Faults.{of_expression};

    ghost from_gives = { λ f e. e ≡ of_expression f };

    fn from(fault: ExprFault) -> FlatFault {
        match fault {
            ExprFault::UnknownName(token) => FlatFault::UnknownName(token),
            ExprFault::BadRange(token) => FlatFault::BadRange(token),
            ExprFault::NotConstant(token) => FlatFault::NotConstant(token),
            ExprFault::TooWide(token, width) => FlatFault::TooWide(token, width),
        }
    }
}
