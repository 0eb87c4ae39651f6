//! Why a file has no expansion.

use std::alloc::AllocError;

/// What is wrong with a unit of a file.
#[derive(Clone, Copy, Debug, PartialEq, Eq)]
pub enum Wrong {
    /// A use of a name that is not defined.
    Unknown,
    /// A directive that has not its form or its place.
    Bad,
    /// A use whose text uses a name that is being expanded.
    Loop,
}

/// The first fault of a file, with its offset in bytes.
#[derive(Clone, Copy, Debug, PartialEq, Eq)]
pub enum DirectiveFault {
    /// A use of a name that is not defined (IEEE 1364-2005 section 19.3).
    UnknownMacro(u32),
    /// A directive without its name, with arguments, of a directive's name or with a directive in its
    /// text, without its opening or its `endif, or `elsif (sections 19.3 and 19.4).
    BadDirective(u32),
    /// A use whose text uses a name that is being expanded (section 19.3.1).
    MacroLoop(u32),
    /// More expanded bytes and uses than 1,048,576: how many were met.
    TooMany(u64),
    /// The allocator gave no memory.
    Memory,
}

impl From<AllocError> for DirectiveFault {
    ghost use Rattle.rr_directive.specs.declared.fault.DirectiveFault.TheVariants.{Memory};
    ghost use Rattle.std.specs.Prelude.{◌≡◌};

    ghost from_gives = { λ _ e. e ≡ Memory };

    fn from(_error: AllocError) -> DirectiveFault {
        DirectiveFault::Memory
    }
}
