//! Why a source is not mended.
use rr_flat::Bit;
use std::alloc::AllocError;
use thiserror::Error;

/// Why a source is not mended.
#[derive(Clone, Copy, Debug, PartialEq, Eq, Error)]
pub enum LintFault {
    /// A block, given by the token of its `always`, keeps a bit of a memory where it assigns by `=` alone,
    /// and no assignment to a whole variable clears a memory (IEEE 1364-2005 section 4.9.3).
    #[error("latch")]
    Latch { bit: Bit, block: u32 },
    /// Memory ran out.
    #[error("out of memory")]
    Memory,
}

impl From<AllocError> for LintFault {
    ghost use Rattle.std.specs.Prelude.{◌≡◌};
    ghost use Rattle.rr_lint_names.specs.declared.fault.LintFault.TheVariants.{Memory};

    ghost from_gives = { λ _ e. e ≡ Memory };

    fn from(_error: AllocError) -> LintFault {
        LintFault::Memory
    }
}
