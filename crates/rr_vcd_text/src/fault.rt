//! Why a text is no dump.
use std::alloc::{AllocError, AllocFailed};

/// The line, from 1, at which a text breaks the form of a dump; or want of memory.
#[derive(Clone, Copy, Debug, PartialEq, Eq)]
pub enum DumpFault {
    BadVcd(u64),
    Memory,
}

impl From<AllocError> for DumpFault {
    ghost use Rattle.std.specs.Prelude.{◌≡◌};
    ghost use Rattle.rr_vcd_text.specs.declared.fault.DumpFault.TheVariants.{Memory};

    ghost from_gives = { λ _ e. e ≡ Memory };

    fn from(_error: AllocError) -> DumpFault {
        DumpFault::Memory
    }
}

impl<T: Drop> From<AllocFailed<T>> for DumpFault {
    ghost use Rattle.std.specs.Prelude.{◌≡◌};
    ghost use Rattle.rr_vcd_text.specs.declared.fault.DumpFault.TheVariants.{Memory};

    ghost from_gives = { λ _ e. e ≡ Memory };

    fn from(_error: AllocFailed<T>) -> DumpFault {
        DumpFault::Memory
    }
}
