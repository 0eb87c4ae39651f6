//! Why a text gives no table.
use rr_flat::Limit;
use rr_vcd_text::DumpFault;
use std::alloc::{AllocError, AllocFailed};

/// Refusals 41, 42 and 16, in this order: the line, from 1, at which the text breaks the form of a dump;
/// no scope of the dump has every input of the top; and the first count of rows past the limit. And want
/// of memory.
#[derive(Clone, Copy, Debug, PartialEq, Eq)]
pub enum VcdFault {
    BadVcd(u64),
    NoScope,
    TooMany(Limit, u64),
    Memory,
}

impl From<AllocError> for VcdFault {
    ghost use Rattle.std.specs.Prelude.{◌≡◌};
    ghost use Rattle.rr_vcd.specs.declared.fault.VcdFault.TheVariants.{Memory};

    ghost from_gives = { λ _ e. e ≡ Memory };

    fn from(_error: AllocError) -> VcdFault {
        VcdFault::Memory
    }
}

impl<T: Drop> From<AllocFailed<T>> for VcdFault {
    ghost use Rattle.std.specs.Prelude.{◌≡◌};
    ghost use Rattle.rr_vcd.specs.declared.fault.VcdFault.TheVariants.{Memory};

    ghost from_gives = { λ _ e. e ≡ Memory };

    fn from(_error: AllocFailed<T>) -> VcdFault {
        VcdFault::Memory
    }
}

impl From<DumpFault> for VcdFault {
    ghost use Rattle.std.specs.Prelude.{◌≡◌};
    ghost use Rattle.rr_vcd.specs.Faults.{of_dump};

    ghost from_gives = { λ f e. e ≡ of_dump f };

    fn from(fault: DumpFault) -> VcdFault {
        match fault {
            DumpFault::BadVcd(line) => VcdFault::BadVcd(line),
            DumpFault::Memory => VcdFault::Memory,
        }
    }
}
