//! The bytes that an expansion gives, with their origins, and how many uses there were.
ghost use Rattle.std.specs.Prelude.{◌≡◌, ◌+◌, ◌-◌, ◌++◌, ◌∷◌, [], ◌<◌, ◌≤◌, ◌^◌, ℕ, List, take, drop, length, OnOk};
ghost use Rattle.rr_directive.specs.Expand.{Event, Gives, Uses, stands_for};
ghost use Rattle.rr_directive.specs.View.{Shows, Overflows, exact_from};

use crate::expanded::Expanded;
use crate::fault::Wrong;
use crate::origin::Origin;
use std::alloc::{AllocError, AllocFailed, Global};

/// The most bytes and uses of an expansion.
const LIMIT: usize = 1_048_576;

/// Why reading stops: a fault, too many bytes and uses, or want of memory.
#[derive(Clone, Copy, Debug, PartialEq, Eq)]
pub(crate) enum Stop {
    Wrong(Wrong),
    Full,
    Memory,
}

impl From<AllocError> for Stop {
    ghost use Rattle.std.specs.Prelude.{◌≡◌};
    ghost use Rattle.rr_directive.specs.declared.output.Stop.TheVariants.{Memory};

    ghost from_gives = { λ _ e. e ≡ Memory };

    fn from(_error: AllocError) -> Stop {
        Stop::Memory
    }
}

impl<T: Drop> From<AllocFailed<T>> for Stop {
    ghost use Rattle.std.specs.Prelude.{◌≡◌};
    ghost use Rattle.rr_directive.specs.declared.output.Stop.TheVariants.{Memory};

    ghost from_gives = { λ _ e. e ≡ Memory };

    fn from(_error: AllocFailed<T>) -> Stop {
        Stop::Memory
    }
}

/// What was given so far. Bytes and uses together are at most [`LIMIT`].
#[derive(Drop)]
pub(crate) struct Output {
    text: Vec<u8>,
    origins: Vec<Origin>,
    left: usize,
}

impl Output {
    /// Nothing.
    pub(crate) fn new(alloc: Global) -> Output
        ensures { Shows result [] }
    {
        Output {
            text: Vec::new(alloc),
            origins: Vec::new(alloc),
            left: LIMIT,
        }
    }

    /// One more use.
    pub(crate) fn count_use(&mut self) -> Result<(), Stop>
        ensures left { OnOk result (self.new.left + 1 ≡ self.old.left) }
        ensures counted { OnOk result ((events : List Event) (at : ℕ) → Shows self.old events → Shows self.new (events ++ (stands_for at Uses ∷ []))) }
        ensures full { Overflows self.old.left 1 result }
    {
        if self.left == 0 {
            return Err(Stop::Full);
        }
        self.left -= 1;
        Ok(())
    }

    /// One more byte.
    pub(crate) fn give(&mut self, byte: u8, origin: Origin) -> Result<(), Stop>
        ensures left { OnOk result (self.new.left + 1 ≡ self.old.left) }
        ensures given { OnOk result ((events : List Event) → Shows self.old events → Shows self.new (events ++ (record { step = Gives byte; origin = origin } ∷ []))) }
        ensures full { Overflows self.old.left 1 result }
    {
        if self.left == 0 {
            return Err(Stop::Full);
        }
        self.text.push(byte)?;
        self.origins.push(origin)?;
        self.left -= 1;
        Ok(())
    }

    /// One more byte that stands for what begins at this place.
    pub(crate) fn give_for(&mut self, byte: u8, offset: u32) -> Result<(), Stop>
        ensures left { OnOk result (self.new.left + 1 ≡ self.old.left) }
        ensures given { OnOk result ((events : List Event) → Shows self.old events → Shows self.new (events ++ (stands_for offset (Gives byte) ∷ []))) }
        ensures full { Overflows self.old.left 1 result }
    {
        let origin = Origin {
            offset,
            exact: false,
        };
        self.give(byte, origin)
    }

    /// The bytes of a file that stand there; those from `exact` on are exact.
    pub(crate) fn give_own(
        &mut self,
        file: &[u8],
        from: usize,
        to: usize,
        exact: usize,
    ) -> Result<(), Stop>
        requires order { from ≤ to }
        requires within { to ≤ length file.now }
        requires few { length file.now < 2 ^ 32 }
        ensures given { OnOk result ((events : List Event) → Shows self.old events → Shows self.new (events ++ exact_from exact from (take (to - from) (drop from file.now)))) }
        ensures full { Overflows self.old.left (to - from) result }
    {
        for at in from..to {
            let origin = Origin {
                offset: at as u32,
                exact: exact <= at,
            };
            self.give(file[at], origin)?;
        }
        Ok(())
    }

    /// The bytes with their origins.
    pub(crate) fn finish(self) -> Expanded
        requires { (events : List Event) × Shows self events }
        ensures text { result.text.items ≡ self.text.items }
        ensures origins { result.origins.items ≡ self.origins.items }
    {
        let Output { text, origins, .. } = self;
        Expanded { text, origins }
    }
}
