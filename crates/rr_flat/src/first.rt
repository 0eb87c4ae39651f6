//! The first of several faults.
ghost use Rattle.std.specs.Prelude.{◌≡◌, Some, fold};
ghost use Rattle.rr_flat.specs.Faults.{sooner, earlier as earlier_in, fault_if, faults_in, number as number_of, token as token_of};

use crate::fault::FlatFault;

impl FlatFault {
    /// The number of the refusal, 7 to 16 or 37; 0 for want of memory.
    #[tactic(auto, unfolding(crate::specs::Faults::number))]
    pub fn number(self) -> u32
        ensures { result ≡ number_of self }
    {
        match self {
            FlatFault::NoTop => 7,
            FlatFault::UnknownModule(_) => 8,
            FlatFault::SelfInstance(_) => 9,
            FlatFault::NameTwice(_) => 10,
            FlatFault::UnknownName(_) => 11,
            FlatFault::BadRange(_) => 12,
            FlatFault::NotConstant(_) => 13,
            FlatFault::PortMismatch(_) => 14,
            FlatFault::TooWide(_, _) => 15,
            FlatFault::TooMany(_, _) => 16,
            FlatFault::BadLoop(_) => 37,
            FlatFault::Memory => 0,
        }
    }

    /// The number of the token at which it stands; 0 where it stands at none.
    #[tactic(auto, unfolding(crate::specs::Faults::token))]
    pub fn token(self) -> u32
        ensures { result ≡ token_of self }
    {
        match self {
            FlatFault::UnknownModule(token)
            | FlatFault::SelfInstance(token)
            | FlatFault::NameTwice(token)
            | FlatFault::UnknownName(token)
            | FlatFault::BadRange(token)
            | FlatFault::NotConstant(token)
            | FlatFault::PortMismatch(token)
            | FlatFault::TooWide(token, _)
            | FlatFault::BadLoop(token) => token,
            FlatFault::NoTop | FlatFault::TooMany(_, _) | FlatFault::Memory => 0,
        }
    }
}

/// The first of two faults.
#[tactic(auto, unfolding(crate::specs::Faults::sooner, crate::specs::Faults::before))]
pub fn earlier(other: FlatFault, fault: FlatFault) -> FlatFault
    ensures { Some result ≡ sooner (Some other) fault }
{
    if fault.token() < other.token()
        || (fault.token() == other.token() && fault.number() < other.number())
    {
        fault
    } else {
        other
    }
}

/// The first of a fault that was found, if any, and one more.
#[tactic(auto, unfolding(crate::specs::Faults::sooner))]
pub fn sooner_of(found: Option<FlatFault>, fault: FlatFault) -> Option<FlatFault>
    ensures { result ≡ sooner found fault }
{
    match found {
        None => Some(fault),
        Some(other) => Some(earlier(other, fault)),
    }
}

/// A fault that was found, if any, or one more that stands at an earlier token.
#[tactic(auto, unfolding(crate::specs::Faults::earlier))]
pub fn earliest(found: Option<FlatFault>, fault: FlatFault) -> Option<FlatFault>
    ensures { result ≡ earlier_in found fault }
{
    match found {
        None => Some(fault),
        Some(other) => {
            let token = fault.token();
            if token < other.token() {
                Some(fault)
            } else {
                Some(other)
            }
        }
    }
}

/// A fault that was found, if any, or the answer's, if it is one at an earlier token.
pub fn note_earliest<T: Drop>(
    found: Option<FlatFault>,
    answer: &Result<T, FlatFault>,
) -> Option<FlatFault>
    ensures { result ≡ fold earlier_in found (faults_in answer.now) }
{
    match answer {
        Ok(_) => found,
        Err(fault) => earliest(found, *fault),
    }
}

/// The first of a fault that was found, if any, and one more where it is bad.
pub fn note_if(found: Option<FlatFault>, bad: bool, fault: FlatFault) -> Option<FlatFault>
    ensures { result ≡ fold sooner found (fault_if bad fault) }
{
    if bad { sooner_of(found, fault) } else { found }
}

/// The first of a fault that was found, if any, and the answer's, if it is one.
pub fn note<T: Drop>(found: Option<FlatFault>, answer: &Result<T, FlatFault>) -> Option<FlatFault>
    ensures { result ≡ fold sooner found (faults_in answer.now) }
{
    match answer {
        Ok(_) => found,
        Err(fault) => sooner_of(found, *fault),
    }
}
