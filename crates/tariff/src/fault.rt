ghost use Rattle.std.specs.Prelude.{◌≡◌};
ghost use Rattle.tariff.specs.StepsFault.{steps_fault_name, steps_fault_number};

use thiserror::Error;

/// Why steps are no tariff's.
#[derive(Clone, Copy, Debug, PartialEq, Eq, Hash, Error)]
pub enum StepsFault {
    #[error("there is no step")]
    NoStep,
    #[error("there are more than eight steps")]
    TooMany,
    #[error("an end is 0 or not greater than the one before")]
    NotRising,
    #[error("a price is not 1 to 1000000 cents")]
    BadPrice,
    #[error("a step but the last has no end, or the last has one")]
    EndMissing,
    #[error("out of memory")]
    Memory,
    #[error("the text is not that of steps")]
    BadText,
}

impl StepsFault {
    /// The fault's number, from 1 to 7, in the order of the variants.
    pub fn number(self) -> u8
        ensures { result ≡ steps_fault_number self }
    {
        match self {
            StepsFault::NoStep => 1,
            StepsFault::TooMany => 2,
            StepsFault::NotRising => 3,
            StepsFault::BadPrice => 4,
            StepsFault::EndMissing => 5,
            StepsFault::Memory => 6,
            StepsFault::BadText => 7,
        }
    }

    /// The fault's name, as it is printed.
    pub fn name(self) -> &'static str
        ensures { result.now ≡ steps_fault_name self }
    {
        match self {
            StepsFault::NoStep => "NoStep",
            StepsFault::TooMany => "TooMany",
            StepsFault::NotRising => "NotRising",
            StepsFault::BadPrice => "BadPrice",
            StepsFault::EndMissing => "EndMissing",
            StepsFault::Memory => "Memory",
            StepsFault::BadText => "BadText",
        }
    }
}
