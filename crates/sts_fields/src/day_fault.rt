ghost use Rattle.std.specs.Prelude.{◌≡◌};
ghost use Rattle.sts_fields.specs.DayFault.{fault_name, fault_number};

use thiserror::Error;

/// Why a text is not read as a day.
#[derive(Clone, Copy, Debug, PartialEq, Eq, Hash, Error)]
pub enum DayFault {
    #[error("the text is no day of 1993 to 2099")]
    NotADay,
    /// It never comes: no memory is taken to read a day.
    #[error("out of memory")]
    Memory,
}

impl DayFault {
    /// The fault's number, 1 or 2, in the order of the variants.
    pub fn number(self) -> u8
        ensures { result ≡ fault_number self }
    {
        match self {
            DayFault::NotADay => 1,
            DayFault::Memory => 2,
        }
    }

    /// The fault's name, as it is printed.
    pub fn name(self) -> &'static str
        ensures { result.now ≡ fault_name self }
    {
        match self {
            DayFault::NotADay => "NotADay",
            DayFault::Memory => "Memory",
        }
    }
}
