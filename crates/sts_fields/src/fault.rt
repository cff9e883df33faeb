ghost use Rattle.std.specs.Prelude.{◌≡◌};
ghost use Rattle.sts_fields.specs.TidFault.{tid_fault_name, tid_fault_number};

use thiserror::Error;

/// Why a moment has no minute, or a sale no identifier.
#[derive(Clone, Copy, Debug, PartialEq, Eq, Hash, Error)]
pub enum TidFault {
    #[error("the moment is before the base date")]
    BeforeBase,
    #[error("the moment is past the last identifier of the base date")]
    PastEnd,
    #[error("no identifier of the base date is left for this meter")]
    IdentifiersSpent,
    #[error("the next identifier is more than a day ahead")]
    IdentifierAhead,
}

impl TidFault {
    /// The fault's number, from 1 to 4, in the order of the variants.
    pub fn number(self) -> u8
        ensures { result ≡ tid_fault_number self }
    {
        match self {
            TidFault::BeforeBase => 1,
            TidFault::PastEnd => 2,
            TidFault::IdentifiersSpent => 3,
            TidFault::IdentifierAhead => 4,
        }
    }

    /// The fault's name, as it is printed.
    pub fn name(self) -> &'static str
        ensures { result.now ≡ tid_fault_name self }
    {
        match self {
            TidFault::BeforeBase => "BeforeBase",
            TidFault::PastEnd => "PastEnd",
            TidFault::IdentifiersSpent => "IdentifiersSpent",
            TidFault::IdentifierAhead => "IdentifierAhead",
        }
    }
}
