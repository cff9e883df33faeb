ghost use Rattle.std.specs.Prelude.{◌≡◌};
ghost use Rattle.book_opening.specs.Fault.{open_fault_name, open_fault_number};

use thiserror::Error;

/// Why an office is not opened (`docs/PROMISE.md`, "Opening").
#[derive(Clone, Copy, Debug, PartialEq, Eq, Hash, Error)]
pub enum OpenFault {
    #[error("the file has tables that are not an office's")]
    NotAnOffice,
    #[error("the store failed")]
    Store,
    #[error("out of memory")]
    Memory,
}

impl OpenFault {
    /// The fault's number (`docs/PROMISE.md`, "Opening").
    pub fn number(self) -> u8
        ensures { result ≡ open_fault_number self }
    {
        match self {
            OpenFault::NotAnOffice => 1,
            OpenFault::Store => 3,
            OpenFault::Memory => 4,
        }
    }

    /// The fault's name, as it is printed.
    pub fn name(self) -> &'static str
        ensures { result.now ≡ open_fault_name self }
    {
        match self {
            OpenFault::NotAnOffice => "NotAnOffice",
            OpenFault::Store => "Store",
            OpenFault::Memory => "Memory",
        }
    }
}
