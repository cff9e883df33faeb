use sqlite::{Error, ErrorCode};
use std::alloc::{AllocError, AllocFailed};
use thiserror::Error as IsError;

/// Why a reader gives nothing.
#[derive(Clone, Copy, Debug, PartialEq, Eq, IsError)]
pub enum ReadFault {
    /// The database refused or failed, or there was no memory for what it answered.
    #[error("{0}")]
    Database(Error),
    /// A row of the answer has values that stand for nothing.
    #[error("a row stands for nothing")]
    Row,
}

impl From<Error> for ReadFault {
    ghost use Rattle.std.specs.Prelude.{◌≡◌};
    ghost use Rattle.one_table.specs.declared.read_fault.ReadFault.TheVariants.{Database};

    ghost from_gives = { λ e fault. fault ≡ Database e };

    fn from(error: Error) -> ReadFault {
        ReadFault::Database(error)
    }
}

impl From<AllocError> for ReadFault {
    ghost use Rattle.std.specs.Prelude.{◌≡◌};
    ghost use Rattle.one_table.specs.ReadFaults.{no_memory};

    ghost from_gives = { λ _ fault. fault ≡ no_memory };

    fn from(_: AllocError) -> ReadFault {
        ReadFault::Database(Error::SqliteFailure(ErrorCode::OutOfMemory))
    }
}

impl<T: Drop> From<AllocFailed<T>> for ReadFault {
    ghost use Rattle.std.specs.Prelude.{◌≡◌};
    ghost use Rattle.one_table.specs.ReadFaults.{no_memory};

    ghost from_gives = { λ _ fault. fault ≡ no_memory };

    fn from(_: AllocFailed<T>) -> ReadFault {
        ReadFault::Database(Error::SqliteFailure(ErrorCode::OutOfMemory))
    }
}
