ghost use Rattle.std.specs.Prelude.{◌≡◌, ◌↔◌, IsTrue};

use one_table::ReadFault;
use sqlite::{Error, ErrorCode};
use std::alloc::AllocError;
use thiserror::Error as IsError;

/// Why a statement on the office's tables fails.
#[derive(Clone, Copy, Debug, PartialEq, Eq, IsError)]
pub enum TableError {
    /// The database refused or failed, or there was no memory.
    #[error("{0}")]
    Database(Error),
    /// The values of a row are outside their rules.
    #[error("a row of the tables is no office's")]
    RowOfNoOffice,
}

impl TableError {
    /// Whether there was no memory.
    pub fn is_memory(self) -> bool
        ensures { IsTrue result
            ↔ (self ≡ TableError.Database (Error.SqliteFailure ErrorCode.OutOfMemory)) }
    {
        matches!(
            self,
            TableError::Database(Error::SqliteFailure(ErrorCode::OutOfMemory))
        )
    }
}

impl From<Error> for TableError {
    ghost use Rattle.std.specs.Prelude.{◌≡◌};
    ghost use Rattle.book_tables.specs.declared.error.TableError.TheVariants.{Database};

    ghost from_gives = { λ error e. e ≡ Database error };

    fn from(error: Error) -> TableError {
        TableError::Database(error)
    }
}

impl From<AllocError> for TableError {
    ghost use Rattle.std.specs.Prelude.{◌≡◌};
    ghost use Rattle.sqlite.specs.declared.error.ErrorCode.TheVariants.{OutOfMemory};
    ghost use Rattle.sqlite.specs.declared.error.Error.TheVariants.{SqliteFailure};
    ghost use Rattle.book_tables.specs.declared.error.TableError.TheVariants.{Database};

    ghost from_gives = { λ _ e. e ≡ Database (SqliteFailure OutOfMemory) };

    fn from(_: AllocError) -> TableError {
        TableError::Database(Error::SqliteFailure(ErrorCode::OutOfMemory))
    }
}

impl From<ReadFault> for TableError {
    ghost use Rattle.std.specs.Prelude.{◌≡◌};
    ghost use Rattle.book_tables.specs.reading.Reading.{told};

    ghost from_gives = { λ fault e. e ≡ told fault };

    fn from(fault: ReadFault) -> TableError {
        match fault {
            ReadFault::Database(error) => TableError::Database(error),
            ReadFault::Row => TableError::RowOfNoOffice,
        }
    }
}
