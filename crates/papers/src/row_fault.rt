use office_rules::RowCause;
use thiserror::Error;

/// Why a file was not read.
#[derive(Clone, Copy, Debug, PartialEq, Eq, Hash, Error)]
pub enum RowFault {
    /// The file has its first fault at the row of this number, the header being row 0.
    #[error("row {0}: {1}")]
    At(u32, RowCause),
    /// There was no room for its rows.
    #[error("out of memory")]
    Memory,
}
