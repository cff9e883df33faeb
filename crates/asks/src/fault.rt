use thiserror::Error;

/// Why a body asks nothing.
#[derive(Clone, Copy, Debug, PartialEq, Eq, Hash, Error)]
pub enum AskFault {
    /// It is not the JSON that its kind of ask wants.
    #[error("not the JSON of the ask")]
    OutsideRule,
    /// There was no memory to read it.
    #[error("out of memory")]
    Memory,
}
