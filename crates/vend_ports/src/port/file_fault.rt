/// Why a file is not read.
#[derive(Clone, Copy, Debug, PartialEq, Eq)]
pub enum FileFault {
    /// There is no such file, or it cannot be read.
    Unreadable,
    /// There was no room for it.
    Memory,
}
