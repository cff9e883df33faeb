//! How a command on the file of an office ended.

use vend_ports::CommandEnd;

/// The log and the database file that were let go, where they were given back.
pub type Back<D> = Option<(D, D)>;

/// How a command ended, and the files of the office, where they were closed whole and given back.
#[derive(Drop)]
pub struct Ended<D> {
    pub end: CommandEnd,
    pub back: Back<D>,
}
