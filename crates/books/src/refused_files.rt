//! The files of an office that was not opened.

ghost use Rattle.books.specs.Path.{AreTakenFrom};

use sqlite::{Connection, FileStore, Leftover};
use sqlite_disk::{Disk, Files};

/// What is given back of two files in which no office was opened.
#[derive(Drop)]
pub enum RefusedFiles<D: Disk> {
    /// The connection that was made to them, which is in no transaction.
    Connected(Connection<FileStore<D>>),
    /// What was left of them where no connection was made.
    Unconnected(Leftover<D>),
}

impl<D: Disk + Drop> RefusedFiles<D> {
    /// The two files. What a connection has not committed is undone.
    pub fn into_files(self) -> Files<D>
        ensures { AreTakenFrom self result }
    {
        match self {
            RefusedFiles::Connected(conn) => conn.into_store().close(),
            RefusedFiles::Unconnected(left) => left.into_files(),
        }
    }
}
