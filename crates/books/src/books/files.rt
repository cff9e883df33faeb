//! An office in two files that are at hand.

ghost use Rattle.std.specs.Prelude.{IfErr, IfOk, IsTrue};
ghost use Rattle.sqlite.specs.Files.{image_of};
ghost use Rattle.books.specs.Path.{AreOpenedIn, RefusesFiles};

use crate::books::Books;
use crate::refused_files::RefusedFiles;
use crate::reopening::found_law;
use book_opening::{OpenFault, fault_of};
use sqlite::{Connection, FileStore, Options};
use sqlite_disk::{Disk, Files};
use std::alloc::Global;
use sts_token::BlockTransform;

impl<D: Disk + Drop, T: BlockTransform + Drop> Books<FileStore<D>, T> {
    /// Opens the office in a database file and its log, on whatever they are kept, or begins one in
    /// files that have nothing. `options` have the salt of a new log. Neither file has had a sync
    /// that failed (`is_usable`).
    ///
    /// # Errors
    /// As those of `open_file`. The files come back, with the connection to them if there is one.
    pub fn open_files(
        alloc: Global,
        files: Files<D>,
        options: Options,
        transform: T,
    ) -> Result<Books<FileStore<D>, T>, (OpenFault, RefusedFiles<D>)>
        requires log { IsTrue (D.Disk.is_usable files.log) }
        requires db { IsTrue (D.Disk.is_usable files.db) }
        ensures opened { IfOk result (AreOpenedIn (image_of D.Disk files) (T.forwards transform)) }
        ensures refused { IfErr result (λ e. RefusesFiles files e.0 e.1) }
    {
        found_law::<FileStore<D>>();
        // A file that is made here has no sums, so that any SQLite may read and write it.
        let conn = match Connection::open_files(alloc, files, options) {
            Ok(conn) => conn,
            Err((error, left)) => return Err((fault_of(error), RefusedFiles::Unconnected(left))),
        };
        match Books::open_from(alloc, conn, transform) {
            Ok(books) => Ok(books),
            Err((fault, conn)) => Err((fault, RefusedFiles::Connected(conn))),
        }
    }
}
