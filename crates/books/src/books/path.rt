//! An office in a file.

ghost use Rattle.std.specs.Prelude.{◌≡◌, codes, IfOk, IfErr, IsErrAnd};
ghost use Rattle.sqlite_wal.specs.Files.{image_at};
ghost use Rattle.books.specs.Path.{AreOpenedIn, RefusesPath};

use crate::books::Books;
use crate::reopening::found_law;
use book_opening::{OpenFault, fault_of};
use sqlite::{Connection, FileFrom, FileStore, Start};
use std::rt::HostRuntime;
use sts_token::BlockTransform;

impl<B: Start, T: BlockTransform + Drop> Books<FileStore<FileFrom<B>>, T> {
    /// Opens the office in the SQLite file at a path, or begins one where there is no file. `start`
    /// stands for what the file holds, as in `sqlite`: no code can read it, so what is promised is
    /// promised of every content.
    ///
    /// # Errors
    /// `NotAnOffice` where the file stands for no office; `Store` where it cannot be opened, and
    /// `Memory`. The file stands for what it stood for. The connection to it comes back, if there
    /// is one.
    pub fn open_file(
        rt: &HostRuntime,
        path: &str,
        start: B,
        transform: T,
    ) -> Result<
        Books<FileStore<FileFrom<B>>, T>,
        (OpenFault, Option<Connection<FileStore<FileFrom<B>>>>),
    >
        ensures opened { IfOk result (AreOpenedIn (image_at B.Start) (T.forwards transform)) }
        ensures refused { IfErr result (λ e. RefusesPath (image_at B.Start) e.0 e.1) }
        // What `sqlite` keeps in memory is no file, and is never opened.
        ensures no_memory { path.now ≡ codes ":memory:"
            → IsErrAnd result (λ e. e.0 ≡ OpenFault.Store) }
    {
        found_law::<FileStore<FileFrom<B>>>();
        // A file that is made here has no sums, so that any SQLite may read and write it.
        let conn = match Connection::open_from(rt, path, false, start) {
            Ok(conn) => conn,
            Err((error, _)) => return Err((fault_of(error), None)),
        };
        match Books::open_from(rt.alloc(), conn, transform) {
            Ok(books) => Ok(books),
            Err((fault, conn)) => Err((fault, Some(conn))),
        }
    }
}
