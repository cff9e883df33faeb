//! The end of a connection to two files whose rows are looked at once more.

ghost use Rattle.std.specs.Prelude.{◌≡◌, IsTrue};
ghost use Rattle.sqlite.specs.Held.{AreDatabases};
ghost use Rattle.sqlite.specs.State.{store_error};
ghost use Rattle.sqlite_store.specs.FileStore.{recovers, view};
ghost use Rattle.sqlite_trees.specs.View.{IsClean};
ghost use Rattle.whole_rows.specs.Ended.{Looks, LooksAndEnds};

use crate::looking::first_partial;
use sqlite::{Connection, Error, ErrorCode, FileStore};
use sqlite_disk::{Disk, Files};
use sqlite_trees::error::StoreError;
use sqlite_trees::store::Store;
use std::alloc::Global;

// An error of a store, as a connection tells it.
fn store_error(error: StoreError) -> Error
    ensures { result ≡ store_error error }
{
    Error::SqliteFailure(match error {
        StoreError::OutOfMemory => ErrorCode::OutOfMemory,
        StoreError::Io => ErrorCode::SystemIoFailure,
        StoreError::Corrupt => ErrorCode::DatabaseCorrupt,
        StoreError::Full => ErrorCode::DiskFull,
        StoreError::Broken => ErrorCode::Closed,
        StoreError::Unstorable => ErrorCode::TooBig,
    })
}

// Gives up a connection, and looks for the first row of a tree that is not stored with so many
// values.
fn look<D: Disk + Drop>(
    alloc: Global,
    conn: Connection<FileStore<D>>,
    tree: u32,
    width: usize,
) -> (Result<Option<usize>, Error>, FileStore<D>)
    ensures looks { Looks tree width conn (record conn { store = result.1 }) result.0 }
    ensures sound { IsClean (view result.1)
        → IsTrue (view result.1).is_numbered × AreDatabases (recovers result.1) }
{
    let mut store = conn.into_store();
    match first_partial(alloc, &mut store, tree, width) {
        Ok(found) => (Ok(found), store),
        Err(error) => (Err(store_error(error)), store),
    }
}

/// Looks for the first row of a tree that is not stored with so many values, of which its number is
/// the first, and closes the files of the connection. The place is from 1. The files are closed
/// also where the rows are not read; where they cannot be closed the store is given back.
pub fn end_looking<D: Disk + Drop>(
    alloc: Global,
    conn: Connection<FileStore<D>>,
    tree: u32,
    width: usize,
) -> (
    Result<Option<usize>, Error>,
    Result<Files<D>, (Error, FileStore<D>)>,
)
    ensures { LooksAndEnds tree width conn result.0 result.1 }
{
    let (found, mut store) = look(alloc, conn, tree, width);
    // Once more, for what only this store's rollback says of the log.
    store.rollback();
    match store.checkpoint() {
        Ok(()) => (found, Ok(store.close())),
        Err(error) => (found, Err((store_error(error), store))),
    }
}
