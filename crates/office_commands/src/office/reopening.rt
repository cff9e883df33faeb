//! An office in files, opened again where its books have stopped.

ghost use Rattle.std.specs.Prelude.{◌≡◌, false, IfErr, IfOk, None};
ghost use Rattle.sqlite.specs.Files.{file_state};
ghost use Rattle.sqlite.specs.State.{HasCleanDisk};
ghost use Rattle.books.specs.Keeps.{seen};
ghost use Rattle.command_line.specs.Transform.{forward_of};
ghost use Rattle.office_commands.specs.port.Back.{lets_go_giving};
ghost use Rattle.office_commands.specs.office.Reopened.{IsNextLife, IsNextOf, IsReopened};
ghost use Rattle.office_commands.specs.office.Lost.{FailsToReconnect, IsUnreopened, LosesNothing};
ghost use Rattle.office_commands.specs.office.Lost.{RefusesAgain};
ghost use Rattle.office_commands.specs.office.Visited.{seen_in};

use crate::office::opening::{let_refused_go, options_of};
use crate::port::ports::{OfficeFile, SaltSource};
use book_opening::fault_of;
use books::{Books, OpenFault, RefusedFiles, opening_law};
use command_line::Shipped;
use sqlite::{Connection, Error, ErrorCode, FileStore, Leftover, Options};
use sqlite_disk::Disk;
use std::alloc::Global;
use sts_token::BlockTransform;

/// Opens the office of stopped books again, with a salt that is drawn anew. The books begin a new
/// life with an office that the stopped ones may have left.
///
/// # Errors
/// `Store` if no salt could be drawn, or the files cannot be used any more, as after a sync that
/// failed; `Memory`; `NotAnOffice`. The files are given up then.
pub fn open_again<H: OfficeFile>(
    alloc: Global,
    salts: &H::Salts,
    books: Books<FileStore<H::Medium>, Shipped>,
    transform: Shipped,
) -> Result<Books<FileStore<H::Medium>, Shipped>, OpenFault>
    ensures reopened { IfOk result
        (λ next. IsReopened (forward_of transform) (seen_in books) (seen_in next)) }
    ensures lost { IfErr result
        (IsUnreopened H.Medium.Disk H.Salts.SaltSource (lets_go_giving H.OfficeFile None false)
        (seen_in books)) }
{
    let Some(salt) = salts.draw() else {
        let_refused_go::<H>(RefusedFiles::Connected(books.into_connection()));
        return Err(OpenFault::Store);
    };
    match reopen(alloc, options_of(salt), books, transform) {
        Ok(next) => Ok(next),
        Err((fault, refused)) => {
            let_refused_go::<H>(refused);
            Err(fault)
        }
    }
}

/// Opens the office of some books again, in the same files. It finds what they may have left, and
/// keeps whether their last write failed: it is not known to be mended before one is made.
///
/// # Errors
/// `Store` where the files cannot be used any more, as after a sync that failed, or are not opened;
/// `Memory`; and `NotAnOffice`. What is left of the files comes back, with the connection to them
/// if there is one.
pub fn reopen<D: Disk + Drop, T: BlockTransform + Drop>(
    alloc: Global,
    options: Options,
    books: Books<FileStore<D>, T>,
    transform: T,
) -> Result<Books<FileStore<D>, T>, (OpenFault, RefusedFiles<D>)>
    ensures running { IfOk result (λ next. next.stopped ≡ false) }
    ensures writes { IfOk result (λ next. next.write_failed ≡ books.write_failed) }
    ensures left { IfOk result (λ next. HasCleanDisk (seen next).state
        → IsNextLife (T.forwards transform) (seen books) (seen next)) }
    ensures refused { IfErr result (λ e. RefusesAgain books.conn e.0 e.1) }
{
    opening_law::<FileStore<D>>();
    let write_failed = books.write_failed();
    let conn = match reconnect(alloc, options, books.into_connection()) {
        Ok(conn) => conn,
        Err((error, left)) => return Err((fault_of(error), RefusedFiles::Unconnected(left))),
    };
    match Books::open_from(alloc, conn, transform) {
        Ok(next) => Ok(next.with_write_failed(write_failed)),
        Err((fault, conn)) => Err((fault, RefusedFiles::Connected(conn))),
    }
}

/// What becomes of files that stopped books have lost: they hold what the books may have left.
pub fn lost_law<D: Disk>()
    ensures { LosesNothing D.Disk }
{}

// Opens the database of a connection again.
fn reconnect<D: Disk + Drop>(
    alloc: Global,
    options: Options,
    conn: Connection<FileStore<D>>,
) -> Result<Connection<FileStore<D>>, (Error, Leftover<D>)>
    ensures next { IfOk result (λ next. HasCleanDisk (file_state next)
        → IsNextOf (file_state conn) (file_state next)) }
    ensures rests { IfOk result (λ next. next.in_transaction ≡ false) }
    ensures fails { IfErr result (λ e. FailsToReconnect conn e.0 e.1) }
{
    let files = conn.into_store().close();
    if !files.may_be_used() {
        let error = Error::SqliteFailure(ErrorCode::SystemIoFailure);
        return Err((error, Leftover::Files(files)));
    }
    match Connection::open_files(alloc, files, options) {
        Ok(next) => Ok(next),
        Err((error, left)) => Err((error, left)),
    }
}
