//! An office in a file: how it is opened, and closed.

ghost use Rattle.std.specs.Prelude.{◌≡◌, false, true, IfErr, IfNone, IfOk, IfSome, IsTrue, None};
ghost use Rattle.sqlite.specs.Files.{file_state};
ghost use Rattle.sqlite_disk.specs.declared.Files.{Files};
ghost use Rattle.sqlite_store.specs.FileStore.{files as store_files};
ghost use Rattle.sqlite_wal.specs.Files.{seen_image};
ghost use Rattle.books.specs.Path.{AreTakenFrom};
ghost use Rattle.office_commands.specs.port.Back.{lets_go_giving};
ghost use Rattle.office_commands.specs.office.Closed.{AreClosed, IsClosed};
ghost use Rattle.office_commands.specs.office.Opened.{OpensIn};
ghost use Rattle.office_commands.specs.port.Places.{IsUnopenedIn, places_of};
ghost use Rattle.office_commands.specs.office.Met.{IsMet};
ghost use Rattle.office_commands.specs.office.Visited.{IsOpened, IsOpenedThere, seen_in};

use crate::office::meeting::meet;
use crate::office::met::Met;
use crate::port::ended::Back;
use crate::port::ports::{OfficeFile, SaltSource};
use books::{Books, OpenFault, RefusedFiles, found_law};
use command_line::Shipped;
use sqlite::{Connection, Error, FileStore, Options};
use sqlite_disk::Files;
use std::alloc::Global;

// So many pages of a file are kept in memory. Their room is cleared at each opening: that of the
// toolchain's 2000 takes as long as all else that a command does with a small file.
const CACHE_PAGES: usize = 256;

/// How the files of an office are opened, with this salt for a new log.
pub(crate) fn options_of(salt: u64) -> Options
    ensures seed { result.seed ≡ salt }
    ensures memory { (result.cache_pages ≡ 256) × (result.spill_pages ≡ 2000) }
    ensures log { result.checkpoint_frames ≡ 1000 }
{
    Options {
        cache_pages: CACHE_PAGES,
        ..Options::new(salt)
    }
}

/// Opens the office at a path, or begins one where there is no file. Waits up to so many seconds
/// while another program has the file.
///
/// # Errors
/// `NotAnOffice` where the file stands for no office; `Store` where it cannot be opened, and
/// `Memory`.
pub fn open_office<H: OfficeFile>(
    alloc: Global,
    office: H,
    salts: &H::Salts,
    path: &str,
    wait: u32,
    transform: Shipped,
) -> Result<Books<FileStore<H::Medium>, Shipped>, OpenFault>
    ensures opened { IfOk result (IsOpened (H.image office path.now)
        (OpensIn H.Medium.Disk (H.image office path.now)) transform) }
    ensures finds { IfOk result
        (λ _. (places_of H.Medium.Disk H.Salts.SaltSource H.OfficeFile office None path.now
        wait).finds) }
    ensures fails { IfErr result
        (places_of H.Medium.Disk H.Salts.SaltSource H.OfficeFile office None path.now
        wait).fails }
{
    let (log, db) = match office.find(path, wait) {
        Ok(files) => files,
        Err(fault) => return Err(fault),
    };
    match open_in::<H>(alloc, salts, Files { log, db }, transform) {
        Ok(books) => Ok(books),
        Err(fault) => Err(fault),
    }
}

/// Opens the office at a path where there is a file with tables of one, and begins none where there
/// is not. Waits as `open_office` does.
///
/// # Errors
/// As those of `open_office`.
pub(crate) fn open_present_office<H: OfficeFile>(
    alloc: Global,
    office: H,
    salts: &H::Salts,
    path: &str,
    wait: u32,
    transform: Shipped,
) -> Result<Met<Books<FileStore<H::Medium>, Shipped>>, OpenFault>
    ensures met { IfOk result (IsMet
        (places_of H.Medium.Disk H.Salts.SaltSource H.OfficeFile office None path.now wait)
        (IsOpenedThere (places_of H.Medium.Disk H.Salts.SaltSource H.OfficeFile office None
        path.now wait) transform)) }
    ensures refuses { IfErr result
        (places_of H.Medium.Disk H.Salts.SaltSource H.OfficeFile office None path.now
        wait).refuses }
{
    found_law::<FileStore<H::Medium>>();
    let conn = match meet(alloc, office, salts, path, wait) {
        Ok(Met::There(conn)) => conn,
        Ok(Met::NoOffice) => return Ok(Met::NoOffice),
        Ok(Met::Nothing) => return Ok(Met::Nothing),
        Err(fault) => return Err(fault),
    };
    match Books::open_from(alloc, conn, transform) {
        Ok(books) => Ok(Met::There(books)),
        Err((fault, conn)) => {
            let_refused_go::<H>(RefusedFiles::Connected(conn));
            Err(fault)
        }
    }
}

// Opens the office in two files, or lets them go.
fn open_in<H: OfficeFile>(
    alloc: Global,
    salts: &H::Salts,
    found: Files<H::Medium>,
    transform: Shipped,
) -> Result<Books<FileStore<H::Medium>, Shipped>, OpenFault>
    requires log { IsTrue (H.Medium.Disk.is_usable found.log) }
    requires db { IsTrue (H.Medium.Disk.is_usable found.db) }
    ensures opened { IfOk result (IsOpened (seen_image H.Medium.Disk found.log found.db)
        (OpensIn H.Medium.Disk (seen_image H.Medium.Disk found.log found.db)) transform) }
    ensures refused { IfErr result
        (IsUnopenedIn H.Medium.Disk H.Salts.SaltSource (lets_go_giving H.OfficeFile None false)
        found) }
{
    let Some(salt) = salts.draw() else {
        H::let_go(found.log, found.db);
        return Err(OpenFault::Store);
    };
    match Books::open_files(alloc, found, options_of(salt), transform) {
        Ok(books) => Ok(books),
        Err((fault, refused)) => {
            let_refused_go::<H>(refused);
            Err(fault)
        }
    }
}

/// Lets the files go in which no office is open.
pub(crate) fn let_refused_go<H: OfficeFile>(refused: RefusedFiles<H::Medium>)
    ensures { (left : Files H.Medium) × AreTakenFrom refused left
        × lets_go_giving H.OfficeFile None false left.log left.db }
{
    let files = refused.into_files();
    H::let_go(files.log, files.db);
}

/// Closes the file of an office, so that it alone holds the office. That may fail: what was done
/// stands all the same, and nothing is given back.
pub fn close_office<H: OfficeFile>(books: Books<FileStore<H::Medium>, Shipped>) -> Back<H::Medium>
    ensures { IsClosed H.Medium.Disk (lets_go_giving H.OfficeFile result) (seen_in books) }
{
    close_connection::<H>(books.into_connection())
}

/// Closes the files of a connection, as it is left.
pub(crate) fn close_connection<H: OfficeFile>(
    conn: Connection<FileStore<H::Medium>>,
) -> Back<H::Medium>
    ensures { AreClosed H.Medium.Disk (lets_go_giving H.OfficeFile result) (file_state conn) }
{
    let_go_ended::<H>(conn.close_files())
}

/// Lets the files of a connection go that was ended, be they closed or not.
pub(crate) fn let_go_ended<H: OfficeFile>(
    ended: Result<Files<H::Medium>, (Error, FileStore<H::Medium>)>,
) -> Back<H::Medium>
    ensures closed { IfOk ended
        (λ files. lets_go_giving H.OfficeFile result true files.log files.db) }
    ensures unclosed { IfErr ended (λ e.
        lets_go_giving H.OfficeFile result false (store_files e.1).0 (store_files e.1).1) }
{
    match ended {
        Ok(files) => H::let_go(files.log, files.db),
        Err((_, store)) => {
            let files = store.close();
            H::let_go(files.log, files.db);
            None
        }
    }
}
