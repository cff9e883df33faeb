//! A file that is looked for and is not made: what is there.

ghost use Rattle.std.specs.Prelude.{◌≡◌, ◌↔◌, ◌≤◌, ℕ, List, IfErr, IfNone, IfOk, IfSome};
ghost use Rattle.std.specs.Prelude.{false, IsTrue, None};
ghost use Rattle.sqlite.specs.Files.{image_of};
ghost use Rattle.sqlite_disk.specs.declared.Files.{Files};
ghost use Rattle.sqlite_wal.specs.Files.{outcomes, seen_image};
ghost use Rattle.sqlite_wal.specs.Reads.{AreClean};
ghost use Rattle.sqlite_wal.specs.Recovery.{Image};
ghost use Rattle.book_tables.specs.Holds.{HasOfficeOf, IsUntaken};
ghost use Rattle.book_tables.specs.row.Rows.{present_format};
ghost use Rattle.books.specs.Path.{AreTakenFrom};
ghost use Rattle.books.specs.declared.refused_files.RefusedFiles.TheVariants.{Connected};
ghost use Rattle.office_commands.specs.office.Met.{IsMet};
ghost use Rattle.office_commands.specs.office.Vacant.{IsConnection, IsThere, IsTooShort};
ghost use Rattle.office_commands.specs.port.Back.{ends_look};
ghost use Rattle.office_commands.specs.port.Places.{HasFailed, IsUnopenedIn, places_of};

use crate::office::met::Met;
use crate::office::opening::options_of;
use crate::port::new_log::LogName;
use crate::port::ports::{OfficeFile, SaltSource};
use book_opening::fault_of;
use book_tables::format::presence::format_here;
use books::{OpenFault, RefusedFiles, found_law};
use sqlite::{Connection, FileStore};
use sqlite_disk::{Disk, Files};
use sqlite_schema::schema::Schema;
use std::alloc::{AllocError, Global};
use std::io;

// A log that is shorter has no frame: no page of a database.
const SHORTEST_LOG: usize = 56;

/// Connects with the database in the file at a path, where there is one with tables of an office.
/// No table is made. A file that has none is left as it was. Waits up to so many seconds while
/// another program has the file.
///
/// # Errors
/// `Store` where it cannot be opened, and `Memory`.
pub(crate) fn meet<H: OfficeFile>(
    alloc: Global,
    office: H,
    salts: &H::Salts,
    path: &str,
    wait: u32,
) -> Result<Met<Connection<FileStore<H::Medium>>>, OpenFault>
    ensures met { IfOk result (IsMet
        (places_of H.Medium.Disk H.Salts.SaltSource H.OfficeFile office None path.now wait)
        (IsThere H.Medium.Disk (H.image office path.now) (H.meets office path.now wait))) }
    ensures refuses { IfErr result
        (places_of H.Medium.Disk H.Salts.SaltSource H.OfficeFile office None path.now
        wait).refuses }
{
    found_law::<FileStore<H::Medium>>();
    let new_log = office.new_log(path);
    let found = match office.find_present(path, wait) {
        Ok(found) => found,
        Err(fault) => return Err(fault),
    };
    let Some((mut log, mut db)) = found else {
        return Ok(Met::Nothing);
    };
    match is_blank(&mut log, &mut db) {
        Ok(false) => {}
        Ok(true) => {
            H::let_go_looked(log, db, salts, &new_log);
            return Ok(Met::NoOffice);
        }
        Err(_) => {
            H::let_go_looked(log, db, salts, &new_log);
            return Err(OpenFault::Store);
        }
    }
    let conn = match connect_in::<H>(alloc, salts, Files { log, db }, &new_log) {
        Ok(conn) => conn,
        Err(fault) => return Err(fault),
    };
    match keep_taken::<H>(alloc, conn, salts, &new_log) {
        Ok(Some(conn)) => Ok(Met::There(conn)),
        Ok(None) => Ok(Met::NoOffice),
        Err(fault) => Err(fault),
    }
}

// Whether two files are too short for a database, and stay so in a crash. Nothing is written.
fn is_blank<D: Disk>(log: &mut D, db: &mut D) -> io::Result<bool>
    requires log { IsTrue (D.Disk.is_usable log.old) }
    requires db { IsTrue (D.Disk.is_usable db.old) }
    ensures seen { seen_image D.Disk log.new db.new ≡ seen_image D.Disk log.old db.old }
    ensures crash { (after : Image) → outcomes D.Disk log.new db.new after
        → outcomes D.Disk log.old db.old after }
    ensures usable_log { IfOk result (λ _. IsTrue (D.Disk.is_usable log.new)) }
    ensures usable_db { IfOk result (λ _. IsTrue (D.Disk.is_usable db.new)) }
    ensures blank { IfOk result (λ is. IsTrue is
        → ((after : Image) → outcomes D.Disk log.new db.new after
        → after ≡ seen_image D.Disk log.old db.old)
        × (AreClean D.Disk log.new db.new → IsTooShort (seen_image D.Disk log.old db.old))) }
    ensures failed { IfErr result (λ _. (before : D)
        × HasFailed D.Disk before (record { log = log.new; db = db.new })) }
{
    match are_short(log, db) {
        Ok(true) => {}
        other => return other,
    }
    log.sync()?;
    db.sync()?;
    Ok(true)
}

// Whether two files are too short for a database. Only their lengths are taken.
fn are_short<D: Disk>(log: &mut D, db: &mut D) -> io::Result<bool>
    requires log { IsTrue (D.Disk.is_usable log.old) }
    requires db { IsTrue (D.Disk.is_usable db.old) }
    ensures seen_log { D.Disk.seen log.new ≡ D.Disk.seen log.old }
    ensures seen_db { D.Disk.seen db.new ≡ D.Disk.seen db.old }
    ensures crash_log { (bytes : List ℕ) → D.Disk.may_leave log.new bytes
        → D.Disk.may_leave log.old bytes }
    ensures crash_db { (bytes : List ℕ) → D.Disk.may_leave db.new bytes
        → D.Disk.may_leave db.old bytes }
    ensures usable_log { IsTrue (D.Disk.is_usable log.new) }
    ensures usable_db { IsTrue (D.Disk.is_usable db.new) }
    ensures short { IfOk result (λ is. IsTrue is → IsTrue (D.Disk.is_clean log.new)
        → IsTrue (D.Disk.is_clean db.new) → IsTooShort (seen_image D.Disk log.old db.old)) }
    ensures failed { IfErr result (λ _. (before : D)
        × HasFailed D.Disk before (record { log = log.new; db = db.new })) }
{
    match db.len()? {
        0 => Ok(true),
        // SQLite takes one byte for an empty database, where no log goes with it.
        1 => Ok(log.len()? < SHORTEST_LOG),
        _ => Ok(false),
    }
}

// Connects with the database in two files, or ends the look at them.
fn connect_in<H: OfficeFile>(
    alloc: Global,
    salts: &H::Salts,
    found: Files<H::Medium>,
    new_log: &LogName,
) -> Result<Connection<FileStore<H::Medium>>, OpenFault>
    requires log { IsTrue (H.Medium.Disk.is_usable found.log) }
    requires db { IsTrue (H.Medium.Disk.is_usable found.db) }
    ensures connected { IfOk result (IsConnection H.Medium.Disk (image_of H.Medium.Disk found)) }
    ensures refused { IfErr result
        (IsUnopenedIn H.Medium.Disk H.Salts.SaltSource (ends_look H.OfficeFile new_log.now)
        found) }
{
    found_law::<FileStore<H::Medium>>();
    let Some(salt) = salts.draw() else {
        H::let_go_looked(found.log, found.db, salts, new_log);
        return Err(OpenFault::Store);
    };
    match Connection::open_files(alloc, found, options_of(salt)) {
        Ok(conn) => Ok(conn),
        Err((error, left)) => {
            let files = RefusedFiles::Unconnected(left).into_files();
            H::let_go_looked(files.log, files.db, salts, new_log);
            Err(fault_of(error))
        }
    }
}

// Keeps a connection to a database that has some of the office's tables, or something else under
// their names, and lets the files of any other go as they are.
fn keep_taken<H: OfficeFile>(
    alloc: Global,
    conn: Connection<FileStore<H::Medium>>,
    salts: &H::Salts,
    new_log: &LogName,
) -> Result<Option<Connection<FileStore<H::Medium>>>, OpenFault>
    ensures kept { IfOk result (λ kept. IfSome kept
        (λ it. (it ≡ conn) × (¬ IsUntaken conn.schema))) }
    ensures untaken { IfOk result (λ kept. IfNone kept (IsUntaken conn.schema
        × ((n : ℕ) → n ≤ present_format → HasOfficeOf n conn.schema → n ≡ 0))) }
    ensures vacant { IfOk result (λ kept. IfNone kept ((left : Files H.Medium)
        × AreTakenFrom (Connected conn) left
        × ends_look H.OfficeFile new_log.now left.log left.db)) }
    ensures memory { IfErr result (λ fault. fault ≡ OpenFault.Memory) }
    ensures refused { IfErr result (λ _. (left : Files H.Medium)
        × AreTakenFrom (Connected conn) left
        × ends_look H.OfficeFile new_log.now left.log left.db) }
{
    match is_untaken(alloc, conn.schema()) {
        Ok(false) => Ok(Some(conn)),
        Ok(true) => {
            let files = RefusedFiles::Connected(conn).into_files();
            H::let_go_looked(files.log, files.db, salts, new_log);
            Ok(None)
        }
        Err(_) => {
            let files = RefusedFiles::Connected(conn).into_files();
            H::let_go_looked(files.log, files.db, salts, new_log);
            Err(OpenFault::Memory)
        }
    }
}

// Whether a database has nothing under the names of the office's tables.
fn is_untaken(alloc: Global, schema: &Schema) -> Result<bool, AllocError>
    ensures value { IfOk result (λ none. IsTrue none ↔ IsUntaken schema.now) }
    ensures only { IfOk result (λ none. IsTrue none → (n : ℕ) → n ≤ present_format
        → HasOfficeOf n schema.now → n ≡ 0) }
{
    let found = format_here(alloc, schema)?;
    Ok(found == Some(0))
}
