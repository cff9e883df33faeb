//! The last sale of an office, by a look that leaves its file as it is.

ghost use Rattle.std.specs.Prelude.{◌≡◌, false, IsTrue};

use book_tables::PRESENT_FORMAT;
use book_tables::format::presence::format_here;
use books::Books;
use command_line::Shipped;
use office_commands::{MachineFile, OfficeFile, SaltSource};
use sqlite::{Connection, FileStore, Options, Start};
use sqlite_disk::{Disk, Files};
use std::alloc::Global;
use sts_fields::Moment;

// A look does not wait for another program.
const WAIT: u32 = 0;

// A shorter file has no page of a database. An opening would make one there.
const SHORTEST: usize = 512;

// So many pages of a file are kept in memory, as by a command.
const CACHE_PAGES: usize = 256;

/// The moment of the last sale in the file at a path on this computer, as `last_moment` finds it.
/// `start` stands for what the file holds.
pub(crate) fn last_moment_here<B: Start>(rt: &HostRuntime, start: B, path: &str) -> Option<Moment> {
    last_moment(rt.alloc(), MachineFile { rt, start }, path)
}

// The moment of the last sale in the file at a path, where there is one, it has an office of the
// present format, and no other program has it. It is let go as it was found.
fn last_moment<H: OfficeFile>(alloc: Global, office: H, path: &str) -> Option<Moment> {
    let salts = office.salts();
    let new_log = office.new_log(path);
    let Ok(Some((log, db))) = office.find_present(path, WAIT) else {
        return None;
    };
    let (moment, files) = moment_in(alloc, salts.draw(), Files { log, db });
    H::let_go_looked(files.log, files.db, &salts, &new_log);
    moment
}

// The moment of the last sale in two files, with this salt for a new log; and the files again.
fn moment_in<D: Disk + Drop>(
    alloc: Global,
    salt: Option<u64>,
    mut files: Files<D>,
) -> (Option<Moment>, Files<D>)
    requires log { IsTrue (D.Disk.is_usable files.log) }
    requires db { IsTrue (D.Disk.is_usable files.db) }
{
    let Some(salt) = salt else {
        return (None, files);
    };
    match files.db.len() {
        Ok(SHORTEST..) => {}
        _ => return (None, files),
    }
    let options = Options {
        cache_pages: CACHE_PAGES,
        ..Options::new(salt)
    };
    match Connection::open_files(alloc, files, options) {
        Ok(conn) => moment_over(alloc, conn),
        Err((_, left)) => (None, left.into_files()),
    }
}

// The same over a connection.
fn moment_over<D: Disk + Drop>(
    alloc: Global,
    conn: Connection<FileStore<D>>,
) -> (Option<Moment>, Files<D>)
    requires { conn.in_transaction ≡ false }
{
    // The opening of another office would make its tables.
    match format_here(alloc, conn.schema()) {
        Ok(Some(PRESENT_FORMAT)) => {}
        _ => return (None, conn.into_store().close()),
    }
    match Books::open_from(alloc, conn, Shipped::Plain) {
        Ok(books) => {
            let moment = books.health().last_moment;
            (moment, books.into_connection().into_store().close())
        }
        Err((_, conn)) => (None, conn.into_store().close()),
    }
}
