//! The laws of what an opening finds in files.
ghost use Rattle.std.specs.Prelude.{◌≡◌, IfSome, IsTrue};
ghost use Rattle.sqlite.specs.Closing.{IsCopied};
ghost use Rattle.sqlite_disk.specs.Memory.{memory_is_usable};
ghost use Rattle.sqlite_wal.specs.Reads.{AreClean};

use crate::offices::day;
use book_states::Lookup;
use books::{Books, found_law, opening_law};
use office_lines::values::{FIRST_DAY, moment};
use office_rules::{Moment, Stamped};
use sqlite::{Connection, FileStore, Files, Options};
use sqlite_disk::{Disk, Memory};
use std::alloc::Global;
use std::test::Fail;
use sts_token::Plain;

// The files of a connection, closed whole.
pub(crate) fn closed(conn: Connection<FileStore<Memory>>) -> Option<Files<Memory>>
    ensures copied { IfSome result (λ files. AreClean ⟦<Memory as Disk>⟧ files.log files.db
        → IsCopied conn files) }
    ensures log { IfSome result (λ files. IsTrue (memory_is_usable files.log)) }
    ensures db { IfSome result (λ files. IsTrue (memory_is_usable files.db)) }
{
    match conn.close_files() {
        Ok(files) => Some(files),
        Err((_error, store)) => {
            drop(store.close());
            None
        }
    }
}

// Two files in memory in which nothing was made yet, and on which books serve requests; then these
// books are closed, and others opened on what they left. The numbers of their next sales.
fn opened_again(alloc: Global, ats: &[Stamped], moment: Moment) -> Option<(u64, u64)>
    ensures { IfSome result (λ both. both.1 ≡ both.0) }
{
    opening_law::<FileStore<Memory>>();
    found_law::<FileStore<Memory>>();
    let files = Files {
        log: Memory::new(alloc),
        db: Memory::new(alloc),
    };
    let Ok(mut books) = Books::open_files(alloc, files, Options::new(7), Plain) else {
        return None;
    };
    let Ok(_replies) = books.serve_all(ats) else {
        return None;
    };
    let Ok(_found) = books.look_up(moment, &Lookup::Health) else {
        return None;
    };
    let before = books.next_number();
    let conn = books.into_connection();
    let _live = conn.schema();
    let _settled = conn.is_autocommit();
    let Some(left) = closed(conn) else {
        return None;
    };
    match Books::open_files(alloc, left, Options::new(7), Plain) {
        Ok(again) => Some((before, again.next_number())),
        Err(_) => None,
    }
}

#[test]
fn an_opening_finds_what_was_closed(rt: HostRuntime) -> Result<(), Fail> {
    let ats = day(rt.alloc(), &[])?;
    let (before, again) = opened_again(rt.alloc(), &ats, moment(FIRST_DAY)?).ok_or(
        "not opened again",
    )?;
    assert_eq!(rt; before, 2);
    assert_eq!(rt; again, 2);
    Ok(())
}
