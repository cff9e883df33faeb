//! Runs on a file of an older format.
ghost use Rattle.std.specs.Prelude.{◌≡◌, IfSome, IsTrue};
ghost use Rattle.sqlite.specs.Files.{image_of};
ghost use Rattle.sqlite_disk.specs.Memory.{memory_bytes, memory_is_usable};
ghost use Rattle.law_witnesses.specs.Older.{HoldOne, IsAuditedAs};

use crate::commands::printed_by_audit;
use crate::files::closed;
use crate::kept::{Kept, KeptFile};
use crate::offices::day;
use crate::programs::files_left;
use crate::runs::{Later, Then, WORDS, back_of, order_said, ports_on, ran};
use books::opening_law;
use command_line::AuditWords;
use office_lines::values::{FIRST_DAY, moment};
use office_rules::Moment;
use program_laws::run_law;
use sqlite::{Connection, FileStore, Files, Options};
use sqlite_disk::{Disk, Memory};
use std::alloc::Global;
use std::test::Fail;
use vend_commands::CommandEnd;

// The files of an office once these statements changed its tables.
fn taken_back(alloc: Global, files: Files<Memory>, sql: &str) -> Option<Files<Memory>>
    requires log { IsTrue (memory_is_usable files.log) }
    requires db { IsTrue (memory_is_usable files.db) }
    ensures one { IfSome result (HoldOne ⟦<Memory as Disk>⟧) }
    ensures log { IfSome result (λ left. IsTrue (memory_is_usable left.log)) }
    ensures db { IfSome result (λ left. IsTrue (memory_is_usable left.db)) }
{
    let Ok(mut conn) = Connection::open_files(alloc, files, Options::new(7)) else {
        return None;
    };
    let Ok(()) = conn.execute_batch(sql) else {
        return None;
    };
    match closed(conn) {
        Some(left) => Some(left),
        None => None,
    }
}

// Another file of the same bytes.
pub(crate) fn copied(alloc: Global, file: &Memory) -> Option<Memory>
    ensures bytes { IfSome result (λ copy. memory_bytes copy ≡ memory_bytes file.now) }
    ensures usable { IfSome result (λ copy. IsTrue (memory_is_usable copy)) }
{
    let mut copy = Memory::new(alloc);
    let Ok(()) = copy.write_at(0, file.bytes()) else {
        return None;
    };
    if copy.may_be_used() && copy.bytes() == file.bytes() {
        Some(copy)
    } else {
        None
    }
}

// What an audit prints of an office in these files, where it ends as done.
fn audited(alloc: Global, files: Files<Memory>) -> Option<Vec<u8>>
    requires log { IsTrue (memory_is_usable files.log) }
    requires db { IsTrue (memory_is_usable files.db) }
    ensures { IfSome result
        (λ text. IsAuditedAs (image_of ⟦<Memory as Disk>⟧ files) text.items) }
{
    let words = AuditWords {
        file: "office.db",
        wait: 0,
        transform: None,
    };
    let Some((end, text)) = printed_by_audit(alloc, KeptFile::<()>::new(files), &words) else {
        return None;
    };
    match end {
        CommandEnd::Done => Some(text),
        _ => None,
    }
}

// A run by words that say an order, on a file of an older format, which it brings to the present
// one; and a run by the same words on what it gave back, on a machine of another type. An audit of
// a copy has shown which office the file stands for. Both print one receipt.
fn sold_from_older(
    alloc: Global,
    files: Files<Memory>,
    sql: &str,
    moment: Moment,
    words: &[&str],
) -> Option<(Vec<u8>, Vec<u8>, Vec<u8>)>
    requires log { IsTrue (memory_is_usable files.log) }
    requires db { IsTrue (memory_is_usable files.db) }
    ensures { IfSome result (λ texts. texts.2.items ≡ texts.1.items) }
{
    opening_law::<FileStore<Memory>>();
    run_law::<Kept<Then>>();
    run_law::<Kept<Later>>();
    let Some(_said) = order_said(alloc, words) else {
        return None;
    };
    let Some(older) = taken_back(alloc, files, sql) else {
        return None;
    };
    let Some(log) = copied(alloc, &older.log) else {
        return None;
    };
    let Some(db) = copied(alloc, &older.db) else {
        return None;
    };
    let Some(told) = audited(alloc, Files { log, db }) else {
        return None;
    };
    let Some((ended, first)) = ran(alloc, ports_on::<Then>(older, moment.secs()), words) else {
        return None;
    };
    let CommandEnd::Done = ended.end else {
        return None;
    };
    let Some((log, db)) = back_of(ended) else {
        return None;
    };
    if !log.may_be_used() || !db.may_be_used() {
        return None;
    }
    let left = Files { log, db };
    let Some((again, second)) = ran(alloc, ports_on::<Later>(left, moment.secs()), words) else {
        return None;
    };
    match again.end {
        CommandEnd::Done => Some((told, first, second)),
        _ => None,
    }
}

// Takes tables of the present format back to the first one.
const FIRST_FORMAT: &str = "DROP TABLE dated_steps; DROP TABLE meter_bases; \
    DROP TABLE shift_totals; DROP TABLE month_tenths; DROP TABLE last_ids; \
    UPDATE about SET format = 1";

const SOUND: &[u8] = b"sound format 1 tariffs 1 meters 1 shifts 1 sales 1\n";

#[test]
fn runs_sell_from_a_file_of_the_first_format(rt: HostRuntime) -> Result<(), Fail> {
    let ats = day(rt.alloc(), &[])?;
    let files = files_left(rt.alloc(), &ats).ok_or("no files")?;
    let (told, first, second) = sold_from_older(
        rt.alloc(),
        files,
        FIRST_FORMAT,
        moment(FIRST_DAY)?,
        &WORDS,
    ).ok_or("no receipt")?;
    assert_eq!(rt; told.as_slice(), SOUND);
    assert!(rt; first.starts_with(b"SALE 2\n"));
    assert_eq!(rt; second, first);
    Ok(())
}
