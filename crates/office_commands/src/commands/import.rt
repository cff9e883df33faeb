ghost use Rattle.std.specs.Prelude.{◌≡◌, List};
ghost use Rattle.papers.specs.File.{AreFileRecords, Fields};
ghost use Rattle.papers.specs.Import.{IsReading};
ghost use Rattle.office_commands.specs.commands.Imported.{IsFileImported, IsImported};
ghost use Rattle.office_commands.specs.commands.Imported.{refusal_of_rows};
ghost use Rattle.vend_ports.specs.port.Dial.{dial_of};
ghost use Rattle.office_commands.specs.port.Places.{places_of};
ghost use Rattle.office_commands.specs.port.Back.{is_untouched};
ghost use Rattle.vend_ports.specs.port.Texts.{texts_of};
ghost use Rattle.vend_ports.specs.commands.Timed.{IsTimed};
ghost use Rattle.vend_ports.specs.print.Told.{outputs};

use crate::commands::request::ask_at;
use crate::port::ended::Ended;
use crate::port::ports::OfficeFile;
use asks::Csv;
use command_line::FilePlace;
use conversation::Clock;
use office_rules::{Refusal, Request, Rows};
use papers::{FileKind, RowFault, read_meters, read_tariffs};
use sqlite::FileStore;
use sqlite_trees::store::Store;
use std::alloc::Global;
use std::io::Write;
use sts_fields::Moment;
use vend_ports::{
    CommandEnd, TextFiles, Watched, moment_or_now, put_no_moment, put_read_fault, put_refusal,
};

/// Reads the file of rows, adds them to the office, at the moment of the words or else of the
/// clock, and prints how many were new.
pub(crate) fn run<H: OfficeFile, F: TextFiles, C: Clock, O: Write, E: Write>(
    file: &FilePlace<'_>,
    kind: FileKind,
    csv: &str,
    alloc: Global,
    office: H,
    texts: F,
    clock: &mut C,
    out: &mut Watched<'_, O>,
    err: &mut Watched<'_, E>,
) -> Ended<H::Medium>
    ensures { let o = outputs out.old out.new err.old err.new in
        IsTimed (is_untouched H.OfficeFile office result.back × F.leaves F texts) file.now.at
        (dial_of C.Clock clock.old)
        (λ moment. IsFileImported ⟦<FileStore<H::Medium> as Store>⟧
        (places_of H.Medium.Disk H.Salts.SaltSource H.OfficeFile office result.back)
        (is_untouched H.OfficeFile office result.back) (texts_of F.TextFiles texts) file.now kind
        csv.now moment o result.end) o result.end }
{
    match moment_or_now(file.at, clock) {
        Some(moment) => import_at(file, kind, csv, alloc, office, texts, moment, out, err),
        None => {
            H::leave(office);
            F::leave(texts);
            put_no_moment(err);
            Ended {
                end: CommandEnd::Refused,
                back: None,
            }
        }
    }
}

/// Adds these rows to the office in the same way.
pub(crate) fn run_rows<H: OfficeFile, C: Clock, O: Write, E: Write>(
    file: &FilePlace<'_>,
    kind: FileKind,
    csv: &Csv<'_>,
    alloc: Global,
    office: H,
    clock: &mut C,
    out: &mut Watched<'_, O>,
    err: &mut Watched<'_, E>,
) -> Ended<H::Medium>
    ensures { let o = outputs out.old out.new err.old err.new in
        IsTimed (is_untouched H.OfficeFile office result.back) file.now.at
        (dial_of C.Clock clock.old)
        (λ moment. IsImported ⟦<FileStore<H::Medium> as Store>⟧
        (places_of H.Medium.Disk H.Salts.SaltSource H.OfficeFile office result.back)
        (is_untouched H.OfficeFile office result.back) file.now kind moment csv.now o
        result.end) o result.end }
{
    match moment_or_now(file.at, clock) {
        Some(moment) => add(file, kind, alloc, office, moment, csv.bytes(), out, err),
        None => {
            H::leave(office);
            put_no_moment(err);
            Ended {
                end: CommandEnd::Refused,
                back: None,
            }
        }
    }
}

// Reads the file and adds its rows, at this moment.
fn import_at<H: OfficeFile, F: TextFiles, O: Write, E: Write>(
    file: &FilePlace<'_>,
    kind: FileKind,
    csv: &str,
    alloc: Global,
    office: H,
    texts: F,
    moment: Moment,
    out: &mut Watched<'_, O>,
    err: &mut Watched<'_, E>,
) -> Ended<H::Medium>
    ensures { IsFileImported ⟦<FileStore<H::Medium> as Store>⟧
        (places_of H.Medium.Disk H.Salts.SaltSource H.OfficeFile office result.back)
        (is_untouched H.OfficeFile office result.back) (texts_of F.TextFiles texts) file.now kind
        csv.now moment (outputs out.old out.new err.old err.new) result.end }
{
    match texts.read(csv) {
        Ok(bytes) => add(file, kind, alloc, office, moment, &bytes, out, err),
        Err(fault) => {
            H::leave(office);
            put_read_fault(fault, err);
            Ended {
                end: CommandEnd::Refused,
                back: None,
            }
        }
    }
}

// Adds the rows that these bytes have.
fn add<H: OfficeFile, O: Write, E: Write>(
    file: &FilePlace<'_>,
    kind: FileKind,
    alloc: Global,
    office: H,
    moment: Moment,
    bytes: &[u8],
    out: &mut Watched<'_, O>,
    err: &mut Watched<'_, E>,
) -> Ended<H::Medium>
    ensures { IsImported ⟦<FileStore<H::Medium> as Store>⟧
        (places_of H.Medium.Disk H.Salts.SaltSource H.OfficeFile office result.back)
        (is_untouched H.OfficeFile office result.back) file.now kind moment bytes.now
        (outputs out.old out.new err.old err.new) result.end }
{
    match rows_of(alloc, kind, bytes) {
        Ok(rows) => ask_at(file, Request::Import(rows), alloc, office, moment, out, err),
        Err(fault) => {
            H::leave(office);
            put_refusal(refusal_of(fault), err);
            Ended {
                end: CommandEnd::Refused,
                back: None,
            }
        }
    }
}

// The rows that these bytes have, or their first fault.
fn rows_of(alloc: Global, kind: FileKind, bytes: &[u8]) -> Result<Rows, RowFault>
    ensures { (records : List Fields) × AreFileRecords bytes.now records
        × IsReading kind records result }
{
    match kind {
        FileKind::Meters => read_meters(alloc, bytes),
        FileKind::Tariffs => read_tariffs(alloc, bytes),
    }
}

// The refusal of a file that is not read.
fn refusal_of(fault: RowFault) -> Refusal
    ensures { result ≡ refusal_of_rows fault }
{
    match fault {
        RowFault::At(row, cause) => Refusal::ImportRow(row, cause),
        RowFault::Memory => Refusal::Memory,
    }
}
