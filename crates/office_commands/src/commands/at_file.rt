//! What an office in a file is asked, and what is printed of it.

ghost use Rattle.office_commands.specs.commands.AtFile.{IsAskedOfFile, IsFoundInFile};
ghost use Rattle.office_commands.specs.commands.AtFile.{IsOneAskedOfFile, IsRequestedOfFile};
ghost use Rattle.office_commands.specs.port.Back.{is_untouched};
ghost use Rattle.office_commands.specs.port.Places.{places_of};
ghost use Rattle.vend_ports.specs.port.Dial.{dial_of};
ghost use Rattle.vend_ports.specs.port.Texts.{texts_of};
ghost use Rattle.vend_ports.specs.print.Told.{outputs};

use crate::commands::{import, look_up, report, request};
use crate::office::paper::Paper;
use crate::port::ended::Ended;
use crate::port::ports::OfficeFile;
use crate::port::progress::Progress;
use asks::{Ask, Lookup};
use command_line::{AskWords, FilePlace};
use conversation::Clock;
use office_rules::Request;
use sqlite::FileStore;
use sqlite_trees::store::Store;
use std::alloc::Global;
use std::io::Write;
use vend_ports::{TextFiles, Watched};

/// Asks the office in the file what the words ask, and prints what it answers, or why it does not.
///
/// `report`, `show`, `list` and `offer` make no file. Only an import reads a file of rows. It tells
/// `progress` how far an export is.
pub fn run<H: OfficeFile, F: TextFiles, C: Clock, P: Progress, O: Write, E: Write>(
    file: &FilePlace<'_>,
    ask: AskWords<'_>,
    json: bool,
    alloc: Global,
    office: H,
    texts: F,
    clock: &mut C,
    progress: &mut P,
    out: &mut Watched<'_, O>,
    err: &mut Watched<'_, E>,
) -> Ended<H::Medium>
    ensures { IsAskedOfFile ⟦<FileStore<H::Medium> as Store>⟧
        (places_of H.Medium.Disk H.Salts.SaltSource H.OfficeFile office result.back)
        (is_untouched H.OfficeFile office result.back) (texts_of F.TextFiles texts)
        (dial_of C.Clock clock.old) file.now ask.entry json
        (outputs out.old out.new err.old err.new) result.end }
{
    match ask {
        AskWords::Import(kind, csv) => {
            import::run(file, kind, csv, alloc, office, texts, clock, out, err)
        }
        AskWords::Ask(ask) => {
            F::leave(texts);
            ask_one(file, ask, json, alloc, office, clock, progress, out, err)
        }
        AskWords::List(list) => {
            F::leave(texts);
            look_up::run(file, true, &list, json, alloc, office, clock, out, err)
        }
        AskWords::Export => {
            F::leave(texts);
            report::run(file, Paper::Sales, alloc, office, progress, out, err)
        }
    }
}

// Asks one thing.
fn ask_one<H: OfficeFile, C: Clock, P: Progress, O: Write, E: Write>(
    file: &FilePlace<'_>,
    ask: Ask<'_>,
    json: bool,
    alloc: Global,
    office: H,
    clock: &mut C,
    progress: &mut P,
    out: &mut Watched<'_, O>,
    err: &mut Watched<'_, E>,
) -> Ended<H::Medium>
    ensures { IsOneAskedOfFile ⟦<FileStore<H::Medium> as Store>⟧
        (places_of H.Medium.Disk H.Salts.SaltSource H.OfficeFile office result.back)
        (is_untouched H.OfficeFile office result.back) (dial_of C.Clock clock.old) file.now
        ask.entry json (outputs out.old out.new err.old err.new) result.end }
{
    match ask {
        Ask::Import(kind, csv) => {
            import::run_rows(file, kind, &csv, alloc, office, clock, out, err)
        }
        Ask::Do(request) => ask_request(file, request, alloc, office, clock, progress, out, err),
        Ask::Receipt(number) => {
            let paper = Paper::Receipt(number);
            report::run(file, paper, alloc, office, progress, out, err)
        }
        Ask::Look(lookup) => {
            find(
                file, &lookup, json, alloc, office, clock, progress, out, err,
            )
        }
    }
}

// Makes a request. The report of a shift is a paper of an office that is there.
fn ask_request<H: OfficeFile, C: Clock, P: Progress, O: Write, E: Write>(
    file: &FilePlace<'_>,
    request: Request,
    alloc: Global,
    office: H,
    clock: &mut C,
    progress: &mut P,
    out: &mut Watched<'_, O>,
    err: &mut Watched<'_, E>,
) -> Ended<H::Medium>
    ensures { IsRequestedOfFile ⟦<FileStore<H::Medium> as Store>⟧
        (places_of H.Medium.Disk H.Salts.SaltSource H.OfficeFile office result.back)
        (is_untouched H.OfficeFile office result.back) (dial_of C.Clock clock.old) file.now
        request (outputs out.old out.new err.old err.new) result.end }
{
    match request {
        Request::ShiftReport(number) => {
            let paper = Paper::Shift(number);
            report::run(file, paper, alloc, office, progress, out, err)
        }
        other => request::run(file, other, alloc, office, clock, out, err),
    }
}

// Looks one thing up. The totals of a shift are a paper.
fn find<H: OfficeFile, C: Clock, P: Progress, O: Write, E: Write>(
    file: &FilePlace<'_>,
    lookup: &Lookup,
    json: bool,
    alloc: Global,
    office: H,
    clock: &mut C,
    progress: &mut P,
    out: &mut Watched<'_, O>,
    err: &mut Watched<'_, E>,
) -> Ended<H::Medium>
    ensures { IsFoundInFile ⟦<FileStore<H::Medium> as Store>⟧
        (places_of H.Medium.Disk H.Salts.SaltSource H.OfficeFile office result.back)
        (is_untouched H.OfficeFile office result.back) (dial_of C.Clock clock.old) file.now
        lookup.now json (outputs out.old out.new err.old err.new) result.end }
{
    match lookup {
        Lookup::ShiftTotals(number) => {
            let paper = Paper::Totals(*number);
            report::run(file, paper, alloc, office, progress, out, err)
        }
        _ => look_up::run(file, false, lookup, json, alloc, office, clock, out, err),
    }
}
