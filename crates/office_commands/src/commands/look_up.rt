//! Something that is looked up in the office of a file: `show`, `list`, and `quote` of a file.

ghost use Rattle.office_commands.specs.commands.LookedUp.{IsShown, IsShownAt};
ghost use Rattle.vend_ports.specs.port.Dial.{dial_of};
ghost use Rattle.office_commands.specs.port.Places.{places_of};
ghost use Rattle.office_commands.specs.port.Back.{is_untouched};
ghost use Rattle.vend_ports.specs.print.Told.{outputs};

use crate::office::empty::read_empty;
use crate::office::looking::read;
use crate::office::met::Met;
use crate::office::opening::{close_office, open_present_office};
use crate::port::ended::Ended;
use crate::port::ports::OfficeFile;
use crate::print::opening::put_opening;
use asks::Lookup;
use command_line::{FilePlace, Shipped};
use conversation::Clock;
use sqlite::FileStore;
use sqlite_trees::store::Store;
use std::alloc::Global;
use std::io::Write;
use sts_fields::Moment;
use vend_ports::{CommandEnd, Watched, moment_or_now, put_line, put_no_moment};

/// Looks something up at the moment that is given or else at the clock's, and prints what is found.
pub(crate) fn run<H: OfficeFile, C: Clock, O: Write, E: Write>(
    file: &FilePlace<'_>,
    paged: bool,
    lookup: &Lookup,
    json: bool,
    alloc: Global,
    office: H,
    clock: &mut C,
    out: &mut Watched<'_, O>,
    err: &mut Watched<'_, E>,
) -> Ended<H::Medium>
    ensures { IsShown ⟦<FileStore<H::Medium> as Store>⟧
        (places_of H.Medium.Disk H.Salts.SaltSource H.OfficeFile office result.back)
        (is_untouched H.OfficeFile office result.back) (dial_of C.Clock clock.old)
        file.now paged lookup.now json (outputs out.old out.new err.old err.new) result.end }
{
    match moment_or_now(file.at, clock) {
        Some(moment) => run_at(file, paged, lookup, json, alloc, office, moment, out, err),
        None => {
            H::leave(office);
            put_no_moment(err);
            Ended {
                end: CommandEnd::Refused,
                back: None,
            }
        }
    }
}

// Opens the office where its file is there, looks something up at a moment, prints what is found,
// and closes its file; or tells why it is not opened. Where the file has no office, it is left as
// it was, and the empty one is looked at. No token is written, so any transform serves.
fn run_at<H: OfficeFile, O: Write, E: Write>(
    file: &FilePlace<'_>,
    paged: bool,
    lookup: &Lookup,
    json: bool,
    alloc: Global,
    office: H,
    moment: Moment,
    out: &mut Watched<'_, O>,
    err: &mut Watched<'_, E>,
) -> Ended<H::Medium>
    ensures { IsShownAt ⟦<FileStore<H::Medium> as Store>⟧
        (places_of H.Medium.Disk H.Salts.SaltSource H.OfficeFile office result.back)
        file.now.path.now file.now.wait moment paged lookup.now json
        (outputs out.old out.new err.old err.new) result.end }
{
    let salts = office.salts();
    match open_present_office(alloc, office, &salts, file.path, file.wait, Shipped::Plain) {
        Ok(Met::There(mut books)) => {
            let end = read(alloc, &mut books, moment, paged, lookup, json, out, err);
            let back = close_office::<H>(books);
            Ended { end, back }
        }
        Ok(Met::NoOffice) => {
            let end = read_empty(alloc, moment, paged, lookup, json, out, err);
            Ended { end, back: None }
        }
        Ok(Met::Nothing) => {
            put_line(&[b"file"], err);
            Ended {
                end: CommandEnd::Refused,
                back: None,
            }
        }
        Err(fault) => {
            put_opening(fault, err);
            Ended {
                end: CommandEnd::Refused,
                back: None,
            }
        }
    }
}
