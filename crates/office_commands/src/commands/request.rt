ghost use Rattle.office_commands.specs.commands.Asked.{IsAskedAt};
ghost use Rattle.vend_ports.specs.port.Dial.{dial_of};
ghost use Rattle.office_commands.specs.port.Places.{places_of};
ghost use Rattle.office_commands.specs.port.Back.{is_untouched};
ghost use Rattle.vend_ports.specs.commands.Timed.{IsTimed};
ghost use Rattle.vend_ports.specs.print.Told.{outputs};

use crate::office::asking::ask;
use crate::office::opening::{close_office, open_office};
use crate::port::ended::Ended;
use crate::port::ports::OfficeFile;
use crate::print::opening::put_opening;
use command_line::FilePlace;
use conversation::Clock;
use office_rules::Request;
use sqlite::FileStore;
use sqlite_trees::store::Store;
use std::alloc::Global;
use std::io::Write;
use sts_fields::Moment;
use vend_ports::{CommandEnd, Watched, moment_or_now, put_no_moment};

/// Makes the request to the office, at the moment of the words or else of the clock, and prints the
/// answer.
pub(crate) fn run<H: OfficeFile, C: Clock, O: Write, E: Write>(
    file: &FilePlace<'_>,
    request: Request,
    alloc: Global,
    office: H,
    clock: &mut C,
    out: &mut Watched<'_, O>,
    err: &mut Watched<'_, E>,
) -> Ended<H::Medium>
    ensures { let o = outputs out.old out.new err.old err.new in
        IsTimed (is_untouched H.OfficeFile office result.back) file.now.at
        (dial_of C.Clock clock.old)
        (λ moment. IsAskedAt ⟦<FileStore<H::Medium> as Store>⟧
        (places_of H.Medium.Disk H.Salts.SaltSource H.OfficeFile office result.back)
        file.now.transform file.now.path.now file.now.wait moment request o result.end) o
        result.end }
{
    match moment_or_now(file.at, clock) {
        Some(moment) => ask_at(file, request, alloc, office, moment, out, err),
        None => {
            H::leave(office);
            put_no_moment(err);
            Ended {
                end: CommandEnd::Refused,
                back: None,
            }
        }
    }
}

/// Opens the office in the file, makes the request at a moment, prints the answer, and closes the
/// file; or tells why the file is not opened. The life of the office ends with the request.
pub(crate) fn ask_at<H: OfficeFile, O: Write, E: Write>(
    file: &FilePlace<'_>,
    request: Request,
    alloc: Global,
    office: H,
    moment: Moment,
    out: &mut Watched<'_, O>,
    err: &mut Watched<'_, E>,
) -> Ended<H::Medium>
    ensures { IsAskedAt ⟦<FileStore<H::Medium> as Store>⟧
        (places_of H.Medium.Disk H.Salts.SaltSource H.OfficeFile office result.back)
        file.now.transform file.now.path.now file.now.wait moment request
        (outputs out.old out.new err.old err.new) result.end }
{
    let salts = office.salts();
    match open_office(alloc, office, &salts, file.path, file.wait, file.transform) {
        Ok(mut books) => {
            let end = ask(alloc, &mut books, moment, request, out, err);
            let back = close_office::<H>(books);
            Ended { end, back }
        }
        Err(fault) => {
            put_opening(fault, err);
            Ended {
                end: CommandEnd::Refused,
                back: None,
            }
        }
    }
}
