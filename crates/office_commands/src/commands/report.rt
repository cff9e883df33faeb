ghost use Rattle.std.specs.Prelude.{◌≡◌};
ghost use Rattle.sts_fields.specs.Moment.{first_moment};
ghost use Rattle.office_commands.specs.port.Places.{places_of};
ghost use Rattle.office_commands.specs.commands.Reported.{IsReported, PrintsPaper};
ghost use Rattle.vend_ports.specs.print.Told.{outputs};
ghost use Rattle.office_commands.specs.office.Visited.{seen_in};

use crate::office::asking::ask;
use crate::office::empty::print_empty;
use crate::office::met::Met;
use crate::office::opening::{close_office, open_present_office};
use crate::office::paper::Paper;
use crate::port::ended::Ended;
use crate::port::ports::OfficeFile;
use crate::port::progress::Progress;
use crate::print::opening::put_opening;
use crate::print::sales::print_sales;
use crate::print::totals::print_totals;
use books::Books;
use command_line::{FilePlace, Shipped};
use office_rules::Request;
use sqlite::{Alter, FileStore};
use sqlite_trees::store::Store;
use std::alloc::Global;
use std::io::Write;
use sts_fields::Moment;
use vend_ports::{CommandEnd, Watched, put_line};

/// Opens the office where its file is there, prints a paper of it, and closes its file; or tells
/// why it is not opened. A file that has no office is left as it was, and the paper is that of the
/// empty one. No token is written, so any transform serves.
pub(crate) fn run<H: OfficeFile, P: Progress, O: Write, E: Write>(
    file: &FilePlace<'_>,
    paper: Paper,
    alloc: Global,
    office: H,
    progress: &mut P,
    out: &mut Watched<'_, O>,
    err: &mut Watched<'_, E>,
) -> Ended<H::Medium>
    ensures { IsReported ⟦<FileStore<H::Medium> as Store>⟧
        (places_of H.Medium.Disk H.Salts.SaltSource H.OfficeFile office result.back) file.now
        paper (outputs out.old out.new err.old err.new) result.end }
{
    let salts = office.salts();
    match open_present_office(alloc, office, &salts, file.path, file.wait, Shipped::Plain) {
        Ok(Met::There(mut books)) => {
            let end = print(alloc, &mut books, paper, progress, out, err);
            let back = close_office::<H>(books);
            Ended { end, back }
        }
        Ok(Met::NoOffice) => {
            let end = print_empty(alloc, paper, out, err);
            Ended { end, back: None }
        }
        Ok(Met::Nothing) => {
            put_line(&[b"file"], err);
            Ended {
                end: CommandEnd::Refused,
                back: None,
            }
        }
        Err(fault) => {
            put_opening(fault, err);
            Ended {
                end: CommandEnd::Refused,
                back: None,
            }
        }
    }
}

// Prints a paper of books that are open, or tells why not.
fn print<S: Alter, P: Progress, O: Write, E: Write>(
    alloc: Global,
    books: &mut Books<S, Shipped>,
    paper: Paper,
    progress: &mut P,
    out: &mut Watched<'_, O>,
    err: &mut Watched<'_, E>,
) -> CommandEnd
    ensures { PrintsPaper paper (seen_in books.old) (seen_in books.new)
        (outputs out.old out.new err.old err.new) result }
{
    match paper {
        Paper::Shift(number) => {
            let request = Request::ShiftReport(number);
            ask(alloc, books, first_moment(), request, out, err)
        }
        Paper::Receipt(number) => {
            let request = Request::Reprint(number);
            ask(alloc, books, first_moment(), request, out, err)
        }
        Paper::Totals(number) => print_totals(books, number, out, err),
        Paper::Sales => print_sales(alloc, books, progress, out, err),
    }
}

// The books take a moment with each request; these papers are the same at every moment.
fn first_moment() -> Moment
    ensures { result ≡ first_moment }
{
    Moment::of_secs(Moment::FIRST).unwrap()
}
