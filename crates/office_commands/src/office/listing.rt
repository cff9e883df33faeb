//! The members of a list of an open office, printed page by page.

ghost use Rattle.books.specs.Keeps.{seen};
ghost use Rattle.office_commands.specs.office.OnlyRead.{AreOnlyRead};
ghost use Rattle.office_commands.specs.print.Listing.{IsListPage, IsListed};
ghost use Rattle.vend_ports.specs.print.Told.{outputs};

use books::{Books, Lookup};
use desk_commands::put_page;
use office_rules::{Moment, Refusal};
use sqlite::Alter;
use std::alloc::Global;
use std::io::Write;
use sts_token::BlockTransform;
use vend_ports::{CommandEnd, Watched, put_refusal};

/// Prints the pages of a list at a moment, or tells why it stops. Where the output fails it goes no
/// further.
pub(crate) fn list<S: Alter, T: BlockTransform, O: Write, E: Write>(
    alloc: Global,
    books: &mut Books<S, T>,
    moment: Moment,
    list: Lookup,
    json: bool,
    out: &mut Watched<'_, O>,
    err: &mut Watched<'_, E>,
) -> CommandEnd
    ensures { IsListed moment list json (seen books.old) (seen books.new)
        (outputs out.old out.new err.old err.new) result }
{
    let mut next = list;
    // No file has so many pages.
    for page in 0..u64::MAX {
        match print_page(alloc, books, moment, next, json, page == 0, out) {
            Ok(Some(behind)) => next = behind,
            Ok(None) => return CommandEnd::Done,
            Err(refusal) => {
                put_refusal(refusal, err);
                return CommandEnd::Refused;
            }
        }
    }
    CommandEnd::Done
}

// Prints the first page of a list, and answers the list behind it: none where the page is not full,
// and none where the output did not take it.
fn print_page<S: Alter, T: BlockTransform, O: Write>(
    alloc: Global,
    books: &mut Books<S, T>,
    moment: Moment,
    list: Lookup,
    json: bool,
    is_first: bool,
    out: &mut Watched<'_, O>,
) -> Result<Option<Lookup>, Refusal>
    ensures page { IsListPage moment list json is_first (seen books.old) (seen books.new)
        out.old out.new result }
    ensures reads { AreOnlyRead (seen books.old) (seen books.new) }
{
    let page = match books.look_up(moment, &list) {
        Ok(page) => page,
        Err(refusal) => return Err(refusal),
    };
    match put_page(alloc, &page, json, is_first, out) {
        Ok(behind) => Ok(behind),
        Err(_) => Err(Refusal::Memory),
    }
}
