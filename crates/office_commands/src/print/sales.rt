//! All sales of an open office, printed as CSV in pages.

ghost use Rattle.std.specs.Prelude.{◌≡◌, ◌==◌};
ghost use Rattle.books.specs.Keeps.{seen};
ghost use Rattle.office_commands.specs.office.OnlyRead.{AreOnlyRead};
ghost use Rattle.office_commands.specs.print.Exported.{IsExported, IsPage, number_behind};
ghost use Rattle.vend_ports.specs.print.Told.{outputs};

use crate::port::progress::Progress;
use books::Books;
use office_rules::{Refusal, Sale, store_law};
use papers::{export, export_law};
use sqlite::Alter;
use std::alloc::Global;
use std::io::Write;
use sts_token::BlockTransform;
use vend_core::life_law;
use vend_ports::{CommandEnd, Watched, put_refusal};

// How many sales a page has, at most.
const PAGE: u32 = 1000;

// Numbers go up to 10^9, so that no file has more full pages; and an empty one.
const PAGES: u32 = 1_000_001;

/// Prints all sales, the header once in front of them, or tells why it stops. Where the output
/// fails it goes no further. It tells how far it is after each page that another one follows.
pub(crate) fn print_sales<S: Alter, T: BlockTransform, P: Progress, O: Write, E: Write>(
    alloc: Global,
    books: &mut Books<S, T>,
    progress: &mut P,
    out: &mut Watched<'_, O>,
    err: &mut Watched<'_, E>,
) -> CommandEnd
    ensures { IsExported (seen books.old) (seen books.new)
        (outputs out.old out.new err.old err.new) result }
{
    export_law();
    life_law();
    let all = books.next_number().saturating_sub(1);
    let mut after = 0;
    for page in 0..PAGES {
        match print_page(alloc, books, after, page == 0, out) {
            Ok(Some(last)) => {
                after = last;
                progress.tell((u64::from(page) + 1) * u64::from(PAGE), all);
            }
            Ok(None) => return CommandEnd::Done,
            Err(refusal) => {
                put_refusal(refusal, err);
                return CommandEnd::Refused;
            }
        }
    }
    CommandEnd::Done
}

// Prints the page behind a number, the first page behind the header, and answers the number of its
// last sale, which the next page begins behind: none where it is not full, and none where the
// output did not take it. Numbers may be missing, so that it cannot be reckoned.
fn print_page<S: Alter, T: BlockTransform, O: Write>(
    alloc: Global,
    books: &mut Books<S, T>,
    after: u32,
    is_first: bool,
    out: &mut Watched<'_, O>,
) -> Result<Option<u32>, Refusal>
    ensures page { IsPage after is_first (seen books.old) (seen books.new) out.old out.new result }
    ensures reads { AreOnlyRead (seen books.old) (seen books.new) }
{
    life_law();
    store_law();
    let sales = match books.sales_after(after, PAGE) {
        Ok(sales) => sales,
        Err(refusal) => return Err(refusal),
    };
    let Ok(text) = export(alloc, &sales, is_first) else {
        return Err(Refusal::Memory);
    };
    out.put(&text);
    if out.has_failed() {
        Ok(None)
    } else {
        Ok(number_behind(&sales))
    }
}

// The number of the last sale of a page, where it is full.
fn number_behind(page: &[Sale]) -> Option<u32>
    ensures { result ≡ number_behind page.now }
{
    if page.len() == PAGE as usize {
        let last = page.last()?;
        Some(last.number)
    } else {
        None
    }
}
