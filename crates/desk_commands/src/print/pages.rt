//! A page of a list, printed.

ghost use Rattle.std.specs.Prelude.{◌≡◌, [], MatchResult};
ghost use Rattle.std.specs.Option.{option_copied};
ghost use Rattle.desk_commands.specs.print.Pages.{IsPagePut, last_of_full, list_behind};
ghost use Rattle.vend_ports.specs.print.Told.{Takes};

use crate::print::page::page_text;
use asks::Lookup;
use book_lists::PAGE;
use book_states::Found;
use std::alloc::{AllocError, Global};
use std::io::Write;
use vend_ports::Watched;

/// Prints a page of a list, and gives what to ask for next: the list after its last member. `None`
/// if the page was not full, so that the list ends here, or if the output failed. The error is want
/// of memory: then nothing is printed.
pub fn put_page<O: Write>(
    alloc: Global,
    page: &Found,
    json: bool,
    is_first: bool,
    out: &mut Watched<'_, O>,
) -> Result<Option<Lookup>, AllocError>
    ensures { MatchResult result
        (IsPagePut page.now json is_first out.old out.new) (λ _. Takes out.old out.new []) }
{
    let Ok(text) = page_text(alloc, page, json, is_first) else {
        return Err(AllocError);
    };
    out.put(&text);
    if out.has_failed() {
        Ok(None)
    } else {
        Ok(list_behind(page))
    }
}

// The list behind a page, after its last member, where the page is full.
fn list_behind(page: &Found) -> Option<Lookup>
    ensures { result ≡ list_behind page.now }
{
    match page {
        Found::Tariffs(page) => {
            let last = last_of_full(page.as_slice())?;
            Some(Lookup::Tariffs(Some(last.name)))
        }
        Found::Meters(page) => {
            let last = last_of_full(page.as_slice())?;
            Some(Lookup::Meters(Some(last.number)))
        }
        Found::Shifts(page) => {
            let last = last_of_full(page.as_slice())?;
            Some(Lookup::Shifts(last.shift.number))
        }
        Found::Sales(page) => {
            let last = last_of_full(page.as_slice())?;
            Some(Lookup::Sales(last.number))
        }
        _ => None,
    }
}

// The last member of a page, where it is full.
fn last_of_full<A>(page: &[A]) -> Option<&A>
    ensures { option_copied result ≡ last_of_full page.now }
{
    if page.len() == PAGE as usize {
        page.last()
    } else {
        None
    }
}
