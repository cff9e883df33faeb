//! What is told of the empty office, where a file has none.

ghost use Rattle.std.specs.Prelude.{ℕ};
ghost use Rattle.book_facts.specs.Lookups.{Finds};
ghost use Rattle.office_rules.specs.Office.{empty_office};
ghost use Rattle.office_commands.specs.commands.LookedUp.{ReadsEmpty, TellsPage};
ghost use Rattle.office_commands.specs.commands.Reported.{PrintsEmpty};
ghost use Rattle.vend_ports.specs.print.Told.{outputs};

use crate::office::looking::tell_found;
use crate::office::paper::Paper;
use books::{Found, Health, Lookup};
use desk_commands::put_page;
use office_rules::{Moment, Refusal, Sale};
use papers::export;
use std::alloc::Global;
use std::io::Write;
use vend_ports::{CommandEnd, Watched, put_refusal};

/// Prints what is looked up in the empty office at a moment, which is one page of a list, or tells
/// why it is not there.
pub(crate) fn read_empty<O: Write, E: Write>(
    alloc: Global,
    _moment: Moment,
    paged: bool,
    lookup: &Lookup,
    json: bool,
    out: &mut Watched<'_, O>,
    err: &mut Watched<'_, E>,
) -> CommandEnd
    ensures { ReadsEmpty _moment paged lookup.now json
        (outputs out.old out.new err.old err.new) result }
{
    let found = find_in_empty(alloc, lookup);
    if paged {
        return tell_page(alloc, &found, json, out, err);
    }
    match found {
        Ok(found) => tell_found(alloc, lookup, &found, json, out, err),
        Err(refusal) => {
            put_refusal(refusal, err);
            CommandEnd::Refused
        }
    }
}

// What is found in the empty office where this is looked up: the same at each moment.
fn find_in_empty(alloc: Global, lookup: &Lookup) -> Result<Found, Refusal>
    ensures { (moment : ℕ) → Finds empty_office moment lookup.now result }
{
    match lookup {
        Lookup::Health => Ok(Found::Health(Health {
            sales: 0,
            last_moment: None,
            write_failed: false,
        })),
        Lookup::Meter(_) => Err(Refusal::NoMeter),
        Lookup::LastSale(_) => Err(Refusal::NoMeter),
        Lookup::SaleOfRef(_, _) => Err(Refusal::NoSale),
        Lookup::Quote(_, _) => Err(Refusal::NoMeter),
        Lookup::ShiftTotals(_) => Err(Refusal::NoSuchShift),
        Lookup::Tariffs(_) => Ok(Found::Tariffs(Vec::new(alloc))),
        Lookup::Meters(_) => Ok(Found::Meters(Vec::new(alloc))),
        Lookup::Shifts(_) => Ok(Found::Shifts(Vec::new(alloc))),
        Lookup::Sales(_) => Ok(Found::Sales(Vec::new(alloc))),
    }
}

// Prints the one page of a list, or tells that there was no room for its text.
fn tell_page<O: Write, E: Write>(
    alloc: Global,
    page: &Result<Found, Refusal>,
    json: bool,
    out: &mut Watched<'_, O>,
    err: &mut Watched<'_, E>,
) -> CommandEnd
    ensures { TellsPage json page.now (outputs out.old out.new err.old err.new) result }
{
    let page = match page {
        Ok(page) => page,
        Err(refusal) => {
            put_refusal(*refusal, err);
            return CommandEnd::Refused;
        }
    };
    match put_page(alloc, page, json, true, out) {
        Ok(_) => CommandEnd::Done,
        Err(_) => {
            put_refusal(Refusal::Memory, err);
            CommandEnd::Refused
        }
    }
}

/// Prints a paper of the empty office, or tells why it has none.
pub(crate) fn print_empty<O: Write, E: Write>(
    alloc: Global,
    paper: Paper,
    out: &mut Watched<'_, O>,
    err: &mut Watched<'_, E>,
) -> CommandEnd
    ensures { PrintsEmpty paper (outputs out.old out.new err.old err.new) result }
{
    match paper {
        Paper::Shift(_) => {
            put_refusal(Refusal::NoSuchShift, err);
            CommandEnd::Refused
        }
        Paper::Receipt(_) => {
            put_refusal(Refusal::NoSale, err);
            CommandEnd::Refused
        }
        Paper::Totals(_) => {
            put_refusal(Refusal::NoSuchShift, err);
            CommandEnd::Refused
        }
        Paper::Sales => export_none(alloc, out, err),
    }
}

// Prints the export of no sales, or tells that there was no room for its text.
fn export_none<O: Write, E: Write>(
    alloc: Global,
    out: &mut Watched<'_, O>,
    err: &mut Watched<'_, E>,
) -> CommandEnd
    ensures { PrintsEmpty Paper.Sales (outputs out.old out.new err.old err.new) result }
{
    let none: Vec<Sale> = Vec::new(alloc);
    match export(alloc, &none, true) {
        Ok(text) => {
            out.put(&text);
            CommandEnd::Done
        }
        Err(_) => {
            put_refusal(Refusal::Memory, err);
            CommandEnd::Refused
        }
    }
}
