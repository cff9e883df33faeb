//! What is found in an office, as JSON.

ghost use Rattle.std.specs.Prelude.{◌≡◌, IfOk};
ghost use Rattle.records.specs.Cell.{held};
ghost use Rattle.desk_messages.specs.reply.Records.{health_text, last_write, meter_text};
ghost use Rattle.desk_messages.specs.reply.Records.{quote_text, some_number, totals_text};

use crate::fields;
use crate::reply::record::record;
use crate::reply::sale_text::seconds;
use book_states::{Health, MeterSummary, Quote};
use book_tables::{PRESENT_FORMAT, Totals};
use office_rules::Moment;
use records::Cell;
use std::alloc::{AllocError, Global};

// The format of the office's file, the moment of its last sale, what became of its last change, and
// how many sales there are.
pub(crate) fn health_body(alloc: Global, health: &Health) -> Result<Vec<u8>, AllocError>
    ensures { IfOk result (λ body. body.items ≡ health_text health.now) }
{
    let cells = [
        Cell::Number(u64::from(PRESENT_FORMAT)),
        moment_cell(health.last_moment),
        Cell::Text(last_write(health.write_failed).as_bytes()),
        Cell::Number(health.sales),
    ];
    record(alloc, &fields::HEALTH, &cells)
}

// A moment, or that there is none.
pub(crate) fn moment_cell<'a>(moment: Option<Moment>) -> Cell<'a>
    ensures { held result ≡ some_number moment }
{
    match moment {
        Some(moment) => Cell::Number(seconds(moment)),
        None => Cell::Nothing,
    }
}

// What became of the last change that was to be written.
fn last_write(failed: bool) -> &'static str
    ensures { result.now ≡ last_write failed }
{
    if failed { "failed" } else { "done" }
}

// A meter, without its key.
pub(crate) fn meter_body(alloc: Global, meter: &MeterSummary) -> Result<Vec<u8>, AllocError>
    ensures { IfOk result (λ body. body.items ≡ meter_text meter.now) }
{
    let cells = [
        Cell::Number(u64::from(meter.base.year())),
        Cell::Text(meter.number.as_bytes()),
        number_cell(meter.last_sale),
        Cell::Text(meter.tariff.as_bytes()),
        Cell::Number(meter.tenths),
    ];
    record(alloc, &fields::METER, &cells)
}

// A number, or that there is none.
fn number_cell<'a>(number: Option<u32>) -> Cell<'a>
    ensures { held result ≡ some_number number }
{
    match number {
        Some(number) => Cell::Number(u64::from(number)),
        None => Cell::Nothing,
    }
}

// What a tender would buy. A price is at most its tender, so nothing of the change is cut off.
pub(crate) fn quote_body(alloc: Global, quote: &Quote) -> Result<Vec<u8>, AllocError>
    ensures { IfOk result (λ body. body.items ≡ quote_text quote.now) }
{
    let tender = quote.tender.cents();
    let cells = [
        Cell::Number(u64::from(tender.saturating_sub(quote.price))),
        Cell::Text(quote.meter.as_bytes()),
        Cell::Number(u64::from(quote.price)),
        Cell::Text(quote.tariff.as_bytes()),
        Cell::Number(u64::from(tender)),
        Cell::Number(u64::from(quote.tenths.tenths())),
    ];
    record(alloc, &fields::QUOTE, &cells)
}

// The running totals of the shift of a number.
pub(crate) fn totals_body(alloc: Global, shift: u32, totals: &Totals) -> Result<Vec<u8>, AllocError>
    ensures { IfOk result (λ body. body.items ≡ totals_text shift totals.now) }
{
    let cells = [
        Cell::Number(totals.cash),
        Cell::Number(totals.sales),
        Cell::Number(u64::from(shift)),
        Cell::Number(totals.tenths),
    ];
    record(alloc, &fields::TOTALS, &cells)
}
