//! What was looked up, printed.

ghost use Rattle.std.specs.Prelude.{◌≡◌, ◌++◌, [], false, MatchResult};
ghost use Rattle.desk_commands.specs.print.FoundTexts.{IsMadeWhole, found_text, meter_header};
ghost use Rattle.desk_commands.specs.print.FoundTexts.{meter_table_row, number_or_none};
ghost use Rattle.desk_commands.specs.print.FoundTexts.{purchase_in};
ghost use Rattle.desk_commands.specs.print.FoundTexts.{sale_lines};
ghost use Rattle.vend_ports.specs.print.Told.{Takes};
ghost use Rattle.book_states.specs.declared.lookup.Found.TheVariants.{Sale as FoundSale};

use crate::print::page::json_line;
use asks::Lookup;
use book_states::{Found, MeterSummary, Quote};
use itoa::Buffer;
use office_rules::Sale;
use papers::{export, receipt_in_place};
use std::alloc::{AllocError, Global};
use std::io::Write;
use tariff::Buy;
use vend_ports::{Watched, put_quote, put_row};

/// Prints what was found, as JSON or as lines. Only JSON and an export may find no room, and then
/// nothing is printed.
pub fn put_found<O: Write>(
    alloc: Global,
    lookup: &Lookup,
    found: &Found,
    json: bool,
    out: &mut Watched<'_, O>,
) -> Result<(), AllocError>
    ensures { MatchResult result
        (λ _. Takes out.old out.new (found_text json lookup.now found.now))
        (λ _. IsMadeWhole json lookup.now found.now
        × Takes out.old out.new []) }
{
    if json {
        let text = json_line(alloc, found)?;
        out.put(&text);
        return Ok(());
    }
    match found {
        Found::Meter(meter) => put_meter(meter, out),
        Found::Sale(sale) => return put_sale(alloc, lookup, sale, out),
        Found::Quote(quote) => put_quote(&purchase_in(quote), out),
        // Nothing else is looked up alone.
        _ => {}
    }
    Ok(())
}

// Prints a meter, below the names of its fields.
fn put_meter<O: Write>(meter: &MeterSummary, out: &mut Watched<'_, O>)
    ensures { Takes out.old out.new (meter_header ++ meter_table_row meter.now) }
{
    put_row(&[b"meter", b"base", b"tariff", b"tenths", b"sale"], out);
    put_values(meter, out);
}

// Prints what a meter has in each field.
fn put_values<O: Write>(meter: &MeterSummary, out: &mut Watched<'_, O>)
    ensures { Takes out.old out.new (meter_table_row meter.now) }
{
    let mut base = Buffer::new();
    let mut tenths = Buffer::new();
    let mut sale = Buffer::new();
    let number = meter.number.as_bytes();
    let base = base.format(meter.base.year()).as_bytes();
    let tariff = meter.tariff.as_bytes();
    let tenths = tenths.format(meter.tenths).as_bytes();
    let sale = number_or_none(meter.last_sale, &mut sale);
    put_row(&[number, base, tariff, tenths, sale], out);
}

// The number of a sale, or a hyphen where there is none.
fn number_or_none(number: Option<u32>, room: &mut Buffer) -> &[u8]
    ensures { result.now ≡ number_or_none number }
{
    match number {
        Some(number) => room.format(number).as_bytes(),
        None => b"-",
    }
}

// Prints a sale: the last one of a meter as its receipt, another as an export of it alone.
fn put_sale<O: Write>(
    alloc: Global,
    lookup: &Lookup,
    sale: &Sale,
    out: &mut Watched<'_, O>,
) -> Result<(), AllocError>
    ensures { MatchResult result
        (λ _. Takes out.old out.new (sale_lines lookup.now sale.now))
        (λ _. IsMadeWhole false lookup.now (FoundSale sale.now)
        × Takes out.old out.new []) }
{
    match lookup {
        Lookup::LastSale(_) => out.put(&receipt_in_place(sale)),
        _ => {
            let text = export(alloc, &[*sale], true)?;
            out.put(&text);
        }
    }
    Ok(())
}

// The purchase that is quoted. Its price is at most the tender, so nothing is cut off.
fn purchase_in(quote: &Quote) -> Buy
    ensures { result ≡ purchase_in quote.now }
{
    Buy {
        tenths: quote.tenths,
        price: quote.price,
        change: quote.tender.cents().saturating_sub(quote.price),
    }
}
