//! The records that the rows of an answer show.
//!
//! A record is read of a row of its columns, in their order. There is none exactly where they are
//! those of no record whose values keep their rules: such a row is no office's.

ghost use Rattle.office_rules.specs.Decision.Requests.{IsOrder};
ghost use Rattle.book_tables.specs.row.ReadBack.{ReadsBack};
ghost use Rattle.book_tables.specs.row.Parts.{AreEntryValues, AreTokenValues, entry_columns};
ghost use Rattle.book_tables.specs.row.Parts.{month_columns_in, order_columns, shown_entry};
ghost use Rattle.book_tables.specs.row.Parts.{sale_part, shown_order};
ghost use Rattle.book_tables.specs.row.Parts.{shown_token, token_columns};
ghost use Rattle.book_tables.specs.row.Rows.{shown_meter, shown_number, shown_sale, shown_shift};
ghost use Rattle.book_tables.specs.row.Rows.{shown_step, tariff_columns};
ghost use Rattle.std.specs.Prelude.{◌≡◌, ◌≤◌, ◌∷◌, [], ℕ};
ghost use Rattle.office_rules.specs.Name.{IsName};
ghost use Rattle.book_tables.specs.row.Values.{AreMeterValues, AreSaleValues, AreShiftValues};
ghost use Rattle.book_tables.specs.row.Values.{AreStepValues, IsNumber};

use crate::row::cells;
use crate::row::record::Record;
use office_rules::{Meter, Order, Sale, Shift, TariffName};
use sqlite::Row;
use sts_fields::{Amount, Base, Moment};
use tariff::Step;

// The number of a shift or of a sale.
impl Record for u32 {
    ghost shown = { shown_number };

    ghost keeps = { IsNumber };

    fn of_row(row: &Row) -> Option<u32> {
        if row.column_count() != 1 {
            return None;
        }
        cells::number_at(row, 0)
    }
}

impl Record for TariffName {
    ghost shown = { tariff_columns };

    ghost keeps = { IsName };

    fn of_row(row: &Row) -> Option<TariffName> {
        if row.column_count() != 1 {
            return None;
        }
        cells::tariff_at(row, 0)
    }
}

impl Record for Step {
    ghost shown = { shown_step };

    ghost keeps = { AreStepValues };

    fn of_row(row: &Row) -> Option<Step> {
        if row.column_count() != 2 {
            return None;
        }
        Some(Step {
            ends: cells::end_at(row, 0)?,
            price: cells::between_at(row, 1, 1, 1_000_000)?,
        })
    }
}

impl Record for Meter {
    ghost shown = { shown_meter };

    ghost keeps = { AreMeterValues };

    fn of_row(row: &Row) -> Option<Meter> {
        if row.column_count() != 3 {
            return None;
        }
        Some(Meter {
            base: cells::base_at(row, 0)?,
            tariff: cells::tariff_at(row, 1)?,
            key: cells::key_at(row, 2)?,
        })
    }
}

impl Record for Shift {
    ghost shown = { shown_shift };

    ghost keeps = { AreShiftValues };

    fn of_row(row: &Row) -> Option<Shift> {
        if row.column_count() != 4 {
            return None;
        }
        Some(Shift {
            number: cells::number_at(row, 0)?,
            operator: cells::operator_at(row, 1)?,
            opened: cells::moment_at(row, 2)?,
            closed: cells::closing_at(row, 3)?,
        })
    }
}

// What a sale's row says of the sale as an entry in the books.
#[derive(Clone, Copy)]
struct Entry {
    number: u32,
    moment: Moment,
    shift: u32,
}

// How many columns stand between the moment and the shift.
fn month_columns(has_month: bool) -> usize
    ensures is { result ≡ month_columns_in has_month }
    ensures few { result ≤ 1 }
{
    usize::from(has_month)
}

fn entry_of(row: &Row, has_month: bool) -> Option<Entry>
    ensures { ReadsBack shown_entry AreEntryValues
        (entry_columns (month_columns_in has_month) row.now) result }
{
    let on = month_columns(has_month);
    Some(Entry {
        number: cells::number_at(row, 0)?,
        moment: cells::moment_at(row, 1)?,
        shift: cells::number_at(row, 2 + on)?,
    })
}

fn order_of(row: &Row, has_month: bool) -> Option<Order>
    ensures { ReadsBack shown_order IsOrder
        (order_columns (month_columns_in has_month) row.now) result }
{
    let on = month_columns(has_month);
    Some(Order {
        operator: cells::operator_at(row, 3 + on)?,
        order_ref: cells::ref_at(row, 4 + on)?,
        meter: cells::meter_no_at(row, 5 + on)?,
        tender: cells::tender_at(row, 11 + on)?,
    })
}

// What a sale's row says of its token.
#[derive(Clone, Copy)]
struct Token {
    base: Base,
    tid: u32,
    rnd: u8,
    tenths: Amount,
    digits: [u8; 20],
}

fn token_of(row: &Row, has_month: bool) -> Option<Token>
    ensures { ReadsBack shown_token AreTokenValues
        (token_columns (month_columns_in has_month) row.now) result }
{
    let on = month_columns(has_month);
    Some(Token {
        base: cells::base_at(row, 6 + on)?,
        tid: cells::tid_at(row, 7 + on)?,
        rnd: cells::nibble_at(row, 8 + on)?,
        tenths: cells::amount_at(row, 9 + on)?,
        digits: cells::digits_at(row, 12 + on)?,
    })
}

/// The sale of a row's first columns, in the order of the table `sales`. The column of the month is
/// passed over where the row has it.
///
/// There is none exactly where they are those of no sale whose values keep their rules.
pub fn sale_of(row: &Row, has_month: bool) -> Option<Sale>
    ensures { ReadsBack shown_sale AreSaleValues
        (sale_part (month_columns_in has_month) row.now) result }
{
    let Some(entry) = entry_of(row, has_month) else {
        return None;
    };
    let Some(order) = order_of(row, has_month) else {
        return None;
    };
    let Some(token) = token_of(row, has_month) else {
        return None;
    };
    let (tender, digits) = (order.tender, token.digits);
    let at = 10 + month_columns(has_month);
    let Some(price) = cells::between_at(row, at, 0, tender.cents()) else {
        return None;
    };
    Some(Sale {
        number: entry.number,
        moment: entry.moment,
        shift: entry.shift,
        operator: order.operator,
        order_ref: order.order_ref,
        meter: order.meter,
        base: token.base,
        tid: token.tid,
        rnd: token.rnd,
        tenths: token.tenths,
        price,
        tender,
        digits,
    })
}

impl Record for Sale {
    ghost shown = { shown_sale };

    ghost keeps = { AreSaleValues };

    fn of_row(row: &Row) -> Option<Sale> {
        if row.column_count() != 13 {
            return None;
        }
        sale_of(row, false)
    }
}
