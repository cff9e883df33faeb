//! The pages of an office's lists, as JSON.

ghost use Rattle.std.specs.Prelude.{◌≡◌, IfOk, codes, map};
ghost use Rattle.records.specs.List.{list_text, page_text, records_text};
ghost use Rattle.desk_messages.specs.reply.Lists.{tariff_text};
ghost use Rattle.desk_messages.specs.reply.Records.{listed_meter_cells, listed_meter_names};
ghost use Rattle.desk_messages.specs.reply.Records.{listed_shift_cells, listed_shift_names};
ghost use Rattle.desk_messages.specs.reply.Records.{sale_cells, sale_names};

use crate::fields;
use crate::reply::array::{Element, page, put_list};
use crate::reply::found::moment_cell;
use crate::reply::sale_text::{sale_text, seconds};
use asks::{put_day, put_steps};
use book_states::{LaterSteps, ListedMeter, ListedShift, ListedTariff};
use office_rules::Sale;
use records::{Cell, put_record};
use std::alloc::{AllocError, Global};

// A page of the tariffs.
pub(crate) fn tariffs_body(alloc: Global, tariffs: &[ListedTariff]) -> Result<Vec<u8>, AllocError>
    ensures { IfOk result (λ body. body.items
        ≡ page_text (codes "tariffs") (list_text (map tariff_text tariffs.now))) }
{
    page(alloc, "tariffs", tariffs)
}

// A page of the meters, without their keys.
pub(crate) fn meters_body(alloc: Global, meters: &[ListedMeter]) -> Result<Vec<u8>, AllocError>
    ensures { IfOk result (λ body. body.items ≡ page_text (codes "meters")
        (records_text listed_meter_names listed_meter_cells meters.now)) }
{
    page(alloc, "meters", meters)
}

// A page of the shifts.
pub(crate) fn shifts_body(alloc: Global, shifts: &[ListedShift]) -> Result<Vec<u8>, AllocError>
    ensures { IfOk result (λ body. body.items ≡ page_text (codes "shifts")
        (records_text listed_shift_names listed_shift_cells shifts.now)) }
{
    page(alloc, "shifts", shifts)
}

// A page of the sales.
pub(crate) fn sales_body(alloc: Global, sales: &[Sale]) -> Result<Vec<u8>, AllocError>
    ensures { IfOk result (λ body. body.items ≡ page_text (codes "sales")
        (records_text sale_names sale_cells sales.now)) }
{
    page(alloc, "sales", sales)
}

// Steps from a later day on, written as they stand: their text has no bound.
impl Element for LaterSteps {
    ghost use Rattle.records.specs.Record.{record_text};
    ghost use Rattle.desk_messages.specs.reply.Lists.{later_cells, later_names};

    ghost text_of = { λ later. record_text later_names (later_cells later) };

    fn put(&self, text: &mut Vec<u8>) -> Result<(), AllocError> {
        text.extend_from_slice(b"{\"from\":\"")?;
        put_day(text, self.from)?;
        text.extend_from_slice(b"\",\"steps\":\"")?;
        put_steps(text, &self.steps)?;
        text.extend_from_slice(b"\"}")?;
        Ok(())
    }
}

impl Element for ListedTariff {
    ghost use Rattle.desk_messages.specs.reply.Lists.{tariff_text};

    ghost text_of = { tariff_text };

    fn put(&self, text: &mut Vec<u8>) -> Result<(), AllocError> {
        text.extend_from_slice(b"{\"later\":")?;
        put_list(text, &self.later)?;
        text.extend_from_slice(b",\"name\":\"")?;
        text.extend_from_slice(self.name.as_bytes())?;
        text.extend_from_slice(b"\",\"steps\":\"")?;
        put_steps(text, &self.steps)?;
        text.extend_from_slice(b"\"}")?;
        Ok(())
    }
}

impl Element for ListedMeter {
    ghost use Rattle.desk_messages.specs.reply.Records.{listed_meter_text};

    ghost text_of = { listed_meter_text };

    fn put(&self, text: &mut Vec<u8>) -> Result<(), AllocError> {
        let cells = [
            Cell::Number(u64::from(self.base.year())),
            Cell::Text(self.number.as_bytes()),
            Cell::Text(self.tariff.as_bytes()),
        ];
        put_record(text, &fields::LISTED_METER, &cells)
    }
}

impl Element for ListedShift {
    ghost use Rattle.desk_messages.specs.reply.Records.{listed_shift_text};

    ghost text_of = { listed_shift_text };

    fn put(&self, text: &mut Vec<u8>) -> Result<(), AllocError> {
        let cells = [
            Cell::Number(self.totals.cash),
            moment_cell(self.shift.closed),
            Cell::Number(u64::from(self.shift.number)),
            Cell::Number(seconds(self.shift.opened)),
            Cell::Text(self.shift.operator.as_bytes()),
            Cell::Number(self.totals.sales),
            Cell::Number(self.totals.tenths),
        ];
        put_record(text, &fields::LISTED_SHIFT, &cells)
    }
}

impl Element for Sale {
    ghost use Rattle.desk_messages.specs.reply.Records.{sale_text};

    ghost text_of = { sale_text };

    fn put(&self, text: &mut Vec<u8>) -> Result<(), AllocError> {
        text.extend_from_slice(&sale_text(self))
    }
}
