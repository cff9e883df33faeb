//! The lines that the members of a list have.

ghost use Rattle.std.specs.Prelude.{◌≡◌, ◌++◌, OnOk};
ghost use Rattle.std.specs.List.{flat_map};
ghost use Rattle.desk_commands.specs.print.FoundTexts.{number_or_none};
ghost use Rattle.desk_commands.specs.print.ListTexts.{later_line};

use crate::print::table::{TableRow, put_fields};
use asks::{put_day, put_steps};
use book_states::{LaterSteps, ListedMeter, ListedShift, ListedTariff};
use itoa::Buffer;
use office_rules::Moment;
use std::alloc::{AllocError, Global};

impl TableRow for ListedTariff {
    ghost use Rattle.desk_commands.specs.print.ListTexts.{tariff_lines};

    ghost lines = { tariff_lines };

    fn put(&self, alloc: Global, text: &mut Vec<u8>) -> Result<(), AllocError> {
        let mut steps = Vec::new(alloc);
        put_steps(&mut steps, &self.steps)?;
        put_fields(text, &[self.name.as_bytes(), b"-", &steps])?;
        put_later(alloc, text, self.name.as_bytes(), self.later.as_slice())
    }
}

// Adds a line for each later day of the tariff of a name.
fn put_later(
    alloc: Global,
    text: &mut Vec<u8>,
    name: &[u8],
    later: &[LaterSteps],
) -> Result<(), AllocError>
    ensures { OnOk result (text.new.items
        ≡ text.old.items ++ flat_map (later_line name.now) later.now) }
{
    for steps in later {
        put_later_line(alloc, text, name, steps)?;
    }
    Ok(())
}

// Adds the line of a later day.
fn put_later_line(
    alloc: Global,
    text: &mut Vec<u8>,
    name: &[u8],
    later: &LaterSteps,
) -> Result<(), AllocError>
    ensures { OnOk result (text.new.items ≡ text.old.items ++ later_line name.now later.now) }
{
    let mut from = Vec::new(alloc);
    put_day(&mut from, later.from)?;
    let mut steps = Vec::new(alloc);
    put_steps(&mut steps, &later.steps)?;
    put_fields(text, &[name, &from, &steps])
}

impl TableRow for ListedMeter {
    ghost use Rattle.desk_commands.specs.print.ListTexts.{meter_line};

    ghost lines = { meter_line };

    fn put(&self, _alloc: Global, text: &mut Vec<u8>) -> Result<(), AllocError> {
        let mut base = Buffer::new();
        let base = base.format(self.base.year()).as_bytes();
        put_fields(
            text,
            &[self.number.as_bytes(), base, self.tariff.as_bytes()],
        )
    }
}

impl TableRow for ListedShift {
    ghost use Rattle.desk_commands.specs.print.ListTexts.{listed_shift_line};

    ghost lines = { listed_shift_line };

    fn put(&self, _alloc: Global, text: &mut Vec<u8>) -> Result<(), AllocError> {
        let mut number = Buffer::new();
        let mut opened = Buffer::new();
        let mut closed = Buffer::new();
        let mut sales = Buffer::new();
        let mut tenths = Buffer::new();
        let mut cash = Buffer::new();
        let number = number.format(self.shift.number).as_bytes();
        let operator = self.shift.operator.as_bytes();
        let opened = opened.format(seconds(self.shift.opened)).as_bytes();
        let closed = closed_or_none(self.shift.closed, &mut closed);
        let sales = sales.format(self.totals.sales).as_bytes();
        let tenths = tenths.format(self.totals.tenths).as_bytes();
        let cash = cash.format(self.totals.cash).as_bytes();
        put_fields(
            text,
            &[number, operator, opened, closed, sales, tenths, cash],
        )
    }
}

// The Unix seconds at which a shift was closed, or a hyphen while it is open.
fn closed_or_none(closed: Option<Moment>, room: &mut Buffer) -> &[u8]
    ensures { result.now ≡ number_or_none closed }
{
    match closed {
        Some(moment) => room.format(seconds(moment)).as_bytes(),
        None => b"-",
    }
}

// The Unix seconds of a moment, none of which is before 1970.
fn seconds(moment: Moment) -> u64
    ensures { result ≡ moment }
{
    moment.secs() as u64
}
