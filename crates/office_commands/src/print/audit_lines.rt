//! The lines of an audit (`specs/print/AuditLines.antt`). None takes memory.

ghost use Rattle.std.specs.Prelude.{◌≡◌, List, [], ◌∷◌};
ghost use Rattle.sqlite_value.specs.Order.{column};
ghost use Rattle.sqlite_value.specs.Value.{owned};
ghost use Rattle.sts_fields.specs.Text.{Text};
ghost use Rattle.office_commands.specs.print.AuditLines.{TellsRow, TellsValue, broken_line};
ghost use Rattle.office_commands.specs.print.AuditLines.{no_office_line, part_text, passed_line};
ghost use Rattle.office_commands.specs.print.AuditLines.{rule_text, sound_line};
ghost use Rattle.vend_ports.specs.print.Told.{Takes};

use audit::{Audited, Finding, Part, RowKey, Rule};
use itoa::Buffer;
use office_rules::Ref;
use sqlite::Row;
use sqlite::types::ValueRef;
use std::io::Write;
use vend_ports::{Watched, put_line};

/// Prints what a file keeps.
pub(crate) fn put_sound<W: Write>(audited: Audited, out: &mut Watched<'_, W>)
    ensures { Takes out.old out.new (sound_line audited) }
{
    let mut format = Buffer::new();
    let mut tariffs = Buffer::new();
    let mut meters = Buffer::new();
    let mut shifts = Buffer::new();
    let mut sales = Buffer::new();
    let format = format.format(audited.format).as_bytes();
    let tariffs = tariffs.format(audited.tariffs).as_bytes();
    let meters = meters.format(audited.meters).as_bytes();
    let shifts = shifts.format(audited.shifts).as_bytes();
    let sales = sales.format(audited.sales).as_bytes();
    put_line(
        &[
            b"sound", b"format", format, b"tariffs", tariffs, b"meters", meters, b"shifts", shifts,
            b"sales", sales,
        ],
        out,
    );
}

/// Prints that a file has no office.
pub(crate) fn put_no_office<W: Write>(out: &mut Watched<'_, W>)
    ensures { Takes out.old out.new no_office_line }
{
    put_line(&[b"no", b"office"], out);
}

/// Prints which part of an audit has passed.
pub(crate) fn put_passed<W: Write>(part: Part, out: &mut Watched<'_, W>)
    ensures { Takes out.old out.new (passed_line part) }
{
    put_line(&[part_name(part)], out);
}

/// Prints which row breaks which rule: its key, as the file has it, or of a row of no record the
/// first column.
pub(crate) fn put_broken<W: Write>(finding: &Finding, out: &mut Watched<'_, W>)
    ensures { (row : List Text) × TellsRow finding.now.row row
        × Takes out.old out.new (broken_line finding.now row) }
{
    let table = finding.table.name().as_bytes();
    let rule = rule_name(finding.rule);
    let mut number = Buffer::new();
    let mut place = Buffer::new();
    match &finding.row {
        RowKey::Number(row) => {
            let row = number.format(*row).as_bytes();
            put_line(&[b"broken", table, row, rule], out);
        }
        RowKey::Tariff(name) => {
            let name = *name;
            put_line(&[b"broken", table, name.as_bytes(), rule], out);
        }
        RowKey::Step(tariff, step) => {
            let tariff = *tariff;
            let step = place.format(*step).as_bytes();
            put_line(&[b"broken", table, tariff.as_bytes(), step, rule], out);
        }
        RowKey::DatedStep(tariff, day, step) => {
            let tariff = *tariff;
            let day = number.format(day.days()).as_bytes();
            let step = place.format(*step).as_bytes();
            put_line(&[b"broken", table, tariff.as_bytes(), day, step, rule], out);
        }
        RowKey::Meter(meter) => {
            let meter = *meter;
            put_line(&[b"broken", table, meter.as_bytes(), rule], out);
        }
        RowKey::Base(meter, base) => {
            let meter = *meter;
            let year = number.format(base.year()).as_bytes();
            put_line(&[b"broken", table, meter.as_bytes(), year, rule], out);
        }
        RowKey::Month(meter, month) => {
            let meter = *meter;
            let month = number.format(*month).as_bytes();
            put_line(&[b"broken", table, meter.as_bytes(), month, rule], out);
        }
        RowKey::Columns(row) => put_value(finding, first_of(row), out),
    }
}

// The same of a row by one value: a number, a name, or `?` for whatever else.
fn put_value<W: Write>(finding: &Finding, value: ValueRef<'_>, out: &mut Watched<'_, W>)
    ensures { (told : Text) × TellsValue (owned value.entry) told
        × Takes out.old out.new
        (broken_line finding.now (told ∷ [])) }
{
    let table = finding.table.name().as_bytes();
    let rule = rule_name(finding.rule);
    match value {
        ValueRef::Int(whole) => {
            let mut number = Buffer::new();
            let whole = number.format(whole).as_bytes();
            put_line(&[b"broken", table, whole, rule], out);
        }
        ValueRef::Text(text) => match Ref::read(text) {
            Some(name) => put_line(&[b"broken", table, name.as_bytes(), rule], out),
            None => put_line(&[b"broken", table, b"?", rule], out),
        },
        _ => put_line(&[b"broken", table, b"?", rule], out),
    }
}

// The value in the first column, or NULL where there is none.
fn first_of(row: &Row) -> ValueRef<'_>
    ensures { owned result ≡ column row.now 0 }
{
    match row.get_ref(0) {
        Ok(value) => value,
        Err(_) => ValueRef::Null,
    }
}

// The part, in a word.
fn part_name(part: Part) -> &'static [u8]
    ensures { result.now ≡ part_text part }
{
    match part {
        Part::Rows => b"rows",
        Part::Ties => b"rules",
        Part::Requests => b"requests",
    }
}

// The rule that a row breaks, in a word.
fn rule_name(rule: Rule) -> &'static [u8]
    ensures { result.now ≡ rule_text rule }
{
    match rule {
        Rule::Value => b"value",
        Rule::Gap => b"gap",
        Rule::Month => b"month",
        Rule::TwoOpen => b"open",
        Rule::Steps => b"steps",
        Rule::Base => b"base",
        Rule::Twice => b"twice",
        Rule::Missing => b"missing",
        Rule::Surplus => b"surplus",
        Rule::Total => b"total",
        Rule::Operator => b"operator",
        Rule::Order => b"order",
        Rule::Identifier => b"identifier",
        Rule::Price => b"price",
        Rule::Token => b"token",
    }
}
