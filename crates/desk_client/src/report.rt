//! The report of a shift, as a reply has it.

ghost use Rattle.std.specs.Prelude.{◌≡◌, ◌≢◌, ◌↔◌, ◌++◌, ◌∷◌, ◌≤◌, ◌*◌, ◌<◌, ◌^◌, ℕ, List, IsTrue, MatchOption};
ghost use Rattle.std.specs.Prelude.{decimal, map, take};
ghost use Rattle.office_rules.specs.declared.office.shift.Shift.{Shift as AnyShift};
ghost use Rattle.papers.specs.Report.{shift_head, totals_text};
ghost use Rattle.desk_client.specs.Report.{EndsReport, HasHead, IsReportOf, IsToldShift};
ghost use Rattle.desk_client.specs.Report.{head_values};
ghost use Rattle.records.specs.Front.{IsFound};
ghost use Rattle.records.specs.Record.{now};

use crate::report_line::line_in;
use crate::text::{Values, behind, read_front_values};
use crate::time::{closing_of, time_of};
use crate::values::operator_of;
use itoa::Buffer;
use office_rules::Shift;
use sts_fields::{amount_law, calendar_law};

// What stands behind each value of a report's first lines.
const ENDS: [&str; 3] = ["\nOPENED ", "\nCLOSED ", "\n"];

// What the lines of a report up to some line have together.
#[derive(Clone, Copy)]
struct Sums {
    // The number of the last sale.
    last: u64,
    count: u64,
    tenths: u64,
    cash: u64,
}

// Whether a text is the report of the shift of a number, as a desk writes it.
pub(crate) fn is_report_of(number: u32, text: &[u8]) -> bool
    ensures { IsTrue result ↔ IsReportOf number text.now }
{
    calendar_law();
    match behind_head(number, text) {
        Some(rest) => ends_report(rest),
        None => false,
    }
}

// What follows the lines of the shift of a number and its times.
fn behind_head(number: u32, text: &[u8]) -> Option<&[u8]>
    ensures { MatchOption result
        ((shift : AnyShift) (rest : List ℕ) → IsToldShift shift → shift.number ≡ number
        → text.now ≢ shift_head shift ++ rest)
        (λ rest. HasHead number text.now rest.now) }
{
    calendar_law();
    let mut digits = Buffer::new();
    let Some(behind_word) = behind(text, b"SHIFT ") else {
        return None;
    };
    let Some(behind_number) = behind(behind_word, digits.format(number).as_bytes()) else {
        return None;
    };
    let Some((values, rest)) = read_front_values(behind_number, " ", &ENDS) else {
        return None;
    };
    match shift_of(number, &values) {
        Some(_) => Some(rest),
        None => None,
    }
}

// The shift that these values are.
fn shift_of(number: u32, values: &Values<'_>) -> Option<Shift>
    ensures { IsFound (λ shift. (IsToldShift shift × (shift.number ≡ number))
        × (take 3 (map now values.now.of) ≡ head_values shift)) result }
{
    let [operator, opened, closed, ..] = values.of;
    let operator = operator_of(operator)?;
    let opened = time_of(opened)?;
    let closed = closing_of(closed)?;
    Some(Shift {
        number,
        operator,
        opened,
        closed,
    })
}

// Whether a text has the lines of sales in their order, and then their totals.
fn ends_report(text: &[u8]) -> bool
    ensures { IsTrue result ↔ EndsReport 0 0 0 0 text.now }
{
    amount_law();
    let mut sums = Sums {
        last: 0,
        count: 0,
        tenths: 0,
        cash: 0,
    };
    let mut rest = text;
    'lines: loop {
        let Some((line, behind)) = line_in(rest, sums.last) else {
            return is_totals(&sums, rest);
        };
        sums = Sums {
            last: line.number,
            count: sums.count + 1,
            tenths: sums.tenths + line.tenths,
            cash: sums.cash + line.price,
        };
        rest = behind;
    }
}

// Whether a text is the totals of a report.
fn is_totals(sums: &Sums, text: &[u8]) -> bool
    ensures { IsTrue result
        ↔ (text.now ≡ totals_text sums.now.count sums.now.tenths sums.now.cash) }
{
    let Some(behind_sales) = behind_count(text, b"SALES ", sums.count) else {
        return false;
    };
    let Some(behind_tenths) = behind_count(behind_sales, b"TENTHS ", sums.tenths) else {
        return false;
    };
    match behind_count(behind_tenths, b"CASH ", sums.cash) {
        Some(rest) => rest.is_empty(),
        None => false,
    }
}

// What follows a word, a number and the end of their line.
fn behind_count<'t>(text: &'t [u8], word: &[u8], number: u64) -> Option<&'t [u8]>
    ensures { MatchOption result
        ((rest : List ℕ) → text.now ≢ word.now ++ (decimal number ++ 10 ∷ rest))
        (λ rest. text.now ≡ word.now ++ (decimal number ++ 10 ∷ rest.now)) }
{
    let mut digits = Buffer::new();
    let Some(behind_word) = behind(text, word) else {
        return None;
    };
    let Some(behind_number) = behind(behind_word, digits.format(number).as_bytes()) else {
        return None;
    };
    behind(behind_number, b"\n")
}
