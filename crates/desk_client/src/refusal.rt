//! The refusals of an office, as a reply tells them.

ghost use Rattle.std.specs.Prelude.{◌≡◌};
ghost use Rattle.desk_messages.specs.reply.Body.{plain_text, refusal_text};
ghost use Rattle.office_rules.specs.Decision.Refusals.{IsOfNoRow};
ghost use Rattle.office_rules.specs.declared.decision.refusal.Refusal.TheVariants.{ImportRow};
ghost use Rattle.office_rules.specs.Decision.RowCauses.{cause_text};
ghost use Rattle.desk_client.specs.Columns.{refusal_columns, row_columns};
ghost use Rattle.desk_client.specs.Refusal.{IsCause, IsRowCause, IsWord};
ghost use Rattle.records.specs.Front.{IsFound};

use crate::columns::{RefusalColumns, RowRefusalColumns};
use crate::text::small_number;
use desk_messages::fields;
use office_rules::{Refusal, RowCause};
use records::{Columns, read_whole};

// The refusal of no row that a text tells, by its name and number.
pub(crate) fn plain_refusal(text: &[u8]) -> Option<Refusal>
    ensures { IsFound (λ refusal. IsOfNoRow refusal × (text.now ≡ plain_text refusal)) result }
{
    <RefusalColumns>::columns_law();
    match read_whole::<RefusalColumns>(text, &fields::REFUSAL) {
        Some(columns) => refusal_of(&columns),
        None => None,
    }
}

// The refusal of no row that has this name and this number.
fn refusal_of(columns: &RefusalColumns) -> Option<Refusal>
    ensures { IsFound (λ refusal. IsOfNoRow refusal × (refusal_columns refusal ≡ columns.now))
        result }
{
    match Refusal::of_number(columns.1.0) {
        Some(refusal) if refusal.name().as_bytes() == columns.0.as_slice() => Some(refusal),
        _ => None,
    }
}

// The number of the row that a text refuses, and why.
pub(crate) fn row_refusal(text: &[u8]) -> Option<(u32, RowCause)>
    ensures { IsFound (λ found. IsRowCause found.0 found.1
        × (text.now ≡ refusal_text (ImportRow found.0 found.1))) result }
{
    <RowRefusalColumns>::columns_law();
    match read_whole::<RowRefusalColumns>(text, &fields::ROW_REFUSAL) {
        Some(columns) => row_of(&columns),
        None => None,
    }
}

// The row and the cause that are told so.
fn row_of(columns: &RowRefusalColumns) -> Option<(u32, RowCause)>
    ensures { IsFound (λ found. IsCause found.1 × (row_columns found ≡ columns.now)) result }
{
    let (cause, (name, (number, (row, ())))) = columns;
    if name.as_slice() != b"ImportRow".as_slice() || *number != 14 {
        return None;
    }
    match cause_of(cause) {
        Some(cause) => Some((*row, cause)),
        None => None,
    }
}

// Why a row is refused, as it is printed.
fn cause_of(value: &[u8]) -> Option<RowCause>
    ensures { IsFound (λ cause. IsCause cause × (value.now ≡ cause_text cause)) result }
{
    match word_cause(value) {
        Some(cause) => Some(cause),
        None => field_cause(value),
    }
}

// The same, where no field is told.
fn word_cause(value: &[u8]) -> Option<RowCause>
    ensures { IsFound (λ cause. IsWord cause × (value.now ≡ cause_text cause)) result }
{
    if value == b"Header".as_slice() {
        Some(RowCause::Header)
    } else if value == b"Columns".as_slice() {
        Some(RowCause::Columns)
    } else if value == b"TooManyRows".as_slice() {
        Some(RowCause::TooManyRows)
    } else if value == b"Differs".as_slice() {
        Some(RowCause::Differs)
    } else if value == b"NoTariff".as_slice() {
        Some(RowCause::NoTariff)
    } else if value == b"DayPast".as_slice() {
        Some(RowCause::DayPast)
    } else {
        None
    }
}

// The same, where one is, by its number.
fn field_cause(value: &[u8]) -> Option<RowCause>
    ensures { IsFound (λ cause. IsCause cause × (¬ IsWord cause) × (value.now ≡ cause_text cause))
        result }
{
    let Some(digits) = value.strip_prefix(b"Field ") else {
        return None;
    };
    match small_number(digits) {
        Some(number) if number <= 255 => Some(RowCause::Field(number as u8)),
        _ => None,
    }
}
