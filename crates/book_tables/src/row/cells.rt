//! The value in a column of a row, from 0 on, as each of the office's types.
//!
//! Each function gives `None` exactly where the column holds no value of its kind. They take no
//! memory.

ghost use Rattle.std.specs.Prelude.{◌≡◌, ◌≤◌, ◌<◌, ◌^◌, ⊤};
ghost use Rattle.std.specs.Option.{option_copied};
ghost use Rattle.sqlite_value.specs.declared.value.Value.TheVariants.{Int, Text};
ghost use Rattle.sqlite_value.specs.Order.{column};
ghost use Rattle.sqlite_value.specs.Value.{owned};
ghost use Rattle.sts_fields.specs.Base.{year_of};
ghost use Rattle.sts_fields.specs.Day.{IsDay};
ghost use Rattle.sts_token.specs.Token.{AreTwentyDigits};
ghost use Rattle.tariff.specs.Tender.{IsTender};
ghost use Rattle.office_rules.specs.Name.{IsMeterNo, IsName, IsOperator};
ghost use Rattle.sts_fields.specs.Moment.{IsMoment};
ghost use Rattle.book_tables.specs.row.ReadBack.{ReadsBack};
ghost use Rattle.book_tables.specs.row.Rows.{number, optional, secret_of};
ghost use Rattle.book_tables.specs.row.Values.{IsClosing, IsEnd, IsFromTo, IsKey, IsNumber};
ghost use Rattle.book_tables.specs.row.Values.{IsSoldAmount, IsTid, IsTotal};

use office_rules::{GREATEST_COUNT, MeterNo, Operator, Ref, TariffName};
use sqlite::Row;
use sqlite::types::ValueRef;
use sts_fields::{Amount, Base, Day, Moment, amount_law};
use sts_token::read_key;
use tariff::Tender;

// The value in a column, or NULL past the last one.
fn value_at(row: &Row, at: usize) -> ValueRef<'_>
    ensures { owned result ≡ column row.now at }
{
    match row.get_ref(at) {
        Ok(value) => value,
        Err(_) => ValueRef::Null,
    }
}

fn whole_at(row: &Row, at: usize) -> Option<i64>
    ensures { ReadsBack Int (λ _. ⊤) (column row.now at) result }
{
    match value_at(row, at) {
        ValueRef::Int(whole) => Some(whole),
        _ => None,
    }
}

fn text_at(row: &Row, at: usize) -> Option<&[u8]>
    ensures { ReadsBack Text (λ _. ⊤) (column row.now at) (option_copied result) }
{
    match value_at(row, at) {
        ValueRef::Text(text) => Some(text),
        _ => None,
    }
}

/// A number of 32 bits.
pub fn word_at(row: &Row, at: usize) -> Option<u32>
    ensures { ReadsBack number (λ n. n < 2 ^ 32) (column row.now at) result }
{
    whole_at(row, at).and_then(|whole| u32::try_from(whole).ok())
}

/// A number from the least to the greatest.
pub fn between_at(row: &Row, at: usize, least: u32, greatest: u32) -> Option<u32>
    ensures { ReadsBack number (IsFromTo least greatest) (column row.now at) result }
{
    match word_at(row, at) {
        Some(word) if least <= word && word <= greatest => Some(word),
        _ => None,
    }
}

/// The number of a shift or of a sale.
pub fn number_at(row: &Row, at: usize) -> Option<u32>
    ensures { ReadsBack number IsNumber (column row.now at) result }
{
    between_at(row, at, 1, GREATEST_COUNT as u32)
}

/// An identifier of 24 bits.
pub fn tid_at(row: &Row, at: usize) -> Option<u32>
    ensures { ReadsBack number IsTid (column row.now at) result }
{
    between_at(row, at, 0, 16_777_215)
}

/// A number from 0 up, where 64 bits hold it with a sign.
fn long_at(row: &Row, at: usize) -> Option<u64>
    ensures { ReadsBack number (λ n. n < 2 ^ 63) (column row.now at) result }
{
    whole_at(row, at).and_then(|whole| u64::try_from(whole).ok())
}

/// A running total.
pub fn total_at(row: &Row, at: usize) -> Option<u64>
    ensures { ReadsBack number IsTotal (column row.now at) result }
{
    match long_at(row, at) {
        Some(total) if total <= 1_000_000_000_000_000_000 => Some(total),
        _ => None,
    }
}

/// A number of four bits.
pub fn nibble_at(row: &Row, at: usize) -> Option<u8>
    ensures { ReadsBack number (λ nibble. nibble < 2 ^ 4) (column row.now at) result }
{
    between_at(row, at, 0, 15).map(|nibble| nibble as u8)
}

/// The upper end of a step, where NULL is none.
pub fn end_at(row: &Row, at: usize) -> Option<Option<u32>>
    ensures { ReadsBack optional IsEnd (column row.now at) result }
{
    match value_at(row, at) {
        ValueRef::Null => Some(None),
        ValueRef::Int(whole) => u32::try_from(whole).ok().map(Some),
        _ => None,
    }
}

/// A moment, by its seconds.
pub fn moment_at(row: &Row, at: usize) -> Option<Moment>
    ensures { ReadsBack number IsMoment (column row.now at) result }
{
    whole_at(row, at).and_then(Moment::of_secs)
}

/// A moment, where NULL is none.
pub(crate) fn closing_at(row: &Row, at: usize) -> Option<Option<Moment>>
    ensures { ReadsBack optional IsClosing (column row.now at) result }
{
    match value_at(row, at) {
        ValueRef::Null => Some(None),
        ValueRef::Int(seconds) => Moment::of_secs(seconds).map(Some),
        _ => None,
    }
}

/// A day, by its number.
pub fn day_at(row: &Row, at: usize) -> Option<Day>
    ensures { ReadsBack number IsDay (column row.now at) result }
{
    word_at(row, at).and_then(Day::of_days)
}

/// A base date, by its year.
pub fn base_at(row: &Row, at: usize) -> Option<Base>
    ensures { ReadsBack (λ base. number (year_of base)) (λ _. ⊤) (column row.now at) result }
{
    word_at(row, at).and_then(Base::of_year)
}

/// The amount of a sale, in tenths of a kWh.
pub fn amount_at(row: &Row, at: usize) -> Option<Amount>
    ensures { ReadsBack number IsSoldAmount (column row.now at) result }
{
    amount_law();
    match between_at(row, at, 0, Amount::MAX_TENTHS) {
        Some(tenths) => Amount::of_tenths(tenths),
        None => None,
    }
}

/// A tender, in whole cents.
pub fn tender_at(row: &Row, at: usize) -> Option<Tender>
    ensures { ReadsBack number IsTender (column row.now at) result }
{
    word_at(row, at).and_then(|cents| Tender::read(u64::from(cents)))
}

/// The name of an operator.
pub fn operator_at(row: &Row, at: usize) -> Option<Operator>
    ensures { ReadsBack Text IsOperator (column row.now at) result }
{
    text_at(row, at).and_then(Operator::read)
}

/// The ref of an order.
pub fn ref_at(row: &Row, at: usize) -> Option<Ref>
    ensures { ReadsBack Text IsName (column row.now at) result }
{
    text_at(row, at).and_then(Ref::read)
}

/// The name of a tariff.
pub fn tariff_at(row: &Row, at: usize) -> Option<TariffName>
    ensures { ReadsBack Text IsName (column row.now at) result }
{
    text_at(row, at).and_then(TariffName::read)
}

/// The number of a meter.
pub fn meter_no_at(row: &Row, at: usize) -> Option<MeterNo>
    ensures { ReadsBack Text IsMeterNo (column row.now at) result }
{
    text_at(row, at).and_then(MeterNo::read)
}

/// A key, by its sixteen digits.
pub fn key_at(row: &Row, at: usize) -> Option<u64>
    ensures { ReadsBack (λ key. Text (secret_of key)) IsKey (column row.now at) result }
{
    match text_at(row, at) {
        Some(text) => read_key(text),
        None => None,
    }
}

/// The twenty digits of a token.
pub fn digits_at(row: &Row, at: usize) -> Option<[u8; 20]>
    ensures { ReadsBack Text AreTwentyDigits (column row.now at) result }
{
    let text = text_at(row, at)?;
    if text.len() != 20 || !text.iter().all(|byte| byte.is_ascii_digit()) {
        return None;
    }
    let mut digits = [0; 20];
    digits.copy_from_slice(text);
    Some(digits)
}
