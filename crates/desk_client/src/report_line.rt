//! The line of a sale in a report.

ghost use Rattle.std.specs.Prelude.{◌≡◌, ◌≢◌, ◌↔◌, ◌<◌, ◌≤◌, ◌++◌, ◌∷◌, ℕ, List, All, IsTrue, MatchOption};
ghost use Rattle.std.specs.Prelude.{decimal, length, slice_index, take};
ghost use Rattle.office_rules.specs.declared.office.sale.Sale.{Sale};
ghost use Rattle.papers.specs.Report.{sale_line};
ghost use Rattle.papers.specs.Text.{right};
ghost use Rattle.desk_client.specs.Report.{AreOfSale, FitColumns, HasLine, IsInColumn, IsToldLine};
ghost use Rattle.desk_client.specs.Report.{columns_text};
ghost use Rattle.sts_fields.specs.Amount.{IsRepresentable};
ghost use Rattle.desk_client.specs.declared.report_line.Columns.{Columns as AllColumns};

use crate::text::number;
use crate::values::meter_of;
use office_rules::GREATEST_COUNT;
use sts_fields::{Amount, amount_law};
use tariff::Tender;

/// What stands in the columns of a line.
#[derive(Clone, Copy)]
pub(crate) struct Columns<'t> {
    pub(crate) number: u64,
    pub(crate) meter: &'t [u8],
    pub(crate) tenths: u64,
    pub(crate) price: u64,
    pub(crate) tender: u64,
    pub(crate) change: u64,
}

/// The line at the front of a text, where it is that of a sale after a number, and what follows it.
pub(crate) fn line_in(text: &[u8], after: u64) -> Option<(Columns<'_>, &[u8])>
    ensures { MatchOption result
        ((s : Sale) (rest : List ℕ) → IsToldLine s → after < s.number
        → text.now ≢ sale_line s ++ rest)
        (λ found. HasLine after text.now found.0 found.1.now) }
{
    amount_law();
    let Some((columns, rest)) = columns_in(text) else {
        return None;
    };
    if is_line(&columns, after) {
        Some((columns, rest))
    } else {
        None
    }
}

// The columns at the front of a text, and what follows their line.
fn columns_in(text: &[u8]) -> Option<(Columns<'_>, &[u8])>
    ensures { MatchOption result
        ((c : AllColumns) (rest : List ℕ) → FitColumns c → text.now ≢ columns_text c rest)
        (λ found. FitColumns found.0 × (text.now ≡ columns_text found.0 found.1.now)) }
{
    let Some((number, behind_number)) = number_column(text, 10, b' ') else {
        return None;
    };
    let Some((meter, behind_meter)) = column(behind_number, 11, b' ') else {
        return None;
    };
    let Some((tenths, behind_tenths)) = number_column(behind_meter, 8, b' ') else {
        return None;
    };
    let Some((price, behind_price)) = number_column(behind_tenths, 9, b' ') else {
        return None;
    };
    let Some((tender, behind_tender)) = number_column(behind_price, 9, b' ') else {
        return None;
    };
    let Some((change, rest)) = number_column(behind_tender, 9, b'\n') else {
        return None;
    };
    let columns = Columns {
        number,
        meter,
        tenths,
        price,
        tender,
        change,
    };
    Some((columns, rest))
}

// Whether columns are those of a sale after a number.
fn is_line(c: &Columns<'_>, after: u64) -> bool
    ensures { IsTrue result
        ↔ ((s : Sale) × (after < s.number) × IsToldLine s × AreOfSale c.now s) }
{
    if c.number <= after || c.number > GREATEST_COUNT || !is_amount(c.tenths) {
        return false;
    }
    if c.price > c.tender || c.change != c.tender - c.price {
        return false;
    }
    match (meter_of(c.meter), Tender::read(c.tender)) {
        (Some(_), Some(_)) => true,
        _ => false,
    }
}

// Whether a number is one of tenths that a sale may have.
fn is_amount(tenths: u64) -> bool
    ensures { IsTrue result ↔ IsRepresentable tenths }
{
    amount_law();
    if tenths > u64::from(Amount::MAX_TENTHS) {
        return false;
    }
    Amount::of_tenths(tenths as u32).is_some()
}

// The number in a column of so many places at the front of a text, and what stands behind the byte
// that ends the column.
fn number_column(text: &[u8], places: usize, end: u8) -> Option<(u64, &[u8])>
    ensures { MatchOption result
        ((n : ℕ) (rest : List ℕ) → IsInColumn places n
        → text.now ≢ right places (decimal n) ++ end ∷ rest)
        (λ found. IsInColumn places found.0
        × (text.now ≡ right places (decimal found.0) ++ end ∷ found.1.now)) }
{
    let Some((value, rest)) = column(text, places, end) else {
        return None;
    };
    match number(&value[spaces_before(value)..]) {
        Some(number) => Some((number, rest)),
        None => None,
    }
}

// What stands in a column of so many places at the front of a text, and what stands behind the byte
// that ends the column.
fn column(text: &[u8], places: usize, end: u8) -> Option<(&[u8], &[u8])>
    ensures { MatchOption result
        ((value rest : List ℕ) → length value ≡ places → text.now ≢ value ++ end ∷ rest)
        (λ found. (length found.0.now ≡ places)
        × (text.now ≡ found.0.now ++ end ∷ found.1.now)) }
{
    if text.len() < places {
        return None;
    }
    let (value, behind) = text.split_at(places);
    match behind.strip_prefix(&[end]) {
        Some(rest) => Some((value, rest)),
        None => None,
    }
}

// How many spaces a text begins with.
fn spaces_before(text: &[u8]) -> usize
    ensures within { result ≤ length text.now }
    ensures before { All (λ byte. byte ≡ 32) (take result text.now) }
    ensures found { result < length text.now → slice_index text.now result ≢ 32 }
{
    text.iter()
        .position(|byte| *byte != b' ')
        .unwrap_or(text.len())
}
