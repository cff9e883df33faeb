//! The receipt of a sale, as a reply has it.

ghost use Rattle.std.specs.Prelude.{◌≡◌, ◌↔◌, ◌<◌, ◌+◌, ◌∷◌, [], IsTrue, map, take};
ghost use Rattle.papers.specs.Text.{kwh_text};
ghost use Rattle.sts_fields.specs.Amount.{IsRepresentable};
ghost use Rattle.sts_token.specs.Token.{AreTwentyDigits};
ghost use Rattle.desk_client.specs.Receipt.{AreMoney, AreReceiptNumbered, AreReceiptOf};
ghost use Rattle.desk_client.specs.Receipt.{IsReceiptNumbered, IsReceiptOf, spaced};
ghost use Rattle.records.specs.Front.{IsFound};
ghost use Rattle.records.specs.Record.{now};

use crate::answers::is_of_class_zero;
use crate::columns::are_digits;
use crate::text::{Values, read_values, small_number};
use crate::time::time_of;
use crate::values::{meter_of, row_number_of, tender_of};
use office_rules::MeterNo;
use sts_fields::{Amount, amount_law, calendar_law};

// What stands behind each value of a receipt.
const ENDS: [&str; 8] = [
    "\nMETER ",
    "\nTIME ",
    "\nKWH ",
    "\nPRICE ",
    "\nTENDER ",
    "\nCHANGE ",
    "\nTOKEN ",
    "\n",
];

// Whether a text is the receipt of a sale to a meter, as a desk writes it.
pub(crate) fn is_receipt_of(meter: &MeterNo, text: &[u8]) -> bool
    ensures { IsTrue result ↔ IsReceiptOf meter.now text.now }
{
    amount_law();
    calendar_law();
    match read_values(text, "SALE ", &ENDS) {
        Some(values) => are_receipt_of(meter, &values),
        None => false,
    }
}

// Whether these values are those of the receipt of a sale to a meter.
fn are_receipt_of(meter: &MeterNo, values: &Values<'_>) -> bool
    ensures { IsTrue result ↔ AreReceiptOf meter.now (take 8 (map now values.now.of)) }
{
    let [
        number,
        owner,
        time,
        energy,
        price,
        tender,
        change,
        token,
        ..
    ] = values.of;
    if owner != meter.as_bytes() {
        return false;
    }
    if !are_money(price, tender, change) {
        return false;
    }
    let Some(_) = row_number_of(number) else {
        return false;
    };
    let Some(_) = time_of(time) else {
        return false;
    };
    let Some(_) = energy_of(energy) else {
        return false;
    };
    match spaced_token(token) {
        Some(digits) => is_of_class_zero(&digits),
        None => false,
    }
}

// Whether a text is the receipt of the sale of a number, as a desk writes it.
pub(crate) fn is_receipt_numbered(number: u32, text: &[u8]) -> bool
    ensures { IsTrue result ↔ IsReceiptNumbered number text.now }
{
    amount_law();
    calendar_law();
    match read_values(text, "SALE ", &ENDS) {
        Some(values) => are_receipt_numbered(number, &values),
        None => false,
    }
}

// Whether these values are those of the receipt of the sale of a number.
fn are_receipt_numbered(number: u32, values: &Values<'_>) -> bool
    ensures { IsTrue result ↔ AreReceiptNumbered number (take 8 (map now values.now.of)) }
{
    let [told, owner, ..] = values.of;
    let Some(own) = row_number_of(told) else {
        return false;
    };
    if own != number {
        return false;
    }
    match meter_of(owner) {
        Some(meter) => are_receipt_of(&meter, values),
        None => false,
    }
}

// Whether these values are a price, a tender and the change.
fn are_money(price: &[u8], tender: &[u8], change: &[u8]) -> bool
    ensures { IsTrue result ↔ AreMoney price.now tender.now change.now }
{
    let Some(price) = small_number(price) else {
        return false;
    };
    let Some(tender) = tender_of(tender) else {
        return false;
    };
    let Some(change) = small_number(change) else {
        return false;
    };
    let cents = tender.cents();
    if price > cents {
        return false;
    }
    if change != cents - price {
        return false;
    }
    true
}

// The energy that a value tells, in kWh with one digit behind the point.
fn energy_of(value: &[u8]) -> Option<Amount>
    ensures { IsFound (λ tenths. IsRepresentable tenths × (value.now ≡ kwh_text tenths)) result }
{
    amount_law();
    if value.len() < 2 {
        return None;
    }
    let (whole, last) = value.split_at(value.len() - 2);
    let Some(whole) = small_number(whole) else {
        return None;
    };
    let Some(tenth) = tenth_of(last) else {
        return None;
    };
    amount_from(u64::from(whole) * 10 + u64::from(tenth))
}

// The amount of so many tenths of a kWh.
fn amount_from(tenths: u64) -> Option<Amount>
    ensures { IsFound (λ amount. IsRepresentable amount × (amount ≡ tenths)) result }
{
    amount_law();
    if tenths > u64::from(Amount::MAX_TENTHS) {
        return None;
    }
    Amount::of_tenths(tenths as u32)
}

// The digit behind a point.
fn tenth_of(text: &[u8]) -> Option<u8>
    ensures { IsFound (λ digit. (digit < 10) × (text.now ≡ 46 ∷ (48 + digit) ∷ [])) result }
{
    let &[b'.', digit] = text else {
        return None;
    };
    if digit.is_ascii_digit() {
        Some(digit - b'0')
    } else {
        None
    }
}

// The twenty digits that a value has in groups of four.
fn spaced_token(value: &[u8]) -> Option<[u8; 20]>
    ensures { IsFound (λ digits. AreTwentyDigits digits × (value.now ≡ spaced digits)) result }
{
    let &[
        a,
        b,
        c,
        d,
        first,
        e,
        f,
        g,
        h,
        second,
        i,
        j,
        k,
        l,
        third,
        m,
        n,
        o,
        p,
        fourth,
        q,
        r,
        s,
        t,
    ] = value
    else {
        return None;
    };
    if first != b' ' || second != b' ' || third != b' ' || fourth != b' ' {
        return None;
    }
    let digits = [a, b, c, d, e, f, g, h, i, j, k, l, m, n, o, p, q, r, s, t];
    if are_digits(&digits) {
        Some(digits)
    } else {
        None
    }
}
