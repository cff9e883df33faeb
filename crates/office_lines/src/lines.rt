//! Requests and replies as lines of text. `tools/oracle` says what a line is, and answers such
//! lines from the rules alone.

use crate::values::{import, meter_no, operator, order_of, stamped, tariff_name};
use office_rules::{Answer, Meter, Refusal, Reply, Request, Row, Sale, Sales, Shift, Stamped};
use std::alloc::Global;
use std::test::Fail;
use sts_fields::{Base, Day};
use sts_token::read_key;
use tariff::Steps;

/// The request of a line, with its moment. The nibble is that of the next number after so many
/// sales.
pub fn stamped_of(alloc: Global, sale_count: usize, line: &str) -> Result<Stamped, Fail> {
    let (moment, asked) = line.split_once(' ').ok_or("no moment")?;
    let (word, values) = asked.split_once(' ').unwrap_or((asked, ""));
    let seconds: u32 = moment.parse()?;
    let nibble = (sale_count % 16) as u8;
    stamped(
        i64::from(seconds),
        nibble.saturating_add(1),
        request(alloc, word, values)?,
    )
}

fn request(alloc: Global, word: &str, text: &str) -> Result<Request, Fail> {
    let (count, [one, two, three, four, _]) = values(text, ' ');
    match (word, count) {
        ("add-tariff", 2) => Ok(Request::AddTariff(name(one)?, steps(alloc, two)?)),
        ("add-steps", 3) => { Ok(Request::AddSteps(name(one)?, day(two)?, steps(alloc, three)?)) }
        ("withdraw-steps", 2) => Ok(Request::WithdrawSteps(name(one)?, day(two)?)),
        ("add-meter", 4) => Ok(Request::AddMeter(number(one)?, meter(two, three, four)?)),
        ("set-tariff", 2) => Ok(Request::SetTariff(number(one)?, name(two)?)),
        ("move-base", 2) => Ok(Request::MoveBase(number(one)?, base(two)?)),
        ("set-key", 2) => Ok(Request::SetKey(number(one)?, key(two)?)),
        ("open-shift", 1) => Ok(Request::OpenShift(operator(one.as_bytes())?)),
        ("close-shift", 1) => Ok(Request::CloseShift(operator(one.as_bytes())?)),
        ("sell", 4) => order_of(
            one.as_bytes(),
            two.as_bytes(),
            three.as_bytes(),
            four.parse()?,
        ),
        ("reprint", 1) => Ok(Request::Reprint(one.parse()?)),
        ("report", 1) => Ok(Request::ShiftReport(one.parse()?)),
        ("import", _) => rows(alloc, text),
        _ => Err(Fail::new(format_args!("no request: {word} {text}"))),
    }
}

fn rows(alloc: Global, text: &str) -> Result<Request, Fail> {
    let mut rows = Vec::new(alloc);
    for row in text.split_whitespace() {
        let (count, [kind, one, two, three, four]) = values(row, ',');
        rows.push(match (kind, count) {
            ("t", 3) => Row::Tariff(name(one)?, steps(alloc, two)?),
            ("s", 4) => Row::Steps(name(one)?, day(two)?, steps(alloc, three)?),
            ("m", 5) => Row::Meter(number(one)?, meter(two, three, four)?),
            _ => return Err(Fail::new(format_args!("no row: {row}"))),
        })?;
    }
    import(rows)
}

// How many values a text has, and the first of them; empty ones where it has fewer.
fn values(text: &str, between: char) -> (usize, [&str; 5]) {
    let mut pieces = text.split(between);
    let one = pieces.next().unwrap_or("");
    let two = pieces.next().unwrap_or("");
    let three = pieces.next().unwrap_or("");
    let four = pieces.next().unwrap_or("");
    let five = pieces.next().unwrap_or("");
    (text.split(between).count(), [one, two, three, four, five])
}

fn name(text: &str) -> Result<office_rules::TariffName, Fail> {
    tariff_name(text.as_bytes())
}

fn number(text: &str) -> Result<office_rules::MeterNo, Fail> {
    meter_no(text.as_bytes())
}

fn steps(alloc: Global, text: &str) -> Result<Steps, Fail> {
    Ok(Steps::of_text(alloc, text.as_bytes())?)
}

fn day(text: &str) -> Result<Day, Fail> {
    Ok(Day::of_text(text.as_bytes())?)
}

fn base(year: &str) -> Result<Base, Fail> {
    Ok(Base::of_year(year.parse()?).ok_or("no base date")?)
}

fn meter(year: &str, tariff: &str, secret: &str) -> Result<Meter, Fail> {
    Ok(Meter {
        base: base(year)?,
        tariff: name(tariff)?,
        key: key(secret)?,
    })
}

fn key(digits: &str) -> Result<u64, Fail> {
    Ok(read_key(digits.as_bytes()).ok_or("no key")?)
}

/// The reply as a line, without its end.
pub fn told(alloc: Global, reply: &Reply) -> Result<String, Fail> {
    match reply {
        Ok(answer) => told_answer(alloc, answer),
        Err(refusal) => told_refusal(alloc, *refusal),
    }
}

fn told_refusal(alloc: Global, refusal: Refusal) -> Result<String, Fail> {
    let (number, name) = (refusal.number(), refusal.name());
    match refusal {
        Refusal::ImportRow(row, cause) => {
            Ok(format!(in alloc; "refused {number} {name} {row} {cause}")?)
        }
        _ => Ok(format!(in alloc; "refused {number} {name}")?),
    }
}

fn told_answer(alloc: Global, answer: &Answer) -> Result<String, Fail> {
    match answer {
        Answer::Done => Ok(format!(in alloc; "done")?),
        Answer::Imported(count) => Ok(format!(in alloc; "imported {count}")?),
        Answer::Withdrawn(count) => Ok(format!(in alloc; "withdrawn {count}")?),
        Answer::Opened(number) => Ok(format!(in alloc; "opened {number}")?),
        Answer::Closed(number) => Ok(format!(in alloc; "closed {number}")?),
        Answer::Sold(sale) => told_sale(alloc, "sold", sale),
        Answer::Reprinted(sale) => told_sale(alloc, "reprinted", sale),
        Answer::Report(shift, sales) => told_report(alloc, shift, sales),
    }
}

fn told_sale(alloc: Global, word: &str, sale: &Sale) -> Result<String, Fail> {
    let (front, back) = (told_order(alloc, sale)?, told_token(alloc, sale)?);
    let (number, moment, shift) = (sale.number, sale.moment.secs(), sale.shift);
    Ok(format!(in alloc; "{word} {number} {moment} {shift} {front} {back}")?)
}

fn told_order(alloc: Global, sale: &Sale) -> Result<String, Fail> {
    let operator = str::from_utf8(sale.operator.as_bytes())?;
    let order_ref = str::from_utf8(sale.order_ref.as_bytes())?;
    let (meter, base) = (str::from_utf8(sale.meter.as_bytes())?, sale.base.year());
    Ok(format!(in alloc; "{operator} {order_ref} {meter} {base}")?)
}

fn told_token(alloc: Global, sale: &Sale) -> Result<String, Fail> {
    let (tid, rnd, tenths) = (sale.tid, sale.rnd, sale.tenths.tenths());
    let (price, tender) = (sale.price, sale.tender.cents());
    let token = str::from_utf8(&sale.digits)?;
    let bought = format!(in alloc; "{tid} {rnd} {tenths}")?;
    Ok(format!(in alloc; "{bought} {price} {tender} {token}")?)
}

fn told_report(alloc: Global, shift: &Shift, sales: &Sales) -> Result<String, Fail> {
    let operator = str::from_utf8(shift.operator.as_bytes())?;
    let (number, opened) = (shift.number, shift.opened.secs());
    let closed = match shift.closed {
        Some(moment) => format!(in alloc; "{}", moment.secs())?,
        None => format!(in alloc; "-")?,
    };
    let front = format!(in alloc; "report {number} {operator} {opened} {closed}")?;
    let of_sales = told_sales(alloc, sales.as_slice())?;
    Ok(format!(in alloc; "{front} {of_sales}")?)
}

// How many there are, their tenths and their prices, and their numbers.
fn told_sales(alloc: Global, sales: &[Sale]) -> Result<String, Fail> {
    let (mut tenths, mut cash) = (0u64, 0u64);
    let mut numbers = String::new(alloc);
    for sale in sales {
        tenths = tenths.saturating_add(u64::from(sale.tenths.tenths()));
        cash = cash.saturating_add(u64::from(sale.price));
        let before = if numbers.is_empty() { "" } else { "," };
        let number = format!(in alloc; "{before}{}", sale.number)?;
        numbers.push_str(number.as_str())?;
    }
    let joined = if sales.is_empty() {
        "-"
    } else {
        numbers.as_str()
    };
    let count = sales.len();
    Ok(format!(in alloc; "{count} {tenths} {cash} {joined}")?)
}
