//! Worked values of the rules: a line for each call, with what it has to give (`sts_fields`,
//! `sts_token`, `tariff`, and the meter numbers of `office_rules`).

ghost use Rattle.std.specs.Prelude.{◌≤◌, IfOk};
ghost use Rattle.tariff.specs.Cost.{greatest_prior};

use office_lines::values::moment;
use office_rules::MeterNo;
use std::alloc::Global;
use std::fmt::Display;
use std::test::Fail;
use sts_fields::{Amount, Base, Day, LAST_TID, Moment, civil, day_of, minute, month_of, next_tid};
use sts_token::{BlockTransform, Demo, Fields, Plain, check16, key_text, read, read_key, write};
use tariff::{MAX_PRIOR, Steps, Tender, buy, price};

mod days;
mod rows;

fn number(text: &str) -> Result<u32, Fail> {
    Ok(text.parse()?)
}

// A text's first word, and what follows it.
fn split(text: &str) -> (&str, &str) {
    text.split_once(' ').unwrap_or((text, ""))
}

fn shown<T: Display + Drop>(alloc: Global, value: Option<T>) -> Result<String, Fail> {
    match value {
        Some(value) => Ok(format!(in alloc; "{value}")?),
        None => Ok(format!(in alloc; "none")?),
    }
}

// What a call gives.
fn told(alloc: Global, word: &str, text: &str) -> Result<String, Fail> {
    match word {
        "amount" => amount(alloc, number(text)?),
        "floor" => floor(alloc, number(text)?),
        "base" => shown(alloc, Base::of_year(text.parse()?).map(|base| base.year())),
        "moment" => shown(alloc, Moment::of_secs(text.parse()?).map(|it| it.secs())),
        "minute" => minute_of(alloc, text),
        "next" => next_of(alloc, text),
        "civil" => civil_of(alloc, text),
        "day" => day(alloc, &bytes(alloc, text)?),
        "days" => shown(alloc, Day::of_days(number(text)?).map(|day| day.days())),
        "buy" => bought(alloc, text),
        "price" => priced(alloc, text),
        "steps" => steps(alloc, &bytes(alloc, text)?),
        "tender" => shown(alloc, Tender::read(text.parse()?).map(|it| it.cents())),
        "meter" => meter(alloc, text),
        "check" => checked(alloc, text.parse()?),
        "key" => key(alloc, text),
        _ => by_transform(alloc, word, text),
    }
}

fn by_transform(alloc: Global, word: &str, text: &str) -> Result<String, Fail> {
    let (name, text) = split(text);
    let (key, text) = split(text);
    match name {
        "plain" => transformed(alloc, &Plain, word, key.parse()?, text),
        "demo" => transformed(alloc, &Demo, word, key.parse()?, text),
        _ => Err(Fail::new(format_args!("no call: {word}"))),
    }
}

fn transformed<T: BlockTransform>(
    alloc: Global,
    transform: &T,
    word: &str,
    key: u64,
    text: &str,
) -> Result<String, Fail> {
    match word {
        "forward" => Ok(format!(in alloc; "{}", transform.forward(key, text.parse()?))?),
        "inverse" => Ok(format!(in alloc; "{}", transform.inverse(key, text.parse()?))?),
        "write" => written(alloc, transform, key, text),
        "read" => carried(alloc, transform, key, &bytes(alloc, text)?),
        _ => Err(Fail::new(format_args!("no call: {word}"))),
    }
}

fn bytes(alloc: Global, text: &str) -> Result<Vec<u8>, Fail> {
    let mut bytes = Vec::new(alloc);
    for byte in text.bytes() {
        bytes.push(match byte {
            b'^' => 255,
            b'@' => 185,
            _ => byte,
        })?;
    }
    Ok(bytes)
}

// The code of an amount, which is the amount of that code.
fn amount(alloc: Global, tenths: u32) -> Result<String, Fail> {
    let Some(amount) = Amount::of_tenths(tenths) else {
        return shown(alloc, None::<u32>);
    };
    let code = amount.code();
    if Amount::of_code(code) != amount || amount.tenths() != tenths {
        return Err("another amount".into());
    }
    shown(alloc, Some(code))
}

fn floor(alloc: Global, tenths: u32) -> Result<String, Fail> {
    if tenths > Amount::MAX_TENTHS {
        return Err("too many tenths".into());
    }
    shown(alloc, Some(Amount::floor(tenths).tenths()))
}

fn minute_of(alloc: Global, text: &str) -> Result<String, Fail> {
    let (year, seconds) = split(text);
    let base = Base::of_year(year.parse()?).ok_or("no base date")?;
    let minute = minute(base, moment(seconds.parse()?)?);
    Ok(format!(in alloc; "{minute:?}")?)
}

fn next_of(alloc: Global, text: &str) -> Result<String, Fail> {
    let (now, last) = split(text);
    let (now, sold) = (number(now)?, last.parse::<u32>().ok());
    if now > LAST_TID || sold.unwrap_or(0) > LAST_TID || (sold.is_none() && last != "-") {
        return Err("no identifier".into());
    }
    Ok(format!(in alloc; "{:?}", next_tid(now, sold))?)
}

// The date and the time in UTC, and the month since January 1993.
fn civil_of(alloc: Global, text: &str) -> Result<String, Fail> {
    let moment = moment(text.parse()?)?;
    let (it, month) = (civil(moment)?, month_of(moment)?);
    let date = format!(in alloc; "{}-{}-{}", it.year, it.month, it.day)?;
    let time = format!(in alloc; "{}:{}:{}", it.hour, it.minute, it.second)?;
    Ok(format!(in alloc; "{date} {time} {month}")?)
}

// The number of a day, which is the day of that number, and that of its first and last moment.
fn day(alloc: Global, text: &[u8]) -> Result<String, Fail> {
    let day = match Day::of_text(text) {
        Ok(day) => day,
        Err(fault) => return Ok(format!(in alloc; "{fault:?}")?),
    };
    let midnight = 725_846_400 + i64::from(day.days()) * 86_400;
    let (first, last) = (moment(midnight)?, moment(midnight + 86_399)?);
    if Day::of_days(day.days()) != Some(day) || day_of(first) != day || day_of(last) != day {
        return Err("another day".into());
    }
    shown(alloc, Some(day.days()))
}

// The tenths of a month before, at most those that the rules take.
fn prior_of(text: &str) -> Result<u64, Fail>
    ensures { IfOk result (λ prior. prior ≤ greatest_prior) }
{
    let prior = text.parse::<u64>()?;
    if prior > MAX_PRIOR {
        return Err("too many tenths before".into());
    }
    Ok(prior)
}

// What a tender buys by the steps of a text: tenths, price and change.
fn bought(alloc: Global, text: &str) -> Result<String, Fail> {
    let (steps, text) = split(text);
    let (prior, cents) = split(text);
    let steps = Steps::of_text(alloc, steps.as_bytes())?;
    let tender = Tender::read(cents.parse()?).ok_or("no tender")?;
    match buy(&steps, prior_of(prior)?, tender) {
        Some(it) => {
            let tenths = it.tenths.tenths();
            Ok(format!(in alloc; "{tenths} {} {}", it.price, it.change)?)
        }
        None => shown(alloc, None::<u32>),
    }
}

fn priced(alloc: Global, text: &str) -> Result<String, Fail> {
    let (steps, text) = split(text);
    let (prior, tenths) = split(text);
    let steps = Steps::of_text(alloc, steps.as_bytes())?;
    let tenths = number(tenths)?;
    if tenths > Amount::MAX_TENTHS {
        return Err("too many tenths".into());
    }
    shown(alloc, Some(price(&steps, prior_of(prior)?, tenths)))
}

fn steps(alloc: Global, text: &[u8]) -> Result<String, Fail> {
    match Steps::of_text(alloc, text) {
        Ok(_) => Ok(format!(in alloc; "read")?),
        Err(fault) => Ok(format!(in alloc; "{fault:?}")?),
    }
}

fn meter(alloc: Global, text: &str) -> Result<String, Fail> {
    let read = MeterNo::read(text.as_bytes());
    shown(alloc, read.map(|_| "read"))
}

// The check of the seven last bytes of a number, with a table and without.
fn checked(alloc: Global, number: u64) -> Result<String, Fail> {
    let [_, a, b, c, d, e, f, g] = number.to_be_bytes();
    shown(alloc, Some(check16(&[a, b, c, d, e, f, g])))
}

fn key(alloc: Global, text: &str) -> Result<String, Fail> {
    let Some(key) = read_key(text.as_bytes()) else {
        return shown(alloc, None::<u32>);
    };
    Ok(format!(in alloc; "{key} {}", str::from_utf8(&key_text(key))?)?)
}

fn written<T: BlockTransform>(
    alloc: Global,
    transform: &T,
    key: u64,
    text: &str,
) -> Result<String, Fail> {
    let (rnd, text) = split(text);
    let (tid, tenths) = split(text);
    let (rnd, tid) = (rnd.parse::<u8>()?, number(tid)?);
    let amount = Amount::of_tenths(number(tenths)?).ok_or("representable")?;
    if rnd > 15 || tid > LAST_TID {
        return Err("no fields".into());
    }
    let digits = write(transform, key, Fields { rnd, tid, amount });
    Ok(format!(in alloc; "{}", str::from_utf8(&digits)?)?)
}

fn carried<T: BlockTransform>(
    alloc: Global,
    transform: &T,
    key: u64,
    text: &[u8],
) -> Result<String, Fail> {
    match read(transform, key, text) {
        Ok(it) => {
            let tenths = it.amount.tenths();
            Ok(format!(in alloc; "{} {} {tenths}", it.rnd, it.tid)?)
        }
        Err(fault) => Ok(format!(in alloc; "{fault:?}")?),
    }
}

#[test]
fn each_call(rt: HostRuntime) -> Result<(), Fail> {
    for line in rows::rows().lines() {
        let (call, wanted) = line.split_once(" = ").ok_or("nothing wanted")?;
        let (word, text) = split(call);
        let found = told(rt.alloc(), word, text)?;
        assert_eq!(rt; found.as_str(), wanted, "{line}");
    }
    assert_eq!(rt; rows::rows().lines().count(), 202);
    Ok(())
}

#[test]
fn days_around_each_new_year_and_leap_day(rt: HostRuntime) -> Result<(), Fail> {
    for word in days::days().split_whitespace() {
        let (text, wanted) = word.split_once('=').ok_or("a text and a number")?;
        let found = day(rt.alloc(), text.as_bytes())?;
        assert_eq!(rt; found.as_str(), wanted, "{text}");
    }
    // Four a year, and a leap day in 26 years.
    assert_eq!(rt; days::days().split_whitespace().count(), 454);
    Ok(())
}
