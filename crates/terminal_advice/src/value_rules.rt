//! The rule of each value, by the name of its option.

use crate::advice::Advice;
use office_rules::{GREATEST_COUNT, MeterNo, Operator, Ref, TariffName};
use std::num::ParseIntError;
use sts_fields::{Base, Day, Moment};
use sts_token::read_key;
use tariff::{MAX_PRIOR, Tender};

/// What is said of a word that is outside the rule of an option.
pub(crate) fn broken(option: &str, word: &str) -> Option<Advice> {
    match option {
        "transform" => unless(word == "plain" || word == "demo", Advice::WordTransform),
        "sync" => unless(word == "twice" || word == "full", Advice::WordSync),
        "act" => unless(word == "open" || word == "close", Advice::WordAct),
        "rows" => unless(word == "tariffs" || word == "meters", Advice::WordRows),
        "kind" => unless(is_paper(word), Advice::WordPaper),
        "desk" => unless(is_address(word), Advice::WordDesk),
        "listen" => unless(is_address(word), Advice::WordListen),
        _ => match broken_name(option, word) {
            Some(advice) => Some(advice),
            None => broken_number(option, word),
        },
    }
}

// The advice, if something does not hold.
fn unless(holds: bool, advice: Advice) -> Option<Advice> {
    if holds { None } else { Some(advice) }
}

fn is_paper(word: &str) -> bool {
    word == "shift" || word == "receipt" || word == "totals" || word == "sales"
}

// Of a name, a number of a meter, a key, or a day.
fn broken_name(option: &str, word: &str) -> Option<Advice> {
    let bytes = word.as_bytes();
    match option {
        "operator" => unless(Operator::read(bytes).is_some(), Advice::WordOperator),
        "ref" => unless(Ref::read(bytes).is_some(), Advice::WordRef),
        "meter" => unless(MeterNo::read(bytes).is_some(), Advice::WordMeter),
        "key" => unless(read_key(bytes).is_some(), Advice::WordKey),
        "tariff" => unless(TariffName::read(bytes).is_some(), Advice::WordTariff),
        "from" => unless(Day::of_text(bytes).is_ok(), Advice::WordFrom),
        "after tariff" => unless(TariffName::read(bytes).is_some(), Advice::WordAfter),
        "after meter" => unless(MeterNo::read(bytes).is_some(), Advice::WordAfter),
        _ => None,
    }
}

// Of a number.
fn broken_number(option: &str, word: &str) -> Option<Advice> {
    let number = number(word);
    let most = GREATEST_COUNT as u64;
    match option {
        "at" => unless(is_moment(number), Advice::WordAt),
        "base" => unless(is_base(number), Advice::WordBase),
        "tender" => unless(is_tender(number), Advice::WordTender),
        "wait" => unless(is_within(number, 0, 3600), Advice::WordWait),
        "number" => unless(is_within(number, 1, most), Advice::WordNumber),
        "after number" => unless(is_within(number, 0, most), Advice::WordAfter),
        "prior" => unless(is_within(number, 0, MAX_PRIOR), Advice::WordPrior),
        "amount" => unless(is_within(number, 0, u32::MAX as u64), Advice::WordAmount),
        "connections" => unless(is_within(number, 1, 1_000_000), Advice::WordConnections),
        _ => None,
    }
}

// A number of 64 bits in ASCII digits.
fn number(word: &str) -> Option<u64> {
    if word.as_bytes().first() == Some(&b'+') {
        return None;
    }
    let read: Result<u64, ParseIntError> = word.parse();
    read.ok()
}

fn is_within(number: Option<u64>, least: u64, most: u64) -> bool {
    match number {
        Some(number) => least <= number && number <= most,
        None => false,
    }
}

fn is_moment(number: Option<u64>) -> bool {
    let Some(number) = number else {
        return false;
    };
    match i64::try_from(number) {
        Ok(seconds) => Moment::of_secs(seconds).is_some(),
        Err(_) => false,
    }
}

fn is_base(number: Option<u64>) -> bool {
    let Some(number) = number else {
        return false;
    };
    match u32::try_from(number) {
        Ok(year) => Base::of_year(year).is_some(),
        Err(_) => false,
    }
}

fn is_tender(number: Option<u64>) -> bool {
    match number {
        Some(number) => Tender::read(number).is_some(),
        None => false,
    }
}

// Four numbers below 256 with points between them, a colon, and a port.
fn is_address(word: &str) -> bool {
    let Some((host, port)) = word.split_once(':') else {
        return false;
    };
    let mut count = 0u32;
    for part in host.split('.') {
        if count >= 4 || !is_within(number(part), 0, 255) {
            return false;
        }
        count += 1;
    }
    count == 4 && is_within(number(port), 0, 65535)
}
