//! The values that words say, each read exactly by its rule.
ghost use Rattle.std.specs.Prelude.{map};
ghost use Rattle.command_line.specs.Said.{ReadsOrFull};
ghost use Rattle.command_line.specs.Values.{ReadsBy, SayEach, SaysAfter, SaysAmount, SaysBase};
ghost use Rattle.command_line.specs.Values.{SaysConnections, SaysCount, SaysDay, SaysFlag};
ghost use Rattle.command_line.specs.Values.{SaysItem, SaysMoment, SaysOctet, SaysPort};
ghost use Rattle.command_line.specs.Values.{SaysPrior, SaysTender, SaysWait};

use crate::words::BadWords;
use office_rules::GREATEST_COUNT;
use std::alloc::Global;
use sts_fields::{Base, Day, Moment};
use tariff::{MAX_PRIOR, Tender};

/// A number of 64 bits in ASCII digits; zeros may stand in front.
pub(crate) fn number(word: &str) -> Option<u64>
    ensures { ReadsBy SaysCount word.now result }
{
    if word.as_bytes().first() == Some(&b'+') {
        return None;
    }
    word.parse().ok()
}

/// The base date of a year.
pub(crate) fn base(word: &str) -> Option<Base>
    ensures { ReadsBy SaysBase word.now result }
{
    let year = u32::try_from(number(word)?).ok()?;
    Base::of_year(year)
}

/// The moment of so many Unix seconds.
pub(crate) fn moment(word: &str) -> Option<Moment>
    ensures { ReadsBy SaysMoment word.now result }
{
    let seconds = i64::try_from(number(word)?).ok()?;
    Moment::of_secs(seconds)
}

/// The day of UTC that a date is.
pub(crate) fn day(word: &str) -> Option<Day>
    ensures { ReadsBy SaysDay word.now result }
{
    Day::of_text(word.as_bytes()).ok()
}

/// An amount in tenths of a kWh, whether a token can carry it or not.
pub(crate) fn tenths(word: &str) -> Option<u32>
    ensures { ReadsBy SaysAmount word.now result }
{
    u32::try_from(number(word)?).ok()
}

/// The tenths of a kWh already bought earlier in a month, 0 to 10^17.
pub(crate) fn prior(word: &str) -> Option<u64>
    ensures { ReadsBy SaysPrior word.now result }
{
    let prior = number(word)?;
    if prior > MAX_PRIOR {
        return None;
    }
    Some(prior)
}

/// A tender in whole cents.
pub(crate) fn tender(word: &str) -> Option<Tender>
    ensures { ReadsBy SaysTender word.now result }
{
    Tender::read(number(word)?)
}

/// The number of a sale or a shift, 1 to 10^9.
pub(crate) fn item(word: &str) -> Option<u32>
    ensures { ReadsBy SaysItem word.now result }
{
    let number = u32::try_from(number(word)?).ok()?;
    if (1..=GREATEST_COUNT as u32).contains(&number) {
        Some(number)
    } else {
        None
    }
}

/// The number after which a list begins, 0 to 10^9.
pub(crate) fn after(word: &str) -> Option<u32>
    ensures { ReadsBy SaysAfter word.now result }
{
    let number = u32::try_from(number(word)?).ok()?;
    if number <= GREATEST_COUNT as u32 {
        Some(number)
    } else {
        None
    }
}

/// Whether a flag is among the words.
pub(crate) fn flag(word: &str) -> Option<bool>
    ensures { ReadsBy SaysFlag word.now result }
{
    match word {
        "true" => Some(true),
        "false" => Some(false),
        _ => None,
    }
}

/// How many connections are served, 1 to 1000000.
pub(crate) fn connections(word: &str) -> Option<u32>
    ensures { ReadsBy SaysConnections word.now result }
{
    let count = u32::try_from(number(word)?).ok()?;
    if (1..=1_000_000).contains(&count) {
        Some(count)
    } else {
        None
    }
}

/// For how many seconds a file is waited for, 0 to 3600.
pub(crate) fn wait(word: &str) -> Option<u32>
    ensures { ReadsBy SaysWait word.now result }
{
    let seconds = u32::try_from(number(word)?).ok()?;
    if seconds <= 3600 { Some(seconds) } else { None }
}

/// A number of an address, 0 to 255.
pub(crate) fn octet(word: &str) -> Option<u8>
    ensures { ReadsBy SaysOctet word.now result }
{
    u8::try_from(number(word)?).ok()
}

/// A port, 0 to 65535.
pub(crate) fn port(word: &str) -> Option<u16>
    ensures { ReadsBy SaysPort word.now result }
{
    u16::try_from(number(word)?).ok()
}

/// The amounts that some words say, in tenths of a kWh.
pub(crate) fn all_tenths(alloc: Global, words: &[&str]) -> Result<Vec<u32>, BadWords>
    ensures { ReadsOrFull result
        (λ amounts. SayEach SaysAmount (map (λ w. w.now) words.now) amounts.items) }
{
    let Ok(mut amounts) = Vec::with_capacity(alloc, words.len()) else {
        return Err(BadWords::Memory);
    };
    for word in words {
        let Some(tenths) = tenths(word) else {
            return Err(BadWords::Value);
        };
        amounts.push_reserved(tenths);
    }
    Ok(amounts)
}
