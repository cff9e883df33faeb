//! The number, the name and the sentence of each fault and of each refusal.

use office_rules::{Refusal, RowCause};
use papers::{RowFault, TextFault};
use std::alloc::Global;
use std::fmt::Display;
use std::test::Fail;
use sts_fields::{DayFault, Memory, TidFault};
use sts_token::TokenFault;
use tariff::StepsFault;

fn named() -> &'static str {
    "\
1 BeforeBase the moment is before the base date
2 PastEnd the moment is past the last identifier of the base date
3 IdentifiersSpent no identifier of the base date is left for this meter
4 IdentifierAhead the next identifier is more than a day ahead
1 NotADay the text is no day of 1993 to 2099
2 Memory out of memory
1 NotTwentyDigits a token is twenty digits
2 TooLarge the number of the digits is too large for a token
3 WrongClass the token is of another class than 0
4 BadCheck the check of the token is wrong
5 WrongSubclass the token is of another subclass than 0
1 NoStep there is no step
2 TooMany there are more than eight steps
3 NotRising an end is 0 or not greater than the one before
4 BadPrice a price is not 1 to 1000000 cents
5 EndMissing a step but the last has no end, or the last has one
6 Memory out of memory
7 BadText the text is not that of steps
1 RefReused the ref was used for another order
2 NoShift the operator has no open shift
3 ShiftOpen the operator has an open shift
4 NoMeter there is no such meter
5 NoTariff there is no such tariff
6 Differs something else is there under this name
7 BeforeBase the moment is before the meter's base date
8 IdentifiersSpent no identifier is left for this meter
9 IdentifierAhead the next identifier is more than a day ahead
10 TooLittle the tender buys nothing
11 OfficeFull the office is full
12 NoSale there is no such sale
13 NoSuchShift there is no such shift
14 ImportRow row 2 of the import: Field 1
15 Memory out of memory
16 Store the store failed
17 Stopped the office has stopped
18 NotLater the meter has a later base date
19 DayPast the day of the steps has begun
20 HasSales the meter has sales
0 - out of memory
0 - Header
0 - Columns
0 - Field 4
0 - TooManyRows
0 - Differs
0 - NoTariff
0 - DayPast
0 - row 2: Columns
0 - out of memory
0 - out of memory
0 - the writer failed
"
}

static TIDS: [TidFault; 4] = [
    TidFault::BeforeBase,
    TidFault::PastEnd,
    TidFault::IdentifiersSpent,
    TidFault::IdentifierAhead,
];

static DAYS: [DayFault; 2] = [DayFault::NotADay, DayFault::Memory];

static TOKENS: [TokenFault; 5] = [
    TokenFault::NotTwentyDigits,
    TokenFault::TooLarge,
    TokenFault::WrongClass,
    TokenFault::BadCheck,
    TokenFault::WrongSubclass,
];

static STEPS: [StepsFault; 7] = [
    StepsFault::NoStep,
    StepsFault::TooMany,
    StepsFault::NotRising,
    StepsFault::BadPrice,
    StepsFault::EndMissing,
    StepsFault::Memory,
    StepsFault::BadText,
];

static REFUSALS: [Refusal; 20] = [
    Refusal::RefReused,
    Refusal::NoShift,
    Refusal::ShiftOpen,
    Refusal::NoMeter,
    Refusal::NoTariff,
    Refusal::Differs,
    Refusal::BeforeBase,
    Refusal::IdentifiersSpent,
    Refusal::IdentifierAhead,
    Refusal::TooLittle,
    Refusal::OfficeFull,
    Refusal::NoSale,
    Refusal::NoSuchShift,
    Refusal::ImportRow(2, RowCause::Field(1)),
    Refusal::Memory,
    Refusal::Store,
    Refusal::Stopped,
    Refusal::NotLater,
    Refusal::DayPast,
    Refusal::HasSales,
];

static CAUSES: [RowCause; 7] = [
    RowCause::Header,
    RowCause::Columns,
    RowCause::Field(4),
    RowCause::TooManyRows,
    RowCause::Differs,
    RowCause::NoTariff,
    RowCause::DayPast,
];

// They have no clause: a proof takes much longer over a list that it knows item by item.
fn tids() -> &'static [TidFault] {
    &TIDS
}

fn days() -> &'static [DayFault] {
    &DAYS
}

fn tokens() -> &'static [TokenFault] {
    &TOKENS
}

fn steps() -> &'static [StepsFault] {
    &STEPS
}

fn refusals() -> &'static [Refusal] {
    &REFUSALS
}

fn causes() -> &'static [RowCause] {
    &CAUSES
}

// Adds a line of `named`.
fn add<T: Display>(
    alloc: Global,
    text: &mut String,
    number: u8,
    name: &str,
    fault: &T,
) -> Result<(), Fail> {
    let line = format!(in alloc; "{number} {name} {fault}\n")?;
    text.push_str(line.as_str())?;
    Ok(())
}

fn add_faults(alloc: Global, text: &mut String) -> Result<(), Fail> {
    for it in tids() {
        add(alloc, text, it.number(), it.name(), it)?;
    }
    for it in days() {
        add(alloc, text, it.number(), it.name(), it)?;
    }
    for it in tokens() {
        add(alloc, text, it.number(), it.name(), it)?;
    }
    for it in steps() {
        add(alloc, text, it.number(), it.name(), it)?;
    }
    Ok(())
}

#[test]
fn numbers_names_and_sentences(rt: HostRuntime) -> Result<(), Fail> {
    let alloc = rt.alloc();
    let mut text = String::new(alloc);
    add_faults(alloc, &mut text)?;
    for it in refusals() {
        add(alloc, &mut text, it.number(), it.name(), it)?;
    }
    add(alloc, &mut text, 0, "-", &Memory)?;
    for it in causes() {
        add(alloc, &mut text, 0, "-", it)?;
    }
    add(
        alloc,
        &mut text,
        0,
        "-",
        &RowFault::At(2, RowCause::Columns),
    )?;
    add(alloc, &mut text, 0, "-", &RowFault::Memory)?;
    add(alloc, &mut text, 0, "-", &TextFault::Memory)?;
    add(alloc, &mut text, 0, "-", &TextFault::Write)?;
    assert_eq!(rt; text.as_str(), named());
    Ok(())
}
