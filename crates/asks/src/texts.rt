//! Days, numbers and steps, as they stand in messages.

ghost use Rattle.std.specs.Prelude.{◌≡◌, ◌++◌, ◌∷◌, [], OnOk, decimal, if◌then◌else◌};
ghost use Rattle.asks.specs.Value.{DaysAreRead, beginning, day_text};
ghost use Rattle.sts_fields.specs.Calendar.{IsWithinRanges, civil_at};
ghost use Rattle.sts_fields.specs.Day.{two_digits};
ghost use Rattle.tariff.specs.Steps.{IsSteps};
ghost use Rattle.tariff.specs.StepsText.{end_text, step_text, steps_text};

use itoa::Buffer;
use office_rules::Moment;
use std::alloc::AllocError;
use sts_fields::{Day, calendar_law, civil, day_law};
use tariff::{Step, Steps};

// The seconds of a day.
const DAY_LENGTH: i64 = 86_400;

// What the texts of days mean.
pub(crate) fn days_law()
    ensures { DaysAreRead }
{
    calendar_law();
    day_law();
}

/// Adds the date of a day, as `Day::of_text` reads it.
///
/// # Errors
/// `AllocError` if there is no memory; then a part of it may have been added.
pub fn put_day(text: &mut Vec<u8>, day: Day) -> Result<(), AllocError>
    ensures text { OnOk result (text.new.items ≡ text.old.items ++ day_text day) }
    ensures shown { IsWithinRanges (civil_at (beginning day)) }
{
    let shown = civil(beginning(day)).unwrap();
    put_two(text, (shown.year / 100) as u8)?;
    put_two(text, (shown.year % 100) as u8)?;
    text.extend_from_slice(b"-")?;
    put_two(text, shown.month)?;
    text.extend_from_slice(b"-")?;
    put_two(text, shown.day)?;
    Ok(())
}

// The moment at which a day begins.
fn beginning(day: Day) -> Moment
    ensures { result ≡ beginning day }
{
    Moment::of_secs(Moment::FIRST + i64::from(day.days()) * DAY_LENGTH).unwrap()
}

// Adds a number below a hundred in two digits.
fn put_two(text: &mut Vec<u8>, number: u8) -> Result<(), AllocError>
    ensures { OnOk result (text.new.items ≡ text.old.items ++ two_digits number) }
{
    text.extend_from_slice(&[b'0' + number / 10, b'0' + number % 10])
}

/// Adds the text of steps, as `Steps::of_text` reads it.
///
/// # Errors
/// `AllocError` if there is no memory; then a part of it may have been added.
pub fn put_steps(text: &mut Vec<u8>, steps: &Steps) -> Result<(), AllocError>
    ensures text { OnOk result (text.new.items ≡ text.old.items ++ steps_text steps.now) }
    ensures steps { IsSteps steps.now }
{
    let mut later = false;
    for step in steps.as_slice() {
        put_between(text, later, b';')?;
        put_step(text, step)?;
        later = true;
    }
    Ok(())
}

// Adds the text of a step.
fn put_step(text: &mut Vec<u8>, step: &Step) -> Result<(), AllocError>
    ensures { OnOk result (text.new.items ≡ text.old.items ++ step_text step.now) }
{
    put_end(text, step.ends)?;
    text.extend_from_slice(b":")?;
    put_number(text, step.price)
}

// Adds an upper end, or nothing where there is none.
fn put_end(text: &mut Vec<u8>, end: Option<u32>) -> Result<(), AllocError>
    ensures { OnOk result (text.new.items ≡ text.old.items ++ end_text end) }
{
    match end {
        Some(end) => put_number(text, end),
        None => Ok(()),
    }
}

// Adds a byte that separates a part from those before it, where there are any.
fn put_between(text: &mut Vec<u8>, later: bool, separator: u8) -> Result<(), AllocError>
    ensures { OnOk result (text.new.items
        ≡ text.old.items ++ (if later then separator ∷ [] else [])) }
{
    if later {
        text.extend_from_slice(&[separator])
    } else {
        Ok(())
    }
}

// Adds the digits of a number.
pub(crate) fn put_number(text: &mut Vec<u8>, number: u32) -> Result<(), AllocError>
    ensures { OnOk result (text.new.items ≡ text.old.items ++ decimal number) }
{
    let mut digits = Buffer::new();
    text.extend_from_slice(digits.format(number).as_bytes())
}
