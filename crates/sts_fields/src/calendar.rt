ghost use Rattle.std.specs.Prelude.{◌≡◌, ◌≤◌, ◌<◌, ◌-◌, ◌*◌, ◌+◌, ℕ, pos, ◌≤ℤ◌, ◌*ℤ◌, IfOk};
ghost use Rattle.std.specs.Prelude.{IsOkAnd};
ghost use Rattle.std.specs.Int.{IsInRange};
ghost use Rattle.jiff_core.specs.Calendar.{IsCivilDate};
ghost use Rattle.jiff_core.specs.DateTime.{civil_nanos};
ghost use Rattle.sts_fields.specs.Base.{base_date, year_of};
ghost use Rattle.sts_fields.specs.Calendar.{IsCivil, IsWithinRanges, civil_at, month_at};
ghost use Rattle.sts_fields.specs.Calendar.{month_number, new_year};
ghost use Rattle.sts_fields.specs.Moment.{IsMoment, first_moment, last_moment};
ghost use Rattle.sts_fields.specs.declared.base.Base.{Base};
ghost use Rattle.sts_fields.specs.declared.calendar.date_time.Civil.{Civil};

use crate::moment::Moment;
pub use date_time::Civil;
use jiff::Timestamp;
use jiff::tz::Offset;
use jiff_core::civil::DateTime;
use thiserror::Error;

/// Want of memory.
#[derive(Clone, Copy, Debug, PartialEq, Eq, Hash, Error)]
#[error("out of memory")]
pub struct Memory;

/// The months since January 1993, by the calendar of UTC: 0 for January 1993, 1283 for December
/// 2099 (`docs/PROFILE.md`, "Times").
///
/// It takes no memory and succeeds.
pub fn month_of(moment: Moment) -> Result<u32, Memory>
    ensures date { (c : Civil) → IsCivil moment c → result ≡ Ok (month_number c) }
    ensures value { result ≡ Ok (month_at moment) }
{
    let civil = civil(moment)?;
    Ok((u32::from(civil.year) - 1993) * 12 + (u32::from(civil.month) - 1))
}

/// The date and the time of day that a clock in UTC shows (`docs/PROFILE.md`, "Times").
///
/// It takes no memory and succeeds.
pub fn civil(moment: Moment) -> Result<Civil, Memory>
    ensures shown { IfOk result (IsCivil moment) }
    ensures ranges { IfOk result IsWithinRanges }
    ensures value { result ≡ Ok (civil_at moment) }
{
    let shown = date_time_at(moment.secs())?;
    Ok(Civil {
        year: shown.date.year as u16,
        month: shown.date.month,
        day: shown.date.day,
        hour: shown.time.hour,
        minute: shown.time.minute,
        second: shown.time.second,
    })
}

// The date and time of these Unix seconds, as `jiff` has them.
fn date_time_at(seconds: i64) -> Result<DateTime, Memory>
    requires from { pos first_moment ≤ℤ seconds }
    requires to { seconds ≤ℤ pos last_moment }
    ensures { IsOkAnd result (λ shown. civil_nanos shown ≡ seconds *ℤ pos 1000000000) }
{
    match Timestamp::from_second(seconds) {
        Ok(timestamp) => Ok(Offset::UTC.to_datetime(timestamp).to_plain()),
        Err(_) => Err(Memory),
    }
}

/// What months, dates and times of day mean, by the calendar of UTC.
pub fn calendar_law()
    ensures month { (secs : ℕ) (c : Civil) → IsCivil secs c → IsInRange 1993 2099 c.year
        → month_at secs ≡ month_number c }
    ensures never_back { (s t : ℕ) → s ≤ t → month_at s ≤ month_at t }

    // Moments and the dates and times of 1993 to 2099 correspond one to one.
    ensures each_moment { (secs : ℕ) → IsMoment secs → IsCivil secs (civil_at secs) }
    ensures one_civil { (secs : ℕ) (c : Civil)
        → IsMoment secs → IsCivil secs c → c ≡ civil_at secs }
    ensures each_civil { (c : Civil) → IsCivilDate (pos c.year) c.month c.day → IsWithinRanges c
        → (secs : ℕ) × IsMoment secs × IsCivil secs c }
    ensures one_moment { (s t : ℕ) (c : Civil) → IsCivil s c → IsCivil t c → s ≡ t }
    ensures ranges { (secs : ℕ) (c : Civil) → IsMoment secs → IsCivil secs c → IsWithinRanges c }

    // A base date is midnight on the first of January of its year.
    ensures bases { (base : Base) → IsCivil (base_date base) (new_year (year_of base)) }
{}

// The type stands in a module of its own, since its name and that of the function `civil` differ
// only in case.
mod date_time {
    /// A date and a time of day, as a clock in UTC shows them.
    #[derive(Clone, Copy, Debug, PartialEq, Eq)]
    pub struct Civil {
        /// From 1993 to 2099.
        pub year: u16,
        /// From 1 to 12.
        pub month: u8,
        /// From 1 to 31.
        pub day: u8,
        /// From 0 to 23.
        pub hour: u8,
        /// From 0 to 59.
        pub minute: u8,
        /// From 0 to 59.
        pub second: u8,
    }
}
