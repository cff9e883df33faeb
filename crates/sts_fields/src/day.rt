ghost use Rattle.std.specs.Prelude.{◌≡◌, ◌≢◌, ◌≤◌, ◌<◌, ◌+◌, ◌*◌, ◌↔◌, ◌∷◌, [], ℕ, pos, IsOk};
ghost use Rattle.std.specs.Prelude.{IsSome, IfOk, IfSome, MatchOption};
ghost use Rattle.std.specs.Int.{IsInRange};
ghost use Rattle.jiff_core.specs.Calendar.{IsCivilDate};
ghost use Rattle.jiff_core.specs.Date.{epoch_day};
ghost use Rattle.sts_fields.specs.Calendar.{IsCivil};
ghost use Rattle.sts_fields.specs.Day.{HasDate, IsDay, IsDayText, iso_date, day_at, two_digits};
ghost use Rattle.sts_fields.specs.Moment.{IsMoment, first_moment};
ghost use Rattle.sts_fields.specs.Text.{Text};
ghost use Rattle.sts_fields.specs.declared.calendar.date_time.Civil.{Civil};

use crate::day_fault::DayFault;
use crate::moment::Moment;
use jiff_core::civil::Date;
use std::marker::Model;

// The days from 1970-01-01 to 1993-01-01.
const FIRST: u32 = 8401;

// The seconds of a day.
const LENGTH: u32 = 86_400;

/// A day of UTC from 1993-01-01 to 2099-12-31.
///
/// Contracts see the days since 1993-01-01.
#[derive(Clone, Copy, Debug, PartialEq, Eq, PartialOrd, Ord, Hash)]
pub struct Day {
    days: u32,
}

impl Model for Day {
    ghost use Rattle.std.specs.Prelude.{ℕ};

    ghost Value = { ℕ };

    ghost use Rattle.sts_fields.specs.Day.{IsDay};

    ghost view = { λ d. d.days };

    ghost invariant = { λ d. IsDay d.days };

    ghost inverse = { λ n. record { days = n } };
}

impl Day {
    /// The last day, 2099-12-31, in days since 1993-01-01.
    pub const LAST: u32 = 39_080;

    /// The day so many days after 1993-01-01, or `None` exactly after 2099-12-31.
    pub fn of_days(days: u32) -> Option<Day>
        ensures range { IsSome result ↔ IsDay days }
        ensures value { IfSome result (λ day. day ≡ days) }
    {
        if days <= Self::LAST {
            Some(Day { days })
        } else {
            None
        }
    }

    /// The day that a text is, or `NotADay` exactly where it is none: `YYYY-MM-DD` of a day of the
    /// calendar from 1993-01-01 to 2099-12-31 (`docs/PROFILE.md`, "Times").
    ///
    /// It takes no memory.
    pub fn of_text(text: &[u8]) -> Result<Day, DayFault>
        ensures value { IfOk result (IsDayText text.now) }
        ensures reads { IsOk result ↔ ((day : ℕ) × IsDayText text.now day) }
        ensures not_a_day { (result ≡ Err DayFault.NotADay)
            ↔ ((day : ℕ) → ¬ IsDayText text.now day) }
        ensures never_memory { result ≢ Err DayFault.Memory }
    {
        let Some(date) = read_date(text) else {
            return Err(DayFault::NotADay);
        };
        match day_of_date(date) {
            Some(day) => Ok(day),
            None => Err(DayFault::NotADay),
        }
    }

    /// The days since 1993-01-01.
    pub fn days(&self) -> u32
        ensures value { result ≡ self.now }
        ensures range { IsDay self.now }
    {
        self.days
    }
}

/// The day of a moment, by the calendar of UTC.
///
/// It takes no memory.
pub fn day_of(moment: Moment) -> Day
    ensures date { (c : Civil) → IsCivil moment c → HasDate result c.year c.month c.day }
    ensures value { result ≡ day_at moment }
{
    Day {
        days: moment.seconds() / LENGTH - FIRST,
    }
}

/// What days, their dates and their texts mean, by the calendar of UTC.
pub fn day_law()
    // A day is 86400 moments that follow one another, and days follow one another.
    ensures range { (secs : ℕ) → IsMoment secs → IsDay (day_at secs) }
    ensures whole { (secs : ℕ) → IsMoment secs
        → (first_moment + day_at secs * 86400 ≤ secs)
        × (secs < first_moment + (day_at secs + 1) * 86400) }
    ensures never_back { (s t : ℕ) → IsMoment s → IsMoment t → s ≤ t → day_at s ≤ day_at t }
    ensures each_day { (day : ℕ) → IsDay day → (secs : ℕ) × IsMoment secs × (day_at secs ≡ day) }

    // Days and the dates of 1993 to 2099 correspond one to one, and the date is the one that a
    // clock shows.
    ensures shown { (secs : ℕ) (c : Civil) → IsMoment secs → IsCivil secs c
        → HasDate (day_at secs) c.year c.month c.day }
    ensures each_date { (year month date : ℕ) → IsCivilDate (pos year) month date
        → IsInRange 1993 2099 year → (day : ℕ) × IsDay day × HasDate day year month date }
    ensures years { (day year month date : ℕ) → IsDay day → HasDate day year month date
        → IsInRange 1993 2099 year }
    ensures one_date { (day y m d year month date : ℕ)
        → HasDate day y m d → HasDate day year month date
        → (y ≡ year) × (m ≡ month) × (d ≡ date) }
    ensures one_day { (day other year month date : ℕ)
        → HasDate day year month date → HasDate other year month date → day ≡ other }

    // So do days and their texts.
    ensures each_text { (day : ℕ) → IsDay day → (text : Text) × IsDayText text day }
    ensures one_text { (day : ℕ) (text other : Text)
        → IsDayText text day → IsDayText other day → text ≡ other }
    ensures one_read { (day other : ℕ) (text : Text)
        → IsDayText text day → IsDayText text other → day ≡ other }
{}

// The day of a date, or none where it is not of 1993 to 2099.
fn day_of_date(date: Date) -> Option<Day>
    ensures { MatchOption result ((day : ℕ) → IsDay day → epoch_day date ≢ pos (8401 + day))
        (λ day. epoch_day date ≡ pos (8401 + day)) }
{
    let days = date.to_unix_epoch_day();
    if days < FIRST as i32 {
        return None;
    }
    Day::of_days(days as u32 - FIRST)
}

// The date that a text is, as YYYY-MM-DD.
fn read_date(text: &[u8]) -> Option<Date>
    ensures { MatchOption result
        ((year month date : ℕ) → IsCivilDate (pos year) month date
        → text.now ≢ iso_date year month date)
        (λ d. (year : ℕ) × (d.year ≡ pos year) × (text.now ≡ iso_date year d.month d.day)) }
{
    let &[a, b, c, d, left, e, f, right, g, h] = text else {
        return None;
    };
    if left != b'-' || right != b'-' {
        return None;
    }
    let century = read_two(a, b)?;
    let year = read_two(c, d)?;
    let month = read_two(e, f)?;
    let date = read_two(g, h)?;
    match Date::new(i16::from(century) * 100 + i16::from(year), month, date) {
        Ok(date) => Some(date),
        Err(_) => None,
    }
}

// The number that two digits are.
fn read_two(tens: u8, ones: u8) -> Option<i8>
    ensures { MatchOption result ((n : ℕ) → n < 100 → tens ∷ ones ∷ [] ≢ two_digits n)
        (λ n. (number : ℕ) × (n ≡ pos number) × (number < 100)
        × (tens ∷ ones ∷ [] ≡ two_digits number)) }
{
    if tens.is_ascii_digit() && ones.is_ascii_digit() {
        Some(((tens - b'0') * 10 + (ones - b'0')) as i8)
    } else {
        None
    }
}
