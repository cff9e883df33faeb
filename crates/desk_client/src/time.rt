//! The times that papers show.

ghost use Rattle.std.specs.Prelude.{◌≡◌, ◌<◌, ◌≤◌, ◌∷◌, []};
ghost use Rattle.papers.specs.Report.{closed_text};
ghost use Rattle.papers.specs.Text.{time_text};
ghost use Rattle.sts_fields.specs.Day.{two_digits};
ghost use Rattle.sts_fields.specs.Moment.{IsMoment};
ghost use Rattle.desk_client.specs.Page.{IsToldEnd};
ghost use Rattle.records.specs.Front.{IsFound};
ghost use Rattle.desk_client.specs.Time.{clock_after};

use sts_fields::{Day, Moment, calendar_law, day_law};

// The first second of 1993, in Unix seconds.
const FIRST: u32 = Moment::FIRST as u32;

// The seconds of a day.
const DAY: u32 = 86_400;

// The moment that a value shows.
pub(crate) fn time_of(value: &[u8]) -> Option<Moment>
    ensures { IsFound (λ moment. IsMoment moment × (value.now ≡ time_text moment)) result }
{
    calendar_law();
    day_law();
    if value.len() != 20 {
        return None;
    }
    let (date, clock) = value.split_at(10);
    let Ok(day) = Day::of_text(date) else {
        return None;
    };
    let Some(seconds) = clock_of(clock) else {
        return None;
    };
    Moment::of_secs(i64::from(FIRST + day.days() * DAY + seconds))
}

// The end of a shift that a value shows, or that there is none.
pub(crate) fn closing_of(value: &[u8]) -> Option<Option<Moment>>
    ensures { IsFound (λ end. IsToldEnd end × (value.now ≡ closed_text end)) result }
{
    if value == b"-".as_slice() {
        return Some(None);
    }
    match time_of(value) {
        Some(moment) => Some(Some(moment)),
        None => None,
    }
}

// The seconds since midnight that a text shows behind a date.
fn clock_of(text: &[u8]) -> Option<u32>
    ensures { IsFound (λ seconds. (seconds < 86400) × (text.now ≡ clock_after seconds)) result }
{
    let &[b'T', a, b, b':', c, d, b':', e, f, b'Z'] = text else {
        return None;
    };
    let hour = two_of(a, b, 24)?;
    let minute = two_of(c, d, 60)?;
    let second = two_of(e, f, 60)?;
    Some(hour * 3600 + minute * 60 + second)
}

// The number that two digits are, where it is below another.
fn two_of(tens: u8, ones: u8, below: u32) -> Option<u32>
    requires { below ≤ 100 }
    ensures { IsFound (λ n. (n < below) × (tens ∷ ones ∷ [] ≡ two_digits n)) result }
{
    if !tens.is_ascii_digit() || !ones.is_ascii_digit() {
        return None;
    }
    let number = u32::from(tens - b'0') * 10 + u32::from(ones - b'0');
    if number < below { Some(number) } else { None }
}
