ghost use Rattle.std.specs.Prelude.{◌≡◌, ℕ, Some};
ghost use Rattle.sts_fields.specs.Moment.{IsMoment};
ghost use Rattle.desk_messages.specs.reply.HttpDate.{IsDateAt, http_date, moment_given};

use httpdate::HttpDate;
use sts_fields::{Moment, calendar_law};

/// The moment of this second, which the clock gave, if it is one: that of the date of a reply.
pub fn moment_given(second: i64) -> Option<Moment>
    ensures { result ≡ moment_given (Some second) }
{
    Moment::of_secs(second)
}

/// The date and the time of a moment, as HTTP writes them (RFC 9110, 5.6.7).
pub fn http_date(moment: Moment) -> [u8; 29]
    ensures { result ≡ http_date moment }
{
    calendar_law();
    HttpDate::from_unix_secs(moment.secs().unsigned_abs())
        .unwrap()
        .to_bytes()
}

/// The date of a moment is that of HTTP with the same seconds.
pub fn date_law()
    ensures { (moment : ℕ) → IsMoment moment → IsDateAt moment (http_date moment) }
{
    calendar_law();
}
