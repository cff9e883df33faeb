ghost use Rattle.std.specs.Prelude.{◌≡◌, ◌≤ℤ◌, ◌↔◌, ℕ, pos, IsSome, IfSome};
ghost use Rattle.sts_fields.specs.Moment.{IsMoment, first_moment, last_moment};

use std::marker::Model;

/// A moment: a second from 1993-01-01T00:00:00Z to 2099-12-31T23:59:59Z.
///
/// Contracts see its Unix seconds.
#[derive(Clone, Copy, Debug, PartialEq, Eq, PartialOrd, Ord, Hash)]
pub struct Moment {
    seconds: u32,
}

impl Model for Moment {
    ghost use Rattle.std.specs.Prelude.{ℕ};
    ghost use Rattle.sts_fields.specs.Moment.{IsMoment};

    ghost Value = { ℕ };

    ghost view = { λ m. m.seconds };

    ghost invariant = { λ m. IsMoment m.seconds };

    ghost inverse = { λ s. record { seconds = s } };
}

impl Moment {
    /// The first moment, in Unix seconds: 1993-01-01T00:00:00Z.
    pub const FIRST: i64 = 725_846_400;

    /// The last moment, in Unix seconds: 2099-12-31T23:59:59Z.
    pub const LAST: i64 = 4_102_444_799;

    /// The moment of so many Unix seconds, or `None` exactly outside 1993 to 2099.
    pub fn of_secs(seconds: i64) -> Option<Moment>
        ensures range { IsSome result
            ↔ ((pos first_moment ≤ℤ seconds) × (seconds ≤ℤ pos last_moment)) }
        ensures value { IfSome result (λ moment. pos moment ≡ seconds) }
    {
        if (Self::FIRST..=Self::LAST).contains(&seconds) {
            Some(Moment {
                seconds: seconds as u32,
            })
        } else {
            None
        }
    }

    /// The Unix seconds.
    pub fn secs(self) -> i64
        ensures value { result ≡ pos self }
        ensures range { IsMoment self }
    {
        i64::from(self.seconds)
    }

    // The Unix seconds, which 32 bits hold up to 2099.
    pub(crate) fn seconds(self) -> u32
        ensures { result ≡ self }
    {
        self.seconds
    }
}
