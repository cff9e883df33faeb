ghost use Rattle.std.specs.Prelude.{◌≡◌, ℕ, Option, ⊤};
ghost use Rattle.conversation.specs.Clock.{IsAnswerFor};

use crate::clock::Clock;
use std::time::{self, SystemTime};

// What a clock answers that can't be read: no moment of the office.
const UNREAD: i64 = i64::MIN;

/// What tells the time of day.
pub trait TimeSource {
    /// It gave this: the whole seconds since 1970, or nothing where it can't be read, or stands
    /// before 1970.
    ghost gives: { Self → Option ℕ → Type 0 };

    /// The whole seconds since 1970.
    fn seconds(&self) -> Option<u64>
        ensures { gives self.now result };
}

impl<K: time::Clock> TimeSource for K {
    ghost gives = { λ _ _. ⊤ };

    fn seconds(&self) -> Option<u64> {
        let since_1970 = SystemTime::now(self)
            .ok()?
            .duration_since(SystemTime::UNIX_EPOCH)
            .ok()?;
        Some(since_1970.as_secs())
    }
}

/// The machine's clock. Contracts aren't told its answers beforehand, but that each is what its
/// source gave (`reads`). Where that can't be read, it answers what is no moment of the office.
#[derive(Clone, Copy)]
pub struct MachineClock<'a, T> {
    source: &'a T,
}

impl<'a, T: TimeSource> MachineClock<'a, T> {
    /// The clock of this source.
    pub fn new(source: &'a T) -> MachineClock<'a, T>
        ensures { result.source.now ≡ source.now }
    {
        MachineClock { source }
    }
}

impl<T: TimeSource> Clock for MachineClock<'_, T> {
    ghost reads = { λ clock now. (given : Option ℕ) × T.gives clock.source.now given
        × IsAnswerFor given now };

    fn now(&mut self) -> i64 {
        answer_for(self.source.seconds())
    }
}

// What is answered where a source gave this.
fn answer_for(given: Option<u64>) -> i64
    ensures { IsAnswerFor given result }
{
    match given {
        Some(seconds) => i64::try_from(seconds).unwrap_or(UNREAD),
        None => UNREAD,
    }
}
