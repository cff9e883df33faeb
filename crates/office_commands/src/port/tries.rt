//! What another program may have for a while, and how it is waited for.

ghost use Rattle.std.specs.Prelude.{◌≡◌, ◌≤◌, ◌<◌, ◌+◌, ◌*◌, ◌^◌, ℕ, Bool, false, true};
ghost use Rattle.std.specs.Prelude.{IfNone, IfSome};

// So many milliseconds lie between two tries.
const PAUSE: u64 = 10;

const PAUSES_OF_A_SECOND: u64 = 1000 / PAUSE;

/// What is tried until no other program has it.
pub(crate) trait Tries {
    /// What comes of a try that met no other program.
    type Outcome;

    /// So many milliseconds were paused in all.
    ghost paused: { Self → ℕ };

    /// The last try met another program, and no pause was made since.
    ghost is_busy: { Self → Bool };

    /// This may come of a try.
    ghost gives: { Self.Outcome → Type 0 };

    /// Tries it. `None` where another program has it.
    fn attempt(&mut self) -> Option<Self::Outcome>
        ensures gives { IfSome result gives }
        ensures busy { IfNone result (is_busy self.new ≡ true) }
        ensures paused { paused self.new ≡ paused self.old };

    /// Pauses for so many milliseconds, behind a try that met another program.
    fn pause(&mut self, milliseconds: u64)
        requires busy { is_busy self.old ≡ true }
        requires fits { paused self.old + milliseconds < 2 ^ 64 }
        ensures idle { is_busy self.new ≡ false }
        ensures paused { paused self.new ≡ paused self.old + milliseconds };
}

/// Tries it until no other program has it, for so many seconds at the most: it pauses after each
/// try but the last. `None` where another program had it all the while.
pub(crate) fn try_for<T: Tries>(tries: &mut T, seconds: u32) -> Option<T::Outcome>
    requires new { T.paused tries.old ≡ 0 }
    requires idle { T.is_busy tries.old ≡ false }
    ensures gives { IfSome result T.gives }
    ensures most { T.paused tries.new ≤ seconds * 1000 }
    ensures all { IfNone result (T.paused tries.new ≡ seconds * 1000) }
{
    for _pause in 0..u64::from(seconds) * PAUSES_OF_A_SECOND {
        if let Some(outcome) = tries.attempt() {
            return Some(outcome);
        }
        tries.pause(PAUSE);
    }
    tries.attempt()
}
