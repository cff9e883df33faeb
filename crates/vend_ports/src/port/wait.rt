//! How long a use of a connection may wait.

ghost use Rattle.std.specs.Prelude.{◌≤◌, MatchOption};
ghost use Rattle.std.specs.Duration.{as_nanos};
ghost use Rattle.vend_ports.specs.port.Waits.{IsLeft, IsNextWait, IsSlice, IsWaitLeft};

use crate::port::queue::Queue;
use std::time::{Clock, Duration, Instant};

/// For so many seconds a peer may send nothing, or take nothing, before its conversation ends.
pub(crate) const PATIENCE: u64 = 30;

// So many seconds a command has at a desk, from its call. The desk may be silent for a minute to
// those that wait beside another client, and for half of one more: a sale that it makes after that
// is still told.
const COMMAND: u64 = 120;

// For so many seconds nothing is told of a wait.
const QUIET: u64 = 2;

/// How much time has passed, where the clock can be read.
pub(crate) fn passed_since<K: Clock>(began: Option<Instant>, clock: &K) -> Option<Duration> {
    let began = began?;
    match Instant::now(clock) {
        Ok(now) => Some(now.duration_since(began)),
        Err(_) => None,
    }
}

/// For how long a use of a connection may wait next, of whose time so much has passed, and which
/// has waited for so long in vain; if it may. Once the time is over it may as long as nobody else
/// waits. So it may, too, where nothing tells how much has passed.
pub(crate) fn next_wait<Q: Queue>(
    queue: &Q,
    most: Duration,
    passed: Option<Duration>,
    vain: Duration,
) -> Option<Duration>
    ensures { IsNextWait (Q.tells queue.now) (as_nanos most) (as_nanos vain) passed result }
{
    let Some(silence) = left_of(Duration::from_secs(PATIENCE), vain) else {
        return None;
    };
    let Some(passed) = passed else {
        return Some(silence);
    };
    match left_of(most, passed) {
        Some(time) => Some(time.min(silence)),
        None if queue.has_next() => None,
        None => Some(silence),
    }
}

/// For how long a command that asks a desk may still wait, of whose time so much has passed, if it
/// may: as long as ever where nothing tells how much has passed.
pub(crate) fn wait_left(passed: Option<Duration>) -> Option<Duration>
    ensures { IsWaitLeft passed result }
{
    let most = Duration::from_secs(COMMAND);
    match passed {
        Some(passed) => left_of(most, passed),
        None => Some(most),
    }
}

/// How much of such a wait is waited at once: not more than until it is told that the command
/// waits, where that is still to be told.
pub(crate) fn slice(left: Duration, tells: bool) -> Duration
    ensures { IsSlice tells (as_nanos left) (as_nanos result) }
{
    if tells {
        return left.min(Duration::from_secs(QUIET));
    }
    left
}

// What is left of a time of which so much has passed, if any is.
fn left_of(most: Duration, passed: Duration) -> Option<Duration>
    ensures { MatchOption result (as_nanos most ≤ as_nanos passed)
        (λ left. IsLeft (as_nanos most) (as_nanos passed) (as_nanos left)) }
{
    match most.checked_sub(passed) {
        Some(left) if left > Duration::from_secs(0) => Some(left),
        _ => None,
    }
}
