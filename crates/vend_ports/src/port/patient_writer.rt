//! A stream that is written to for so long while others wait.

ghost use Rattle.std.specs.Prelude.{◌≡◌, Some};
ghost use Rattle.std.specs.Duration.{as_nanos};
ghost use Rattle.std.specs.Io.{WritesAtMost};
ghost use Rattle.std.specs.Io.KnownBytes.{WriteAppends};
ghost use Rattle.vend_ports.specs.port.Waits.{IsNextWait, WaitInAll, longest_wait, writing_time};

use crate::port::network::WritesWithin;
use crate::port::queue::Queue;
use crate::port::wait::{next_wait, passed_since};
use std::io::{self, ErrorKind, Write};
use std::time::{Clock, Duration, Instant};

// For so many seconds in all a peer may take nothing of what is written to it, while others wait.
const WRITING: u64 = 30;

/// A stream that is written to until its writes have waited for too long and somebody else waits.
#[derive(Drop)]
pub struct PatientWriter<'a, K, Q, W> {
    clock: &'a K,
    queue: Q,
    inner: W,
    // How long its writes have waited.
    waited: Duration,
}

impl<'a, K: Clock, Q: Queue, W: WritesWithin> PatientWriter<'a, K, Q, W> {
    /// Nothing has been written, and no write has waited.
    pub(crate) fn new(clock: &'a K, queue: Q, inner: W) -> PatientWriter<'a, K, Q, W>
        ensures { result.inner ≡ inner }
    {
        PatientWriter {
            clock,
            queue,
            inner,
            waited: Duration::from_secs(0),
        }
    }

    // For how long a write may wait next that has waited for so long in vain, if it may.
    fn next_wait(&self, vain: Duration) -> Option<Duration>
        ensures { IsNextWait (Q.tells self.now.queue) writing_time (as_nanos vain)
            (Some self.now.waited) result }
    {
        let most = Duration::from_secs(WRITING);
        next_wait(&self.queue, most, Some(self.waited), vain)
    }
}

impl<K: Clock, Q: Queue, W: WritesWithin> PatientWriter<'_, K, Q, W> {
    // Writes once, and counts how long that took.
    fn write_timed(&mut self, wait: Duration, buf: &[u8]) -> io::Result<usize>
        ensures bound { WritesAtMost result buf.now }
        ensures bytes { WriteAppends (W.contents self.old.inner) (W.contents self.new.inner)
            result buf.now }
        ensures waits { W.waits self.old.inner (as_nanos wait) self.new.inner }
    {
        let began = Instant::now(self.clock).ok();
        let result = self.inner.write_within(wait, buf);
        if let Some(passed) = passed_since(began, self.clock) {
            self.waited = self.waited.saturating_add(passed);
        }
        result
    }

    // Writes some bytes as soon as the peer takes them. After each wait in which it took none this
    // looks again whether it may wait.
    fn write_in_time(&mut self, buf: &[u8]) -> io::Result<usize>
        ensures bound { WritesAtMost result buf.now }
        ensures bytes { WriteAppends (W.contents self.old.inner) (W.contents self.new.inner)
            result buf.now }
        ensures waits { WaitInAll W.waits longest_wait self.old.inner self.new.inner }
    {
        let mut vain = Duration::from_secs(0);
        for _ in 0..u64::MAX {
            let Some(wait) = self.next_wait(vain) else {
                return Err(ErrorKind::TimedOut.into());
            };
            match self.write_timed(wait, buf) {
                Err(error) if error.kind() == ErrorKind::WouldBlock => {
                    vain = vain.saturating_add(wait);
                }
                result => return result,
            }
        }
        Err(ErrorKind::TimedOut.into())
    }
}

impl<K: Clock, Q: Queue + Drop, W: WritesWithin> Write for PatientWriter<'_, K, Q, W> {
    ghost contents = { λ writer. W.contents writer.inner };

    fn write(&mut self, buf: &[u8]) -> io::Result<usize>
        ensures bound { WritesAtMost result buf.now }
        ensures bytes { WriteAppends (W.contents self.old.inner) (W.contents self.new.inner)
            result buf.now }
        ensures waits { WaitInAll W.waits longest_wait self.old.inner self.new.inner }
    {
        self.write_in_time(buf)
    }

    fn flush(&mut self) -> io::Result<()> {
        Ok(())
    }
}
