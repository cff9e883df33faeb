//! A stream that is read for so long while others wait, and where little comes at a time with
//! patience.

ghost use Rattle.std.specs.Prelude.{◌≡◌, Option};
ghost use Rattle.std.specs.Duration.{as_nanos};
ghost use Rattle.std.specs.Io.{ReadsAtMost};
ghost use Rattle.std.specs.Io.KnownBytes.{ReadConsumes};
ghost use Rattle.std.specs.declared.time.Duration.{Duration as Time};
ghost use Rattle.vend_ports.specs.port.Waits.{IsNextWait, WaitInAll, longest_wait, reading_time};

use crate::port::network::ReadsWithin;
use crate::port::queue::Queue;
use crate::port::wait::{next_wait, passed_since};
use std::io::{self, ErrorKind, Read};
use std::time::{Clock, Duration, Instant};

// A read that brings fewer bytes than this brings little. No message is as short.
const LITTLE: usize = 8;
// Once so many reads more have brought little than have brought more, each read waits first.
const MANY: u16 = 256;
// So many milliseconds.
const PAUSE: u64 = 1;

// For so many seconds a connection is read while others wait. Else one that always sends something
// would hold them up for ever.
const READING: u64 = 60;

/// A stream that is read until its time is over and somebody else waits. Its reads wait a
/// millisecond each once many have brought little: else what comes in single bytes would cost a
/// read of the system for each of them.
#[derive(Drop)]
pub struct PatientReader<'a, K, Q, R> {
    clock: &'a K,
    queue: Q,
    inner: R,
    little: u16,
    // None where the clock could not be read.
    began: Option<Instant>,
}

impl<'a, K: Clock, Q: Queue, R: ReadsWithin> PatientReader<'a, K, Q, R> {
    /// Nothing has been read. Its time begins now.
    pub(crate) fn new(clock: &'a K, queue: Q, inner: R) -> PatientReader<'a, K, Q, R>
        ensures { result.inner ≡ inner }
    {
        PatientReader {
            clock,
            queue,
            inner,
            little: 0,
            began: Instant::now(clock).ok(),
        }
    }

    // For how long a read may wait next that has waited for so long in vain, if it may.
    fn next_wait(&self, vain: Duration) -> Option<Duration>
        ensures { (passed : Option Time)
            × IsNextWait (Q.tells self.now.queue) reading_time (as_nanos vain) passed result }
    {
        let most = Duration::from_secs(READING);
        next_wait(
            &self.queue,
            most,
            passed_since(self.began, self.clock),
            vain,
        )
    }
}

impl<K: Clock, Q: Queue, R: ReadsWithin> PatientReader<'_, K, Q, R> {
    // Reads some bytes as soon as they come. After each wait in which none came it looks again
    // whether it may wait: so a client that is alone is not left for those who might have waited.
    fn read_in_time(&mut self, buf: &mut [u8]) -> io::Result<usize>
        ensures bound { ReadsAtMost result buf.new }
        ensures bytes { ReadConsumes (R.remaining self.old.inner) (R.remaining self.new.inner)
            result buf.new }
        ensures waits { WaitInAll R.waits longest_wait self.old.inner self.new.inner }
    {
        let mut vain = Duration::from_secs(0);
        for _ in 0..u64::MAX {
            let Some(wait) = self.next_wait(vain) else {
                return Err(ErrorKind::TimedOut.into());
            };
            match self.inner.read_within(wait, buf) {
                Err(error) if error.kind() == ErrorKind::WouldBlock => {
                    vain = vain.saturating_add(wait);
                }
                result => return result,
            }
        }
        Err(ErrorKind::TimedOut.into())
    }
}

impl<K: Clock, Q: Queue + Drop, R: ReadsWithin> Read for PatientReader<'_, K, Q, R> {
    ghost remaining = { λ reader. R.remaining reader.inner };

    fn read(&mut self, buf: &mut [u8]) -> io::Result<usize>
        ensures bound { ReadsAtMost result buf.new }
        ensures bytes { ReadConsumes (R.remaining self.old.inner) (R.remaining self.new.inner)
            result buf.new }
        ensures waits { WaitInAll R.waits longest_wait self.old.inner self.new.inner }
    {
        if self.little >= MANY {
            self.clock.sleep(Duration::from_millis(PAUSE));
        }
        let result = self.read_in_time(buf);
        self.little = match &result {
            Ok(count) if *count < LITTLE => self.little.saturating_add(1).min(MANY),
            _ => self.little.saturating_sub(1),
        };
        result
    }
}
