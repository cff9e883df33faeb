//! A disk for tests that lapses: some of its calls fail, and it goes on as before.
#![tactic(auto)]

ghost use Rattle.std.specs.Prelude.{◌+◌, ◌≡◌, ◌&&◌, false, not};
ghost use Rattle.sqlite_disk.specs.Disk.{CountsFault};
ghost use Rattle.sqlite_disk.specs.Refusal.{finds_no_room};

use sqlite_disk::{Disk, Tally};
use std::io;

/// Which calls fail: after so many that do not, so many.
#[derive(Clone, Copy)]
pub struct Faults {
    pub before: u64,
    pub failing: u64,
}

/// No call fails.
pub const NO_FAULTS: Faults = Faults {
    before: 0,
    failing: 0,
};

/// Passes its calls on, but for those that fail. After a failed sync it is not used any more.
#[derive(Drop)]
pub struct Lapse<D: Disk> {
    inner: D,
    calls: Faults,
    // Where there are none of its own, a sync is a call as others are.
    syncs: Option<Faults>,
    refused: u64,
    sync_refused: bool,
}

impl<D: Disk> Lapse<D> {
    /// Of its syncs some fail, and of all its other calls some.
    pub fn new(inner: D, calls: Faults, syncs: Faults) -> Lapse<D>
        ensures inner { result.inner ≡ inner }
        ensures usable { result.sync_refused ≡ false }
    {
        Lapse {
            inner,
            calls,
            syncs: Some(syncs),
            refused: 0,
            sync_refused: false,
        }
    }

    /// Of all its calls some fail, syncs counted among them.
    pub fn of_all_calls(inner: D, calls: Faults) -> Lapse<D>
        ensures inner { result.inner ≡ inner }
        ensures usable { result.sync_refused ≡ false }
    {
        Lapse {
            inner,
            calls,
            syncs: None,
            refused: 0,
            sync_refused: false,
        }
    }

    /// The disk under it.
    pub fn into_inner(self) -> D
        ensures { result ≡ self.inner }
    {
        let Lapse { inner, .. } = self;
        inner
    }
}

// Counts a call, which fails where it is one of those.
fn count(faults: &mut Faults, refused: &mut u64) -> io::Result<()>
    ensures faults { CountsFault result refused.old refused.new }
    ensures kind { finds_no_room result ≡ false }
{
    if faults.before > 0 {
        faults.before -= 1;
        return Ok(());
    }
    if faults.failing == 0 {
        return Ok(());
    }
    faults.failing -= 1;
    *refused = refused.saturating_add(1);
    Err(io::Error::other("the disk lapses"))
}

impl<D: Disk> Disk for Lapse<D> {
    ghost seen = { λ l. D.Disk.seen l.inner };

    ghost may_leave = { λ l. D.Disk.may_leave l.inner };

    ghost is_usable = { λ l. D.Disk.is_usable l.inner && not l.sync_refused };

    ghost faults = { λ l. D.Disk.faults l.inner + l.refused };

    ghost tally_of = { λ l. D.Disk.tally_of l.inner };

    ghost is_rotten = { λ l. D.Disk.is_rotten l.inner };

    ghost key_of = { λ l. D.Disk.key_of l.inner };

    ghost is_clean = { λ l. D.Disk.is_clean l.inner };

    ghost is_fair = { λ l. D.Disk.is_fair l.inner };

    ghost fair_if_clean = { λ l. D.Disk.fair_if_clean l.inner };

    ghost seen_may_stay = { λ l. D.Disk.seen_may_stay l.inner };

    ghost is_mixing = { λ l. D.Disk.is_mixing l.inner };

    fn mixes(&self) -> bool {
        self.inner.mixes()
    }

    fn key(&self) -> u64 {
        self.inner.key()
    }

    fn tally(&self) -> Tally {
        self.inner.tally()
    }

    fn may_be_used(&self) -> bool {
        self.inner.may_be_used() && !self.sync_refused
    }

    fn len(&mut self) -> io::Result<usize> {
        count(&mut self.calls, &mut self.refused)?;
        self.inner.len()
    }

    fn read_at(&mut self, at: usize, buf: &mut [u8]) -> io::Result<()> {
        count(&mut self.calls, &mut self.refused)?;
        self.inner.read_at(at, buf)
    }

    fn read_checked(&mut self, key: u64, want: u64, at: usize, buf: &mut [u8]) -> io::Result<()> {
        count(&mut self.calls, &mut self.refused)?;
        self.inner.read_checked(key, want, at, buf)
    }

    fn write_at(&mut self, at: usize, bytes: &[u8]) -> io::Result<()> {
        count(&mut self.calls, &mut self.refused)?;
        self.inner.write_at(at, bytes)
    }

    fn set_len(&mut self, len: usize) -> io::Result<()> {
        count(&mut self.calls, &mut self.refused)?;
        self.inner.set_len(len)
    }

    fn sync(&mut self) -> io::Result<()> {
        let counted = match &mut self.syncs {
            Some(syncs) => count(syncs, &mut self.refused),
            None => count(&mut self.calls, &mut self.refused),
        };
        if let Err(error) = counted {
            self.sync_refused = true;
            return Err(error);
        }
        self.inner.sync()
    }
}
