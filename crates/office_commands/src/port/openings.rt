//! Tries to open the files of an office on this machine.

ghost use Rattle.std.specs.Prelude.{◌≡◌, false, IfSome, MatchResult};
ghost use Rattle.office_commands.specs.port.Found.{AreFresh, IsUnopenable};
ghost use Rattle.office_commands.specs.port.Names.{is_address};

use crate::port::tries::Tries;
use books::OpenFault;
use sqlite::{FileFrom, Start};
use sqlite_std_file::OpenError;
use std::fs::{self, OpenOptions};
use std::io::ErrorKind;
use std::marker::PhantomData;
use std::os::unix::fs::OpenOptionsExt;
use std::time::{Clock, Duration};

// Its owner may read and write a file, and nobody else.
const PRIVATE: u32 = 0o600;

/// Stands for what the files hold as `B` does, at each try. A try that fails opens none, so that
/// one pair of files is opened for one `B`.
#[derive(Drop)]
pub struct EachTry<B: Start> {
    start: PhantomData<B>,
}

impl<B: Start> Start for EachTry<B> {
    ghost log = { B.Start.log };

    ghost db = { B.Start.db };

    ghost is_mixing = { B.Start.is_mixing };

    fn mixes() -> bool {
        B::mixes()
    }
}

/// The log and the database file.
pub type Pair<B> = (FileFrom<EachTry<B>>, FileFrom<EachTry<B>>);

/// Tries to open the files at a path, or to make them where there is none.
#[derive(Drop)]
pub(crate) struct Openings<'a, B: Start> {
    rt: &'a HostRuntime,
    path: &'a str,
    // So many milliseconds.
    paused: u64,
    is_busy: bool,
    start: PhantomData<B>,
}

impl<'a, B: Start> Openings<'a, B> {
    /// None was tried.
    pub(crate) fn new(rt: &'a HostRuntime, path: &'a str) -> Openings<'a, B>
        ensures paused { result.paused ≡ 0 }
        ensures idle { result.is_busy ≡ false }
    {
        Openings {
            rt,
            path,
            paused: 0,
            is_busy: false,
            start: PhantomData,
        }
    }
}

impl<B: Start> Tries for Openings<'_, B> {
    type Outcome = Result<Pair<B>, OpenFault>;

    ghost paused = { λ openings. openings.paused };

    ghost is_busy = { λ openings. openings.is_busy };

    ghost gives = { λ outcome.
        MatchResult outcome (λ pair. AreFresh pair.0 pair.1) IsUnopenable };

    fn attempt(&mut self) -> Option<Result<Pair<B>, OpenFault>> {
        if is_address(self.path) {
            return Some(Err(OpenFault::Store));
        }
        let start = EachTry::<B> { start: PhantomData };
        match sqlite_std_file::open(self.rt, self.path, start) {
            Ok(files) => Some(Ok((files.log, files.db))),
            Err(OpenError::Busy) => {
                self.is_busy = true;
                None
            }
            Err(error) => Some(Err(refused_files_fault(error))),
        }
    }

    fn pause(&mut self, milliseconds: u64) {
        self.rt.sleep(Duration::from_millis(milliseconds));
        self.paused += milliseconds;
        self.is_busy = false;
    }
}

/// Tries to open the files at a path where there is a file, and makes none where there is not.
#[derive(Drop)]
pub(crate) struct PresentOpenings<'a, B: Start> {
    pub openings: Openings<'a, B>,
}

impl<B: Start> Tries for PresentOpenings<'_, B> {
    type Outcome = Result<Option<Pair<B>>, OpenFault>;

    ghost paused = { λ present. present.openings.paused };

    ghost is_busy = { λ present. present.openings.is_busy };

    ghost gives = { λ outcome. MatchResult outcome
        (λ found. IfSome found (λ pair. AreFresh pair.0 pair.1)) IsUnopenable };

    // Its name is looked at before each try, for it may be taken away while it is waited for. Where
    // it is taken away between the two calls, an empty one is made.
    fn attempt(&mut self) -> Option<Result<Option<Pair<B>>, OpenFault>> {
        match fs::exists(self.openings.rt, self.openings.path) {
            Ok(true) => match self.openings.attempt()? {
                Ok(pair) => Some(Ok(Some(pair))),
                Err(fault) => Some(Err(fault)),
            },
            Ok(false) => Some(Ok(None)),
            Err(error) => Some(Err(refused_files_fault(OpenError::Io(error)))),
        }
    }

    fn pause(&mut self, milliseconds: u64) {
        self.openings.pause(milliseconds);
    }
}

/// Makes an empty file where there is nothing of the name, which its owner alone may read and
/// write: the database has the keys of the meters. Its log gets the same rights. Where it cannot be
/// made, what opens it tells why.
pub(crate) fn make_private(rt: &HostRuntime, path: &str) {
    if is_address(path) || !matches!(fs::exists(rt, path), Ok(false)) {
        return;
    }
    let _ = OpenOptions::new()
        .write(true)
        .create_new(true)
        .mode(PRIVATE)
        .open(rt, path);
}

// Whether SQLite takes a path for a database in memory, or for the address of one: such a path is
// no file's name.
fn is_address(path: &str) -> bool
    ensures { result ≡ is_address path.now }
{
    path == ":memory:" || path.as_bytes().starts_with(b"file:")
}

// Why there are no files, by what opening them met.
fn refused_files_fault(error: OpenError) -> OpenFault
    ensures { IsUnopenable result }
{
    match error {
        OpenError::OutOfMemory => OpenFault::Memory,
        OpenError::Io(error) if error.kind() == ErrorKind::OutOfMemory => OpenFault::Memory,
        _ => OpenFault::Store,
    }
}
