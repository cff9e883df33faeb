//! The files of this machine.

ghost use Rattle.std.specs.Prelude.{◌≡◌, ⊤, IfSome, None};
ghost use Rattle.sqlite_wal.specs.Files.{image_at};
ghost use Rattle.office_commands.specs.port.Found.{AreFresh, HoldWhatWasFound, IsLogName};
ghost use Rattle.office_commands.specs.port.Found.{IsUnopenable};

use crate::port::ended::Back;
use crate::port::new_log::LogName;
use crate::port::openings::{EachTry, Openings, Pair, PresentOpenings, make_private};
use crate::port::ports::{OfficeFile, SaltSource};
use crate::port::tries::try_for;
use books::OpenFault;
use sqlite::{FileFrom, Start};
use sqlite_disk::Disk;
use std::hash::{BuildHasher, RandomState};

/// The file of an office on this machine. `start` stands for what it holds.
#[derive(Drop)]
pub struct MachineFile<'a, B: Start> {
    pub rt: &'a HostRuntime,
    pub start: B,
}

/// Salts that this machine draws.
#[derive(Drop)]
pub struct MachineSalts<'a> {
    rt: &'a HostRuntime,
}

impl SaltSource for MachineSalts<'_> {
    ghost draws = { λ _ _. ⊤ };

    ghost lacks = { λ _. ⊤ };

    fn draw(&self) -> Option<u64> {
        let state = RandomState::new(self.rt).ok()?;
        Some(state.hash_one(&0u8))
    }
}

/// What the files of this machine hold as they are found, and after a crash: what `B` stands for.
pub fn machine_file_law<B: Start>()
    ensures { (log db : _) → AreFresh log db
        → HoldWhatWasFound ⟦<FileFrom<EachTry<B>> as Disk>⟧ B.Start log db }
{}

impl<'a, B: Start> OfficeFile for MachineFile<'a, B> {
    type Medium = FileFrom<EachTry<B>>;

    type Salts = MachineSalts<'a>;

    ghost image = { λ _ _. image_at B.Start };

    ghost finds = { λ _ _ _ log db. AreFresh log db };

    ghost fails = { λ _ _ _ fault. IsUnopenable fault };

    ghost meets = { λ _ _ _ log db. AreFresh log db };

    ghost misses = { λ _ _ _. ⊤ };

    ghost lets_go = { λ _ _ _. ⊤ };

    ghost names = { λ _ _ name. IsLogName name };

    ghost ends_look = { λ _ _ _ _. ⊤ };

    ghost leaves = { λ _ _. ⊤ };

    fn salts(&self) -> MachineSalts<'a> {
        MachineSalts { rt: self.rt }
    }

    fn new_log(&self, path: &str) -> LogName {
        LogName::absent(self.rt, path)
    }

    fn find(self, path: &str, wait: u32) -> Result<Pair<B>, OpenFault> {
        make_private(self.rt, path);
        let mut openings = Openings::<B>::new(self.rt, path);
        match try_for(&mut openings, wait) {
            Some(outcome) => outcome,
            None => Err(OpenFault::Store),
        }
    }

    fn find_present(self, path: &str, wait: u32) -> Result<Option<Pair<B>>, OpenFault> {
        let openings = Openings::<B>::new(self.rt, path);
        match try_for(&mut PresentOpenings { openings }, wait) {
            Some(outcome) => outcome,
            None => Err(OpenFault::Store),
        }
    }

    fn let_go<D: Drop>(log: D, db: D) -> Back<D>
        ensures none { result ≡ None }
        ensures back { IfSome result (λ it. it ≡ (log, db)) }
    {
        drop(log);
        drop(db);
        None
    }

    // The log goes while the database file is still open, so that no other program has either.
    fn let_go_looked<D: Drop>(log: D, db: D, salts: &MachineSalts<'a>, new_log: &LogName)
        ensures { ⊤ }
    {
        new_log.remove(salts.rt);
        drop(log);
        drop(db);
    }

    fn leave<T: Drop>(it: T)
        ensures { ⊤ }
    {
        drop(it);
    }
}
