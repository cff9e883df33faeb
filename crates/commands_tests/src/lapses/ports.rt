//! A machine in memory: an office's file that lapses, and connections that are texts.
ghost use Rattle.std.specs.Prelude.{◌≡◌, ⊤, [], IfSome};

use books::OpenFault;
use command_line::Address;
use desk::{End, Script, Untold};
use disk_testing::{Faults, Lapse, NO_FAULTS};
use sqlite_disk::Memory;
use std::alloc::Global;
use std::fs::OpenOptions;
use std::io::{self, Read, Write};
use std::marker::PhantomData;
use vend_commands::{
    Back, Door, FileFault, Follows, LogName, Machine, MachineLoopback, OfficeFile, Part, Progress,
    SaltSource, TextFiles,
};

/// A machine with an office's file of this type, and whose clock is a script. Nothing of it is the
/// computer's but the connection that a command makes.
pub(crate) struct ScriptedMachine<'a, O: OfficeFile> {
    office: PhantomData<O>,
    rt: PhantomData<&'a HostRuntime>,
}

impl<'a, O: OfficeFile> Machine for ScriptedMachine<'a, O> {
    type Office = O;

    type Texts = NoTexts;

    type Clock = Script<'a>;

    type Door = Texts<'a>;

    type Loopback = MachineLoopback<'a, HostRuntime, HostRuntime>;

    type Progress = Unseen;
}

/// What fails of an office's file: some calls of its log, or of its database file.
#[derive(Clone, Copy)]
pub(crate) struct Trouble {
    pub(crate) is_log: bool,
    pub(crate) calls: Faults,
    pub(crate) syncs: Faults,
}

/// The file of a new office.
#[derive(Drop)]
pub(crate) struct LapsingOffice {
    pub(crate) alloc: Global,
    pub(crate) trouble: Trouble,
}

/// The same salt each time.
#[derive(Drop)]
pub(crate) struct OneSalt;

impl SaltSource for OneSalt {
    ghost draws = { λ _ _. ⊤ };

    ghost lacks = { λ _. ⊤ };

    fn draw(&self) -> Option<u64> {
        Some(7)
    }
}

impl OfficeFile for LapsingOffice {
    type Medium = Lapse<Memory>;

    type Salts = OneSalt;

    ghost image = { λ _ _. record { log = []; db = [] } };

    ghost finds = { λ _ _ _ _ _. ⊤ };

    ghost fails = { λ _ _ _ _. ⊤ };

    ghost meets = { λ _ _ _ _ _. ⊤ };

    ghost misses = { λ _ _ _. ⊤ };

    ghost lets_go = { λ _ _ _. ⊤ };

    ghost names = { λ _ _ _. ⊤ };

    ghost ends_look = { λ _ _ _ _. ⊤ };

    ghost leaves = { λ _ _. ⊤ };

    fn salts(&self) -> OneSalt {
        OneSalt
    }

    fn new_log(&self, _path: &str) -> LogName {
        LogName::none()
    }

    fn find(self, _path: &str, _wait: u32) -> Result<(Lapse<Memory>, Lapse<Memory>), OpenFault> {
        let Trouble {
            is_log,
            calls,
            syncs,
        } = self.trouble;
        let sound = Lapse::new(Memory::new(self.alloc), NO_FAULTS, NO_FAULTS);
        let lapsing = Lapse::new(Memory::new(self.alloc), calls, syncs);
        if is_log {
            return Ok((lapsing, sound));
        }
        Ok((sound, lapsing))
    }

    fn find_present(
        self,
        path: &str,
        wait: u32,
    ) -> Result<Option<(Lapse<Memory>, Lapse<Memory>)>, OpenFault> {
        match self.find(path, wait) {
            Ok(files) => Ok(Some(files)),
            Err(fault) => Err(fault),
        }
    }

    fn let_go<D: Drop>(log: D, db: D) -> Back<D>
        ensures { IfSome result (λ it. it ≡ (log, db)) }
    {
        Some((log, db))
    }

    fn let_go_looked<D: Drop>(log: D, db: D, _salts: &OneSalt, _new_log: &LogName)
        ensures { ⊤ }
    {
        drop(log);
        drop(db);
    }

    fn leave<T: Drop>(it: T)
        ensures { ⊤ }
    {
        drop(it);
    }
}

/// No file is read.
#[derive(Drop)]
pub(crate) struct NoTexts;

impl TextFiles for NoTexts {
    ghost reads = { λ _ _ _. ⊤ };

    ghost lacks = { λ _ _ _. ⊤ };

    ghost leaves = { λ _ _. ⊤ };

    fn read(self, _path: &str) -> Result<Vec<u8>, FileFault> {
        Err(FileFault::Unreadable)
    }

    fn leave<T: Drop>(it: T)
        ensures { ⊤ }
    {
        drop(it);
    }
}

/// Connections that send these texts, one each. What they are sent is added to the file `replies`.
#[derive(Drop)]
pub(crate) struct Texts<'a> {
    pub(crate) rt: &'a HostRuntime,
    pub(crate) texts: &'a [&'a str],
    pub(crate) next: usize,
}

/// What a connection has still to send.
#[derive(Drop)]
pub(crate) struct Sent<'a> {
    left: &'a [u8],
}

impl Read for Sent<'_> {
    fn read(&mut self, buf: &mut [u8]) -> io::Result<usize> {
        let count = buf.len().min(self.left.len());
        let (now, later) = self.left.split_at(count);
        buf[..count].copy_from_slice(now);
        self.left = later;
        Ok(count)
    }
}

/// Adds to the file `replies`.
#[derive(Drop)]
pub(crate) struct Replies<'a> {
    rt: &'a HostRuntime,
}

impl Write for Replies<'_> {
    fn write(&mut self, buf: &[u8]) -> io::Result<usize> {
        let mut file = OpenOptions::new()
            .append(true)
            .create(true)
            .open(self.rt, "replies")?;
        file.write_all(buf)?;
        Ok(buf.len())
    }

    fn flush(&mut self) -> io::Result<()> {
        Ok(())
    }
}

impl<'a> Door for Texts<'a> {
    type Reader = Sent<'a>;

    type Writer = Replies<'a>;

    type Line = Untold;

    ghost listens = { λ _ _ _ _. ⊤ };

    ghost fails = { λ _ _ _. ⊤ };

    ghost accepts = { λ _ _ _ _ _. ⊤ };

    ghost refuses = { λ _ _. ⊤ };

    ghost ends = { λ _ _ _ _ _ _. ⊤ };

    ghost leaves = { λ _ _. ⊤ };

    fn listen(&mut self, address: Address) -> Option<u16> {
        if address.port == 0 {
            return None;
        }
        Some(address.port)
    }

    fn accept(&mut self) -> Option<(Sent<'a>, Replies<'a>, Untold)> {
        let text = self.texts.get(self.next)?;
        self.next += 1;
        let reader = Sent {
            left: text.as_bytes(),
        };
        Some((reader, Replies { rt: self.rt }, Untold))
    }

    fn end(&mut self, reader: Self::Reader, writer: Self::Writer, _line: Untold, _end: End)
        ensures { ⊤ }
    {
        drop(reader);
        drop(writer);
    }

    fn leave<T: Drop>(it: T)
        ensures { ⊤ }
    {
        drop(it);
    }
}

/// Nobody is told how far a command is.
#[derive(Drop)]
pub(crate) struct Unseen;

impl Follows for Unseen {
    ghost use Rattle.std.specs.Prelude.{⊤};

    ghost told = { λ _ _ _. ⊤ };

    fn passed(&mut self, _part: Part) {}
}

impl Progress for Unseen {
    fn tell(&mut self, _printed: u64, _all: u64) {}

    fn tell_opened(&mut self) {}
}
