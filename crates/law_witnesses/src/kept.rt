//! A machine in memory, which has the file of an office and nothing else.
ghost use Rattle.std.specs.Prelude.{◌≡◌, ⊤, IfSome, IsTrue};
ghost use Rattle.sqlite_disk.specs.Memory.{memory_bytes, memory_is_usable};

use books::OpenFault;
use command_line::Address;
use conversation::{End, Script, Untold};
use sqlite::Files;
use sqlite_disk::Memory;
use std::io::{self, ErrorKind, Read, Write};
use std::marker::PhantomData;
use vend_commands::{
    Back, Door, FileFault, Follows, LogName, Loopback, Machine, OfficeFile, Part, Progress,
    SaltSource, TextFiles,
};

/// A machine whose office's file is kept in memory. By its label it is another machine than one of
/// another label, so that runs on the same two files are runs on machines of different types.
pub(crate) struct Kept<L> {
    label: PhantomData<L>,
}

impl<L> Machine for Kept<L> {
    type Office = KeptFile<L>;

    type Texts = Nothing;

    type Clock = Script<'static>;

    type Door = Nothing;

    type Loopback = Nothing;

    type Progress = Nothing;
}

/// The log and the database file.
#[derive(Drop)]
pub(crate) struct KeptFile<L> {
    log: Memory,
    db: Memory,
    label: PhantomData<L>,
    ghost log_may_be_used: { IsTrue (memory_is_usable log) },
    ghost db_may_be_used: { IsTrue (memory_is_usable db) },
}

impl<L> KeptFile<L> {
    pub(crate) fn new(files: Files<Memory>) -> KeptFile<L>
        requires log { IsTrue (memory_is_usable files.log) }
        requires db { IsTrue (memory_is_usable files.db) }
        ensures log { result.log ≡ files.log }
        ensures db { result.db ≡ files.db }
    {
        KeptFile {
            log: files.log,
            db: files.db,
            label: PhantomData,
        }
    }
}

impl<L> OfficeFile for KeptFile<L> {
    type Medium = Memory;

    type Salts = Nothing;

    ghost image = { λ kept _. record { log = memory_bytes kept.log; db = memory_bytes kept.db } };

    ghost finds = { λ kept _ _ log db. (log ≡ kept.log) × (db ≡ kept.db) };

    ghost fails = { λ _ _ _ _. ⊤ };

    ghost meets = { λ kept _ _ log db. (log ≡ kept.log) × (db ≡ kept.db) };

    ghost misses = { λ _ _ _. ⊤ };

    ghost lets_go = { λ _ _ _. ⊤ };

    ghost names = { λ _ _ _. ⊤ };

    ghost ends_look = { λ _ _ _ _. ⊤ };

    ghost leaves = { λ _ _. ⊤ };

    fn salts(&self) -> Nothing {
        Nothing
    }

    fn new_log(&self, _path: &str) -> LogName {
        LogName::none()
    }

    fn find(self, _path: &str, _wait: u32) -> Result<(Memory, Memory), OpenFault> {
        let KeptFile { log, db, .. } = self;
        Ok((log, db))
    }

    fn find_present(self, path: &str, wait: u32) -> Result<Option<(Memory, Memory)>, OpenFault> {
        match self.find(path, wait) {
            Ok(files) => Ok(Some(files)),
            Err(fault) => Err(fault),
        }
    }

    fn let_go<D: Drop>(log: D, db: D) -> Back<D>
        ensures lets_go { ⊤ }
        ensures back { IfSome result (λ it. it ≡ (log, db)) }
    {
        Some((log, db))
    }

    fn let_go_looked<D: Drop>(log: D, db: D, _salts: &Nothing, _new_log: &LogName)
        ensures { ⊤ }
    {
        drop(log);
        drop(db);
    }

    fn leave<T: Drop>(it: T)
        ensures { ⊤ }
    {
        drop(it);
    }
}

/// What a machine lacks: no text is read, nobody calls, no connection is had, nobody is told how
/// far a command is. A salt is always the same.
#[derive(Drop)]
pub(crate) struct Nothing;

impl SaltSource for Nothing {
    ghost draws = { λ _ _. ⊤ };

    ghost lacks = { λ _. ⊤ };

    fn draw(&self) -> Option<u64> {
        Some(7)
    }
}

impl TextFiles for Nothing {
    ghost reads = { λ _ _ _. ⊤ };

    ghost lacks = { λ _ _ _. ⊤ };

    ghost leaves = { λ _ _. ⊤ };

    fn read(self, _path: &str) -> Result<Vec<u8>, FileFault> {
        Err(FileFault::Unreadable)
    }

    fn leave<T: Drop>(it: T)
        ensures { ⊤ }
    {
        drop(it);
    }
}

impl Read for Nothing {
    fn read(&mut self, _buf: &mut [u8]) -> io::Result<usize> {
        Err(io::Error::from(ErrorKind::NotConnected))
    }
}

impl Write for Nothing {
    fn write(&mut self, _buf: &[u8]) -> io::Result<usize> {
        Err(io::Error::from(ErrorKind::NotConnected))
    }

    fn flush(&mut self) -> io::Result<()> {
        Ok(())
    }
}

impl Door for Nothing {
    type Reader = Nothing;

    type Writer = Nothing;

    type Line = Untold;

    ghost listens = { λ _ _ _ _. ⊤ };

    ghost fails = { λ _ _ _. ⊤ };

    ghost accepts = { λ _ _ _ _ _. ⊤ };

    ghost refuses = { λ _ _. ⊤ };

    ghost ends = { λ _ _ _ _ _ _. ⊤ };

    ghost leaves = { λ _ _. ⊤ };

    fn listen(&mut self, _address: Address) -> Option<u16> {
        None
    }

    fn accept(&mut self) -> Option<(Nothing, Nothing, Untold)> {
        None
    }

    fn end(&mut self, reader: Self::Reader, writer: Self::Writer, _line: Untold, _end: End)
        ensures { ⊤ }
    {
        drop(reader);
        drop(writer);
    }

    fn leave<T: Drop>(it: T)
        ensures { ⊤ }
    {
        drop(it);
    }
}

impl Loopback for Nothing {
    type Stream = Nothing;

    ghost joins = { λ _ _. ⊤ };

    ghost connects = { λ _ _ _ _ _. ⊤ };

    ghost lacks = { λ _. ⊤ };

    ghost calls = { λ _ _ _. ⊤ };

    ghost misses = { λ _ _. ⊤ };

    ghost ends = { λ _ _. ⊤ };

    ghost leaves = { λ _ _. ⊤ };

    fn connect(self, _text: &[u8]) -> io::Result<(Nothing, Nothing, Nothing)> {
        Err(io::Error::from(ErrorKind::NotConnected))
    }

    fn call(self, _address: Address) -> io::Result<Nothing> {
        Err(io::Error::from(ErrorKind::NotConnected))
    }

    fn end<S: Drop>(stream: S)
        ensures { ⊤ }
    {
        drop(stream);
    }

    fn leave<T: Drop>(it: T)
        ensures { ⊤ }
    {
        drop(it);
    }
}

impl Follows for Nothing {
    ghost use Rattle.std.specs.Prelude.{⊤};

    ghost told = { λ _ _ _. ⊤ };

    fn passed(&mut self, _part: Part) {}
}

impl Progress for Nothing {
    fn tell(&mut self, _printed: u64, _all: u64) {}

    fn tell_opened(&mut self) {}
}
