//! A look at the computer, to say more closely why the program refused, and whether its clock is
//! right.
ghost use Rattle.std.specs.Prelude.{◌≡◌, ℕ, ⊤, Bool, false, List, [], IfSome};
ghost use Rattle.sts_fields.specs.Text.{Text};

use crate::advice::Advice;
use crate::last_sale::last_moment_here;
use crate::schema::schema_fault;
use conversation::MachineClock;
use os::RangeLock;
use sqlite::Start;
use std::fs::{self, File, Metadata, OpenOptions};
use std::io::{ErrorKind, Read, Write};
use std::net::TcpListener;
use std::num::ParseIntError;
use std::os::fd::AsRawFd;
use std::os::unix::fs::MetadataExt;
use std::time::Instant;
use sts_fields::Moment;
use vend_ports::moment_or_now;

// What a database of SQLite begins with, and where its header says whether it has `auto_vacuum`.
const DATABASE: &[u8] = b"SQLite format 3\0";

const HEADER: usize = 100;

// Where the texts of its tables are looked for: at its beginning, where they are as a rule.
const BEGINNING: usize = 65_536;

// Where Linux lists the listeners of this computer, and the locks of its files. A listener's other
// end is nobody.
const LISTENERS: &str = "/proc/net/tcp";

const NOBODY: &str = "00000000:0000";

const LISTENERS_6: &str = "/proc/net/tcp6";

const NOBODY_6: &str = "00000000000000000000000000000000:0000";

const LOCKS: &str = "/proc/locks";

// The longest file that a desk takes.
const LONGEST_TEXT: u64 = 1_048_576;

// A command has 120 seconds at a desk, and ten of them for the connection. So one that took the
// first of these ended for silence, and one that took less than the second did not.
const SILENT_SECONDS: u64 = 119;

const HEARD_SECONDS: u64 = 9;

// What a command may need beside the file, in pieces.
const ROOM_PIECES: u8 = 64;

const PIECE: [u8; 4096] = [0; 4096];

/// What is looked at, behind a refusal and before a sale. No contract says what it sees. It leaves
/// all as it is.
pub trait Look {
    /// A look found that this is the moment of the last sale in the office's file of this name.
    ghost is_last: { Self → (path : Text) → ℕ → Type 0 } = { λ _ _ _. ⊤ };

    /// A look found that it is this moment now.
    ghost is_now: { Self → ℕ → Type 0 } = { λ _ _. ⊤ };

    /// The moment of the last sale in the office's file of this name, if no other program has it.
    fn last_sale(&self, path: &str) -> Option<Moment>
        ensures { IfSome result (is_last self.now path.now) };

    /// What the clock says.
    fn now(&self) -> Option<Moment>
        ensures { IfSome result (is_now self.now) };

    /// What is in the way of the office's file of this name.
    fn office(&self, path: &str) -> Option<Advice>;

    /// Whether the disk of this file is full.
    fn room(&self, path: &str) -> Option<Advice>;

    /// Why a file is not read; one that a desk is sent has a greatest length.
    fn text(&self, path: &str, is_sent: bool) -> Option<Advice>;

    /// Why nobody is heard at an address, and nothing may be sent there to find out.
    fn desk(&self, address: &str) -> Option<Advice>;

    /// Why no desk can listen at an address.
    fn door(&self, address: &str) -> Option<Advice>;
}

// What an office's file holds as it is looked at. The command opens it again after that, when it
// may hold other bytes: so the two openings have no type in common.
#[derive(Drop)]
struct Looked;

impl Start for Looked {
    ghost log = { [] };

    ghost db = { [] };

    ghost is_mixing = { false };

    fn mixes() -> bool {
        false
    }
}

/// The computer that the program runs on, and when it began.
#[derive(Drop)]
pub struct Here<'a> {
    rt: &'a HostRuntime,
    begun: Option<Instant>,
}

impl<'a> Here<'a> {
    /// This computer, where the program begins now.
    pub fn new(rt: &'a HostRuntime) -> Here<'a> {
        Here {
            rt,
            begun: Instant::now(rt).ok(),
        }
    }

    // Why no whole answer came from somebody who listens, by the time that the program took.
    fn unheard(&self) -> Option<Advice> {
        let waited = self.begun?.elapsed(self.rt).ok()?;
        match waited.as_secs() {
            SILENT_SECONDS.. => Some(Advice::NetSilent),
            HEARD_SECONDS.. => None,
            _ => Some(Advice::NetRubbish),
        }
    }
}

impl Look for Here<'_> {
    fn last_sale(&self, path: &str) -> Option<Moment> {
        last_moment_here(self.rt, Looked, path)
    }

    fn now(&self) -> Option<Moment> {
        moment_or_now(None, &mut MachineClock::new(self.rt))
    }

    fn office(&self, path: &str) -> Option<Advice> {
        let rt = self.rt;
        if path == ":memory:" || path.starts_with("file:") {
            return Some(Advice::ShutSpecial);
        }
        let found = match fs::metadata(rt, path) {
            Ok(found) => found,
            Err(error) => return office_fault(error.kind()),
        };
        if found.is_dir() {
            return Some(Advice::ShutFolder);
        }
        if found.nlink() > 1 {
            return Some(Advice::ShutLinked);
        }
        let Ok(journal) = format!(in rt.alloc(); "{path}-journal") else {
            return None;
        };
        if let Ok(true) = fs::exists(rt, journal.as_str()) {
            return Some(Advice::ShutJournal);
        }
        let mut options = OpenOptions::new();
        let opened = options.read(true).write(true).open(rt, path);
        let fault = match opened {
            Ok(file) => database_fault(rt, file, &found),
            Err(error) => office_fault(error.kind()),
        };
        match fault {
            None if is_full(rt, path) => Some(Advice::ShutFull),
            fault => fault,
        }
    }

    fn room(&self, path: &str) -> Option<Advice> {
        if is_full(self.rt, path) {
            Some(Advice::StoreFull)
        } else {
            None
        }
    }

    fn text(&self, path: &str, is_sent: bool) -> Option<Advice> {
        let found = match fs::metadata(self.rt, path) {
            Ok(found) => found,
            Err(error) => return text_fault(error.kind()),
        };
        if found.is_dir() {
            return Some(Advice::FileFolder);
        }
        match File::open(self.rt, path) {
            Ok(_) if is_sent && found.len() > LONGEST_TEXT => Some(Advice::FileTooLong),
            Ok(_) => None,
            Err(error) => text_fault(error.kind()),
        }
    }

    fn desk(&self, address: &str) -> Option<Advice> {
        let (host, port) = address.split_once(':')?;
        if !host.starts_with("127.") {
            return None;
        }
        let read: Result<u16, ParseIntError> = port.parse();
        let port = read.ok()?;
        let listens = is_listened(self.rt, LISTENERS, port, NOBODY)?;
        if !listens && is_listened(self.rt, LISTENERS_6, port, NOBODY_6) != Some(true) {
            return Some(Advice::NetNobody);
        }
        self.unheard()
    }

    fn door(&self, address: &str) -> Option<Advice> {
        match TcpListener::bind(self.rt, address) {
            Ok(_) => None,
            Err(error) => match error.kind() {
                ErrorKind::AddrInUse => Some(Advice::NetTaken),
                ErrorKind::AddrNotAvailable | ErrorKind::PermissionDenied => {
                    Some(Advice::NetNotHere)
                }
                _ => None,
            },
        }
    }
}

// Why an office's file is not opened.
fn office_fault(kind: ErrorKind) -> Option<Advice> {
    match kind {
        ErrorKind::NotFound | ErrorKind::NotADirectory => Some(Advice::ShutNoFolder),
        ErrorKind::PermissionDenied | ErrorKind::ReadOnlyFilesystem => Some(Advice::ShutBarred),
        _ => None,
    }
}

// Why a file is not read.
fn text_fault(kind: ErrorKind) -> Option<Advice> {
    match kind {
        ErrorKind::NotFound | ErrorKind::NotADirectory => Some(Advice::FileMissing),
        ErrorKind::PermissionDenied => Some(Advice::FileBarred),
        _ => None,
    }
}

// Whether somebody listens at this port, at some address of this list.
fn is_listened(rt: &HostRuntime, list: &str, port: u16, nobody: &str) -> Option<bool> {
    let listed = fs::read_to_string(rt, list).ok()?;
    let listens = format!(in rt.alloc(); ":{port:04X} {nobody} 0A ").ok()?;
    Some(listed.contains(listens.as_str()))
}

// What is in the way of a file that can be read and written. No lock outlasts this.
fn database_fault(rt: &HostRuntime, mut file: File, found: &Metadata) -> Option<Advice> {
    // The locks of SQLite.
    if os::try_lock_range(file.as_raw_fd(), RangeLock::Exclusive, 1 << 30, 512) != 0 {
        return Some(holder(rt, found).unwrap_or(Advice::ShutInUse));
    }
    let mut beginning = [0u8; BEGINNING];
    let count = file.read(&mut beginning).ok()?;
    let read = beginning.get(..count)?;
    if read.is_empty() {
        return None;
    }
    let Some(header) = read.first_chunk::<HEADER>() else {
        return Some(Advice::ShutNoDatabase);
    };
    if !header.starts_with(DATABASE) {
        return Some(Advice::ShutNoDatabase);
    }
    if header[52..56] != [0u8; 4] {
        return Some(Advice::ShutVacuum);
    }
    schema_fault(rt.alloc(), read)
}

// Which kind of program has a lock of the file: this one's are of the open file, those of SQLite's
// own library of the process.
fn holder(rt: &HostRuntime, found: &Metadata) -> Option<Advice> {
    let listed = fs::read_to_string(rt, LOCKS).ok()?;
    let number = found.ino();
    let of_file = format!(in rt.alloc(); ":{number} ").ok()?;
    let line = listed.lines().find(|line| line.contains(of_file.as_str()))?;
    if line.contains("OFDLCK") {
        Some(Advice::ShutByVend)
    } else {
        Some(Advice::ShutByOther)
    }
}

// Whether the disk of a file has no room for what a command writes beside it: that is tried, in a
// file that has no name any more.
fn is_full(rt: &HostRuntime, path: &str) -> bool {
    let Ok(name) = format!(in rt.alloc(); "{path}-room") else {
        return false;
    };
    let mut options = OpenOptions::new();
    let mut tried = match options.write(true).create_new(true).open(rt, name.as_str()) {
        Ok(tried) => tried,
        Err(error) => return error.kind() == ErrorKind::StorageFull,
    };
    let _gone = fs::remove_file(rt, name.as_str());
    for _ in 0..ROOM_PIECES {
        if let Err(error) = tried.write_all(&PIECE) {
            return error.kind() == ErrorKind::StorageFull;
        }
    }
    false
}
