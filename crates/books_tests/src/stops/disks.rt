//! Disks in memory that stop at a call, and the lives of offices on them.

use crate::shown::all_shown;
use books::{Books, OpenFault};
use office_rules::{Reply, Stamped};
use office_testing::both::serve_all;
use sqlite::{Alter, Connection, FileStore, Files, Options};
use sqlite_disk::{Disk, Fuse, Memory};
use std::alloc::{AllocError, Global};
use std::io;
use std::test::Fail;
use sts_token::Plain;

/// The bytes of a log and of a database, as a life left them.
#[derive(Drop, PartialEq)]
pub(crate) struct Kept {
    log: Vec<u8>,
    db: Vec<u8>,
}

/// How much of what is written waits in memory, and how much in the log.
#[derive(Clone, Copy)]
pub(crate) enum Room {
    /// As in the program: a transaction goes to the log at its commit, and the log is copied into
    /// the database by no life of these tests.
    Ample,
    /// A transaction goes to the log before its commit too, and the log is copied into the database
    /// again and again.
    Little,
}

/// How many calls the two disks pass on before each call of theirs fails.
#[derive(Clone, Copy)]
pub(crate) struct Stop {
    log: u64,
    db: u64,
    room: Room,
}

/// Disks that do not fail.
pub(crate) const SOUND: Stop = Stop {
    log: u64::MAX,
    db: u64::MAX,
    room: Room::Ample,
};

/// Which of the two disks stops.
#[derive(Clone, Copy)]
pub(crate) enum Stopping {
    Log(Room),
    Database(Room),
}

impl Stopping {
    pub(crate) fn after(self, calls: u64) -> Stop {
        match self {
            Stopping::Log(room) => Stop {
                log: calls,
                room,
                ..SOUND
            },
            Stopping::Database(room) => Stop {
                db: calls,
                room,
                ..SOUND
            },
        }
    }

    /// As it is told.
    pub(crate) fn name(self) -> &'static str {
        match self {
            Stopping::Log(Room::Ample) => "the log stops",
            Stopping::Log(Room::Little) => "the log stops, with little room",
            Stopping::Database(Room::Ample) => "the database stops",
            Stopping::Database(Room::Little) => "the database stops, with little room",
        }
    }
}

/// What a life ends with.
#[derive(Drop)]
pub(crate) struct Ended {
    /// `None` where the office was not opened.
    pub(crate) replies: Option<Vec<Reply>>,
    /// Why it was not opened, where the database was.
    pub(crate) fault: Option<OpenFault>,
    /// Whether the books were stopped at the end.
    pub(crate) is_stopped: bool,
    pub(crate) kept: Kept,
}

type Stored = Connection<FileStore<Fuse<Memory>>>;

/// No file yet.
pub(crate) fn nothing(alloc: Global) -> Kept {
    Kept {
        log: Vec::new(alloc),
        db: Vec::new(alloc),
    }
}

fn disk(alloc: Global, bytes: &[u8], calls: u64) -> io::Result<Fuse<Memory>> {
    let mut memory = Memory::new(alloc);
    if memory.may_be_used() {
        memory.write_at(0, bytes)?;
        memory.sync()?;
    }
    Ok(Fuse::new(memory, calls))
}

fn keep(alloc: Global, files: &Files<Fuse<Memory>>) -> Result<Kept, AllocError> {
    Ok(Kept {
        log: Vec::from_slice(alloc, files.log.inner().bytes())?,
        db: Vec::from_slice(alloc, files.db.inner().bytes())?,
    })
}

// The usual cache is larger than all these offices, and each opening would pay for it.
fn options(room: Room) -> Options {
    let ample = Options {
        cache_pages: 64,
        ..Options::new(1)
    };
    match room {
        Room::Ample => ample,
        Room::Little => Options {
            spill_pages: 2,
            checkpoint_frames: 10,
            ..ample
        },
    }
}

// The connection to what was kept, or what is left where it cannot be opened.
fn connect(alloc: Global, kept: &Kept, stop: Stop) -> Result<Result<Stored, Kept>, Fail> {
    let files = Files {
        log: disk(alloc, &kept.log, stop.log)?,
        db: disk(alloc, &kept.db, stop.db)?,
    };
    if !files.may_be_used() {
        return Err("the disks are spoiled".into());
    }
    match Connection::open_files(alloc, files, options(stop.room)) {
        Ok(conn) => Ok(Ok(conn)),
        Err((_, left)) => Ok(Err(keep(alloc, &left.into_files())?)),
    }
}

// The connection to what was kept, on sound disks.
fn connected(alloc: Global, kept: &Kept) -> Result<Stored, Fail> {
    match connect(alloc, kept, SOUND)? {
        Ok(conn) => Ok(conn),
        Err(_) => Err("not opened on sound disks".into()),
    }
}

// These have no clause and are over any store, so that the proof of a life carries neither what the
// books promise nor what a store of files is.
fn opened<S: Alter + Drop>(
    alloc: Global,
    conn: Connection<S>,
) -> Result<Result<Books<S, Plain>, (OpenFault, Connection<S>)>, Fail> {
    if !conn.is_autocommit() {
        return Err("a transaction is open".into());
    }
    Ok(Books::open_from(alloc, conn, Plain))
}

fn store_of<S: Alter + Drop>(conn: Connection<S>) -> S {
    conn.into_store()
}

fn store_of_books<S: Alter + Drop>(books: Books<S, Plain>) -> S {
    store_of(books.into_connection())
}

// What a life on a store ends with, but for what is kept.
#[derive(Drop)]
struct Lived {
    replies: Option<Vec<Reply>>,
    fault: Option<OpenFault>,
    is_stopped: bool,
}

// The replies to these requests, and the store: no replies where it holds no office.
fn live<S: Alter + Drop>(
    alloc: Global,
    conn: Connection<S>,
    script: &[Stamped],
) -> Result<(Lived, S), Fail> {
    match opened(alloc, conn)? {
        Ok(mut books) => {
            let lived = Lived {
                replies: Some(serve_all(&mut books, script)?),
                fault: None,
                is_stopped: books.is_stopped(),
            };
            Ok((lived, store_of_books(books)))
        }
        Err((fault, conn)) => {
            let lived = Lived {
                replies: None,
                fault: Some(fault),
                is_stopped: false,
            };
            Ok((lived, store_of(conn)))
        }
    }
}

fn number_of<S: Alter + Drop>(conn: Connection<S>, sql: &str) -> Result<i64, Fail> {
    let mut conn = conn;
    Ok(conn.query_row(sql, &[])?.get(0)?)
}

/// A life on disks that stop, in which these requests are sent.
pub(crate) fn life(
    alloc: Global,
    kept: &Kept,
    stop: Stop,
    script: &[Stamped],
) -> Result<Ended, Fail> {
    match connect(alloc, kept, stop)? {
        Ok(conn) => {
            let (lived, store) = live(alloc, conn, script)?;
            let Lived {
                replies,
                fault,
                is_stopped,
            } = lived;
            Ok(Ended {
                replies,
                fault,
                is_stopped,
                kept: keep(alloc, &store.close())?,
            })
        }
        Err(kept) => Ok(Ended {
            replies: None,
            fault: None,
            is_stopped: false,
            kept,
        }),
    }
}

fn shown_of<S: Alter + Drop>(alloc: Global, conn: Connection<S>) -> Result<String, Fail> {
    let mut conn = conn;
    all_shown(alloc, &mut conn)
}

/// What the tables of what was kept show.
pub(crate) fn kept_tables(alloc: Global, kept: &Kept) -> Result<String, Fail> {
    shown_of(alloc, connected(alloc, kept)?)
}

/// How many rows a table of what was kept has.
pub(crate) fn count(alloc: Global, kept: &Kept, sql: &str) -> Result<i64, Fail> {
    number_of(connected(alloc, kept)?, sql)
}

/// The same, where the log was copied into the database.
pub(crate) fn closed(alloc: Global, kept: &Kept) -> Result<Kept, Fail> {
    match connected(alloc, kept)?.close_files() {
        Ok(files) => Ok(keep(alloc, &files)?),
        Err((_, store)) => {
            drop(store.close());
            Err("not closed on sound disks".into())
        }
    }
}

fn batch<S: Alter + Drop>(conn: Connection<S>, parts: &[&str]) -> Result<S, Fail> {
    let mut conn = conn;
    for sql in parts {
        conn.execute_batch(sql)?;
    }
    Ok(store_of(conn))
}

/// A file that these statements make. What they write stands in its log.
pub(crate) fn made(alloc: Global, parts: &[&str]) -> Result<Kept, Fail> {
    let store = batch(connected(alloc, &nothing(alloc))?, parts)?;
    Ok(keep(alloc, &store.close())?)
}
