//! Runs after a desk whose connection broke.
ghost use Rattle.std.specs.Prelude.{◌≡◌, ⊤, IfSome, IsTrue};
ghost use Rattle.papers.specs.Receipt.{receipt_of};
ghost use Rattle.sqlite_disk.specs.Memory.{memory_is_usable};

use crate::kept::{Kept, KeptFile, Nothing};
use crate::offices::day;
use crate::runs::{Later, Then, WORDS, back_of, order_said, ports_on, ran, sold_on_files};
use asks::Ask;
use command_line::Address;
use conversation::{End, Script, Untold};
use desk_client::message;
use office_lines::values::{FIRST_DAY, METER, moment, order};
use office_rules::{Moment, Request, Sale, Stamped};
use program_laws::run_law;
use sqlite::Files;
use sqlite_disk::{Disk, Memory};
use std::alloc::Global;
use std::io::{self, ErrorKind, Write};
use std::marker::PhantomData;
use std::test::Fail;
use vend_commands::{CommandEnd, Door, Machine, Ports};
use vend_core::office_law;

/// A machine whose office's file is kept in memory, and at whose door one caller comes in.
struct AtDoor<'a, L> {
    label: PhantomData<(&'a [u8], L)>,
}

impl<'a, L> Machine for AtDoor<'a, L> {
    type Office = KeptFile<L>;

    type Texts = Nothing;

    type Clock = Script<'static>;

    type Door = BreakingDoor<'a>;

    type Loopback = Nothing;

    type Progress = Nothing;
}

/// One caller, who sends a text, and whose connection breaks once it was sent so many bytes.
#[derive(Drop)]
struct BreakingDoor<'a> {
    text: &'a [u8],
    room: usize,
    has_come: bool,
}

impl<'a> Door for BreakingDoor<'a> {
    type Reader = &'a [u8];

    type Writer = Breaking;

    type Line = Untold;

    ghost listens = { λ _ _ _ _. ⊤ };

    ghost fails = { λ _ _ _. ⊤ };

    ghost accepts = { λ _ _ _ _ _. ⊤ };

    ghost refuses = { λ _ _. ⊤ };

    ghost ends = { λ _ _ _ _ _ _. ⊤ };

    ghost leaves = { λ _ _. ⊤ };

    fn listen(&mut self, address: Address) -> Option<u16> {
        if address.port == 0 {
            None
        } else {
            Some(address.port)
        }
    }

    fn accept(&mut self) -> Option<(&'a [u8], Breaking, Untold)> {
        if self.has_come {
            return None;
        }
        self.has_come = true;
        Some((self.text, Breaking { room: self.room }, Untold))
    }

    fn end(&mut self, reader: Self::Reader, writer: Self::Writer, _line: Untold, _end: End)
        ensures { ⊤ }
    {
        drop(reader);
        drop(writer);
    }

    fn leave<T: Drop>(it: T)
        ensures { ⊤ }
    {
        drop(it);
    }
}

/// Takes so many bytes, and then fails.
#[derive(Drop)]
struct Breaking {
    room: usize,
}

impl Write for Breaking {
    fn write(&mut self, buf: &[u8]) -> io::Result<usize> {
        if self.room == 0 {
            return Err(io::Error::from(ErrorKind::BrokenPipe));
        }
        let count = buf.len().min(self.room);
        self.room -= count;
        Ok(count)
    }

    fn flush(&mut self) -> io::Result<()> {
        Ok(())
    }
}

// The ports of such a machine.
fn ports_with<'a, L>(
    files: Files<Memory>,
    second: i64,
    text: &'a [u8],
    room: usize,
) -> Ports<AtDoor<'a, L>>
    requires log { IsTrue (memory_is_usable files.log) }
    requires db { IsTrue (memory_is_usable files.db) }
    ensures log { result.office.log ≡ files.log }
    ensures db { result.office.db ≡ files.db }
{
    Ports {
        office: KeptFile::new(files),
        texts: Nothing,
        clock: Script::new(second, &[]),
        door: BreakingDoor {
            text,
            room,
            has_come: false,
        },
        loopback: Nothing,
        progress: Nothing,
    }
}

// Books sell an order. On their files a run of `serve` is sent some bytes on a connection that
// breaks. A run by words that say the order, on what that one gave back, prints the receipt of the
// one sale, whatever the desk was sent and wherever it was cut off.
fn receipt_after_desk(
    alloc: Global,
    ats: &[Stamped],
    moment: Moment,
    words: &[&str],
    sent: &[u8],
    room: usize,
) -> Option<(Sale, Vec<u8>)>
    ensures { IfSome result (λ both. both.1.items ≡ receipt_of both.0) }
{
    office_law();
    run_law::<AtDoor<'_, Then>>();
    run_law::<Kept<Later>>();
    let Some(said) = order_said(alloc, words) else {
        return None;
    };
    let Some((sale, files)) = sold_on_files(alloc, ats, moment, &said) else {
        return None;
    };
    let ports = ports_with::<Then>(files, moment.secs(), sent, room);
    let Some((ended, _nothing)) = ran(alloc, ports, &SERVE) else {
        return None;
    };
    let Some((log, db)) = back_of(ended) else {
        return None;
    };
    if !log.may_be_used() || !db.may_be_used() {
        return None;
    }
    let left = Files { log, db };
    let Some((again, printed)) = ran(alloc, ports_on::<Later>(left, moment.secs()), words) else {
        return None;
    };
    match again.end {
        CommandEnd::Done => Some((sale, printed)),
        _ => None,
    }
}

const SERVE: [&str; 7] = [
    "serve",
    "--file",
    "office.db",
    "--listen",
    "127.0.0.1:8080",
    "--connections",
    "1",
];

// The same order is sent to the desk, whose reply is cut off; the message is cut off; and another
// order is.
#[test]
fn a_desk_that_is_cut_off_keeps_the_sale(rt: HostRuntime) -> Result<(), Fail> {
    let ats = day(rt.alloc(), &[])?;
    let now = moment(FIRST_DAY)?;
    let (Request::Sell(first), Request::Sell(other)) = (
        order(b"A-7", METER, 10)?,
        order(b"A-8", METER, 20)?,
    ) else {
        return Err("no order".into());
    };
    let same = message(rt.alloc(), &Ask::Do(Request::Sell(first)))?;
    let more = message(rt.alloc(), &Ask::Do(Request::Sell(other)))?;
    for (sent, room) in [
        (&same[..], 40),
        (&same[..same.len().min(50)], 40),
        (&more[..], 0),
    ] {
        let (sale, printed) = receipt_after_desk(rt.alloc(), &ats, now, &WORDS, sent, room).ok_or(
            "no receipt",
        )?;
        assert_eq!(rt; sale.number, 2);
        assert!(rt; printed.starts_with(b"SALE 2\n"));
    }
    Ok(())
}
