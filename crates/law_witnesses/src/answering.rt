//! The law of a command that asks a desk, and of the run of `serve` that answers it.
ghost use Rattle.std.specs.Prelude.{◌≡◌, ◌≤◌, [], length, map, true, ⊤, IfSome, IsTrue};
ghost use Rattle.conversation.specs.declared.end.End.{End as HowItEnds};
ghost use Rattle.sqlite_disk.specs.Memory.{memory_is_usable};
ghost use Rattle.law_witnesses.specs.Asking.{AreOneOrder, WordsServe};

use crate::asking::{AT_DESK, Calling, calling_ports, order_to_desk};
use crate::kept::{Kept, KeptFile, Nothing};
use crate::offices::day;
use crate::older::copied;
use crate::runs::{Later, Then, WORDS, back_of, order_said, ports_on, ran, sold_on_files};
use asks::Ask;
use books::Books;
use command_line::{Address, Asked, meant, parse};
use conversation::{End, Script, Untold};
use desk::Desk;
use desk_client::message;
use office_lines::values::{FIRST_DAY, METER, moment, order};
use office_rules::{Moment, Order, Request, Stamped};
use program_laws::{program_law, run_law};
use sqlite::{Files, Options};
use sqlite_disk::{Disk, Memory};
use std::alloc::Global;
use std::marker::PhantomData;
use std::test::Fail;
use sts_token::Plain;
use vend_commands::{CommandEnd, Door, Machine, Ports};
use vend_core::office_law;

/// A machine whose office's file is kept in memory, and at whose door callers come in of whom each
/// sends the same.
pub(crate) struct Answering<'a> {
    label: PhantomData<&'a [u8]>,
}

impl<'a> Machine for Answering<'a> {
    type Office = KeptFile<Then>;

    type Texts = Nothing;

    type Clock = Script<'static>;

    type Door = WaitingDoor<'a>;

    type Loopback = Nothing;

    type Progress = Nothing;
}

/// Callers who send a text. Each but the first comes in only where the one before it was written
/// just what the door waits for.
#[derive(Drop)]
pub(crate) struct WaitingDoor<'a> {
    alloc: Global,
    text: &'a [u8],
    wanted: &'a [u8],
    has_come: bool,
    is_written: bool,
}

impl<'a> Door for WaitingDoor<'a> {
    type Reader = &'a [u8];

    type Writer = Vec<u8>;

    type Line = Untold;

    ghost listens = { λ old _ _ new. new ≡ old };

    ghost fails = { λ _ _ _. ⊤ };

    ghost accepts = { λ old reader writer _ new. (reader.now ≡ old.text.now)
        × (writer.items ≡ []) × (new.has_come ≡ true) × (new.wanted.now ≡ old.wanted.now)
        × (old.has_come ≡ true → old.is_written ≡ true) };

    ghost refuses = { λ _ _. ⊤ };

    ghost ends = { λ old _ writer _ end new. (new.has_come ≡ old.has_come)
        × (new.is_written ≡ true
        → (end ≡ HowItEnds.Closed) × (writer.items ≡ old.wanted.now)) };

    ghost leaves = { λ _ _. ⊤ };

    fn listen(&mut self, address: Address) -> Option<u16> {
        if address.port == 0 {
            None
        } else {
            Some(address.port)
        }
    }

    fn accept(&mut self) -> Option<(&'a [u8], Vec<u8>, Untold)> {
        if self.has_come && !self.is_written {
            return None;
        }
        self.has_come = true;
        Some((self.text, Vec::new(self.alloc), Untold))
    }

    fn end(&mut self, _reader: &'a [u8], writer: Vec<u8>, _line: Untold, end: End) {
        self.is_written = match end {
            End::Closed => writer.as_slice() == self.wanted,
            _ => false,
        };
    }

    fn leave<T: Drop>(it: T)
        ensures { ⊤ }
    {
        drop(it);
    }
}

// The ports of such a machine.
fn answering_ports<'a>(
    alloc: Global,
    files: Files<Memory>,
    second: i64,
    text: &'a [u8],
    wanted: &'a [u8],
) -> Ports<Answering<'a>>
    requires log { IsTrue (memory_is_usable files.log) }
    requires db { IsTrue (memory_is_usable files.db) }
    ensures log { result.office.log ≡ files.log }
    ensures db { result.office.db ≡ files.db }
    ensures text { result.door.text.now ≡ text.now }
    ensures wanted { result.door.wanted.now ≡ wanted.now }
{
    Ports {
        office: KeptFile::new(files),
        texts: Nothing,
        clock: Script::new(second, &[]),
        door: WaitingDoor {
            alloc,
            text,
            wanted,
            has_come: false,
            is_written: false,
        },
        loopback: Nothing,
        progress: Nothing,
    }
}

// Whether some words ask to serve two connections.
fn ask_for_two(alloc: Global, words: &[&str]) -> bool
    ensures { IsTrue result → WordsServe (map (λ w. w.now) words.now) 2 }
{
    let Ok(line) = meant(alloc, words) else {
        return false;
    };
    let Ok(matches) = parse(alloc, &line) else {
        return false;
    };
    let Ok(asked) = Asked::read(alloc, &matches) else {
        return false;
    };
    match &asked {
        Asked::Serve(said) => said.connections == 2,
        _ => false,
    }
}

// Whether two orders are one.
fn are_one_order(one: &Order, other: &Order) -> bool
    ensures { IsTrue result → AreOneOrder one.now other.now }
{
    one.operator.as_bytes() == other.operator.as_bytes()
        && one.order_ref.as_bytes() == other.order_ref.as_bytes()
        && one.meter.as_bytes() == other.meter.as_bytes()
        && one.tender.cents() == other.tender.cents()
}

// No reply to an order is longer.
const LONGEST: usize = 1_000_000;

// What a desk writes of a message on a copy of some files.
fn rehearsed(alloc: Global, files: &Files<Memory>, message: &[u8], second: i64) -> Option<Vec<u8>>
    ensures { IfSome result (λ text. length text.items ≤ 1_000_000) }
{
    let Some(log) = copied(alloc, &files.log) else {
        return None;
    };
    let Some(db) = copied(alloc, &files.db) else {
        return None;
    };
    let Ok(mut books) = Books::open_files(alloc, Files { log, db }, Options::new(7), Plain) else {
        return None;
    };
    let Ok(desk) = Desk::new(alloc) else {
        return None;
    };
    let mut reader = message;
    let mut text = Vec::new(alloc);
    let mut clock = Script::new(second, &[]);
    let end = desk.run(alloc, &mut reader, &mut text, &mut books, &mut clock);
    if end == End::Closed && text.len() <= LONGEST {
        Some(text)
    } else {
        None
    }
}

// Books sell an order. A run of `serve` on their files answers a caller who asks it to sell another
// one, and is done once it wrote these bytes. A run by words that ask a desk for that, on another
// machine, reads the same bytes and prints a receipt. A run by words that say the order, on a third
// machine with the files that the desk's run gave back, prints the same one.
fn receipt_of_answer(
    alloc: Global,
    ats: &[Stamped],
    moment: Moment,
    order: &Order,
    serve: &[&str],
    at_desk: &[&str],
    words: &[&str],
) -> Option<(Vec<u8>, Vec<u8>)>
    ensures { IfSome result (λ both. both.1.items ≡ both.0.items) }
{
    office_law();
    run_law::<Answering<'_>>();
    run_law::<Calling<'_>>();
    run_law::<Kept<Later>>();
    program_law::<Answering<'_>, Calling<'_>>();
    if !ask_for_two(alloc, serve) {
        return None;
    }
    let Some(wanted) = order_to_desk(alloc, at_desk) else {
        return None;
    };
    let Some(said) = order_said(alloc, words) else {
        return None;
    };
    if !are_one_order(&wanted, &said) {
        return None;
    }
    let Ok(message) = message(alloc, &Ask::Do(Request::Sell(wanted))) else {
        return None;
    };
    let Some((_sale, files)) = sold_on_files(alloc, ats, moment, order) else {
        return None;
    };
    let Some(text) = rehearsed(alloc, &files, &message, moment.secs()) else {
        return None;
    };
    let ports = answering_ports(alloc, files, moment.secs(), &message, &text);
    let Some((served, _nothing)) = ran(alloc, ports, serve) else {
        return None;
    };
    let CommandEnd::Done = served.end else {
        return None;
    };
    let Some((log, db)) = back_of(served) else {
        return None;
    };
    if !log.may_be_used() || !db.may_be_used() {
        return None;
    }
    let Some((asked, first)) = ran(alloc, calling_ports(alloc, &text), at_desk) else {
        return None;
    };
    let CommandEnd::Done = asked.end else {
        return None;
    };
    let left = Files { log, db };
    let Some((ended, second)) = ran(alloc, ports_on::<Later>(left, moment.secs()), words) else {
        return None;
    };
    match ended.end {
        CommandEnd::Done => Some((first, second)),
        _ => None,
    }
}

// The second connection shows that the first was served whole.
const SERVE: [&str; 7] = [
    "serve",
    "--file",
    "office.db",
    "--listen",
    "127.0.0.1:8080",
    "--connections",
    "2",
];

#[test]
fn a_desk_sold_what_a_command_printed(rt: HostRuntime) -> Result<(), Fail> {
    let ats = day(rt.alloc(), &[])?;
    let Request::Sell(order) = order(b"A-6", METER, 20)? else {
        return Err("no order".into());
    };
    let (first, second) = receipt_of_answer(
        rt.alloc(),
        &ats,
        moment(FIRST_DAY)?,
        &order,
        &SERVE,
        &AT_DESK,
        &WORDS,
    )
    .ok_or("no receipt")?;
    assert!(rt; first.starts_with(b"SALE 3\n"));
    assert_eq!(rt; second, first);
    Ok(())
}
