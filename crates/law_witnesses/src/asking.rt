//! The law of what a command prints that asks a desk.
ghost use Rattle.std.specs.Prelude.{◌≡◌, map, ⊤, IfSome, Some};
ghost use Rattle.books.specs.Keeps.{seen};
ghost use Rattle.papers.specs.Receipt.{receipt_of};
ghost use Rattle.program_laws.specs.runs.Asked.{WordsSellAtDesk};
ghost use Rattle.law_witnesses.specs.Asking.{AreAnswering, transcript};

use crate::desks::keeps_rules;
use crate::kept::{KeptFile, Nothing};
use crate::offices::{day, sale_of, served};
use crate::runs::{ordered, ran};
use asks::{Ask, Lookup};
use books::Books;
use command_line::{Address, Asked, Place, meant, parse};
use conversation::{End, Script};
use desk::Desk;
use desk_client::{answer_in, message, told_law};
use office_lines::values::{FIRST_DAY, moment};
use office_rules::{Moment, Order, Request, Sale, Stamped, store_law};
use program_laws::{at_desk_law, run_law};
use sqlite::{Files, MemStore};
use sqlite_disk::Memory;
use std::alloc::Global;
use std::io::{self, ErrorKind, Read, Write};
use std::marker::PhantomData;
use std::test::Fail;
use sts_token::Plain;
use vend_commands::{CommandEnd, Loopback, Machine, Ports};
use vend_core::history_law;

/// A machine that has one connection, on which these bytes are to be read.
pub(crate) struct Calling<'a> {
    label: PhantomData<&'a [u8]>,
}

impl<'a> Machine for Calling<'a> {
    type Office = KeptFile<()>;

    type Texts = Nothing;

    type Clock = Script<'static>;

    type Door = Nothing;

    type Loopback = OneCall<'a>;

    type Progress = Nothing;
}

/// The connection, before it is had.
#[derive(Drop)]
pub(crate) struct OneCall<'a> {
    alloc: Global,
    reply: &'a [u8],
}

impl<'a> Loopback for OneCall<'a> {
    type Stream = Line<'a>;

    ghost joins = { λ _ _. ⊤ };

    ghost connects = { λ _ _ _ _ _. ⊤ };

    ghost lacks = { λ _. ⊤ };

    ghost calls = { λ call _ line. (line.unread.now ≡ call.reply.now) };

    ghost misses = { λ _ _. ⊤ };

    ghost ends = { λ _ _. ⊤ };

    ghost leaves = { λ _ _. ⊤ };

    fn connect(self, _text: &[u8]) -> io::Result<(Line<'a>, Line<'a>, Line<'a>)> {
        Err(io::Error::from(ErrorKind::NotConnected))
    }

    fn call(self, _address: Address) -> io::Result<Line<'a>> {
        Ok(Line {
            unread: self.reply,
            sent: Vec::new(self.alloc),
        })
    }

    fn end<S: Drop>(stream: S)
        ensures { ⊤ }
    {
        drop(stream);
    }

    fn leave<T: Drop>(it: T)
        ensures { ⊤ }
    {
        drop(it);
    }
}

/// An end of the connection. It holds what is to be read beside what was written, so that whoever
/// knows what was written knows what is to be read.
#[derive(Drop)]
pub(crate) struct Line<'a> {
    unread: &'a [u8],
    sent: Vec<u8>,
}

impl Read for Line<'_> {
    ghost remaining = { λ line. Some line.unread.now };

    fn read(&mut self, buf: &mut [u8]) -> io::Result<usize> {
        self.unread.read(buf)
    }
}

impl Write for Line<'_> {
    ghost contents = { λ line. Some (transcript line.unread.now line.sent.items) };

    fn write(&mut self, buf: &[u8]) -> io::Result<usize> {
        self.sent.write(buf)
    }

    fn flush(&mut self) -> io::Result<()> {
        Ok(())
    }
}

// The ports of such a machine.
pub(crate) fn calling_ports<'a>(alloc: Global, reply: &'a [u8]) -> Ports<Calling<'a>>
    ensures { result.loopback.reply.now ≡ reply.now }
{
    let files = Files {
        log: Memory::new(alloc),
        db: Memory::new(alloc),
    };
    Ports {
        office: KeptFile::new(files),
        texts: Nothing,
        clock: Script::new(0, &[]),
        door: Nothing,
        loopback: OneCall { alloc, reply },
        progress: Nothing,
    }
}

// The order that some words ask a desk to sell.
pub(crate) fn order_to_desk(alloc: Global, words: &[&str]) -> Option<Order>
    ensures { IfSome result (WordsSellAtDesk (map (λ w. w.now) words.now)) }
{
    let Ok(line) = meant(alloc, words) else {
        return None;
    };
    let Ok(matches) = parse(alloc, &line) else {
        return None;
    };
    let Ok(asked) = Asked::read(alloc, &matches) else {
        return None;
    };
    let Asked::Office(said) = &asked else {
        return None;
    };
    match &said.place {
        Place::Desk(_) => ordered(&said.ask),
        Place::File(_) => None,
    }
}

// What a desk writes of all that it is sent, over these books.
fn answered_at(
    alloc: Global,
    books: &mut Books<MemStore, Plain>,
    sent: &[u8],
    second: i64,
) -> Option<Vec<u8>>
    ensures { IfSome result
        (λ text. AreAnswering second sent.now text.items (seen books.old) (seen books.new)) }
{
    let Ok(desk) = Desk::new(alloc) else {
        return None;
    };
    let mut reader = sent;
    let mut text = Vec::new(alloc);
    let mut clock = Script::new(second, &[]);
    match desk.run(alloc, &mut reader, &mut text, books, &mut clock) {
        End::Closed => Some(text),
        _ => None,
    }
}

// A desk in memory is sent the message of an order, and a run by words that ask it to sell that
// reads the bytes that it wrote: what the run prints, where it ends as done, is the receipt of the
// sale in the desk's books.
fn receipt_at_desk(
    alloc: Global,
    ats: &[Stamped],
    moment: Moment,
    words: &[&str],
) -> Option<(Sale, Vec<u8>)>
    ensures { IfSome result (λ both. both.1.items ≡ receipt_of both.0) }
{
    history_law();
    store_law();
    told_law();
    at_desk_law();
    run_law::<Calling<'_>>();
    let Some(order) = order_to_desk(alloc, words) else {
        return None;
    };
    keeps_rules(&order);
    let Some((mut books, _replies)) = served(alloc, ats, moment) else {
        return None;
    };
    let ask = Ask::Do(Request::Sell(order));
    let Ok(message) = message(alloc, &ask) else {
        return None;
    };
    let Some(text) = answered_at(alloc, &mut books, &message, moment.secs()) else {
        return None;
    };
    let Some(_told) = answer_in(&ask, &text) else {
        return None;
    };
    let Some((ended, printed)) = ran(alloc, calling_ports(alloc, &text), words) else {
        return None;
    };
    let CommandEnd::Done = ended.end else {
        return None;
    };
    let by_ref = Lookup::SaleOfRef(order.operator, order.order_ref);
    let Ok(found) = books.look_up(moment, &by_ref) else {
        return None;
    };
    match sale_of(&found) {
        Some(sale) => Some((sale, printed)),
        None => None,
    }
}

pub(crate) const AT_DESK: [&str; 11] = [
    "sell",
    "--desk",
    "127.0.0.1:8080",
    "--operator",
    "ann",
    "--ref",
    "A-7",
    "--meter",
    "12345678903",
    "--tender",
    "10",
];

#[test]
fn a_sell_prints_the_receipt_of_what_a_desk_sold(rt: HostRuntime) -> Result<(), Fail> {
    let ats = day(rt.alloc(), &[])?;
    let (sale, printed) = receipt_at_desk(rt.alloc(), &ats, moment(FIRST_DAY)?, &AT_DESK).ok_or(
        "no receipt",
    )?;
    assert_eq!(rt; sale.number, 2);
    assert!(rt; printed.starts_with(b"SALE 2\n"));
    Ok(())
}
