//! The laws of runs of the program.
ghost use Rattle.std.specs.Prelude.{◌≡◌, map, IfSome, IsTrue, Some};
ghost use Rattle.office_rules.specs.declared.decision.request.Request.{Request};
ghost use Rattle.papers.specs.Receipt.{receipt_of};
ghost use Rattle.program_laws.specs.runs.Here.{here_of};
ghost use Rattle.program_laws.specs.runs.Words.{WordsRequest, selling};
ghost use Rattle.sqlite_disk.specs.Memory.{memory_is_usable};
ghost use Rattle.vend_commands.specs.port.Machines.{loop_of, way};
ghost use Rattle.law_witnesses.specs.Runs.{HasLeft, IsRunOf};

use crate::files::closed;
use crate::kept::{Kept, KeptFile, Nothing};
use crate::offices::{day, sold_by};
use asks::Ask;
use books::{Books, found_law, opening_law};
use command_line::{AskWords, Asked, Place, meant, parse};
use conversation::Script;
use office_lines::values::{FIRST_DAY, moment};
use office_rules::{Moment, Order, Request, Sale, Stamped};
use program_laws::{program_law, run_law};
use sqlite::{FileStore, Files, Options};
use sqlite_disk::{Disk, Memory};
use std::alloc::Global;
use std::test::Fail;
use sts_token::Plain;
use vend_commands::{Back, CommandEnd, Ended, Machine, OfficeFile, Ports, Watched, run_over};
use vend_core::office_law;

// The order that an office is asked to sell.
pub(crate) fn ordered(asked: &AskWords<'_>) -> Option<Order>
    ensures { IfSome result (λ order. asked.now ≡ selling order) }
{
    match asked {
        AskWords::Ask(Ask::Do(Request::Sell(order))) => Some(*order),
        _ => None,
    }
}

// The order that some words say.
pub(crate) fn order_said(alloc: Global, words: &[&str]) -> Option<Order>
    ensures { IfSome result
        (λ order. WordsRequest (map (λ w. w.now) words.now) (Request.Sell order)) }
{
    let Ok(line) = meant(alloc, words) else {
        return None;
    };
    let Ok(matches) = parse(alloc, &line) else {
        return None;
    };
    let Ok(asked) = Asked::read(alloc, &matches) else {
        return None;
    };
    let Asked::Office(said) = &asked else {
        return None;
    };
    match &said.place {
        Place::File(_) => ordered(&said.ask),
        Place::Desk(_) => None,
    }
}

// The text that was written.
pub(crate) fn written(alloc: Global, watched: Watched<'_, Vec<u8>>) -> Option<Vec<u8>>
    ensures { IfSome result (λ text. watched.entry.held ≡ Some text.items) }
{
    let out = watched.into_inner();
    match Vec::from_slice(alloc, out.as_slice()) {
        Ok(text) => Some(text),
        Err(_) => None,
    }
}

// A run of the program by some words, where no write failed: how it ended, and what it printed.
pub(crate) fn ran<M: Machine>(
    alloc: Global,
    ports: Ports<M>,
    words: &[&str],
) -> Option<(Ended<<M::Office as OfficeFile>::Medium>, Vec<u8>)>
    ensures { IfSome result (λ it. IsRunOf (here_of M.Office.Medium.Disk
        M.Office.Salts.SaltSource M.Office.OfficeFile M.Texts.TextFiles M.Clock.Clock
        (way M.Door.Door M.Door.Reader.remaining M.Door.Writer.contents M.Door.Line.uses)
        (loop_of M.Loopback.Loopback M.Loopback.Stream.remaining M.Loopback.Stream.contents))
        (ports.office, ports.texts, ports.clock, ports.door, ports.loopback)
        (map (λ w. w.now) words.now) it.0.end it.0.back it.1.items) }
{
    let mut out = Vec::new(alloc);
    let mut err = Vec::new(alloc);
    let mut watched = Watched::new(&mut out);
    let mut errors = Watched::new(&mut err);
    let ended = run_over(alloc, ports, words, &mut watched, &mut errors);
    let failed = watched.has_failed();
    let Some(text) = written(alloc, watched) else {
        return None;
    };
    if failed {
        return None;
    }
    Some((ended, text))
}

// Books on two files in memory that serve some requests and sell an order: the sale, and the files
// as they were closed.
pub(crate) fn sold_on_files(
    alloc: Global,
    ats: &[Stamped],
    moment: Moment,
    order: &Order,
) -> Option<(Sale, Files<Memory>)>
    ensures left { IfSome result (λ both. HasLeft ⟦<Memory as Disk>⟧ order.now both.0 both.1) }
    ensures log { IfSome result (λ both. IsTrue (memory_is_usable both.1.log)) }
    ensures db { IfSome result (λ both. IsTrue (memory_is_usable both.1.db)) }
{
    opening_law::<FileStore<Memory>>();
    found_law::<FileStore<Memory>>();
    let files = Files {
        log: Memory::new(alloc),
        db: Memory::new(alloc),
    };
    let Ok(mut books) = Books::open_files(alloc, files, Options::new(7), Plain) else {
        return None;
    };
    let Ok(_replies) = books.serve_all(ats) else {
        return None;
    };
    let reply = books.ask(moment, Request::Sell(*order));
    let Some(sale) = sold_by(&reply) else {
        return None;
    };
    let conn = books.into_connection();
    let _live = conn.schema();
    let _settled = conn.is_autocommit();
    match closed(conn) {
        Some(left) => Some((sale, left)),
        None => None,
    }
}

// The ports of a machine in memory with these files.
pub(crate) fn ports_on<L>(files: Files<Memory>, second: i64) -> Ports<Kept<L>>
    requires log { IsTrue (memory_is_usable files.log) }
    requires db { IsTrue (memory_is_usable files.db) }
    ensures log { result.office.log ≡ files.log }
    ensures db { result.office.db ≡ files.db }
{
    Ports {
        office: KeptFile::new(files),
        texts: Nothing,
        clock: Script::new(second, &[]),
        door: Nothing,
        loopback: Nothing,
        progress: Nothing,
    }
}

// What a run gave back.
pub(crate) fn back_of<D>(ended: Ended<D>) -> Back<D>
    ensures { result ≡ ended.back }
{
    ended.back
}

// The machine as it was, and as it is later.
pub(crate) struct Then;

pub(crate) struct Later;

// Books sell an order, and a run of the program by words that say it comes after them: what it
// prints, where it ends as done, is the receipt of that sale.
fn receipt_after_books(
    alloc: Global,
    ats: &[Stamped],
    moment: Moment,
    words: &[&str],
) -> Option<(Sale, Vec<u8>)>
    ensures { IfSome result (λ both. both.1.items ≡ receipt_of both.0) }
{
    office_law();
    run_law::<Kept<Then>>();
    let Some(said) = order_said(alloc, words) else {
        return None;
    };
    let Some((sale, files)) = sold_on_files(alloc, ats, moment, &said) else {
        return None;
    };
    let Some((ended, printed)) = ran(alloc, ports_on::<Then>(files, moment.secs()), words) else {
        return None;
    };
    match ended.end {
        CommandEnd::Done => Some((sale, printed)),
        _ => None,
    }
}

// The same by two runs, one after another, on machines of two types: the second has the files that
// the first gave back. Both print one receipt.
fn receipt_of_two_runs(
    alloc: Global,
    ats: &[Stamped],
    moment: Moment,
    words: &[&str],
) -> Option<(Vec<u8>, Vec<u8>)>
    ensures { IfSome result (λ both. both.1.items ≡ both.0.items) }
{
    office_law();
    run_law::<Kept<Then>>();
    run_law::<Kept<Later>>();
    program_law::<Kept<Then>, Kept<Later>>();
    let Some(said) = order_said(alloc, words) else {
        return None;
    };
    let Some((_sale, files)) = sold_on_files(alloc, ats, moment, &said) else {
        return None;
    };
    let Some((ended, first)) = ran(alloc, ports_on::<Then>(files, moment.secs()), words) else {
        return None;
    };
    let CommandEnd::Done = ended.end else {
        return None;
    };
    let Some((log, db)) = back_of(ended) else {
        return None;
    };
    if !log.may_be_used() || !db.may_be_used() {
        return None;
    }
    let left = Files { log, db };
    let Some((again, second)) = ran(alloc, ports_on::<Later>(left, moment.secs()), words) else {
        return None;
    };
    match again.end {
        CommandEnd::Done => Some((first, second)),
        _ => None,
    }
}

pub(crate) const WORDS: [&str; 11] = [
    "sell",
    "--file",
    "office.db",
    "--operator",
    "ann",
    "--ref",
    "A-7",
    "--meter",
    "12345678903",
    "--tender",
    "10",
];

#[test]
fn a_run_prints_the_receipt_of_what_books_sold(rt: HostRuntime) -> Result<(), Fail> {
    let ats = day(rt.alloc(), &[])?;
    let (sale, printed) = receipt_after_books(rt.alloc(), &ats, moment(FIRST_DAY)?, &WORDS).ok_or(
        "no receipt",
    )?;
    assert_eq!(rt; sale.number, 2);
    assert!(rt; printed.starts_with(b"SALE 2\n"));
    Ok(())
}

#[test]
fn a_later_run_prints_the_receipt_of_the_first(rt: HostRuntime) -> Result<(), Fail> {
    let ats = day(rt.alloc(), &[])?;
    let (first, second) = receipt_of_two_runs(rt.alloc(), &ats, moment(FIRST_DAY)?, &WORDS).ok_or(
        "no receipt",
    )?;
    assert!(rt; first.starts_with(b"SALE 2\n"));
    assert_eq!(rt; second, first);
    Ok(())
}
