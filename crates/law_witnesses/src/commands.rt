//! The laws of single commands on the file of an office.
ghost use Rattle.std.specs.Prelude.{◌≡◌, ◌⊎◌, false, IfSome, IsTrue, Option, option_map};
ghost use Rattle.audit.specs.declared.audited.Audited.{Audited};
ghost use Rattle.command_line.specs.Transform.{forward_of};
ghost use Rattle.desk_client.specs.Answers.{IsSaleFor};
ghost use Rattle.office_commands.specs.commands.AtFile.{IsAskedOfFile};
ghost use Rattle.office_commands.specs.commands.Audited.{IsAudited};
ghost use Rattle.office_commands.specs.port.Back.{is_untouched};
ghost use Rattle.office_commands.specs.port.Places.{places_of};
ghost use Rattle.office_commands.specs.print.AuditLines.{no_office_line, sound_line};
ghost use Rattle.papers.specs.Receipt.{receipt_of};
ghost use Rattle.program_laws.specs.runs.Words.{selling};
ghost use Rattle.vend_ports.specs.port.Dial.{dial_of};
ghost use Rattle.vend_ports.specs.port.Texts.{texts_of};
ghost use Rattle.vend_ports.specs.declared.command_end.CommandEnd.{CommandEnd as HowItEnds};
ghost use Rattle.law_witnesses.specs.Printed.{HasPrinted};

use crate::kept::{KeptFile, Nothing};
use crate::offices::day;
use crate::runs::{sold_on_files, written};
use asks::Ask;
use command_line::{AskWords, AuditWords, FilePlace, Shipped};
use conversation::{Clock, Script};
use office_commands::OfficeFile;
use office_commands::commands::{at_file, file_audit};
use office_lines::values::{FIRST_DAY, METER, moment, order};
use office_rules::{Moment, Order, Request, Sale, Stamped};
use program_laws::{broken_law, sell_law};
use sqlite::FileStore;
use sqlite_trees::store::Store;
use std::alloc::Global;
use std::test::Fail;
use vend_core::{history_law, office_law};
use vend_ports::{CommandEnd, TextFiles, Watched};

// Whether a sale is that of an order.
pub(crate) fn is_sale_for(order: &Order, sale: &Sale) -> bool
    ensures { IsTrue result → IsSaleFor order.now sale.now }
{
    sale.operator.as_bytes() == order.operator.as_bytes()
        && sale.order_ref.as_bytes() == order.order_ref.as_bytes()
        && sale.meter.as_bytes() == order.meter.as_bytes()
        && sale.tender.cents() == order.tender.cents()
}

// What a `sell` of an order prints of the office in a file, where it ends as done.
fn printed_by_sell<H: OfficeFile, F: TextFiles, C: Clock>(
    alloc: Global,
    place: &FilePlace<'_>,
    office: H,
    texts: F,
    clock: &mut C,
    order: &Order,
) -> Option<Vec<u8>>
    ensures { IfSome result (λ text. (back : Option (H.Medium × H.Medium)) × HasPrinted
        (λ o. IsAskedOfFile ⟦<FileStore<H::Medium> as Store>⟧
        (places_of H.Medium.Disk H.Salts.SaltSource H.OfficeFile office back)
        (is_untouched H.OfficeFile office back) (texts_of F.TextFiles texts)
        (dial_of C.Clock clock.old) place.now (selling order.now) false o HowItEnds.Done)
        text.items) }
{
    let words = AskWords::Ask(Ask::Do(Request::Sell(*order)));
    let mut progress = Nothing;
    let mut out = Vec::new(alloc);
    let mut err = Vec::new(alloc);
    let mut watched = Watched::new(&mut out);
    let mut errors = Watched::new(&mut err);
    let ended = at_file::run(
        place,
        words,
        false,
        alloc,
        office,
        texts,
        clock,
        &mut progress,
        &mut watched,
        &mut errors,
    );
    let failed = watched.has_failed();
    let Some(text) = written(alloc, watched) else {
        return None;
    };
    if failed {
        return None;
    }
    match ended.end {
        CommandEnd::Done => Some(text),
        _ => None,
    }
}

// An office in a file, whose tokens are plain, at a moment.
fn place_at(moment: Moment) -> FilePlace<'static> {
    FilePlace {
        path: "office.db",
        wait: 0,
        transform: Shipped::Plain,
        at: Some(moment),
    }
}

// Books sell an order, and a `sell` of it on their files comes after them: what this prints is the
// receipt of that sale.
fn receipt_by_sell(
    alloc: Global,
    ats: &[Stamped],
    moment: Moment,
    order: &Order,
) -> Option<(Sale, Vec<u8>)>
    ensures { IfSome result (λ both. both.1.items ≡ receipt_of both.0) }
{
    history_law();
    office_law();
    sell_law::<KeptFile<()>, Nothing, Script>();
    let Some((sale, files)) = sold_on_files(alloc, ats, moment, order) else {
        return None;
    };
    if !is_sale_for(order, &sale) {
        return None;
    }
    let place = place_at(moment);
    let office = KeptFile::<()>::new(files);
    let mut clock = Script::new(0, &[]);
    match printed_by_sell(alloc, &place, office, Nothing, &mut clock, order) {
        Some(text) => Some((sale, text)),
        None => None,
    }
}

// How an audit of the office in a file ends, and what it prints.
pub(crate) fn printed_by_audit<H: OfficeFile>(
    alloc: Global,
    office: H,
    words: &AuditWords,
) -> Option<(CommandEnd, Vec<u8>)>
    ensures { IfSome result (λ told. (back : Option (H.Medium × H.Medium)) × HasPrinted
        (λ o. IsAudited
        (places_of H.Medium.Disk H.Salts.SaltSource H.OfficeFile office back
        words.now.file.now words.now.wait) (option_map forward_of words.now.transform) o told.0)
        told.1.items) }
{
    let mut out = Vec::new(alloc);
    let mut err = Vec::new(alloc);
    let mut watched = Watched::new(&mut out);
    let mut errors = Watched::new(&mut err);
    let mut progress = Nothing;
    let ended = file_audit::run(
        words,
        alloc,
        office,
        &mut progress,
        &mut watched,
        &mut errors,
    );
    let failed = watched.has_failed();
    let Some(text) = written(alloc, watched) else {
        return None;
    };
    if failed {
        return None;
    }
    Some((ended.end, text))
}

// What an audit prints of files on which books sold, by the transform that wrote their tokens: if
// anything, what it counted, or that it found no office, and no row that breaks a rule.
fn audited_after_books(
    alloc: Global,
    ats: &[Stamped],
    moment: Moment,
    order: &Order,
) -> Option<Vec<u8>>
    ensures { IfSome result (λ text. ((audited : Audited) × (text.items ≡ sound_line audited))
        ⊎ (text.items ≡ no_office_line)) }
{
    broken_law::<KeptFile<()>>();
    let Some((_sale, files)) = sold_on_files(alloc, ats, moment, order) else {
        return None;
    };
    let words = AuditWords {
        file: "office.db",
        wait: 0,
        transform: Some(Shipped::Plain),
    };
    let Some((_end, text)) = printed_by_audit(alloc, KeptFile::<()>::new(files), &words) else {
        return None;
    };
    if text.as_slice().is_empty() {
        return None;
    }
    Some(text)
}

#[test]
fn a_sell_prints_the_receipt_of_what_books_sold(rt: HostRuntime) -> Result<(), Fail> {
    let ats = day(rt.alloc(), &[])?;
    let Request::Sell(order) = order(b"A-7", METER, 10)? else {
        return Err("no order".into());
    };
    let (sale, printed) = receipt_by_sell(rt.alloc(), &ats, moment(FIRST_DAY)?, &order).ok_or(
        "no receipt",
    )?;
    assert_eq!(rt; sale.number, 2);
    assert!(rt; printed.starts_with(b"SALE 2\n"));
    Ok(())
}

const SOUND: &[u8] = b"sound format 4 tariffs 1 meters 1 shifts 1 sales 2\n";

#[test]
fn an_audit_finds_nothing_broken(rt: HostRuntime) -> Result<(), Fail> {
    let ats = day(rt.alloc(), &[])?;
    let Request::Sell(order) = order(b"A-7", METER, 10)? else {
        return Err("no order".into());
    };
    let text = audited_after_books(rt.alloc(), &ats, moment(FIRST_DAY)?, &order).ok_or(
        "nothing printed",
    )?;
    assert_eq!(rt; text.as_slice(), SOUND);
    Ok(())
}
