//! The laws of what the program prints.
ghost use Rattle.std.specs.Prelude.{◌≡◌, false, true, filter, nat_lt, Contains, IfSome, IsTrue};
ghost use Rattle.std.specs.Prelude.{None, Some, option_map};
ghost use Rattle.audit.specs.declared.audited.Audited.{Audited};
ghost use Rattle.book_tables.specs.row.Rows.{present_format};
ghost use Rattle.command_line.specs.Transform.{forward_of};
ghost use Rattle.desk_commands.specs.print.FoundTexts.{purchase_in};
ghost use Rattle.desk_commands.specs.print.ListTexts.{page_text};
ghost use Rattle.desk_commands.specs.print.Pages.{list_behind};
ghost use Rattle.office_rules.specs.Decision.{MeterAccount};
ghost use Rattle.office_rules.specs.Office.{IsOffice};
ghost use Rattle.office_commands.specs.print.AuditLines.{sound_line};
ghost use Rattle.papers.specs.Export.{export_of};
ghost use Rattle.sqlite_disk.specs.Memory.{memory_is_usable};
ghost use Rattle.sts_token.specs.Token.{BlockFunction};
ghost use Rattle.tariff.specs.Purchase.{purchase_of};
ghost use Rattle.vend_core.specs.Law.Life.{present};
ghost use Rattle.vend_core.specs.Lists.{office_of};
ghost use Rattle.law_witnesses.specs.Offices.{life_of};
ghost use Rattle.law_witnesses.specs.Printed.{IsCounted};

use crate::files::closed;
use crate::kept::{KeptFile, Nothing};
use crate::offices::{day, quote_of, sale_of, served};
use book_states::{Found, Lookup, Quote};
use book_tables::PRESENT_FORMAT;
use books::Books;
use command_line::AuditWords;
use desk_commands::put_page;
use office_commands::OfficeFile;
use office_commands::commands::file_audit::run as run_audit;
use office_lines::values::{FIRST_DAY, METER, meter_no, moment};
use office_rules::{MeterNo, Moment, Reply, Sale, Stamped, Tender};
use papers::receipt;
use program_laws::{at_desk_law, format_law, list_law, offer_law, receipt_once, sound_law};
use sqlite::{Files, Options};
use sqlite_disk::Memory;
use std::alloc::Global;
use std::test::Fail;
use sts_token::Plain;
use vend_core::{Lists, life_law, office_law};
use vend_ports::{CommandEnd, Watched};

// The format of a file, as it is told.
fn format_told() -> u32
    ensures { result ≡ present_format }
{
    format_law();
    PRESENT_FORMAT
}

// An office over lists that served these requests.
fn listed(alloc: Global, ats: &[Stamped]) -> Lists<Plain>
    ensures { IsOffice (office_of result) }
{
    office_law();
    let mut lists = Lists::new(alloc, Plain);
    for at in ats {
        let _reply = lists.serve(at);
    }
    lists
}

// The sale at this place.
fn sale_at(sales: &[Sale], at: usize) -> Option<Sale>
    ensures { IfSome result (λ sale. Contains sales.now sale) }
{
    match sales.get(at) {
        Some(sale) => Some(*sale),
        None => None,
    }
}

// Two sales of an office, by their places, whose receipts are one text.
fn of_one_receipt(
    alloc: Global,
    ats: &[Stamped],
    first: usize,
    second: usize,
) -> Option<(Sale, Sale)>
    ensures { IfSome result (λ both. both.0 ≡ both.1) }
{
    receipt_once();
    let lists = listed(alloc, ats);
    let sales = lists.sales();
    let Some(one) = sale_at(sales, first) else {
        return None;
    };
    let Some(other) = sale_at(sales, second) else {
        return None;
    };
    let Ok(text) = receipt(alloc, &one) else {
        return None;
    };
    let Ok(again) = receipt(alloc, &other) else {
        return None;
    };
    if text.as_slice() == again.as_slice() {
        Some((one, other))
    } else {
        None
    }
}

// What books quote for a tender: the purchase of it, by the steps and the tenths of some account.
fn offered(
    alloc: Global,
    ats: &[Stamped],
    moment: Moment,
    meter: &MeterNo,
    tender: Tender,
) -> Option<Quote>
    ensures { IfSome result (λ quote. (account : MeterAccount)
        × (purchase_of account.steps account.prior tender ≡ Some (purchase_in quote))) }
{
    offer_law();
    let Some((mut books, _replies)) = served(alloc, ats, moment) else {
        return None;
    };
    let Ok(found) = books.look_up(moment, &Lookup::Quote(*meter, tender)) else {
        return None;
    };
    match quote_of(&found) {
        Some(quote) => Some(quote),
        None => None,
    }
}

// What is printed of a page that is the last one of its list.
fn last_page_printed(alloc: Global, page: &Found) -> Option<Vec<u8>>
    ensures text { IfSome result (λ text. text.items ≡ page_text false true page.now) }
    ensures last { IfSome result (λ _. list_behind page.now ≡ None) }
{
    let mut text = Vec::new(alloc);
    let mut out = Watched::new(&mut text);
    let Ok(behind) = put_page(alloc, page, false, true, &mut out) else {
        return None;
    };
    let failed = out.has_failed();
    out.into_inner();
    if failed {
        return None;
    }
    match behind {
        None => Some(text),
        Some(_) => None,
    }
}

// What is printed of the sales of books after a number, where one page has them all, beside the
// replies to the requests that made them.
fn sales_printed(
    alloc: Global,
    ats: &[Stamped],
    moment: Moment,
    after: u32,
) -> Option<(Vec<Reply>, Vec<u8>)>
    ensures { IfSome result (λ both. (forward : BlockFunction) × (both.1.items
        ≡ export_of true (filter (λ s. nat_lt after s.number)
        (present (life_of forward ats.now both.0.items)).sales))) }
{
    life_law();
    list_law();
    let Some((mut books, replies)) = served(alloc, ats, moment) else {
        return None;
    };
    let Ok(page) = books.look_up(moment, &Lookup::Sales(after)) else {
        return None;
    };
    match last_page_printed(alloc, &page) {
        Some(text) => Some((replies, text)),
        None => None,
    }
}

// The last sale to a meter in one life, looked up as for a desk and once more as on its file.
fn found_twice(
    alloc: Global,
    ats: &[Stamped],
    moment: Moment,
    meter: &MeterNo,
) -> Option<(Sale, Sale)>
    ensures { IfSome result (λ both. both.0 ≡ both.1) }
{
    at_desk_law();
    let Some((mut books, _replies)) = served(alloc, ats, moment) else {
        return None;
    };
    let Ok(found) = books.look_up(moment, &Lookup::LastSale(*meter)) else {
        return None;
    };
    let Ok(again) = books.look_up(moment, &Lookup::LastSale(*meter)) else {
        return None;
    };
    let Some(first) = sale_of(&found) else {
        return None;
    };
    match sale_of(&again) {
        Some(second) => Some((first, second)),
        None => None,
    }
}

// What an audit of a file prints where it ends as done: the counts of the office that is there.
fn audit_printed<H: OfficeFile>(alloc: Global, office: H, words: &AuditWords) -> Option<Vec<u8>>
    requires { (it : H.Medium) → IsTrue (H.Medium.Disk.is_clean it) }
    ensures { IfSome result (λ text. (audited : Audited)
        × IsCounted (H.image office words.now.file.now) (option_map forward_of words.now.transform)
        audited × (text.items ≡ sound_line audited)) }
{
    sound_law::<H>();
    let mut out = Vec::new(alloc);
    let mut err = Vec::new(alloc);
    let mut watched = Watched::new(&mut out);
    let mut errors = Watched::new(&mut err);
    let mut progress = Nothing;
    let ended = run_audit(
        words,
        alloc,
        office,
        &mut progress,
        &mut watched,
        &mut errors,
    );
    let failed = watched.has_failed();
    watched.into_inner();
    errors.into_inner();
    if failed {
        return None;
    }
    match ended.end {
        CommandEnd::Done => Some(out),
        _ => None,
    }
}

// Files in memory on which books served these requests, as they were closed.
pub(crate) fn files_left(alloc: Global, ats: &[Stamped]) -> Option<Files<Memory>>
    ensures log { IfSome result (λ files. IsTrue (memory_is_usable files.log)) }
    ensures db { IfSome result (λ files. IsTrue (memory_is_usable files.db)) }
{
    let files = Files {
        log: Memory::new(alloc),
        db: Memory::new(alloc),
    };
    let Ok(mut books) = Books::open_files(alloc, files, Options::new(7), Plain) else {
        return None;
    };
    let Ok(_replies) = books.serve_all(ats) else {
        return None;
    };
    match closed(books.into_connection()) {
        Some(left) => Some(left),
        None => None,
    }
}

#[test]
fn a_file_has_the_format_that_is_told(rt: HostRuntime) -> Result<(), Fail> {
    assert_eq!(rt; format_told(), 4);
    Ok(())
}

#[test]
fn a_receipt_is_of_one_sale(rt: HostRuntime) -> Result<(), Fail> {
    let ats = day(rt.alloc(), &["1388534430 sell ann A-2 12345678903 20"])?;
    let (one, other) = of_one_receipt(rt.alloc(), &ats, 1, 1).ok_or("no receipt")?;
    assert_eq!(rt; one.number, 2);
    assert_eq!(rt; other, one);
    assert_eq!(rt; of_one_receipt(rt.alloc(), &ats, 0, 1), None);
    Ok(())
}

#[test]
fn a_quote_is_a_purchase(rt: HostRuntime) -> Result<(), Fail> {
    let ats = day(rt.alloc(), &[])?;
    let meter = meter_no(METER)?;
    let tender = Tender::read(4_900).ok_or("no tender")?;
    let quote = offered(rt.alloc(), &ats, moment(FIRST_DAY)?, &meter, tender).ok_or("no quote")?;
    assert_eq!(rt; quote.tenths.tenths(), 490);
    assert_eq!(rt; quote.price, 4_900);
    Ok(())
}

const SALES: &[u8] =
    b"number,moment,shift,operator,ref,meter,base,tid,tenths,price,tender,change,token\n\
    2,1388534430,1,ann,A-2,12345678903,2014,3,2,20,20,0,00144115200960897899\n";

#[test]
fn a_list_prints_all_sales(rt: HostRuntime) -> Result<(), Fail> {
    let ats = day(rt.alloc(), &["1388534430 sell ann A-2 12345678903 20"])?;
    let (replies, text) = sales_printed(rt.alloc(), &ats, moment(FIRST_DAY)?, 1).ok_or("no list")?;
    assert_eq!(rt; replies.len(), 5);
    assert_eq!(rt; text.as_slice(), SALES);
    Ok(())
}

#[test]
fn a_desk_finds_what_its_file_has(rt: HostRuntime) -> Result<(), Fail> {
    let ats = day(rt.alloc(), &[])?;
    let meter = meter_no(METER)?;
    let (first, second) = found_twice(rt.alloc(), &ats, moment(FIRST_DAY)?, &meter).ok_or(
        "nothing found",
    )?;
    assert_eq!(rt; first.number, 1);
    assert_eq!(rt; second, first);
    Ok(())
}

const SOUND: &[u8] = b"sound format 4 tariffs 1 meters 1 shifts 1 sales 1\n";

#[test]
fn an_audit_prints_what_it_counts(rt: HostRuntime) -> Result<(), Fail> {
    let ats = day(rt.alloc(), &[])?;
    let files = files_left(rt.alloc(), &ats).ok_or("no files")?;
    let words = AuditWords {
        file: "office.db",
        wait: 0,
        transform: None,
    };
    let text = audit_printed(rt.alloc(), KeptFile::<()>::new(files), &words).ok_or("no audit")?;
    assert_eq!(rt; text.as_slice(), SOUND);
    Ok(())
}
