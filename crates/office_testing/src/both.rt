//! The office in its tables beside the office over plain lists, which has to answer the same.

use books::{Books, Totals};
use office_lines::values::{
    FIRST_DAY, METER, OTHER_METER, meter, meter_no, operator, stamped, tariff_name,
};
use office_rules::{Answer, Refusal, Reply, Request, Sale, Stamped};
use sqlite::{Alter, Connection, MemStore};
use std::alloc::Global;
use std::test::Fail;
use sts_fields::Base;
use sts_token::{BlockTransform, Plain};
use tariff::Steps;
use vend_core::Lists;

#[derive(Drop)]
pub struct Both<S: Alter, T: BlockTransform> {
    pub books: Books<S, T>,
    pub lists: Lists<T>,
}

/// Both offices, which are empty.
pub fn in_memory(alloc: Global) -> Result<Both<MemStore, Plain>, Fail> {
    Ok(Both {
        books: Books::in_memory(alloc, Plain)?,
        lists: Lists::new(alloc, Plain),
    })
}

/// Both offices in memory, with an open shift of ann's and two meters on a tariff.
pub fn office(alloc: Global, base: Base, steps: Steps) -> Result<Both<MemStore, Plain>, Fail> {
    let mut both = in_memory(alloc)?;
    furnish(&mut both, base, steps)?;
    Ok(both)
}

// Opens ann's shift, and adds two meters on the tariff `block`.
fn furnish<S: Alter, T: BlockTransform>(
    both: &mut Both<S, T>,
    base: Base,
    steps: Steps,
) -> Result<(), Fail> {
    let on_block = meter(base, b"block")?;
    let requests = [
        Request::AddTariff(tariff_name(b"block")?, steps),
        Request::AddMeter(meter_no(METER)?, on_block),
        Request::AddMeter(meter_no(OTHER_METER)?, on_block),
        Request::OpenShift(operator(b"ann")?),
    ];
    for request in requests {
        let _ = ask(both, FIRST_DAY, request)??;
    }
    Ok(())
}

/// Books over a connection to an office in memory, or to nothing.
pub fn opened_again<T: BlockTransform + Drop>(
    alloc: Global,
    memory: Connection<MemStore>,
    transform: T,
) -> Result<Books<MemStore, T>, Fail> {
    if !memory.is_autocommit() {
        return Err("a transaction is open".into());
    }
    match Books::open_from(alloc, memory, transform) {
        Ok(books) => Ok(books),
        Err((fault, _)) => Err(fault.into()),
    }
}

/// Ends a life as a program that stops: the books are not closed. The lists stay.
pub fn stop<S: Alter + Drop, T: BlockTransform + Drop>(both: Both<S, T>) -> Lists<T> {
    let Both { books, lists } = both;
    drop(books);
    lists
}

// These have no clause, so that the proof of a test does not carry what the books promise.
pub fn serve<S: Alter, T: BlockTransform>(books: &mut Books<S, T>, at: &Stamped) -> Reply {
    books.serve(at)
}

pub fn serve_all<S: Alter, T: BlockTransform>(
    books: &mut Books<S, T>,
    ats: &[Stamped],
) -> Result<Vec<Reply>, Refusal> {
    books.serve_all(ats)
}

fn page<S: Alter, T: BlockTransform>(
    books: &mut Books<S, T>,
    number: u32,
) -> Result<Vec<Sale>, Refusal> {
    books.sales_after(number, 1000)
}

fn totals<S: Alter, T: BlockTransform>(
    books: &mut Books<S, T>,
    number: u32,
) -> Result<Totals, Refusal> {
    books.shift_totals(number)
}

/// The number of the next sale.
pub fn next_number<S: Alter, T: BlockTransform>(books: &Books<S, T>) -> u64 {
    books.next_number()
}

/// The reply that both give. The nibble is that of the next sale's number.
pub fn ask<S: Alter, T: BlockTransform>(
    both: &mut Both<S, T>,
    seconds: i64,
    request: Request,
) -> Result<Reply, Fail> {
    let nibble = (next_number(&both.books) % 16) as u8;
    let at = stamped(seconds, nibble, request)?;
    let reply = serve(&mut both.books, &at);
    let expected = both.lists.serve(&at);
    if is_same(&reply, &expected) {
        return Ok(reply);
    }
    Err(Fail::new(format_args!("{reply:?}, and not {expected:?}")))
}

pub fn sold<S: Alter, T: BlockTransform>(
    both: &mut Both<S, T>,
    seconds: i64,
    request: Request,
) -> Result<Sale, Fail> {
    let reply = ask(both, seconds, request)?;
    match &reply {
        Ok(Answer::Sold(sale)) => Ok(*sale),
        _ => Ok(None.ok_or("not sold")?),
    }
}

/// Both have the same sales and the same shifts, which they show by number, and the books have the
/// totals of these.
pub fn agree<S: Alter, T: BlockTransform>(both: &mut Both<S, T>) -> Result<(), Fail> {
    let mut first = 0;
    for expected in both.lists.sales().chunks(1000) {
        let sales = page(&mut both.books, first)?;
        if sales.as_slice() != expected {
            return Err(Fail::new(format_args!("other sales after {first}")));
        }
        first = expected.last().map_or(first, |sale| sale.number);
    }
    if !page(&mut both.books, first)?.is_empty() {
        return Err(Fail::new(format_args!("sales after the last, {first}")));
    }
    if next_number(&both.books) != u64::from(first).saturating_add(1) {
        return Err(Fail::new(format_args!("another number after {first}")));
    }
    agree_on_shifts(both)?;
    agree_on_totals(&mut both.books, &both.lists)
}

// One shift more than there are, which both refuse.
fn agree_on_shifts<S: Alter, T: BlockTransform>(both: &mut Both<S, T>) -> Result<(), Fail> {
    let last = u32::try_from(both.lists.shifts().len())?.saturating_add(1);
    for number in 1..=last {
        let reply = ask(both, FIRST_DAY, Request::ShiftReport(number))?;
        if reply.is_ok() != (number < last) {
            return Err(Fail::new(format_args!("shift {number}")));
        }
    }
    Ok(())
}

/// The totals of each shift are the count and the sums of the sales that the lists have of it. No
/// other number has any.
pub fn agree_on_totals<S: Alter, T: BlockTransform>(
    books: &mut Books<S, T>,
    lists: &Lists<T>,
) -> Result<(), Fail> {
    let last = u32::try_from(lists.shifts().len())?.saturating_add(1);
    for number in 0..=last {
        let is_there = number > 0 && number < last;
        let is_right = match totals(books, number) {
            Ok(totals) => is_there && totals == totals_of(lists.sales(), number),
            Err(refusal) => !is_there && refusal == Refusal::NoSuchShift,
        };
        if !is_right {
            return Err(Fail::new(format_args!("the totals of shift {number}")));
        }
    }
    Ok(())
}

fn totals_of(sales: &[Sale], shift: u32) -> Totals {
    let (mut count, mut tenths, mut cash) = (0u64, 0u64, 0u64);
    for sale in sales {
        if sale.shift == shift {
            count = count.saturating_add(1);
            tenths = tenths.saturating_add(u64::from(sale.tenths.tenths()));
            cash = cash.saturating_add(u64::from(sale.price));
        }
    }
    Totals {
        sales: count,
        tenths,
        cash,
    }
}

/// Whether two replies are the same to the last field.
pub fn is_same(one: &Reply, other: &Reply) -> bool {
    match (one, other) {
        (Ok(one), Ok(other)) => is_same_answer(one, other),
        (Err(one), Err(other)) => one == other,
        _ => false,
    }
}

fn is_same_answer(one: &Answer, other: &Answer) -> bool {
    match (one, other) {
        (Answer::Done, Answer::Done) => true,
        (Answer::Imported(one), Answer::Imported(other))
        | (Answer::Withdrawn(one), Answer::Withdrawn(other))
        | (Answer::Opened(one), Answer::Opened(other))
        | (Answer::Closed(one), Answer::Closed(other)) => one == other,
        (Answer::Sold(one), Answer::Sold(other))
        | (Answer::Reprinted(one), Answer::Reprinted(other)) => one == other,
        (Answer::Report(shift, sales), Answer::Report(other, others)) => {
            shift == other && sales.as_slice() == others.as_slice()
        }
        _ => false,
    }
}
