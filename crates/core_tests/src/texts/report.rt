//! The shift report.
use crate::texts::examples::{first_sale, first_shift, large_sale};
use crate::texts::printed::{before, is_paper, put_report, report_of};
use office_rules::{Sale, Shift};
use std::alloc::Global;
use std::process::Abort;
use std::test::Fail;
use sts_fields::Moment;

fn closed() -> &'static str {
    "\
SHIFT 1 ann
OPENED 2014-01-01T08:00:00Z
CLOSED 2014-01-01T16:00:00Z
SALES 0
TENTHS 0
CASH 0
"
}

fn one() -> &'static str {
    "\
SHIFT 1 ann
OPENED 2014-01-01T08:00:00Z
CLOSED -
\u{20}        1 12345678903        1        10        10         0
SALES 1
TENTHS 1
CASH 10
"
}

fn two() -> &'static str {
    "\
SHIFT 1 ann
OPENED 2014-01-01T08:00:00Z
CLOSED -
\u{20}        1 12345678903        1        10        10         0
1000000000 12345678903    16384    163840    163880        40
SALES 2
TENTHS 16385
CASH 163850
"
}

fn sales(alloc: Global) -> Result<Vec<Sale>, Fail> {
    let mut sales = Vec::new(alloc);
    sales.push(first_sale()?)?;
    sales.push(large_sale()?)?;
    Ok(sales)
}

// The report on so many sales.
fn has_report(
    rt: &(impl Abort + AllocGlobal),
    shift: &Shift,
    count: usize,
    text: &str,
) -> Result<(), Fail> {
    let sales = sales(rt.alloc())?;
    let sales = sales.get(..count).ok_or("sales")?;
    let paper = report_of(rt.alloc(), shift, sales)?;
    let mut out = before(rt.alloc())?;
    assert_eq!(rt; put_report(rt.alloc(), shift, sales, &mut out), Ok(()));
    is_paper(rt, &paper, &out, text);
    Ok(())
}

#[test]
fn reports(rt: HostRuntime) -> Result<(), Fail> {
    has_report(
        &rt,
        &first_shift(Moment::of_secs(1_388_592_000))?,
        0,
        closed(),
    )?;
    let open = first_shift(None)?;
    has_report(&rt, &open, 1, one())?;
    has_report(&rt, &open, 2, two())
}

// A thousand and three sales of a tenth for ten cents each: 49 bytes, 62 for each, and 34.
#[test]
fn a_long_report(rt: HostRuntime) -> Result<(), Fail> {
    let sales: Vec<Sale> = vec![in rt.alloc(); first_sale()?; 1003]?;
    let text = report_of(rt.alloc(), &first_shift(None)?, &sales)?;
    assert_eq!(rt; text.len(), 49 + 1003 * 62 + 34);
    assert!(rt; text.ends_with(b"SALES 1003\nTENTHS 1003\nCASH 10030\n"));
    Ok(())
}
