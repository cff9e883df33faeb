//! The receipt.
use crate::texts::examples::{first_sale, large_sale};
use crate::texts::printed::{before, is_paper, put_receipt, receipt_of};
use office_rules::Sale;
use std::process::Abort;
use std::test::Fail;

fn first() -> &'static str {
    "\
SALE 1
METER 12345678903
TIME 2014-01-01T00:00:30Z
KWH 0.1
PRICE 10
TENDER 10
CHANGE 0
TOKEN 0007 2057 6026 2798 1690
"
}

fn large() -> &'static str {
    "\
SALE 1000000000
METER 12345678903
TIME 2014-01-01T00:00:30Z
KWH 1638.4
PRICE 163840
TENDER 163880
CHANGE 40
TOKEN 0007 2057 6026 2798 1690
"
}

fn has_receipt(rt: &(impl Abort + AllocGlobal), sale: &Sale, text: &str) -> Result<(), Fail> {
    let paper = receipt_of(rt.alloc(), sale)?;
    let mut out = before(rt.alloc())?;
    assert_eq!(rt; put_receipt(rt.alloc(), sale, &mut out), Ok(()));
    is_paper(rt, &paper, &out, text);
    Ok(())
}

#[test]
fn receipts(rt: HostRuntime) -> Result<(), Fail> {
    assert_eq!(rt; first().len(), 118);
    has_receipt(&rt, &first_sale()?, first())?;
    has_receipt(&rt, &large_sale()?, large())
}
