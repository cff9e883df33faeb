//! What is printed, by functions without a clause, so that the proof of a test does not carry what
//! `papers` promises. Each paper is printed twice, by itself and behind other bytes.

use office_rules::{Sale, Shift};
use papers::{TextFault, receipt, receipt_text, sales_csv, shift_report, shift_text};
use std::alloc::Global;
use std::io::Write;
use std::process::Abort;
use std::test::Fail;

pub(crate) fn receipt_of(alloc: Global, sale: &Sale) -> Result<Vec<u8>, Fail> {
    Ok(receipt(alloc, sale)?)
}

pub(crate) fn put_receipt<W: Write>(
    alloc: Global,
    sale: &Sale,
    out: &mut W,
) -> Result<(), TextFault> {
    receipt_text(alloc, sale, out)
}

pub(crate) fn report_of(alloc: Global, shift: &Shift, sales: &[Sale]) -> Result<Vec<u8>, Fail> {
    Ok(shift_report(alloc, shift, sales)?)
}

pub(crate) fn put_report<W: Write>(
    alloc: Global,
    shift: &Shift,
    sales: &[Sale],
    out: &mut W,
) -> Result<(), TextFault> {
    shift_text(alloc, shift, sales, out)
}

pub(crate) fn put_export<W: Write>(
    alloc: Global,
    sales: &[Sale],
    header: bool,
    out: &mut W,
) -> Result<(), TextFault> {
    sales_csv(alloc, sales, header, out)
}

/// A paper has this text, by itself and behind these other bytes.
pub(crate) fn is_paper(rt: &impl Abort, paper: &[u8], behind: &[u8], text: &str) {
    assert!(rt; paper == text.as_bytes(), "{paper:?}");
    assert!(rt;
        behind.strip_prefix(b"before\n") == Some(text.as_bytes()),
        "{behind:?}"
    );
}

/// The other bytes.
pub(crate) fn before(alloc: Global) -> Result<Vec<u8>, Fail> {
    Ok(Vec::from_slice(alloc, b"before\n")?)
}
