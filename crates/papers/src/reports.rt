ghost use Rattle.std.specs.Prelude.{◌≡◌, ◌+◌, ◌++◌, ◌∷◌, ℕ, List, length, IfOk, OnOk};
ghost use Rattle.office_rules.specs.declared.office.sale.Sale.{Sale};
ghost use Rattle.office_rules.specs.declared.office.shift.Shift.{Shift};
ghost use Rattle.papers.specs.Output.{BlamesWriter, IsWritten};
ghost use Rattle.papers.specs.Report.{report_of, sale_line, shift_head, sum_of_tenths, totals_text};
ghost use Rattle.office_rules.specs.Law.Cash.{cash_of};

use crate::fault::TextFault;
use crate::lines::{change, put_line, put_number};
use crate::outlet::Outlet;
use crate::output::write_whole;
use crate::room::{closed_text, time_text};
use office_rules::{Moment, Sale, Shift};
use std::alloc::{AllocError, Global};

/// The report of a shift with these sales (`docs/TEXTS.md`, "Shift report"), or want of memory.
///
/// # Errors
/// `AllocError` if there is no memory.
pub fn shift_report(alloc: Global, shift: &Shift, sales: &[Sale]) -> Result<Vec<u8>, AllocError>
    ensures { IfOk result (λ text. text.items ≡ report_of shift.now sales.now) }
{
    let mut text = Vec::new(alloc);
    put_shift(alloc, &mut text, shift)?;
    for sale in sales {
        put_sale(alloc, &mut text, sale)?;
    }
    put_number(alloc, &mut text, "SALES", sales.len() as u128)?;
    put_number(alloc, &mut text, "TENTHS", tenths(sales))?;
    put_number(alloc, &mut text, "CASH", cash(sales))?;
    Ok(text)
}

/// Writes the report of a shift with these sales (`docs/TEXTS.md`, "Shift report").
pub fn shift_text<W: Outlet>(
    alloc: Global,
    shift: &Shift,
    sales: &[Sale],
    out: &mut W,
) -> Result<(), TextFault>
    ensures written { IsWritten (W.contents out.old) (W.contents out.new)
        (report_of shift.now sales.now) result }
    ensures failed { BlamesWriter result (W.failed out.new) }
{
    let text = shift_report(alloc, shift, sales)?;
    write_whole(&text, out)
}

/// What a report says of its sales: a line for each of them, and at its end how many they all are,
/// their tenths and their prices, which are those of its parts together.
pub fn report_law()
    ensures totals { (shift : Shift) (sales : List Sale) → (front : List ℕ) × (report_of shift sales
        ≡ front ++ totals_text (length sales) (sum_of_tenths sales) (cash_of sales)) }
    ensures each_sale { (shift : Shift) (before after : List Sale) (s : Sale)
        → (front back : List ℕ)
        × (report_of shift (before ++ s ∷ after) ≡ front ++ sale_line s ++ back) }
    ensures parts { (a b : List Sale) → (length (a ++ b) ≡ length a + length b)
        × (sum_of_tenths (a ++ b) ≡ sum_of_tenths a + sum_of_tenths b)
        × (cash_of (a ++ b) ≡ cash_of a + cash_of b) }
{}

// Adds the lines of a shift and its times.
fn put_shift(alloc: Global, text: &mut Vec<u8>, shift: &Shift) -> Result<(), AllocError>
    ensures { OnOk result (text.new.items ≡ text.old.items ++ shift_head shift.now) }
{
    let mut name = format!(in alloc; "{} ", shift.number)?.into_bytes();
    name.extend_from_slice(shift.operator.as_bytes())?;
    put_line(text, "SHIFT", &name)?;
    put_line(text, "OPENED", &time_text(shift.opened))?;
    put_line(text, "CLOSED", &closed_text(shift.closed))
}

// Adds the line of a sale.
fn put_sale(alloc: Global, text: &mut Vec<u8>, sale: &Sale) -> Result<(), AllocError>
    ensures { OnOk result (text.new.items ≡ text.old.items ++ sale_line sale.now) }
{
    let number = format!(in alloc; "{:>10} ", sale.number)?;
    let amounts = format!(in alloc;
        " {:>8} {:>9} {:>9} {:>9}\n",
        sale.tenths.tenths(),
        sale.price,
        sale.tender.cents(),
        change(sale)
    )?;
    text.extend_from_slice(number.as_bytes())?;
    text.extend_from_slice(sale.meter.as_bytes())?;
    text.extend_from_slice(amounts.as_bytes())
}

// The tenths of some sales, added.
fn tenths(sales: &[Sale]) -> u128
    ensures { result ≡ sum_of_tenths sales.now }
{
    let mut sum = 0;
    for sale in sales {
        sum += u128::from(sale.tenths.tenths());
    }
    sum
}

// The prices of some sales, added.
fn cash(sales: &[Sale]) -> u128
    ensures { result ≡ cash_of sales.now }
{
    let mut sum = 0;
    for sale in sales {
        sum += u128::from(sale.price);
    }
    sum
}
