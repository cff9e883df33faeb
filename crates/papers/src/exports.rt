ghost use Rattle.std.specs.Prelude.{◌≡◌, ◌++◌, ℕ, List, IfOk, OnOk, map};
ghost use Rattle.papers.specs.Export.{HasRecords, export_of, record_text, sale_record};
ghost use Rattle.papers.specs.Output.{BlamesWriter, IsWritten};

use crate::fault::TextFault;
use crate::lines::{change, decimal};
use crate::outlet::Outlet;
use crate::output::write_whole;
use csv::{Writer, WriterBuilder};
use office_rules::Sale;
use std::alloc::{AllocError, Global};

// The names of the fields of an export.
const HEADER: [&[u8]; 13] = [
    b"number",
    b"moment",
    b"shift",
    b"operator",
    b"ref",
    b"meter",
    b"base",
    b"tid",
    b"tenths",
    b"price",
    b"tender",
    b"change",
    b"token",
];

/// Writes sales as CSV (`docs/TEXTS.md`, "Sales export"), behind the header where it is asked for.
pub fn sales_csv<W: Outlet>(
    alloc: Global,
    sales: &[Sale],
    header: bool,
    out: &mut W,
) -> Result<(), TextFault>
    ensures written { IsWritten (W.contents out.old) (W.contents out.new)
        (export_of header sales.now) result }
    ensures failed { BlamesWriter result (W.failed out.new) }
{
    let text = export(alloc, sales, header)?;
    write_whole(&text, out)
}

/// The export of some sales, behind the header where it is asked for, or want of memory.
///
/// # Errors
/// `AllocError` if there is no memory.
pub fn export(alloc: Global, sales: &[Sale], header: bool) -> Result<Vec<u8>, AllocError>
    ensures { IfOk result (λ text. text.items ≡ export_of header sales.now) }
{
    let mut writer = WriterBuilder::new().from_writer(Vec::new(alloc));
    if header {
        put_record(&mut writer, &HEADER)?;
    }
    for sale in sales {
        put_sale(alloc, &mut writer, sale)?;
    }
    writer.into_inner().map_err(|_| AllocError)
}

// Adds the record of a sale.
fn put_sale(alloc: Global, writer: &mut Writer<Vec<u8>>, sale: &Sale) -> Result<(), AllocError>
    ensures { (text : List ℕ) → HasRecords writer.old text
        → OnOk result (HasRecords writer.new (text ++ sale_record sale.now)) }
{
    let number = decimal(alloc, u128::from(sale.number))?;
    let moment = decimal(alloc, sale.moment.secs() as u128)?;
    let shift = decimal(alloc, u128::from(sale.shift))?;
    let base = decimal(alloc, u128::from(sale.base.year()))?;
    let tid = decimal(alloc, u128::from(sale.tid))?;
    let tenths = decimal(alloc, u128::from(sale.tenths.tenths()))?;
    let price = decimal(alloc, u128::from(sale.price))?;
    let tender = decimal(alloc, u128::from(sale.tender.cents()))?;
    let change = decimal(alloc, u128::from(change(sale)))?;
    let fields = [
        number.as_bytes(),
        moment.as_bytes(),
        shift.as_bytes(),
        sale.operator.as_bytes(),
        sale.order_ref.as_bytes(),
        sale.meter.as_bytes(),
        base.as_bytes(),
        tid.as_bytes(),
        tenths.as_bytes(),
        price.as_bytes(),
        tender.as_bytes(),
        change.as_bytes(),
        sale.digits.as_slice(),
    ];
    put_record(writer, &fields)
}

// Adds a record of these fields.
fn put_record(writer: &mut Writer<Vec<u8>>, fields: &[&[u8]]) -> Result<(), AllocError>
    ensures { (text : List ℕ) → HasRecords writer.old text
        → OnOk result (HasRecords writer.new (text ++ record_text (map (λ f. f.now) fields.now))) }
{
    writer.write_fields(fields).map_err(|_| AllocError)
}
