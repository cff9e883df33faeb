ghost use Rattle.std.specs.Prelude.{◌≡◌, IfOk};
ghost use Rattle.papers.specs.Output.{BlamesWriter, IsWritten};
ghost use Rattle.papers.specs.Receipt.{receipt_of};

use crate::fault::TextFault;
use crate::lines::change;
use crate::outlet::Outlet;
use crate::output::write_whole;
use crate::room::{grouped, kwh_text, put_count, put_entry, time_text};
use arrayvec::ArrayVec;
use office_rules::Sale;
use std::alloc::{AllocError, Global};

/// A receipt has this room, and needs less.
pub const RECEIPT_ROOM: usize = 192;

/// The receipt of a sale (`docs/TEXTS.md`, "Receipt"), in room of its own.
pub fn receipt_in_place(sale: &Sale) -> ArrayVec<u8, RECEIPT_ROOM>
    ensures { result.items ≡ receipt_of sale.now }
{
    let mut text = ArrayVec::new();
    put_count(&mut text, b"SALE", sale.number);
    put_entry(&mut text, b"METER", sale.meter.as_bytes());
    put_entry(&mut text, b"TIME", &time_text(sale.moment));
    put_entry(&mut text, b"KWH", &kwh_text(sale.tenths.tenths()));
    put_count(&mut text, b"PRICE", sale.price);
    put_count(&mut text, b"TENDER", sale.tender.cents());
    put_count(&mut text, b"CHANGE", change(sale));
    put_entry(&mut text, b"TOKEN", &grouped(&sale.digits));
    text
}

/// The receipt of a sale, or want of memory.
///
/// # Errors
/// `AllocError` if there is no memory.
pub fn receipt(alloc: Global, sale: &Sale) -> Result<Vec<u8>, AllocError>
    ensures { IfOk result (λ text. text.items ≡ receipt_of sale.now) }
{
    Vec::from_slice(alloc, &receipt_in_place(sale))
}

/// Writes the receipt of a sale, made whole before.
pub fn receipt_text<W: Outlet>(alloc: Global, sale: &Sale, out: &mut W) -> Result<(), TextFault>
    ensures written { IsWritten (W.contents out.old) (W.contents out.new) (receipt_of sale.now)
        result }
    ensures failed { BlamesWriter result (W.failed out.new) }
{
    let text = receipt(alloc, sale)?;
    write_whole(&text, out)
}
