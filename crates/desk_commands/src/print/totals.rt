ghost use Rattle.desk_commands.specs.print.TotalsLine.{totals_line};
ghost use Rattle.vend_ports.specs.print.Told.{Takes};

use book_tables::Totals;
use itoa::Buffer;
use std::io::Write;
use vend_ports::{Watched, put_line};

/// Prints the totals of a shift on a line.
pub fn put_totals<O: Write>(number: u32, totals: Totals, out: &mut Watched<'_, O>)
    ensures { Takes out.old out.new (totals_line number totals) }
{
    let mut shift = Buffer::new();
    let mut sales = Buffer::new();
    let mut tenths = Buffer::new();
    let mut cash = Buffer::new();
    let shift = shift.format(number).as_bytes();
    let sales = sales.format(totals.sales).as_bytes();
    let tenths = tenths.format(totals.tenths).as_bytes();
    let cash = cash.format(totals.cash).as_bytes();
    put_line(
        &[
            b"shift", shift, b"sales", sales, b"tenths", tenths, b"cash", cash,
        ],
        out,
    );
}
