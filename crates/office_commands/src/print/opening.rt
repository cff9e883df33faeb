ghost use Rattle.office_commands.specs.print.Opening.{opening_line};
ghost use Rattle.vend_ports.specs.print.Told.{Takes};

use books::OpenFault;
use itoa::Buffer;
use std::io::Write;
use vend_ports::{Watched, put_line};

/// Tells why an office is not opened.
pub fn put_opening<W: Write>(fault: OpenFault, out: &mut Watched<'_, W>)
    ensures { Takes out.old out.new (opening_line fault) }
{
    let mut number = Buffer::new();
    let number = number.format(fault.number()).as_bytes();
    put_line(&[b"open", number, fault.name().as_bytes()], out);
}
