//! The totals of a shift of an open office, printed.

ghost use Rattle.books.specs.Keeps.{seen};
ghost use Rattle.vend_ports.specs.print.Told.{outputs};
ghost use Rattle.office_commands.specs.print.Totalled.{IsTotalled};

use books::Books;
use desk_commands::put_totals;
use sqlite::Alter;
use std::io::Write;
use sts_token::BlockTransform;
use vend_ports::{CommandEnd, Watched, put_refusal};

/// Prints the totals of the shift of a number (1 to 10^9), or tells why not.
pub(crate) fn print_totals<S: Alter, T: BlockTransform, O: Write, E: Write>(
    books: &mut Books<S, T>,
    number: u32,
    out: &mut Watched<'_, O>,
    err: &mut Watched<'_, E>,
) -> CommandEnd
    ensures { IsTotalled number (seen books.old) (seen books.new)
        (outputs out.old out.new err.old err.new) result }
{
    match books.shift_totals(number) {
        Ok(totals) => {
            put_totals(number, totals, out);
            CommandEnd::Done
        }
        Err(refusal) => {
            put_refusal(refusal, err);
            CommandEnd::Refused
        }
    }
}
