ghost use Rattle.sqlite.specs.Steps.{over_memory};
ghost use Rattle.books.specs.Keeps.{seen};
ghost use Rattle.command_line.specs.Transform.{forward_of, shipped};
ghost use Rattle.vend_commands.specs.commands.Selfchecked.{AgreesOver, Disagrees, IsSelfchecked};
ghost use Rattle.vend_commands.specs.commands.Selfchecked.{selfcheck_fault_line};
ghost use Rattle.vend_ports.specs.print.Told.{Takes, outputs};

use crate::selfcheck::fault::SelfcheckFault;
use crate::selfcheck::selfcheck;
use command_line::SelfcheckWords;
use office_commands::put_opening;
use std::alloc::Global;
use std::io::Write;
use vend_ports::{CommandEnd, Loopback, Watched, put_line, put_refusal};

/// Prints that the same replies came over a connection, or tells why they did not.
pub fn run_selfcheck<L: Loopback, O: Write, E: Write>(
    words: &SelfcheckWords,
    alloc: Global,
    loopback: L,
    out: &mut Watched<'_, O>,
    err: &mut Watched<'_, E>,
) -> CommandEnd
    ensures { IsSelfchecked (AgreesOver L.Loopback L.Stream.remaining L.Stream.contents loopback
        (forward_of words.now.transform))
        (Disagrees L.Loopback L.Stream.remaining L.Stream.contents loopback
        (forward_of words.now.transform) (seen {g = over_memory} {h = shipped}))
        (outputs out.old out.new err.old err.new) result }
{
    match selfcheck(alloc, loopback, words.transform) {
        Ok(()) => {
            put_line(&[b"selfcheck", b"ok"], out);
            CommandEnd::Done
        }
        Err(fault) => {
            put_selfcheck_fault(fault, err);
            CommandEnd::Refused
        }
    }
}

// Tells why the same replies did not come.
fn put_selfcheck_fault<E: Write>(fault: SelfcheckFault, err: &mut Watched<'_, E>)
    ensures { Takes err.old err.new (selfcheck_fault_line fault) }
{
    match fault {
        SelfcheckFault::Net => put_line(&[b"net"], err),
        SelfcheckFault::Unopened(fault) => put_opening(fault, err),
        SelfcheckFault::Refused(refusal) => put_refusal(refusal, err),
    }
}
