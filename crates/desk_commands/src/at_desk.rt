//! An ask to a running desk: what a command with `--desk` asks, and what it prints of the reply.

ghost use Rattle.std.specs.Prelude.{◌≡◌, [], IfErr, IfOk, MatchResult};
ghost use Rattle.desk_commands.specs.AskedOfDesk.{AreRowsFor, HasNoRows, IsAsked};
ghost use Rattle.desk_commands.specs.AskedOfDesk.{IsAskedOfDesk, NeedsRoom};
ghost use Rattle.desk_commands.specs.AskedOfDesk.{SaleNeedsRoom, TellsGranted, TellsTold};
ghost use Rattle.desk_commands.specs.AskedOfDesk.{granted_output, rows_fault_line};
ghost use Rattle.desk_commands.specs.AskedOfDesk.{told_sale_text};
ghost use Rattle.desk_commands.specs.Exchanged.{calls_of};
ghost use Rattle.vend_ports.specs.port.Texts.{texts_of};
ghost use Rattle.vend_ports.specs.print.Told.{Takes, outputs};

use crate::exchange::exchange;
use crate::list_at_desk::list;
use crate::print::found::put_found;
use crate::print::totals::put_totals;
use asks::{Ask, Csv, Lookup};
use book_states::Found;
use command_line::{Address, AskWords};
use conversation::MAX_BODY;
use desk_client::{Granted, Told, answer_in, message, wanted_by};
use office_rules::{Refusal, Sale};
use papers::receipt_in_place;
use std::alloc::{AllocError, Global};
use std::io::Write;
use vend_ports::{
    CommandEnd, FileFault, Loopback, TextFiles, Watched, put_added, put_line, put_no_moment,
    put_read_fault, put_refusal, put_shift, put_withdrawn,
};

/// Why a desk is not asked to add the rows of a file.
#[derive(Clone, Copy, Debug, PartialEq, Eq)]
pub enum RowsFault {
    Unread(FileFault),
    /// It has more bytes than a desk takes.
    TooLong,
}

/// Asks a desk, and prints what the command on the file would print where it answered so; or tells
/// that no reply came, or why the desk is not asked.
pub fn run<F: TextFiles, L: Loopback, O: Write, E: Write>(
    desk: Address,
    ask: &AskWords<'_>,
    json: bool,
    alloc: Global,
    texts: F,
    loopback: L,
    out: &mut Watched<'_, O>,
    err: &mut Watched<'_, E>,
) -> CommandEnd
    ensures { IsAskedOfDesk (texts_of F.TextFiles texts)
        (calls_of L.Loopback L.Stream.remaining L.Stream.contents loopback) (L.leaves L loopback)
        desk ask.now json (outputs out.old out.new err.old err.new) result }
{
    match ask {
        AskWords::Import(kind, path) => match rows_for(path, texts) {
            Ok(rows) => {
                let ask = Ask::Import(*kind, Csv::new(&rows));
                ask_one(alloc, desk, &ask, json, loopback, out, err)
            }
            Err(fault) => {
                L::leave(loopback);
                put_rows_fault(fault, err);
                CommandEnd::Refused
            }
        },
        AskWords::Ask(ask) => {
            F::leave(texts);
            ask_one(alloc, desk, ask, json, loopback, out, err)
        }
        AskWords::List(lookup) => {
            F::leave(texts);
            list(alloc, desk, *lookup, json, loopback, out, err)
        }
        AskWords::Export => {
            F::leave(texts);
            list(alloc, desk, Lookup::Sales(0), false, loopback, out, err)
        }
    }
}

// The rows that a desk is asked to add: the bytes of the file of a path.
fn rows_for<F: TextFiles>(path: &str, texts: F) -> Result<Vec<u8>, RowsFault>
    ensures rows { IfOk result
        (λ rows. AreRowsFor (texts_of F.TextFiles texts) path.now rows.items) }
    ensures none { IfErr result (HasNoRows (texts_of F.TextFiles texts) path.now) }
{
    match texts.read(path) {
        Ok(bytes) if bytes.len() <= MAX_BODY => Ok(bytes),
        Ok(_) => Err(RowsFault::TooLong),
        Err(fault) => Err(RowsFault::Unread(fault)),
    }
}

// Sends a desk one message, and prints what the reply tells; or tells that none came.
fn ask_one<L: Loopback, O: Write, E: Write>(
    alloc: Global,
    desk: Address,
    ask: &Ask<'_>,
    json: bool,
    loopback: L,
    out: &mut Watched<'_, O>,
    err: &mut Watched<'_, E>,
) -> CommandEnd
    ensures { IsAsked (calls_of L.Loopback L.Stream.remaining L.Stream.contents loopback)
        (L.leaves L loopback) desk json ask.now
        (outputs out.old out.new err.old err.new) result }
{
    let Ok(message) = message(alloc, ask) else {
        L::leave(loopback);
        put_refusal(Refusal::Memory, err);
        return CommandEnd::Refused;
    };
    match exchange(alloc, loopback, desk, &message, wanted_by(ask)) {
        Some(came) => match answer_in(ask, &came) {
            Some(told) => tell(alloc, ask, json, &told, out, err),
            None => {
                put_line(&[b"net"], err);
                CommandEnd::Refused
            }
        },
        None => {
            put_line(&[b"net"], err);
            CommandEnd::Refused
        }
    }
}

// Prints what a reply tells.
fn tell<O: Write, E: Write>(
    alloc: Global,
    ask: &Ask<'_>,
    json: bool,
    told: &Told,
    out: &mut Watched<'_, O>,
    err: &mut Watched<'_, E>,
) -> CommandEnd
    ensures { TellsTold json ask.now told.now
        (outputs out.old out.new err.old err.new) result }
{
    match told {
        Told::Granted(granted) => tell_granted(alloc, ask, json, granted, out, err),
        Told::Refused(refusal) => {
            put_refusal(*refusal, err);
            CommandEnd::Refused
        }
        Told::NoMoment => {
            put_no_moment(err);
            CommandEnd::Refused
        }
    }
}

// Prints what is granted, or tells that there was no room for its text.
fn tell_granted<O: Write, E: Write>(
    alloc: Global,
    ask: &Ask<'_>,
    json: bool,
    granted: &Granted,
    out: &mut Watched<'_, O>,
    err: &mut Watched<'_, E>,
) -> CommandEnd
    ensures { TellsGranted json ask.now granted.now
        (outputs out.old out.new err.old err.new) result }
{
    match put_granted(alloc, ask, json, granted, out) {
        Ok(()) => CommandEnd::Done,
        Err(_) => {
            put_refusal(Refusal::Memory, err);
            CommandEnd::Refused
        }
    }
}

// Prints what is granted. Only what was looked up may find no room, and then nothing is printed.
fn put_granted<O: Write>(
    alloc: Global,
    ask: &Ask<'_>,
    json: bool,
    granted: &Granted,
    out: &mut Watched<'_, O>,
) -> Result<(), AllocError>
    ensures { MatchResult result
        (λ _. Takes out.old out.new (granted_output json ask.now granted.now))
        (λ _. NeedsRoom json ask.now granted.now
        × Takes out.old out.new []) }
{
    match granted {
        Granted::Done => put_line(&[b"done"], out),
        Granted::Imported(count) => put_added(*count, out),
        Granted::Withdrawn(count) => put_withdrawn(*count, out),
        Granted::Shift(number) => put_shift(*number, out),
        Granted::Sale(sale) => return put_told_sale(alloc, ask, json, sale, out),
        Granted::Paper(text) | Granted::Page(text) => out.put(text),
        Granted::Meter(meter) => {
            let lookup = Lookup::Meter(meter.number);
            return put_found(alloc, &lookup, &Found::Meter(*meter), json, out);
        }
        Granted::Quote(quote) => {
            let lookup = Lookup::Quote(quote.meter, quote.tender);
            return put_found(alloc, &lookup, &Found::Quote(*quote), json, out);
        }
        Granted::Totals(shift, totals) => put_totals(*shift, *totals, out),
    }
    Ok(())
}

// Prints a sale: one that was sold as its receipt, and one that was looked up as `show sale` does.
fn put_told_sale<O: Write>(
    alloc: Global,
    ask: &Ask<'_>,
    json: bool,
    sale: &Sale,
    out: &mut Watched<'_, O>,
) -> Result<(), AllocError>
    ensures { MatchResult result
        (λ _. Takes out.old out.new (told_sale_text json ask.now sale.now))
        (λ _. SaleNeedsRoom json ask.now sale.now
        × Takes out.old out.new []) }
{
    match ask {
        Ask::Look(lookup) => put_found(alloc, lookup, &Found::Sale(*sale), json, out),
        _ => {
            out.put(&receipt_in_place(sale));
            Ok(())
        }
    }
}

// Tells why a desk is not asked to add rows.
fn put_rows_fault<E: Write>(fault: RowsFault, err: &mut Watched<'_, E>)
    ensures { Takes err.old err.new (rows_fault_line fault) }
{
    match fault {
        RowsFault::Unread(fault) => put_read_fault(fault, err),
        RowsFault::TooLong => put_line(&[b"file"], err),
    }
}
