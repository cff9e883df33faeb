//! The lines that the program prints (`specs/print/Printed.antt`). None takes memory.
ghost use Rattle.std.specs.Prelude.{◌≡◌, ◌≢◌, ℕ, IfOk, map, string_bytes};
ghost use Rattle.office_rules.specs.Decision.RowCauses.{cause_text};
ghost use Rattle.vend_ports.specs.print.Printed.{added_line, address_text, answer_line, clock_line};
ghost use Rattle.vend_ports.specs.print.Printed.{credit_line, host_text, joined_line, line_of};
ghost use Rattle.vend_ports.specs.print.Printed.{open_line};
ghost use Rattle.vend_ports.specs.print.Printed.{opened_line, pair_text, progress_line, quote_line};
ghost use Rattle.vend_ports.specs.print.Printed.{read_fault_line, refusal_line, table_row_of};
ghost use Rattle.vend_ports.specs.print.Printed.{shift_line};
ghost use Rattle.vend_ports.specs.print.Printed.{stopped_line, token_line, waiting_line};
ghost use Rattle.vend_ports.specs.print.Printed.{withdrawn_line};
ghost use Rattle.vend_ports.specs.print.Told.{IsPutOn, Takes};

use crate::port::file_fault::FileFault;
use crate::print::watched::Watched;
use arrayvec::ArrayVec;
use command_line::Address;
use itoa::Buffer;
use office_rules::{Refusal, RowCause};
use sim_meter::Answer;
use std::alloc::{AllocError, Global};
use std::io::Write;
use tariff::Buy;

// Room for any line that the program prints: a longer one would only take more than one write.
const LINE_ROOM: usize = 128;

/// Prints words on a line of their own, with a space between them: by one write, where the writer
/// takes it whole, so that the lines of programs that share a log stay whole.
pub fn put_line<W: Write>(words: &[&[u8]], out: &mut Watched<'_, W>)
    ensures { Takes out.old out.new (line_of (map (λ word. word.now) words.now)) }
{
    put_joined(b' ', words, out);
}

/// Prints fields on a line of their own, with a tab between them, as a row of a table. Like
/// `put_line` by one write, where the writer takes the line whole.
pub fn put_row<W: Write>(fields: &[&[u8]], out: &mut Watched<'_, W>)
    ensures { Takes out.old out.new (table_row_of (map (λ field. field.now) fields.now)) }
{
    put_joined(b'\t', fields, out);
}

// Prints words on a line, with this byte between them.
fn put_joined<W: Write>(byte: u8, words: &[&[u8]], out: &mut Watched<'_, W>)
    ensures { Takes out.old out.new (joined_line byte (map (λ word. word.now) words.now)) }
{
    let between: &[u8] = &[byte];
    let mut line = ArrayVec::new();
    let mut separator: &[u8] = b"";
    for word in words {
        add(separator, &mut line, out);
        add(word, &mut line, out);
        separator = between;
    }
    add(b"\n", &mut line, out);
    out.put(&line);
}

// Adds a piece to the part of a line that is not written yet. Where there is no room for it, that
// part and the piece are written.
fn add<W: Write>(piece: &[u8], line: &mut ArrayVec<u8, LINE_ROOM>, out: &mut Watched<'_, W>)
    ensures { IsPutOn out.old out.new line.old.items line.new.items piece.now }
{
    match line.try_extend_from_slice(piece) {
        Ok(()) => {}
        Err(_) => {
            out.put(line);
            line.clear();
            out.put(piece);
        }
    }
}

/// Prints a token.
pub(crate) fn put_token<W: Write>(token: &[u8; 20], out: &mut Watched<'_, W>)
    ensures { Takes out.old out.new (token_line token.now) }
{
    put_line(&[token], out);
}

/// Prints what a meter answers to a token.
pub(crate) fn put_answer<W: Write>(answer: Answer, out: &mut Watched<'_, W>)
    ensures { Takes out.old out.new (answer_line answer) }
{
    let mut number = Buffer::new();
    match answer {
        Answer::Accepted(amount) => {
            let tenths = number.format(amount.tenths());
            put_line(&[b"accepted", tenths.as_bytes()], out);
        }
        Answer::Used => put_line(&[b"used"], out),
        Answer::Old => put_line(&[b"old"], out),
        Answer::Refused(fault) => {
            let number = number.format(fault.number()).as_bytes();
            put_line(&[b"refused", number, fault.name().as_bytes()], out);
        }
    }
}

/// Prints the credit of a meter, in tenths of a kWh.
pub(crate) fn put_credit<W: Write>(tenths: u64, out: &mut Watched<'_, W>)
    ensures { Takes out.old out.new (credit_line tenths) }
{
    let mut number = Buffer::new();
    put_line(&[b"credit", number.format(tenths).as_bytes()], out);
}

/// Prints what a tender buys.
pub fn put_quote<W: Write>(bought: &Buy, out: &mut Watched<'_, W>)
    ensures { Takes out.old out.new (quote_line bought.now) }
{
    let mut tenths = Buffer::new();
    let mut price = Buffer::new();
    let mut change = Buffer::new();
    let tenths = tenths.format(bought.tenths.tenths()).as_bytes();
    let price = price.format(bought.price).as_bytes();
    let change = change.format(bought.change).as_bytes();
    put_line(&[tenths, price, change], out);
}

/// Prints how many rows an import added.
pub fn put_added<W: Write>(count: u32, out: &mut Watched<'_, W>)
    ensures { Takes out.old out.new (added_line count) }
{
    let mut number = Buffer::new();
    put_line(&[b"added", number.format(count).as_bytes()], out);
}

/// Prints how many lists of steps were withdrawn.
pub fn put_withdrawn<W: Write>(count: u32, out: &mut Watched<'_, W>)
    ensures { Takes out.old out.new (withdrawn_line count) }
{
    let mut number = Buffer::new();
    put_line(&[b"withdrawn", number.format(count).as_bytes()], out);
}

/// Prints how far an export is.
pub fn put_progress<W: Write>(printed: u64, all: u64, out: &mut Watched<'_, W>)
    ensures { Takes out.old out.new (progress_line printed all) }
{
    let mut some = Buffer::new();
    let mut whole = Buffer::new();
    let printed = some.format(printed).as_bytes();
    let all = whole.format(all).as_bytes();
    put_line(&[printed, b"of", all, b"sales"], out);
}

/// Prints that a file is open.
pub fn put_opened<W: Write>(out: &mut Watched<'_, W>)
    ensures { Takes out.old out.new opened_line }
{
    put_line(&[b"opened"], out);
}

/// Prints that a command waits for a desk.
pub fn put_waiting<W: Write>(out: &mut Watched<'_, W>)
    ensures { Takes out.old out.new waiting_line }
{
    put_line(&[b"waiting", b"for", b"the", b"desk"], out);
}

/// Prints the number of a shift.
pub fn put_shift<W: Write>(shift: u32, out: &mut Watched<'_, W>)
    ensures { Takes out.old out.new (shift_line shift) }
{
    let mut number = Buffer::new();
    put_line(&[b"shift", number.format(shift).as_bytes()], out);
}

/// The text of an address, at this port.
///
/// # Errors
/// `AllocError` if there is no memory.
pub fn address_text(alloc: Global, address: Address, port: u16) -> Result<String, AllocError>
    ensures { IfOk result (λ text. string_bytes text ≡ address_text address port) }
{
    let host = host_text(alloc, address)?;
    format!(in alloc; "{host}:{port}")
}

// The numbers of an address.
fn host_text(alloc: Global, address: Address) -> Result<String, AllocError>
    ensures { IfOk result (λ text. string_bytes text ≡ host_text address) }
{
    let front = pair_text(alloc, address.first, address.second)?;
    let back = pair_text(alloc, address.third, address.fourth)?;
    format!(in alloc; "{front}.{back}")
}

// Two of them.
fn pair_text(alloc: Global, one: u8, next: u8) -> Result<String, AllocError>
    ensures { IfOk result (λ text. string_bytes text ≡ pair_text one next) }
{
    format!(in alloc; "{one}.{next}")
}

/// Tells that the clock has no moment.
pub fn put_no_moment<W: Write>(out: &mut Watched<'_, W>)
    ensures { Takes out.old out.new clock_line }
{
    put_line(&[b"refused", b"clock"], out);
}

/// Tells that the books have stopped: a request was refused for the store, and none is answered
/// until they are opened again.
pub fn put_stopped<W: Write>(out: &mut Watched<'_, W>)
    ensures { Takes out.old out.new stopped_line }
{
    let mut number = Buffer::new();
    let number = number.format(Refusal::Store.number()).as_bytes();
    put_line(&[b"stopped", number, Refusal::Store.name().as_bytes()], out);
}

/// Tells that books that had stopped are open again.
pub fn put_open<W: Write>(out: &mut Watched<'_, W>)
    ensures { Takes out.old out.new open_line }
{
    put_line(&[b"open"], out);
}

/// Tells a refusal of the office.
pub fn put_refusal<W: Write>(refusal: Refusal, out: &mut Watched<'_, W>)
    ensures { Takes out.old out.new (refusal_line refusal) }
{
    let mut number = Buffer::new();
    let number = number.format(refusal.number()).as_bytes();
    let name = refusal.name().as_bytes();
    match refusal {
        Refusal::ImportRow(row, RowCause::Field(field)) => {
            let mut place = Buffer::new();
            let mut which = Buffer::new();
            let row = place.format(row).as_bytes();
            let field = which.format(field).as_bytes();
            put_line(&[b"refused", number, name, row, b"Field", field], out);
        }
        Refusal::ImportRow(row, cause) => {
            let mut place = Buffer::new();
            let row = place.format(row).as_bytes();
            put_line(&[b"refused", number, name, row, cause_name(cause)], out);
        }
        _ => put_line(&[b"refused", number, name], out),
    }
}

/// Tells why a file is not read.
pub fn put_read_fault<E: Write>(fault: FileFault, err: &mut Watched<'_, E>)
    ensures { Takes err.old err.new (read_fault_line fault) }
{
    match fault {
        FileFault::Unreadable => put_line(&[b"file"], err),
        FileFault::Memory => put_refusal(Refusal::Memory, err),
    }
}

// Why a row is refused, but for the number of its field.
fn cause_name(cause: RowCause) -> &'static [u8]
    ensures { ((field : ℕ) → cause ≢ RowCause.Field field) → result.now ≡ cause_text cause }
{
    match cause {
        RowCause::Header => b"Header",
        RowCause::Columns => b"Columns",
        RowCause::Field(_) => b"Field",
        RowCause::TooManyRows => b"TooManyRows",
        RowCause::Differs => b"Differs",
        RowCause::NoTariff => b"NoTariff",
        RowCause::DayPast => b"DayPast",
    }
}
