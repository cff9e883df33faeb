//! A request to an open office, and what is printed of its answer.

ghost use Rattle.std.specs.Prelude.{[], MatchResult};
ghost use Rattle.books.specs.Keeps.{seen};
ghost use Rattle.office_commands.specs.office.Served.{IsServedAndTold, TakesAnswerRoom};
ghost use Rattle.office_commands.specs.office.Served.{TellsAnswer, answer_text};
ghost use Rattle.vend_ports.specs.print.Told.{Takes, outputs};

use books::Books;
use office_rules::{Answer, Moment, Refusal, Request};
use papers::{receipt_in_place, shift_report};
use sqlite::Alter;
use std::alloc::{AllocError, Global};
use std::io::Write;
use sts_token::BlockTransform;
use vend_ports::{CommandEnd, Watched, put_added, put_line, put_refusal, put_shift, put_withdrawn};

/// Asks books for an answer at a moment, and prints it, or tells why it is refused.
///
/// What is printed stands in the office: the books answer after their commit. A receipt takes no
/// memory, so after a sale nothing else is told. Where there is no room for a report, that is told.
pub(crate) fn ask<S: Alter, T: BlockTransform, O: Write, E: Write>(
    alloc: Global,
    books: &mut Books<S, T>,
    moment: Moment,
    request: Request,
    out: &mut Watched<'_, O>,
    err: &mut Watched<'_, E>,
) -> CommandEnd
    ensures { IsServedAndTold moment request (seen books.old) (seen books.new)
        (outputs out.old out.new err.old err.new) result }
{
    match books.ask(moment, request) {
        Ok(answer) => tell_answer(alloc, &answer, out, err),
        Err(refusal) => {
            put_refusal(refusal, err);
            CommandEnd::Refused
        }
    }
}

// Prints an answer, or tells that there was no room for its text.
fn tell_answer<O: Write, E: Write>(
    alloc: Global,
    answer: &Answer,
    out: &mut Watched<'_, O>,
    err: &mut Watched<'_, E>,
) -> CommandEnd
    ensures { TellsAnswer answer.now (outputs out.old out.new err.old err.new) result }
{
    match print_answer(alloc, answer, out) {
        Ok(()) => CommandEnd::Done,
        Err(_) => {
            put_refusal(Refusal::Memory, err);
            CommandEnd::Refused
        }
    }
}

// Prints the text of an answer. Only a report may find no room, and then nothing is printed.
fn print_answer<O: Write>(
    alloc: Global,
    answer: &Answer,
    out: &mut Watched<'_, O>,
) -> Result<(), AllocError>
    ensures { MatchResult result
        (λ _. Takes out.old out.new (answer_text answer.now))
        (λ _. TakesAnswerRoom answer.now × Takes out.old out.new []) }
{
    match answer {
        Answer::Done => put_line(&[b"done"], out),
        Answer::Imported(count) => put_added(*count, out),
        Answer::Withdrawn(count) => put_withdrawn(*count, out),
        Answer::Opened(number) => put_shift(*number, out),
        Answer::Closed(number) => put_shift(*number, out),
        Answer::Sold(sale) => out.put(&receipt_in_place(sale)),
        Answer::Reprinted(sale) => out.put(&receipt_in_place(sale)),
        Answer::Report(shift, sales) => {
            let text = shift_report(alloc, shift, sales.as_slice())?;
            out.put(&text);
        }
    }
    Ok(())
}
