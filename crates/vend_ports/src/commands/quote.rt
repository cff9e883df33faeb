ghost use Rattle.vend_ports.specs.commands.Quoted.{PrintsQuote};
ghost use Rattle.vend_ports.specs.print.Told.{outputs};

use crate::command_end::CommandEnd;
use crate::print::lines::{put_quote, put_refusal};
use crate::print::watched::Watched;
use command_line::QuoteWords;
use office_rules::Refusal;
use std::io::Write;
use tariff::buy;

/// Prints the tenths, the price and the change, or why nothing is bought.
pub fn run<O: Write, E: Write>(
    words: &QuoteWords,
    out: &mut Watched<'_, O>,
    err: &mut Watched<'_, E>,
) -> CommandEnd
    ensures { PrintsQuote words.now (outputs out.old out.new err.old err.new) result }
{
    match buy(&words.steps, words.prior, words.tender) {
        Some(bought) => {
            put_quote(&bought, out);
            CommandEnd::Done
        }
        None => {
            put_refusal(Refusal::TooLittle, err);
            CommandEnd::Refused
        }
    }
}
