ghost use Rattle.std.specs.Prelude.{◌≡◌, ◌∷◌, ◌++◌, [], List, map};
ghost use Rattle.sim_meter.specs.Meter.{ComesFrom};
ghost use Rattle.sts_token.specs.Meter.{Entry, Reader};
ghost use Rattle.sts_token.specs.Reading.{reading_of};
ghost use Rattle.vend_ports.specs.commands.Metered.{entry_of, metering, metering_of, word_line};
ghost use Rattle.vend_ports.specs.print.Told.{Takes};

use crate::command_end::CommandEnd;
use crate::print::lines::{put_answer, put_credit, put_line};
use crate::print::watched::Watched;
use command_line::MeterWords;
use sim_meter::Meter;
use std::io::Write;
use sts_token::BlockTransform;

/// Prints what the meter answers to each token, and then its credit.
pub fn run<O: Write>(words: &MeterWords, out: &mut Watched<'_, O>) -> CommandEnd
    ensures told { Takes out.old out.new (metering_of words.now) }
    ensures end { result ≡ CommandEnd.Done }
{
    enter_all(words.transform, words.key, words.tokens, out);
    CommandEnd::Done
}

// Enters the words into a new meter, and prints what it answers and its credit.
fn enter_all<T: BlockTransform + Drop, O: Write>(
    transform: T,
    key: u64,
    tokens: &[&str],
    out: &mut Watched<'_, O>,
)
    ensures { Takes out.old out.new
        (metering (reading_of (T.inverses transform) key) (map (λ w. w.now) tokens.now)) }
{
    let mut meter = Meter::new(transform, key);
    for token in tokens {
        enter(&mut meter, token, out);
    }
    put_credit(meter.credit(), out);
}

// Enters a word into a meter and prints what it answers, or clears the meter.
fn enter<T: BlockTransform, O: Write>(meter: &mut Meter<T>, word: &str, out: &mut Watched<'_, O>)
    ensures entered { (reader : Reader) (history : List Entry)
        → ComesFrom T.inverses reader history meter.old
        → ComesFrom T.inverses reader (history ++ entry_of word.now ∷ []) meter.new }
    ensures told { (reader : Reader) (history : List Entry)
        → ComesFrom T.inverses reader history meter.old
        → Takes out.old out.new
        (word_line reader history word.now) }
{
    match word {
        "clear" => {
            meter.clear();
            put_line(&[b"cleared"], out);
        }
        _ => put_answer(meter.enter(word.as_bytes()), out),
    }
}
