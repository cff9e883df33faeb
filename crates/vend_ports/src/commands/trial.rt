ghost use Rattle.std.specs.Prelude.{⊤, ℕ};
ghost use Rattle.vend_ports.specs.commands.Timed.{IsTimed};
ghost use Rattle.vend_ports.specs.port.Dial.{dial_of};
ghost use Rattle.vend_ports.specs.print.Told.{Takes, outputs};
ghost use Rattle.vend_ports.specs.commands.Tried.{IsTried, token_lines, trial_fault_line};

use crate::clock::moment_or_now;
use crate::command_end::CommandEnd;
use crate::print::lines::{put_line, put_no_moment, put_refusal, put_token};
use crate::print::watched::Watched;
use crate::trials::{TrialFault, trial};
use command_line::TrialWords;
use conversation::Clock;
use office_rules::Refusal;
use std::alloc::Global;
use std::io::Write;
use sts_fields::Moment;

/// Sells at the moment of the words or else of the clock, and prints each token, then why it
/// stopped.
pub fn run<C: Clock, O: Write, E: Write>(
    words: &TrialWords,
    alloc: Global,
    clock: &mut C,
    out: &mut Watched<'_, O>,
    err: &mut Watched<'_, E>,
) -> CommandEnd
    ensures { let o = outputs out.old out.new err.old err.new in
        IsTimed ⊤ words.now.at (dial_of C.Clock clock.old)
        (λ moment. IsTried words.now moment o result) o result }
{
    match moment_or_now(words.at, clock) {
        Some(moment) => try_at(words, alloc, moment, out, err),
        None => {
            put_no_moment(err);
            CommandEnd::Refused
        }
    }
}

// Sells at this moment.
fn try_at<O: Write, E: Write>(
    words: &TrialWords,
    alloc: Global,
    moment: Moment,
    out: &mut Watched<'_, O>,
    err: &mut Watched<'_, E>,
) -> CommandEnd
    ensures { IsTried words.now moment (outputs out.old out.new err.old err.new) result }
{
    let (tokens, fault) = trial(
        alloc,
        &words.transform,
        words.key,
        words.base,
        moment,
        &words.amounts,
    );
    put_tokens(&tokens, out);
    match fault {
        None => CommandEnd::Done,
        Some(fault) => {
            put_fault(fault, err);
            CommandEnd::Refused
        }
    }
}

// Prints each token on a line.
fn put_tokens<O: Write>(tokens: &[[u8; 20]], out: &mut Watched<'_, O>)
    ensures { Takes out.old out.new (token_lines tokens.now) }
{
    for token in tokens {
        put_token(token, out);
    }
}

// Tells why no more was sold.
fn put_fault<E: Write>(fault: TrialFault, err: &mut Watched<'_, E>)
    ensures { Takes err.old err.new (trial_fault_line fault) }
{
    match fault {
        TrialFault::Amount => put_line(&[b"refused", b"amount"], err),
        TrialFault::Tid(fault) => put_refusal(Refusal::from(fault), err),
        TrialFault::Memory => put_refusal(Refusal::Memory, err),
    }
}
