//! The second line.
ghost use Rattle.std.specs.Prelude.{Bool, false, map};
ghost use Rattle.terminal_advice.specs.Advised.{AddsForm, IsPut};
ghost use Rattle.terminal_advice.specs.LastLine.{IsKept, Line};
ghost use Rattle.vend_ports.specs.print.Printed.{line_of};
ghost use Rattle.vend_ports.specs.print.Told.{IsTaken};

use crate::advice::Advice;
use crate::closer::closer;
use crate::last_line::LastLine;
use crate::lines::advice_of;
use crate::look::Look;
use std::alloc::Global;
use std::io::Write;
use vend_ports::{Watched, put_line};

/// Puts the advice for a last line behind it.
#[tactic(auto, using(crate::proofs::AdvisedLemmas::adds_unended, crate::proofs::AdvisedLemmas::adds_some))]
pub(crate) fn advise<L: Look, E: Write>(
    alloc: Global,
    words: &[&str],
    look: &L,
    last: &LastLine,
    err: &mut E,
)
    ensures { (line : Line) → IsKept line last.now
        → AddsForm line (E.contents err.old) (E.contents err.new) }
{
    if !last.ended {
        return;
    }
    let Some(general) = advice_of(&last.bytes) else {
        return;
    };
    let advice = closer(alloc, words, look, &last.bytes, general);
    put_advice(advice, err);
}

/// Puts this advice, in one line.
pub(crate) fn put_advice<E: Write>(advice: Advice, err: &mut E)
    ensures { IsPut advice (E.contents err.old) (E.contents err.new) }
{
    let reason = advice.reason().as_bytes();
    let remedy = advice.remedy().as_bytes();
    put_words(&[reason, remedy], err);
}

/// Puts these words in one line, with a space between them.
pub(crate) fn put_words<E: Write>(words: &[&[u8]], err: &mut E)
    ensures { (failed : Bool) × IsTaken false failed (E.contents err.old) (E.contents err.new)
        (line_of (map (λ w. w.now) words.now)) }
{
    let mut watched = Watched::new(err);
    put_line(words, &mut watched);
    watched.into_inner();
}
