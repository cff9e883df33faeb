ghost use Rattle.std.specs.Prelude.{◌≡◌, ◌≢◌, ◌^◌, ◌<◌, ◌↔◌, ℕ, List, IsTrue, MatchOption, decimal};
ghost use Rattle.tariff.specs.declared.step.Step.{Step};
ghost use Rattle.tariff.specs.Pieces.{AreFirst, HasLead};
ghost use Rattle.tariff.specs.StepsText.{IsStepsText, IsWritable, step_text};

use crate::check::MAX_STEPS;
use crate::step::Step;
use std::str;

// The steps of a text: the first eight, and how many there are, where nine stands for more too.
#[derive(Clone, Copy)]
pub(crate) struct Pieces {
    pub(crate) first: [Step; MAX_STEPS],
    pub(crate) count: usize,
}

// The steps that a text is written from, or none where it is no text of steps.
pub(crate) fn read_pieces(text: &[u8]) -> Option<Pieces>
    ensures { MatchOption result ((steps : List Step) → ¬ IsStepsText text.now steps)
        (λ p. (steps : List Step) × IsStepsText text.now steps × AreFirst steps p.first p.count) }
{
    match str::from_utf8(text) {
        Ok(text) => cut_pieces(text),
        Err(_) => None,
    }
}

// The same, of a text whose bytes are known to be UTF-8.
fn cut_pieces(text: &str) -> Option<Pieces>
    ensures { MatchOption result ((steps : List Step) → ¬ IsStepsText text.now steps)
        (λ p. (steps : List Step) × IsStepsText text.now steps × AreFirst steps p.first p.count) }
{
    let mut first = [Step {
        ends: None,
        price: 0,
    }; MAX_STEPS];
    let mut count = 0;
    for piece in text.split(';') {
        let step = read_step(piece)?;
        if count < MAX_STEPS {
            first[count] = step;
        }
        count = MAX_STEPS.min(count) + 1;
    }
    Some(Pieces { first, count })
}

// The step that a piece of a text is written from.
fn read_step(piece: &str) -> Option<Step>
    ensures { MatchOption result ((s : Step) → IsWritable s → piece.now ≢ step_text s)
        (λ s. IsWritable s × (piece.now ≡ step_text s)) }
{
    let (ends, price) = piece.split_once(':')?;
    let ends = if ends.is_empty() {
        None
    } else {
        Some(read_number(ends)?)
    };
    let price = read_number(price)?;
    Some(Step { ends, price })
}

// The number of 32 bits that digits write, without a sign and without leading zeros.
fn read_number(digits: &str) -> Option<u32>
    ensures { MatchOption result ((n : ℕ) → n < 2 ^ 32 → digits.now ≢ decimal n)
        (λ n. digits.now ≡ decimal n) }
{
    if has_lead(digits) {
        return None;
    }
    digits.parse().ok()
}

// Whether a plus stands first, or a zero before other digits, which `parse` would take.
fn has_lead(digits: &str) -> bool
    ensures { IsTrue result ↔ HasLead digits.now }
{
    match digits.as_bytes().first() {
        Some(b'+') => true,
        Some(b'0') => digits.len() > 1,
        _ => false,
    }
}
