//! Which advice a line has.
ghost use Rattle.std.specs.Prelude.{◌≡◌, MatchBool, MatchOption};
ghost use Rattle.office_rules.specs.Decision.Refusals.{IsOfNoRow};
ghost use Rattle.office_rules.specs.declared.decision.refusal.Refusal.{Refusal as WhyRefused};
ghost use Rattle.terminal_advice.specs.Lines.{IsAdviceOf, IsLineOf, behind_space, cause_in};
ghost use Rattle.terminal_advice.specs.Lines.{other_advice, other_line, row_cause};

use crate::advice::Advice;
use itoa::Buffer;
use office_rules::Refusal;

// The number of a refusal is below this: it has 8 bits.
const NUMBERS: u32 = 256;

// How a line begins that refuses a row of an import, before the number of the row.
const ROW_START: &[u8] = b"refused 14 ImportRow ";

/// The advice for a line by which the program refuses, if it is one.
pub fn advice_of(line: &[u8]) -> Option<Advice>
    ensures { IsAdviceOf line.now result }
{
    match refusal_of(line) {
        Some(refusal) => Some(Advice::Refused(refusal)),
        None => other_advice(line),
    }
}

// The refusal of no row that a line is printed for. The lines of all are compared with it, and so
// nothing reads a number.
fn refusal_of(line: &[u8]) -> Option<Refusal>
    ensures { MatchOption result ((refusal : WhyRefused) → ¬ IsLineOf refusal line.now)
        (λ refusal. IsLineOf refusal line.now) }
{
    for number in 0..NUMBERS {
        if let Some(refusal) = Refusal::of_number(number)
            && is_line_of(refusal, line)
        {
            return Some(refusal);
        }
    }
    None
}

// Whether a line is printed for this refusal, if it is of no row.
fn is_line_of(refusal: Refusal, line: &[u8]) -> bool
    ensures { IsOfNoRow refusal
        → MatchBool result (IsLineOf refusal line.now) (¬ IsLineOf refusal line.now) }
{
    let mut number = Buffer::new();
    let number = number.format(refusal.number()).as_bytes();
    let Some(rest) = line.strip_prefix(b"refused ") else {
        return false;
    };
    let Some(rest) = rest.strip_prefix(number) else {
        return false;
    };
    let Some(name) = rest.strip_prefix(b" ") else {
        return false;
    };
    name == refusal.name().as_bytes()
}

// The advice for a line that is no such refusal's.
#[tactic(auto, unfolding(crate::specs::Lines::other_advice))]
fn other_advice(line: &[u8]) -> Option<Advice>
    ensures { result ≡ other_advice line.now }
{
    if line.starts_with(ROW_START) {
        row_cause(cause_in(line))
    } else {
        other_line(line)
    }
}

/// The cause in a line that refuses a row.
pub(crate) fn cause_in(line: &[u8]) -> &[u8]
    ensures { result.now ≡ cause_in line.now }
{
    behind_space(behind_space(behind_space(behind_space(line))))
}

// What stands behind the first space.
fn behind_space(text: &[u8]) -> &[u8]
    ensures { result.now ≡ behind_space text.now }
{
    match text {
        [] => text,
        [byte, rest @ ..] => {
            if *byte == b' ' {
                rest
            } else {
                behind_space(rest)
            }
        }
    }
}

// The other lines.
#[tactic(auto, unfolding(crate::specs::Lines::other_line))]
fn other_line(line: &[u8]) -> Option<Advice>
    ensures { result ≡ other_line line.now }
{
    if line == b"refused amount".as_slice() {
        Some(Advice::Amount)
    } else if line == b"refused clock".as_slice() {
        Some(Advice::Clock)
    } else if line == b"bad word".as_slice() {
        Some(Advice::Value)
    } else if line == b"give --file or --desk".as_slice() {
        Some(Advice::Place)
    } else if line == b"file".as_slice() {
        Some(Advice::File)
    } else if line == b"net".as_slice() {
        Some(Advice::Net)
    } else if line == b"open 1 NotAnOffice".as_slice() {
        Some(Advice::NotAnOffice)
    } else if line == b"open 3 Store".as_slice() {
        Some(Advice::OpenStore)
    } else if line == b"open 4 Memory".as_slice() {
        Some(Advice::OpenMemory)
    } else if line == b"stopped 16 Store".as_slice() {
        Some(Advice::DeskStopped)
    } else {
        None
    }
}

// Why a row of an import is refused.
#[tactic(auto, unfolding(crate::specs::Lines::row_cause))]
fn row_cause(cause: &[u8]) -> Option<Advice>
    ensures { result ≡ row_cause cause.now }
{
    if cause == b"Header".as_slice() {
        Some(Advice::RowHeader)
    } else if cause == b"Columns".as_slice() {
        Some(Advice::RowColumns)
    } else if cause == b"TooManyRows".as_slice() {
        Some(Advice::RowTooMany)
    } else if cause == b"Differs".as_slice() {
        Some(Advice::RowDiffers)
    } else if cause == b"NoTariff".as_slice() {
        Some(Advice::RowNoTariff)
    } else if cause == b"DayPast".as_slice() {
        Some(Advice::RowDayPast)
    } else if cause.starts_with(b"Field ") {
        Some(Advice::RowField)
    } else {
        None
    }
}
