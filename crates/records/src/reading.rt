//! Cells at the front of texts.

ghost use Rattle.std.specs.Prelude.{◌≡◌, ◌≢◌, ◌++◌, ◌∷◌, ◌<◌, ◌≤◌, ◌^◌, ◌↔◌, ℕ, List, All};
ghost use Rattle.std.specs.Prelude.{IsTrue, MatchOption, decimal, false, length, slice_index};
ghost use Rattle.std.specs.Prelude.{take, true};
ghost use Rattle.records.specs.Cell.{Held, IsBare, IsPlain, IsTellable, cell_text, held};
ghost use Rattle.records.specs.Cell.{in_quotes, is_plain};
ghost use Rattle.records.specs.Front.{BeginsWithStop, IsFound, LacksStop, is_stop};
ghost use Rattle.records.specs.Record.{comma_if};

use crate::cell::Cell;
use itoa::Buffer;
use std::str;

// The cell that stands at the front of a text behind its name, in front of a comma or a brace, and
// the text from there on.
pub(crate) fn member_at<'t>(text: &'t [u8], later: bool, name: &str) -> Option<(Cell<'t>, &'t [u8])>
    ensures { MatchOption result
        ((cell : Held) (rest : List ℕ) → IsTellable cell → BeginsWithStop rest → text.now
        ≢ comma_if later ++ (in_quotes name.now ++ (58 ∷ (cell_text cell ++ rest))))
        (λ found. IsTellable (held found.0) × BeginsWithStop found.1.now × (text.now
        ≡ comma_if later ++ (in_quotes name.now ++ (58 ∷ (cell_text (held found.0)
        ++ found.1.now))))) }
{
    match behind_name(text, later, name) {
        Some(rest) => cell_at(rest),
        None => None,
    }
}

// What follows a name and its colon in a text that begins with them, behind a comma where members
// stand before.
pub(crate) fn behind_name<'t>(text: &'t [u8], later: bool, name: &str) -> Option<&'t [u8]>
    ensures { MatchOption result
        ((rest : List ℕ) → text.now ≢ comma_if later ++ (in_quotes name.now ++ (58 ∷ rest)))
        (λ rest. text.now ≡ comma_if later ++ (in_quotes name.now ++ (58 ∷ rest.now))) }
{
    let Some(quoted) = behind_comma(text, later) else {
        return None;
    };
    let Some(named) = behind(quoted, b"\"") else {
        return None;
    };
    let Some(rest) = behind(named, name.as_bytes()) else {
        return None;
    };
    behind(rest, b"\":")
}

// What follows a comma in a text that begins with it; the whole text where no members stand before.
fn behind_comma(text: &[u8], later: bool) -> Option<&[u8]>
    ensures { MatchOption result ((rest : List ℕ) → text.now ≢ comma_if later ++ rest)
        (λ rest. text.now ≡ comma_if later ++ rest.now) }
{
    if later {
        behind(text, b",")
    } else {
        Some(text)
    }
}

// The cell that stands at the front of a text, in front of a comma or a brace, and the text from
// there on.
fn cell_at(text: &[u8]) -> Option<(Cell<'_>, &[u8])>
    ensures { MatchOption result
        ((cell : Held) (rest : List ℕ) → IsTellable cell → BeginsWithStop rest
        → text.now ≢ cell_text cell ++ rest)
        (λ found. IsTellable (held found.0) × BeginsWithStop found.1.now
        × (text.now ≡ cell_text (held found.0) ++ found.1.now)) }
{
    match behind(text, b"\"") {
        Some(quoted) => quoted_at(quoted),
        None => bare_at(text),
    }
}

// The same of a text that begins behind a quotation mark.
fn quoted_at(quoted: &[u8]) -> Option<(Cell<'_>, &[u8])>
    ensures { MatchOption result
        ((bytes rest : List ℕ) → IsPlain bytes → BeginsWithStop rest
        → quoted.now ≢ bytes ++ 34 ∷ rest)
        (λ found. IsTellable (held found.0) × BeginsWithStop found.1.now
        × (34 ∷ quoted.now ≡ cell_text (held found.0) ++ found.1.now)) }
{
    let Some((bytes, rest)) = text_at(quoted) else {
        return None;
    };
    if begins_with_stop(rest) {
        Some((Cell::Text(bytes), rest))
    } else {
        None
    }
}

// The same of a text that begins with no quotation mark.
fn bare_at(text: &[u8]) -> Option<(Cell<'_>, &[u8])>
    ensures { MatchOption result
        ((cell : Held) (rest : List ℕ) → IsTellable cell → IsBare cell → BeginsWithStop rest
        → text.now ≢ cell_text cell ++ rest)
        (λ found. IsTellable (held found.0) × BeginsWithStop found.1.now
        × (text.now ≡ cell_text (held found.0) ++ found.1.now)) }
{
    let Some((word, rest)) = word_at(text) else {
        return None;
    };
    match word_of(word) {
        Some(cell) => Some((cell, rest)),
        None => None,
    }
}

// The plain text that stands in front of a quotation mark, and what follows the mark.
fn text_at(quoted: &[u8]) -> Option<(&[u8], &[u8])>
    ensures { MatchOption result
        ((bytes rest : List ℕ) → IsPlain bytes → quoted.now ≢ bytes ++ 34 ∷ rest)
        (λ found. IsPlain found.0.now × (quoted.now ≡ found.0.now ++ 34 ∷ found.1.now)) }
{
    let (bytes, rest) = quoted.split_at(plain_len(quoted));
    match behind(rest, b"\"") {
        Some(rest) => Some((bytes, rest)),
        None => None,
    }
}

// How many plain bytes a text begins with.
pub(crate) fn plain_len(text: &[u8]) -> usize
    ensures within { result ≤ length text.now }
    ensures before { All (λ byte. is_plain byte ≡ true) (take result text.now) }
    ensures found { result < length text.now → is_plain (slice_index text.now result) ≡ false }
{
    text.iter()
        .position(|byte| !matches!(byte, b' ' | b'!' | b'#'..=b'[' | b']'..=b'~'))
        .unwrap_or(text.len())
}

// What stands in front of the first comma or brace of a text, and the text from there on.
fn word_at(text: &[u8]) -> Option<(&[u8], &[u8])>
    ensures { MatchOption result
        ((word rest : List ℕ) → LacksStop word → BeginsWithStop rest → text.now ≢ word ++ rest)
        (λ found. LacksStop found.0.now × BeginsWithStop found.1.now
        × (text.now ≡ found.0.now ++ found.1.now)) }
{
    let (word, rest) = text.split_at(word_len(text));
    if begins_with_stop(rest) {
        Some((word, rest))
    } else {
        None
    }
}

// How many bytes stand in front of the first comma or brace of a text, or all of them.
fn word_len(text: &[u8]) -> usize
    ensures within { result ≤ length text.now }
    ensures before { All (λ byte. is_stop byte ≡ false) (take result text.now) }
    ensures found { result < length text.now → is_stop (slice_index text.now result) ≡ true }
{
    text.iter()
        .position(|byte| matches!(byte, b',' | b'}'))
        .unwrap_or(text.len())
}

// Whether a text begins with a comma or a brace.
fn begins_with_stop(text: &[u8]) -> bool
    ensures { IsTrue result ↔ BeginsWithStop text.now }
{
    matches!(text, [b',' | b'}', ..])
}

// The cell that a word without quotation marks is.
fn word_of<'t>(word: &[u8]) -> Option<Cell<'t>>
    ensures { MatchOption result
        ((cell : Held) → IsTellable cell → IsBare cell → word.now ≢ cell_text cell)
        (λ cell. IsTellable (held cell) × (word.now ≡ cell_text (held cell))) }
{
    if word == b"null".as_slice() {
        return Some(Cell::Nothing);
    }
    match read_number(word) {
        Some(number) => Some(Cell::Number(number)),
        None => None,
    }
}

// What follows a front in a text that begins with it.
pub(crate) fn behind<'t>(text: &'t [u8], front: &[u8]) -> Option<&'t [u8]>
    ensures { MatchOption result ((rest : List ℕ) → text.now ≢ front.now ++ rest)
        (λ rest. text.now ≡ front.now ++ rest.now) }
{
    match text.strip_prefix(front) {
        Some(rest) => Some(rest),
        None => None,
    }
}

// The number that is written so, in decimal digits without leading zeros.
pub fn read_number(digits: &[u8]) -> Option<u64>
    ensures { IsFound (λ number. (number < 2 ^ 64) × (digits.now ≡ decimal number)) result }
{
    let Ok(text) = str::from_utf8(digits) else {
        return None;
    };
    let Ok(number) = text.parse::<u64>() else {
        return None;
    };
    let mut written = Buffer::new();
    if written.format(number).as_bytes() == digits {
        Some(number)
    } else {
        None
    }
}
