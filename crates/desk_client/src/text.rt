//! What stands in a text between fixed words, and the numbers that are written there.

ghost use Rattle.std.specs.Prelude.{◌≡◌, ◌≢◌, ◌++◌, ◌<◌, ◌≤◌, ◌^◌, ◌↔◌, ℕ, List, All, MatchOption};
ghost use Rattle.std.specs.Prelude.{[], decimal, false, length, map, slice_index, take, true};
ghost use Rattle.records.specs.Front.{IsFound};
ghost use Rattle.desk_client.specs.Text.{BeginsWithStop, LackStops, LacksStop, is_stop};
ghost use Rattle.records.specs.Record.{now};
ghost use Rattle.desk_client.specs.Text.{woven};

use itoa::Buffer;
use std::str;

// The most values that a text has.
const MOST: usize = 13;

// The values of a text. Where it has fewer than the most, the others are empty.
#[derive(Clone, Copy)]
pub(crate) struct Values<'t> {
    pub(crate) of: [&'t [u8]; MOST],
}

// The values that stand in a text behind its front, each before its end; the whole text is these.
pub(crate) fn read_values<'t>(text: &'t [u8], front: &str, ends: &[&str]) -> Option<Values<'t>>
    requires few { length ends.now ≤ 13 }
    requires stops { All (λ end. BeginsWithStop (now end)) ends.now }
    ensures { MatchOption result
        ((values : List (List ℕ)) → length values ≡ length ends.now → LackStops values
        → text.now ≢ front.now ++ woven values (map now ends.now) [])
        (λ found. LackStops (map now found.of)
        × (text.now ≡ front.now ++ woven (map now found.of) (map now ends.now) [])
        × (length found.of ≡ 13)) }
{
    let Some((values, rest)) = read_front_values(text, front, ends) else {
        return None;
    };
    if rest.is_empty() { Some(values) } else { None }
}

// The same of a text that begins with them, and what follows them.
pub(crate) fn read_front_values<'t>(
    text: &'t [u8],
    front: &str,
    ends: &[&str],
) -> Option<(Values<'t>, &'t [u8])>
    requires few { length ends.now ≤ 13 }
    requires stops { All (λ end. BeginsWithStop (now end)) ends.now }
    ensures { MatchOption result
        ((values : List (List ℕ)) (rest : List ℕ) → length values ≡ length ends.now
        → LackStops values → text.now ≢ front.now ++ woven values (map now ends.now) rest)
        (λ found. LackStops (map now found.0.of)
        × (text.now ≡ front.now ++ woven (map now found.0.of) (map now ends.now) found.1.now)
        × (length found.0.of ≡ 13)) }
{
    let Some(mut rest) = text.strip_prefix(front.as_bytes()) else {
        return None;
    };
    let mut values: [&[u8]; MOST] = [b""; MOST];
    for i in 0..ends.len() {
        let Some((value, behind)) = value_at(rest, ends[i].as_bytes()) else {
            return None;
        };
        values[i] = value;
        rest = behind;
    }
    Some((Values { of: values }, rest))
}

// The value that stands at the front of a text before its end, and what stands behind that.
pub(crate) fn value_at<'t>(text: &'t [u8], end: &[u8]) -> Option<(&'t [u8], &'t [u8])>
    requires { BeginsWithStop end.now }
    ensures { MatchOption result
        ((value rest : List ℕ) → LacksStop value → text.now ≢ value ++ (end.now ++ rest))
        (λ found. LacksStop found.0.now
        × (text.now ≡ found.0.now ++ (end.now ++ found.1.now))) }
{
    let at = len_before_stop(text);
    let (value, rest) = text.split_at(at);
    match rest.strip_prefix(end) {
        Some(rest) => Some((value, rest)),
        None => None,
    }
}

// How many bytes stand in front of the first that ends a value, or all of them.
fn len_before_stop(text: &[u8]) -> usize
    ensures within { result ≤ length text.now }
    ensures before { All (λ byte. is_stop byte ≡ false) (take result text.now) }
    ensures found { result < length text.now → is_stop (slice_index text.now result) ≡ true }
{
    text.iter()
        .position(|byte| matches!(byte, b'"' | b',' | b'}' | b'\r' | b'\n'))
        .unwrap_or(text.len())
}

// What follows a front in a text that begins with it.
pub(crate) fn behind<'t>(text: &'t [u8], front: &[u8]) -> Option<&'t [u8]>
    ensures { MatchOption result ((rest : List ℕ) → text.now ≢ front.now ++ rest)
        (λ rest. text.now ≡ front.now ++ rest.now) }
{
    match text.strip_prefix(front) {
        Some(rest) => Some(rest),
        None => None,
    }
}

// The number that is written so, in decimal digits without leading zeros.
pub(crate) fn number(digits: &[u8]) -> Option<u64>
    ensures { IsFound (λ number. (number < 2 ^ 64) × (digits.now ≡ decimal number)) result }
{
    let Ok(text) = str::from_utf8(digits) else {
        return None;
    };
    let Ok(number) = text.parse::<u64>() else {
        return None;
    };
    let mut written = Buffer::new();
    if written.format(number).as_bytes() == digits {
        Some(number)
    } else {
        None
    }
}

// The same of a number of 32 bits.
pub(crate) fn small_number(digits: &[u8]) -> Option<u32>
    ensures { IsFound (λ number. (number < 2 ^ 32) × (digits.now ≡ decimal number)) result }
{
    match number(digits) {
        Some(number) if number <= u64::from(u32::MAX) => Some(number as u32),
        _ => None,
    }
}
