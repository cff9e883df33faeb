//! Texts that bring their own room along: they take no memory.

ghost use Rattle.std.specs.Prelude.{◌≡◌, ◌+◌, ◌≤◌, ◌++◌, length, decimal};
ghost use Rattle.arrayvec.specs.ArrayVec.{array_vec_len};
ghost use Rattle.papers.specs.Report.{closed_text};
ghost use Rattle.papers.specs.Text.{grouped, kwh_text, line, time_text};
ghost use Rattle.sts_fields.specs.Day.{two_digits};

use arrayvec::ArrayVec;
use itoa::Buffer;
use sts_fields::{Moment, civil};

/// A date with a time of day fills this room.
pub(crate) const TIME_ROOM: usize = 20;

/// Adds a piece to a text that has room for it.
pub(crate) fn put<const ROOM: usize>(text: &mut ArrayVec<u8, ROOM>, piece: &[u8])
    requires { array_vec_len text.old + length piece.now ≤ ROOM }
    ensures items { text.new.items ≡ text.old.items ++ piece.now }
    ensures len { array_vec_len text.new ≡ array_vec_len text.old + length piece.now }
{
    // It fits.
    let _ = text.try_extend_from_slice(piece);
}

/// Adds a line: a word, a space and its value.
pub(crate) fn put_entry<const ROOM: usize>(text: &mut ArrayVec<u8, ROOM>, word: &[u8], value: &[u8])
    requires { array_vec_len text.old + (length word.now + length value.now + 2) ≤ ROOM }
    ensures items { text.new.items ≡ text.old.items ++ line word.now value.now }
    ensures len { array_vec_len text.new
        ≡ array_vec_len text.old + (length word.now + length value.now + 2) }
{
    put(text, word);
    put(text, b" ");
    put(text, value);
    put(text, b"\n");
}

/// Adds the line of a word and a number.
pub(crate) fn put_count<const ROOM: usize>(text: &mut ArrayVec<u8, ROOM>, word: &[u8], number: u32)
    requires { array_vec_len text.old + (length word.now + 12) ≤ ROOM }
    ensures items { text.new.items ≡ text.old.items ++ line word.now (decimal number) }
    ensures len { array_vec_len text.new ≤ array_vec_len text.old + (length word.now + 12) }
{
    let mut digits = Buffer::new();
    put_entry(text, word, digits.format(number).as_bytes());
}

// Adds a number below a hundred in two digits.
fn put_two<const ROOM: usize>(text: &mut ArrayVec<u8, ROOM>, number: u8)
    requires { array_vec_len text.old + 2 ≤ ROOM }
    ensures items { text.new.items ≡ text.old.items ++ two_digits number }
    ensures len { array_vec_len text.new ≡ array_vec_len text.old + 2 }
{
    put(text, &[b'0' + number / 10, b'0' + number % 10]);
}

/// The date and the time of day at a moment, in UTC.
pub(crate) fn time_text(moment: Moment) -> ArrayVec<u8, TIME_ROOM>
    ensures { result.items ≡ time_text moment }
{
    let shown = civil(moment).unwrap();
    let mut text = ArrayVec::new();
    put_two(&mut text, (shown.year / 100) as u8);
    put_two(&mut text, (shown.year % 100) as u8);
    put(&mut text, b"-");
    put_two(&mut text, shown.month);
    put(&mut text, b"-");
    put_two(&mut text, shown.day);
    put(&mut text, b"T");
    put_two(&mut text, shown.hour);
    put(&mut text, b":");
    put_two(&mut text, shown.minute);
    put(&mut text, b":");
    put_two(&mut text, shown.second);
    put(&mut text, b"Z");
    text
}

/// When a shift was closed, or a hyphen while it is open.
pub(crate) fn closed_text(closed: Option<Moment>) -> ArrayVec<u8, TIME_ROOM>
    ensures { result.items ≡ closed_text closed }
{
    match closed {
        Some(moment) => time_text(moment),
        None => {
            let mut text = ArrayVec::new();
            put(&mut text, b"-");
            text
        }
    }
}

/// An energy in kWh, of so many tenths.
pub(crate) fn kwh_text(tenths: u32) -> ArrayVec<u8, 21>
    ensures { result.items ≡ kwh_text tenths }
{
    let mut whole = Buffer::new();
    let mut rest = Buffer::new();
    let mut text = ArrayVec::new();
    put(&mut text, whole.format(tenths / 10).as_bytes());
    put(&mut text, b".");
    put(&mut text, rest.format(tenths % 10).as_bytes());
    text
}

/// The digits of a token, in five groups of four.
pub(crate) fn grouped(digits: &[u8; 20]) -> ArrayVec<u8, 24>
    ensures { result.items ≡ grouped digits.now }
{
    let mut text = ArrayVec::new();
    put(&mut text, &digits[..4]);
    for group in 1..5 {
        put(&mut text, b" ");
        put(&mut text, &digits[4 * group..4 * group + 4]);
    }
    text
}
