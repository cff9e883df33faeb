//! A moment as receipts and reports write it.

ghost use Rattle.std.specs.Prelude.{◌≡◌, ◌+◌, ◌≤◌, ◌++◌, length};
ghost use Rattle.arrayvec.specs.ArrayVec.{array_vec_len};
ghost use Rattle.papers.specs.Text.{time_text};
ghost use Rattle.sts_fields.specs.Day.{two_digits};

use arrayvec::ArrayVec;
use sts_fields::{Moment, civil};

/// A date with a time of day fills this room, and leaves some behind it.
pub(crate) const ROOM: usize = 32;

/// Adds a piece to a text that has room for it.
pub(crate) fn put(text: &mut ArrayVec<u8, ROOM>, piece: &[u8])
    requires { array_vec_len text.old + length piece.now ≤ 32 }
    ensures items { text.new.items ≡ text.old.items ++ piece.now }
    ensures len { array_vec_len text.new ≡ array_vec_len text.old + length piece.now }
{
    // It fits.
    let _ = text.try_extend_from_slice(piece);
}

// Adds a number below a hundred in two digits.
fn put_two(text: &mut ArrayVec<u8, ROOM>, number: u8)
    requires { array_vec_len text.old + 2 ≤ 32 }
    ensures items { text.new.items ≡ text.old.items ++ two_digits number }
    ensures len { array_vec_len text.new ≡ array_vec_len text.old + 2 }
{
    put(text, &[b'0' + number / 10, b'0' + number % 10]);
}

/// The date and the time of day at a moment, in UTC.
pub(crate) fn time_text(moment: Moment) -> ArrayVec<u8, ROOM>
    ensures items { result.items ≡ time_text moment }
    ensures len { array_vec_len result ≡ 20 }
{
    let shown = civil(moment).unwrap();
    let mut text = ArrayVec::new();
    put_two(&mut text, (shown.year / 100) as u8);
    put_two(&mut text, (shown.year % 100) as u8);
    put(&mut text, b"-");
    put_two(&mut text, shown.month);
    put(&mut text, b"-");
    put_two(&mut text, shown.day);
    put(&mut text, b"T");
    put_two(&mut text, shown.hour);
    put(&mut text, b":");
    put_two(&mut text, shown.minute);
    put(&mut text, b":");
    put_two(&mut text, shown.second);
    put(&mut text, b"Z");
    text
}
