//! A sale as JSON, written as it stands in room of its own: it takes no memory.

ghost use Rattle.std.specs.Prelude.{◌≡◌, ◌+◌, ◌≤◌, ◌++◌, length, decimal};
ghost use Rattle.arrayvec.specs.ArrayVec.{array_vec_len};
ghost use Rattle.papers.specs.Text.{change_of};
ghost use Rattle.desk_messages.specs.reply.Records.{sale_text};

use arrayvec::ArrayVec;
use itoa::Buffer;
use office_rules::{Moment, Sale};

// The text of a sale has this room, and needs less.
pub(crate) const SALE_ROOM: usize = 400;

// The text of a sale.
pub(crate) fn sale_text(sale: &Sale) -> ArrayVec<u8, SALE_ROOM>
    ensures { result.items ≡ sale_text sale.now }
{
    let mut text = ArrayVec::new();
    put(&mut text, b"{\"base\":");
    put_number(&mut text, u64::from(sale.base.year()));
    put(&mut text, b",\"change\":");
    put_number(&mut text, u64::from(change(sale)));
    put(&mut text, b",\"meter\":\"");
    put(&mut text, sale.meter.as_bytes());
    put(&mut text, b"\",\"moment\":");
    put_number(&mut text, seconds(sale.moment));
    put(&mut text, b",\"number\":");
    put_number(&mut text, u64::from(sale.number));
    put(&mut text, b",\"operator\":\"");
    put(&mut text, sale.operator.as_bytes());
    put(&mut text, b"\",\"price\":");
    put_number(&mut text, u64::from(sale.price));
    put(&mut text, b",\"ref\":\"");
    put(&mut text, sale.order_ref.as_bytes());
    put(&mut text, b"\",\"shift\":");
    put_number(&mut text, u64::from(sale.shift));
    put(&mut text, b",\"tender\":");
    put_number(&mut text, u64::from(sale.tender.cents()));
    put(&mut text, b",\"tenths\":");
    put_number(&mut text, u64::from(sale.tenths.tenths()));
    put(&mut text, b",\"tid\":");
    put_number(&mut text, u64::from(sale.tid));
    put(&mut text, b",\"token\":\"");
    put(&mut text, &sale.digits);
    put(&mut text, b"\"}");
    text
}

// What a customer gets back of the tender; a price is at most its tender, so nothing is cut off.
pub(crate) fn change(sale: &Sale) -> u32
    ensures { result ≡ change_of sale.now }
{
    sale.tender.cents().saturating_sub(sale.price)
}

// The Unix seconds of a moment, none of which lies before 1970.
pub(crate) fn seconds(moment: Moment) -> u64
    ensures { result ≡ moment }
{
    moment.secs() as u64
}

// Adds a piece to a text that has room for it.
fn put<const ROOM: usize>(text: &mut ArrayVec<u8, ROOM>, piece: &[u8])
    requires { array_vec_len text.old + length piece.now ≤ ROOM }
    ensures items { text.new.items ≡ text.old.items ++ piece.now }
    ensures len { array_vec_len text.new ≡ array_vec_len text.old + length piece.now }
{
    // It fits.
    let _ = text.try_extend_from_slice(piece);
}

// Adds the digits of a number. It is inlined: calls of it took 110 instructions more a sale.
#[inline(always)]
fn put_number<const ROOM: usize>(text: &mut ArrayVec<u8, ROOM>, number: u64)
    requires { array_vec_len text.old + 20 ≤ ROOM }
    ensures items { text.new.items ≡ text.old.items ++ decimal number }
    ensures len { array_vec_len text.new ≤ array_vec_len text.old + 20 }
{
    let mut digits = Buffer::new();
    put(text, digits.format(number).as_bytes());
}
