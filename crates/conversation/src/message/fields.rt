ghost use Rattle.std.specs.Prelude.{◌≡◌, length, All};
ghost use Rattle.std.specs.Str.{str_eq_ignore_ascii_case};
ghost use Rattle.httparse.specs.Spans.{IsHeaderWithin};
ghost use Rattle.conversation.specs.message.Fields.{IsOnly, fields_at, values_of};

use httparse::spans::HeaderSpan;

/// The values of the fields of one name.
#[derive(Clone, Copy)]
pub(crate) enum Only<'a> {
    Absent,
    One(&'a [u8]),
    Several,
}

// The value of the field of this name, if there is one and no other.
pub(crate) fn only_value<'a>(input: &'a [u8], spans: &[HeaderSpan], name: &[u8]) -> Only<'a>
    requires { All (IsHeaderWithin (length input.now)) spans.now }
    ensures { IsOnly (values_of name.now (fields_at input.now spans.now)) result }
{
    let mut only = Only::Absent;
    for field in spans {
        if is_same(field.name.of(input), name) {
            match only {
                Only::Absent => only = Only::One(field.value.of(input)),
                _ => return Only::Several,
            }
        }
    }
    only
}

// Whether the bytes are the same, but for the case of ASCII letters. Most names have the case that
// they are asked for in, which takes fewer steps to see.
fn is_same(a: &[u8], b: &[u8]) -> bool
    ensures { result ≡ str_eq_ignore_ascii_case a.now b.now }
{
    a == b || a.eq_ignore_ascii_case(b)
}
