ghost use Rattle.std.specs.Prelude.{◌≡◌, ◌<◌, ◌≤◌, All, false, length, slice_index, take, true};
ghost use Rattle.conversation.specs.message.Target.{behind_authority, behind_origin};
ghost use Rattle.conversation.specs.message.Target.{ends_authority, has_scheme, path_of};

// The path and the query that a target asks for.
pub(crate) fn path_of(target: &[u8]) -> &[u8]
    ensures { result.now ≡ path_of target.now }
{
    match target {
        [] | [b'/', ..] => target,
        _ => behind_origin(target),
    }
}

// What stands behind a scheme and an authority, where the target has them.
#[tactic(auto, unfolding(crate::specs::message::Target::behind_origin))]
fn behind_origin(target: &[u8]) -> &[u8]
    ensures { result.now ≡ behind_origin target.now }
{
    if has_scheme(target, b"http://") {
        return behind_authority(&target[7..]);
    }
    if has_scheme(target, b"https://") {
        return behind_authority(&target[8..]);
    }
    target
}

// Whether the target begins with the scheme, in any case.
fn has_scheme(target: &[u8], scheme: &[u8]) -> bool
    ensures { result ≡ has_scheme scheme.now target.now }
{
    target.len() >= scheme.len() && target[..scheme.len()].eq_ignore_ascii_case(scheme)
}

// What stands behind an authority.
fn behind_authority(text: &[u8]) -> &[u8]
    ensures { result.now ≡ behind_authority text.now }
{
    let at = authority_len(text);
    &text[at..]
}

// How many bytes of the text are an authority.
fn authority_len(text: &[u8]) -> usize
    ensures within { result ≤ length text.now }
    ensures before { All (λ byte. ends_authority byte ≡ false) (take result text.now) }
    ensures found { result < length text.now
        → ends_authority (slice_index text.now result) ≡ true }
{
    text.iter()
        .position(|byte| ends_authority(*byte))
        .unwrap_or(text.len())
}

// Whether an authority ends before this byte.
fn ends_authority(byte: u8) -> bool
    ensures { result ≡ ends_authority byte }
{
    byte == b'/' || byte == b'?'
}
