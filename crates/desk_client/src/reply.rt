//! The replies of a desk, as they come.

ghost use Rattle.std.specs.Prelude.{◌≡◌, ◌≢◌, ◌^◌, ◌<◌, ◌↔◌, ℕ, IsTrue, List, MatchOption, Option};
ghost use Rattle.desk_client.specs.Reply.{HasNoHead, IsReplyReading, IsRefusing, MayBegin};
ghost use Rattle.desk_client.specs.Reply.{head_bytes};
ghost use Rattle.desk_client.specs.Start.{IsDated};
ghost use Rattle.desk_client.specs.Told.{IsStart};
ghost use Rattle.desk_client.specs.declared.start.Start.{Start};

use crate::start::{Start, begins_as, head_at};
use crate::told::{Told, granted_start, read_told};
use asks::Grants;

/// The bytes of a head, at most: the longest that a desk writes has fewer.
pub const MAX_HEAD: usize = 140;

/// The bytes of a body, at most: 64 MiB, which is the report of a shift with hundreds of thousands
/// of sales. All other bodies are short.
pub const MAX_BODY: u64 = 67_108_864;

/// What the bytes of a reply are that came so far.
#[derive(Clone, Copy, Debug, PartialEq, Eq)]
pub enum Reading<'b> {
    /// The whole reply.
    Whole(Told<'b>),
    /// Fewer than `MAX_HEAD` bytes, and no head yet: they begin as one, as far as its start goes.
    NeedHead,
    /// A head, and a body that lacks so many bytes of those that the head tells: at least one.
    NeedBody(u64),
    /// No reply to what was asked, whatever bytes follow.
    OutOfForm,
}

// A head that was found, and what follows it.
#[derive(Clone, Copy)]
struct Head<'b> {
    start: Start,
    len: u64,
    rest: &'b [u8],
}

/// Reads the bytes that came so far of the reply to a message: the whole reply, or what is missing
/// of it, or that nothing which follows makes a reply to this message of them.
pub fn reply_in(input: &[u8], wanted: Grants) -> Reading<'_>
    ensures { IsReplyReading wanted input.now result }
{
    match find_head(input, wanted) {
        Some(head) => body_in(&head, wanted),
        None if input.len() >= MAX_HEAD => Reading::OutOfForm,
        None if may_begin(input, wanted) => Reading::NeedHead,
        None => Reading::OutOfForm,
    }
}

// Whether a reply may begin with these bytes, as far as the start of its head tells: nothing that
// begins otherwise is waited for.
fn may_begin(input: &[u8], wanted: Grants) -> bool
    ensures { IsTrue result ↔ MayBegin wanted input.now }
{
    if begins_as(input, granted_start(wanted)) || begins_as(input, Start::Missing) {
        return true;
    }
    if begins_as(input, Start::Forbidden) || begins_as(input, Start::Unfit) {
        return true;
    }
    begins_as(input, Start::Unable)
}

// The head that stands at the front of an input.
fn find_head(input: &[u8], wanted: Grants) -> Option<Head<'_>>
    ensures { MatchOption result
        (HasNoHead wanted input.now)
        (λ head. IsStart wanted head.start × (head.len < 2 ^ 64)
        × (dated : Option (List ℕ)) × IsDated dated
        × (input.now ≡ head_bytes head.start head.len dated head.rest.now)) }
{
    let start = granted_start(wanted);
    if let Some((len, rest)) = head_at(input, start) {
        return Some(Head { start, len, rest });
    }
    find_refusal(input)
}

// The head of a refusal that stands there.
fn find_refusal(input: &[u8]) -> Option<Head<'_>>
    ensures { MatchOption result
        ((start : Start) (len : ℕ) (dated : Option (List ℕ)) (rest : List ℕ)
        → IsRefusing start → len < 2 ^ 64 → IsDated dated
        → input.now ≢ head_bytes start len dated rest)
        (λ head. IsRefusing head.start × (head.len < 2 ^ 64)
        × (dated : Option (List ℕ)) × IsDated dated
        × (input.now ≡ head_bytes head.start head.len dated head.rest.now)) }
{
    if let Some((len, rest)) = head_at(input, Start::Missing) {
        return Some(Head {
            start: Start::Missing,
            len,
            rest,
        });
    }
    if let Some((len, rest)) = head_at(input, Start::Forbidden) {
        return Some(Head {
            start: Start::Forbidden,
            len,
            rest,
        });
    }
    if let Some((len, rest)) = head_at(input, Start::Unfit) {
        return Some(Head {
            start: Start::Unfit,
            len,
            rest,
        });
    }
    if let Some((len, rest)) = head_at(input, Start::Unable) {
        return Some(Head {
            start: Start::Unable,
            len,
            rest,
        });
    }
    None
}

// What a head and the bytes behind it are.
fn body_in<'b>(head: &Head<'b>, wanted: Grants) -> Reading<'b>
    requires start { IsStart wanted head.now.start }
    requires len { head.now.len < 2 ^ 64 }
    ensures { (dated : Option (List ℕ)) → IsDated dated → IsReplyReading wanted
        (head_bytes head.now.start head.now.len dated head.now.rest.now) result }
{
    let have = head.rest.len() as u64;
    if head.len > MAX_BODY {
        return Reading::OutOfForm;
    }
    if have > head.len {
        return Reading::OutOfForm;
    }
    if have < head.len {
        return Reading::NeedBody(head.len - have);
    }
    match read_told(head.start, wanted, head.rest) {
        Some(told) => Reading::Whole(told),
        None => Reading::OutOfForm,
    }
}
