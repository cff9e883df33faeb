ghost use Rattle.std.specs.Prelude.{◌≡◌, ◌∷◌, ◌+◌, ◌<◌, ◌≤◌, [], length, take, drop, min, IfOk};
ghost use Rattle.std.specs.Prelude.{vec_len};
ghost use Rattle.conversation.specs.Ends.{IsInputRead, ReadsAt, next_window};
ghost use Rattle.conversation.specs.Uses.{Grows, asked, least_read, longest_message, passed_of};
ghost use Rattle.conversation.specs.Uses.{window_for};

use crate::end::End;
use crate::line::{Line, is_interrupted};
use std::alloc::Global;
use std::io::{self, Read, Write};

// The least and the most bytes that one read asks for, where so many are wanted.
const LEAST_READ: usize = 1024;

const GREATEST_READ: usize = 65536;

/// The bytes of an input that were read and are not answered: never more than the longest message.
#[derive(Drop)]
pub(crate) struct Unanswered {
    bytes: Vec<u8>,
    // How many bytes the next read asks for at most.
    window: usize,
    ghost within: { vec_len bytes ≤ longest_message },
    ghost some: { 0 < window },
}

impl Unanswered {
    pub(crate) fn new(alloc: Global) -> Unanswered
        ensures bytes { result.bytes.items ≡ [] }
        ensures window { result.window ≡ least_read }
    {
        Unanswered {
            bytes: Vec::new(alloc),
            window: LEAST_READ,
        }
    }

    pub(crate) fn as_slice(&self) -> &[u8]
        ensures { result.now ≡ self.now.bytes.items }
    {
        &self.bytes
    }

    // Reads at most as many bytes as wanted, and as the window has, behind those that are there,
    // and says how many came: 0 only at the end of the input, and `None` where the system
    // interrupted the read. Room is made first, so that want of memory loses no byte.
    pub(crate) fn read_more<L: Line<R, W>, R: Read, W: Write>(
        &mut self,
        line: &mut L,
        reader: &mut R,
        wanted: usize,
    ) -> Result<Option<usize>, End>
        requires some { 0 < wanted }
        requires room { vec_len self.old.bytes + wanted ≤ longest_message }
        ensures read { IsInputRead (L.uses line.old) (L.uses line.new) (R.remaining reader.old)
            (R.remaining reader.new) (min wanted self.old.window) self.old.bytes.items
            self.new.bytes.items result }
        ensures window { self.new.window ≡ next_window self.old.window result }
    {
        let came = read_behind(line, reader, &mut self.bytes, wanted, self.window)?;
        if let Some(count) = came {
            self.window = window_for(count);
        }
        Ok(came)
    }

    // Takes so many bytes off the front.
    pub(crate) fn drop_front(&mut self, count: usize)
        requires { count ≤ vec_len self.old.bytes }
        ensures bytes { self.new.bytes.items ≡ drop count self.old.bytes.items }
        ensures window { self.new.window ≡ self.old.window }
    {
        drop(self.bytes.drain(..count));
    }
}

// How many bytes are asked for after a read that brought so many: twice as many, so that what is
// filled with zeros is seldom more than twice what comes, however small the pieces are.
fn window_for(count: usize) -> usize
    ensures exact { result ≡ window_for count }
    ensures some { 0 < result }
{
    count.saturating_mul(2).max(LEAST_READ).min(GREATEST_READ)
}

// Reads into the slice, from the place on.
fn read_at<L: Line<R, W>, R: Read, W: Write>(
    line: &mut L,
    reader: &mut R,
    buffer: &mut [u8],
    at: usize,
) -> io::Result<usize>
    requires { at < length buffer.old }
    ensures front { take at buffer.new ≡ take at buffer.old }
    ensures size { length buffer.new ≡ length buffer.old }
    ensures fits { IfOk result (λ count. at + count ≤ length buffer.new) }
    ensures bytes { ReadsAt (R.remaining reader.old) (R.remaining reader.new)
        (drop at buffer.new) result }
    ensures told { Grows (L.uses line.old) (L.uses line.new)
        (asked (length (drop at buffer.old)) (passed_of (drop at buffer.new) result) ∷ []) }
{
    line.read(reader, &mut buffer[at..])
}

// The same into a vector.
fn read_into<L: Line<R, W>, R: Read, W: Write>(
    line: &mut L,
    reader: &mut R,
    buffer: &mut Vec<u8>,
    at: usize,
) -> io::Result<usize>
    requires { at < vec_len buffer.old }
    ensures front { take at buffer.new.items ≡ take at buffer.old.items }
    ensures size { vec_len buffer.new ≡ vec_len buffer.old }
    ensures fits { IfOk result (λ count. at + count ≤ vec_len buffer.new) }
    ensures bytes { ReadsAt (R.remaining reader.old) (R.remaining reader.new)
        (drop at buffer.new.items) result }
    ensures told { Grows (L.uses line.old) (L.uses line.new)
        (asked (length (drop at buffer.old.items))
        (passed_of (drop at buffer.new.items) result) ∷ []) }
{
    read_at(line, reader, buffer.as_mut_slice(), at)
}

// Reads at most as many bytes as wanted, and as the window has, behind the buffer.
fn read_behind<L: Line<R, W>, R: Read, W: Write>(
    line: &mut L,
    reader: &mut R,
    buffer: &mut Vec<u8>,
    wanted: usize,
    window: usize,
) -> Result<Option<usize>, End>
    requires some { 0 < wanted }
    requires open { 0 < window }
    requires room { vec_len buffer.old + wanted ≤ longest_message }
    ensures read { IsInputRead (L.uses line.old) (L.uses line.new) (R.remaining reader.old)
        (R.remaining reader.new) (min wanted window) buffer.old.items buffer.new.items result }
    ensures within { vec_len buffer.new ≤ longest_message }
{
    let filled = buffer.len();
    let room = wanted.min(window);
    if buffer.resize(filled + room, 0).is_err() {
        return Err(End::Memory);
    }
    match read_into(line, reader, buffer, filled) {
        Ok(count) => {
            buffer.truncate(filled + count);
            Ok(Some(count))
        }
        Err(error) => {
            buffer.truncate(filled);
            if is_interrupted(&error) {
                Ok(None)
            } else {
                Err(End::ReadFault)
            }
        }
    }
}
