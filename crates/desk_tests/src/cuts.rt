//! A sale and the call for its receipt, 159 bytes, over books: cut after any byte, in pieces, by a
//! reader that fails, to a writer that fails, and where the system interrupts reads and writes.
//! Each time over an office of its own, so that it has to sell anew.
use crate::prepared::{NO_HEAD, PRINTED, RECEIPT, SALE, SOLD, hold, prepared};
use crate::streams::{Asking, Calls, Counting, Failing, Full, Interrupted, Pieces};
use crate::texts::first;
use desk::End;
use std::alloc::{AllocError, Global};
use std::cell::Cell;
use std::io::Read;
use std::process::Abort;
use std::test::Fail;

fn joined(alloc: Global, front: &[u8], back: &[u8]) -> Result<Vec<u8>, AllocError> {
    let mut text = Vec::new(alloc);
    text.extend_from_slice(front)?;
    text.extend_from_slice(back)?;
    Ok(text)
}

// From so many bytes on: what is written where the input ends there, and how that ends.
type Cut = (usize, &'static [&'static [u8]], End);

static CUTS: [Cut; 6] = [
    (0, &[], End::Closed),
    (1, &[NO_HEAD], End::BadMessage),
    (53, &[], End::Closed),
    (117, &[SOLD], End::Closed),
    (118, &[SOLD, NO_HEAD], End::BadMessage),
    (159, &[SOLD, PRINTED], End::Closed),
];

// It has no clause: a proof takes much longer over a list that it knows item by item.
fn cuts() -> &'static [Cut] {
    &CUTS
}

// What has to be written for the first so many bytes, and the end. A reader that fails there gives
// no refusal.
fn wanted(alloc: Global, count: usize, fails: bool) -> Result<(Vec<u8>, End), AllocError> {
    let mut text = Vec::new(alloc);
    let mut end = End::Memory;
    for (from, texts, ends) in cuts() {
        if *from <= count {
            text.truncate(0);
            for one in *texts {
                if !fails || *one != NO_HEAD {
                    text.extend_from_slice(one)?;
                }
            }
            end = if fails { End::ReadFault } else { *ends };
        }
    }
    Ok((text, end))
}

// Each beginning in one piece or byte by byte.
fn each_beginning(
    rt: &(impl Abort + AllocGlobal),
    input: &[u8],
    size: usize,
    fails: bool,
) -> Result<(), Fail> {
    let alloc = rt.alloc();
    for count in 0..=159_usize {
        let mut books = prepared(alloc)?;
        let mut reader = Pieces {
            rest: first(input, count),
            size,
            fails,
        };
        let mut text = Vec::new(alloc);
        let end = hold(alloc, &mut books, &mut reader, &mut text).ok_or("no desk")?;
        let (written, ends) = wanted(alloc, count, fails)?;
        assert_eq!(rt; text, written, "{count}");
        assert_eq!(rt; end, ends, "{count}");
        let next = if count < 117 { 1 } else { 2 };
        assert_eq!(rt; books.next_number(), next, "{count}");
    }
    Ok(())
}

#[test]
fn an_input_that_ends_or_fails_after_any_byte(rt: HostRuntime) -> Result<(), Fail> {
    let input = joined(rt.alloc(), SALE, RECEIPT)?;
    assert_eq!(rt; (SALE.len(), input.len()), (117, 159));
    assert_eq!(rt; (SOLD.len(), PRINTED.len()), (298, 221));
    for size in [usize::MAX, 1] {
        for fails in [false, true] {
            each_beginning(&rt, &input, size, fails)?;
        }
    }
    Ok(())
}

// Two pieces, cut after each byte in turn: within a message, between two, and at both ends.
#[test]
fn two_pieces_cut_after_any_byte(rt: HostRuntime) -> Result<(), Fail> {
    let alloc = rt.alloc();
    let input = joined(alloc, SALE, RECEIPT)?;
    let replies = joined(alloc, SOLD, PRINTED)?;
    for cut in 0..=159_usize {
        let mut books = prepared(alloc)?;
        let front = first(&input, cut);
        let back = input.get(front.len()..).unwrap_or(b"");
        let mut reader = front.chain(back);
        let mut text = Vec::new(alloc);
        let end = hold(alloc, &mut books, &mut reader, &mut text).ok_or("no desk")?;
        assert_eq!(rt; text, replies, "{cut}");
        assert_eq!(rt; end, End::Closed, "{cut}");
        assert_eq!(rt; books.next_number(), 2, "{cut}");
    }
    Ok(())
}

// More than 5,000 reads of a byte each.
#[test]
fn a_long_conversation_byte_by_byte(rt: HostRuntime) -> Result<(), Fail> {
    let alloc = rt.alloc();
    let mut input = Vec::from_slice(alloc, SALE)?;
    let mut replies = Vec::from_slice(alloc, SOLD)?;
    for _ in 0..120 {
        input.extend_from_slice(RECEIPT)?;
        replies.extend_from_slice(PRINTED)?;
    }
    let mut reader = Pieces {
        rest: &input,
        size: 1,
        fails: false,
    };
    let mut text = Vec::new(alloc);
    let mut books = prepared(alloc)?;
    let end = hold(alloc, &mut books, &mut reader, &mut text).ok_or("no desk")?;
    assert_eq!(rt; text, replies);
    assert_eq!(rt; end, End::Closed);
    Ok(())
}

// The sale is served, and its reply lost.
#[test]
fn a_writer_that_takes_nothing(rt: HostRuntime) -> Result<(), Fail> {
    let alloc = rt.alloc();
    let input = joined(alloc, SALE, RECEIPT)?;
    let mut reader = input.as_slice();
    let mut books = prepared(alloc)?;
    let end = hold(alloc, &mut books, &mut reader, &mut Full).ok_or("no desk")?;
    assert_eq!(rt; end, End::WriteFault);
    assert_eq!(rt; books.next_number(), 2);
    Ok(())
}

// The sale is served before its reply is lost.
#[test]
fn pieces_of_any_length_and_a_writer_that_fails(rt: HostRuntime) -> Result<(), Fail> {
    let alloc = rt.alloc();
    let input = joined(alloc, SALE, RECEIPT)?;
    let replies = joined(alloc, SOLD, PRINTED)?;
    for room in 0..=519_usize {
        let mut books = prepared(alloc)?;
        let mut reader = Pieces {
            rest: &input,
            size: room.saturating_add(1),
            fails: false,
        };
        let mut writer = Failing {
            taken: Vec::new(alloc),
            room,
        };
        let end = hold(alloc, &mut books, &mut reader, &mut writer).ok_or("no desk")?;
        let ends = if room < 519 {
            End::WriteFault
        } else {
            End::Closed
        };
        assert_eq!(rt; end, ends, "{room}");
        assert_eq!(rt; writer.taken.as_slice(), first(&replies, room), "{room}");
        assert_eq!(rt; books.next_number(), 2, "{room}");
    }
    Ok(())
}

#[test]
fn a_reply_leaves_before_more_is_asked_for(rt: HostRuntime) -> Result<(), Fail> {
    let alloc = rt.alloc();
    let written = Cell::new(0);
    let twice = joined(alloc, RECEIPT, RECEIPT)?;
    let calls = joined(alloc, &twice, b"GET")?;
    let (head, body) = SALE.split_at(53);
    let (front, back) = body.split_at(60);
    let steps = [
        (0, 8192, head),
        (0, 64, front),
        (0, 4, back),
        (298, 8192, calls.as_slice()),
        (740, 8189, b"".as_slice()),
    ];
    let mut reader = Asking {
        steps: &steps,
        count: 0,
        written: &written,
        late: false,
        greedy: false,
    };
    let mut writer = Counting { written: &written };
    let mut books = prepared(alloc)?;
    let end = hold(alloc, &mut books, &mut reader, &mut writer).ok_or("no desk")?;
    assert_eq!(rt; end, End::BadMessage);
    assert_eq!(rt; (reader.late, reader.greedy), (false, false));
    assert_eq!(rt; (reader.count, written.get()), (5, 740 + NO_HEAD.len()));
    Ok(())
}

// The same conversation where the system interrupts some reads, and some writes. The input comes
// byte by byte, and the writer takes three bytes at a time.
fn goes_on(
    rt: &(impl Abort + AllocGlobal),
    input: &[u8],
    replies: &[u8],
    calls: Calls,
) -> Result<(), Fail> {
    let alloc = rt.alloc();
    let mut books = prepared(alloc)?;
    let mut reader = Interrupted {
        inner: Pieces {
            rest: input,
            size: 1,
            fails: false,
        },
        calls,
        made: 0,
    };
    let mut writer = Interrupted {
        inner: Failing {
            taken: Vec::new(alloc),
            room: usize::MAX,
        },
        calls,
        made: 0,
    };
    let end = hold(alloc, &mut books, &mut reader, &mut writer).ok_or("no desk")?;
    assert_eq!(rt; end, End::Closed);
    assert_eq!(rt; writer.inner.taken.as_slice(), replies);
    assert_eq!(rt; books.next_number(), 2);
    Ok(())
}

// Before each byte of the input in turn, and at its end; before each piece of the replies; and
// before all of these, twice.
#[test]
fn calls_that_the_system_interrupts(rt: HostRuntime) -> Result<(), Fail> {
    let alloc = rt.alloc();
    let input = joined(alloc, SALE, RECEIPT)?;
    let replies = joined(alloc, SOLD, PRINTED)?;
    for number in 0..=159_usize {
        goes_on(&rt, &input, &replies, Calls::One(number))?;
    }
    goes_on(&rt, &input, &replies, Calls::TwoOfThree)
}

// A reader that fails otherwise behind an interrupted read ends the conversation.
#[test]
fn a_failure_behind_an_interrupted_read(rt: HostRuntime) -> Result<(), Fail> {
    let alloc = rt.alloc();
    let mut books = prepared(alloc)?;
    let mut reader = Interrupted {
        inner: Pieces {
            rest: SALE,
            size: 1,
            fails: true,
        },
        calls: Calls::TwoOfThree,
        made: 0,
    };
    let mut text = Vec::new(alloc);
    let end = hold(alloc, &mut books, &mut reader, &mut text).ok_or("no desk")?;
    assert_eq!(rt; end, End::ReadFault);
    assert_eq!(rt; text.as_slice(), SOLD);
    Ok(())
}
