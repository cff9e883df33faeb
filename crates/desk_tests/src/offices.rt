//! The office at the desk, in memory and over a file: the rows of `lists`, and the office over
//! plain lists beside it.

use crate::lists::answers::answers;
use crate::lists::later::{again, later};
use crate::lists::looks::{looks, looks_later};
use crate::lists::requests::requests;
use crate::lists::talks::{after_requests, with_clocks};
use crate::texts::{bytes, message, reply_at};
use books::Books;
use desk::{Desk, End, Script};
use office_testing::both::{Both, agree, in_memory};
use office_testing::in_file::{Life, live, remove};
use office_testing::plain::answer;
use sqlite::Alter;
use std::alloc::Global;
use std::process::Abort;
use std::test::Fail;
use sts_token::{BlockTransform, Plain};
use vend_core::Lists;

// What a conversation came to: its end, and what was written.
#[derive(Drop)]
struct Told {
    end: End,
    text: Vec<u8>,
}

// The conversation of these bytes, whose clock gives these moments. It has no clause, so that the
// proof of a test does not carry what the desk promises.
fn talk<S: Alter, T: BlockTransform>(
    alloc: Global,
    books: &mut Books<S, T>,
    input: &[u8],
    moments: &[i64],
) -> Result<Told, Fail> {
    let desk = Desk::new(alloc)?;
    let (first, others) = moments.split_first().ok_or("no moment")?;
    let mut reader = input;
    let mut text = Vec::new(alloc);
    let mut clock = Script::new(*first, others);
    let end = desk.run(alloc, &mut reader, &mut text, books, &mut clock);
    Ok(Told { end, text })
}

// What a conversation is made of, and what it has to come to.
#[derive(Drop)]
struct Held {
    moments: Vec<i64>,
    input: Vec<u8>,
    output: Vec<u8>,
}

fn nothing(alloc: Global) -> Held {
    Held {
        moments: Vec::new(alloc),
        input: Vec::new(alloc),
        output: Vec::new(alloc),
    }
}

fn add_moment(held: &mut Held, text: &str) -> Result<i64, Fail> {
    let seconds: u32 = text.parse()?;
    let second = i64::from(seconds);
    held.moments.push(second)?;
    Ok(second)
}

// It has this end, named as in the program, and this output.
fn comes_to<S: Alter, T: BlockTransform>(
    rt: &(impl Abort + AllocGlobal),
    books: &mut Books<S, T>,
    held: &Held,
    end: &str,
) -> Result<(), Fail> {
    let told = talk(rt.alloc(), books, &held.input, &held.moments)?;
    let written = str::from_utf8(&told.text)?;
    assert!(rt; told.text == held.output, "{written}");
    let named = format!(in rt.alloc(); "{:?}", told.end)?;
    assert_eq!(rt; named.as_str(), end);
    Ok(())
}

// Adds a row of one conversation. If it has a request, the lists have to reply what it says.
fn add_row<T: BlockTransform>(
    rt: &(impl Abort + AllocGlobal),
    lists: &mut Lists<T>,
    row: &str,
    held: &mut Held,
) -> Result<(), Fail> {
    let mut lines = row.lines();
    let line = lines.next().unwrap_or("");
    let (moment, request) = line.split_once(' ').unwrap_or((line, ""));
    let second = add_moment(held, moment)?;
    if !request.is_empty() {
        let wanted = lines.next().unwrap_or("").strip_prefix("  ");
        let told = answer(rt.alloc(), lists, line)?;
        assert_eq!(rt; Some(told.as_str()), wanted, "{line}");
    }
    let sent = message(rt.alloc(), lines.next().unwrap_or(""))?;
    held.input.extend_from_slice(&sent)?;
    let told = reply_at(rt.alloc(), second, lines.next().unwrap_or(""))?;
    held.output.extend_from_slice(&told)?;
    Ok(())
}

// A row that is a conversation.
fn row_comes_to<S: Alter, T: BlockTransform>(
    rt: &(impl Abort + AllocGlobal),
    books: &mut Books<S, T>,
    row: &str,
) -> Result<(), Fail> {
    let alloc = rt.alloc();
    let mut held = nothing(alloc);
    let mut lines = row.lines();
    let (end, moments) = lines
        .next()
        .unwrap_or("")
        .split_once(' ')
        .ok_or("no moment")?;
    for moment in moments.split(' ') {
        let _ = add_moment(&mut held, moment)?;
    }
    held.input = bytes(alloc, lines.next().unwrap_or(""))?;
    // Each message takes an answer of the clock, which repeats the last one.
    let mut second = *held.moments.first().ok_or("no moment")?;
    for (number, line) in lines.enumerate() {
        if let Some(next) = held.moments.get(number) {
            second = *next;
        }
        held.output
            .extend_from_slice(&reply_at(alloc, second, line)?)?;
    }
    comes_to(rt, books, &held, end)
}

// What a list says.
fn hold<S: Alter, T: BlockTransform>(
    rt: &(impl Abort + AllocGlobal),
    both: &mut Both<S, T>,
    list: &str,
) -> Result<(), Fail> {
    let (end, rows) = list.split_once('\n').ok_or("no end")?;
    let mut held = nothing(rt.alloc());
    for row in rows.split("> ").skip(1) {
        if end == "Each" {
            row_comes_to(rt, &mut both.books, row)?;
        } else {
            add_row(rt, &mut both.lists, row, &mut held)?;
        }
    }
    if end == "Each" {
        return Ok(());
    }
    comes_to(rt, &mut both.books, &held, end)
}

#[test]
fn lists_at_a_desk_in_memory(rt: HostRuntime) -> Result<(), Fail> {
    for lists in [
        [requests(), after_requests(), looks()],
        [later(), again(), looks_later()],
    ] {
        let mut both = in_memory(rt.alloc())?;
        for list in lists {
            hold(&rt, &mut both, list)?;
            agree(&mut both)?;
        }
    }
    for list in [answers(), with_clocks()] {
        hold(&rt, &mut in_memory(rt.alloc())?, list)?;
    }
    Ok(())
}

// A life in which a list is held.
#[derive(Drop)]
struct Conversation<'a, A> {
    rt: &'a A,
    list: &'static str,
}

impl<T: BlockTransform, A: Abort + AllocGlobal> Life<T, ()> for Conversation<'_, A> {
    fn live<S: Alter>(self, both: &mut Both<S, T>) -> Result<(), Fail> {
        hold(self.rt, both, self.list)?;
        agree(both)
    }
}

// The office is opened again between its lists.
#[test]
fn lists_at_a_desk_over_a_file(rt: HostRuntime) -> Result<(), Fail> {
    let path = "desk.db";
    for told in [
        [requests(), after_requests(), looks()],
        [later(), again(), looks_later()],
    ] {
        remove(rt.alloc(), &rt, path)?;
        let mut lists = Lists::new(rt.alloc(), Plain);
        for list in told {
            let (left, ()) = live(&rt, path, Plain, lists, Conversation { rt: &rt, list })?;
            lists = left;
        }
    }
    remove(rt.alloc(), &rt, path)
}
