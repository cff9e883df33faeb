//! Three offices with the same requests: over plain vectors, in memory, and in a file.

use crate::list::{Exchange, ListedLife, Transform};
use crate::outcome::{Outcome, Place};
use books::Books;
use office_rules::Stamped;
use office_testing::both::{Both, agree, agree_on_totals, next_number, opened_again, serve};
use office_testing::in_file::{Life, change_tables, live_and_change, live_and_stop, remove};
use sqlite::{Alter, Connection, MemStore};
use std::alloc::Global;
use std::test::Fail;
use sts_token::{BlockTransform, Demo, Plain};
use vend_core::Lists;

const PATH: &str = "office.db";

const PLAIN: &str = "plain vectors";

const MEMORY: &str = "books in memory";

const FILE: &str = "books in a file";

/// What remains of the offices after a number of lives. The third is in the file.
#[derive(Drop)]
struct Offices<'a> {
    lives: usize,
    lists: Lists<Plain>,
    memory: Connection<MemStore>,
    outcome: Outcome<'a>,
}

/// The outcome of these lives, from empty offices on. Every second life ends without a close, as a
/// program that is killed. These statements, by turns, take tables back: those in memory before
/// each opening but the first, and those in the file after each life that ends with a close.
pub(crate) fn replay<'a>(
    rt: &HostRuntime,
    lives: Vec<ListedLife<'_>>,
    older: &[&'static str],
    outcome: Outcome<'a>,
) -> Result<Outcome<'a>, Fail> {
    let alloc = rt.alloc();
    remove(alloc, rt, PATH)?;
    let mut offices = Offices {
        lives: 0,
        lists: Lists::new(alloc, Plain),
        memory: Connection::open_in_memory(alloc)?,
        outcome,
    };
    for life in lives {
        offices = match life.transform {
            Transform::Plain => live_through(rt, Plain, offices, life, older)?,
            Transform::Demo => live_through(rt, Demo, offices, life, older)?,
        };
    }
    remove(alloc, rt, PATH)?;
    Ok(offices.outcome)
}

fn live_through<'a, T: BlockTransform + Copy + Drop>(
    rt: &HostRuntime,
    transform: T,
    offices: Offices<'a>,
    life: ListedLife<'_>,
    older: &[&'static str],
) -> Result<Offices<'a>, Fail> {
    let alloc = rt.alloc();
    let Offices {
        lives,
        lists,
        mut memory,
        outcome,
    } = offices;
    let sql = older_after(older, lives);
    // Before the first life there are no tables.
    if lives > 0 {
        change_tables(&mut memory, sql)?;
    }
    let replay = LifeReplay {
        alloc,
        memory: opened_again(alloc, memory, transform)?,
        life,
        outcome,
    };
    let lists = lists.with_transform(transform);
    let (lists, (memory, outcome)) = if lives % 2 == 0 {
        live_and_change(rt, PATH, transform, lists, replay, sql)?
    } else {
        live_and_stop(rt, PATH, transform, lists, replay)?
    };
    Ok(Offices {
        lives: lives.saturating_add(1),
        lists: lists.with_transform(Plain),
        memory,
        outcome,
    })
}

fn older_after(older: &[&'static str], lives: usize) -> &'static str {
    if older.is_empty() {
        return "";
    }
    older.get(lives % older.len()).copied().unwrap_or("")
}

/// A life that is replayed, with the office in memory.
#[derive(Drop)]
struct LifeReplay<'a, 'b, T: BlockTransform> {
    alloc: Global,
    memory: Books<MemStore, T>,
    life: ListedLife<'b>,
    outcome: Outcome<'a>,
}

impl<'a, T: BlockTransform + Drop> Life<T, (Connection<MemStore>, Outcome<'a>)>
    for LifeReplay<'a, '_, T> {
    fn live<S: Alter>(
        self,
        both: &mut Both<S, T>,
    ) -> Result<(Connection<MemStore>, Outcome<'a>), Fail> {
        let LifeReplay {
            alloc,
            mut memory,
            life,
            mut outcome,
        } = self;
        compare_opening(alloc, both, &memory, &life, &mut outcome)?;
        for exchange in life.exchanges {
            ask(alloc, both, &mut memory, exchange, &mut outcome)?;
        }
        agree(both)?;
        agree_on_totals(&mut memory, &both.lists)?;
        Ok((memory.into_connection(), outcome))
    }
}

// The reply to an opening is the number of sales.
fn compare_opening<S: Alter, T: BlockTransform>(
    alloc: Global,
    both: &Both<S, T>,
    memory: &Books<MemStore, T>,
    life: &ListedLife<'_>,
    outcome: &mut Outcome<'_>,
) -> Result<(), Fail> {
    let (line, expected) = (life.line, life.expected);
    let counts = [
        (PLAIN, both.lists.sales().len() as u64),
        (MEMORY, next_number(memory).saturating_sub(1)),
        (FILE, next_number(&both.books).saturating_sub(1)),
    ];
    for (office, count) in counts {
        let reply = format!(in alloc; "opened {count}")?;
        outcome.compare(alloc, Place { line, office }, reply.as_str(), expected)?;
    }
    Ok(())
}

fn ask<S: Alter, T: BlockTransform>(
    alloc: Global,
    both: &mut Both<S, T>,
    memory: &mut Books<MemStore, T>,
    exchange: Exchange<'_>,
    outcome: &mut Outcome<'_>,
) -> Result<(), Fail> {
    let Exchange {
        line,
        request,
        expected,
    } = exchange;
    let number = both.lists.sales().len().saturating_add(1);
    let at = Stamped {
        moment: request.moment,
        nibble: (number % 16) as u8,
        request: request.request,
    };
    outcome.count_request();
    let plain = both.lists.serve(&at);
    let office = PLAIN;
    outcome.compare_reply(alloc, Place { line, office }, (&plain, &plain), expected)?;
    let reply = serve(memory, &at);
    let office = MEMORY;
    outcome.compare_reply(alloc, Place { line, office }, (&reply, &plain), expected)?;
    let reply = serve(&mut both.books, &at);
    let office = FILE;
    outcome.compare_reply(alloc, Place { line, office }, (&reply, &plain), expected)
}
