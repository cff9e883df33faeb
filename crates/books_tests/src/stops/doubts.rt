//! A sale whose commit fails is in doubt, and the books stop. The same order, sent again once the
//! office is opened again, gives one sale, whichever way the doubt fell.

use crate::stops::disks::{Ended, Kept, Room, SOUND, Stopping, closed, count, life, nothing};
use crate::stops::scripts::{Script, script_of};
use std::alloc::Global;
use std::process::Abort;
use std::test::Fail;

const OFFICE: &str = "
> 1388534430 add-tariff flat :100
  done
> 1388534430 add-meter 12345678903 2014 flat 0000000000000000
  done
> 1388534430 open-shift ann
  opened 1
";

const ORDERS: &str = "
> 1388534430 sell ann A-1 12345678903 10
  sold 1 1388534430 1 ann A-1 12345678903 2014 2 1 1 10 10 00072057602627981690
> 1388534430 reprint 1
  reprinted 1 1388534430 1 ann A-1 12345678903 2014 2 1 1 10 10 00072057602627981690
> 1388534430 close-shift ann
  closed 1
";

const AGAIN: &str = "
> 1388534430 sell ann A-1 12345678903 10
  sold 1 1388534430 1 ann A-1 12345678903 2014 2 1 1 10 10 00072057602627981690
> 1388534430 sell ann A-1 12345678903 20
  refused 1 RefReused
> 1388534430 report 1
  report 1 ann 1388534430 - 1 1 10 1
";

// What came of the first order.
#[derive(Clone, Copy, PartialEq)]
enum Fate {
    NotOpened,
    InDoubt,
    Sold,
    Whole,
}

fn fate_of(rt: &(impl Abort + AllocGlobal), orders: &Script, ended: &Ended) -> Result<Fate, Fail> {
    let Some(replies) = &ended.replies else {
        return Ok(Fate::NotOpened);
    };
    let right = orders.answered(rt.alloc(), replies)?;
    assert_eq!(rt; ended.is_stopped, right != Some(3), "{replies:?}");
    Ok(match right {
        Some(0) => Fate::InDoubt,
        Some(3) => Fate::Whole,
        Some(_) => Fate::Sold,
        None => return Err(Fail::new(format_args!("{replies:?}"))),
    })
}

// The order again, and with another tender, on sound disks. How many sales were kept before.
fn asked_again(rt: &(impl Abort + AllocGlobal), again: &Script, kept: &Kept) -> Result<i64, Fail> {
    let sales = "SELECT count(*) FROM sales WHERE operator = 'ann' AND ref = 'A-1'";
    let before = count(rt.alloc(), kept, sales)?;
    let ended = life(rt.alloc(), kept, SOUND, &again.sent)?;
    let replies = ended.replies.ok_or("not opened on sound disks")?;
    let right = again.answered(rt.alloc(), &replies)?;
    assert_eq!(rt; right, Some(3), "{replies:?}");
    assert_eq!(rt; count(rt.alloc(), &ended.kept, sales)?, 1);
    assert_eq!(rt;
        count(rt.alloc(), &ended.kept, "SELECT count(*) FROM sales")?,
        1
    );
    Ok(before)
}

// Each number of calls, up to the first at which no call fails. How often the order was in doubt,
// and how often it was stored then.
fn doubts(
    rt: &(impl Abort + AllocGlobal),
    begun: &Kept,
    stopping: Stopping,
) -> Result<(u32, i64), Fail> {
    let alloc = rt.alloc();
    let (orders, again) = (script_of(alloc, ORDERS)?, script_of(alloc, AGAIN)?);
    let (mut doubts, mut stored) = (0u32, 0i64);
    for calls in 0..1000 {
        let ended = life(alloc, begun, stopping.after(calls), &orders.sent)?;
        match fate_of(rt, &orders, &ended)? {
            Fate::Whole => return Ok((doubts, stored)),
            Fate::InDoubt => {
                doubts = doubts.saturating_add(1);
                stored = stored.saturating_add(asked_again(rt, &again, &ended.kept)?);
            }
            Fate::NotOpened | Fate::Sold => {}
        }
    }
    Err("each number of calls was too small".into())
}

// The file of an office, in whose log its rows stand, or in its database.
fn office(alloc: Global, in_log: bool) -> Result<Kept, Fail> {
    let script = script_of(alloc, OFFICE)?;
    let kept = life(alloc, &nothing(alloc), SOUND, &script.sent)?.kept;
    if in_log {
        return Ok(kept);
    }
    closed(alloc, &kept)
}

// Whether the office stands in the log, which disk stops, how many doubts there are, and after how
// many of them the order is stored.
static DOUBTS: [(bool, Stopping, u32, i64); 4] = [
    (false, Stopping::Log(Room::Ample), 6, 1),
    (false, Stopping::Log(Room::Little), 12, 1),
    (true, Stopping::Log(Room::Little), 40, 1),
    (true, Stopping::Database(Room::Little), 23, 0),
];

fn wanted() -> &'static [(bool, Stopping, u32, i64)] {
    &DOUBTS
}

#[test]
fn an_order_in_doubt(rt: HostRuntime) -> Result<(), Fail> {
    for (in_log, stopping, many, stored) in wanted() {
        let begun = office(rt.alloc(), *in_log)?;
        assert_eq!(rt; doubts(&rt, &begun, *stopping)?, (*many, *stored));
    }
    Ok(())
}
