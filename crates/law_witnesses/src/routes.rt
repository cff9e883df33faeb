//! The laws of what messages ask, and of what they are told.
ghost use Rattle.std.specs.Prelude.{◌≡◌, ◌++◌, IfSome};
ghost use Rattle.desk_messages.specs.reply.Body.{body_of};
ghost use Rattle.serde_json.specs.Written.{compact_text};
ghost use Rattle.law_witnesses.specs.Sold.{totals_object};

use asks::AskKind;
use book_states::{Found, Health};
use book_tables::Totals;
use conversation::{Method, Next, Received, next_of};
use desk_messages::{
    Form, Meaning, Outcome, Routes, date_law, day_text_law, found_json, head_law, http_date,
    json_law, meaning_law, put_day, reply_to,
};
use httpdate::HttpDate;
use office_lines::values::{FIRST_DAY, moment};
use office_rules::Moment;
use std::alloc::Global;
use std::process::Abort;
use std::test::Fail;
use sts_fields::{Day, day_law};

// What a message means in two tables of routes.
fn read_twice<'b>(
    alloc: Global,
    one: &Routes,
    other: &Routes,
    message: &Received<'b>,
    second: i64,
) -> Option<(Meaning<'b>, Meaning<'b>)>
    ensures { IfSome result (λ both. both.0 ≡ both.1) }
{
    meaning_law();
    let first = one.meaning_of(alloc, second, message);
    let again = other.meaning_of(alloc, second, message);
    match (&first, &again) {
        (Meaning::Memory, _) => None,
        (_, Meaning::Memory) => None,
        _ => Some((first, again)),
    }
}

// That two tables take a message for an ask, and for the same.
fn asks_one(rt: &impl Abort, alloc: Global, text: &[u8]) -> Result<AskKind, Fail> {
    let one = Routes::new(alloc)?;
    let other = Routes::new(alloc)?;
    let Next::Whole(message) = next_of(text) else {
        return Err("no message".into());
    };
    let both = read_twice(alloc, &one, &other, &message, FIRST_DAY).ok_or("no memory")?;
    match &both {
        (Meaning::Asks(_, first), Meaning::Asks(_, again)) => {
            assert_eq!(rt; again.kind(), first.kind());
            Ok(first.kind())
        }
        _ => Err("no ask".into()),
    }
}

const ORDER: &[u8] = b"POST /sales HTTP/1.1\r\nHost: d\r\nContent-Length: 64\r\n\r\n\
    {\"meter\":\"12345678903\",\"operator\":\"ann\",\"ref\":\"A-1\",\"tender\":10}";

#[test]
fn a_message_means_one_thing(rt: HostRuntime) -> Result<(), Fail> {
    let receipt = b"GET /sales/7/receipt HTTP/1.1\r\nHost: d\r\n\r\n";
    assert_eq!(rt; asks_one(&rt, rt.alloc(), receipt)?, AskKind::Receipt);
    assert_eq!(rt; asks_one(&rt, rt.alloc(), ORDER)?, AskKind::Sell);
    Ok(())
}

// The replies of one outcome at a moment, to GET and to HEAD.
fn replied_to_both(alloc: Global, moment: Moment, outcome: &Outcome) -> Option<(Vec<u8>, Vec<u8>)>
    ensures { IfSome result (λ both. both.0.items ≡ both.1.items ++ body_of outcome.now) }
{
    head_law();
    let whole = reply_to(alloc, Method::Get, Some(moment), outcome, false).ok()?;
    let head = reply_to(alloc, Method::Head, Some(moment), outcome, false).ok()?;
    Some((whole, head))
}

#[test]
fn a_head_lacks_the_body_alone(rt: HostRuntime) -> Result<(), Fail> {
    let health = Health {
        sales: 0,
        last_moment: None,
        write_failed: false,
    };
    let outcome = Outcome::Found(Form::Json, Ok(Found::Health(health)));
    let moment = moment(FIRST_DAY)?;
    let (whole, head) = replied_to_both(rt.alloc(), moment, &outcome).ok_or("no reply")?;
    assert_eq!(rt; head.as_slice(), HEALTH_HEAD);
    assert_eq!(rt;
        &whole[head.len()..],
        b"{\"format\":4,\"last_moment\":null,\"last_write\":\"done\",\"sales\":0}".as_slice()
    );
    Ok(())
}

const HEALTH_HEAD: &[u8] = b"HTTP/1.1 200 OK\r\nContent-Type: application/json\r\n\
    Content-Length: 61\r\nDate: Wed, 01 Jan 2014 00:00:30 GMT\r\n\r\n";

// The seconds that HTTP reads in the date of a moment: those of the moment.
fn date_read(moment: Moment) -> Option<u64>
    ensures { IfSome result (λ read. read ≡ moment) }
{
    date_law();
    let seconds = moment.secs();
    match HttpDate::parse_ascii(&http_date(moment)) {
        Ok(date) if seconds >= 0 => Some(date.unix_secs()),
        _ => None,
    }
}

#[test]
fn a_date_is_that_of_its_moment(rt: HostRuntime) -> Result<(), Fail> {
    let read = date_read(moment(784_111_777)?).ok_or("no date")?;
    assert_eq!(rt; read, 784_111_777);
    assert_eq!(rt;
        http_date(moment(784_111_777)?).as_slice(),
        b"Sun, 06 Nov 1994 08:49:37 GMT".as_slice()
    );
    Ok(())
}

// The text that a desk writes of a shift's totals: that of an object of JSON.
fn totals_written(alloc: Global, number: u32, sales: u32, tenths: u32, cash: u32) -> Option<Vec<u8>>
    ensures { IfSome result
        (λ text. text.items ≡ compact_text (totals_object number sales tenths cash)) }
{
    json_law();
    let sold = u64::from(sales);
    let energy = u64::from(tenths);
    let paid = u64::from(cash);
    let totals = Totals {
        sales: sold,
        tenths: energy,
        cash: paid,
    };
    match found_json(alloc, &Found::ShiftTotals(number, totals)) {
        Ok(text) => Some(text),
        Err(_) => None,
    }
}

#[test]
fn totals_are_json(rt: HostRuntime) -> Result<(), Fail> {
    let text = totals_written(rt.alloc(), 1, 2, 6, 110).ok_or("no text")?;
    assert_eq!(rt;
        text.as_slice(),
        b"{\"cash\":110,\"sales\":2,\"shift\":1,\"tenths\":6}".as_slice()
    );
    Ok(())
}

pub(crate) const SOLD: &[u8] = b"HTTP/1.1 200 OK\r\nContent-Type: application/json\r\n\
    Content-Length: 189\r\n\r\n\
    {\"base\":2014,\"change\":0,\"meter\":\"12345678903\",\"moment\":1388534430,\"number\":1,\
    \"operator\":\"ann\",\"price\":10,\"ref\":\"A-1\",\"shift\":1,\"tender\":10,\"tenths\":1,\
    \"tid\":2,\"token\":\"00072057602627981690\"}";

pub(crate) const METERS: &[u8] =
    b"{\"meters\":[{\"base\":2014,\"meter\":\"12345678903\",\"tariff\":\"flat\"},\
    {\"base\":1993,\"meter\":\"12345678911\",\"tariff\":\"steep\"}]}";

// A day, written as a desk writes it and read as a desk reads it.
fn day_again(alloc: Global, day: Day) -> Option<Day>
    ensures { IfSome result (λ again. again ≡ day) }
{
    day_text_law();
    day_law();
    let _days = day.days();
    let mut text = Vec::new(alloc);
    let Ok(()) = put_day(&mut text, day) else {
        return None;
    };
    match Day::of_text(&text) {
        Ok(again) => Some(again),
        Err(_) => None,
    }
}

#[test]
fn a_day_is_read_as_it_is_written(rt: HostRuntime) -> Result<(), Fail> {
    let day = Day::of_text(b"2014-02-01").ok().ok_or("no day")?;
    assert_eq!(rt; day_again(rt.alloc(), day), Some(day));
    Ok(())
}
