//! The laws of a desk's conversations.
ghost use Rattle.std.specs.Prelude.{◌≡◌, IfSome};
ghost use Rattle.books.specs.Keeps.{seen};
ghost use Rattle.desk.specs.OneConversation.{conversation_text};
ghost use Rattle.desk_client.specs.Sent.{CanSend};
ghost use Rattle.office_rules.specs.declared.decision.request.Request.{Request};
ghost use Rattle.law_witnesses.specs.Asking.{ask_to_sell};
ghost use Rattle.law_witnesses.specs.Talks.{IsOnlyText, IsTalk};

use asks::{Ask, ask_law};
use books::Books;
use conversation::{End, Next, Script, next_of};
use desk::{Desk, conversation_law, desk_law};
use desk_client::{message, question_law};
use desk_messages::{Meaning, Routes};
use office_lines::values::{FIRST_DAY, METER, moment, order};
use office_rules::{Moment, Order, Request};
use sqlite::MemStore;
use std::alloc::Global;
use std::test::Fail;
use sts_token::Plain;

// Says that a desk can be asked to sell an order, whose values keep their rules as its types see
// to.
pub(crate) fn keeps_rules(order: &Order)
    ensures { CanSend (ask_to_sell order.now) }
{
    let _meter = order.meter.as_bytes();
    let _operator = order.operator.as_bytes();
    let _ref = order.order_ref.as_bytes();
    let _tender = order.tender.cents();
}

// What a desk takes the message of an order for, at this moment.
fn read_at_desk(alloc: Global, routes: &Routes, order: &Order, moment: Moment) -> Option<Request>
    ensures { IfSome result (λ request. request ≡ Request.Sell order.now) }
{
    ask_law();
    question_law();
    keeps_rules(order);
    let ask = Ask::Do(Request::Sell(*order));
    let Ok(text) = message(alloc, &ask) else {
        return None;
    };
    let Next::Whole(received) = next_of(&text) else {
        return None;
    };
    match routes.meaning_of(alloc, moment.secs(), &received) {
        Meaning::Asks(_, Ask::Do(request)) => Some(request),
        _ => None,
    }
}

// A conversation of a new office in memory with all that this input says, and what was written.
fn talked(alloc: Global, input: &[u8], second: i64) -> Option<(Books<MemStore, Plain>, Vec<u8>)>
    ensures { IfSome result (λ both. (talk : IsTalk input.now (seen both.0))
        × (both.1.items ≡ conversation_text talk.exchanges talk.ending)
        × IsOnlyText talk both.1.items) }
{
    desk_law();
    conversation_law();
    let Ok(desk) = Desk::new(alloc) else {
        return None;
    };
    let Ok(mut books) = Books::in_memory(alloc, Plain) else {
        return None;
    };
    let mut reader = input;
    let mut text = Vec::new(alloc);
    let mut clock = Script::new(second, &[]);
    match desk.run(alloc, &mut reader, &mut text, &mut books, &mut clock) {
        End::Closed => Some((books, text)),
        _ => None,
    }
}

#[test]
fn a_message_has_one_meaning(rt: HostRuntime) -> Result<(), Fail> {
    let routes = Routes::new(rt.alloc())?;
    let Request::Sell(asked) = order(b"A-1", METER, 10)? else {
        return Err("no order".into());
    };
    let read = read_at_desk(rt.alloc(), &routes, &asked, moment(FIRST_DAY)?).ok_or("no request")?;
    match &read {
        Request::Sell(read) => assert_eq!(rt; *read, asked),
        _ => return Err("another request".into()),
    }
    Ok(())
}

const MESSAGES: &[u8] = b"POST /tariffs HTTP/1.1\r\nHost: d\r\nContent-Length: 30\r\n\r\n\
    {\"name\":\"flat\",\"steps\":\":100\"}\
    GET /health HTTP/1.1\r\nHost: d\r\n\r\n";

const REPLIES: &[u8] = b"HTTP/1.1 200 OK\r\nContent-Type: application/json\r\n\
    Content-Length: 13\r\nDate: Wed, 01 Jan 2014 00:00:30 GMT\r\n\r\n{\"done\":true}\
    HTTP/1.1 200 OK\r\nContent-Type: application/json\r\nContent-Length: 61\r\n\
    Date: Wed, 01 Jan 2014 00:00:30 GMT\r\n\r\n\
    {\"format\":4,\"last_moment\":null,\"last_write\":\"done\",\"sales\":0}";

#[test]
fn a_desk_writes_its_conversation(rt: HostRuntime) -> Result<(), Fail> {
    let (_books, text) = talked(rt.alloc(), MESSAGES, FIRST_DAY).ok_or("no conversation")?;
    assert_eq!(rt; text.as_slice(), REPLIES);
    Ok(())
}
