//! Replies, byte for byte.

use crate::listed::{listed_meters, listed_shifts, listed_tariffs};
use crate::texts::{reply, reply_at};
use desk::{
    DeskFault, Form, Found, Health, MessageFault, MeterSummary, Method, Outcome, Quote, Totals,
    found_json, http_date, moment_given, reply_bytes,
};
use office_rules::{
    Answer, MeterNo, Moment, Operator, Ref, Refusal, RowCause, Sale, Sales, Shift, TariffName,
    Tender,
};
use std::alloc::Global;
use std::test::Fail;
use sts_fields::{Amount, Base};

// A tenth of a kWh for ten cents.
fn first_sale() -> Result<Sale, Fail> {
    Ok(Sale {
        number: 1,
        moment: Moment::of_secs(1_388_534_430).ok_or("a moment")?,
        shift: 1,
        operator: Operator::read(b"ann").ok_or("an operator")?,
        order_ref: Ref::read(b"A-1").ok_or("a ref")?,
        meter: MeterNo::read(b"12345678903").ok_or("a meter")?,
        base: Base::Y2014,
        tid: 2,
        rnd: 1,
        tenths: Amount::of_tenths(1).ok_or("an amount")?,
        price: 10,
        tender: Tender::read(10).ok_or("a tender")?,
        digits: *b"00072057602627981690",
    })
}

// The change is the tender less the price, and all numbers are as large as they may be.
fn large_sale() -> Result<Sale, Fail> {
    Ok(Sale {
        number: 1_000_000_000,
        moment: Moment::of_secs(4_102_444_799).ok_or("a moment")?,
        shift: 1_000_000_000,
        operator: Operator::read(b"abcdefghijKLMN09").ok_or("an operator")?,
        order_ref: Ref::read(b"abcdefghijklmnopqrstuvwxyz-01234").ok_or("a ref")?,
        base: Base::Y2035,
        tid: 16_777_215,
        tenths: Amount::of_tenths(18_201_624).ok_or("an amount")?,
        price: 1_820_163,
        tender: Tender::read(100_000_000).ok_or("a tender")?,
        ..first_sale()?
    })
}

fn shift() -> Result<Shift, Fail> {
    Ok(Shift {
        number: 1,
        operator: Operator::read(b"ann").ok_or("an operator")?,
        opened: Moment::of_secs(1_388_563_200).ok_or("a moment")?,
        closed: Moment::of_secs(1_388_592_000),
    })
}

fn answers(alloc: Global) -> Result<Vec<Answer>, Fail> {
    let mut answers = Vec::new(alloc);
    answers.push(Answer::Done)?;
    answers.push(Answer::Imported(2))?;
    answers.push(Answer::Imported(0))?;
    answers.push(Answer::Withdrawn(1))?;
    answers.push(Answer::Opened(1))?;
    answers.push(Answer::Closed(1_000_000_000))?;
    answers.push(Answer::Sold(first_sale()?))?;
    answers.push(Answer::Reprinted(first_sale()?))?;
    answers.push(Answer::Sold(large_sale()?))?;
    answers.push(Answer::Report(shift()?, Sales::of(Vec::new(alloc))))?;
    Ok(answers)
}

fn findings(alloc: Global) -> Result<Vec<Found>, Fail> {
    let sold = MeterSummary {
        number: MeterNo::read(b"12345678903").ok_or("a meter")?,
        base: Base::Y1993,
        tariff: TariffName::read(b"flat").ok_or("a tariff")?,
        tenths: 18_446_744_073_709_551_615,
        last_sale: Some(1_000_000_000),
    };
    let mut findings = Vec::new(alloc);
    findings.push(Found::Health(Health {
        sales: 0,
        last_moment: None,
        write_failed: false,
    }))?;
    findings.push(Found::Health(Health {
        sales: 1_000_000_000,
        last_moment: Moment::of_secs(4_102_444_799),
        write_failed: true,
    }))?;
    findings.push(Found::Meter(sold))?;
    findings.push(Found::Meter(MeterSummary {
        base: Base::Y2035,
        tenths: 0,
        last_sale: None,
        ..sold
    }))?;
    findings.push(Found::Sale(first_sale()?))?;
    findings.push(Found::Quote(Quote {
        meter: sold.number,
        tariff: sold.tariff,
        tender: Tender::read(100_000_000).ok_or("a tender")?,
        tenths: Amount::of_tenths(18_201_624).ok_or("an amount")?,
        price: 1_820_163,
    }))?;
    let totals = Totals {
        sales: 3,
        tenths: 40,
        cash: 500,
    };
    findings.push(Found::ShiftTotals(2, totals))?;
    findings.push(Found::Tariffs(Vec::new(alloc)))?;
    findings.push(Found::Tariffs(listed_tariffs(alloc)?))?;
    findings.push(Found::Meters(Vec::new(alloc)))?;
    findings.push(Found::Meters(listed_meters(alloc)?))?;
    findings.push(Found::Shifts(Vec::new(alloc)))?;
    findings.push(Found::Shifts(listed_shifts(alloc, shift()?, totals)?))?;
    findings.push(Found::Sales(Vec::new(alloc)))?;
    findings.push(Found::Sales(listed_sales(alloc)?))?;
    Ok(findings)
}

// Two, and one whose token is not all digits.
fn listed_sales(alloc: Global) -> Result<Vec<Sale>, Fail> {
    let mut sales = Vec::new(alloc);
    sales.push(first_sale()?)?;
    sales.push(large_sale()?)?;
    sales.push(Sale {
        digits: *b"0007205760262798169x",
        ..first_sale()?
    })?;
    Ok(sales)
}

static REFUSALS: [Refusal; 22] = [
    Refusal::RefReused,
    Refusal::NoShift,
    Refusal::ShiftOpen,
    Refusal::NoMeter,
    Refusal::NoTariff,
    Refusal::Differs,
    Refusal::BeforeBase,
    Refusal::IdentifiersSpent,
    Refusal::IdentifierAhead,
    Refusal::TooLittle,
    Refusal::OfficeFull,
    Refusal::NoSale,
    Refusal::NoSuchShift,
    Refusal::Memory,
    Refusal::Store,
    Refusal::Stopped,
    Refusal::NotLater,
    Refusal::DayPast,
    Refusal::HasSales,
    Refusal::ImportRow(2, RowCause::Field(1)),
    Refusal::ImportRow(10001, RowCause::TooManyRows),
    Refusal::ImportRow(2, RowCause::DayPast),
];

static UNFOUND: [Refusal; 5] = [
    Refusal::NoMeter,
    Refusal::NoSale,
    Refusal::NoSuchShift,
    Refusal::Store,
    Refusal::Stopped,
];

// Each with whether the message closes the conversation.
static FAULTS: [(DeskFault, bool); 7] = [
    (DeskFault::Method(Method::Post), false),
    (DeskFault::Method(Method::Get), true),
    (DeskFault::Method(Method::Delete), false),
    (DeskFault::NoRoute, false),
    (DeskFault::NoRoute, true),
    (DeskFault::Clock, false),
    (DeskFault::Body, false),
];

static REFUSED: [MessageFault; 6] = [
    MessageFault::Head,
    MessageFault::Host,
    MessageFault::Length,
    MessageFault::Body,
    MessageFault::Method,
    MessageFault::Coding,
];

// The replies to all of these: to an answer where JSON is wanted if there is a choice. The
// conversation ends after a message that is refused, and the reply says so whether it was asked to
// or not.
fn replies() -> &'static str {
    "\
200 OK, 13 = {'done':true}
200 OK, 11 = {'added':2}
200 OK, 11 = {'added':0}
200 OK, 15 = {'withdrawn':1}
200 OK, 11 = {'shift':1}
200 OK, 20 = {'shift':1000000000}
200 OK, 189 = {'base':2014,'change':0,'meter':'12345678903','moment':1388534430,'number':1,\
    'operator':'ann','price':10,'ref':'A-1','shift':1,'tender':10,'tenths':1,'tid':2,\
    'token':'00072057602627981690'}
200 OK, 189 = {'base':2014,'change':0,'meter':'12345678903','moment':1388534430,'number':1,\
    'operator':'ann','price':10,'ref':'A-1','shift':1,'tender':10,'tenths':1,'tid':2,\
    'token':'00072057602627981690'}
200 OK, 282 = {'base':2035,'change':98179837,'meter':'12345678903','moment':4102444799,\
    'number':1000000000,'operator':'abcdefghijKLMN09','price':1820163,\
    'ref':'abcdefghijklmnopqrstuvwxyz-01234','shift':1000000000,'tender':100000000,\
    'tenths':18201624,'tid':16777215,'token':'00072057602627981690'}
200 OK, 92 = SHIFT 1 ann|OPENED 2014-01-01T08:00:00Z|CLOSED 2014-01-01T16:00:00Z|SALES 0|\
    TENTHS 0|CASH 0|
409 Conflict, 33 = {'error':'RefReused','refusal':1}
409 Conflict, 31 = {'error':'NoShift','refusal':2}
409 Conflict, 33 = {'error':'ShiftOpen','refusal':3}
404 Not Found, 31 = {'error':'NoMeter','refusal':4}
404 Not Found, 32 = {'error':'NoTariff','refusal':5}
409 Conflict, 31 = {'error':'Differs','refusal':6}
409 Conflict, 34 = {'error':'BeforeBase','refusal':7}
409 Conflict, 40 = {'error':'IdentifiersSpent','refusal':8}
409 Conflict, 39 = {'error':'IdentifierAhead','refusal':9}
422 Unprocessable Entity, 34 = {'error':'TooLittle','refusal':10}
409 Conflict, 35 = {'error':'OfficeFull','refusal':11}
404 Not Found, 31 = {'error':'NoSale','refusal':12}
404 Not Found, 36 = {'error':'NoSuchShift','refusal':13}
503 Service Unavailable, 31 = {'error':'Memory','refusal':15}
503 Service Unavailable, 30 = {'error':'Store','refusal':16}
503 Service Unavailable, 32 = {'error':'Stopped','refusal':17}
409 Conflict, 33 = {'error':'NotLater','refusal':18}
409 Conflict, 32 = {'error':'DayPast','refusal':19}
409 Conflict, 33 = {'error':'HasSales','refusal':20}
422 Unprocessable Entity, 60 = {'cause':'Field 1','error':'ImportRow','refusal':14,'row':2}
422 Unprocessable Entity, 68 = {'cause':'TooManyRows','error':'ImportRow','refusal':14,\
    'row':10001}
422 Unprocessable Entity, 60 = {'cause':'DayPast','error':'ImportRow','refusal':14,'row':2}
405 Method Not Allowed, 18, Allow: POST~ = {'error':'Method'}
405 Method Not Allowed, 18, Allow: GET, HEAD~Connection: close~ = {'error':'Method'}
405 Method Not Allowed, 18, Allow: DELETE~ = {'error':'Method'}
404 Not Found, 19 = {'error':'NoRoute'}
404 Not Found, 19, Connection: close~ = {'error':'NoRoute'}
503 Service Unavailable, 17 = {'error':'Clock'}
422 Unprocessable Entity, 16 = {'error':'Body'}
400 Bad Request, 16, Connection: close~ = {'error':'Head'}
400 Bad Request, 16, Connection: close~ = {'error':'Head'}
400 Bad Request, 16, Connection: close~ = {'error':'Host'}
400 Bad Request, 16, Connection: close~ = {'error':'Host'}
400 Bad Request, 18, Connection: close~ = {'error':'Length'}
400 Bad Request, 18, Connection: close~ = {'error':'Length'}
413 Payload Too Large, 16, Connection: close~ = {'error':'Body'}
413 Payload Too Large, 16, Connection: close~ = {'error':'Body'}
501 Not Implemented, 18, Connection: close~ = {'error':'Method'}
501 Not Implemented, 18, Connection: close~ = {'error':'Method'}
501 Not Implemented, 18, Connection: close~ = {'error':'Coding'}
501 Not Implemented, 18, Connection: close~ = {'error':'Coding'}
200 OK, 61 = {'format':4,'last_moment':null,'last_write':'done','sales':0}
200 OK, 78 = {'format':4,'last_moment':4102444799,'last_write':'failed','sales':1000000000}
200 OK, 99 = {'base':1993,'meter':'12345678903','sale':1000000000,'tariff':'flat','tenths':18446744\
    073709551615}
200 OK, 74 = {'base':2035,'meter':'12345678903','sale':null,'tariff':'flat','tenths':0}
200 OK, 189 = {'base':2014,'change':0,'meter':'12345678903','moment':1388534430,'number':1,'operato\
    r':'ann','price':10,'ref':'A-1','shift':1,'tender':10,'tenths':1,'tid':2,'token':'0007205760262\
    7981690'}
200 OK, 110 = {'change':98179837,'meter':'12345678903','price':1820163,'tariff':'flat','tender':100\
    000000,'tenths':18201624}
200 OK, 44 = {'cash':500,'sales':3,'shift':2,'tenths':40}
200 OK, 14 = {'tariffs':[]}
200 OK, 196 = {'tariffs':[{'later':[{'from':'2014-02-01','steps':'500:100;:250'},{'from':'2099-12-3\
    1','steps':':1'}],'name':'flat','steps':':100'},{'later':[],'name':'z-9','steps':'1:1;429496729\
    5:1000000;:7'}]}
200 OK, 13 = {'meters':[]}
200 OK, 115 = {'meters':[{'base':2014,'meter':'12345678903','tariff':'flat'},{'base':1993,'meter':'\
    79927398713','tariff':'z-9'}]}
200 OK, 13 = {'shifts':[]}
200 OK, 237 = {'shifts':[{'cash':500,'closed':1388592000,'number':1,'opened':1388563200,'operator':\
    'ann','sales':3,'tenths':40},{'cash':18446744073709551615,'closed':null,'number':1000000000,'op\
    ened':1388563200,'operator':'ann','sales':0,'tenths':0}]}
200 OK, 12 = {'sales':[]}
200 OK, 674 = {'sales':[{'base':2014,'change':0,'meter':'12345678903','moment':1388534430,'number':\
    1,'operator':'ann','price':10,'ref':'A-1','shift':1,'tender':10,'tenths':1,'tid':2,'token':'000\
    72057602627981690'},{'base':2035,'change':98179837,'meter':'12345678903','moment':4102444799,'n\
    umber':1000000000,'operator':'abcdefghijKLMN09','price':1820163,'ref':'abcdefghijklmnopqrstuvwx\
    yz-01234','shift':1000000000,'tender':100000000,'tenths':18201624,'tid':16777215,'token':'00072\
    057602627981690'},{'base':2014,'change':0,'meter':'12345678903','moment':1388534430,'number':1,\
    'operator':'ann','price':10,'ref':'A-1','shift':1,'tender':10,'tenths':1,'tid':2,'token':'00072\
    05760262798169x'}]}
404 Not Found, 31 = {'error':'NoMeter','refusal':4}
404 Not Found, 31 = {'error':'NoSale','refusal':12}
404 Not Found, 36 = {'error':'NoSuchShift','refusal':13}
503 Service Unavailable, 30 = {'error':'Store','refusal':16}
503 Service Unavailable, 32 = {'error':'Stopped','refusal':17}
"
}

// They have no clause: a proof takes much longer over a list that it knows item by item.
fn refusals() -> &'static [Refusal] {
    &REFUSALS
}

fn unfound() -> &'static [Refusal] {
    &UNFOUND
}

fn faults() -> &'static [(DeskFault, bool)] {
    &FAULTS
}

fn message_faults() -> &'static [MessageFault] {
    &REFUSED
}

// What each outcome is told with, and whether its message closes the conversation.
fn outcomes(alloc: Global) -> Result<Vec<(Outcome, bool)>, Fail> {
    let mut outcomes = Vec::new(alloc);
    for answer in answers(alloc)? {
        outcomes.push((Outcome::Replied(Form::Json, Ok(answer)), false))?;
    }
    for refusal in refusals() {
        outcomes.push((Outcome::Replied(Form::Paper, Err(*refusal)), false))?;
    }
    for (fault, closes) in faults() {
        outcomes.push((Outcome::Faulty(*fault), *closes))?;
    }
    for fault in message_faults() {
        outcomes.push((Outcome::Refused(*fault), false))?;
        outcomes.push((Outcome::Refused(*fault), true))?;
    }
    for found in findings(alloc)? {
        outcomes.push((Outcome::Found(Form::Json, Ok(found)), false))?;
    }
    for refusal in unfound() {
        outcomes.push((Outcome::Found(Form::Paper, Err(*refusal)), false))?;
    }
    Ok(outcomes)
}

#[test]
fn each_outcome(rt: HostRuntime) -> Result<(), Fail> {
    let alloc = rt.alloc();
    let outcomes = outcomes(alloc)?;
    let mut lines = replies().lines();
    for (outcome, closes) in &outcomes {
        let line = lines.next().ok_or("no reply")?;
        let found = reply_bytes(alloc, None, outcome, *closes)?;
        assert_eq!(rt; found, reply(alloc, line)?, "{line}");
    }
    assert!(rt; lines.next().is_none());
    Ok(())
}

// The body alone ends the reply.
#[test]
fn each_body(rt: HostRuntime) -> Result<(), Fail> {
    let alloc = rt.alloc();
    for found in findings(alloc)? {
        let body = found_json(alloc, &found)?;
        let reply = reply_bytes(alloc, None, &Outcome::Found(Form::Json, Ok(found)), false)?;
        assert!(rt; reply.as_slice().ends_with(&body));
        assert!(rt; body.as_slice().starts_with(b"{"));
    }
    Ok(())
}

const RECEIPT: &str = "200 OK, 118 = SALE 1|METER 12345678903|TIME 2014-01-01T00:00:30Z|KWH 0.1|\
    PRICE 10|TENDER 10|CHANGE 0|TOKEN 0007 2057 6026 2798 1690|";

#[test]
fn a_receipt(rt: HostRuntime) -> Result<(), Fail> {
    let alloc = rt.alloc();
    let printed = Outcome::Replied(Form::Paper, Ok(Answer::Reprinted(first_sale()?)));
    assert_eq!(rt;
        reply_bytes(alloc, None, &printed, false)?,
        reply(alloc, RECEIPT)?
    );
    let found = Outcome::Found(Form::Paper, Ok(Found::Sale(first_sale()?)));
    assert_eq!(rt;
        reply_bytes(alloc, None, &found, false)?,
        reply(alloc, RECEIPT)?
    );
    Ok(())
}

// The second of the example in RFC 9110, 5.6.7, and the last one: its date is the one that another
// program gives.
#[test]
fn a_date(rt: HostRuntime) -> Result<(), Fail> {
    let alloc = rt.alloc();
    let outcome = Outcome::Faulty(DeskFault::NoRoute);
    let line = "404 Not Found, 19 = {'error':'NoRoute'}";
    for second in [784_111_777, 4_102_444_799] {
        let dated = moment_given(second);
        assert!(rt; dated.is_some());
        let found = reply_bytes(alloc, dated, &outcome, false)?;
        assert_eq!(rt; found, reply_at(alloc, second, line)?);
    }
    assert!(rt; moment_given(4_102_444_800).is_none());
    let moment = Moment::of_secs(784_111_777).ok_or("a moment")?;
    assert_eq!(rt;
        http_date(moment).as_slice(),
        b"Sun, 06 Nov 1994 08:49:37 GMT".as_slice()
    );
    Ok(())
}
