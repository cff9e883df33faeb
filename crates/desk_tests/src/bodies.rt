//! Bodies, and what each asks for or why it is refused.

use crate::texts::bytes;
use crate::words::lookup;
use desk::{Ask, DeskFault, Meaning, Method, Received, Routes, read_rows};
use office_rules::Request;
use office_testing::lines::stamped_of;
use office_testing::values::FIRST_DAY;
use std::alloc::Global;
use std::test::Fail;

// Each a body behind its target, and below them what is asked or the fault: a request is a line of
// `tools/oracle`, and a look-up one of `words`. `texts` says how the bodies are written.
fn bodies() -> &'static str {
    "\
/tariffs = {'name':'flat','steps':'500:100;:200'}
1 add-tariff flat 500:100;:200
/tariffs = {'name':'flat','steps':':0'}
Body
/tariffs = {'name':'flat','steps':[]}
Body
/tariffs = {'name':'','steps':':100'}
Body
/meters =  {'meter': '12345678903', 'key': '0123456789abcdef',~\
    'tariff': 'fl\\u0061t', 'base': 2014}\u{20}
1 add-meter 12345678903 2014 flat 0123456789abcdef
/meters = {'base':2015,'key':'0000000000000000','meter':'12345678903','tariff':'f'}
Body
/meters = {'base':'2014','key':'0000000000000000','meter':'12345678903','tariff':'f'}
Body
/meters = {'base':2014,'key':'000000000000000A','meter':'12345678903','tariff':'f'}
Body
/meters/12345678903/tariff = {'tariff':'flat'}
1 set-tariff 12345678903 flat
/meters/12345678903/base = {'base':1993}
1 move-base 12345678903 1993
/meters/12345678903/base = {'base':2014}
1 move-base 12345678903 2014
/meters/12345678903/base =  {\t'base' : 2035~}\u{20}
1 move-base 12345678903 2035
/meters/12345678903/base = {'base':1993,'base':2014}
1 move-base 12345678903 2014
/meters/12345678903/base =\u{20}
Body
/meters/12345678903/base = 2014
Body
/meters/12345678903/base = {}
Body
/meters/12345678903/base = {'base':null}
Body
/meters/12345678903/base = {'base':'2014'}
Body
/meters/12345678903/base = {'base':2014.0}
Body
/meters/12345678903/base = {'base':2015}
Body
/meters/12345678903/base = {'base':-2014}
Body
/meters/12345678903/base = {'base':18446744073709553630}
Body
/meters/12345678903/base = {'Base':2014}
Body
/meters/12345678903/base = {'tariff':'flat'}
Body
/meters/12345678903/base = {'base':2014,'meter':'12345678903'}
Body
/meters/12345678903/base = {'base':2014}{}
Body
/tariffs/flat/steps = {'from':'1993-01-01','steps':'500:100;:200'}
1 add-steps flat 1993-01-01 500:100;:200
/tariffs/flat/steps = {'steps':'500:100;:200','from':'2014-02-01'}
1 add-steps flat 2014-02-01 500:100;:200
/tariffs/flat/steps = {'from':'2096-02-29','steps':'500:100;:200'}
1 add-steps flat 2096-02-29 500:100;:200
/tariffs/flat/steps = {'from':'2099-12-31','steps':'500:100;:200'}
1 add-steps flat 2099-12-31 500:100;:200
/tariffs/flat/steps =\u{20}
Body
/tariffs/flat/steps = {}
Body
/tariffs/flat/steps = {'from':'2014-02-01'}
Body
/tariffs/flat/steps = {'steps':':200'}
Body
/tariffs/flat/steps = {'from':'2014-02-01','steps':':200','name':'flat'}
Body
/tariffs/flat/steps = {'name':'flat','steps':':200'}
Body
/tariffs/flat/steps = {'from':':200','steps':'2014-02-01'}
Body
/tariffs/flat/steps = {'from':7701,'steps':':200'}
Body
/tariffs/flat/steps = {'from':'','steps':':200'}
Body
/tariffs/flat/steps = {'from':'20140201','steps':':200'}
Body
/tariffs/flat/steps = {'from':'2014-02-29','steps':':200'}
Body
/tariffs/flat/steps = {'from':'2014-02-01T00:00:00Z','steps':':200'}
Body
/tariffs/flat/steps = {'from':'1992-12-31','steps':':200'}
Body
/tariffs/flat/steps = {'from':'2100-01-01','steps':':200'}
Body
/tariffs/flat/steps = {'from':'2014-02-01','steps':'200'}
Body
/tariffs/flat/steps = {'from':'2014-02-01','steps':':0'}
Body
/tariffs/flat/steps = {'from':'2014-02-01','steps':'1:1;2:1;3:1;4:1;5:1;6:1;7:1;8:1;:1'}
Body
/shifts = {'operator':'ann'}
1 open-shift ann
/shifts = {'operator':''}
Body
/shifts = {'operator':'ann^'}
Body
/shifts/close = {'operator':'ann'}
1 close-shift ann
/shifts/close = {'operator':null}
Body
/shifts/close = {'tariff':'flat'}
Body
/sales = {'tender':9,'meter':'12345678903','operator':'ann','ref':'A-1','tender':10}
1 sell ann A-1 12345678903 10
/sales =\u{20}
Body
/sales = null
Body
/sales = []
Body
/sales = {}
Body
/sales = {'meter':'12345678903','operator':'ann','tender':10}
Body
/sales = {'meter':'12345678903','operator':'ann','ref':'A-1','tender':10,'x':0}
Body
/sales = {'meter':'12345678903','operator':'ann','Ref':'A-1','tender':10}
Body
/sales = {'meter':12345678903,'operator':'ann','ref':'A-1','tender':10}
Body
/sales = {'meter':'12345678904','operator':'ann','ref':'A-1','tender':10}
Body
/sales = {'meter':'12345678903','operator':'a b','ref':'A-1','tender':10}
Body
/sales = {'meter':'12345678903','operator':'ann','ref':'A_1','tender':10}
Body
/sales = {'meter':'12345678903','operator':'ann','ref':'A-1','tender':0}
Body
/sales = {'meter':'12345678903','operator':'ann','ref':'A-1','tender':100000001}
Body
/sales = {'meter':'12345678903','operator':'ann','ref':'A-1','tender':'10'}
Body
/sales = {'meter':'12345678903','operator':'ann','ref':'A-1','tender':10.0}
Body
/sales = {'meter':'12345678903','operator':'ann','ref':'A-1','tender':10}}
Body
/shifts/3 =\u{20}
1 report 3
/shifts/3 = ^
1 report 3
/shifts/3 = {}
1 report 3
/sales/4 =\u{20}
1 reprint 4
/sales/4 = ^
1 reprint 4
/sales/4 = {}
1 reprint 4
/sales/5/receipt =\u{20}
Receipt(5)
/sales/5/receipt = ^
Receipt(5)
/sales/5/receipt = {}
Receipt(5)
/health = {}
look health
/meters/12345678903 = {'base':2014}
look meter 12345678903
/operators/ann/sales/A-1 = ^
look sale-of-ref ann A-1
/imports/meters = meter,base,tariff,key|12345678903,2014,flat,0000000000000000|
1 import m,12345678903,2014,flat,0000000000000000
/imports/meters = name,steps|flat,:100|home,500:100;:200|
At(0, Header)
/imports/meters =\u{20}
At(0, Header)
/imports/meters = meter,base,tariff,key|12345678904,2014,flat,0000000000000000|
At(1, Field(1))
/imports/tariffs = name,steps|flat,:100|home,500:100;:200|
1 import t,flat,:100 t,home,500:100;:200
/imports/tariffs = name,steps,from|flat,:100,|flat,:200,2014-02-01|
1 import t,flat,:100 s,flat,2014-02-01,:200
/imports/tariffs = meter,base,tariff,key|12345678903,2014,flat,0000000000000000|
At(0, Header)
"
}

/// What a message to this target asks with this body, as the program names it, or its fault. It is
/// a POST where that is allowed, and else a GET. It has no clause, so that the proof of a test does
/// not carry what the desk promises.
pub(crate) fn asked(
    alloc: Global,
    routes: &Routes,
    target: &str,
    body: &[u8],
) -> Result<String, Fail> {
    let posted = Received {
        method: Method::Post,
        target: target.as_bytes(),
        body,
        closes: false,
        expects: false,
        len: 0,
    };
    let got = Received {
        method: Method::Get,
        ..posted
    };
    let meaning = routes.meaning_of(alloc, FIRST_DAY, &posted);
    match &meaning {
        Meaning::Told(DeskFault::Method(_)) => {
            told(alloc, &routes.meaning_of(alloc, FIRST_DAY, &got))
        }
        _ => told(alloc, &meaning),
    }
}

fn told(alloc: Global, meaning: &Meaning<'_>) -> Result<String, Fail> {
    match meaning {
        Meaning::Asks(moment, ask) => {
            if moment.secs() == FIRST_DAY {
                named(alloc, ask)
            } else {
                Err(Fail::from("another moment"))
            }
        }
        Meaning::Told(fault) => Ok(format!(in alloc; "{fault:?}")?),
        Meaning::Memory => Err(Fail::from("no memory")),
    }
}

// An ask as the program names it; a file of rows by the request that imports them, or by its fault.
fn named(alloc: Global, ask: &Ask<'_>) -> Result<String, Fail> {
    match ask {
        Ask::Import(kind, csv) => match read_rows(alloc, *kind, csv) {
            Ok(rows) => request(alloc, &Request::Import(rows)),
            Err(fault) => Ok(format!(in alloc; "{fault:?}")?),
        },
        Ask::Do(asked) => request(alloc, asked),
        Ask::Receipt(sale) => Ok(format!(in alloc; "Receipt({sale})")?),
        Ask::Look(lookup) => Ok(format!(in alloc; "{lookup:?}")?),
    }
}

fn request(alloc: Global, asked: &Request) -> Result<String, Fail> {
    Ok(format!(in alloc; "{asked:?}")?)
}

/// The same by a line.
pub(crate) fn wanted(alloc: Global, line: &str) -> Result<String, Fail> {
    let (front, rest) = line.split_once(' ').unwrap_or((line, ""));
    match front {
        "1" => {
            let line = format!(in alloc; "1388534430 {rest}")?;
            request(alloc, &stamped_of(alloc, 0, line.as_str())?.request)
        }
        "look" => {
            let (word, value) = rest.split_once(' ').unwrap_or((rest, ""));
            let lookup = lookup(word, value)?;
            Ok(format!(in alloc; "{lookup:?}")?)
        }
        _ => Ok(format!(in alloc; "{line}")?),
    }
}

#[test]
fn what_each_body_asks_for(rt: HostRuntime) -> Result<(), Fail> {
    let alloc = rt.alloc();
    let routes = Routes::new(alloc)?;
    let mut lines = bodies().lines();
    for _ in 0..89u32 {
        let line = lines.next().ok_or("no body")?;
        let (target, body) = line.split_once(" = ").ok_or("no target")?;
        let found = asked(alloc, &routes, target, &bytes(alloc, body)?)?;
        let wanted = wanted(alloc, lines.next().ok_or("nothing wanted")?)?;
        assert_eq!(rt; found.as_str(), wanted.as_str(), "{line}");
    }
    assert!(rt; lines.next().is_none());
    Ok(())
}
