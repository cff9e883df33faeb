//! Files of meters and of tariffs, whose steps may have a first day.

use office_lines::lines::stamped_of;
use office_rules::{Request, Rows};
use papers::{RowFault, read_meters, read_tariffs};
use std::alloc::{AllocError, Global};
use std::test::Fail;

// Files, each with its rows as a line of `tools/oracle` has them, or its first fault. In a file `'`
// stands for `"`, `|` for a line feed, `~` for a carriage return and a line feed, and `^` for the
// byte 255.
fn files() -> &'static str {
    "\
meters meter,base,tariff,key|12345678903,2014,flat,0123456789abcdef|10000000009,2035,b-2,\
    0000000000000000| = import m,12345678903,2014,flat,0123456789abcdef m,10000000009,2035,b-2,\
    0000000000000000
tariffs name,steps|flat,:100|block,500:100;:200| = import t,flat,:100 t,block,500:100;:200
tariffs name,steps,until| = At(0, Header)
tariffs Name,steps| = At(0, Header)
tariffs name,steps|flat;:100| = At(1, Columns)
tariffs name,steps|^^,:100| = At(1, Field(1))
tariffs name,steps|,:0| = At(1, Field(1))
tariffs name,steps|flat,| = At(1, Field(2))
tariffs name,steps|flat,500:100| = At(1, Field(2))
meters meter,base,tariff,key|12345678903,2014,flat,0000000000000000 = import m,12345678903,2014,\
    flat,0000000000000000
meters \u{feff}meter,base,tariff,key|12345678903,2014,flat,0000000000000000| = import m,\
    12345678903,2014,flat,0000000000000000
meters meter,base,tariff,key~12345678903,2014,flat,0000000000000000~ = import m,12345678903,2014,\
    flat,0000000000000000
meters 'meter',base,'tariff',key|12345678903,'2014',flat,'0000000000000000'| = import m,\
    12345678903,2014,flat,0000000000000000
meters ||meter,base,tariff,key||12345678903,2014,flat,0000000000000000|| = import m,12345678903,\
    2014,flat,0000000000000000
meters meter,base,tariff,key| = import
meters meter,base,tariff,key = import
meters  = At(0, Header)
meters || = At(0, Header)
meters 12345678903,2014,flat,0000000000000000| = At(0, Header)
meters Meter,base,tariff,key| = At(0, Header)
meters  meter,base,tariff,key| = At(0, Header)
meters meter,base,tariff| = At(0, Header)
meters meter,base,tariff,key,| = At(0, Header)
meters \u{feff}\u{feff}meter,base,tariff,key| = At(0, Header)
meters meter,base,tariff,key|12345678903,2014,flat| = At(1, Columns)
meters meter,base,tariff,key|12345678904,2014,flat,0,| = At(1, Columns)
meters meter,base,tariff,key| | = At(1, Columns)
meters meter,base,tariff,key| 12345678903,2014,flat,0000000000000000| = At(1, Field(1))
meters meter,base,tariff,key|12345678904,2015,,0| = At(1, Field(1))
meters meter,base,tariff,key|12345678903,2015,flat,0000000000000000| = At(1, Field(2))
meters meter,base,tariff,key|12345678903,02014,flat,0000000000000000| = At(1, Field(2))
meters meter,base,tariff,key|12345678903,2014 ,flat,0000000000000000| = At(1, Field(2))
meters meter,base,tariff,key|12345678903,2014,,0000000000000000| = At(1, Field(3))
meters meter,base,tariff,key|12345678903,2014,fl^at,0000000000000000| = At(1, Field(3))
meters meter,base,tariff,key|12345678903,2014,flat,000000000000000A| = At(1, Field(4))
meters meter,base,tariff,key|12345678903,2014,flat,0| x| = At(1, Field(4))
meters meter,base,tariff,key|12345678903,2014,flat,0000000000000000|12345678904,2014,flat,\
    0| = At(2, Field(1))
tariffs name,steps,from|flat,:100,| = import t,flat,:100
tariffs name,steps,from|flat,:100, = import t,flat,:100
tariffs name,steps,from|'flat',':100',''| = import t,flat,:100
tariffs name,steps,from|flat,:100,2014-02-01| = import s,flat,2014-02-01,:100
tariffs name,steps,from|flat,:100,2014-02-01~ = import s,flat,2014-02-01,:100
tariffs name,steps,from||flat,:100,'2014-02-01'|| = import s,flat,2014-02-01,:100
tariffs name,steps,from|flat,:100,1993-01-01 = import s,flat,1993-01-01,:100
tariffs name,steps,from|flat,:100,2016-02-29 = import s,flat,2016-02-29,:100
tariffs name,steps,from|flat,:100,2099-12-31| = import s,flat,2099-12-31,:100
tariffs name,steps,from|flat,:100| = At(1, Columns)
tariffs name,steps,from|flat| = At(1, Columns)
tariffs name,steps,from| | = At(1, Columns)
tariffs name,steps,from|flat,:100,,| = At(1, Columns)
tariffs name,steps,from|,:0,2014-02-01,| = At(1, Columns)
tariffs name,steps,from|,:0,x| = At(1, Field(1))
tariffs name,steps,from|2014-02-01,:0,flat| = At(1, Field(2))
tariffs name,steps,from|flat,,2014-02-01| = At(1, Field(2))
tariffs name,steps,from|flat,:0,2014-02-30| = At(1, Field(2))
tariffs name,steps,from|flat,:100,|flat,:200| = At(2, Columns)
tariffs name,steps,from|flat,:100,|flat,:200,x| = At(2, Field(3))
tariffs name,steps,from|flat,:100,x|flat| = At(1, Field(3))
tariffs name,steps,from|flat,:100,  = At(1, Field(3))
tariffs name,steps,from|flat,:100,2014-2-01 = At(1, Field(3))
tariffs name,steps,from|flat,:100,2014-02-1 = At(1, Field(3))
tariffs name,steps,from|flat,:100,2014-02-30 = At(1, Field(3))
tariffs name,steps,from|flat,:100,2014-02-29 = At(1, Field(3))
tariffs name,steps,from|flat,:100,2014-13-01 = At(1, Field(3))
tariffs name,steps,from|flat,:100,2014-00-01 = At(1, Field(3))
tariffs name,steps,from|flat,:100,+002014-02-01 = At(1, Field(3))
tariffs name,steps,from|flat,:100,20140201 = At(1, Field(3))
tariffs name,steps,from|flat,:100, 2014-02-01 = At(1, Field(3))
tariffs name,steps,from|flat,:100,2014-02-01  = At(1, Field(3))
tariffs name,steps,from|flat,:100,2014-02-01T00:00:00Z = At(1, Field(3))
tariffs name,steps,from|flat,:100,'''2014-02-01''' = At(1, Field(3))
tariffs name,steps,from|flat,:100,1992-12-31 = At(1, Field(3))
tariffs name,steps,from|flat,:100,2100-01-01 = At(1, Field(3))
tariffs name,steps,from|flat,:100,7701 = At(1, Field(3))
tariffs name,steps,from|flat,:100,^ = At(1, Field(3))
tariffs name,steps,from| = import
meters name,steps,from| = At(0, Header)
tariffs name,steps,from = import
meters name,steps,from = At(0, Header)
tariffs \u{feff}name,steps,from~ = import
meters \u{feff}name,steps,from~ = At(0, Header)
tariffs |'name',steps,'from'| = import
meters |'name',steps,'from'| = At(0, Header)
tariffs name,steps,From| = At(0, Header)
tariffs name,steps,from | = At(0, Header)
tariffs name,from,steps| = At(0, Header)
tariffs name,steps,from,| = At(0, Header)
tariffs name,steps,| = At(0, Header)
tariffs name| = At(0, Header)
tariffs flat,:100,2014-02-01| = At(0, Header)
tariffs \u{feff}\u{feff}name,steps,from| = At(0, Header)
tariffs name,steps|flat,:100,2014-02-01| = At(1, Columns)
tariffs name,steps|flat,:100,| = At(1, Columns)
tariffs name,steps,from|flat,:100,|flat,:200,2014-02-01|block,500:100;:200,| = import t,flat,\
    :100 s,flat,2014-02-01,:200 t,block,500:100;:200
"
}

fn bytes(alloc: Global, text: &str) -> Result<Vec<u8>, AllocError> {
    let mut bytes = Vec::new(alloc);
    for byte in text.bytes() {
        if byte == b'~' {
            bytes.push(b'\r')?;
        }
        bytes.push(match byte {
            b'\'' => b'"',
            b'|' | b'~' => b'\n',
            b'^' => 255,
            _ => byte,
        })?;
    }
    Ok(bytes)
}

// The rows as the program names them, or the fault.
fn named(alloc: Global, read: Result<Rows, RowFault>) -> Result<String, Fail> {
    match read {
        Ok(rows) => told(alloc, &Request::Import(rows)),
        Err(fault) => Ok(format!(in alloc; "{fault:?}")?),
    }
}

fn told(alloc: Global, request: &Request) -> Result<String, Fail> {
    Ok(format!(in alloc; "{request:?}")?)
}

fn wanted(alloc: Global, text: &str) -> Result<String, Fail> {
    if text.starts_with("import") {
        let line = format!(in alloc; "1388534430 {text}")?;
        return told(alloc, &stamped_of(alloc, 0, line.as_str())?.request);
    }
    Ok(format!(in alloc; "{text}")?)
}

#[test]
fn each_file(rt: HostRuntime) -> Result<(), Fail> {
    let alloc = rt.alloc();
    for line in files().lines() {
        let (file, rows) = line.split_once(" = ").ok_or("nothing wanted")?;
        let (kind, text) = file.split_once(' ').ok_or("no file")?;
        let text = bytes(alloc, text)?;
        let read = if kind == "meters" {
            read_meters(alloc, &text)
        } else {
            read_tariffs(alloc, &text)
        };
        let found = named(alloc, read)?;
        assert_eq!(rt; found.as_str(), wanted(alloc, rows)?.as_str(), "{line}");
    }
    assert_eq!(rt; files().lines().count(), 94);
    Ok(())
}

// So many rows, as they are named, or the fault.
fn many(alloc: Global, good: u32, end: &str) -> Result<String, Fail> {
    let mut file = bytes(alloc, "meter,base,tariff,key|")?;
    for _ in 0..good {
        file.extend_from_slice(b"12345678903,2014,flat,0000000000000000\n")?;
    }
    file.extend_from_slice(end.as_bytes())?;
    match read_meters(alloc, &file) {
        Ok(rows) => Ok(format!(in alloc; "{} rows", rows.as_slice().len())?),
        Err(fault) => Ok(format!(in alloc; "{fault:?}")?),
    }
}

#[test]
fn many_rows(rt: HostRuntime) -> Result<(), Fail> {
    for (good, end, wanted) in [
        (9_999, "x\nx\n", "At(10000, Columns)"),
        (10_000, "", "10000 rows"),
        (10_001, "", "At(10001, TooManyRows)"),
        (10_000, "x\n", "At(10001, TooManyRows)"),
    ] {
        let found = many(rt.alloc(), good, end)?;
        assert_eq!(rt; found.as_str(), wanted);
    }
    Ok(())
}
