ghost use Rattle.std.specs.Prelude.{◌≡◌, IfOk, IfSome, Some};

use crate::{Cell, Columns, is_plain, put_record, read_front, read_whole, record_law};
use arrayvec::ArrayVec;
use serde_json::Value;
use std::alloc::{AllocError, Global};
use std::process::Abort;
use std::test::Fail;

const SHIFT: [&str; 1] = ["shift"];

const NAMES: [&str; 4] = ["meter", "sale", "tariff", "tenths"];

// What NAMES tell of a meter.
type Meter = (
    ArrayVec<u8, 11>,
    (Option<u32>, (ArrayVec<u8, 32>, (u64, ()))),
);

// ---- the law

// What is read of the record that is written of a shift's number is that number.
fn told_back(alloc: Global, shift: u32) -> Result<Option<(u32, ())>, AllocError>
    ensures { IfOk result (λ found. found ≡ Some (shift, tt)) }
{
    record_law();
    <(u32, ())>::columns_law();
    let mut text = Vec::new(alloc);
    put_record(&mut text, &SHIFT, &[Cell::Number(u64::from(shift))])?;
    Ok(read_whole::<(u32, ())>(&text, &SHIFT))
}

// So is what JSON has under its name.
fn json_of(alloc: Global, shift: u32) -> Option<u64>
    ensures { IfSome result (λ number. number ≡ shift) }
{
    record_law();
    let mut text = Vec::new(alloc);
    let Ok(()) = put_record(&mut text, &SHIFT, &[Cell::Number(u64::from(shift))]) else {
        return None;
    };
    let Ok(value) = Value::from_slice(alloc, &text) else {
        return None;
    };
    match value.get("shift") {
        Some(member) => member.as_u64(),
        None => None,
    }
}

#[test]
fn tells_back(rt: HostRuntime) -> Result<(), Fail> {
    assert_eq!(rt; told_back(rt.alloc(), 1)?, Some((1, ())));
    assert_eq!(rt; told_back(rt.alloc(), u32::MAX)?, Some((u32::MAX, ())));
    assert_eq!(rt; json_of(rt.alloc(), 7), Some(7));
    Ok(())
}

// ---- rows: what a desk replies, as docs/DESK.md has it

// That a record has this text.
fn writes(
    rt: &impl Abort,
    alloc: Global,
    names: &[&str],
    cells: &[Cell<'_>],
    told: &str,
) -> Result<(), Fail> {
    let mut text = Vec::new(alloc);
    put_record(&mut text, names, cells)?;
    assert_eq!(rt; text.as_slice(), told.as_bytes());
    Ok(())
}

#[test]
fn writes_replies(rt: HostRuntime) -> Result<(), Fail> {
    use Cell::{Nothing, Number, Text};
    let alloc = rt.alloc();
    writes(&rt, alloc, &[], &[], "{}")?;
    writes(&rt, alloc, &SHIFT, &[Number(1)], "{\"shift\":1}")?;
    writes(
        &rt,
        alloc,
        &["error"],
        &[Text(b"Clock")],
        "{\"error\":\"Clock\"}",
    )?;
    writes(
        &rt,
        alloc,
        &["error", "refusal"],
        &[Text(b"TooLittle"), Number(10)],
        "{\"error\":\"TooLittle\",\"refusal\":10}",
    )?;
    writes(
        &rt,
        alloc,
        &["format", "last_moment", "last_write", "sales"],
        &[Number(4), Nothing, Text(b"done"), Number(0)],
        "{\"format\":4,\"last_moment\":null,\"last_write\":\"done\",\"sales\":0}",
    )?;
    writes(
        &rt,
        alloc,
        &NAMES,
        &[
            Text(b"12345678903"),
            Number(1),
            Text(b"flat"),
            Number(u64::MAX),
        ],
        "{\"meter\":\"12345678903\",\"sale\":1,\"tariff\":\"flat\",\"tenths\":18446744073709551615}",
    )?;
    Ok(())
}

// What a text tells of a shift.
fn shift_in(text: &str) -> Option<u32> {
    match read_whole::<(u32, ())>(text.as_bytes(), &SHIFT) {
        Some((shift, ())) => Some(shift),
        None => None,
    }
}

#[test]
fn reads_exactly(rt: HostRuntime) -> Result<(), Fail> {
    assert_eq!(rt; shift_in("{\"shift\":0}"), Some(0));
    assert_eq!(rt; shift_in("{\"shift\":4294967295}"), Some(u32::MAX));
    // no blank, no leading zero, no sign, no other name, no text, no more bits, nothing behind
    assert_eq!(rt; shift_in("{\"shift\": 1}"), None);
    assert_eq!(rt; shift_in("{\"shift\":01}"), None);
    assert_eq!(rt; shift_in("{\"shift\":+1}"), None);
    assert_eq!(rt; shift_in("{\"Shift\":1}"), None);
    assert_eq!(rt; shift_in("{\"shift\":\"1\"}"), None);
    assert_eq!(rt; shift_in("{\"shift\":4294967296}"), None);
    assert_eq!(rt; shift_in("{\"shift\":1}\n"), None);
    assert_eq!(rt; shift_in("{\"shift\":1,}"), None);
    assert_eq!(rt; shift_in("{\"shift\":1"), None);
    assert_eq!(rt; shift_in("{\"shift\":}"), None);
    assert_eq!(rt; shift_in("{}"), None);
    Ok(())
}

#[test]
fn reads_each_kind(rt: HostRuntime) -> Result<(), Fail> {
    let told = b"{\"meter\":\"12345678903\",\"sale\":null,\"tariff\":\"flat\",\"tenths\":7} more";
    let (meter, rest) = read_front::<Meter>(told.as_slice(), &NAMES).ok_or("a meter")?;
    let (number, (sale, (tariff, (tenths, ())))) = meter;
    assert_eq!(rt; number.as_slice(), b"12345678903".as_slice());
    assert_eq!(rt; sale, None);
    assert_eq!(rt; tariff.as_slice(), b"flat".as_slice());
    assert_eq!(rt; tenths, 7);
    assert_eq!(rt; rest, b" more".as_slice());
    assert!(rt; is_plain(b"A-1"));
    assert!(rt; !is_plain(b"a\\b"));
    Ok(())
}
