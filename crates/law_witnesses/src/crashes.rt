//! Runs on what a crash of the machine left.
ghost use Rattle.std.specs.Prelude.{◌≡◌, IfSome, IsTrue};
ghost use Rattle.sqlite_disk.specs.Memory.{memory_is_usable};
ghost use Rattle.law_witnesses.specs.Runs.{IsLeftOf};

use crate::kept::Kept;
use crate::offices::day;
use crate::runs::{Later, Then, WORDS, back_of, order_said, ports_on, ran, sold_on_files};
use office_lines::values::{FIRST_DAY, METER, moment, order};
use office_rules::{Moment, Order, Request, Stamped};
use program_laws::run_law;
use sqlite::Files;
use sqlite_disk::{Crash, Disk, Memory};
use std::alloc::Global;
use std::test::Fail;
use vend_commands::CommandEnd;
use vend_core::office_law;

// What a crash leaves of a file.
fn crashed(mut file: Memory) -> Memory
    ensures left { IsLeftOf ⟦<Memory as Disk>⟧ file result }
    ensures usable { IsTrue (memory_is_usable result) }
{
    file.crash();
    file
}

// Books sell an order. A run by words that say another one sells that, and then the machine
// crashes: what was not synced is lost. A run by the same words on what is left, on a machine of
// another type, prints the receipt that the first one printed.
fn receipt_after_crash(
    alloc: Global,
    ats: &[Stamped],
    moment: Moment,
    order: &Order,
    words: &[&str],
) -> Option<(Vec<u8>, Vec<u8>)>
    ensures { IfSome result (λ both. both.1.items ≡ both.0.items) }
{
    office_law();
    run_law::<Kept<Then>>();
    run_law::<Kept<Later>>();
    let Some(_said) = order_said(alloc, words) else {
        return None;
    };
    let Some((_sale, files)) = sold_on_files(alloc, ats, moment, order) else {
        return None;
    };
    let Some((ended, first)) = ran(alloc, ports_on::<Then>(files, moment.secs()), words) else {
        return None;
    };
    let CommandEnd::Done = ended.end else {
        return None;
    };
    let Some((log, db)) = back_of(ended) else {
        return None;
    };
    let left = Files {
        log: crashed(log),
        db: crashed(db),
    };
    let Some((again, second)) = ran(alloc, ports_on::<Later>(left, moment.secs()), words) else {
        return None;
    };
    match again.end {
        CommandEnd::Done => Some((first, second)),
        _ => None,
    }
}

#[test]
fn a_run_after_a_crash_prints_the_first_receipt(rt: HostRuntime) -> Result<(), Fail> {
    let ats = day(rt.alloc(), &[])?;
    let Request::Sell(order) = order(b"A-6", METER, 20)? else {
        return Err("no order".into());
    };
    let (first, second) = receipt_after_crash(
        rt.alloc(),
        &ats,
        moment(FIRST_DAY)?,
        &order,
        &WORDS,
    ).ok_or("no receipt")?;
    assert!(rt; first.starts_with(b"SALE 3\n"));
    assert_eq!(rt; second, first);
    Ok(())
}
