//! Runs on what a run left in which a call of the store was refused.
ghost use Rattle.std.specs.Prelude.{◌≡◌, ◌&&◌, not, ⊤, IfSome, IsTrue};
ghost use Rattle.sqlite_disk.specs.Memory.{memory_bytes, memory_is_usable};

use crate::kept::{Kept, Nothing};
use crate::offices::day;
use crate::runs::{Later, Then, WORDS, back_of, order_said, ports_on, ran, sold_on_files};
use books::OpenFault;
use conversation::Script;
use disk_testing::{Faults, Lapse, NO_FAULTS};
use office_lines::values::{FIRST_DAY, METER, moment, order};
use office_rules::{Moment, Order, Request, Stamped};
use program_laws::run_law;
use sqlite::Files;
use sqlite_disk::{Disk, Memory};
use std::alloc::Global;
use std::test::Fail;
use vend_commands::{Back, CommandEnd, LogName, Machine, OfficeFile, Ports};
use vend_core::office_law;

/// A machine whose office's file is in memory, and refuses a call.
struct Lapsing;

impl Machine for Lapsing {
    type Office = LapsingFile;

    type Texts = Nothing;

    type Clock = Script<'static>;

    type Door = Nothing;

    type Loopback = Nothing;

    type Progress = Nothing;
}

/// The log and the database file.
#[derive(Drop)]
struct LapsingFile {
    log: Lapse<Memory>,
    db: Lapse<Memory>,
    ghost log_may_be_used: { IsTrue (memory_is_usable log.inner && not log.sync_refused) },
    ghost db_may_be_used: { IsTrue (memory_is_usable db.inner && not db.sync_refused) },
}

impl OfficeFile for LapsingFile {
    type Medium = Lapse<Memory>;

    type Salts = Nothing;

    ghost image = { λ kept _. record {
      log = memory_bytes kept.log.inner;
      db = memory_bytes kept.db.inner;
    } };

    ghost finds = { λ kept _ _ log db. (log ≡ kept.log) × (db ≡ kept.db) };

    ghost fails = { λ _ _ _ _. ⊤ };

    ghost meets = { λ kept _ _ log db. (log ≡ kept.log) × (db ≡ kept.db) };

    ghost misses = { λ _ _ _. ⊤ };

    ghost lets_go = { λ _ _ _. ⊤ };

    ghost names = { λ _ _ _. ⊤ };

    ghost ends_look = { λ _ _ _ _. ⊤ };

    ghost leaves = { λ _ _. ⊤ };

    fn salts(&self) -> Nothing {
        Nothing
    }

    fn new_log(&self, _path: &str) -> LogName {
        LogName::none()
    }

    fn find(self, _path: &str, _wait: u32) -> Result<(Lapse<Memory>, Lapse<Memory>), OpenFault> {
        let LapsingFile { log, db, .. } = self;
        Ok((log, db))
    }

    fn find_present(
        self,
        path: &str,
        wait: u32,
    ) -> Result<Option<(Lapse<Memory>, Lapse<Memory>)>, OpenFault> {
        match self.find(path, wait) {
            Ok(files) => Ok(Some(files)),
            Err(fault) => Err(fault),
        }
    }

    fn let_go<D: Drop>(log: D, db: D) -> Back<D>
        ensures lets_go { ⊤ }
        ensures back { IfSome result (λ it. it ≡ (log, db)) }
    {
        Some((log, db))
    }

    fn let_go_looked<D: Drop>(log: D, db: D, _salts: &Nothing, _new_log: &LogName)
        ensures { ⊤ }
    {
        drop(log);
        drop(db);
    }

    fn leave<T: Drop>(it: T)
        ensures { ⊤ }
    {
        drop(it);
    }
}

// The ports of such a machine, whose log refuses the call of this number.
fn lapsing_ports(files: Files<Memory>, call: u64, second: i64) -> Option<Ports<Lapsing>>
    ensures log { IfSome result (λ ports. ports.office.log.inner ≡ files.log) }
    ensures db { IfSome result (λ ports. ports.office.db.inner ≡ files.db) }
{
    let refused = Faults {
        before: call.saturating_sub(1),
        failing: 1,
    };
    let log = Lapse::of_all_calls(files.log, refused);
    let db = Lapse::of_all_calls(files.db, NO_FAULTS);
    if !log.may_be_used() || !db.may_be_used() {
        return None;
    }
    Some(Ports {
        office: LapsingFile { log, db },
        texts: Nothing,
        clock: Script::new(second, &[]),
        door: Nothing,
        loopback: Nothing,
        progress: Nothing,
    })
}

// Books sell an order. A run by words that say another one sells that. In the next run, by whatever
// words, the store refuses a call of the log. A run by the first words on what that one left, on a
// machine of another type, prints the receipt that the first run printed.
fn receipt_after_lapse(
    alloc: Global,
    ats: &[Stamped],
    moment: Moment,
    order: &Order,
    words: &[&str],
    others: &[&str],
    call: u64,
) -> Option<(CommandEnd, Vec<u8>, Vec<u8>)>
    ensures { IfSome result (λ it. it.2.items ≡ it.1.items) }
{
    office_law();
    run_law::<Kept<Then>>();
    run_law::<Lapsing>();
    run_law::<Kept<Later>>();
    let Some(_said) = order_said(alloc, words) else {
        return None;
    };
    let Some((_sale, files)) = sold_on_files(alloc, ats, moment, order) else {
        return None;
    };
    let Some((ended, first)) = ran(alloc, ports_on::<Then>(files, moment.secs()), words) else {
        return None;
    };
    let CommandEnd::Done = ended.end else {
        return None;
    };
    let Some((log, db)) = back_of(ended) else {
        return None;
    };
    let Some(ports) = lapsing_ports(Files { log, db }, call, moment.secs()) else {
        return None;
    };
    let Some((stopped, _nothing)) = ran(alloc, ports, others) else {
        return None;
    };
    let end = stopped.end;
    let Some((lapsed, kept)) = back_of(stopped) else {
        return None;
    };
    let log = lapsed.into_inner();
    let db = kept.into_inner();
    if !log.may_be_used() || !db.may_be_used() {
        return None;
    }
    let left = Files { log, db };
    let Some((again, second)) = ran(alloc, ports_on::<Later>(left, moment.secs()), words) else {
        return None;
    };
    match again.end {
        CommandEnd::Done => Some((end, first, second)),
        _ => None,
    }
}

const OTHERS: [&str; 11] = [
    "sell",
    "--file",
    "office.db",
    "--operator",
    "ann",
    "--ref",
    "A-8",
    "--meter",
    "12345678903",
    "--tender",
    "20",
];

// Among these calls of the log are those of the second run's commit.
const FIRST_CALL: u64 = 24;

const LAST_CALL: u64 = 40;

// Each of them is refused in turn, up to one at which the second run does not sell and can still
// close its files.
#[test]
fn a_run_after_a_stop_prints_the_first_receipt(rt: HostRuntime) -> Result<(), Fail> {
    let ats = day(rt.alloc(), &[])?;
    let now = moment(FIRST_DAY)?;
    let Request::Sell(order) = order(b"A-6", METER, 20)? else {
        return Err("no order".into());
    };
    for call in FIRST_CALL..=LAST_CALL {
        let Some((end, first, second)) = receipt_after_lapse(
            rt.alloc(),
            &ats,
            now,
            &order,
            &WORDS,
            &OTHERS,
            call,
        ) else {
            continue;
        };
        assert!(rt; first.starts_with(b"SALE 3\n"));
        assert_eq!(rt; second, first);
        if end == CommandEnd::Refused {
            return Ok(());
        }
    }
    Err("no call was refused so".into())
}
