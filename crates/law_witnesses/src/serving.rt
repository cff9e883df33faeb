//! The law of connections that a desk serves on the file of an office.
ghost use Rattle.std.specs.Prelude.{◌≡◌, true, IfSome, Ok};
ghost use Rattle.law_witnesses.specs.Recorded.{BeginWithRead, uses_in};

use crate::callers::OneCaller;
use crate::commands::is_sale_for;
use crate::kept::{KeptFile, Nothing};
use crate::offices::{day, sale_of};
use crate::recorded::Recorded;
use crate::runs::sold_on_files;
use asks::{Ask, Lookup};
use books::{Books, OpenFault};
use command_line::{Address, ServeWords, Shipped, Syncs};
use conversation::Script;
use desk::Desk;
use desk_client::message;
use office_lines::values::{FIRST_DAY, METER, moment, order};
use office_rules::{Moment, Order, Request, Sale, Stamped, store_law};
use program_laws::serve_law;
use sqlite::{FileStore, Options};
use sqlite_disk::Memory;
use std::alloc::Global;
use std::test::Fail;
use vend_commands::serve;
use vend_core::{history_law, lives_law};
use vend_ports::Watched;

// Asks for one connection. The file is open, and the door listens nowhere.
const WORDS: ServeWords = ServeWords {
    transform: Shipped::Plain,
    file: "office.db",
    wait: 0,
    syncs: Syncs::Twice,
    listen: Address {
        first: 127,
        second: 0,
        third: 0,
        fourth: 1,
        port: 80,
    },
    connections: 1,
};

// The books that are left where all connections were served.
fn all_served(
    served: Result<(Books<FileStore<Memory>, Shipped>, bool), OpenFault>,
) -> Option<Books<FileStore<Memory>, Shipped>>
    ensures { IfSome result (λ books. served ≡ Ok (books, true)) }
{
    match served {
        Ok((books, true)) => Some(books),
        _ => None,
    }
}

// Books sell an order, and a desk on their files serves a connection that sends this: the sale that
// is found under the order's ref behind it is that sale, whatever was sent. The uses that the
// connection's line recorded begin with a read, if there are any.
fn found_behind_desk(
    alloc: Global,
    ats: &[Stamped],
    moment: Moment,
    order: &Order,
    sent: &[u8],
) -> Option<(Sale, Sale, Recorded)>
    ensures sale { IfSome result (λ found. found.1 ≡ found.0) }
    ensures uses { IfSome result (λ found. BeginWithRead (uses_in found.2.made)) }
{
    history_law();
    lives_law();
    store_law();
    serve_law::<KeptFile<()>, Script, OneCaller>();
    let Some((sale, files)) = sold_on_files(alloc, ats, moment, order) else {
        return None;
    };
    if !is_sale_for(order, &sale) {
        return None;
    }
    let Ok(books) = Books::open_files(alloc, files, Options::new(7), Shipped::Plain) else {
        return None;
    };
    let Ok(desk) = Desk::new(alloc) else {
        return None;
    };
    let mut door = OneCaller::new(alloc, sent);
    let mut clock = Script::new(moment.secs(), &[]);
    let mut err = Vec::new(alloc);
    let mut errors = Watched::new(&mut err);
    let served = serve::<KeptFile<()>, OneCaller, Script, Vec<u8>>(
        &WORDS,
        alloc,
        &desk,
        &Nothing,
        &mut door,
        books,
        &mut clock,
        &mut errors,
    );
    errors.into_inner();
    let Some(mut left) = all_served(served) else {
        return None;
    };
    let Some(line) = door.used.take() else {
        return None;
    };
    let by_ref = Lookup::SaleOfRef(order.operator, order.order_ref);
    let Ok(found) = left.look_up(moment, &by_ref) else {
        return None;
    };
    match sale_of(&found) {
        Some(again) => Some((sale, again, line)),
        None => None,
    }
}

#[test]
fn a_sale_stands_behind_a_desk(rt: HostRuntime) -> Result<(), Fail> {
    let ats = day(rt.alloc(), &[])?;
    let now = moment(FIRST_DAY)?;
    let (Request::Sell(first), Request::Sell(other)) = (
        order(b"A-7", METER, 10)?,
        order(b"A-8", METER, 20)?,
    ) else {
        return Err("no order".into());
    };
    let sent = message(rt.alloc(), &Ask::Do(Request::Sell(other)))?;
    let found = found_behind_desk(rt.alloc(), &ats, now, &first, &sent).ok_or("no sale")?;
    let (sale, again, _line) = found;
    assert_eq!(rt; sale.number, 2);
    assert_eq!(rt; again, sale);
    Ok(())
}
