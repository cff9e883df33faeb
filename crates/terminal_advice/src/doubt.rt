//! Whether this computer's clock looks wrong, by the last sale before one that is made by it.
ghost use Rattle.std.specs.Prelude.{◌≡◌, Bool, IfSome, MatchOption, false, map};
ghost use Rattle.std.specs.Io.KnownBytes.{Keeps};
ghost use Rattle.terminal_advice.specs.Doubt.{AreFarApart, IsDoubted, IsFileByClock, IsSaid};
ghost use Rattle.terminal_advice.specs.Doubt.{SellsByClock, moments_line};
ghost use Rattle.vend_ports.specs.print.Told.{IsTaken};

use crate::look::Look;
use crate::second_line::put_words;
use crate::time::{put, time_text};
use asks::Ask;
use command_line::{AskWords, Asked, Place, meant, parse};
use office_rules::Request;
use std::alloc::Global;
use std::io::Write;
use sts_fields::Moment;

// By so many seconds the last sale may be later than the clock, and by so many earlier.
const LATER: i64 = 300;

const EARLIER: i64 = 7 * 86_400;

/// The moment of the last sale, and the clock's, which is far from it.
#[derive(Clone, Copy)]
pub(crate) struct Doubt {
    pub(crate) last: Moment,
    pub(crate) now: Moment,
}

/// Where words ask to sell from a file by this computer's clock: whether the last sale there lies
/// far from it.
pub(crate) fn doubt_over<L: Look>(alloc: Global, words: &[&str], look: &L) -> Option<Doubt>
    ensures { IfSome result (IsDoubted (L.is_last look.now) (L.is_now look.now)
        (map (λ w. w.now) words.now)) }
{
    let Ok(line) = meant(alloc, words) else {
        return None;
    };
    let Ok(matches) = parse(alloc, &line) else {
        return None;
    };
    let Ok(asked) = Asked::read(alloc, &matches) else {
        return None;
    };
    match selling_file(&asked) {
        Some(file) => doubt_of(look, file),
        None => None,
    }
}

// The file from which is sold by this computer's clock.
fn selling_file<'a>(asked: &Asked<'_, 'a>) -> Option<&'a str>
    ensures { IfSome result (λ file. SellsByClock asked.now file.now) }
{
    match asked {
        Asked::Office(words) => match &words.ask {
            AskWords::Ask(Ask::Do(Request::Sell(_))) => file_by_clock(&words.place),
            _ => None,
        },
        _ => None,
    }
}

// The file that is asked by this computer's clock.
fn file_by_clock<'a>(place: &Place<'a>) -> Option<&'a str>
    ensures { IfSome result (λ file. IsFileByClock place.now file.now) }
{
    match place {
        Place::File(file) => match file.at {
            Some(_) => None,
            None => Some(file.path),
        },
        // It has its own clock.
        Place::Desk(_) => None,
    }
}

// What is to be said of the last sale in a file.
fn doubt_of<L: Look>(look: &L, file: &str) -> Option<Doubt>
    ensures last { IfSome result (λ doubt. L.is_last look.now file.now doubt.last) }
    ensures now { IfSome result (λ doubt. L.is_now look.now doubt.now) }
    ensures apart { IfSome result (λ doubt. AreFarApart doubt.last doubt.now) }
{
    match (look.last_sale(file), look.now()) {
        (Some(last), Some(now)) => far_apart(last, now),
        _ => None,
    }
}

// The two moments, if they are further apart than a clock that is right would have them.
fn far_apart(last: Moment, now: Moment) -> Option<Doubt>
    ensures { IfSome result (λ doubt. (doubt ≡ record { last = last; now = now })
        × AreFarApart last now) }
{
    let later = last.secs() - now.secs();
    if later > LATER || later < -EARLIER {
        Some(Doubt { last, now })
    } else {
        None
    }
}

/// Says what is doubted, if anything is, in one line.
pub(crate) fn say_doubt<E: Write>(doubt: Option<Doubt>, err: &mut E)
    ensures { MatchOption doubt (Keeps (E.contents err.old) (E.contents err.new))
        (λ it. IsSaid it (E.contents err.old) (E.contents err.new)) }
{
    match doubt {
        Some(doubt) => put_doubt(doubt, err),
        None => {}
    }
}

// Says it, in one line.
fn put_doubt<E: Write>(doubt: Doubt, err: &mut E)
    ensures { IsSaid doubt (E.contents err.old) (E.contents err.new) }
{
    let mut last = time_text(doubt.last);
    put(&mut last, b",");
    let mut now = time_text(doubt.now);
    put(&mut now, b".");
    put_moments(&last, &now, err);
}

// Says it of two moments, as they are written.
fn put_moments<E: Write>(last: &[u8], now: &[u8], err: &mut E)
    ensures { (failed : Bool) × IsTaken false failed (E.contents err.old) (E.contents err.new)
        (moments_line last.now now.now) }
{
    let words: [&[u8]; 5] = [
        b"The last sale before this was at",
        last,
        b"and this computer's clock says",
        now,
        b"Is the clock right?",
    ];
    put_words(&words, err);
}
