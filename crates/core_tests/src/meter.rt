//! What the simulated meter answers and credits (`sim_meter`).

use crate::tokens::draw;
use sim_meter::{Answer, Meter};
use std::ops::Range;
use std::process::Abort;
use std::test::Fail;
use sts_fields::Amount;
use sts_token::{BlockTransform, Demo, Fields, Plain, TokenFault, write};

const KEY: u64 = 0x0123_4567_89AB_CDEF;

fn token(tid: u32, amount: Amount) -> [u8; 20] {
    let tid = tid & 0xFF_FFFF;
    write(
        &Plain,
        KEY,
        Fields {
            rnd: 3,
            tid,
            amount,
        },
    )
}

// It has no clause, so that the proof of a test does not carry what the meter promises.
fn enter<T: BlockTransform>(meter: &mut Meter<T>, digits: &[u8]) -> Answer {
    meter.enter(digits)
}

// Enters the tokens of these identifiers, of which each is taken.
fn takes_each<T: BlockTransform>(
    rt: &impl Abort,
    meter: &mut Meter<T>,
    tids: Range<u32>,
    amount: Amount,
) {
    for tid in tids {
        let answer = enter(meter, &token(tid, amount));
        assert_eq!(rt; answer, Answer::Accepted(amount), "{tid}");
    }
}

// A token's answer, and the credit after it.
fn answers<T: BlockTransform>(
    rt: &impl Abort,
    meter: &mut Meter<T>,
    digits: &[u8],
    answer: Answer,
    credit: u64,
) {
    assert_eq!(rt; enter(meter, digits), answer, "{digits:?}");
    assert_eq!(rt; meter.credit(), credit, "{digits:?}");
}

#[test]
fn forgets_the_least_of_fifty(rt: HostRuntime) -> Result<(), Fail> {
    let amount = Amount::of_tenths(16_384).ok_or("representable")?;
    let taken = Answer::Accepted(amount);
    let mut full = Meter::new(Plain, KEY);
    takes_each(&rt, &mut full, 100..150, amount);
    answers(&rt, &mut full, &token(50, amount), Answer::Old, 819_200);
    answers(&rt, &mut full, &token(149, amount), Answer::Used, 819_200);
    answers(&rt, &mut full, &token(0, amount), Answer::Old, 819_200);
    let mut nearly = Meter::new(Plain, KEY);
    takes_each(&rt, &mut nearly, 100..149, amount);
    answers(&rt, &mut nearly, &token(50, amount), taken, 819_200);
    answers(&rt, &mut nearly, &token(50, amount), Answer::Used, 819_200);
    answers(&rt, &mut nearly, &token(49, amount), Answer::Old, 819_200);
    Ok(())
}

#[test]
fn takes_a_token_once(rt: HostRuntime) -> Result<(), Fail> {
    let taken = Answer::Accepted(Amount::of_tenths(1).ok_or("representable")?);
    let mut meter = Meter::new(Plain, 0);
    assert_eq!(rt; meter.credit(), 0);
    answers(&rt, &mut meter, b"00144115200960832043", taken, 1);
    answers(&rt, &mut meter, b"00072057602627981690", taken, 2);
    answers(&rt, &mut meter, b"00072057602627981690", Answer::Used, 2);
    let bad = Answer::Refused(TokenFault::BadCheck);
    answers(&rt, &mut meter, b"00072057602627981691", bad, 2);
    let no_digits = Answer::Refused(TokenFault::NotTwentyDigits);
    answers(&rt, &mut meter, b"", no_digits, 2);
    meter.clear();
    assert_eq!(rt; meter.credit(), 2);
    answers(&rt, &mut meter, b"00072057602627981690", taken, 3);
    Ok(())
}

#[test]
fn never_takes_the_identifier_0(rt: HostRuntime) -> Result<(), Fail> {
    let amount = Amount::of_tenths(1).ok_or("representable")?;
    let mut meter = Meter::new(Plain, KEY);
    assert_eq!(rt; meter.enter(&token(0, amount)), Answer::Used);
    assert_eq!(rt; meter.credit(), 0);
    Ok(())
}

#[test]
fn reads_by_its_own_transform_and_key(rt: HostRuntime) -> Result<(), Fail> {
    let amount = Amount::of_tenths(1).ok_or("representable")?;
    let mut meter = Meter::new(Demo, KEY);
    assert_eq!(rt;
        meter.enter(b"13215608728897056678"),
        Answer::Accepted(amount)
    );
    let mut other = Meter::new(Demo, KEY + 1);
    assert_ne!(rt;
        other.enter(b"13215608728897056678"),
        Answer::Accepted(amount)
    );
    Ok(())
}

// A meter as it was first written: fifty places in no order, each looked at.
#[derive(Drop)]
struct PlainMeter {
    store: [u32; 50],
    credit: u64,
}

impl PlainMeter {
    fn enter(&mut self, tid: u32, amount: Amount) -> Answer {
        let (least, place) = least_of(&self.store);
        if tid < least {
            return Answer::Old;
        }
        if self.store.contains(&tid) {
            return Answer::Used;
        }
        if let Some(kept) = self.store.get_mut(place) {
            *kept = tid;
        }
        self.credit = self.credit.saturating_add(u64::from(amount.tenths()));
        Answer::Accepted(amount)
    }
}

// The least of the places, and where it stands.
fn least_of(store: &[u32; 50]) -> (u32, usize) {
    let mut least = (u32::MAX, 0);
    for (place, tid) in store.iter().enumerate() {
        if *tid < least.0 {
            least = (*tid, place);
        }
    }
    least
}

#[test]
fn answers_as_fifty_places_in_no_order(rt: HostRuntime) -> Result<(), Fail> {
    let amount = Amount::of_tenths(7).ok_or("representable")?;
    let mut meter = Meter::new(Plain, KEY);
    let mut plain = PlainMeter {
        store: [0; 50],
        credit: 0,
    };
    let mut drawn = 1;
    let mut answers = [0u32; 3];
    for entry in 0..6_000u32 {
        if entry % 2_000 == 1_999 {
            meter.clear();
            plain.store = [0; 50];
        }
        drawn = draw(drawn);
        // A hundred identifiers at a time, which rise by one in four entries.
        let tid = entry / 4 + (drawn % 100) as u32;
        let answer = enter(&mut meter, &token(tid, amount));
        assert_eq!(rt; answer, plain.enter(tid, amount), "{entry}: {tid}");
        assert_eq!(rt; meter.credit(), plain.credit, "{entry}");
        let which = match answer {
            Answer::Accepted(_) => 0,
            Answer::Used => 1,
            _ => 2,
        };
        answers[which] = answers[which].saturating_add(1);
    }
    assert!(rt; answers.iter().all(|count| *count > 100), "{answers:?}");
    Ok(())
}
