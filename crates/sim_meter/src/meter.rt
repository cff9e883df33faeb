ghost use Rattle.std.specs.Prelude.{◌≡◌, List, [], ◌∷◌, ◌++◌, false};
ghost use Rattle.sts_token.specs.Meter.{Entry, Reader, Taken, answer_to, answered, cleared};
ghost use Rattle.sts_token.specs.Meter.{credit_of, entered};
ghost use Rattle.sts_token.specs.Reading.{reading_of};
ghost use Rattle.sim_meter.specs.Meter.{ComesFrom, MeterHolds, answer_after, answer_for};
ghost use Rattle.sim_meter.specs.Meter.{is_accepted};

use crate::answer::Answer;
use crate::store::Store;
use sts_token::{BlockTransform, Fields, read};

/// A meter with its transform and key.
///
/// Contracts say what it does by the entries that it comes from: `ComesFrom T.inverses reader
/// history` holds of a meter that reads texts as `reader` and was given these texts and clearings
/// since it was new.
#[derive(Drop)]
pub struct Meter<T> {
    transform: T,
    key: u64,
    store: Store,
    // The sum of all amounts accepted, in tenths of a kWh.
    credit: u64,
}

impl<T: BlockTransform> Meter<T> {
    /// A new meter, which has accepted nothing.
    pub fn new(transform: T, key: u64) -> Meter<T>
        ensures { ComesFrom T.inverses (reading_of (T.inverses transform) key) [] result }
    {
        Meter {
            transform,
            key,
            store: Store::new(),
            credit: 0,
        }
    }

    /// Enters a text (`docs/PROFILE.md`, "The meter"). Every answer but `Accepted` leaves the meter
    /// unchanged.
    pub fn enter(&mut self, text: &[u8]) -> Answer
        ensures answer { (reader : Reader) (history : List Entry)
            → ComesFrom T.inverses reader history self.old
            → result ≡ answer_after reader history text.now }
        ensures entered { (reader : Reader) (history : List Entry)
            → ComesFrom T.inverses reader history self.old
            → ComesFrom T.inverses reader (history ++ entered text.now ∷ []) self.new }
        ensures unchanged { is_accepted result ≡ false → self.new ≡ self.old }
    {
        match read(&self.transform, self.key, text) {
            Ok(fields) => self.take(fields),
            Err(fault) => Answer::Refused(fault),
        }
    }

    /// The credit in tenths of a kWh. It stays at 2^64 - 1 once it would pass it.
    pub fn credit(&self) -> u64
        ensures { (reader : Reader) (history : List Entry)
            → ComesFrom T.inverses reader history self.now
            → result ≡ credit_of reader history }
    {
        self.credit
    }

    /// Forgets the identifiers that were accepted, and keeps the credit.
    pub fn clear(&mut self)
        ensures { (reader : Reader) (history : List Entry)
            → ComesFrom T.inverses reader history self.old
            → ComesFrom T.inverses reader (history ++ cleared ∷ []) self.new }
    {
        self.store = Store::new();
    }

    // Enters a token that was read.
    fn take(&mut self, fields: Fields) -> Answer
        ensures answer { (taken : Taken) → MeterHolds taken self.old
            → result ≡ answer_for fields (answer_to taken.tids fields.tid) }
        ensures holds { (taken : Taken) → MeterHolds taken self.old
            → MeterHolds (answered taken fields (answer_to taken.tids fields.tid)) self.new }
        ensures unchanged { is_accepted result ≡ false → self.new ≡ self.old }
        ensures same_transform { self.new.transform ≡ self.old.transform }
        ensures same_key { self.new.key ≡ self.old.key }
    {
        let place = self.store.place_of(fields.tid);
        if self.store.has(place, fields.tid) {
            return Answer::Used;
        }
        if place == 0 {
            return Answer::Old;
        }
        self.store.replace_least(place, fields.tid);
        self.credit = self
            .credit
            .saturating_add(u64::from(fields.amount.tenths()));
        Answer::Accepted(fields.amount)
    }
}
