ghost use Rattle.std.specs.Prelude.{◌≡◌, ◌<◌, [], ◌∷◌, drop, map, nat_lt};
ghost use Rattle.std.specs.List.Sorted.{IsPermutation};
ghost use Rattle.sts_token.specs.Meter.{is_member};
ghost use Rattle.sim_meter.specs.Store.{AreSorted, HoldsGreatest, count_below};
ghost use Rattle.sim_meter.specs.StoreLaws.{below_true_first};

use crate::call_count::CallCount;
use crate::probe::{PLACES, Probe, place};
use std::marker::Brand;
use std::sync::ledger::{Blank, Ledger};

// The greatest identifiers that were accepted, sorted upward; at first all are 0.
#[derive(Drop)]
pub(crate) struct Store {
    places: [u32; PLACES],
    ghost sorted: { AreSorted places },
}

impl Store {
    pub(crate) fn new() -> Store
        ensures { HoldsGreatest result.places [] }
    {
        Store {
            places: [0; PLACES],
        }
    }

    // How many of those kept are less than the identifier, so the place where it stands or would
    // stand.
    pub(crate) fn place_of(&self, tid: u32) -> usize
        ensures { result ≡ count_below tid self.now.places }
    {
        self.search::<Brand>(tid, Blank::new(1))
    }

    fn search<L: Ledger>(&self, tid: u32, blank: Blank) -> usize
        requires name { blank.name ≡ L.name }
        requires parts { blank.parts ≡ L.parts }
        requires some { 0 < L.parts }
        ensures { result ≡ count_below tid self.now.places }
    {
        let count = CallCount::<L>::new(blank);
        let mut probe = Below {
            store: self,
            tid,
            count,
        };
        place(&mut probe)
    }

    // Whether the identifier is kept, where `place` is its place.
    pub(crate) fn has(&self, place: usize, tid: u32) -> bool
        requires { place ≡ count_below tid self.now.places }
        ensures { result ≡ is_member self.now.places tid }
    {
        place < PLACES && self.places[place] == tid
    }

    // The identifier comes in, at its place in order, and the least goes.
    pub(crate) fn replace_least(&mut self, place: usize, tid: u32)
        requires is { place ≡ count_below tid self.old.places }
        requires above { 0 < place }
        ensures { IsPermutation (tid ∷ drop 1 self.old.places) self.new.places }
    {
        self.places.copy_within(1..place, 0);
        self.places[place - 1] = tid;
    }
}

// Whether the identifier at a place lies below a number.
#[derive(Drop)]
struct Below<'a, L: Ledger> {
    store: &'a Store,
    tid: u32,
    count: CallCount<L>,
}

impl<'a, L: Ledger> Probe for Below<'a, L> {
    ghost values = { λ p. map (λ kept. nat_lt kept p.tid) p.store.now.places };

    ghost count = { λ p. p.count };

    fn below(&mut self, place: usize) -> bool {
        self.count.add_one();
        self.store.places[place] < self.tid
    }

    ghost true_first = { λ p. below_true_first p.tid p.store.now.places p.store.now.sorted };
}
