ghost use Rattle.std.specs.Prelude.{◌≡◌};
ghost use Rattle.sts_token.specs.Demo.{after_round, before_round, demo_forward, demo_inverse};
ghost use Rattle.sts_token.specs.Demo.{halves_of, joined, mixed, round_keys};
ghost use Rattle.sts_token.specs.DemoLaws.{demo_forward_range, demo_forward_undoes};
ghost use Rattle.sts_token.specs.DemoLaws.{demo_inverse_range, demo_inverse_undoes};

use crate::transform::BlockTransform;

/// A four-round Feistel network on halves of 32 bits (`docs/PROFILE.md`, "Transforms").
///
/// It shows that a key matters. It gives no secrecy.
#[derive(Clone, Copy, Debug, Default, PartialEq, Eq, Hash)]
pub struct Demo;

impl BlockTransform for Demo {
    ghost forwards = { λ _. demo_forward };

    ghost inverses = { λ _. demo_inverse };

    fn forward(&self, key: u64, block: u64) -> u64 {
        let mut halves = Halves::of(block);
        for round_key in round_keys(key) {
            halves = halves.after_round(round_key);
        }
        halves.joined()
    }

    fn inverse(&self, key: u64, block: u64) -> u64 {
        let mut halves = Halves::of(block);
        let mut last_first = round_keys(key);
        last_first.reverse();
        for round_key in last_first {
            halves = halves.before_round(round_key);
        }
        halves.joined()
    }

    ghost forward_range = { λ _. demo_forward_range };

    ghost inverse_range = { λ _. demo_inverse_range };

    ghost inverse_undoes = { λ _. demo_inverse_undoes };

    ghost forward_undoes = { λ _. demo_forward_undoes };
}

// The halves of a block, as the rounds swap them.
#[derive(Clone, Copy)]
struct Halves {
    left: u32,
    right: u32,
}

impl Halves {
    fn of(block: u64) -> Halves
        ensures { result ≡ halves_of block }
    {
        Halves {
            left: (block >> 32) as u32,
            right: (block & 0xFFFF_FFFF) as u32,
        }
    }

    fn joined(self) -> u64
        ensures { result ≡ joined self }
    {
        u64::from(self.left) << 32 | u64::from(self.right)
    }

    fn after_round(self, round_key: u32) -> Halves
        ensures { result ≡ after_round self round_key }
    {
        Halves {
            left: self.right,
            right: self.left ^ mixed(self.right, round_key),
        }
    }

    fn before_round(self, round_key: u32) -> Halves
        ensures { result ≡ before_round self round_key }
    {
        Halves {
            left: self.right ^ mixed(self.left, round_key),
            right: self.left,
        }
    }
}

// The round function.
fn mixed(half: u32, round_key: u32) -> u32
    ensures { result ≡ mixed half round_key }
{
    let sum = half.wrapping_add(round_key);
    sum.rotate_left(5) ^ sum.rotate_left(12)
}

// The keys of the four rounds.
fn round_keys(key: u64) -> [u32; 4]
    ensures { result ≡ round_keys key }
{
    let Halves { left, right } = Halves::of(key);
    [left, right, left ^ 0xA5A5_A5A5, right ^ 0x5A5A_5A5A]
}
