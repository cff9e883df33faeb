ghost use Rattle.std.specs.Prelude.{◌≡◌, ◌<◌, ◌^◌, ℕ};
ghost use Rattle.std.proofs.Common.{rules};
ghost use Rattle.sts_token.specs.Token.{BlockFunction};

/// A way to scramble a block of 64 bits with a key of 64 bits, and back.
///
/// A meter and the office that sells to it have the same one. The transforms that ship give no
/// secrecy (`docs/PROFILE.md`, "Transforms").
pub trait BlockTransform {
    /// What `forward` gives for a key and a block.
    ghost forwards: { Self → BlockFunction };

    /// What `inverse` gives for a key and a block.
    ghost inverses: { Self → BlockFunction };

    /// The block as it is sent.
    fn forward(&self, key: u64, block: u64) -> u64
        ensures { result ≡ forwards self.now key block };

    /// The block that was sent.
    fn inverse(&self, key: u64, block: u64) -> u64
        ensures { result ≡ inverses self.now key block };

    ghost forward_range: { (t : Self) (key block : ℕ) → key < 2 ^ 64 → block < 2 ^ 64
        → forwards t key block < 2 ^ 64 };

    ghost inverse_range: { (t : Self) (key block : ℕ) → key < 2 ^ 64 → block < 2 ^ 64
        → inverses t key block < 2 ^ 64 };

    ghost inverse_undoes: { (t : Self) (key block : ℕ) → key < 2 ^ 64 → block < 2 ^ 64
        → inverses t key (forwards t key block) ≡ block };

    ghost forward_undoes: { (t : Self) (key block : ℕ) → key < 2 ^ 64 → block < 2 ^ 64
        → forwards t key (inverses t key block) ≡ block };
}

/// The transform that leaves each block as it is.
#[derive(Clone, Copy, Debug, Default, PartialEq, Eq, Hash)]
pub struct Plain;

impl BlockTransform for Plain {
    ghost forwards = { λ _ _ block. block };

    ghost inverses = { λ _ _ block. block };

    fn forward(&self, _key: u64, block: u64) -> u64 {
        block
    }

    fn inverse(&self, _key: u64, block: u64) -> u64 {
        block
    }

    ghost forward_range = { Prim.search rules };

    ghost inverse_range = { Prim.search rules };

    ghost inverse_undoes = { Prim.search rules };

    ghost forward_undoes = { Prim.search rules };
}
