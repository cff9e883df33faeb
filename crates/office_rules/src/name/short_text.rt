ghost use Rattle.std.specs.Prelude.{◌≡◌, ◌≤◌, ◌↔◌, length, IsTrue};
ghost use Rattle.office_rules.specs.Name.{IsName};

use std::marker::Model;

/// A text of at most N bytes, kept in place, so that a copy takes no memory.
///
/// Contracts see its bytes. The places behind them are 0, so that equal texts are equal values.
#[derive(Clone, Copy, Debug, PartialEq, Eq)]
pub(crate) struct ShortText<const N: usize> {
    bytes: [u8; N],
    len: usize,
}

impl<const N: usize> Model for ShortText<N> {
    ghost use Rattle.std.specs.Prelude.{ℕ, List, length, take};
    ghost use Rattle.std.proofs.Common.{ap, ◌∙◌};
    ghost use Rattle.office_rules.specs.Name.ShortText.{IsPadded, padded, padded-text, length-text};

    ghost Value = { List ℕ };

    ghost view = { λ t. take t.len t.bytes };

    ghost invariant = { λ t. IsPadded N t.len t.bytes };

    ghost inverse = { λ text. record { bytes = padded N text; len = length text } };

    ghost inverse_ok = { λ t p.
        ap (λ (all : List ℕ). let r : Inside = record {
          bytes = all;
          len = length (take t.len t.bytes);
        } in r) (padded-text N t.len t.bytes p)
        ∙ ap (λ (k : ℕ). let r : Inside = record { bytes = t.bytes; len = k } in r)
        (length-text N t.len t.bytes p) };
}

impl<const N: usize> ShortText<N> {
    pub(crate) fn new(text: &[u8]) -> Self
        requires { length text.now ≤ N }
        ensures { result ≡ text.now }
    {
        let mut bytes = [0; N];
        bytes[..text.len()].copy_from_slice(text);
        ShortText {
            bytes,
            len: text.len(),
        }
    }

    pub(crate) fn as_bytes(&self) -> &[u8]
        ensures { result.now ≡ self.now }
    {
        &self.bytes[..self.len]
    }
}

// Whether a text is 1 to 32 ASCII letters, digits or hyphens.
pub(crate) fn is_name(text: &[u8]) -> bool
    ensures { IsTrue result ↔ IsName text.now }
{
    (1..=32).contains(&text.len())
        && text
            .iter()
            .all(|byte| byte.is_ascii_alphanumeric() || *byte == b'-')
}
