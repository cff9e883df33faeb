ghost use Rattle.std.specs.Prelude.{◌≡◌, ◌↔◌, IsSome, IfSome};
ghost use Rattle.office_rules.specs.Name.{IsName};

use crate::name::short_text::{ShortText, is_name};
use std::marker::Model;

/// A customer's order, told apart by its operator: 1 to 32 ASCII letters, digits or hyphens.
///
/// Contracts see its bytes.
#[derive(Clone, Copy, Debug, PartialEq, Eq)]
pub struct Ref {
    text: ShortText<32>,
}

impl Model for Ref {
    ghost use Rattle.std.specs.Prelude.{ℕ, List};

    ghost Value = { List ℕ };

    ghost use Rattle.office_rules.specs.Name.{IsName};

    ghost view = { λ name. name.text };

    ghost invariant = { λ name. IsName name.text };

    ghost inverse = { λ text. record { text = text } };
}

impl Ref {
    /// The name that a text is, or `None` exactly where it is outside the rule.
    pub fn read(text: &[u8]) -> Option<Ref>
        ensures rule { IsSome result ↔ IsName text.now }
        ensures value { IfSome result (λ name. name ≡ text.now) }
    {
        if is_name(text) {
            Some(Ref {
                text: ShortText::new(text),
            })
        } else {
            None
        }
    }

    /// The bytes of the name.
    pub fn as_bytes(&self) -> &[u8]
        ensures view { result.now ≡ self.now }
        ensures rule { IsName self.now }
    {
        self.text.as_bytes()
    }
}
