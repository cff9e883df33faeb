ghost use Rattle.std.specs.Prelude.{◌≡◌, ◌↔◌, IsSome, IfSome};
ghost use Rattle.office_rules.specs.Name.{IsOperator};

use crate::name::short_text::ShortText;
use std::marker::Model;

/// Who sells: 1 to 16 ASCII letters or digits.
///
/// Contracts see its bytes.
#[derive(Clone, Copy, Debug, PartialEq, Eq)]
pub struct Operator {
    text: ShortText<16>,
}

impl Model for Operator {
    ghost use Rattle.std.specs.Prelude.{ℕ, List};

    ghost Value = { List ℕ };

    ghost use Rattle.office_rules.specs.Name.{IsOperator};

    ghost view = { λ name. name.text };

    ghost invariant = { λ name. IsOperator name.text };

    ghost inverse = { λ text. record { text = text } };
}

impl Operator {
    /// The name that a text is, or `None` exactly where it is outside the rule.
    pub fn read(text: &[u8]) -> Option<Operator>
        ensures rule { IsSome result ↔ IsOperator text.now }
        ensures value { IfSome result (λ name. name ≡ text.now) }
    {
        if (1..=16).contains(&text.len()) && text.iter().all(|byte| byte.is_ascii_alphanumeric()) {
            Some(Operator {
                text: ShortText::new(text),
            })
        } else {
            None
        }
    }

    /// The bytes of the name.
    pub fn as_bytes(&self) -> &[u8]
        ensures view { result.now ≡ self.now }
        ensures rule { IsOperator self.now }
    {
        self.text.as_bytes()
    }
}
