ghost use Rattle.std.specs.Prelude.{◌≡◌, ◌↔◌, ◌*◌, ◌≤◌, IsSome, IfSome, length, reverse, true};
ghost use Rattle.std.specs.Char.{digit_value, is_ascii_digit};
ghost use Rattle.std.specs.List.{AllPass};
ghost use Rattle.office_rules.specs.Name.{IsMeterNo, doubled, luhn_sum};

use std::marker::Model;

/// The number of a meter: eleven digits, the last one a Luhn check.
///
/// Contracts see its digits as text.
#[derive(Clone, Copy, Debug, PartialEq, Eq)]
pub struct MeterNo {
    digits: [u8; 11],
}

impl Model for MeterNo {
    ghost use Rattle.std.specs.Prelude.{ℕ, List};

    ghost Value = { List ℕ };

    ghost use Rattle.office_rules.specs.Name.{IsMeterNo};

    ghost view = { λ number. number.digits };

    ghost invariant = { λ number. IsMeterNo number.digits };

    ghost inverse = { λ digits. record { digits = digits } };
}

impl MeterNo {
    /// The number that a text is, or `None` exactly where it is outside the rule.
    pub fn read(text: &[u8]) -> Option<MeterNo>
        ensures rule { IsSome result ↔ IsMeterNo text.now }
        ensures value { IfSome result (λ number. number ≡ text.now) }
    {
        if text.len() != 11
            || !text.iter().all(|byte| byte.is_ascii_digit())
            || luhn_sum(text) % 10 != 0
        {
            return None;
        }
        let mut digits = [0; 11];
        digits.copy_from_slice(text);
        Some(MeterNo { digits })
    }

    /// The digits of the number, as text.
    pub fn as_bytes(&self) -> &[u8]
        ensures view { result.now ≡ self.now }
        ensures rule { IsMeterNo self.now }
    {
        &self.digits
    }
}

// The sum of the digits, from the right on, of which every second one is doubled.
fn luhn_sum(digits: &[u8]) -> u32
    requires digits { AllPass is_ascii_digit digits.now }
    requires few { length digits.now ≤ 11 }
    ensures { result ≡ luhn_sum (reverse digits.now) }
{
    let mut sum = 0;
    let mut rest = digits;
    while let [front @ .., tens, ones] = rest {
        sum += digit(*ones) + doubled(digit(*tens));
        rest = front;
    }
    match rest {
        [last] => sum + digit(*last),
        _ => sum,
    }
}

// A digit that is doubled, less nine where that makes more than nine.
fn doubled(digit: u32) -> u32
    requires { digit ≤ 9 }
    ensures value { result ≡ doubled digit }
    ensures digit { result ≤ 9 }
{
    if 2 * digit > 9 {
        2 * digit - 9
    } else {
        2 * digit
    }
}

fn digit(byte: u8) -> u32
    requires { is_ascii_digit byte ≡ true }
    ensures value { result ≡ digit_value byte }
    ensures digit { result ≤ 9 }
{
    u32::from(byte - b'0')
}
