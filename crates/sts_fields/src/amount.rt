ghost use Rattle.std.specs.Prelude.{◌≡◌, ◌*◌, ◌/◌, ◌%◌, ◌+◌, ◌^◌, ◌<◌, ◌≤◌, ◌↔◌, ℕ, IsSome, IfSome};
ghost use Rattle.sts_fields.specs.Amount.{HasParts, IsCode, IsFloor, IsRepresentable, LiesIn};
ghost use Rattle.sts_fields.specs.Amount.{amount_of_code, code_of, exponent_of, greatest_amount};
ghost use Rattle.sts_fields.specs.Amount.{start_of};

use std::marker::Model;

/// A transfer amount: a number of tenths of a kWh that a token can carry.
///
/// It is written as a code of sixteen bits, an exponent of two and a mantissa of fourteen
/// (`docs/PROFILE.md`, "Amounts"). Contracts see its tenths, from 0 to `greatest_amount`.
#[derive(Clone, Copy, Debug, PartialEq, Eq, PartialOrd, Ord, Hash)]
pub struct Amount {
    tenths: u32,
}

impl Model for Amount {
    ghost use Rattle.std.specs.Prelude.{ℕ};

    ghost Value = { ℕ };

    ghost use Rattle.sts_fields.specs.Amount.{IsRepresentable};

    ghost view = { λ a. a.tenths };

    ghost invariant = { λ a. IsRepresentable a.tenths };

    ghost inverse = { λ t. record { tenths = t } };
}

impl Amount {
    /// The greatest amount that a token can carry, in tenths of a kWh.
    pub const MAX_TENTHS: u32 = 18_201_624;

    /// The amount of so many tenths of a kWh, or `None` exactly where no code stands for it.
    pub fn of_tenths(tenths: u32) -> Option<Amount>
        ensures representable { IsSome result ↔ IsRepresentable tenths }
        ensures value { IfSome result (λ amount. amount ≡ tenths) }
    {
        let exponent = exponent(tenths);
        if tenths <= Self::MAX_TENTHS && (tenths - start(exponent)) % step(exponent) == 0 {
            Some(Amount { tenths })
        } else {
            None
        }
    }

    /// The greatest amount that is not above so many tenths of a kWh.
    pub fn floor(tenths: u32) -> Amount
        requires { tenths ≤ greatest_amount }
        ensures { IsFloor tenths result }
    {
        let exponent = exponent(tenths);
        let above_amount = (tenths - start(exponent)) % step(exponent);
        Amount {
            tenths: tenths - above_amount,
        }
    }

    /// The amount in tenths of a kWh.
    pub fn tenths(self) -> u32
        ensures value { result ≡ self }
        ensures representable { IsRepresentable result }
        ensures within { result ≤ greatest_amount }
    {
        self.tenths
    }

    /// The code: the exponent in the two high bits, the mantissa in the fourteen low ones.
    pub fn code(self) -> u16
        ensures code { IsCode self result }
        ensures value { result ≡ code_of self }
    {
        let exponent = exponent(self.tenths);
        let mantissa = (self.tenths - start(exponent)) / step(exponent);
        (exponent * 16_384 + mantissa) as u16
    }

    /// The amount that a code stands for. Each of the 65536 codes stands for one.
    pub fn of_code(code: u16) -> Amount
        ensures code { IsCode result code }
        ensures value { result ≡ amount_of_code code }
    {
        let exponent = u32::from(code / 16_384);
        let mantissa = u32::from(code % 16_384);
        Amount {
            tenths: step(exponent) * mantissa + start(exponent),
        }
    }
}

// The exponent of the range that so many tenths lie in.
fn exponent(tenths: u32) -> u32
    ensures value { result ≡ exponent_of tenths }
    ensures range { LiesIn tenths result }
{
    if tenths < 16_384 {
        0
    } else if tenths < 180_224 {
        1
    } else if tenths < 1_818_624 {
        2
    } else {
        3
    }
}

// How far two neighbouring amounts of an exponent lie apart, in tenths.
fn step(exponent: u32) -> u32
    requires { exponent < 4 }
    ensures { result ≡ 10 ^ exponent }
{
    match exponent {
        0 => 1,
        1 => 10,
        2 => 100,
        _ => 1000,
    }
}

// The least amount of an exponent, in tenths.
fn start(exponent: u32) -> u32
    requires { exponent < 4 }
    ensures { result ≡ start_of exponent }
{
    match exponent {
        0 => 0,
        1 => 16_384,
        2 => 180_224,
        _ => 1_818_624,
    }
}

/// What the code of an amount means: codes and representable amounts correspond one to one.
pub fn amount_law()
    ensures one_pair { (t e m k n : ℕ) → HasParts t e m → HasParts t k n → (e ≡ k) × (m ≡ n) }
    ensures each_code { (c : ℕ) → c < 2 ^ 16 → IsCode (amount_of_code c) c }
    ensures each_amount { (t : ℕ) → IsRepresentable t → IsCode t (code_of t) }
    ensures one_code { (t c d : ℕ) → IsCode t c → IsCode t d → c ≡ d }
    ensures one_amount { (t u c : ℕ) → IsCode t c → IsCode u c → t ≡ u }
    ensures sixteen_bits { (t c : ℕ) → IsCode t c → c < 2 ^ 16 }

    // Amounts rise with their codes, up to the greatest.
    ensures rises { (c d : ℕ) → c < d → d < 2 ^ 16 → amount_of_code c < amount_of_code d }
    ensures greatest { (t : ℕ) → IsRepresentable t → t ≤ greatest_amount }
    ensures greatest_code { amount_of_code 65535 ≡ greatest_amount }
{}
